use json_texts::{Position, value_text};
use serde_json::Value;
use std::test::Fail;

#[test]
fn a_value_and_a_place_in_a_message(rt: HostRuntime) -> Result<(), Fail> {
    let value = Value::from_slice(rt.alloc(), br#"["AS\u0007", 7]"#)?;
    assert!(rt; value_text(rt.alloc(), &value)?.as_str() == r#"["AS\u0007",7]"#);
    assert!(rt; Position::at(b"{\n  x}", 4) == Position { line: 2, column: 3 });
    Ok(())
}
