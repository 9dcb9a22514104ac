use payload_lists::{read_list, write_list};
use std::test::Fail;

#[test]
fn a_list_is_read_and_written(rt: HostRuntime) -> Result<(), Fail> {
    let text = br#"[{"prefix":"192.0.2.0/24","maxLength":24,"asn":64496}]"#;
    let set = read_list(rt.alloc(), text)?;
    assert!(rt; set.len() == 1);
    let written = write_list(rt.alloc(), set.as_slice())?;
    assert!(rt; read_list(rt.alloc(), written.as_bytes())?.is_same(&set));
    Ok(())
}
