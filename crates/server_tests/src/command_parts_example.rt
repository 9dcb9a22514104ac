use command_parts::{decimal, read_route, word_of};
use std::test::Fail;
use vrps::OriginState;

#[test]
fn words_of_a_route(rt: HostRuntime) -> Result<(), Fail> {
    assert!(rt; decimal("4660") == Some(4660));
    assert!(rt; read_route("192.0.2.0/24", "none").is_some());
    assert!(rt; word_of(OriginState::NotFound) == "not-found");
    Ok(())
}
