use ee_keys::same_key;
use std::test::Fail;

#[test]
fn both_readings_give_one_key(rt: HostRuntime) -> Result<(), Fail> {
    same_key();
    Ok(())
}
