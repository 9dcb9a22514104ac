use std::test::Fail;
use world_scripts::play;

#[test]
fn a_script_is_played(rt: HostRuntime) -> Result<(), Fail> {
    let mut out = Vec::new(rt.alloc());
    assert!(rt; play(rt.alloc(), b"world 1 4660 5 2\nshow 0\n", &mut out)? == 0);
    assert!(rt; out.as_slice() == b"0 empty\n".as_slice());
    Ok(())
}
