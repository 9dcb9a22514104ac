use rtr_commands::answer_lines;
use std::test::Fail;
use vrps::VrpSet;

#[test]
fn a_reset_query_is_answered(rt: HostRuntime) -> Result<(), Fail> {
    let empty = VrpSet::empty(rt.alloc());
    let answered = answer_lines(rt.alloc(), 4660, 4660, 5, empty, "0102000000000008")?;
    assert!(rt; answered.lines.as_str().starts_with("0103123400000008\n"));
    Ok(())
}
