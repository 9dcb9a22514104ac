use session_names::{Pace, first_serial};
use std::test::Fail;

#[test]
fn a_version_is_published(rt: HostRuntime) -> Result<(), Fail> {
    let now = 1_795_632_000;
    assert!(rt; first_serial(now) == 1_795_632_000);
    let mut pace = Pace::new();
    pace.published(now);
    assert!(rt; !pace.may_publish(now));
    assert!(rt; pace.may_publish(now + 1));
    Ok(())
}
