use sd_notify::{Watchdog, socket_address};
use std::test::Fail;

#[test]
fn a_signal_is_due(rt: HostRuntime) -> Result<(), Fail> {
    let address = socket_address(rt.alloc(), "@manager")?.ok_or("no address")?;
    assert!(rt; address.as_slice() == b"\x01\x00\x00manager".as_slice());
    let mut watchdog = Watchdog::new(30_000_000, 0);
    assert!(rt; watchdog.wait_limit(5000) == 10_000);
    assert!(rt; !watchdog.take_signal(14_999));
    assert!(rt; watchdog.take_signal(15_000));
    Ok(())
}
