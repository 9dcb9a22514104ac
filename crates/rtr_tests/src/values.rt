//! PDUs that are compared and copied.
use rtr_pdu::{ErrorReport, RouterKey, Unit};

/// Whether the copy of a value is the same.
fn is_copied<T: Clone + PartialEq>(value: &T) -> bool {
    match value.clone() {
        Ok(copy) => copy == *value,
        Err(_) => false,
    }
}

#[test]
fn reports_are_compared(rt: HostRuntime) {
    let report = ErrorReport::new(2, b"\x01\x02", "no data");
    assert!(rt; is_copied(&report));
    assert!(rt; ErrorReport::new(2, b"\x01\x02", "no") != report);
    assert!(rt; ErrorReport::new(2, b"\x01", "no data") != report);
    assert!(rt; ErrorReport::new(1, b"\x01\x02", "no data") != report);
}

#[test]
fn keys_are_compared(rt: HostRuntime) {
    let key = RouterKey::new(true, [7; 20], 64496, b"\x30");
    assert!(rt; is_copied(&key));
    assert!(rt; RouterKey::new(false, [7; 20], 64496, b"\x30") != key);
    assert!(rt; RouterKey::new(true, [8; 20], 64496, b"\x30") != key);
    assert!(rt; RouterKey::new(true, [7; 20], 64497, b"\x30") != key);
    assert!(rt; RouterKey::new(true, [7; 20], 64496, b"\x31") != key);
}

#[test]
fn pdus_are_compared(rt: HostRuntime) {
    let unit = Unit::ErrorReport(ErrorReport::new(2, b"\x01\x02", "no data"));
    assert!(rt; is_copied(&unit));
    assert!(rt; unit != Unit::RouterKey(RouterKey::new(true, [7; 20], 64496, b"\x30")));
    assert!(rt; Unit::ResetQuery != Unit::CacheReset);
}
