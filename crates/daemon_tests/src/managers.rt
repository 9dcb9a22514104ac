//! The service manager: addresses of its socket, and the times of its watchdog.
use sd_notify::{Watchdog, socket_address};
use std::alloc::Global;

/// Names of sockets, and the bytes of their addresses (unix(7)), or none.
const NAMES: &[(&str, Option<&[u8]>)] = &[
    ("", None),
    ("/", None),
    ("@", None),
    ("run/notify", None),
    ("/n", Some(b"\x01\x00/n\x00")),
    (
        "/run/systemd/notify",
        Some(b"\x01\x00/run/systemd/notify\x00"),
    ),
    ("@n", Some(b"\x01\x00\x00n")),
    ("@a/b", Some(b"\x01\x00\x00a/b")),
];

/// Whether a name has this address.
fn has_address(alloc: Global, name: &str, bytes: Option<&[u8]>) -> bool {
    match (socket_address(alloc, name), bytes) {
        (Ok(Some(address)), Some(bytes)) => address.as_slice() == bytes,
        (Ok(None), None) => true,
        _ => false,
    }
}

fn have_addresses(alloc: Global, rows: &[(&str, Option<&[u8]>)]) -> bool {
    for &(name, bytes) in rows {
        if !has_address(alloc, name, bytes) {
            return false;
        }
    }
    true
}

#[test]
fn names_have_addresses(rt: HostRuntime) {
    assert!(rt; have_addresses(rt.alloc(), NAMES));
}

/// How long the address is of a name of this many bytes, if it has one.
fn length(alloc: Global, bytes: usize) -> Option<usize> {
    let Ok(mut name) = String::from_str(alloc, "/") else {
        return None;
    };
    for _byte in 1..bytes {
        if name.push('x').is_err() {
            return None;
        }
    }
    match socket_address(alloc, name.as_str()) {
        Ok(Some(address)) => Some(address.len()),
        _ => None,
    }
}

#[test]
fn a_name_has_107_bytes_at_most(rt: HostRuntime) {
    assert!(rt; length(rt.alloc(), 107) == Some(110));
    assert!(rt; length(rt.alloc(), 108).is_none());
}

/// Whether a watchdog of two minutes, from the fifth second on, is signalled each minute.
fn is_signalled_each_minute(watchdog: &mut Watchdog) -> bool {
    watchdog.wait_limit(5000) == 60_000
        && !watchdog.take_signal(64_999)
        && watchdog.wait_limit(64_999) == 1
        && watchdog.take_signal(65_000)
        && !watchdog.take_signal(65_000)
        && watchdog.wait_limit(200_000) == 0
        && watchdog.take_signal(u64::MAX)
}

#[test]
fn a_watchdog_is_signalled_at_half_of_its_time(rt: HostRuntime) {
    let mut watchdog = Watchdog::new(120_000_000, 5000);
    assert!(rt; is_signalled_each_minute(&mut watchdog));
}
