//! Sessions and serials over restarts, and the pace of versions.
use rtr_daemon::laws::versions_are_paced;
use session_names::laws::restart_is_later;
use session_names::{Pace, first_serial, is_machine_id, session_of, session0_of};

#[test]
fn names_of_versions(rt: HostRuntime) {
    assert!(rt; first_serial(1_764_096_000) == 1_764_096_000);
    assert!(rt; first_serial(4_294_967_295) == 4_294_967_295);
    assert!(rt; first_serial(4_294_967_296) == 0);
    assert!(rt; session0_of(1_764_096_000) == 63488);
    assert!(rt; session0_of(1_764_096_001) == 63489);
    assert!(rt; session0_of(65_535) == 65_535);
    assert!(rt; session0_of(65_536) == 0);
    restart_is_later();
    versions_are_paced();
}

/// What a session is made of, and the session, which was computed with Python's hashlib.
const SESSIONS: &[(&str, &str, &str, &str, u16)] = &[
    ("", "", "", "", 0x6668),
    (
        "0123456789abcdef0123456789abcdef\n",
        "cache1\n",
        "127.0.0.1:3323\n",
        "--vrps /var/lib/rpki-client/json\n",
        0xd886,
    ),
    (
        "0123456789abcdef0123456789abcdef\n",
        "cache2\n",
        "127.0.0.1:3323\n",
        "--vrps /var/lib/rpki-client/json\n",
        0x1b6b,
    ),
    ("ab", "c", "d", "e", 0xb29b),
    ("a", "bc", "d", "e", 0xd445),
    ("a", "b", "cd", "e", 0x534d),
    ("a", "b", "c", "de", 0x33f2),
];

/// Whether each of these has its session.
fn have_sessions(rows: &[(&str, &str, &str, &str, u16)]) -> bool {
    for &(machine_id, host, listen, sources, session) in rows {
        if session_of(machine_id.as_bytes(), host.as_bytes(), listen, sources) != session {
            return false;
        }
    }
    true
}

#[test]
fn sessions(rt: HostRuntime) {
    assert!(rt; have_sessions(SESSIONS));
}

#[test]
fn a_machine_id_is_set(rt: HostRuntime) {
    assert!(rt; is_machine_id(b"0123456789abcdef0123456789abcdef\n"));
    for content in ["", "\n", "uninitialized", "uninitialized\n"] {
        assert!(rt; !is_machine_id(content.as_bytes()), "{content}");
    }
}

#[test]
fn a_version_a_second(rt: HostRuntime) {
    let mut pace = Pace::new();
    assert!(rt; pace.may_publish(0));
    pace.published(1_764_096_000);
    assert!(rt; !pace.may_publish(1_764_095_999));
    assert!(rt; !pace.may_publish(1_764_096_000));
    assert!(rt; pace.may_publish(1_764_096_001));
    let begun = Pace::after(1_764_096_000);
    assert!(rt; !begun.may_publish(1_764_096_000));
    assert!(rt; begun.may_publish(1_764_096_001));
}
