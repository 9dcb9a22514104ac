//! The limits of HTTP connections.
use status_server::{CONNECTION_MILLIS, IDLE_MILLIS, MAX_CONNECTIONS};

#[test]
fn the_limits_are_these(rt: HostRuntime) {
    assert!(rt; IDLE_MILLIS == 30_000);
    assert!(rt; CONNECTION_MILLIS == 600_000);
    assert!(rt; MAX_CONNECTIONS == 64);
}
