use std::net::SocketAddr;
use std::test::Fail;
use tcp_table::{Endpoint, bytes_of, unanswered};

#[test]
fn a_notify_is_sent_again(rt: HostRuntime) -> Result<(), Fail> {
    let table = b"   0: 0100007F:0CFB 0200007F:9C40 01 0000000C:00000000 01:00000014 00000003\n";
    let lines = unanswered(rt.alloc(), table)?;
    let local = Endpoint::of(SocketAddr::from(([127, 0, 0, 1], 3323)));
    let remote = Endpoint::of(SocketAddr::from(([127, 0, 0, 2], 40_000)));
    assert!(rt; bytes_of(lines.as_slice(), &local, &remote) == Some(12));
    Ok(())
}
