//! Tables of connections, as the system writes them.
use std::net::{IpAddr, Ipv6Addr, SocketAddr};
use std::test::Fail;
use tcp_table::{Endpoint, TcpLine, Unanswered, bytes_of, is_lost, unanswered, unanswered_after};

/// The first line of a table, a listener, and two connections of 127.0.0.1. The second one waits for a window.
const TABLE: &[u8] =
    b"  sl  local_address rem_address   st tx_queue rx_queue tr tm->when retrnsmt   uid  timeout inode
   0: 0100007F:0CFB 00000000:0000 0A 00000000:00000000 00:00000000 00000000     0        0 20811 1 0000000000000000 100 0 0 10 0
   1: 0100007F:0CFB 0200007F:9C40 01 0000000C:00000000 01:00000014 00000003     0        0 20812 2 0000000000000000 20 4 30 10 -1
10002: 0100007F:0CFB 0100007F:9C42 01 00000A28:00000000 04:00000014 00000000     0        0 20813 2 0000000000000000 20 4 30 10 -1
";

/// A connection of IPv4 over a socket of IPv6, and one of 2001:db8::1.
const TABLE6: &[u8] =
    b"   0: 0000000000000000FFFF00000100007F:0CFB 0000000000000000FFFF0000010200C0:00B3 01 00000018:00000000 01:00000014 00000003     0        0 1 2 0
   1: B80D0120000000000000000001000000:0CFB B80D0120000000000000000002000000:00B3 01 00000030:00000000 01:00000014 00000003     0        0 1 2 0";

fn v4(last: u8, port: u16) -> Endpoint {
    Endpoint::of(SocketAddr::from(([127, 0, 0, last], port)))
}

fn v6(last: u16) -> SocketAddr {
    let port = if last == 1 { 3323 } else { 179 };
    SocketAddr::new(
        IpAddr::V6(Ipv6Addr::new(0x2001, 0xdb8, 0, 0, 0, 0, 0, last)),
        port,
    )
}

#[test]
fn connections_of_ipv4(rt: HostRuntime) -> Result<(), Fail> {
    let lines = unanswered(rt.alloc(), TABLE)?;
    assert!(rt; lines.len() == 1);
    assert!(rt; bytes_of(lines.as_slice(), &v4(1, 3323), &v4(2, 40_000)) == Some(12));
    assert!(rt; bytes_of(lines.as_slice(), &v4(1, 3323), &v4(1, 40_002)).is_none());
    assert!(rt; bytes_of(lines.as_slice(), &v4(1, 3324), &v4(2, 40_000)).is_none());
    Ok(())
}

#[test]
fn connections_of_ipv6(rt: HostRuntime) -> Result<(), Fail> {
    let lines = unanswered(rt.alloc(), TABLE6)?;
    assert!(rt; lines.len() == 2);
    let mapped = Endpoint::of(SocketAddr::from(([192, 0, 2, 1], 179)));
    assert!(rt; bytes_of(lines.as_slice(), &v4(1, 3323), &mapped) == Some(24));
    let (local, remote) = (Endpoint::of(v6(1)), Endpoint::of(v6(2)));
    assert!(rt; bytes_of(lines.as_slice(), &local, &remote) == Some(48));
    Ok(())
}

#[test]
fn lines_of_no_connection(rt: HostRuntime) -> Result<(), Fail> {
    for line in [
        b"".as_slice(),
        b"no colon",
        b"1:0100007F:0CFB 0200007F:9C40 01 0000000C:00000000 01:00000014",
        b"1: 0100007F:0CFB 0200007F:9C40 01 0000000C:00000000 0",
        b"1: 0100007G:0CFB 0200007F:9C40 01 0000000C:00000000 01:00000014",
    ] {
        assert!(rt; TcpLine::parse(line).is_none());
    }
    assert!(rt;
        TcpLine::parse(b"1: 0100007F:0CFB 0200007F:9C40 01 0000000C:00000000 01").is_some()
    );
    Ok(())
}

#[test]
fn a_loss_takes_all_readings(rt: HostRuntime) {
    let first = unanswered_after(None, Some(12), 1000);
    let second = unanswered_after(first, Some(24), 11_000);
    assert!(rt;
        !is_lost(first, 1000, 1)
            && !is_lost(second, 11_000, 10_001)
            && is_lost(second, 11_000, 10_000)
    );
    let fewer = unanswered_after(second, Some(12), 21_000);
    assert!(rt;
        fewer
            == Some(Unanswered {
                bytes: 12,
                since: 21_000
            })
    );
    assert!(rt; unanswered_after(fewer, None, 31_000).is_none());
}
