use rtr_pdu::Version;
use rtr_server::Duplex;
use std::test::Fail;
use upstreams::{DisconnectReason, PollOutcome, Upstream};
use vrps::Serial;

#[test]
fn an_upstream_commits_an_answer(rt: HostRuntime) -> Result<(), Fail> {
    // A Cache Response of session 4660, and an End of Data with serial 5 and the intervals 3600, 600 and 7200.
    let answer: &[u8] = &[
        1, 3, 18, 52, 0, 0, 0, 8, 1, 7, 18, 52, 0, 0, 0, 24, 0, 0, 0, 5, 0, 0, 14, 16, 0, 0, 2, 88,
        0, 0, 28, 32,
    ];
    let mut upstream = Upstream::new(rt.alloc(), 60);
    assert!(rt; upstream.is_due(7));
    let output = Vec::new(rt.alloc());
    upstream.connect(
        Duplex {
            input: answer,
            output,
        },
        7,
    );
    assert!(rt; upstream.poll(7, 64) == PollOutcome::Disconnected(DisconnectReason::PeerClosed));
    assert!(rt; upstream.committed() == Some((Version::V1, 4660, Serial(5))));
    assert!(rt; upstream.expires_at() == Some(7208));
    assert!(rt; upstream.next_due() == Some(607));
    Ok(())
}
