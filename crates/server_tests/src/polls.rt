//! Polls: a whole life of an upstream, an answer that is cut, and streams of which one call waits, is interrupted or fails.
use crate::play::{HOLDING, Step, is_played, is_played_around, play};
use crate::streams::Bad;
use rtr_ends::Link;
use rtr_pdu::Version;
use std::alloc::Global;
use test_values::units::{ANSWER, RESET_QUERY, SERIAL_QUERY};
use upstreams::{DisconnectReason, PollOutcome};

const AN_ANSWER_IS_COMMITTED: &[Step] = &[
    Step::Polls(7, 8, PollOutcome::NotConnected),
    Step::IsConnected(false),
    Step::Connects(ANSWER, 7),
    Step::IsConnected(true),
    Step::Holds(None),
    Step::Settles(7, PollOutcome::WaitsToRead),
    Step::Sent(RESET_QUERY),
    Step::Carries(52, 8),
    Step::Commits(Version::V1, 4660, 5),
    Step::Holds(Some(1)),
    Step::HasLink(Link::Idle),
    Step::CountsOneRecord,
    Step::Disconnects(8),
    Step::CountsOneRecord,
    Step::IsConnected(false),
    Step::Holds(Some(1)),
    Step::Carries(52, 8),
];

#[test]
fn an_answer_is_committed(rt: HostRuntime) {
    play(&rt, 60, AN_ANSWER_IS_COMMITTED);
}

/// The change from serial 5 to 6: one record more.
const CHANGE: &str =
    "01 03 1234 00000008 | 01 04 0000 00000014 01 18 18 00 c6336400 0000fbf1 | 01 07 1234 00000018 00000006 00000e10 00000258 00001c20";

/// After a cut at time 10 what was committed before stays, and the next connection asks for the change.
const ASKS_AGAIN: &[Step] = &[
    Step::Settles(10, PollOutcome::Disconnected(DisconnectReason::PeerClosed)),
    Step::Holds(Some(1)),
    Step::Connects(CHANGE, 20),
    Step::Settles(20, PollOutcome::WaitsToRead),
    Step::Holds(Some(2)),
    Step::SentAt(8, SERIAL_QUERY),
    Step::SentAt(20, SERIAL_QUERY),
];

/// Whether an answer is nothing that is cut after this many bytes.
fn is_nothing(alloc: Global, cut: usize) -> bool {
    is_played_around(
        alloc,
        HOLDING,
        &Step::ConnectsCut(CHANGE, cut, 10),
        ASKS_AGAIN,
    )
}

#[test]
fn half_an_answer_is_nothing(rt: HostRuntime) {
    for cut in 0..52 {
        assert!(rt; is_nothing(rt.alloc(), cut));
    }
}

/// Whether polls have this outcome if one call is bad, of an answer of five bytes at a call.
fn comes_to(
    alloc: Global,
    call: u32,
    bad: Bad,
    outcome: PollOutcome,
    records: Option<usize>,
) -> bool {
    let steps = [
        Step::ConnectsBad(ANSWER, call, bad, 0),
        Step::SettlesAgain(0, outcome),
        Step::Holds(records),
    ];
    is_played(alloc, 60, &steps)
}

/// An answer of 52 bytes after a query of 8: calls 1 and 2 write, and calls 3 to 13 read.
#[test]
fn a_bad_call_loses_nothing_or_ends_it(rt: HostRuntime) {
    let alloc = rt.alloc();
    let whole = PollOutcome::WaitsToRead;
    for call in 1..14 {
        assert!(rt; comes_to(alloc, call, Bad::Wait, whole, Some(1)));
        assert!(rt; comes_to(alloc, call, Bad::Interrupt, whole, Some(1)));
    }
    let failed = PollOutcome::Disconnected(DisconnectReason::WriteFailed);
    for call in 1..3 {
        assert!(rt; comes_to(alloc, call, Bad::Fail, failed, None));
        assert!(rt; comes_to(alloc, call, Bad::End, failed, None));
    }
    let failed = PollOutcome::Disconnected(DisconnectReason::ReadFailed);
    let closed = PollOutcome::Disconnected(DisconnectReason::PeerClosed);
    for call in 3..14 {
        assert!(rt; comes_to(alloc, call, Bad::Fail, failed, None));
        assert!(rt; comes_to(alloc, call, Bad::End, closed, None));
    }
}

/// Whether a poll with this budget has this outcome, and makes this many calls.
fn is_bounded(alloc: Global, budget: u32, outcome: PollOutcome, calls: u32) -> bool {
    let steps = [
        Step::ConnectsBad(ANSWER, 0, Bad::Wait, 0),
        Step::Polls(0, budget, outcome),
        Step::Called(calls),
    ];
    is_played(alloc, 60, &steps)
}

#[test]
fn a_poll_makes_as_many_calls_as_it_may(rt: HostRuntime) {
    for budget in 0..14 {
        assert!(rt; is_bounded(rt.alloc(), budget, PollOutcome::Busy, budget));
    }
    assert!(rt; is_bounded(rt.alloc(), 15, PollOutcome::WaitsToRead, 14));
}
