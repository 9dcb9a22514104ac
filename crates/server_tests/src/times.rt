//! Times: when something is due, silence, and expiry (RFC 8210 section 6).
use crate::play::{Step, play};
use rtr_ends::{End, Link};
use rtr_pdu::error_code;
use std::process::Abort;
use test_values::units::{ANSWER, RESPONSE};
use upstreams::{DisconnectReason, PollOutcome};

/// The link ended with Error Report 0, which the router sent.
const CORRUPT: PollOutcome = PollOutcome::Disconnected(DisconnectReason::LinkEnded(End::Reported(
    error_code::CORRUPT_DATA,
)));

/// The answer has the intervals 3600, 600 and 7200.
const DATA_IS_REFRESHED_AND_EXPIRES: &[Step] = &[
    Step::IsNextDue(Some(0)),
    Step::IsDue(0, true),
    Step::Connects(ANSWER, 7),
    Step::IsNextDue(Some(67)),
    Step::IsDue(66, false),
    Step::ExpiresAt(None),
    Step::Settles(8, PollOutcome::WaitsToRead),
    Step::IsNextDue(Some(3608)),
    Step::ExpiresAt(Some(7209)),
    Step::Ticks(3608, None),
    Step::HasLink(Link::Asked),
    Step::IsNextDue(Some(3668)),
    Step::Disconnects(3700),
    Step::IsNextDue(Some(4300)),
    Step::IsDue(4299, false),
    Step::IsDue(4300, true),
    Step::Ticks(7208, None),
    Step::Holds(Some(1)),
    Step::Ticks(7209, None),
    Step::Holds(None),
    Step::ExpiresAt(None),
];

const SILENCE_ENDS_A_CONNECTION: &[Step] = &[
    Step::Connects(RESPONSE, 100),
    Step::Settles(130, PollOutcome::WaitsToRead),
    Step::IsStalled(189, false),
    Step::IsStalled(190, true),
    Step::Ticks(189, None),
    Step::IsConnected(true),
    Step::Ticks(190, Some(DisconnectReason::Stalled)),
    Step::IsConnected(false),
    Step::IsStalled(10_000, false),
];

/// A connection that cannot be made starts the retry interval, as one that is lost does.
const A_FAILED_CONNECTION_IS_TRIED_AGAIN_LATER: &[Step] = &[
    Step::Fails(5),
    Step::IsConnected(false),
    Step::IsNextDue(Some(605)),
    Step::Connects(ANSWER, 605),
    Step::Settles(605, PollOutcome::WaitsToRead),
    Step::Fails(700),
    Step::IsConnected(false),
    Step::IsNextDue(Some(1300)),
];

/// An idle connection is not dropped, however long nothing comes.
const AN_IDLE_CONNECTION_STAYS: &[Step] = &[
    Step::Connects(ANSWER, 0),
    Step::Settles(0, PollOutcome::WaitsToRead),
    Step::Ticks(3599, None),
    Step::IsStalled(3599, false),
    Step::Ticks(3600, None),
    Step::IsStalled(3659, false),
    Step::Ticks(3660, Some(DisconnectReason::Stalled)),
];

/// A Serial Query is outstanding as the data expires: the next poll drops the connection.
const EXPIRY_ENDS_A_SERIAL_QUERY: &[Step] = &[
    Step::Connects(ANSWER, 0),
    Step::Settles(0, PollOutcome::WaitsToRead),
    Step::Ticks(7000, None),
    Step::Ticks(7201, None),
    Step::IsNextDue(Some(0)),
    Step::Holds(None),
    Step::Polls(
        7201,
        8,
        PollOutcome::Disconnected(DisconnectReason::LinkEnded(End::Expired)),
    ),
];

/// A cache that sends an Error Report of 4,096 bytes little by little, from time 6600 to 7170, is not silent, and its records expire all the
/// same.
const SLOW_BYTES_KEEP_NO_RECORDS: &[Step] = &[
    Step::Connects(ANSWER, 0),
    Step::Settles(0, PollOutcome::WaitsToRead),
    Step::ConnectsSlow("01 0a 0000 00001000", 6600),
    Step::Trickles(6600, 7170),
    Step::Holds(Some(1)),
    Step::Ticks(7200, None),
    Step::Holds(Some(1)),
    Step::Ticks(7201, None),
    Step::Holds(None),
    Step::Polls(
        7201,
        8,
        PollOutcome::Disconnected(DisconnectReason::LinkEnded(End::Expired)),
    ),
];

/// The cache restarted with another session (RFC 8210 section 5.1): it is asked again at once. If it is away then, it is asked after the retry
/// interval.
const ANOTHER_SESSION_IS_FOLLOWED_AT_ONCE: &[Step] = &[
    Step::Connects(ANSWER, 0),
    Step::Settles(0, PollOutcome::WaitsToRead),
    Step::Connects("01 03 1235 00000008", 10),
    Step::Settles(10, CORRUPT),
    Step::Holds(None),
    Step::IsNextDue(Some(0)),
    Step::IsDue(10, true),
    Step::Fails(11),
    Step::IsNextDue(Some(611)),
];

/// A faulty PDU of a cache whose data are not held changes no session.
const A_FAULT_WAITS_FOR_THE_RETRY_INTERVAL: &[Step] = &[
    Step::Connects("01 03 1234 00000009 00", 0),
    Step::Settles(0, CORRUPT),
    Step::IsNextDue(Some(600)),
];

/// An answer has a limit, however often bytes come.
const AN_ANSWER_HAS_A_LIMIT: &[Step] = &[
    Step::LimitsAnswers(100),
    Step::Connects(RESPONSE, 0),
    Step::IsNextDue(Some(60)),
    Step::Settles(50, PollOutcome::WaitsToRead),
    Step::IsNextDue(Some(100)),
    Step::IsOverdue(99, false),
    Step::IsOverdue(100, true),
    Step::Ticks(99, None),
    Step::IsConnected(true),
    Step::Ticks(100, Some(DisconnectReason::TimedOut)),
    Step::IsConnected(false),
    Step::IsOverdue(10_000, false),
    Step::IsNextDue(Some(700)),
];

/// The refresh interval is a day, and the data expire after 600 seconds.
const SHORT_LIVED: &str =
    "01 03 1234 00000008 | 01 07 1234 00000018 00000005 00015180 00000258 00000258";

/// Data are asked for again before they expire (RFC 8210 section 6), once.
const DATA_IS_ASKED_FOR_BEFORE_IT_EXPIRES: &[Step] = &[
    Step::Connects(SHORT_LIVED, 0),
    Step::Settles(0, PollOutcome::WaitsToRead),
    Step::IsNextDue(Some(300)),
    Step::ExpiresAt(Some(601)),
    Step::Ticks(299, None),
    Step::HasLink(Link::Idle),
    Step::Ticks(300, None),
    Step::HasLink(Link::Asked),
    Step::IsNextDue(Some(360)),
    Step::Ticks(360, Some(DisconnectReason::Stalled)),
    Step::IsNextDue(Some(601)),
    Step::Ticks(600, None),
    Step::Holds(Some(0)),
    Step::Ticks(601, None),
    Step::Holds(None),
    Step::IsNextDue(Some(960)),
];

#[test]
fn restarts_and_limits_are_taken_in(rt: HostRuntime) {
    play(&rt, 60, ANOTHER_SESSION_IS_FOLLOWED_AT_ONCE);
    play(&rt, 60, A_FAULT_WAITS_FOR_THE_RETRY_INTERVAL);
    play(&rt, 60, AN_ANSWER_HAS_A_LIMIT);
    play(&rt, 60, DATA_IS_ASKED_FOR_BEFORE_IT_EXPIRES);
}

#[test]
fn data_is_refreshed_and_expires(rt: HostRuntime) {
    play(&rt, 60, DATA_IS_REFRESHED_AND_EXPIRES);
    play(&rt, 100_000, EXPIRY_ENDS_A_SERIAL_QUERY);
    play(&rt, 60, SLOW_BYTES_KEEP_NO_RECORDS);
}

#[test]
fn silence_and_failures_are_taken_in(rt: HostRuntime) {
    play(&rt, 60, SILENCE_ENDS_A_CONNECTION);
    play(&rt, 60, A_FAILED_CONNECTION_IS_TRIED_AGAIN_LATER);
    play(&rt, 60, AN_IDLE_CONNECTION_STAYS);
}
