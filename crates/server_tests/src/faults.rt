//! Caches that are wrong or lie, by RFC 8210 sections 5, 8 and 12. The outcome says why the connection ended, the right Error Report went out,
//! and what was committed stays until it expires.
use crate::play::{HOLDING, Step, is_played_around, play};
use rtr_ends::End;
use rtr_pdu::{Version, error_code};
use std::alloc::Global;
use std::process::Abort;
use test_values::units::{ANSWER, ANSWER_0, RESET_QUERY};
use upstreams::{DisconnectReason, PollOutcome};

/// What the cache sends to a Serial Query, and how the link ends.
type Lie = (&'static str, End);

/// In what it sends are faulty PDUs, or those that do not belong there. An Error Report goes out.
const FAULTS: &[Lie] = &[
    // A header of a wrong length.
    (
        "01 03 1234 00000009 00",
        End::Reported(error_code::CORRUPT_DATA),
    ),
    // A record before its Cache Response.
    (
        "01 04 0000 00000014 01 18 18 00 c6336400 0000fbf1",
        End::Reported(error_code::CORRUPT_DATA),
    ),
    // An End of Data before its Cache Response.
    (
        "01 07 1234 00000018 00000006 00000e10 00000258 00001c20",
        End::Reported(error_code::CORRUPT_DATA),
    ),
    // A query.
    (
        "01 02 0000 00000008",
        End::Reported(error_code::CORRUPT_DATA),
    ),
    // Another version.
    (
        "02 03 1234 00000008",
        End::Reported(error_code::UNSUPPORTED_VERSION),
    ),
    // A type that there is not.
    (
        "01 63 0000 00000008",
        End::Reported(error_code::UNSUPPORTED_TYPE),
    ),
    // A record is withdrawn that is not in the table.
    (
        "01 03 1234 00000008 | 01 04 0000 00000014 00 18 18 00 c6336400 0000fbf1",
        End::Reported(error_code::UNKNOWN_WITHDRAWAL),
    ),
    // A record is announced that is in it.
    (
        "01 03 1234 00000008 | 01 04 0000 00000014 01 18 18 00 c0000200 0000fbf0",
        End::Reported(error_code::DUPLICATE_ANNOUNCEMENT),
    ),
    // Another version after agreement.
    (
        "01 03 1234 00000008 | 00 04 0000 00000014 01 18 18 00 c6336400 0000fbf1",
        End::Reported(error_code::UNEXPECTED_VERSION),
    ),
];

/// In what it sends are PDUs of an answer. An Error Report goes out.
const LIES: &[Lie] = &[
    // A maximum length below the length of the prefix (section 5.6).
    (
        "01 03 1234 00000008 | 01 04 0000 00000014 01 18 17 00 c6336400 0000fbf1",
        End::Reported(error_code::CORRUPT_DATA),
    ),
    // A host bit is set.
    (
        "01 03 1234 00000008 | 01 04 0000 00000014 01 18 18 00 c6336401 0000fbf1",
        End::Reported(error_code::CORRUPT_DATA),
    ),
    // A prefix of 33 bits.
    (
        "01 03 1234 00000008 | 01 04 0000 00000014 01 21 21 00 c6336400 0000fbf1",
        End::Reported(error_code::CORRUPT_DATA),
    ),
    // A PDU of over 4,096 bytes (section 5.1).
    (
        "01 03 1234 00000008 | 01 09 0000 00001001",
        End::Reported(error_code::CORRUPT_DATA),
    ),
    // A second Cache Response (section 5.5).
    (
        "01 03 1234 00000008 | 01 03 1234 00000008",
        End::Reported(error_code::CORRUPT_DATA),
    ),
    // A Cache Reset inside an answer (section 5.9).
    (
        "01 03 1234 00000008 | 01 08 0000 00000008",
        End::Reported(error_code::CORRUPT_DATA),
    ),
    // An End of Data of version 0 (section 5.8).
    (
        "01 03 1234 00000008 | 01 07 1234 0000000c 00000006",
        End::Reported(error_code::CORRUPT_DATA),
    ),
];

/// In what it sends are Error Reports (section 5.11), which are never answered.
const REPORTS: &[Lie] = &[
    (
        "01 0a 0001 00000010 00000000 00000000",
        End::Told(error_code::INTERNAL_ERROR),
    ),
    (
        "01 0a 0003 00000010 00000000 00000000",
        End::Told(error_code::INVALID_REQUEST),
    ),
    (
        "01 0a 0005 00000010 00000000 00000000",
        End::Told(error_code::UNSUPPORTED_TYPE),
    ),
    // A code that there is not.
    ("01 0a 0063 00000010 00000000 00000000", End::Told(99)),
    // Inside an answer.
    (
        "01 03 1234 00000008 | 01 0a 0001 00000010 00000000 00000000",
        End::Told(error_code::INTERNAL_ERROR),
    ),
    // Its lengths do not add up.
    ("01 0a 0001 00000010 00000001 00000000", End::Malformed),
];

/// After its link has ended, what was committed stays for 7,200 seconds.
const STAYING: &[Step] = &[
    Step::IsConnected(false),
    Step::Commits(Version::V1, 4660, 5),
    Step::Holds(Some(1)),
    Step::Ticks(7200, None),
    Step::Holds(Some(1)),
    Step::Ticks(7201, None),
    Step::Holds(None),
];

fn expect_told<R: Abort>(rt: &R, alloc: Global, lies: &[Lie]) {
    for &(units, end) in lies {
        assert!(rt; is_played_around(alloc, HOLDING, &Step::Ends(units, end), STAYING));
    }
}

#[test]
fn faults_and_lies_are_told(rt: HostRuntime) {
    expect_told(&rt, rt.alloc(), FAULTS);
    expect_told(&rt, rt.alloc(), LIES);
    expect_told(&rt, rt.alloc(), REPORTS);
}

/// The records stay, and so does the connection.
const REFUSALS_THAT_KEEP: &[Step] = &[
    Step::Connects(ANSWER, 0),
    Step::Settles(0, PollOutcome::WaitsToRead),
    // No Data Available (section 12).
    Step::Connects("01 0a 0002 00000010 00000000 00000000", 1),
    Step::Settles(1, PollOutcome::WaitsToRead),
    Step::Holds(Some(1)),
    // A Cache Reset, after which the router sends a Reset Query (section 5.9).
    Step::Connects("01 08 0000 00000008", 2),
    Step::Settles(2, PollOutcome::WaitsToRead),
    Step::Holds(Some(1)),
];

/// Another session: Corrupt Data, and all records are dropped (section 5.1).
const REFUSAL_THAT_DROPS: &[Step] = &[
    Step::Connects(ANSWER, 0),
    Step::Settles(0, PollOutcome::WaitsToRead),
    Step::Connects("01 03 1235 00000008", 1),
    Step::Settles(
        1,
        PollOutcome::Disconnected(DisconnectReason::LinkEnded(End::Reported(
            error_code::CORRUPT_DATA,
        ))),
    ),
    Step::Holds(None),
];

/// After Error Report 4 the next connection is of version 0.
const ANOTHER_VERSION_IS_TRIED: &[Step] = &[
    Step::Connects("01 0a 0004 00000010 00000000 00000000", 0),
    Step::Settles(
        0,
        PollOutcome::Disconnected(DisconnectReason::LinkEnded(End::Told(
            error_code::UNSUPPORTED_VERSION,
        ))),
    ),
    Step::Sent(RESET_QUERY),
    Step::Connects(ANSWER_0, 1),
    Step::Settles(1, PollOutcome::WaitsToRead),
    Step::Sent("01 02 0000 00000008 00 02 0000 00000008"),
    Step::Commits(Version::V0, 4660, 5),
];

/// A cache of version 0 answers in its own version: the link ends with Error Report 4, and the next connection is of version 0.
const AN_ANSWER_OF_VERSION_0_IS_TRIED_AGAIN: &[Step] = &[
    Step::Connects(ANSWER_0, 0),
    Step::Settles(
        0,
        PollOutcome::Disconnected(DisconnectReason::LinkEnded(End::Reported(
            error_code::UNSUPPORTED_VERSION,
        ))),
    ),
    Step::Connects(ANSWER_0, 1),
    Step::Settles(1, PollOutcome::WaitsToRead),
    Step::Commits(Version::V0, 4660, 5),
];

/// A cache of version 0 answers any other version by an Error Report of version 0, with whatever code: it is asked in version 0 at once. A Serial
/// Notify before that, of whatever version, does not matter.
const AN_ERROR_REPORT_OF_VERSION_0_ASKS_FOR_IT: &[Step] = &[
    Step::HasVersion(Version::V1),
    Step::Connects(
        "01 00 1234 0000000c 00000005 | 00 0a 0000 00000010 00000000 00000000",
        0,
    ),
    Step::Settles(
        0,
        PollOutcome::Disconnected(DisconnectReason::LinkEnded(End::Malformed)),
    ),
    Step::IsNextDue(Some(0)),
    Step::Connects(ANSWER_0, 1),
    Step::HasVersion(Version::V0),
    Step::Settles(1, PollOutcome::WaitsToRead),
    Step::Commits(Version::V0, 4660, 5),
];

/// A cache that opens in version 2 asks for no version 0.
const VERSION_2_IS_NO_FALLBACK: &[Step] = &[
    Step::Connects("02 03 1234 00000008", 0),
    Step::Settles(
        0,
        PollOutcome::Disconnected(DisconnectReason::LinkEnded(End::Reported(
            error_code::UNSUPPORTED_VERSION,
        ))),
    ),
    Step::IsNextDue(Some(600)),
    Step::Connects(ANSWER, 600),
    Step::HasVersion(Version::V1),
    Step::Settles(600, PollOutcome::WaitsToRead),
    Step::Commits(Version::V1, 4660, 5),
];

/// Version 0 is kept while its data is held, and version 1 is tried again after that.
const VERSION_1_IS_TRIED_AGAIN: &[Step] = &[
    Step::Connects(ANSWER_0, 0),
    Step::SettlesAgain(
        0,
        PollOutcome::Disconnected(DisconnectReason::LinkEnded(End::Reported(
            error_code::UNSUPPORTED_VERSION,
        ))),
    ),
    Step::Connects(ANSWER_0, 1),
    Step::Settles(1, PollOutcome::WaitsToRead),
    Step::Disconnects(10),
    Step::Fails(610),
    Step::HasVersion(Version::V0),
    Step::Connects("00 03 1234 00000008 | 00 07 1234 0000000c 00000005", 1210),
    Step::HasVersion(Version::V0),
    Step::Settles(1210, PollOutcome::WaitsToRead),
    Step::Disconnects(1220),
    Step::Ticks(8411, None),
    Step::Holds(None),
    Step::Fails(9000),
    Step::HasVersion(Version::V1),
    Step::Connects(ANSWER, 9600),
    Step::HasVersion(Version::V1),
    Step::Settles(9600, PollOutcome::WaitsToRead),
    Step::Commits(Version::V1, 4660, 5),
];

const A_VERSION_IS_SET: &[Step] = &[
    Step::Speaks(Version::V0),
    Step::Connects(ANSWER_0, 1),
    Step::Settles(1, PollOutcome::WaitsToRead),
    Step::Sent("00 02 0000 00000008"),
];

#[test]
fn refusals_and_versions_are_taken_in(rt: HostRuntime) {
    play(&rt, 60, REFUSALS_THAT_KEEP);
    play(&rt, 60, REFUSAL_THAT_DROPS);
    play(&rt, 60, ANOTHER_VERSION_IS_TRIED);
    play(&rt, 60, AN_ANSWER_OF_VERSION_0_IS_TRIED_AGAIN);
    play(&rt, 60, A_VERSION_IS_SET);
    play(&rt, 60, AN_ERROR_REPORT_OF_VERSION_0_ASKS_FOR_IT);
    play(&rt, 60, VERSION_2_IS_NO_FALLBACK);
    play(&rt, 60, VERSION_1_IS_TRIED_AGAIN);
}
