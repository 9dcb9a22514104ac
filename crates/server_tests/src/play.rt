//! Steps at a router of another cache, and one function that plays them.
use crate::streams::{Bad, Script, Sent, cut, has_at, is_all, plain, slow, with_bad};
use rtr_ends::{End, Link};
use rtr_pdu::{Kind, Version, error_code};
use rtr_server::ByteCounts;
use std::alloc::Global;
use std::cell::RefCell;
use std::process::Abort;
use test_values::hex::{Bytes, bytes};
use test_values::units::ANSWER;
use upstreams::laws::{counts_received, each_holds};
use upstreams::{DisconnectReason, PollOutcome, Upstream};
use vrps::Serial;

/// A Reset Query and a Serial Query.
const BOTH_QUERIES: &str = "01 02 0000 00000008 01 01 1234 0000000c 00000005";

/// What happens at a router of another cache, and the result that it must have.
#[derive(Clone, Copy)]
pub(crate) enum Step {
    Speaks(Version),
    /// An answer is given up after this many seconds.
    LimitsAnswers(u64),
    /// A connection is made on which all of these bytes come, and then it would block.
    Connects(&'static str, u64),
    /// The same with this many of them, and then the cache closes it.
    ConnectsCut(&'static str, usize, u64),
    /// The same and zeros after them, twelve bytes at a call.
    ConnectsSlow(&'static str, u64),
    /// The same, five bytes at a call, of which this call is bad.
    ConnectsBad(&'static str, u32, Bad, u64),
    /// A connection cannot be made.
    Fails(u64),
    Disconnects(u64),
    /// Polls have this outcome in the end.
    Settles(u64, PollOutcome),
    /// The same, and polls again if something is waited for.
    SettlesAgain(u64, PollOutcome),
    /// Each half a minute from the first moment to the second, a poll of one call is busy, and no silence is noticed.
    Trickles(u64, u64),
    /// One poll of this many calls has this outcome.
    Polls(u64, u32, PollOutcome),
    /// These bytes come at time 1 and end the link so. An Error Report of the code goes out after the queries if the link was ended here.
    Ends(&'static str, End),
    Ticks(u64, Option<DisconnectReason>),
    /// Something is due next at this moment, if ever.
    IsNextDue(Option<u64>),
    IsDue(u64, bool),
    IsStalled(u64, bool),
    IsOverdue(u64, bool),
    ExpiresAt(Option<u64>),
    HasLink(Link),
    /// The latest connection is of this version.
    HasVersion(Version),
    IsConnected(bool),
    /// This many records are held, and are the data of the cache, or there are none.
    Holds(Option<usize>),
    /// This is committed: its version, session and serial.
    Commits(Version, u16, u32),
    /// This many calls of the stream were made.
    Called(u32),
    /// This many bytes were read and written.
    Carries(u64, u64),
    /// One Reset Query went out, and an answer with one record came.
    CountsOneRecord,
    /// These bytes went out, and no others, or these at this place.
    Sent(&'static str),
    SentAt(usize, &'static str),
}

/// A router holds a record since time 0.
pub(crate) const HOLDING: &[Step] = &[
    Step::Connects(ANSWER, 0),
    Step::Settles(0, PollOutcome::WaitsToRead),
];

/// Polls until something is waited for or the connection is gone.
fn settle(upstream: &mut Upstream<Script<'_>>, now: u64) -> PollOutcome {
    for _poll in 0..400 {
        match upstream.poll(now, 3) {
            PollOutcome::Busy => {}
            outcome => return outcome,
        }
    }
    PollOutcome::Busy
}

/// The same, and polls again if something is waited for.
fn settle_again(upstream: &mut Upstream<Script<'_>>, now: u64) -> PollOutcome {
    match settle(upstream, now) {
        PollOutcome::WaitsToRead | PollOutcome::WaitsToWrite => settle(upstream, now),
        outcome => outcome,
    }
}

/// Whether each half a minute a poll of one call is busy, and no silence is noticed.
fn trickles(upstream: &mut Upstream<Script<'_>>, from: u64, to: u64) -> bool {
    for now in (from..=to).step_by(30) {
        if upstream.poll(now, 1) != PollOutcome::Busy || upstream.tick(now).is_some() {
            return false;
        }
    }
    true
}

/// Whether this many records are held, and are the data of the cache.
fn holds(upstream: &Upstream<Script<'_>>, records: Option<usize>) -> bool {
    match upstream.data() {
        None => records.is_none() && upstream.table().is_empty(),
        Some(set) => records == Some(set.len()) && records == Some(upstream.table().len()),
    }
}

fn counts_one_record(upstream: &Upstream<Script<'_>>) -> bool {
    let (received, sent) = (upstream.received(), upstream.sent());
    received.of(Kind::CacheResponse) == 1
        && received.of(Kind::Ipv4Prefix) == 1
        && received.of(Kind::EndOfData) == 1
        && sent.of(Kind::ResetQuery) == 1
        && sent.of(Kind::SerialQuery) == 0
}

/// Whether this is the stream's count of calls.
fn is_called(upstream: &Upstream<Script<'_>>, calls: u32) -> bool {
    match upstream.stream() {
        None => false,
        Some(stream) => stream.calls == calls,
    }
}

/// Whether it has what it has to have.
fn stands(upstream: &Upstream<Script<'_>>, sent: &Sent, step: &Step) -> bool {
    match step {
        Step::IsNextDue(moment) => upstream.next_due() == *moment,
        Step::IsDue(now, is_due) => upstream.is_due(*now) == *is_due,
        Step::IsStalled(now, is_stalled) => upstream.is_stalled(*now) == *is_stalled,
        Step::IsOverdue(now, is_overdue) => upstream.is_overdue(*now) == *is_overdue,
        Step::ExpiresAt(moment) => upstream.expires_at() == *moment,
        Step::HasLink(link) => upstream.router().link() == *link,
        Step::HasVersion(version) => upstream.version() == *version,
        Step::IsConnected(is_connected) => {
            upstream.is_connected() == *is_connected && upstream.stream().is_some() == *is_connected
        }
        Step::Holds(records) => holds(upstream, *records),
        Step::Commits(version, session, serial) => {
            upstream.committed() == Some((*version, *session, Serial(*serial)))
        }
        Step::Called(calls) => is_called(upstream, *calls),
        Step::Carries(read, written) => {
            upstream.carried()
                == ByteCounts {
                    read: *read,
                    written: *written,
                }
        }
        Step::CountsOneRecord => counts_one_record(upstream),
        Step::Sent(units) => is_all(sent, bytes(units).as_slice()),
        Step::SentAt(at, units) => has_at(sent, *at, bytes(units).as_slice()),
        _ => false,
    }
}

/// Whether the Error Report that goes out after two queries is that of this end, or none goes out if the cache ended the link.
fn has_reported(sent: &Sent, end: &End) -> bool {
    let report = match end {
        End::Reported(error_code::CORRUPT_DATA) => "01 0a 0000",
        End::Reported(error_code::UNSUPPORTED_VERSION) => "01 0a 0004",
        End::Reported(error_code::UNSUPPORTED_TYPE) => "01 0a 0005",
        End::Reported(error_code::UNKNOWN_WITHDRAWAL) => "01 0a 0006",
        End::Reported(error_code::DUPLICATE_ANNOUNCEMENT) => "01 0a 0007",
        End::Reported(error_code::UNEXPECTED_VERSION) => "01 0a 0008",
        _ => return is_all(sent, bytes(BOTH_QUERIES).as_slice()),
    };
    has_at(sent, 20, bytes(report).as_slice())
}

/// Whether what comes at time 1 ends the link so.
fn ends<'a>(upstream: &mut Upstream<Script<'a>>, sent: &'a Sent, units: &str, end: &End) -> bool {
    upstream.connect(plain(units, sent), 1);
    settle(upstream, 1) == PollOutcome::Disconnected(DisconnectReason::LinkEnded(*end))
        && has_reported(sent, end)
}

/// Whether a step goes as it has to.
pub(crate) fn goes<'a>(upstream: &mut Upstream<Script<'a>>, sent: &'a Sent, step: &Step) -> bool {
    match step {
        Step::Speaks(version) => upstream.set_version(*version),
        Step::LimitsAnswers(seconds) => upstream.set_answer_limit(*seconds),
        Step::Connects(units, now) => upstream.connect(plain(units, sent), *now),
        Step::ConnectsCut(units, count, now) => upstream.connect(cut(units, *count, sent), *now),
        Step::ConnectsSlow(units, now) => upstream.connect(slow(units, sent), *now),
        Step::ConnectsBad(units, call, bad, now) => {
            upstream.connect(with_bad(units, *call, bad, sent), *now);
        }
        Step::Fails(now) => upstream.connect_failed(*now),
        Step::Disconnects(now) => upstream.disconnect(*now),
        Step::Settles(now, outcome) => return settle(upstream, *now) == *outcome,
        Step::SettlesAgain(now, outcome) => return settle_again(upstream, *now) == *outcome,
        Step::Trickles(from, to) => return trickles(upstream, *from, *to),
        Step::Polls(now, calls, outcome) => return upstream.poll(*now, *calls) == *outcome,
        Step::Ends(units, end) => return ends(upstream, sent, units, end),
        Step::Ticks(now, reason) => return upstream.tick(*now) == *reason,
        _ => return stands(upstream, sent, step),
    }
    true
}

/// Whether all steps go as they have to.
pub(crate) fn all_go<'a>(
    upstream: &mut Upstream<Script<'a>>,
    sent: &'a Sent,
    steps: &[Step],
) -> bool {
    for step in steps {
        if !goes(upstream, sent, step) {
            return false;
        }
    }
    true
}

/// Whether steps go so at a new router, whose connections may be silent for this long.
pub(crate) fn is_played(alloc: Global, stall: u64, steps: &[Step]) -> bool {
    let sent = RefCell::new(Bytes::new());
    let mut upstream = Upstream::new(alloc, stall);
    each_holds(&upstream);
    counts_received(&upstream);
    all_go(&mut upstream, &sent, steps)
}

/// Whether first these steps, then this one, and then those go so at a new router.
pub(crate) fn is_played_around(alloc: Global, first: &[Step], step: &Step, then: &[Step]) -> bool {
    let sent = RefCell::new(Bytes::new());
    let mut upstream = Upstream::new(alloc, 60);
    all_go(&mut upstream, &sent, first)
        && goes(&mut upstream, &sent, step)
        && all_go(&mut upstream, &sent, then)
}

/// Plays steps at a new router.
pub(crate) fn play<R: AllocGlobal + Abort>(rt: &R, stall: u64, steps: &[Step]) {
    assert!(rt; is_played(rt.alloc(), stall, steps));
}
