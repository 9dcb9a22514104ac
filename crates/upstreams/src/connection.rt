//! One connection to a cache.
ghost use Rattle.std.specs.Prelude.{◌≡◌, ◌<◌, ◌≤◌, ℕ, [], drop, length, take};
ghost use Rattle.rtr_ends.specs.LinkRules as rules;
ghost use Rattle.rtr_ends.specs.RouterLink as links;
ghost use Rattle.rtr_ends.specs.RouterLink.{is_closed};
ghost use Rattle.rtr_ends.specs.RouterShown.{IsShown};
ghost use Rattle.rtr_server.specs.Turns.{and_received, no_traffic};
ghost use Rattle.upstreams.specs.Notes.{noted_at_connection};
ghost use Rattle.upstreams.specs.Polls.{AnswersPoll, AnswersStep, Anyhow, AwaitsBytes, EndsSo, GoesFrom, GoesOrEnds, HasUnwritten, IsFlushed};
ghost use Rattle.upstreams.specs.Polls.{IsOver, MayBeFlushed, StandsFor, after_read, after_write, next_on};

use crate::buffer::Buffer;
use crate::notes::{Notes, holds};
use rtr_ends::{End, Link, Router};
use rtr_pdu::Version;
use rtr_server::{Progress, Stream, Traffic};

/// Why a connection was dropped.
#[derive(Clone, Copy, Debug, PartialEq, Eq)]
pub enum DisconnectReason {
    /// The cache closed the stream: nothing further comes.
    PeerClosed,
    /// The RTR session ended for this reason (RFC 8210 section 12). If the router sent an Error Report, that is written.
    LinkEnded(End),
    /// A read from the stream failed.
    ReadFailed,
    /// A write to the stream failed, or the stream accepted no byte.
    WriteFailed,
    /// A query was outstanding and no byte came for `stall` seconds (the parameter of `Upstream::new`).
    Stalled,
    /// The answer to a query was not complete after the limit for an answer (`Upstream::set_answer_limit`).
    TimedOut,
}

/// The outcome of a poll: what the caller waits for, or why the connection was dropped.
#[derive(Clone, Copy, Debug, PartialEq, Eq)]
pub enum PollOutcome {
    /// There is no connection. Nothing was done.
    NotConnected,
    /// The last call was a read, and the stream would block. Poll again when it is readable.
    WaitsToRead,
    /// The last call was a write, and the stream would block. Poll again when it is writable.
    WaitsToWrite,
    /// The budget of stream calls is used up. Poll again at once.
    Busy,
    /// The connection was dropped.
    Disconnected(DisconnectReason),
}

/// The stream of a connection, what is between it and the router, and what is counted of it.
#[derive(Debug, Drop)]
pub(crate) struct Connection<T> {
    pub(crate) stream: T,
    pub(crate) unread: Buffer,
    pub(crate) unwritten: Buffer,
    pub(crate) traffic: Traffic,
    /// What is noted of it.
    pub(crate) notes: Notes,
}

/// The next call of the stream.
#[derive(Clone, Copy, Debug, PartialEq, Eq)]
pub(crate) enum NextCall {
    /// Reading a piece.
    Read,
    /// Writing what was pulled.
    Write,
    /// None: the link has ended, and all is written.
    NoCall(End),
}

impl<T: Stream> Connection<T> {
    /// A connection that was just made.
    pub(crate) fn new(stream: T, now: u64, spoken: Version) -> Connection<T>
        ensures { result ≡ record { stream = stream; unread = []; unwritten = []; traffic = no_traffic; notes = noted_at_connection now spoken } }
    {
        Connection {
            stream,
            unread: Buffer::new(),
            unwritten: Buffer::new(),
            traffic: Traffic::new(),
            notes: Notes::new(now, spoken),
        }
    }

    /// Pulls what the router has to send, if nothing is left to write.
    fn fill(&mut self, router: &mut Router)
        ensures goes { (now : ℕ) → GoesFrom T.remaining T.contents now Anyhow router.old self.old router.new self.new MayBeFlushed }
        ensures rest { self.new ≡ record self.old { unwritten = self.new.unwritten } }
    {
        if self.unwritten.is_empty() {
            self.unwritten.pull(router);
        }
    }

    /// Passes what was read to the router, and returns how many bytes were consumed: none if the link has ended.
    fn take(&mut self, router: &mut Router, now: u64) -> usize
        requires { 0 < length self.old.unread }
        ensures goes { GoesFrom T.remaining T.contents now IsFlushed router.old self.old router.new self.new (λ s. result ≡ 0 → IsOver s) }
        ensures rest { self.new ≡ record self.old { unread = drop result self.old.unread; traffic = and_received (take result self.old.unread) self.old.traffic; notes = self.new.notes } }
        ensures within { result ≤ length self.old.unread }
    {
        let held = holds(router);
        let traffic = &mut self.traffic;
        let taken = self.unread.hand_in(
            router,
            now,
            &mut traffic.received,
            &mut traffic.asked,
            &mut self.notes.opening,
        );
        self.notes.receive(held, router, now);
        taken
    }

    /// Passes what was read to the router, as far as that has nothing to send, and returns which call of the stream is next.
    fn prepare(&mut self, router: &mut Router, now: u64) -> NextCall
        ensures goes { GoesFrom T.remaining T.contents now Anyhow router.old self.old router.new self.new (StandsFor result) }
        ensures read { result ≡ NextCall.Read → self.new.unread ≡ [] }
        ensures answers { T.answers self.new.stream ≡ T.answers self.old.stream }
    {
        loop {
            self.fill(router);
            if !self.unwritten.is_empty() {
                return NextCall::Write;
            }
            if self.unread.is_empty() {
                return next_on(router);
            }
            if self.take(router, now) == 0 {
                return NextCall::NoCall(end_of(router));
            }
        }
    }

    /// Reads a piece.
    fn read(&mut self, router: &Router) -> Option<PollOutcome>
        requires { self.old.unread ≡ [] }
        ensures goes { (now : ℕ) → GoesFrom T.remaining T.contents now AwaitsBytes router.now self.old router.now self.new (GoesOrEnds result (T.remaining self.new.stream)) }
        ensures answers { AnswersStep result (T.answers self.old.stream) (T.answers self.new.stream) }
    {
        let moved = self.unread.read(&mut self.stream);
        self.traffic.carried.read = self.traffic.carried.read.saturating_add(moved.count());
        after_read(moved)
    }

    /// Writes of what was pulled.
    fn write(&mut self, router: &Router) -> Option<PollOutcome>
        ensures goes { (now : ℕ) → GoesFrom T.remaining T.contents now HasUnwritten router.now self.old router.now self.new (GoesOrEnds result (T.remaining self.new.stream)) }
        ensures answers { AnswersStep result (T.answers self.old.stream) (T.answers self.new.stream) }
    {
        let moved = self
            .unwritten
            .write(&mut self.stream, &mut self.traffic.sent);
        self.traffic.carried.written = self.traffic.carried.written.saturating_add(moved.count());
        after_write(moved)
    }

    /// One call of the stream, with what comes before it.
    fn step(&mut self, router: &mut Router, now: u64) -> Option<PollOutcome>
        ensures goes { GoesFrom T.remaining T.contents now Anyhow router.old self.old router.new self.new (GoesOrEnds result (T.remaining self.new.stream)) }
        ensures answers { AnswersStep result (T.answers self.old.stream) (T.answers self.new.stream) }
    {
        match self.prepare(router, now) {
            NextCall::Write => self.write(router),
            NextCall::Read => self.read(router),
            NextCall::NoCall(end) => {
                Some(PollOutcome::Disconnected(DisconnectReason::LinkEnded(end)))
            }
        }
    }

    /// As many calls as are allowed, until the stream would wait or the connection must be dropped.
    pub(crate) fn poll(&mut self, router: &mut Router, now: u64, budget: u32) -> PollOutcome
        ensures goes { GoesFrom T.remaining T.contents now Anyhow router.old self.old router.new self.new (EndsSo result (T.remaining self.new.stream)) }
        ensures answers { AnswersPoll budget result (T.answers self.old.stream) (T.answers self.new.stream) }
    {
        for _call in 0..budget {
            if let Some(outcome) = self.step(router, now) {
                return outcome;
            }
        }
        PollOutcome::Busy
    }
}

/// The next call of a stream over which all is written and consumed.
fn next_on(router: &Router) -> NextCall
    ensures { (r : rules.Router) → IsShown r router.now → result ≡ next_on r.link }
{
    match router.link() {
        Link::Ended(end) => NextCall::NoCall(end),
        _ => NextCall::Read,
    }
}

/// How a link ended. A link that is open and consumes nothing has expired.
fn end_of(router: &Router) -> End
    ensures { (r : rules.Router) (end : End) → IsShown r router.now → r.link ≡ links.Ended end → result ≡ end }
{
    match router.link() {
        Link::Ended(end) => end,
        _ => End::Expired,
    }
}

/// What a read comes to: none if the poll continues.
fn after_read(moved: Progress) -> Option<PollOutcome>
    ensures { result ≡ after_read moved }
{
    match moved {
        Progress::Bytes(0) => Some(PollOutcome::Disconnected(DisconnectReason::PeerClosed)),
        Progress::Bytes(_) | Progress::Interrupted => None,
        Progress::Waits => Some(PollOutcome::WaitsToRead),
        Progress::Failed => Some(PollOutcome::Disconnected(DisconnectReason::ReadFailed)),
    }
}

/// What a write comes to: none if the poll continues.
fn after_write(moved: Progress) -> Option<PollOutcome>
    ensures { result ≡ after_write moved }
{
    match moved {
        Progress::Bytes(0) | Progress::Failed => {
            Some(PollOutcome::Disconnected(DisconnectReason::WriteFailed))
        }
        Progress::Bytes(_) | Progress::Interrupted => None,
        Progress::Waits => Some(PollOutcome::WaitsToWrite),
    }
}
