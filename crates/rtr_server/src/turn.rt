//! One turn of a client: what is read, answered and written.
ghost use Rattle.std.specs.Prelude.{◌≡◌, ◌<◌, ◌≤◌, [], false, drop, length, take};
ghost use Rattle.rtr_server.specs.Turns.{Anyhow, AnswersTurn, AnswersStep, EndsSo, GoesFrom, GoesOrEnds, IsIdle, IsOver, IsSettled, IsToWrite};
ghost use Rattle.rtr_server.specs.Turns.{MaySettle, NoneDue, StandsFor, WritesFrom, after_read, after_write, and_received, no_traffic, settles};

use crate::pieces::{Unread, Unwritten};
use crate::report::Report;
use crate::stream::{Progress, Stream};
use crate::tally::{PdusByKind, Tally};
use rtr_ends::{Cache, Conn};
use rtr_pdu::Version;
use std::alloc::Global;
use vrps::VersionStore;

/// Why a client was closed.
#[derive(Clone, Copy, Debug, PartialEq, Eq)]
pub enum CloseReason {
    /// The client closed its side at the end of a PDU.
    PeerClosed,
    /// The client closed its side inside a PDU.
    Truncated,
    /// The cache ended the connection (RFC 8210 section 12). All that it had to send is written.
    CacheEnded,
    /// A read of the stream failed.
    ReadFailed,
    /// A write of the stream failed, or accepted 0 bytes.
    WriteFailed,
}

/// How a turn of a client ended: see `Server::serve`.
#[derive(Clone, Copy, Debug, PartialEq, Eq)]
pub enum Turn {
    /// The last call of the turn was a read, and it would block. Serve the client again once its stream is readable.
    WaitsToRead,
    /// The last call of the turn was a write, and it would block. Serve the client again once its stream is writable. If `ByteCounts::written`
    /// did not change in the turn, no byte was accepted.
    WaitsToWrite,
    /// The turn made `budget` calls of the stream, and there may be more to do. Serve the client again.
    Busy,
    /// The client was closed for this reason, and its number is free.
    Gone(CloseReason),
}

/// How many bytes were read from and written to a peer since its stream was admitted. Each count saturates at `u64::MAX`.
#[derive(Clone, Copy, Debug, PartialEq, Eq)]
pub struct ByteCounts {
    /// The number of bytes read from the peer.
    pub read: u64,
    /// The number of bytes written to the peer.
    pub written: u64,
}

/// The final counts of a client that has left, and its version of the protocol.
#[derive(Clone, Copy, Debug, PartialEq, Eq)]
pub struct Parted {
    /// How many bytes were read from and written to its stream.
    pub carried: ByteCounts,
    /// The PDUs that came from the client, by type. An Error Report that ended its connection is among them.
    pub received: PdusByKind,
    /// The PDUs that were written whole to the client, by type.
    pub sent: PdusByKind,
    /// The last Error Report that came from the client. The cache ends the connection after it (RFC 8210 section 5.11), so this is why the
    /// router left. `None`: none came.
    pub received_report: Option<Report>,
    /// The error code of the last Error Report that was sent to the client (RFC 8210 section 12). The cache ends the connection after each of
    /// them, except code 2, No Data Available. `None`: none was sent.
    pub sent_report: Option<u16>,
    /// The version of the protocol in which its connection spoke, as `Server::version` says. `None`: no whole header came.
    pub version: Option<Version>,
    /// The first byte that came from the client and was consumed: the version in its first header. The cache need not support that
    /// version. `None`: no byte was consumed.
    pub asked: Option<u8>,
}

/// The counts of a peer: the bytes on its stream, the PDUs received and consumed, and the PDUs sent.
#[derive(Debug, Drop)]
pub struct Traffic {
    /// How many bytes were read from and written to its stream.
    pub carried: ByteCounts,
    /// The tally of the bytes that came from the peer and were consumed.
    pub received: Tally,
    /// The tally of the bytes that were written to the peer.
    pub sent: Tally,
    /// The first byte that came from the peer and was consumed: the version in its first header (RFC 8210 section 5.1). `None`:
    /// no byte was consumed.
    pub asked: Option<u8>,
}

impl Traffic {
    /// The counts of a peer before any byte: all are zero, and no version was asked for.
    pub fn new() -> Traffic
        ensures { result ≡ no_traffic }
    {
        Traffic {
            carried: ByteCounts {
                read: 0,
                written: 0,
            },
            received: Tally::new(),
            sent: Tally::new(),
            asked: None,
        }
    }
}

/// A client: its stream, its connection, what is between them, whether a notify to it is pending, and what is counted of it.
#[derive(Debug, Drop)]
pub(crate) struct Slot<T> {
    pub(crate) stream: T,
    pub(crate) conn: Conn,
    pub(crate) unread: Unread,
    pub(crate) unwritten: Unwritten,
    pub(crate) is_owed: bool,
    pub(crate) traffic: Traffic,
}

/// What comes next at the stream.
#[derive(Clone, Copy, Debug, PartialEq, Eq)]
pub(crate) enum Next {
    /// Reading a piece.
    Read,
    /// Writing what was pulled.
    Write,
    /// Nothing: the connection has ended, and all is written.
    Nothing,
}

impl<T: Stream> Slot<T> {
    /// A client that has just come.
    pub(crate) fn new(alloc: Global, stream: T, conn: Conn) -> Slot<T>
        ensures { result ≡ record { stream = stream; conn = conn; unread = []; unwritten = []; is_owed = false; traffic = no_traffic } }
    {
        Slot {
            stream,
            conn,
            unread: Unread::new(),
            unwritten: Unwritten::new(alloc),
            is_owed: false,
            traffic: Traffic::new(),
        }
    }

    /// Sends the pending notify, if it can be sent. It returns whether it did.
    fn settle<S: VersionStore>(&mut self, cache: &mut Cache<S>) -> bool
        requires { self.old.unwritten ≡ [] }
        ensures goes { GoesFrom S.holds T.remaining T.contents NoneDue self.old cache.old self.new cache.new (settles result) }
        ensures rest { self.new ≡ record self.old { is_owed = self.new.is_owed } }
        ensures conn { self.new.conn ≡ self.old.conn }
    {
        if !self.is_owed {
            return false;
        }
        let is_sent = cache.notify(self.conn);
        self.is_owed = !is_sent;
        is_sent
    }

    /// Pulls what is due, if nothing is left to write.
    fn pull<S: VersionStore>(&mut self, cache: &mut Cache<S>)
        requires { self.old.unwritten ≡ [] }
        ensures goes { GoesFrom S.holds T.remaining T.contents Anyhow self.old cache.old self.new cache.new NoneDue }
        ensures rest { self.new ≡ record self.old { unwritten = self.new.unwritten } }
        ensures conn { self.new.conn ≡ self.old.conn }
    {
        self.unwritten.pull(cache, self.conn);
    }

    /// Pulls the pending notify, if nothing is left to write and nothing is due.
    fn pull_owed<S: VersionStore>(&mut self, cache: &mut Cache<S>)
        ensures goes { GoesFrom S.holds T.remaining T.contents NoneDue self.old cache.old self.new cache.new MaySettle }
        ensures conn { self.new.conn ≡ self.old.conn }
        ensures rest { self.new.unread ≡ self.old.unread }
        ensures answers { T.answers self.new.stream ≡ T.answers self.old.stream }
    {
        if !self.unwritten.is_empty() {
            return;
        }
        if self.settle(cache) {
            self.pull(cache);
        }
    }

    /// Pulls what is due, or the pending notify, if nothing is left to write.
    fn fill<S: VersionStore>(&mut self, cache: &mut Cache<S>)
        ensures goes { GoesFrom S.holds T.remaining T.contents Anyhow self.old cache.old self.new cache.new MaySettle }
        ensures conn { self.new.conn ≡ self.old.conn }
        ensures rest { self.new.unread ≡ self.old.unread }
        ensures answers { T.answers self.new.stream ≡ T.answers self.old.stream }
    {
        if self.unwritten.is_empty() {
            self.pull(cache);
            self.pull_owed(cache);
        }
    }

    /// Passes in what was read, and returns how many bytes were consumed: none if the connection has ended.
    fn take<S: VersionStore>(&mut self, cache: &mut Cache<S>) -> usize
        requires { 0 < length self.old.unread }
        ensures goes { GoesFrom S.holds T.remaining T.contents IsSettled self.old cache.old self.new cache.new (λ s. result ≡ 0 → IsOver s) }
        ensures rest { self.new ≡ record self.old { unread = drop result self.old.unread; traffic = and_received (take result self.old.unread) self.old.traffic } }
        ensures conn { self.new.conn ≡ self.old.conn }
        ensures within { result ≤ length self.old.unread }
    {
        self.unread.hand_in(
            cache,
            self.conn,
            &mut self.traffic.received,
            &mut self.traffic.asked,
        )
    }

    /// Passes in what was read, as far as nothing becomes due, and returns what comes next.
    fn prepare<S: VersionStore>(&mut self, cache: &mut Cache<S>) -> Next
        ensures goes { GoesFrom S.holds T.remaining T.contents Anyhow self.old cache.old self.new cache.new (StandsFor result) }
        ensures conn { self.new.conn ≡ self.old.conn }
        ensures read { result ≡ Next.Read → self.new.unread ≡ [] }
        ensures answers { T.answers self.new.stream ≡ T.answers self.old.stream }
    {
        loop {
            self.fill(cache);
            if !self.unwritten.is_empty() {
                return Next::Write;
            }
            if self.unread.is_empty() {
                return if cache.is_open(self.conn) {
                    Next::Read
                } else {
                    Next::Nothing
                };
            }
            if self.take(cache) == 0 {
                return Next::Nothing;
            }
        }
    }

    /// Reads a piece.
    fn read<S: VersionStore>(&mut self, cache: &Cache<S>) -> Option<Turn>
        requires { self.old.unread ≡ [] }
        ensures goes { GoesFrom S.holds T.remaining T.contents IsIdle self.old cache.now self.new cache.now (GoesOrEnds result (T.remaining self.new.stream)) }
        ensures conn { self.new.conn ≡ self.old.conn }
        ensures answers { AnswersStep result (T.answers self.old.stream) (T.answers self.new.stream) }
    {
        let is_within = cache.is_within_unit(self.conn);
        let moved = self.unread.read(&mut self.stream);
        self.traffic.carried.read = self.traffic.carried.read.saturating_add(moved.count());
        after_read(moved, is_within)
    }

    /// Writes of what was pulled.
    fn write(&mut self) -> Option<Turn>
        ensures goes { WritesFrom T.remaining T.contents IsToWrite self.old self.new (GoesOrEnds result (T.remaining self.new.stream)) }
        ensures conn { self.new.conn ≡ self.old.conn }
        ensures answers { AnswersStep result (T.answers self.old.stream) (T.answers self.new.stream) }
    {
        let moved = self
            .unwritten
            .write(&mut self.stream, &mut self.traffic.sent);
        self.traffic.carried.written = self.traffic.carried.written.saturating_add(moved.count());
        after_write(moved)
    }

    /// One call of the stream, with what comes before it.
    fn step<S: VersionStore>(&mut self, cache: &mut Cache<S>) -> Option<Turn>
        ensures goes { GoesFrom S.holds T.remaining T.contents Anyhow self.old cache.old self.new cache.new (GoesOrEnds result (T.remaining self.new.stream)) }
        ensures conn { self.new.conn ≡ self.old.conn }
        ensures answers { AnswersStep result (T.answers self.old.stream) (T.answers self.new.stream) }
    {
        match self.prepare(cache) {
            Next::Write => self.write(),
            Next::Read => self.read(cache),
            Next::Nothing => Some(Turn::Gone(CloseReason::CacheEnded)),
        }
    }

    /// As many calls as are allowed, until the stream would wait or the client is to go.
    pub(crate) fn turn<S: VersionStore>(&mut self, cache: &mut Cache<S>, budget: u32) -> Turn
        ensures goes { GoesFrom S.holds T.remaining T.contents Anyhow self.old cache.old self.new cache.new (EndsSo result (T.remaining self.new.stream)) }
        ensures conn { self.new.conn ≡ self.old.conn }
        ensures answers { AnswersTurn budget result (T.answers self.old.stream) (T.answers self.new.stream) }
    {
        for _call in 0..budget {
            if let Some(turn) = self.step(cache) {
                return turn;
            }
        }
        Turn::Busy
    }
}

/// The result of a read: none if the turn continues.
fn after_read(moved: Progress, is_within: bool) -> Option<Turn>
    ensures { result ≡ after_read moved is_within }
{
    match moved {
        Progress::Bytes(0) => Some(Turn::Gone(if is_within {
            CloseReason::Truncated
        } else {
            CloseReason::PeerClosed
        })),
        Progress::Bytes(_) | Progress::Interrupted => None,
        Progress::Waits => Some(Turn::WaitsToRead),
        Progress::Failed => Some(Turn::Gone(CloseReason::ReadFailed)),
    }
}

/// The result of a write: none if the turn continues.
fn after_write(moved: Progress) -> Option<Turn>
    ensures { result ≡ after_write moved }
{
    match moved {
        Progress::Bytes(0) | Progress::Failed => Some(Turn::Gone(CloseReason::WriteFailed)),
        Progress::Bytes(_) | Progress::Interrupted => None,
        Progress::Waits => Some(Turn::WaitsToWrite),
    }
}
