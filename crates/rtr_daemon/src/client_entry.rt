//! A connected client, as the table of clients keeps it.
ghost use Rattle.std.specs.Prelude.{◌≡◌};
ghost use Rattle.rtr_daemon.specs.Overdue.{blocked_after, is_notified_after};

use crate::outstanding::{Outstanding, outstanding_after};
use rtr_server::{ByteCounts, Client, Turn};
use std::net::SocketAddr;
use tcp_table::{Endpoint, TcpLine, Unanswered, bytes_of, unanswered_after};

/// The timeout for the first query of a client, in milliseconds.
pub(crate) const FIRST_QUERY: u64 = 60_000;

/// The addresses of both ends of a client's connection.
#[derive(Clone, Copy)]
pub(crate) struct Ends {
    pub(crate) address: SocketAddr,
    pub(crate) local: SocketAddr,
}

/// What a client's turn came to: its outcome, and what was counted of the client since it came.
#[derive(Clone, Copy)]
pub(crate) struct TurnOutcome {
    pub(crate) turn: Turn,
    pub(crate) carried: ByteCounts,
    /// How many queries came whole from it.
    pub(crate) queries: u64,
    /// How many answers were written whole to it.
    pub(crate) answers: u64,
    /// How many Serial Notifies were written whole to it.
    pub(crate) notifies: u64,
    /// Whether a whole query came from it.
    pub(crate) has_asked: bool,
}

/// A client: its number at the server, its address, and how long its stream has been blocked.
#[derive(Debug, Drop)]
pub(crate) struct ClientEntry {
    pub(crate) client: Client,
    pub(crate) address: SocketAddr,
    pub(crate) local: SocketAddr,
    /// When it connected, in milliseconds of the monotonic clock.
    pub(crate) came: u64,
    /// Whether a whole query came from it.
    pub(crate) has_asked: bool,
    /// Since when no byte could be written to it, while bytes are due.
    pub(crate) blocked: Option<u64>,
    /// The answer that has not left.
    pub(crate) answering: Option<Outstanding>,
    /// How many Serial Notifies were written to it.
    pub(crate) notifies: u64,
    /// Whether it was notified, and has sent nothing since.
    pub(crate) is_notified: bool,
    /// The bytes to it that are sent again, as of the last readings, while it is notified.
    pub(crate) unanswered: Option<Unanswered>,
    /// The bytes that were read and written when it was served last.
    pub(crate) carried: ByteCounts,
    pub(crate) is_queued: bool,
}

impl ClientEntry {
    ghost use Rattle.rtr_daemon.specs.Losing.{lines_noted};
    ghost use Rattle.rtr_daemon.specs.Newcomers.{newcomer};
    ghost use Rattle.rtr_daemon.specs.Overdue.{is_silent, is_slow, is_stalled, turned};
    ghost use Rattle.tcp_table.specs.Columns.{endpoint_of};
    ghost use Rattle.tcp_table.specs.Tables.{bytes_of};

    /// A client that comes now, in milliseconds of the monotonic clock.
    pub(crate) fn new(client: Client, ends: Ends, now: u64) -> ClientEntry
        ensures { result ≡ newcomer client ends now }
    {
        ClientEntry {
            client,
            address: ends.address,
            local: ends.local,
            came: now,
            has_asked: false,
            blocked: None,
            answering: None,
            notifies: 0,
            is_notified: false,
            unanswered: None,
            carried: ByteCounts {
                read: 0,
                written: 0,
            },
            is_queued: false,
        }
    }

    /// Notes the outcome of a turn.
    pub(crate) fn note(&mut self, outcome: TurnOutcome, now: u64)
        ensures { self.new ≡ turned now outcome self.old }
    {
        let TurnOutcome {
            turn,
            carried,
            queries,
            answers,
            notifies,
            has_asked,
        } = outcome;
        self.has_asked = self.has_asked || has_asked;
        self.blocked = blocked_since(self, turn, carried, now);
        self.is_notified = is_notified_after(self, &outcome);
        if !self.is_notified {
            self.unanswered = None;
        }
        self.notifies = notifies;
        self.carried = carried;
        self.answering = outstanding_after(self.answering, queries, answers, now);
    }

    /// Notes what these lines of the system's tables show, if it was notified and has sent nothing since.
    pub(crate) fn note_lines(&mut self, lines: &[TcpLine], now: u64)
        ensures { self.new ≡ lines_noted lines.now now self.old }
    {
        if self.is_notified {
            let bytes = self.bytes_in(lines);
            self.unanswered = unanswered_after(self.unanswered, bytes, now);
        }
    }

    /// How many bytes to it are sent again by these lines.
    fn bytes_in(&self, lines: &[TcpLine]) -> Option<u32>
        ensures { result ≡ bytes_of (endpoint_of self.now.local) (endpoint_of self.now.address) lines.now }
    {
        let (local, remote) = (Endpoint::of(self.local), Endpoint::of(self.address));
        bytes_of(lines, &local, &remote)
    }

    pub(crate) fn is_stalled(&self, now: u64, stall: u64) -> bool
        ensures { result ≡ is_stalled self.now.blocked now stall }
    {
        match self.blocked {
            Some(since) => now.saturating_sub(since) >= stall,
            None => false,
        }
    }

    pub(crate) fn is_silent(&self, now: u64) -> bool
        ensures { result ≡ is_silent self.now now }
    {
        !self.has_asked && now.saturating_sub(self.came) >= FIRST_QUERY
    }

    pub(crate) fn is_slow(&self, now: u64, slow: u64) -> bool
        ensures { result ≡ is_slow self.now.answering now slow }
    {
        match self.answering {
            Some(answer) => now.saturating_sub(answer.since) >= slow,
            None => false,
        }
    }
}

/// Since when a client is blocked on writing, after a turn.
fn blocked_since(entry: &ClientEntry, turn: Turn, carried: ByteCounts, now: u64) -> Option<u64>
    ensures { result ≡ blocked_after entry.now.blocked entry.now.carried.written turn carried.written now }
{
    match (turn, entry.blocked) {
        (Turn::WaitsToWrite, Some(since)) if carried.written == entry.carried.written => {
            Some(since)
        }
        (Turn::WaitsToWrite, _) => Some(now),
        _ => None,
    }
}

/// Whether a client is notified, and has sent nothing since, after a turn: a notify more was written to it, or it was so before and no byte came.
fn is_notified_after(entry: &ClientEntry, outcome: &TurnOutcome) -> bool
    ensures { result ≡ is_notified_after entry.now outcome.now }
{
    outcome.notifies > entry.notifies
        || (entry.is_notified && outcome.carried.read == entry.carried.read)
}
