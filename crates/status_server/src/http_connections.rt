//! All HTTP connections.
ghost use Rattle.std.specs.Prelude.{◌≡◌, ◌==◌, ◌++◌, ◌∷◌, ◌+◌, ◌↔◌, ◌<◌, ◌≤◌, [], length, Err, IfSome, IsTrue, OnOk, OnErr, option_copied};
ghost use Rattle.std.specs.List.{list_any};
ghost use Rattle.status_server.specs.Answers.{AnswersOn, AnswersSo};
ghost use Rattle.status_server.specs.Connections.{Admits, Each, HasWaitedLongest, IsServed, MakesRoom, Serves, has_busy, has_token, in_time, is_in_time, unclosed, wake, woken};
ghost use Rattle.status_server.specs.Progress.{is_busy};

use crate::answers::Answers;
use crate::http_connection::{HttpConnection, HttpProgress};
use crate::status_source::StatusSource;
use std::alloc::Global;
use std::fmt::{self, Debug};
use std::hash::RandomState;
use std::io::{Read, Write};
use std::marker::Model;
use thiserror::Error;

/// The most connections that may be open at once.
pub const MAX_CONNECTIONS: usize = 64;

/// The timeout of a connection on which no byte is sent, in milliseconds. A client has this long for each request.
pub const IDLE_MILLIS: u64 = 30_000;

/// The longest time that a connection may be open, in milliseconds.
pub const CONNECTION_MILLIS: u64 = 600_000;

/// Why a connection is refused. Its stream was dropped.
#[derive(Clone, Copy, Debug, Drop, PartialEq, Eq, Error)]
pub enum HttpAdmitFault {
    /// The limit of connections is reached.
    #[error("64 connections are open")]
    TooManyConnections,
    /// Out of memory.
    #[error("out of memory")]
    Memory,
}

/// A connection, with its poll token, when it was admitted, when a byte was last sent on it, and its progress. If it is busy, it is served in the
/// next turn.
#[derive(Drop)]
struct Entry<T> {
    token: usize,
    came: u64,
    last_sent: u64,
    progress: HttpProgress,
    connection: HttpConnection<T>,
}

/// The open HTTP connections, each with a poll token. Times are in milliseconds of a monotonic clock.
#[derive(Drop)]
pub struct HttpConnections<T> {
    alloc: Global,
    keys: RandomState,
    entries: Vec<Entry<T>>,
}

impl<T> Model for HttpConnections<T> {
    ghost use Rattle.std.specs.Prelude.{List, ◌≤◌, length};
    ghost use Rattle.status_server.specs.declared.http_connections.Entry.{Entry};

    ghost Value = { List (Entry T) };

    ghost view = { λ v. v.entries.items };

    ghost invariant = { λ v. length v.entries.items ≤ 64 };
}

impl<T> Entry<T> {
    /// Wakes the connection, if it has this token.
    fn wake(&mut self, token: usize)
        ensures { self.new ≡ woken token self.old }
    {
        if self.token == token {
            self.progress = HttpProgress::Busy;
        }
    }

    /// Whether the connection did not time out.
    fn is_in_time(&self, now: u64) -> bool
        ensures { result ≡ is_in_time now self.now }
    {
        now.saturating_sub(self.last_sent) < IDLE_MILLIS
            && now.saturating_sub(self.came) < CONNECTION_MILLIS
    }
}

impl<T: Read + Write> Entry<T> {
    /// Serves the connection at this time, if it is busy.
    fn serve<S: StatusSource>(&mut self, now: u64, answers: &mut Answers<'_, S>, budget: u32)
        ensures served { IsServed T.remaining T.contents (AnswersSo (S.shows answers.old.source) answers.old.name) now budget self.old self.new }
        ensures keeps { AnswersOn S.shows answers.old answers.new }
    {
        if !self.progress.is_busy() {
            return;
        }
        let served = self.connection.serve(answers, budget);
        self.progress = served.progress;
        if served.has_sent {
            self.last_sent = now;
        }
    }
}

/// How many there are.
impl<T> Debug for HttpConnections<T> {
    fn fmt<W: fmt::Write>(&self, f: &mut fmt::Formatter<W>) -> fmt::Result {
        write!(f, "HttpConnections({})", self.entries.len())
    }
}

/// Whether some entry has the token.
fn any_at<T>(entries: &[Entry<T>], token: usize) -> bool
    ensures { result ≡ list_any (λ p. p.token == token) entries.now }
{
    entries.iter().any(|entry| entry.token == token)
}

/// The entry of an index, if it has waited longer than the one that was found.
fn longer_waiting<T>(entries: &[Entry<T>], found: Option<usize>, index: usize) -> Option<usize>
    requires within { index < length entries.now }
    requires longest { HasWaitedLongest index entries.now found }
    ensures { HasWaitedLongest (index + 1) entries.now result }
{
    if !entries[index].connection.is_waiting() {
        return found;
    }
    match found {
        Some(other) if entries[other].last_sent <= entries[index].last_sent => found,
        _ => Some(index),
    }
}

/// The entry that has waited longest for its request, if any waits.
fn longest_waiting<T>(entries: &[Entry<T>]) -> Option<usize>
    ensures longest { HasWaitedLongest (length entries.now) entries.now result }
    ensures within { IfSome result (λ i. i < length entries.now) }
{
    let mut found = None;
    for index in 0..entries.len() {
        found = longer_waiting(entries, found, index);
    }
    found
}

/// Whether some entry is busy.
fn any_busy<T>(entries: &[Entry<T>]) -> bool
    ensures { result ≡ list_any (λ p. is_busy p.progress) entries.now }
{
    entries.iter().any(|entry| entry.progress.is_busy())
}

/// Wakes the entries of a token.
fn wake_in<T>(entries: &mut [Entry<T>], token: usize)
    ensures { entries.new ≡ wake token entries.old }
{
    for entry in entries.iter_mut() {
        entry.wake(token);
    }
}

/// Serves the busy entries at this time.
fn serve_in<T: Read + Write, S: StatusSource>(
    entries: &mut [Entry<T>],
    now: u64,
    answers: &mut Answers<'_, S>,
    budget: u32,
)
    ensures { Each (IsServed T.remaining T.contents (AnswersSo (S.shows answers.old.source) answers.old.name) now budget) entries.old entries.new }
{
    for entry in entries.iter_mut() {
        entry.serve(now, answers, budget);
    }
}

impl<T: Read + Write + Drop> HttpConnections<T> {
    /// Creates an empty list of connections. Clients choose the names of headers. So `keys` must be random, or a client could choose names that
    /// collide.
    pub fn new(alloc: Global, keys: RandomState) -> HttpConnections<T>
        ensures { result ≡ [] }
    {
        HttpConnections {
            alloc,
            keys,
            entries: Vec::new(alloc),
        }
    }

    /// The number of open connections.
    pub fn len(&self) -> usize
        ensures value { result ≡ length self.now }
        ensures bound { result ≤ 64 }
    {
        self.entries.len()
    }

    /// Returns whether no connection is open.
    pub fn is_empty(&self) -> bool
        ensures { result ≡ (length self.now == 0) }
    {
        self.entries.is_empty()
    }

    /// Adds a connection with this poll token at `now`, in milliseconds of a monotonic clock. The connection is busy, so the next turn serves it.
    /// `Err`: the stream is dropped, and the others do not change. `TooManyConnections`: [`MAX_CONNECTIONS`] are open. `Memory`: fewer are open, and
    /// memory ran out.
    pub fn admit(&mut self, token: usize, stream: T, now: u64) -> Result<(), HttpAdmitFault>
        ensures ok { OnOk result (Admits token now stream self.old self.new) }
        ensures full { result ≡ Err HttpAdmitFault.TooManyConnections ↔ (64 ≤ length self.old) }
        ensures err { OnErr result (self.new ≡ self.old) }
    {
        if self.entries.len() >= MAX_CONNECTIONS {
            return Err(HttpAdmitFault::TooManyConnections);
        }
        let entry = Entry {
            token,
            came: now,
            last_sent: now,
            progress: HttpProgress::Busy,
            connection: HttpConnection::new(self.alloc, self.keys, stream),
        };
        if self.entries.push(entry).is_err() {
            return Err(HttpAdmitFault::Memory);
        }
        Ok(())
    }

    /// Returns whether [`MAX_CONNECTIONS`] connections are open.
    pub fn is_full(&self) -> bool
        ensures { IsTrue result ↔ (64 ≤ length self.now) }
    {
        self.len() >= MAX_CONNECTIONS
    }

    /// Removes one connection if [`MAX_CONNECTIONS`] are open, and returns its stream. It is the connection that has waited longest for its
    /// request.
    ///
    /// `None`: there is room, or all connections are being answered. Then nothing changes.
    pub fn make_room(&mut self) -> Option<T>
        ensures { MakesRoom result self.old self.new }
    {
        if self.entries.len() < MAX_CONNECTIONS {
            return None;
        }
        let index = longest_waiting(&self.entries)?;
        let Entry { connection, .. } = self.entries.remove(index);
        Some(connection.into_stream())
    }

    /// Returns whether an open connection has this poll token.
    pub fn has(&self, token: usize) -> bool
        ensures { result ≡ has_token token self.now }
    {
        any_at(&self.entries, token)
    }

    /// Returns whether a connection is busy: the next turn serves it without waiting for its stream. It is `false` if none is open.
    /// `admit` and `wake` make a connection busy. It stays busy if it uses up its calls in a turn.
    pub fn has_busy(&self) -> bool
        ensures { result ≡ has_busy self.now }
    {
        any_busy(&self.entries)
    }

    /// Makes the connection with the poll token busy, so the next turn serves it. If there is none, nothing changes.
    pub fn wake(&mut self, token: usize)
        ensures { self.new ≡ wake token self.old }
    {
        wake_in(&mut self.entries, token);
    }

    /// Serves the busy connections at this time.
    fn serve_busy<S: StatusSource>(
        &mut self,
        now: u64,
        source: &mut S,
        name: Option<&str>,
        budget: u32,
    )
        ensures { Each (IsServed T.remaining T.contents (AnswersSo (S.shows source.old) (option_copied name.entry)) now budget) self.old self.new }
    {
        let mut answers = Answers::new(self.alloc, source, name);
        serve_in(&mut self.entries, now, &mut answers, budget);
    }

    /// Removes the closed connections.
    fn remove_closed(&mut self)
        ensures { self.new ≡ unclosed self.old }
    {
        self.entries.retain(|entry| !entry.progress.is_closed());
    }

    /// Serves each busy connection at `now`, in milliseconds of a monotonic clock, until its stream would block or `budget` calls of the stream were
    /// made.
    /// Connections that are then closed are removed.
    ///
    /// A request is refused if [`is_served_host`](crate::is_served_host) is false for the host that it names. `name` is the configured host name.
    /// `None`: only IP addresses and `localhost` are served.
    pub fn serve<S: StatusSource>(
        &mut self,
        now: u64,
        source: &mut S,
        name: Option<&str>,
        budget: u32,
    )
        ensures { Serves T.remaining T.contents (AnswersSo (S.shows source.old) (option_copied name.entry)) now budget self.old self.new }
    {
        self.serve_busy(now, source, name, budget);
        self.remove_closed();
    }

    /// Removes the connections that timed out at `now`, in milliseconds of a monotonic clock. No byte was sent on them for [`IDLE_MILLIS`], or they
    /// were admitted [`CONNECTION_MILLIS`] ago or earlier. Their streams are dropped.
    pub fn expire(&mut self, now: u64)
        ensures { self.new ≡ in_time now self.old }
    {
        self.entries.retain(|entry| entry.is_in_time(now));
    }
}
