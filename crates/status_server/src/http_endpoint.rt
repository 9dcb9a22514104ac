//! The HTTP endpoint: it accepts connections and serves them, turn by turn.
ghost use Rattle.std.specs.Prelude.{◌≡◌, List, [], option_copied, true};
ghost use Rattle.status_server.specs.Answers.{AnswersSo};
ghost use Rattle.status_server.specs.declared.http_connections.Entry.{Entry};
ghost use Rattle.status_server.specs.Connections.{Accepts, AcceptsOne, Each, IsWoken, Serves, Turns, in_time, wait_for, wait_of};

use crate::http_connections::HttpConnections;
use crate::http_sockets::{HttpAccept, HttpReady, HttpSockets};
use crate::status_source::StatusSource;
use std::alloc::Global;
use std::fmt::{self, Debug};
use std::hash::RandomState;
use std::io::{Read, Write};
use std::marker::Model;

/// How many calls of its stream a connection has in one turn.
pub(crate) const BUDGET: u32 = 8;

/// How many readiness events are read in one turn.
const READY: usize = 65_536;

/// How many connections are accepted in one turn.
const AT_ONCE: usize = 64;

/// The longest wait while connections are open or pending, in milliseconds.
const SOON: u64 = 1000;

/// The HTTP connections, and whether a connection may be pending at the listener. Times are in milliseconds of a monotonic clock.
#[derive(Drop)]
pub struct HttpEndpoint<T> {
    connections: HttpConnections<T>,
    pending: bool,
}

impl<T> Model for HttpEndpoint<T> {
    ghost use Rattle.std.specs.Prelude.{Bool, List};
    ghost use Rattle.status_server.specs.declared.http_connections.Entry.{Entry};

    ghost Value = { List (Entry T) × Bool };

    ghost view = { λ v. (v.connections, v.pending) };
}

/// How many connections there are.
impl<T> Debug for HttpEndpoint<T> {
    fn fmt<W: fmt::Write>(&self, f: &mut fmt::Formatter<W>) -> fmt::Result {
        write!(f, "HttpEndpoint({:?})", self.connections)
    }
}

impl<T: Read + Write + Drop> HttpEndpoint<T> {
    /// Creates an endpoint without connections. Its first turn may find connections to accept, so `wait_limit` is 1,000 before it.
    /// Clients choose the names of headers, so `keys` must be random.
    pub fn new(alloc: Global, keys: RandomState) -> HttpEndpoint<T>
        ensures { result ≡ ([], true) }
    {
        HttpEndpoint {
            connections: HttpConnections::new(alloc, keys),
            pending: true,
        }
    }

    /// The open connections, for example to count them.
    pub fn connections(&self) -> &HttpConnections<T>
        ensures { result.now ≡ self.now.0 }
    {
        &self.connections
    }

    /// Runs one turn at `now`, in milliseconds of a monotonic clock. It accepts connections and serves those that are busy or ready. Connections that
    /// are closed or timed out are removed. If [`MAX_CONNECTIONS`](crate::MAX_CONNECTIONS) are open, a new one replaces the one that has waited
    /// longest for its request. If all are being answered, the new one is closed.
    ///
    /// A request is refused if `is_served_host` is false for the host that it names. `name` is the configured host name. `None`: only IP addresses
    /// and `localhost` are served.
    pub fn turn<N: HttpSockets<T>, S: StatusSource>(
        &mut self,
        now: u64,
        sockets: &mut N,
        source: &mut S,
        name: Option<&str>,
    )
        ensures { Turns T.remaining T.contents (AnswersSo (S.shows source.old) (option_copied name.entry)) now BUDGET self.old.0 self.new.0 }
    {
        self.note_all(sockets);
        self.accept_all(now, sockets);
        self.serve(now, source, name);
    }

    /// Returns how long the next turn may wait, in milliseconds. 0: a connection is busy. 1,000: a connection is open, or another may have to be
    /// accepted.
    /// Otherwise `u64::MAX`.
    pub fn wait_limit(&self) -> u64
        ensures { result ≡ wait_of self.now.0 self.now.1 }
    {
        wait_for(
            self.connections.has_busy(),
            self.pending,
            self.connections.is_empty(),
        )
    }

    /// Reads what is ready.
    fn note_all<N: HttpSockets<T>>(&mut self, sockets: &mut N)
        ensures { Each IsWoken self.old.0 self.new.0 }
    {
        for _ready in 0..READY {
            let Some(ready) = sockets.next() else {
                return;
            };
            self.note(ready);
        }
    }

    /// Notes what is ready.
    fn note(&mut self, ready: HttpReady)
        ensures { Each IsWoken self.old.0 self.new.0 }
    {
        match ready {
            HttpReady::Listener => self.pending = true,
            HttpReady::Connection(token) => self.connections.wake(token),
        }
    }

    /// Accepts pending connections. If an accept fails, it is tried again in the next turn.
    fn accept_all<N: HttpSockets<T>>(&mut self, now: u64, sockets: &mut N)
        ensures { Accepts now self.old.0 self.new.0 }
    {
        for _connection in 0..AT_ONCE {
            if !self.accept(now, sockets) {
                return;
            }
        }
    }

    /// Accepts a connection, if one may be pending. Answers whether another may be accepted.
    fn accept<N: HttpSockets<T>>(&mut self, now: u64, sockets: &mut N) -> bool
        ensures { Accepts now self.old.0 self.new.0 }
    {
        if !self.pending {
            return false;
        }
        match sockets.accept() {
            HttpAccept::Connection { stream, token } => {
                self.admit(token, stream, now, sockets);
                true
            }
            HttpAccept::WouldBlock => {
                self.pending = false;
                false
            }
            HttpAccept::Again => true,
            HttpAccept::Failed => false,
        }
    }

    /// Admits an accepted connection. If there are as many as there may be, the one is closed for it that has waited longest for its request. If all
    /// are being answered, or memory runs out, the new one is closed.
    fn admit<N: HttpSockets<T>>(&mut self, token: usize, stream: T, now: u64, sockets: &mut N)
        ensures { AcceptsOne now self.old.0 self.new.0 }
    {
        let most = self.connections.len() as u64;
        if let Some(gone) = self.connections.make_room() {
            sockets.turn_away(gone, most);
        }
        if self.connections.is_full() {
            return sockets.turn_away(stream, most);
        }
        let _ = self.connections.admit(token, stream, now);
    }

    /// Serves the busy connections, and removes those that timed out.
    fn serve<S: StatusSource>(&mut self, now: u64, source: &mut S, name: Option<&str>)
        ensures { (rest : List (Entry T)) × Serves T.remaining T.contents (AnswersSo (S.shows source.old) (option_copied name.entry)) now BUDGET self.old.0 rest × (self.new.0 ≡ in_time now rest) }
    {
        self.connections.serve(now, source, name, BUDGET);
        self.connections.expire(now);
    }
}

/// How long the next turn may wait, in milliseconds: by whether a connection is busy, whether one may be pending, and whether none is open.
fn wait_for(is_busy: bool, is_pending: bool, is_empty: bool) -> u64
    ensures { result ≡ wait_for is_busy is_pending is_empty }
{
    if is_busy {
        0
    } else if is_pending || !is_empty {
        SOON
    } else {
        u64::MAX
    }
}
