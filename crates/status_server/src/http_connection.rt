//! One HTTP connection, over a non-blocking stream.
ghost use Rattle.std.specs.Prelude.{◌≡◌, ◌==◌, false, IfOk, OnErr, length};
ghost use Rattle.http_server.specs.Connection.{history};
ghost use Rattle.http_server.specs.Exchange.{Calls};
ghost use Rattle.http_server.specs.History.{IsQuiet};
ghost use Rattle.status_server.specs.Progress.{is_busy, is_closed};
ghost use Rattle.status_server.specs.Calls.{IsFirst, MakesCall, MakesCalls, TellsSent, has_sent};

use http_server::{Config, Connection, Service};
use std::alloc::Global;
use std::hash::RandomState;
use std::io::{self, ErrorKind, Read, Write};

/// What a connection does next.
#[derive(Clone, Copy, Debug, PartialEq, Eq)]
pub enum HttpProgress {
    /// The stream would block. The connection waits until it is ready.
    WouldBlock,
    /// The connection used up its calls for this turn, or its stream became ready. It is served in the next turn.
    Busy,
    /// The connection is finished, or its stream failed. Remove it.
    Closed,
}

impl HttpProgress {
    /// Returns whether the next turn serves the connection. `true`: it is new, it used up its calls in the last turn, or its stream became ready.
    pub fn is_busy(self) -> bool
        ensures { result ≡ is_busy self }
    {
        matches!(self, HttpProgress::Busy)
    }

    /// Returns whether the connection is finished or its stream failed.
    pub fn is_closed(self) -> bool
        ensures { result ≡ is_closed self }
    {
        matches!(self, HttpProgress::Closed)
    }
}

/// The limits of a request: 8,192 bytes of target and headers, 1,024 bytes of body, and few trailers and extensions. The next request is
/// answered once all of a response is sent, so a call of the stream makes one response at most.
fn bounds() -> Config {
    let mut config = Config::default();
    config.limits.max_head_len = 8192;
    config.limits.max_extensions_len = 256;
    config.limits.max_trailers_len = 256;
    config.max_body_len = 1024;
    config.max_pending = 0;
    config.read_size = 2048;
    config
}

/// A connection: its stream, and the state of its HTTP protocol.
#[derive(Drop)]
pub(crate) struct HttpConnection<T> {
    stream: T,
    connection: Connection,
}

/// What a call of the stream came to.
#[derive(Clone, Copy, Debug, PartialEq, Eq)]
enum Moved {
    /// It sent this many bytes: none if it was interrupted, or if it read.
    Sent(usize),
    /// It moved none, and the turn of the connection ends so.
    Ends(HttpProgress),
}

impl Moved {
    ghost use Rattle.std.specs.Prelude.{false};
    ghost use Rattle.status_server.specs.Calls.{TellsSent};

    /// The same of a call that read: it sent nothing.
    fn as_read(self) -> Moved
        ensures { TellsSent result false }
    {
        match self {
            Moved::Sent(_) => Moved::Sent(0),
            Moved::Ends(progress) => Moved::Ends(progress),
        }
    }
}

/// How the turn of a connection ended, and whether it sent a byte.
#[derive(Clone, Copy, Debug, PartialEq, Eq)]
pub(crate) struct Served {
    pub(crate) progress: HttpProgress,
    pub(crate) has_sent: bool,
}

impl<T: Read + Write> HttpConnection<T> {
    /// A connection over this stream. Nothing was read or written.
    pub(crate) fn new(alloc: Global, keys: RandomState, stream: T) -> HttpConnection<T>
        ensures { IsFirst stream result }
    {
        HttpConnection {
            stream,
            connection: Connection::new(alloc, keys, bounds()),
        }
    }

    /// Serves the connection until its stream would block, or until this many calls were made.
    pub(crate) fn serve<S: Service>(&mut self, service: &mut S, budget: u32) -> Served
        ensures calls { MakesCalls T.remaining T.contents budget self.old self.new }
        ensures sent { result.has_sent ≡ has_sent self.old self.new }
        ensures answered { Calls S.answers service.old service.new (history self.old.connection).calls (history self.new.connection).calls }
    {
        let mut has_sent = false;
        for _call in 0..budget {
            match self.call(service) {
                Moved::Sent(count) => has_sent |= count > 0,
                Moved::Ends(progress) => return Served { progress, has_sent },
            }
        }
        Served {
            progress: HttpProgress::Busy,
            has_sent,
        }
    }

    /// Makes one call of the stream: it writes if bytes are due, and reads otherwise.
    fn call<S: Service>(&mut self, service: &mut S) -> Moved
        ensures call { MakesCall T.remaining T.contents self.old self.new }
        ensures sent { TellsSent result (has_sent self.old self.new) }
        ensures answered { Calls S.answers service.old service.new (history self.old.connection).calls (history self.new.connection).calls }
    {
        if self.connection.wants_write() {
            let written = self.connection.write_to(&mut self.stream);
            self.go_on(written, service)
        } else if self.connection.wants_read() {
            let read = self.connection.read_from(&mut self.stream);
            self.go_on(read, service).as_read()
        } else {
            Moved::Ends(HttpProgress::Closed)
        }
    }

    /// Answers what was received, after a call of the stream.
    fn go_on<S: Service>(&mut self, moved: io::Result<usize>, service: &mut S) -> Moved
        ensures quiet { IsQuiet (history self.old.connection) (history self.new.connection) }
        ensures stream { self.new.stream ≡ self.old.stream }
        ensures ok { IfOk moved (λ n. result ≡ Moved.Sent n) }
        ensures err { OnErr moved (TellsSent result false) }
        ensures answered { Calls S.answers service.old service.new (history self.old.connection).calls (history self.new.connection).calls }
    {
        match moved {
            Ok(count) => {
                self.connection.advance(service);
                Moved::Sent(count)
            }
            Err(error) => match error.kind() {
                ErrorKind::WouldBlock => Moved::Ends(HttpProgress::WouldBlock),
                ErrorKind::Interrupted => Moved::Sent(0),
                _ => Moved::Ends(HttpProgress::Closed),
            },
        }
    }
}

impl<T> HttpConnection<T> {
    /// Whether no byte is pending: the connection waits for a request, of which not all has come.
    pub(crate) fn is_waiting(&self) -> bool
        ensures { result ≡ (length (history self.now.connection).pending == 0) }
    {
        !self.connection.wants_write()
    }

    /// Its stream. What was received and is not answered is dropped.
    pub(crate) fn into_stream(self) -> T
        ensures { result ≡ self.stream }
    {
        let HttpConnection {
            stream,
            connection: _,
        } = self;
        stream
    }
}
