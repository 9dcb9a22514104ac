//! The sockets over `mio`, and the addresses of routers and visitors.
use crate::connection::{Connection, is_bounded};
use crate::system::System;
use event_log::LogEvent;
use mio::net::TcpStream;
use mio::{Interest, Token};
use rtr_daemon::{AcceptResult, EventLog, PollToken, Ready, Sockets, Time, WaitLimits};
use status_server::{HttpAccept, HttpReady, HttpSockets};
use std::fs;
use std::io::{self, ErrorKind, Write};
use std::net::SocketAddr;
use std::rt::Files;
use std::time::{Clock, Duration};

/// The system's tables of TCP connections (proc(5)).
const TCP_TABLE: &str = "/proc/self/net/tcp";

const TCP6_TABLE: &str = "/proc/self/net/tcp6";

impl<'a, R: Files + Clock + AllocGlobal, E: Write> Sockets<Connection> for System<'a, R, E> {
    fn wait(&mut self, millis: u64) -> io::Result<()> {
        let now = self.millis();
        let limits = WaitLimits {
            pages: self.wait_limit,
            log: self.log_wait(now),
            watchdog: self.manager_wait(now),
        };
        let wait = Duration::from_millis(limits.least(millis));
        self.poll.poll(&mut self.events, Some(wait))?;
        for event in self.events.iter() {
            match PollToken::of(event.token().0) {
                PollToken::Listener(index) => self.ready.push_back(Ready::Listener(index))?,
                PollToken::Connection(token) => self.ready.push_back(Ready::Connection(token))?,
                PollToken::StatusListener => self.http_ready.push_back(HttpReady::Listener)?,
                PollToken::StatusConnection(token) => {
                    self.http_ready.push_back(HttpReady::Connection(token))?
                }
            }
        }
        Ok(())
    }

    fn next(&mut self) -> Option<Ready> {
        self.ready.pop_front()
    }

    fn accept(&mut self, listener: usize) -> AcceptResult<Connection> {
        let Some(socket) = self.listeners.get(listener) else {
            return AcceptResult::WouldBlock;
        };
        match socket.accept() {
            Ok((stream, address)) => self.register_connection(stream, address),
            Err(error) => AcceptResult::refused(error),
        }
    }

    /// A system without IPv6 has no table of it.
    fn connections(&mut self) -> io::Result<Vec<u8>> {
        let mut table = fs::read(self.rt, TCP_TABLE)?;
        match fs::read(self.rt, TCP6_TABLE) {
            Ok(more) => table.extend_from_slice(more.as_slice())?,
            // A system without IPv6 has no such file.
            Err(error) if error.kind() == ErrorKind::NotFound => {}
            Err(error) => return Err(error),
        }
        Ok(table)
    }
}

impl<'a, R: Clock + AllocGlobal, E: Write> HttpSockets<TcpStream> for System<'a, R, E> {
    fn next(&mut self) -> Option<HttpReady> {
        self.http_ready.pop_front()
    }

    fn turn_away(&mut self, stream: TcpStream, connections: u64) {
        if let Ok(address) = stream.peer_addr() {
            let now = self.seconds();
            let event = LogEvent::StatusFull {
                address: SocketAddr::new(address.ip().to_canonical(), address.port()),
                clients: connections,
            };
            self.log(now, &event);
        }
    }

    fn accept(&mut self) -> HttpAccept<TcpStream> {
        let Some(listener) = &self.http_listener else {
            return HttpAccept::WouldBlock;
        };
        match listener.accept() {
            Ok((stream, _address)) => {
                self.is_http_failure_reported = false;
                self.register_http(stream)
            }
            Err(e) if e.kind() == ErrorKind::WouldBlock => HttpAccept::WouldBlock,
            Err(error) => {
                self.note_http_failure(&error);
                HttpAccept::Failed
            }
        }
    }
}

impl<'a, R, E> System<'a, R, E> {
    /// Limits each later wait for events to `millis` milliseconds, until the next call.
    pub fn wait_at_most(&mut self, millis: u64) {
        self.wait_limit = millis;
    }

    /// Reports an accept that failed at the listener of the status pages, once until a connection is accepted there.
    fn note_http_failure(&mut self, error: &io::Error)
    where
        R: Clock + AllocGlobal,
        E: Write,
    {
        if self.is_http_failure_reported {
            return;
        }
        self.is_http_failure_reported = true;
        let now = self.seconds();
        let what = "accept for the status pages";
        match error.to_string(self.rt.alloc()) {
            Ok(reason) => {
                let reason = reason.as_str();
                self.log(now, &LogEvent::Failed { what, reason });
            }
            Err(_) => self.log(now, &LogEvent::Memory { what }),
        }
    }

    /// Registers a stream under a poll token, and answers whether that succeeded.
    fn is_registered(&self, stream: &mut TcpStream, token: usize) -> bool {
        let both = Interest::READABLE | Interest::WRITABLE;
        let registry = self.poll.registry();
        registry.register(stream, Token(token), both).is_ok()
    }

    /// Bounds the send buffer of an HTTP connection, and registers it. If that fails, the connection is closed.
    fn register_http(&mut self, stream: TcpStream) -> HttpAccept<TcpStream> {
        let mut stream = stream;
        if !is_bounded(&stream) {
            return HttpAccept::Again;
        }
        let token = self.next_http_token;
        self.next_http_token = token.saturating_add(1);
        if !self.is_registered(&mut stream, token) {
            return HttpAccept::Again;
        }
        HttpAccept::Connection { stream, token }
    }

    /// Registers the connection of a router.
    fn register_connection(
        &mut self,
        stream: TcpStream,
        address: SocketAddr,
    ) -> AcceptResult<Connection> {
        let Ok(local) = stream.local_addr() else {
            return AcceptResult::Again;
        };
        let Some(mut connection) = Connection::of(stream) else {
            return AcceptResult::Again;
        };
        let token = self.next_token;
        self.next_token = token.saturating_add(1);
        if !self.is_registered(connection.socket(), token) {
            return AcceptResult::Again;
        }
        AcceptResult::Connection {
            stream: connection,
            token,
            address: SocketAddr::new(address.ip().to_canonical(), address.port()),
            local,
        }
    }
}
