//! An accepted TCP connection of a router.
ghost use Rattle.libc.specs.Net.{SockOption};

use libc::net::{
    IPPROTO_TCP, SO_KEEPALIVE, SO_SNDBUF, SOL_SOCKET, TCP_KEEPCNT, TCP_KEEPIDLE, TCP_KEEPINTVL,
    setsockopt,
};
use mio::net::TcpStream;
use rtr_server::{Progress, Stream};
use std::fmt::{self, Debug};
use std::io::{Read, Write};
use std::os::fd::AsRawFd;

/// The size of the send buffer that is asked of the system, in bytes.
const SEND_ROOM: i32 = 262_144;

/// An accepted, non-blocking TCP connection of a router.
#[derive(Drop)]
pub struct Connection {
    stream: TcpStream,
}

/// The number of its descriptor.
impl Debug for Connection {
    fn fmt<W: fmt::Write>(&self, f: &mut fmt::Formatter<W>) -> fmt::Result {
        write!(f, "Connection({})", self.stream.as_raw_fd())
    }
}

impl Connection {
    /// Sets up an accepted socket: no Nagle's algorithm, a bounded send buffer and TCP keepalive.
    /// `None`: an option could not be set. The socket is then closed.
    pub fn of(stream: TcpStream) -> Option<Connection> {
        if stream.set_nodelay(true).is_err() || !is_bounded(&stream) || !is_kept_alive(&stream) {
            return None;
        }
        Some(Connection { stream })
    }

    /// The socket, to register it for poll events.
    pub fn socket(&mut self) -> &mut TcpStream {
        &mut self.stream
    }
}

/// Asks the system for a send buffer of 256 KiB for a socket. Returns whether the system accepted that.
pub fn is_bounded(stream: &TcpStream) -> bool {
    takes_option(stream, SOL_SOCKET, SO_SNDBUF, SEND_ROOM)
}

/// Sets TCP keepalive, and returns whether that succeeded: six probes, 20 seconds apart, after a minute of silence.
/// So a host that has vanished is noticed within three minutes.
fn is_kept_alive(stream: &TcpStream) -> bool {
    takes_option(stream, SOL_SOCKET, SO_KEEPALIVE, 1)
        && takes_option(stream, IPPROTO_TCP, TCP_KEEPIDLE, 60)
        && takes_option(stream, IPPROTO_TCP, TCP_KEEPINTVL, 20)
        && takes_option(stream, IPPROTO_TCP, TCP_KEEPCNT, 6)
}

/// Sets an option of a socket, and returns whether that succeeded.
fn takes_option(stream: &TcpStream, level: i32, name: i32, value: i32) -> bool
    requires { SockOption level name }
{
    let mut bytes = [0u8; 16];
    bytes[..4].copy_from_slice(&value.to_ne_bytes());
    let fd = stream.as_raw_fd();
    let status = unsafe { setsockopt(fd, level, name, &bytes, 4) };
    status == 0
}

impl Stream for Connection {
    ghost use Rattle.std.specs.Prelude.{Option};

    ghost remaining = { λ l. Option.None };

    ghost contents = { λ l. Option.None };

    ghost answers = { λ l. Option.None };

    fn read(&mut self, buf: &mut [u8]) -> Progress {
        Progress::of(self.stream.read(buf))
    }

    fn write(&mut self, buf: &[u8]) -> Progress {
        Progress::of(self.stream.write(buf))
    }
}
