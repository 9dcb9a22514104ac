//! The environment of a daemon: sockets, files, clocks, and the event log. Each trait has two implementations: over the system, and in memory.
ghost use Rattle.std.specs.Prelude.{◌≡◌, ◌↔◌, IsTrue};

use event_log::LogEvent;
use payload_commands::Directory;
use std::io;
use std::net::SocketAddr;

/// A listener or connection that became ready.
#[derive(Clone, Copy, Debug, PartialEq, Eq)]
pub enum Ready {
    /// A connection may be pending at the listener of this index, from 0.
    Listener(usize),
    /// The connection of this poll token may be readable or writable. [`AcceptResult::Connection`] gives the token.
    Connection(usize),
}

/// The result of [`Sockets::accept`].
#[derive(Debug, Drop)]
pub enum AcceptResult<L> {
    /// A connection was accepted. No earlier connection had its poll token.
    Connection {
        /// The stream of the connection. It is non-blocking.
        stream: L,
        /// The poll token in [`Ready::Connection`] if the connection is ready.
        token: usize,
        /// The address of the peer.
        address: SocketAddr,
        /// The address of this host's end.
        local: SocketAddr,
    },
    /// No connection is pending.
    WouldBlock,
    /// No connection was accepted: one was aborted or reset, the call was interrupted, or the network failed. Another may be pending.
    Again,
    /// The accept failed: the system has no descriptor or no memory left. The connection stays pending.
    NoRoom,
    /// The accept failed for another reason. The connection stays pending.
    Failed(io::Error),
}

/// The listeners and connections of a daemon. `L` is the type of a connection's stream.
pub trait Sockets<L> {
    ghost use Rattle.std.specs.Prelude.{IfErr, IfOk};
    ghost use Rattle.rtr_daemon.specs.SocketCalls.{SocketCalls, accepted_as, any_calls, shown_by};

    /// The ways in which the calls of this trait may return, for use in contracts. An implementation chooses it. The default allows all.
    ghost calls: { SocketCalls Self } = { any_calls };

    /// Waits until a listener or connection is ready, for at most `millis` milliseconds. Then [`Sockets::next`] returns what is ready.
    /// `Ok`: something may be ready, or the time has passed. `Err`: the wait failed.
    fn wait(&mut self, millis: u64) -> io::Result<()>
        ensures waits { IfOk result (λ _. calls.waits self.old millis self.new) }
        ensures fails { IfErr result (λ _. calls.wait_fails self.old millis self.new) };

    /// Returns the next listener or connection that became ready. `None`: none is left.
    fn next(&mut self) -> Option<Ready>
        ensures { calls.tells self.old result self.new };

    /// Accepts a pending connection from the listener of this index, from 0. It does not block.
    fn accept(&mut self, listener: usize) -> AcceptResult<L>
        ensures { calls.accepts self.old listener (accepted_as result) self.new };

    /// Returns the system's tables of TCP connections in one text: `/proc/self/net/tcp`, then `/proc/self/net/tcp6` (proc(5)). A system without
    /// IPv6 has only the first. `Err`: they cannot be read, or memory ran out.
    fn connections(&mut self) -> io::Result<Vec<u8>>
        ensures { calls.shows self.old (shown_by result) self.new };
}

/// The size, inode number and times of a file. If they differ from earlier ones, the file counts as changed.
#[derive(Clone, Copy, Debug, PartialEq, Eq)]
pub struct Stamp {
    /// Its size in bytes.
    pub len: u64,
    /// Its inode number.
    pub inode: u64,
    /// Its modification time, in seconds since 1970 and nanoseconds.
    pub modified: (i64, i64),
    /// Its status change time, in seconds since 1970 and nanoseconds.
    pub changed: (i64, i64),
}

impl Stamp {
    /// Returns whether all parts of two stamps are equal.
    pub(crate) fn is(&self, other: &Stamp) -> bool
        ensures { IsTrue result ↔ (self.now ≡ other.now) }
    {
        self.len == other.len
            && self.inode == other.inode
            && self.modified.0 == other.modified.0
            && self.modified.1 == other.modified.1
            && self.changed.0 == other.changed.0
            && self.changed.1 == other.changed.1
    }
}

/// The files and directories of the sources.
pub trait Disk {
    ghost use Rattle.std.specs.Prelude.{IfErr, IfOk};
    ghost use Rattle.rtr_daemon.specs.DiskAnswers.{DiskAnswers, any_answers};

    /// The results that the calls of this trait may have, for use in contracts. An implementation chooses it. The default allows all.
    ghost answers: { DiskAnswers Self } = { any_answers };

    /// Returns the current stamp of the file at `path`. `Err`: the system cannot give it.
    fn stamp(&mut self, path: &str) -> io::Result<Stamp>
        ensures stamps { IfOk result (λ stamp. answers.stamps self.old path.now stamp self.new) }
        ensures fails { IfErr result (λ _. answers.stamp_fails self.old path.now self.new) };

    /// Returns the content of the file at `path`. `Err`: the file cannot be read.
    fn read(&mut self, path: &str) -> io::Result<Vec<u8>>
        ensures reads { IfOk result (λ bytes. answers.reads self.old path.now bytes.items self.new) }
        ensures fails { IfErr result (λ _. answers.read_fails self.old path.now self.new) };

    /// Returns the content of the directory at `path`, which is a publication point. `Err`: the directory cannot be read.
    fn directory<'a>(&mut self, path: &'a str) -> io::Result<Directory<'a>>
        ensures directories { IfOk result (λ directory. answers.directories path.now directory) }
        ensures fails { IfErr result (λ _. answers.directory_fails self.old path.now self.new) };

    /// Returns the duration of the longest system call on files since the last call of `slowest`, in milliseconds. It is 0 if there was none.
    fn slowest(&mut self) -> u64;
}

/// The wall clock and the monotonic clock.
pub trait Time {
    ghost use Rattle.std.specs.Prelude.{ℕ};

    /// The values that [`Time::seconds`] may return, for use in contracts. An implementation chooses it. The default allows all.
    ghost can_be: { ℕ → Type 0 } = { λ second. Unit {0} };

    /// The values that [`Time::millis`] may return, for use in contracts. An implementation chooses it. The default allows all.
    ghost can_tick: { ℕ → Type 0 } = { λ millis. Unit {0} };

    /// The ways in which [`Time::millis`] may return, from a state to the next one, for use in contracts. An implementation chooses it. The default
    /// allows all.
    ghost reads: { Self → ℕ → Self → Type 0 } = { λ before millis after. Unit {0} };

    /// Returns the time of the wall clock, in seconds since 1970.
    fn seconds(&mut self) -> u64
        ensures { can_be result };

    /// Returns the time of a monotonic clock, in milliseconds. Only differences between two of its times have a meaning.
    fn millis(&mut self) -> u64
        ensures ticks { can_tick result }
        ensures reads { reads self.old result self.new };
}

/// The event log.
pub trait EventLog {
    /// Writes the line of an event. `seconds` is the time of the event, in seconds since 1970. An event that cannot be written is lost.
    fn log(&mut self, seconds: u64, event: &LogEvent<'_>);
}
