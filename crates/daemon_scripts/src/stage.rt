//! Sockets, files, clocks and log in memory.
use crate::sheets::Sheet;
use crate::wires::{Router, Shared, Wire, is_list, shared, wire};
use event_log::{LogEvent, LogFormat, write_event};
use payload_commands::Directory;
use rpkirtrd_start::Addresses;
use rtr_daemon::{AcceptResult, Disk, EventLog, Paths, Ready, Sockets, Stamp, Time};
use std::alloc::{AllocError, Global};
use std::collections::VecDeque;
use std::io::ErrorKind;
use std::net::SocketAddr;
use std::{io, mem};

/// The path of the list.
const LIST: &str = "list.json";

/// The path of the other file.
const OTHER: &str = "other.json";

/// The result of an accept.
#[derive(Clone, Copy, PartialEq, Eq)]
pub(crate) enum Accepting {
    Well,
    /// The system has no descriptor left.
    NoRoom,
    /// Another error.
    Fails,
}

/// The environment of a daemon, in memory. Each wait advances the clocks.
#[derive(Drop)]
pub(crate) struct Stage<'a> {
    alloc: Global,
    list: Sheet<'a>,
    /// The other file, if there is one.
    other: Option<Sheet<'a>>,
    /// Whether the list is rewritten with the same text at each poll.
    is_restless: bool,
    /// How long a read lasts, in milliseconds.
    reading: u64,
    /// The longest read since this was asked last, in milliseconds.
    slowest: u64,
    accepting: Accepting,
    /// The system's table of connections, if it can be read.
    table: Option<&'a str>,
    /// The start in seconds since 1970, and the milliseconds since.
    began: u64,
    millis: u64,
    /// The connections that are pending, and how many of them were not reported yet.
    arriving: VecDeque<Wire>,
    untold: usize,
    /// How many connections were accepted.
    connections: usize,
    /// The bytes that each router received.
    got: Vec<Shared>,
    pub(crate) log: Vec<u8>,
}

impl<'a> Stage<'a> {
    /// An environment at a time in seconds since 1970, whose list has this text, or this many records.
    pub(crate) fn new(alloc: Global, began: u64, list: &'a str) -> Stage<'a> {
        Stage {
            alloc,
            list: Sheet::new(64496, list, began),
            other: None,
            is_restless: false,
            reading: 0,
            slowest: 0,
            accepting: Accepting::Well,
            table: Some(""),
            began,
            millis: 0,
            arriving: VecDeque::new(alloc),
            untold: 0,
            connections: 0,
            got: Vec::new(alloc),
            log: Vec::new(alloc),
        }
    }

    /// Rewrites the list.
    pub(crate) fn write(&mut self, text: &'a str) {
        let now = self.seconds();
        self.list.write(text, self.began, now);
    }

    /// Writes the other file.
    pub(crate) fn write_other(&mut self, text: &'a str) {
        let now = self.seconds();
        let mut other = match self.other {
            Some(other) => other,
            None => Sheet::new(64497, text, now),
        };
        other.write(text, self.began, now);
        self.other = Some(other);
    }

    /// The paths of its files.
    pub(crate) fn paths(&self) -> Result<Paths, AllocError> {
        let alloc = self.alloc;
        let mut files = Vec::new(alloc);
        files.push(String::from_str(alloc, LIST)?)?;
        if self.other.is_some() {
            files.push(String::from_str(alloc, OTHER)?)?;
        }
        Ok(Paths {
            files,
            slurms: Vec::new(alloc),
            points: Vec::new(alloc),
        })
    }

    /// The file of a path, if there is one.
    fn sheet(&self, path: &str) -> io::Result<Sheet<'a>> {
        if path == LIST {
            return Ok(self.list);
        }
        match self.other {
            Some(other) if path == OTHER => Ok(other),
            _ => Err(io::Error::from(ErrorKind::NotFound)),
        }
    }

    /// Sets whether the list is rewritten at each poll.
    pub(crate) fn set_restless(&mut self, is_restless: bool) {
        self.is_restless = is_restless;
    }

    /// Sets how long a read lasts, in milliseconds.
    pub(crate) fn set_reading(&mut self, millis: u64) {
        self.reading = millis;
    }

    /// Advances the clocks.
    pub(crate) fn pass(&mut self, millis: u64) {
        self.millis = self.millis.saturating_add(millis);
    }

    /// Sets the result of each accept from now on.
    pub(crate) fn set_accepting(&mut self, accepting: Accepting) {
        self.accepting = accepting;
    }

    /// Sets the system's table of connections.
    pub(crate) fn set_table(&mut self, table: Option<&'a str>) {
        self.table = table;
    }

    /// Sets the wall clock ahead.
    pub(crate) fn set_ahead(&mut self, seconds: u64) {
        self.began = self.began.saturating_add(seconds);
    }

    /// Sets the wall clock back.
    pub(crate) fn set_back(&mut self, seconds: u64) {
        self.began = self.began.saturating_sub(seconds);
    }

    /// A router connects.
    pub(crate) fn connect(&mut self, router: Router) -> Result<(), AllocError> {
        let output = shared(self.alloc)?;
        self.arriving.push_back(wire(&output, router)?)?;
        self.got.push(output)?;
        self.untold = self.untold.saturating_add(1);
        Ok(())
    }

    /// Whether the router of this place in the order of arrival received exactly these bytes.
    pub(crate) fn has_got(&self, router: usize, bytes: &[u8]) -> bool {
        match self.got.get(router) {
            None => false,
            Some(output) => is_list(output, bytes),
        }
    }
}

impl Time for Stage<'_> {
    fn seconds(&mut self) -> u64 {
        self.began.saturating_add(self.millis / 1000)
    }

    fn millis(&mut self) -> u64 {
        self.millis
    }
}

impl Addresses for Stage<'_> {
    fn log_addresses(&mut self, _seconds: u64) {}
}

impl EventLog for Stage<'_> {
    fn log(&mut self, seconds: u64, event: &LogEvent<'_>) {
        let _ = write_event(&mut self.log, LogFormat::Text, seconds, event);
    }
}

impl Disk for Stage<'_> {
    fn stamp(&mut self, path: &str) -> io::Result<Stamp> {
        if self.is_restless {
            self.list.rewrite();
        }
        Ok(self.sheet(path)?.stamp())
    }

    fn read(&mut self, path: &str) -> io::Result<Vec<u8>> {
        let sheet = self.sheet(path)?;
        self.millis = self.millis.saturating_add(self.reading);
        self.slowest = self.slowest.max(self.reading);
        Ok(sheet.bytes(self.alloc)?)
    }

    fn directory<'a>(&mut self, _path: &'a str) -> io::Result<Directory<'a>> {
        Err(io::Error::from(ErrorKind::NotFound))
    }

    fn slowest(&mut self) -> u64 {
        mem::take(&mut self.slowest)
    }
}

impl Sockets<Wire> for Stage<'_> {
    fn wait(&mut self, millis: u64) -> io::Result<()> {
        if self.untold == 0 {
            self.millis = self.millis.saturating_add(millis);
        }
        Ok(())
    }

    fn next(&mut self) -> Option<Ready> {
        if self.untold == 0 {
            return None;
        }
        self.untold -= 1;
        Some(Ready::Listener(0))
    }

    fn accept(&mut self, _listener: usize) -> AcceptResult<Wire> {
        match self.accepting {
            Accepting::Well => {}
            Accepting::NoRoom => return AcceptResult::NoRoom,
            Accepting::Fails => {
                return AcceptResult::Failed(io::Error::from(ErrorKind::PermissionDenied));
            }
        }
        let Some(stream) = self.arriving.pop_front() else {
            return AcceptResult::WouldBlock;
        };
        let token = self.connections;
        self.connections = token.saturating_add(1);
        AcceptResult::Connection {
            stream,
            token,
            address: SocketAddr::from(([192, 0, 2, 1], 179)),
            local: SocketAddr::from(([127, 0, 0, 1], 3323)),
        }
    }

    fn connections(&mut self) -> io::Result<Vec<u8>> {
        let Some(table) = self.table else {
            return Err(io::Error::from(ErrorKind::NotFound));
        };
        let mut bytes = Vec::new(self.alloc);
        bytes.extend_from_slice(table.as_bytes())?;
        Ok(bytes)
    }
}
