//! Lines over memory: what comes from a router, and what went to it.
use rtr_ends::{Cache, Timing};
use rtr_server::{Client, Duplex, Server, Turn};
use std::alloc::Global;
use std::cell::RefCell;
use std::io;
use std::io::{ErrorKind, Read, Write};
use std::rc::Rc;
use test_values::sets::{Row, set_in};
use vrps::{VersionLog, VrpSet};

/// Bytes that the test and a stream hold both.
pub(crate) type Shared = Rc<RefCell<Vec<u8>>>;

/// How a line carries bytes: this many at a call, but at one call (counted from 1, for reads and for writes) an error of this kind. At its
/// end it waits, or is over.
#[derive(Clone, Copy)]
pub(crate) struct Manner {
    pub(crate) size: usize,
    pub(crate) bad_call: u32,
    pub(crate) error: ErrorKind,
    pub(crate) stays_open: bool,
}

/// All at once, and at the end it waits.
pub(crate) const PLAIN: Manner = Manner {
    size: 65536,
    bad_call: 0,
    error: ErrorKind::WouldBlock,
    stays_open: true,
};

/// What comes from a router.
#[derive(Drop)]
pub(crate) struct Feed {
    list: Shared,
    place: usize,
    calls: u32,
    manner: Manner,
}

impl Read for Feed {
    fn read(&mut self, buf: &mut [u8]) -> io::Result<usize> {
        self.calls = self.calls.saturating_add(1);
        if self.calls == self.manner.bad_call {
            return Err(io::Error::from(self.manner.error));
        }
        match self.list.try_borrow() {
            Err(_) => Err(io::Error::from(ErrorKind::Other)),
            Ok(list) => {
                let bytes = list.as_slice();
                let mut rest = &bytes[self.place.min(bytes.len())..];
                if rest.is_empty() && self.manner.stays_open {
                    return Err(io::Error::from(ErrorKind::WouldBlock));
                }
                let most = self.manner.size.min(buf.len());
                let Some(room) = buf.get_mut(..most) else {
                    return Ok(0);
                };
                let count = rest.read(room)?;
                self.place = self.place.saturating_add(count);
                Ok(count)
            }
        }
    }
}

/// What goes to it.
#[derive(Drop)]
pub(crate) struct Sink {
    list: Shared,
    calls: u32,
    manner: Manner,
}

impl Write for Sink {
    fn write(&mut self, buf: &[u8]) -> io::Result<usize> {
        self.calls = self.calls.saturating_add(1);
        if self.calls == self.manner.bad_call {
            return Err(io::Error::from(self.manner.error));
        }
        let count = self.manner.size.min(buf.len());
        let Some(front) = buf.get(..count) else {
            return Ok(0);
        };
        match self.list.try_borrow_mut() {
            Err(_) => Err(io::Error::from(ErrorKind::Other)),
            Ok(mut list) => {
                if list.extend_from_slice(front).is_err() {
                    return Err(io::Error::from(ErrorKind::OutOfMemory));
                }
                Ok(count)
            }
        }
    }

    fn flush(&mut self) -> io::Result<()> {
        Ok(())
    }
}

pub(crate) type Line = Duplex<Feed, Sink>;

/// A server over memory.
pub(crate) type Memory = Server<VersionLog, Line>;

pub(crate) fn shared(alloc: Global, bytes: &[u8]) -> Option<Shared> {
    match bytes.to_vec(alloc) {
        Ok(list) => Rc::new(alloc, RefCell::new(list)).ok(),
        Err(_) => None,
    }
}

/// A line on which these bytes come, and what goes out is appended to what `out` has.
pub(crate) fn line(alloc: Global, bytes: &[u8], manner: Manner, out: &Shared) -> Option<Line> {
    let list = shared(alloc, bytes)?;
    match out.clone() {
        Ok(out) => Some(line_of(list, manner, out)),
        Err(_) => None,
    }
}

/// A line on which what `list` has comes.
fn line_of(list: Shared, manner: Manner, out: Shared) -> Line {
    let input = Feed {
        list,
        place: 0,
        calls: 0,
        manner,
    };
    let output = Sink {
        list: out,
        calls: 0,
        manner,
    };
    Duplex { input, output }
}

/// A line on which what `comes` has then comes, and what goes out is appended to what `out` has then.
pub(crate) fn line_between(comes: &Shared, manner: Manner, out: &Shared) -> Option<Line> {
    let Ok(list) = comes.clone() else {
        return None;
    };
    match out.clone() {
        Ok(out) => Some(line_of(list, manner, out)),
        Err(_) => None,
    }
}

pub(crate) fn len_of(list: &Shared) -> usize {
    match list.try_borrow() {
        Err(_) => 0,
        Ok(list) => list.len(),
    }
}

/// Whether it has these bytes and no others.
pub(crate) fn is_list(list: &Shared, bytes: &[u8]) -> bool {
    match list.try_borrow() {
        Err(_) => false,
        Ok(list) => list.as_slice() == bytes,
    }
}

/// Whether these bytes begin with what it has.
pub(crate) fn is_front(list: &Shared, bytes: &[u8]) -> bool {
    match list.try_borrow() {
        Err(_) => false,
        Ok(list) => bytes.starts_with(list.as_slice()),
    }
}

/// More bytes come.
pub(crate) fn more(list: &Shared, bytes: &[u8]) -> bool {
    match list.try_borrow_mut() {
        Err(_) => false,
        Ok(mut list) => list.extend_from_slice(bytes).is_ok(),
    }
}

/// A cache of session 4660, whose first version will have the serial 5.
pub(crate) fn empty_cache(alloc: Global) -> Option<Cache<VersionLog>> {
    match VersionLog::new(alloc, 4660, 5, 4) {
        Ok(log) => Some(Cache::new(alloc, log, Timing::default())),
        Err(_) => None,
    }
}

/// The same cache, whose first version has this set.
pub(crate) fn cache_with(alloc: Global, set: Option<VrpSet>) -> Option<Cache<VersionLog>> {
    match (empty_cache(alloc), set) {
        (Some(mut cache), Some(set)) => {
            let _published = cache.publish(set);
            Some(cache)
        }
        _ => None,
    }
}

/// The same cache, whose first version has these records.
pub(crate) fn cache_of(alloc: Global, rows: &[Row]) -> Option<Cache<VersionLog>> {
    cache_with(alloc, set_in(alloc, rows))
}

/// A server of that cache, for this many clients.
pub(crate) fn server_of(alloc: Global, rows: &[Row], most: usize) -> Option<Memory> {
    match cache_of(alloc, rows) {
        Some(cache) => Some(Server::new(alloc, cache, most)),
        None => None,
    }
}

/// Whether the set of these rows is published.
pub(crate) fn publishes(server: &mut Memory, alloc: Global, rows: &[Row]) -> bool {
    match set_in(alloc, rows) {
        Some(set) => server.publish(set).is_ok(),
        None => false,
    }
}

/// A client on a line on which these bytes come.
pub(crate) fn client_of(
    server: &mut Memory,
    alloc: Global,
    bytes: &[u8],
    manner: Manner,
    out: &Shared,
) -> Option<Client> {
    match line(alloc, bytes, manner, out) {
        Some(line) => server.admit(line).ok(),
        None => None,
    }
}

/// Whether a client waits to be read from after a turn of this many calls.
pub(crate) fn waits(server: &mut Memory, client: Client, budget: u32) -> bool {
    server.serve(client, budget) == Some(Turn::WaitsToRead)
}
