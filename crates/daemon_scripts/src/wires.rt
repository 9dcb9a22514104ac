//! Connections in memory.
use rtr_server::Duplex;
use std::alloc::{AllocError, Global};
use std::cell::RefCell;
use std::io;
use std::io::{ErrorKind, Read, Write};
use std::rc::Rc;

/// Bytes that the test and a connection share.
pub(crate) type Shared = Rc<RefCell<Vec<u8>>>;

/// No bytes yet.
pub(crate) fn shared(alloc: Global) -> Result<Shared, AllocError> {
    Ok(Rc::new(alloc, RefCell::new(Vec::new(alloc)))?)
}

/// Whether it has these bytes and no others.
pub(crate) fn is_list(list: &Shared, bytes: &[u8]) -> bool {
    match list.try_borrow() {
        Err(_) => false,
        Ok(list) => list.as_slice() == bytes,
    }
}

/// The behaviour of a router.
#[derive(Clone, Copy, PartialEq, Eq)]
pub(crate) enum Router {
    /// It sends a Reset Query.
    Asks,
    /// It sends nothing.
    IsSilent,
    /// It sends the header of a Serial Query, and nothing more.
    SendsHeader,
    /// It sends a Reset Query, and reads nothing.
    TakesNothing,
    /// It sends a Reset Query, and reads one byte of each write.
    TakesBytes,
    /// It sends a Reset Query, and reads one byte of every other write.
    TakesSlowly,
    /// It sends two Reset Queries, and reads one byte of every other write.
    AsksTwice,
}

/// The bytes from a router. When none are left, a read would block.
#[derive(Drop)]
pub(crate) struct Feed {
    left: &'static [u8],
}

impl Read for Feed {
    fn read(&mut self, buf: &mut [u8]) -> io::Result<usize> {
        let mut left = self.left;
        if left.is_empty() {
            return Err(io::Error::from(ErrorKind::WouldBlock));
        }
        let count = left.read(buf)?;
        self.left = left;
        Ok(count)
    }
}

/// The bytes to it, with the most bytes of a write, and whether the next write would block.
#[derive(Drop)]
pub(crate) struct Sink {
    list: Shared,
    most: usize,
    is_slow: bool,
    waits: bool,
}

impl Sink {
    /// Whether this write would block: each one if it reads nothing, and every other one if it is slow.
    fn take_turn(&mut self) -> bool {
        let waits = self.waits;
        self.waits = self.most == 0 || (self.is_slow && !waits);
        waits
    }
}

impl Write for Sink {
    fn write(&mut self, buf: &[u8]) -> io::Result<usize> {
        if self.take_turn() {
            return Err(io::Error::from(ErrorKind::WouldBlock));
        }
        let count = buf.len().min(self.most);
        match self.list.try_borrow_mut() {
            Err(_) => Err(io::Error::from(ErrorKind::Other)),
            Ok(mut list) => {
                if list.extend_from_slice(&buf[..count]).is_err() {
                    return Err(io::Error::from(ErrorKind::OutOfMemory));
                }
                Ok(count)
            }
        }
    }

    fn flush(&mut self) -> io::Result<()> {
        Ok(())
    }
}

pub(crate) type Wire = Duplex<Feed, Sink>;

/// A Reset Query of version 1 (RFC 8210 section 5.4).
const RESET_QUERY: &[u8] = b"\x01\x02\x00\x00\x00\x00\x00\x08";

/// Two of them.
const RESET_QUERIES: &[u8] = b"\x01\x02\x00\x00\x00\x00\x00\x08\x01\x02\x00\x00\x00\x00\x00\x08";

/// The header of a Serial Query of version 1 (RFC 8210 section 5.3).
const HEADER: &[u8] = b"\x01\x01\x12\x34\x00\x00\x00\x0c";

/// The connection of a router. The bytes to it are in `output`.
pub(crate) fn wire(output: &Shared, router: Router) -> Result<Wire, AllocError> {
    let left = match router {
        Router::IsSilent => b"".as_slice(),
        Router::SendsHeader => HEADER,
        Router::AsksTwice => RESET_QUERIES,
        _ => RESET_QUERY,
    };
    let most = match router {
        Router::TakesNothing => 0,
        Router::TakesSlowly | Router::AsksTwice | Router::TakesBytes => 1,
        _ => usize::MAX,
    };
    Ok(Duplex {
        input: Feed { left },
        output: Sink {
            list: output.clone()?,
            most,
            is_slow: router == Router::TakesSlowly || router == Router::AsksTwice,
            waits: most == 0,
        },
    })
}
