//! Streams in memory.
use std::alloc::{AllocError, Global};
use std::cell::RefCell;
use std::io;
use std::io::{ErrorKind, Read, Write};
use std::rc::Rc;

/// Bytes that the test and a stream share.
pub(crate) type Shared = Rc<RefCell<Vec<u8>>>;

/// No bytes yet.
pub(crate) fn shared(alloc: Global) -> Result<Shared, AllocError> {
    Ok(Rc::new(alloc, RefCell::new(Vec::new(alloc)))?)
}

/// Whether it has these bytes and no others.
pub(crate) fn is_list(list: &Shared, bytes: &[u8]) -> bool {
    match list.try_borrow() {
        Err(_) => false,
        Ok(list) => list.as_slice() == bytes,
    }
}

/// Whether it begins so, and ends so.
pub(crate) fn has_ends(list: &Shared, begin: &[u8], end: &[u8]) -> bool {
    match list.try_borrow() {
        Err(_) => false,
        Ok(list) => list.as_slice().starts_with(begin) && list.as_slice().ends_with(end),
    }
}

/// Appends bytes. The answer is whether there is memory for them.
pub(crate) fn put(list: &Shared, bytes: &[u8]) -> bool {
    match list.try_borrow_mut() {
        Err(_) => false,
        Ok(mut list) => list.extend_from_slice(bytes).is_ok(),
    }
}

/// How many responses these bytes have.
fn responses_in(bytes: &[u8]) -> usize {
    let mut count = 0;
    for part in bytes.windows(8) {
        if part == b"HTTP/1.1".as_slice() {
            count = usize::saturating_add(count, 1);
        }
    }
    count
}

/// How many responses it has.
pub(crate) fn responses(list: &Shared) -> usize {
    match list.try_borrow() {
        Err(_) => 0,
        Ok(list) => responses_in(list.as_slice()),
    }
}

/// A stream. Reads give the bytes of `input`, at most `piece` bytes a call, and then would block. Writes append at most as many to `output`.
#[derive(Debug, Drop)]
pub(crate) struct Wire {
    input: Shared,
    place: usize,
    output: Shared,
    piece: usize,
}

impl Wire {
    pub(crate) fn of(input: &Shared, output: &Shared, piece: usize) -> Result<Wire, AllocError> {
        Ok(Wire {
            input: input.clone()?,
            place: 0,
            output: output.clone()?,
            piece,
        })
    }
}

impl Read for Wire {
    fn read(&mut self, buf: &mut [u8]) -> io::Result<usize> {
        match self.input.try_borrow() {
            Err(_) => Err(io::Error::from(ErrorKind::Other)),
            Ok(list) => {
                let bytes = list.as_slice();
                let rest = &bytes[self.place.min(bytes.len())..];
                if rest.is_empty() {
                    return Err(io::Error::from(ErrorKind::WouldBlock));
                }
                let mut piece = &rest[..self.piece.min(rest.len())];
                let count = piece.read(buf)?;
                self.place = self.place.saturating_add(count);
                Ok(count)
            }
        }
    }
}

impl Write for Wire {
    fn write(&mut self, buf: &[u8]) -> io::Result<usize> {
        let piece = &buf[..self.piece.min(buf.len())];
        if !put(&self.output, piece) {
            return Err(io::Error::from(ErrorKind::OutOfMemory));
        }
        Ok(piece.len())
    }

    fn flush(&mut self) -> io::Result<()> {
        Ok(())
    }
}
