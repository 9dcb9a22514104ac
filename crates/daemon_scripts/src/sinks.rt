//! A sink of the log in memory.
use log_output::LogSink;
use std::alloc::Global;
use std::io::{self, ErrorKind, Write};
use test_values::scripts::Words;

/// What a sink does.
#[derive(Clone, Copy, PartialEq, Eq)]
pub(crate) enum Manner {
    /// It has no room.
    IsFull,
    /// It accepts at most this number of bytes a write.
    Takes(usize),
    /// It has room for one byte at a time.
    IsNarrow,
    /// It accepts this number of bytes in all, and then fails.
    HasSpace(usize),
    /// Its writes fail.
    Fails(ErrorKind),
}

/// The manner of a line, if it is one.
pub(crate) fn manner_of(words: &mut Words<'_>) -> Option<Manner> {
    match words.next() {
        "full" => Some(Manner::IsFull),
        "narrow" => Some(Manner::IsNarrow),
        "takes" => Some(Manner::Takes(words.next().parse::<usize>().ok()?)),
        "space" => Some(Manner::HasSpace(words.next().parse::<usize>().ok()?)),
        "blocked" => Some(Manner::Fails(ErrorKind::WouldBlock)),
        "interrupted" => Some(Manner::Fails(ErrorKind::Interrupted)),
        "broken" => Some(Manner::Fails(ErrorKind::BrokenPipe)),
        _ => None,
    }
}

/// A sink in memory.
#[derive(Drop)]
pub(crate) struct Memory {
    pub(crate) manner: Manner,
    pub(crate) taken: Vec<u8>,
    pub(crate) writes: u64,
}

impl Memory {
    pub(crate) fn new(alloc: Global, manner: Manner) -> Memory {
        Memory {
            manner,
            taken: Vec::new(alloc),
            writes: 0,
        }
    }

    /// How many newlines it has.
    pub(crate) fn lines(&self) -> u64 {
        let mut count = 0;
        for &byte in self.taken.as_slice() {
            if byte == b'\n' {
                count = u64::saturating_add(count, 1);
            }
        }
        count
    }

    /// Whether it has these lines at its end, parted by bars.
    pub(crate) fn ends_with(&self, lines: &str) -> bool {
        let mut rest = self.taken.as_slice();
        for line in lines.rsplit('|') {
            let Some(front) = without_line(rest, line) else {
                return false;
            };
            rest = front;
        }
        true
    }
}

/// Bytes without this line at their end, if they have it.
fn without_line<'a>(bytes: &'a [u8], line: &str) -> Option<&'a [u8]> {
    bytes
        .strip_suffix(b"\n".as_slice())?
        .strip_suffix(line.as_bytes())
}

impl LogSink for Memory {
    ghost use Rattle.std.specs.Prelude.{Some, None};

    ghost contents = { λ m. Some m.taken.items };

    ghost last_answer = { λ _. None };

    ghost allowed = { λ _. 4096 };

    fn room(&mut self) -> usize {
        match self.manner {
            Manner::IsFull => 0,
            Manner::IsNarrow => 1,
            _ => 4096,
        }
    }

    fn write(&mut self, bytes: &[u8]) -> io::Result<usize> {
        self.writes = self.writes.saturating_add(1);
        match self.manner {
            Manner::IsFull => Err(io::Error::from(ErrorKind::WouldBlock)),
            Manner::Takes(most) => self.taken.write(&bytes[..bytes.len().min(most)]),
            Manner::IsNarrow => self.taken.write(bytes),
            Manner::HasSpace(0) => Err(io::Error::from(ErrorKind::StorageFull)),
            Manner::HasSpace(space) => {
                let count = bytes.len().min(space);
                self.manner = Manner::HasSpace(space - count);
                self.taken.write(&bytes[..count])
            }
            Manner::Fails(kind) => Err(io::Error::from(kind)),
        }
    }
}
