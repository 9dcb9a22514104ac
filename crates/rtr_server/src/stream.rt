//! Non-blocking streams.
ghost use Rattle.std.specs.Prelude.{◌≡◌, ℕ, ◌≤◌, List, Option, length};
ghost use Rattle.std.specs.Io.KnownBytes.{Keeps};
ghost use Rattle.std.specs.IoError.{error_kind};
ghost use Rattle.rtr_server.specs.Streams.{IsWithin, Logged, ReadsSo, WritesSo, a_read, a_write, moved_by, moved_count, progress_of};

use std::io;
use std::io::{ErrorKind, Read, Write};

/// The outcome of one non-blocking read or write.
#[derive(Clone, Copy, Debug, PartialEq, Eq)]
pub enum Progress {
    /// This many bytes were read or written. If a read returns 0 although the buffer has room, the input has ended.
    Bytes(usize),
    /// The call would block. Nothing was read or written.
    Waits,
    /// The call was interrupted. Nothing was read or written. Make the call again.
    Interrupted,
    /// The call failed.
    Failed,
}

impl Progress {
    /// Converts the result of an I/O call. `Ok(n)` gives `Bytes(n)`. An error of kind `WouldBlock` gives `Waits`, one of kind `Interrupted`
    /// gives `Interrupted`, and any other gives `Failed`.
    pub fn of(came: io::Result<usize>) -> Progress
        ensures { result ≡ progress_of came }
    {
        match came {
            Ok(n) => Progress::Bytes(n),
            Err(error) => moved_of(&error),
        }
    }

    /// The number of bytes that were read or written. It is 0 for `Waits`, `Interrupted` and `Failed`.
    pub fn count(self) -> u64
        ensures { result ≡ moved_count self }
    {
        match self {
            Progress::Bytes(n) => n as u64,
            Progress::Waits | Progress::Interrupted | Progress::Failed => 0,
        }
    }
}

/// One call of a stream with its outcome.
#[derive(Clone, Copy, Debug, PartialEq, Eq)]
pub enum Call {
    /// A read with this outcome.
    Read(Progress),
    /// A write with this outcome.
    Write(Progress),
}

/// Both directions of a connection, with non-blocking calls. A read does not change what was written, and a write does not change what can still
/// be read.
pub trait Stream {
    ghost use Rattle.rtr_server.specs.declared.stream.Call.{Call};

    /// What is left to be read, if that is known.
    ghost remaining: { Self → Option (List ℕ) };

    /// What was written, if that is known.
    ghost contents: { Self → Option (List ℕ) };

    /// Its calls and what each answered, the last first, if that is known.
    ghost answers: { Self → Option (List Call) };

    /// Reads into the front of `buf` without blocking. `Bytes(n)`: `n` bytes were read, at most the length of `buf`. `Bytes(0)` into a `buf`
    /// that is not empty: the input has ended. Any other outcome: nothing was read.
    fn read(&mut self, buf: &mut [u8]) -> Progress
        ensures reads { ReadsSo (remaining self.old) (remaining self.new) result buf.new }
        ensures within { IsWithin (length buf.old) result }
        ensures keeps { Keeps (contents self.old) (contents self.new) }
        ensures logs { Logged (a_read result) (answers self.old) (answers self.new) };

    /// Writes from the front of `buf` without blocking. `Bytes(n)`: the first `n` bytes were written, at most all of `buf`. Any other outcome:
    /// nothing was written.
    fn write(&mut self, buf: &[u8]) -> Progress
        ensures writes { WritesSo (contents self.old) (contents self.new) result buf.now }
        ensures within { IsWithin (length buf.now) result }
        ensures keeps { Keeps (remaining self.old) (remaining self.new) }
        ensures logs { Logged (a_write result) (answers self.old) (answers self.new) };
}

/// A stream of a reader and a writer. Their results become `Progress` as `Progress::of` says.
#[derive(Debug, Drop)]
pub struct Duplex<R, W> {
    /// The reader: bytes from the peer.
    pub input: R,
    /// The writer: bytes to the peer.
    pub output: W,
}

/// What an error of a device says.
fn moved_of(error: &io::Error) -> Progress
    ensures { result ≡ moved_by (error_kind error.now) }
{
    match error.kind() {
        ErrorKind::WouldBlock => Progress::Waits,
        ErrorKind::Interrupted => Progress::Interrupted,
        _ => Progress::Failed,
    }
}

impl<R: Read, W: Write> Stream for Duplex<R, W> {
    ghost remaining = { λ d. R.remaining d.input };

    ghost contents = { λ d. W.contents d.output };

    ghost answers = { λ d. Option.None };

    fn read(&mut self, buf: &mut [u8]) -> Progress {
        Progress::of(self.input.read(buf))
    }

    fn write(&mut self, buf: &[u8]) -> Progress {
        Progress::of(self.output.write(buf))
    }
}
