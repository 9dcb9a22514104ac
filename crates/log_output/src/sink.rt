//! What the log is written to, and how.
ghost use Rattle.std.specs.Prelude.{◌≡◌, ℕ, ◌<◌, ◌≤◌, List, Option, length};
ghost use Rattle.std.specs.Io.{WritesAtMost};
ghost use Rattle.std.specs.Io.KnownBytes.{Keeps, WriteAppends};
ghost use Rattle.std.specs.IoError.{error_kind};
ghost use Rattle.log_output.specs.Sinks.{Answered, SinkAnswer, WritesChunk, WritesOut, answer_of_room, answer_of_write, is_pause};
ghost use Rattle.log_output.specs.Buffers.{chunk_bytes};

use crate::buffer::LogBuffer;
use std::io::{self, ErrorKind};

/// The most writes of one call. A sink that accepts single bytes is so given as many as one write may have.
const MAX_WRITES: u32 = 4096;

/// What a log is written to, such as standard error. Before each write the log asks how many bytes it may have. If the sink is right about that,
/// it never blocks the log.
pub trait LogSink {
    /// What it accepted, if that is known.
    ghost contents: { Self → Option (List ℕ) };

    /// What its last call answered, if that is known.
    ghost last_answer: { Self → Option SinkAnswer };

    /// How many bytes a write may have.
    ghost allowed: { Self → ℕ };

    /// Returns how many bytes a write may have now without blocking: at most [`CHUNK_BYTES`](crate::CHUNK_BYTES). 0: the sink has no room.
    fn room(&mut self) -> usize
        ensures short { result ≤ chunk_bytes }
        ensures allows { result ≤ allowed self.new }
        ensures keeps { Keeps (contents self.old) (contents self.new) }
        ensures answers { Answered (last_answer self.new) (answer_of_room result) };

    /// Writes bytes from the front of `bytes`. It returns how many it wrote. `bytes` is not empty and has at most as many bytes as `room`
    /// returned.
    ///
    /// On an `Err` of kind `WouldBlock` or `Interrupted` the log tries again later. On another `Err` it gives up its pending lines.
    fn write(&mut self, bytes: &[u8]) -> io::Result<usize>
        requires allowed { length bytes.now ≤ allowed self.old }
        requires some { 0 < length bytes.now }
        requires short { length bytes.now ≤ chunk_bytes }
        ensures within { WritesAtMost result bytes.now }
        ensures writes { WriteAppends (contents self.old) (contents self.new) result bytes.now }
        ensures answers { Answered (last_answer self.new) (answer_of_write result) };
}

/// Whether the write can be made again later.
fn is_pause(error: &io::Error) -> bool
    ensures { result ≡ is_pause (error_kind error.now) }
{
    match error.kind() {
        ErrorKind::WouldBlock | ErrorKind::Interrupted => true,
        _ => false,
    }
}

/// Writes the first bytes once, if any waits and the sink has room. Answers whether it accepted any. If the sink fails, the lines that wait are
/// given up.
fn write_chunk<S: LogSink>(buffer: &mut LogBuffer, sink: &mut S) -> bool
    ensures { WritesChunk result buffer.old buffer.new (S.contents sink.old) (S.contents sink.new) (S.last_answer sink.new) }
{
    if buffer.is_empty() {
        return false;
    }
    let room = sink.room();
    if room == 0 {
        return false;
    }
    match sink.write(buffer.chunk(room)) {
        Ok(count) => {
            buffer.consume(count);
            count > 0
        }
        Err(error) => {
            if !is_pause(&error) {
                buffer.give_up();
            }
            false
        }
    }
}

impl LogBuffer {
    /// Writes the pending bytes while the sink has room. It makes at most 4,096 writes.
    /// - A write that would block, is interrupted or accepts nothing ends the call. The bytes stay pending.
    /// - If a write fails otherwise, the pending lines are given up and counted as lost.
    /// - The rest of a line that was written in part stays pending.
    pub fn write_to<S: LogSink>(&mut self, sink: &mut S)
        ensures { WritesOut 4096 self.old self.new (S.contents sink.old) (S.contents sink.new) (S.last_answer sink.new) }
    {
        for _turn in 0..MAX_WRITES {
            if !write_chunk(self, sink) {
                return;
            }
        }
    }
}
