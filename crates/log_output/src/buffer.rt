//! Lines that wait for room.
ghost use Rattle.std.specs.Prelude.{◌≡◌, ◌+◌, ◌-◌, ◌<◌, ◌≤◌, ◌==◌, [], ◌++◌, length, take, drop, slice_get, IfOk};
ghost use Rattle.log_output.specs.Buffers.{IsChunk, after_line, after_loss, after_report, after_written, and_lost, first_bytes, fits, is_accepted, is_newline};
ghost use Rattle.log_output.specs.Buffers.{is_report_due, is_torn_after, kept_bytes, line_length, lines_behind, lines_in, lines_reported, no_lines, takes_report};

use crate::report::{
    WaitingReport, lines_reported, report_behind, report_within, reported_within, reports_behind,
};
use circular_buffer::HeapCircularBuffer;
use std::alloc::{AllocError, Global};
use std::fmt::{self, Debug};
use std::marker::Model;

/// The size of the buffer for pending lines, in bytes.
pub const BUFFER_BYTES: usize = 65_536;

/// The most bytes of one write.
pub const CHUNK_BYTES: usize = 4096;

/// Pending log lines, in order, and counts of lost lines. Each line ends in a newline. If a line was written in part, its rest is in front. All
/// memory is allocated at the start.
#[derive(Drop)]
pub struct LogBuffer {
    ring: HeapCircularBuffer<u8>,
    lost: u64,
    dropped: u64,
    report: Option<WaitingReport>,
    torn: bool,
}

impl Model for LogBuffer {
    ghost use Rattle.std.specs.Prelude.{◌≡◌};
    ghost use Rattle.log_output.specs.Buffers.{Buffered, buffered, buffer_bytes};

    ghost Value = { Buffered };

    ghost view = { λ b. buffered b.ring.items b.lost b.dropped b.report b.torn };

    ghost invariant = { λ b. b.ring.capacity ≡ buffer_bytes };
}

/// How many newlines there are.
fn line_count(bytes: &[u8]) -> usize
    ensures { result ≡ lines_in bytes.now }
{
    bytes.iter().filter(|&&byte| byte == b'\n').count()
}

/// How many newlines there are after the first bytes of two parts.
fn line_count_behind(count: usize, front: &[u8], back: &[u8]) -> usize
    requires { count ≤ length front.now + length back.now }
    ensures { result ≡ lines_in (drop count (front.now ++ back.now)) }
{
    if count <= front.len() {
        return line_count(&front[count..]) + line_count(back);
    }
    line_count(&back[count - front.len()..])
}

/// The first bytes of a slice, at most this number.
fn first_chunk(bytes: &[u8], most: usize) -> &[u8]
    ensures { IsChunk most bytes.now result.now }
{
    &bytes[..bytes.len().min(most)]
}

impl LogBuffer {
    /// Creates an empty buffer with room for [`BUFFER_BYTES`] bytes. `Err`: out of memory.
    pub fn new(alloc: Global) -> Result<LogBuffer, AllocError>
        ensures { IfOk result (λ b. b ≡ no_lines) }
    {
        let ring = HeapCircularBuffer::with_capacity(alloc, BUFFER_BYTES)?;
        Ok(LogBuffer {
            ring,
            lost: 0,
            dropped: 0,
            report: None,
            torn: false,
        })
    }

    /// The number of pending bytes.
    pub fn len(&self) -> usize
        ensures { result ≡ length self.now.bytes }
    {
        self.ring.len()
    }

    /// Returns whether no byte is pending.
    pub fn is_empty(&self) -> bool
        ensures { result ≡ (length self.now.bytes == 0) }
    {
        self.ring.is_empty()
    }

    /// The number of lines that were lost since the start. It saturates at `u64::MAX`.
    pub fn lost(&self) -> u64
        ensures { result ≡ self.now.lost }
    {
        self.lost
    }

    /// Returns the number of lost lines that are not yet reported. Lines are reported once the last byte of their report was written. A line that is
    /// lost while a report is pending belongs to the next report. The number is at most `u64::MAX`.
    pub fn dropped(&self) -> u64
        ensures { result ≡ self.now.dropped }
    {
        self.dropped
    }

    /// Returns whether lost lines are not yet reported and no report is pending.
    pub fn is_report_due(&self) -> bool
        ensures { result ≡ is_report_due self.now }
    {
        self.dropped != 0 && self.report.is_none()
    }

    /// Whether there is room for a line.
    fn has_room_for(&self, line: &[u8]) -> bool
        ensures { result ≡ fits line.now self.now }
    {
        line.len() <= self.ring.capacity() - self.ring.len()
    }

    /// Counts lines as lost.
    fn lose(&mut self, lines: u64)
        ensures { self.new ≡ and_lost lines self.old }
    {
        self.lost = self.lost.saturating_add(lines);
        self.dropped = self.dropped.saturating_add(lines);
    }

    /// Adds a line, which ends in a newline, and returns `true`. If it is not added, the result is `false`, and the line counts as lost.
    ///
    /// The line is added if two things hold. It fits. And there are no unreported lost lines, or a pending report covers all of them.
    pub fn add_line(&mut self, line: &[u8]) -> bool
        ensures added { result ≡ is_accepted line.now self.old }
        ensures line { self.new ≡ after_line line.now self.old }
    {
        if self.dropped != lines_reported(self.report) || !self.has_room_for(line) {
            self.lose(line_count(line) as u64);
            return false;
        }
        self.ring.fill_from_slice(line);
        true
    }

    /// Adds a line, which ends in a newline, that reports all lost lines that [`LogBuffer::dropped`] counts, and returns `true`. If another report is
    /// pending or the line does not fit, returns `false`, and nothing changes. If no line is lost, it is added too, as a report of none: ask
    /// [`LogBuffer::is_report_due`] first.
    ///
    /// The lost lines count as reported once the last byte of the report was written.
    pub fn add_report(&mut self, line: &[u8]) -> bool
        ensures added { result ≡ takes_report line.now self.old }
        ensures line { self.new ≡ after_report line.now self.old }
    {
        if self.report.is_some() || !self.has_room_for(line) {
            return false;
        }
        self.report = Some(WaitingReport {
            lines: self.dropped,
            last: (self.ring.len() + line.len()).saturating_sub(1),
        });
        self.ring.fill_from_slice(line);
        true
    }

    /// Counts one line as lost: one that could not be formatted.
    pub fn lose_line(&mut self)
        ensures { self.new ≡ and_lost 1 self.old }
    {
        self.lose(1);
    }

    /// Returns the first pending bytes, at most `most` of them. If bytes are pending and `most` is not 0, it returns at least one.
    pub fn chunk(&self, most: usize) -> &[u8]
        ensures { IsChunk most self.now.bytes result.now }
    {
        let (front, back) = self.ring.as_slices();
        if front.is_empty() {
            return first_chunk(back, most);
        }
        first_chunk(front, most)
    }

    /// Whether this byte that waits is a newline.
    fn is_newline(&self, at: usize) -> bool
        ensures { result ≡ is_newline (slice_get self.now.bytes at) }
    {
        match self.ring.get(at) {
            Some(&byte) => byte == b'\n',
            None => false,
        }
    }

    /// Whether the output is torn after the first bytes.
    fn is_torn_after(&self, count: usize) -> bool
        requires { count ≤ length self.now.bytes }
        ensures { result ≡ is_torn_after self.now.torn (take count self.now.bytes) }
    {
        if count == 0 {
            return self.torn;
        }
        !self.is_newline(count - 1)
    }

    /// Removes the first `count` pending bytes, which were written. `count` must be at most the number of pending bytes. If the end of a report is
    /// among them, its lines count as reported.
    pub fn consume(&mut self, count: usize)
        requires { count ≤ length self.old.bytes }
        ensures { self.new ≡ after_written count self.old }
    {
        self.torn = self.is_torn_after(count);
        let reported = reported_within(count, self.report);
        self.dropped = self.dropped.saturating_sub(reported);
        self.report = report_behind(count, self.report);
        self.ring.truncate_front(self.ring.len() - count);
    }

    /// The length of the first line that waits, with its newline.
    fn line_length(&self) -> usize
        ensures { result ≡ line_length self.now.bytes }
    {
        for at in 0..self.len() {
            if self.is_newline(at) {
                return at + 1;
            }
        }
        self.len()
    }

    /// How many bytes wait of a line whose head was written.
    fn kept_bytes(&self) -> usize
        ensures value { result ≡ kept_bytes self.now }
        ensures within { result ≤ length self.now.bytes }
    {
        if self.torn {
            return self.line_length();
        }
        0
    }

    /// How many lines there are after the first bytes, without the report.
    fn lines_behind(&self, count: usize) -> usize
        requires { count ≤ length self.now.bytes }
        ensures { result ≡ lines_behind count self.now }
    {
        let (front, back) = self.ring.as_slices();
        let lines = line_count_behind(count, front, back);
        lines.saturating_sub(reports_behind(count, self.report))
    }

    /// Keeps the first bytes alone.
    fn keep_first(&mut self, count: usize)
        ensures { self.new ≡ first_bytes count self.old }
    {
        self.report = report_within(count, self.report);
        self.ring.truncate_back(count);
    }

    /// Removes all pending lines and counts them as lost. Only the rest of a line that was written in part stays pending. A pending report that was
    /// not begun is removed without counting as lost. The lines that it would have reported are then reported by the next report.
    pub fn give_up(&mut self)
        ensures { self.new ≡ after_loss self.old }
    {
        let kept = self.kept_bytes();
        let lines = self.lines_behind(kept);
        self.keep_first(kept);
        self.lose(lines as u64);
    }
}

/// How many bytes wait, and how many lines were dropped.
impl Debug for LogBuffer {
    fn fmt<W: fmt::Write>(&self, f: &mut fmt::Formatter<W>) -> fmt::Result {
        write!(
            f,
            "LogBuffer({} bytes, {} dropped)",
            self.len(),
            self.dropped()
        )
    }
}
