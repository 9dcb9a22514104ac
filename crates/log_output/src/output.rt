//! The log: levels, the limit of lines about clients, and lines that wait for room.
ghost use Rattle.std.specs.Prelude.{◌≡◌, ◌+◌, ◌≤◌, ◌<◌, ◌==◌, [], true, None, IfOk, if◌then◌else◌, length};
ghost use Rattle.event_log.specs.Levels.{level_of, severity};
ghost use Rattle.log_output.specs.Buffers.{no_lines, saturated};
ghost use Rattle.log_output.specs.Limits.{limited};
ghost use Rattle.log_output.specs.Logs.{AddsEvent, AddsOwn, CountsLines, Grows, IsLine, IsWhole, OffersEvent, ReportsDrops};
ghost use Rattle.log_output.specs.Logs.{ReportsDue, ReportsSuppressed, StaysWhole, WritesCounted, is_empty, log_state, with_buffer};
ghost use Rattle.log_output.specs.Sinks.{WritesOut};

use crate::buffer::LogBuffer;
use crate::limit::{ClientLineLimit, LIMIT_MILLIS};
use crate::sink::LogSink;
use event_log::{LogEvent, LogFormat, LogLevel, write_event};
use std::alloc::{AllocError, Global};
use std::fmt::{self, Debug};
use std::marker::Model;

/// The initial capacity for one line, in bytes. A longer line needs more.
const LINE_BYTES: usize = 4096;

/// A log of events. It leaves out events that are less severe than its level. It limits the lines about clients. The other lines are pending
/// until they are written.
#[derive(Drop)]
pub struct Log {
    format: LogFormat,
    level: LogLevel,
    limit: ClientLineLimit,
    buffer: LogBuffer,
    line: Vec<u8>,
    reported_suppressed: u64,
    memory_failures: u64,
}

impl Model for Log {
    ghost use Rattle.log_output.specs.Logs.{LogState, log_state};

    ghost Value = { LogState };

    ghost view = { λ l. log_state l.format l.level l.limit l.buffer l.reported_suppressed l.memory_failures };
}

/// Formats the line of an event. Answers whether there was memory for it.
fn format_line(line: &mut Vec<u8>, format: LogFormat, seconds: u64, event: &LogEvent<'_>) -> bool
    ensures { result ≡ true → IsLine format seconds event.now line.new.items }
{
    line.clear();
    write_event(line, format, seconds, event).is_ok()
}

impl Log {
    /// Creates a log in this format. It has the events that are at least as severe as `level`. `Err`: out of memory.
    pub fn new(alloc: Global, format: LogFormat, level: LogLevel) -> Result<Log, AllocError>
        ensures empty { IfOk result (λ l. l ≡ log_state format level (limited None 0 0) no_lines 0 0) }
        ensures whole { IfOk result (λ l. IsWhole format [] l.buffer) }
    {
        Ok(Log {
            format,
            level,
            limit: ClientLineLimit::new(),
            buffer: LogBuffer::new(alloc)?,
            line: Vec::with_capacity(alloc, LINE_BYTES)?,
            reported_suppressed: 0,
            memory_failures: 0,
        })
    }

    /// Offers the line of an event to the buffer.
    fn offer(&mut self, seconds: u64, event: &LogEvent<'_>)
        ensures { OffersEvent self.old self.new seconds event.now }
    {
        if format_line(&mut self.line, self.format, seconds, event) {
            self.buffer.add_line(self.line.as_slice());
        } else {
            self.memory_failures = self.memory_failures.saturating_add(1);
            self.buffer.lose_line();
        }
    }

    /// Reports the dropped lines, if there are any, no report waits and there is room.
    fn report_drops(&mut self, seconds: u64)
        ensures { ReportsDrops self.old self.new seconds }
    {
        if !self.buffer.is_report_due() {
            return;
        }
        let lines = self.buffer.dropped();
        let event = LogEvent::Dropped { lines };
        if !format_line(&mut self.line, self.format, seconds, &event) {
            self.memory_failures = self.memory_failures.saturating_add(1);
            return;
        }
        self.buffer.add_report(self.line.as_slice());
    }

    /// Reports the suppressed lines, if there are any and their window has ended.
    fn report_suppressed(&mut self, seconds: u64, millis: u64)
        ensures { ReportsSuppressed self.old self.new seconds millis }
    {
        let lines = self.limit.take_suppressed(millis);
        self.reported_suppressed = self.reported_suppressed.saturating_add(lines);
        if lines > 0 {
            let event = LogEvent::Suppressed {
                lines,
                seconds: LIMIT_MILLIS / 1000,
            };
            self.offer(seconds, &event);
        }
    }

    /// Adds the reports that are due: of dropped lines if there is room, and of suppressed lines if their window has ended. `seconds` is in seconds
    /// since 1970, `millis` in milliseconds of a monotonic clock. If no report is due, nothing changes.
    pub fn tick(&mut self, seconds: u64, millis: u64)
        ensures reports { ReportsDue self.old self.new seconds millis }
        ensures counts { CountsLines 0 self.old self.new }
        ensures grows { Grows self.old self.new }
        ensures whole { StaysWhole self.old self.new }
    {
        self.report_drops(seconds);
        self.report_suppressed(seconds, millis);
    }

    /// Adds an event whose level the log has.
    fn add_own(&mut self, seconds: u64, millis: u64, event: &LogEvent<'_>)
        ensures { AddsOwn self.old self.new seconds millis event.now }
    {
        if !event.is_of_client() || self.limit.admit(millis) {
            self.offer(seconds, event);
        }
    }

    /// Adds an event. `seconds` is its time since 1970. `millis` is the time of a monotonic clock, in milliseconds. An event that is less severe
    /// than the level changes nothing.
    ///
    /// Otherwise the reports that are due come first. Then the event's line is added if the limit of lines about clients lets it through. It
    /// counts as lost if there is no memory for it, if it does not fit, or if no pending report covers the lost lines before it.
    pub fn add(&mut self, seconds: u64, millis: u64, event: &LogEvent<'_>)
        ensures below { severity self.old.level < severity (level_of event.now) → self.new ≡ self.old }
        ensures adds { severity (level_of event.now) ≤ severity self.old.level → AddsEvent self.old self.new seconds millis event.now }
        ensures counts { severity (level_of event.now) ≤ severity self.old.level → CountsLines 1 self.old self.new }
        ensures grows { Grows self.old self.new }
        ensures whole { StaysWhole self.old self.new }
    {
        if !event.is_logged_at(self.level) {
            return;
        }
        self.tick(seconds, millis);
        self.add_own(seconds, millis, event);
    }

    /// Writes the pending lines while the sink has room. It makes at most 4,096 writes.
    /// - A write that would block, is interrupted or accepts nothing ends the call. The bytes stay pending.
    /// - If a write fails otherwise, the pending lines are given up and counted as lost.
    /// - The rest of a line that was written in part stays pending, so no line is torn.
    pub fn write_to<S: LogSink>(&mut self, sink: &mut S)
        ensures writes { WritesOut 4096 self.old.buffer self.new.buffer (S.contents sink.old) (S.contents sink.new) (S.last_answer sink.new) }
        ensures keeps { self.new ≡ with_buffer self.new.buffer self.old }
        ensures counts { WritesCounted self.old self.new (S.contents sink.old) (S.contents sink.new) }
    {
        self.buffer.write_to(sink);
    }

    /// Returns whether no line is pending. Lines that were dropped or suppressed may still have to be reported.
    pub fn is_written(&self) -> bool
        ensures { result ≡ (length self.now.buffer.bytes == 0) }
    {
        self.buffer.is_empty()
    }

    /// Returns whether nothing is left to write: no line is pending, and no dropped or suppressed lines have to be reported.
    pub fn is_empty(&self) -> bool
        ensures { result ≡ is_empty self.now }
    {
        self.is_written() && self.buffer.dropped() == 0 && self.limit.suppressed() == 0
    }

    /// How long the caller may wait before the next write, in milliseconds: 1,000, or `u64::MAX` if the log is empty.
    pub fn wait_limit(&self) -> u64
        ensures { result ≡ if is_empty self.now then 18446744073709551615 else 1000 }
    {
        if self.is_empty() {
            return u64::MAX;
        }
        1000
    }

    /// The number of lines that were lost since the start: neither written nor pending. It saturates at `u64::MAX`.
    pub fn dropped_lines(&self) -> u64
        ensures { result ≡ self.now.buffer.lost }
    {
        self.buffer.lost()
    }

    /// The number of lines about clients that the rate limit suppressed since the start. It saturates at `u64::MAX`.
    pub fn suppressed_lines(&self) -> u64
        ensures { result ≡ saturated (self.now.reported_suppressed + self.now.limit.suppressed) }
    {
        self.reported_suppressed
            .saturating_add(self.limit.suppressed())
    }

    /// Returns the number of times that there was no memory for a line. The line of an event is then dropped. A report of dropped lines is made
    /// later.
    pub fn memory_failures(&self) -> u64
        ensures { result ≡ self.now.memory_failures }
    {
        self.memory_failures
    }
}

/// How many lines were dropped and suppressed.
impl Debug for Log {
    fn fmt<W: fmt::Write>(&self, f: &mut fmt::Formatter<W>) -> fmt::Result {
        write!(
            f,
            "Log({} dropped, {} suppressed)",
            self.buffer.dropped(),
            self.limit.suppressed()
        )
    }
}
