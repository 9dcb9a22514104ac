//! The output of a log of events. [`Log`] leaves out what is less severe than its level, limits the lines about clients
//! ([`ClientLineLimit`]), and keeps the other lines ([`LogBuffer`]) until its sink has room for them ([`LogSink`]). A line that does not fit, or
//! that a sink fails to write, is lost whole, counted, and reported in its place. So a log never blocks and tears no line, and its memory is
//! bounded.
//!
//! For example, where `rt` is the runtime that `main` is handed:
//!
//! ```rust
//! use event_log::{LogEvent, LogFormat, LogLevel};
//! use log_output::Log;
//!
//! let mut log = Log::new(rt.alloc(), LogFormat::Text, LogLevel::Error)?;
//! log.add(1_795_632_000, 0, &LogEvent::Ready);
//! assert!(rt; log.is_empty());
//! log.add(1_795_632_001, 1000, &LogEvent::NoDescriptor);
//! assert!(rt; !log.is_empty());
//! assert!(rt; log.dropped_lines() == 0);
//! ```
//!
//! [`laws::each_is_one_line`] is the law that a line has one newline.
#![tactic(auto)]

mod buffer;
pub mod laws;
mod limit;
mod output;
mod report;
mod sink;

pub use buffer::{BUFFER_BYTES, CHUNK_BYTES, LogBuffer};
pub use limit::{ClientLineLimit, LIMIT_LINES, LIMIT_MILLIS};
pub use output::Log;
pub use report::WaitingReport;
pub use sink::LogSink;
