//! The event log of the daemon `rpkirtrd`: an event ([`LogEvent`]) is one line, as text, as JSON or for systemd ([`write_event`]).
//! The time of a line is given in seconds since 1970 ([`moment_at`], [`time_at`]). [`LogEvent::level`] is how severe an event is.
//!
//! For example, where `rt` is the runtime that `main` is handed:
//!
//! ```rust
//! use event_log::{LogEvent, LogFormat, write_event};
//!
//! let mut log = Vec::new(rt.alloc());
//! let event = LogEvent::Taken { file: "vrps.json" };
//! write_event(&mut log, LogFormat::Text, 1_795_632_000, &event)?;
//! assert!(rt; log.as_slice() == b"2026-11-25T18:40:00Z taken file=vrps.json\n".as_slice());
//! ```
#![tactic(auto)]

mod clock;
mod entries;
mod event;
mod level;
mod line;
mod report;

pub use clock::{moment_at, time_at};
pub use event::{ClientClosed, LogEvent, PeerReport, Publication};
pub use level::LogLevel;
pub use line::{LogFormat, write_event};
pub use report::report_name;
