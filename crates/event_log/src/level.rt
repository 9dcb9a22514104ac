//! How severe an event is, and whether it is about a client.
ghost use Rattle.std.specs.Prelude.{◌≡◌, ◌≤◌, ◌↔◌, IsTrue, Some};

use crate::event::LogEvent;
use std::fmt::{self, Display};

/// A level of the log, with the severities of syslog (RFC 5424 section 6.2.1). A more severe level is less in the order.
#[derive(Clone, Copy, Debug, PartialEq, Eq, PartialOrd, Ord)]
pub enum LogLevel {
    /// Severity 3: something failed, and an operator should act.
    Error = 3,
    /// Severity 4: something may fail, or a client was turned away.
    Warning = 4,
    /// Severity 5: a normal event that changes what is served.
    Notice = 5,
    /// Severity 6: a client came or went.
    Info = 6,
}

impl LogLevel {
    ghost use Rattle.event_log.specs.Levels.{level_word, severity};

    /// The severity in syslog, 3 to 6 (RFC 5424 section 6.2.1, table 2). 3 is the most severe.
    pub fn severity(self) -> u8
        ensures { result ≡ severity self }
    {
        self as u8
    }

    /// Returns the level of a word: `error`, `warning`, `notice` or `info`, in lower case. `None`: any other text.
    pub fn parse(text: &str) -> Option<LogLevel>
        ensures { (level : LogLevel) → (result ≡ Some level) ↔ (text.now ≡ level_word level) }
    {
        match text {
            "error" => Some(LogLevel::Error),
            "warning" => Some(LogLevel::Warning),
            "notice" => Some(LogLevel::Notice),
            "info" => Some(LogLevel::Info),
            _ => None,
        }
    }
}

/// Writes the word that [`parse`](LogLevel::parse) reads.
impl Display for LogLevel {
    ghost use Rattle.event_log.specs.Levels.{level_word};

    ghost output = { λ l. Some (level_word l) };

    fn fmt<W: fmt::Write>(&self, f: &mut fmt::Formatter<W>) -> fmt::Result {
        match self {
            LogLevel::Error => write!(f, "error"),
            LogLevel::Warning => write!(f, "warning"),
            LogLevel::Notice => write!(f, "notice"),
            LogLevel::Info => write!(f, "info"),
        }
    }
}

impl LogEvent<'_> {
    ghost use Rattle.event_log.specs.Levels.{is_of_client, level_of, severity};

    /// Returns the level of the event, which is fixed for each variant: error, warning, notice or info.
    pub fn level(&self) -> LogLevel
        ensures { result ≡ level_of self.now }
    {
        match self {
            LogEvent::Refused { .. }
            | LogEvent::Failed { .. }
            | LogEvent::Memory { .. }
            | LogEvent::NoDescriptor
            | LogEvent::Dropped { .. } => LogLevel::Error,
            LogEvent::Warning { .. }
            | LogEvent::Clock { .. }
            | LogEvent::Unwell { .. }
            | LogEvent::FileUnwell { .. }
            | LogEvent::Old { .. }
            | LogEvent::Expired { .. }
            | LogEvent::Limited { .. }
            | LogEvent::Stalled { .. }
            | LogEvent::Full { .. }
            | LogEvent::AddressFull { .. }
            | LogEvent::StatusFull { .. }
            | LogEvent::Suppressed { .. }
            | LogEvent::ErrorReport(_) => LogLevel::Warning,
            LogEvent::Listening { .. }
            | LogEvent::Status { .. }
            | LogEvent::Started(_)
            | LogEvent::Ready
            | LogEvent::Published(_)
            | LogEvent::LeftOut { .. }
            | LogEvent::Taken { .. }
            | LogEvent::Fresh { .. }
            | LogEvent::NotServed { .. }
            | LogEvent::SlurmNotServed { .. }
            | LogEvent::Well { .. }
            | LogEvent::FileWell { .. }
            | LogEvent::Checked { .. }
            | LogEvent::Stopped { .. } => LogLevel::Notice,
            LogEvent::ClientCame { .. }
            | LogEvent::ClientGone(_)
            | LogEvent::VersionRefused { .. } => LogLevel::Info,
        }
    }

    /// Returns whether a log of the level `level` includes the event: the event is at least as severe as `level`.
    pub fn is_logged_at(&self, level: LogLevel) -> bool
        ensures { IsTrue result ↔ (severity (level_of self.now) ≤ severity level) }
    {
        self.level() <= level
    }

    /// Returns whether the event names one client or visitor by its address: `ClientCame`, `ClientGone`, `ErrorReport`, `VersionRefused`, `Stalled`,
    /// `Full`, `AddressFull` or `StatusFull`. A peer can cause any number of such lines, so a log limits them. `Memory` is none of them, even
    /// if memory ran out for a client.
    pub fn is_of_client(&self) -> bool
        ensures { result ≡ is_of_client self.now }
    {
        match self {
            LogEvent::ClientCame { .. }
            | LogEvent::ClientGone(_)
            | LogEvent::ErrorReport(_)
            | LogEvent::VersionRefused { .. }
            | LogEvent::Stalled { .. }
            | LogEvent::Full { .. }
            | LogEvent::StatusFull { .. }
            | LogEvent::AddressFull { .. } => true,
            _ => false,
        }
    }
}
