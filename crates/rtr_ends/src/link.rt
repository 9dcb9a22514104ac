//! A router's link, and how it ends.
ghost use Rattle.std.specs.Prelude.{◌≡◌, Some};

use std::fmt::{self, Display};
use thiserror::Error;

/// Why the link of a router ended.
#[derive(Clone, Copy, Debug, PartialEq, Eq)]
pub enum End {
    /// The router sent an Error Report of this code (RFC 8210 section 12).
    Reported(u16),
    /// The router received an Error Report of this code.
    Told(u16),
    /// The router received an Error Report that could not be read. No report is sent on it (RFC 8210 section 5.11).
    Malformed,
    /// The router ran out of memory.
    Memory,
    /// The committed version expired while a Serial Query was outstanding (RFC 8210 section 6).
    Expired,
    /// An answer leads to more records than `RouterConfig::most`, which counts as at most 16,777,215.
    TooMany,
}

impl End {
    ghost use Rattle.rtr_ends.specs.RouterLink.{end_number};

    /// The fixed number of the kind of end, from 1 to 6, in the order of the variants. It does not depend on the error code.
    pub fn number(self) -> u8
        ensures { result ≡ end_number self }
    {
        match self {
            End::Reported(_) => 1,
            End::Told(_) => 2,
            End::Malformed => 3,
            End::Memory => 4,
            End::Expired => 5,
            End::TooMany => 6,
        }
    }
}

/// The text of an end: a phrase that says why the link ended.
impl Display for End {
    ghost use Rattle.rtr_ends.specs.RouterLink.{end_text};

    ghost output = { λ end. Some (end_text end) };

    fn fmt<W: fmt::Write>(&self, f: &mut fmt::Formatter<W>) -> fmt::Result {
        match self {
            End::Reported(code) => write!(f, "the cache was sent an Error Report of code {code}"),
            End::Told(code) => write!(f, "the cache sent an Error Report of code {code}"),
            End::Malformed => f.write_str("the cache sent a malformed Error Report"),
            End::Memory => f.write_str("out of memory"),
            End::Expired => f.write_str("the committed version expired"),
            End::TooMany => f.write_str("the answer has more than 16777215 records"),
        }
    }
}

/// The state of the link of a router to its cache.
#[derive(Clone, Copy, Debug, PartialEq, Eq)]
pub enum Link {
    /// There is no connection.
    Closed,
    /// The connection is open, and no query is outstanding.
    Idle,
    /// A query is outstanding, and no answer to it has begun.
    Asked,
    /// The answer to a query has begun: its Cache Response came, but not yet its End of Data.
    Answering,
    /// The link has ended for this reason. The transport connection is still to be closed: call `Router::closed` then.
    Ended(End),
}

/// Why `Router::ask` sends no query. The numbers are fixed.
#[derive(Clone, Copy, Debug, PartialEq, Eq, Error)]
pub enum AskFault {
    /// A query is already outstanding.
    #[error("a question is outstanding (fault 1)")]
    Busy = 1,
    /// There is no connection, or its link has ended.
    #[error("no connection, or one that has ended (fault 2)")]
    NotConnected = 2,
}

impl AskFault {
    ghost use Rattle.rtr_ends.specs.RouterLink.{ask_fault_number};

    /// The number of the fault, as in its printed text: 1 or 2.
    pub fn number(self) -> u8
        ensures { result ≡ ask_fault_number self }
    {
        self as u8
    }
}
