//! Why a program does not start, in words, and its exit status if a socket is at fault.
ghost use Rattle.std.specs.Prelude.{◌≡◌};
ghost use Rattle.std.specs.IoError.{error_kind};
ghost use Rattle.rtr_daemon.specs.Running.{failure_status, random_refusal};

use crate::environment::EventLog;
use crate::refusal::{Refusal, StartFault};
use crate::running::failure_status;
use event_log::LogEvent;
use std::alloc::{AllocError, Global};
use std::fmt::{self, Display};
use std::io::{self, ErrorKind};
use std::net::SocketAddr;
use vrps::SetFault;

/// Why a socket cannot be opened.
#[derive(Debug, Drop)]
pub struct SocketFault {
    /// The address of the listener. `None`: the error concerns no address.
    pub address: Option<SocketAddr>,
    /// The error of the system.
    pub error: io::Error,
}

impl SocketFault {
    /// The exit status of the program: 4 if memory ran out, and 3 otherwise.
    pub fn status(&self) -> u8
        ensures { result ≡ failure_status (error_kind self.now.error) }
    {
        failure_status(self.error.kind())
    }
}

impl From<io::Error> for SocketFault {
    fn from(error: io::Error) -> SocketFault {
        SocketFault {
            address: None,
            error,
        }
    }
}

impl From<AllocError> for SocketFault {
    fn from(error: AllocError) -> SocketFault {
        SocketFault::from(io::Error::from(error))
    }
}

impl Display for SocketFault {
    fn fmt<W: fmt::Write>(&self, f: &mut fmt::Formatter<W>) -> fmt::Result {
        match &self.address {
            Some(address) => write!(f, "cannot listen at {address}: {}", self.error),
            None => write!(f, "cannot create a socket: {}", self.error),
        }
    }
}

/// A path with a control character is in quotes.
impl Display for StartFault {
    fn fmt<W: fmt::Write>(&self, f: &mut fmt::Formatter<W>) -> fmt::Result {
        match &self.path {
            Some(path) if path.chars().any(char::is_control) => {
                write!(f, "{path:?}: {}", self.refusal)
            }
            Some(path) => write!(f, "{path}: {}", self.refusal),
            None => write!(f, "{}", self.refusal),
        }
    }
}

impl StartFault {
    /// Returns the fault of a start at which no session can be chosen. `error` is that of the system's random source. If it is out of memory, the
    /// refusal is `Set(Memory)`, without a path. Otherwise it is `Device(error)`, and the path names the random source, or is `None` without
    /// memory for the name.
    pub fn of_random(alloc: Global, error: io::Error) -> StartFault
        ensures { result.refusal ≡ random_refusal error }
    {
        if error.kind() == ErrorKind::OutOfMemory {
            return StartFault {
                path: None,
                refusal: Refusal::Set(SetFault::Memory),
            };
        }
        StartFault {
            path: String::from_str(alloc, "the system's random source").ok(),
            refusal: Refusal::Device(error),
        }
    }

    /// Logs the fault at `now`, in seconds since 1970: as a refused file if it has a path, otherwise as the reason why the daemon stops.
    /// Without memory for the text, it logs that memory ran out.
    pub fn log_to<J: EventLog>(&self, alloc: Global, now: u64, events: &mut J) {
        let Ok(reason) = self.refusal.to_string(alloc) else {
            return events.log(now, &LogEvent::Memory { what: "the start" });
        };
        let reason = reason.as_str();
        match &self.path {
            Some(file) => events.log(now, &LogEvent::Refused { file, reason }),
            None => events.log(now, &LogEvent::Stopped { reason }),
        }
    }
}
