//! Why a command fails, and how it refuses input.
ghost use Rattle.std.specs.Prelude.{◌≤◌, IfOk};

use std::alloc::AllocError;
use std::io::{self, ErrorKind, Write};
use thiserror::Error;

/// Why a command fails. Its text is written to standard error.
#[derive(Debug, Drop, Error)]
pub enum ProgramFault {
    /// The command line does not parse. Exit status 2.
    #[error("rpkirtr: bad words")]
    Words,
    /// A file, a socket or an output failed. Exit status 3.
    #[error("rpkirtr: device failed")]
    Device,
    /// Memory ran out. Exit status 4.
    #[error("rpkirtr: out of memory")]
    Memory,
}

impl From<AllocError> for ProgramFault {
    fn from(_error: AllocError) -> ProgramFault {
        ProgramFault::Memory
    }
}

impl From<io::Error> for ProgramFault {
    fn from(error: io::Error) -> ProgramFault {
        if error.kind() == ErrorKind::OutOfMemory {
            ProgramFault::Memory
        } else {
            ProgramFault::Device
        }
    }
}

/// Prints the line `refused ` and `what` to `out`, and returns exit status 1. `Err`: the output failed.
pub fn refuse<O: Write>(what: &str, out: &mut O) -> Result<u8, ProgramFault>
    ensures { IfOk result (λ s. s ≤ 1) }
{
    writeln!(out, "refused {what}")?;
    Ok(1)
}
