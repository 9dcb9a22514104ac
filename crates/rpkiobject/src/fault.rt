//! Why the program fails.
use std::alloc::AllocError;
use std::io::{self, ErrorKind};
use thiserror::Error;

/// Why the program fails. The text is written on standard error.
#[derive(Debug, Drop, Error)]
pub(crate) enum ProgramFault {
    /// The words do not parse. Status 2.
    #[error("rpkiobject: bad words: rpkiobject [OPTION].. FILE..\nTry rpkiobject --help.")]
    Words,
    /// An output is a file that is read, or both outputs are one file. Status 2.
    #[error("rpkiobject: bad words: OUT is FILE, or another OUT")]
    SameFile,
    /// A file could not be written. It is named before. Status 3.
    #[error("rpkiobject: OUT was not written")]
    Output,
    /// Standard output failed. Status 3.
    #[error("rpkiobject: device failed")]
    Device,
    /// Out of memory. Status 4.
    #[error("rpkiobject: out of memory")]
    Memory,
}

impl From<AllocError> for ProgramFault {
    fn from(_error: AllocError) -> ProgramFault {
        ProgramFault::Memory
    }
}

impl From<io::Error> for ProgramFault {
    fn from(error: io::Error) -> ProgramFault {
        if error.kind() == ErrorKind::OutOfMemory {
            ProgramFault::Memory
        } else {
            ProgramFault::Device
        }
    }
}
