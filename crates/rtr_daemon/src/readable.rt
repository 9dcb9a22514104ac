//! Which files are read.
ghost use Rattle.std.specs.Prelude.{◌≡◌};
ghost use Rattle.rtr_daemon.specs.Opening.{judgement};

use std::io::{self, ErrorKind};
use thiserror::Error;

/// The kind and size of a file, as the system reports them.
#[derive(Clone, Copy, Debug, PartialEq, Eq)]
pub struct FileForm {
    /// Whether it is a regular file. Opening another file, such as a pipe, may block.
    pub is_regular: bool,
    /// Its size in bytes.
    pub size: u64,
}

/// Why a file is not read.
#[derive(Clone, Copy, Debug, Drop, PartialEq, Eq, Error)]
pub enum Unreadable {
    /// The file is not a regular file.
    #[error("not a regular file")]
    NotRegular,
    /// The file is larger than the limit (`--max-size`).
    #[error("larger than --max-size allows")]
    TooLarge,
}

impl From<Unreadable> for io::Error {
    fn from(fault: Unreadable) -> io::Error {
        match fault {
            Unreadable::NotRegular => {
                io::Error::new(ErrorKind::InvalidInput, "not a regular file")
            }
            Unreadable::TooLarge => {
                io::Error::new(ErrorKind::FileTooLarge, "larger than --max-size allows")
            }
        }
    }
}

impl FileForm {
    /// Checks that a file may be read. `Ok`: it is regular and has at most `most` bytes.
    /// `Err`: `NotRegular`, or `TooLarge` if it is regular.
    pub fn judge(self, most: u64) -> Result<(), Unreadable>
        ensures { result ≡ judgement most self }
    {
        if !self.is_regular {
            return Err(Unreadable::NotRegular);
        }
        if self.size > most {
            return Err(Unreadable::TooLarge);
        }
        Ok(())
    }
}
