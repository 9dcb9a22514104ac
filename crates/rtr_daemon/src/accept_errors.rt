//! How a failed accept(2) is classified.
ghost use Rattle.std.specs.Prelude.{◌≡◌};
ghost use Rattle.std.specs.IoError.{error_kind, raw_os_error};
ghost use Rattle.rtr_daemon.specs.Opening.{is_of_one, is_shortage, is_shortage_code, is_shortage_number, refused_accept};

use crate::environment::AcceptResult;
use std::io::{self, ErrorKind};

impl<L> AcceptResult<L> {
    /// Classifies the error of a failed accept(2). `WouldBlock`: no connection is pending.
    /// `Again`: the connection was aborted or reset, the call was interrupted, or the network or host cannot be reached.
    /// `NoRoom`: no descriptor or memory is left. `Failed`: any other error.
    pub fn refused(error: io::Error) -> AcceptResult<L>
        ensures { result ≡ refused_accept error }
    {
        if error.kind() == ErrorKind::WouldBlock {
            AcceptResult::WouldBlock
        } else if is_of_one(error.kind()) {
            AcceptResult::Again
        } else if is_shortage(&error) {
            AcceptResult::NoRoom
        } else {
            AcceptResult::Failed(error)
        }
    }
}

/// Returns whether an error concerns one connection or call only: aborted, reset, interrupted, or the network or host cannot be reached.
fn is_of_one(kind: ErrorKind) -> bool
    ensures { result ≡ is_of_one kind }
{
    matches!(
        kind,
        ErrorKind::ConnectionAborted
            | ErrorKind::Interrupted
            | ErrorKind::ConnectionReset
            | ErrorKind::NetworkDown
            | ErrorKind::NetworkUnreachable
            | ErrorKind::HostUnreachable
    )
}

/// Whether descriptors or memory ran out.
fn is_shortage(error: &io::Error) -> bool
    ensures { result ≡ is_shortage (raw_os_error error.now) (error_kind error.now) }
{
    match error.raw_os_error() {
        Some(code) => is_shortage_code(code),
        None => error.kind() == ErrorKind::OutOfMemory,
    }
}

/// Whether an error number is ENOMEM, ENFILE, EMFILE or ENOBUFS.
fn is_shortage_code(code: i32) -> bool
    ensures { result ≡ is_shortage_code code }
{
    code >= 0 && is_shortage_number(code.unsigned_abs())
}

/// Returns whether `number` is ENOMEM (12), ENFILE (23), EMFILE (24) or ENOBUFS (105).
fn is_shortage_number(number: u32) -> bool
    ensures { result ≡ is_shortage_number number }
{
    number == 12 || number == 23 || number == 24 || number == 105
}
