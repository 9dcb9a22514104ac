//! The service manager that the environment of a process names (sd_notify(3), sd_watchdog_enabled(3)).
use crate::addresses::socket_address;
use crate::notifier::{Notifier, NotifySocket, enabled_watchdog};
use std::alloc::AllocError;
use std::env::{self, Env, VarError};
use std::io::{self, ErrorKind};

/// A socket of a service manager that can be opened.
pub trait OpenNotifySocket: NotifySocket {
    /// Opens the socket for an address, as the bytes of a `sockaddr_un` (unix(7)). Its sends do not block. `Err`: it cannot be opened.
    fn open(address: &[u8]) -> io::Result<Self>;
}

/// The service manager that the environment of this process names. `own` is the process number, `now` the time in milliseconds of a monotonic
/// clock. `None`: `NOTIFY_SOCKET` is not set, is empty or is not UTF-8. `Err`: it names one that cannot be notified, or memory ran out.
pub fn service_manager<R: Env + AllocGlobal, C: OpenNotifySocket>(
    rt: &R,
    own: u64,
    now: u64,
) -> io::Result<Option<Notifier<C>>> {
    let Some(name) = variable(rt, "NOTIFY_SOCKET")? else {
        return Ok(None);
    };
    let Some(address) = socket_address(rt.alloc(), name.as_str())? else {
        return Err(io::Error::new(ErrorKind::InvalidInput, "NOTIFY_SOCKET names no socket"));
    };
    let process = number(rt, "WATCHDOG_PID")?;
    let watchdog = enabled_watchdog(process, number(rt, "WATCHDOG_USEC")?, own, now);
    Ok(Some(Notifier::new(C::open(address.as_slice())?, watchdog)))
}

/// The value of an environment variable, if it is set to a text that is not empty.
fn variable<R: Env + AllocGlobal>(rt: &R, name: &str) -> io::Result<Option<String>> {
    match env::var(rt, name) {
        Ok(value) if value.is_empty() => Ok(None),
        Ok(value) => Ok(Some(value)),
        Err(VarError::OutOfMemory) => Err(io::Error::from(AllocError)),
        Err(_) => Ok(None),
    }
}

/// The number of an environment variable, if it is set to one.
fn number<R: Env + AllocGlobal>(rt: &R, name: &str) -> io::Result<Option<u64>> {
    match variable(rt, name)? {
        Some(value) => Ok(value.parse::<u64>().ok()),
        None => Ok(None),
    }
}
