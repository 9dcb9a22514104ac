//! Standard error, as the sink of the log.
ghost use Rattle.std.specs.Prelude.{◌≤◌};
ghost use Rattle.log_output.specs.Buffers.{chunk_bytes};

use libc::net::{POLLOUT, poll};
use libc::types::pollfd;
use log_output::{CHUNK_BYTES, LogSink};
use std::io;

/// The descriptor of standard error.
const DESCRIPTOR: i32 = 2;

/// The path by which the file of that descriptor is opened again.
const PATH: &[u8] = b"/proc/self/fd/2";

/// Standard error, as the output of the log.
/// A pipe that is ready has room for 4,096 bytes (pipe(7)), and a file is always ready. A terminal is ready if it has room for one byte.
#[derive(Debug, Drop)]
pub struct StandardError {
    descriptor: i32,
    takes_single_bytes: bool,
    allowed: usize,
}

impl StandardError {
    /// Opens standard error. If it is a terminal, that is opened a second time for non-blocking writes.
    /// Descriptor 2 stays as it is, since other processes share it. A terminal that cannot be opened a second time is written byte by byte.
    pub fn open() -> StandardError {
        if libc::isatty(DESCRIPTOR) != 1 {
            return StandardError::of(DESCRIPTOR, false);
        }
        match open_terminal() {
            Some(descriptor) => StandardError::of(descriptor, false),
            None => StandardError::of(DESCRIPTOR, true),
        }
    }

    fn of(descriptor: i32, takes_single_bytes: bool) -> StandardError {
        StandardError {
            descriptor,
            takes_single_bytes,
            allowed: 0,
        }
    }

    /// Waits at most `millis` milliseconds until a write does not block, because there is room or it would fail. Returns whether that is so.
    pub fn is_ready(&self, millis: i32) -> bool {
        let mut asked = [pollfd {
            fd: self.descriptor,
            events: POLLOUT,
            revents: 0,
        }];
        poll(&mut asked, millis) > 0
    }

    /// How many bytes may be written now.
    fn room_now(&self) -> usize
        ensures { result ≤ chunk_bytes }
    {
        if !self.is_ready(0) {
            return 0;
        }
        if self.takes_single_bytes {
            return 1;
        }
        CHUNK_BYTES
    }
}

/// Opens the terminal of standard error for writes that do not block. `None` if that fails.
fn open_terminal() -> Option<i32> {
    let descriptor = os::open_with(PATH, libc::O_WRONLY, 0);
    if descriptor < 0 {
        return None;
    }
    if os::set_nonblocking(descriptor, true) == 0 {
        return Some(descriptor);
    }
    libc::close(descriptor);
    None
}

impl LogSink for StandardError {
    ghost use Rattle.std.specs.Prelude.{Option};

    ghost contents = { λ s. Option.None };

    ghost last_answer = { λ s. Option.None };

    ghost allowed = { λ s. s.allowed };

    fn room(&mut self) -> usize {
        let room = self.room_now();
        self.allowed = room;
        room
    }

    fn write(&mut self, bytes: &[u8]) -> io::Result<usize> {
        self.allowed = 0;
        let count = libc::write(self.descriptor, bytes);
        if count < 0 {
            return Err(io::Error::from_raw_os_error(os::errno()));
        }
        Ok((count as usize).min(bytes.len()))
    }
}
