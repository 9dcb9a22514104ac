//! The host: its machine id, its name, and its random source.
use session_names::HostFacts;
use std::io::{self, ErrorKind};
use std::random::RandomSource;
use std::rt::Files;
use std::{fs, str};

/// The file of the machine id.
const MACHINE_ID: &str = "/etc/machine-id";

/// The file of the host name.
const HOST_NAME: &str = "/proc/sys/kernel/hostname";

/// The facts of this host from which sessions are chosen: its machine id, its name and a random session.
#[derive(Debug, Drop)]
pub struct SystemHost<'a, R> {
    /// The runtime, by which system files and random bytes are read.
    pub rt: &'a R,
}

impl<R: Files + RandomSource + AllocGlobal> HostFacts for SystemHost<'_, R> {
    fn machine_id(&mut self) -> io::Result<Vec<u8>> {
        content_of(self.rt, MACHINE_ID)
    }

    fn name(&mut self) -> io::Result<Vec<u8>> {
        content_of(self.rt, HOST_NAME)
    }

    fn random_session(&mut self) -> io::Result<u16> {
        let mut bytes = [0u8; 2];
        self.rt.fill_bytes(&mut bytes)?;
        Ok(u16::from_be_bytes(bytes))
    }
}

/// The host name of the system, without white space at its ends. `Ok(None)`: it cannot be read, is empty, or is not UTF-8. `Err`: memory ran
/// out.
pub fn host_name<R: Files + AllocGlobal>(rt: &R) -> io::Result<Option<String>> {
    let bytes = content_of(rt, HOST_NAME)?;
    match str::from_utf8(bytes.as_slice()) {
        Ok(text) if !text.trim().is_empty() => Ok(Some(String::from_str(rt.alloc(), text.trim())?)),
        _ => Ok(None),
    }
}

/// The content of a system file, or nothing if it cannot be read.
fn content_of<R: Files + AllocGlobal>(rt: &R, path: &str) -> io::Result<Vec<u8>> {
    match fs::read(rt, path) {
        Ok(bytes) => Ok(bytes),
        Err(e) if e.kind() == ErrorKind::OutOfMemory => Err(e),
        Err(_) => Ok(Vec::new(rt.alloc())),
    }
}
