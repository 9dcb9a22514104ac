//! Files that are read whole.
use crate::fault::ProgramFault;
use payload_lists::{ListFault, read_list};
use std::rt::Files;
use std::{fs, io};
use vrps::VrpSet;

/// Reads a whole file into memory. `file` is its path. `Err`: the file cannot be read, or memory ran out.
pub fn read_file<R: Files + AllocGlobal>(rt: &R, file: &str) -> io::Result<Vec<u8>> {
    let mut opened = fs::open(rt, file)?;
    let mut bytes = Vec::new(rt.alloc());
    io::Read::read_to_end(&mut opened, &mut bytes)?;
    Ok(bytes)
}

/// Reads a payload list from a file, and returns its set. `file` is its path. `Ok(None)`: the file is not a payload list, or has over 16,777,215
/// different VRPs. `Err`: the file cannot be read, or memory ran out.
pub fn read_set<R: Files + AllocGlobal>(
    rt: &R,
    file: &str,
) -> Result<Option<VrpSet>, ProgramFault> {
    let text = read_file(rt, file)?;
    match read_list(rt.alloc(), text.as_slice()) {
        Ok(set) => Ok(Some(set)),
        Err(ListFault::NoList) => Ok(None),
        Err(ListFault::Memory) => Err(ProgramFault::Memory),
    }
}
