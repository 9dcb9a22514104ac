//! The files that are read and written.
ghost use Rattle.std.specs.Prelude.{◌≤◌, length, IfOk, IfSome};

use crate::fault::ProgramFault;
use crate::names::write_escaped;
use crate::words::Words;
use signed_objects::OwnedObject;
use std::alloc::Global;
use std::fs;
use std::io::{self, ErrorKind, Input, Read, Write};
use std::path::PathBuf;
use std::rt::Files;

/// The name of standard input.
const STANDARD_INPUT: &str = "-";

/// How many bytes a file may have.
const LIMIT: usize = 20_000_000;

/// All bytes of a reader, or `None` if it has too many.
fn read_limited<R: Read + Drop>(alloc: Global, reader: R) -> io::Result<Option<Vec<u8>>>
    ensures { IfOk result (λ found. IfSome found (λ bytes. length bytes.items ≤ 20000000)) }
{
    let mut bytes = Vec::new(alloc);
    let mut limited = reader.take(LIMIT as u64 + 1);
    limited.read_to_end(&mut bytes)?;
    if bytes.len() > LIMIT {
        return Ok(None);
    }
    Ok(Some(bytes))
}

/// The bytes of a file, or of standard input if its name is `-`; `None` if it has too many.
pub(crate) fn read_input<R: Files + Input + AllocGlobal>(
    rt: &R,
    file: &str,
) -> io::Result<Option<Vec<u8>>>
    ensures { IfOk result (λ found. IfSome found (λ bytes. length bytes.items ≤ 20000000)) }
{
    if file == STANDARD_INPUT {
        read_limited(rt.alloc(), rt.reader())
    } else {
        read_limited(rt.alloc(), fs::open(rt, file)?)
    }
}

/// Why a file was not read or written.
pub(crate) fn reason_of(kind: ErrorKind) -> &'static str {
    match kind {
        ErrorKind::NotFound => "no such file or directory",
        ErrorKind::PermissionDenied => "permission denied",
        ErrorKind::IsADirectory => "is a directory",
        ErrorKind::NotADirectory => "a part of its path is not a directory",
        ErrorKind::FilesystemLoop => "too many symbolic links",
        ErrorKind::InvalidFilename | ErrorKind::InvalidInput => "not a file name",
        ErrorKind::StorageFull | ErrorKind::QuotaExceeded => "no space",
        ErrorKind::ReadOnlyFilesystem => "the file system is read only",
        _ => "input or output failed",
    }
}

/// The full name of a file, without links, if there is such a file.
fn full_name<R: Files + AllocGlobal>(rt: &R, name: &str) -> io::Result<Option<PathBuf>> {
    match fs::canonicalize(rt, name) {
        Ok(path) => Ok(Some(path)),
        Err(error) if error.kind() == ErrorKind::OutOfMemory => Err(error),
        Err(_) => Ok(None),
    }
}

/// Writes on standard error why a file was not read or written. If that fails too, nothing more can be reported.
pub(crate) fn tell_file<E: Write>(name: &str, kind: ErrorKind, err: &mut E) {
    let _ = tell_reason(name, reason_of(kind), err);
}

fn tell_reason<E: Write>(name: &str, reason: &str, err: &mut E) -> io::Result<()> {
    write!(err, "rpkiobject: ")?;
    write_escaped(err, name)?;
    writeln!(err, ": {reason}")
}

/// Whether two names are those of one file.
fn is_same_file<R: Files + AllocGlobal>(rt: &R, one: &str, other: &str) -> io::Result<bool> {
    match (full_name(rt, one)?, full_name(rt, other)?) {
        (Some(one), Some(other)) => Ok(one.as_str() == other.as_str()),
        _ => Ok(one == other),
    }
}

/// Whether a name is that of one of these files.
fn is_among<R: Files + AllocGlobal>(rt: &R, name: &str, files: &[&str]) -> io::Result<bool> {
    for &file in files {
        if is_same_file(rt, name, file)? {
            return Ok(true);
        }
    }
    Ok(false)
}

/// Removes a file that was there before, if there is one. Of a link to a file the file is emptied, and no device is touched.
fn remove_old<R: Files>(rt: &R, name: &str) -> io::Result<()> {
    match fs::symlink_metadata(rt, name) {
        Ok(found) if found.is_file() => fs::remove_file(rt, name),
        Ok(found) if found.is_symlink() && is_regular(rt, name) => fs::write(rt, name, ""),
        Ok(_) => Ok(()),
        Err(error) if error.kind() == ErrorKind::NotFound => Ok(()),
        Err(error) => Err(error),
    }
}

/// Whether a name leads to a regular file.
fn is_regular<R: Files>(rt: &R, name: &str) -> bool {
    match fs::metadata(rt, name) {
        Ok(found) => found.is_file(),
        Err(_) => false,
    }
}

/// Reports that a file could not be written.
fn not_written<E: Write>(name: &str, error: io::Error, err: &mut E) -> ProgramFault {
    if error.kind() == ErrorKind::OutOfMemory {
        return ProgramFault::Memory;
    }
    tell_file(name, error.kind(), err);
    ProgramFault::Output
}

/// Removes an old output, which is none of these files.
fn prepare_output<R: Files + AllocGlobal, E: Write>(
    rt: &R,
    name: Option<&str>,
    files: &[&str],
    err: &mut E,
) -> Result<(), ProgramFault> {
    let Some(name) = name else {
        return Ok(());
    };
    if is_among(rt, name, files)? {
        return Err(ProgramFault::SameFile);
    }
    remove_old(rt, name).map_err(|error| not_written(name, error, err))
}

/// Removes old outputs, so that none looks like a new one. No output is a file that is read, or the other output.
pub(crate) fn prepare_outputs<R: Files + AllocGlobal, E: Write>(
    rt: &R,
    words: &Words<'_>,
    err: &mut E,
) -> Result<(), ProgramFault> {
    if let (Some(content), Some(certificate)) = (words.content, words.certificate) {
        if is_same_file(rt, content, certificate)? {
            return Err(ProgramFault::SameFile);
        }
    }
    prepare_output(rt, words.content, &words.files, err)?;
    prepare_output(rt, words.certificate, &words.files, err)
}

/// Writes an output, if it is named. If that fails, what was written of it is removed.
fn write_output<R: Files, E: Write>(
    rt: &R,
    name: Option<&str>,
    bytes: &[u8],
    err: &mut E,
) -> Result<(), ProgramFault> {
    let Some(name) = name else {
        return Ok(());
    };
    match fs::write(rt, name, bytes) {
        Ok(()) => Ok(()),
        Err(error) => {
            let _ = remove_old(rt, name);
            Err(not_written(name, error, err))
        }
    }
}

/// Writes the parts of an object that are asked for.
pub(crate) fn write_outputs<R: Files, E: Write>(
    rt: &R,
    words: &Words<'_>,
    object: &OwnedObject,
    err: &mut E,
) -> Result<(), ProgramFault> {
    write_output(rt, words.content, &object.content, err)?;
    write_output(rt, words.certificate, &object.certificate, err)
}
