//! The results of the cases in a file. `tests/file_rows.py` has rows, and `tests/exceptions.py` makes cases at random, and compares this with
//! what it works out itself.
use payload_lists::{read_list, write_list};
use slurm::{ScopedSlurm, Slurm, SlurmFault, apply, fault_text, read_slurm_scoped, unite};
use std::alloc::{AllocError, Global};
use std::io::Write;
use std::test::Fail;
use std::{fs, io, str};

/// The file, in the folder in which the tests run. Each line has one SLURM file, or two with a comma between them, and a payload list, all in
/// hexadecimal digits.
const CASES: &str = "exceptions.cases";

/// The payload list that results from a list with these exceptions.
fn left(alloc: Global, slurm: &Slurm, list: &[u8]) -> Result<String, Fail> {
    let left = apply(slurm, alloc, &read_list(alloc, list)?)?;
    Ok(write_list(alloc, left.as_slice())?)
}

/// How many filters and how many assertions of a file are not applied, and the payload list that results from a list with the others.
fn applied(alloc: Global, scoped: &ScopedSlurm, list: &[u8]) -> Result<String, Fail> {
    let left = left(alloc, &scoped.slurm, list)?;
    let ignored = scoped.ignored();
    let (filters, assertions) = (ignored.bgpsec_filters, ignored.bgpsec_assertions);
    Ok(format!(in alloc; "{filters} {assertions} {left}")?)
}

/// A fault by its number and its text, and in words.
fn refused(alloc: Global, file: &[u8], fault: SlurmFault) -> Result<String, Fail> {
    let words = fault_text(alloc, file, fault)?;
    Ok(format!(in alloc; "fault {}: {fault} | {words}", fault.number())?)
}

/// The result of one file on a list, or the fault of the file.
fn outcome(alloc: Global, file: &[u8], list: &[u8]) -> Result<String, Fail> {
    match read_slurm_scoped(alloc, file) {
        Ok(scoped) => applied(alloc, &scoped, list),
        Err(fault) => refused(alloc, file, fault),
    }
}

/// Reads a file in hexadecimal digits.
fn scoped_of(alloc: Global, digits: &str) -> Result<ScopedSlurm, Fail> {
    let file = hex::decode(alloc, digits)?;
    Ok(read_slurm_scoped(alloc, file.as_slice())?)
}

fn pair(
    alloc: Global,
    one: ScopedSlurm,
    other: ScopedSlurm,
) -> Result<Vec<ScopedSlurm>, AllocError> {
    let mut files = Vec::new(alloc);
    files.push(one)?;
    files.push(other)?;
    Ok(files)
}

/// The result of two files on a list, or that they overlap.
fn both(alloc: Global, files: &[ScopedSlurm], list: &[u8]) -> Result<String, Fail> {
    match unite(alloc, files) {
        Ok(slurm) => {
            let left = left(alloc, &slurm, list)?;
            Ok(format!(in alloc; "united {left}")?)
        }
        Err(fault) => Ok(format!(in alloc; "overlap: {fault}")?),
    }
}

/// The result of one or two files and a list as they are in the file.
fn outcome_of(alloc: Global, files: &str, list: &str) -> Result<String, Fail> {
    let list = hex::decode(alloc, list)?;
    match files.split_once(',') {
        Some((one, other)) => {
            let files = pair(alloc, scoped_of(alloc, one)?, scoped_of(alloc, other)?)?;
            both(alloc, files.as_slice(), list.as_slice())
        }
        None => {
            let file = hex::decode(alloc, files)?;
            outcome(alloc, file.as_slice(), list.as_slice())
        }
    }
}

/// Writes the result of each line.
fn print_each<W: Write>(alloc: Global, cases: &str, out: &mut W) -> Result<(), Fail> {
    for line in cases.lines() {
        if let Some((files, list)) = line.split_once(' ') {
            out.write_all(outcome_of(alloc, files, list)?.as_bytes())?;
            out.write_all(b"\n")?;
        }
    }
    Ok(())
}

#[test]
fn outcomes(rt: HostRuntime) -> Result<(), Fail> {
    // (the gate itself has no such file)
    let Ok(mut file) = fs::open(&rt, CASES) else {
        return Ok(());
    };
    let mut bytes = Vec::new(rt.alloc());
    io::Read::read_to_end(&mut file, &mut bytes)?;
    let mut out = rt.stdout();
    print_each(rt.alloc(), str::from_utf8(bytes.as_slice())?, &mut out)
}
