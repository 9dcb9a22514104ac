//! The results of the cases in a file. `tests/file_rows.py` has rows, and `tests/exports.py` makes cases at random, and compares this with what
//! it reads itself.
use exports::{ExportCounted, ExportFault, fault_text, read_export_counted};
use payload_lists::write_list;
use std::alloc::Global;
use std::fmt::Write as _;
use std::io::Write;
use std::test::Fail;
use std::{fs, io, str};

/// The file, in the folder in which the tests run: on each line a moment, a blank, and a text in hexadecimal digits.
const CASES: &str = "exports.cases";

/// A second, or `-`.
fn second(alloc: Global, second: Option<u64>) -> Result<String, Fail> {
    match second {
        Some(second) => Ok(format!(in alloc; "{second}")?),
        None => Ok(format!(in alloc; "-")?),
    }
}

/// Seconds, each with a comma after it.
fn seconds(alloc: Global, seconds: &[u64]) -> Result<String, Fail> {
    let mut text = String::new(alloc);
    for second in seconds {
        write!(text, "{second},")?;
    }
    Ok(text)
}

/// What was read of an export.
fn listed(alloc: Global, read: &ExportCounted) -> Result<String, Fail> {
    let (export, ignored) = (&read.lasting.export, read.ignored);
    let list = write_list(alloc, export.set.as_slice())?;
    let lasts = seconds(alloc, read.lasting.lasts.as_slice())?;
    let built = second(alloc, export.built)?;
    let end = second(alloc, read.lasting.until)?;
    let (expired, aspas, keys) = (export.expired, ignored.aspas, ignored.router_keys);
    Ok(format!(in alloc; "{expired} {built} {end} {aspas} {keys} {list} [{lasts}]")?)
}

/// A fault by its number and its text, and in words.
fn refused(alloc: Global, text: &[u8], fault: ExportFault) -> Result<String, Fail> {
    let words = fault_text(alloc, text, fault)?;
    Ok(format!(in alloc; "fault {}: {fault} | {words}", fault.number())?)
}

/// The result of a text at a moment: how many entries have expired, when it was made, and until when it stays so. Then how many ASPAs and how
/// many router keys are not served, the payload list, and the last second of each record. Or the fault.
fn outcome(alloc: Global, now: u64, text: &[u8]) -> Result<String, Fail> {
    match read_export_counted(alloc, text, now) {
        Ok(read) => listed(alloc, &read),
        Err(fault) => refused(alloc, text, fault),
    }
}

/// The same of a moment and a text as they are in the file.
fn outcome_of(alloc: Global, now: &str, digits: &str) -> Result<String, Fail> {
    let text = hex::decode(alloc, digits)?;
    outcome(alloc, now.parse()?, text.as_slice())
}

/// Writes the result of each line.
fn print_each<W: Write>(alloc: Global, cases: &str, out: &mut W) -> Result<(), Fail> {
    for line in cases.lines() {
        if let Some((now, digits)) = line.split_once(' ') {
            out.write_all(outcome_of(alloc, now, digits)?.as_bytes())?;
            out.write_all(b"\n")?;
        }
    }
    Ok(())
}

#[test]
fn outcomes(rt: HostRuntime) -> Result<(), Fail> {
    // (the gate itself has no such file)
    let Ok(mut file) = fs::open(&rt, CASES) else {
        return Ok(());
    };
    let mut bytes = Vec::new(rt.alloc());
    io::Read::read_to_end(&mut file, &mut bytes)?;
    let mut out = rt.stdout();
    print_each(rt.alloc(), str::from_utf8(bytes.as_slice())?, &mut out)
}
