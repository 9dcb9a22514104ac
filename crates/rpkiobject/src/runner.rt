//! Runs the program for a command line.
ghost use Rattle.std.specs.Prelude.{◌≡◌, ◌≤◌, IfOk};

use crate::fault::ProgramFault;
use crate::files::{prepare_outputs, read_input, reason_of, tell_file, write_outputs};
use crate::help::{HELP, VERSION};
use crate::json::{write_report, write_unread};
use crate::judging::{Report, judge};
use crate::printing::print_report;
use crate::words::{Request, Words, read_words};
use std::io::{self, BufWriter, ErrorKind, Input, Write};
use std::rt::Files;

/// The status of a file that is accepted.
const ACCEPTED: u8 = 0;

/// The status of a file that is refused.
const REFUSED: u8 = 1;

/// The status of a file that could not be read.
const UNREAD: u8 = 3;

/// Writes to standard error that the command line does not parse, and returns exit status 2. A failed write is ignored.
pub fn bad_words<E: Write>(err: &mut E) -> u8
    ensures { result ≡ 2 }
{
    tell(ProgramFault::Words, err);
    2
}

/// Writes to standard error that memory ran out, and returns exit status 4. A failed write is ignored.
pub fn out_of_memory<E: Write>(err: &mut E) -> u8
    ensures { result ≡ 4 }
{
    tell(ProgramFault::Memory, err);
    4
}

/// Writes the fault's line on standard error. If that fails too, nothing more can be reported.
fn tell<E: Write>(fault: ProgramFault, err: &mut E) {
    let _ = writeln!(err, "{fault}");
}

/// Runs the program for these command-line arguments, without the program name, and returns its exit status. What is found goes to `out`, the
/// reasons of failures go to `err`. A file over 20,000,000 bytes is refused. A file that fails does not stop the others.
/// The status is the greatest over the files: 0 accepted, 1 refused, 3 unreadable. It is 0 for help and version.
/// 2: the arguments do not parse, or an output file is also an input or the other output. 3: an output failed. 4: memory ran out.
pub fn run_words<R: Files + Input + AllocGlobal, O: Write, E: Write>(
    rt: &R,
    words: &[String],
    out: &mut O,
    err: &mut E,
) -> u8
    ensures { result ≤ 4 }
{
    let ran = run(rt, words, out, err);
    status_of(ran, err)
}

/// The status of what was done. A fault is reported.
fn status_of<E: Write>(ran: Result<u8, ProgramFault>, err: &mut E) -> u8
    requires { IfOk ran (λ status. status ≤ 3) }
    ensures { result ≤ 4 }
{
    match ran {
        Ok(status) => status,
        Err(ProgramFault::Words) => bad_words(err),
        Err(ProgramFault::Memory) => out_of_memory(err),
        Err(ProgramFault::SameFile) => {
            tell(ProgramFault::SameFile, err);
            2
        }
        Err(fault) => {
            tell(fault, err);
            UNREAD
        }
    }
}

/// Does what the words ask for, with the status.
fn run<R: Files + Input + AllocGlobal, O: Write, E: Write>(
    rt: &R,
    words: &[String],
    out: &mut O,
    err: &mut E,
) -> Result<u8, ProgramFault>
    ensures { IfOk result (λ status. status ≤ 3) }
{
    match read_words(rt.alloc(), words)? {
        Request::Help => print_text(HELP, out),
        Request::Version => print_text(VERSION, out),
        Request::Judge(words) => {
            prepare_outputs(rt, &words, err)?;
            run_files(rt, &words, out, err)
        }
    }
}

/// Prints a text.
fn print_text<O: Write>(text: &str, out: &mut O) -> Result<u8, ProgramFault>
    ensures { IfOk result (λ status. status ≡ 0) }
{
    out.write_all(text.as_bytes())?;
    Ok(ACCEPTED)
}

/// Prints each file, with the greatest of their statuses.
fn run_files<R: Files + Input + AllocGlobal, O: Write, E: Write>(
    rt: &R,
    words: &Words<'_>,
    out: &mut O,
    err: &mut E,
) -> Result<u8, ProgramFault>
    ensures { IfOk result (λ status. status ≤ 3) }
{
    let mut lines = BufWriter::new(rt.alloc(), out)?;
    let mut status = ACCEPTED;
    for &file in &words.files {
        let own = run_file(rt, file, words, &mut lines, err)?;
        if own > status {
            status = own;
        }
        lines.flush()?;
    }
    Ok(status)
}

/// Prints a file, with its status.
fn run_file<R: Files + Input + AllocGlobal, W: Write, E: Write>(
    rt: &R,
    file: &str,
    words: &Words<'_>,
    out: &mut W,
    err: &mut E,
) -> Result<u8, ProgramFault>
    ensures { IfOk result (λ status. status ≤ 3) }
{
    let report = match read_input(rt, file) {
        Ok(Some(bytes)) => judge(rt.alloc(), words.wanted(file), words.is_strict, &bytes)?,
        Ok(None) => Report::TooLong,
        Err(error) => return pass_over(file, error.kind(), words, out, err),
    };
    let status = match report.accepted() {
        Some(object) => {
            write_outputs(rt, words, object, err)?;
            ACCEPTED
        }
        None => REFUSED,
    };
    print(file, status, &report, words, out)?;
    Ok(status)
}

/// Prints what a file was found to be.
fn print<W: Write>(
    file: &str,
    status: u8,
    report: &Report,
    words: &Words<'_>,
    out: &mut W,
) -> io::Result<()> {
    if words.is_json {
        write_report(file, status, report, out)
    } else {
        print_report(file, report, out)
    }
}

/// Names a file that could not be read, with the reason. The others are still judged.
fn pass_over<W: Write, E: Write>(
    file: &str,
    kind: ErrorKind,
    words: &Words<'_>,
    out: &mut W,
    err: &mut E,
) -> Result<u8, ProgramFault>
    ensures { IfOk result (λ status. status ≤ 3) }
{
    if kind == ErrorKind::OutOfMemory {
        return Err(ProgramFault::Memory);
    }
    if words.is_json {
        write_unread(file, UNREAD, reason_of(kind), out)?;
    }
    tell_file(file, kind, err);
    Ok(UNREAD)
}
