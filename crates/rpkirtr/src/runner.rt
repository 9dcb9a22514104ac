//! Runs the program for a command line.
ghost use Rattle.std.specs.Prelude.{◌≡◌, ◌≤◌, IfOk};

use command_parts::ProgramFault;
use payload_commands::{manifest, payloads, roa, route};
use rpkirtr_cli::{Command, read_words};
use rtr_commands::{answer, both_ends, fetch, serve, units};
use std::io::Write;
use std::net::Net;
use std::rt::Files;
use world_scripts::world;

/// Writes to standard error that the command line does not parse, and returns exit status 2. A failed write is ignored.
pub fn bad_words<E: Write>(err: &mut E) -> u8
    ensures { result ≡ 2 }
{
    tell(ProgramFault::Words, err);
    2
}

/// Writes to standard error that memory ran out, and returns exit status 4. A failed write is ignored.
pub fn out_of_memory<E: Write>(err: &mut E) -> u8
    ensures { result ≡ 4 }
{
    tell(ProgramFault::Memory, err);
    4
}

/// Writes the fault's line on standard error. If that fails too, nothing more can be reported.
fn tell<E: Write>(fault: ProgramFault, err: &mut E) {
    let _ = writeln!(err, "{fault}");
}

/// Runs the program for these command-line arguments, without the program name, and returns its exit status. 0: done. 1: an input is refused, or
/// a router fetched no data. 2: the arguments do not parse. 3: a file, a socket or an output failed. 4: memory ran out.
pub fn run_words<R: Files + Net + AllocGlobal + Clone + Drop, O: Write, E: Write>(
    rt: &R,
    words: &[String],
    out: &mut O,
    err: &mut E,
) -> u8
    ensures { result ≤ 4 }
{
    let ran = run(rt, words, out, err);
    status_of(ran, err)
}

/// The status of what was done. A fault is reported.
fn status_of<E: Write>(ran: Result<u8, ProgramFault>, err: &mut E) -> u8
    requires { IfOk ran (λ s. s ≤ 1) }
    ensures { result ≤ 4 }
{
    match ran {
        Ok(status) => status,
        Err(ProgramFault::Words) => bad_words(err),
        Err(ProgramFault::Memory) => out_of_memory(err),
        Err(ProgramFault::Device) => {
            tell(ProgramFault::Device, err);
            3
        }
    }
}

/// Does what the words ask for, with the status.
fn run<R: Files + Net + AllocGlobal + Clone + Drop, O: Write, E: Write>(
    rt: &R,
    words: &[String],
    out: &mut O,
    err: &mut E,
) -> Result<u8, ProgramFault>
    ensures { IfOk result (λ s. s ≤ 1) }
{
    match read_words(rt.alloc(), words)? {
        Command::Roa { file } => roa(rt, file, out),
        Command::Manifest { file } => manifest(rt, file, out),
        Command::Payloads { now, directories } => {
            payloads(rt, now, directories.as_slice(), out, err)
        }
        Command::Units { file } => units(rt, file, out),
        Command::Answer { name, vrps, hex } => answer(rt, name, vrps, hex, out),
        Command::Route {
            vrps,
            prefix,
            origin,
        } => route(rt, vrps, prefix, origin, out),
        Command::Serve {
            port,
            name,
            vrps,
            connections,
        } => serve(rt, port, name, vrps, connections, out),
        Command::Fetch { port, version } => fetch(rt, port, version, out),
        Command::Loop {
            name,
            vrps,
            prefix,
            origin,
        } => both_ends(rt, name, vrps, (prefix, origin), out),
        Command::World { file } => world(rt, file, out),
    }
}
