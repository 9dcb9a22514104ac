//! The commands that read payloads and lists.
ghost use Rattle.std.specs.Prelude.{◌≤◌, IfOk};

use crate::directories::{Directory, read_directories};
use crate::manifests::print_manifest;
use crate::offering::{offer_directory, tell_answer};
use crate::roas::print_roa;
use crate::routing::print_state;
use command_parts::{ProgramFault, read_file, read_route, read_set, refuse};
use der_lite::Moment;
use payload_lists::write_list;
use payloads::{PayloadFault, decode_manifest, decode_roa};
use points::Repository;
use std::alloc::Global;
use std::io::{BufWriter, Write};
use std::rt::Files;

/// The command `roa`: prints the entries of a ROA payload as `print_roa` does. `file` is the path of the payload. `Ok`: the exit status, 0, or 1
/// if the payload is refused. Then the line `refused NUMBER at OFFSET` is printed instead: its first fault and the byte offset. `Err`: the file
/// cannot be read, the output failed, or memory ran out.
pub fn roa<R: Files + AllocGlobal, O: Write>(
    rt: &R,
    file: &str,
    out: &mut O,
) -> Result<u8, ProgramFault>
    ensures { IfOk result (λ s. s ≤ 1) }
{
    let bytes = read_file(rt, file)?;
    match decode_roa(rt.alloc(), bytes.as_slice()) {
        Ok(roa) => {
            let mut lines = BufWriter::new(rt.alloc(), out)?;
            print_roa(&roa, &mut lines)?;
            lines.flush()?;
            Ok(0)
        }
        Err(fault) => refuse_payload(fault, out),
    }
}

/// The command `manifest`: prints a manifest payload as `print_manifest` does. `file` is the path of the payload. `Ok`: the exit status, 0, or 1
/// if the payload is refused. Then the line `refused NUMBER at OFFSET` is printed instead: its first fault and the byte offset. `Err`: the file
/// cannot be read, the output failed, or memory ran out.
pub fn manifest<R: Files + AllocGlobal, O: Write>(
    rt: &R,
    file: &str,
    out: &mut O,
) -> Result<u8, ProgramFault>
    ensures { IfOk result (λ s. s ≤ 1) }
{
    let bytes = read_file(rt, file)?;
    match decode_manifest(rt.alloc(), bytes.as_slice()) {
        Ok(manifest) => {
            let mut lines = BufWriter::new(rt.alloc(), out)?;
            print_manifest(&manifest, &mut lines)?;
            lines.flush()?;
            Ok(0)
        }
        Err(fault) => refuse_payload(fault, out),
    }
}

/// The command `payloads`: offers each directory, in the order given, to the point of its name, and prints the payloads valid at `now` as a
/// list. `now` is a time in UTC such as `20250101000000Z`. `names` are the paths of the directories. All files are read before anything is
/// printed. What became of each offer is printed to `err`, as `tell_answer` does.
///
/// `Ok`: the exit status, 0, or 1 if an offer is refused, and then the list is printed all the same. It is also 1 if `now` is not a time. Then
/// nothing is read, and only the line `refused word` is printed. `Err`: a file cannot be read, an output failed, or memory ran out.
pub fn payloads<R: Files + AllocGlobal + Clone + Drop, O: Write, E: Write>(
    rt: &R,
    now: &str,
    names: &[&str],
    out: &mut O,
    err: &mut E,
) -> Result<u8, ProgramFault>
    ensures { IfOk result (λ s. s ≤ 1) }
{
    let Some(now) = Moment::parse(now) else {
        return refuse("word", out);
    };
    let directories = read_directories(rt, names)?;
    let mut repository = Repository::new(rt.alloc());
    let refused = offer_all(
        rt.alloc(),
        &mut repository,
        directories.as_slice(),
        &now,
        err,
    )?;
    let vrps = repository.payloads(now)?;
    let text = write_list(rt.alloc(), vrps.as_slice())?;
    writeln!(out, "{text}")?;
    Ok(if refused { 1 } else { 0 })
}

/// Offers each directory to the point of its name, prints what became of it, and answers whether one
/// was refused.
fn offer_all<E: Write>(
    alloc: Global,
    repository: &mut Repository,
    directories: &[Directory<'_>],
    now: &Moment,
    err: &mut E,
) -> Result<bool, ProgramFault> {
    let mut refused = false;
    for directory in directories {
        let answer = offer_directory(alloc, repository, directory, now)?;
        tell_answer(directory.name(), &answer, err)?;
        refused = refused || answer.is_err();
    }
    Ok(refused)
}

/// Prints the first fault of a payload, with the status.
fn refuse_payload<O: Write>(fault: PayloadFault, out: &mut O) -> Result<u8, ProgramFault>
    ensures { IfOk result (λ s. s ≤ 1) }
{
    match fault {
        PayloadFault::At(fault) => {
            writeln!(out, "refused {} at {}", fault.kind.number(), fault.offset)?;
            Ok(1)
        }
        PayloadFault::Memory => Err(ProgramFault::Memory),
    }
}

/// The command `route`: prints the state of a route over a payload list as one line: `valid`, `invalid` or `not-found` (RFC 6811 section 2).
/// `vrps` is the path of the list. `prefix` and `origin` are as for `read_route`.
///
/// `Ok`: the exit status, 0, or 1 if an input is refused. Then the line `refused word` or `refused list` is printed to `out` instead: `word` if
/// the route does not parse, `list` if the file is not a payload list. `Err`: the file cannot be read, the output failed, or memory ran out.
pub fn route<R: Files + AllocGlobal, O: Write>(
    rt: &R,
    vrps: &str,
    prefix: &str,
    origin: &str,
    out: &mut O,
) -> Result<u8, ProgramFault>
    ensures { IfOk result (λ s. s ≤ 1) }
{
    let Some(route) = read_route(prefix, origin) else {
        return refuse("word", out);
    };
    let Some(set) = read_set(rt, vrps)? else {
        return refuse("list", out);
    };
    print_state(rt.alloc(), &set, &route, out)?;
    Ok(0)
}
