//! The commands that speak RTR.
ghost use Rattle.std.specs.Prelude.{◌≤◌, IfOk};

use crate::answering::{AnswerFault, Answered, answer_lines, cache_with};
use crate::streaming::{
    connected, dial, fetch_all, fetch_in_turns, listen, serve_all, tell_committed, tell_fetched,
};
use crate::unit_lines::{UnitsEnd, print_units};
use command_parts::{CacheName, ProgramFault, read_file, read_route, read_set, refuse, word_of};
use rtr_ends::{Cache, Fetched, StreamFault};
use rtr_pdu::Version;
use std::alloc::{AllocError, Global};
use std::io::{BufWriter, Write};
use std::net::Net;
use std::rt::Files;
use vrps::{VersionLog, VrpSet};

/// The command `units`: prints the PDUs at the beginning of a file as `print_units` does. `file` is its path.
/// `Ok`: the exit status, 0, or 1 if other bytes follow. Then the fault's number and its byte offset are printed.
/// `Err`: the file cannot be read, the output failed, or memory ran out.
pub fn units<R: Files + AllocGlobal, O: Write>(
    rt: &R,
    file: &str,
    out: &mut O,
) -> Result<u8, ProgramFault>
    ensures { IfOk result (λ s. s ≤ 1) }
{
    let bytes = read_file(rt, file)?;
    let mut lines = BufWriter::new(rt.alloc(), out)?;
    let end = print_units(bytes.as_slice(), &mut lines)?;
    let status = tell_end(end, &mut lines)?;
    lines.flush()?;
    Ok(status)
}

/// Prints what follows PDUs, with the status.
fn tell_end<O: Write>(end: UnitsEnd, out: &mut O) -> Result<u8, ProgramFault>
    ensures { IfOk result (λ s. s ≤ 1) }
{
    match end {
        UnitsEnd::Whole => Ok(0),
        UnitsEnd::Refused { number, offset } => {
            writeln!(out, "refused {number} at {offset}")?;
            Ok(1)
        }
    }
}

/// A cache that has published this set alone, under this name.
fn cache_of(alloc: Global, name: CacheName, set: VrpSet) -> Result<Cache<VersionLog>, AllocError> {
    cache_with(alloc, name.session, name.session0, name.serial, set)
}

/// The command `answer`: prints the replies of a cache to the bytes that `hex` gives, one PDU a line, in hexadecimal. `vrps` is the path of the
/// payload list that the cache has published under `name`. `Ok`: the exit status, 0, or 1 if the file is not a list, `hex` is not hexadecimal,
/// or its last PDU is incomplete. Then a line is printed: `refused list`, `refused hex`, or `refused 7 at OFFSET` after the replies. If the
/// cache has ended the connection, a last incomplete PDU is not refused. `Err`: the file cannot be read, the output failed, or memory ran out.
pub fn answer<R: Files + AllocGlobal, O: Write>(
    rt: &R,
    name: CacheName,
    vrps: &str,
    hex: &str,
    out: &mut O,
) -> Result<u8, ProgramFault>
    ensures { IfOk result (λ s. s ≤ 1) }
{
    let Some(set) = read_set(rt, vrps)? else {
        return refuse("list", out);
    };
    match answer_lines(
        rt.alloc(),
        name.session,
        name.session0,
        name.serial,
        set,
        hex,
    ) {
        Ok(answered) => tell_answers(&answered, out),
        Err(AnswerFault::BadHex) => refuse("hex", out),
        Err(AnswerFault::Memory) => Err(ProgramFault::Memory),
    }
}

/// The command `serve`: serves `connections` connections on `port` of 127.0.0.1, one after the other. Then it prints the word `served` and their
/// number. `vrps` is the path of the payload list that the cache has published under `name`. Failed connections count too. `Ok`: the exit
/// status, 0, or 1 if the file is not a list. Then the line `refused list` is printed, and nothing is served. `Err`: a connection, the listener,
/// the file or the output failed, or memory ran out. For connections, the first fault decides.
pub fn serve<R: Files + Net + AllocGlobal, O: Write>(
    rt: &R,
    port: u16,
    name: CacheName,
    vrps: &str,
    connections: u32,
    out: &mut O,
) -> Result<u8, ProgramFault>
    ensures { IfOk result (λ s. s ≤ 1) }
{
    let listener = listen(rt, port)?;
    let Some(set) = read_set(rt, vrps)? else {
        return refuse("list", out);
    };
    let mut cache = cache_of(rt.alloc(), name, set)?;
    let first = serve_all(&listener, &mut cache, connections)?;
    writeln!(out, "served {connections}")?;
    match first {
        None => Ok(0),
        Some(StreamFault::Memory) => Err(ProgramFault::Memory),
        Some(_) => Err(ProgramFault::Device),
    }
}

/// The command `fetch`: fetches all data from a cache on `port` of 127.0.0.1 in this protocol version, and prints it as `tell_fetched` does.
/// `Ok`: the exit status, 0, or 1 if no data was fetched, and then the reason is printed. It is also 1 if the router ran out of memory for the
/// data. `Err`: the connection or the output failed, or memory ran out otherwise.
pub fn fetch<R: Net + AllocGlobal, O: Write>(
    rt: &R,
    port: u16,
    version: Version,
    out: &mut O,
) -> Result<u8, ProgramFault>
    ensures { IfOk result (λ s. s ≤ 1) }
{
    let stream = dial(rt, port)?;
    let (router, fetched) = fetch_all(rt.alloc(), stream, version)?;
    tell_fetched(rt.alloc(), &router, fetched, out)
}

/// The command `loop`: a router fetches from a cache in this process, over a local TCP connection. Then the line of `tell_committed` and the
/// state of a route are printed. `vrps` is the path of the payload list that the cache has published under `name`. `words` are the route's
/// prefix and origin, as for `read_route`. `Ok`: the exit status, 0, or 1 if the route does not parse, the file is not a list, or the router
/// fetched no data. Then one line is printed: `refused word`, `refused list`, or the reason as `tell_fetched` prints it. Memory that runs out at
/// the router is such a reason. `Err`: the file, the connection or the output failed, or memory ran out otherwise.
pub fn both_ends<R: Files + Net + AllocGlobal, O: Write>(
    rt: &R,
    name: CacheName,
    vrps: &str,
    words: (&str, &str),
    out: &mut O,
) -> Result<u8, ProgramFault>
    ensures { IfOk result (λ s. s ≤ 1) }
{
    let Some(route) = read_route(words.0, words.1) else {
        return refuse("word", out);
    };
    let (near, far) = connected(rt)?;
    let Some(set) = read_set(rt, vrps)? else {
        return refuse("list", out);
    };
    let mut cache = cache_of(rt.alloc(), name, set)?;
    let (router, fetched) = fetch_in_turns(rt.alloc(), &mut cache, near, far)?;
    if fetched != Fetched::Committed {
        return tell_fetched(rt.alloc(), &router, fetched, out);
    }
    tell_committed(&router, out)?;
    writeln!(out, "{}", word_of(router.route_state(&route)))?;
    Ok(0)
}

/// Prints the answers of a cache, and the place of a remaining beginning of a PDU, with the status.
fn tell_answers<O: Write>(answered: &Answered, out: &mut O) -> Result<u8, ProgramFault>
    ensures { IfOk result (λ s. s ≤ 1) }
{
    out.write_all(answered.lines.as_bytes())?;
    match answered.left {
        None => Ok(0),
        Some(offset) => {
            writeln!(out, "refused 7 at {offset}")?;
            Ok(1)
        }
    }
}
