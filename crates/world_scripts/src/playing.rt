//! Scripts of a world, played.
ghost use Rattle.std.specs.Prelude.{◌≤◌, ◌<◌, IfOk, IfSome, IsSome, length};

use crate::scripts::{Beginning, Line, read_beginning, read_line};
use command_parts::{ProgramFault, word_of};
use prefixes::Route;
use rtr_pdu::Version;
use rtr_world::{CatchFault, World, WorldFault};
use std::alloc::Global;
use std::io::Write;
use std::str;

/// The lines of a script that are still to be read. The last one may lack its newline.
#[derive(Drop)]
struct Lines<'a> {
    rest: &'a [u8],
}

impl<'a> Lines<'a> {
    fn next(&mut self) -> Option<&'a [u8]>
        ensures { IsSome result → length self.new.rest.now < length self.old.rest.now }
    {
        if self.rest.is_empty() {
            return None;
        }
        match self.rest.iter().position(|byte| *byte == b'\n') {
            None => {
                let line = self.rest;
                self.rest = &[];
                Some(line)
            }
            Some(end) => {
                let line = &self.rest[..end];
                self.rest = &self.rest[end + 1..];
                Some(line)
            }
        }
    }
}

/// Runs a script on a new world, and prints what it shows and which events are refused. Returns the exit status. 0: the script was run to its
/// end. 1: a line does not parse. The line `line NUMBER unreadable` is printed, and nothing after it is run. An empty script has an unreadable
/// line 1. If memory runs out in an event or in catching up, that is printed, and the next line is run. `Err`: the output failed, or memory ran
/// out for the world or for a line.
pub fn play<O: Write>(alloc: Global, script: &[u8], out: &mut O) -> Result<u8, ProgramFault>
    ensures { IfOk result (λ s. s ≤ 1) }
{
    let mut lines = Lines { rest: script };
    let Some(beginning) = first_line(&mut lines) else {
        return unreadable(1, out);
    };
    let mut world = World::new(
        alloc,
        beginning.routers,
        beginning.session,
        beginning.session0,
        beginning.start,
        beginning.keep,
    )?;
    let mut number = 1u64;
    while let Some(line) = lines.next() {
        number = number.saturating_add(1);
        if !play_line(alloc, &mut world, number, line, out)? {
            return unreadable(number, out);
        }
    }
    Ok(0)
}

/// With what the world of a script begins.
fn first_line(lines: &mut Lines<'_>) -> Option<Beginning>
    ensures some { IfSome result (λ beginning. 1 ≤ beginning.keep) }
    ensures limit { IfSome result (λ beginning. beginning.keep ≤ 65536) }
{
    let line = str::from_utf8(lines.next()?).ok()?;
    read_beginning(line)
}

/// Reports that a line cannot be read, with the status.
fn unreadable<O: Write>(number: u64, out: &mut O) -> Result<u8, ProgramFault>
    ensures { IfOk result (λ s. s ≤ 1) }
{
    writeln!(out, "line {number} unreadable")?;
    Ok(1)
}

/// Plays a line, and returns whether it could be read.
fn play_line<O: Write>(
    alloc: Global,
    world: &mut World,
    number: u64,
    line: &[u8],
    out: &mut O,
) -> Result<bool, ProgramFault> {
    let Ok(line) = str::from_utf8(line) else {
        return Ok(false);
    };
    match read_line(alloc, line)? {
        None => return Ok(false),
        Some(Line::Event(event)) => {
            if let Err(fault) = world.step(&event) {
                tell_refused(number, fault, out)?;
            }
        }
        Some(Line::CatchUp { router }) => catch_up(world, router, out)?,
        Some(Line::Show { router }) => show(world, number, router, out)?,
        Some(Line::Route { router, route }) => show_state(world, number, router, &route, out)?,
    }
    Ok(true)
}

/// Catches a router up, and prints what became of it.
fn catch_up<O: Write>(world: &mut World, router: u16, out: &mut O) -> Result<(), ProgramFault> {
    let end = match world.catch_up(router) {
        Ok(()) => "caught-up",
        Err(CatchFault::Memory) => "memory",
        Err(CatchFault::NoData) => "no-data",
        Err(CatchFault::NoSuchRouter) => "no-such-router",
    };
    writeln!(out, "{router} {end}")?;
    Ok(())
}

fn tell_refused<O: Write>(number: u64, fault: WorldFault, out: &mut O) -> Result<(), ProgramFault> {
    writeln!(out, "line {number} refused {}", fault.number())?;
    Ok(())
}

/// Prints what a router has committed: `v0` if the protocol version is 0, the session, the serial and the size of its table. If nothing is
/// committed, it prints `empty`. If there is no such router, the line `number` is refused.
fn show<O: Write>(
    world: &World,
    number: u64,
    router: u16,
    out: &mut O,
) -> Result<(), ProgramFault> {
    let Some(table) = world.table(router) else {
        return tell_refused(number, WorldFault::NoSuchRouter, out);
    };
    match world.committed(router) {
        None => writeln!(out, "{router} empty")?,
        Some((version, session, serial)) => {
            let mark = match version {
                Version::V0 => "v0 ",
                Version::V1 => "",
            };
            writeln!(out, "{router} {mark}{session} {} {}", serial.0, table.len())?;
        }
    }
    Ok(())
}

/// Shows the state of a route at a router.
fn show_state<O: Write>(
    world: &World,
    number: u64,
    router: u16,
    route: &Route,
    out: &mut O,
) -> Result<(), ProgramFault> {
    match world.route_state(router, route) {
        None => tell_refused(number, WorldFault::NoSuchRouter, out),
        Some(state) => {
            writeln!(out, "{}", word_of(state))?;
            Ok(())
        }
    }
}
