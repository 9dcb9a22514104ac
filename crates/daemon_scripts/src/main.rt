//! Plays scripts of daemons, of their status pages and of their logs, and prints the result of each, so that the gate compares it with what is
//! expected. The scripts are on standard input. An empty line parts them, and a part that begins with `#` is a remark. The first line of a
//! script is its kind, a colon and its name. Each further line is a step. Then come the lines of the log, each of which begins with `> `.
//!
//! - `daemon SETTINGS: NAME`: a daemon that polls files and serves routers. Its settings are words with numbers, which `daemon.rt` lists.
//! - `run: NAME`: runs of a daemon from its command line.
//! - `endpoint: NAME`: an endpoint of status pages, its listener and its visitors.
//! - `connections: NAME`: the HTTP connections of an endpoint by their own functions.
//! - `version: NAME`: what is made of a version, and an endpoint that shows it.
//! - `log LEVEL: NAME`: the output of a log of this level, as text.
//!
//! The result follows the name: `passed`, or the first step that does not go as it says, and the log. Sockets, files, clocks and log are in
//! memory.
#![tactic(auto)]

mod connections;
mod daemon;
mod endpoint;
mod outputs;
mod runs;
mod sheets;
mod sinks;
mod stage;
mod status_source;
mod versions;
mod visitors;
mod wires;

use anyhow::Result;
use std::alloc::Global;
use std::hash::RandomState;
use std::io::{Read, Write};
use std::str;
use test_values::scripts::Words;

/// The result of a script: the first step that does not go as it says, which is empty if there is none, and the log.
#[derive(Drop)]
pub(crate) struct Played<'a> {
    pub(crate) wrong: &'a str,
    pub(crate) log: Vec<u8>,
}

fn main(rt: HostRuntime) -> Result<()> {
    let mut bytes = Vec::new(rt.alloc());
    rt.stdin().read_to_end(&mut bytes)?;
    let scripts = str::from_utf8(bytes.as_slice())?;
    print_each(
        rt.alloc(),
        RandomState::new(&rt)?,
        scripts.trim(),
        &mut rt.stdout(),
    )
}

/// Prints the result of each script.
fn print_each<W: Write>(
    alloc: Global,
    keys: RandomState,
    scripts: &str,
    out: &mut W,
) -> Result<()> {
    for script in scripts.split("\n\n") {
        if let Some((head, rest)) = script.split_once('\n') {
            if !head.starts_with('#') {
                let (steps, wanted) = parted(rest);
                print(head, &result_of(alloc, keys, head, steps), wanted, out)?;
            }
        }
    }
    Ok(())
}

/// The steps of a script, and the lines of its log, of which each but the first begins with `> `.
fn parted(script: &str) -> (&str, &str) {
    match script.split_once("\n> ") {
        Some(parts) => parts,
        None => (script, ""),
    }
}

/// Whether a log has these lines and no others.
fn is_log(log: &str, wanted: &str) -> bool {
    let mut lines = log.lines();
    if !wanted.is_empty() {
        for line in wanted.split("\n> ") {
            match lines.next() {
                Some(found) if found == line => {}
                _ => return false,
            }
        }
    }
    lines.next().is_none()
}

/// Prints the result of a script.
fn print<W: Write>(head: &str, played: &Played<'_>, wanted: &str, out: &mut W) -> Result<()> {
    let log = str::from_utf8(played.log.as_slice())?;
    out.write_all(head.as_bytes())?;
    if played.wrong.is_empty() && is_log(log, wanted) {
        return Ok(out.write_all(b": passed\n")?);
    }
    print_wrong(played.wrong, log, out)
}

/// Prints the first wrong step, and a log.
fn print_wrong<W: Write>(wrong: &str, log: &str, out: &mut W) -> Result<()> {
    let step = if wrong.is_empty() { "its log" } else { wrong };
    out.write_all(b": FAILED: ")?;
    out.write_all(step.as_bytes())?;
    for line in log.lines() {
        out.write_all(b"\n> ")?;
        out.write_all(line.as_bytes())?;
    }
    Ok(out.write_all(b"\n")?)
}

/// The result of the steps of a script.
fn result_of<'a>(alloc: Global, keys: RandomState, head: &'a str, steps: &'a str) -> Played<'a> {
    let kind = match head.split_once(": ") {
        Some((kind, _name)) => kind,
        None => "",
    };
    let mut words = Words { rest: kind };
    match words.next() {
        "daemon" => daemon::result_of(alloc, &mut words, steps),
        "version" => versions::result_of(alloc, keys, steps),
        word => Played {
            wrong: wrong_step(alloc, keys, word, words.rest, steps),
            log: Vec::new(alloc),
        },
    }
}

/// The first step that does not go as it says, of a script without a log, or an empty text.
fn wrong_step<'a>(
    alloc: Global,
    keys: RandomState,
    kind: &str,
    level: &str,
    steps: &'a str,
) -> &'a str {
    match kind {
        "run" => runs::wrong_step(alloc, steps),
        "endpoint" => endpoint::wrong_step(alloc, keys, steps),
        "connections" => connections::wrong_step(alloc, keys, steps),
        "log" => outputs::wrong_step(alloc, level, steps),
        _ => steps,
    }
}
