//! Plays scripts of caches and routers, and prints the result of each, so that the gate compares it with what is expected. The scripts are on
//! standard input. An empty line parts them, and a part that begins with `#` is a remark. The first line of a script is its kind, a colon and
//! its name. Each further line is a step.
//!
//! - `router: NAME`: a router of version 1. `router both: NAME`: a router of each version.
//! - `router cut FROM TO: NAME`, `router both cut FROM TO: NAME`: the same, once for each of these numbers, which is the cut of its steps.
//! - `cells: NAME`: rows of the protocol's table, which `cells.rt` explains.
//! - `cache SESSION SERIAL: NAME`: a cache of this session, whose first version has this serial. `cache SESSION SERIAL both: NAME`: one of both
//!   versions, which has session 0x0777 in version 0. It is played over each store of versions, with pieces of one byte, of seven and of 64.
//! - `many: NAME`: a cache sends as many records as a step says.
//!
//! Behind the name is `passed`, or the first step that does not go as it says. `router.rt` and `cache.rt` list the steps.
#![tactic(auto)]

mod cache;
mod cells;
mod many;
mod router;

use anyhow::Result;
use std::alloc::Global;
use std::io::{Read, Write};
use std::str;
use test_values::scripts::Words;

fn main(rt: HostRuntime) -> Result<()> {
    let mut bytes = Vec::new(rt.alloc());
    rt.stdin().read_to_end(&mut bytes)?;
    print_each(
        rt.alloc(),
        str::from_utf8(bytes.as_slice())?,
        &mut rt.stdout(),
    )
}

/// Prints the result of each script.
fn print_each<W: Write>(alloc: Global, scripts: &str, out: &mut W) -> Result<()> {
    for script in scripts.split("\n\n") {
        if let Some((head, steps)) = script.split_once('\n') {
            if !head.starts_with('#') {
                print(head, wrong_step(alloc, head, steps), out)?;
            }
        }
    }
    Ok(())
}

/// Prints a line for a script.
fn print<W: Write>(head: &str, wrong: &str, out: &mut W) -> Result<()> {
    out.write_all(head.as_bytes())?;
    out.write_all(if wrong.is_empty() {
        b": passed"
    } else {
        b": FAILED: "
    })?;
    out.write_all(wrong.as_bytes())?;
    Ok(out.write_all(b"\n")?)
}

/// The first step of a script that does not go as it says, or an empty text.
fn wrong_step<'a>(alloc: Global, head: &'a str, steps: &'a str) -> &'a str {
    let Some((kind, _name)) = head.split_once(": ") else {
        return head;
    };
    let mut words = Words { rest: kind };
    match words.next() {
        "router" => router::wrong_step(alloc, &mut words, steps),
        "cells" => cells::wrong_row(alloc, steps),
        "cache" => cache::wrong_step(alloc, &mut words, steps),
        "many" => many::wrong_step(alloc, steps),
        _ => head,
    }
}
