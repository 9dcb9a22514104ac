//! Reads a list of VRPs again and again, so that a script measures how long that takes. The list is on standard input. The arguments are its form
//! and how often it is read:
//!
//! - `ccr N`: a canonical cache representation;
//! - `ccr-set N`: the same, and then the set of its VRPs is made;
//! - `export N`: an export in JSON, which is read as a set.
//!
//! It prints how many VRPs were read each time.
#![tactic(auto)]

use anyhow::{Result, bail};
use ccr::read_ccr;
use exports::read_export;
use std::alloc::Global;
use std::env;
use std::io::{Read, Write};
use vrps::VrpSet;

fn main(rt: HostRuntime) -> Result<()> {
    let words: Vec<String> = env::args(&rt)?.skip(1).collect(rt.alloc())?;
    let [form, times] = words.as_slice() else {
        bail!("usage: list_times ccr|ccr-set|export N");
    };
    let mut bytes = Vec::new(rt.alloc());
    rt.stdin().read_to_end(&mut bytes)?;
    let times: u32 = times.parse()?;
    for _ in 0..times {
        let count = count(rt.alloc(), form.as_str(), bytes.as_slice())?;
        println!(rt; "{count}")?;
    }
    Ok(())
}

/// How many VRPs are read of a list in this form.
fn count(alloc: Global, form: &str, bytes: &[u8]) -> Result<usize> {
    if form == "export" {
        return Ok(read_export(alloc, bytes, 0)?.set.len());
    }
    let Some(state) = read_ccr(alloc, bytes)?.vrps else {
        bail!("no VRPs are there");
    };
    if form == "ccr" {
        return Ok(state.vrps.len());
    }
    Ok(VrpSet::from_list(state.vrps)?.len())
}
