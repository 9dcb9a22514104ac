//! Reads canonical cache representations, and prints a line for each, so that scripts compare it with what others say. Each line on standard input
//! is a representation, in hexadecimal digits.
//!
//! The answer is what was read, or `fault NUMBER OFFSET`, or `no question`. What was read is when it was produced, and the hashes of manifests, VRPs,
//! ASPAs, trust anchors and router keys, or `-`. Then come the digest of the VRPs, and each VRP after a comma.
#![tactic(auto)]

use anyhow::Result;
use ccr::{Ccr, CcrFault, ReadCcrError, VrpState, read_ccr, vrps_digest};
use std::alloc::Global;
use std::io::{Read, Write};
use std::str;
use vrps::VrpSet;

fn main(rt: HostRuntime) -> Result<()> {
    let mut bytes = Vec::new(rt.alloc());
    rt.stdin().read_to_end(&mut bytes)?;
    for question in str::from_utf8(bytes.as_slice())?.lines() {
        let answer = answer(rt.alloc(), question)?;
        println!(rt; "{answer}")?;
    }
    Ok(())
}

/// What is said of a representation.
fn answer(alloc: Global, question: &str) -> Result<String> {
    let Ok(bytes) = hex::decode(alloc, question) else {
        return Ok(String::from_str(alloc, "no question")?);
    };
    match read_ccr(alloc, bytes.as_slice()) {
        Ok(ccr) => shown(alloc, ccr),
        Err(ReadCcrError::At(fault)) => told(alloc, fault),
        Err(ReadCcrError::Memory) => Ok(String::from_str(alloc, "out of memory")?),
    }
}

/// A fault, by its number and its offset.
fn told(alloc: Global, fault: CcrFault) -> Result<String> {
    Ok(format!(in alloc; "fault {} {}", fault.kind.number(), fault.offset)?)
}

/// What was read.
fn shown(alloc: Global, ccr: Ccr) -> Result<String> {
    let mut text = format!(in alloc; "{}", ccr.produced_at)?;
    add_hash(alloc, &mut text, ccr.manifests)?;
    add_hash(alloc, &mut text, ccr.vrps.as_ref().map(|state| state.hash))?;
    add_hash(alloc, &mut text, ccr.aspas)?;
    add_hash(alloc, &mut text, ccr.trust_anchors)?;
    add_hash(alloc, &mut text, ccr.router_keys)?;
    if let Some(state) = ccr.vrps {
        add_vrps(alloc, &mut text, state)?;
    }
    Ok(text)
}

/// Adds a hash, or `-`.
fn add_hash(alloc: Global, text: &mut String, hash: Option<[u8; 32]>) -> Result<()> {
    text.push(' ')?;
    match hash {
        Some(hash) => text.push_str(hex::encode(alloc, hash.as_slice())?.as_str())?,
        None => text.push('-')?,
    }
    Ok(())
}

/// Adds the digest of the VRPs, and the VRPs.
fn add_vrps(alloc: Global, text: &mut String, state: VrpState) -> Result<()> {
    let mut list = String::new(alloc);
    for vrp in state.vrps.as_slice() {
        list.push_str(format!(in alloc; ",{vrp}")?.as_str())?;
    }
    let set = VrpSet::from_list(state.vrps)?;
    add_hash(alloc, text, Some(vrps_digest(alloc, &set)?))?;
    text.push_str(list.as_str())?;
    Ok(())
}
