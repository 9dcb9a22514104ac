//! Reads trust anchor locators, and prints a line for each, so that scripts compare it with what others say. Each line on standard input is a
//! locator, in hexadecimal digits.
//!
//! The answer is the modulus in hexadecimal digits, and the URIs; or the fault, as a program says it; or `no question`.
#![tactic(auto)]

use anyhow::Result;
use std::alloc::Global;
use std::io::{Read, Write};
use std::str;
use trust_anchors::{Tal, read_tal};

fn main(rt: HostRuntime) -> Result<()> {
    let mut bytes = Vec::new(rt.alloc());
    rt.stdin().read_to_end(&mut bytes)?;
    for question in str::from_utf8(bytes.as_slice())?.lines() {
        let answer = answer(rt.alloc(), question)?;
        println!(rt; "{answer}")?;
    }
    Ok(())
}

/// What is said of a locator.
fn answer(alloc: Global, question: &str) -> Result<String> {
    let Ok(bytes) = hex::decode(alloc, question) else {
        return Ok(String::from_str(alloc, "no question")?);
    };
    match read_tal(alloc, bytes.as_slice()) {
        Ok(tal) => shown(alloc, &tal),
        Err(fault) => Ok(format!(in alloc; "{fault}")?),
    }
}

/// The modulus, and the URIs.
fn shown(alloc: Global, tal: &Tal) -> Result<String> {
    let mut text = hex::encode(alloc, tal.modulus.as_slice())?;
    for uri in &tal.uris {
        text.push(' ')?;
        text.push_str(str::from_utf8(uri)?)?;
    }
    Ok(text)
}
