//! Reads certificates, revocation lists and resources, and prints a line for each, so that scripts compare it with what others say. Each line on
//! standard input is a question. DER is in hexadecimal digits.
//!
//! - `anchor DER`, `authority DER`, `entity DER`: a certificate in this role, and its resources.
//! - `crl DER`: a revocation list.
//! - `issued DER DER`: whether the first certificate, of an end entity or an authority, names the second as its issuer, and its signature holds.
//! - `ip DER`, `as DER`: a value of ipAddrBlocks or of autonomousSysIds.
//! - `within DER DER`: whether each AS number of the first value of autonomousSysIds is one of the second.
//! - `covers DER DER`: whether each IPv6 address of the first value of ipAddrBlocks is one of the second.
//!
//! The answer is what was read, `fault NUMBER OFFSET`, or `no question`. Ranges are numbers in decimal digits.
#![tactic(auto)]

mod certificates;
mod numbers;
mod sheet;

use anyhow::{Result, bail};
use sheet::Sheet;
use std::alloc::Global;
use std::io::{Read, Write};
use std::str;
use test_values::scripts::Words;

fn main(rt: HostRuntime) -> Result<()> {
    let mut bytes = Vec::new(rt.alloc());
    rt.stdin().read_to_end(&mut bytes)?;
    let mut sheet = Sheet::new(rt.stdout());
    answer_all(rt.alloc(), str::from_utf8(bytes.as_slice())?, &mut sheet);
    if sheet.has_failed() {
        bail!("standard output failed");
    }
    Ok(())
}

/// Answers each question.
fn answer_all<W: Write>(alloc: Global, questions: &str, sheet: &mut Sheet<W>) {
    for line in questions.lines() {
        ask(alloc, line, sheet);
        sheet.text("\n");
    }
}

/// Answers a question.
fn ask<W: Write>(alloc: Global, line: &str, sheet: &mut Sheet<W>) {
    let mut words = Words { rest: line };
    let kind = words.next();
    match (
        hex::decode(alloc, words.next()),
        hex::decode(alloc, words.next()),
    ) {
        (Ok(first), Ok(second)) => {
            answer(alloc, kind, first.as_slice(), second.as_slice(), sheet);
        }
        _ => sheet.text("no question"),
    }
}

/// Prints yes or no.
fn show_truth<W: Write>(truth: Option<bool>, sheet: &mut Sheet<W>) {
    sheet.text(match truth {
        Some(true) => "yes",
        Some(false) => "no",
        None => "no question",
    });
}

/// Answers a question of this kind about DER.
fn answer<W: Write>(alloc: Global, kind: &str, first: &[u8], second: &[u8], sheet: &mut Sheet<W>) {
    match kind {
        "ip" => numbers::show_ip(alloc, first, sheet),
        "as" => numbers::show_as(alloc, first, sheet),
        "crl" => certificates::show_crl(alloc, first, sheet),
        "within" => show_truth(numbers::is_within(alloc, first, second), sheet),
        "covers" => show_truth(numbers::covers(alloc, first, second), sheet),
        "issued" => show_truth(certificates::is_issued(first, second), sheet),
        _ => match certificates::role_of(kind) {
            Some(role) => certificates::show(alloc, role, first, sheet),
            None => sheet.text("no question"),
        },
    }
}
