//! Rows of the protocol's table: what a PDU does on each link of a router. A row has a PDU of version 1, `;` and a word for each link. If the
//! row begins with `both`, it is so in version 0 too: there the PDU is the same but for the version bytes and the End of Data. The words:
//!
//! - `idle`, `asked`, `answering`: nothing is sent, and the link is this one. What is committed stays.
//! - `asks-since`, `asks-all`: it is asked what changed since, or for all. What is committed stays.
//! - `reports`, `fails`: an Error Report with code 0 and the PDU ends the link. What is committed stays, or is dropped.
//! - `ends-CODE`, `empties-CODE`: the link ends by a report of this code that was read. What is committed stays, or is dropped.
//! - `commits-COUNT`: this many records are committed as serial 6.
use crate::router::{holds, played, sends};
use rtr_ends::{End, Link, Router};
use rtr_pdu::{Version, error_code};
use std::alloc::Global;
use test_values::hex::Bytes;
use test_values::scripts::{Words, unit_in};
use test_values::units::{RESET_QUERY, SERIAL_QUERY, bytes_in};

/// The links of the protocol's table: how a router comes there, and how many records it has then. The states: idle. A first Reset Query is
/// not answered yet, and no version is agreed on. A Serial Query is not answered yet. Its answer has begun. The answer to a first Reset
/// Query has begun.
const LINKS: &[(&str, usize)] = &[
    (IDLE, 1),
    (ASKED, 0),
    (SINCE, 1),
    (SINCE_ANSWERING, 1),
    (ASKED_ANSWERING, 0),
];

const IDLE: &str = "\
connects 0
sends RESET_QUERY
receives 0 RESPONSE | V | END_5
link idle";

const ASKED: &str = "\
connects 0
sends RESET_QUERY";

const SINCE: &str = "\
connects 0
sends RESET_QUERY
receives 0 RESPONSE | V | END_5
asks
sends SERIAL_QUERY";

const SINCE_ANSWERING: &str = "\
connects 0
sends RESET_QUERY
receives 0 RESPONSE | V | END_5
asks
sends SERIAL_QUERY
receives 0 RESPONSE";

const ASKED_ANSWERING: &str = "\
connects 0
sends RESET_QUERY
receives 0 RESPONSE";

/// The report of code 0 on this PDU.
fn report_on(version: Version, unit: &Bytes) -> Bytes {
    let len = (unit.len() % 128) as u8;
    let head = [version.number(), 10, 0, 0, 0, 0, 0, len + 16, 0, 0, 0, len];
    let mut report = Bytes::new();
    let _fits = report.try_extend_from_slice(&head);
    let _fits = report.try_extend_from_slice(unit.as_slice());
    let _fits = report.try_extend_from_slice(&[0; 4]);
    report
}

/// Whether that report is pending, and nothing else, and the link has ended by it.
fn reports(router: &mut Router, version: Version, unit: &str) -> bool {
    let report = report_on(version, &unit_in(version.number(), unit));
    router.link() == Link::Ended(End::Reported(error_code::CORRUPT_DATA)) && sends(router, &report)
}

/// Whether this PDU does that on a router of this version.
fn is_done(router: &mut Router, version: Version, unit: &str, does: &str) -> bool {
    match does {
        "idle" => router.link() == Link::Idle,
        "asked" => router.link() == Link::Asked,
        "answering" => router.link() == Link::Answering,
        "asks-since" => sends(router, &bytes_in(version.number(), SERIAL_QUERY)),
        "asks-all" => sends(router, &bytes_in(version.number(), RESET_QUERY)),
        "reports" | "fails" => reports(router, version, unit),
        "ends-0" | "empties-0" => router.link() == Link::Ended(End::Told(error_code::CORRUPT_DATA)),
        "ends-1" => router.link() == Link::Ended(End::Told(error_code::INTERNAL_ERROR)),
        "ends-3" => router.link() == Link::Ended(End::Told(error_code::INVALID_REQUEST)),
        "commits-0" => holds(router, 0, version, 4660, 6),
        "commits-1" => holds(router, 1, version, 4660, 6),
        _ => false,
    }
}

/// Whether a router that had this many records has those that it has to have then.
fn is_kept(router: &Router, does: &str, records: usize) -> bool {
    let kept = match does {
        "commits-0" | "commits-1" => return true,
        "fails" | "empties-0" => 0,
        _ => records,
    };
    !router.has_bytes()
        && router.table().len() == kept
        && router.committed().is_some() == (kept == 1)
}

/// Whether a PDU does that at a router of this version that has this many records.
fn does_so(router: &mut Router, version: Version, unit: &str, does: &str, records: usize) -> bool {
    let piece = unit_in(version.number(), unit);
    router.table().len() == records
        && (records == 0 || holds(router, 1, version, 4660, 5))
        && router.receive(piece.as_slice(), 0) == piece.len()
        && is_done(router, version, unit, does)
        && is_kept(router, does, records)
}

/// Whether a PDU does that at a new router of this version which has come to a link.
fn does_at(
    alloc: Global,
    version: Version,
    unit: &str,
    does: &str,
    (steps, records): (&str, usize),
) -> bool {
    match played(alloc, version, steps) {
        Some(mut router) => does_so(&mut router, version, unit, does, records),
        None => false,
    }
}

/// Whether a PDU does so on each of these links.
fn does_each(
    alloc: Global,
    version: Version,
    unit: &str,
    cells: &str,
    links: &[(&str, usize)],
) -> bool {
    let mut words = Words { rest: cells };
    for &link in links {
        if !does_at(alloc, version, unit, words.next(), link) {
            return false;
        }
    }
    true
}

/// Whether a row is so.
fn is_row(alloc: Global, row: &str) -> bool {
    let Some((unit, cells)) = row.split_once("; ") else {
        return false;
    };
    match unit.strip_prefix("both ") {
        Some(unit) => {
            does_each(alloc, Version::V1, unit, cells, LINKS)
                && does_each(alloc, Version::V0, unit, cells, LINKS)
        }
        None => does_each(alloc, Version::V1, unit, cells, LINKS),
    }
}

/// The first row that is not so, or an empty text.
pub(crate) fn wrong_row<'a>(alloc: Global, rows: &'a str) -> &'a str {
    for row in rows.lines() {
        if !is_row(alloc, row) {
            return row;
        }
    }
    ""
}
