//! What the runs share.

use prefixes::{Asn, IpPrefix, Vrp};
use std::alloc::{AllocError, Global};
use vrps::{SetFault, VrpSet};

/// A request for this many bytes signals the observer that the preparations are over. It is not refused.
const BEGIN: usize = 1_234_567;

/// A payload: its prefix, its maximum length and its AS number.
pub(crate) type Row = (&'static str, u8, u32);

pub(crate) const V: Row = ("192.0.2.0/24", 24, 64496);

pub(crate) const W: Row = ("198.51.100.0/24", 24, 64497);

/// Requests may be refused from here on.
pub(crate) fn begin(alloc: Global) {
    let _mark: Result<Vec<u8>, AllocError> = Vec::with_capacity(alloc, BEGIN);
}

/// Prints a line. One that cannot be printed is missed when the lines are compared.
pub(crate) fn tell(rt: &HostRuntime, line: &str) {
    let _printed = rt.println(line);
}

/// Prints that memory ran out, and returns that the try failed.
pub(crate) fn no_memory(rt: &HostRuntime) -> bool {
    tell(rt, "memory");
    false
}

/// Prints bytes as their numbers.
pub(crate) fn tell_bytes(rt: &HostRuntime, bytes: &[u8]) {
    let _printed = println!(rt; "{bytes:?}");
}

/// Prints a prefix, the greatest length of a route of it, and its AS.
pub(crate) fn tell_record(rt: &HostRuntime, prefix: &IpPrefix, max_len: u8, asn: Asn) {
    let _printed = println!(rt; "{prefix} {max_len} {asn}");
}

/// Prints payloads, a line each.
pub(crate) fn tell_payloads(rt: &HostRuntime, payloads: &[Vrp]) {
    for it in payloads {
        tell_record(rt, &it.prefix(), it.max_len(), it.asn());
    }
}

/// Prints the members of a set, or that there was no memory for it.
pub(crate) fn is_told(rt: &HostRuntime, set: Result<VrpSet, SetFault>) -> bool {
    match set {
        Ok(set) => tell_payloads(rt, set.as_slice()),
        Err(SetFault::Memory) => return no_memory(rt),
        Err(SetFault::TooMany) => tell(rt, "too many"),
    }
    true
}

/// The payload of a row.
pub(crate) fn payload(&(text, max_len, asn): &Row) -> Option<Vrp> {
    match IpPrefix::parse(text) {
        Ok(prefix) => Vrp::new(prefix, max_len, Asn(asn)).ok(),
        Err(_) => None,
    }
}

/// The set of these rows, if there is memory.
pub(crate) fn set_of(alloc: Global, rows: &[Row]) -> Option<VrpSet> {
    let mut list = Vec::new(alloc);
    for row in rows {
        if list.push(payload(row)?).is_err() {
            return None;
        }
    }
    VrpSet::from_list(list).ok()
}

/// The set of these rows, once for each of two tries.
pub(crate) fn twice(alloc: Global, rows: &[Row]) -> Option<(VrpSet, VrpSet)> {
    match (set_of(alloc, rows), set_of(alloc, rows)) {
        (Some(set), Some(again)) => Some((set, again)),
        _ => None,
    }
}

/// The sets of these lists of rows, each of them twice.
pub(crate) fn each_twice(alloc: Global, lists: &[&[Row]]) -> Option<Vec<(VrpSet, VrpSet)>> {
    let mut sets = Vec::new(alloc);
    for rows in lists {
        if sets.push(twice(alloc, rows)?).is_err() {
            return None;
        }
    }
    Some(sets)
}
