//! Sets of payloads.
use prefixes::{Asn, IpPrefix, Vrp};
use std::alloc::Global;
use std::test::Fail;
use vrps::VrpSet;

/// A payload: its prefix, its maximum length and its AS number.
pub type Row = (&'static str, u8, u32);

pub type Rows = &'static [Row];

pub const V: Row = ("192.0.2.0/24", 24, 64496);

pub const W: Row = ("198.51.100.0/24", 24, 64497);

/// The payload of a row, if it is one.
pub fn record(text: &str, max_len: u8, asn: u32) -> Option<Vrp> {
    match IpPrefix::parse(text) {
        Ok(prefix) => Vrp::new(prefix, max_len, Asn(asn)).ok(),
        Err(_) => None,
    }
}

pub fn payload(text: &str, max_len: u8, asn: u32) -> Result<Vrp, Fail> {
    match record(text, max_len, asn) {
        Some(vrp) => Ok(vrp),
        None => Err(Fail::from("no payload")),
    }
}

/// The set of these rows: each has a prefix as text, a maximum length and an AS number. Equal rows count once. `None`: a row is not a VRP, there
/// are over 16,777,215, or memory ran out.
pub fn set_in(alloc: Global, rows: &[(&str, u8, u32)]) -> Option<VrpSet> {
    let mut list = Vec::new(alloc);
    for &(text, max_len, asn) in rows {
        if list.push(record(text, max_len, asn)?).is_err() {
            return None;
        }
    }
    VrpSet::from_list(list).ok()
}

pub fn set_of(alloc: Global, rows: &[(&str, u8, u32)]) -> Result<VrpSet, Fail> {
    match set_in(alloc, rows) {
        Some(set) => Ok(set),
        None => Err(Fail::from("no set")),
    }
}
