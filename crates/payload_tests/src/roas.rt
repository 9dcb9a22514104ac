//! ROAs that are written, and ROAs of values. What is read is a row of the command `roa`.

use payloads::{PayloadFault, Roa, RoaEntry, ValueFault, decode_roa, encode_roa};
use prefixes::{Asn, IpPrefix, Prefix, PrefixFault, V4, Vrp};
use std::alloc::Global;
use std::process::Abort;
use test_values::hex::{Bytes, bytes};
use test_values::payloads::{BOTH_FAMILIES, NO_BITS, ONE_PREFIX, WITH_MAXIMUM};

/// The payload of this prefix, this maximum and AS64496.
fn vrp(text: &str, max_len: u8) -> Result<Vrp, PrefixFault> {
    Vrp::new(IpPrefix::parse(text)?, max_len, Asn(64496))
}

/// Whether the payload of this prefix, this maximum and AS64496 is there, and no other.
pub(crate) fn is_alone(vrps: &[Vrp], text: &str, max_len: u8) -> bool {
    match (vrps.first(), vrp(text, max_len)) {
        (Some(found), Ok(vrp)) => vrps.len() == 1 && *found == vrp,
        _ => false,
    }
}

/// Whether a ROA is written as these bytes.
fn is_written(alloc: Global, roa: &Roa, payload: &[u8]) -> bool {
    match encode_roa(alloc, roa) {
        Ok(written) => written.as_slice() == payload,
        Err(_) => false,
    }
}

/// The bytes of a payload with this byte at this place.
fn changed(text: &str, at: usize, byte: u8) -> Bytes {
    let mut payload = bytes(text);
    if let Some(place) = payload.as_mut_slice().get_mut(at) {
        *place = byte;
    }
    payload
}

/// Whether bytes are those of a ROA, if that is written as they are; if not, they have a fault that is reported inside them.
fn is_taken(alloc: Global, payload: &[u8]) -> Option<bool> {
    match decode_roa(alloc, payload) {
        Ok(roa) => is_written(alloc, &roa, payload).then_some(true),
        Err(PayloadFault::At(fault)) => {
            (fault.kind.number() <= 20 && fault.offset <= payload.len()).then_some(false)
        }
        Err(PayloadFault::Memory) => None,
    }
}

/// How many bytes there may be at this place of a payload, as far as each is judged.
fn taken_at(alloc: Global, text: &str, at: usize) -> Option<usize> {
    let mut count = 0usize;
    for byte in 0..=255u8 {
        if is_taken(alloc, changed(text, at, byte).as_slice())? {
            count = count.saturating_add(1);
        }
    }
    Some(count)
}

/// The same of all places.
fn taken(alloc: Global, text: &str) -> Option<usize> {
    let mut count = 0usize;
    for at in 0..bytes(text).len() {
        count = count.saturating_add(taken_at(alloc, text, at)?);
    }
    Some(count)
}

#[test]
fn writes_each_roa_with_one_other_byte(rt: HostRuntime) {
    // The AS number: 128, 128 and 256 values. The length of the address: 5, or 8, by which the
    // three bytes of the maximum are bits too. The unused bits: 0 to 3. Four bytes of address: 256
    // each. The maximum: 33 to 127. At each of the 19 other bytes only the one that is there.
    let spelled = 128 + 128 + 256 + 2 + 4 + 4 * 256 + 95 + 19;
    assert!(rt; taken(rt.alloc(), WITH_MAXIMUM) == Some(spelled));
    assert!(rt; taken(rt.alloc(), ONE_PREFIX).is_some());
    assert!(rt; taken(rt.alloc(), NO_BITS).is_some());
}

/// Whether the entry of this prefix and this maximum is added.
fn push(entries: &mut Vec<RoaEntry>, &(text, max_len): &(&str, Option<u8>)) -> bool {
    match IpPrefix::parse(text) {
        Ok(prefix) => entries.push(RoaEntry { prefix, max_len }).is_ok(),
        Err(_) => false,
    }
}

/// The entries of these prefixes and maxima.
fn entries_of(alloc: Global, rows: &[(&str, Option<u8>)]) -> Option<Vec<RoaEntry>> {
    let mut entries = Vec::new(alloc);
    for row in rows {
        if !push(&mut entries, row) {
            return None;
        }
    }
    Some(entries)
}

/// Prefixes and maxima, and the number of the fault and its index.
type Values = (&'static [(&'static str, Option<u8>)], Option<(u8, usize)>);

/// Those of a ROA of both families.
const BOTH: &[(&str, Option<u8>)] = &[
    ("192.0.2.0/24", None),
    ("192.0.2.0/25", Some(32)),
    ("2001:db8::/32", Some(48u8)),
];

const VALUES: &[Values] = &[
    (BOTH, None),
    (&[], Some((9u8, 0usize))),
    (
        &[("2001:db8::/32", None), ("192.0.2.0/24", Some(40))],
        Some((12, 1)),
    ),
    (
        &[("192.0.2.0/24", None), ("192.0.2.0/24", Some(33))],
        Some((11, 1)),
    ),
    (&[("192.0.2.0/24", Some(23))], Some((11, 0))),
    (
        &[("192.0.2.0/24", None), ("192.0.2.0/24", None)],
        Some((12, 1)),
    ),
    (
        &[("192.0.2.0/24", None), ("192.0.2.0/24", Some(24))],
        Some((20, 1)),
    ),
    (
        &[("2001:db8::/32", None), ("192.0.2.0/24", Some(24))],
        Some((12, 1)),
    ),
    (
        &[("192.0.3.0/24", None), ("192.0.2.0/24", None)],
        Some((12, 1)),
    ),
];

/// Whether a ROA is made of these entries, or is refused so.
fn is_made(made: Result<Roa, ValueFault>, (rows, refusal): &Values) -> bool {
    match made {
        Ok(roa) => refusal.is_none() && roa.entries().len() == rows.len(),
        Err(fault) => *refusal == Some((fault.kind.number(), fault.index)),
    }
}

/// Whether the ROA of a row is made or refused as it has to be.
fn is_judged(alloc: Global, values: &Values) -> bool {
    match entries_of(alloc, values.0) {
        Some(entries) => is_made(Roa::new(Asn(64496), entries), values),
        None => false,
    }
}

fn expect_judged<R: Abort>(rt: &R, alloc: Global, rows: &[Values]) {
    for values in rows {
        assert!(rt; is_judged(alloc, values));
    }
}

#[test]
fn makes_roas_of_values(rt: HostRuntime) {
    expect_judged(&rt, rt.alloc(), VALUES);
}

/// Whether the entry of the prefix of 24 bits with this number, from 0.0.0.0 on, is added.
fn push_numbered(entries: &mut Vec<RoaEntry>, index: u32) -> bool {
    if index > 65536 {
        return false;
    }
    match Prefix::<V4>::new(u128::from(index) * 256, 24) {
        Ok(prefix) => entries
            .push(RoaEntry {
                prefix: IpPrefix::V4(prefix),
                max_len: None,
            })
            .is_ok(),
        Err(_) => false,
    }
}

/// The entries of the first 65537 of them.
fn too_many(alloc: Global) -> Option<Vec<RoaEntry>> {
    let mut entries = Vec::new(alloc);
    for index in 0..65537u32 {
        if !push_numbered(&mut entries, index) {
            return None;
        }
    }
    Some(entries)
}

/// The number and the index of the fault of these entries.
fn fault_of(entries: Vec<RoaEntry>) -> Option<(u8, usize)> {
    match Roa::new(Asn(64496), entries) {
        Ok(_) => None,
        Err(fault) => Some((fault.kind.number(), fault.index)),
    }
}

#[test]
fn makes_no_roa_of_an_entry_too_many(rt: HostRuntime) {
    match too_many(rt.alloc()) {
        Some(entries) => assert!(rt; fault_of(entries) == Some((19, 65536))),
        None => assert!(rt; false),
    }
}

/// Whether these bytes are those of this ROA.
fn is_read(alloc: Global, payload: &[u8], roa: &Roa) -> bool {
    match decode_roa(alloc, payload) {
        Ok(again) => again.asn() == roa.asn() && again.entries() == roa.entries(),
        Err(_) => false,
    }
}

/// Whether the ROA of these entries is written as these bytes, and is read again.
fn is_both_ways(alloc: Global, entries: Vec<RoaEntry>, payload: &[u8]) -> bool {
    match Roa::new(Asn(64496), entries) {
        Ok(roa) => is_written(alloc, &roa, payload) && is_read(alloc, payload, &roa),
        Err(_) => false,
    }
}

#[test]
fn writes_roas_of_values(rt: HostRuntime) {
    let payload = bytes(BOTH_FAMILIES);
    match entries_of(rt.alloc(), BOTH) {
        Some(entries) => assert!(rt; is_both_ways(rt.alloc(), entries, payload.as_slice())),
        None => assert!(rt; false),
    }
}

/// Adds an entry of 24 bits with these bytes of its prefix.
fn add_entry(payload: &mut Vec<u8>, index: u32) -> bool {
    let [_, first, second, third] = index.to_be_bytes();
    payload
        .extend_from_slice(&[0x30, 6, 3, 4, 0, first, second, third])
        .is_ok()
}

/// The payload of AS64496 and of 65,536 prefixes of 24 bits, from 0.0.0.0 on.
fn long_payload(alloc: Global) -> Option<Vec<u8>> {
    let head = bytes("3083080018 020300fbf0 308308000e 3083080009 04020001 3083080000");
    let Ok(mut payload) = head.as_slice().to_vec(alloc) else {
        return None;
    };
    for index in 0..65536u32 {
        if !add_entry(&mut payload, index) {
            return None;
        }
    }
    Some(payload)
}

#[test]
fn writes_65536_entries(rt: HostRuntime) {
    match long_payload(rt.alloc()) {
        Some(most) => assert!(rt; is_taken(rt.alloc(), most.as_slice()) == Some(true)),
        None => assert!(rt; false),
    }
}
