//! The versions of PDUs. What a file of PDUs says is a row of the command `units`, and what is answered is one of `answer`.
use crate::units;
use arrayvec::ArrayVec;
use prefixes::Vrp;
use rtr_pdu::{
    Counted, Kind, Next, RouterKey, Unit, UnitFault, UnitReader, Version, encode_prefix, read_all,
};
use std::alloc::Global;
use std::process::Abort;
use test_values::hex::bytes;
use test_values::sets::record;
use test_values::units as wire;

const NOTIFY: &str = "00 00 0777 0000000c 00000005";

/// The same in version 1, and in a version that there is not.
const NOTIFY_1: &str = "01 00 0777 0000000c 00000005";

const NOTIFY_2: &str = "02 00 0777 0000000c 00000005";

const RESPONSE: &str = "00 03 0777 00000008";

/// 192.0.2.0/24 up to 24 of AS 64496, announced.
const V: &str = "00 04 0000 00000014 01 18 18 00 c0000200 0000fbf0";

const END: &str = "00 07 0777 0000000c 00000005";

/// An End of Data of version 1.
fn end_of_version_1() -> Unit {
    Unit::EndOfData {
        session: 0x777,
        serial: 5,
        refresh: 3600,
        retry: 600,
        expire: 7200,
    }
}

fn router_key() -> Unit {
    Unit::RouterKey(RouterKey::new(true, [7; 20], 64496, &[1, 2]))
}

/// Whether an announcement of a payload is written in each version.
fn is_written_in_both(vrp: &Vrp) -> bool {
    let mut buffer = ArrayVec::new();
    encode_prefix(Version::V0, true, vrp, &mut buffer);
    let is_old = buffer.as_slice() == bytes(V).as_slice();
    encode_prefix(Version::V1, true, vrp, &mut buffer);
    is_old && buffer.as_slice() == bytes(wire::V).as_slice()
}

#[test]
fn records_are_written_in_both_versions(rt: HostRuntime) {
    let v = record("192.0.2.0/24", 24, 64496).expect(&rt, "a record");
    assert!(rt; is_written_in_both(&v));
}

/// Whether a PDU is one of this version, and not of the other.
fn is_of(version: Version, unit: &Unit) -> bool {
    unit.fits(Version::V0) == (version == Version::V0)
        && unit.fits(Version::V1) == (version == Version::V1)
}

#[test]
fn units_of_one_version(rt: HostRuntime) {
    let end = Unit::EndOfData0 {
        session: 0,
        serial: 0,
    };
    assert!(rt; is_of(Version::V0, &end));
    assert!(rt; is_of(Version::V1, &end_of_version_1()));
    assert!(rt; is_of(Version::V1, &router_key()));
}

#[test]
fn types_of_a_version(rt: HostRuntime) {
    let (old, new) = (Version::V0, Version::V1);
    assert!(rt; old.number() == 0 && new.number() == 1);
    assert!(rt; Kind::from_number(old, 9) == None);
    assert!(rt; Kind::from_number(new, 9) == Some(Kind::RouterKey));
    assert!(rt; Kind::from_number(old, 7) == Some(Kind::EndOfData));
    assert!(rt; Kind::EndOfData.fixed_len(old) == 12 && Kind::EndOfData.fixed_len(new) == 24);
    assert!(rt; Kind::EndOfData.may_have(old, 12) && !Kind::EndOfData.may_have(old, 24));
    assert!(rt; Version::first(&[0]) == old && Version::first(&[1, 0]) == new);
    assert!(rt; Version::first(&[2]) == new && Version::first(&[]) == new);
}

/// Whether a reader that has this many bytes of a PDU knows its version if its header has come. It then reads the next byte, which ends the
/// PDU or does not.
fn tells(reader: &mut UnitReader, at: usize, version: Version, byte: u8, ends: bool) -> bool {
    let told = if at < 8 { None } else { Some(version) };
    let one = [byte];
    let mut piece = one.as_slice();
    reader.held().len() == at
        && reader.version() == told
        && matches!(reader.next(&mut piece), Next::Unit(_)) == ends
}

/// Whether a cache's reader does so at each byte of a PDU, and knows the version after it.
fn tells_once(text: &str, version: Version) -> bool {
    let all = bytes(text);
    let mut reader = UnitReader::for_cache();
    for (at, byte) in all.as_slice().iter().enumerate() {
        let ends = at.saturating_add(1) == all.len();
        if !tells(&mut reader, at, version, *byte, ends) {
            return false;
        }
    }
    reader.held().is_empty() && reader.version() == Some(version)
}

#[test]
fn a_version_is_told_once_a_header_has_come(rt: HostRuntime) {
    assert!(rt; tells_once(NOTIFY, Version::V0));
    assert!(rt; tells_once(wire::END_5, Version::V1));
    // Each other reader knows its version from the start.
    assert!(rt; UnitReader::of_version(Version::V0).version() == Some(Version::V0));
    assert!(rt; UnitReader::for_router(Version::V0).version() == Some(Version::V0));
    assert!(rt; UnitReader::for_router(Version::V1).version() == Some(Version::V1));
}

/// Whether these bytes are a Serial Notify of session 0x777, serial 5.
fn is_notify(reader: &mut UnitReader, text: &str) -> bool {
    let notify = bytes(text);
    let mut piece = notify.as_slice();
    matches!(
        reader.next(&mut piece),
        Next::Unit(Unit::SerialNotify {
            session: 0x777,
            serial: 5
        })
    )
}

/// Whether the version of these bytes is refused.
fn is_refused(reader: &mut UnitReader, text: &str) -> bool {
    let notify = bytes(text);
    let mut piece = notify.as_slice();
    matches!(reader.next(&mut piece), Next::Fault(UnitFault::Version))
}

/// Whether a router of this version reads a notify, and keeps its version.
fn is_read(reader: &mut UnitReader, version: Version, text: &str) -> bool {
    is_notify(reader, text) && reader.version() == Some(version)
}

/// Whether a router of this version reads notifies of all versions before agreement, and then of its own alone.
fn agrees(version: Version, same: &str, other: &str) -> bool {
    let mut reader = UnitReader::for_router(version);
    if !is_read(&mut reader, version, NOTIFY)
        || !is_read(&mut reader, version, NOTIFY_1)
        || !is_read(&mut reader, version, NOTIFY_2)
    {
        return false;
    }
    reader.agreed();
    is_notify(&mut reader, same) && is_refused(&mut reader, other)
}

#[test]
fn notifies_before_agreement(rt: HostRuntime) {
    assert!(rt; agrees(Version::V0, NOTIFY, NOTIFY_1));
    assert!(rt; agrees(Version::V1, NOTIFY_1, NOTIFY));
}

/// The list of these bytes.
fn one_piece(alloc: Global, units: &[&str]) -> Option<Vec<Vec<u8>>> {
    let Ok(piece) = wire::all_of(units).as_slice().to_vec(alloc) else {
        return None;
    };
    let mut pieces = Vec::new(alloc);
    match pieces.push(piece) {
        Ok(()) => Some(pieces),
        Err(_) => None,
    }
}

/// Whether a router of version 0 reads this many PDUs of these, and this fault follows them.
fn reads(alloc: Global, units: &[&str], count: usize, fault: Option<UnitFault>) -> bool {
    let Some(pieces) = one_piece(alloc, units) else {
        return false;
    };
    match read_all(alloc, Some(Version::V0), pieces.as_slice()) {
        Ok((read, found)) => read.len() == count && found == fault,
        Err(_) => false,
    }
}

/// PDUs, how many a router of version 0 reads of them, and the fault after them. It agrees at the first PDU that is no Serial Notify.
type Agreed = (&'static [&'static str], usize, Option<UnitFault>);

const AGREED: &[Agreed] = &[
    (&[NOTIFY_1, NOTIFY_2, NOTIFY, RESPONSE, NOTIFY], 5, None),
    (
        &[NOTIFY_1, RESPONSE, NOTIFY, NOTIFY_1, END],
        3,
        Some(UnitFault::Version),
    ),
    (
        &[RESPONSE, V, NOTIFY_2, END, END],
        2,
        Some(UnitFault::Version),
    ),
];

fn expect_agreed<R: Abort>(rt: &R, alloc: Global, rows: &[Agreed]) {
    for &(units, count, fault) in rows {
        assert!(rt; reads(alloc, units, count, fault));
    }
}

#[test]
fn a_router_agrees_at_the_first_other_unit(rt: HostRuntime) {
    expect_agreed(&rt, rt.alloc(), AGREED);
}

#[test]
fn one_unit_of_a_version(rt: HostRuntime) {
    let ends = wire::all_of(&[END, wire::END_5]);
    let mut input = Counted::new(ends.as_slice());
    assert!(rt; units::reads(&mut input, Version::V0, END, 24, 2));
    assert!(rt; units::reads(&mut input, Version::V0, "another version", 16, 3));
    let mut other = Counted::new(ends.as_slice());
    assert!(rt; units::reads(&mut other, Version::V1, "another version", 28, 1));
}
