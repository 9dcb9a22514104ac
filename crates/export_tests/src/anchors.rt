//! The trust anchors of an export, and how many records of a file come from each.
use exports::{NO_ANCHOR, read_export_counted};
use sources::Sources;
use std::alloc::Global;
use std::test::Fail;

/// 14 November 2023, 22:13:20 UTC.
const NOW: u64 = 1_700_000_000;

/// The first entry has expired, and the second does so two seconds later.
const TEXT: &[u8] = br#"{"roas":[
    {"asn":1,"prefix":"12.0.0.0/8","maxLength":8,"ta":"apnic","expires":1700000000},
    {"asn":1,"prefix":"11.0.0.0/8","maxLength":8,"ta":"ripe","expires":1700000002},
    {"asn":1,"prefix":"10.0.0.0/8","maxLength":8,"ta":"arin"},
    {"asn":2,"prefix":"10.0.0.0/8","maxLength":8,"ta":7},
    {"asn":3,"prefix":"10.0.0.0/8","maxLength":8}]}"#;

/// Whether these are the names of the two trust anchors.
fn are_both(names: &[String]) -> bool {
    names.len() == 2 && names[0].as_str() == "ripe" && names[1].as_str() == "arin"
}

/// Whether the records of that text have their trust anchors.
fn have_anchors(alloc: Global) -> bool {
    match read_export_counted(alloc, TEXT, NOW) {
        Ok(read) => {
            are_both(read.anchors.names.as_slice())
                && read.anchors.of_each.as_slice() == [1, NO_ANCHOR, NO_ANCHOR, 0].as_slice()
        }
        Err(_) => false,
    }
}

#[test]
fn records_have_their_trust_anchors(rt: HostRuntime) {
    assert!(rt; have_anchors(rt.alloc()));
}

/// Whether this many records of each trust anchor are left at a moment.
fn are_left(sources: &Sources, now: u64, counts: &[u64]) -> bool {
    match sources.left_of_anchors(0, now) {
        Ok(left) => left.as_slice() == counts,
        Err(_) => false,
    }
}

#[test]
fn a_trust_anchor_loses_a_record_at_its_expiry(rt: HostRuntime) -> Result<(), Fail> {
    let mut sources = Sources::new(rt.alloc(), 1)?;
    sources.take_export(0, TEXT, NOW)?;
    assert!(rt; are_both(sources.anchors(0)));
    assert!(rt; sources.anchors(1).is_empty());
    assert!(rt; are_left(&sources, NOW + 1, &[1, 1]));
    assert!(rt; are_left(&sources, NOW + 2, &[0, 1]));
    Ok(())
}
