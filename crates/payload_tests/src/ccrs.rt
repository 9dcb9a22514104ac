//! A canonical cache representation that rpki-client 9.9 wrote of nine signed ROAs, and the same with an octet that is another.

use ccr::{ReadCcrError, read_ccr, vrps_digest};
use std::alloc::Global;
use test_values::ccrs::CACHE;
use vrps::VrpSet;

/// The number of the first fault, and its offset.
fn fault(alloc: Global, bytes: &[u8]) -> Option<(u8, usize)> {
    match read_ccr(alloc, bytes) {
        Err(ReadCcrError::At(fault)) => Some((fault.kind.number(), fault.offset)),
        _ => None,
    }
}

/// The first fault if the octet at this offset is another.
fn fault_with(alloc: Global, at: usize, octet: u8) -> Option<(u8, usize)> {
    let Ok(mut bytes) = hex::decode(alloc, CACHE) else {
        return None;
    };
    if let Some(place) = bytes.as_mut_slice().get_mut(at) {
        *place = octet;
    }
    fault(alloc, bytes.as_slice())
}

/// The first fault of this many octets, or with one octet more.
fn fault_of(alloc: Global, count: usize) -> Option<(u8, usize)> {
    let Ok(mut bytes) = hex::decode(alloc, CACHE) else {
        return None;
    };
    if bytes.push(0).is_err() {
        return None;
    }
    fault(alloc, bytes.as_slice().get(..count)?)
}

/// How many VRPs there are, and whether their digest is the hash of their list.
fn vrps_read(alloc: Global) -> Option<(usize, bool)> {
    let Ok(bytes) = hex::decode(alloc, CACHE) else {
        return None;
    };
    let Ok(ccr) = read_ccr(alloc, bytes.as_slice()) else {
        return None;
    };
    let state = ccr.vrps?;
    let count = state.vrps.len();
    let Ok(set) = VrpSet::from_list(state.vrps) else {
        return None;
    };
    match vrps_digest(alloc, &set) {
        Ok(digest) => Some((count, digest == state.hash)),
        Err(_) => None,
    }
}

#[test]
fn a_cache_is_read(rt: HostRuntime) {
    assert!(rt; vrps_read(rt.alloc()) == Some((12, true)));
}

#[test]
fn a_faulty_cache_is_refused(rt: HostRuntime) {
    // one octet less, and one more
    assert!(rt; fault_of(rt.alloc(), 655) == Some((1, 0)));
    assert!(rt; fault_of(rt.alloc(), 657) == Some((5, 656)));
    // another content type, a version, another hash algorithm, no moment
    assert!(rt; fault_with(rt.alloc(), 16, 55) == Some((21, 4)));
    assert!(rt; fault_with(rt.alloc(), 25, 0xa0) == Some((22, 25)));
    assert!(rt; fault_with(rt.alloc(), 37, 2) == Some((23, 25)));
    assert!(rt; fault_with(rt.alloc(), 40, 120) == Some((4, 38)));
    // a manifest, a hash and a payload set that are others; a state out of order
    assert!(rt; fault_with(rt.alloc(), 70, 1) == Some((24, 216)));
    assert!(rt; fault_with(rt.alloc(), 513, 0) == Some((24, 480)));
    assert!(rt; fault_with(rt.alloc(), 263, 3) == Some((2, 263)));
    assert!(rt; fault_with(rt.alloc(), 514, 0xa1) == Some((2, 514)));
}
