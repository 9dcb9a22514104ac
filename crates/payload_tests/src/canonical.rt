//! The canonical form of a set of VRPs, and its digest. What is expected was written by rpki-client 9.9 from signed ROAs of these VRPs.

use ccr::{encode_vrps, vrps_digest};
use std::alloc::Global;
use test_values::hex::bytes;
use test_values::sets::{Rows, set_in};

/// VRPs of several AS numbers, among them the least, and of both families.
const CACHE: Rows = &[
    ("0.0.0.0/0", 0, 4200000000),
    ("9.0.0.0/24", 24, 64497),
    ("10.0.0.0/8", 32, 128),
    ("10.0.0.0/16", 16, 64497),
    ("192.0.2.0/24", 24, 64496),
    ("198.51.100.0/24", 24, 64497),
    ("198.51.100.0/24", 26, 64497),
    ("203.0.113.0/24", 24, 0),
    ("::/0", 0, 4200000000),
    ("2001:db7::/32", 32, 64497),
    ("2001:db8::/32", 48, 64497),
    ("2001:db8::1/128", 128, 128),
];

/// VRPs of AS1 that differ in address, length or maximum length, and of the AS numbers around a second octet.
const ONE_AS: Rows = &[
    ("9.0.0.0/24", 24, 1),
    ("10.0.0.0/8", 8, 1),
    ("10.0.0.0/8", 9, 1),
    ("10.0.0.0/8", 32, 1),
    ("10.0.0.0/16", 16, 1),
    ("10.0.0.0/16", 24, 1),
    ("128.0.0.0/1", 1, 256),
    ("255.255.255.255/32", 32, 4294967295),
    ("2001:db7::/127", 128, 1),
    ("2001:db8::/32", 32, 1),
    ("2001:db8::/32", 32, 255),
    ("2001:db8::/32", 64, 1),
    ("2001:db8::/48", 48, 1),
];

/// What is written of CACHE.
const WRITTEN: &str =
    "3081db30150201003010300e0402000130083006030400cb0071303402020080302e300f04020001300930070302000a02\
    0120301b040200023015301303110020010db80000000000000000000000013017020300fbf03010300e04020001300830\
    06030400c00002304e020300fbf130473028040200013022300603040009000030050303000a003006030400c633643009\
    030400c6336402011a301b040200023015300703050020010db7300a03050020010db80201303023020500fa56ea00301a\
    300b0402000130053003030100300b0402000230053003030100";

/// Whether the canonical form of the set of these VRPs is this.
fn is_written(alloc: Global, rows: Rows, text: &str) -> bool {
    let Some(set) = set_in(alloc, rows) else {
        return false;
    };
    match encode_vrps(alloc, &set) {
        Ok(written) => written.as_slice() == bytes(text).as_slice(),
        Err(_) => false,
    }
}

/// Whether the digest of the set of these VRPs is this.
fn has_digest(alloc: Global, rows: Rows, text: &str) -> bool {
    let Some(set) = set_in(alloc, rows) else {
        return false;
    };
    match vrps_digest(alloc, &set) {
        Ok(digest) => digest.as_slice() == bytes(text).as_slice(),
        Err(_) => false,
    }
}

#[test]
fn a_cache_is_written(rt: HostRuntime) {
    assert!(rt; is_written(rt.alloc(), CACHE, WRITTEN));
    assert!(rt; is_written(rt.alloc(), &[], "3000"));
}

#[test]
fn a_cache_has_a_digest(rt: HostRuntime) {
    assert!(rt;
        has_digest(
            rt.alloc(),
            CACHE,
            "3b41075086b84bf18d3cf129ec777c2b777971ab228ba05c79c39d50690827b3"
        )
    );
    assert!(rt;
        has_digest(
            rt.alloc(),
            ONE_AS,
            "65829e70081f3013e32e1f3f5367af73bee267d3ee25e2899f89ed86d8e63b66"
        )
    );
    assert!(rt;
        has_digest(
            rt.alloc(),
            &[],
            "e4f60d0aa6d7f3d3b6a6494b1c861b99f649c6f9ec51abaf201b20f297327c95"
        )
    );
}
