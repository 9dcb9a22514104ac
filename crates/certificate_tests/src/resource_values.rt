//! Resources of certificates: the examples of RFC 3779 without what RFC 6487 bars, each fault, and who holds what.
use resources::{
    IpResources, ResourceChoice, ResourceError, ResourceRange, ResourceSet, read_as_ids,
    read_ip_blocks,
};
use std::alloc::Global;

/// The example of RFC 3779 appendix B, without the SAFI of its first family: 10.0.32.0/20, 10.0.64.0/24, 10.1.0.0/16, 10.2.48.0 to 10.2.64.255,
/// 10.3.0.0/16, and the IPv6 addresses of the issuer.
const ADDRESSES: &str =
    "3034302a0402000130240304040a00200304000a00400303000a01300c0304040a02300304000a02400303000a033006040200020500";

/// The AS numbers of the example of RFC 3779 appendix C, without rdi: 135, 3000 to 3999, and 5001.
const AS_NUMBERS: &str = "3016a014301202020087300802020bb802020f9f02021389";

/// Whether these are the IPv4 addresses of the example, and IPv6 addresses are inherited.
fn is_example(ip: &IpResources) -> bool {
    match (&ip.v4, &ip.v6) {
        (Some(ResourceChoice::Listed(set)), Some(ResourceChoice::Inherit)) => {
            set.as_slice().len() == 5
                && set.as_slice()[0]
                    == ResourceRange {
                        low: 0x0a002000,
                        high: 0x0a002fff,
                    }
                && set.as_slice()[3]
                    == ResourceRange {
                        low: 0x0a023000,
                        high: 0x0a0240ff,
                    }
        }
        _ => false,
    }
}

#[test]
fn addresses_are_read(rt: HostRuntime) {
    let alloc = rt.alloc();
    match hex::decode(alloc, ADDRESSES) {
        Ok(value) => match read_ip_blocks(alloc, value.as_slice()) {
            Ok(ip) => assert!(rt; is_example(&ip)),
            Err(_) => assert!(rt; false),
        },
        Err(_) => assert!(rt; false),
    }
}

/// The number and the offset of the fault of a value of ipAddrBlocks.
fn ip_fault(alloc: Global, digits: &str) -> Option<(u8, usize)> {
    let Ok(value) = hex::decode(alloc, digits) else {
        return None;
    };
    match read_ip_blocks(alloc, value.as_slice()) {
        Err(ResourceError::At(fault)) => Some((fault.kind.number(), fault.offset)),
        _ => None,
    }
}

/// A value of ipAddrBlocks, and the number of its fault and the offset.
const IP_FAULTS: &[(&str, u8, usize)] = &[
    // 33 bits
    ("3010300e0402000130080306070a00000000", 6, 10),
    // 129 bits
    (
        "301c301a0402000230140312070000000000000000000000000000000000",
        6,
        10,
    ),
    // min with a zero
    ("3015301304020001300d300b0304070a01000303030a08", 7, 12),
    // max with a one
    ("3014301204020001300c300a0303000a010303010a02", 7, 17),
    // max below min
    ("3014301204020001300c300a0303000a030303010a00", 8, 10),
    // a prefix as a range
    ("3013301104020001300b30090302010a0303010a00", 9, 10),
    // all as a range
    ("3010300e0402000130083006030100030100", 9, 10),
    // one address as a range
    (
        "30183016040200013010300e0305000a0000010305010a000000",
        9,
        10,
    ),
    // no blocks
    ("30083006040200013000", 10, 8),
    // adjacent
    ("3012301004020001300a0303000a000303000a01", 11, 8),
    // overlapping
    ("3012301004020001300a0303010a000303000a01", 11, 8),
    // descending
    ("3012301004020001300a0303000a020303000a00", 11, 8),
    // AFI 3
    ("300e300c040200033006030400c00002", 12, 4),
    // with a SAFI
    ("300f300d04030001013006030400c00002", 12, 4),
    // IPv6 first
    ("301030060402000205003006040200010500", 13, 0),
    // IPv4 twice
    ("301030060402000105003006040200010500", 13, 0),
    // inherit with a content
    ("3009300704020001050100", 15, 8),
    // three families
    (
        "3018300604020001050030060402000205003006040200020500",
        5,
        18,
    ),
    // bytes behind
    ("3008300604020001050000", 5, 10),
    // no family
    ("3000", 1, 2),
    // unused bit set
    ("300d300b0402000130050303040a0f", 4, 10),
];

#[test]
fn faults_of_addresses_are_named(rt: HostRuntime) {
    for &(digits, number, offset) in IP_FAULTS {
        assert!(rt; ip_fault(rt.alloc(), digits) == Some((number, offset)));
    }
}

/// The number and the offset of the fault of a value of autonomousSysIds.
fn as_fault(alloc: Global, digits: &str) -> Option<(u8, usize)> {
    let Ok(value) = hex::decode(alloc, digits) else {
        return None;
    };
    match read_as_ids(alloc, value.as_slice()) {
        Err(ResourceError::At(fault)) => Some((fault.kind.number(), fault.offset)),
        _ => None,
    }
}

/// A value of autonomousSysIds, and the number of its fault and the offset.
const AS_FAULTS: &[(&str, u8, usize)] = &[
    // with rdi, as in RFC 3779 appendix C
    (
        "301aa014301202020087300802020bb802020f9f02021389a1020500",
        16,
        24,
    ),
    // rdi alone
    ("3004a1020500", 2, 2),
    // negative
    ("3007a00530030201ff", 14, 6),
    // 2^32
    ("300ba009300702050100000000", 14, 6),
    // one number as a range
    ("3010a00e300c300a020300fbf0020300fbf0", 9, 6),
    // max below min
    ("3010a00e300c300a020300fbf1020300fbf0", 8, 6),
    // adjacent
    ("300ea00c300a020300fbf0020300fbf1", 11, 4),
    // twice
    ("300ea00c300a020300fbf0020300fbf0", 11, 4),
    // no numbers
    ("3004a0023000", 10, 4),
    // inherit with a content
    ("3005a003050100", 15, 4),
    // not in the fewest octets
    ("3008a006300402020001", 4, 6),
];

#[test]
fn faults_of_as_numbers_are_named(rt: HostRuntime) {
    for &(digits, number, offset) in AS_FAULTS {
        assert!(rt; as_fault(rt.alloc(), digits) == Some((number, offset)));
    }
}

/// The AS numbers that a value of autonomousSysIds lists.
fn listed(alloc: Global, digits: &str) -> Option<ResourceSet> {
    let Ok(value) = hex::decode(alloc, digits) else {
        return None;
    };
    match read_as_ids(alloc, value.as_slice()) {
        Ok(ResourceChoice::Listed(set)) => Some(set),
        _ => None,
    }
}

/// Whether all AS numbers of the one value are of the other. `None`: one of them lists none.
fn is_within(alloc: Global, inner: &str, outer: &str) -> Option<bool> {
    match (listed(alloc, inner), listed(alloc, outer)) {
        (Some(inner), Some(outer)) => Some(inner.is_within(&outer)),
        _ => None,
    }
}

/// Two values of autonomousSysIds, and whether the first is within the second.
const WITHIN: &[(&str, &str, bool)] = &[
    (
        "3008a006300402020087",
        "300da00b30093007020164020200c8",
        true,
    ),
    (
        "300da00b30093007020164020200c8",
        "300da00b30093007020164020200c8",
        true,
    ),
    (
        "300da00b30093007020163020200c8",
        "300da00b30093007020164020200c8",
        false,
    ),
    (
        "300da00b30093007020164020200c9",
        "300da00b30093007020164020200c8",
        false,
    ),
    (
        "3017a01530133007020164020200963008020200a0020200c8",
        "3015a01330113006020164020178300702017a020200c8",
        false,
    ),
    (
        "300ba00930070201010202012c",
        "301aa01830160201013007020164020200c830080202012b0202012d",
        true,
    ),
    (
        "300ba0093007020101020200ca",
        "301aa01830160201013007020164020200c830080202012b0202012d",
        false,
    ),
    (
        "300ea00c300a020100020500ffffffff",
        "3010a00e300c300a020100020500ffffffff",
        true,
    ),
];

#[test]
fn sets_are_within_others(rt: HostRuntime) {
    for &(inner, outer, holds) in WITHIN {
        assert!(rt; is_within(rt.alloc(), inner, outer) == Some(holds));
    }
}

/// Whether the subject holds what it lists, if the issuer has it, and nothing, if the issuer has nothing.
fn is_held(alloc: Global, choice: &ResourceChoice, issuer: &ResourceSet) -> bool {
    match choice.held(issuer) {
        Some(held) => {
            held.as_slice() == issuer.as_slice()
                && choice.held(&ResourceSet::empty(alloc)).is_none()
        }
        None => false,
    }
}

#[test]
fn resources_are_held(rt: HostRuntime) {
    let alloc = rt.alloc();
    match listed(alloc, AS_NUMBERS) {
        Some(issuer) => {
            assert!(rt; ResourceChoice::Inherit.held(&issuer).is_some());
            match listed(alloc, AS_NUMBERS) {
                Some(set) => assert!(rt; is_held(alloc, &ResourceChoice::Listed(set), &issuer)),
                None => assert!(rt; false),
            }
        }
        None => assert!(rt; false),
    }
}
