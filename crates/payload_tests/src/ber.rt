//! Elements in BER, and what DER makes of them (X.690 sections 8.1 and 10.1).
use crate::object_vectors::ROA;
use signed_objects::{ObjectFault, read_signed_object, to_der};
use std::alloc::Global;
use std::process::Abort;

/// Elements in hexadecimal digits, and the same in DER. The first is X.690 section 8.9.3, and the third section 8.6.4.2: pieces of a BIT
/// STRING stay. The last has 16 levels.
const LENGTHS: &[(&str, &str)] = &[
    ("300a1605536d6974680101ff", "300a1605536d6974680101ff"),
    ("30801605536d6974680101ff0000", "300a1605536d6974680101ff"),
    (
        "23800303000a3b0305045f291cd00000",
        "230c0303000a3b0305045f291cd0",
    ),
    ("308100", "3000"),
    ("3083000000", "3000"),
    ("04820001aa", "0401aa"),
    (
        "04fe000000000000000000000000000000000000000000000000000000000000000000000000000000000000000000000000000000000000000000000000000000000000000000000000000000000000000000000000000000000000000000000000000000000000000000000000000000000000000000000000000000000001aa",
        "0401aa",
    ),
    ("308031800201030000308200000000", "300731030201033000"),
    (
        "30803080308030803080308030803080308030803080308030803080308030800000000000000000000000000000000000000000000000000000000000000000",
        "301e301c301a30183016301430123010300e300c300a30083006300430023000",
    ),
];

/// OCTET STRINGs in pieces (X.690 section 8.7.3). The last three are [0] of certificates and of signedAttrs, whose octets stay, and of
/// eContent.
const STRINGS: &[(&str, &str)] = &[
    ("24800401aa0402bbcc0000", "0403aabbcc"),
    ("24060401aa0401bb", "0402aabb"),
    ("248024030401aa04000000", "0401aa"),
    ("308024802480048101aa0000040000000000", "30030401aa"),
    ("2400", "0400"),
    ("24800000", "0400"),
    (
        "3080a0803080a0803081000000000000000000",
        "3009a0073005a003308100",
    ),
    (
        "3080a080308031803080a0803081002403040100000000000000000000000000",
        "3012a010300e310c300aa0083081002403040100",
    ),
    (
        "3080a08030803080a08024800401aa000000000000000000000000",
        "300ba00930073005a0030401aa",
    ),
];

/// Bytes that are no element in BER, the number of the fault, and its offset.
const FAULTS: &[(&str, u8, usize)] = &[
    ("", 1, 0),
    ("30", 1, 0),
    ("3005", 1, 0),
    ("3080", 1, 2),
    ("308000", 37, 2),
    ("3084ffffffff", 1, 0),
    ("3003040200", 1, 2),
    ("308200", 1, 0),
    ("1f8100", 36, 0),
    ("30033f1f00", 36, 2),
    ("0000", 37, 0),
    ("30020000", 37, 2),
    ("30800001", 37, 2),
    ("24050401aa0500", 38, 5),
    ("24022300", 38, 2),
];

/// The same of lengths, levels, and bytes after an element. The number 42 needs 4 GB.
const MORE_FAULTS: &[(&str, u8, usize)] = &[
    (
        "30ff00000000000000000000000000000000000000000000000000000000000000000000000000000000000000000000000000000000000000000000000000000000000000000000000000000000000000000000000000000000000000000000000000000000000000000000000000000000000000000000000000000000000000",
        39,
        0,
    ),
    ("30850100000000", 39, 0),
    (
        "30fe000000000000000000000000000000000000000000000000000000000000000000000000000000000000000000000000000000000000000000000000000000000000000000000000000000000000000000000000000000000000000000000000000000000000000000000000000000000000000000000000000100000000",
        39,
        0,
    ),
    ("0480aa0000", 40, 0),
    ("30800480aa00000000", 40, 2),
    ("3080a0803080a08030800000", 41, 8),
    (
        "3080308030803080308030803080308030803080308030803080308030803080308000000000000000000000000000000000000000000000000000000000000000000000",
        43,
        32,
    ),
    (
        "248024802480248024802480248024802480248024802480248024802480248004000000000000000000000000000000000000000000000000000000000000000000",
        43,
        32,
    ),
    (
        "308030803080308030803080308030803080308030803080308030803080308005000000000000000000000000000000000000000000000000000000000000000000",
        43,
        32,
    ),
    ("300000", 5, 2),
    ("30800000aa", 5, 4),
];

/// Whether this is the DER of these bytes.
fn is_der(alloc: Global, bytes: &[u8], der: &[u8]) -> bool {
    match to_der(alloc, bytes) {
        Ok(written) => written.as_slice() == der,
        Err(_) => false,
    }
}

/// Whether DER makes these of the bytes.
fn becomes(alloc: Global, bytes: &str, der: &str) -> bool {
    match (hex::decode(alloc, bytes), hex::decode(alloc, der)) {
        (Ok(bytes), Ok(der)) => is_der(alloc, bytes.as_slice(), der.as_slice()),
        _ => false,
    }
}

fn expect_der<R: Abort>(rt: &R, alloc: Global, rows: &[(&str, &str)]) {
    for (bytes, der) in rows {
        assert!(rt; becomes(alloc, bytes, der));
    }
}

/// Whether this is the number and the offset of the fault of the bytes.
fn is_fault(alloc: Global, bytes: &str, number: u8, offset: usize) -> bool {
    let Ok(bytes) = hex::decode(alloc, bytes) else {
        return false;
    };
    match to_der(alloc, bytes.as_slice()) {
        Err(ObjectFault::At(fault)) => fault.kind.number() == number && fault.offset == offset,
        _ => false,
    }
}

fn expect_faults<R: Abort>(rt: &R, alloc: Global, rows: &[(&str, u8, usize)]) {
    for (bytes, number, offset) in rows {
        assert!(rt; is_fault(alloc, bytes, *number, *offset));
    }
}

#[test]
fn elements_become_der(rt: HostRuntime) {
    expect_der(&rt, rt.alloc(), LENGTHS);
    expect_der(&rt, rt.alloc(), STRINGS);
}

#[test]
fn elements_are_refused(rt: HostRuntime) {
    expect_faults(&rt, rt.alloc(), FAULTS);
    expect_faults(&rt, rt.alloc(), MORE_FAULTS);
}

/// The object with its outermost length left out, and the end of its contents after it.
fn in_ber(alloc: Global, der: &[u8]) -> Option<Vec<u8>> {
    let Ok(mut bytes) = Vec::from_slice(alloc, &[0x30u8, 0x80]) else {
        return None;
    };
    let content = der.get(4..).unwrap_or(&[]);
    if bytes.extend_from_slice(content).is_err() || bytes.extend_from_slice(&[0, 0]).is_err() {
        return None;
    }
    Some(bytes)
}

/// Whether an object is read of these bytes in BER as of those in DER.
fn is_read(alloc: Global, bytes: &[u8], der: &[u8]) -> bool {
    match (
        read_signed_object(alloc, bytes),
        read_signed_object(alloc, der),
    ) {
        (Ok(object), Ok(in_der)) => {
            in_der.is_der
                && !object.is_der
                && object.content == in_der.content
                && object.as_object().certificate.len() == 698
        }
        _ => false,
    }
}

/// Whether that is so of an object in DER, and of the same in BER.
fn is_read_in_both(alloc: Global, der: &[u8]) -> bool {
    match in_ber(alloc, der) {
        Some(bytes) => is_read(alloc, bytes.as_slice(), der),
        None => false,
    }
}

#[test]
fn an_object_in_ber_is_read(rt: HostRuntime) {
    match hex::decode(rt.alloc(), ROA) {
        Ok(der) => assert!(rt; is_read_in_both(rt.alloc(), der.as_slice())),
        Err(_) => assert!(rt; false),
    }
}
