//! A signed object that is one, and the same with an octet that is another.
use crate::object_vectors::ROA;
use signed_objects::{ObjectFault, read_der_object};
use std::alloc::Global;
use std::process::Abort;

/// The content and the identifier of the key, in hexadecimal digits.
const CONTENT: &str = "3017020300fbf03010300e0402000130083006030400c00002";

const KEY_IDENTIFIER: &str = "50a4a3a6d07f5c0c332f8b1224083fd22b902f89";

/// Whether the object has these parts.
fn has_parts(alloc: Global, der: &[u8], content: &[u8], key_identifier: &[u8]) -> bool {
    match read_der_object(alloc, der) {
        Ok(object) => {
            object.content == content
                && object.content_type == b"\x2a\x86\x48\x86\xf7\x0d\x01\x09\x10\x01\x18".as_slice()
                && object.key_identifier == key_identifier
                && object.certificate.len() == 698
        }
        Err(_) => false,
    }
}

/// Whether the object is read.
fn is_read(alloc: Global, der: &[u8]) -> bool {
    match (
        hex::decode(alloc, CONTENT),
        hex::decode(alloc, KEY_IDENTIFIER),
    ) {
        (Ok(content), Ok(key)) => has_parts(alloc, der, content.as_slice(), key.as_slice()),
        _ => false,
    }
}

#[test]
fn an_object_is_read(rt: HostRuntime) {
    match hex::decode(rt.alloc(), ROA) {
        Ok(der) => assert!(rt; is_read(rt.alloc(), der.as_slice())),
        Err(_) => assert!(rt; false),
    }
}

/// Whether this is the number and the offset of the fault of the object, if the octet at `at` is this one.
fn is_fault(alloc: Global, &(at, octet, number, offset): &(usize, u8, u8, usize)) -> bool {
    let Ok(mut der) = hex::decode(alloc, ROA) else {
        return false;
    };
    if let Some(place) = der.get_mut(at) {
        *place = octet;
    }
    match read_der_object(alloc, der.as_slice()) {
        Err(ObjectFault::At(fault)) => fault.kind.number() == number && fault.offset == offset,
        _ => false,
    }
}

fn expect_faults<R: Abort>(rt: &R, alloc: Global, rows: &[(usize, u8, u8, usize)]) {
    for row in rows {
        assert!(rt; is_fault(alloc, row));
    }
}

/// An offset, the octet that is put there, and then the number of the fault and its offset: mostly before the signer.
const BEFORE_THE_SIGNER: &[(usize, u8, u8, usize)] = &[
    (204, 0x8a, 1, 201),
    (0, 0x04, 2, 0),
    (481, 0xbf, 3, 480),
    (103, 0x00, 4, 102),
    (527, 0x33, 5, 579),
    (10, 0x40, 6, 4),
    (25, 0x40, 7, 23),
    (27, 0x46, 8, 41),
    (822, 0xba, 9, 820),
    (56, 0x04, 10, 56),
    (85, 0x04, 11, 85),
    (97, 0x04, 12, 97),
    (194, 0x40, 13, 186),
    (212, 0x79, 14, 201),
    (476, 0x04, 15, 476),
];

/// The same of octets in the signer, and of what is judged of the whole object.
const IN_THE_SIGNER: &[(usize, u8, u8, usize)] = &[
    (485, 0x72, 17, 478),
    (787, 0xa1, 18, 787),
    (788, 0x00, 19, 787),
    (797, 0x41, 20, 795),
    (798, 0x04, 21, 798),
    (835, 0x04, 22, 835),
    (873, 0x65, 23, 867),
    (926, 0x03, 24, 916),
    (881, 0x10, 25, 898),
    (929, 0x04, 26, 929),
    (836, 0x00, 27, 835),
    (836, 0x1c, 28, 835),
    (951, 0x3f, 29, 944),
    (800, 0x00, 31, 0),
    (854, 0x00, 32, 0),
    (885, 0x7f, 33, 0),
    (470, 0x80, 34, 0),
    (938, 0x00, 35, 0),
];

#[test]
fn other_octets_are_refused(rt: HostRuntime) {
    expect_faults(&rt, rt.alloc(), BEFORE_THE_SIGNER);
    expect_faults(&rt, rt.alloc(), IN_THE_SIGNER);
}

/// Objects that end with an eContentType of some content (X.690 section 8.19), the number of the fault and its offset. Of an OBJECT IDENTIFIER
/// the fault is that no content follows. The contents have no octet, end within a subidentifier, or have one that begins with 0x80.
const TYPES: &[(&str, u8, usize)] = &[
    (
        "302506092a864886f70d010702a0183016020103310d300b060960864801650304020130020600",
        4,
        37,
    ),
    (
        "302606092a864886f70d010702a0193017020103310d300b06096086480165030402013003060180",
        4,
        37,
    ),
    (
        "302606092a864886f70d010702a0193017020103310d300b060960864801650304020130030601ff",
        4,
        37,
    ),
    (
        "302806092a864886f70d010702a01b3019020103310d300b060960864801650304020130050603802a03",
        4,
        37,
    ),
    (
        "302806092a864886f70d010702a01b3019020103310d300b0609608648016503040201300506032a8003",
        4,
        37,
    ),
    (
        "302806092a864886f70d010702a01b3019020103310d300b0609608648016503040201300506032a0383",
        4,
        37,
    ),
    (
        "302606092a864886f70d010702a0193017020103310d300b06096086480165030402013003060100",
        10,
        40,
    ),
    (
        "302606092a864886f70d010702a0193017020103310d300b0609608648016503040201300306017f",
        10,
        40,
    ),
    (
        "302806092a864886f70d010702a01b3019020103310d300b0609608648016503040201300506032a8301",
        10,
        42,
    ),
    (
        "302906092a864886f70d010702a01c301a020103310d300b06096086480165030402013006060482808000",
        10,
        43,
    ),
];

/// Whether this is the number and the offset of the fault of the object.
fn is_fault_of(alloc: Global, &(digits, number, offset): &(&str, u8, usize)) -> bool {
    let Ok(der) = hex::decode(alloc, digits) else {
        return false;
    };
    match read_der_object(alloc, der.as_slice()) {
        Err(ObjectFault::At(fault)) => fault.kind.number() == number && fault.offset == offset,
        _ => false,
    }
}

#[test]
fn a_type_is_an_object_identifier(rt: HostRuntime) {
    for row in TYPES {
        assert!(rt; is_fault_of(rt.alloc(), row));
    }
}

/// The same of octets of the ROA in its OBJECT IDENTIFIERs: of eContentType, of the extension and of the content-type attribute. A top bit
/// that is set is right but for the last octet, and 0x80 is right behind such an octet: then the attribute is of another type.
const IDENTIFIERS: &[(usize, u8, u8, usize)] = &[
    (55, 0x98, 4, 43),
    (55, 0x80, 4, 43),
    (55, 0x7f, 32, 0),
    (45, 0x80, 4, 43),
    (46, 0x80, 4, 43),
    (49, 0x80, 32, 0),
    (52, 0x80, 4, 43),
    (54, 0x81, 32, 0),
    (484, 0x80, 4, 482),
    (486, 0x8e, 4, 482),
    (485, 0x9d, 17, 478),
    (854, 0x80, 4, 852),
    (864, 0x98, 4, 852),
    (863, 0x81, 32, 0),
];

#[test]
fn identifiers_are_object_identifiers(rt: HostRuntime) {
    expect_faults(&rt, rt.alloc(), IDENTIFIERS);
}
