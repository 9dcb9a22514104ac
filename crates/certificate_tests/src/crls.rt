//! CRLs that are read, and the same with an octet that is another.
use crate::vectors::{ANCHOR, EMPTY_CRL, END_ENTITY, FULL_CRL};
use resource_certificates::{Crl, CrlFault, Revocations, Role, read_certificate, read_crl};
use rsa_sha256::PublicKey;
use std::alloc::Global;
use std::process::Abort;

/// Whether a CRL lists these serial numbers, in this order.
fn lists(crl: &Crl, serials: &[&[u8]]) -> bool {
    crl.tbs.revoked.as_slice() == serials
}

/// Whether the serial numbers 3, 5 and 255 are revoked, and 4 is not.
fn are_revoked(alloc: Global, crl: &Crl) -> bool {
    match Revocations::of(alloc, &crl.tbs.revoked) {
        Ok(revoked) => {
            revoked.has(b"\x03")
                && revoked.has(b"\x05")
                && revoked.has(b"\x00\xff")
                && !revoked.has(b"\x04")
                && !revoked.has(b"\xff")
        }
        Err(_) => false,
    }
}

/// Whether the trust anchor issued and signed the CRL, and the certificate of a signed object did not issue it.
fn is_of_anchor(crl: &Crl, anchor: &[u8], other: &[u8]) -> bool {
    match (
        read_certificate(Role::Anchor, anchor),
        read_certificate(Role::EndEntity, other),
    ) {
        (Ok(anchor), Ok(other)) => match PublicKey::new(anchor.tbs.key.modulus) {
            Ok(key) => {
                crl.is_issued_by(&anchor)
                    && !crl.is_issued_by(&other)
                    && key.verify(crl.signed, crl.signature)
            }
            Err(_) => false,
        },
        _ => false,
    }
}

/// Whether a CRL is read that has these serial numbers.
fn is_read(alloc: Global, der: &[u8], serials: &[&[u8]]) -> bool {
    match (
        read_crl(alloc, der),
        hex::decode(alloc, ANCHOR),
        hex::decode(alloc, END_ENTITY),
    ) {
        (Ok(crl), Ok(anchor), Ok(other)) => {
            lists(&crl, serials) && is_of_anchor(&crl, anchor.as_slice(), other.as_slice())
        }
        _ => false,
    }
}

/// Whether the CRL revokes what it should.
fn revokes(alloc: Global, der: &[u8]) -> bool {
    match read_crl(alloc, der) {
        Ok(crl) => are_revoked(alloc, &crl),
        Err(_) => false,
    }
}

fn expect_read<R: Abort>(rt: &R, alloc: Global, digits: &str, serials: &[&[u8]]) {
    match hex::decode(alloc, digits) {
        Ok(der) => assert!(rt; is_read(alloc, der.as_slice(), serials)),
        Err(_) => assert!(rt; false),
    }
}

#[test]
fn lists_are_read(rt: HostRuntime) {
    expect_read(
        &rt,
        rt.alloc(),
        FULL_CRL,
        &[
            b"\x03".as_slice(),
            b"\x05".as_slice(),
            b"\x00\xff".as_slice(),
        ],
    );
    expect_read(&rt, rt.alloc(), EMPTY_CRL, &[]);
}

#[test]
fn serials_in_any_order_are_revoked(rt: HostRuntime) {
    let Ok(mut der) = hex::decode(rt.alloc(), FULL_CRL) else {
        return;
    };
    assert!(rt; revokes(rt.alloc(), der.as_slice()));
    for (at, serial) in [(80, 5), (100, 3)] {
        if let Some(place) = der.get_mut(at) {
            *place = serial;
        }
    }
    assert!(rt; revokes(rt.alloc(), der.as_slice()));
}

/// Whether this is the number and the offset of the fault of the CRL, if the octet at `at` is this one.
fn is_fault(alloc: Global, &(at, octet, number, offset): &(usize, u8, u8, usize)) -> bool {
    let Ok(mut der) = hex::decode(alloc, FULL_CRL) else {
        return false;
    };
    if let Some(place) = der.get_mut(at) {
        *place = octet;
    }
    match read_crl(alloc, der.as_slice()) {
        Err(CrlFault::At(fault)) => fault.kind.number() == number && fault.offset == offset,
        _ => false,
    }
}

fn expect_faults<R: Abort>(rt: &R, alloc: Global, rows: &[(usize, u8, u8, usize)]) {
    for row in rows {
        assert!(rt; is_fault(alloc, row));
    }
}

/// An offset, the octet that is put there, and then the number of the fault and its offset.
const FAULTS: &[(usize, u8, u8, usize)] = &[
    (9, 0x00, 30, 7),
    (22, 0x0c, 8, 10),
    (46, 0x35, 11, 44),
    (80, 0x83, 7, 78),
    (137, 0xa1, 31, 137),
    (152, 0x81, 22, 0),
    (180, 0x1f, 32, 176),
    (180, 0x23, 32, 139),
    (185, 0x8a, 33, 0),
    (198, 0x0c, 8, 186),
    (205, 0x01, 19, 201),
];

#[test]
fn another_octet_of_a_crl_is_a_fault(rt: HostRuntime) {
    expect_faults(&rt, rt.alloc(), FAULTS);
}
