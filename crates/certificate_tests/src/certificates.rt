//! Certificates that are read, and the same with an octet that is another.
use crate::vectors::{ANCHOR, AUTHORITY, END_ENTITY, LONG_KEY, LONG_SERIAL, REDUCING};
use der_lite::Moment;
use issuing::is_of_object;
use resource_certificates::{Certificate, Role, read_certificate, read_elements};
use rsa_sha256::PublicKey;
use std::alloc::Global;
use std::process::Abort;

/// Whether the text is that of this moment.
fn is_moment(moment: &Moment, text: &str) -> bool {
    match text.parse::<Moment>() {
        Ok(wanted) => *moment == wanted,
        Err(_) => false,
    }
}

/// Whether the certificate of a signed object has these parts.
fn has_parts(der: &[u8]) -> bool {
    match read_elements(der) {
        Ok(certificate) => {
            certificate.tbs.serial == b"\x05".as_slice()
                && certificate.tbs.issuer.common == b"anchor".as_slice()
                && certificate.tbs.subject.common == b"ee".as_slice()
                && certificate.tbs.subject.serial == Some(b"17".as_slice())
                && is_moment(&certificate.tbs.not_after, "20350216050112Z")
                && certificate.tbs.key.modulus.len() == 256
                && certificate.signed.len() == 701
        }
        Err(_) => false,
    }
}

#[test]
fn elements_are_read(rt: HostRuntime) {
    match hex::decode(rt.alloc(), END_ENTITY) {
        Ok(der) => assert!(rt; has_parts(der.as_slice())),
        Err(_) => assert!(rt; false),
    }
}

/// Whether the signature of a certificate holds under the key of another.
fn is_signed_by(certificate: &Certificate, authority: &Certificate) -> bool {
    match PublicKey::new(authority.tbs.key.modulus) {
        Ok(key) => key.verify(certificate.signed, certificate.signature),
        Err(_) => false,
    }
}

/// Whether a trust anchor issued itself and another certificate, and that one issued neither.
fn is_issued(anchor: &[u8], other: &[u8], role: Role) -> bool {
    match (
        read_certificate(Role::Anchor, anchor),
        read_certificate(role, other),
    ) {
        (Ok(anchor), Ok(other)) => {
            other.is_issued_by(&anchor)
                && !anchor.is_issued_by(&other)
                && is_signed_by(&other, &anchor)
                && is_signed_by(&anchor, &anchor)
        }
        _ => false,
    }
}

fn expect_issued<R: Abort>(rt: &R, alloc: Global, other: &str, role: Role) {
    match (hex::decode(alloc, ANCHOR), hex::decode(alloc, other)) {
        (Ok(anchor), Ok(other)) => {
            assert!(rt; is_issued(anchor.as_slice(), other.as_slice(), role));
        }
        _ => assert!(rt; false),
    }
}

#[test]
fn certificates_are_issued(rt: HostRuntime) {
    expect_issued(&rt, rt.alloc(), AUTHORITY, Role::Authority);
    expect_issued(&rt, rt.alloc(), END_ENTITY, Role::EndEntity);
}

/// Whether the certificate of a signed object names these places.
fn has_object_places(der: &[u8]) -> bool {
    match read_certificate(Role::EndEntity, der) {
        Ok(certificate) => {
            certificate.crl_uri() == Some(b"rsync://h.example/r/ta.crl".as_slice())
                && certificate.issuer_uri() == Some(b"rsync://h.example/ta.cer".as_slice())
                && certificate.object_uri() == Some(b"rsync://h.example/r/a.roa".as_slice())
                && is_of_object(&certificate, b"rsync://h.example/r/a.roa")
                && !is_of_object(&certificate, b"rsync://h.example/r/b.roa")
                && certificate.repository_uri().is_none()
        }
        Err(_) => false,
    }
}

/// Whether an authority names these places.
fn has_authority_places(der: &[u8]) -> bool {
    match read_certificate(Role::Authority, der) {
        Ok(certificate) => {
            certificate.repository_uri() == Some(b"rsync://h.example/r/s/".as_slice())
                && certificate.manifest_uri() == Some(b"rsync://h.example/r/s/s.mft".as_slice())
                && certificate.object_uri().is_none()
                && !is_of_object(&certificate, b"rsync://h.example/r/s/s.mft")
        }
        Err(_) => false,
    }
}

#[test]
fn places_are_named(rt: HostRuntime) {
    match (
        hex::decode(rt.alloc(), END_ENTITY),
        hex::decode(rt.alloc(), AUTHORITY),
    ) {
        (Ok(object), Ok(authority)) => {
            assert!(rt; has_object_places(object.as_slice()));
            assert!(rt; has_authority_places(authority.as_slice()));
        }
        _ => assert!(rt; false),
    }
}

/// Whether this is the fault of a certificate in a role.
fn is_refused(alloc: Global, digits: &str, role: Role, number: u8, offset: usize) -> bool {
    let Ok(der) = hex::decode(alloc, digits) else {
        return false;
    };
    match read_certificate(role, der.as_slice()) {
        Err(fault) => fault.kind.number() == number && fault.offset == offset,
        Ok(_) => false,
    }
}

#[test]
fn other_roles_and_profiles_are_refused(rt: HostRuntime) {
    let alloc = rt.alloc();
    assert!(rt; is_refused(alloc, AUTHORITY, Role::EndEntity, 20, 0));
    assert!(rt; is_refused(alloc, END_ENTITY, Role::Authority, 20, 0));
    assert!(rt; is_refused(alloc, AUTHORITY, Role::Anchor, 22, 0));
    assert!(rt; is_refused(alloc, ANCHOR, Role::Authority, 22, 0));
    assert!(rt; is_refused(alloc, REDUCING, Role::EndEntity, 28, 0));
    assert!(rt; is_refused(alloc, LONG_KEY, Role::EndEntity, 14, 117));
    assert!(rt; is_refused(alloc, LONG_SERIAL, Role::EndEntity, 7, 13));
}

/// Whether this is the number and the offset of the fault of a certificate, if the octet at `at` is this one.
fn is_fault(
    alloc: Global,
    digits: &str,
    role: Role,
    &(at, octet, number, offset): &(usize, u8, u8, usize),
) -> bool {
    let Ok(mut der) = hex::decode(alloc, digits) else {
        return false;
    };
    if let Some(place) = der.get_mut(at) {
        *place = octet;
    }
    match read_certificate(role, der.as_slice()) {
        Err(fault) => fault.kind.number() == number && fault.offset == offset,
        Ok(_) => false,
    }
}

fn expect_faults<R: Abort>(
    rt: &R,
    alloc: Global,
    digits: &str,
    role: Role,
    rows: &[(usize, u8, u8, usize)],
) {
    for row in rows {
        assert!(rt; is_fault(alloc, digits, role, row));
    }
}

/// An offset, the octet that is put there, and then the number of the fault and its offset: elements in front of the extensions.
const ELEMENTS: &[(usize, u8, u8, usize)] = &[
    (0, 0x31, 2, 0),
    (12, 0x01, 6, 8),
    (15, 0x85, 7, 13),
    (28, 0x0c, 8, 16),
    (41, 0x06, 9, 37),
    (44, 0xff, 10, 42),
    (54, 0x35, 11, 52),
    (56, 0x39, 4, 52),
    (69, 0x32, 12, 50),
    (92, 0x05, 9, 82),
    (108, 0xb1, 10, 106),
    (126, 0x02, 13, 114),
    (133, 0x01, 14, 129),
    (403, 0x03, 14, 129),
    (404, 0xa2, 15, 404),
    (717, 0x0c, 8, 705),
    (724, 0x01, 19, 720),
];

/// The same of the extensions, and of what they say.
const EXTENSIONS: &[(usize, u8, u8, usize)] = &[
    (418, 0x25, 16, 414),
    (449, 0x0e, 17, 445),
    (485, 0x00, 18, 483),
    (485, 0x01, 18, 483),
    (683, 0x63, 18, 684),
    (423, 0x00, 21, 0),
    (454, 0x81, 22, 0),
    (491, 0xc0, 23, 0),
    (498, 0x63, 24, 0),
    (548, 0x63, 25, 0),
    (505, 0xa1, 24, 0),
    (511, 0x73, 24, 0),
    (564, 0x01, 25, 0),
    (567, 0x73, 25, 0),
    (602, 0x63, 26, 0),
    (618, 0x0a, 26, 0),
    (621, 0x73, 26, 0),
    (671, 0x04, 27, 0),
    (671, 0x03, 28, 0),
];

/// The same of an authority's places, and of its policy with a CPS.
const AUTHORITIES: &[(usize, u8, u8, usize)] = &[
    (646, 0x0d, 26, 0),
    (682, 0x05, 26, 0),
    (751, 0x02, 27, 0),
    (754, 0xe8, 27, 0),
];

#[test]
fn another_octet_is_a_fault(rt: HostRuntime) {
    expect_faults(&rt, rt.alloc(), END_ENTITY, Role::EndEntity, ELEMENTS);
    expect_faults(&rt, rt.alloc(), END_ENTITY, Role::EndEntity, EXTENSIONS);
    expect_faults(&rt, rt.alloc(), AUTHORITY, Role::Authority, AUTHORITIES);
}
