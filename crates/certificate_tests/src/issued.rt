//! Who issued certificates and CRLs that count at a moment: each reason, and both sides of each bound.
use crate::vectors::{ANCHOR, AUTHORITY, EMPTY_CRL, END_ENTITY, FULL_CRL};
use der_lite::Moment;
use issuing::{IssueFault, judge_certificate, judge_crl};
use resource_certificates::{Certificate, Revocations, Role, read_certificate, read_crl};
use std::alloc::Global;

/// Which octet of the certificate of an object is another, if one is.
#[derive(Clone, Copy)]
struct Edit {
    at: usize,
    octet: u8,
}

/// No octet is another.
const NONE: Edit = Edit {
    at: 10_000,
    octet: 0,
};

/// The last octet of the signature.
const SIGNATURE: Edit = Edit { at: 980, octet: 0 };

/// The serial numbers that a CRL revokes, and what is judged of a certificate then.
fn judged_by(
    alloc: Global,
    certificate: &Certificate,
    authority: &Certificate,
    crl: &[u8],
    now: &Moment,
) -> Option<Result<(), IssueFault>> {
    let Ok(crl) = read_crl(alloc, crl) else {
        return None;
    };
    match Revocations::of(alloc, &crl.tbs.revoked) {
        Ok(revoked) => Some(judge_certificate(certificate, authority, &revoked, now)),
        Err(_) => None,
    }
}

/// What is judged of the certificate of a signed object. `None`: something could not be read.
fn judged(
    alloc: Global,
    edit: Edit,
    (authority, role): (&str, Role),
    crl: &str,
    now: &str,
) -> Option<Result<(), IssueFault>> {
    let (Ok(mut der), Ok(authority), Ok(crl), Ok(now)) = (
        hex::decode(alloc, END_ENTITY),
        hex::decode(alloc, authority),
        hex::decode(alloc, crl),
        now.parse::<Moment>(),
    ) else {
        return None;
    };
    if let Some(place) = der.get_mut(edit.at) {
        *place = edit.octet;
    }
    match (
        read_certificate(Role::EndEntity, der.as_slice()),
        read_certificate(role, authority.as_slice()),
    ) {
        (Ok(certificate), Ok(authority)) => {
            judged_by(alloc, &certificate, &authority, crl.as_slice(), &now)
        }
        _ => None,
    }
}

#[test]
fn certificates_are_judged(rt: HostRuntime) {
    let alloc = rt.alloc();
    let anchor = (ANCHOR, Role::Anchor);
    let other = (AUTHORITY, Role::Authority);
    let object = (END_ENTITY, Role::EndEntity);
    let none = Some(Err(IssueFault::NoAuthority));
    assert!(rt; judged(alloc, NONE, object, EMPTY_CRL, "20261130050112Z") == none);
    assert!(rt; judged(alloc, NONE, anchor, EMPTY_CRL, "20261130050112Z") == Some(Ok(())));
    assert!(rt; judged(alloc, NONE, anchor, EMPTY_CRL, "20350216050112Z") == Some(Ok(())));
    assert!(rt;
        judged(alloc, NONE, anchor, EMPTY_CRL, "20261130050111Z") == Some(Err(IssueFault::NotYet))
    );
    assert!(rt;
        judged(alloc, NONE, anchor, EMPTY_CRL, "20350216050113Z") == Some(Err(IssueFault::Expired))
    );
    assert!(rt;
        judged(alloc, NONE, anchor, FULL_CRL, "20270101000000Z") == Some(Err(IssueFault::Revoked))
    );
    assert!(rt;
        judged(alloc, NONE, other, FULL_CRL, "20350216050113Z") == Some(Err(IssueFault::Issuer))
    );
    assert!(rt;
        judged(alloc, SIGNATURE, anchor, EMPTY_CRL, "20270101000000Z")
            == Some(Err(IssueFault::Signature))
    );
    assert!(rt;
        judged(alloc, SIGNATURE, anchor, FULL_CRL, "20270101000000Z")
            == Some(Err(IssueFault::Revoked))
    );
}

/// What is judged of a CRL, if this is its last octet, at a moment.
fn judged_crl(
    alloc: Global,
    last: Option<u8>,
    (authority, role): (&str, Role),
    now: &str,
) -> Option<Result<(), IssueFault>> {
    let (Ok(mut der), Ok(authority), Ok(now)) = (
        hex::decode(alloc, EMPTY_CRL),
        hex::decode(alloc, authority),
        now.parse::<Moment>(),
    ) else {
        return None;
    };
    if let (Some(octet), Some(place)) = (last, der.last_mut()) {
        *place = octet;
    }
    match (
        read_crl(alloc, der.as_slice()),
        read_certificate(role, authority.as_slice()),
    ) {
        (Ok(crl), Ok(authority)) => Some(judge_crl(&crl, &authority, &now)),
        _ => None,
    }
}

#[test]
fn lists_are_judged(rt: HostRuntime) {
    let alloc = rt.alloc();
    let anchor = (ANCHOR, Role::Anchor);
    let other = (AUTHORITY, Role::Authority);
    let object = (END_ENTITY, Role::EndEntity);
    let none = Some(Err(IssueFault::NoAuthority));
    assert!(rt; judged_crl(alloc, None, object, "20260101000000Z") == none);
    assert!(rt; judged_crl(alloc, None, anchor, "20260101000000Z") == Some(Ok(())));
    assert!(rt; judged_crl(alloc, None, anchor, "20270101000000Z") == Some(Ok(())));
    assert!(rt;
        judged_crl(alloc, None, anchor, "20251231235959Z") == Some(Err(IssueFault::NotYet))
    );
    assert!(rt;
        judged_crl(alloc, None, anchor, "20270101000001Z") == Some(Err(IssueFault::Expired))
    );
    assert!(rt; judged_crl(alloc, None, other, "20260101000000Z") == Some(Err(IssueFault::Issuer)));
    assert!(rt;
        judged_crl(alloc, Some(0), anchor, "20260101000000Z") == Some(Err(IssueFault::Signature))
    );
}
