//! Which certificates make authorities: each reason, and what is held.
use crate::issuers::{decoded, last, listed_resources};
use crate::vectors::{ANCHOR, CHILD, CRL, FULL_CRL, OVERCLAIMING_CHILD, ROA};
use der_lite::Moment;
use issuing::IssueFault;
use point_validation::{
    ChildFault, HeldResources, Issuer, ResourceCertificate, ResourceCertificateFault, judge_child,
    read_resource_certificate,
};
use resource_certificates::{Certificate, CertificateFaultKind, Revocations, Role, read_crl};
use resources::ResourceKind;
use std::alloc::Global;

/// The last number of each kind that is held.
type Last = (Option<u128>, Option<u128>, Option<u128>);

/// What is judged of a certificate.
fn judged_by(
    alloc: Global,
    file: &[u8],
    certificate: &Certificate,
    held: &HeldResources,
    revoked: &Revocations,
    moment: Moment,
) -> Result<Last, ChildFault> {
    let by = Issuer {
        certificate,
        held,
        revoked,
        moment,
    };
    match judge_child(alloc, file, &by) {
        Ok(child) => Ok((
            last(&child.held.v4),
            last(&child.held.v6),
            last(&child.held.as_numbers),
        )),
        Err(fault) => Err(fault),
    }
}

/// What is judged of a file, if the trust anchor has this CRL. `None`: something could not be read.
fn judged(alloc: Global, file: &str, crl: &str, now: &str) -> Option<Result<Last, ChildFault>> {
    let (Some(bytes), Ok(now)) = (decoded(alloc, crl, file), now.parse::<Moment>()) else {
        return None;
    };
    let (Ok(anchor), Ok(crl)) = (
        read_resource_certificate(alloc, Role::Anchor, bytes.anchor.as_slice()),
        read_crl(alloc, bytes.crl.as_slice()),
    ) else {
        return None;
    };
    let ResourceCertificate {
        certificate,
        extensions,
    } = anchor;
    match (
        listed_resources(extensions),
        Revocations::of(alloc, &crl.tbs.revoked),
    ) {
        (Some(held), Ok(revoked)) => Some(judged_by(
            alloc,
            bytes.file.as_slice(),
            &certificate,
            &held,
            &revoked,
            now,
        )),
        _ => None,
    }
}

#[test]
fn children_are_judged(rt: HostRuntime) {
    let alloc = rt.alloc();
    let now = "20270101000000Z";
    let held = (
        Some(0xc000_027f),
        Some(0x2001_0db8_ffff_ffff_ffff_ffff_ffff_ffff),
        Some(64511),
    );
    assert!(rt; judged(alloc, CHILD, CRL, now) == Some(Ok(held)));
    assert!(rt;
        judged(alloc, CHILD, FULL_CRL, now) == Some(Err(ChildFault::Issue(IssueFault::Revoked)))
    );
    assert!(rt;
        judged(alloc, CHILD, CRL, "20360101000000Z")
            == Some(Err(ChildFault::Issue(IssueFault::Expired)))
    );
    assert!(rt;
        judged(alloc, OVERCLAIMING_CHILD, CRL, now)
            == Some(Err(ChildFault::Excess(ResourceKind::Ipv6)))
    );
    assert!(rt;
        judged(alloc, OVERCLAIMING_CHILD, CRL, "20360101000000Z")
            == Some(Err(ChildFault::Issue(IssueFault::Expired)))
    );
}

/// The kind of the fault of a file that is no certificate of an authority.
fn certificate_fault(alloc: Global, file: &str) -> Option<CertificateFaultKind> {
    match judged(alloc, file, CRL, "20270101000000Z") {
        Some(Err(ChildFault::Certificate(ResourceCertificateFault::Certificate(fault)))) => {
            Some(fault.kind)
        }
        _ => None,
    }
}

#[test]
fn others_are_no_children(rt: HostRuntime) {
    let alloc = rt.alloc();
    // (a trust anchor names no issuer)
    assert!(rt; certificate_fault(alloc, ANCHOR) == Some(CertificateFaultKind::AuthorityKey));
    assert!(rt; certificate_fault(alloc, ROA).is_some());
}
