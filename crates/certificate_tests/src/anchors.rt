//! Which certificate is the trust anchor of a locator at a moment: each reason, and both sides of each bound.
use crate::vectors::{ANCHOR, AUTHORITY};
use der_lite::Moment;
use issuing::is_signed_by;
use resource_certificates::{Certificate, Role, read_certificate};
use resources::{IpResources, ResourceChoice, read_as_ids, read_ip_blocks};
use std::alloc::Global;
use trust_anchors::{AnchorFault, Tal, judge_anchor};

/// What is another of the trust anchor, or of its locator.
#[derive(Clone, Copy, PartialEq, Eq)]
enum Change {
    Nothing,
    /// The locator has another key.
    Key,
    /// The name of the issuer has another character.
    Issuer,
    /// IPv6 addresses are inherited.
    Ipv6,
    /// AS numbers are inherited.
    As,
    /// The signature has another octet at its end.
    Signature,
}

/// A locator of this key.
fn locator(alloc: Global, modulus: &[u8]) -> Option<Tal<'_>> {
    match Vec::from_slice(alloc, modulus) {
        Ok(modulus) => Some(Tal {
            uris: Vec::new(alloc),
            modulus,
        }),
        Err(_) => None,
    }
}

/// What is judged of a certificate.
fn judged_by(
    alloc: Global,
    change: Change,
    certificate: &Certificate,
    now: &Moment,
) -> Option<Result<(), AnchorFault>> {
    let Some(mut tal) = locator(alloc, certificate.tbs.key.modulus) else {
        return None;
    };
    if change == Change::Key {
        if let Some(octet) = tal.modulus.first_mut() {
            *octet = 0;
        }
    }
    let (Some(ip), Some(as_ids)) = (certificate.ip_blocks(), certificate.as_ids()) else {
        return None;
    };
    let (Ok(mut ip), Ok(mut as_ids)) = (read_ip_blocks(alloc, ip), read_as_ids(alloc, as_ids))
    else {
        return None;
    };
    if change == Change::Ipv6 {
        ip.v6 = Some(ResourceChoice::Inherit);
    }
    if change == Change::As {
        as_ids = ResourceChoice::Inherit;
    }
    Some(judge_anchor(certificate, Some(&ip), Some(&as_ids), &tal, now))
}

/// What is judged of the trust anchor after a change.
fn judged(alloc: Global, change: Change, now: &str) -> Option<Result<(), AnchorFault>> {
    let (Ok(mut der), Ok(now)) = (hex::decode(alloc, ANCHOR), now.parse::<Moment>()) else {
        return None;
    };
    if change == Change::Issuer {
        // `anchor` begins at 46
        if let Some(octet) = der.get_mut(46) {
            *octet = b'b';
        }
    }
    if change == Change::Signature {
        if let Some(octet) = der.last_mut() {
            *octet = 0;
        }
    }
    match read_certificate(Role::Anchor, der.as_slice()) {
        Ok(certificate) => judged_by(alloc, change, &certificate, &now),
        Err(_) => None,
    }
}

#[test]
fn anchors_are_judged(rt: HostRuntime) {
    let alloc = rt.alloc();
    let begin = "20261130050112Z";
    let end = "20361127050112Z";
    assert!(rt; judged(alloc, Change::Nothing, begin) == Some(Ok(())));
    assert!(rt; judged(alloc, Change::Nothing, end) == Some(Ok(())));
    assert!(rt;
        judged(alloc, Change::Nothing, "20261130050111Z") == Some(Err(AnchorFault::NotYet))
    );
    assert!(rt;
        judged(alloc, Change::Nothing, "20361127050113Z") == Some(Err(AnchorFault::Expired))
    );
    assert!(rt; judged(alloc, Change::Key, begin) == Some(Err(AnchorFault::Key)));
    assert!(rt; judged(alloc, Change::Issuer, begin) == Some(Err(AnchorFault::Issuer)));
    assert!(rt; judged(alloc, Change::Ipv6, begin) == Some(Err(AnchorFault::Inherits)));
    assert!(rt; judged(alloc, Change::As, begin) == Some(Err(AnchorFault::Inherits)));
    assert!(rt; judged(alloc, Change::Signature, begin) == Some(Err(AnchorFault::Signature)));
    assert!(rt; judged(alloc, Change::Key, end) == Some(Err(AnchorFault::Key)));
}

/// Whether a certificate of this role is self-issued, and whether its own key has signed it.
fn is_own(role: Role, der: &[u8]) -> Option<(bool, bool)> {
    match read_certificate(role, der) {
        Ok(it) => Some((
            it.is_self_issued(),
            is_signed_by(it.tbs.key.modulus, it.signed, it.signature),
        )),
        Err(_) => None,
    }
}

#[test]
fn an_anchor_alone_is_its_own(rt: HostRuntime) {
    let (Ok(anchor), Ok(authority)) = (
        hex::decode(rt.alloc(), ANCHOR),
        hex::decode(rt.alloc(), AUTHORITY),
    ) else {
        assert!(rt; false);
        return;
    };
    assert!(rt; is_own(Role::Anchor, anchor.as_slice()) == Some((true, true)));
    assert!(rt; is_own(Role::Authority, authority.as_slice()) == Some((false, false)));
}
