//! Which certificate is a trust anchor (RFC 8630 section 3).

ghost use Rattle.std.specs.Prelude.{◌≡◌, option_map};
ghost use Rattle.trust_anchors.specs.Anchors.{is_inherit as is_inherit_of, inherits_ip as inherits_ip_of, JudgesAnchor};

use crate::validity::is_before;
use crate::{AnchorFault, Tal};
use der_lite::Moment;
use issuing::is_signed_by;
use resource_certificates::Certificate;
use resources::{IpResources, ResourceChoice};

/// Whether the resources of one kind are inherited.
fn is_inherit(choice: Option<&ResourceChoice>) -> bool
    ensures { result ≡ is_inherit_of (option_map (λ c. c.now) choice.entry) }
{
    match choice {
        Some(ResourceChoice::Inherit) => true,
        Some(ResourceChoice::Listed(_)) | None => false,
    }
}

/// Whether addresses of some family are inherited.
fn inherits_ip(ip: Option<&IpResources>) -> bool
    ensures { result ≡ inherits_ip_of (option_map (λ r. r.now) ip.entry) }
{
    match ip {
        Some(ip) => is_inherit(ip.v4.as_ref()) || is_inherit(ip.v6.as_ref()),
        None => false,
    }
}

/// Judges whether a certificate is a trust anchor for the key of `tal` at `now` (RFC 8630 section 3). The first reason in the order of
/// [`AnchorFault`] is reported.
///
/// - `Key`: the key is another than that of the locator (RFC 8630 section 2.3).
/// - `Issuer`: the issuer does not have the characters of the certificate's own subject.
/// - `NotYet`, `Expired`: `now` is before notBefore, or after notAfter. Both moments are included (RFC 5280 section 4.1.2.5).
/// - `Inherits`: it inherits addresses or AS numbers (RFC 8630 section 2.3).
/// - `Signature`: its own key has not signed it.
///
/// `certificate` has to be read as [`Role::Anchor`](resource_certificates::Role::Anchor). Then it is an authority, has neither
/// cRLDistributionPoints nor authorityInfoAccess, and authorityKeyIdentifier is absent or that of its own key: this is not judged again. `ip` and
/// `as_ids` have to be what `resources` reads of its extensions. Not judged is which numbers it lists, nor at which URI it was found.
pub fn judge_anchor(
    certificate: &Certificate,
    ip: Option<&IpResources>,
    as_ids: Option<&ResourceChoice>,
    tal: &Tal,
    now: &Moment,
) -> Result<(), AnchorFault>
    ensures { JudgesAnchor tal.now now.now (option_map (λ r. r.now) ip.entry, option_map (λ c. c.now) as_ids.entry) certificate.now result }
{
    let tbs = &certificate.tbs;
    if tbs.key.modulus != tal.modulus.as_slice() {
        return Err(AnchorFault::Key);
    }
    if !certificate.is_self_issued() {
        return Err(AnchorFault::Issuer);
    }
    if is_before(now, &tbs.not_before) {
        return Err(AnchorFault::NotYet);
    }
    if is_before(&tbs.not_after, now) {
        return Err(AnchorFault::Expired);
    }
    if inherits_ip(ip) || is_inherit(as_ids) {
        return Err(AnchorFault::Inherits);
    }
    if !is_signed_by(tbs.key.modulus, certificate.signed, certificate.signature) {
        return Err(AnchorFault::Signature);
    }
    Ok(())
}
