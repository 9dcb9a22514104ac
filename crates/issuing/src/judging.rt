//! Names, times, revoked serial numbers and signatures.

ghost use Rattle.std.specs.Prelude.{◌≡◌, ◌↔◌, IsTrue};
ghost use Rattle.der_lite.specs.Moments.{moment_before};
ghost use Rattle.issuing.specs.Issued.{IsSignedBy, JudgesCertificate, JudgesCrl};

use crate::IssueFault;
use der_lite::Moment;
use resource_certificates::{Certificate, Crl, Revocations};
use rsa_sha256::PublicKey;

/// Whether one moment is before another.
#[tactic(auto, unfolding(der_lite::specs::Moments::moment_before))]
fn is_before(one: &Moment, other: &Moment) -> bool
    ensures { result ≡ moment_before one.now other.now }
{
    one < other
}

/// Returns whether `signature` is that of `octets` by the RSA key of this modulus and the exponent 65537 (RSASSA-PKCS1-v1_5 with SHA-256, RFC 7935
/// section 2). `modulus` has the most significant octet first. `false` also if that is no modulus that the RPKI uses.
pub fn is_signed_by(modulus: &[u8], octets: &[u8], signature: &[u8]) -> bool
    ensures { IsTrue result ↔ IsSignedBy modulus.now octets.now signature.now }
{
    match PublicKey::new(modulus) {
        Ok(key) => key.verify(octets, signature),
        Err(_) => false,
    }
}

/// Judges whether `authority` issued `certificate` and whether it counts at `now`, a time in UTC (RFC 6487 section 7.2). `Ok(())`: both hold. `Err`:
/// the first reason in the order of [`IssueFault`]. At notBefore and at notAfter themselves the certificate counts.
///
/// `authority` has to be judged itself, or be a trust anchor. `revoked` has to be from the CRL of this authority that [`judge_crl`] accepted. What
/// the certificate says of resources is not judged. A trust anchor without authorityKeyIdentifier is not issued by itself: `Issuer`.
pub fn judge_certificate(
    certificate: &Certificate,
    authority: &Certificate,
    revoked: &Revocations,
    now: &Moment,
) -> Result<(), IssueFault>
    ensures { JudgesCertificate now.now authority.now revoked.now certificate.now result }
{
    if !authority.is_authority() {
        return Err(IssueFault::NoAuthority);
    }
    if !certificate.is_issued_by(authority) {
        return Err(IssueFault::Issuer);
    }
    if is_before(now, &certificate.tbs.not_before) {
        return Err(IssueFault::NotYet);
    }
    if is_before(&certificate.tbs.not_after, now) {
        return Err(IssueFault::Expired);
    }
    if revoked.has(certificate.tbs.serial) {
        return Err(IssueFault::Revoked);
    }
    if !is_signed_by(
        authority.tbs.key.modulus,
        certificate.signed,
        certificate.signature,
    ) {
        return Err(IssueFault::Signature);
    }
    Ok(())
}

/// Judges whether `authority` issued `crl` and whether it counts at `now`, a time in UTC (RFC 5280 section 6.3.3). `Ok(())`: both hold. `Err`: the
/// first reason in the order of [`IssueFault`], never `Revoked`. At thisUpdate and at nextUpdate themselves the CRL counts.
/// `authority` has to be judged itself, or be a trust anchor.
pub fn judge_crl(crl: &Crl, authority: &Certificate, now: &Moment) -> Result<(), IssueFault>
    ensures { JudgesCrl now.now authority.now crl.now result }
{
    if !authority.is_authority() {
        return Err(IssueFault::NoAuthority);
    }
    if !crl.is_issued_by(authority) {
        return Err(IssueFault::Issuer);
    }
    if is_before(now, &crl.tbs.this_update) {
        return Err(IssueFault::NotYet);
    }
    if is_before(&crl.tbs.next_update, now) {
        return Err(IssueFault::Expired);
    }
    if !is_signed_by(authority.tbs.key.modulus, crl.signed, crl.signature) {
        return Err(IssueFault::Signature);
    }
    Ok(())
}
