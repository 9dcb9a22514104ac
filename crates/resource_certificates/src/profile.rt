//! What the extensions of a resource certificate say (RFC 6487 section 4.8).

ghost use Rattle.std.specs.Prelude.{◌≡◌, option_map, bytes_eq};
ghost use Rattle.resource_certificates.specs.Places.{crl_uri_of as crl_uri_of_value, accesses_of as accesses_of_value};
ghost use Rattle.resource_certificates.specs.Profile.{subject_value, authority_value, is_value as is_value_of, usage_of, are_constraints as are_constraints_of, is_key_value as is_key_value_of};
ghost use Rattle.resource_certificates.specs.Profile.{has_key_value as has_key_value_of, is_authority_key as is_authority_key_of, are_points as are_points_of, are_issuers as are_issuers_of};
ghost use Rattle.resource_certificates.specs.Profile.{is_authority_info as is_authority_info_of, is_object_info as is_object_info_of, is_info as is_info_of, Profiled, ReadsCertificate};
ghost use Rattle.resource_certificates.specs.Profile.{is_authority as is_authority_of};

use crate::certificate::{Certificate, Tbs, read_elements};
use crate::directory::names_file;
use crate::places::{Accesses, accesses_of, crl_uri_of};
use crate::policies::{IP_ADDR_AS_NUMBER, IP_ADDR_AS_NUMBER_V2, are_policies};
use crate::role::Role;
use crate::{CertificateFault, CertificateFaultKind};
use sha1::Sha1;

/// A SEQUENCE of cA TRUE (RFC 6487 section 4.8.1).
const CA_CONSTRAINTS: [u8; 5] = [0x30, 3, 1, 1, 0xff];

/// keyCertSign and cRLSign (RFC 6487 section 4.8.4).
const CA_USAGE: [u8; 4] = [3, 2, 1, 6];

/// digitalSignature (RFC 6487 section 4.8.4).
const EE_USAGE: [u8; 4] = [3, 2, 7, 0x80];

/// Whether a value is an OCTET STRING of the identifier of the key of these bits.
fn is_subject_value(value: &[u8], bits: &[u8]) -> bool
    ensures { result ≡ bytes_eq value.now (subject_value bits.now) }
{
    match value {
        [4, 20, identifier @ ..] => identifier == Sha1::digest(bits).as_slice(),
        _ => false,
    }
}

/// Whether a value is a SEQUENCE of the identifier of the key of these bits.
pub(crate) fn is_authority_value(value: &[u8], bits: &[u8]) -> bool
    ensures { result ≡ bytes_eq value.now (authority_value bits.now) }
{
    match value {
        [0x30, 22, 0x80, 20, identifier @ ..] => identifier == Sha1::digest(bits).as_slice(),
        _ => false,
    }
}

/// Whether the extension is there, with this value.
fn is_value(found: Option<&[u8]>, wanted: &[u8]) -> bool
    ensures { result ≡ is_value_of (option_map (λ v. v.now) found.entry) wanted.now }
{
    match found {
        Some(value) => value == wanted,
        None => false,
    }
}

/// Whether subjectKeyIdentifier is there, and names the key of these bits.
fn names_key(found: Option<&[u8]>, bits: &[u8]) -> bool
    ensures { result ≡ is_value_of (option_map (λ v. v.now) found.entry) (subject_value bits.now) }
{
    match found {
        Some(value) => is_subject_value(value, bits),
        None => false,
    }
}

/// Whether a value is a SEQUENCE of a keyIdentifier of 20 bytes.
pub(crate) fn is_key_value(value: &[u8]) -> bool
    ensures { result ≡ is_key_value_of value.now }
{
    match value {
        [0x30, 22, 0x80, 20, identifier @ ..] => identifier.len() == 20,
        _ => false,
    }
}

/// Whether a keyIdentifier alone is there.
fn has_key_value(found: Option<&[u8]>) -> bool
    ensures { result ≡ has_key_value_of (option_map (λ v. v.now) found.entry) }
{
    match found {
        Some(value) => is_key_value(value),
        None => false,
    }
}

/// Whether authorityKeyIdentifier is as it is due.
fn is_authority_key(role: Role, bits: &[u8], found: Option<&[u8]>) -> bool
    ensures { result ≡ is_authority_key_of role bits.now (option_map (λ v. v.now) found.entry) }
{
    match (role, found) {
        (Role::Anchor, None) => true,
        (Role::Anchor, Some(value)) => is_authority_value(value, bits),
        (Role::Authority | Role::EndEntity, found) => has_key_value(found),
    }
}

/// Whether basicConstraints is as it is due.
fn are_constraints(role: Role, found: Option<&[u8]>) -> bool
    ensures { result ≡ are_constraints_of role (option_map (λ v. v.now) found.entry) }
{
    match role {
        Role::Anchor | Role::Authority => is_value(found, CA_CONSTRAINTS.as_slice()),
        Role::EndEntity => found.is_none(),
    }
}

/// Whether keyUsage is as it is due.
fn is_usage(role: Role, found: Option<&[u8]>) -> bool
    ensures { result ≡ is_value_of (option_map (λ v. v.now) found.entry) (usage_of role) }
{
    match role {
        Role::Anchor | Role::Authority => is_value(found, CA_USAGE.as_slice()),
        Role::EndEntity => is_value(found, EE_USAGE.as_slice()),
    }
}

/// Whether cRLDistributionPoints is as it is due.
fn are_points(role: Role, found: Option<&[u8]>) -> bool
    ensures { result ≡ are_points_of role (option_map (λ v. v.now) found.entry) }
{
    match role {
        Role::Anchor => found.is_none(),
        Role::Authority | Role::EndEntity => crl_uri_of(found).is_some(),
    }
}

/// Whether authorityInfoAccess is as it is due.
fn are_issuers(role: Role, found: Option<&[u8]>) -> bool
    ensures { result ≡ are_issuers_of role (option_map (λ v. v.now) found.entry) }
{
    match role {
        Role::Anchor => found.is_none(),
        Role::Authority | Role::EndEntity => accesses_of(found).issuer.is_some(),
    }
}

/// Whether these are the places of an authority.
fn is_authority_info(accesses: &Accesses) -> bool
    ensures { result ≡ is_authority_info_of accesses.now }
{
    names_file(accesses.repository, accesses.manifest) && !accesses.bad_notify
}

/// Whether this is the place of a signed object.
fn is_object_info(accesses: &Accesses) -> bool
    ensures { result ≡ is_object_info_of accesses.now }
{
    accesses.object.is_some() && !accesses.other
}

/// Whether subjectInfoAccess is as it is due.
fn is_info(role: Role, found: Option<&[u8]>) -> bool
    ensures { result ≡ is_info_of role (option_map (λ v. v.now) found.entry) }
{
    let accesses = accesses_of(found);
    match role {
        Role::Anchor | Role::Authority => is_authority_info(&accesses),
        Role::EndEntity => is_object_info(&accesses),
    }
}

/// The first rule of the profile that is broken.
fn broken(role: Role, tbs: &Tbs) -> Option<CertificateFaultKind>
    ensures { Profiled result role tbs.now }
{
    let extensions = &tbs.extensions;
    let bits = tbs.key.bits;
    if !are_constraints(role, extensions.basic_constraints) {
        Some(CertificateFaultKind::BasicConstraints)
    } else if !names_key(extensions.subject_key, bits) {
        Some(CertificateFaultKind::SubjectKey)
    } else if !is_authority_key(role, bits, extensions.authority_key) {
        Some(CertificateFaultKind::AuthorityKey)
    } else if !is_usage(role, extensions.key_usage) {
        Some(CertificateFaultKind::KeyUsage)
    } else if !are_points(role, extensions.distribution_points) {
        Some(CertificateFaultKind::DistributionPoints)
    } else if !are_issuers(role, extensions.authority_info) {
        Some(CertificateFaultKind::AuthorityInfo)
    } else if !is_info(role, extensions.subject_info) {
        Some(CertificateFaultKind::SubjectInfo)
    } else if are_policies(extensions.policies, IP_ADDR_AS_NUMBER_V2) {
        Some(CertificateFaultKind::ReducingPolicy)
    } else if !are_policies(extensions.policies, IP_ADDR_AS_NUMBER) {
        Some(CertificateFaultKind::Policies)
    } else if extensions.ip_blocks.is_none() && extensions.as_ids.is_none() {
        Some(CertificateFaultKind::NoResources)
    } else {
        None
    }
}

/// Reads a resource certificate in this role (RFC 6487). The result borrows from `bytes`, and nothing is allocated.
/// `Err`: the first fault. The elements come first, in their order, then what the extensions say, in the order of RFC 6487 section 4.8. Those have
/// offset 0. The signature, the time, who issued the certificate, and which resources it has are not judged.
pub fn read_certificate(role: Role, bytes: &[u8]) -> Result<Certificate<'_>, CertificateFault>
    ensures { ReadsCertificate (λ c. c) role result bytes.now }
{
    let certificate = read_elements(bytes)?;
    match broken(role, &certificate.tbs) {
        Some(kind) => Err(kind.at(0)),
        None => Ok(certificate),
    }
}

impl<'a> Certificate<'a> {
    /// Returns whether the extensions let the subject issue certificates. They do if cA is TRUE and the key may sign certificates and CRLs, and
    /// nothing else (RFC 5280 section 6.1.4). `false`: one of the two extensions is missing or has another value.
    pub fn is_authority(&self) -> bool
        ensures { result ≡ is_authority_of self.now.tbs }
    {
        is_value(
            self.tbs.extensions.basic_constraints,
            CA_CONSTRAINTS.as_slice(),
        ) && is_value(self.tbs.extensions.key_usage, CA_USAGE.as_slice())
    }

    /// Returns the first rsync URI of cRLDistributionPoints, in ASCII, at which the CRL of the issuer is (RFC 6487 section 4.8.6). `None`: there is
    /// none.
    pub fn crl_uri(&self) -> Option<&'a [u8]>
        ensures { option_map (λ u. u.now) result ≡ crl_uri_of_value self.now.tbs.found.distribution_points }
    {
        crl_uri_of(self.tbs.extensions.distribution_points)
    }

    /// Returns the first rsync URI of caIssuers, in ASCII, at which the certificate of the issuer is (RFC 6487 section 4.8.7). `None`: there is none.
    pub fn issuer_uri(&self) -> Option<&'a [u8]>
        ensures { option_map (λ u. u.now) result ≡ (accesses_of_value self.now.tbs.found.authority_info).issuer }
    {
        accesses_of(self.tbs.extensions.authority_info).issuer
    }

    /// Returns the first rsync URI of caRepository, in ASCII, at which the files of an authority are (RFC 6487 section 4.8.8.1). `None`: there is
    /// none.
    pub fn repository_uri(&self) -> Option<&'a [u8]>
        ensures { option_map (λ u. u.now) result ≡ (accesses_of_value self.now.tbs.found.subject_info).repository }
    {
        accesses_of(self.tbs.extensions.subject_info).repository
    }

    /// Returns the first rsync URI of rpkiManifest, in ASCII, at which the manifest of an authority is (RFC 6487 section 4.8.8.1). `None`: there is
    /// none.
    pub fn manifest_uri(&self) -> Option<&'a [u8]>
        ensures { option_map (λ u. u.now) result ≡ (accesses_of_value self.now.tbs.found.subject_info).manifest }
    {
        accesses_of(self.tbs.extensions.subject_info).manifest
    }

    /// Returns the value of the extension ipAddrBlocks as DER: which IP addresses the subject has (RFC 3779 section 2). `None`: the certificate does
    /// not have the extension.
    pub fn ip_blocks(&self) -> Option<&'a [u8]>
        ensures { option_map (λ v. v.now) result ≡ self.now.tbs.found.ip_blocks }
    {
        self.tbs.extensions.ip_blocks
    }

    /// Returns the value of the extension autonomousSysIds as DER: which AS numbers the subject has (RFC 3779 section 3). `None`: the certificate
    /// does not have the extension.
    pub fn as_ids(&self) -> Option<&'a [u8]>
        ensures { option_map (λ v. v.now) result ≡ self.now.tbs.found.as_ids }
    {
        self.tbs.extensions.as_ids
    }

    /// Returns the first rsync URI of signedObject, in ASCII, at which the object of an end entity is (RFC 6487 section 4.8.8.2). `None`: there is
    /// none.
    pub fn object_uri(&self) -> Option<&'a [u8]>
        ensures { option_map (λ u. u.now) result ≡ (accesses_of_value self.now.tbs.found.subject_info).object }
    {
        accesses_of(self.tbs.extensions.subject_info).object
    }
}
