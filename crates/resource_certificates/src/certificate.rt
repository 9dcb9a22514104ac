//! Certificates (RFC 5280 section 4.1, RFC 6487 section 4).

ghost use Rattle.std.specs.Prelude.{◌≡◌};
ghost use Rattle.der_lite.specs.Moments.{moment_before};
ghost use Rattle.resource_certificates.specs.Gives.{GivesNext, GivesAll, ReadsFile};
ghost use Rattle.resource_certificates.specs.Reading.{version_at, serial_at, validity_at, holder_members_at, issue_members_at, tbs_members_at};
ghost use Rattle.resource_certificates.specs.Reading.{tbs_certificate_at, signed_tbs_at, certificate_members_at, certificate_at, file_all};

use crate::elements::{EXPLICIT_0, needed_element};
use crate::extensions::read_extensions;
use crate::key::{key_info, same_algorithm, signature_algorithm, signature_value};
use crate::name::read_name;
use crate::time::time;
use crate::{CertificateFault, CertificateFaultKind, Extensions, Key, Name};
use der_lite::{Cursor, Moment};
use std::marker::Model;

/// Version 3, which is INTEGER 2 (RFC 5280 section 4.1.2.1).
const VERSION_3: [u8; 3] = [2, 1, 2];

/// version [0] EXPLICIT: version 3.
#[tactic(auto, unfolding(crate::specs::Reading::version_at))]
fn version(cursor: &mut Cursor) -> Result<(), CertificateFault>
    ensures { GivesNext (λ _. tt) result cursor.new (version_at cursor.old) }
{
    let offset = cursor.offset();
    let version = needed_element(cursor, EXPLICIT_0, CertificateFaultKind::Version)?;
    if version.remaining() != VERSION_3.as_slice() {
        return Err(CertificateFaultKind::Version.at(offset));
    }
    Ok(())
}

/// The greatest number of octets of a serial number (RFC 5280 sections 4.1.2.2 and 5.2.3).
pub(crate) const LONGEST_SERIAL: usize = 20;

/// serialNumber.
#[tactic(auto, unfolding(crate::specs::Reading::serial_at, der_lite::specs::DerReading::content_at))]
pub(crate) fn read_serial<'a>(cursor: &mut Cursor<'a>) -> Result<&'a [u8], CertificateFault>
    ensures { GivesNext (λ serial. serial.now) result cursor.new (serial_at cursor.old) }
{
    let offset = cursor.offset();
    let content = cursor.integer()?;
    if content[0] >= 128 || content.len() > LONGEST_SERIAL {
        return Err(CertificateFaultKind::Serial.at(offset));
    }
    Ok(content)
}

/// notBefore and notAfter.
#[derive(Clone, Copy)]
struct Validity {
    not_before: Moment,
    not_after: Moment,
}

/// Whether one moment is before another.
#[tactic(auto, unfolding(der_lite::specs::Moments::moment_before))]
fn is_before(one: &Moment, other: &Moment) -> bool
    ensures { result ≡ moment_before one.now other.now }
{
    one < other
}

/// validity.
#[tactic(auto, unfolding(crate::specs::Reading::validity_at))]
fn read_validity(cursor: &mut Cursor) -> Result<Validity, CertificateFault>
    ensures { GivesNext (λ v. (v.not_before, v.not_after)) result cursor.new (validity_at cursor.old) }
{
    let offset = cursor.offset();
    let mut members = cursor.sequence()?;
    let not_before = time(&mut members)?;
    let not_after = time(&mut members)?;
    members.finish()?;
    if is_before(&not_after, &not_before) {
        return Err(CertificateFaultKind::Validity.at(offset));
    }
    Ok(Validity {
        not_before,
        not_after,
    })
}

/// subject, subjectPublicKeyInfo and extensions.
#[derive(Drop)]
struct Holder<'a> {
    subject: Name<'a>,
    key: Key<'a>,
    extensions: Extensions<'a>,
}

/// subject, subjectPublicKeyInfo and extensions, and the end.
#[tactic(auto, unfolding(crate::specs::Reading::holder_members_at))]
fn holder_members<'a>(members: Cursor<'a>) -> Result<Holder<'a>, CertificateFault>
    ensures { GivesAll (λ h. (h.subject, (h.key, h.extensions))) result (holder_members_at members.entry) }
{
    let mut members = members;
    let subject = read_name(&mut members)?;
    let key = key_info(&mut members)?;
    let extensions = read_extensions(&mut members)?;
    members.finish()?;
    Ok(Holder {
        subject,
        key,
        extensions,
    })
}

/// issuer and validity, and what follows them.
#[derive(Drop)]
struct Issue<'a> {
    issuer: Name<'a>,
    validity: Validity,
    holder: Holder<'a>,
}

/// issuer and validity, and what follows them.
#[tactic(auto, unfolding(crate::specs::Reading::issue_members_at))]
fn issue_members<'a>(members: Cursor<'a>) -> Result<Issue<'a>, CertificateFault>
    ensures { GivesAll (λ i. (i.issuer, ((i.validity.not_before, i.validity.not_after), (i.holder.subject, (i.holder.key, i.holder.extensions))))) result (issue_members_at members.entry) }
{
    let mut members = members;
    let issuer = read_name(&mut members)?;
    let validity = read_validity(&mut members)?;
    let holder = holder_members(members)?;
    Ok(Issue {
        issuer,
        validity,
        holder,
    })
}

/// What is signed of a certificate.
#[derive(Debug, Drop)]
pub struct Tbs<'a> {
    /// The content of the INTEGER serialNumber, at most 20 bytes, the highest first.
    pub serial: &'a [u8],
    /// The content of the signature's AlgorithmIdentifier.
    algorithm: &'a [u8],
    /// Who issued it.
    pub issuer: Name<'a>,
    /// From when on it is valid.
    pub not_before: Moment,
    /// Until when it is valid.
    pub not_after: Moment,
    /// Whom it is issued to.
    pub subject: Name<'a>,
    /// The key of the subject.
    pub key: Key<'a>,
    /// The extensions.
    pub extensions: Extensions<'a>,
}

impl<'a> Model for Tbs<'a> {
    ghost use Rattle.resource_certificates.specs.Certificates.{Tbs as TbsValue};

    ghost Value = { TbsValue };

    ghost view = { λ t. record {
      serial = t.serial.now;
      algorithm = t.algorithm.now;
      issuer = t.issuer;
      validity = (t.not_before, t.not_after);
      subject = t.subject;
      key = t.key;
      found = t.extensions;
    } };
}

/// version, serialNumber and signature, and what follows them.
#[tactic(auto, unfolding(crate::specs::Reading::tbs_members_at))]
fn tbs_members<'a>(members: Cursor<'a>) -> Result<Tbs<'a>, CertificateFault>
    ensures { GivesAll (λ t. t) result (tbs_members_at members.entry) }
{
    let mut members = members;
    version(&mut members)?;
    let serial = read_serial(&mut members)?;
    let algorithm = signature_algorithm(&mut members)?;
    let issue = issue_members(members)?;
    Ok(Tbs {
        serial,
        algorithm,
        issuer: issue.issuer,
        not_before: issue.validity.not_before,
        not_after: issue.validity.not_after,
        subject: issue.holder.subject,
        key: issue.holder.key,
        extensions: issue.holder.extensions,
    })
}

/// TBSCertificate.
#[tactic(auto, unfolding(crate::specs::Reading::tbs_certificate_at))]
fn tbs_certificate<'a>(cursor: &mut Cursor<'a>) -> Result<Tbs<'a>, CertificateFault>
    ensures { GivesNext (λ t. t) result cursor.new (tbs_certificate_at cursor.old) }
{
    let members = cursor.sequence()?;
    tbs_members(members)
}

/// TBSCertificate, and the octets of its element.
#[derive(Drop)]
struct SignedTbs<'a> {
    octets: &'a [u8],
    tbs: Tbs<'a>,
}

/// TBSCertificate, and the octets of its element.
#[tactic(auto, unfolding(crate::specs::Reading::signed_tbs_at))]
fn signed_tbs<'a>(cursor: &mut Cursor<'a>) -> Result<SignedTbs<'a>, CertificateFault>
    ensures { GivesNext (λ s. (s.octets.now, s.tbs)) result cursor.new (signed_tbs_at cursor.old) }
{
    let here = cursor.remaining();
    let tbs = tbs_certificate(cursor)?;
    Ok(SignedTbs {
        octets: &here[..here.len() - cursor.remaining().len()],
        tbs,
    })
}

/// A certificate: the octets that are signed, what they say, and the signature.
#[derive(Debug, Drop)]
pub struct Certificate<'a> {
    /// The octets that are signed.
    pub signed: &'a [u8],
    /// What they say.
    pub tbs: Tbs<'a>,
    /// The signature.
    pub signature: &'a [u8],
}

impl<'a> Model for Certificate<'a> {
    ghost use Rattle.resource_certificates.specs.Certificates.{Certificate as CertificateValue};

    ghost Value = { CertificateValue };

    ghost view = { λ c. record { signed = c.signed.now; tbs = c.tbs; signature = c.signature.now } };
}

/// tbsCertificate, signatureAlgorithm and signatureValue, and the end.
#[tactic(auto, unfolding(crate::specs::Reading::certificate_members_at))]
fn certificate_members<'a>(members: Cursor<'a>) -> Result<Certificate<'a>, CertificateFault>
    ensures { GivesAll (λ c. c) result (certificate_members_at members.entry) }
{
    let mut members = members;
    let signed = signed_tbs(&mut members)?;
    same_algorithm(&mut members, signed.tbs.algorithm)?;
    let signature = signature_value(&mut members)?;
    members.finish()?;
    Ok(Certificate {
        signed: signed.octets,
        tbs: signed.tbs,
        signature,
    })
}

/// Certificate.
#[tactic(auto, unfolding(crate::specs::Reading::certificate_at))]
fn read_certificate<'a>(cursor: &mut Cursor<'a>) -> Result<Certificate<'a>, CertificateFault>
    ensures { GivesNext (λ c. c) result cursor.new (certificate_at cursor.old) }
{
    let members = cursor.sequence()?;
    certificate_members(members)
}

/// The certificate, and the end.
#[tactic(auto, unfolding(crate::specs::Reading::file_all))]
fn file(bytes: &[u8]) -> Result<Certificate<'_>, CertificateFault>
    ensures { GivesAll (λ c. c) result (file_all bytes.now) }
{
    let mut whole = Cursor::new(bytes);
    let certificate = read_certificate(&mut whole)?;
    whole.finish()?;
    Ok(certificate)
}

/// Reads the elements of a certificate (RFC 5280 section 4.1, RFC 6487 section 4). The result borrows from `bytes`, and nothing is allocated.
/// The error is the first fault of the elements, from the first to the last. Bytes after the certificate are a fault.
/// What the extensions say is not judged: [`read_certificate`](crate::read_certificate) does it. The signature is not verified.
pub fn read_elements(bytes: &[u8]) -> Result<Certificate<'_>, CertificateFault>
    ensures { ReadsFile (λ c. c) result bytes.now }
{
    file(bytes)
}
