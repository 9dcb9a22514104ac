//! Reading SignedData in DER, from top to bottom (RFC 5652 section 5.1, RFC 6488 section 2.1).

ghost use Rattle.std.specs.Prelude.{◌≡◌};
ghost use Rattle.signed_objects.specs.Gives.{GivesNext, GivesAll};
ghost use Rattle.der_forms.specs.CombinatorReading.{found_at};
ghost use Rattle.der_forms.specs.Combinators.{barred};
ghost use Rattle.signed_objects.specs.Reading.{digest_algorithms_at, content_here, encapsulated_at, certificates_at, signer_infos_at, signed_by_at, signed_data_at, wrapped_data_at, content_info_at, content_type_at, object_all};

use crate::certificate::{Certificate, read_certificate};
use crate::elements::{EXPLICIT_0, SET, begins, end, needed_element, version};
use crate::oid::object_identifier;
use crate::signer::{Signer, digest_algorithm, signer_info};
use crate::{CmsFault, CmsFaultKind};
use der_lite::Cursor;

/// The tag of a constructed [1].
const EXPLICIT_1: u8 = 0xa1;

/// id-signedData, 1.2.840.113549.1.7.2 (RFC 5652 section 5.1).
const ID_SIGNED_DATA: [u8; 9] = [0x2a, 0x86, 0x48, 0x86, 0xf7, 0x0d, 0x01, 0x07, 0x02];

/// digestAlgorithms: one.
#[tactic(auto, unfolding(crate::specs::Reading::digest_algorithms_at))]
fn digest_algorithms<'a>(cursor: &mut Cursor<'a>) -> Result<&'a [u8], CmsFault>
    ensures { GivesNext (λ content. content.now) result cursor.new (digest_algorithms_at cursor.old) }
{
    let offset = cursor.offset();
    let mut members = cursor.tagged(SET)?;
    if members.at_end() {
        return Err(CmsFaultKind::DigestAlgorithms.at(offset));
    }
    let algorithm = digest_algorithm(&mut members)?;
    end(members, CmsFaultKind::DigestAlgorithms)?;
    Ok(algorithm)
}

/// eContent [0] EXPLICIT OCTET STRING.
#[tactic(auto, unfolding(crate::specs::Reading::content_here))]
fn content<'a>(cursor: &mut Cursor<'a>) -> Result<&'a [u8], CmsFault>
    ensures { GivesNext (λ content. content.now) result cursor.new (content_here cursor.old) }
{
    let mut members = needed_element(cursor, EXPLICIT_0, CmsFaultKind::NoContent)?;
    let content = members.octets()?;
    members.finish()?;
    Ok(content)
}

/// A content, and its type.
#[derive(Clone, Copy, Debug)]
struct Encapsulated<'a> {
    content_type: &'a [u8],
    content: &'a [u8],
}

/// encapContentInfo: eContentType and eContent.
#[tactic(auto, unfolding(crate::specs::Reading::encapsulated_at))]
fn encapsulated_content<'a>(cursor: &mut Cursor<'a>) -> Result<Encapsulated<'a>, CmsFault>
    ensures { GivesNext (λ e. (e.content_type.now, e.content.now)) result cursor.new (encapsulated_at cursor.old) }
{
    let mut members = cursor.sequence()?;
    let content_type = object_identifier(&mut members)?;
    let content = content(&mut members)?;
    members.finish()?;
    Ok(Encapsulated {
        content_type,
        content,
    })
}

/// certificates [0]: one.
#[tactic(auto, unfolding(crate::specs::Reading::certificates_at))]
fn certificates<'a>(cursor: &mut Cursor<'a>) -> Result<Certificate<'a>, CmsFault>
    ensures { GivesNext (λ c. (c.octets.now, record { modulus = c.key.modulus.now; identifier = c.key.identifier.now })) result cursor.new (certificates_at cursor.old) }
{
    let offset = cursor.offset();
    let mut members = needed_element(cursor, EXPLICIT_0, CmsFaultKind::Certificates)?;
    if members.at_end() {
        return Err(CmsFaultKind::Certificates.at(offset));
    }
    let certificate = read_certificate(&mut members)?;
    end(members, CmsFaultKind::Certificates)?;
    Ok(certificate)
}

/// The members of signerInfos. crls [1], whose place is before it, is left out.
fn signer_members<'a>(cursor: &mut Cursor<'a>) -> Result<Cursor<'a>, CmsFault>
    ensures { GivesNext (λ c. c) result cursor.new (found_at (barred 18 161) 49 cursor.old) }
{
    if begins(cursor, EXPLICIT_1) {
        return Err(CmsFaultKind::Crls.at(cursor.offset()));
    }
    Ok(cursor.tagged(SET)?)
}

/// signerInfos: one.
#[tactic(auto, unfolding(crate::specs::Reading::signer_infos_at))]
fn signer_infos<'a>(cursor: &mut Cursor<'a>) -> Result<Signer<'a>, CmsFault>
    ensures { GivesNext (λ s. record { identifier = s.identifier.now; octets = s.attributes.octets.now; said = record { content_type = s.attributes.content_type.now; message_digest = s.attributes.message_digest.now }; signature = s.signature.now }) result cursor.new (signer_infos_at cursor.old) }
{
    let offset = cursor.offset();
    let mut members = signer_members(cursor)?;
    if members.at_end() {
        return Err(CmsFaultKind::SignerInfos.at(offset));
    }
    let signer = signer_info(&mut members)?;
    end(members, CmsFaultKind::SignerInfos)?;
    Ok(signer)
}

/// A certificate, and the signer.
#[derive(Clone, Copy, Debug)]
struct SignedBy<'a> {
    certificate: Certificate<'a>,
    signer: Signer<'a>,
}

/// certificates and signerInfos, and the end.
#[tactic(auto, unfolding(crate::specs::Reading::signed_by_at))]
fn read_signed_by<'a>(members: Cursor<'a>) -> Result<SignedBy<'a>, CmsFault>
    ensures { GivesAll (λ b. ((b.certificate.octets.now, record { modulus = b.certificate.key.modulus.now; identifier = b.certificate.key.identifier.now }), record { identifier = b.signer.identifier.now; octets = b.signer.attributes.octets.now; said = record { content_type = b.signer.attributes.content_type.now; message_digest = b.signer.attributes.message_digest.now }; signature = b.signer.signature.now })) result (signed_by_at members.entry) }
{
    let mut members = members;
    let certificate = certificates(&mut members)?;
    let signer = signer_infos(&mut members)?;
    members.finish()?;
    Ok(SignedBy {
        certificate,
        signer,
    })
}

/// The parts of a signed object, in place.
#[derive(Clone, Copy, Debug)]
pub(crate) struct ObjectParts<'a> {
    /// eContentType.
    pub(crate) content_type: &'a [u8],
    /// eContent.
    pub(crate) content: &'a [u8],
    /// The certificate.
    pub(crate) certificate: Certificate<'a>,
    /// The signer.
    pub(crate) signer: Signer<'a>,
}

/// SignedData.
#[tactic(auto, unfolding(crate::specs::Reading::signed_data_at))]
fn signed_data<'a>(cursor: &mut Cursor<'a>) -> Result<ObjectParts<'a>, CmsFault>
    ensures { GivesNext (λ o. record { content_type = o.content_type.now; content = o.content.now; certificate = o.certificate.octets.now; key = record { modulus = o.certificate.key.modulus.now; identifier = o.certificate.key.identifier.now }; signer = record { identifier = o.signer.identifier.now; octets = o.signer.attributes.octets.now; said = record { content_type = o.signer.attributes.content_type.now; message_digest = o.signer.attributes.message_digest.now }; signature = o.signer.signature.now } }) result cursor.new (signed_data_at cursor.old) }
{
    let mut members = cursor.sequence()?;
    version(&mut members, CmsFaultKind::Version)?;
    let _algorithm = digest_algorithms(&mut members)?;
    let encapsulated = encapsulated_content(&mut members)?;
    let by = read_signed_by(members)?;
    Ok(ObjectParts {
        content_type: encapsulated.content_type,
        content: encapsulated.content,
        certificate: by.certificate,
        signer: by.signer,
    })
}

/// content [0] EXPLICIT: SignedData.
#[tactic(auto, unfolding(crate::specs::Reading::wrapped_data_at))]
fn wrapped_data<'a>(cursor: &mut Cursor<'a>) -> Result<ObjectParts<'a>, CmsFault>
    ensures { GivesNext (λ o. record { content_type = o.content_type.now; content = o.content.now; certificate = o.certificate.octets.now; key = record { modulus = o.certificate.key.modulus.now; identifier = o.certificate.key.identifier.now }; signer = record { identifier = o.signer.identifier.now; octets = o.signer.attributes.octets.now; said = record { content_type = o.signer.attributes.content_type.now; message_digest = o.signer.attributes.message_digest.now }; signature = o.signer.signature.now } }) result cursor.new (wrapped_data_at cursor.old) }
{
    let mut members = cursor.tagged(EXPLICIT_0)?;
    let parts = signed_data(&mut members)?;
    members.finish()?;
    Ok(parts)
}

/// contentType: id-signedData.
#[tactic(auto, unfolding(crate::specs::Reading::content_type_at))]
fn content_type(cursor: &mut Cursor) -> Result<(), CmsFault>
    ensures { GivesNext (λ _. tt) result cursor.new (content_type_at cursor.old) }
{
    let offset = cursor.offset();
    if cursor.oid()? != ID_SIGNED_DATA.as_slice() {
        return Err(CmsFaultKind::NoSignedData.at(offset));
    }
    Ok(())
}

/// ContentInfo (RFC 5652 section 3).
#[tactic(auto, unfolding(crate::specs::Reading::content_info_at))]
fn content_info<'a>(cursor: &mut Cursor<'a>) -> Result<ObjectParts<'a>, CmsFault>
    ensures { GivesNext (λ o. record { content_type = o.content_type.now; content = o.content.now; certificate = o.certificate.octets.now; key = record { modulus = o.certificate.key.modulus.now; identifier = o.certificate.key.identifier.now }; signer = record { identifier = o.signer.identifier.now; octets = o.signer.attributes.octets.now; said = record { content_type = o.signer.attributes.content_type.now; message_digest = o.signer.attributes.message_digest.now }; signature = o.signer.signature.now } }) result cursor.new (content_info_at cursor.old) }
{
    let mut members = cursor.sequence()?;
    content_type(&mut members)?;
    let parts = wrapped_data(&mut members)?;
    members.finish()?;
    Ok(parts)
}

/// ContentInfo, and the end.
#[tactic(auto, unfolding(crate::specs::Reading::object_all))]
pub(crate) fn object_parts(der: &[u8]) -> Result<ObjectParts<'_>, CmsFault>
    ensures { GivesAll (λ o. record { content_type = o.content_type.now; content = o.content.now; certificate = o.certificate.octets.now; key = record { modulus = o.certificate.key.modulus.now; identifier = o.certificate.key.identifier.now }; signer = record { identifier = o.signer.identifier.now; octets = o.signer.attributes.octets.now; said = record { content_type = o.signer.attributes.content_type.now; message_digest = o.signer.attributes.message_digest.now }; signature = o.signer.signature.now } }) result (object_all der.now) }
{
    let mut whole = Cursor::new(der);
    let parts = content_info(&mut whole)?;
    whole.finish()?;
    Ok(parts)
}
