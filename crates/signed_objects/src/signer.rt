//! Reading the signer of a signed object (RFC 5652 section 5.3, RFC 6488 section 2.1.6).

ghost use Rattle.std.specs.Prelude.{◌≡◌, [], ◌∷◌};
ghost use Rattle.signed_objects.specs.Gives.{GivesNext, GivesAll};
ghost use Rattle.signed_objects.specs.Cms.{is_algorithm as is_algorithm_of, sha_256, is_rsa as is_rsa_of, pkcs_1, unsigned_number};
ghost use Rattle.der_forms.specs.CombinatorReading.{nothing_at};
ghost use Rattle.signed_objects.specs.Reading.{digest_algorithm_at, signature_algorithm_at, signer_identifier_at, signature_members_at, signed_members_at, signer_info_at};

use crate::attributes::{SignedAttributes, signed_attributes};
use crate::elements::{begins, needed_octets, version};
use crate::{CmsFault, CmsFaultKind};
use der_lite::{Cursor, DerFaultKind};

/// The tag of an implicitly tagged, primitive [0].
const IMPLICIT_0: u8 = 0x80;

/// The tag of a constructed [1].
const EXPLICIT_1: u8 = 0xa1;

/// AlgorithmIdentifier of SHA-256, with NULL (RFC 7935 section 2).
const SHA_256: [u8; 13] = [
    0x06, 0x09, 0x60, 0x86, 0x48, 0x01, 0x65, 0x03, 0x04, 0x02, 0x01, 0x05, 0x00,
];

/// AlgorithmIdentifier of rsaEncryption, with NULL (RFC 7935 section 2).
const RSA_ENCRYPTION: [u8; 13] = [
    0x06, 0x09, 0x2a, 0x86, 0x48, 0x86, 0xf7, 0x0d, 0x01, 0x01, 0x01, 0x05, 0x00,
];

/// AlgorithmIdentifier of sha256WithRSAEncryption, with NULL (RFC 7935 section 2).
const SHA_256_WITH_RSA_ENCRYPTION: [u8; 13] = [
    0x06, 0x09, 0x2a, 0x86, 0x48, 0x86, 0xf7, 0x0d, 0x01, 0x01, 0x0b, 0x05, 0x00,
];

/// Whether the content of an AlgorithmIdentifier is that of SHA-256, with parameters that are absent or NULL.
fn is_sha_256(content: &[u8]) -> bool
    ensures { result ≡ is_algorithm_of sha_256 content.now }
{
    content == &SHA_256[..11] || content == SHA_256.as_slice()
}

/// Whether the content of an AlgorithmIdentifier is that of rsaEncryption, with parameters that are absent or NULL.
fn is_rsa_encryption(content: &[u8]) -> bool
    ensures { result ≡ is_algorithm_of (pkcs_1 1) content.now }
{
    content == &RSA_ENCRYPTION[..11] || content == RSA_ENCRYPTION.as_slice()
}

/// Whether the content of an AlgorithmIdentifier is that of sha256WithRSAEncryption, with parameters that are absent or NULL.
fn is_sha_256_with_rsa_encryption(content: &[u8]) -> bool
    ensures { result ≡ is_algorithm_of (pkcs_1 11) content.now }
{
    content == &SHA_256_WITH_RSA_ENCRYPTION[..11]
        || content == SHA_256_WITH_RSA_ENCRYPTION.as_slice()
}

/// Whether the content of an AlgorithmIdentifier is that of an RSA signature with SHA-256.
fn is_rsa(content: &[u8]) -> bool
    ensures { result ≡ is_rsa_of content.now }
{
    is_rsa_encryption(content) || is_sha_256_with_rsa_encryption(content)
}

/// DigestAlgorithmIdentifier: SHA-256.
#[tactic(auto, unfolding(crate::specs::Reading::digest_algorithm_at, der_lite::specs::DerReading::content_at))]
pub(crate) fn digest_algorithm<'a>(cursor: &mut Cursor<'a>) -> Result<&'a [u8], CmsFault>
    ensures { GivesNext (λ content. content.now) result cursor.new (digest_algorithm_at cursor.old) }
{
    let offset = cursor.offset();
    let content = cursor.sequence()?.remaining();
    if !is_sha_256(content) {
        return Err(CmsFaultKind::DigestAlgorithm.at(offset));
    }
    Ok(content)
}

/// SignatureAlgorithmIdentifier: rsaEncryption or sha256WithRSAEncryption.
#[tactic(auto, unfolding(crate::specs::Reading::signature_algorithm_at, der_lite::specs::DerReading::content_at))]
fn signature_algorithm<'a>(cursor: &mut Cursor<'a>) -> Result<&'a [u8], CmsFault>
    ensures { GivesNext (λ content. content.now) result cursor.new (signature_algorithm_at cursor.old) }
{
    let offset = cursor.offset();
    let content = cursor.sequence()?.remaining();
    if !is_rsa(content) {
        return Err(CmsFaultKind::SignatureAlgorithm.at(offset));
    }
    Ok(content)
}

/// sid: subjectKeyIdentifier [0].
#[tactic(auto, unfolding(crate::specs::Reading::signer_identifier_at))]
fn signer_identifier<'a>(cursor: &mut Cursor<'a>) -> Result<&'a [u8], CmsFault>
    ensures { GivesNext (λ identifier. identifier.now) result cursor.new (signer_identifier_at cursor.old) }
{
    needed_octets(cursor, IMPLICIT_0, CmsFaultKind::SignerIdentifier)
}

/// The end of SignerInfo: unsignedAttrs [1] is left out.
fn signer_end(members: Cursor) -> Result<(), CmsFault>
    ensures { GivesAll (λ _. tt) result (nothing_at unsigned_number members.entry) }
{
    if members.at_end() {
        return Ok(());
    }
    let kind = if begins(&members, EXPLICIT_1) {
        CmsFaultKind::UnsignedAttributes
    } else {
        CmsFaultKind::Element(DerFaultKind::Trailing)
    };
    Err(kind.at(members.offset()))
}

/// signatureAlgorithm and signature, and the end.
#[tactic(auto, unfolding(crate::specs::Reading::signature_members_at))]
fn signature_members<'a>(members: Cursor<'a>) -> Result<&'a [u8], CmsFault>
    ensures { GivesAll (λ signature. signature.now) result (signature_members_at members.entry) }
{
    let mut members = members;
    let _algorithm = signature_algorithm(&mut members)?;
    let signature = members.octets()?;
    signer_end(members)?;
    Ok(signature)
}

/// The signed attributes, and the signature.
#[derive(Clone, Copy, Debug)]
struct Signed<'a> {
    attributes: SignedAttributes<'a>,
    signature: &'a [u8],
}

/// digestAlgorithm and signedAttrs, and what follows them.
#[tactic(auto, unfolding(crate::specs::Reading::signed_members_at))]
fn signed_members<'a>(members: Cursor<'a>) -> Result<Signed<'a>, CmsFault>
    ensures { GivesAll (λ s. ((s.attributes.octets.now, record { content_type = s.attributes.content_type.now; message_digest = s.attributes.message_digest.now }), s.signature.now)) result (signed_members_at members.entry) }
{
    let mut members = members;
    let _algorithm = digest_algorithm(&mut members)?;
    let attributes = signed_attributes(&mut members)?;
    let signature = signature_members(members)?;
    Ok(Signed {
        attributes,
        signature,
    })
}

/// A signer.
#[derive(Clone, Copy, Debug)]
pub(crate) struct Signer<'a> {
    /// The identifier of its key.
    pub(crate) identifier: &'a [u8],
    /// What it signs.
    pub(crate) attributes: SignedAttributes<'a>,
    /// The signature of the attributes.
    pub(crate) signature: &'a [u8],
}

/// SignerInfo.
#[tactic(auto, unfolding(crate::specs::Reading::signer_info_at))]
pub(crate) fn signer_info<'a>(cursor: &mut Cursor<'a>) -> Result<Signer<'a>, CmsFault>
    ensures { GivesNext (λ s. record { identifier = s.identifier.now; octets = s.attributes.octets.now; said = record { content_type = s.attributes.content_type.now; message_digest = s.attributes.message_digest.now }; signature = s.signature.now }) result cursor.new (signer_info_at cursor.old) }
{
    let mut members = cursor.sequence()?;
    version(&mut members, CmsFaultKind::SignerVersion)?;
    let identifier = signer_identifier(&mut members)?;
    let signed = signed_members(members)?;
    Ok(Signer {
        identifier,
        attributes: signed.attributes,
        signature: signed.signature,
    })
}
