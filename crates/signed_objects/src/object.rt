//! Signed objects: what digest and signature say of their parts.

ghost use Rattle.std.specs.Prelude.{◌≡◌, ◌<◌, ◌^◌, ◌↔◌, length, IfOk, IsTrue};
ghost use Rattle.rsa_sha256.specs.Rsa.{IsSignature};
ghost use Rattle.signed_objects.specs.Objects.{to_be_signed, Says, Judges, ReadsDer};
ghost use Rattle.signed_objects.specs.BerObjects.{SameContent, ReadsObject, Owns};

use crate::ber::to_der;
use crate::elements::SET;
use crate::signed_data::{ObjectParts, object_parts};
use crate::{CmsFaultKind, ObjectFault};
use der_lite::DerWriter;
use rsa_sha256::PublicKey;
use sha2::{Digest, Sha256};
use std::alloc::{AllocError, Global};

/// A signed object whose digest and signature were verified with the key of the certificate inside it (RFC 6488).
/// The certificate itself was not verified: not its signature, its issuer or its validity.
#[derive(Clone, Copy, Debug, PartialEq, Eq)]
pub struct SignedObject<'a> {
    /// What kind of object it is: the content octets of the OBJECT IDENTIFIER eContentType, without tag and length.
    pub content_type: &'a [u8],
    /// The content octets of eContent, such as the payload of a ROA or a manifest.
    pub content: &'a [u8],
    /// The certificate, in DER, with tag and length.
    pub certificate: &'a [u8],
    /// The subjectKeyIdentifier of the certificate, which names its key as the signer.
    pub key_identifier: &'a [u8],
}

/// The first of what the attributes say that is not so.
fn disagreement(parts: &ObjectParts) -> Option<CmsFaultKind>
    ensures { Says result (record { content_type = parts.now.content_type.now; content = parts.now.content.now; certificate = parts.now.certificate.octets.now; key = record { modulus = parts.now.certificate.key.modulus.now; identifier = parts.now.certificate.key.identifier.now }; signer = record { identifier = parts.now.signer.identifier.now; octets = parts.now.signer.attributes.octets.now; said = record { content_type = parts.now.signer.attributes.content_type.now; message_digest = parts.now.signer.attributes.message_digest.now }; signature = parts.now.signer.signature.now } }) }
{
    let attributes = &parts.signer.attributes;
    if parts.signer.identifier != parts.certificate.key.identifier {
        Some(CmsFaultKind::OtherSigner)
    } else if attributes.content_type != parts.content_type {
        Some(CmsFaultKind::OtherContentType)
    } else if attributes.message_digest != Sha256::digest(parts.content).as_slice() {
        Some(CmsFaultKind::OtherDigest)
    } else {
        None
    }
}

/// Whether the signature of these attributes holds under the key. They are signed under the tag of a SET (RFC 5652 section 5.4).
fn is_signed(
    alloc: Global,
    key: &PublicKey,
    attributes: &[u8],
    signature: &[u8],
) -> Result<bool, AllocError>
    requires { length attributes.now < 2 ^ 32 }
    ensures { IfOk result (λ holds. IsTrue holds ↔ IsSignature key.now (to_be_signed attributes.now) signature.now) }
{
    let mut message = DerWriter::new(alloc);
    message.tagged(SET, attributes)?;
    Ok(key.verify(message.as_slice(), signature))
}

/// Whether the object is what its signer says, or the first fault.
fn judge(alloc: Global, parts: &ObjectParts) -> Result<(), ObjectFault>
    requires { length parts.now.signer.attributes.octets.now < 2 ^ 32 }
    ensures { Judges result (record { content_type = parts.now.content_type.now; content = parts.now.content.now; certificate = parts.now.certificate.octets.now; key = record { modulus = parts.now.certificate.key.modulus.now; identifier = parts.now.certificate.key.identifier.now }; signer = record { identifier = parts.now.signer.identifier.now; octets = parts.now.signer.attributes.octets.now; said = record { content_type = parts.now.signer.attributes.content_type.now; message_digest = parts.now.signer.attributes.message_digest.now }; signature = parts.now.signer.signature.now } }) }
{
    if let Some(kind) = disagreement(parts) {
        return Err(ObjectFault::At(kind.at(0)));
    }
    let Ok(key) = PublicKey::new(parts.certificate.key.modulus) else {
        return Err(ObjectFault::At(CmsFaultKind::Modulus.at(0)));
    };
    let signer = &parts.signer;
    if !is_signed(alloc, &key, signer.attributes.octets, signer.signature)? {
        return Err(ObjectFault::At(CmsFaultKind::Signature.at(0)));
    }
    Ok(())
}

/// Reads a signed object in DER, and verifies its digest and its signature (RFC 6488 section 3). The result borrows from `der`.
/// `Err(At)`: the first fault. The elements are checked in their order, then digest and signature. Bytes after the object are a fault.
/// `Err(Memory)`: memory ran out. Memory is allocated only to verify the signature.
pub fn read_der_object(alloc: Global, der: &[u8]) -> Result<SignedObject<'_>, ObjectFault>
    ensures { ReadsDer (λ o. record { content_type = o.content_type.now; content = o.content.now; certificate = o.certificate.now; key_identifier = o.key_identifier.now }) result der.now }
{
    let parts = object_parts(der)?;
    judge(alloc, &parts)?;
    Ok(SignedObject {
        content_type: parts.content_type,
        content: parts.content,
        certificate: parts.certificate.octets,
        key_identifier: parts.signer.identifier,
    })
}

/// A signed object like [`SignedObject`], which owns its parts.
#[derive(Debug, Drop, PartialEq, Eq)]
pub struct OwnedObject {
    /// What kind of object it is: the content octets of the OBJECT IDENTIFIER eContentType, without tag and length.
    pub content_type: Vec<u8>,
    /// The content octets of eContent, such as the payload of a ROA or a manifest.
    pub content: Vec<u8>,
    /// The certificate, in DER, with tag and length.
    pub certificate: Vec<u8>,
    /// The subjectKeyIdentifier of the certificate, which names its key as the signer.
    pub key_identifier: Vec<u8>,
    /// Whether nothing was rewritten: all lengths and OCTET STRINGs that were read are as in DER (RFC 6488 section 3, 1.l).
    /// Parts of the certificate that are not read, and the order of the attributes, do not count.
    pub is_der: bool,
}

impl OwnedObject {
    /// Returns the same object as a view: content type, content, certificate and key identifier are borrowed from this one, not copied.
    pub fn as_object(&self) -> SignedObject<'_>
        ensures its_type { result.content_type.now ≡ self.now.content_type.items }
        ensures content { result.content.now ≡ self.now.content.items }
        ensures certificate { result.certificate.now ≡ self.now.certificate.items }
        ensures key { result.key_identifier.now ≡ self.now.key_identifier.items }
    {
        SignedObject {
            content_type: &self.content_type,
            content: &self.content,
            certificate: &self.certificate,
            key_identifier: &self.key_identifier,
        }
    }
}

/// The object with copies of its parts.
fn owned(alloc: Global, object: &SignedObject, is_der: bool) -> Result<OwnedObject, AllocError>
    ensures { Owns (λ o. record { content_type = o.content_type.items; content = o.content.items; certificate = o.certificate.items; key_identifier = o.key_identifier.items }) (λ o. o.is_der) result (record { content_type = object.now.content_type.now; content = object.now.content.now; certificate = object.now.certificate.now; key_identifier = object.now.key_identifier.now }) is_der }
{
    Ok(OwnedObject {
        content_type: object.content_type.to_vec(alloc)?,
        content: object.content.to_vec(alloc)?,
        certificate: object.certificate.to_vec(alloc)?,
        key_identifier: object.key_identifier.to_vec(alloc)?,
        is_der,
    })
}

/// Reads a signed object whose lengths and OCTET STRINGs may be in BER, and verifies its digest and its signature.
/// [`to_der`] rewrites the bytes, and [`read_der_object`] reads the result. `Err(At)`: the first fault. `Err(Memory)`: memory ran out.
/// The offset of a fault of [`to_der`] (kinds 36 to 43, some of 1 and 5) is an offset in `bytes`. Any other is an offset in the rewritten bytes.
/// If nothing was rewritten, both are the same.
#[tactic(auto, using(crate::proofs::BerSteps::no_content, crate::proofs::BerSteps::no_object, crate::proofs::BerSteps::object_of_file))]
pub fn read_signed_object(alloc: Global, bytes: &[u8]) -> Result<OwnedObject, ObjectFault>
    ensures exact { ReadsObject (λ o. record { content_type = o.content_type.items; content = o.content.items; certificate = o.certificate.items; key_identifier = o.key_identifier.items }) result bytes.now }
    ensures der { IfOk result (λ o. IsTrue o.is_der ↔ SameContent bytes.now bytes.now) }
{
    let der = to_der(alloc, bytes)?;
    let is_der = der.as_slice() == bytes;
    let object = read_der_object(alloc, &der)?;
    Ok(owned(alloc, &object, is_der)?)
}
