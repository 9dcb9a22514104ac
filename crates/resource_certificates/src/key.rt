//! Keys and algorithms (RFC 7935).

ghost use Rattle.std.specs.Prelude.{◌≡◌, option_map};
ghost use Rattle.resource_certificates.specs.Gives.{GivesNext, GivesAll};
ghost use Rattle.resource_certificates.specs.Reading.{modulus_at, exponent_at, rsa_public_key_all, modulus_in, key_of, public_key_at};
ghost use Rattle.resource_certificates.specs.Reading.{key_algorithm_at, key_info_at, signature_algorithm_at, signature_value_at, same_algorithm_at};

use crate::elements::{BIT_STRING, INTEGER, SEQUENCE, fixed};
use crate::{CertificateFault, CertificateFaultKind};
use der_lite::Cursor;
use std::marker::Model;

/// rsaEncryption, with NULL (RFC 7935 section 3.1).
const RSA_KEY_ALGORITHM: [u8; 13] = [
    0x06, 0x09, 0x2a, 0x86, 0x48, 0x86, 0xf7, 0x0d, 0x01, 0x01, 0x01, 0x05, 0x00,
];

/// sha256WithRSAEncryption, with NULL (RFC 7935 section 2).
const SIGNATURE_ALGORITHM: [u8; 13] = [
    0x06, 0x09, 0x2a, 0x86, 0x48, 0x86, 0xf7, 0x0d, 0x01, 0x01, 0x0b, 0x05, 0x00,
];

/// sha256WithRSAEncryption, without parameters (RFC 4055 section 5).
const BARE_ALGORITHM: [u8; 11] = [
    0x06, 0x09, 0x2a, 0x86, 0x48, 0x86, 0xf7, 0x0d, 0x01, 0x01, 0x0b,
];

/// 65537 (RFC 7935 section 3).
const EXPONENT: [u8; 3] = [1, 0, 1];

/// The octets of a modulus of 2,048 bits, and the zero in front of it (RFC 7935 section 3).
const MODULUS_OCTETS: usize = 257;

/// A key: its modulus, and the bits of subjectPublicKey, whose SHA-1 is the identifier of the key.
#[derive(Debug, Drop)]
pub struct Key<'a> {
    /// The modulus: 256 bytes, the highest first.
    pub modulus: &'a [u8],
    /// The bits of subjectPublicKey.
    pub bits: &'a [u8],
}

impl<'a> Model for Key<'a> {
    ghost use Rattle.resource_certificates.specs.Keys.{Key as KeyValue};

    ghost Value = { KeyValue };

    ghost view = { λ k. record { modulus = k.modulus.now; bits = k.bits.now } };
}

/// The modulus, of 2,048 bits (RFC 8017 section A.1.1, RFC 7935 section 3).
#[tactic(auto, unfolding(crate::specs::Reading::modulus_at))]
fn modulus<'a>(cursor: &mut Cursor<'a>) -> Result<&'a [u8], CertificateFault>
    ensures { GivesNext (λ modulus. modulus.now) result cursor.new (modulus_at cursor.old) }
{
    let offset = cursor.offset();
    let content = cursor.integer()?;
    let [0, modulus @ ..] = content else {
        return Err(CertificateFaultKind::PublicKey.at(offset));
    };
    if content.len() != MODULUS_OCTETS {
        return Err(CertificateFaultKind::PublicKey.at(offset));
    }
    Ok(modulus)
}

/// The exponent 65537.
#[tactic(auto, unfolding(crate::specs::Reading::exponent_at))]
fn exponent(cursor: &mut Cursor) -> Result<(), CertificateFault>
    ensures { GivesNext (λ _. tt) result cursor.new (exponent_at cursor.old) }
{
    fixed(
        cursor,
        INTEGER,
        EXPONENT.as_slice(),
        CertificateFaultKind::PublicKey,
    )
}

/// RSAPublicKey, and the end (RFC 8017 section A.1.1): its modulus.
#[tactic(auto, unfolding(crate::specs::Reading::rsa_public_key_at))]
fn rsa_public_key(key: &[u8]) -> Result<&[u8], CertificateFault>
    ensures { GivesAll (λ modulus. modulus.now) result (rsa_public_key_all key.now) }
{
    let mut whole = Cursor::new(key);
    let mut members = whole.sequence()?;
    let modulus = modulus(&mut members)?;
    exponent(&mut members)?;
    members.finish()?;
    whole.finish()?;
    Ok(modulus)
}

/// The modulus of the key that the bytes are.
#[tactic(auto, unfolding(crate::specs::Reading::modulus_in))]
fn modulus_of(key: &[u8]) -> Option<&[u8]>
    ensures { option_map (λ modulus. modulus.now) result ≡ modulus_in key.now }
{
    match rsa_public_key(key) {
        Ok(modulus) => Some(modulus),
        Err(_) => None,
    }
}

/// The key of a subjectPublicKey: a bit string without unused bits, whose bytes are an RSAPublicKey.
#[tactic(auto, unfolding(crate::specs::Reading::key_of))]
fn key_in(content: &[u8]) -> Option<Key<'_>>
    ensures { option_map (λ key. key) result ≡ key_of content.now }
{
    let [0, bits @ ..] = content else {
        return None;
    };
    match modulus_of(bits) {
        Some(modulus) => Some(Key { modulus, bits }),
        None => None,
    }
}

/// subjectPublicKey BIT STRING.
#[tactic(auto, unfolding(crate::specs::Reading::public_key_at))]
fn public_key<'a>(cursor: &mut Cursor<'a>) -> Result<Key<'a>, CertificateFault>
    ensures { GivesNext (λ key. key) result cursor.new (public_key_at cursor.old) }
{
    let offset = cursor.offset();
    let content = cursor.tagged(BIT_STRING)?.remaining();
    match key_in(content) {
        Some(key) => Ok(key),
        None => Err(CertificateFaultKind::PublicKey.at(offset)),
    }
}

/// AlgorithmIdentifier of the key: rsaEncryption with NULL.
#[tactic(auto, unfolding(crate::specs::Reading::key_algorithm_at))]
fn key_algorithm(cursor: &mut Cursor) -> Result<(), CertificateFault>
    ensures { GivesNext (λ _. tt) result cursor.new (key_algorithm_at cursor.old) }
{
    fixed(
        cursor,
        SEQUENCE,
        RSA_KEY_ALGORITHM.as_slice(),
        CertificateFaultKind::KeyAlgorithm,
    )
}

/// SubjectPublicKeyInfo.
#[tactic(auto, unfolding(crate::specs::Reading::key_info_at))]
pub(crate) fn key_info<'a>(cursor: &mut Cursor<'a>) -> Result<Key<'a>, CertificateFault>
    ensures { GivesNext (λ key. key) result cursor.new (key_info_at cursor.old) }
{
    let mut members = cursor.sequence()?;
    key_algorithm(&mut members)?;
    let key = public_key(&mut members)?;
    members.finish()?;
    Ok(key)
}

/// AlgorithmIdentifier of a signature: sha256WithRSAEncryption, its parameters absent or NULL.
#[tactic(auto, unfolding(crate::specs::Reading::signature_algorithm_at, der_lite::specs::DerReading::content_at))]
pub(crate) fn signature_algorithm<'a>(cursor: &mut Cursor<'a>) -> Result<&'a [u8], CertificateFault>
    ensures { GivesNext (λ content. content.now) result cursor.new (signature_algorithm_at cursor.old) }
{
    let offset = cursor.offset();
    let content = cursor.sequence()?.remaining();
    if content != SIGNATURE_ALGORITHM.as_slice() && content != BARE_ALGORITHM.as_slice() {
        return Err(CertificateFaultKind::SignatureAlgorithm.at(offset));
    }
    Ok(content)
}

/// signatureAlgorithm, which has these octets.
#[tactic(auto, unfolding(crate::specs::Reading::same_algorithm_at))]
pub(crate) fn same_algorithm(cursor: &mut Cursor, algorithm: &[u8]) -> Result<(), CertificateFault>
    ensures { GivesNext (λ _. tt) result cursor.new (same_algorithm_at algorithm.now cursor.old) }
{
    fixed(
        cursor,
        SEQUENCE,
        algorithm,
        CertificateFaultKind::SignatureAlgorithm,
    )
}

/// signatureValue: a bit string without unused bits.
#[tactic(auto, unfolding(crate::specs::Reading::signature_value_at, der_lite::specs::DerReading::content_at))]
pub(crate) fn signature_value<'a>(cursor: &mut Cursor<'a>) -> Result<&'a [u8], CertificateFault>
    ensures { GivesNext (λ signature. signature.now) result cursor.new (signature_value_at cursor.old) }
{
    let offset = cursor.offset();
    match cursor.tagged(BIT_STRING)?.remaining() {
        [0, signature @ ..] => Ok(signature),
        _ => Err(CertificateFaultKind::Signature.at(offset)),
    }
}
