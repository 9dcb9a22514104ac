//! Reading what a signed object needs of the certificate inside it (RFC 5280 section 4.1, RFC 6487 section 4).

ghost use Rattle.std.specs.Prelude.{◌≡◌, is_some, option_map};
ghost use Rattle.der_lite.specs.Decoding.{read_each};
ghost use Rattle.signed_objects.specs.Gives.{GivesNext, GivesAll, GivesIdentifier};
ghost use Rattle.signed_objects.specs.Certificates.{names_key as names_key_of};
ghost use Rattle.signed_objects.specs.Reading.{modulus_at, exponent_at, key_in, key_of, public_key_at, key_algorithm_at, key_info_at, extension_id_at, key_identifier_at, extension_from, extension_at, extension_list_at, extensions_at, certificate_version_at, certificate_content_at, extension_value_at, rsa_public_key_all, key_members_at, names_members_at, tbs_members_at, tbs_certificate_at, certificate_at};

use crate::elements::{EXPLICIT_0, INTEGER, needed_element};
use crate::oid::object_identifier;
use crate::{CmsFault, CmsFaultKind};
use der_lite::Cursor;

/// The tag of a BIT STRING (X.690 section 8.6).
const BIT_STRING: u8 = 0x03;

/// The tag of an OCTET STRING (X.690 section 8.7).
const OCTET_STRING: u8 = 0x04;

/// The tag of an explicitly tagged [3].
const EXPLICIT_3: u8 = 0xa3;

/// rsaEncryption, with NULL (RFC 7935 section 3.1).
const RSA_KEY_ALGORITHM: [u8; 13] = [
    0x06, 0x09, 0x2a, 0x86, 0x48, 0x86, 0xf7, 0x0d, 0x01, 0x01, 0x01, 0x05, 0x00,
];

/// 65537 (RFC 7935 section 3).
const EXPONENT: [u8; 3] = [1, 0, 1];

/// id-ce-subjectKeyIdentifier, 2.5.29.14 (RFC 5280 section 4.2.1.2).
const SUBJECT_KEY_IDENTIFIER: [u8; 3] = [0x55, 0x1d, 0x0e];

/// Version 3, which is INTEGER 2 (RFC 5280 section 4.1.2.1).
const VERSION_3: [u8; 3] = [2, 1, 2];

/// The modulus, whose first bit is set (RFC 8017 section A.1.1).
#[tactic(auto, unfolding(crate::specs::Reading::modulus_at))]
fn modulus<'a>(cursor: &mut Cursor<'a>) -> Result<&'a [u8], CmsFault>
    ensures { GivesNext (λ modulus. modulus.now) result cursor.new (modulus_at cursor.old) }
{
    let offset = cursor.offset();
    match cursor.integer()? {
        [0, modulus @ ..] => Ok(modulus),
        _ => Err(CmsFaultKind::PublicKey.at(offset)),
    }
}

/// The exponent 65537.
#[tactic(auto, unfolding(crate::specs::Reading::exponent_at, der_lite::specs::DerReading::content_at))]
fn exponent(cursor: &mut Cursor) -> Result<(), CmsFault>
    ensures { GivesNext (λ _. tt) result cursor.new (exponent_at cursor.old) }
{
    let offset = cursor.offset();
    if cursor.tagged(INTEGER)?.remaining() != EXPONENT.as_slice() {
        return Err(CmsFaultKind::PublicKey.at(offset));
    }
    Ok(())
}

/// RSAPublicKey, and the end (RFC 8017 section A.1.1): its modulus.
#[tactic(auto, unfolding(crate::specs::Reading::rsa_public_key_at))]
fn rsa_public_key(key: &[u8]) -> Result<&[u8], CmsFault>
    ensures { GivesAll (λ modulus. modulus.now) result (rsa_public_key_all key.now) }
{
    let mut whole = Cursor::new(key);
    let mut members = whole.sequence()?;
    let modulus = modulus(&mut members)?;
    exponent(&mut members)?;
    members.finish()?;
    whole.finish()?;
    Ok(modulus)
}

/// The modulus of a subjectPublicKey: a bit string without unused bits, whose bytes are an RSAPublicKey.
#[tactic(auto, unfolding(crate::specs::Reading::key_of, crate::specs::Reading::key_in))]
fn modulus_of(content: &[u8]) -> Option<&[u8]>
    ensures { option_map (λ modulus. modulus.now) result ≡ key_of content.now }
{
    let [0, key @ ..] = content else {
        return None;
    };
    match rsa_public_key(key) {
        Ok(modulus) => Some(modulus),
        Err(_) => None,
    }
}

/// subjectPublicKey BIT STRING: the modulus.
#[tactic(auto, unfolding(crate::specs::Reading::public_key_at))]
fn public_key<'a>(cursor: &mut Cursor<'a>) -> Result<&'a [u8], CmsFault>
    ensures { GivesNext (λ modulus. modulus.now) result cursor.new (public_key_at cursor.old) }
{
    let offset = cursor.offset();
    let content = cursor.tagged(BIT_STRING)?.remaining();
    match modulus_of(content) {
        Some(modulus) => Ok(modulus),
        None => Err(CmsFaultKind::PublicKey.at(offset)),
    }
}

/// AlgorithmIdentifier of the key: rsaEncryption with NULL.
#[tactic(auto, unfolding(crate::specs::Reading::key_algorithm_at, der_lite::specs::DerReading::content_at))]
fn key_algorithm(cursor: &mut Cursor) -> Result<(), CmsFault>
    ensures { GivesNext (λ _. tt) result cursor.new (key_algorithm_at cursor.old) }
{
    let offset = cursor.offset();
    if cursor.sequence()?.remaining() != RSA_KEY_ALGORITHM.as_slice() {
        return Err(CmsFaultKind::KeyAlgorithm.at(offset));
    }
    Ok(())
}

/// SubjectPublicKeyInfo: the modulus.
#[tactic(auto, unfolding(crate::specs::Reading::key_info_at))]
fn key_info<'a>(cursor: &mut Cursor<'a>) -> Result<&'a [u8], CmsFault>
    ensures { GivesNext (λ modulus. modulus.now) result cursor.new (key_info_at cursor.old) }
{
    let mut members = cursor.sequence()?;
    key_algorithm(&mut members)?;
    let modulus = public_key(&mut members)?;
    members.finish()?;
    Ok(modulus)
}

/// Whether the identifier is that of the extension subjectKeyIdentifier.
fn names_key(id: &[u8]) -> bool
    ensures { result ≡ names_key_of id.now }
{
    id == SUBJECT_KEY_IDENTIFIER.as_slice()
}

/// extnID, after extensions among which subjectKeyIdentifier came or not.
#[tactic(auto, unfolding(crate::specs::Reading::extension_id_at))]
fn extension_id<'a>(cursor: &mut Cursor<'a>, came: bool) -> Result<&'a [u8], CmsFault>
    ensures { GivesNext (λ id. id.now) result cursor.new (extension_id_at came cursor.old) }
{
    let offset = cursor.offset();
    let id = object_identifier(cursor)?;
    if names_key(id) && came {
        return Err(CmsFaultKind::KeyIdentifierTwice.at(offset));
    }
    Ok(id)
}

/// extnValue OCTET STRING of subjectKeyIdentifier, which holds an OCTET STRING.
#[tactic(auto, unfolding(crate::specs::Reading::key_identifier_at))]
fn key_identifier<'a>(cursor: &mut Cursor<'a>) -> Result<&'a [u8], CmsFault>
    ensures { GivesNext (λ identifier. identifier.now) result cursor.new (key_identifier_at cursor.old) }
{
    let mut value = cursor.tagged(OCTET_STRING)?;
    let identifier = value.octets()?;
    value.finish()?;
    Ok(identifier)
}

/// The extension's value: of subjectKeyIdentifier, which is not critical, the identifier; others are skipped.
fn extension_value<'a>(members: Cursor<'a>, names_key: bool) -> Result<&'a [u8], CmsFault>
    ensures { GivesAll (λ value. value.now) result (extension_value_at names_key members.entry) }
{
    let mut members = members;
    if !names_key {
        return Ok(members.remaining());
    }
    let identifier = key_identifier(&mut members)?;
    members.finish()?;
    Ok(identifier)
}

/// An extension: its identifier, and its value.
#[derive(Clone, Copy, Debug)]
struct Extension<'a> {
    id: &'a [u8],
    value: &'a [u8],
}

impl<'a> Extension<'a> {
    ghost use Rattle.signed_objects.specs.Certificates.{own_identifier};

    /// The key's identifier, if the extension has it.
    fn identifier(&self) -> Option<&'a [u8]>
        ensures { option_map (λ value. value.now) result ≡ own_identifier (self.now.id.now, self.now.value.now) }
    {
        if names_key(self.id) {
            Some(self.value)
        } else {
            None
        }
    }
}

/// Extension, after those before it.
#[tactic(auto, unfolding(crate::specs::Reading::extension_from))]
fn next_extension<'a>(cursor: &mut Cursor<'a>, came: bool) -> Result<Extension<'a>, CmsFault>
    ensures { GivesNext (λ e. (e.id.now, e.value.now)) result cursor.new (extension_from came cursor.old) }
{
    let mut members = cursor.sequence()?;
    let id = extension_id(&mut members, came)?;
    let value = extension_value(members, names_key(id))?;
    Ok(Extension { id, value })
}

/// The extensions, to the end: the key's identifier.
fn each_extension<'a>(members: Cursor<'a>) -> Result<Option<&'a [u8]>, CmsFault>
    ensures { GivesIdentifier (λ identifier. option_map (λ value. value.now) identifier) result (read_each extension_at members.entry) }
{
    let mut members = members;
    let mut identifier: Option<&'a [u8]> = None;
    while !members.at_end() {
        let extension = next_extension(&mut members, identifier.is_some())?;
        identifier = extension.identifier().or(identifier);
    }
    Ok(identifier)
}

/// Extensions: the key's identifier.
#[tactic(auto, unfolding(crate::specs::Reading::extension_list_at))]
fn extension_list<'a>(cursor: &mut Cursor<'a>) -> Result<&'a [u8], CmsFault>
    ensures { GivesNext (λ identifier. identifier.now) result cursor.new (extension_list_at cursor.old) }
{
    let offset = cursor.offset();
    let members = cursor.sequence()?;
    match each_extension(members)? {
        Some(identifier) => Ok(identifier),
        None => Err(CmsFaultKind::NoKeyIdentifier.at(offset)),
    }
}

/// extensions [3] EXPLICIT: the key's identifier.
#[tactic(auto, unfolding(crate::specs::Reading::extensions_at))]
fn extensions<'a>(cursor: &mut Cursor<'a>) -> Result<&'a [u8], CmsFault>
    ensures { GivesNext (λ identifier. identifier.now) result cursor.new (extensions_at cursor.old) }
{
    let mut members = needed_element(cursor, EXPLICIT_3, CmsFaultKind::NoExtensions)?;
    let identifier = extension_list(&mut members)?;
    members.finish()?;
    Ok(identifier)
}

/// version [0] EXPLICIT: version 3.
#[tactic(auto, unfolding(crate::specs::Reading::certificate_version_at))]
fn certificate_version(cursor: &mut Cursor) -> Result<(), CmsFault>
    ensures { GivesNext (λ _. tt) result cursor.new (certificate_version_at cursor.old) }
{
    let offset = cursor.offset();
    let version = needed_element(cursor, EXPLICIT_0, CmsFaultKind::CertificateVersion)?;
    if version.remaining() != VERSION_3.as_slice() {
        return Err(CmsFaultKind::CertificateVersion.at(offset));
    }
    Ok(())
}

/// The key of a certificate.
#[derive(Clone, Copy, Debug)]
pub(crate) struct Key<'a> {
    /// The modulus.
    pub(crate) modulus: &'a [u8],
    /// The key's identifier, from the extension subjectKeyIdentifier.
    pub(crate) identifier: &'a [u8],
}

/// subjectPublicKeyInfo and extensions, and the end.
#[tactic(auto, unfolding(crate::specs::Reading::key_members_at))]
fn key_members<'a>(members: Cursor<'a>) -> Result<Key<'a>, CmsFault>
    ensures { GivesAll (λ key. record { modulus = key.modulus.now; identifier = key.identifier.now }) result (key_members_at members.entry) }
{
    let mut members = members;
    let modulus = key_info(&mut members)?;
    let identifier = extensions(&mut members)?;
    members.finish()?;
    Ok(Key {
        modulus,
        identifier,
    })
}

/// issuer, validity and subject, which are skipped, and what follows them.
#[tactic(auto, unfolding(crate::specs::Reading::names_members_at, der_lite::specs::DerReading::content_at))]
fn names_members<'a>(members: Cursor<'a>) -> Result<Key<'a>, CmsFault>
    ensures { GivesAll (λ key. record { modulus = key.modulus.now; identifier = key.identifier.now }) result (names_members_at members.entry) }
{
    let mut members = members;
    let _issuer = members.sequence()?;
    let _validity = members.sequence()?;
    let _subject = members.sequence()?;
    key_members(members)
}

/// version, serialNumber and signature, and what follows them.
#[tactic(auto, unfolding(crate::specs::Reading::tbs_members_at, der_lite::specs::DerReading::content_at))]
fn tbs_members<'a>(members: Cursor<'a>) -> Result<Key<'a>, CmsFault>
    ensures { GivesAll (λ key. record { modulus = key.modulus.now; identifier = key.identifier.now }) result (tbs_members_at members.entry) }
{
    let mut members = members;
    certificate_version(&mut members)?;
    let _serial_number = members.integer()?;
    let _signature = members.sequence()?;
    names_members(members)
}

/// TBSCertificate.
#[tactic(auto, unfolding(crate::specs::Reading::tbs_certificate_at))]
fn tbs_certificate<'a>(cursor: &mut Cursor<'a>) -> Result<Key<'a>, CmsFault>
    ensures { GivesNext (λ key. record { modulus = key.modulus.now; identifier = key.identifier.now }) result cursor.new (tbs_certificate_at cursor.old) }
{
    let members = cursor.sequence()?;
    tbs_members(members)
}

/// Certificate. Who signed it is not judged.
#[tactic(auto, unfolding(crate::specs::Reading::certificate_content_at, der_lite::specs::DerReading::content_at))]
fn certificate_content<'a>(cursor: &mut Cursor<'a>) -> Result<Key<'a>, CmsFault>
    ensures { GivesNext (λ key. record { modulus = key.modulus.now; identifier = key.identifier.now }) result cursor.new (certificate_content_at cursor.old) }
{
    let mut members = cursor.sequence()?;
    let key = tbs_certificate(&mut members)?;
    let _signature_algorithm = members.sequence()?;
    let _signature = members.tagged(BIT_STRING)?;
    members.finish()?;
    Ok(key)
}

/// A certificate: the octets of its element, and its key.
#[derive(Clone, Copy, Debug)]
pub(crate) struct Certificate<'a> {
    /// The octets of its element.
    pub(crate) octets: &'a [u8],
    /// Its key.
    pub(crate) key: Key<'a>,
}

/// Certificate, and the octets of its element.
#[tactic(auto, unfolding(crate::specs::Reading::certificate_at))]
pub(crate) fn read_certificate<'a>(cursor: &mut Cursor<'a>) -> Result<Certificate<'a>, CmsFault>
    ensures { GivesNext (λ c. (c.octets.now, record { modulus = c.key.modulus.now; identifier = c.key.identifier.now })) result cursor.new (certificate_at cursor.old) }
{
    let here = cursor.remaining();
    let key = certificate_content(cursor)?;
    Ok(Certificate {
        octets: &here[..here.len() - cursor.remaining().len()],
        key,
    })
}
