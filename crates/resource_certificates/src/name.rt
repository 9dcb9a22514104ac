//! Names (RFC 6487 sections 4.4 and 4.5).

ghost use Rattle.std.specs.Prelude.{◌≡◌, option_map};
ghost use Rattle.resource_certificates.specs.Gives.{GivesNext, GivesAll};
ghost use Rattle.der_lite.specs.Fields.{optional_at};
ghost use Rattle.der_lite.specs.DerReading.{content_at};
ghost use Rattle.der_lite.specs.Der.{is_ia5};
ghost use Rattle.std.specs.Str.{is_utf8 as is_utf8_of};
ghost use Rattle.resource_certificates.specs.Names.{is_common as is_common_of, one_part as one_part_of, two_parts as two_parts_of, name_in as name_in_of};
ghost use Rattle.resource_certificates.specs.Names.{is_bad_count as is_bad_count_of, begins_character as begins_character_of, character_count as character_count_of, printable_rules, utf8_rules};
ghost use Rattle.resource_certificates.specs.Reading.{part_id_at, characters_at, name_part_at, rdn_at, name_at};

use crate::elements::begins;
use crate::{CertificateFault, CertificateFaultKind};
use der_lite::Cursor;
use std::marker::Model;

/// The tag of a SET (X.690 section 8.11).
const SET: u8 = 0x31;

/// The tag of a UTF8String (X.690 section 8.23).
const UTF8_STRING: u8 = 0x0c;

/// The tag of a PrintableString (X.690 section 8.23).
const PRINTABLE_STRING: u8 = 0x13;

/// id-at-commonName (RFC 5280 appendix A.1).
const COMMON_NAME: [u8; 3] = [0x55, 0x04, 0x03];

/// id-at-serialNumber (RFC 5280 appendix A.1).
const SERIAL_NUMBER: [u8; 3] = [0x55, 0x04, 0x05];

/// A name: its commonName, and its serialNumber, if it has one.
#[derive(Debug, Drop)]
pub struct Name<'a> {
    /// The characters of the commonName, in UTF-8.
    pub common: &'a [u8],
    /// The characters of the serialNumber, in UTF-8.
    pub serial: Option<&'a [u8]>,
}

impl<'a> Model for Name<'a> {
    ghost use Rattle.std.specs.Prelude.{option_map};
    ghost use Rattle.resource_certificates.specs.Names.{Name as NameValue};

    ghost Value = { NameValue };

    ghost view = { λ n. record { common = n.common.now; serial = option_map (λ s. s.now) n.serial } };
}

/// Whether the identifier is that of a commonName.
fn is_common(id: &[u8]) -> bool
    ensures { result ≡ is_common_of id.now }
{
    id == COMMON_NAME.as_slice()
}

/// The type of an attribute: whether it is a commonName, not a serialNumber.
#[tactic(auto, unfolding(crate::specs::Reading::part_id_at))]
fn part_id(cursor: &mut Cursor) -> Result<bool, CertificateFault>
    ensures { GivesNext (λ b. b) result cursor.new (part_id_at cursor.old) }
{
    let offset = cursor.offset();
    let id = cursor.oid()?;
    if !is_common(id) && id != SERIAL_NUMBER.as_slice() {
        return Err(CertificateFaultKind::Name.at(offset));
    }
    Ok(is_common(id))
}

/// The most characters of a name (RFC 5280 appendix A.1).
const MOST_CHARACTERS: usize = 64;

/// Whether a name may not have this number of characters.
fn is_bad_count(count: usize) -> bool
    ensures { result ≡ is_bad_count_of count }
{
    count == 0 || count > MOST_CHARACTERS
}

/// Whether the content is ASCII.
pub(crate) fn is_ascii(content: &[u8]) -> bool
    ensures { result ≡ is_ia5 content.now }
{
    content.is_ascii()
}

/// Whether the content is UTF-8.
fn is_utf8(content: &[u8]) -> bool
    ensures { result ≡ is_utf8_of content.now }
{
    str::from_utf8(content).is_ok()
}

/// Whether a character begins with this octet of a text in UTF-8 (RFC 3629 section 3).
fn begins_character(octet: u8) -> bool
    ensures { result ≡ begins_character_of octet }
{
    octet < 0x80 || octet >= 0xc0
}

/// How many characters a text in UTF-8 has.
fn character_count(content: &[u8]) -> usize
    ensures { result ≡ character_count_of content.now }
{
    let mut count = 0;
    for octet in content {
        if begins_character(*octet) {
            count += 1;
        }
    }
    count
}

/// The characters of a PrintableString.
#[tactic(auto, unfolding(der_lite::specs::DerReading::content_at))]
fn printable<'a>(cursor: &mut Cursor<'a>) -> Result<&'a [u8], CertificateFault>
    ensures { GivesNext (λ content. content.now) result cursor.new (content_at 19 printable_rules cursor.old) }
{
    let offset = cursor.offset();
    let content = cursor.tagged(PRINTABLE_STRING)?.remaining();
    if is_bad_count(content.len()) || !is_ascii(content) {
        return Err(CertificateFaultKind::Characters.at(offset));
    }
    Ok(content)
}

/// The characters of a UTF8String.
#[tactic(auto, unfolding(der_lite::specs::DerReading::content_at))]
fn utf8<'a>(cursor: &mut Cursor<'a>) -> Result<&'a [u8], CertificateFault>
    ensures { GivesNext (λ content. content.now) result cursor.new (content_at 12 utf8_rules cursor.old) }
{
    let offset = cursor.offset();
    let content = cursor.tagged(UTF8_STRING)?.remaining();
    if is_bad_count(character_count(content)) || !is_utf8(content) {
        return Err(CertificateFaultKind::Characters.at(offset));
    }
    Ok(content)
}

/// The characters of an attribute.
#[tactic(auto, unfolding(crate::specs::Reading::characters_at))]
fn characters<'a>(cursor: &mut Cursor<'a>) -> Result<&'a [u8], CertificateFault>
    ensures { GivesNext (λ content. content.now) result cursor.new (characters_at cursor.old) }
{
    if begins(cursor, PRINTABLE_STRING) {
        return printable(cursor);
    }
    utf8(cursor)
}

/// An attribute: whether it is a commonName, and its characters.
#[derive(Drop)]
struct Part<'a> {
    is_common: bool,
    characters: &'a [u8],
}

impl<'a> Model for Part<'a> {
    ghost use Rattle.resource_certificates.specs.Names.{NamePart};

    ghost Value = { NamePart };

    ghost view = { λ p. (p.is_common, p.characters.now) };
}

/// AttributeTypeAndValue.
#[tactic(auto, unfolding(crate::specs::Reading::name_part_at))]
fn name_part<'a>(cursor: &mut Cursor<'a>) -> Result<Part<'a>, CertificateFault>
    ensures { GivesNext (λ p. p) result cursor.new (name_part_at cursor.old) }
{
    let mut members = cursor.sequence()?;
    let is_common = part_id(&mut members)?;
    let characters = characters(&mut members)?;
    members.finish()?;
    Ok(Part {
        is_common,
        characters,
    })
}

/// One attribute, and at most one more.
#[derive(Drop)]
struct Rdn<'a> {
    first: Part<'a>,
    second: Option<Part<'a>>,
}

impl<'a> Model for Rdn<'a> {
    ghost use Rattle.resource_certificates.specs.Names.{Rdn as RdnValue};

    ghost Value = { RdnValue };

    ghost view = { λ r. (r.first, r.second) };
}

/// RelativeDistinguishedName.
#[tactic(auto, unfolding(crate::specs::Reading::rdn_at))]
fn read_rdn<'a>(cursor: &mut Cursor<'a>) -> Result<Rdn<'a>, CertificateFault>
    ensures { GivesNext (λ r. r) result cursor.new (rdn_at cursor.old) }
{
    let mut members = cursor.tagged(SET)?;
    let first = name_part(&mut members)?;
    if members.at_end() {
        return Ok(Rdn {
            first,
            second: None,
        });
    }
    let second = name_part(&mut members)?;
    members.finish()?;
    Ok(Rdn {
        first,
        second: Some(second),
    })
}

/// The name of one attribute: a commonName.
fn one_part<'a>(part: &Part<'a>) -> Option<Name<'a>>
    ensures { result ≡ one_part_of part.now }
{
    if !part.is_common {
        return None;
    }
    Some(Name {
        common: part.characters,
        serial: None,
    })
}

/// The name of two attributes: a commonName and a serialNumber, in either order.
fn two_parts<'a>(first: &Part<'a>, second: &Part<'a>) -> Option<Name<'a>>
    ensures { result ≡ two_parts_of first.now second.now }
{
    match (first.is_common, second.is_common) {
        (true, false) => Some(Name {
            common: first.characters,
            serial: Some(second.characters),
        }),
        (false, true) => Some(Name {
            common: second.characters,
            serial: Some(first.characters),
        }),
        _ => None,
    }
}

/// The name of one RDN or two.
fn name_in<'a>(first: &Rdn<'a>, second: &Option<Rdn<'a>>) -> Option<Name<'a>>
    ensures { result ≡ name_in_of (first.now, second.now) }
{
    match (&first.second, second) {
        (None, None) => one_part(&first.first),
        (Some(other), None) => two_parts(&first.first, other),
        (
            None,
            Some(
                Rdn {
                    first: other,
                    second: None,
                },
            ),
        ) => two_parts(&first.first, other),
        _ => None,
    }
}

/// An RDN if bytes remain, and the end.
fn last_rdn<'a>(members: Cursor<'a>) -> Result<Option<Rdn<'a>>, CertificateFault>
    ensures { GivesAll (λ o. o) result (optional_at rdn_at members.entry) }
{
    let mut members = members;
    if members.at_end() {
        return Ok(None);
    }
    let second = read_rdn(&mut members)?;
    members.finish()?;
    Ok(Some(second))
}

/// Name.
#[tactic(auto, unfolding(crate::specs::Reading::name_at))]
pub(crate) fn read_name<'a>(cursor: &mut Cursor<'a>) -> Result<Name<'a>, CertificateFault>
    ensures { GivesNext (λ n. n) result cursor.new (name_at cursor.old) }
{
    let offset = cursor.offset();
    let mut members = cursor.sequence()?;
    let first = read_rdn(&mut members)?;
    let second = last_rdn(members)?;
    match name_in(&first, &second) {
        Some(name) => Ok(name),
        None => Err(CertificateFaultKind::Name.at(offset)),
    }
}
