//! Reading the signed attributes of a signed object (RFC 6488 section 2.1.6.4).

ghost use Rattle.std.specs.Prelude.{◌≡◌, [], option_map};
ghost use Rattle.der_lite.specs.Decoding.{read_each};
ghost use Rattle.signed_objects.specs.Gives.{GivesNext, GivesFound};
ghost use Rattle.signed_objects.specs.Reading.{put_in, attribute_type_at, signing_time_at, attribute_value_at, attribute_values_at, attribute_from, attribute_at, signed_attributes_at};

use crate::attribute::AttributeType;
use crate::elements::{EXPLICIT_0, SET, begins, end, needed_element, needed_octets};
use crate::oid::object_identifier;
use crate::{CmsFault, CmsFaultKind};
use der_lite::Cursor;
use std::marker::Model;

/// The tag of a UTCTime (X.690 section 8.25).
const UTC_TIME: u8 = 0x17;

/// The tag of a GeneralizedTime.
const GENERALIZED_TIME: u8 = 0x18;

/// The values of the attributes that came so far.
#[derive(Debug, Drop)]
struct Attributes<'a> {
    content_type: Option<&'a [u8]>,
    message_digest: Option<&'a [u8]>,
    signing_time: Option<&'a [u8]>,
    binary_signing_time: Option<&'a [u8]>,
}

impl<'a> Model for Attributes<'a> {
    ghost use Rattle.std.specs.Prelude.{option_map};
    ghost use Rattle.signed_objects.specs.Reading.{Found};

    ghost Value = { Found };

    ghost view = { λ a. record { content_type = option_map (λ v. v.now) a.content_type; message_digest = option_map (λ v. v.now) a.message_digest; signing_time = option_map (λ v. v.now) a.signing_time; binary_signing_time = option_map (λ v. v.now) a.binary_signing_time } };
}

impl<'a> Attributes<'a> {
    ghost use Rattle.signed_objects.specs.Reading.{found_of, found_in};

    /// No attributes.
    fn new() -> Attributes<'a>
        ensures { result ≡ found_in [] }
    {
        Attributes {
            content_type: None,
            message_digest: None,
            signing_time: None,
            binary_signing_time: None,
        }
    }

    /// The value of the attribute of this type, if it came.
    fn get(&self, kind: AttributeType) -> Option<&'a [u8]>
        ensures { option_map (λ v. v.now) result ≡ found_of self.now kind }
    {
        match kind {
            AttributeType::ContentType => self.content_type,
            AttributeType::MessageDigest => self.message_digest,
            AttributeType::SigningTime => self.signing_time,
            AttributeType::BinarySigningTime => self.binary_signing_time,
        }
    }

    /// One attribute more.
    fn put(&mut self, kind: AttributeType, value: &'a [u8])
        ensures { self.new ≡ put_in self.old kind value.now }
    {
        match kind {
            AttributeType::ContentType => self.content_type = Some(value),
            AttributeType::MessageDigest => self.message_digest = Some(value),
            AttributeType::SigningTime => self.signing_time = Some(value),
            AttributeType::BinarySigningTime => self.binary_signing_time = Some(value),
        }
    }
}

/// attrType, after the attributes before it.
#[tactic(auto, unfolding(crate::specs::Reading::attribute_type_at))]
fn attribute_type(cursor: &mut Cursor, before: &Attributes) -> Result<AttributeType, CmsFault>
    ensures { GivesNext (λ kind. kind) result cursor.new (attribute_type_at before.now cursor.old) }
{
    let offset = cursor.offset();
    let oid = cursor.oid()?;
    let Some(kind) = AttributeType::of(oid) else {
        return Err(CmsFaultKind::UnknownAttribute.at(offset));
    };
    if before.get(kind).is_some() {
        return Err(CmsFaultKind::AttributeTwice.at(offset));
    }
    Ok(kind)
}

/// Time: a UTCTime or a GeneralizedTime, whose moment is not judged.
#[tactic(auto, unfolding(crate::specs::Reading::signing_time_at, der_lite::specs::DerReading::content_at))]
fn signing_time<'a>(cursor: &mut Cursor<'a>) -> Result<&'a [u8], CmsFault>
    ensures { GivesNext (λ content. content.now) result cursor.new (signing_time_at cursor.old) }
{
    if begins(cursor, UTC_TIME) {
        return Ok(cursor.tagged(UTC_TIME)?.remaining());
    }
    needed_octets(cursor, GENERALIZED_TIME, CmsFaultKind::SigningTime)
}

/// The content of the value of an attribute of this type.
#[tactic(auto, unfolding(crate::specs::Reading::attribute_value_at))]
fn attribute_value<'a>(cursor: &mut Cursor<'a>, kind: AttributeType) -> Result<&'a [u8], CmsFault>
    ensures { GivesNext (λ content. content.now) result cursor.new (attribute_value_at kind cursor.old) }
{
    match kind {
        AttributeType::ContentType => object_identifier(cursor),
        AttributeType::MessageDigest => Ok(cursor.octets()?),
        AttributeType::SigningTime => signing_time(cursor),
        AttributeType::BinarySigningTime => Ok(cursor.integer()?),
    }
}

/// attrValues SET OF AttributeValue: exactly one.
#[tactic(auto, unfolding(crate::specs::Reading::attribute_values_at))]
fn attribute_values<'a>(cursor: &mut Cursor<'a>, kind: AttributeType) -> Result<&'a [u8], CmsFault>
    ensures { GivesNext (λ content. content.now) result cursor.new (attribute_values_at kind cursor.old) }
{
    let offset = cursor.offset();
    let mut values = cursor.tagged(SET)?;
    if values.at_end() {
        return Err(CmsFaultKind::AttributeValues.at(offset));
    }
    let value = attribute_value(&mut values, kind)?;
    end(values, CmsFaultKind::AttributeValues)?;
    Ok(value)
}

/// Attribute, after those before it: its type, and the content of its value.
#[tactic(auto, unfolding(crate::specs::Reading::attribute_from))]
fn attribute<'a>(
    cursor: &mut Cursor<'a>,
    before: &Attributes,
) -> Result<(AttributeType, &'a [u8]), CmsFault>
    ensures { GivesNext (λ a. (a.0, a.1.now)) result cursor.new (attribute_from before.now cursor.old) }
{
    let mut members = cursor.sequence()?;
    let kind = attribute_type(&mut members, before)?;
    let value = attribute_values(&mut members, kind)?;
    members.finish()?;
    Ok((kind, value))
}

/// The attributes, to the end.
fn each_attribute(members: Cursor<'_>) -> Result<Attributes<'_>, CmsFault>
    ensures { GivesFound (λ found. found) result (read_each attribute_at members.entry) }
{
    let mut members = members;
    let mut found = Attributes::new();
    while !members.at_end() {
        let (kind, value) = attribute(&mut members, &found)?;
        found.put(kind, value);
    }
    Ok(found)
}

/// The signed attributes: their octets, and what they say.
#[derive(Clone, Copy, Debug)]
pub(crate) struct SignedAttributes<'a> {
    /// The attributes without the tag and the length of signedAttrs.
    pub(crate) octets: &'a [u8],
    /// The value of content-type.
    pub(crate) content_type: &'a [u8],
    /// The value of message-digest.
    pub(crate) message_digest: &'a [u8],
}

/// signedAttrs [0].
#[tactic(auto, unfolding(crate::specs::Reading::signed_attributes_at))]
pub(crate) fn signed_attributes<'a>(
    cursor: &mut Cursor<'a>,
) -> Result<SignedAttributes<'a>, CmsFault>
    ensures { GivesNext (λ a. (a.octets.now, record { content_type = a.content_type.now; message_digest = a.message_digest.now })) result cursor.new (signed_attributes_at cursor.old) }
{
    let offset = cursor.offset();
    let members = needed_element(cursor, EXPLICIT_0, CmsFaultKind::NoSignedAttributes)?;
    let octets = members.remaining();
    let found = each_attribute(members)?;
    let Some(content_type) = found.content_type else {
        return Err(CmsFaultKind::NoContentType.at(offset));
    };
    let Some(message_digest) = found.message_digest else {
        return Err(CmsFaultKind::NoMessageDigest.at(offset));
    };
    Ok(SignedAttributes {
        octets,
        content_type,
        message_digest,
    })
}
