//! Identifier and length of an element in BER (X.690 sections 8.1.2 and 8.1.3).

ghost use Rattle.std.specs.Prelude.{◌≡◌, option_map};
ghost use Rattle.der_lite.specs.Place.{first_of};
ghost use Rattle.signed_objects.specs.Gives.{GivesNext};
ghost use Rattle.signed_objects.specs.Faults.{kind_number};
ghost use Rattle.signed_objects.specs.PartReading.{with_own_at};
ghost use Rattle.signed_objects.specs.BerReading.{length_in as length_in_of, long_length_at, length_from_at, length_octets_at, head_at};
ghost use Rattle.signed_objects.specs.Ber.{tag_rules, length_rules};

use crate::ber_cursor::BerCursor;
use crate::form::{Form, OCTET_STRING, PIECES, is_primitive};
use crate::{CmsFault, CmsFaultKind};

/// The length that octets give, the highest first. `None` if it is 2^32 or more.
fn length_in(octets: &[u8]) -> Option<usize>
    ensures { result ≡ length_in_of octets.now }
{
    let mut length: usize = 0;
    for octet in octets {
        if length >= 16777216 {
            return None;
        }
        length = length * 256 + usize::from(*octet);
    }
    Some(length)
}

/// The long form of a length, after its first octet (X.690 section 8.1.3.5).
fn long_length(
    cursor: &mut BerCursor,
    element: usize,
    count: usize,
) -> Result<Option<usize>, CmsFault>
    ensures { GivesNext (λ length. length) result cursor.new (long_length_at count element cursor.old) }
{
    if count == 127 {
        return Err(CmsFaultKind::LongLength.at(element));
    }
    let octets = cursor.octets(element, count)?;
    let Some(length) = length_in(octets) else {
        return Err(CmsFaultKind::LongLength.at(element));
    };
    Ok(Some(length))
}

/// The length octets: `None` is an indefinite length.
#[tactic(auto, unfolding(crate::specs::BerReading::length_octets_at))]
fn length_octets(cursor: &mut BerCursor, element: usize) -> Result<Option<usize>, CmsFault>
    ensures { GivesNext (λ length. length) result cursor.new (length_octets_at element cursor.old) }
{
    let first = cursor.octet(element)?;
    if first < 128 {
        return Ok(Some(usize::from(first)));
    }
    if first == 128 {
        return Ok(None);
    }
    long_length(cursor, element, usize::from(first) - 128)
}

/// What is wrong with the tag of an element of this form.
fn tag_fault(form: Form, tag: u8) -> Option<CmsFaultKind>
    ensures { option_map kind_number result ≡ first_of (tag_rules form tag) }
{
    if tag % 32 == 31 {
        return Some(CmsFaultKind::LongTag);
    }
    if tag == 0 {
        return Some(CmsFaultKind::EndOfContents);
    }
    match form {
        Form::Piece if tag != OCTET_STRING && tag != PIECES => Some(CmsFaultKind::Piece),
        _ => None,
    }
}

/// What is wrong with the length of an element of this form and tag.
fn length_fault(form: Form, tag: u8, length: Option<usize>) -> Option<CmsFaultKind>
    ensures { option_map kind_number result ≡ first_of (length_rules form tag length) }
{
    if length.is_some() {
        return None;
    }
    if is_primitive(tag) {
        return Some(CmsFaultKind::PrimitiveIndefinite);
    }
    match form {
        Form::Der => Some(CmsFaultKind::DerIndefinite),
        Form::Member | Form::Piece => None,
    }
}

/// Identifier and length.
#[derive(Clone, Copy, Debug)]
pub(crate) struct Head<'a> {
    /// Their octets.
    pub(crate) own: &'a [u8],
    /// The tag.
    pub(crate) tag: u8,
    /// The length of the contents; `None` if it is indefinite.
    pub(crate) length: Option<usize>,
}

/// The tag and the length of an element of this form.
#[tactic(auto, unfolding(crate::specs::BerReading::head_at))]
fn tag_and_length(
    cursor: &mut BerCursor,
    form: Form,
    element: usize,
) -> Result<(u8, Option<usize>), CmsFault>
    ensures { GivesNext (λ h. h) result cursor.new (head_at form element cursor.old) }
{
    let tag = cursor.octet(element)?;
    if let Some(kind) = tag_fault(form, tag) {
        return Err(kind.at(element));
    }
    let length = length_octets(cursor, element)?;
    if let Some(kind) = length_fault(form, tag, length) {
        return Err(kind.at(element));
    }
    Ok((tag, length))
}

/// The head of an element of this form.
pub(crate) fn read_head<'a>(
    cursor: &mut BerCursor<'a>,
    form: Form,
    element: usize,
) -> Result<Head<'a>, CmsFault>
    ensures { GivesNext (λ h. (h.own.now, (h.tag, h.length))) result cursor.new (with_own_at (head_at form) element cursor.old) }
{
    let here = cursor.remaining();
    let (tag, length) = tag_and_length(cursor, form, element)?;
    let count = here.len() - cursor.remaining().len();
    Ok(Head {
        own: &here[..count],
        tag,
        length,
    })
}
