//! Reading of elements that CMS needs besides those of `der_lite`.

ghost use Rattle.std.specs.Prelude.{◌≡◌, ◌<◌, []};
ghost use Rattle.signed_objects.specs.Gives.{GivesNext, GivesAll};
ghost use Rattle.signed_objects.specs.Faults.{kind_number};
ghost use Rattle.der_forms.specs.Combinators.{begins as begins_with, needed};
ghost use Rattle.der_forms.specs.CombinatorReading.{found_at, nothing_at};
ghost use Rattle.signed_objects.specs.Reading.{version_at};
ghost use Rattle.der_forms.specs.CombinatorReading.{needed_octets_at};

use crate::{CmsFault, CmsFaultKind};
use der_lite::Cursor;

/// The tag of an INTEGER (X.690 section 8.3).
pub(crate) const INTEGER: u8 = 0x02;

/// The tag of a SET (X.690 section 8.11).
pub(crate) const SET: u8 = 0x31;

/// The tag of an explicitly tagged [0].
pub(crate) const EXPLICIT_0: u8 = 0xa0;

/// Whether an element of this tag is here.
pub(crate) fn begins(cursor: &Cursor, tag: u8) -> bool
    ensures { result ≡ begins_with tag cursor.now.rest }
{
    cursor.peek_tag() == Some(tag)
}

/// The element of this tag here; if none of it is, this is the fault.
pub(crate) fn needed_element<'a>(
    cursor: &mut Cursor<'a>,
    tag: u8,
    missing: CmsFaultKind,
) -> Result<Cursor<'a>, CmsFault>
    ensures { GivesNext (λ c. c) result cursor.new (found_at (needed (kind_number missing) tag) tag cursor.old) }
{
    if !begins(cursor, tag) {
        return Err(missing.at(cursor.offset()));
    }
    Ok(cursor.tagged(tag)?)
}

/// The content of the element of this tag here; if none of it is, this is the fault.
#[tactic(auto, unfolding(der_forms::specs::CombinatorReading::needed_octets_at))]
pub(crate) fn needed_octets<'a>(
    cursor: &mut Cursor<'a>,
    tag: u8,
    missing: CmsFaultKind,
) -> Result<&'a [u8], CmsFault>
    ensures { GivesNext (λ content. content.now) result cursor.new (needed_octets_at (kind_number missing) tag cursor.old) }
{
    let content = needed_element(cursor, tag, missing)?;
    Ok(content.remaining())
}

/// The end of the enclosing element; if bytes remain, this is the fault.
pub(crate) fn end(members: Cursor, more: CmsFaultKind) -> Result<(), CmsFault>
    ensures { GivesAll (λ _. tt) result (nothing_at (λ bytes. kind_number more) members.entry) }
{
    if !members.at_end() {
        return Err(more.at(members.offset()));
    }
    Ok(())
}

/// The INTEGER 3 here; any other is this fault.
#[tactic(auto, unfolding(der_lite::specs::DerReading::content_at))]
pub(crate) fn version(cursor: &mut Cursor, other: CmsFaultKind) -> Result<(), CmsFault>
    ensures { GivesNext (λ _. tt) result cursor.new (version_at (kind_number other) cursor.old) }
{
    let offset = cursor.offset();
    if cursor.tagged(INTEGER)?.remaining() != [3].as_slice() {
        return Err(other.at(offset));
    }
    Ok(())
}
