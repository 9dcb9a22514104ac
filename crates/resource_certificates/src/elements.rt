//! Reading of elements that certificates need besides those of `der_lite`.

ghost use Rattle.std.specs.Prelude.{◌≡◌};
ghost use Rattle.resource_certificates.specs.Gives.{GivesNext};
ghost use Rattle.resource_certificates.specs.Faults.{kind_number};
ghost use Rattle.der_lite.specs.DerReading.{content_at};
ghost use Rattle.der_forms.specs.Combinators.{no_rules, begins as begins_with, needed, barred};
ghost use Rattle.der_forms.specs.CombinatorReading.{found_at, fixed_field};

use crate::{CertificateFault, CertificateFaultKind};
use der_lite::Cursor;

/// The tag of an INTEGER (X.690 section 8.3).
pub(crate) const INTEGER: u8 = 0x02;

/// The tag of a BIT STRING (X.690 section 8.6).
pub(crate) const BIT_STRING: u8 = 0x03;

/// The tag of an OBJECT IDENTIFIER (X.690 section 8.19).
pub(crate) const OBJECT_IDENTIFIER: u8 = 0x06;

/// The tag of a SEQUENCE (X.690 section 8.9).
pub(crate) const SEQUENCE: u8 = 0x30;

/// The tag of an explicitly tagged [0].
pub(crate) const EXPLICIT_0: u8 = 0xa0;

/// Whether an element of this tag is here.
pub(crate) fn begins(cursor: &Cursor, tag: u8) -> bool
    ensures { result ≡ begins_with tag cursor.now.rest }
{
    cursor.peek_tag() == Some(tag)
}

/// The element of this tag here; if none of it is, this is the fault.
pub(crate) fn needed_element<'a>(
    cursor: &mut Cursor<'a>,
    tag: u8,
    missing: CertificateFaultKind,
) -> Result<Cursor<'a>, CertificateFault>
    ensures { GivesNext (λ c. c) result cursor.new (found_at (needed (kind_number missing) tag) tag cursor.old) }
{
    if !begins(cursor, tag) {
        return Err(missing.at(cursor.offset()));
    }
    Ok(cursor.tagged(tag)?)
}

/// The element of this tag here; if one of the other is, this is the fault.
pub(crate) fn element_unless<'a>(
    cursor: &mut Cursor<'a>,
    other: u8,
    tag: u8,
    there: CertificateFaultKind,
) -> Result<Cursor<'a>, CertificateFault>
    ensures { GivesNext (λ c. c) result cursor.new (found_at (barred (kind_number there) other) tag cursor.old) }
{
    if begins(cursor, other) {
        return Err(there.at(cursor.offset()));
    }
    Ok(cursor.tagged(tag)?)
}

/// The element of this tag and this content; another content is this fault.
#[tactic(auto, unfolding(der_lite::specs::DerReading::content_at))]
pub(crate) fn fixed(
    cursor: &mut Cursor,
    tag: u8,
    wanted: &[u8],
    other: CertificateFaultKind,
) -> Result<(), CertificateFault>
    ensures { GivesNext (λ _. tt) result cursor.new (fixed_field (content_at tag no_rules cursor.old) cursor.old.at (kind_number other) wanted.now) }
{
    let offset = cursor.offset();
    if cursor.tagged(tag)?.remaining() != wanted {
        return Err(other.at(offset));
    }
    Ok(())
}
