//! Reading of elements that resources need besides those of `der_lite`.

ghost use Rattle.std.specs.Prelude.{◌≡◌};
ghost use Rattle.der_forms.specs.Combinators.{begins as begins_with};

use der_lite::Cursor;

/// The tag of an INTEGER (X.690 section 8.3).
pub(crate) const INTEGER: u8 = 0x02;

/// The tag of a BIT STRING (X.690 section 8.6).
pub(crate) const BIT_STRING: u8 = 0x03;

/// The tag of a NULL (X.690 section 8.8).
pub(crate) const NULL: u8 = 0x05;

/// The tag of an explicitly tagged [0].
pub(crate) const EXPLICIT_0: u8 = 0xa0;

/// Whether an element of this tag is here.
pub(crate) fn begins(cursor: &Cursor, tag: u8) -> bool
    ensures { result ≡ begins_with tag cursor.now.rest }
{
    cursor.peek_tag() == Some(tag)
}
