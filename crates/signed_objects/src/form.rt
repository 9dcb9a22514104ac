//! What an element in BER is, and what is written of it.

ghost use Rattle.std.specs.Prelude.{◌≡◌, ◌≤◌, not, ◌==◌, ◌&&◌};
ghost use Rattle.signed_objects.specs.Ber.{is_primitive as is_primitive_of, is_taken, form_inside, der_tag as der_tag_of, holds_der as holds_der_of};

use crate::elements::EXPLICIT_0;

/// The tag of an OCTET STRING (X.690 section 8.7).
pub(crate) const OCTET_STRING: u8 = 0x04;

/// The tag of an OCTET STRING in pieces (X.690 section 8.7.3).
pub(crate) const PIECES: u8 = 0x24;

/// What an element is.
#[derive(Clone, Copy, Debug, PartialEq, Eq)]
pub(crate) enum Form {
    /// An element that is written in DER.
    Member,
    /// A piece of an OCTET STRING, of which the octets are written.
    Piece,
    /// An element that is in DER, and is written as it is.
    Der,
}

/// Whether an element of this tag is primitive (X.690 section 8.1.2.5).
pub(crate) fn is_primitive(tag: u8) -> bool
    ensures { result ≡ is_primitive_of tag }
{
    tag / 32 % 2 == 0
}

/// The tag in DER: an OCTET STRING in pieces becomes one that is primitive.
pub(crate) fn der_tag(tag: u8) -> u8
    ensures { result ≡ der_tag_of tag }
{
    if tag == PIECES { OCTET_STRING } else { tag }
}

/// Whether what this element holds is in DER: it is certificates [0] or signedAttrs [0].
fn holds_der(depth: u8, tag: u8) -> bool
    ensures { result ≡ holds_der_of depth tag }
{
    tag == EXPLICIT_0 && (depth == 3 || depth == 5)
}

impl Form {
    /// Whether the contents stay as they are.
    pub(crate) fn takes(self, tag: u8) -> bool
        ensures { result ≡ is_taken self tag }
    {
        match self {
            Form::Der => true,
            Form::Member | Form::Piece => is_primitive(tag),
        }
    }

    /// What the elements inside one of this form and tag are, at its depth.
    pub(crate) fn inside(self, depth: u8, tag: u8) -> Form
        ensures { result ≡ form_inside depth self tag }
    {
        match self {
            Form::Piece => Form::Piece,
            Form::Der => Form::Der,
            Form::Member => {
                if tag == PIECES {
                    Form::Piece
                } else if holds_der(depth, tag) {
                    Form::Der
                } else {
                    Form::Member
                }
            }
        }
    }
}
