//! OBJECT IDENTIFIERs (X.690 section 8.19).

ghost use Rattle.std.specs.Prelude.{◌≡◌};
ghost use Rattle.signed_objects.specs.Gives.{GivesNext};
ghost use Rattle.signed_objects.specs.Oids.{is_oid as is_oid_of};
ghost use Rattle.signed_objects.specs.Reading.{object_identifier_at};

use crate::{CmsFault, CmsFaultKind};
use der_lite::{Cursor, DerFaultKind};

/// Whether a content is that of an OBJECT IDENTIFIER. It has an octet at least, ends with the last octet of a subidentifier, and no
/// subidentifier begins with 0x80 (X.690 section 8.19.2).
fn is_oid(content: &[u8]) -> bool
    ensures { result ≡ is_oid_of content.now }
{
    let mut before = 0;
    for octet in content {
        if before < 0x80 && *octet == 0x80 {
            return false;
        }
        before = *octet;
    }
    !content.is_empty() && before < 0x80
}

/// The content of the OBJECT IDENTIFIER here.
#[tactic(auto, unfolding(crate::specs::Reading::object_identifier_at, der_lite::specs::DerReading::content_at))]
pub(crate) fn object_identifier<'a>(cursor: &mut Cursor<'a>) -> Result<&'a [u8], CmsFault>
    ensures { GivesNext (λ content. content.now) result cursor.new (object_identifier_at cursor.old) }
{
    let offset = cursor.offset();
    let content = cursor.oid()?;
    if !is_oid(content) {
        return Err(CmsFaultKind::Element(DerFaultKind::BadContent).at(offset));
    }
    Ok(content)
}
