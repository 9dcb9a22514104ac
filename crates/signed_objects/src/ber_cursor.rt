//! A cursor over octets in BER: identifiers and lengths (X.690 section 8.1).

ghost use Rattle.std.specs.Prelude.{◌≡◌, IfOk};
ghost use Rattle.der_lite.specs.Place.{place_of};
ghost use Rattle.signed_objects.specs.Gives.{GivesNext};
ghost use Rattle.signed_objects.specs.PartReading.{octet_at, octets_at, end_of};

use crate::{CmsFault, CmsFaultKind};
use der_lite::DerFaultKind;
use std::marker::Model;

/// Reads octets, up to the end of the enclosing element. If a read fails, the cursor may have moved.
#[derive(Debug, Drop)]
pub(crate) struct BerCursor<'a> {
    at: usize,
    rest: &'a [u8],
}

impl<'a> Model for BerCursor<'a> {
    ghost use Rattle.der_lite.specs.Place.{Place, IsCursor, place_of};

    ghost Value = { Place };

    ghost view = { λ c. place_of c.at c.rest.now };

    ghost invariant = { λ c. IsCursor c.at c.rest.now };
}

/// The element at this offset is not here whole.
fn truncated(element: usize) -> CmsFault
    ensures { result ≡ record { kind = CmsFaultKind.Element DerFaultKind.Truncated; offset = element } }
{
    CmsFaultKind::Element(DerFaultKind::Truncated).at(element)
}

impl<'a> BerCursor<'a> {
    /// A cursor over a whole file.
    pub(crate) fn new(bytes: &'a [u8]) -> BerCursor<'a>
        ensures { result ≡ place_of 0 bytes.now }
    {
        BerCursor { at: 0, rest: bytes }
    }

    /// The octet here, of the element at an offset.
    pub(crate) fn octet(&mut self, element: usize) -> Result<u8, CmsFault>
        ensures { GivesNext (λ octet. octet) result self.new (octet_at element self.old) }
    {
        let [first, rest @ ..] = self.rest else {
            return Err(truncated(element));
        };
        let at = self.at + 1;
        *self = BerCursor { at, rest };
        Ok(*first)
    }

    /// This many octets, of the element at an offset.
    pub(crate) fn octets(&mut self, element: usize, count: usize) -> Result<&'a [u8], CmsFault>
        ensures { GivesNext (λ octets. octets.now) result self.new (octets_at count element self.old) }
    {
        let rest = self.rest;
        if rest.len() < count {
            return Err(truncated(element));
        }
        let at = self.at + count;
        *self = BerCursor {
            at,
            rest: &rest[count..],
        };
        Ok(&rest[..count])
    }

    /// A cursor over this many octets, of the element at an offset.
    pub(crate) fn enclosed(
        &mut self,
        element: usize,
        count: usize,
    ) -> Result<BerCursor<'a>, CmsFault>
        ensures exact { GivesNext (λ c. c.rest) result self.new (octets_at count element self.old) }
        ensures here { IfOk result (λ c. c.at ≡ self.old.at) }
    {
        let at = self.at;
        let rest = self.octets(element, count)?;
        Ok(BerCursor { at, rest })
    }

    /// Whether the enclosing element ends here: by end-of-contents octets, or because no octets remain.
    pub(crate) fn ends(&self, is_closed: bool) -> bool
        ensures { result ≡ end_of is_closed self.now.rest }
    {
        if is_closed {
            matches!(self.rest, [0, 0, ..])
        } else {
            self.rest.is_empty()
        }
    }

    /// The position, in octets from the start of the file.
    pub(crate) fn offset(&self) -> usize
        ensures { result ≡ self.now.at }
    {
        self.at
    }

    /// The octets from here to the end of the enclosing element.
    pub(crate) fn remaining(&self) -> &'a [u8]
        ensures { result.now ≡ self.now.rest }
    {
        self.rest
    }
}
