//! A cursor over the elements of one enclosing element.

ghost use Rattle.std.specs.Prelude.{IfOk, ◌≡◌, IsTrue, ◌↔◌, slice_get, []};
ghost use Rattle.der_lite.specs.Der.{SEQUENCE, is_integer as is_integer_of, is_bit_string as is_bit_string_of, is_ia5};
ghost use Rattle.der_lite.specs.Moments.{is_moment};
ghost use Rattle.der_lite.specs.DerReading.{element_at, integer_at, bits_at, octets_at, oid_at, ia5_at, time_at, end_at};
ghost use Rattle.der_lite.specs.Cursors.{GivesElement, FindsElement, EndsElement};
ghost use Rattle.der_lite.specs.Place.{place_of};

use crate::content::{ia5_text, is_bit_string, is_integer};
use crate::head::read_head;
use crate::{Bits, DerFault, DerFaultKind, Moment, tag};
use std::marker::Model;

/// Reads the elements inside an enclosing element, in order.
///
/// A method reads the element at the cursor, and then moves the cursor behind it. If a read fails, the cursor does not move.
/// The first fault in this order is reported: `Truncated`, `WrongTag`, `BadLength`, `BadContent`.
/// Results are slices of the bytes given to `new`. No call allocates memory.
#[derive(Debug, Drop)]
pub struct Cursor<'a> {
    at: usize,
    rest: &'a [u8],
}

impl<'a> Model for Cursor<'a> {
    ghost use Rattle.der_lite.specs.Place.{Place, IsCursor, place_of};

    ghost Value = { Place };

    ghost view = { λ c. place_of c.at c.rest.now };

    ghost invariant = { λ c. IsCursor c.at c.rest.now };
}

impl<'a> Cursor<'a> {
    ghost use Rattle.der_lite.specs.Cursors.{bits_content};

    /// Returns a cursor at the start of `payload`, at offset 0.
    pub fn new(payload: &'a [u8]) -> Cursor<'a>
        ensures { result ≡ place_of 0 payload.now }
    {
        Cursor {
            at: 0,
            rest: payload,
        }
    }

    /// Cursors over the content of the element of this tag here, and behind it.
    fn element(&self, tag: u8) -> Result<(Cursor<'a>, Cursor<'a>), DerFault>
        ensures { FindsElement result (element_at tag self.now) }
    {
        let at = self.at;
        let rest = self.rest;
        match read_head(tag, rest) {
            Err(kind) => Err(DerFault { kind, offset: at }),
            Ok(head) => {
                let content = Cursor {
                    at: at + head.length_end,
                    rest: &rest[head.length_end..head.content_end],
                };
                let behind = Cursor {
                    at: at + head.content_end,
                    rest: &rest[head.content_end..],
                };
                Ok((content, behind))
            }
        }
    }

    /// The fault of an element here with a content that is none of its type.
    fn bad_content(&self) -> DerFault
        ensures offset { result.offset ≡ self.now.at }
        ensures kind { result.kind ≡ DerFaultKind.BadContent }
    {
        DerFault {
            kind: DerFaultKind::BadContent,
            offset: self.at,
        }
    }

    /// Reads the SEQUENCE (tag 48) at the cursor (X.690 section 8.9). Returns a cursor over its members, which are not checked.
    /// The faults are `Truncated`, `WrongTag` and `BadLength`, in this order. On a fault the cursor does not move.
    pub fn sequence(&mut self) -> Result<Cursor<'a>, DerFault>
        ensures { GivesElement (λ c. c) result self.old self.new (element_at SEQUENCE self.old) }
    {
        let (content, behind) = self.element(tag::SEQUENCE)?;
        *self = behind;
        Ok(content)
    }

    /// Reads the INTEGER (tag 2) at the cursor (X.690 section 8.3). Returns its content in two's complement, most significant byte first.
    /// `BadContent`: the content is empty or not in the fewest bytes. The faults before it are `Truncated`, `WrongTag` and `BadLength`. On a
    /// fault the cursor does not move.
    #[tactic(auto, unfolding(crate::specs::DerReading::content_at))]
    pub fn integer(&mut self) -> Result<&'a [u8], DerFault>
        ensures exact { GivesElement (λ content. content.now) result self.old self.new (integer_at self.old) }
        ensures fewest { IfOk result (λ content. IsTrue (is_integer_of content.now)) }
    {
        let (content, behind) = self.element(tag::INTEGER)?;
        if !is_integer(content.rest) {
            return Err(self.bad_content());
        }
        *self = behind;
        Ok(content.rest)
    }

    /// Reads the BIT STRING (tag 3) at the cursor (X.690 sections 8.6 and 11.2). Returns its bits.
    /// `BadContent`: the count of unused bits is missing, above 7, or not 0 although no bytes follow. Also if an unused bit is set.
    /// The faults before it are `Truncated`, `WrongTag` and `BadLength`. On a fault the cursor does not move.
    #[tactic(auto, unfolding(crate::specs::DerReading::content_at))]
    pub fn bits(&mut self) -> Result<Bits<'a>, DerFault>
        ensures exact { GivesElement bits_content result self.old self.new (bits_at self.old) }
        ensures valid { IfOk result (λ bits. IsTrue (is_bit_string_of (bits_content bits))) }
    {
        let (content, behind) = self.element(tag::BIT_STRING)?;
        if let [unused, bytes @ ..] = content.rest
            && is_bit_string(content.rest)
        {
            *self = behind;
            return Ok(Bits {
                unused: *unused,
                bytes,
            });
        }
        Err(self.bad_content())
    }

    /// Reads the OCTET STRING (tag 4) at the cursor (X.690 section 8.7). Returns its content, which may be empty.
    /// The faults are `Truncated`, `WrongTag` and `BadLength`, in this order. On a fault the cursor does not move.
    #[tactic(auto, unfolding(crate::specs::DerReading::content_at))]
    pub fn octets(&mut self) -> Result<&'a [u8], DerFault>
        ensures { GivesElement (λ content. content.now) result self.old self.new (octets_at self.old) }
    {
        let (content, behind) = self.element(tag::OCTET_STRING)?;
        *self = behind;
        Ok(content.rest)
    }

    /// Reads the OBJECT IDENTIFIER (tag 6) at the cursor (X.690 section 8.19). Returns its content.
    /// The content is not checked: compare it with the bytes that you expect. The faults are `Truncated`, `WrongTag` and `BadLength`, in this
    /// order. On a fault the cursor does not move.
    #[tactic(auto, unfolding(crate::specs::DerReading::content_at))]
    pub fn oid(&mut self) -> Result<&'a [u8], DerFault>
        ensures { GivesElement (λ content. content.now) result self.old self.new (oid_at self.old) }
    {
        let (content, behind) = self.element(tag::OBJECT_IDENTIFIER)?;
        *self = behind;
        Ok(content.rest)
    }

    /// Reads the IA5String (tag 22) at the cursor (X.690 section 8.23). Returns its text. `BadContent`: a byte is 128 or above.
    /// The faults before it are `Truncated`, `WrongTag` and `BadLength`. On a fault the cursor does not move.
    #[tactic(auto, unfolding(crate::specs::DerReading::content_at))]
    pub fn ia5(&mut self) -> Result<&'a str, DerFault>
        ensures exact { GivesElement (λ text. text.now) result self.old self.new (ia5_at self.old) }
        ensures ascii { IfOk result (λ text. IsTrue (is_ia5 text.now)) }
    {
        let (content, behind) = self.element(tag::IA5_STRING)?;
        match ia5_text(content.rest) {
            None => Err(self.bad_content()),
            Some(text) => {
                *self = behind;
                Ok(text)
            }
        }
    }

    /// Reads the GeneralizedTime (tag 24) at the cursor (X.690 sections 8.25 and 11.7; RFC 5280 section 4.1.2.5.2). Returns its date and time,
    /// in UTC.
    /// `BadContent`: the content does not have the form `YYYYMMDDHHMMSSZ`, or is not a real date and time of the years 1970 to 9999. A second of
    /// 60 is refused, too.
    /// The faults before it are `Truncated`, `WrongTag` and `BadLength`. On a fault the cursor does not move.
    #[tactic(auto, unfolding(crate::specs::DerReading::time_at, crate::specs::DerReading::content_at, crate::specs::Moments::moment_in))]
    pub fn time(&mut self) -> Result<Moment, DerFault>
        ensures exact { GivesElement (λ moment. moment) result self.old self.new (time_at self.old) }
        ensures real { IfOk result (λ moment. IsTrue (is_moment moment)) }
    {
        let (content, behind) = self.element(tag::GENERALIZED_TIME)?;
        let Some(moment) = Moment::from_text(content.rest) else {
            return Err(self.bad_content());
        };
        *self = behind;
        Ok(moment)
    }

    /// Reads the element with tag `tag` at the cursor. Returns a cursor over its content, which is not checked.
    /// If the element is constructed, the content is its members (X.690 section 8.1). [`remaining`](Cursor::remaining) gives the content's
    /// bytes.
    /// The faults are `Truncated`, `WrongTag` and `BadLength`, in this order. On a fault the cursor does not move.
    pub fn tagged(&mut self, tag: u8) -> Result<Cursor<'a>, DerFault>
        ensures { GivesElement (λ c. c) result self.old self.new (element_at tag self.old) }
    {
        let (content, behind) = self.element(tag)?;
        *self = behind;
        Ok(content)
    }

    /// Returns the tag of the next element: the byte at the cursor, which does not move. `None`: the cursor is at the end of the enclosing element.
    pub fn peek_tag(&self) -> Option<u8>
        ensures { result ≡ slice_get self.now.rest 0 }
    {
        self.rest.first().copied()
    }

    /// The bytes from the cursor to the end of the enclosing element. The cursor does not move.
    pub fn remaining(&self) -> &'a [u8]
        ensures { result.now ≡ self.now.rest }
    {
        self.rest
    }

    /// Returns whether the cursor is at the end of the enclosing element.
    pub fn at_end(&self) -> bool
        ensures { IsTrue result ↔ (self.now.rest ≡ []) }
    {
        self.rest.is_empty()
    }

    /// The position of the cursor, in bytes from the start of the whole payload.
    pub fn offset(&self) -> usize
        ensures { result ≡ self.now.at }
    {
        self.at
    }

    /// Checks that the cursor is at the end of the enclosing element. `Ok`: it is. `Err`: bytes remain. The fault is `Trailing`, with the offset of
    /// the first byte that remains.
    #[tactic(auto, unfolding(crate::specs::DerReading::end_at))]
    pub fn finish(self) -> Result<(), DerFault>
        ensures { EndsElement result (end_at self.entry) }
    {
        if !self.rest.is_empty() {
            return Err(DerFault {
                kind: DerFaultKind::Trailing,
                offset: self.at,
            });
        }
        Ok(())
    }
}
