//! Elements as bytes.

ghost use Rattle.std.specs.Prelude.{◌≡◌, ◌<◌, ◌+◌, ◌^◌, ◌++◌, ◌∷◌, [], length, take, IsTrue, OnOk, OnErr};
ghost use Rattle.der_lite.specs.Der.{BIT_STRING, GENERALIZED_TIME, IA5_STRING, INTEGER, OBJECT_IDENTIFIER, OCTET_STRING, SEQUENCE, length_bytes, tlv};
ghost use Rattle.der_lite.specs.Cursors.{bits_content};
ghost use Rattle.der_lite.specs.Moments.{is_moment, moment_text};
ghost use Rattle.der_lite.specs.Values.{unsigned_bytes};
ghost use Rattle.der_lite.specs.Writing.{Adds};

use crate::{Bits, Moment, tag};
use std::alloc::{AllocError, Global};
use std::marker::Model;

/// Adds the tag and the length of a content, in the fewest bytes. Without memory nothing is added.
#[tactic(auto, unfolding(crate::specs::Der::length_bytes))]
fn push_head(out: &mut Vec<u8>, tag: u8, len: usize) -> Result<(), AllocError>
    requires { len < 2 ^ 32 }
    ensures added { OnOk result (out.new.items ≡ out.old.items ++ tag ∷ length_bytes len) }
    ensures kept { OnErr result (out.new.items ≡ out.old.items) }
{
    let low = (len % 256) as u8;
    let second = (len / 256 % 256) as u8;
    let third = (len / 256 / 256 % 256) as u8;
    let fourth = (len / 256 / 256 / 256 % 256) as u8;
    if len < 128 {
        out.extend_from_slice(&[tag, len as u8])
    } else if len < 256 {
        out.extend_from_slice(&[tag, 129, low])
    } else if len < 65536 {
        out.extend_from_slice(&[tag, 130, second, low])
    } else if len < 16777216 {
        out.extend_from_slice(&[tag, 131, third, second, low])
    } else {
        out.extend_from_slice(&[tag, 132, fourth, third, second, low])
    }
}

/// Adds an element whose content comes in two parts. Without memory only a beginning of it may be
/// added.
fn push_element(out: &mut Vec<u8>, tag: u8, first: &[u8], rest: &[u8]) -> Result<(), AllocError>
    requires { length first.now + length rest.now < 2 ^ 32 }
    ensures added { OnOk result (out.new.items ≡ out.old.items ++ tlv tag (first.now ++ rest.now)) }
    ensures kept { OnErr result (take (length out.old.items) out.new.items ≡ out.old.items) }
{
    push_head(out, tag, first.len() + rest.len())?;
    out.extend_from_slice(first)?;
    out.extend_from_slice(rest)
}

/// Writes DER elements, each behind the one before. Each method appends one element in its only encoding by X.690.
///
/// A content must be shorter than 2^32 bytes. It is not checked: if it breaks the rules of its type, a [`Cursor`](crate::Cursor) refuses
/// the element.
/// `AllocError`: memory runs out, and nothing was written.
#[derive(Debug, Drop)]
pub struct DerWriter {
    bytes: Vec<u8>,
}

impl Model for DerWriter {
    ghost use Rattle.std.specs.Prelude.{List, ℕ};

    ghost Value = { List ℕ };

    ghost view = { λ w. w.bytes.items };
}

impl DerWriter {
    /// Returns an empty writer. It allocates no memory. `alloc` provides the memory of later writes.
    pub fn new(alloc: Global) -> DerWriter
        ensures { result ≡ [] }
    {
        DerWriter {
            bytes: Vec::new(alloc),
        }
    }

    /// Writes an element whose content comes in two parts.
    fn element(&mut self, tag: u8, first: &[u8], rest: &[u8]) -> Result<(), AllocError>
        requires { length first.now + length rest.now < 2 ^ 32 }
        ensures { Adds result tag (first.now ++ rest.now) self.old self.new }
    {
        let bytes = &mut self.bytes;
        let old_len = bytes.len();
        let added = push_element(bytes, tag, first, rest);
        if added.is_err() {
            bytes.truncate(old_len);
        }
        added
    }

    /// Writes a SEQUENCE (tag 48). `members` are its encoded members, one after the other, of less than 2^32 bytes together. `AllocError`: out
    /// of memory, and nothing is written.
    pub fn sequence(&mut self, members: &[u8]) -> Result<(), AllocError>
        requires { length members.now < 2 ^ 32 }
        ensures { Adds result SEQUENCE members.now self.old self.new }
    {
        self.element(tag::SEQUENCE, &[], members)
    }

    /// Writes an INTEGER (tag 2). `content` is its number in two's complement, in the fewest bytes, most significant byte first. This is not checked.
    /// It must have less than 2^32 bytes. `AllocError`: out of memory, and nothing is written.
    pub fn integer(&mut self, content: &[u8]) -> Result<(), AllocError>
        requires { length content.now < 2 ^ 32 }
        ensures { Adds result INTEGER content.now self.old self.new }
    {
        self.element(tag::INTEGER, &[], content)
    }

    /// Writes an INTEGER (tag 2) of the value `number`, in the fewest bytes. `AllocError`: out of memory, and nothing is written.
    #[tactic(auto, unfolding(crate::specs::Values::unsigned_bytes))]
    pub fn unsigned(&mut self, number: u32) -> Result<(), AllocError>
        ensures { Adds result INTEGER (unsigned_bytes number) self.old self.new }
    {
        let low = (number % 256) as u8;
        let second = (number / 256 % 256) as u8;
        let third = (number / 256 / 256 % 256) as u8;
        let fourth = (number / 256 / 256 / 256 % 256) as u8;
        if number < 128 {
            self.integer(&[low])
        } else if number < 32768 {
            self.integer(&[second, low])
        } else if number < 8388608 {
            self.integer(&[third, second, low])
        } else if number < 2147483648 {
            self.integer(&[fourth, third, second, low])
        } else {
            self.integer(&[0, fourth, third, second, low])
        }
    }

    /// Writes a BIT STRING (tag 3). `bits` must keep the rules of [`Bits`], which is not checked. It must have less than 2^32 - 1 bytes.
    /// `AllocError`: out of memory, and nothing is written.
    pub fn bits(&mut self, bits: Bits) -> Result<(), AllocError>
        requires { length (bits_content bits) < 2 ^ 32 }
        ensures { Adds result BIT_STRING (bits_content bits.entry) self.old self.new }
    {
        self.element(tag::BIT_STRING, &[bits.unused], bits.bytes)
    }

    /// Writes an OCTET STRING (tag 4) with this content, of less than 2^32 bytes. It may be empty. `AllocError`: out of memory, and nothing is
    /// written.
    pub fn octets(&mut self, content: &[u8]) -> Result<(), AllocError>
        requires { length content.now < 2 ^ 32 }
        ensures { Adds result OCTET_STRING content.now self.old self.new }
    {
        self.element(tag::OCTET_STRING, &[], content)
    }

    /// Writes an OBJECT IDENTIFIER (tag 6). `content` is its encoded content, of less than 2^32 bytes, which is not checked. `AllocError`: out of
    /// memory, and nothing is written.
    pub fn oid(&mut self, content: &[u8]) -> Result<(), AllocError>
        requires { length content.now < 2 ^ 32 }
        ensures { Adds result OBJECT_IDENTIFIER content.now self.old self.new }
    {
        self.element(tag::OBJECT_IDENTIFIER, &[], content)
    }

    /// Writes an IA5String (tag 22). `text` must be ASCII, which is not checked, of less than 2^32 bytes. `AllocError`: out of memory, and nothing is
    /// written.
    pub fn ia5(&mut self, text: &str) -> Result<(), AllocError>
        requires { length text.now < 2 ^ 32 }
        ensures { Adds result IA5_STRING text.now self.old self.new }
    {
        self.element(tag::IA5_STRING, &[], text.as_bytes())
    }

    /// Writes a GeneralizedTime (tag 24) of `moment`, which is in UTC, in the form `YYYYMMDDHHMMSSZ`. `AllocError`: out of memory, and nothing is
    /// written.
    pub fn time(&mut self, moment: &Moment) -> Result<(), AllocError>
        ensures added { Adds result GENERALIZED_TIME (moment_text moment.now) self.old self.new }
        ensures real { IsTrue (is_moment moment.now) }
    {
        self.element(tag::GENERALIZED_TIME, &moment.text(), &[])
    }

    /// Writes an element with any one-byte tag (X.690 section 8.1.2.2) and this content, of less than 2^32 bytes. Neither is checked. `AllocError`:
    /// out of memory, and nothing is written.
    pub fn tagged(&mut self, tag: u8, content: &[u8]) -> Result<(), AllocError>
        requires { length content.now < 2 ^ 32 }
        ensures { Adds result tag content.now self.old self.new }
    {
        self.element(tag, &[], content)
    }

    /// The bytes written up to now.
    pub fn as_slice(&self) -> &[u8]
        ensures { result.now ≡ self.now }
    {
        &self.bytes
    }

    /// Ends the writer and returns the bytes written.
    pub fn into_bytes(self) -> Vec<u8>
        ensures { result.items ≡ self }
    {
        self.bytes
    }
}
