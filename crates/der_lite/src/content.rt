//! The contents of primitive elements.

ghost use Rattle.std.specs.Prelude.{◌≡◌, ◌||◌, IsTrue, Some, None, if◌then◌else◌, nat_lt, option_map};
ghost use Rattle.der_lite.specs.Der.{is_integer as is_integer_of, is_bit_string as is_bit_string_of, is_ia5, number as number_of};
ghost use Rattle.der_lite.specs.Values.{is_negative};

use crate::length::number;

/// A bit string. The lowest bits of its last byte may be unused (X.690 section 8.6).
#[derive(Clone, Copy, Debug, PartialEq, Eq)]
pub struct Bits<'a> {
    /// The number of unused bits in the last byte, 0 to 7. It is 0 if there are no bytes.
    pub unused: u8,
    /// The bits. The first bit is the most significant bit of the first byte. Unused bits are zero.
    pub bytes: &'a [u8],
}

/// Returns whether `content` is the content of a DER INTEGER: not empty, and in the fewest bytes (X.690 section 8.3).
pub fn is_integer(content: &[u8]) -> bool
    ensures { result ≡ is_integer_of content.now }
{
    match content {
        [] => false,
        [_] => true,
        [first, second, ..] => !(*first == 0 && *second < 128)
            && !(*first == 255 && *second >= 128),
    }
}

/// Whether the content is a bit string whose unused bits are zero (X.690 sections 8.6 and 11.2).
pub(crate) fn is_bit_string(content: &[u8]) -> bool
    ensures { result ≡ is_bit_string_of content.now }
{
    match content {
        [] => false,
        [unused] => *unused == 0,
        [unused, .., last] => *unused < 8 && *last % (1 << *unused) == 0,
    }
}

/// The content as a text, if it is one of ASCII alone (X.690 section 8.23).
pub(crate) fn ia5_text(content: &[u8]) -> Option<&str>
    ensures { option_map (λ text. text.now) result ≡ (if is_ia5 content.now then Some content.now else None) }
{
    if !content.is_ascii() {
        return None;
    }
    match str::from_utf8(content) {
        Ok(text) => Some(text),
        Err(_) => None,
    }
}

/// Returns the number of an INTEGER's content (X.690 section 8.3.3). [`is_integer`] must hold for `content`. `None`: the number is negative, or
/// 2^32 or above.
pub fn unsigned(content: &[u8]) -> Option<u32>
    requires { IsTrue (is_integer_of content.now) }
    ensures { result ≡ (if is_negative content.now || nat_lt 4294967295 (number_of content.now) then None else Some (number_of content.now)) }
{
    let [first, digits @ ..] = content else {
        return None;
    };
    if *first >= 128 {
        None
    } else if content.len() <= 4 {
        Some(number(content))
    } else if *first == 0 && digits.len() == 4 {
        Some(number(digits))
    } else {
        None
    }
}
