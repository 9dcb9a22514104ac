//! The bits of an address that are written (RFC 3779 section 2.1).

ghost use Rattle.std.specs.Prelude.{◌≡◌, ◌≤◌, ◌+◌, ◌^◌, IsTrue, nat_lt, length};
ghost use Rattle.der_lite.specs.Der.{IsBytes, number as number_of, is_bit_string, bit_count};
ghost use Rattle.der_lite.specs.Values.{bits_value, bits_number};
ghost use Rattle.der_lite.specs.Cursors.{bits_content};
ghost use Rattle.resources.specs.Resources.{ends_in as ends_in_of, prefix_of, between as between_of, is_prefix as is_prefix_of};

use crate::ResourceRange;
use der_lite::Bits;

/// Whether there are more bits than an address of this width has.
pub(crate) fn is_longer(bits: Bits, width: u8) -> bool
    requires { IsTrue (is_bit_string (bits_content bits)) }
    ensures { result ≡ nat_lt width (length (bits_value (bits_content bits.entry))) }
{
    bits.bytes.len() > (usize::from(width) + usize::from(bits.unused)) / 8
}

/// How many bits there are.
fn count(bits: Bits) -> usize
    requires valid { IsTrue (is_bit_string (bits_content bits)) }
    requires few { length (bits_value (bits_content bits)) ≤ 128 }
    ensures { result ≡ length (bits_value (bits_content bits.entry)) }
{
    bits.bytes.len() * 8 - usize::from(bits.unused)
}

/// The number that at most 16 bytes spell, the highest first.
fn number(bytes: &[u8]) -> u128
    requires { length bytes.now ≤ 16 }
    ensures value { result ≡ number_of bytes.now }
    ensures bytes { IsBytes bytes.now }
{
    let mut number = 0u128;
    for byte in bytes {
        number = number * 256 + u128::from(*byte);
    }
    number
}

/// The number that the bits spell, the highest first.
fn spelled(bits: Bits) -> u128
    requires valid { IsTrue (is_bit_string (bits_content bits)) }
    requires few { length (bits_value (bits_content bits)) ≤ 128 }
    ensures { result ≡ bits_number (bits_value (bits_content bits.entry)) (length (bits_value (bits_content bits.entry))) }
{
    number(bits.bytes) >> bits.unused
}

/// Whether the last bit, if there is one, is this.
pub(crate) fn ends_in(bits: Bits, bit: bool) -> bool
    requires valid { IsTrue (is_bit_string (bits_content bits)) }
    requires few { length (bits_value (bits_content bits)) ≤ 128 }
    ensures { result ≡ ends_in_of bit (bits_value (bits_content bits.entry)) }
{
    count(bits) > 0 && (spelled(bits) % 2 == 1) == bit
}

/// The number of this many ones.
fn ones(count: usize) -> u128
    requires { count ≤ 128 }
    ensures { result + 1 ≡ 2 ^ count }
{
    if count == 128 {
        return u128::MAX;
    }
    (1u128 << count) - 1
}

/// The addresses of this width that begin with these bits.
pub(crate) fn addresses(bits: Bits, width: u8) -> ResourceRange
    requires valid { IsTrue (is_bit_string (bits_content bits)) }
    requires within { length (bits_value (bits_content bits)) ≤ width }
    requires narrow { width ≤ 128 }
    ensures exact { result ≡ prefix_of width (bits_value (bits_content bits.entry)) }
    ensures ordered { result.low ≤ result.high }
{
    let rest = usize::from(width) - count(bits);
    let low = if rest == 128 {
        0
    } else {
        spelled(bits) << rest
    };
    ResourceRange {
        low,
        high: low + ones(rest),
    }
}

/// Whether a range between these bits, which is not empty, is the size of the prefix that its longer bound is.
pub(crate) fn is_prefix(range: ResourceRange, min: Bits, max: Bits, width: u8) -> bool
    requires min { IsTrue (is_bit_string (bits_content min)) }
    requires max { IsTrue (is_bit_string (bits_content max)) }
    requires min_within { length (bits_value (bits_content min)) ≤ width }
    requires max_within { length (bits_value (bits_content max)) ≤ width }
    requires narrow { width ≤ 128 }
    requires is { range ≡ between_of width (bits_value (bits_content min), bits_value (bits_content max)) }
    requires ordered { range.low ≤ range.high }
    ensures { result ≡ is_prefix_of width (bits_value (bits_content min.entry), bits_value (bits_content max.entry)) }
{
    let longer = count(min).max(count(max));
    range.high - range.low == ones(usize::from(width) - longer)
}
