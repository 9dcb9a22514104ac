//! Prefixes as bits.

ghost use Rattle.std.specs.Prelude.{◌≡◌, ◌<◌, ◌≤◌, ◌^◌, IsTrue, nat_lt, if◌then◌else◌, Some, None, length};
ghost use Rattle.der_lite.specs.Der.{IsBytes, number as number_of, is_bit_string, bit_count};
ghost use Rattle.der_lite.specs.Values.{bits_value, bits_number};
ghost use Rattle.der_lite.specs.Cursors.{bits_content};
ghost use Rattle.prefixes.specs.Address.{HasNoHostBits};
ghost use Rattle.payloads.specs.Roa.{block_of_bits};

use der_lite::Bits;
use prefixes::{Family, Prefix};

/// The number that at most 16 bytes spell, the highest first.
fn number(bytes: &[u8]) -> u128
    requires { length bytes.now ≤ 16 }
    ensures value { result ≡ number_of bytes.now }
    ensures bytes { IsBytes bytes.now }
{
    let mut number = 0u128;
    for byte in bytes {
        number = number * 256 + u128::from(*byte);
    }
    number
}

/// The address of this width that the bits begin. Its other bits are zero.
fn address(bits: Bits, width: u8) -> u128
    requires valid { IsTrue (is_bit_string (bits_content bits)) }
    requires within { bit_count (bits_content bits) ≤ width }
    requires narrow { width ≤ 128 }
    ensures value { result ≡ bits_number (bits_value (bits_content bits.entry)) width }
    ensures in_family { result < 2 ^ width }
    ensures no_host_bits { HasNoHostBits width result (bit_count (bits_content bits.entry)) }
{
    let len = bits.bytes.len() * 8 - usize::from(bits.unused);
    if len == 0 {
        return 0;
    }
    (number(bits.bytes) >> bits.unused) << (usize::from(width) - len)
}

/// The prefix of these bits, if an address of the family has as many.
pub(crate) fn prefix_of<F: Family>(bits: Bits) -> Option<Prefix<F>>
    requires { IsTrue (is_bit_string (bits_content bits)) }
    ensures { result ≡ (if nat_lt F.WIDTH (bit_count (bits_content bits.entry)) then None else Some (block_of_bits F.WIDTH (bits_value (bits_content bits.entry)))) }
{
    let width = usize::from(F::WIDTH);
    if bits.bytes.len() > (width + usize::from(bits.unused)) / 8 {
        return None;
    }
    let len = (bits.bytes.len() * 8 - usize::from(bits.unused)) as u8;
    Some(Prefix::new(address(bits, F::WIDTH), len).unwrap())
}
