//! The length bytes of an element (X.690 sections 8.1.3 and 10.1).

ghost use Rattle.std.specs.Prelude.{◌≡◌, ◌<◌, ◌≤◌, ◌^◌, ◌∷◌, length};
ghost use Rattle.der_lite.specs.Der.{announced as announced_by, number as number_of, told_length, is_length as is_length_of};

/// How many length bytes a first one announces behind it.
pub(crate) fn announced(first: u8) -> usize
    ensures value { result ≡ announced_by first }
    ensures few { result ≤ 4 }
{
    if first > 128 && first < 133 {
        (first - 128) as usize
    } else {
        0
    }
}

/// The number that at most four bytes spell, the highest first.
pub(crate) fn number(bytes: &[u8]) -> u32
    requires { length bytes.now ≤ 4 }
    ensures { result ≡ number_of bytes.now }
{
    match bytes {
        [] => 0,
        [a] => u32::from(*a),
        [a, b] => u32::from(*a) * 256 + u32::from(*b),
        [a, b, c] => u32::from(*a) * 65536 + u32::from(*b) * 256 + u32::from(*c),
        [a, b, c, d, ..] => {
            u32::from(*a) * 16777216 + u32::from(*b) * 65536 + u32::from(*c) * 256 + u32::from(*d)
        }
    }
}

/// The length that a first length byte and the bytes that it announces encode.
pub(crate) fn told(first: u8, more: &[u8]) -> usize
    requires { length more.now ≤ 4 }
    ensures value { result ≡ told_length (first ∷ more.now) }
    ensures short { result < 2 ^ 32 }
{
    if first < 128 {
        usize::from(first)
    } else {
        number(more) as usize
    }
}

/// Whether a first length byte and the bytes that it announces are the shortest form of a length, as DER requires.
pub(crate) fn is_length(first: u8, more: &[u8]) -> bool
    requires { announced_by first ≡ length more.now }
    ensures { result ≡ is_length_of (first ∷ more.now) }
{
    match more {
        [] => first < 128,
        [highest, ..] => *highest > 0 && number(more) >= 128,
    }
}
