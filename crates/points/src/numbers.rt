//! Numbers of manifests.

ghost use Rattle.std.specs.Prelude.{◌≡◌, ℕ, nat_lt};
ghost use Rattle.der_lite.specs.Der.{number, IsBytes};
ghost use Rattle.points.specs.Numbers.{HasNoZero};

/// Whether the first number is higher than the second. Both are in bytes, the highest first.
pub(crate) fn is_higher(one: &[u8], other: &[u8]) -> bool
    ensures { result ≡ nat_lt (number other.now) (number one.now) }
{
    let one = without_zeros(one);
    let other = without_zeros(other);
    one.len().cmp(&other.len()).then(one.cmp(other)).is_gt()
}

/// The number in its fewest bytes, none if it is zero.
fn without_zeros(bytes: &[u8]) -> &[u8]
    ensures value { number result.now ≡ number bytes.now }
    ensures fewest { HasNoZero result.now }
    ensures bytes { IsBytes result.now }
{
    let mut rest = bytes;
    while let [first, more @ ..] = rest {
        if *first != 0 {
            return rest;
        }
        rest = more;
    }
    rest
}
