//! Serial numbers.
ghost use Rattle.std.specs.Prelude.{◌≡◌, Some};
ghost use Rattle.std.specs.Fmt.{decimal};
ghost use Rattle.vrps.specs.Serial.{is_before};

use std::fmt::{self, Display};

/// The serial number of a version. It wraps from 2^32 - 1 to 0 (RFC 8210 section 2).
#[derive(Clone, Copy, Debug, PartialEq, Eq)]
pub struct Serial(pub u32);

impl Serial {
    /// Returns whether `other` is newer: 1 to 2^31 - 1 ahead of this serial, modulo 2^32 (RFC 1982 section 3.2).
    pub fn is_before(self, other: Serial) -> bool
        ensures { result ≡ is_before self.0 other.0 }
    {
        let ahead = other.0.wrapping_sub(self.0);
        1 <= ahead && ahead < 1 << 31
    }
}

/// Writes the number in decimal.
impl Display for Serial {
    ghost output = { λ s. Some (decimal s.0) };

    fn fmt<W: fmt::Write>(&self, f: &mut fmt::Formatter<W>) -> fmt::Result {
        write!(f, "{}", self.0)
    }
}
