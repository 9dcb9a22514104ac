//! The versions of the protocol.
ghost use Rattle.std.specs.Prelude.{◌≡◌, Some};
ghost use Rattle.std.specs.Fmt.{decimal};
ghost use Rattle.rtr_pdu.specs.Version.{version_number, first_version};

use std::fmt::{self, Display};

/// A version of the protocol.
#[derive(Clone, Copy, Debug, PartialEq, Eq)]
pub enum Version {
    /// Version 0 (RFC 6810).
    V0 = 0,
    /// Version 1 (RFC 8210).
    V1 = 1,
}

impl Version {
    /// The version number in a header: 0 or 1 (RFC 8210 section 5.1).
    pub fn number(self) -> u8
        ensures { result ≡ version_number self }
    {
        self as u8
    }

    /// The version of a stream that begins with these bytes: 0 if the first byte is 0, otherwise 1, also if there is no byte. A first byte over
    /// 1 is later a `Version` fault in version 1.
    pub fn first(bytes: &[u8]) -> Version
        ensures { result ≡ first_version bytes.now }
    {
        match bytes.first() {
            Some(0) => Version::V0,
            _ => Version::V1,
        }
    }
}

/// Writes the version number: `0` or `1`.
impl Display for Version {
    ghost output = { λ v. Some (decimal (version_number v)) };

    fn fmt<W: fmt::Write>(&self, f: &mut fmt::Formatter<W>) -> fmt::Result {
        write!(f, "{}", self.number())
    }
}
