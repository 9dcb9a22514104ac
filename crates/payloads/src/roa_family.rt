//! The address families of a ROA.

ghost use Rattle.std.specs.Prelude.{◌≡◌};

use prefixes::IpPrefix;

/// The addressFamily of a ROAIPAddressFamily (RFC 9582 section 4.3.1).
#[derive(Clone, Copy, Debug, PartialEq, Eq)]
pub(crate) enum AddressFamily {
    /// `0001`.
    Ipv4,
    /// `0002`.
    Ipv6,
}

impl AddressFamily {
    ghost use Rattle.payloads.specs.Roa.{family_number};
    ghost use Rattle.payloads.specs.RoaBytes.{is_of};

    /// The number of the family (IANA).
    pub(crate) fn number(self) -> u8
        ensures { result ≡ family_number self }
    {
        match self {
            AddressFamily::Ipv4 => 1,
            AddressFamily::Ipv6 => 2,
        }
    }

    /// Whether the prefix is of the family.
    pub(crate) fn has(self, prefix: &IpPrefix) -> bool
        ensures { result ≡ is_of self prefix.now }
    {
        match prefix {
            IpPrefix::V4(_) => self == AddressFamily::Ipv4,
            IpPrefix::V6(_) => self == AddressFamily::Ipv6,
        }
    }
}
