//! The address families of a ROAPayloadSet.

ghost use Rattle.std.specs.Prelude.{◌≡◌};
ghost use Rattle.ccr.specs.Families.{number_of, is_in};

use prefixes::IpPrefix;

/// The addressFamily of a ROAIPAddressFamily (RFC 9582 section 4.3.1).
#[derive(Clone, Copy, Debug, PartialEq, Eq)]
pub(crate) enum Family {
    /// `0001`.
    Ipv4,
    /// `0002`.
    Ipv6,
}

impl Family {
    /// The number of the family (IANA).
    pub(crate) fn number(self) -> u8
        ensures { result ≡ number_of self }
    {
        match self {
            Family::Ipv4 => 1,
            Family::Ipv6 => 2,
        }
    }

    /// Whether the prefix is of the family.
    pub(crate) fn has(self, prefix: &IpPrefix) -> bool
        ensures { result ≡ is_in self prefix.now }
    {
        match prefix {
            IpPrefix::V4(_) => self == Family::Ipv4,
            IpPrefix::V6(_) => self == Family::Ipv6,
        }
    }
}
