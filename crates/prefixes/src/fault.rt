//! Why there is no prefix, number or payload.
ghost use Rattle.std.specs.Prelude.{◌≡◌};

use thiserror::Error;

/// Why an address, a length or a text is refused. Each fault has a fixed number, which ends the text that `Display` writes.
#[derive(Clone, Copy, Debug, PartialEq, Eq, Error)]
pub enum PrefixFault {
    /// The prefix length is greater than the width of the family.
    #[error("the prefix length is greater than the width of the address family (fault 1)")]
    TooLong = 1,
    /// The address has a bit set beyond the prefix length.
    #[error("a bit behind the prefix length is set (fault 2)")]
    HostBits = 2,
    /// The text is not a prefix (`IpPrefix::parse`) or not an AS number (`Asn::parse`).
    #[error("not a prefix or an AS number (fault 3)")]
    BadText = 3,
    /// The maximum length is below the prefix length, or greater than the width of the family.
    #[error("the maximum length is below the prefix length, or greater than the width of the address family (fault 4)")]
    MaxLength = 4,
}

impl PrefixFault {
    ghost use Rattle.prefixes.specs.PrefixFaults.{prefix_fault_number};

    /// The number by which the fault is printed, 1 to 4.
    pub fn number(self) -> u8
        ensures { result ≡ prefix_fault_number self }
    {
        self as u8
    }
}
