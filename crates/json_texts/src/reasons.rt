//! Reasons why a value is refused, as messages have them after the value.
ghost use Rattle.std.specs.Prelude.{◌≡◌};
ghost use Rattle.json_texts.specs.Reasons.{prefix_reason};

use prefixes::PrefixFault;

/// The reason if a value must be an AS number and is not.
pub const NO_ASN: &str = "is not an AS number";

/// The reason if a value must be a prefix and is not.
pub const NO_PREFIX: &str = "is not a prefix";

/// The reason if a maximum length is out of range for its prefix.
pub const NO_MAX_LENGTH: &str = "is not from the prefix length to 32 (IPv4) or 128 (IPv6)";

/// The reason if a value must be a number, and is neither a number nor a string.
pub const NO_NUMBER: &str = "is not a number";

/// The reason if a value must be a number, and is a string, such as `"24"`.
pub const STRING_FOR_NUMBER: &str = "is a string, must be a number";

/// The reason for a fault of a prefix or of its maximum length, as a message gives it after the value.
pub fn prefix_reason(fault: PrefixFault) -> &'static str
    ensures { result.now ≡ prefix_reason fault }
{
    match fault {
        PrefixFault::TooLong => "is longer than 32 (IPv4) or 128 (IPv6) bits",
        PrefixFault::HostBits => "has host bits set",
        PrefixFault::BadText => NO_PREFIX,
        PrefixFault::MaxLength => NO_MAX_LENGTH,
    }
}
