//! What can be wrong with a file of constraints.

ghost use Rattle.std.specs.Prelude.{◌≡◌};

use std::alloc::AllocError;
use thiserror::Error;

/// What is wrong with a line of a file of constraints (rpki-client(8)).
#[derive(Clone, Copy, Debug, PartialEq, Eq, Error)]
pub enum ConstraintFaultKind {
    /// The first word is neither `allow` nor `deny`.
    #[error("the first word is neither allow nor deny: write one of them, or # before a comment")]
    Word,
    /// Nothing follows `allow`, `deny`, or the dash of a range.
    #[error("a value is missing: write a prefix, a range of addresses, an AS number or a range of AS numbers")]
    NoValue,
    /// Something follows the first value.
    #[error("a second value follows the first: write one entry on a line")]
    SecondValue,
    /// The value has a byte that is not ASCII.
    #[error("the value has a byte that is not ASCII")]
    NotAscii,
    /// The value is neither a prefix nor an AS number, or an end of a range is neither an address nor an AS number.
    #[error("the value is not a prefix, a range of addresses, an AS number or a range of AS numbers")]
    Value,
    /// The length of the prefix is greater than 32 for IPv4, or 128 for IPv6.
    #[error("the length of the prefix is greater than 32 for IPv4, or 128 for IPv6")]
    TooLong,
    /// The prefix has a bit set that is not one of its first bits.
    #[error("the prefix has bits set beyond its length: clear them")]
    HostBits,
    /// Digits alone that are not an AS number.
    #[error("the AS number is not from 0 to 4294967295, or has leading zeros")]
    AsNumber,
    /// The ends of the range are not two IPv4 addresses, two IPv6 addresses or two AS numbers.
    #[error("the ends of the range are not of one family")]
    Families,
    /// The range ends before it begins.
    #[error("the range ends before it begins: exchange its ends")]
    Order,
}

impl ConstraintFaultKind {
    /// This, at a line.
    pub(crate) fn at(self, line: usize) -> ConstraintsError
        ensures { result ≡ ConstraintsError.At self line }
    {
        ConstraintsError::At(self, line)
    }
}

/// Why bytes cannot be read as a file of constraints.
#[derive(Clone, Copy, Debug, PartialEq, Eq, Error)]
pub enum ConstraintsError {
    /// A line is no entry. This is the first fault, and its line, from 1.
    #[error("line {1}: {0}")]
    At(ConstraintFaultKind, usize),
    /// Out of memory.
    #[error("out of memory")]
    Memory,
}

impl From<AllocError> for ConstraintsError {
    ghost use Rattle.constraints.specs.declared.fault.ConstraintsError.TheVariants.{Memory};

    ghost from_gives = { λ _ error. error ≡ Memory };

    fn from(_error: AllocError) -> ConstraintsError {
        ConstraintsError::Memory
    }
}
