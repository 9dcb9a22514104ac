//! Why bytes give no export.
ghost use Rattle.std.specs.Prelude.{◌≡◌};

use std::alloc::AllocError;
use thiserror::Error;

/// Why an entry cannot be read. The first fault in this order is reported.
#[derive(Clone, Copy, Debug, Drop, PartialEq, Eq, Error)]
pub enum EntryFault {
    /// The entry is not an object.
    #[error("it is not an object")]
    NoObject,
    /// `asn` is neither a whole number below 2^32 nor the text of one.
    #[error("asn is not an AS number")]
    Asn,
    /// `prefix` is not the text of a prefix.
    #[error("prefix is not a prefix")]
    Prefix,
    /// `maxLength` is not a whole number from the prefix's length to its family's width.
    #[error("maxLength is not from the prefix length to 32 (IPv4) or 128 (IPv6)")]
    MaxLength,
    /// `expires` is present, but not a whole number.
    #[error("expires is not a whole number of seconds")]
    Expires,
}

/// Why bytes are not read as an export. The numbers are fixed.
#[derive(Clone, Copy, Debug, Drop, PartialEq, Eq, Error)]
pub enum ExportFault {
    /// The bytes are not JSON.
    #[error("not JSON (fault 1)")]
    NotJson,
    /// The bytes are JSON, but neither a payload list nor an object with an array `roas`.
    #[error("neither a payload list nor an object with an array roas (fault 2)")]
    NoRoas,
    /// The first entry that cannot be read: its index, counted from 0, and why.
    #[error("entry {0} of roas cannot be read: {1} (fault 3)")]
    Entry(usize, EntryFault),
    /// More than 16,777,215 different VRPs count.
    #[error("more than 16777215 different payloads (fault 4)")]
    TooMany,
    /// Out of memory.
    #[error("out of memory (fault 5)")]
    Memory,
    /// A name that is read is repeated in its object. This is reported before all other faults but `NotJson`.
    /// The names are `roas`, `metadata`, `aspas`, `bgpsec_keys` and `routerKeys` in the export, and `generated` and `buildtime` in the
    /// metadata.
    /// In an entry they are `asn`, `prefix`, `maxLength` and `expires`.
    #[error("a name that is read is repeated in an object (fault 6)")]
    Repeated,
}

impl ExportFault {
    ghost use Rattle.exports.specs.Faults.{export_fault_number};

    /// The fixed number of the fault, 1 to 6, which its error text has.
    pub fn number(self) -> u8
        ensures { result ≡ export_fault_number self }
    {
        match self {
            ExportFault::NotJson => 1,
            ExportFault::NoRoas => 2,
            ExportFault::Entry(_, _) => 3,
            ExportFault::TooMany => 4,
            ExportFault::Memory => 5,
            ExportFault::Repeated => 6,
        }
    }
}

impl From<AllocError> for ExportFault {
    ghost use Rattle.exports.specs.declared.fault.ExportFault.TheVariants.{Memory};

    ghost from_gives = { λ _ e. e ≡ Memory };

    fn from(_error: AllocError) -> ExportFault {
        ExportFault::Memory
    }
}
