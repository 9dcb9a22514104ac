//! Why a file gives no exceptions.
ghost use Rattle.std.specs.Prelude.{◌≡◌};

use std::alloc::AllocError;
use std::fmt::{self, Display};
use thiserror::Error;

/// The four arrays of a SLURM file (RFC 8416 section 3.2).
#[derive(Clone, Copy, Debug, PartialEq, Eq)]
pub enum SlurmArray {
    /// `prefixFilters` (section 3.3.1).
    PrefixFilters,
    /// `bgpsecFilters` (section 3.3.2).
    BgpsecFilters,
    /// `prefixAssertions` (section 3.4.1).
    PrefixAssertions,
    /// `bgpsecAssertions` (section 3.4.2).
    BgpsecAssertions,
}

impl SlurmArray {
    ghost use Rattle.slurm.specs.Telling.{array_key, object_of};

    /// The key of the array in the file, such as `prefixFilters`.
    pub fn key(self) -> &'static str
        ensures { result.now ≡ array_key self }
    {
        match self {
            SlurmArray::PrefixFilters => "prefixFilters",
            SlurmArray::BgpsecFilters => "bgpsecFilters",
            SlurmArray::PrefixAssertions => "prefixAssertions",
            SlurmArray::BgpsecAssertions => "bgpsecAssertions",
        }
    }

    /// The object that has it.
    pub(crate) fn object(self) -> SlurmObject
        ensures { result ≡ object_of self }
    {
        match self {
            SlurmArray::PrefixFilters | SlurmArray::BgpsecFilters => SlurmObject::Filters,
            SlurmArray::PrefixAssertions | SlurmArray::BgpsecAssertions => SlurmObject::Assertions,
        }
    }
}

/// Writes the key of the array.
impl Display for SlurmArray {
    fn fmt<W: fmt::Write>(&self, f: &mut fmt::Formatter<W>) -> fmt::Result {
        write!(f, "{}", self.key())
    }
}

/// The outermost object of a file, and the two objects in it that hold the arrays (RFC 8416 section 3.2).
#[derive(Clone, Copy, Debug, PartialEq, Eq)]
pub enum SlurmObject {
    /// The file itself, of three members.
    File,
    /// `validationOutputFilters`, of two arrays.
    Filters,
    /// `locallyAddedAssertions`, of two arrays.
    Assertions,
}

impl SlurmObject {
    ghost use Rattle.slurm.specs.Telling.{object_name};

    /// The key of the object, or "the file".
    pub fn name(self) -> &'static str
        ensures { result.now ≡ object_name self }
    {
        match self {
            SlurmObject::File => "the file",
            SlurmObject::Filters => "validationOutputFilters",
            SlurmObject::Assertions => "locallyAddedAssertions",
        }
    }
}

/// Writes the key of the object, or "the file".
impl Display for SlurmObject {
    fn fmt<W: fmt::Write>(&self, f: &mut fmt::Formatter<W>) -> fmt::Result {
        write!(f, "{}", self.name())
    }
}

/// Why an entry of an array cannot be read. If there are several reasons, the first one in the order below is reported.
#[derive(Clone, Copy, Debug, PartialEq, Eq, Error)]
pub enum SlurmEntryFault {
    /// The entry is not a JSON object.
    #[error("not an object")]
    NoObject,
    /// The entry has a member that its array does not allow.
    #[error("a key that is not known")]
    OtherKey,
    /// A filter has neither a prefix nor an AS.
    #[error("neither prefix nor asn")]
    NeitherKey,
    /// A filter on BGPsec has neither an SKI nor an AS.
    #[error("neither SKI nor asn")]
    NeitherSki,
    /// `asn` is not a whole number below 2^32, or an assertion has none.
    #[error("asn is not an AS number")]
    Asn,
    /// `comment` is not a string.
    #[error("comment is not a string")]
    Comment,
    /// `SKI` is not a string, or an assertion on BGPsec has none.
    #[error("SKI is not a string")]
    Ski,
    /// `routerPublicKey` is not a string, or an assertion on BGPsec has none.
    #[error("routerPublicKey is not a string")]
    RouterPublicKey,
    /// `prefix` is not the text of a prefix, or an assertion has none.
    #[error("prefix is not a prefix")]
    Prefix,
    /// `maxPrefixLength` is not a whole number from the prefix's length up to the width of its family.
    #[error("maxPrefixLength is not a maximum length of the prefix")]
    MaxLength,
}

/// Why bytes are not a SLURM file. The fault numbers never change.
#[derive(Clone, Copy, Debug, PartialEq, Eq, Error)]
pub enum SlurmFault {
    /// The bytes are not a JSON text, or not UTF-8.
    #[error("not JSON (fault 1)")]
    NotJson,
    /// This part of the file is not a JSON object, or its members are not exactly the required ones.
    #[error("{0} is not an object of exactly its members (fault 2)")]
    Members(SlurmObject),
    /// `slurmVersion` is not 1.
    #[error("slurmVersion is not 1 (fault 3)")]
    Version,
    /// This member is not an array.
    #[error("{0} is not an array (fault 4)")]
    NoArray(SlurmArray),
    /// The first entry that cannot be read: its array, its index from 0, and why.
    #[error("{0}[{1}]: {2} (fault 5)")]
    Entry(SlurmArray, usize, SlurmEntryFault),
    /// The file has over 16,777,215 different prefix assertions.
    #[error("more than 16777215 different assertions (fault 6)")]
    TooMany,
    /// Out of memory.
    #[error("out of memory (fault 7)")]
    Memory,
    /// An object at any depth repeats a name.
    #[error("a name is repeated in an object (fault 8)")]
    Repeated,
}

impl SlurmFault {
    ghost use Rattle.slurm.specs.Faults.{slurm_fault_number};

    /// The number of the fault, from 1 to 8. Messages contain it as `(fault 1)`.
    pub fn number(self) -> u8
        ensures { result ≡ slurm_fault_number self }
    {
        match self {
            SlurmFault::NotJson => 1,
            SlurmFault::Members(_) => 2,
            SlurmFault::Version => 3,
            SlurmFault::NoArray(_) => 4,
            SlurmFault::Entry(_, _, _) => 5,
            SlurmFault::TooMany => 6,
            SlurmFault::Memory => 7,
            SlurmFault::Repeated => 8,
        }
    }
}

impl From<AllocError> for SlurmFault {
    ghost use Rattle.slurm.specs.declared.fault.SlurmFault.TheVariants.{Memory};

    ghost from_gives = { λ _ e. e ≡ Memory };

    fn from(_error: AllocError) -> SlurmFault {
        SlurmFault::Memory
    }
}
