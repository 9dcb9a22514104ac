//! Why several SLURM files are not used together (RFC 8416 section 4.2).
ghost use Rattle.std.specs.Prelude.{◌≡◌};

use prefixes::{Asn, IpPrefix};
use std::alloc::AllocError;
use std::fmt::{self, Display};
use thiserror::Error;

/// The place at which two SLURM files overlap.
#[derive(Clone, Copy, Debug, PartialEq, Eq)]
pub enum Overlap {
    /// A prefix of the first file and a prefix of the second share an address: they are equal, or one covers the other.
    Prefixes(IpPrefix, IpPrefix),
    /// Both files have BGPsec entries of this AS.
    Bgpsec(Asn),
}

/// Writes the two prefixes or the AS.
impl Display for Overlap {
    fn fmt<W: fmt::Write>(&self, f: &mut fmt::Formatter<W>) -> fmt::Result {
        match self {
            Overlap::Prefixes(first, second) => write!(f, "{first} overlaps with {second}"),
            Overlap::Bgpsec(asn) => write!(f, "BGPsec entries of AS{asn} overlap with those"),
        }
    }
}

/// Why several SLURM files cannot be united. If there are several reasons, the first one in the order below is reported.
#[derive(Clone, Copy, Debug, PartialEq, Eq, Error)]
pub enum UniteFault {
    /// Two files overlap. ASes of BGPsec entries are compared only if no prefixes overlap.
    #[error("{what} of another SLURM file (RFC 8416 section 4.2)")]
    Overlap {
        /// The index of the earlier file, from 0.
        first: usize,
        /// The index of the later file. It is larger than `first`.
        second: usize,
        /// The place at which they overlap.
        what: Overlap,
    },
    /// The files together assert over 16,777,215 different VRPs.
    #[error("more than 16777215 different assertions")]
    TooMany,
    /// Out of memory.
    #[error("out of memory")]
    Memory,
}

impl From<AllocError> for UniteFault {
    ghost use Rattle.slurm.specs.declared.unite_fault.UniteFault.TheVariants.{Memory};

    ghost from_gives = { λ _ e. e ≡ Memory };

    fn from(_error: AllocError) -> UniteFault {
        UniteFault::Memory
    }
}
