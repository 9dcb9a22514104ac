//! The results of an offer.

ghost use Rattle.std.specs.Prelude.{◌≡◌};

use payloads::GrammarFault;
use std::alloc::AllocError;
use thiserror::Error;

/// The result of an offer that is not refused.
#[derive(Clone, Copy, Debug, PartialEq, Eq)]
pub enum Offered {
    /// The offer was accepted. The point now holds it.
    New,
    /// The manifest is the one that the point already holds. Nothing changes.
    Same,
}

/// Why an offer is refused. Each kind has a fixed number.
/// An index counts from 0: for `FileTwice` in the supplied files, for `Missing`, `HashDiffers` and `Roa` in the files that the manifest
/// lists.
#[derive(Clone, Copy, Debug, PartialEq, Eq, Error)]
pub enum PointFault {
    /// 1: the bytes are not a manifest payload. This is their first fault (RFC 9286 section 4.2).
    #[error("the manifest does not decode, {0} (refusal 1)")]
    Manifest(GrammarFault),
    /// 2: the time of the offer is before thisUpdate (RFC 9286 section 6.3).
    #[error("the moment is before the manifest's thisUpdate (refusal 2)")]
    NotYet,
    /// 3: the time of the offer is after nextUpdate (RFC 9286 section 6.3).
    #[error("the moment is after the manifest's nextUpdate (refusal 3)")]
    Stale,
    /// 4: the manifest number is not higher than that of the manifest accepted last (RFC 9286 section 4.2.1).
    #[error("the manifest number is not higher than the one accepted last (refusal 4)")]
    OldNumber,
    /// 5: thisUpdate is not later than that of the manifest accepted last (RFC 9286 section 4.2.1).
    #[error("thisUpdate is not later than that of the manifest accepted last (refusal 5)")]
    OldTime,
    /// 6: the supplied file with this index has the name of an earlier one.
    #[error("file {0} has the name of an earlier file (refusal 6)")]
    FileTwice(usize),
    /// 7: the listed file with this index was not supplied (RFC 9286 section 6.4).
    #[error("listed file {0} is missing (refusal 7)")]
    Missing(usize),
    /// 8: the supplied object of the listed file with this index has another SHA-256 (RFC 9286 section 6.5).
    #[error("listed file {0} does not have the listed SHA-256 (refusal 8)")]
    HashDiffers(usize),
    /// 9: the content of the listed file with this index is not a ROA payload. The second value is its first fault (RFC 9582 section 4).
    #[error("listed file {0} is not a ROA payload, {1} (refusal 9)")]
    Roa(usize, GrammarFault),
    /// 10: out of memory.
    #[error("out of memory (refusal 10)")]
    Memory,
}

impl PointFault {
    ghost use Rattle.points.specs.Answers.{point_fault_number, fault_index};

    /// The fixed number of the fault, 1 to 10, which its error text has.
    pub fn number(&self) -> u8
        ensures { result ≡ point_fault_number self.now }
    {
        match self {
            PointFault::Manifest(_) => 1,
            PointFault::NotYet => 2,
            PointFault::Stale => 3,
            PointFault::OldNumber => 4,
            PointFault::OldTime => 5,
            PointFault::FileTwice(_) => 6,
            PointFault::Missing(_) => 7,
            PointFault::HashDiffers(_) => 8,
            PointFault::Roa(_, _) => 9,
            PointFault::Memory => 10,
        }
    }

    /// The index of the file in `FileTwice`, `Missing`, `HashDiffers` and `Roa`. `None` for the other faults.
    pub fn index(&self) -> Option<usize>
        ensures { result ≡ fault_index self.now }
    {
        match self {
            PointFault::FileTwice(index)
            | PointFault::Missing(index)
            | PointFault::HashDiffers(index)
            | PointFault::Roa(index, _) => Some(*index),
            _ => None,
        }
    }
}

impl From<AllocError> for PointFault {
    ghost use Rattle.points.specs.declared.fault.PointFault.TheVariants.{Memory};

    ghost from_gives = { λ _ fault. fault ≡ Memory };

    fn from(_error: AllocError) -> PointFault {
        PointFault::Memory
    }
}
