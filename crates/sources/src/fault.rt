//! Why the content of a file, a set, or files of local exceptions are refused.
ghost use Rattle.std.specs.Prelude.{◌≡◌};

use ccr::{CcrFault, ReadCcrError};
use exports::ExportFault;
use slurm::{SlurmFault, UniteFault};
use std::alloc::AllocError;
use thiserror::Error;
use vrps::SetFault;

/// Why a canonical cache representation is refused.
#[derive(Clone, Copy, Debug, Drop, PartialEq, Eq, Error)]
pub enum TakeCcrFault {
    /// There is no maximum age (see [`Sources::set_max_age`](crate::Sources::set_max_age)). Without one the records would never end.
    #[error("its records have no expiry: give --max-age")]
    NoMaxAge,
    /// The bytes are none. This is the first fault.
    #[error("{0}")]
    Read(CcrFault),
    /// It has no list of ROA payloads.
    #[error("it has no ROA payloads")]
    NoVrps,
    /// It has more than 16,777,215 different VRPs.
    #[error("more than 16777215 different VRPs")]
    TooMany,
    /// Out of memory.
    #[error("out of memory")]
    Memory,
}

impl From<ReadCcrError> for TakeCcrFault {
    ghost use Rattle.sources.specs.Ccrs.{of_read};

    ghost from_gives = { λ error fault. fault ≡ of_read error };

    fn from(error: ReadCcrError) -> TakeCcrFault {
        match error {
            ReadCcrError::At(fault) => TakeCcrFault::Read(fault),
            ReadCcrError::Memory => TakeCcrFault::Memory,
        }
    }
}

impl From<SetFault> for TakeCcrFault {
    ghost use Rattle.sources.specs.Ccrs.{of_set};

    ghost from_gives = { λ error fault. fault ≡ of_set error };

    fn from(error: SetFault) -> TakeCcrFault {
        match error {
            SetFault::TooMany => TakeCcrFault::TooMany,
            SetFault::Memory => TakeCcrFault::Memory,
        }
    }
}

impl From<AllocError> for TakeCcrFault {
    ghost use Rattle.sources.specs.declared.fault.TakeCcrFault.TheVariants.{Memory};

    ghost from_gives = { λ _ fault. fault ≡ Memory };

    fn from(_error: AllocError) -> TakeCcrFault {
        TakeCcrFault::Memory
    }
}

/// Why the content of a file is refused. The file then keeps what it had.
#[derive(Clone, Copy, Debug, Drop, PartialEq, Eq, Error)]
pub enum TakeFault {
    /// There is no file of this index. Indexes count from 0.
    #[error("no file has this number")]
    NoSuchFile,
    /// The bytes are not an export.
    #[error("{0}")]
    Export(ExportFault),
    /// The bytes begin as a canonical cache representation does, and are refused as one.
    #[error("canonical cache representation: {0}")]
    Ccr(TakeCcrFault),
    /// The content has far fewer VRPs than the last one (see [`is_too_short`](crate::is_too_short)).
    #[error("it has {has} VRPs, the last load had {had}: more than {percent} % fewer")]
    Shrank {
        /// The largest part of the VRPs that may be gone, in percent.
        percent: u8,
        /// The number of VRPs of the last load that still count now.
        had: u64,
        /// The number of VRPs of this content that count now.
        has: u64,
    },
}

impl From<TakeCcrFault> for TakeFault {
    ghost use Rattle.sources.specs.declared.fault.TakeFault.TheVariants.{Ccr};

    ghost from_gives = { λ fault e. e ≡ Ccr fault };

    fn from(fault: TakeCcrFault) -> TakeFault {
        TakeFault::Ccr(fault)
    }
}

impl From<ExportFault> for TakeFault {
    ghost use Rattle.sources.specs.declared.fault.TakeFault.TheVariants.{Export};

    ghost from_gives = { λ fault e. e ≡ Export fault };

    fn from(fault: ExportFault) -> TakeFault {
        TakeFault::Export(fault)
    }
}

/// Why a list cannot be replaced by a set.
#[derive(Clone, Copy, Debug, PartialEq, Eq, Error)]
pub enum TakeSetFault {
    /// There is no list of this index. Indexes count from 0.
    #[error("no list has this number")]
    NoSuchList,
    /// Out of memory.
    #[error("out of memory")]
    Memory,
}

impl From<AllocError> for TakeSetFault {
    ghost use Rattle.sources.specs.declared.fault.TakeSetFault.TheVariants.{Memory};

    ghost from_gives = { λ _ e. e ≡ Memory };

    fn from(_error: AllocError) -> TakeSetFault {
        TakeSetFault::Memory
    }
}

/// Why several SLURM files are refused.
#[derive(Clone, Copy, Debug, PartialEq, Eq, Error)]
pub enum SlurmSetFault {
    /// The bytes of a file are not a SLURM file, or memory ran out while they were read. It is the first such file.
    #[error("{fault}")]
    File {
        /// The index of the file, from 0.
        index: usize,
        /// Why they are refused.
        fault: SlurmFault,
    },
    /// Each file is a SLURM file, but they cannot be used together. Or memory ran out.
    #[error("{0}")]
    Unite(UniteFault),
}

impl From<UniteFault> for SlurmSetFault {
    ghost use Rattle.sources.specs.declared.fault.SlurmSetFault.TheVariants.{Unite};

    ghost from_gives = { λ fault e. e ≡ Unite fault };

    fn from(fault: UniteFault) -> SlurmSetFault {
        SlurmSetFault::Unite(fault)
    }
}
