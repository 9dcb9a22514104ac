//! Why a source is refused, and the exit status of a start that it ends.
ghost use Rattle.std.specs.Prelude.{◌≡◌, ◌↔◌, true};
ghost use Rattle.rtr_daemon.specs.Files.{IsOfExport};

use exports::ExportFault;
use points::PointFault;
use slurm::{Overlap, SlurmFault, UniteFault};
use sources::{TakeCcrFault, TakeFault};
use std::alloc::{AllocError, Global};
use std::{fmt, io};
use thiserror::Error;
use vrps::SetFault;

/// A fault of a file, and a text that describes it and may quote the file. It is printed as the text, or as the fault if there is none.
#[derive(Debug, Drop)]
pub struct FileFault<F> {
    /// The fault.
    pub fault: F,
    /// The text. `None`: the fault needs no other text than its own, or memory ran out.
    pub words: Option<String>,
}

impl<F: fmt::Display> fmt::Display for FileFault<F> {
    fn fmt<W: fmt::Write>(&self, f: &mut fmt::Formatter<W>) -> fmt::Result {
        match &self.words {
            Some(words) => f.write_str(words.as_str()),
            None => write!(f, "{}", self.fault),
        }
    }
}

/// Why a file was refused, or no version was published.
#[derive(Debug, Drop, Error)]
pub enum Refusal {
    /// The file cannot be read: the error of the system.
    #[error("cannot be read: {0}")]
    Device(io::Error),
    /// The export is refused: for example, the bytes are neither JSON nor a canonical cache representation, or it has far fewer VRPs than the last
    /// one. See [`TakeFault`].
    #[error("{0}")]
    Export(FileFault<TakeFault>),
    /// The bytes are not a file of local exceptions (RFC 8416), or memory ran out.
    #[error("{0}")]
    Slurm(FileFault<SlurmFault>),
    /// The file overlaps with another file of local exceptions, all of these have too many records, or memory ran out.
    #[error("{0}")]
    SlurmUnion(FileFault<UniteFault>),
    /// Another file of local exceptions is refused, and all are loaded together.
    #[error("another file of local exceptions is refused, and all are loaded together")]
    OtherSlurm,
    /// The publication point refuses its content, or memory ran out.
    #[error("{0}")]
    Point(PointFault),
    /// All sources together have too many records, or memory ran out.
    #[error("{0}")]
    Set(SetFault),
    /// The file changed during each of several reads.
    #[error("it changes while it is read")]
    Changing,
    /// The wall clock is not within the years 1970 to 9999.
    #[error("the clock is not between the years 1970 and 9999")]
    Clock,
}

/// The kinds of reasons. While a source stays refused, one refusal of each kind is reported in a row.
#[derive(Clone, Copy, Debug, PartialEq, Eq)]
pub(crate) enum RefusalKind {
    /// It cannot be read.
    Unreadable,
    /// Its content is refused.
    Content,
    /// It cannot be loaded together with other files.
    Overlap,
    /// Another file is refused.
    OtherFile,
    /// All sources together are refused.
    Set,
    /// It changes while it is read.
    Changing,
    /// The clock is out of range.
    Clock,
}

impl Refusal {
    ghost use Rattle.rtr_daemon.specs.Files.{IsForFault, IsOfBytes};
    ghost use Rattle.rtr_daemon.specs.SlurmRefusals.{IsForSlurm};
    ghost use Rattle.rtr_daemon.specs.Running.{refusal_status};

    /// The refusal of an export, with the text for these bytes.
    pub(crate) fn of_export(alloc: Global, bytes: &[u8], fault: TakeFault) -> Refusal
        ensures { IsForFault fault result }
    {
        let words = match fault {
            TakeFault::Export(of) => exports::fault_text(alloc, bytes, of).ok(),
            TakeFault::Shrank { .. } => format!(in alloc; "{fault} (--max-shrink)").ok(),
            TakeFault::NoSuchFile | TakeFault::Ccr(_) => None,
        };
        Refusal::Export(FileFault { fault, words })
    }

    /// The refusal of local exceptions, with the text for these bytes.
    pub(crate) fn of_slurm(alloc: Global, bytes: &[u8], fault: SlurmFault) -> Refusal
        ensures { IsForSlurm fault result }
    {
        let words = slurm::fault_text(alloc, bytes, fault).ok();
        Refusal::Slurm(FileFault { fault, words })
    }

    /// The refusal of several files of local exceptions together. The text names the file with which this one overlaps.
    pub(crate) fn of_union(alloc: Global, fault: UniteFault, other: Option<&str>) -> Refusal
        ensures { ¬ (IsOfBytes result) }
    {
        let words = match other {
            Some(other) => overlap_text(alloc, &fault, other).ok(),
            None => None,
        };
        Refusal::SlurmUnion(FileFault { fault, words })
    }

    /// The kind of the reason.
    pub(crate) fn kind(&self) -> RefusalKind {
        match self {
            Refusal::Device(_) => RefusalKind::Unreadable,
            Refusal::Export(_) | Refusal::Slurm(_) | Refusal::Point(_) => RefusalKind::Content,
            Refusal::SlurmUnion(_) => RefusalKind::Overlap,
            Refusal::OtherSlurm => RefusalKind::OtherFile,
            Refusal::Set(_) => RefusalKind::Set,
            Refusal::Changing => RefusalKind::Changing,
            Refusal::Clock => RefusalKind::Clock,
        }
    }

    /// Memory ran out.
    pub(crate) fn memory() -> Refusal
        ensures { ¬ (IsOfBytes result) }
    {
        Refusal::Set(SetFault::Memory)
    }

    /// Whether it is of the file's own bytes: it depends neither on other files nor on memory, nor on how many records have expired.
    pub(crate) fn is_of_bytes(&self) -> bool
        ensures { result ≡ true ↔ IsOfBytes self.now }
    {
        match self {
            Refusal::Export(file) => is_of_export(&file.fault),
            Refusal::Slurm(file) => !matches!(&file.fault, SlurmFault::Memory),
            _ => false,
        }
    }

    /// The exit status of the program: 4 if memory ran out, 3 if a file cannot be read or changes while it is read, and 1 otherwise.
    pub fn status(&self) -> u8
        ensures { result ≡ refusal_status self.now }
    {
        match self {
            Refusal::Device(error) if error.kind() == io::ErrorKind::OutOfMemory => 4,
            Refusal::Device(_) | Refusal::Changing => 3,
            Refusal::Export(
                FileFault {
                    fault: TakeFault::Export(ExportFault::Memory)
                    | TakeFault::Ccr(TakeCcrFault::Memory),
                    ..
                },
            )
            | Refusal::Slurm(
                FileFault {
                    fault: SlurmFault::Memory,
                    ..
                },
            )
            | Refusal::SlurmUnion(
                FileFault {
                    fault: UniteFault::Memory,
                    ..
                },
            )
            | Refusal::Point(PointFault::Memory)
            | Refusal::Set(SetFault::Memory) => 4,
            _ => 1,
        }
    }
}

/// Whether an export is refused for its own bytes.
fn is_of_export(fault: &TakeFault) -> bool
    ensures { result ≡ true ↔ IsOfExport fault.now }
{
    match fault {
        TakeFault::Export(fault) => { !matches!(fault, ExportFault::Memory | ExportFault::TooMany) }
        TakeFault::Ccr(fault) => !matches!(fault, TakeCcrFault::Memory),
        TakeFault::NoSuchFile | TakeFault::Shrank { .. } => false,
    }
}

/// The text of a fault of several files of local exceptions, for the later one of two that overlap.
fn overlap_text(alloc: Global, fault: &UniteFault, other: &str) -> Result<String, AllocError> {
    match fault {
        UniteFault::Overlap {
            what: Overlap::Prefixes(first, second),
            ..
        } => format!(in alloc; "{second} overlaps with {first} of {other} (RFC 8416 section 4.2)"),
        UniteFault::Overlap {
            what: Overlap::Bgpsec(asn),
            ..
        } => {
            format!(in alloc; "BGPsec entries of AS{asn} are in {other} too (RFC 8416 section 4.2)")
        }
        _ => fault.to_string(alloc),
    }
}

/// Why a daemon does not start: the refused source, and the reason.
#[derive(Debug, Drop)]
pub struct StartFault {
    /// The path of the refused file or directory, or the name of another source. `None`: no single source is refused, or memory ran out.
    pub path: Option<String>,
    /// Why the daemon does not start.
    pub refusal: Refusal,
}

impl StartFault {
    /// Returns the fault for out of memory. The refusal is `Set(Memory)`, and there is no path.
    pub fn memory() -> StartFault {
        StartFault {
            path: None,
            refusal: Refusal::Set(SetFault::Memory),
        }
    }

    /// The daemon cannot start, because this file is refused. If memory runs out here, the path is omitted.
    pub(crate) fn of(path: &str, alloc: Global, refusal: Refusal) -> StartFault {
        StartFault {
            path: String::from_str(alloc, path).ok(),
            refusal,
        }
    }
}

/// Out of memory.
impl From<AllocError> for StartFault {
    fn from(_error: AllocError) -> StartFault {
        StartFault::memory()
    }
}
