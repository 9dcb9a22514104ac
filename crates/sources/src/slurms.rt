//! Several files of local exceptions, read and united.
ghost use Rattle.std.specs.Prelude.{◌≡◌, ◌⊎◌, ◌∷◌, [], IfOk, IfErr, Ok, Err, Some, map};
ghost use Rattle.slurm.specs.Ignored.{ignored_of};
ghost use Rattle.slurm.specs.Scoped.{ReadsScoped, Scoped, scoped_of};
ghost use Rattle.slurm.specs.SlurmFile.{ReadsSlurm};
ghost use Rattle.slurm.specs.Uniting.{Unites};
ghost use Rattle.sources.specs.Served.{AllRead, AreApplied, AreRefused, AreUnited};

use crate::fault::SlurmSetFault;
use slurm::{Ignored, ScopedSlurm, Slurm, SlurmFault, UniteFault, read_slurm_scoped, unite};
use std::alloc::{AllocError, Global};

/// Local exceptions as they are applied, and how much of their files is not.
#[derive(Debug, Drop)]
pub struct AppliedSlurms {
    /// What is applied: the exceptions of all files as one.
    pub(crate) slurm: Slurm,
    /// For each file, in their order, how many of its entries are not applied.
    pub(crate) ignored: Vec<Ignored>,
}

/// Every entry is applied.
pub(crate) const NO_EXCEPTIONS: Ignored = Ignored {
    bgpsec_filters: 0,
    bgpsec_assertions: 0,
};

impl AppliedSlurms {
    ghost use Rattle.sources.specs.Served.{ignored_exceptions};

    /// How many entries of the file of this index are not applied.
    pub(crate) fn ignored_of(&self, file: usize) -> Ignored
        ensures { result ≡ ignored_exceptions (Some self.now) file }
    {
        match self.ignored.get(file) {
            Some(ignored) => *ignored,
            None => NO_EXCEPTIONS,
        }
    }
}

/// Each file, or the first that cannot be read.
fn read_all(alloc: Global, files: &[Vec<u8>]) -> Result<Vec<ScopedSlurm>, SlurmSetFault>
    ensures ok { IfOk result (λ read. AllRead (map (λ f. f.items) files.now) (map scoped_of read.items)) }
    ensures err { IfErr result (AreRefused (map (λ f. f.items) files.now)) }
{
    let mut read = Vec::new(alloc);
    for (index, bytes) in files.iter().enumerate() {
        match read_slurm_scoped(alloc, bytes.as_slice()) {
            Ok(scoped) => {
                if read.push(scoped).is_err() {
                    return Err(SlurmSetFault::Unite(UniteFault::Memory));
                }
            }
            Err(fault) => return Err(SlurmSetFault::File { index, fault }),
        }
    }
    Ok(read)
}

/// How many entries of each file are not applied.
fn ignored_in(alloc: Global, read: &[ScopedSlurm]) -> Result<Vec<Ignored>, AllocError>
    ensures { IfOk result (λ counts. counts.items ≡ map (λ file. ignored_of (scoped_of file)) read.now) }
{
    read.iter().map(|file| file.ignored()).collect(alloc)
}

/// What is applied of these files, of which there is at least one.
fn applied(alloc: Global, read: &[ScopedSlurm]) -> Result<AppliedSlurms, UniteFault>
    ensures ok { IfOk result (AreApplied (map scoped_of read.now)) }
    ensures err { IfErr result (λ fault. (fault ≡ UniteFault.Memory) ⊎ Unites (map scoped_of read.now) (Err fault)) }
{
    let slurm = unite(alloc, read)?;
    match ignored_in(alloc, read) {
        Ok(ignored) => Ok(AppliedSlurms { slurm, ignored }),
        Err(_) => Err(UniteFault::Memory),
    }
}

/// What is applied of a file of local exceptions, if it is one.
pub(crate) fn read_applied(alloc: Global, bytes: &[u8]) -> Result<AppliedSlurms, SlurmFault>
    ensures ok { IfOk result (λ e. (s : Scoped) × ReadsScoped bytes.now (Ok s) × AreApplied (s ∷ []) e) }
    ensures err { IfErr result (λ fault. (fault ≡ SlurmFault.Memory) ⊎ ReadsSlurm bytes.now (Err fault)) }
{
    let read = read_slurm_scoped(alloc, bytes)?;
    let mut ignored = Vec::new(alloc);
    if ignored.push(read.ignored()).is_err() {
        return Err(SlurmFault::Memory);
    }
    Ok(AppliedSlurms {
        slurm: read.into_exceptions(),
        ignored,
    })
}

/// What the files are as one. Without a file there are no exceptions.
pub(crate) fn read_united(
    alloc: Global,
    files: &[Vec<u8>],
) -> Result<Option<AppliedSlurms>, SlurmSetFault>
    ensures ok { IfOk result (AreUnited (map (λ f. f.items) files.now)) }
    ensures err { IfErr result (AreRefused (map (λ f. f.items) files.now)) }
{
    if files.is_empty() {
        return Ok(None);
    }
    let read = read_all(alloc, files)?;
    let slurms = applied(alloc, read.as_slice())?;
    Ok(Some(slurms))
}
