//! Several SLURM files as one (RFC 8416 section 4.2).
ghost use Rattle.std.specs.Prelude.{◌≡◌, ◌<◌, ◌≤◌, ◌⊎◌, IfOk, IfErr, OnOk, map};
ghost use Rattle.vrps.specs.VrpSet.{size};
ghost use Rattle.slurm.specs.Chains.{seen};
ghost use Rattle.slurm.specs.Exceptions.{exceptions_of};
ghost use Rattle.slurm.specs.Scoped.{scoped_of};
ghost use Rattle.slurm.specs.Uniting.{AsnsApart, IsOverlapOf, PrefixesApart, Unites, assertions_in, filters_in, records_in, united};

use crate::claims::{asn_claims, asn_clash, prefix_claims, prefix_clash};
use crate::filter::{PrefixFilter, Slurm};
use crate::scoped::ScopedSlurm;
use crate::unite_fault::UniteFault;
use prefixes::Vrp;
use std::alloc::{AllocError, Global};
use vrps::VrpSet;

/// Judges whether no two files share an address.
fn know_prefixes_apart(alloc: Global, files: &[ScopedSlurm]) -> Result<(), UniteFault>
    ensures ok { OnOk result (PrefixesApart (map scoped_of files.now)) }
    ensures err { IfErr result (IsOverlapOf (map scoped_of files.now)) }
{
    let claims = prefix_claims(alloc, files)?;
    match prefix_clash(claims.as_slice()) {
        Some((one, other)) => Err(one.overlap(&other)),
        None => Ok(()),
    }
}

/// Judges whether no two files use one AS for BGPsec.
fn know_asns_apart(alloc: Global, files: &[ScopedSlurm]) -> Result<(), UniteFault>
    ensures ok { OnOk result (AsnsApart (map scoped_of files.now)) }
    ensures err { IfErr result (IsOverlapOf (map scoped_of files.now)) }
{
    let claims = asn_claims(alloc, files)?;
    match asn_clash(claims.as_slice()) {
        Some((one, other)) => Err(one.overlap(&other)),
        None => Ok(()),
    }
}

/// The prefix filters of the files, one file after the other.
fn filters_in(alloc: Global, files: &[ScopedSlurm]) -> Result<Vec<PrefixFilter>, AllocError>
    ensures { IfOk result (λ fs. fs.items ≡ filters_in (map scoped_of files.now)) }
{
    let mut filters = Vec::new(alloc);
    for file in files {
        filters.extend_from_slice(file.slurm.filters.as_slice())?;
    }
    Ok(filters)
}

/// The records that the files assert, one file after the other.
fn records_in(alloc: Global, files: &[ScopedSlurm]) -> Result<Vec<Vrp>, AllocError>
    ensures { IfOk result (λ vs. vs.items ≡ records_in (map scoped_of files.now)) }
{
    let mut records = Vec::new(alloc);
    for file in files {
        records.extend_from_slice(file.slurm.assertions.as_slice())?;
    }
    Ok(records)
}

/// The files as one, if their assertions are not too many.
fn united(alloc: Global, files: &[ScopedSlurm]) -> Result<Slurm, UniteFault>
    ensures ok { IfOk result (λ s. (size s.assertions ≤ 16777215) × (exceptions_of s ≡ united (map scoped_of files.now))) }
    ensures err { IfErr result (λ f. ((f ≡ UniteFault.TooMany) × (16777215 < size (assertions_in (map scoped_of files.now)))) ⊎ (f ≡ UniteFault.Memory)) }
{
    let filters = filters_in(alloc, files)?;
    let records = records_in(alloc, files)?;
    match VrpSet::from_list(records) {
        Ok(assertions) => {
            let _within_limit = assertions.len();
            Ok(Slurm {
                filters,
                assertions,
            })
        }
        Err(_) => Err(UniteFault::TooMany),
    }
}

/// Unites several SLURM files (RFC 8416 section 4.2). The result has the prefix filters of all files, in their order, and the union of their
/// assertions. If there are no files, there are no exceptions.
///
/// Entries of one file may overlap each other. Entries of two files may not. A filter without a prefix, or a BGPsec filter without an AS,
/// overlaps with nothing.
///
/// `Err` is the first fault, in this order. `Overlap`: two files overlap; prefixes are compared before the ASes of BGPsec entries. If several
/// overlap, one overlap is reported.
/// `TooMany`: the files assert over 16,777,215 different VRPs. `Memory` (out of memory) can occur at any point.
///
/// The running time is that of sorting all entries.
pub fn unite(alloc: Global, files: &[ScopedSlurm]) -> Result<Slurm, UniteFault>
    ensures { Unites (map scoped_of files.now) (seen exceptions_of result) }
{
    know_prefixes_apart(alloc, files)?;
    know_asns_apart(alloc, files)?;
    united(alloc, files)
}
