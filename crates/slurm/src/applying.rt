//! Exceptions, applied to a set.
ghost use Rattle.std.specs.Prelude.{◌≡◌, ◌<◌, ◌≤◌, ◌++◌, ◌∷◌, [], if◌then◌else◌, filter, IfOk, OnOk, IsErrOf};
ghost use Rattle.std.specs.List.Sorted.{IsStrictlySortedBy};
ghost use Rattle.prefixes.specs.Payload.{vrp_cmp};
ghost use Rattle.vrps.specs.VrpSet.{listing, set_of, size};
ghost use Rattle.slurm.specs.Exceptions.{IsExcepted, excepted, exceptions_of, is_filtered};

use crate::filter::{PrefixFilter, Slurm};
use crate::index::{Index, add_up_to, keep_covering};
use prefixes::Vrp;
use std::alloc::{AllocError, Global};
use vrps::{Change, SetFault, VrpSet};

/// Appends the record, if it is wanted.
fn push_if(records: &mut Vec<Vrp>, vrp: &Vrp, wanted: bool) -> Result<(), AllocError>
    ensures { OnOk result (records.new.items ≡ records.old.items ++ (if wanted then vrp.now ∷ [] else [])) }
{
    if wanted {
        records.push(*vrp)?;
    }
    Ok(())
}

/// The records that some filter matches, in their order. The records and the filters are walked once, side by side: the current filters are
/// those that cover the present record.
fn filtered(
    alloc: Global,
    filters: &[PrefixFilter],
    records: &[Vrp],
) -> Result<Vec<Vrp>, AllocError>
    requires { IsStrictlySortedBy vrp_cmp records.now }
    ensures { IfOk result (λ vs. vs.items ≡ filter (is_filtered filters.now) records.now) }
{
    let index = Index::over(alloc, filters)?;
    let mut opened = Vec::new(alloc);
    let mut next = 0;
    let mut matched = Vec::new(alloc);
    for vrp in records {
        let prefix = vrp.prefix();
        next = add_up_to(&mut opened, index.by_prefix.as_slice(), next, &prefix)?;
        keep_covering(&mut opened, &prefix);
        push_if(&mut matched, vrp, index.is_hit(opened.as_slice(), vrp))?;
    }
    Ok(matched)
}

/// The members of the set that some filter matches.
fn matched(alloc: Global, filters: &[PrefixFilter], set: &VrpSet) -> Result<VrpSet, AllocError>
    ensures { IfOk result (λ t. t ≡ set_of (filter (is_filtered filters.now) (listing set.now))) }
{
    let records = filtered(alloc, filters, set.as_slice())?;
    Ok(VrpSet::from_list(records).unwrap())
}

/// Returns the members of `set` that no filter of `slurm` matches, together with its assertions. Filters do not act on the assertions.
///
/// `Err(TooMany)`: the result has over 16,777,215 VRPs, which is more than a set may have. `Err(Memory)`: out of memory.
pub fn apply(slurm: &Slurm, alloc: Global, set: &VrpSet) -> Result<VrpSet, SetFault>
    ensures ok { IfOk result (λ t. (t ≡ excepted (exceptions_of slurm.now) set.now) × (size t ≤ 16777215)) }
    ensures members { IfOk result (IsExcepted (exceptions_of slurm.now) set.now) }
    ensures too_many { IsErrOf result SetFault.TooMany → 16777215 < size (excepted (exceptions_of slurm.now) set.now) }
{
    let withdraw = matched(alloc, slurm.filters.as_slice(), set)?;
    let announce = slurm.assertions.duplicate()?;
    let change = Change { withdraw, announce };
    change.apply(alloc, set)
}
