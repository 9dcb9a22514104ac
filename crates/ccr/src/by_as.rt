//! VRPs by their AS numbers.

ghost use Rattle.std.specs.Prelude.{◌≡◌, ℕ, ◌<◌, ◌≤◌, length, take, drop, IfOk};
ghost use Rattle.std.specs.List.Sorted.{IsNonDecreasingBy};
ghost use Rattle.vrps.specs.VrpSet.{listing};
ghost use Rattle.ccr.specs.Canonical.{of_as};
ghost use Rattle.ccr.specs.Runs.{IsFirstRun};

use prefixes::Vrp;
use std::alloc::{AllocError, Global};
use vrps::VrpSet;

/// The VRPs of a set by ascending AS number. Those of one AS keep their order.
pub(crate) fn by_as(alloc: Global, set: &VrpSet) -> Result<Vec<Vrp>, AllocError>
    ensures sorted { IfOk result (λ list. IsNonDecreasingBy (λ v. v.asn) list.items) }
    ensures same { IfOk result (λ list. (asn : ℕ) → of_as asn list.items ≡ of_as asn (listing set.now)) }
    ensures few { IfOk result (λ list. length list.items ≤ 16777215) }
{
    let mut list = Vec::new(alloc);
    list.extend_from_slice(set.as_slice())?;
    list.sort_by_key(|vrp| vrp.asn().0)?;
    Ok(list)
}

/// How many VRPs at the front have the AS number of the first.
pub(crate) fn first_run(list: &[Vrp]) -> usize
    ensures { IsFirstRun list.now result }
{
    for (index, vrp) in list.iter().enumerate() {
        if vrp.asn().0 != list[0].asn().0 {
            return index;
        }
    }
    list.len()
}
