//! Authorities that were visited.

ghost use Rattle.std.specs.Prelude.{◌≡◌, ◌+◌, ◌≤◌, ◌↔◌, IsTrue, IfErr, OnOk, OnErr};
ghost use Rattle.std.specs.BTreeSet.{btree_set_len};
ghost use Rattle.authority_walk.specs.Walks.{SetHas, With};

use crate::reader::Reader;
use std::alloc::AllocFailed;
use std::collections::BTreeSet;

/// Whether an authority was visited.
pub(crate) fn is_visited<R: Reader>(
    visited: &BTreeSet<R::Authority>,
    authority: &R::Authority,
) -> bool
    ensures { IsTrue result ↔ SetHas R.Authority.cmp R.value visited.now (R.value authority.now) }
{
    visited.contains(authority)
}

/// Marks an authority as visited. `Err`: memory ran out, and the authority comes back.
pub(crate) fn mark<R: Reader>(
    visited: &mut BTreeSet<R::Authority>,
    authority: R::Authority,
) -> Result<(), AllocFailed<R::Authority>>
    ensures ok { OnOk result ((x : R.Value) → SetHas R.Authority.cmp R.value visited.new x ↔ With (SetHas R.Authority.cmp R.value visited.old) (R.value authority) x) }
    ensures fewer { OnOk result (btree_set_len visited.old ≤ btree_set_len visited.new) }
    ensures more { OnOk result (btree_set_len visited.new ≤ btree_set_len visited.old + 1) }
    ensures err { OnErr result (visited.new.keys ≡ visited.old.keys) }
    ensures back { IfErr result (λ failed. failed.value ≡ authority) }
{
    visited.insert(authority)?;
    Ok(())
}
