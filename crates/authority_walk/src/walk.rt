//! A walk over authorities, depth by depth.

ghost use Rattle.std.specs.Prelude.{◌≡◌, ◌+◌, ◌<◌, ◌≤◌, ◌++◌, ◌↔◌, [], vec_len, is_ok, if◌then◌else◌};
ghost use Rattle.std.specs.Prelude.{IsTrue, IsFalse, IfOk, IfErr, IfSome, IfNone, OnOk, OnErr, OnSome};
ghost use Rattle.std.specs.BTreeSet.{btree_set_len};
ghost use Rattle.authority_walk.specs.Walks.{Has, SetHas, With};
ghost use Rattle.authority_walk.specs.Progress.{left_of};
ghost use Rattle.authority_walk.specs.Stands.{Stands, StandsBefore};

use crate::reader::{Found, Reader};
use crate::visited::{is_visited, mark};
use prefixes::Vrp;
use std::alloc::{AllocError, AllocFailed, Global};
use std::collections::BTreeSet;
use std::mem;

/// The state of a walk.
#[derive(Drop)]
pub(crate) struct Walk<A: Ord> {
    pub(crate) depth: u32,
    /// The authorities whose publication points were read.
    pub(crate) visited: BTreeSet<A>,
    /// The others of this depth. An authority may be here twice, and may have been visited.
    pub(crate) waiting: Vec<A>,
    /// The authorities that were issued by those visited at this depth.
    pub(crate) below: Vec<A>,
    /// The VRPs of the visited authorities.
    pub(crate) vrps: Vec<Vrp>,
}

/// A walk that begins at the trust anchors.
pub(crate) fn start<R: Reader>(
    alloc: Global,
    reader: &mut R,
) -> Result<Walk<R::Authority>, AllocError>
    ensures right { IfOk result (Stands R.Authority.cmp R.value (R.hierarchy (R.files reader.old))) }
    ensures depth { IfOk result (λ walk. walk.depth ≡ 0) }
    ensures visited { IfOk result (λ walk. btree_set_len walk.visited ≡ 0) }
    ensures same { R.files reader.new ≡ R.files reader.old }
{
    let waiting = reader.anchors(alloc)?;
    Ok(Walk {
        depth: 0,
        visited: BTreeSet::new(alloc),
        waiting,
        below: Vec::new(alloc),
        vrps: Vec::new(alloc),
    })
}

/// Adds what the publication point of an authority holds, and marks the authority as visited. `Err`: memory ran out, and nothing changes.
fn add<R: Reader>(
    walk: &mut Walk<R::Authority>,
    by: R::Authority,
    found: Found<R::Authority>,
) -> Result<(), AllocFailed<R::Authority>>
    ensures visited { OnOk result ((x : R.Value) → SetHas R.Authority.cmp R.value walk.new.visited x ↔ With (SetHas R.Authority.cmp R.value walk.old.visited) (R.value by) x) }
    ensures fewer { OnOk result (btree_set_len walk.old.visited ≤ btree_set_len walk.new.visited) }
    ensures more { OnOk result (btree_set_len walk.new.visited ≤ btree_set_len walk.old.visited + 1) }
    ensures err { OnErr result (walk.new.visited.keys ≡ walk.old.visited.keys) }
    ensures back { IfErr result (λ failed. failed.value ≡ by) }
    ensures below { walk.new.below.items ≡ (if is_ok result then walk.old.below.items ++ found.issued.items else walk.old.below.items) }
    ensures vrps { walk.new.vrps.items ≡ (if is_ok result then walk.old.vrps.items ++ found.vrps.items else walk.old.vrps.items) }
    ensures waiting { walk.new.waiting ≡ walk.old.waiting }
    ensures depth { walk.new.depth ≡ walk.old.depth }
{
    let Found {
        mut issued,
        mut vrps,
    } = found;
    if walk.below.reserve(issued.len()).is_err() || walk.vrps.reserve(vrps.len()).is_err() {
        return Err(AllocFailed { value: by });
    }
    mark::<R>(&mut walk.visited, by)?;
    let _room = walk.below.append(&mut issued);
    let _room = walk.vrps.append(&mut vrps);
    Ok(())
}

/// Visits an authority that waited, unless it was visited before. `Some`: a part of its publication point was read, and more is left. The authority
/// comes back. `Err`: memory ran out, and the authority comes back. In both cases nothing changes.
fn take<R: Reader>(
    alloc: Global,
    reader: &mut R,
    walk: &mut Walk<R::Authority>,
    by: R::Authority,
) -> Result<Option<R::Authority>, AllocFailed<R::Authority>>
    requires right { StandsBefore R.Authority.cmp R.value (R.hierarchy (R.files reader.old)) (R.value by) walk.old }
    ensures taken { IfOk result (λ rest. IfNone rest (Stands R.Authority.cmp R.value (R.hierarchy (R.files reader.old)) walk.new)) }
    ensures rest { IfOk result (λ rest. IfSome rest (λ a. a ≡ by)) }
    ensures part { IfOk result (λ rest. OnSome rest ((walk.new ≡ walk.old) × (R.left reader.new (R.value by) < R.left reader.old (R.value by)))) }
    ensures err { OnErr result (StandsBefore R.Authority.cmp R.value (R.hierarchy (R.files reader.old)) (R.value by) walk.new) }
    ensures back { IfErr result (λ failed. failed.value ≡ by) }
    ensures fewer { btree_set_len walk.old.visited ≤ btree_set_len walk.new.visited }
    ensures more { btree_set_len walk.new.visited ≤ btree_set_len walk.old.visited + 1 }
    ensures unread { OnErr result (btree_set_len walk.new.visited ≡ btree_set_len walk.old.visited) }
    ensures waiting { walk.new.waiting ≡ walk.old.waiting }
    ensures depth { walk.new.depth ≡ walk.old.depth }
    ensures same { R.files reader.new ≡ R.files reader.old }
{
    if is_visited::<R>(&walk.visited, &by) {
        return Ok(None);
    }
    match reader.read(alloc, &by) {
        Ok(Some(found)) => {
            add::<R>(walk, by, found)?;
            Ok(None)
        }
        Ok(None) => Ok(Some(by)),
        Err(AllocError) => Err(AllocFailed { value: by }),
    }
}

/// Visits the next authority that waits. Returns `false` if a part of its publication point was read, and more is left: then it still waits.
/// `Err`: memory ran out, and it still waits.
pub(crate) fn visit<R: Reader>(
    alloc: Global,
    reader: &mut R,
    walk: &mut Walk<R::Authority>,
) -> Result<bool, AllocError>
    requires right { Stands R.Authority.cmp R.value (R.hierarchy (R.files reader.old)) walk.old }
    requires waits { 0 < vec_len walk.old.waiting }
    ensures right { Stands R.Authority.cmp R.value (R.hierarchy (R.files reader.old)) walk.new }
    ensures taken { IfOk result (λ taken. IsTrue taken → vec_len walk.new.waiting + 1 ≡ vec_len walk.old.waiting) }
    ensures part { IfOk result (λ taken. IsFalse taken → left_of (R.left reader.new) R.value walk.new.waiting.items < left_of (R.left reader.old) R.value walk.old.waiting.items) }
    ensures waits { IfOk result (λ taken. IsFalse taken → (vec_len walk.new.waiting ≡ vec_len walk.old.waiting) × (btree_set_len walk.new.visited ≡ btree_set_len walk.old.visited)) }
    ensures err { OnErr result ((vec_len walk.new.waiting ≡ vec_len walk.old.waiting) × (btree_set_len walk.new.visited ≡ btree_set_len walk.old.visited)) }
    ensures fewer { btree_set_len walk.old.visited ≤ btree_set_len walk.new.visited }
    ensures more { btree_set_len walk.new.visited ≤ btree_set_len walk.old.visited + 1 }
    ensures depth { walk.new.depth ≡ walk.old.depth }
    ensures same { R.files reader.new ≡ R.files reader.old }
{
    let Some(by) = walk.waiting.pop() else {
        return Ok(true);
    };
    match take::<R>(alloc, reader, walk, by) {
        Ok(None) => Ok(true),
        Ok(Some(by)) => {
            walk.waiting.push(by)?;
            Ok(false)
        }
        Err(failed) => {
            walk.waiting.push(failed.value)?;
            Err(AllocError)
        }
    }
}

/// Visits the next authority that waits, part by part.
fn visit_whole<R: Reader>(
    alloc: Global,
    reader: &mut R,
    walk: &mut Walk<R::Authority>,
) -> Result<(), AllocError>
    requires right { Stands R.Authority.cmp R.value (R.hierarchy (R.files reader.old)) walk.old }
    requires waits { 0 < vec_len walk.old.waiting }
    ensures right { Stands R.Authority.cmp R.value (R.hierarchy (R.files reader.old)) walk.new }
    ensures taken { OnOk result (vec_len walk.new.waiting + 1 ≡ vec_len walk.old.waiting) }
    ensures depth { walk.new.depth ≡ walk.old.depth }
    ensures same { R.files reader.new ≡ R.files reader.old }
{
    while !visit(alloc, reader, walk)? {}
    Ok(())
}

/// Visits all that wait.
pub(crate) fn visit_all<R: Reader>(
    alloc: Global,
    reader: &mut R,
    walk: &mut Walk<R::Authority>,
) -> Result<(), AllocError>
    requires right { Stands R.Authority.cmp R.value (R.hierarchy (R.files reader.old)) walk.old }
    ensures right { Stands R.Authority.cmp R.value (R.hierarchy (R.files reader.old)) walk.new }
    ensures none { OnOk result (vec_len walk.new.waiting ≡ 0) }
    ensures depth { walk.new.depth ≡ walk.old.depth }
    ensures same { R.files reader.new ≡ R.files reader.old }
{
    while !walk.waiting.is_empty() {
        visit_whole(alloc, reader, walk)?;
    }
    Ok(())
}

/// Goes one deeper, to the authorities that were issued by those of this depth.
pub(crate) fn deepen<R: Reader>(walk: &mut Walk<R::Authority>)
    requires none { vec_len walk.old.waiting ≡ 0 }
    requires shallow { walk.old.depth < 32 }
    ensures right { (files : R.Files) → Stands R.Authority.cmp R.value (R.hierarchy files) walk.old → Stands R.Authority.cmp R.value (R.hierarchy files) walk.new }
    ensures depth { walk.new.depth ≡ walk.old.depth + 1 }
    ensures visited { walk.new.visited ≡ walk.old.visited }
{
    mem::swap(&mut walk.waiting, &mut walk.below);
    walk.depth += 1;
}

/// Whether an authority below was not visited.
pub(crate) fn has_unvisited<R: Reader>(walk: &Walk<R::Authority>) -> bool
    ensures { IsTrue result ↔ ((x : R.Value) × Has R.value walk.now.below.items x × ¬ (SetHas R.Authority.cmp R.value walk.now.visited x)) }
{
    for authority in &walk.below {
        if !is_visited::<R>(&walk.visited, authority) {
            return true;
        }
    }
    false
}
