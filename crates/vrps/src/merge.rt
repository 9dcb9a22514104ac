//! Steps from version to version, merged into one change.
ghost use Rattle.std.specs.Prelude.{◌≡◌, ◌≤◌, [], ◌∷◌, ◌++◌, not, ◌&&◌, if◌then◌else◌, take, length, option_map, IfOk};
ghost use Rattle.std.specs.List.Sorted.{IsStrictlySortedBy};
ghost use Rattle.prefixes.specs.Payload.{vrp_cmp};
ghost use Rattle.vrps.specs.Change.{between};
ghost use Rattle.vrps.specs.Merging.{AreLists, AreMerged, Ascend, IsFront, first_and};
ghost use Rattle.vrps.specs.Steps.{AreSteps, back_to};
ghost use Rattle.vrps.specs.VrpSet.{VrpSet as Vrps};
ghost use Rattle.vrps.specs.Walk.{left_out};

use crate::change::{Change, differences};
use circular_buffer::HeapCircularBuffer;
use prefixes::Vrp;
use std::alloc::{AllocError, Global};
use std::cmp::Ordering;

/// A change as two ascending lists.
#[derive(Drop)]
pub(crate) struct Lists {
    pub(crate) withdraw: Vec<Vrp>,
    pub(crate) announce: Vec<Vrp>,
}

/// The steps from one place up to another, of steps that have the newest first, as one change. Halves are merged, so that each record is
/// looked at once for each doubling of the number of steps.
pub(crate) fn merged(
    alloc: Global,
    steps: &HeapCircularBuffer<Change>,
    from: usize,
    to: usize,
) -> Result<Lists, AllocError>
    requires order { from ≤ to }
    requires within { to ≤ length steps.now.items }
    ensures ascend { IfOk result Ascend }
    ensures lists { (now : Vrps) → AreSteps now steps.now.items → IfOk result (λ lists. AreLists lists (between (back_to (take to steps.now.items) now) (back_to (take from steps.now.items) now))) }
{
    if to - from <= 1 {
        return match steps.get(from) {
            Some(step) if from < to => copied(alloc, step),
            _ => Ok(Lists {
                withdraw: Vec::new(alloc),
                announce: Vec::new(alloc),
            }),
        };
    }
    let middle = from + (to - from) / 2;
    let newer = merged(alloc, steps, from, middle)?;
    let older = merged(alloc, steps, middle, to)?;
    joined(alloc, &older, &newer)
}

/// The lists of a change.
fn copied(alloc: Global, change: &Change) -> Result<Lists, AllocError>
    ensures ascend { IfOk result Ascend }
    ensures lists { IfOk result (λ lists. AreLists lists change.now) }
{
    let withdraw = change.withdraw.as_slice().to_vec(alloc)?;
    let announce = change.announce.as_slice().to_vec(alloc)?;
    Ok(Lists { withdraw, announce })
}

/// One change and then another, as one change. What comes and goes is in neither list. The four lists are walked once, side by side.
fn joined(alloc: Global, older: &Lists, newer: &Lists) -> Result<Lists, AllocError>
    requires older { Ascend older.now }
    requires newer { Ascend newer.now }
    ensures ascend { IfOk result Ascend }
    ensures merged { IfOk result (AreMerged older.now newer.now) }
{
    let gone = older.withdraw.as_slice();
    let came = older.announce.as_slice();
    let lost = newer.withdraw.as_slice();
    let new = newer.announce.as_slice();
    let mut lists = Lists {
        withdraw: Vec::with_capacity(alloc, gone.len() + lost.len())?,
        announce: Vec::with_capacity(alloc, came.len() + new.len())?,
    };
    let mut p = front_of(gone, new);
    let mut q = front_of(lost, came);
    while let (Some(x), Some(y)) = (p.first, q.first) {
        match x.cmp(y) {
            Ordering::Less => {
                put(&mut lists, x, p.of_s)?;
                p = front_of(p.s, p.t);
            }
            Ordering::Greater => {
                put(&mut lists, y, q.of_s)?;
                q = front_of(q.s, q.t);
            }
            Ordering::Equal => {
                put_other(&mut lists, y, p.of_s, q.of_s)?;
                q = front_of(q.s, q.t);
            }
        }
    }
    put_all(alloc, &mut lists, p)?;
    put_all(alloc, &mut lists, q)?;
    Ok(lists)
}

/// The first of the records that are in just one of two ascending lists, and the lists from there on.
#[derive(Clone, Copy)]
struct Front<'a> {
    first: Option<&'a Vrp>,
    /// Whether the first record is one of `s`.
    of_s: bool,
    s: &'a [Vrp],
    t: &'a [Vrp],
}

/// A front of these parts.
#[inline(always)]
fn made_front<'a>(first: Option<&'a Vrp>, of_s: bool, s: &'a [Vrp], t: &'a [Vrp]) -> Front<'a>
    ensures first { option_map (λ v. v.now) result.first ≡ option_map (λ v. v.now) first.entry }
    ensures of_s { result.of_s ≡ of_s }
    ensures s { result.s.now ≡ s.now }
    ensures t { result.t.now ≡ t.now }
{
    Front { first, of_s, s, t }
}

/// The front of two ascending lists. The time is linear in the number of records that are in both and are skipped.
#[inline(always)]
fn front_of<'a>(s: &'a [Vrp], t: &'a [Vrp]) -> Front<'a>
    requires s_ascends { IsStrictlySortedBy vrp_cmp s.now }
    requires t_ascends { IsStrictlySortedBy vrp_cmp t.now }
    ensures front { IsFront s.now t.now (option_map (λ v. v.now) result.first) result.of_s result.s.now result.t.now }
{
    let mut rest_s = s;
    let mut rest_t = t;
    while let [x, more_s @ ..] = rest_s {
        let [y, more_t @ ..] = rest_t else {
            return made_front(Some(x), true, more_s, rest_t);
        };
        match x.cmp(y) {
            Ordering::Less => return made_front(Some(x), true, more_s, rest_t),
            Ordering::Greater => return made_front(Some(y), false, rest_s, more_t),
            Ordering::Equal => {
                rest_s = more_s;
                rest_t = more_t;
            }
        }
    }
    match rest_t {
        [y, more_t @ ..] => made_front(Some(y), false, rest_s, more_t),
        [] => made_front(None, false, rest_s, rest_t),
    }
}

/// Adds a record to the one list or to the other.
#[inline(always)]
fn put(lists: &mut Lists, vrp: &Vrp, withdrawn: bool) -> Result<(), AllocError>
    ensures withdraw { IfOk result (λ _. lists.new.withdraw.items ≡ lists.old.withdraw.items ++ (if withdrawn then vrp.now ∷ [] else [])) }
    ensures announce { IfOk result (λ _. lists.new.announce.items ≡ lists.old.announce.items ++ (if not withdrawn then vrp.now ∷ [] else [])) }
{
    if withdrawn {
        lists.withdraw.push(*vrp)?;
    } else {
        lists.announce.push(*vrp)?;
    }
    Ok(())
}

/// Adds a record to the other list, if it was already meant for one list and this is not the same list.
#[inline(always)]
fn put_other(lists: &mut Lists, vrp: &Vrp, is_put: bool, withdrawn: bool) -> Result<(), AllocError>
    ensures withdraw { IfOk result (λ _. lists.new.withdraw.items ≡ lists.old.withdraw.items ++ (if not is_put && withdrawn then vrp.now ∷ [] else [])) }
    ensures announce { IfOk result (λ _. lists.new.announce.items ≡ lists.old.announce.items ++ (if is_put && not withdrawn then vrp.now ∷ [] else [])) }
{
    if is_put && !withdrawn {
        lists.announce.push(*vrp)?;
    } else if !is_put && withdrawn {
        lists.withdraw.push(*vrp)?;
    }
    Ok(())
}

/// Adds what is in just one of the two lists, from their front on.
fn put_all(alloc: Global, lists: &mut Lists, front: Front) -> Result<(), AllocError>
    requires s_ascends { IsStrictlySortedBy vrp_cmp front.s.now }
    requires t_ascends { IsStrictlySortedBy vrp_cmp front.t.now }
    ensures withdraw { IfOk result (λ _. lists.new.withdraw.items ≡ lists.old.withdraw.items ++ first_and (option_map (λ v. v.now) front.entry.first) front.entry.of_s (left_out front.entry.s.now front.entry.t.now)) }
    ensures announce { IfOk result (λ _. lists.new.announce.items ≡ lists.old.announce.items ++ first_and (option_map (λ v. v.now) front.entry.first) (not front.entry.of_s) (left_out front.entry.t.now front.entry.s.now)) }
{
    if let Some(vrp) = front.first {
        put(lists, vrp, front.of_s)?;
    }
    let (only_s, only_t) = differences(alloc, front.s, front.t)?;
    lists.withdraw.extend_from_slice(only_s.as_slice())?;
    lists.announce.extend_from_slice(only_t.as_slice())?;
    Ok(())
}
