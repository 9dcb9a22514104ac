//! Changes from one set to another.
ghost use Rattle.std.specs.Prelude.{◌≡◌, ◌<◌, ◌≤◌, IfOk, IsErrOf};
ghost use Rattle.std.specs.List.{All};
ghost use Rattle.std.specs.List.Sorted.{IsStrictlySortedBy};
ghost use Rattle.prefixes.specs.Payload.{IsPayload, vrp_cmp};
ghost use Rattle.vrps.specs.Change.{apply, between};
ghost use Rattle.vrps.specs.VrpSet.{listing, set_of, size};
ghost use Rattle.vrps.specs.Walk.{IsCut, left_out};

use crate::set::{SetFault, VrpSet};
use prefixes::Vrp;
use std::alloc::{AllocError, Global};
use std::cmp::Ordering;

/// The difference between two VRP sets: what a cache sends to a router that already has one of them (RFC 8210 sections 5.6 and 8.2).
#[derive(Debug, Drop)]
pub struct Change {
    /// The VRPs that the change withdraws.
    pub withdraw: VrpSet,
    /// The VRPs that the change announces.
    pub announce: VrpSet,
}

impl Change {
    /// Computes the change from `s` to `t`. It withdraws the VRPs that are only in `s`, and announces those that are only in `t`.
    /// Both sets are walked once, side by side. `AllocError`: no memory for the change.
    pub fn between(alloc: Global, s: &VrpSet, t: &VrpSet) -> Result<Change, AllocError>
        ensures { IfOk result (λ change. change ≡ between s.now t.now) }
    {
        let (withdraw, announce) = differences(alloc, s.as_slice(), t.as_slice())?;
        Ok(Change {
            withdraw: VrpSet::from_listing(withdraw),
            announce: VrpSet::from_listing(announce),
        })
    }

    /// Returns `set` without the withdrawn VRPs, together with the announced ones. `set` may be any set: the change need not begin at it. A VRP
    /// that is in both lists is in the result.
    /// `TooMany`: the result has over 16,777,215 VRPs. `Memory`: out of memory. The set and both lists are walked once, side by side.
    pub fn apply(&self, alloc: Global, set: &VrpSet) -> Result<VrpSet, SetFault>
        ensures ok { IfOk result (λ t. (t ≡ apply self.now set.now) × (size t ≤ 16777215)) }
        ensures too_many { IsErrOf result SetFault.TooMany → 16777215 < size (apply self.now set.now) }
    {
        let items = applied(alloc, self, set)?;
        if items.len() > VrpSet::LIMIT {
            return Err(SetFault::TooMany);
        }
        Ok(VrpSet::from_listing(items))
    }
}

/// An ascending list, cut at a record.
#[derive(Clone, Copy)]
pub(crate) struct Cut<'a> {
    pub(crate) below: &'a [Vrp],
    /// Whether the record is in the list.
    pub(crate) found: bool,
    pub(crate) above: &'a [Vrp],
}

/// Cuts the ascending list at the record. The time is linear in the number of records below it.
#[inline(always)]
pub(crate) fn cut_at<'a>(records: &'a [Vrp], at: &Vrp) -> Cut<'a>
    requires { IsStrictlySortedBy vrp_cmp records.now }
    ensures { IsCut records.now at.now result.below.now result.found result.above.now }
{
    for (index, record) in records.iter().enumerate() {
        match record.cmp(at) {
            Ordering::Less => {}
            Ordering::Equal => {
                return Cut {
                    below: &records[..index],
                    found: true,
                    above: &records[index + 1..],
                };
            }
            Ordering::Greater => {
                return Cut {
                    below: &records[..index],
                    found: false,
                    above: &records[index..],
                };
            }
        }
    }
    Cut {
        below: records,
        found: false,
        above: &[],
    }
}

/// The records of `s` that are none of `t`, and those of `t` that are none of `s`; all lists ascend.
pub(crate) fn differences(
    alloc: Global,
    s: &[Vrp],
    t: &[Vrp],
) -> Result<(Vec<Vrp>, Vec<Vrp>), AllocError>
    requires s_ascends { IsStrictlySortedBy vrp_cmp s.now }
    requires t_ascends { IsStrictlySortedBy vrp_cmp t.now }
    ensures { IfOk result (λ lists. (lists.0.items ≡ left_out s.now t.now) × (lists.1.items ≡ left_out t.now s.now)) }
{
    let mut only_s = Vec::new(alloc);
    let mut only_t = Vec::new(alloc);
    let mut rest = t;
    for vrp in s {
        let parts = cut_at(rest, vrp);
        only_t.extend_from_slice(parts.below)?;
        if !parts.found {
            only_s.push(*vrp)?;
        }
        rest = parts.above;
    }
    only_t.extend_from_slice(rest)?;
    Ok((only_s, only_t))
}

/// The members of the set to which the change leads from this one, in ascending order.
fn applied(alloc: Global, change: &Change, set: &VrpSet) -> Result<Vec<Vrp>, AllocError>
    ensures { IfOk result (λ items. (items.items ≡ listing (apply change.now set.now)) × All IsPayload items.items) }
{
    let members = set.as_slice();
    let mut withdraw = change.withdraw.as_slice();
    let mut announce = change.announce.as_slice();
    let expected = members.len().saturating_sub(withdraw.len()) + announce.len();
    let mut items = Vec::with_capacity(alloc, expected)?;
    for vrp in members {
        let withdrawn = cut_at(withdraw, vrp);
        let announced = cut_at(announce, vrp);
        items.extend_from_slice(announced.below)?;
        if announced.found || !withdrawn.found {
            items.push(*vrp)?;
        }
        withdraw = withdrawn.above;
        announce = announced.above;
    }
    items.extend_from_slice(announce)?;
    Ok(items)
}
