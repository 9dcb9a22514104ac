//! Sets that grow record by record.
ghost use Rattle.std.specs.Prelude.{◌≡◌, false, not, ◌≤◌, ◌^◌, ◌<◌, ◌++◌, ◌∷◌, [], IsTrue, IfOk, OnOk, OnErr, IsErrOf};
ghost use Rattle.std.specs.List.Sorted.{IsStrictlySortedBy};
ghost use Rattle.prefixes.specs.Payload.{vrp_cmp};
ghost use Rattle.vrps.specs.VrpSet.{empty, has, size, with_member, set_of};

use crate::set::{SetFault, VrpSet, is_listed, know_payloads};
use prefixes::Vrp;
use std::alloc::{AllocError, Global};
use std::collections::BTreeSet;
use std::marker::Model;

/// A set of VRPs that grows VRP by VRP, in any order. Adding a VRP that sorts after all others needs constant time, any other amortized
/// logarithmic time. Looking up a VRP needs logarithmic time.
#[derive(Debug, Drop)]
pub struct Gathered {
    records: Records,
    alloc: Global,
}

/// The records: a list while they come in ascending order, as a cache sends them that keeps them so, and a tree from the first on that does not.
#[derive(Debug, Drop)]
enum Records {
    Ascending(Vec<Vrp>),
    Mixed(BTreeSet<Vrp>),
}

impl Model for Gathered {
    ghost use Rattle.std.specs.FinMap as map;
    ghost use Rattle.prefixes.specs.Payload.{coded_payload};
    ghost use Rattle.vrps.specs.VrpSet.{VrpSet as Vrps, set_of};
    ghost use Rattle.vrps.specs.Gathering.{Ascends, records_in};
    ghost use base.Stored.{coded_unit};

    ghost Value = { Vrps };

    ghost coded = { map.code coded_payload coded_unit };

    ghost view = { λ g. set_of (records_in g.records) };

    ghost invariant = { λ g. Ascends g.records };
}

impl Gathered {
    /// A set without VRPs. It allocates no memory. `alloc` provides the memory of later insertions.
    pub fn new(alloc: Global) -> Gathered
        ensures { result ≡ empty }
    {
        Gathered {
            records: Records::Ascending(Vec::new(alloc)),
            alloc,
        }
    }

    /// The number of different VRPs.
    pub fn len(&self) -> usize
        ensures { result ≡ size self.now }
    {
        match &self.records {
            Records::Ascending(list) => list.len(),
            Records::Mixed(tree) => tree.len(),
        }
    }

    /// Returns whether the set contains this VRP.
    pub fn contains(&self, vrp: &Vrp) -> bool
        ensures { result ≡ has self.now vrp.now }
    {
        match &self.records {
            Records::Ascending(list) => is_listed(list.as_slice(), vrp),
            Records::Mixed(tree) => tree.contains(vrp),
        }
    }

    /// Adds a VRP. `Ok(true)`: it is new. `Ok(false)`: it is already in the set, and nothing changes.
    /// `AllocError`: the VRP is new and there is no memory for it. Then nothing is added.
    pub fn insert(&mut self, vrp: Vrp) -> Result<bool, AllocError>
        ensures ok { OnOk result (self.new ≡ with_member self.old vrp) }
        ensures added { IfOk result (λ added. added ≡ not (has self.old vrp)) }
        ensures err { OnErr result ((self.new ≡ self.old) × (has self.old vrp ≡ false)) }
    {
        match &mut self.records {
            Records::Ascending(list) => {
                if is_after(list.as_slice(), &vrp) {
                    return match list.push(vrp) {
                        Ok(()) => Ok(true),
                        Err(_) => Err(AllocError),
                    };
                }
                if is_listed(list.as_slice(), &vrp) {
                    return Ok(false);
                }
                let tree = tree_of(self.alloc, list.as_slice(), vrp)?;
                self.records = Records::Mixed(tree);
                Ok(true)
            }
            Records::Mixed(tree) => put(tree, vrp),
        }
    }

    /// Makes a `VrpSet` of the VRPs. `TooMany`: there are over 16,777,215. `Memory`: memory ran out. On an error the VRPs are dropped.
    /// If the VRPs came in ascending order, no memory is allocated. Otherwise the time is linear in their number.
    pub fn into_set(self, alloc: Global) -> Result<VrpSet, SetFault>
        ensures ok { IfOk result (λ s. s ≡ self) }
        ensures too_many { IsErrOf result SetFault.TooMany → 16777215 < size self }
    {
        if self.len() > VrpSet::LIMIT {
            return Err(SetFault::TooMany);
        }
        let items = self.into_list(alloc)?;
        know_payloads(items.as_slice());
        Ok(VrpSet::from_listing(items))
    }

    /// The records in ascending order.
    fn into_list(self, alloc: Global) -> Result<Vec<Vrp>, AllocError>
        ensures same { IfOk result (λ items. set_of items.items ≡ self) }
        ensures ascends { IfOk result (λ items. IsStrictlySortedBy vrp_cmp items.items) }
    {
        match self.records {
            Records::Ascending(list) => Ok(list),
            Records::Mixed(tree) => listed(alloc, tree),
        }
    }
}

/// Whether a record is after all of an ascending list.
fn is_after(list: &[Vrp], vrp: &Vrp) -> bool
    requires { IsStrictlySortedBy vrp_cmp list.now }
    ensures { IsTrue result → IsStrictlySortedBy vrp_cmp (list.now ++ vrp.now ∷ []) }
{
    match list.last() {
        Some(last) => last.cmp(vrp).is_lt(),
        None => true,
    }
}

/// These records and one more, as a tree.
fn tree_of(alloc: Global, list: &[Vrp], vrp: Vrp) -> Result<BTreeSet<Vrp>, AllocError>
    ensures { IfOk result (λ tree. set_of tree.keys ≡ with_member (set_of list.now) vrp) }
{
    let mut tree = BTreeSet::new(alloc);
    for record in list {
        put(&mut tree, *record)?;
    }
    put(&mut tree, vrp)?;
    Ok(tree)
}

/// Puts a record into a tree, and answers whether it is new.
fn put(tree: &mut BTreeSet<Vrp>, vrp: Vrp) -> Result<bool, AllocError>
    ensures ok { OnOk result (set_of tree.new.keys ≡ with_member (set_of tree.old.keys) vrp) }
    ensures added { IfOk result (λ added. added ≡ not (has (set_of tree.old.keys) vrp)) }
    ensures err { OnErr result ((tree.new.keys ≡ tree.old.keys) × (has (set_of tree.old.keys) vrp ≡ false)) }
{
    match tree.insert(vrp) {
        Ok(added) => Ok(added),
        Err(_) => Err(AllocError),
    }
}

/// The records of a tree in ascending order.
fn listed(alloc: Global, tree: BTreeSet<Vrp>) -> Result<Vec<Vrp>, AllocError>
    ensures items { IfOk result (λ items. items.items ≡ tree.keys) }
    ensures ascends { IfOk result (λ items. IsStrictlySortedBy vrp_cmp items.items) }
{
    let mut items = Vec::with_capacity(alloc, tree.len())?;
    for vrp in tree {
        items.push(vrp)?;
    }
    Ok(items)
}
