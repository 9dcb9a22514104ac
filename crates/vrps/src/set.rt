//! Sets of validated ROA payloads.
ghost use Rattle.std.specs.Prelude.{◌≡◌, ℕ, ◌<◌, ◌≤◌, ◌↔◌, IsTrue, IfOk, Err, OnErr};
ghost use Rattle.std.specs.List.{All};
ghost use Rattle.std.specs.List.Sorted.{IsStrictlySortedBy};
ghost use Rattle.std.specs.Iterator.Adapters.{IterYieldsInOrder};
ghost use Rattle.std.specs.Slice.Iter.{iter_rest};
ghost use Rattle.prefixes.specs.Payload.{IsPayload, vrp_cmp};
ghost use Rattle.vrps.specs.Store.{is_same};
ghost use Rattle.vrps.specs.VrpSet.{IsListing, IsVrpSet, empty, has, listing, size, set_of};

use prefixes::Vrp;
use std::alloc::{AllocError, Global};
use std::marker::Model;
use std::slice::Iter;
use thiserror::Error;

/// Why no set is made. The numbers of the faults are fixed.
#[derive(Clone, Copy, Debug, PartialEq, Eq, Error)]
pub enum SetFault {
    /// There are over 16,777,215 different VRPs.
    #[error("more than 16777215 different records (fault 1)")]
    TooMany = 1,
    /// Out of memory.
    #[error("out of memory (fault 2)")]
    Memory = 2,
}

impl SetFault {
    ghost use Rattle.vrps.specs.SetFaults.{set_fault_number};

    /// The number of the fault, as `Display` writes it: 1 or 2.
    pub fn number(self) -> u8
        ensures { result ≡ set_fault_number self }
    {
        self as u8
    }
}

impl From<AllocError> for SetFault {
    ghost use Rattle.vrps.specs.declared.set.SetFault.TheVariants.{Memory};

    ghost from_gives = { λ _ e. e ≡ Memory };

    fn from(_error: AllocError) -> SetFault {
        SetFault::Memory
    }
}

/// A set of at most 16,777,215 validated ROA payloads (VRPs). It lists them in ascending order.
#[derive(Debug, Drop)]
pub struct VrpSet {
    items: Vec<Vrp>,
}

impl Model for VrpSet {
    ghost use Rattle.std.specs.FinMap as map;
    ghost use Rattle.prefixes.specs.Payload.{coded_payload};
    ghost use Rattle.vrps.specs.VrpSet.{VrpSet as Vrps, IsListing, set_of};
    ghost use base.Stored.{coded_unit};

    ghost Value = { Vrps };

    ghost coded = { map.code coded_payload coded_unit };

    ghost view = { λ s. set_of s.items.items };

    ghost invariant = { λ s. IsListing s.items.items };
}

impl VrpSet {
    /// The maximum number of VRPs in a set.
    pub const LIMIT: usize = 16_777_215;

    /// A set without VRPs. It allocates no memory: `alloc` is kept for the list that [`VrpSet::into_list`] returns.
    pub fn empty(alloc: Global) -> VrpSet
        ensures { result ≡ empty }
    {
        VrpSet {
            items: Vec::new(alloc),
        }
    }

    /// Makes a set of a list in any order. Duplicates count once. The list is sorted in place, and no memory is allocated.
    /// `TooMany`: there are over 16,777,215 different VRPs. It is the only error.
    pub fn from_list(list: Vec<Vrp>) -> Result<VrpSet, SetFault>
        ensures ok { IfOk result (λ s. s ≡ set_of list.items) }
        ensures too_many { result ≡ Err SetFault.TooMany ↔ (16777215 < size (set_of list.items)) }
        ensures only { OnErr result (result ≡ Err SetFault.TooMany) }
    {
        let items = ascending(list);
        if items.len() > Self::LIMIT {
            return Err(SetFault::TooMany);
        }
        know_payloads(items.as_slice());
        Ok(VrpSet { items })
    }

    /// The set of a listing. It allocates no memory.
    pub(crate) fn from_listing(items: Vec<Vrp>) -> VrpSet
        requires { IsListing items.items }
        ensures { result ≡ set_of items.items }
    {
        VrpSet { items }
    }

    /// The VRPs in ascending order, as a list. It allocates no memory.
    pub fn into_list(self) -> Vec<Vrp>
        ensures { result.items ≡ listing self }
    {
        let VrpSet { items } = self;
        items
    }

    /// The number of VRPs.
    pub fn len(&self) -> usize
        ensures value { result ≡ size self.now }
        ensures set { IsVrpSet self.now }
    {
        self.items.len()
    }

    /// Returns whether the set has no VRP.
    pub fn is_empty(&self) -> bool
        ensures { IsTrue result ↔ (size self.now ≡ 0) }
    {
        self.len() == 0
    }

    /// The VRPs in ascending order.
    pub fn as_slice(&self) -> &[Vrp]
        ensures value { result.now ≡ listing self.now }
        ensures ascends { IsStrictlySortedBy vrp_cmp result.now }
        ensures set { IsVrpSet self.now }
    {
        &self.items
    }

    /// Returns whether the set contains this VRP. The time is logarithmic in the number of VRPs.
    pub fn contains(&self, vrp: &Vrp) -> bool
        ensures { result ≡ has self.now vrp.now }
    {
        is_listed(&self.items, vrp)
    }

    /// An iterator over the VRPs in ascending order.
    pub fn iter(&self) -> Iter<'_, Vrp>
        ensures rest { iter_rest result ≡ listing self.now }
        ensures runs { IterYieldsInOrder Vrp }
    {
        self.as_slice().iter()
    }

    /// Returns whether both sets have the same VRPs. It allocates no memory.
    pub fn is_same(&self, other: &VrpSet) -> bool
        ensures { result ≡ is_same self.now other.now }
    {
        self.items == other.items
    }

    /// Copies the set into new memory. `AllocError`: no memory for the copy.
    pub fn duplicate(&self) -> Result<VrpSet, AllocError>
        ensures { IfOk result (λ s. s ≡ self.now) }
    {
        let items = self.items.clone()?;
        Ok(VrpSet { items })
    }
}

/// Yields the VRPs in ascending order, as `iter` does.
impl<'a> IntoIterator for &'a VrpSet {
    type Item = &'a Vrp;

    type IntoIter = Iter<'a, Vrp>;

    ghost use Rattle.prefixes.specs.Payload.{Payload};

    ghost into_iter_gives = { λ s it. (iter_rest it ≡ listing s.now) × IterYieldsInOrder Payload };

    fn into_iter(self) -> Iter<'a, Vrp> {
        self.iter()
    }
}

/// Makes a set of a list, as `VrpSet::from_list` does.
impl TryFrom<Vec<Vrp>> for VrpSet {
    type Error = SetFault;

    ghost use Rattle.vrps.specs.SetFaults.{IsSetOf};

    ghost try_from_gives = { λ list result. IsSetOf list.items result };

    fn try_from(list: Vec<Vrp>) -> Result<VrpSet, SetFault> {
        VrpSet::from_list(list)
    }
}

/// The same records in ascending order, each once.
fn ascending(list: Vec<Vrp>) -> Vec<Vrp>
    ensures ascending { IsStrictlySortedBy vrp_cmp result.items }
    ensures same { set_of result.items ≡ set_of list.items }
{
    let mut items = list;
    items.sort_unstable();
    items.dedup();
    items
}

/// Whether an ascending list has a record.
pub(crate) fn is_listed(list: &[Vrp], vrp: &Vrp) -> bool
    requires { IsStrictlySortedBy vrp_cmp list.now }
    ensures { result ≡ has (set_of list.now) vrp.now }
{
    list.binary_search(vrp).is_ok()
}

/// Looks at each record once. That it is a payload is known of a value that is looked at.
pub(crate) fn know_payloads(records: &[Vrp])
    ensures { All IsPayload records.now }
{
    for vrp in records {
        let _payload = vrp.asn();
    }
}
