//! A router's table.
ghost use Rattle.std.specs.Prelude.{◌≡◌, ◌≤◌, IfOk};
ghost use Rattle.vrps.specs.Origin.{covering, state};
ghost use Rattle.vrps.specs.VrpSet.{empty, has, size};

use prefixes::{Route, Vrp};
use std::alloc::{AllocError, Global};
use std::marker::Model;
use vrps::{OriginIndex, OriginState, VrpSet};

/// A set of records with the index by which routes are judged over it.
#[derive(Debug, Drop)]
pub struct Table {
    set: VrpSet,
    index: OriginIndex,
}

impl Model for Table {
    ghost use Rattle.std.specs.Prelude.{◌≡◌};
    ghost use Rattle.std.specs.FinMap as map;
    ghost use Rattle.prefixes.specs.Payload.{coded_payload};
    ghost use Rattle.vrps.specs.VrpSet.{VrpSet as Vrps};
    ghost use base.Stored.{coded_unit};

    ghost Value = { Vrps };

    ghost coded = { map.code coded_payload coded_unit };

    ghost view = { λ t. t.set };

    ghost invariant = { λ t. t.index ≡ t.set };
}

impl Table {
    /// A table without records. It allocates no memory.
    pub fn empty(alloc: Global) -> Table
        ensures { result ≡ empty }
    {
        Table {
            set: VrpSet::empty(alloc),
            index: OriginIndex::empty(alloc),
        }
    }

    /// The table of these records, with its index. The time is linear in their number. `AllocError`: no memory for the index.
    pub fn of(alloc: Global, set: VrpSet) -> Result<Table, AllocError>
        ensures { IfOk result (λ table. table ≡ set) }
    {
        let index = OriginIndex::over(alloc, &set)?;
        Ok(Table { set, index })
    }

    /// The records alone. The index is dropped.
    pub fn into_set(self) -> VrpSet
        ensures { result ≡ self }
    {
        let Table { set, index: _ } = self;
        set
    }

    /// The records, in ascending order.
    pub fn set(&self) -> &VrpSet
        ensures { result.now ≡ self.now }
    {
        &self.set
    }

    /// How many records there are, at most 16,777,215.
    pub fn len(&self) -> usize
        ensures count { result ≡ size self.now }
        ensures fits { result ≤ 16777215 }
    {
        self.set.len()
    }

    /// Returns whether the table has this very record: the same prefix, maximum length and AS. The time is logarithmic in the number of records.
    pub fn contains(&self, vrp: &Vrp) -> bool
        ensures { result ≡ has self.now vrp.now }
    {
        self.set.contains(vrp)
    }

    /// Returns the records whose prefix covers that of the route, in ascending order. If there are none, the list is empty. The origin and the
    /// maximum lengths do not matter. `AllocError`: no memory for the list.
    pub fn covering(&self, alloc: Global, route: &Route) -> Result<Vec<Vrp>, AllocError>
        ensures { IfOk result (λ records. records.items ≡ covering self.now route.now) }
    {
        self.index.covering(alloc, route)
    }

    /// The origin validation state of a route (RFC 6811 section 2). It allocates no memory.
    pub fn state(&self, route: &Route) -> OriginState
        ensures { result ≡ state self.now route.now }
    {
        self.index.state(route)
    }
}
