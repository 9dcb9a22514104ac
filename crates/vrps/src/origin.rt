//! The states of routes (RFC 6811).
ghost use Rattle.std.specs.Prelude.{◌≡◌, ◌+◌, ◌*◌, ◌≤◌, ◌<◌, ◌++◌, reverse, IfOk, OnOk, Some};
ghost use Rattle.std.specs.List.{list_any};
ghost use Rattle.prefixes.specs.Payload.{block_of};
ghost use Rattle.vrps.specs.Groups.{group_count};
ghost use Rattle.vrps.specs.Origin.{covering, is_origin, matches, state};
ghost use Rattle.vrps.specs.Search.{digit_count};
ghost use Rattle.vrps.specs.VrpSet.{empty};

use crate::grouping::{grouped, no_groups};
use crate::groups::Groups;
use crate::search::{Rest, next_covering};
use crate::set::VrpSet;
use prefixes::{Asn, Route, Vrp};
use std::alloc::{AllocError, Global};
use std::fmt::{self, Display};
use std::marker::Model;

/// The validation state of a route (RFC 6811 section 2).
#[derive(Clone, Copy, Debug, PartialEq, Eq)]
pub enum OriginState {
    /// A VRP matches the route: it covers the route, the route's length is at most the maximum length, and the AS is the origin and not 0.
    Valid,
    /// A VRP covers the route, and none matches it.
    Invalid,
    /// No VRP covers the route.
    NotFound,
}

/// Writes the state: `valid`, `invalid` or `not-found`.
impl Display for OriginState {
    ghost use Rattle.vrps.specs.Origin.{state_text};

    ghost output = { λ s. Some (state_text s) };

    fn fmt<W: fmt::Write>(&self, f: &mut fmt::Formatter<W>) -> fmt::Result {
        f.write_str(match self {
            OriginState::Valid => "valid",
            OriginState::Invalid => "invalid",
            OriginState::NotFound => "not-found",
        })
    }
}

/// An index for origin validation against one VRP set (RFC 6811 section 2). VRPs with one prefix form a group. A lookup visits the covering
/// groups, the longest prefix first. It does a binary search for each length that it tries.
#[derive(Debug, Drop)]
pub struct OriginIndex {
    groups: Groups,
}

impl Model for OriginIndex {
    ghost use Rattle.std.specs.FinMap as map;
    ghost use Rattle.prefixes.specs.Payload.{coded_payload};
    ghost use Rattle.vrps.specs.VrpSet.{VrpSet as Vrps, IsListing, set_of};
    ghost use base.Stored.{coded_unit};

    ghost Value = { Vrps };

    ghost coded = { map.code coded_payload coded_unit };

    ghost view = { λ i. set_of i.groups.records.items };

    ghost invariant = { λ i. IsListing i.groups.records.items };
}

impl OriginIndex {
    /// Builds an index over a set. It copies the VRPs. Beside the copy it allocates 4 bytes for each VRP, 8 for each different IPv4 prefix, and
    /// 17 for each different IPv6 prefix. `AllocError`: no memory for it.
    pub fn over(alloc: Global, set: &VrpSet) -> Result<OriginIndex, AllocError>
        ensures { IfOk result (λ index. index ≡ set.now) }
    {
        let records = set.as_slice().to_vec(alloc)?;
        let groups = grouped(alloc, records)?;
        Ok(OriginIndex { groups })
    }

    /// An index over the empty set: every route is NotFound. It allocates no memory.
    pub fn empty(alloc: Global) -> OriginIndex
        ensures { result ≡ empty }
    {
        OriginIndex {
            groups: no_groups(alloc),
        }
    }

    /// The validation state of a route against the set (RFC 6811 section 2). It allocates no memory.
    pub fn state(&self, route: &Route) -> OriginState
        ensures { result ≡ state self.now route.now }
    {
        self.state_counted(route).0
    }

    /// Returns the validation state of a route, and the number of groups that the lookup read. A group has the VRPs of one prefix. It allocates no
    /// memory.
    /// The number is at most (prefix length of the route + 1) times the binary digits of the number of groups. It is at least 1 if there is a group.
    pub fn state_counted(&self, route: &Route) -> (OriginState, u32)
        ensures state { result.0 ≡ state self.now route.now }
        ensures probes { result.1 ≤ ((block_of route.now.prefix).len + 1) * digit_count (group_count self.now) }
        ensures some { 0 < group_count self.now → 0 < result.1 }
    {
        let mut probes = 0;
        let mut rest = Rest {
            places: self.groups.len(),
            lengths: route.prefix.len() + 1,
        };
        let mut state = OriginState::NotFound;
        while let Some(group) = next_covering(&self.groups, &route.prefix, &mut rest, &mut probes) {
            if is_matched(route, group) {
                return (OriginState::Valid, probes);
            }
            state = OriginState::Invalid;
        }
        (state, probes)
    }

    /// The VRPs whose prefix covers that of the route, in ascending order; an empty list if there are none. The origin of the route and the
    /// maximum lengths do not matter. `AllocError`: no memory for the list.
    pub fn covering(&self, alloc: Global, route: &Route) -> Result<Vec<Vrp>, AllocError>
        ensures { IfOk result (λ records. records.items ≡ covering self.now route.now) }
    {
        let mut probes = 0;
        let mut rest = Rest {
            places: self.groups.len(),
            lengths: route.prefix.len() + 1,
        };
        let mut found = Vec::new(alloc);
        while let Some(group) = next_covering(&self.groups, &route.prefix, &mut rest, &mut probes) {
            push_back_to_front(&mut found, group)?;
        }
        found.reverse();
        Ok(found)
    }
}

/// Appends the records of a group, the last one first.
fn push_back_to_front(found: &mut Vec<Vrp>, group: &[Vrp]) -> Result<(), AllocError>
    ensures { OnOk result (found.new.items ≡ found.old.items ++ reverse group.now) }
{
    for index in 0..group.len() {
        found.push(group[group.len() - 1 - index])?;
    }
    Ok(())
}

/// Whether some record matches the route.
fn is_matched(route: &Route, records: &[Vrp]) -> bool
    ensures { result ≡ list_any (matches route.now) records.now }
{
    records.iter().any(|vrp| is_match(route, vrp))
}

/// Whether the record covers the route, up to its maximum length, for the route's origin.
fn is_match(route: &Route, vrp: &Vrp) -> bool
    ensures { result ≡ matches route.now vrp.now }
{
    vrp.prefix().covers(&route.prefix)
        && route.prefix.len() <= vrp.max_len()
        && may_originate(vrp.asn(), route.origin)
}

/// Whether the AS is this origin. AS 0 is no route's origin (RFC 6483 section 4).
fn may_originate(asn: Asn, origin: Option<u32>) -> bool
    ensures { result ≡ is_origin origin asn.0 }
{
    match origin {
        None => false,
        Some(number) => number == asn.0 && asn.0 != 0,
    }
}
