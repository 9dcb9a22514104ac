//! The validity of a route under a set.
ghost use Rattle.std.specs.Prelude.{◌≡◌, IfOk, filter};
ghost use Rattle.vrps.specs.Origin.{is_origin, matches};
ghost use Rattle.status_pages.specs.Kinds.{is_of_other_as, is_too_short, is_within};

use prefixes::{Asn, Route, Vrp};
use std::alloc::{AllocError, Global};
use vrps::{OriginIndex, OriginState};

/// The validation state of a route under a set (RFC 6811 section 2), and the VRPs that cover it. The VRPs are in three lists, each in ascending
/// order.
#[derive(Debug, Drop)]
pub struct Validity {
    /// The state.
    pub state: OriginState,
    /// The VRPs that match the route.
    pub matched: Vec<Vrp>,
    /// The VRPs that cover the route and whose maximum length is below the route's length, of any AS.
    pub unmatched_length: Vec<Vrp>,
    /// The other VRPs that cover the route. Their AS is not the route's origin. An AS of 0 is no route's origin (RFC 6483 section 4).
    pub unmatched_as: Vec<Vrp>,
}

impl Validity {
    ghost use Rattle.status_pages.specs.Validity.{IsValidity};

    /// Computes the validity of a route under the VRPs of `index`. Each of the three lists is in ascending order. `Err`: out of memory.
    pub fn of_route(
        alloc: Global,
        index: &OriginIndex,
        route: &Route,
    ) -> Result<Validity, AllocError>
        ensures { IfOk result (IsValidity index.now route.now) }
    {
        let covering = index.covering(alloc, route)?;
        let matched = matching(alloc, route, &covering)?;
        let unmatched_length = too_short(alloc, route, &covering)?;
        let unmatched_as = of_other_as(alloc, route, &covering)?;
        Ok(Validity {
            state: index.state(route),
            matched,
            unmatched_length,
            unmatched_as,
        })
    }
}

/// The records that match the route.
fn matching(alloc: Global, route: &Route, records: &[Vrp]) -> Result<Vec<Vrp>, AllocError>
    ensures { IfOk result (λ found. found.items ≡ filter (matches route.now) records.now) }
{
    records
        .iter()
        .copied()
        .filter(|vrp| is_match(route, vrp))
        .collect(alloc)
}

/// The records that cover the route, and whose maximum length is below its length.
fn too_short(alloc: Global, route: &Route, records: &[Vrp]) -> Result<Vec<Vrp>, AllocError>
    ensures { IfOk result (λ found. found.items ≡ filter (is_too_short route.now) records.now) }
{
    records
        .iter()
        .copied()
        .filter(|vrp| is_too_short(route, vrp))
        .collect(alloc)
}

/// The records that cover the route up to its length, and are of another AS.
fn of_other_as(alloc: Global, route: &Route, records: &[Vrp]) -> Result<Vec<Vrp>, AllocError>
    ensures { IfOk result (λ found. found.items ≡ filter (is_of_other_as route.now) records.now) }
{
    records
        .iter()
        .copied()
        .filter(|vrp| is_of_other_as(route, vrp))
        .collect(alloc)
}

/// Whether the record matches the route.
fn is_match(route: &Route, vrp: &Vrp) -> bool
    ensures { result ≡ matches route.now vrp.now }
{
    vrp.prefix().covers(&route.prefix)
        && is_within(route, vrp)
        && is_origin(route.origin, vrp.asn())
}

/// Whether the record covers the route, and its maximum length is below the route's length.
fn is_too_short(route: &Route, vrp: &Vrp) -> bool
    ensures { result ≡ is_too_short route.now vrp.now }
{
    vrp.prefix().covers(&route.prefix) && !is_within(route, vrp)
}

/// Whether the record covers the route up to its length, and is of another AS.
fn is_of_other_as(route: &Route, vrp: &Vrp) -> bool
    ensures { result ≡ is_of_other_as route.now vrp.now }
{
    vrp.prefix().covers(&route.prefix)
        && is_within(route, vrp)
        && !is_origin(route.origin, vrp.asn())
}

/// Whether the route's length is at most the record's maximum length.
fn is_within(route: &Route, vrp: &Vrp) -> bool
    ensures { result ≡ is_within route.now vrp.now }
{
    route.prefix.len() <= vrp.max_len()
}

/// Whether the AS is this origin. AS 0 is no route's origin (RFC 6483 section 4).
pub(crate) fn is_origin(origin: Option<u32>, asn: Asn) -> bool
    ensures { result ≡ is_origin origin asn.0 }
{
    match origin {
        None => false,
        Some(number) => number == asn.0 && asn.0 != 0,
    }
}
