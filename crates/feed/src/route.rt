//! The state of a route from what is offered.
ghost use Rattle.std.specs.Prelude.{IfOk, IfErr};
ghost use Rattle.feed.specs.Feed.{IsFed, IsRefused};

use crate::loopback::fetched;
use crate::offers::take_all;
use crate::{FeedFault, Offer};
use der_lite::Moment;
use prefixes::Route;
use std::alloc::Global;
use vrps::{OriginState, VrpSet};

/// The state of a route, and the bytes that the cache sent.
#[derive(Debug, Drop)]
pub struct Fed {
    /// The state of the route at the router (RFC 6811 section 2).
    pub state: OriginState,
    /// All bytes that the cache sent to the router, in order.
    pub wire: Vec<u8>,
}

/// Computes the state of a route at a new router of protocol version 1, which fetches all data from a cache.
/// The offers are made at moment `now` (UTC), in order, to publication points that have accepted nothing before.
/// If its point accepted the same manifest last, an offer is not a fault, and its files are not checked.
/// After all offers, the cache publishes the VRPs of the ROAs that the points hold.
/// It publishes them as serial 0 of session 1, with the default intervals of RFC 8210 section 6.
///
/// `Err(Point)`: the first offer that was refused. `Err(TooMany)`: too many VRPs. `Err(Memory)`: memory ran out.
/// The fault that comes first is returned: offers in order, then the number of VRPs, then the fetch.
pub fn route_from_payloads(
    alloc: Global,
    offers: &[Offer<'_>],
    now: Moment,
    route: &Route,
) -> Result<Fed, FeedFault>
    ensures fed { IfOk result (λ fed. IsFed now offers.now route.now fed) }
    ensures refused { IfErr result (λ fault. IsRefused now offers.now fault) }
{
    let repository = take_all(alloc, offers, now)?;
    let set = VrpSet::from_list(repository.payloads(now)?)?;
    let (router, wire) = fetched(alloc, set)?;
    let state = router.route_state(route);
    Ok(Fed { state, wire })
}
