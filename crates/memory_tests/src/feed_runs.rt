use crate::payload_runs::{FIRST, ONE_PREFIX, START, file};
use crate::telling::{begin, no_memory, tell, tell_bytes};
use der_lite::Moment;
use feed::{FeedFault, Offer, route_from_payloads};
use prefixes::{IpPrefix, Route};
use vrps::OriginState;

/// Judges a route and prints its state and what the cache sent, or that memory ran out.
fn is_judged(rt: &HostRuntime, offers: &[Offer], now: Moment, route: &Route) -> bool {
    match route_from_payloads(rt.alloc(), offers, now, route) {
        Ok(fed) => {
            let is_valid = fed.state == OriginState::Valid;
            tell(rt, if is_valid { "valid" } else { "other" });
            tell_bytes(rt, fed.wire.as_slice());
        }
        Err(FeedFault::Memory) => return no_memory(rt),
        Err(_) => tell(rt, "refused"),
    }
    true
}

#[test]
fn judge_a_route(rt: HostRuntime) {
    let files = [file("a.roa", ONE_PREFIX, ONE_PREFIX)];
    let offers = [Offer {
        name: "point",
        manifest: FIRST,
        files: &files,
    }];
    if let (Ok(prefix), Some(now)) = (IpPrefix::parse("192.0.2.0/24"), Moment::parse(START)) {
        let route = Route {
            prefix,
            origin: Some(64496),
        };
        begin(rt.alloc());
        let _done = is_judged(&rt, &offers, now, &route) || is_judged(&rt, &offers, now, &route);
    }
}
