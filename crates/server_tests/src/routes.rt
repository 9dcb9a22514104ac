//! From offers by hand to the state of a route.

use der_lite::Moment;
use feed::{Fed, FeedFault, Offer, route_from_payloads};
use points::{FileIn, PointFault};
use prefixes::{IpPrefix, Route};
use std::alloc::Global;
use vrps::OriginState;

/// The payload of a ROA: AS64496 and 192.0.2.0/24.
const ROA: &[u8] = b"\
    \x30\x17\x02\x03\x00\xfb\xf0\
    \x30\x10\x30\x0e\x04\x02\x00\x01\
    \x30\x08\x30\x06\x03\x04\x00\xc0\x00\x02";

/// The payload of a manifest: number 1, 20250101000000Z to 20250102000000Z, the file `a.roa` with the
/// SHA-256 of that ROA.
const MANIFEST: &[u8] = b"\
    \x30\x5e\x02\x01\x01\
    \x18\x0f20250101000000Z\
    \x18\x0f20250102000000Z\
    \x06\x09\x60\x86\x48\x01\x65\x03\x04\x02\x01\
    \x30\x2c\x30\x2a\x16\x05a.roa\
    \x03\x21\x00\xda\x32\xbf\xbe\x0d\x8e\xea\x0f\x5d\x3b\x56\x02\x3c\x55\xd1\xc2\x3a\xa9\x1d\xf5\x02\x33\xf8\x9c\x32\x50\x86\xb2\xb2\x06\xd5\xa2";

const FILES: &[FileIn<'static>] = &[FileIn {
    name: "a.roa",
    object: ROA,
    content: ROA,
}];

const BEGUN: &str = "20250101000000Z";

/// The answer with 192.0.2.0/24 up to 24 of AS 64496, as serial 0 of session 1 (RFC 8210 sections 5.5, 5.6 and 5.8).
const ANSWER: &[u8] = b"\
    \x01\x03\x00\x01\x00\x00\x00\x08\
    \x01\x04\x00\x00\x00\x00\x00\x14\x01\x18\x18\x00\xc0\x00\x02\x00\x00\x00\xfb\xf0\
    \x01\x07\x00\x01\x00\x00\x00\x18\x00\x00\x00\x00\x00\x00\x0e\x10\x00\x00\x02\x58\x00\x00\x1c\x20";

/// The same without a record.
const EMPTY: &[u8] = b"\
    \x01\x03\x00\x01\x00\x00\x00\x08\
    \x01\x07\x00\x01\x00\x00\x00\x18\x00\x00\x00\x00\x00\x00\x0e\x10\x00\x00\x02\x58\x00\x00\x1c\x20";

fn offer<'a>(name: &'a str, files: &'a [FileIn<'a>]) -> Offer<'a> {
    Offer {
        name,
        manifest: MANIFEST,
        files,
    }
}

/// The result of these offers at a moment for a route of AS 64496.
fn fed(alloc: Global, offers: &[Offer], now: &str, prefix: &str) -> Option<Result<Fed, FeedFault>> {
    match (Moment::parse(now), IpPrefix::parse(prefix)) {
        (Some(now), Ok(prefix)) => {
            let route = Route {
                prefix,
                origin: Some(64496),
            };
            Some(route_from_payloads(alloc, offers, now, &route))
        }
        _ => None,
    }
}

/// Whether this is the state, and that was sent.
fn is_fed(alloc: Global, offers: &[Offer], prefix: &str, state: OriginState, wire: &[u8]) -> bool {
    match fed(alloc, offers, BEGUN, prefix) {
        Some(Ok(fed)) => fed.state == state && fed.wire.as_slice() == wire,
        _ => false,
    }
}

/// Whether this is the fault, whose number is 1.
fn is_refused(alloc: Global, offers: &[Offer], now: &str, fault: FeedFault) -> bool {
    match fed(alloc, offers, now, "192.0.2.0/24") {
        Some(Err(refused)) => refused == fault && refused.number() == 1,
        _ => false,
    }
}

#[test]
fn a_route_has_its_state(rt: HostRuntime) {
    let alloc = rt.alloc();
    let one = [offer("one", FILES)];
    assert!(rt; is_fed(alloc, &one, "192.0.2.0/24", OriginState::Valid, ANSWER));
    assert!(rt; is_fed(alloc, &one, "192.0.2.0/25", OriginState::Invalid, ANSWER));
    assert!(rt; is_fed(alloc, &[], "192.0.2.0/24", OriginState::NotFound, EMPTY));
}

#[test]
fn the_same_offer_again_is_no_fault(rt: HostRuntime) {
    let alloc = rt.alloc();
    let again = [offer("one", FILES), offer("one", &[])];
    assert!(rt; is_fed(alloc, &again, "192.0.2.0/24", OriginState::Valid, ANSWER));
    let elsewhere = [offer("one", FILES), offer("two", FILES)];
    assert!(rt;
        is_fed(
            alloc,
            &elsewhere,
            "192.0.2.0/24",
            OriginState::Valid,
            ANSWER
        )
    );
}

#[test]
fn the_first_refused_offer_is_told(rt: HostRuntime) {
    let alloc = rt.alloc();
    let one = [offer("one", FILES)];
    let stale = FeedFault::Point(0, PointFault::Stale);
    assert!(rt; is_refused(alloc, &one, "20250102000001Z", stale));
    let missing = FeedFault::Point(1, PointFault::Missing(0));
    let none = [offer("one", FILES), offer("two", &[]), offer("two", &[])];
    assert!(rt; is_refused(alloc, &none, BEGUN, missing));
}

#[test]
fn faults_have_their_numbers(rt: HostRuntime) {
    assert!(rt; FeedFault::TooMany.number() == 2);
    assert!(rt; FeedFault::Memory.number() == 3);
}
