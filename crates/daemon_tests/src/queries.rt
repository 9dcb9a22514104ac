//! Queries for the validity of a route, and ends of paths, each in a line.
use prefixes::{IpPrefix, PrefixFault, Route};
use status_pages::{QueryFault, read_path, read_query};
use std::alloc::Global;
use std::test::Fail;

/// Queries for 192.0.2.0/24 of AS64496.
const V4: &str = "asn=64496&prefix=192.0.2.0/24
    prefix=192.0.2.0/24&asn=64496
    asn=AS64496&prefix=192.0.2.0%2F24";

/// Queries for 2001:db8::/32 of AS4294967295.
const V6: &str = "asn=AS4294967295&prefix=2001%3adb8%3A%3a%2f32
    %61sn=4294967295&prefix=2001:DB8::/32";

/// Queries that are refused for their keys. The first is empty.
const KEYS: &str = "
    asn=64496
    prefix=192.0.2.0/24
    asn=64496&asn=64496
    asn=64496&prefix=192.0.2.0/24&asn=64496
    asn=64496&prefix=192.0.2.0/24&format=json
    ASN=64496&prefix=192.0.2.0/24";

/// For their AS number.
const ASNS: &str = "asn=&prefix=192.0.2.0/24
    asn=as64496&prefix=192.0.2.0/24
    asn=064496&prefix=192.0.2.0/24
    asn=4294967296&prefix=192.0.2.0/24
    asn=+64496&prefix=192.0.2.0/24
    asn=none&prefix=x";

/// For their prefix.
const NO_PREFIX: &str = "asn=64496&prefix=192.0.2.0
    asn=64496&prefix=192.0.2.0%2
    asn=64496&prefix=%ff";

const TOO_LONG: &str = "asn=64496&prefix=192.0.2.0/33";

const HOST_BITS: &str = "asn=64496&prefix=192.0.2.1/24";

/// Whether each query of a line is read so.
fn each_is(alloc: Global, queries: &str, wanted: &Result<Route, QueryFault>) -> bool {
    for query in queries.lines() {
        if read_query(alloc, query.trim()) != *wanted {
            return false;
        }
    }
    true
}

/// Whether each query of a line is refused so.
fn each_has(alloc: Global, queries: &str, fault: QueryFault) -> bool {
    each_is(alloc, queries, &Err(fault))
}

/// Whether each query of a line asks for this route.
fn each_asks(alloc: Global, queries: &str, prefix: &str, origin: u32) -> bool {
    match IpPrefix::parse(prefix) {
        Ok(prefix) => {
            let origin = Some(origin);
            each_is(alloc, queries, &Ok(Route { prefix, origin }))
        }
        Err(_) => false,
    }
}

#[test]
fn queries_that_ask_for_a_route(rt: HostRuntime) {
    assert!(rt; each_asks(rt.alloc(), V4, "192.0.2.0/24", 64496));
    assert!(rt; each_asks(rt.alloc(), V6, "2001:db8::/32", 4_294_967_295));
}

#[test]
fn queries_that_ask_for_none(rt: HostRuntime) {
    assert!(rt; each_has(rt.alloc(), KEYS, QueryFault::Keys));
    assert!(rt; each_has(rt.alloc(), ASNS, QueryFault::Asn));
    assert!(rt;
        each_has(
            rt.alloc(),
            NO_PREFIX,
            QueryFault::Prefix(PrefixFault::BadText)
        )
    );
    assert!(rt;
        each_has(
            rt.alloc(),
            TOO_LONG,
            QueryFault::Prefix(PrefixFault::TooLong)
        )
    );
    assert!(rt;
        each_has(
            rt.alloc(),
            HOST_BITS,
            QueryFault::Prefix(PrefixFault::HostBits)
        )
    );
}

/// Ends of paths for the route 2001:db8::/32 of AS64496.
const PATHS: &str = "AS64496/2001:db8::/32
    64496/2001:db8::/32
    64496/2001%3Adb8::%2f32";

/// Ends of paths that are refused. The first is empty.
const NO_PATHS: &str = "
    AS64496";

const PATH_ASNS: &str = "/192.0.2.0/24
    AS64496x/192.0.2.0/24";

const PATH_PREFIXES: &str = "AS64496/192.0.2.0
    64496/192.0.2.0/24/";

const PATH_HOST_BITS: &str = "64496/192.0.2.1/24";

/// Whether each end of a path is read so.
fn each_path_is(alloc: Global, paths: &str, wanted: &Result<Route, QueryFault>) -> bool {
    for path in paths.lines() {
        if read_path(alloc, path.trim()) != *wanted {
            return false;
        }
    }
    true
}

/// Whether each end of a path is refused so.
fn each_path_has(alloc: Global, paths: &str, fault: QueryFault) -> bool {
    each_path_is(alloc, paths, &Err(fault))
}

#[test]
fn paths_of_a_route(rt: HostRuntime) -> Result<(), Fail> {
    let route = Route {
        prefix: IpPrefix::parse("2001:db8::/32")?,
        origin: Some(64496),
    };
    assert!(rt; each_path_is(rt.alloc(), PATHS, &Ok(route)));
    Ok(())
}

#[test]
fn paths_of_no_route(rt: HostRuntime) {
    assert!(rt; each_path_has(rt.alloc(), NO_PATHS, QueryFault::Path));
    assert!(rt; each_path_has(rt.alloc(), PATH_ASNS, QueryFault::Asn));
    assert!(rt;
        each_path_has(
            rt.alloc(),
            PATH_PREFIXES,
            QueryFault::Prefix(PrefixFault::BadText)
        )
    );
    assert!(rt;
        each_path_has(
            rt.alloc(),
            PATH_HOST_BITS,
            QueryFault::Prefix(PrefixFault::HostBits)
        )
    );
}
