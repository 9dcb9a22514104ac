//! How many groups are read for a route. The numbers are worked out by hand, from the places that a binary search halves.
use crate::states::index_of;
use prefixes::{IpPrefix, Route};
use std::alloc::Global;
use std::process::Abort;
use test_values::sets::{Row, Rows};
use vrps::{OriginIndex, OriginState};

/// A route, its origin, its state, and how many groups are read for it.
type Case = (&'static str, u32, OriginState, u32);

/// Records, and routes over them.
const PROBED: &[(Rows, &[Case])] = &[
    // No group is read if there is none, and one for each length that is tried.
    (
        &[],
        &[
            ("10.0.0.0/8", 1, OriginState::NotFound, 0),
            ("2001:db8::/32", 1, OriginState::NotFound, 0),
        ],
    ),
    (
        &[("10.0.0.0/8", 24, 1)],
        &[
            ("10.0.0.0/8", 1, OriginState::Valid, 1),
            ("10.0.0.0/24", 1, OriginState::Valid, 1),
            ("10.0.0.0/8", 2, OriginState::Invalid, 1),
            ("9.0.0.0/8", 1, OriginState::NotFound, 1),
            // (10.0.0.0/8 is before it and shares 7 bits, so 10.0.0.0/7 is tried too)
            ("11.0.0.0/8", 1, OriginState::NotFound, 2),
            ("2001:db8::/32", 1, OriginState::NotFound, 1),
        ],
    ),
    (
        &[("2001:db8::/32", 48, 4)],
        &[
            ("2001:db8:1::/48", 4, OriginState::Valid, 1),
            ("10.0.0.0/8", 4, OriginState::NotFound, 1),
        ],
    ),
    // Two groups are halved, and five of both families.
    (
        &[("10.0.0.0/8", 24, 1), ("10.1.0.0/16", 16, 2)],
        &[
            ("10.1.0.0/16", 2, OriginState::Valid, 1),
            ("10.1.2.0/24", 1, OriginState::Valid, 2),
            ("10.1.2.0/24", 2, OriginState::Invalid, 2),
            ("10.0.0.0/8", 1, OriginState::Valid, 2),
            ("0.0.0.0/0", 1, OriginState::NotFound, 2),
            ("::/0", 1, OriginState::NotFound, 1),
        ],
    ),
    (
        &[
            ("10.0.0.0/8", 8, 1),
            ("10.1.0.0/16", 24, 2),
            ("192.0.2.0/24", 24, 3),
            ("2001:db8::/32", 48, 4),
            ("2001:db8:1::/48", 64, 5),
        ],
        &[
            ("10.1.2.0/24", 2, OriginState::Valid, 2),
            ("10.1.2.0/24", 1, OriginState::Invalid, 3),
            ("192.0.2.0/24", 3, OriginState::Valid, 3),
            ("192.0.2.0/25", 3, OriginState::Invalid, 6),
            ("9.0.0.0/8", 1, OriginState::NotFound, 3),
            ("2001:db8:1::/48", 5, OriginState::Valid, 2),
            ("2001:db8:1::/48", 4, OriginState::Valid, 4),
            ("2001:db9::/32", 4, OriginState::NotFound, 5),
        ],
    ),
];

/// Whether a route has this state, and this many groups are read for it.
fn is_probed(index: &OriginIndex, &(text, asn, state, probes): &Case) -> bool {
    match IpPrefix::parse(text) {
        Ok(prefix) => {
            let origin = Some(asn);
            index.state_counted(&Route { prefix, origin }) == (state, probes)
        }
        Err(_) => false,
    }
}

/// The same of these routes over these records.
fn are_probed(alloc: Global, records: &[Row], routes: &[Case]) -> bool {
    let Some(index) = index_of(alloc, records) else {
        return false;
    };
    for case in routes {
        if !is_probed(&index, case) {
            return false;
        }
    }
    true
}

fn expect_probed<R: Abort>(rt: &R, alloc: Global, rows: &[(Rows, &[Case])]) {
    for &(records, routes) in rows {
        assert!(rt; are_probed(alloc, records, routes));
    }
}

#[test]
fn groups_are_halved(rt: HostRuntime) {
    expect_probed(&rt, rt.alloc(), PROBED);
}
