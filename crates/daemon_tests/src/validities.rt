//! The validity of routes.
use prefixes::{IpPrefix, Route};
use status_pages::Validity;
use status_pages::laws::{covering_is_parted, reason_is_by_origin};
use std::alloc::Global;
use test_values::sets::{Rows, set_in};
use vrps::{OriginIndex, OriginState};

const ROWS: Rows = &[
    ("192.0.2.0/24", 24, 0),
    ("192.0.2.0/24", 25, 64496),
    ("192.0.2.0/25", 25, 64497),
];

fn index(alloc: Global) -> Option<OriginIndex> {
    OriginIndex::over(alloc, &set_in(alloc, ROWS)?).ok()
}

/// A route and its origin, its state, and how many records match, have too small a maximum, and are of another AS.
type Case = (&'static str, Option<u32>, OriginState, [usize; 3]);

const CASES: &[Case] = &[
    ("192.0.2.0/25", Some(64496), OriginState::Valid, [1, 1, 1]),
    ("192.0.2.0/26", Some(64496), OriginState::Invalid, [0, 3, 0]),
    ("192.0.2.0/24", Some(64497), OriginState::Invalid, [0, 0, 2]),
    ("192.0.2.0/25", Some(0), OriginState::Invalid, [0, 1, 2]),
    ("192.0.2.0/24", None, OriginState::Invalid, [0, 0, 2]),
    (
        "192.0.0.0/16",
        Some(64496),
        OriginState::NotFound,
        [0, 0, 0],
    ),
];

/// Whether the state is this, and the three lists have these lengths.
fn is_told(validity: &Validity, state: OriginState, lists: &[usize; 3]) -> bool {
    validity.state == state
        && validity.matched.len() == lists[0]
        && validity.unmatched_length.len() == lists[1]
        && validity.unmatched_as.len() == lists[2]
}

/// Whether a route has this validity.
fn is_judged(alloc: Global, index: &OriginIndex, case: &Case) -> bool {
    let &(text, origin, state, lists) = case;
    let Ok(prefix) = IpPrefix::parse(text) else {
        return false;
    };
    match Validity::of_route(alloc, index, &Route { prefix, origin }) {
        Ok(validity) => is_told(&validity, state, &lists),
        Err(_) => false,
    }
}

/// Whether each route has its validity.
fn are_judged(alloc: Global, cases: &[Case]) -> bool {
    let Some(index) = index(alloc) else {
        return false;
    };
    for case in cases {
        if !is_judged(alloc, &index, case) {
            return false;
        }
    }
    true
}

#[test]
fn records_are_told_by_kind(rt: HostRuntime) {
    assert!(rt; are_judged(rt.alloc(), CASES));
    covering_is_parted();
    reason_is_by_origin();
}
