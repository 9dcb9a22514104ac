//! The states of routes.
use prefixes::{IpPrefix, Route};
use std::alloc::Global;
use std::process::Abort;
use test_values::sets::{Row, Rows, set_in};
use vrps::{OriginIndex, OriginState};

/// An index over the set of these rows.
pub(crate) fn index_of(alloc: Global, rows: &[Row]) -> Option<OriginIndex> {
    match set_in(alloc, rows) {
        Some(set) => OriginIndex::over(alloc, &set).ok(),
        None => None,
    }
}

/// Whether the members that cover a route are these.
fn covers(alloc: Global, index: &OriginIndex, route: &Route, want: &[Row]) -> bool {
    match (index.covering(alloc, route), set_in(alloc, want)) {
        (Ok(found), Some(want)) => found.as_slice() == want.as_slice(),
        _ => false,
    }
}

/// A route by its prefix and its origin, and the members that cover it.
type Covered = (&'static str, Option<u32>, Rows);

/// Records, and routes with the members that cover them.
const COVERED: &[(Rows, &[Covered])] = &[
    (
        &[
            ("::/0", 128, 1),
            ("10.1.0.0/16", 16, 2),
            ("10.0.0.0/8", 24, 1),
            ("10.1.0.0/16", 16, 0),
            ("0.0.0.0/0", 0, 3),
            ("10.2.0.0/16", 16, 2),
        ],
        &[
            (
                "10.1.2.0/24",
                Some(1),
                &[
                    ("0.0.0.0/0", 0, 3),
                    ("10.0.0.0/8", 24, 1),
                    ("10.1.0.0/16", 16, 0),
                    ("10.1.0.0/16", 16, 2),
                ],
            ),
            (
                "10.0.0.0/8",
                Some(1),
                &[("0.0.0.0/0", 0, 3), ("10.0.0.0/8", 24, 1)],
            ),
            ("10.0.0.0/7", Some(1), &[("0.0.0.0/0", 0, 3)]),
            ("2001:db8::/32", Some(1), &[("::/0", 128, 1)]),
        ],
    ),
    (
        &[("10.0.0.0/8", 24, 1), ("10.1.0.0/16", 16, 2)],
        &[(
            "10.1.2.0/24",
            None,
            &[("10.0.0.0/8", 24, 1), ("10.1.0.0/16", 16, 2)],
        )],
    ),
    (&[], &[("10.0.0.0/8", None, &[])]),
];

/// Whether a route is covered so.
fn is_covered(alloc: Global, index: &OriginIndex, &(text, origin, want): &Covered) -> bool {
    match IpPrefix::parse(text) {
        Ok(prefix) => covers(alloc, index, &Route { prefix, origin }, want),
        Err(_) => false,
    }
}

/// The same of these routes over these records.
fn are_covered(alloc: Global, records: &[Row], routes: &[Covered]) -> bool {
    let Some(index) = index_of(alloc, records) else {
        return false;
    };
    for route in routes {
        if !is_covered(alloc, &index, route) {
            return false;
        }
    }
    true
}

fn expect_covered<R: Abort>(rt: &R, alloc: Global, rows: &[(Rows, &[Covered])]) {
    for &(records, routes) in rows {
        assert!(rt; are_covered(alloc, records, routes));
    }
}

#[test]
fn covering_members_are_listed(rt: HostRuntime) {
    expect_covered(&rt, rt.alloc(), COVERED);
}

/// Whether a route is not found, for which no group is read.
fn has_no_group(index: &OriginIndex) -> bool {
    match IpPrefix::parse("10.0.0.0/8") {
        Ok(prefix) => {
            let origin = Some(1);
            index.state_counted(&Route { prefix, origin }) == (OriginState::NotFound, 0)
        }
        Err(_) => false,
    }
}

#[test]
fn an_empty_index_reads_no_group(rt: HostRuntime) {
    assert!(rt; has_no_group(&OriginIndex::empty(rt.alloc())));
}
