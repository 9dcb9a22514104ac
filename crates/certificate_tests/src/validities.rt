//! Which of several trust anchors of one key counts, by its time: the order in which rpki-client 9.9 prefers them.
use der_lite::Moment;
use std::alloc::Global;
use std::test::Fail;
use trust_anchors::{AnchorValidity, choose};

/// A time, from its two moments.
fn validity(begin: &str, end: &str) -> Option<AnchorValidity> {
    match (Moment::parse(begin), Moment::parse(end)) {
        (Some(not_before), Some(not_after)) => Some(AnchorValidity {
            not_before,
            not_after,
        }),
        _ => None,
    }
}

/// Which of these is chosen. `None`: none, or one could not be read.
fn chosen(alloc: Global, times: &[(&str, &str)]) -> Option<usize> {
    let mut validities = Vec::new(alloc);
    for (begin, end) in times {
        let Some(validity) = validity(begin, end) else {
            return None;
        };
        if validities.push(validity).is_err() {
            return None;
        }
    }
    choose(validities.as_slice())
}

/// From 2026 to 2028.
const LONG: (&str, &str) = ("20260101000000Z", "20280101000000Z");

/// It begins at once with that, and ends earlier.
const SHORT: (&str, &str) = ("20260101000000Z", "20270101000000Z");

/// It begins later.
const LATE: (&str, &str) = ("20260201000000Z", "20280101000000Z");

#[test]
fn the_later_and_then_the_shorter_counts(rt: HostRuntime) -> Result<(), Fail> {
    assert!(rt; chosen(rt.alloc(), &[]) == None);
    assert!(rt; chosen(rt.alloc(), &[LONG, SHORT, LATE]) == Some(2));
    assert!(rt; chosen(rt.alloc(), &[LONG, SHORT, SHORT]) == Some(1));
    Ok(())
}
