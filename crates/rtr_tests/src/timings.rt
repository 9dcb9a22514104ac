//! The intervals of an End of Data.
use rtr_ends::{Timing, TimingFault};
use std::process::Abort;

const OUT_OF_RANGE: Option<TimingFault> = Some(TimingFault::OutOfRange);

const EXPIRE_TOO_SMALL: Option<TimingFault> = Some(TimingFault::ExpireTooSmall);

/// Refresh, retry and expire, and why they are refused, if they are.
type Row = (u32, u32, u32, Option<TimingFault>);

/// Both sides of each bound.
const BOUNDS: &[Row] = &[
    (3600, 600, 7200, None),
    (0, 600, 7200, OUT_OF_RANGE),
    (1, 600, 7200, None),
    (86_400, 600, 172_800, None),
    (86_401, 600, 172_800, OUT_OF_RANGE),
    (3600, 0, 7200, OUT_OF_RANGE),
    (3600, 1, 7200, None),
    (3600, 7200, 7201, None),
    (3600, 7201, 7202, OUT_OF_RANGE),
    (1, 1, 599, OUT_OF_RANGE),
    (1, 1, 600, None),
    (3600, 600, 172_800, None),
    (3600, 600, 172_801, OUT_OF_RANGE),
];

/// Expire is below the other two, as large, and one more.
const EXPIRES: &[Row] = &[
    (3600, 600, 3599, EXPIRE_TOO_SMALL),
    (3600, 600, 3600, EXPIRE_TOO_SMALL),
    (3600, 600, 3601, None),
    (600, 3600, 3599, EXPIRE_TOO_SMALL),
    (600, 3600, 3600, EXPIRE_TOO_SMALL),
    (600, 3600, 3601, None),
    (3600, 3600, 3600, EXPIRE_TOO_SMALL),
    (3600, 3600, 3601, None),
    // Of two faults the range is reported.
    (86_401, 600, 86_401, OUT_OF_RANGE),
    (700, 7201, 700, OUT_OF_RANGE),
    (3600, 600, 599, OUT_OF_RANGE),
    (0, 0, 0, OUT_OF_RANGE),
    (4_294_967_295, 4_294_967_295, 4_294_967_295, OUT_OF_RANGE),
];

/// Whether intervals are refused so, or are accepted as they are.
fn is_told(refresh: u32, retry: u32, expire: u32, fault: Option<TimingFault>) -> bool {
    match Timing::new(refresh, retry, expire) {
        Err(told) => fault == Some(told),
        Ok(timing) => {
            fault.is_none()
                && timing.refresh() == refresh
                && timing.retry() == retry
                && timing.expire() == expire
        }
    }
}

/// Checks each row.
fn expect_told<R: Abort>(rt: &R, rows: &[Row]) {
    for &(refresh, retry, expire, fault) in rows {
        assert!(rt; is_told(refresh, retry, expire, fault));
    }
}

#[test]
fn intervals_at_their_bounds(rt: HostRuntime) {
    expect_told(&rt, BOUNDS);
    expect_told(&rt, EXPIRES);
    assert!(rt; Timing::new(3600, 600, 7200) == Ok(Timing::default()));
    assert!(rt; TimingFault::OutOfRange.number() == 1);
    assert!(rt; TimingFault::ExpireTooSmall.number() == 2);
}
