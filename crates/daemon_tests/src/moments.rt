//! The times of seconds since 1970.
use der_lite::Moment;
use event_log::moment_at;

/// Seconds since 1970, and the text of their time.
const MOMENTS: &str = "0 19700101000000Z
    951782399 20000228235959Z
    951782400 20000229000000Z
    951868800 20000301000000Z
    1700000000 20231114221320Z
    1709251199 20240229235959Z
    1709251200 20240301000000Z
    4107542399 21000228235959Z
    4107542400 21000301000000Z
    253402300799 99991231235959Z";

/// Whether the time of the seconds of a line has its text.
fn is_moment(line: &str) -> bool {
    match line.split_once(' ') {
        Some((seconds, text)) => match seconds.parse::<u64>() {
            Ok(seconds) => {
                let moment = moment_at(seconds);
                moment.is_some() && moment == Moment::parse(text)
            }
            Err(_) => false,
        },
        None => false,
    }
}

fn are_moments(lines: &str) -> bool {
    for line in lines.lines() {
        if !is_moment(line.trim()) {
            return false;
        }
    }
    true
}

#[test]
fn moments_of_seconds(rt: HostRuntime) {
    assert!(rt; are_moments(MOMENTS));
    assert!(rt; moment_at(253_402_300_800).is_none() && moment_at(u64::MAX).is_none());
}
