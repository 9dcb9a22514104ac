//! What is changed of a cache that is well, by pairs of words: what, and its value.

use crate::caches::{NOW, put_failure};
use anyhow::{Result, bail};
use status_pages::{ClientLimit, FileStatus, SlowCall, Status, TurnedAway, VrpPeak};
use std::alloc::Global;

/// Makes the changes, one after the other.
pub(crate) fn put_changes(alloc: Global, words: &[String], status: &mut Status) -> Result<()> {
    for pair in words.chunks(2) {
        match pair {
            [what, value] => put_change(alloc, what.as_str(), value.parse()?, status)?,
            _ => bail!("a change has a value"),
        }
    }
    Ok(())
}

/// Makes one change.
fn put_change(alloc: Global, what: &str, value: u64, status: &mut Status) -> Result<()> {
    match what {
        "ipv4" => status.ipv4 = value,
        "ipv6" => status.ipv6 = value,
        "given" => status.given = value,
        "max-age" => status.max_age = Some(value),
        "behind" => status.clock_behind = value,
        "no-serial" => status.serial = None,
        "failing" => put_failure(alloc, status)?,
        "peak" => {
            status.peak = Some(VrpPeak {
                vrps: value,
                until: NOW - 60,
            });
        }
        "away" => status.turned_away = Some(away(value, ClientLimit::All)),
        "away-of-address" => status.turned_away = Some(away(value, ClientLimit::OfAddress)),
        _ => return put_file_change(alloc, what, value, status),
    }
    Ok(())
}

/// Three routers that were turned away, the last one this many seconds ago.
fn away(ago: u64, limit: ClientLimit) -> TurnedAway {
    TurnedAway {
        routers: 3,
        last: NOW.saturating_sub(ago),
        limit,
    }
}

/// Makes one change of the first file.
fn put_file_change(alloc: Global, what: &str, value: u64, status: &mut Status) -> Result<()> {
    let Some(file) = status.files.first_mut() else {
        bail!("there is no file");
    };
    match what {
        "old" => file.is_old = true,
        "expired" => file.expired = value,
        "vrps" => file.vrps = Some(value),
        "never-loaded" => file.taken = None,
        "refused" => put_refusal(alloc, value, file)?,
        "anchor" | "anchor-peak" => put_anchor_change(what, value, file)?,
        "slow" => file.slow = Some(slow_call(5001, value)),
        "slow-for" => file.slow = Some(slow_call(value, 0)),
        "near-limit" => file.near_limit = Some(value),
        _ => bail!("there is no such change"),
    }
    Ok(())
}

/// Makes one change of the first trust anchor of a file: how many VRPs it has, or the most that it had.
fn put_anchor_change(what: &str, value: u64, file: &mut FileStatus) -> Result<()> {
    let Some(anchor) = file.anchors.first_mut() else {
        bail!("there is no trust anchor");
    };
    if what == "anchor" {
        anchor.vrps = value;
        return Ok(());
    }
    anchor.peak = Some(VrpPeak {
        vrps: value,
        until: NOW - 60,
    });
    Ok(())
}

/// A slow call of this many milliseconds, this many seconds ago.
fn slow_call(milliseconds: u64, ago: u64) -> SlowCall {
    SlowCall {
        milliseconds,
        at: NOW.saturating_sub(ago),
    }
}

/// The file has been refused for this many seconds.
fn put_refusal(alloc: Global, ago: u64, file: &mut FileStatus) -> Result<()> {
    file.refusal = Some(String::from_str(alloc, "not JSON (fault 1)")?);
    file.refused_at = Some(NOW.saturating_sub(ago));
    Ok(())
}
