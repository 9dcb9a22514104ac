//! The most VRPs that were served within the last 24 hours, and the routers that were turned away.
ghost use Rattle.std.specs.Prelude.{◌≡◌, [], ◌∷◌, ◌++◌, OnOk};
ghost use Rattle.std.specs.List.{filter};
ghost use Rattle.rtr_daemon.specs.Peaks.{greater, greatest, is_within_a_day, peak_of, routers_before, turned_away_at};

use status_pages::{ClientLimit, TurnedAway, VrpPeak};
use std::alloc::{AllocError, Global};

/// For how long a version counts after its end, in seconds.
const DAY: u64 = 86_400;

/// After how long a router that is turned away is the first again, in seconds.
const PAUSE: u64 = 600;

/// The sizes of the versions that were served within the last 24 hours, and until when.
#[derive(Debug, Drop)]
pub(crate) struct Peaks {
    ended: Vec<VrpPeak>,
}

/// Whether a version was still served within the 24 hours before a second.
pub(crate) fn is_within_a_day(now: u64, peak: &VrpPeak) -> bool
    ensures { result ≡ is_within_a_day now peak.now }
{
    now.saturating_sub(peak.until) <= DAY
}

/// The greater of two.
pub(crate) fn greater(most: Option<VrpPeak>, peak: VrpPeak) -> Option<VrpPeak>
    ensures { result ≡ greater most peak }
{
    let Some(most) = most else {
        return Some(peak);
    };
    if most.vrps < peak.vrps {
        Some(peak)
    } else {
        Some(most)
    }
}

impl Peaks {
    /// No version was served yet.
    pub(crate) fn new(alloc: Global) -> Peaks
        ensures { result.ended.items ≡ [] }
    {
        Peaks {
            ended: Vec::new(alloc),
        }
    }

    /// Forgets the versions that ended more than 24 hours before a second.
    fn forget(&mut self, now: u64)
        ensures { self.new.ended.items ≡ filter (is_within_a_day now) self.old.ended.items }
    {
        self.ended.retain(|peak| is_within_a_day(now, peak));
    }

    /// A version with this many VRPs was served until this second. Those that ended more than 24 hours before are forgotten.
    pub(crate) fn add(&mut self, vrps: u64, until: u64) -> Result<(), AllocError>
        ensures { OnOk result (self.new.ended.items ≡ filter (is_within_a_day until) (self.old.ended.items ++ peak_of vrps until ∷ [])) }
    {
        self.ended.push(VrpPeak { vrps, until })?;
        self.forget(until);
        Ok(())
    }

    /// The most VRPs of a version that ended within the 24 hours before a second.
    pub(crate) fn most(&self, now: u64) -> Option<VrpPeak>
        ensures { result ≡ greatest (filter (is_within_a_day now) self.now.ended.items) }
    {
        let recent = self.ended.iter().filter(|peak| is_within_a_day(now, *peak));
        recent.fold(None, |most, peak| greater(most, *peak))
    }
}

/// How many routers were turned away, with less than ten minutes between them.
fn routers_before(now: u64, before: Option<TurnedAway>) -> u64
    ensures { result ≡ routers_before now before }
{
    match before {
        None => 0,
        Some(away) => if now.saturating_sub(away.last) <= PAUSE {
            away.routers
        } else {
            0
        },
    }
}

/// One router more is turned away at a second, by a limit.
pub(crate) fn turned_away_at(now: u64, limit: ClientLimit, before: Option<TurnedAway>) -> TurnedAway
    ensures { result ≡ turned_away_at now limit before }
{
    TurnedAway {
        routers: routers_before(now, before).saturating_add(1),
        last: now,
        limit,
    }
}
