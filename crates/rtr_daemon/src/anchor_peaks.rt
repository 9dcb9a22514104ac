//! The trust anchors of an export, and how many VRPs each had within the last 24 hours.
ghost use Rattle.std.specs.Prelude.{◌≡◌, []};
ghost use Rattle.rtr_daemon.specs.AnchorPeaks.{is_kept, most_of};

use crate::environment::EventLog;
use crate::peaks::{greater, is_within_a_day};
use event_log::LogEvent;
use sources::Sources;
use status_pages::{AnchorStatus, VrpPeak};
use std::alloc::{AllocError, Global};
use std::mem;

/// From how many VRPs on a trust anchor is remembered.
const LEAST_PEAK: u64 = 1000;

/// How many ends of loads are remembered.
const MOST_ENDED: usize = 1024;

/// How many VRPs a trust anchor had in a load of an export, and until when.
#[derive(Debug, Drop)]
pub(crate) struct AnchorPeak {
    pub(crate) name: String,
    pub(crate) peak: VrpPeak,
}

/// What the trust anchors of an export had, from 1,000 VRPs on.
#[derive(Debug, Drop)]
pub(crate) struct AnchorPeaks {
    /// In the loads that were replaced within the last 24 hours.
    ended: Vec<AnchorPeak>,
    /// In the last load, when it was loaded.
    current: Vec<AnchorPeak>,
}

/// Whether a peak is kept beside a later one of a trust anchor: it ended at most 24 hours before, and it is of another trust anchor or higher.
fn is_kept(name: &str, later: VrpPeak, ended: &AnchorPeak) -> bool
    ensures { result ≡ is_kept name.now later ended.now }
{
    is_within_a_day(later.until, &ended.peak)
        && !(ended.name.as_str() == name && ended.peak.vrps <= later.vrps)
}

impl AnchorPeaks {
    /// Nothing was loaded yet.
    pub(crate) fn new(alloc: Global) -> AnchorPeaks
        ensures { result.ended.items ≡ [] }
    {
        AnchorPeaks {
            ended: Vec::new(alloc),
            current: Vec::new(alloc),
        }
    }

    /// Forgets what ended more than 24 hours before this peak, and lower peaks of the same name.
    fn forget(&mut self, name: &str, peak: VrpPeak) {
        self.ended.retain(|it| is_kept(name, peak, it));
    }

    /// A load was replaced, in which a trust anchor had this peak. If 1,024 others are kept, it is forgotten.
    fn end(&mut self, name: String, peak: VrpPeak) -> Result<(), AllocError> {
        self.forget(name.as_str(), peak);
        if self.ended.len() < MOST_ENDED {
            self.ended.push(AnchorPeak { name, peak })?;
        }
        Ok(())
    }

    /// The most VRPs that a trust anchor had in a load that was replaced within the 24 hours before a second.
    fn most(&self, name: &str, now: u64) -> Option<VrpPeak>
        ensures { result ≡ most_of name.now now self.now.ended.items }
    {
        self.ended
            .iter()
            .filter(|it| it.name.as_str() == name && is_within_a_day(now, &it.peak))
            .fold(None, |most, it| greater(most, it.peak))
    }

    /// The same with what it had in the last load.
    fn most_ever(&self, name: &str, now: u64) -> Option<VrpPeak> {
        let mut most = self.most(name, now);
        for it in &self.current {
            if it.name.as_str() == name {
                let vrps = it.peak.vrps;
                most = greater(most, VrpPeak { vrps, until: now });
            }
        }
        most
    }

    /// Another load replaces the last one at a second: for each name its count.
    fn replace(
        &mut self,
        alloc: Global,
        names: &[String],
        counts: &[u64],
        now: u64,
    ) -> Result<(), AllocError> {
        let before = mem::replace(&mut self.current, Vec::new(alloc));
        for it in before {
            let AnchorPeak { name, peak } = it;
            let vrps = peak.vrps;
            self.end(name, VrpPeak { vrps, until: now })?;
        }
        self.begin(names, counts, now)
    }

    /// Remembers the counts of a load, from 1,000 on.
    fn begin(&mut self, names: &[String], counts: &[u64], now: u64) -> Result<(), AllocError> {
        for (index, name) in names.iter().enumerate() {
            let vrps = count_at(counts, index);
            if vrps >= LEAST_PEAK {
                self.current.push(AnchorPeak {
                    name: name.clone()?,
                    peak: VrpPeak { vrps, until: now },
                })?;
            }
        }
        Ok(())
    }

    /// Adds the trust anchors that a load of the last 24 hours had, and the last one has not.
    fn add_vanished(&self, found: &mut Vec<AnchorStatus>, now: u64) -> Result<(), AllocError> {
        for it in &self.ended {
            let name = it.name.as_str();
            if is_within_a_day(now, &it.peak) && !is_shown(found, name) {
                found.push(AnchorStatus {
                    name: it.name.clone()?,
                    vrps: 0,
                    peak: self.most(name, now),
                })?;
            }
        }
        Ok(())
    }

    /// The trust anchors of an export at a second: those of its last load, and those that it had within the last 24 hours.
    pub(crate) fn shown(
        &self,
        alloc: Global,
        sources: &Sources,
        number: usize,
        now: u64,
    ) -> Result<Vec<AnchorStatus>, AllocError> {
        let counts = sources.left_of_anchors(number, now)?;
        let mut found = Vec::new(alloc);
        for (index, name) in sources.anchors(number).iter().enumerate() {
            found.push(AnchorStatus {
                name: name.clone()?,
                vrps: count_at(counts.as_slice(), index),
                peak: self.most_ever(name.as_str(), now),
            })?;
        }
        self.add_vanished(&mut found, now)?;
        Ok(found)
    }

    /// An export was loaded at a second. If memory runs out, that is logged, and what some trust anchors had is forgotten.
    pub(crate) fn note_load<W: EventLog>(
        &mut self,
        alloc: Global,
        sources: &Sources,
        number: usize,
        now: u64,
        env: &mut W,
    ) {
        let noted = match sources.left_of_anchors(number, now) {
            Ok(counts) => self.replace(alloc, sources.anchors(number), counts.as_slice(), now),
            Err(error) => Err(error),
        };
        if noted.is_err() {
            let what = "the sizes of the trust anchors";
            env.log(now, &LogEvent::Memory { what });
        }
    }
}

/// The count at a place.
fn count_at(counts: &[u64], index: usize) -> u64 {
    match counts.get(index) {
        Some(count) => *count,
        None => 0,
    }
}

/// Whether a trust anchor is among these.
fn is_shown(found: &[AnchorStatus], name: &str) -> bool {
    found.iter().any(|it| it.name.as_str() == name)
}
