//! Polling the publication points: their directories are offered at each poll.
ghost use Rattle.std.specs.Prelude.{◌≡◌, ℕ};
ghost use Rattle.std.specs.String.{string_bytes};
ghost use Rattle.rtr_daemon.specs.Calls.{slow_after};
ghost use Rattle.rtr_daemon.specs.Due.{OnlyFiles};
ghost use Rattle.rtr_daemon.specs.PointOffers.{OffersEach, OffersPoint, points_of};
ghost use Rattle.rtr_daemon.specs.Serving.{Continues, OnlySources};

use crate::daemon::Daemon;
use crate::environment::{Disk, EventLog, Time};
use crate::polling::{log_expired, log_refusal};
use crate::refusal::Refusal;
use crate::refusals::Refusals;
use crate::service::Service;
use crate::statistics::Statistics;
use crate::watched_file::slow_after;
use event_log::LogEvent;
use payloads::decode_manifest;
use rtr_server::Stream;
use status_pages::SlowCall;
use std::alloc::Global;
use vrps::VersionStore;

/// What a publication point holds: its nextUpdate in seconds since 1970, and how many objects its manifest lists.
#[derive(Clone, Copy, Debug)]
pub(crate) struct PointState {
    next_update: u64,
    objects: u64,
}

/// A directory that is watched, whose name is that of its publication point.
#[derive(Debug, Drop)]
pub(crate) struct WatchedPoint {
    pub(crate) path: String,
    /// When it was last accepted, or equal to what its point holds, in seconds since 1970.
    pub(crate) loaded_at: Option<u64>,
    held: Option<PointState>,
    /// How many objects of its point are past their manifest's nextUpdate, as of the last poll.
    pub(crate) expired: u64,
    pub(crate) refusals: Refusals,
    /// The last call of the system on it that was slow.
    pub(crate) slow: Option<SlowCall>,
}

impl WatchedPoint {
    pub(crate) fn new(path: String) -> WatchedPoint
        ensures { result.path ≡ path }
    {
        WatchedPoint {
            path,
            loaded_at: None,
            held: None,
            expired: 0,
            refusals: Refusals::none(),
            slow: None,
        }
    }

    /// Notes the duration of the longest call of the system on it, in milliseconds, if that is slow.
    pub(crate) fn note_slow(&mut self, millis: u64, now: u64)
        ensures { self.new ≡ record self.old { slow = slow_after millis now self.old.slow } }
    {
        self.slow = slow_after(millis, now, self.slow);
    }

    /// It was accepted, or is what its point holds. It returns whether a refusal was reported before.
    pub(crate) fn set_accepted(&mut self, held: Option<PointState>, now: u64) -> bool
        ensures { self.new.path ≡ self.old.path }
    {
        self.loaded_at = Some(now);
        self.held = held;
        self.refusals.clear()
    }

    /// Notes whether the point is past its nextUpdate (RFC 9286 section 6.6), and returns whether it became so.
    fn note_expired(&mut self, now: u64) -> bool
        ensures { self.new.path ≡ self.old.path }
    {
        let before = self.expired;
        self.expired = match self.held {
            Some(held) if held.next_update < now => held.objects,
            _ => 0,
        };
        self.expired > before
    }
}

/// The state of a point, by its manifest.
fn point_state(alloc: Global, manifest: &[u8]) -> Option<PointState> {
    let manifest = decode_manifest(alloc, manifest).ok()?;
    Some(PointState {
        next_update: manifest.next_update().seconds(),
        objects: manifest.files().len() as u64,
    })
}

/// Offers the content of a directory to the publication point of its name, and returns what the point then holds.
pub(crate) fn offer<S: VersionStore, T: Stream + Drop, W: Disk>(
    service: &mut Service<S, T>,
    path: &str,
    alloc: Global,
    now: u64,
    env: &mut W,
) -> Result<Option<PointState>, Refusal>
    ensures goes { Continues S.holds T.remaining T.contents service.old service.new }
    ensures rest { OnlySources service.old service.new }
    ensures offers { OffersPoint W.answers path.now now service.old.sources service.new.sources }
{
    match env.directory(path) {
        Err(error) => {
            service.set_pending();
            Err(Refusal::Device(error))
        }
        Ok(directory) => {
            let _offered = service.offer(&directory, alloc, now)?;
            Ok(point_state(alloc, directory.manifest()))
        }
    }
}

impl<S: VersionStore, T: Stream + Drop> Daemon<S, T> {
    /// Offers all directories.
    pub(crate) fn offer_all<W: Disk + Time + EventLog>(&mut self, env: &mut W)
        ensures goes { Continues S.holds T.remaining T.contents self.old.service self.new.service }
        ensures rest { OnlyFiles self.old self.new }
        ensures kept { (self.new.exports ≡ self.old.exports) × (self.new.slurms ≡ self.old.slurms) }
        ensures offers { OffersEach W.answers W.can_be self.old.points.items self.old.service.sources self.new.service.sources }
        ensures paths { points_of self.new.points.items ≡ points_of self.old.points.items }
    {
        offer_each(
            &mut self.points,
            &mut self.service,
            &mut self.statistics,
            self.alloc,
            env,
        );
    }
}

/// Offers each directory, and reports the result.
fn offer_each<S: VersionStore, T: Stream + Drop, W: Disk + Time + EventLog>(
    points: &mut Vec<WatchedPoint>,
    service: &mut Service<S, T>,
    statistics: &mut Statistics,
    alloc: Global,
    env: &mut W,
)
    ensures goes { Continues S.holds T.remaining T.contents service.old service.new }
    ensures rest { OnlySources service.old service.new }
    ensures offers { OffersEach W.answers W.can_be points.old.items service.old.sources service.new.sources }
    ensures paths { points_of points.new.items ≡ points_of points.old.items }
{
    for point in points.iter_mut() {
        offer_one(point, service, statistics, alloc, env);
    }
}

/// Offers a directory, and reports the result.
fn offer_one<S: VersionStore, T: Stream + Drop, W: Disk + Time + EventLog>(
    point: &mut WatchedPoint,
    service: &mut Service<S, T>,
    statistics: &mut Statistics,
    alloc: Global,
    env: &mut W,
)
    ensures goes { Continues S.holds T.remaining T.contents service.old service.new }
    ensures rest { OnlySources service.old service.new }
    ensures offers { (now : ℕ) × W.can_be now × OffersPoint W.answers (string_bytes point.old.path) now service.old.sources service.new.sources }
    ensures path { point.new.path ≡ point.old.path }
{
    let now = env.seconds();
    let offered = offer(service, point.path.as_str(), alloc, now, env);
    point.note_slow(env.slowest(), now);
    note_offer(alloc, point, offered, now, statistics, env);
    if point.note_expired(now) {
        log_expired(point.path.as_str(), point.expired, now, env);
    }
}

/// Reports the result of an offer, if it has changed.
fn note_offer<W: EventLog>(
    alloc: Global,
    point: &mut WatchedPoint,
    offered: Result<Option<PointState>, Refusal>,
    now: u64,
    statistics: &mut Statistics,
    env: &mut W,
)
    ensures { point.new.path ≡ point.old.path }
{
    match offered {
        Ok(held) => {
            if point.set_accepted(held, now) {
                env.log(
                    now,
                    &LogEvent::Taken {
                        file: point.path.as_str(),
                    },
                );
            }
        }
        Err(refusal) => {
            if point.refusals.add(None, refusal, now) {
                statistics.count_refusal();
                log_refused_point(alloc, point, now, env);
            }
        }
    }
}

/// Reports why a publication point was refused last.
fn log_refused_point<W: EventLog>(alloc: Global, point: &WatchedPoint, now: u64, env: &mut W) {
    if let Some(refusal) = point.refusals.last() {
        log_refusal(alloc, point.path.as_str(), refusal, now, env);
    }
}
