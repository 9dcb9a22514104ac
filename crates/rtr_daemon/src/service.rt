//! A service: a server, its sources, and whether a version is pending.
ghost use Rattle.std.specs.Prelude.{◌≡◌, ℕ, false, true, IfErr, IfOk, Option, map};
ghost use Rattle.der_lite.specs.Moments.{CivilMoment};
ghost use Rattle.der_lite.specs.Seconds.{seconds_of};
ghost use Rattle.points.specs.InUse.{no_points};
ghost use Rattle.rtr_server.specs.Clients.{AdmitsTo, Begun, KeepsOthers, Past, ShowsServer, is_gone, slot_at};
ghost use Rattle.sources.specs.Served.{ExportTaken, SetDropped, SetTaken, SlurmTaken, SlurmsTaken};
ghost use Rattle.sources.specs.Shrinking.{ExportTakenWithin};
ghost use Rattle.rtr_daemon.specs.PointOffers.{OffersTo};
ghost use Rattle.rtr_daemon.specs.Serving.{Continues, IsFresh, IsReason, IsServedAt, NoneEnds};
ghost use Rattle.rtr_daemon.specs.Serving.{OnlyServer, OnlySources, SameExpired, ShowsService, TakesSo, past_of};
ghost use Rattle.rtr_daemon.specs.Turns.{ServesClient};

use crate::cache_settings::CacheSettings;
use crate::families::Families;
use crate::refusal::Refusal;
use crate::set_changes::StepStore;
use crate::versions::server_of;
use event_log::moment_at;
use payload_commands::Directory;
use points::{Offered, PointFault};
use rtr_server::{AdmitFault, Client, Server, Stream, Turn};
use session_names::{Pace, SessionIds};
use slurm::SlurmFault;
use sources::{ServedSet, SlurmSetFault, Sources, TakeFault, TakeSetFault};
use std::alloc::{AllocError, Global};
use vrps::{VersionStore, VrpSet};

/// An RTR server, and the sources of the set that it serves. Load the sources, then publish their set with [`Service::publish`].
#[derive(Debug, Drop)]
pub struct Service<S, T> {
    pub(crate) server: Server<S, T>,
    /// What its cache was made with.
    pub(crate) settings: CacheSettings,
    /// The session of its cache in version 0 of the protocol.
    pub(crate) session0: u16,
    sources: Sources,
    /// Whether the sources have changed since the last publication.
    pub(crate) is_pending: bool,
    /// How many VRPs of each address family the newest version has.
    pub(crate) families: Families,
    /// The pace of its versions.
    pub(crate) pace: Pace,
    /// A second since 1970. If no version is pending, the newest version is what the sources have then.
    pub(crate) current_at: u64,
    /// Whether there may be publication points.
    has_points: bool,
    /// The second since 1970 at which expiry was judged last.
    judged_at: u64,
}

impl<S: StepStore, T: Stream + Drop> Service<S, T> {
    /// Creates a service with a new cache. It has no version and no client, and its first version is pending.
    /// `ids` has the session IDs and the serial of the first version. `Err`: out of memory.
    pub fn new(
        alloc: Global,
        settings: CacheSettings,
        ids: SessionIds,
        sources: Sources,
    ) -> Result<Service<S, T>, AllocError>
        ensures shows { IfOk result (λ service. (begun : ℕ → Begun) → ShowsService S.holds T.remaining T.contents (past_of settings ids begun) service) }
        ensures pace { IfOk result (λ service. service.pace ≡ Option.None) }
        ensures sources { IfOk result (λ service. service.sources ≡ sources) }
        ensures settings { IfOk result (λ service. service.settings ≡ settings) }
    {
        Ok(Service {
            server: server_of(alloc, settings, ids)?,
            settings,
            session0: ids.session0,
            sources,
            is_pending: true,
            families: Families::none(),
            pace: Pace::new(),
            current_at: 0,
            has_points: true,
            judged_at: 0,
        })
    }

    /// Creates a service as [`Service::new`] does, for sources without publication points. The first version is published in a later second
    /// of the pace than `start`.
    pub(crate) fn after(
        start: u64,
        alloc: Global,
        settings: CacheSettings,
        ids: SessionIds,
        sources: Sources,
    ) -> Result<Service<S, T>, AllocError>
        ensures shows { IfOk result (λ service. sources.repository ≡ no_points → (begun : ℕ → Begun) → ShowsService S.holds T.remaining T.contents (past_of settings ids begun) service) }
        ensures pace { IfOk result (λ service. service.pace ≡ Option.Some start) }
        ensures sources { IfOk result (λ service. service.sources ≡ sources) }
        ensures settings { IfOk result (λ service. service.settings ≡ settings) }
    {
        let mut service = Service::new(alloc, settings, ids, sources)?;
        service.pace = Pace::after(start);
        service.has_points = false;
        service.judged_at = start;
        Ok(service)
    }
}

impl<S: VersionStore, T: Stream + Drop> Service<S, T> {
    /// The RTR server: its cache and its clients.
    pub fn server(&self) -> &Server<S, T>
        ensures { result.now ≡ self.now.server }
    {
        &self.server
    }

    /// The sources of the served set, as they were loaded.
    pub fn sources(&self) -> &Sources
        ensures { result.now ≡ self.now.sources }
    {
        &self.sources
    }

    /// Whether a version is pending: the sources may have changed since the last publication. [`Service::publish`] publishes it.
    pub fn is_pending(&self) -> bool
        ensures { result ≡ self.now.is_pending }
    {
        self.is_pending
    }

    /// Runs one turn of a client, with at most `budget` calls of its stream, and returns how the turn ended.
    /// `None`: there is no such client. See [`Server::serve`].
    pub fn serve(&mut self, client: Client, budget: u32) -> Option<Turn>
        ensures goes { Continues S.holds T.remaining T.contents self.old self.new }
        ensures others { KeepsOthers client.0.0 self.old.server.slots.items self.new.server.slots.items }
        ensures serves { ServesClient S.holds T.remaining T.contents T.answers budget client.0.0 result self.old.server self.new.server }
        ensures stays { is_gone result ≡ false → self.new.server.parted ≡ self.old.server.parted }
        ensures rest { OnlyServer self.old self.new }
    {
        self.server.serve(client, budget)
    }

    /// Admits a client with its stream. `Err`: `TooManyClients` if as many clients are there as there may be, otherwise `Memory`. Then the
    /// stream is dropped, and the other clients stay as they are.
    pub fn admit(&mut self, stream: T) -> Result<Client, AdmitFault>
        ensures goes { Continues S.holds T.remaining T.contents self.old self.new }
        ensures admits { (p : Past) → ShowsServer S.holds T.remaining T.contents p self.old.server → AdmitsTo S.holds T.remaining T.contents p stream result self.old.server self.new.server }
        ensures rest { OnlyServer self.old self.new }
    {
        self.server.admit(stream)
    }

    /// Closes a client and drops its stream with all bytes that are not written yet. [`Server::parted`] has its counts afterwards.
    /// If there is no such client, nothing happens. If its number went to another client meanwhile, that one is closed.
    pub fn drop_client(&mut self, client: Client)
        ensures goes { Continues S.holds T.remaining T.contents self.old self.new }
        ensures others { KeepsOthers client.0.0 self.old.server.slots.items self.new.server.slots.items }
        ensures gone { slot_at self.new.server.slots.items client.0.0 ≡ Option.None }
        ensures rest { OnlyServer self.old self.new }
    {
        self.server.drop_client(client)
    }

    /// Replaces the export of `file` (from 0) by the export in `bytes`, read at `now`, in seconds since 1970. `Ok`: the number of entries that
    /// had expired. A version is pending. `Err(NoSuchFile)`: there is no such file. `Err(Export)`: the bytes are not an export, have too many
    /// records, or memory ran out. Then nothing changes.
    pub fn take_export(&mut self, file: usize, bytes: &[u8], now: u64) -> Result<u64, TakeFault>
        ensures goes { Continues S.holds T.remaining T.contents self.old self.new }
        ensures takes { TakesSo result self.old self.new }
        ensures export { ExportTaken bytes.now now file result self.old.sources self.new.sources }
        ensures rest { OnlySources self.old self.new }
    {
        let expired = self.sources.take_export(file, bytes, now)?;
        self.is_pending = true;
        Ok(expired)
    }

    /// Loads an export as [`Service::take_export`] does, but refuses one with far fewer records than the last one. `guard` is the largest part
    /// of the records that may be gone, in percent. `None`: there is no such limit. `Err(Shrank)`: the last load has 1,000 or more records, and
    /// more than `guard` percent of them are gone. Then nothing changes. Records that have expired at `now` count on neither side.
    pub fn take_export_within(
        &mut self,
        guard: Option<u8>,
        file: usize,
        bytes: &[u8],
        now: u64,
    ) -> Result<u64, TakeFault>
        ensures goes { Continues S.holds T.remaining T.contents self.old self.new }
        ensures takes { TakesSo result self.old self.new }
        ensures export { ExportTakenWithin guard bytes.now now file result self.old.sources self.new.sources }
        ensures rest { OnlySources self.old self.new }
    {
        let expired = self.sources.take_export_within(guard, file, bytes, now)?;
        self.is_pending = true;
        Ok(expired)
    }

    /// Replaces the records of `list` (from 0) by a set of another cache. They count before `until`, in seconds since 1970.
    /// `until` of `None`: they do not expire. `Ok`: a version is pending.
    /// `Err`: there is no such list, or memory ran out. Then nothing changes.
    pub fn take_set(
        &mut self,
        list: usize,
        set: &VrpSet,
        until: Option<u64>,
    ) -> Result<(), TakeSetFault>
        ensures goes { Continues S.holds T.remaining T.contents self.old self.new }
        ensures takes { TakesSo result self.old self.new }
        ensures set { SetTaken set.now until list result self.old.sources self.new.sources }
        ensures rest { OnlySources self.old self.new }
    {
        self.sources.take_set(list, set, until)?;
        self.is_pending = true;
        Ok(())
    }

    /// Empties `list` (from 0), and returns whether there is such a list. A version is pending in either case.
    pub fn drop_set(&mut self, list: usize) -> bool
        ensures goes { Continues S.holds T.remaining T.contents self.old self.new }
        ensures pending { self.new.is_pending ≡ true }
        ensures drops { SetDropped list result self.old.sources self.new.sources }
        ensures rest { OnlySources self.old self.new }
    {
        self.is_pending = true;
        self.sources.drop_set(list)
    }

    /// Replaces the local exceptions by those of one SLURM file (RFC 8416). `Ok`: a version is pending.
    /// `Err`: the bytes are not a SLURM file, or memory ran out. Then nothing changes.
    pub fn take_slurm(&mut self, bytes: &[u8]) -> Result<(), SlurmFault>
        ensures goes { Continues S.holds T.remaining T.contents self.old self.new }
        ensures takes { TakesSo result self.old self.new }
        ensures exceptions { SlurmTaken bytes.now result self.old.sources self.new.sources }
        ensures rest { OnlySources self.old self.new }
    {
        self.sources.take_slurm(bytes)?;
        self.is_pending = true;
        Ok(())
    }

    /// Replaces the local exceptions by those of several SLURM files together. No two files may overlap (RFC 8416 section 4.2).
    /// If `files` is empty, there are no exceptions. `Ok`: a version is pending.
    /// `Err(File)`: the first file that is not a SLURM file. `Err(Unite)`: the files cannot be used together. Either may be that memory ran out.
    /// Then nothing changes.
    pub fn take_slurms(&mut self, files: &[Vec<u8>]) -> Result<(), SlurmSetFault>
        ensures goes { Continues S.holds T.remaining T.contents self.old self.new }
        ensures takes { TakesSo result self.old self.new }
        ensures exceptions { SlurmsTaken (map (λ f. f.items) files.now) result self.old.sources self.new.sources }
        ensures rest { OnlySources self.old self.new }
    {
        self.sources.take_slurms(files)?;
        self.is_pending = true;
        Ok(())
    }

    /// Makes a version pending: payloads of publication points expire by the clock, so the set may have changed.
    pub(crate) fn set_pending(&mut self)
        ensures goes { Continues S.holds T.remaining T.contents self.old self.new }
        ensures pending { self.new.is_pending ≡ true }
        ensures rest { self.new ≡ record self.old { is_pending = true } }
    {
        self.is_pending = true;
    }

    /// Judges which records have expired at `now`, in seconds since 1970. A version is pending if a record of a file has expired since the
    /// newest version, and in any case if there are publication points. Returns whether more or fewer records may have expired than at the
    /// second that was judged before.
    pub(crate) fn judge_expiry(&mut self, now: u64) -> bool
        ensures goes { Continues S.holds T.remaining T.contents self.old self.new }
        ensures fresh { IsFresh (λ at. at ≡ now) self.new }
        ensures same { result ≡ false → SameExpired self.old.judged_at now self.old.sources.lists.items }
        ensures judged { self.new.judged_at ≡ now }
        ensures rest { self.new ≡ record self.old { is_pending = self.new.is_pending; current_at = self.new.current_at; judged_at = self.new.judged_at } }
    {
        let from = self.judged_at.min(self.current_at).min(now);
        let to = self.judged_at.max(self.current_at).max(now);
        let ends = is_any_ended(&self.sources, from, to);
        self.judged_at = now;
        if !ends && self.is_current_if_none_ended(now) {
            self.current_at = now;
        } else {
            self.is_pending = true;
        }
        ends
    }

    /// Whether there are no publication points, and this second is one of the calendar.
    fn is_current_if_none_ended(&self, now: u64) -> bool
        ensures points { result ≡ true → self.now.has_points ≡ false }
        ensures moment { result ≡ true → (m : CivilMoment) × (seconds_of m ≡ now) }
    {
        !self.has_points && moment_at(now).is_some()
    }

    /// Offers the content of a directory to the publication point of its name, at `now`, in seconds since 1970. A version is pending then, also
    /// after an `Err`. `Ok(New)`: the point holds the content now. `Ok(Same)`: the point already holds its manifest. `Err(Point)`: the point
    /// refuses it, or memory ran out. `Err(Clock)`: `now` is not within the years 1970 to 9999. On an `Err` the sources do not change.
    pub fn offer(
        &mut self,
        directory: &Directory<'_>,
        alloc: Global,
        now: u64,
    ) -> Result<Offered, Refusal>
        ensures goes { Continues S.holds T.remaining T.contents self.old self.new }
        ensures rest { OnlySources self.old self.new }
        ensures offers { OffersTo directory.now now result self.old.sources self.new.sources }
    {
        self.is_pending = true;
        self.has_points = true;
        let Some(moment) = moment_at(now) else {
            return Err(Refusal::Clock);
        };
        let Ok(files) = directory.files(alloc) else {
            return Err(Refusal::Point(PointFault::Memory));
        };
        match self.sources.offer(
            directory.name(),
            directory.manifest(),
            files.as_slice(),
            moment,
        ) {
            Ok(offered) => Ok(offered),
            Err(fault) => Err(Refusal::Point(fault)),
        }
    }

    /// The set of the sources at a time in seconds since 1970.
    pub(crate) fn served(&self, now: u64) -> Result<ServedSet, Refusal>
        ensures served { IfOk result (λ served. IsServedAt now self.now.sources served.set) }
        ensures fails { IfErr result (λ refusal. IsReason now self.now.sources refusal) }
    {
        let Some(moment) = moment_at(now) else {
            return Err(Refusal::Clock);
        };
        match self.sources.served(moment) {
            Ok(served) => Ok(served),
            Err(fault) => Err(Refusal::Set(fault)),
        }
    }
}

/// Whether a record of a file ends between two seconds since 1970. Each file is walked once.
fn is_any_ended(sources: &Sources, from: u64, to: u64) -> bool
    ensures { result ≡ false → NoneEnds from to sources.now.lists.items }
{
    for file in 0..sources.files() {
        if sources.ends_between(file, from, to) {
            return true;
        }
    }
    false
}
