//! The start of a daemon: all sources are read before it serves.
ghost use Rattle.std.specs.Prelude.{◌≡◌, ℕ, All, IfOk, None, Ok, false, map};
ghost use Rattle.points.specs.InUse.{no_points};
ghost use Rattle.sources.specs.Served.{NoneTaken};
ghost use Rattle.rtr_server.specs.Clients.{Begun};
ghost use Rattle.rtr_daemon.specs.Files.{AreNumbered, LoadsEach, LoadsOne, mark_of, marks_of, names_of};
ghost use Rattle.rtr_daemon.specs.PointOffers.{OffersEach, OffersPoint, points_of};
ghost use Rattle.std.specs.String.{string_bytes};
ghost use Rattle.rtr_daemon.specs.Origins.{SourcesComeFrom};
ghost use Rattle.rtr_daemon.specs.Serving.{Continues, LeadsToService, past_of};
ghost use Rattle.rtr_daemon.specs.Starting.{Begins, ReadsAll, Watches};

use crate::accepting::Listeners;
use crate::cache_settings::CacheSettings;
use crate::client_table::ClientTable;
use crate::daemon::{Daemon, Paths, Plan};
use crate::environment::{Disk, EventLog, Time};
use crate::losing::Readings;
use crate::point_polling::{WatchedPoint, offer};
use crate::polling::{log_expired, log_near_limit, log_not_served, take};
use crate::refusal::{Refusal, StartFault};
use crate::service::Service;
use crate::set_changes::StepStore;
use crate::slurm_polling::read_slurms;
use crate::statistics::Statistics;
use crate::unwell::UnwellReasons;
use crate::watched_file::{Look, WatchedExport, WatchedFile};
use rtr_server::Stream;
use session_names::SessionIds;
use sources::Sources;
use std::alloc::{AllocError, Global};
use vrps::VersionStore;

impl<S: StepStore + Drop, T: Stream + Drop> Daemon<S, T> {
    /// Creates a daemon with a new cache without versions, and loads all sources: exports, local exceptions, publication points.
    /// `session_ids` has the session IDs and the serial of the first version.
    /// A turn publishes the first version, in a later second than that of the start. No router is admitted before.
    ///
    /// `Err`: the first source that is refused with the reason, or memory ran out.
    pub fn open<W: Disk + Time + EventLog>(
        alloc: Global,
        plan: Plan,
        settings: CacheSettings,
        session_ids: SessionIds,
        sources: Paths,
        env: &mut W,
    ) -> Result<Daemon<S, T>, StartFault>
        ensures begins { IfOk result (λ daemon. Begins W.can_be W.can_tick plan daemon) }
        ensures watches { IfOk result (λ daemon. Watches sources daemon) }
        ensures reads { IfOk result (λ daemon. ReadsAll W.answers plan daemon) }
        ensures leads { IfOk result (λ daemon. (begun : ℕ → Begun) → LeadsToService W.can_be S.holds T.remaining T.contents (past_of settings session_ids begun) daemon.service) }
        ensures comes { IfOk result (λ daemon. SourcesComeFrom W.answers W.can_be daemon) }
        ensures closed { IfOk result (λ daemon. daemon.is_ready ≡ false) }
        ensures planned { IfOk result (λ daemon. (daemon.plan ≡ plan) × (daemon.service.settings.timing ≡ settings.timing) × (daemon.session_ids ≡ session_ids)) }
    {
        let now = env.seconds();
        let millis = env.millis();
        let Paths {
            files,
            slurms,
            points,
        } = sources;
        let held = sources_of(alloc, files.len(), &plan)?;
        let mut service = Service::after(now, alloc, settings, session_ids, held)?;
        let mut exports = watched_exports(alloc, files)?;
        let mut slurms = watched_slurms(alloc, slurms)?;
        let mut offered = watched_points(alloc, points)?;
        read_all(&mut exports, &mut service, plan.max_size, alloc, now, env)?;
        read_slurms(&mut slurms, &mut service, plan.max_size, alloc, now, env)?;
        read_points(&mut offered, &mut service, alloc, now, env)?;
        let listeners = Listeners::new(alloc, plan.listeners)?;
        let statistics = Statistics::new(alloc)?;
        let mut daemon = Daemon {
            alloc,
            plan,
            session_ids,
            service,
            clients: ClientTable::new(alloc),
            listeners,
            readings: Readings::new(),
            exports,
            slurms,
            points: offered,
            statistics,
            started: now,
            opened: millis,
            is_ready: false,
            has_parted: false,
            has_closed: false,
            is_old: false,
            unwell: UnwellReasons::new(alloc),
            clock_behind: 0,
            next_check: millis.saturating_add(plan.check),
            next_round: millis,
            held_until: millis,
            failing: None,
        };
        daemon.judge_ages(env);
        Ok(daemon)
    }
}

/// Sources of this many files, of which none is loaded.
fn sources_of(alloc: Global, files: usize, plan: &Plan) -> Result<Sources, AllocError>
    ensures empty { IfOk result (λ s. (s.exceptions ≡ None) × (s.repository ≡ no_points) × NoneTaken files s.lists.items) }
    ensures planned { IfOk result (λ s. (s.leaves_out ≡ plan.now.leaves_out_length_0) × (s.max_age ≡ plan.now.max_age)) }
{
    let mut sources = Sources::new(alloc, files)?;
    if plan.leaves_out_length_0 {
        sources.leave_out_length_0();
    }
    if let Some(age) = plan.max_age {
        sources.set_max_age(age);
    }
    Ok(sources)
}

fn watched_exports(alloc: Global, paths: Vec<String>) -> Result<Vec<WatchedExport>, AllocError>
    ensures numbered { IfOk result (λ exports. AreNumbered exports.items) }
    ensures paths { IfOk result (λ exports. map (λ e. e.file.path) exports.items ≡ paths.items) }
{
    let mut exports = Vec::new(alloc);
    for path in paths {
        let number = exports.len();
        exports.push(WatchedExport::new(alloc, path, number))?;
    }
    Ok(exports)
}

fn watched_slurms(alloc: Global, paths: Vec<String>) -> Result<Vec<WatchedFile>, AllocError>
    ensures paths { IfOk result (λ files. map (λ f. f.path) files.items ≡ paths.items) }
    ensures refusals { IfOk result (λ files. All (λ f. f.refusals.last ≡ None) files.items) }
{
    let mut slurms = Vec::new(alloc);
    for path in paths {
        slurms.push(WatchedFile::new(path))?;
    }
    Ok(slurms)
}

fn watched_points(alloc: Global, paths: Vec<String>) -> Result<Vec<WatchedPoint>, AllocError>
    ensures { IfOk result (λ points. map (λ p. p.path) points.items ≡ paths.items) }
{
    let mut offered = Vec::new(alloc);
    for path in paths {
        offered.push(WatchedPoint::new(path))?;
    }
    Ok(offered)
}

/// Reads and loads each export.
fn read_all<S: VersionStore, T: Stream + Drop, W: Disk + EventLog>(
    exports: &mut Vec<WatchedExport>,
    service: &mut Service<S, T>,
    max_size: u64,
    alloc: Global,
    now: u64,
    env: &mut W,
) -> Result<(), StartFault>
    ensures goes { Continues S.holds T.remaining T.contents service.old service.new }
    ensures loads { IfOk result (λ _. LoadsEach W.answers now exports.old.items (marks_of exports.new.items) service.old.sources service.new.sources) }
    ensures names { IfOk result (λ _. names_of exports.new.items ≡ names_of exports.old.items) }
{
    for export in exports.iter_mut() {
        read_export(export, service, max_size, alloc, now, env)?;
    }
    Ok(())
}

/// Reads and loads an export at the start, and reports how many of its entries had expired.
fn read_export<S: VersionStore, T: Stream + Drop, W: Disk + EventLog>(
    export: &mut WatchedExport,
    service: &mut Service<S, T>,
    max_size: u64,
    alloc: Global,
    now: u64,
    env: &mut W,
) -> Result<(), StartFault>
    ensures goes { Continues S.holds T.remaining T.contents service.old service.new }
    ensures loads { IfOk result (λ _. (expired : ℕ) × LoadsOne W.answers export.old now expired (mark_of export.new) service.old.sources service.new.sources) }
    ensures path { export.new.file.path ≡ export.old.file.path }
    ensures number { export.new.number ≡ export.old.number }
{
    let before = service.sources().ignored(export.number);
    match read_one(export, service, alloc, now, env) {
        Ok(expired) => {
            export.file.note_slow(env.slowest(), now);
            log_near_limit(&export.file, false, max_size, alloc, now, env);
            log_expired(export.path(), expired, now, env);
            let after = service.sources().ignored(export.number);
            log_not_served(export.path(), before, after, now, env);
            export
                .anchors
                .note_load(alloc, service.sources(), export.number, now, env);
            Ok(())
        }
        Err(refusal) => Err(StartFault::of(export.path(), alloc, refusal)),
    }
}

/// Reads and loads an export, and returns how many of its entries had expired. If it changes while it is read, it is read again.
/// `Err(Changing)`: it changed during each of 16 reads.
fn read_one<S: VersionStore, T: Stream + Drop, W: Disk>(
    export: &mut WatchedExport,
    service: &mut Service<S, T>,
    alloc: Global,
    now: u64,
    env: &mut W,
) -> Result<u64, Refusal>
    ensures goes { Continues S.holds T.remaining T.contents service.old service.new }
    ensures loads { IfOk result (λ expired. LoadsOne W.answers export.old now expired (mark_of export.new) service.old.sources service.new.sources) }
    ensures path { export.new.file.path ≡ export.old.file.path }
    ensures number { export.new.number ≡ export.old.number }
{
    for _time in 0..16u8 {
        match export.file.look(env, false) {
            Look::Unchanged | Look::Unstable | Look::RefusedBefore => {}
            Look::Failed(error) => return Err(Refusal::Device(error)),
            Look::Read(stamp, bytes) => {
                let expired = take(service, export.number, bytes.as_slice(), alloc, now)?;
                let _ = export.set_loaded(stamp, now, expired);
                return Ok(expired);
            }
        }
    }
    Err(Refusal::Changing)
}

fn read_points<S: VersionStore, T: Stream + Drop, W: Disk>(
    points: &mut Vec<WatchedPoint>,
    service: &mut Service<S, T>,
    alloc: Global,
    now: u64,
    env: &mut W,
) -> Result<(), StartFault>
    ensures goes { Continues S.holds T.remaining T.contents service.old service.new }
    ensures offers { IfOk result (λ _. OffersEach W.answers (λ at. at ≡ now) points.old.items service.old.sources service.new.sources) }
    ensures paths { IfOk result (λ _. points_of points.new.items ≡ points_of points.old.items) }
{
    for point in points.iter_mut() {
        read_point(point, service, alloc, now, env)?;
    }
    Ok(())
}

/// Offers a directory at the start.
fn read_point<S: VersionStore, T: Stream + Drop, W: Disk>(
    point: &mut WatchedPoint,
    service: &mut Service<S, T>,
    alloc: Global,
    now: u64,
    env: &mut W,
) -> Result<(), StartFault>
    ensures goes { Continues S.holds T.remaining T.contents service.old service.new }
    ensures offers { OffersPoint W.answers (string_bytes point.old.path) now service.old.sources service.new.sources }
    ensures path { point.new.path ≡ point.old.path }
{
    match offer(service, point.path.as_str(), alloc, now, env) {
        Ok(held) => {
            let _ = point.set_accepted(held, now);
            point.note_slow(env.slowest(), now);
            Ok(())
        }
        Err(refusal) => Err(StartFault::of(point.path.as_str(), alloc, refusal)),
    }
}
