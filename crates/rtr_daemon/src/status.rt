//! The status of a daemon, as its pages and metrics show it.
ghost use Rattle.std.specs.Prelude.{◌≡◌, ◌-◌, IfOk, None, OnOk, false, is_some, option_map, slice_get};
ghost use Rattle.rtr_server.specs.Clients.{Past, present};
ghost use Rattle.sources.specs.Served.{records_of};
ghost use Rattle.vrps.specs.Instance.{versions};
ghost use Rattle.vrps.specs.Stores.{newest};
ghost use Rattle.rtr_daemon.specs.NotServed.{entries_of, exceptions_of};
ghost use Rattle.rtr_daemon.specs.Serving.{ShowsService};
ghost use Rattle.rtr_daemon.specs.Statuses.{AddsExports, AddsPoints, AddsSlurms};
ghost use Rattle.rtr_daemon.specs.Statuses.{IsDaemonStatus, IsExportStatus, IsFailureStatus, IsFileStatus, AreFileStatuses, IsPointStatus, IsSetStatus, IsSlurmStatus};

use crate::ages::built_of;
use crate::client_entry::ClientEntry;
use crate::clients::{ClientCounters, number_of};
use crate::daemon::Daemon;
use crate::point_polling::WatchedPoint;
use crate::refusal::Refusal;
use crate::statistics::{Failure, TrafficTotals, total};
use crate::watched_file::{WatchedExport, WatchedFile};
use exports::Ignored;
use rtr_server::Stream;
use slurm::Ignored as IgnoredExceptions;
use status_pages::{
    ClientStatus, ClientTraffic, FileStatus, IgnoredEntries, LostLines, PublicationFailure, Status,
};
use std::alloc::{AllocError, Global};
use vrps::{Serial, VersionStore};

impl<S: VersionStore, T: Stream + Drop> Daemon<S, T> {
    /// Returns the status of the daemon for the status pages. `version` is the version of the program.
    /// `now` is in seconds since 1970, `millis` in milliseconds of the monotonic clock. `Err`: out of memory.
    /// The caller fills in `host`, `addresses` and `log_lines_lost`: they are `None`, empty and 0.
    pub fn status(&self, version: &'static str, now: u64, millis: u64) -> Result<Status, AllocError>
        ensures set { IfOk result (λ status. (p : Past) → ShowsService S.holds T.remaining T.contents p self.now.service → IsSetStatus p status) }
        ensures all { IfOk result (IsDaemonStatus now self.now) }
    {
        let traffic = self.traffic();
        let mut status = self.source_status(now)?;
        status.version = version;
        status.changes = self.statistics.changes(self.alloc)?;
        status.clients = self.client_statuses(now, millis)?;
        status.received = traffic.received.shown();
        status.sent = traffic.sent.shown();
        Ok(status)
    }

    /// The status without versions, clients and their traffic.
    pub(crate) fn source_status(&self, now: u64) -> Result<Status, AllocError>
        ensures set { IfOk result (λ status. (p : Past) → ShowsService S.holds T.remaining T.contents p self.now.service → IsSetStatus p status) }
        ensures all { IfOk result (IsDaemonStatus now self.now) }
    {
        let traffic = TrafficTotals::none();
        Ok(Status {
            version: "",
            host: None,
            addresses: Vec::new(self.alloc),
            now,
            started: self.started,
            clock_behind: self.clock_behind,
            session: self.service.server().version_store().session(),
            session0: self.service.session0,
            serial: self.serial(),
            ipv4: self.service.families.ipv4,
            ipv6: self.service.families.ipv6,
            given: self.statistics.given,
            left_out: self.statistics.left_out,
            peak: self.statistics.peaks.most(now),
            changes: Vec::new(self.alloc),
            files: self.file_statuses(now)?,
            max_age: self.plan.max_age,
            clients: Vec::new(self.alloc),
            client_limit: self.service.settings.clients as u64,
            clients_ever: self.statistics.clients,
            clients_refused: self.statistics.clients_refused,
            turned_away: self.statistics.turned_away,
            clients_stalled: self.statistics.clients_stalled,
            error_reports: self.statistics.error_reports,
            received: traffic.received.shown(),
            sent: traffic.sent.shown(),
            reloads_taken: self.statistics.loaded,
            reloads_refused: self.statistics.refused,
            reload_milliseconds: self.statistics.load_millis,
            publications_failed: self.statistics.failures,
            publication_failure: failure_status(self.alloc, &self.statistics.failure)?,
            log_lines_lost: LostLines {
                dropped: 0,
                suppressed: 0,
            },
        })
    }

    /// The serial of the served version.
    fn serial(&self) -> Option<u32>
        ensures { (p : Past) → ShowsService S.holds T.remaining T.contents p self.now.service → result ≡ option_map (λ v. v.serial) (newest (versions (present p).cache)) }
    {
        match self.service.server().current() {
            Some((serial, _set)) => Some(number_in(serial)),
            None => None,
        }
    }

    /// The traffic of all connections since the start.
    fn traffic(&self) -> TrafficTotals {
        let mut sum = self.statistics.gone;
        for entry in self.clients.iter() {
            sum = with_counters(sum, &self.counters(entry.client));
        }
        sum
    }

    /// The status of all files and publication points.
    fn file_statuses(&self, now: u64) -> Result<Vec<FileStatus>, AllocError>
        ensures { IfOk result (λ status. AreFileStatuses now self.now status.items) }
    {
        let mut found = Vec::new(self.alloc);
        self.add_exports(&mut found, now)?;
        self.add_slurms(&mut found)?;
        self.add_points(&mut found)?;
        Ok(found)
    }

    /// Adds the status of each export.
    fn add_exports(&self, found: &mut Vec<FileStatus>, now: u64) -> Result<(), AllocError>
        ensures { OnOk result (AddsExports now self.now found.old.items found.new.items) }
    {
        for export in self.exports.iter() {
            found.push(self.export_status(export, now)?)?;
        }
        Ok(())
    }

    /// Adds the status of each file of local exceptions.
    fn add_slurms(&self, found: &mut Vec<FileStatus>) -> Result<(), AllocError>
        ensures { OnOk result (AddsSlurms self.now found.old.items found.new.items) }
    {
        for (at, slurm) in self.slurms.iter().enumerate() {
            found.push(self.slurm_status(slurm, at)?)?;
        }
        Ok(())
    }

    /// Adds the status of each publication point.
    fn add_points(&self, found: &mut Vec<FileStatus>) -> Result<(), AllocError>
        ensures { OnOk result (AddsPoints self.now found.old.items found.new.items) }
    {
        for point in self.points.iter() {
            found.push(point_status(self.alloc, point)?)?;
        }
        Ok(())
    }

    /// The status of an export.
    fn export_status(&self, export: &WatchedExport, now: u64) -> Result<FileStatus, AllocError>
        ensures { IfOk result (IsExportStatus now self.now export.now) }
    {
        let mut status = file_status(self.alloc, &export.file, self.plan.max_size)?;
        status.built = built_of(export, self.service.sources(), now);
        status.is_old = export.is_old;
        status.expired = export.all_expired();
        status.vrps = self.vrps_of(export);
        status.anchors = export
            .anchors
            .shown(self.alloc, self.service.sources(), export.number, now)?;
        let ignored = self.service.sources().ignored(export.number);
        status.ignored = if_loaded(&export.file, entries_of(ignored));
        Ok(status)
    }

    /// The status of the file of local exceptions of this index.
    fn slurm_status(&self, slurm: &WatchedFile, index: usize) -> Result<FileStatus, AllocError>
        ensures { IfOk result (IsSlurmStatus self.now index slurm.now) }
    {
        let mut status = file_status(self.alloc, slurm, self.plan.max_size)?;
        let ignored = self.service.sources().ignored_exceptions(index);
        status.ignored = if_loaded(slurm, exceptions_of(ignored));
        Ok(status)
    }

    /// How many VRPs an export gives, as of the last poll, if it was loaded.
    fn vrps_of(&self, export: &WatchedExport) -> Option<u64>
        ensures { result ≡ option_map (λ _. records_of (slice_get self.now.service.sources.lists.items export.now.number) - export.now.expired_since) export.now.file.loaded_at }
    {
        export.file.loaded_at?;
        let records = self.service.sources().records(export.number);
        Some(records.saturating_sub(export.expired_since))
    }

    /// The status of all clients.
    fn client_statuses(&self, now: u64, millis: u64) -> Result<Vec<ClientStatus>, AllocError> {
        let mut found = Vec::new(self.alloc);
        for entry in self.clients.iter() {
            found.push(self.client_status(entry, now, millis))?;
        }
        Ok(found)
    }

    fn client_status(&self, entry: &ClientEntry, now: u64, millis: u64) -> ClientStatus {
        let counters = self.counters(entry.client);
        let carried = counters.carried.unwrap_or(entry.carried);
        ClientStatus {
            address: entry.address,
            version: counters.version.map(number_of),
            serial: self
                .service
                .server()
                .last_serial(entry.client)
                .map(number_in),
            since: now.saturating_sub(millis.saturating_sub(entry.came) / 1000),
            received: ClientTraffic {
                bytes: carried.read,
                pdus: counters.received.map(total).unwrap_or(0),
            },
            sent: ClientTraffic {
                bytes: carried.written,
                pdus: counters.sent.map(total).unwrap_or(0),
            },
        }
    }
}

/// A sum, plus the counters of one more client.
pub(crate) fn with_counters(sum: TrafficTotals, counters: &ClientCounters) -> TrafficTotals {
    match (counters.carried, counters.received, counters.sent) {
        (Some(carried), Some(received), Some(sent)) => sum.and(carried, received, sent),
        _ => sum,
    }
}

/// The entries of an export that are not served.
fn entries_of(ignored: Ignored) -> IgnoredEntries
    ensures { result ≡ entries_of ignored }
{
    let Ignored { aspas, router_keys } = ignored;
    IgnoredEntries::Export { aspas, router_keys }
}

/// The entries of a file of local exceptions that are not applied.
fn exceptions_of(ignored: IgnoredExceptions) -> IgnoredEntries
    ensures { result ≡ exceptions_of ignored }
{
    let IgnoredExceptions {
        bgpsec_filters,
        bgpsec_assertions,
    } = ignored;
    IgnoredEntries::Slurm {
        bgpsec_filters,
        bgpsec_assertions,
    }
}

/// The entries of a file that are not served, if it was loaded.
fn if_loaded(file: &WatchedFile, ignored: IgnoredEntries) -> Option<IgnoredEntries>
    ensures { result ≡ option_map (λ _. ignored) file.now.loaded_at }
{
    let _loaded_at = file.loaded_at?;
    Some(ignored)
}

/// The status of a file without age and expiry, as are those of local exceptions.
fn file_status(alloc: Global, file: &WatchedFile, max_size: u64) -> Result<FileStatus, AllocError>
    ensures file { IfOk result (IsFileStatus max_size file.now) }
    ensures rest { IfOk result (λ status. (status.built ≡ None) × (status.is_old ≡ false) × (status.expired ≡ 0) × (status.vrps ≡ None)) }
{
    Ok(FileStatus {
        path: file.path.clone()?,
        built: None,
        taken: file.loaded_at,
        refusal: refusal_text(alloc, file.refusals.reported())?,
        refused_at: file.refusals.reported_at(),
        is_old: false,
        expired: 0,
        vrps: None,
        ignored: None,
        slow: file.slow,
        near_limit: file.near_limit(max_size),
        anchors: Vec::new(alloc),
    })
}

/// The status of publications, if the last one failed.
fn failure_status(
    alloc: Global,
    failure: &Option<Failure>,
) -> Result<Option<PublicationFailure>, AllocError>
    ensures { IfOk result (IsFailureStatus failure.now) }
{
    match failure {
        None => Ok(None),
        Some(failure) => Ok(Some(PublicationFailure {
            since: failure.since,
            reason: failure.why.to_string(alloc)?,
        })),
    }
}

fn point_status(alloc: Global, point: &WatchedPoint) -> Result<FileStatus, AllocError>
    ensures { IfOk result (IsPointStatus point.now) }
{
    Ok(FileStatus {
        path: point.path.clone()?,
        built: None,
        taken: point.loaded_at,
        refusal: refusal_text(alloc, point.refusals.reported())?,
        refused_at: point.refusals.reported_at(),
        is_old: false,
        expired: point.expired,
        vrps: if point.expired > 0 { Some(0) } else { None },
        ignored: None,
        slow: point.slow,
        near_limit: None,
        anchors: Vec::new(alloc),
    })
}

fn refusal_text(alloc: Global, refusal: Option<&Refusal>) -> Result<Option<String>, AllocError>
    ensures { IfOk result (λ text. is_some text ≡ is_some refusal.entry) }
{
    match refusal {
        None => Ok(None),
        Some(refusal) => Ok(Some(refusal.to_string(alloc)?)),
    }
}

fn number_in(serial: Serial) -> u32
    ensures { result ≡ serial.0 }
{
    serial.0
}
