//! The statistics of a daemon since its start.
ghost use Rattle.std.specs.Prelude.{◌≡◌, None, Some, option_map};
ghost use Rattle.rtr_daemon.specs.Due.{IsKept};
ghost use Rattle.rtr_daemon.specs.Parting.{and_report, and_reports};
ghost use Rattle.rtr_daemon.specs.Peaks.{turned_away_at};
ghost use Rattle.rtr_server.specs.Reports.{Said};

use crate::peaks::{Peaks, turned_away_at};
use crate::refusal::Refusal;
use crate::versions::PublishReport;
use rtr_pdu::Kind;
use rtr_server::{ByteCounts, Parted, PdusByKind, Report};
use status_pages::{
    ChangeStatus, ClientLimit, ErrorReports, PdusByType, ReportsByCode, TotalTraffic, TurnedAway,
};
use std::alloc::{AllocError, Global};
use std::collections::VecDeque;

/// How many of the last versions are listed.
const CHANGES: usize = 64;

/// The types of PDUs, in the order of the fields of `PdusByType`.
const KINDS: [Kind; 10] = [
    Kind::SerialNotify,
    Kind::SerialQuery,
    Kind::ResetQuery,
    Kind::CacheResponse,
    Kind::Ipv4Prefix,
    Kind::Ipv6Prefix,
    Kind::EndOfData,
    Kind::CacheReset,
    Kind::RouterKey,
    Kind::ErrorReport,
];

/// The traffic of connections in one direction: bytes, and PDUs by their type, in the order of `KINDS`.
#[derive(Clone, Copy, Debug, PartialEq, Eq)]
pub(crate) struct Traffic {
    bytes: u64,
    pdus: [u64; 10],
}

impl Traffic {
    /// With this many bytes and these PDUs more.
    fn and(self, bytes: u64, pdus: PdusByKind) -> Traffic {
        let mut sum = self.pdus;
        for (index, count) in counts_of(pdus).iter().enumerate() {
            sum[index] = sum[index].saturating_add(*count);
        }
        Traffic {
            bytes: self.bytes.saturating_add(bytes),
            pdus: sum,
        }
    }

    /// The counts by name, as the status shows them.
    pub(crate) fn shown(self) -> TotalTraffic {
        let [
            serial_notify,
            serial_query,
            reset_query,
            cache_response,
            ipv4_prefix,
            ipv6_prefix,
            end_of_data,
            cache_reset,
            router_key,
            error_report,
        ] = self.pdus;
        TotalTraffic {
            bytes: self.bytes,
            pdus: PdusByType {
                serial_notify,
                serial_query,
                reset_query,
                cache_response,
                ipv4_prefix,
                ipv6_prefix,
                end_of_data,
                cache_reset,
                router_key,
                error_report,
            },
        }
    }
}

/// The traffic of all connections, in both directions.
#[derive(Clone, Copy, Debug, PartialEq, Eq)]
pub(crate) struct TrafficTotals {
    pub(crate) received: Traffic,
    pub(crate) sent: Traffic,
}

impl TrafficTotals {
    /// No traffic.
    pub(crate) fn none() -> TrafficTotals {
        let none = Traffic {
            bytes: 0,
            pdus: [0; 10],
        };
        TrafficTotals {
            received: none,
            sent: none,
        }
    }

    /// With the traffic of one more connection.
    pub(crate) fn and(
        self,
        carried: ByteCounts,
        received: PdusByKind,
        sent: PdusByKind,
    ) -> TrafficTotals {
        TrafficTotals {
            received: self.received.and(carried.read, received),
            sent: self.sent.and(carried.written, sent),
        }
    }
}

/// The counters of a daemon, and its last versions.
#[derive(Debug, Drop)]
pub(crate) struct Statistics {
    changes: VecDeque<ChangeStatus>,
    /// How many VRPs the newest version has.
    size: u64,
    /// How many clients were admitted.
    pub(crate) clients: u64,
    /// The traffic of closed connections.
    pub(crate) gone: TrafficTotals,
    /// How many VRPs the sources give together, before local exceptions are applied, as of the newest version.
    pub(crate) given: u64,
    /// The sizes of the versions of the last 24 hours.
    pub(crate) peaks: Peaks,
    /// The clients that were disconnected on arrival last.
    pub(crate) turned_away: Option<TurnedAway>,
    /// How many records of length 0 are left out.
    pub(crate) left_out: u64,
    /// How many times a file was loaded.
    pub(crate) loaded: u64,
    /// How many times the refusal of a file was reported.
    pub(crate) refused: u64,
    /// How many milliseconds the last load took.
    pub(crate) load_millis: Option<u64>,
    /// How many clients were disconnected on arrival.
    pub(crate) clients_refused: u64,
    /// How many clients were disconnected as they accepted no byte.
    pub(crate) clients_stalled: u64,
    /// The last Error Reports of closed clients.
    pub(crate) error_reports: ErrorReports,
    /// How many publications failed.
    pub(crate) failures: u64,
    /// The last publication, if it failed.
    pub(crate) failure: Option<Failure>,
}

/// A publication that failed: since when publications fail, in seconds since 1970, and why the last one failed.
#[derive(Debug, Drop)]
pub(crate) struct Failure {
    pub(crate) since: u64,
    pub(crate) why: Refusal,
}

impl Statistics {
    pub(crate) fn new(alloc: Global) -> Result<Statistics, AllocError> {
        Ok(Statistics {
            changes: VecDeque::with_capacity(alloc, CHANGES)?,
            size: 0,
            clients: 0,
            gone: TrafficTotals::none(),
            given: 0,
            peaks: Peaks::new(alloc),
            turned_away: None,
            left_out: 0,
            loaded: 0,
            refused: 0,
            load_millis: None,
            clients_refused: 0,
            clients_stalled: 0,
            error_reports: ErrorReports::NONE,
            failures: 0,
            failure: None,
        })
    }

    /// A client was disconnected on arrival, by this limit.
    pub(crate) fn count_refused_client(&mut self, limit: ClientLimit, now: u64)
        ensures { self.new.turned_away ≡ Some (turned_away_at now limit self.old.turned_away) }
    {
        self.clients_refused = self.clients_refused.saturating_add(1);
        self.turned_away = Some(turned_away_at(now, limit, self.turned_away));
    }

    /// A client was disconnected as it accepted no byte.
    pub(crate) fn count_stalled_client(&mut self) {
        self.clients_stalled = self.clients_stalled.saturating_add(1);
    }

    /// Counts the last Error Reports of a client that was closed.
    pub(crate) fn count_reports(&mut self, parted: Option<Parted>)
        ensures { self.new ≡ record self.old { error_reports = and_reports parted self.old.error_reports } }
    {
        let Some(parted) = parted else {
            return;
        };
        let received = code_of(&parted.received_report);
        self.error_reports = ErrorReports {
            received: and_report(self.error_reports.received, received),
            sent: and_report(self.error_reports.sent, parted.sent_report),
        };
    }

    /// A publication failed at this time.
    pub(crate) fn note_failure(&mut self, why: Refusal, now: u64)
        ensures { IsKept why self.new.failure }
    {
        let since = match &self.failure {
            Some(failure) => failure.since,
            None => now,
        };
        self.failures = self.failures.saturating_add(1);
        self.failure = Some(Failure { since, why });
    }

    /// A publication succeeded.
    pub(crate) fn end_failure(&mut self)
        ensures { self.new ≡ record self.old { failure = None } }
    {
        self.failure = None;
    }

    /// A client was admitted.
    pub(crate) fn count_client(&mut self) {
        self.clients = self.clients.saturating_add(1);
    }

    /// Notes how many records are left out. Returns whether the number has changed.
    pub(crate) fn set_left_out(&mut self, records: u64) -> bool
        ensures { self.new ≡ record self.old { left_out = records } }
    {
        let is_news = self.left_out != records;
        self.left_out = records;
        is_news
    }

    /// A file was loaded within this many milliseconds.
    pub(crate) fn count_load(&mut self, milliseconds: u64) {
        self.loaded = self.loaded.saturating_add(1);
        self.load_millis = Some(milliseconds);
    }

    /// The refusal of a file was reported.
    pub(crate) fn count_refusal(&mut self) {
        self.refused = self.refused.saturating_add(1);
    }

    /// The served version was served until now. If memory runs out, it is left out of the peaks.
    fn end_version(&mut self, until: u64) -> Result<(), AllocError>
        ensures { self.new ≡ record self.old { peaks = self.new.peaks } }
    {
        if self.changes.is_empty() {
            return Ok(());
        }
        self.peaks.add(self.size, until)
    }

    /// All versions were dropped. It fails if memory runs out for the peaks.
    pub(crate) fn drop_versions(&mut self, until: u64) -> Result<(), AllocError>
        ensures { self.new ≡ record self.old { size = self.new.size; peaks = self.new.peaks } }
    {
        let ended = self.end_version(until);
        self.size = 0;
        ended
    }

    /// A version was published, with these counts. Only the last versions are kept. It fails if memory runs out for the peaks.
    pub(crate) fn add_version(
        &mut self,
        serial: u32,
        at: u64,
        report: PublishReport,
    ) -> Result<(), AllocError>
        ensures { self.new ≡ record self.old { changes = self.new.changes; size = self.new.size; peaks = self.new.peaks } }
    {
        let ended = self.end_version(at);
        self.size = report.records;
        if self.changes.len() >= CHANGES {
            let _oldest = self.changes.pop_front();
        }
        let _ = self.changes.push_back(ChangeStatus {
            serial,
            at,
            announced: report.announced,
            withdrawn: report.withdrawn,
            records: report.records,
        });
        ended
    }

    /// The last versions, the oldest first.
    pub(crate) fn changes(&self, alloc: Global) -> Result<Vec<ChangeStatus>, AllocError> {
        let mut found = Vec::with_capacity(alloc, self.changes.len())?;
        for change in self.changes.iter() {
            found.push(*change)?;
        }
        Ok(found)
    }
}

/// The code of a report, if there is one.
fn code_of(report: &Option<Report>) -> Option<u16>
    ensures { result ≡ option_map (λ (said : Said). said.code) report.now }
{
    match report {
        None => None,
        Some(report) => Some(report.code()),
    }
}

/// One Error Report more, if there is one.
fn and_report(counts: ReportsByCode, code: Option<u16>) -> ReportsByCode
    ensures { result ≡ and_report code counts }
{
    let Some(code) = code else {
        return counts;
    };
    let mut counts = counts;
    let place = usize::from(code);
    if place < counts.known.len() {
        counts.known[place] = counts.known[place].saturating_add(1);
    } else {
        counts.others = counts.others.saturating_add(1);
    }
    counts
}

/// How many PDUs there are of all types.
pub(crate) fn total(pdus: PdusByKind) -> u64 {
    counts_of(pdus)
        .iter()
        .fold(0u64, |sum, count| sum.saturating_add(*count))
}

/// How many PDUs there are of each type, in the order of `KINDS`.
fn counts_of(pdus: PdusByKind) -> [u64; 10] {
    KINDS.map(|kind| pdus.of(kind))
}
