//! The source of the status pages of a small cache.
use bytes::Bytes;
use prefixes::Route;
use status_pages::{ErrorReports, LostLines, PdusByType, Status, TotalTraffic, Validity};
use status_server::{ListForm, StatusSource};
use std::alloc::{AllocError, Global};

/// A cache with an empty list.
#[derive(Drop)]
pub(crate) struct Source {
    alloc: Global,
    /// How many times the status was asked for.
    pub(crate) asked: u32,
}

impl Source {
    pub(crate) fn new(alloc: Global) -> Source {
        Source { alloc, asked: 0 }
    }
}

impl StatusSource for Source {
    fn now(&mut self) -> u64 {
        1_795_653_420
    }

    fn status(&mut self) -> Result<Status, AllocError> {
        self.asked = self.asked.saturating_add(1);
        Ok(status(self.alloc))
    }

    fn list(&mut self, form: ListForm) -> Result<Option<Bytes>, AllocError> {
        match form {
            ListForm::Payloads | ListForm::Roas => Ok(Some(Bytes::from_static(b"[]"))),
            ListForm::Csv | ListForm::RoutinatorCsv => Ok(None),
        }
    }

    fn validity(&mut self, _route: &Route) -> Result<Option<Validity>, AllocError> {
        Ok(None)
    }
}

/// No traffic.
const NONE: TotalTraffic = TotalTraffic {
    bytes: 0,
    pdus: PdusByType {
        serial_notify: 0,
        serial_query: 0,
        reset_query: 0,
        cache_response: 0,
        ipv4_prefix: 0,
        ipv6_prefix: 0,
        end_of_data: 0,
        cache_reset: 0,
        router_key: 0,
        error_report: 0,
    },
};

/// The status of a cache that has published an empty set.
pub(crate) fn status(alloc: Global) -> Status {
    Status {
        version: "0.1.0",
        host: None,
        addresses: Vec::new(alloc),
        now: 1_795_653_420,
        started: 1_795_653_415,
        clock_behind: 0,
        session: 4660,
        session0: 22136,
        serial: Some(5),
        ipv4: 0,
        ipv6: 0,
        given: 0,
        left_out: 0,
        peak: None,
        changes: Vec::new(alloc),
        files: Vec::new(alloc),
        max_age: None,
        clients: Vec::new(alloc),
        client_limit: 256,
        clients_ever: 0,
        clients_refused: 0,
        turned_away: None,
        clients_stalled: 0,
        error_reports: ErrorReports::NONE,
        received: NONE,
        sent: NONE,
        reloads_taken: 0,
        reloads_refused: 0,
        reload_milliseconds: None,
        publications_failed: 0,
        publication_failure: None,
        log_lines_lost: LostLines {
            dropped: 0,
            suppressed: 0,
        },
    }
}
