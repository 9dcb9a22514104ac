//! The log entry of an event: a word, and values under keys.
ghost use Rattle.std.specs.Prelude.{◌≡◌, codes, map};
ghost use Rattle.event_log.specs.Entries.{at, checked_entries, client_closed_entries, direction, entry, session_entries, of_number, of_text, publication_entries};
ghost use Rattle.event_log.specs.Entries.{report_entries, spoken, log_pair, log_value, not_served_entries, refused_version_entries, slurm_not_served_entries, status_full_entries, word_of};

use crate::event::{ClientClosed, LogEvent, PeerReport, Publication};
use crate::report::{UNSUPPORTED_VERSION, report_name};
use session_names::SessionIds;
use std::net::SocketAddr;

/// A value of an event.
#[derive(Clone, Copy, Debug)]
pub(crate) enum Value<'a> {
    Nothing,
    Number(u64),
    Address(SocketAddr),
    Text(&'a str),
}

/// A value under its key.
#[derive(Clone, Copy, Debug)]
pub(crate) struct Pair<'a> {
    pub(crate) key: &'static str,
    pub(crate) value: Value<'a>,
}

pub(crate) fn text<'a>(key: &'static str, value: &'a str) -> Pair<'a>
    ensures { log_pair result ≡ of_text key.now value.now }
{
    Pair {
        key,
        value: Value::Text(value),
    }
}

pub(crate) fn number<'a>(key: &'static str, value: u64) -> Pair<'a>
    ensures { log_pair result ≡ of_number key.now value }
{
    Pair {
        key,
        value: Value::Number(value),
    }
}

/// An address, under the key `address`.
pub(crate) fn address<'a>(value: &SocketAddr) -> Pair<'a>
    ensures { log_pair result ≡ at value.now }
{
    Pair {
        key: "address",
        value: Value::Address(*value),
    }
}

fn spoken<'a>(version: Option<u8>) -> Value<'a>
    ensures { log_value result ≡ spoken version }
{
    match version {
        None => Value::Nothing,
        Some(version) => Value::Number(u64::from(version)),
    }
}

fn version<'a>(value: Option<u8>) -> Pair<'a>
    ensures { log_pair result ≡ entry (codes "version") (spoken value) }
{
    Pair {
        key: "version",
        value: spoken(value),
    }
}

pub(crate) fn session_pairs<'a>(names: &SessionIds) -> [Pair<'a>; 3]
    ensures { map log_pair result ≡ session_entries names.now }
{
    [
        number("session", u64::from(names.session)),
        number("session0", u64::from(names.session0)),
        number("serial", u64::from(names.serial)),
    ]
}

pub(crate) fn client_closed_pairs<'a>(closed: &ClientClosed<'a>) -> [Pair<'a>; 6]
    ensures { map log_pair result ≡ client_closed_entries closed.now }
{
    [
        address(&closed.address),
        text("why", closed.why),
        version(closed.version),
        number("read", closed.read),
        number("written", closed.written),
        number("seconds", closed.seconds),
    ]
}

/// The direction of a report.
fn direction(is_received: bool) -> &'static str
    ensures { result.now ≡ direction is_received }
{
    if is_received { "received" } else { "sent" }
}

pub(crate) fn report_pairs<'a>(report: &PeerReport<'a>) -> [Pair<'a>; 5]
    ensures { map log_pair result ≡ report_entries report.now }
{
    [
        address(&report.address),
        text("direction", direction(report.is_received)),
        number("code", u64::from(report.code)),
        text("name", report_name(report.code)),
        text("text", report.text),
    ]
}

pub(crate) fn refused_version_pairs<'a>(at: &SocketAddr, asked: u8) -> [Pair<'a>; 5]
    ensures { map log_pair result ≡ refused_version_entries at.now asked }
{
    [
        address(at),
        text("direction", direction(false)),
        number("code", u64::from(UNSUPPORTED_VERSION)),
        text("name", report_name(UNSUPPORTED_VERSION)),
        number("asked", u64::from(asked)),
    ]
}

pub(crate) fn status_full_pairs<'a>(at: &SocketAddr, clients: u64) -> [Pair<'a>; 3]
    ensures { map log_pair result ≡ status_full_entries at.now clients }
{
    [
        address(at),
        number("clients", clients),
        text("listener", "status"),
    ]
}

pub(crate) fn not_served_pairs<'a>(file: &'a str, aspas: u64, router_keys: u64) -> [Pair<'a>; 3]
    ensures { map log_pair result ≡ not_served_entries file.now aspas router_keys }
{
    [
        text("file", file),
        number("aspas", aspas),
        number("router-keys", router_keys),
    ]
}

pub(crate) fn slurm_not_served_pairs<'a>(
    file: &'a str,
    filters: u64,
    assertions: u64,
) -> [Pair<'a>; 3]
    ensures { map log_pair result ≡ slurm_not_served_entries file.now filters assertions }
{
    [
        text("file", file),
        number("bgpsec-filters", filters),
        number("bgpsec-assertions", assertions),
    ]
}

pub(crate) fn publication_pairs<'a>(publication: &Publication) -> [Pair<'a>; 6]
    ensures { map log_pair result ≡ publication_entries publication.now }
{
    [
        number("session", u64::from(publication.session)),
        number("serial", u64::from(publication.serial)),
        number("announced", publication.announced),
        number("withdrawn", publication.withdrawn),
        number("records", publication.records),
        number("ms", publication.milliseconds),
    ]
}

pub(crate) fn checked_pairs<'a>(files: u64, ipv4: u64, ipv6: u64, left_out: u64) -> [Pair<'a>; 4]
    ensures { map log_pair result ≡ checked_entries files ipv4 ipv6 left_out }
{
    [
        number("files", files),
        number("ipv4", ipv4),
        number("ipv6", ipv6),
        number("left-out", left_out),
    ]
}

/// The word of an event.
pub(crate) fn word_of(event: &LogEvent<'_>) -> &'static str
    ensures { result.now ≡ word_of event.now }
{
    match event {
        LogEvent::Started(_) => "started",
        LogEvent::Limited { .. } => "limited",
        LogEvent::Listening { .. } => "listening",
        LogEvent::Status { .. } => "status",
        LogEvent::Ready => "ready",
        LogEvent::ClientCame { .. } => "client-came",
        LogEvent::ClientGone(_) => "client-gone",
        LogEvent::ErrorReport(_) => "error-report",
        LogEvent::VersionRefused { .. } => "error-report",
        LogEvent::Stalled { .. } => "stalled",
        LogEvent::Full { .. } => "full",
        LogEvent::AddressFull { .. } => "address-full",
        LogEvent::StatusFull { .. } => "full",
        LogEvent::Suppressed { .. } => "suppressed",
        LogEvent::NoDescriptor => "no-descriptor",
        LogEvent::Published(_) => "published",
        LogEvent::LeftOut { .. } => "left-out",
        LogEvent::Refused { .. } => "refused",
        LogEvent::Taken { .. } => "taken",
        LogEvent::Old { .. } => "old",
        LogEvent::Fresh { .. } => "fresh",
        LogEvent::Expired { .. } => "expired",
        LogEvent::NotServed { .. } | LogEvent::SlurmNotServed { .. } => "not-served",
        LogEvent::Unwell { .. } | LogEvent::FileUnwell { .. } => "unwell",
        LogEvent::Well { .. } | LogEvent::FileWell { .. } => "well",
        LogEvent::Clock { .. } => "clock",
        LogEvent::Warning { .. } => "warning",
        LogEvent::Memory { .. } => "memory",
        LogEvent::Failed { .. } => "failed",
        LogEvent::Dropped { .. } => "dropped",
        LogEvent::Checked { .. } => "checked",
        LogEvent::Stopped { .. } => "stopped",
    }
}
