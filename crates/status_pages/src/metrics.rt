//! The status of a cache, in the text format of Prometheus.

use crate::file_metrics::{write_files, write_given};
use crate::pieces::{Piece, write_pieces};
use crate::reasons::{REASONS, has_reason};
use crate::report_metrics::write_reports;
use crate::router_metrics::write_router_metrics;
use crate::status::{PdusByType, Status, TotalTraffic};
use crate::text::write_texts;
use std::io::{self, Write};

/// Writes the help and the type of a metric.
pub(crate) fn write_head<W: Write>(
    out: &mut W,
    name: &str,
    kind: &str,
    help: &str,
) -> io::Result<()> {
    let texts = [
        "# HELP ",
        name,
        " ",
        help,
        "\n# TYPE ",
        name,
        " ",
        kind,
        "\n",
    ];
    write_texts(out, &texts)
}

/// Writes a metric of one value.
pub(crate) fn write_one<W: Write>(
    out: &mut W,
    name: &str,
    kind: &str,
    help: &str,
    value: u64,
) -> io::Result<()> {
    write_head(out, name, kind, help)?;
    let pieces = [
        Piece::Raw(name),
        Piece::Raw(" "),
        Piece::Decimal(value),
        Piece::Raw("\n"),
    ];
    write_pieces(out, &pieces)
}

/// A metric of one value: its name, its type, its help and its value.
#[derive(Clone, Copy)]
struct Single<'a>(&'a str, &'a str, &'a str, u64);

/// Writes metrics of one value.
fn write_singles<W: Write>(out: &mut W, singles: &[Single<'_>]) -> io::Result<()> {
    for Single(name, kind, help, value) in singles {
        write_one(out, name, kind, help, *value)?;
    }
    Ok(())
}

/// Writes a metric of one value, if there is a value.
fn write_any<W: Write>(out: &mut W, name: &str, help: &str, value: Option<u64>) -> io::Result<()> {
    match value {
        None => Ok(()),
        Some(value) => write_one(out, name, "gauge", help, value),
    }
}

/// Writes a value of a metric under a label.
fn write_labelled<'a, W: Write>(
    out: &mut W,
    name: &'a str,
    label: &'a str,
    word: &'a str,
    value: u64,
) -> io::Result<()> {
    let pieces = [
        Piece::Raw(name),
        Piece::Raw("{"),
        Piece::Raw(label),
        Piece::Raw("=\""),
        Piece::Raw(word),
        Piece::Raw("\"} "),
        Piece::Decimal(value),
        Piece::Raw("\n"),
    ];
    write_pieces(out, &pieces)
}

/// Writes a metric of two values of one label.
fn write_two<W: Write>(
    out: &mut W,
    name: &str,
    label: &str,
    first: (&str, u64),
    second: (&str, u64),
) -> io::Result<()> {
    write_labelled(out, name, label, first.0, first.1)?;
    write_labelled(out, name, label, second.0, second.1)
}

/// The version of the program, and its start.
fn write_program<W: Write>(out: &mut W, status: &Status) -> io::Result<()> {
    write_head(
        out,
        "rpkirtrd_build_info",
        "gauge",
        "Version of the program, as a label; the value is 1.",
    )?;
    let version = [
        Piece::Raw("rpkirtrd_build_info{version=\""),
        Piece::Label(status.version),
        Piece::Raw("\"} 1\n"),
    ];
    write_pieces(out, &version)?;
    let singles = [
        Single(
            "rpkirtrd_start_time_seconds",
            "gauge",
            "Start time of the program, in seconds since 1970.",
            status.started,
        ),
        Single(
            "rpkirtrd_clock_behind_seconds",
            "gauge",
            "Seconds by which the clock was set back since the start.",
            status.clock_behind,
        ),
    ];
    write_singles(out, &singles)
}

/// How many records are served, after the first version.
fn write_records<W: Write>(out: &mut W, status: &Status) -> io::Result<()> {
    if status.serial.is_none() {
        return Ok(());
    }
    write_head(
        out,
        "rpkirtrd_vrps",
        "gauge",
        "VRPs that are served, by address family.",
    )?;
    write_two(
        out,
        "rpkirtrd_vrps",
        "family",
        ("ipv4", status.ipv4),
        ("ipv6", status.ipv6),
    )?;
    write_one(
        out,
        "rpkirtrd_left_out_vrps",
        "gauge",
        "VRPs of prefix length 0 that --leave-out-length-0 leaves out.",
        status.left_out,
    )
}

/// The served version.
fn write_served<W: Write>(out: &mut W, status: &Status) -> io::Result<()> {
    write_records(out, status)?;
    write_any(
        out,
        "rpkirtrd_serial",
        "Serial of the served version.",
        status.serial.map(u64::from),
    )?;
    write_head(
        out,
        "rpkirtrd_session",
        "gauge",
        "Session ID, by protocol version.",
    )?;
    write_two(
        out,
        "rpkirtrd_session",
        "version",
        ("0", u64::from(status.session0)),
        ("1", u64::from(status.session)),
    )?;
    write_any(
        out,
        "rpkirtrd_last_change_timestamp_seconds",
        "Time at which the served version was published, in seconds since 1970.",
        status.changes.last().map(|change| change.at),
    )
}

/// How many times files were loaded, and how long it took.
fn write_reloads<W: Write>(out: &mut W, status: &Status) -> io::Result<()> {
    write_head(
        out,
        "rpkirtrd_reloads_total",
        "counter",
        "Loads and reported refusals of files.",
    )?;
    write_two(
        out,
        "rpkirtrd_reloads_total",
        "result",
        ("taken", status.reloads_taken),
        ("refused", status.reloads_refused),
    )?;
    let Some(milliseconds) = status.reload_milliseconds else {
        return Ok(());
    };
    write_head(
        out,
        "rpkirtrd_reload_seconds",
        "gauge",
        "Duration of the last load.",
    )?;
    out.write_all(b"rpkirtrd_reload_seconds ")?;
    write_seconds(out, milliseconds)
}

/// Writes milliseconds as seconds, and the end of the line.
fn write_seconds<W: Write>(out: &mut W, milliseconds: u64) -> io::Result<()> {
    let (seconds, rest) = (milliseconds / 1000, milliseconds % 1000);
    writeln!(out, "{seconds}.{rest:03}")
}

/// Whether each reason holds why a cache is not well.
fn write_unwell<W: Write>(out: &mut W, status: &Status) -> io::Result<()> {
    write_head(
        out,
        "rpkirtrd_unwell",
        "gauge",
        "1 if the cache is not well for this reason, otherwise 0.",
    )?;
    for reason in REASONS {
        let value = u64::from(has_reason(status, reason));
        write_labelled(out, "rpkirtrd_unwell", "reason", reason.word(), value)?;
    }
    Ok(())
}

/// The publications that failed, how many clients there are, and how many were disconnected by the cache.
fn write_counts<W: Write>(out: &mut W, status: &Status) -> io::Result<()> {
    let singles = [
        Single(
            "rpkirtrd_publications_failed_total",
            "counter",
            "Failed publications of a version since the start.",
            status.publications_failed,
        ),
        Single(
            "rpkirtrd_publication_failing",
            "gauge",
            "1 if the last publication failed, otherwise 0.",
            u64::from(status.publication_failure.is_some()),
        ),
        Single(
            "rpkirtrd_clients",
            "gauge",
            "Connected routers.",
            status.clients.len() as u64,
        ),
        Single(
            "rpkirtrd_clients_max",
            "gauge",
            "Maximum number of connected routers.",
            status.client_limit,
        ),
        Single(
            "rpkirtrd_connections_total",
            "counter",
            "Connections accepted since the start.",
            status.clients_ever,
        ),
    ];
    write_singles(out, &singles)?;
    write_disconnected(out, status.clients_refused, status.clients_stalled)
}

/// How many clients were disconnected by the cache: on arrival, and because they accepted no byte.
fn write_disconnected<W: Write>(out: &mut W, refused: u64, stalled: u64) -> io::Result<()> {
    let singles = [
        Single(
            "rpkirtrd_connections_refused_total",
            "counter",
            "Connections closed on arrival since the start, by --clients or --clients-per-address.",
            refused,
        ),
        Single(
            "rpkirtrd_connections_stalled_total",
            "counter",
            "Connections closed since the start because the router accepted no byte for --stall seconds.",
            stalled,
        ),
    ];
    write_singles(out, &singles)
}

/// The log lines that are missing.
fn write_log<W: Write>(out: &mut W, status: &Status) -> io::Result<()> {
    write_head(
        out,
        "rpkirtrd_log_lines_lost_total",
        "counter",
        "Log lines lost since the start, by reason.",
    )?;
    write_two(
        out,
        "rpkirtrd_log_lines_lost_total",
        "reason",
        ("dropped", status.log_lines_lost.dropped),
        ("suppressed", status.log_lines_lost.suppressed),
    )
}

/// The PDU types, with how many PDUs there were of each.
fn listed(pdus: &PdusByType) -> [(&'static str, u64); 10] {
    [
        ("serial_notify", pdus.serial_notify),
        ("serial_query", pdus.serial_query),
        ("reset_query", pdus.reset_query),
        ("cache_response", pdus.cache_response),
        ("ipv4_prefix", pdus.ipv4_prefix),
        ("ipv6_prefix", pdus.ipv6_prefix),
        ("end_of_data", pdus.end_of_data),
        ("cache_reset", pdus.cache_reset),
        ("router_key", pdus.router_key),
        ("error_report", pdus.error_report),
    ]
}

/// Writes the PDUs of one type in one direction.
fn write_pdu_count<'a, W: Write>(
    out: &mut W,
    direction: &'a str,
    kind: &'a str,
    count: u64,
) -> io::Result<()> {
    let pieces = [
        Piece::Raw("rpkirtrd_pdus_total{type=\""),
        Piece::Raw(kind),
        Piece::Raw("\",direction=\""),
        Piece::Raw(direction),
        Piece::Raw("\"} "),
        Piece::Decimal(count),
        Piece::Raw("\n"),
    ];
    write_pieces(out, &pieces)
}

/// Writes the PDUs of one direction.
fn write_pdus<W: Write>(out: &mut W, direction: &str, traffic: &TotalTraffic) -> io::Result<()> {
    for (kind, count) in &listed(&traffic.pdus) {
        write_pdu_count(out, direction, *kind, *count)?;
    }
    Ok(())
}

/// The traffic of all connections.
fn write_traffic<W: Write>(out: &mut W, status: &Status) -> io::Result<()> {
    write_head(
        out,
        "rpkirtrd_pdus_total",
        "counter",
        "PDUs received and sent since the start, by type and direction.",
    )?;
    write_pdus(out, "received", &status.received)?;
    write_pdus(out, "sent", &status.sent)?;
    write_head(
        out,
        "rpkirtrd_bytes_total",
        "counter",
        "Bytes received and sent since the start, by direction.",
    )?;
    write_two(
        out,
        "rpkirtrd_bytes_total",
        "direction",
        ("received", status.received.bytes),
        ("sent", status.sent.bytes),
    )
}

/// Writes the status as metrics in the text format of Prometheus, version 0.0.4. `Err`: the writer failed.
pub fn write_metrics<W: Write>(out: &mut W, status: &Status) -> io::Result<()> {
    write_program(out, status)?;
    write_unwell(out, status)?;
    write_served(out, status)?;
    write_files(out, status)?;
    write_given(out, status)?;
    write_reloads(out, status)?;
    write_counts(out, status)?;
    write_router_metrics(out, status)?;
    write_traffic(out, status)?;
    write_reports(out, &status.error_reports)?;
    write_log(out, status)
}
