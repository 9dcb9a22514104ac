//! The metrics of files and publication points.

use crate::anchor_metrics::write_source_vrps;
use crate::ignored::write_ignored;
use crate::metrics::{write_head, write_one};
use crate::pieces::{Piece, write_pieces};
use crate::status::{FileStatus, Status};
use std::io::{self, Write};

/// The metrics of a file.
#[derive(Clone, Copy, PartialEq, Eq)]
enum FileMetric {
    Age,
    Taken,
    Refused,
    Old,
    NearLimit,
    Expired,
}

/// The value of a metric of a file, if it has one.
fn file_metric(file: &FileStatus, now: u64, what: FileMetric) -> Option<u64> {
    match what {
        FileMetric::Age => file.built.map(|built| now.saturating_sub(built)),
        FileMetric::Taken => file.taken,
        FileMetric::Refused => Some(u64::from(file.refusal.is_some())),
        FileMetric::Old => Some(u64::from(file.is_old)),
        FileMetric::NearLimit => Some(u64::from(file.near_limit.is_some())),
        FileMetric::Expired => Some(file.expired),
    }
}

/// Writes the value of a metric for a file.
fn write_of_file<'a, W: Write>(
    out: &mut W,
    name: &'a str,
    path: &'a str,
    value: u64,
) -> io::Result<()> {
    let pieces = [
        Piece::Raw(name),
        Piece::Raw("{file=\""),
        Piece::Label(path),
        Piece::Raw("\"} "),
        Piece::Decimal(value),
        Piece::Raw("\n"),
    ];
    write_pieces(out, &pieces)
}

/// Writes a metric with a value for each file that has one.
fn write_of_files<W: Write>(
    out: &mut W,
    status: &Status,
    name: &str,
    help: &str,
    what: FileMetric,
) -> io::Result<()> {
    write_head(out, name, "gauge", help)?;
    for file in &status.files {
        if let Some(value) = file_metric(file, status.now, what) {
            write_of_file(out, name, &file.path, value)?;
        }
    }
    Ok(())
}

/// The metrics of all files.
pub(crate) fn write_files<W: Write>(out: &mut W, status: &Status) -> io::Result<()> {
    write_of_files(
        out,
        status,
        "rpkirtrd_export_age_seconds",
        "Age of the data of the last load of a file.",
        FileMetric::Age,
    )?;
    write_of_files(
        out,
        status,
        "rpkirtrd_file_taken_timestamp_seconds",
        "Time of the last load of a file, in seconds since 1970.",
        FileMetric::Taken,
    )?;
    write_of_files(
        out,
        status,
        "rpkirtrd_file_refused",
        "1 if a file is refused, otherwise 0.",
        FileMetric::Refused,
    )?;
    write_of_files(
        out,
        status,
        "rpkirtrd_file_old",
        "1 if the data of a file are older than --max-age, otherwise 0.",
        FileMetric::Old,
    )?;
    write_of_files(
        out,
        status,
        "rpkirtrd_file_near_limit",
        "1 if the last load of a file had more than three quarters of --max-size, otherwise 0.",
        FileMetric::NearLimit,
    )?;
    write_of_files(
        out,
        status,
        "rpkirtrd_file_expired_entries",
        "Expired entries of a file.",
        FileMetric::Expired,
    )?;
    write_head(
        out,
        "rpkirtrd_file_ignored_entries",
        "gauge",
        "Entries of a file that are not served, by kind.",
    )?;
    write_ignored(out, status.files.as_slice())
}

/// How many VRPs the sources give, each and together.
pub(crate) fn write_given<W: Write>(out: &mut W, status: &Status) -> io::Result<()> {
    write_head(
        out,
        "rpkirtrd_source_vrps",
        "gauge",
        "VRPs of a source, by trust anchor, before local exceptions.",
    )?;
    write_source_vrps(out, &status.files)?;
    if status.serial.is_none() {
        return Ok(());
    }
    write_one(
        out,
        "rpkirtrd_given_vrps",
        "gauge",
        "VRPs of all sources together, before local exceptions.",
        status.given,
    )
}
