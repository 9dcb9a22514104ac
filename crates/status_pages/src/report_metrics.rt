//! The metrics of Error Reports.

use crate::metrics::write_head;
use crate::pieces::{Piece, write_pieces};
use crate::status::{ErrorReports, ReportsByCode};
use std::io::{self, Write};

/// The codes from 0 to 8, as labels.
const CODES: [&str; 9] = ["0", "1", "2", "3", "4", "5", "6", "7", "8"];

/// Writes the Error Reports of one code in one direction.
fn write_of_code<'a, W: Write>(
    out: &mut W,
    direction: &'a str,
    code: &'a str,
    count: u64,
) -> io::Result<()> {
    let pieces = [
        Piece::Raw("rpkirtrd_error_reports_total{direction=\""),
        Piece::Raw(direction),
        Piece::Raw("\",code=\""),
        Piece::Raw(code),
        Piece::Raw("\"} "),
        Piece::Decimal(count),
        Piece::Raw("\n"),
    ];
    write_pieces(out, &pieces)
}

/// Writes the Error Reports of one direction.
fn write_direction<W: Write>(
    out: &mut W,
    direction: &str,
    reports: &ReportsByCode,
) -> io::Result<()> {
    for (index, code) in CODES.iter().enumerate() {
        write_of_code(out, direction, *code, reports.known[index])?;
    }
    write_of_code(out, direction, "other", reports.others)
}

/// The Error Reports of closed clients, by direction and code.
pub(crate) fn write_reports<W: Write>(out: &mut W, reports: &ErrorReports) -> io::Result<()> {
    write_head(
        out,
        "rpkirtrd_error_reports_total",
        "counter",
        "Last Error Report of each connection closed since the start, by direction and code.",
    )?;
    write_direction(out, "received", &reports.received)?;
    write_direction(out, "sent", &reports.sent)
}
