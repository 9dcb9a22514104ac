//! The pieces of which pages and metrics are written.

use crate::text::{
    write_decimal, write_grouped, write_html, write_label, write_since, write_span, write_time,
};
use std::io::{self, Write};
use std::net::SocketAddr;

/// A piece of a page or of a metric.
#[derive(Clone, Copy)]
pub(crate) enum Piece<'a> {
    /// A text that is written as it is.
    Raw(&'a str),
    /// A text in HTML.
    Html(&'a str),
    /// A text in a Prometheus label value.
    Label(&'a str),
    /// An address and a port.
    Address(&'a SocketAddr),
    /// A number in decimal digits.
    Decimal(u64),
    /// A number in groups of three digits.
    Grouped(u64),
    /// A number of seconds.
    Span(u64),
    /// A time in UTC.
    Time(u64),
    /// A time, as how long ago it was: now, and the time.
    Since(u64, u64),
}

/// Writes a piece.
fn write_piece<W: Write>(out: &mut W, piece: &Piece<'_>) -> io::Result<()> {
    match piece {
        Piece::Raw(text) => out.write_all(text.as_bytes()),
        Piece::Html(text) => write_html(out, text),
        Piece::Label(text) => write_label(out, text),
        Piece::Address(address) => write!(out, "{address}"),
        Piece::Decimal(number) => write_decimal(out, *number),
        Piece::Grouped(number) => write_grouped(out, *number),
        Piece::Span(seconds) => write_span(out, *seconds),
        Piece::Time(moment) => write_time(out, *moment),
        Piece::Since(now, moment) => write_since(out, *now, *moment),
    }
}

/// Writes pieces one after the other.
pub(crate) fn write_pieces<W: Write>(out: &mut W, pieces: &[Piece<'_>]) -> io::Result<()> {
    for piece in pieces {
        write_piece(out, piece)?;
    }
    Ok(())
}
