//! The five figures of the page.

use crate::made::oldest_built;
use crate::page_routers::behind_count;
use crate::page_state::{old_count, refused_count};
use crate::pieces::{Piece, write_pieces};
use crate::status::{ChangeStatus, Status};
use crate::text::write_texts;
use std::io::{self, Write};

/// The end of a figure.
const FIGURE_END: &str = "</small></dd></div>\n";

/// Writes how many records are left out, if some are.
fn write_left_out<W: Write>(out: &mut W, left_out: u64) -> io::Result<()> {
    if left_out == 0 {
        return Ok(());
    }
    let pieces = [
        Piece::Raw(", "),
        Piece::Grouped(left_out),
        Piece::Raw(" of length 0 left out"),
    ];
    write_pieces(out, &pieces)
}

/// Writes how many records are served, by family, and how many are left out.
fn write_vrps<W: Write>(out: &mut W, status: &Status) -> io::Result<()> {
    if status.serial.is_none() {
        let none = "<div><dt>VRPs</dt><dd>\u{2013} <small>none are served yet";
        return write_texts(out, &[none, FIGURE_END]);
    }
    let pieces = [
        Piece::Raw("<div><dt>VRPs</dt><dd>"),
        Piece::Grouped(status.ipv4.saturating_add(status.ipv6)),
        Piece::Raw(" <small>"),
        Piece::Grouped(status.ipv4),
        Piece::Raw(" IPv4, "),
        Piece::Grouped(status.ipv6),
        Piece::Raw(" IPv6"),
    ];
    write_pieces(out, &pieces)?;
    write_left_out(out, status.left_out)?;
    write_texts(out, &[FIGURE_END])
}

/// The served serial, or a dash.
fn serial_piece(serial: Option<u32>) -> Piece<'static> {
    match serial {
        Some(serial) => Piece::Decimal(u64::from(serial)),
        None => Piece::Raw("\u{2013}"),
    }
}

/// Writes when the last version was published, if one was.
fn write_published<W: Write>(
    out: &mut W,
    now: u64,
    change: Option<&ChangeStatus>,
) -> io::Result<()> {
    match change {
        None => Ok(()),
        Some(change) => write_pieces(
            out,
            &[Piece::Raw("<br>published "), Piece::Since(now, change.at)],
        ),
    }
}

/// Writes the serial, the sessions, and when the version was published.
fn write_serial<W: Write>(out: &mut W, status: &Status) -> io::Result<()> {
    let pieces = [
        Piece::Raw("<div><dt>Serial</dt><dd>"),
        serial_piece(status.serial),
        Piece::Raw(" <small>session "),
        Piece::Decimal(u64::from(status.session)),
        Piece::Raw(" (version 0: "),
        Piece::Decimal(u64::from(status.session0)),
        Piece::Raw(")"),
    ];
    write_pieces(out, &pieces)?;
    write_published(out, status.now, status.changes.last())?;
    write_texts(out, &[FIGURE_END])
}

/// Writes how many routers are connected, and how many of them are behind.
fn write_clients<W: Write>(out: &mut W, status: &Status) -> io::Result<()> {
    let connections = if status.clients_ever == 1 {
        " connection since the start"
    } else {
        " connections since the start"
    };
    let pieces = [
        Piece::Raw("<div><dt>Routers</dt><dd>"),
        Piece::Grouped(status.clients.len() as u64),
        Piece::Raw(" of "),
        Piece::Grouped(status.client_limit),
        Piece::Raw(" <small>"),
        Piece::Grouped(behind_count(status)),
        Piece::Raw(" behind, "),
        Piece::Grouped(status.clients_ever),
        Piece::Raw(connections),
        Piece::Raw(FIGURE_END),
    ];
    write_pieces(out, &pieces)
}

/// Writes how many files there are, and how many of them are refused or too old.
fn write_files<W: Write>(out: &mut W, status: &Status) -> io::Result<()> {
    let pieces = [
        Piece::Raw("<div><dt>Files</dt><dd>"),
        Piece::Grouped(status.files.len() as u64),
        Piece::Raw(" <small>"),
        Piece::Grouped(refused_count(status)),
        Piece::Raw(" refused, "),
        Piece::Grouped(old_count(status)),
        Piece::Raw(" too old"),
        Piece::Raw(FIGURE_END),
    ];
    write_pieces(out, &pieces)
}

/// Writes the age of the data: how long ago the oldest were made.
fn write_age<W: Write>(out: &mut W, now: u64, made: Option<u64>) -> io::Result<()> {
    let (age, words) = match made {
        Some(made) => (
            Piece::Span(now.saturating_sub(made)),
            " <small>since the oldest export was made",
        ),
        None => (Piece::Raw("\u{2013}"), " <small>no export has a time"),
    };
    let pieces = [
        Piece::Raw("<div><dt>Age</dt><dd>"),
        age,
        Piece::Raw(words),
        Piece::Raw(FIGURE_END),
    ];
    write_pieces(out, &pieces)
}

/// Writes the five figures: VRPs, serial, routers, files, and age.
pub(crate) fn write_figures<W: Write>(out: &mut W, status: &Status) -> io::Result<()> {
    out.write_all(b"<dl>\n")?;
    write_vrps(out, status)?;
    write_serial(out, status)?;
    write_clients(out, status)?;
    write_files(out, status)?;
    write_age(out, status.now, oldest_built(&status.files))?;
    out.write_all(b"</dl>\n")
}
