//! The tables of the page.

use crate::ignored::write_not_served;
use crate::pieces::{Piece, write_pieces};
use crate::status::{AnchorStatus, ChangeStatus, FileStatus, Status};
use crate::text::write_texts;
use std::io::{self, Write};

/// Writes the start of a table that scrolls, with the headings of its columns.
pub(crate) fn write_heads<W: Write>(out: &mut W, label: &str, heads: &[&str]) -> io::Result<()> {
    let texts = [
        "<div class=\"scroll\" role=\"region\" aria-label=\"",
        label,
        "\" tabindex=\"0\"><table>\n<thead><tr>",
    ];
    write_texts(out, &texts)?;
    for head in heads {
        write_column(out, *head)?;
    }
    out.write_all(b"</tr></thead>\n<tbody>\n")
}

/// Writes the heading of a column. A heading that begins with `+` is of a column of numbers. One that begins with `#` is so too, and a narrow screen
/// leaves the column out.
fn write_column<W: Write>(out: &mut W, head: &str) -> io::Result<()> {
    let (class, name) = match (head.strip_prefix('#'), head.strip_prefix('+')) {
        (Some(name), _) => (" class=\"n wide\"", name),
        (None, Some(name)) => (" class=\"n\"", name),
        (None, None) => ("", head),
    };
    write_texts(out, &["<th scope=\"col\"", class, ">", name, "</th>"])
}

/// Writes the end of a table.
pub(crate) fn write_table_end<W: Write>(out: &mut W) -> io::Result<()> {
    out.write_all(b"</tbody></table></div>\n")
}

/// Writes a cell with how long ago a time was, if there is one.
fn write_ago_cell<W: Write>(out: &mut W, now: u64, moment: Option<u64>) -> io::Result<()> {
    match moment {
        None => out.write_all("<td class=\"dim\">\u{2013}</td>".as_bytes()),
        Some(moment) => write_pieces(
            out,
            &[
                Piece::Raw("<td>"),
                Piece::Since(now, moment),
                Piece::Raw("</td>"),
            ],
        ),
    }
}

/// Writes a cell with a number without digit groups, as serials are. On a narrow screen it is left out.
pub(crate) fn write_optional<W: Write>(out: &mut W, number: Option<u32>) -> io::Result<()> {
    match number {
        None => out.write_all("<td class=\"n wide dim\">\u{2013}</td>".as_bytes()),
        Some(number) => write!(out, "<td class=\"n wide\">{number}</td>"),
    }
}

/// Writes since when and why a file is refused.
fn write_refusal<W: Write>(out: &mut W, since: Option<u64>, reason: &str) -> io::Result<()> {
    let refused = Piece::Raw("<span class=\"warn\">refused</span>");
    match since {
        None => write_pieces(out, &[refused, Piece::Raw(": "), Piece::Html(reason)]),
        Some(since) => write_pieces(
            out,
            &[
                refused,
                Piece::Raw(" since "),
                Piece::Time(since),
                Piece::Raw(": "),
                Piece::Html(reason),
            ],
        ),
    }
}

/// Writes the state of a file: refused and why, too old, or loaded.
fn write_how<W: Write>(out: &mut W, file: &FileStatus) -> io::Result<()> {
    if file.is_old {
        out.write_all(b"<span class=\"warn\">too old</span>, ")?;
    }
    if let Some(reason) = &file.refusal {
        return write_refusal(out, file.refused_at, reason);
    }
    if file.taken.is_some() {
        return out.write_all(b"<span class=\"ok\">loaded</span>");
    }
    out.write_all(b"<span class=\"warn\">not loaded yet</span>")
}

/// Writes the size of a file, if it is near the maximum.
fn write_size<W: Write>(out: &mut W, near_limit: Option<u64>) -> io::Result<()> {
    match near_limit {
        None => Ok(()),
        Some(size) => write_pieces(
            out,
            &[
                Piece::Raw(", <span class=\"warn\">"),
                Piece::Grouped(size),
                Piece::Raw(" bytes, near --max-size</span>"),
            ],
        ),
    }
}

/// Writes how many VRPs of a file have a trust anchor, after those before it.
fn write_anchor<W: Write>(out: &mut W, index: usize, anchor: &AnchorStatus) -> io::Result<()> {
    let before = if index == 0 { "<br>" } else { ", " };
    let pieces = [
        Piece::Raw(before),
        Piece::Html(&anchor.name),
        Piece::Raw(" "),
        Piece::Grouped(anchor.vrps),
    ];
    write_pieces(out, &pieces)
}

/// Writes the trust anchors of a file, if it has any.
fn write_anchors<W: Write>(out: &mut W, anchors: &[AnchorStatus]) -> io::Result<()> {
    for (index, anchor) in anchors.iter().enumerate() {
        write_anchor(out, index, anchor)?;
    }
    Ok(())
}

/// Writes the content of the cell of the state of a file.
fn write_file_state<W: Write>(out: &mut W, file: &FileStatus) -> io::Result<()> {
    write_how(out, file)?;
    write_not_served(out, file)?;
    write_size(out, file.near_limit)?;
    write_anchors(out, &file.anchors)
}

/// Writes the row of a file.
fn write_file<W: Write>(out: &mut W, now: u64, file: &FileStatus) -> io::Result<()> {
    let pieces = [
        Piece::Raw("<tr><th scope=\"row\" class=\"name\">"),
        Piece::Html(&file.path),
        Piece::Raw("</th><td class=\"long\">"),
    ];
    write_pieces(out, &pieces)?;
    write_file_state(out, file)?;
    out.write_all(b"</td>")?;
    write_ago_cell(out, now, file.built)?;
    write_ago_cell(out, now, file.taken)?;
    let expired = [
        Piece::Raw("<td class=\"n\">"),
        Piece::Grouped(file.expired),
        Piece::Raw("</td></tr>\n"),
    ];
    write_pieces(out, &expired)
}

/// Writes the table of the files.
pub(crate) fn write_files<W: Write>(out: &mut W, status: &Status) -> io::Result<()> {
    if status.files.is_empty() {
        return out.write_all(b"<p>No file is watched.</p>\n");
    }
    out.write_all(b"<div class=\"files\">\n")?;
    let heads = ["File", "State", "Data made", "Loaded", "+Expired entries"];
    write_heads(out, "Files", &heads)?;
    for file in &status.files {
        write_file(out, status.now, file)?;
    }
    out.write_all(b"</tbody></table></div>\n</div>\n")
}

/// Writes the row of a version.
fn write_change<W: Write>(out: &mut W, now: u64, change: &ChangeStatus) -> io::Result<()> {
    let pieces = [
        Piece::Raw("<tr><th scope=\"row\">"),
        Piece::Since(now, change.at),
        Piece::Raw("</th><td class=\"n\">"),
        Piece::Grouped(change.announced),
        Piece::Raw("</td><td class=\"n\">"),
        Piece::Grouped(change.withdrawn),
        Piece::Raw("</td><td class=\"n\">"),
        Piece::Grouped(change.records),
        Piece::Raw("</td><td class=\"n wide\">"),
        Piece::Decimal(u64::from(change.serial)),
        Piece::Raw("</td></tr>\n"),
    ];
    write_pieces(out, &pieces)
}

/// Writes the table of the last versions, the newest first.
pub(crate) fn write_changes<W: Write>(out: &mut W, status: &Status) -> io::Result<()> {
    if status.changes.is_empty() {
        return out.write_all(b"<p>There are none yet.</p>\n");
    }
    let heads = ["Published", "+Added", "+Removed", "+VRPs", "#Serial"];
    write_heads(out, "Last changes", &heads)?;
    for change in status.changes.iter().rev() {
        write_change(out, status.now, change)?;
    }
    write_table_end(out)
}
