//! The sizes of the last versions over time, as a chart.
ghost use Rattle.std.specs.Prelude.{◌≤◌};

use crate::pieces::{Piece, write_pieces};
use crate::status::ChangeStatus;
use crate::text::write_clock_time;
use std::io::{self, Write};

/// The width and the height of the chart, in its own units.
const WIDTH: u64 = 1000;

const HEIGHT: u64 = 200;

/// The range of the vertical axis.
#[derive(Clone, Copy, Debug, PartialEq, Eq)]
struct Axis {
    bottom: u64,
    top: u64,
}

/// The fewest and the most records of some versions.
fn range_of(changes: &[ChangeStatus]) -> Axis {
    let mut bottom = u64::MAX;
    let mut top = 0;
    for change in changes {
        bottom = bottom.min(change.records);
        top = top.max(change.records);
    }
    Axis { bottom, top }
}

/// The units of an axis, the greatest first.
const UNITS: [u64; 9] = [
    100_000_000,
    10_000_000,
    1_000_000,
    100_000,
    10_000,
    1000,
    100,
    10,
    1,
];

/// The greatest unit that is not above this.
fn unit_of(limit: u64) -> u64 {
    for unit in UNITS {
        if unit <= limit {
            return unit;
        }
    }
    1
}

/// The multiple of a unit that is at most this number.
fn floored(number: u64, unit: u64) -> u64 {
    number.saturating_sub(number.checked_rem(unit).unwrap_or(0))
}

/// The axis for this range of records. It begins at 0, unless it would have at least half of the chart below the line. It spans at least a fiftieth
/// of the records, so that a small change is a small step.
fn axis_of(range: Axis) -> Axis {
    let spread = range
        .top
        .saturating_sub(range.bottom)
        .max(range.top / 50)
        .max(2);
    let unit = unit_of(spread / 2);
    let bottom = floored(range.bottom.saturating_sub(spread / 4), unit);
    let top = floored(range.top.saturating_add(spread / 4), unit).saturating_add(unit);
    if bottom <= top / 2 {
        Axis { bottom: 0, top }
    } else {
        Axis { bottom, top }
    }
}

/// The part of a span that is proportional to `part` of `whole`. If `whole` is 0, it is the whole span.
fn scaled(span: u64, part: u64, whole: u64) -> u64
    ensures { result ≤ span }
{
    let product = u128::from(span) * u128::from(part);
    let share = product
        .checked_div(u128::from(whole))
        .unwrap_or(u128::from(span));
    u64::try_from(share).unwrap_or(span).min(span)
}

/// The vertical position of this many records.
fn height_of(axis: Axis, records: u64) -> u64 {
    let above = axis.top.saturating_sub(records);
    scaled(HEIGHT, above, axis.top.saturating_sub(axis.bottom))
}

/// Writes the line: a step at the time of each version, from the first version to now.
fn write_steps<W: Write>(
    out: &mut W,
    axis: Axis,
    changes: &[ChangeStatus],
    first: u64,
    now: u64,
) -> io::Result<()> {
    for (index, change) in changes.iter().enumerate() {
        let down = height_of(axis, change.records);
        if index == 0 {
            write!(out, "M0 {down}")?;
        } else {
            let over = scaled(
                WIDTH,
                change.at.saturating_sub(first),
                now.saturating_sub(first),
            );
            write!(out, "H{over}V{down}")?;
        }
    }
    write!(out, "H{WIDTH}")
}

/// Writes the labels of the vertical axis: its top, its middle and its bottom.
fn write_labels<W: Write>(out: &mut W, axis: Axis) -> io::Result<()> {
    let half = axis.top.saturating_sub(axis.bottom) / 2;
    let pieces = [
        Piece::Raw("<div class=\"y\"><span>"),
        Piece::Grouped(axis.top),
        Piece::Raw("</span><span>"),
        Piece::Grouped(axis.bottom.saturating_add(half)),
        Piece::Raw("</span><span>"),
        Piece::Grouped(axis.bottom),
        Piece::Raw("</span></div>\n"),
    ];
    write_pieces(out, &pieces)
}

/// Writes the labels of the horizontal axis: the time of the first version, the middle, and now.
fn write_times<W: Write>(out: &mut W, first: u64, now: u64) -> io::Result<()> {
    let span = now.saturating_sub(first);
    out.write_all(b"<div class=\"x\"><span>")?;
    write_clock_time(out, span, first)?;
    out.write_all(b"</span><span>")?;
    write_clock_time(out, span, first.saturating_add(span / 2))?;
    out.write_all(b"</span><span>")?;
    write_clock_time(out, span, now)?;
    out.write_all(b"</span></div>\n")
}

/// Writes the lines of the chart, and the area below.
fn write_lines<W: Write>(
    out: &mut W,
    axis: Axis,
    changes: &[ChangeStatus],
    first: u64,
    now: u64,
) -> io::Result<()> {
    out.write_all(b"<path class=\"area\" d=\"")?;
    write_steps(out, axis, changes, first, now)?;
    let pieces = [
        Piece::Raw("V"),
        Piece::Decimal(HEIGHT),
        Piece::Raw("H0Z\"/><path class=\"line\" d=\""),
    ];
    write_pieces(out, &pieces)?;
    write_steps(out, axis, changes, first, now)?;
    out.write_all(b"\"/></svg>\n")
}

/// Writes the start of the chart, with its grid. Its axis begins at `bottom`.
fn write_grid<W: Write>(out: &mut W, bottom: u64) -> io::Result<()> {
    let class = if bottom == 0 { "" } else { " class=\"broken\"" };
    let pieces = [
        Piece::Raw("<svg"),
        Piece::Raw(class),
        Piece::Raw(" role=\"img\" aria-labelledby=\"sizes\" viewBox=\"0 0 "),
        Piece::Decimal(WIDTH),
        Piece::Raw(" "),
        Piece::Decimal(HEIGHT),
        Piece::Raw("\" preserveAspectRatio=\"none\"><path class=\"grid\" d=\"M0 0H"),
        Piece::Decimal(WIDTH),
        Piece::Raw("M0 "),
        Piece::Decimal(HEIGHT / 2),
        Piece::Raw("H"),
        Piece::Decimal(WIDTH),
        Piece::Raw("\"/>"),
    ];
    write_pieces(out, &pieces)
}

/// Writes the beginning of the axis, if that is not 0.
fn write_bottom<W: Write>(out: &mut W, bottom: u64) -> io::Result<()> {
    if bottom == 0 {
        return Ok(());
    }
    let pieces = [
        Piece::Raw(" The axis begins at "),
        Piece::Grouped(bottom),
        Piece::Raw(", not at 0."),
    ];
    write_pieces(out, &pieces)
}

/// Writes the description of the chart, and the beginning of its axis if that is not 0.
fn write_words<W: Write>(out: &mut W, bottom: u64, range: Axis, versions: u64) -> io::Result<()> {
    let pieces = [
        Piece::Raw("</div><figcaption id=\"sizes\" class=\"dim\">The last "),
        Piece::Grouped(versions),
        Piece::Raw(" versions: "),
        Piece::Grouped(range.bottom),
        Piece::Raw(" to "),
        Piece::Grouped(range.top),
        Piece::Raw(" VRPs."),
    ];
    write_pieces(out, &pieces)?;
    write_bottom(out, bottom)?;
    out.write_all(b"</figcaption></figure>\n")
}

/// Writes how many records the only version has. It has no chart.
fn write_only<W: Write>(out: &mut W, records: u64) -> io::Result<()> {
    let pieces = [
        Piece::Raw("<p>One version was published: "),
        Piece::Grouped(records),
        Piece::Raw(" VRPs.</p>\n"),
    ];
    write_pieces(out, &pieces)
}

/// Writes the chart of two versions or more, its labels and its description.
pub(crate) fn write_picture<W: Write>(
    out: &mut W,
    changes: &[ChangeStatus],
    now: u64,
) -> io::Result<()> {
    let Some(first) = changes.first() else {
        return out.write_all(b"<p>No version has been published yet.</p>\n");
    };
    if changes.len() == 1 {
        return write_only(out, first.records);
    }
    let range = range_of(changes);
    let axis = axis_of(range);
    out.write_all(b"<figure><div class=\"plot\">")?;
    write_labels(out, axis)?;
    write_grid(out, axis.bottom)?;
    write_lines(out, axis, changes, first.at, now)?;
    write_times(out, first.at, now)?;
    write_words(out, axis.bottom, range, changes.len() as u64)
}
