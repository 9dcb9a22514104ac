//! The validity of a route as a page of HTML.

use crate::form::write_form_of;
use crate::page_style::{HEAD, HEAD_END, HEADER, STYLE, TITLE_END};
use crate::pieces::{Piece, write_pieces};
use crate::text::write_texts;
use crate::validity::Validity;
use prefixes::{Route, Vrp};
use std::io::{self, Write};
use vrps::OriginState;

/// Writes a route.
fn write_route<W: Write>(out: &mut W, route: &Route) -> io::Result<()> {
    match route.origin {
        None => write!(out, "{} of no AS", route.prefix),
        Some(asn) => write!(out, "{} of AS{asn}", route.prefix),
    }
}

/// The word for a state, and the class of its banner.
fn words_of(state: OriginState) -> (&'static str, &'static str) {
    match state {
        OriginState::Valid => ("valid", "ok"),
        OriginState::Invalid => ("invalid", "bad"),
        OriginState::NotFound => ("not found", "none"),
    }
}

/// Writes the head of the document, and its header up to the banner.
fn write_head<W: Write>(out: &mut W, route: &Route, state: &str, now: u64) -> io::Result<()> {
    write_texts(out, &[HEAD, "<title>", state, ": "])?;
    write_route(out, route)?;
    let pieces = [
        Piece::Raw(TITLE_END),
        Piece::Raw(STYLE),
        Piece::Raw(HEAD_END),
        Piece::Raw(HEADER),
        Piece::Time(now),
        Piece::Raw(" UTC</p>\n</div>\n<p class=\"state "),
    ];
    write_pieces(out, &pieces)
}

/// Writes the state of the route as a banner, from its class on.
fn write_banner<W: Write>(out: &mut W, route: &Route, word: &str, class: &str) -> io::Result<()> {
    write_texts(out, &[class, "\">"])?;
    write_route(out, route)?;
    write_texts(
        out,
        &[" is ", word, ".</p>\n</header>\n<main>\n<h2>Route</h2>\n"],
    )
}

/// Writes the row of a record.
fn write_row<W: Write>(out: &mut W, vrp: &Vrp) -> io::Result<()> {
    let (asn, prefix, max_len) = (vrp.asn(), vrp.prefix(), vrp.max_len());
    write!(
        out,
        "<tr><th scope=\"row\">{prefix}</th><td class=\"n\">{max_len}</td><td class=\"n\">AS{asn}</td></tr>\n"
    )
}

/// Writes the table of some records under a heading, if there are any.
fn write_records<W: Write>(out: &mut W, heading: &str, records: &[Vrp]) -> io::Result<()> {
    if records.is_empty() {
        return Ok(());
    }
    write_texts(
        out,
        &[
            "<section>\n<h2>",
            heading,
            "</h2>\n<div class=\"scroll\" role=\"region\" aria-label=\"",
            heading,
            "\" tabindex=\"0\"><table>\n<thead><tr><th scope=\"col\">Prefix</th><th scope=\"col\" class=\"n\">Maximum length</th><th scope=\"col\" class=\"n\">AS</th></tr></thead>\n<tbody>\n",
        ],
    )?;
    for vrp in records {
        write_row(out, vrp)?;
    }
    out.write_all(b"</tbody></table></div>\n</section>\n")
}

/// Writes the three lists of records, or that no record covers the route.
fn write_lists<W: Write>(out: &mut W, validity: &Validity) -> io::Result<()> {
    if validity.state == OriginState::NotFound {
        return out.write_all(b"<p>No VRP covers the prefix.</p>\n");
    }
    write_records(out, "VRPs that match", &validity.matched)?;
    write_records(
        out,
        "VRPs whose maximum length is too small",
        &validity.unmatched_length,
    )?;
    write_records(out, "VRPs of another AS", &validity.unmatched_as)
}

/// Writes a whole HTML page: the state of a route, a form that is filled with the route, and the covering VRPs in three lists. `validity` has to
/// be that of `route`, which is not checked. `now` is the time on the page, in seconds since 1970. `Err`: the writer failed, and a part of the page
/// may be written.
pub fn write_validity_page<W: Write>(
    out: &mut W,
    route: &Route,
    validity: &Validity,
    now: u64,
) -> io::Result<()> {
    let (word, class) = words_of(validity.state);
    write_head(out, route, word, now)?;
    write_banner(out, route, word, class)?;
    write_form_of(out, route)?;
    write_lists(out, validity)?;
    out.write_all(b"</main>\n</body>\n</html>\n")
}
