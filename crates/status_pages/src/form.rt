//! The form that asks about a route, and its page.

use crate::meant::meant_route;
use crate::page_style::{HEAD, HEAD_END, HEADER, STYLE, TITLE_END};
use crate::pieces::{Piece, write_pieces};
use crate::query_fault::QueryFault;
use crate::text::write_texts;
use form_urlencoded::{decode, raw_pairs};
use prefixes::Route;
use std::alloc::{AllocError, Global};
use std::borrow::CowStr;
use std::io::{self, ErrorKind, Write};

/// The form, up to the value of the AS number, from there to the value of the prefix, and its end.
const TO_ASN: &str =
    "<form action=\"/validity\"><label>AS <input name=\"asn\" placeholder=\"AS64496\" size=\"12\" required";

const TO_PREFIX: &str =
    "></label> <label>Prefix <input name=\"prefix\" placeholder=\"192.0.2.0/24\" size=\"20\" required";

const TO_END: &str = "></label> <button>Is it valid?</button></form>\n";

/// Writes the form with the texts of a route in it.
pub(crate) fn write_form_of<W: Write>(out: &mut W, route: &Route) -> io::Result<()> {
    write_texts(out, &[TO_ASN])?;
    if let Some(asn) = route.origin {
        write!(out, " value=\"AS{asn}\"")?;
    }
    write_texts(out, &[TO_PREFIX])?;
    write!(out, " value=\"{}\"", route.prefix)?;
    write_texts(out, &[TO_END])
}

/// What was typed: the texts under `asn` and `prefix`.
#[derive(Drop)]
struct Typed<'a> {
    asn: CowStr<'a>,
    prefix: CowStr<'a>,
}

/// The first text under this name in a query, or an empty one.
fn typed_under<'a>(alloc: Global, query: &'a str, name: &str) -> Result<CowStr<'a>, AllocError> {
    for (key, value) in raw_pairs(query.as_bytes()) {
        if key == name.as_bytes() {
            return decode(alloc, value);
        }
    }
    decode(alloc, b"")
}

/// What was typed, in a query.
fn typed_in(alloc: Global, query: &str) -> Result<Typed<'_>, AllocError> {
    Ok(Typed {
        asn: typed_under(alloc, query, "asn")?,
        prefix: typed_under(alloc, query, "prefix")?,
    })
}

/// Writes the value of an input, if it has one.
fn write_typed_value<W: Write>(out: &mut W, text: &str) -> io::Result<()> {
    if text.is_empty() {
        return Ok(());
    }
    write_pieces(
        out,
        &[Piece::Raw(" value=\""), Piece::Html(text), Piece::Raw("\"")],
    )
}

/// Writes the form with what was typed in it.
fn write_form<W: Write>(out: &mut W, typed: &Typed<'_>) -> io::Result<()> {
    write_texts(out, &[TO_ASN])?;
    write_typed_value(out, typed.asn.as_str())?;
    write_texts(out, &[TO_PREFIX])?;
    write_typed_value(out, typed.prefix.as_str())?;
    write_texts(out, &[TO_END])
}

/// Writes a link to the route that was probably meant, if there is a guess.
fn write_meant<W: Write>(out: &mut W, typed: &Typed<'_>) -> io::Result<()> {
    let Some(route) = meant_route(typed.asn.as_str(), typed.prefix.as_str()) else {
        return Ok(());
    };
    let (asn, prefix) = (route.origin.unwrap_or(0), route.prefix);
    write!(
        out,
        "<p>Did you mean <a href=\"/validity?asn=AS{asn}&amp;prefix={prefix}\">{prefix} of AS{asn}</a>?</p>\n"
    )
}

/// Writes the head of the document and its header.
fn write_head<W: Write>(out: &mut W, title: &str, now: u64) -> io::Result<()> {
    let pieces = [
        Piece::Raw(HEAD),
        Piece::Raw("<title>"),
        Piece::Raw(title),
        Piece::Raw(TITLE_END),
        Piece::Raw(STYLE),
        Piece::Raw(HEAD_END),
        Piece::Raw(HEADER),
        Piece::Time(now),
        Piece::Raw(" UTC</p>\n</div>\n"),
    ];
    write_pieces(out, &pieces)
}

/// Writes why a query names no route, as a banner.
fn write_fault<W: Write>(out: &mut W, alloc: Global, fault: QueryFault) -> io::Result<()> {
    let Ok(text) = fault.to_string(alloc) else {
        return Err(io::Error::from(ErrorKind::OutOfMemory));
    };
    let pieces = [
        Piece::Raw("<p class=\"state bad\">"),
        Piece::Html(text.as_str()),
        Piece::Raw(".</p>\n"),
    ];
    write_pieces(out, &pieces)
}

/// Writes what follows the header: the form with what was typed, and a link to what was probably meant.
fn write_main<W: Write>(out: &mut W, typed: &Typed<'_>) -> io::Result<()> {
    out.write_all(b"</header>\n<main>\n<h2>Route</h2>\n")?;
    write_form(out, typed)?;
    write_meant(out, typed)?;
    out.write_all(b"</main>\n</body>\n</html>\n")
}

/// Writes the page with an empty form.
fn write_empty<W: Write>(out: &mut W, typed: &Typed<'_>, now: u64) -> io::Result<()> {
    write_head(out, "A route: rpkirtrd", now)?;
    write_main(out, typed)
}

/// Writes the page that says why what was typed is not a route.
fn write_typed<W: Write>(
    out: &mut W,
    alloc: Global,
    typed: &Typed<'_>,
    fault: QueryFault,
    now: u64,
) -> io::Result<()> {
    write_head(out, "Not a route: rpkirtrd", now)?;
    write_fault(out, alloc, fault)?;
    write_main(out, typed)
}

/// Writes the HTML page with the form that asks for a route. `query` is the part of the URL after `?`. `now` is the time on the page, in seconds
/// since 1970.
///
/// - If `query` is empty, the form is empty, and `fault` is not shown.
///
/// - Otherwise the form has what was typed. The page says why that is not a route (`fault`), and links to the route that was probably meant, if
///   it can guess one.
///
/// The page does not refresh, so the typed text stays. `Err`: the writer failed, or memory ran out.
pub fn write_form_page<W: Write>(
    out: &mut W,
    alloc: Global,
    query: &str,
    fault: QueryFault,
    now: u64,
) -> io::Result<()> {
    let Ok(typed) = typed_in(alloc, query) else {
        return Err(io::Error::from(ErrorKind::OutOfMemory));
    };
    if query.is_empty() {
        return write_empty(out, &typed, now);
    }
    write_typed(out, alloc, &typed, fault, now)
}
