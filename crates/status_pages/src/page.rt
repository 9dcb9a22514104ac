//! The status of a cache as a page of HTML and CSS, without scripts or external resources.

use crate::page_figures::write_figures;
use crate::page_routers::write_routers;
use crate::page_state::{write_state, write_title};
use crate::page_style::{HEAD, HEAD_END, STYLE, TITLE_END};
use crate::page_tables::{write_changes, write_files};
use crate::picture::write_picture;
use crate::pieces::{Piece, write_pieces};
use crate::reasons::is_well;
use crate::status::Status;
use crate::text::write_texts;
use std::io::{self, Write};
use std::net::SocketAddr;

/// Writes the name of the program, and of its host if that is known.
fn write_name<W: Write>(out: &mut W, status: &Status) -> io::Result<()> {
    match &status.host {
        None => out.write_all(b"rpkirtrd"),
        Some(host) => write_pieces(out, &[Piece::Raw("rpkirtrd on "), Piece::Html(host)]),
    }
}

/// Writes the head of the document. Its title begins with the state. A browser loads the page anew each minute.
fn write_head<W: Write>(out: &mut W, status: &Status) -> io::Result<()> {
    let refresh = "<meta http-equiv=\"refresh\" content=\"60\">\n<title>";
    write_texts(out, &[HEAD, refresh])?;
    write_title(out, status)?;
    write_name(out, status)?;
    write_texts(out, &[TITLE_END, STYLE, HEAD_END])
}

/// Writes an address at which routers connect, after those before it.
fn write_address<W: Write>(out: &mut W, index: usize, address: &SocketAddr) -> io::Result<()> {
    let comma = if index == 0 { " <small>" } else { ", " };
    write_pieces(out, &[Piece::Raw(comma), Piece::Address(address)])
}

/// Writes the addresses at which routers connect.
fn write_addresses<W: Write>(out: &mut W, addresses: &[SocketAddr]) -> io::Result<()> {
    for (index, address) in addresses.iter().enumerate() {
        write_address(out, index, address)?;
    }
    if addresses.is_empty() {
        return Ok(());
    }
    out.write_all(b"</small>")
}

/// Writes the time and the links, up to the class of the banner.
fn write_top<W: Write>(out: &mut W, status: &Status) -> io::Result<()> {
    let pieces = [
        Piece::Raw("</h1>\n<p class=\"dim\">"),
        Piece::Html(status.version),
        Piece::Raw(", up "),
        Piece::Span(status.now.saturating_sub(status.started)),
        Piece::Raw(", at "),
        Piece::Time(status.now),
        Piece::Raw(
            " UTC &middot; <a href=\"/health\">health</a> &middot; <a href=\"/metrics\">metrics</a>",
        ),
        Piece::Raw(
            " &middot; <a href=\"/vrps.json\">list</a> &middot; <a href=\"/vrps.csv\">csv</a></p>\n",
        ),
        Piece::Raw("</div>\n<p class=\"state "),
        Piece::Raw(if is_well(status) { "ok" } else { "bad" }),
        Piece::Raw("\">"),
    ];
    write_pieces(out, &pieces)
}

/// Writes the name, the addresses, the time, the links, and the state as a banner.
fn write_header<W: Write>(out: &mut W, status: &Status) -> io::Result<()> {
    out.write_all(b"<header>\n<div class=\"top\">\n<h1>")?;
    write_name(out, status)?;
    write_addresses(out, &status.addresses)?;
    write_top(out, status)?;
    write_state(out, status)?;
    out.write_all(b"</p>\n</header>\n")
}

/// What is between the sections of the page.
const TO_FILES: &str =
    "<section>\n<h2>Route</h2>\n<p><a href=\"/validity\">Ask whether a route is valid</a></p>\n</section>\n<section>\n<h2>Files</h2>\n";

const TO_PICTURE: &str = "</section>\n<div class=\"pair\">\n<section>\n<h2>VRPs over time</h2>\n";

const TO_CHANGES: &str = "</section>\n<section>\n<h2>Last changes</h2>\n";

const TO_ROUTERS: &str = "</section>\n</div>\n<section>\n<h2>Routers</h2>\n";

/// Writes the sections about files and versions.
fn write_sources<W: Write>(out: &mut W, status: &Status) -> io::Result<()> {
    write_texts(out, &[TO_FILES])?;
    write_files(out, status)?;
    write_texts(out, &[TO_PICTURE])?;
    write_picture(out, &status.changes, status.now)?;
    write_texts(out, &[TO_CHANGES])?;
    write_changes(out, status)
}

/// Writes the status as one HTML page, which a browser loads again each minute. `Err`: the writer failed.
pub fn write_page<W: Write>(out: &mut W, status: &Status) -> io::Result<()> {
    write_head(out, status)?;
    write_header(out, status)?;
    out.write_all(b"<main>\n")?;
    write_figures(out, status)?;
    write_sources(out, status)?;
    write_texts(out, &[TO_ROUTERS])?;
    write_routers(out, status)?;
    out.write_all(b"</section>\n</main>\n</body>\n</html>\n")
}
