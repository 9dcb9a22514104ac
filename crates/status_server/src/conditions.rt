//! What the headers of a request ask for: another form, or nothing if the client has it already.
ghost use Rattle.std.specs.Prelude.{◌↔◌, IsTrue};
ghost use Rattle.status_server.specs.Conditions.{HasTag, NamesTag, Occurs};

use http::HeaderMap;
use http::header::{ACCEPT, IF_NONE_MATCH};
use memchr::memmem;

/// Whether HTML is preferred to JSON (RFC 9110 section 12.5.1): `text/html` is listed in `Accept`, and `application/json` is not listed before it.
/// Weights are not read.
pub(crate) fn prefers_html(headers: &HeaderMap) -> bool {
    match headers.get(ACCEPT) {
        Some(value) => lists_html(value.as_bytes()),
        None => false,
    }
}

/// Whether `text/html` is listed, and `application/json` not before it.
fn lists_html(value: &[u8]) -> bool {
    for range in value.split(|byte| *byte == b',') {
        let kind = media_type(range);
        if kind.eq_ignore_ascii_case(b"text/html") {
            return true;
        }
        if kind.eq_ignore_ascii_case(b"application/json") {
            return false;
        }
    }
    false
}

/// The media type of a range, without its parameters.
fn media_type(range: &[u8]) -> &[u8] {
    match range.split(|byte| *byte == b';').next() {
        Some(kind) => kind.trim_ascii(),
        None => range,
    }
}

/// Whether the client has the representation of this entity tag (RFC 9110 section 13.1.2). The comparison is the weak one.
pub(crate) fn has_tag(headers: &HeaderMap, tag: &[u8]) -> bool
    ensures { IsTrue result ↔ HasTag headers.now tag.now }
{
    match headers.get(IF_NONE_MATCH) {
        Some(value) => names_tag(value.as_bytes(), tag),
        None => false,
    }
}

/// Whether a value of `If-None-Match` is `*`, or names this tag. No tag of ours has a comma or a blank.
fn names_tag(value: &[u8], tag: &[u8]) -> bool
    ensures { IsTrue result ↔ NamesTag tag.now value.now }
{
    value == b"*".as_slice() || occurs(tag, value)
}

/// Whether a text occurs in another.
fn occurs(part: &[u8], whole: &[u8]) -> bool
    ensures { IsTrue result ↔ Occurs part.now whole.now }
{
    match memmem::find(whole, part) {
        Some(_) => true,
        None => false,
    }
}
