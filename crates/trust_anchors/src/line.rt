//! Lines of a file, whose line breaks are LF or CRLF.

ghost use Rattle.std.specs.Prelude.{◌≡◌, ◌≢◌, ◌<◌, ◌≤◌, ℕ, length, slice_index, MatchOption, IfOk};
ghost use Rattle.std.specs.Str.Iter.{LacksByte};
ghost use Rattle.std.specs.Str.Lines.{strip_carriage_return};
ghost use Rattle.trust_anchors.specs.Lines.{IsLine, Joins};

use std::alloc::{AllocError, Global};

/// A line without its line break, and what follows that.
#[derive(Clone, Copy)]
pub(crate) struct Line<'a> {
    pub(crate) text: &'a [u8],
    pub(crate) rest: &'a [u8],
}

/// The index of the first LF; the length, if there is none.
fn line_feed(bytes: &[u8]) -> usize
    ensures within { result ≤ length bytes.now }
    ensures before { (k : ℕ) → k < result → slice_index bytes.now k ≢ 10 }
    ensures found { result < length bytes.now → slice_index bytes.now result ≡ 10 }
{
    for (at, byte) in bytes.iter().enumerate() {
        if *byte == b'\n' {
            return at;
        }
    }
    bytes.len()
}

/// A line without the CR at its end.
fn without_return(line: &[u8]) -> &[u8]
    ensures { result.now ≡ strip_carriage_return line.now }
{
    let length = line.len();
    if length == 0 || line[length - 1] != b'\r' {
        return line;
    }
    &line[..length - 1]
}

/// The first line; none if there is no line break.
pub(crate) fn first_line(bytes: &[u8]) -> Option<Line<'_>>
    ensures { MatchOption result (LacksByte 10 bytes.now) (λ l. IsLine l.text.now l.rest.now bytes.now) }
{
    let end = line_feed(bytes);
    if end == bytes.len() {
        return None;
    }
    Some(Line {
        text: without_return(&bytes[..end]),
        rest: &bytes[end + 1..],
    })
}

/// The bytes without their line breaks.
pub(crate) fn join_lines(alloc: Global, bytes: &[u8]) -> Result<Vec<u8>, AllocError>
    ensures { IfOk result (λ text. Joins text.items bytes.now) }
{
    let mut text = Vec::new(alloc);
    let mut rest = bytes;
    while let Some(line) = first_line(rest) {
        text.extend_from_slice(line.text)?;
        rest = line.rest;
    }
    text.extend_from_slice(rest)?;
    Ok(text)
}
