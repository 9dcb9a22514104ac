//! Trust anchor locators (RFC 8630 section 2.2).

ghost use Rattle.std.specs.Prelude.{◌≡◌, ℕ, List, map, length, IfOk};
ghost use Rattle.trust_anchors.specs.Lines.{Section};
ghost use Rattle.trust_anchors.specs.Locators.{IsComment, IsTaUri, ReadsTal};

use crate::key::read_key;
use crate::line::{first_line, join_lines};
use crate::uri::{is_comment, is_ta_uri};
use crate::{TalFault, TalFaultKind};
use std::alloc::{AllocError, Global};
use std::marker::Model;

/// A trust anchor locator: the URIs of the certificate of a trust anchor, and its key.
#[derive(Debug, Drop)]
pub struct Tal<'a> {
    /// The URIs, at least one, in the file's order. Each begins with `rsync://` or `https://`, has visible characters of ASCII alone, and does not end
    /// in `/`.
    pub uris: Vec<&'a [u8]>,
    /// The modulus of the key: 256 bytes, the highest first. The exponent is 65537.
    pub modulus: Vec<u8>,
}

impl<'a> Model for Tal<'a> {
    ghost use Rattle.std.specs.Prelude.{map};
    ghost use Rattle.trust_anchors.specs.Locators.{Tal as TalValue};

    ghost Value = { TalValue };

    ghost view = { λ t. record { uris = map (λ u. u.now) t.uris.items; modulus = t.modulus.items } };
}

/// How many comments a file begins with, and what follows them.
#[derive(Clone, Copy)]
struct Comments<'a> {
    count: usize,
    rest: &'a [u8],
}

/// The comments at the beginning.
fn read_comments(bytes: &[u8]) -> Comments<'_>
    ensures { (lines : List (List ℕ)) × (length lines ≡ result.count) × Section IsComment lines result.rest.now bytes.now }
{
    let mut count = 0;
    let mut rest = bytes;
    while let Some(line) = first_line(rest) {
        if !is_comment(line.text) {
            return Comments { count, rest };
        }
        count += 1;
        rest = line.rest;
    }
    Comments { count, rest }
}

/// The URIs at the beginning, and what follows them.
#[derive(Drop)]
struct Uris<'a> {
    uris: Vec<&'a [u8]>,
    rest: &'a [u8],
}

/// The URIs at the beginning.
fn read_uris<'a>(alloc: Global, bytes: &'a [u8]) -> Result<Uris<'a>, AllocError>
    ensures { IfOk result (λ u. Section IsTaUri (map (λ uri. uri.now) u.uris.items) u.rest.now bytes.now) }
{
    let mut uris = Vec::new(alloc);
    let mut rest = bytes;
    while let Some(line) = first_line(rest) {
        if !is_ta_uri(line.text) {
            return Ok(Uris { uris, rest });
        }
        uris.push(line.text)?;
        rest = line.rest;
    }
    Ok(Uris { uris, rest })
}

/// Reads a trust anchor locator (RFC 8630 section 2.2): comments, at least one URI, an empty line, and the key in base64. The URIs borrow from
/// `bytes`.
///
/// Line breaks are LF or CRLF. What a comment says is not judged. A URI is of rsync or https, in lower case, and names one object. The key is of RSA
/// with 2,048 bits and the exponent 65537, as RFC 7935 has it. The error is the first fault, and its line.
pub fn read_tal<'a>(alloc: Global, bytes: &'a [u8]) -> Result<Tal<'a>, TalFault>
    ensures { ReadsTal (λ t. t) bytes.now result }
{
    let comments = read_comments(bytes);
    let found = read_uris(alloc, comments.rest)?;
    let line = comments.count + found.uris.len() + 1;
    let Some(empty) = first_line(found.rest) else {
        return Err(TalFaultKind::NoBreak.at(line));
    };
    if !empty.text.is_empty() {
        return Err(TalFaultKind::Uri.at(line));
    }
    if found.uris.is_empty() {
        return Err(TalFaultKind::NoUri.at(line));
    }
    let text = join_lines(alloc, empty.rest)?;
    let modulus = read_key(alloc, text.as_slice(), line + 1)?;
    Ok(Tal {
        uris: found.uris,
        modulus,
    })
}
