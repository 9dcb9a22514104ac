//! The trust anchors of all sources as JSON.
ghost use Rattle.std.specs.Prelude.{◌≡◌, OnOk, [], false};
ghost use Rattle.std.specs.Io.KnownBytes.{Appends};
ghost use Rattle.std.specs.List.{flat_map, list_any};
ghost use Rattle.status_pages.specs.ApiStatus.{anchor_text, anchors_text, comma, has_anchor, has_anchors, is_named, most_in, most_of, new_text, source_tals};
ghost use Rattle.status_pages.specs.ApiStatus.{tal_member, tals_after};

use crate::status::{AnchorStatus, FileStatus};
use crate::text::write_json;
use std::io::{self, Write};

/// Whether a trust anchor has this name.
fn is_named(name: &str, anchor: &AnchorStatus) -> bool
    ensures { result ≡ is_named name.now anchor.now }
{
    anchor.name.as_str() == name
}

/// Whether one of some trust anchors has this name.
fn have_name(name: &str, anchors: &[AnchorStatus]) -> bool
    ensures { result ≡ list_any (is_named name.now) anchors.now }
{
    anchors.iter().any(|anchor| is_named(name, anchor))
}

/// Whether one of some sources has a trust anchor of this name.
fn has_any_anchor(name: &str, files: &[FileStatus]) -> bool
    ensures { result ≡ list_any (has_anchor name.now) files.now }
{
    files.iter().any(|file| have_name(name, &file.anchors))
}

/// Whether one of some sources has a trust anchor.
fn have_anchors(files: &[FileStatus]) -> bool
    ensures { result ≡ list_any has_anchors files.now }
{
    files.iter().any(|file| !file.anchors.is_empty())
}

/// The greatest of a number and the VRPs of the trust anchors of this name.
fn most_in(name: &str, most: u64, anchors: &[AnchorStatus]) -> u64
    ensures { result ≡ most_in name.now most anchors.now }
{
    let mut found = most;
    for anchor in anchors {
        if is_named(name, anchor) {
            found = found.max(anchor.vrps);
        }
    }
    found
}

/// The most VRPs that a source gives of the trust anchor of this name.
fn most_of(name: &str, files: &[FileStatus]) -> u64
    ensures { result ≡ most_of name.now files.now }
{
    let mut found = 0;
    for file in files {
        found = most_in(name, found, &file.anchors);
    }
    found
}

/// Writes a comma, if there was a trust anchor before.
fn write_comma<W: Write>(out: &mut W, is_first: bool) -> io::Result<()>
    ensures { OnOk result (Appends (W.contents out.old) (W.contents out.new) (comma is_first)) }
{
    if is_first {
        return Ok(());
    }
    out.write_all(b",")
}

/// Writes how many VRPs a trust anchor has.
#[tactic(auto, unfolding(crate::specs::ApiStatus::tal_member))]
fn write_member<W: Write>(out: &mut W, name: &str, vrps: u64) -> io::Result<()>
    ensures { OnOk result (Appends (W.contents out.old) (W.contents out.new) (tal_member name.now vrps)) }
{
    out.write_all(b"\"")?;
    write_json(out, name)?;
    write!(out, "\":{{\"vrpsTotal\":{vrps}}}")
}

/// Writes a trust anchor that no source before has.
fn write_new<W: Write>(
    out: &mut W,
    files: &[FileStatus],
    is_first: bool,
    name: &str,
) -> io::Result<()>
    ensures { OnOk result (Appends (W.contents out.old) (W.contents out.new) (new_text files.now is_first name.now)) }
{
    write_comma(out, is_first)?;
    write_member(out, name, most_of(name, files))
}

/// Writes a trust anchor of a source, unless a source before has it.
fn write_anchor<W: Write>(
    out: &mut W,
    files: &[FileStatus],
    before: &[FileStatus],
    is_first: bool,
    anchor: &AnchorStatus,
) -> io::Result<()>
    ensures { OnOk result (Appends (W.contents out.old) (W.contents out.new) (anchor_text files.now before.now is_first anchor.now)) }
{
    if has_any_anchor(&anchor.name, before) {
        return Ok(());
    }
    write_new(out, files, is_first, &anchor.name)
}

/// Writes trust anchors of a source that follow its first.
fn write_more<W: Write>(
    out: &mut W,
    files: &[FileStatus],
    before: &[FileStatus],
    anchors: &[AnchorStatus],
) -> io::Result<()>
    ensures { OnOk result (Appends (W.contents out.old) (W.contents out.new) (flat_map (anchor_text files.now before.now false) anchors.now)) }
{
    for anchor in anchors {
        write_anchor(out, files, before, false, anchor)?;
    }
    Ok(())
}

/// Writes the trust anchors of a source.
fn write_anchors<W: Write>(
    out: &mut W,
    files: &[FileStatus],
    before: &[FileStatus],
    is_first: bool,
    anchors: &[AnchorStatus],
) -> io::Result<()>
    ensures { OnOk result (Appends (W.contents out.old) (W.contents out.new) (anchors_text files.now before.now is_first anchors.now)) }
{
    let Some((first, others)) = anchors.split_first() else {
        return Ok(());
    };
    write_anchor(out, files, before, is_first, first)?;
    write_more(out, files, before, others)
}

/// Writes the trust anchors of a source that no source before has.
fn write_source<W: Write>(
    out: &mut W,
    files: &[FileStatus],
    before: &[FileStatus],
    file: &FileStatus,
) -> io::Result<()>
    ensures { OnOk result (Appends (W.contents out.old) (W.contents out.new) (source_tals files.now before.now file.now)) }
{
    let is_first = !have_anchors(before);
    write_anchors(out, files, before, is_first, &file.anchors)
}

/// Writes the trust anchors of all sources, each once, with the most VRPs that a source gives of it.
pub(crate) fn write_tals<W: Write>(out: &mut W, files: &[FileStatus]) -> io::Result<()>
    ensures { OnOk result (Appends (W.contents out.old) (W.contents out.new) (tals_after files.now [] files.now)) }
{
    for (index, file) in files.iter().enumerate() {
        write_source(out, files, &files[..index], file)?;
    }
    Ok(())
}
