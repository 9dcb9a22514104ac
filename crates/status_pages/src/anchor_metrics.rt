//! The metric of the VRPs of sources, by trust anchor.
ghost use Rattle.std.specs.Prelude.{◌≡◌, OnOk, codes, false, true};
ghost use Rattle.std.specs.Io.KnownBytes.{Appends};
ghost use Rattle.std.specs.List.{flat_map};
ghost use Rattle.status_pages.specs.Anchors.{anchor_series, rest_series, series, source_series, without_anchor};

use crate::status::{AnchorStatus, FileStatus};
use crate::text::write_label;
use std::io::{self, Write};

/// Writes how many VRPs of a source have a trust anchor.
#[tactic(auto, unfolding(crate::specs::Anchors::series))]
fn write_series<W: Write>(out: &mut W, path: &str, anchor: &str, vrps: u64) -> io::Result<()>
    ensures { OnOk result (Appends (W.contents out.old) (W.contents out.new) (series path.now anchor.now vrps)) }
{
    out.write_all(b"rpkirtrd_source_vrps{source=\"")?;
    write_label(out, path)?;
    out.write_all(b"\",ta=\"")?;
    write_label(out, anchor)?;
    writeln!(out, "\"}} {vrps}")
}

/// Writes how many VRPs of a source have each of its trust anchors.
fn write_anchors<W: Write>(out: &mut W, path: &str, anchors: &[AnchorStatus]) -> io::Result<()>
    ensures { OnOk result (Appends (W.contents out.old) (W.contents out.new) (flat_map (anchor_series path.now) anchors.now)) }
{
    for anchor in anchors {
        write_series(out, path, &anchor.name, anchor.vrps)?;
    }
    Ok(())
}

/// How many of the VRPs of a source have no trust anchor.
fn without_anchor(vrps: u64, anchors: &[AnchorStatus]) -> u64
    ensures { result ≡ without_anchor vrps anchors.now }
{
    let mut rest = vrps;
    for anchor in anchors {
        rest = rest.saturating_sub(anchor.vrps);
    }
    rest
}

/// Writes how many VRPs of a source have no trust anchor: if there are such, or if it has no trust anchor at all.
fn write_rest<W: Write>(out: &mut W, path: &str, rest: u64, has_anchors: bool) -> io::Result<()>
    ensures { OnOk result (Appends (W.contents out.old) (W.contents out.new) (rest_series path.now rest has_anchors)) }
{
    if has_anchors && rest == 0 {
        return Ok(());
    }
    write_series(out, path, "", rest)
}

/// Writes how many VRPs a source gives, if that is known.
fn write_source<W: Write>(out: &mut W, file: &FileStatus) -> io::Result<()>
    ensures { OnOk result (Appends (W.contents out.old) (W.contents out.new) (source_series file.now)) }
{
    let Some(vrps) = file.vrps else {
        return Ok(());
    };
    write_anchors(out, &file.path, &file.anchors)?;
    let rest = without_anchor(vrps, &file.anchors);
    write_rest(out, &file.path, rest, !file.anchors.is_empty())
}

/// Writes the values of the metric `rpkirtrd_source_vrps`: how many VRPs each source gives, by trust anchor. Those without one have the label `ta=""`. So
/// the sum over a source is its VRPs.
pub(crate) fn write_source_vrps<W: Write>(out: &mut W, files: &[FileStatus]) -> io::Result<()>
    ensures { OnOk result (Appends (W.contents out.old) (W.contents out.new) (flat_map source_series files.now)) }
{
    for file in files {
        write_source(out, file)?;
    }
    Ok(())
}
