//! The health of a cache as a text.
ghost use Rattle.std.specs.Prelude.{◌≡◌, OnOk};
ghost use Rattle.std.specs.Io.KnownBytes.{Appends};
ghost use Rattle.status_pages.specs.Health.{AppendsSome, AreAnchorTexts, AreSourceTexts, Both, IsAnchorText, IsAwayText, IsFailureText, IsHealthText, IsPeakText};
ghost use Rattle.status_pages.specs.Health.{IsRefusalText, IsRestText, IsSourceText, IsTableText, TellsAnchor, TellsAway, TellsPeak};
ghost use Rattle.status_pages.specs.Health.{age_text, anchor_line, away_line, expired_line, failure_line, limit_text, none_text, old_line, refused_line, shrunk_line};
ghost use Rattle.status_pages.specs.Health.{still_served, version_text};

use crate::reasons::{Reason, has_all_expired, has_shrunk, holds_for_all, is_healthy, served_vrps};
use crate::status::{
    AnchorStatus, ClientLimit, FileStatus, PublicationFailure, Status, TurnedAway, VrpPeak,
};
use crate::text::write_label;
use event_log::time_at;
use std::io::{self, Write};

/// Writes that no VRP is served, if so.
fn write_none<W: Write>(out: &mut W, serves_none: bool) -> io::Result<()>
    ensures { OnOk result (Appends (W.contents out.old) (W.contents out.new) (none_text serves_none)) }
{
    if serves_none {
        return out.write_all(b"no VRPs are served\n");
    }
    Ok(())
}

/// Writes since when no version can be published, with that time as a text, and why.
#[tactic(auto, unfolding(crate::specs::Health::failure_line))]
fn write_failure_at<W: Write>(out: &mut W, time: &[u8], reason: &str) -> io::Result<()>
    ensures { OnOk result (Appends (W.contents out.old) (W.contents out.new) (failure_line time.now reason.now)) }
{
    out.write_all(b"publication fails since ")?;
    out.write_all(time)?;
    out.write_all(b": ")?;
    write_label(out, reason)?;
    out.write_all(b"\n")
}

/// Writes since when no version can be published, and why, if that is so.
fn write_failure<W: Write>(out: &mut W, failure: &Option<PublicationFailure>) -> io::Result<()>
    ensures { OnOk result (AppendsSome (W.contents out.old) (W.contents out.new) (IsFailureText failure.now)) }
{
    match failure {
        None => Ok(()),
        Some(failure) => {
            let time = time_at(failure.since);
            write_failure_at(out, &time, &failure.reason)
        }
    }
}

/// Writes that no VRP is served, and that no version can be published, if so.
fn write_table<W: Write>(out: &mut W, status: &Status) -> io::Result<()>
    ensures { OnOk result (AppendsSome (W.contents out.old) (W.contents out.new) (IsTableText status.entry.now)) }
{
    write_none(out, holds_for_all(status, Reason::NoVrps))?;
    write_failure(out, &status.publication_failure)
}

/// Writes that the data of a source are too old.
#[tactic(auto, unfolding(crate::specs::Health::old_line))]
fn write_old<W: Write>(out: &mut W, path: &str) -> io::Result<()>
    ensures { OnOk result (Appends (W.contents out.old) (W.contents out.new) (old_line path.now)) }
{
    write_label(out, path)?;
    out.write_all(b": its data are older than the maximum age\n")
}

/// Writes that all entries of a source have expired.
#[tactic(auto, unfolding(crate::specs::Health::expired_line))]
fn write_expired<W: Write>(out: &mut W, path: &str) -> io::Result<()>
    ensures { OnOk result (Appends (W.contents out.old) (W.contents out.new) (expired_line path.now)) }
{
    write_label(out, path)?;
    out.write_all(b": all its entries have expired\n")
}

/// Writes that the data of a source are too old, or that all its entries have expired, if so.
fn write_age<W: Write>(out: &mut W, file: &FileStatus) -> io::Result<()>
    ensures { OnOk result (Appends (W.contents out.old) (W.contents out.new) (age_text file.now)) }
{
    if file.is_old {
        return write_old(out, &file.path);
    }
    if has_all_expired(file) {
        return write_expired(out, &file.path);
    }
    Ok(())
}

/// What is served of a source that is refused, and was loaded last at this time.
fn still_served(loaded: Option<u64>) -> &'static str
    ensures { result.now ≡ still_served loaded }
{
    match loaded {
        None => "none of its data were loaded yet\n",
        Some(_) => "its previous data are served\n",
    }
}

/// Writes since when a source has been refused, with that time as a text, and why.
#[tactic(auto, unfolding(crate::specs::Health::refused_line))]
fn write_refused_at<W: Write>(
    out: &mut W,
    path: &str,
    time: &[u8],
    reason: &str,
    loaded: Option<u64>,
) -> io::Result<()>
    ensures { OnOk result (Appends (W.contents out.old) (W.contents out.new) (refused_line path.now time.now reason.now loaded)) }
{
    write_label(out, path)?;
    out.write_all(b": refused since ")?;
    out.write_all(time)?;
    out.write_all(b": ")?;
    write_label(out, reason)?;
    out.write_all(b"; ")?;
    out.write_all(still_served(loaded).as_bytes())
}

/// Writes since when a source has been refused, and why, if it is.
fn write_refusal<W: Write>(out: &mut W, file: &FileStatus) -> io::Result<()>
    ensures { OnOk result (AppendsSome (W.contents out.old) (W.contents out.new) (IsRefusalText file.now)) }
{
    let (Some(since), Some(reason)) = (file.refused_at, &file.refusal) else {
        return Ok(());
    };
    let time = time_at(since);
    write_refused_at(out, &file.path, &time, reason, file.taken)
}

/// Writes from how many VRPs to how many a trust anchor of a source shrank, and since when, with that time as a text.
#[tactic(auto, unfolding(crate::specs::Health::anchor_line))]
fn write_anchor_at<W: Write>(
    out: &mut W,
    path: &str,
    name: &str,
    from: u64,
    to: u64,
    time: &[u8],
) -> io::Result<()>
    ensures { OnOk result (Appends (W.contents out.old) (W.contents out.new) (anchor_line path.now name.now from to time.now)) }
{
    write_label(out, path)?;
    out.write_all(b": ")?;
    write_label(out, name)?;
    write!(out, " shrank: {from} to {to} VRPs at ")?;
    out.write_all(time)?;
    out.write_all(b"\n")
}

/// Writes that a trust anchor of a source shrank, if so.
fn write_anchor_peak<W: Write>(
    out: &mut W,
    path: &str,
    name: &str,
    is_shrunk: bool,
    vrps: u64,
    peak: Option<VrpPeak>,
) -> io::Result<()>
    ensures { OnOk result (AppendsSome (W.contents out.old) (W.contents out.new) (TellsAnchor path.now name.now is_shrunk vrps peak)) }
{
    if !is_shrunk {
        return Ok(());
    }
    match peak {
        None => Ok(()),
        Some(peak) => {
            let time = time_at(peak.until);
            write_anchor_at(out, path, name, peak.vrps, vrps, &time)
        }
    }
}

/// Writes that a trust anchor of a source shrank, if so.
fn write_anchor<W: Write>(out: &mut W, path: &str, anchor: &AnchorStatus) -> io::Result<()>
    ensures { OnOk result (AppendsSome (W.contents out.old) (W.contents out.new) (IsAnchorText path.now anchor.now)) }
{
    let is_shrunk = has_shrunk(anchor);
    write_anchor_peak(out, path, &anchor.name, is_shrunk, anchor.vrps, anchor.peak)
}

/// Writes which trust anchors of a source shrank.
fn write_anchors<W: Write>(out: &mut W, path: &str, anchors: &[AnchorStatus]) -> io::Result<()>
    ensures { OnOk result (AppendsSome (W.contents out.old) (W.contents out.new) (AreAnchorTexts path.now anchors.now)) }
{
    for anchor in anchors {
        write_anchor(out, path, anchor)?;
    }
    Ok(())
}

/// Writes why a source is a reason, if it is.
fn write_source<W: Write>(out: &mut W, file: &FileStatus) -> io::Result<()>
    ensures { OnOk result (AppendsSome (W.contents out.old) (W.contents out.new) (IsSourceText file.now)) }
{
    write_age(out, file)?;
    write_refusal(out, file)?;
    write_anchors(out, &file.path, &file.anchors)
}

/// Writes why sources are reasons.
fn write_sources<W: Write>(out: &mut W, files: &[FileStatus]) -> io::Result<()>
    ensures { OnOk result (AppendsSome (W.contents out.old) (W.contents out.new) (AreSourceTexts files.now)) }
{
    for file in files {
        write_source(out, file)?;
    }
    Ok(())
}

/// Writes that no version is published, if none is.
fn write_version<W: Write>(out: &mut W, serial: Option<u32>) -> io::Result<()>
    ensures { OnOk result (Appends (W.contents out.old) (W.contents out.new) (version_text serial)) }
{
    match serial {
        None => out.write_all(b"no version is published yet\n"),
        Some(_) => Ok(()),
    }
}

/// Writes from how many VRPs to how many the table shrank, and since when, with that time as a text.
#[tactic(auto, unfolding(crate::specs::Health::shrunk_line))]
fn write_shrunk_at<W: Write>(out: &mut W, from: u64, to: u64, time: &[u8]) -> io::Result<()>
    ensures { OnOk result (Appends (W.contents out.old) (W.contents out.new) (shrunk_line from to time.now)) }
{
    write!(out, "the table shrank: {from} to {to} VRPs at ")?;
    out.write_all(time)?;
    out.write_all(b"\n")
}

/// Writes that the table shrank, if so.
fn write_peak<W: Write>(
    out: &mut W,
    is_shrunk: bool,
    vrps: u64,
    peak: Option<VrpPeak>,
) -> io::Result<()>
    ensures { OnOk result (AppendsSome (W.contents out.old) (W.contents out.new) (TellsPeak is_shrunk vrps peak)) }
{
    if !is_shrunk {
        return Ok(());
    }
    match peak {
        None => Ok(()),
        Some(peak) => {
            let time = time_at(peak.until);
            write_shrunk_at(out, peak.vrps, vrps, &time)
        }
    }
}

/// The option that limits routers.
fn limit_text(limit: ClientLimit) -> &'static str
    ensures { result.now ≡ limit_text limit }
{
    match limit {
        ClientLimit::All => "--clients",
        ClientLimit::OfAddress => "--clients-per-address",
    }
}

/// Writes how many routers were turned away by a limit, and when the last one was, with that time as a text.
#[tactic(auto, unfolding(crate::specs::Health::away_line))]
fn write_away_at<W: Write>(
    out: &mut W,
    routers: u64,
    limit: ClientLimit,
    time: &[u8],
) -> io::Result<()>
    ensures { OnOk result (Appends (W.contents out.old) (W.contents out.new) (away_line routers limit time.now)) }
{
    out.write_all(b"routers were turned away by ")?;
    out.write_all(limit_text(limit).as_bytes())?;
    write!(out, ": {routers}, the last at ")?;
    out.write_all(time)?;
    out.write_all(b"\n")
}

/// Writes that routers were turned away, if so.
fn write_away<W: Write>(out: &mut W, is_recent: bool, away: Option<TurnedAway>) -> io::Result<()>
    ensures { OnOk result (AppendsSome (W.contents out.old) (W.contents out.new) (TellsAway is_recent away)) }
{
    if !is_recent {
        return Ok(());
    }
    match away {
        None => Ok(()),
        Some(away) => {
            let time = time_at(away.last);
            write_away_at(out, away.routers, away.limit, &time)
        }
    }
}

/// Writes that the table shrank, and that routers were turned away, if so.
fn write_counts<W: Write>(out: &mut W, status: &Status) -> io::Result<()>
    ensures { OnOk result (AppendsSome (W.contents out.old) (W.contents out.new) (Both (IsPeakText status.entry.now) (IsAwayText status.entry.now))) }
{
    let shrank = holds_for_all(status, Reason::Shrank);
    write_peak(out, shrank, served_vrps(status), status.peak)?;
    let is_recent = holds_for_all(status, Reason::TurnedAway);
    write_away(out, is_recent, status.turned_away)
}

/// Writes what is behind the sources in the order of the reasons.
fn write_rest<W: Write>(out: &mut W, status: &Status) -> io::Result<()>
    ensures { OnOk result (AppendsSome (W.contents out.old) (W.contents out.new) (IsRestText status.entry.now)) }
{
    write_version(out, status.serial)?;
    write_counts(out, status)
}

/// Writes the reasons of the sources, and what is behind them.
fn write_after_table<W: Write>(out: &mut W, status: &Status) -> io::Result<()>
    ensures { OnOk result (AppendsSome (W.contents out.old) (W.contents out.new) (Both (AreSourceTexts status.entry.now.files.items) (IsRestText status.entry.now))) }
{
    write_sources(out, &status.files)?;
    write_rest(out, status)
}

/// Writes the health as plain text. It is `ok` if [`is_healthy`] is true. Otherwise it has lines that say why the cache is not well. The reasons
/// `SlowPoll` and `Clock` have no line.
///
/// In paths and reasons, a backslash, a quote and a newline are escaped by a backslash. `Err`: the writer failed.
pub fn write_health<W: Write>(out: &mut W, status: &Status) -> io::Result<()>
    ensures { OnOk result (AppendsSome (W.contents out.old) (W.contents out.new) (IsHealthText status.entry.now)) }
{
    if is_healthy(status) {
        return out.write_all(b"ok\n");
    }
    write_table(out, status)?;
    write_after_table(out, status)
}
