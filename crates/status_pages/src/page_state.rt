//! The state of a cache in sentences: all is well, or each reason why not.

use crate::page_routers::behind_count;
use crate::pieces::{Piece, write_pieces};
use crate::reasons::{
    REASONS, Reason, has_all_expired, has_reason, has_shrunk, holds_for_all, is_blamed, is_well,
    served_vrps,
};
use crate::status::{
    AnchorStatus, ClientLimit, FileStatus, PublicationFailure, SlowCall, Status, TurnedAway,
    VrpPeak,
};
use std::io::{self, Write};

/// How many sources are refused.
pub(crate) fn refused_count(status: &Status) -> u64 {
    let refused = status.files.iter().filter(|file| file.refusal.is_some());
    refused.count() as u64
}

/// How many sources have data that are too old.
pub(crate) fn old_count(status: &Status) -> u64 {
    status.files.iter().filter(|file| file.is_old).count() as u64
}

/// What shrank in a few words: the table, or only a trust anchor.
fn shrunk_sentence(status: &Status) -> &'static str {
    if holds_for_all(status, Reason::Shrank) {
        "The table shrank. "
    } else {
        "A trust anchor shrank. "
    }
}

/// A reason in a few words, for the title. A source that has been refused for long is refused, which is a reason of its own.
fn sentence(status: &Status, reason: Reason) -> &'static str {
    match reason {
        Reason::NoVrps => "No VRPs are served. ",
        Reason::Publication => "Publication fails. ",
        Reason::Old => "Data are too old. ",
        Reason::RefusedLong => "",
        Reason::NoVersion => "No version is published yet. ",
        Reason::Refused => "A source is refused. ",
        Reason::Shrank => shrunk_sentence(status),
        Reason::TurnedAway => "Routers were turned away. ",
        Reason::SlowPoll => "A call on a file was slow. ",
        Reason::Clock => "The clock was set back. ",
    }
}

/// Writes the state in a few words, each sentence with a space after it.
pub(crate) fn write_title<W: Write>(out: &mut W, status: &Status) -> io::Result<()> {
    if is_well(status) {
        return out.write_all(b"All is well. ");
    }
    for reason in REASONS {
        if has_reason(status, reason) {
            out.write_all(sentence(status, reason).as_bytes())?;
        }
    }
    Ok(())
}

/// Writes since when no version can be published, and why.
fn write_failure<W: Write>(out: &mut W, failure: &Option<PublicationFailure>) -> io::Result<()> {
    match failure {
        None => Ok(()),
        Some(failure) => write_pieces(
            out,
            &[
                Piece::Raw("Publication fails since "),
                Piece::Time(failure.since),
                Piece::Raw(": "),
                Piece::Html(&failure.reason),
                Piece::Raw(". "),
            ],
        ),
    }
}

/// Writes that the data of a source are too old, if so.
fn write_old<W: Write>(out: &mut W, file: &FileStatus) -> io::Result<()> {
    if !file.is_old && !has_all_expired(file) {
        return Ok(());
    }
    let words = if file.is_old {
        ": its data are older than the maximum age. "
    } else {
        ": all its entries have expired. "
    };
    write_pieces(out, &[Piece::Html(&file.path), Piece::Raw(words)])
}

/// What is served of a source that is refused, and was loaded last at this time.
fn still_served(loaded: Option<u64>) -> &'static str {
    match loaded {
        Some(_) => "; its previous data are served. ",
        None => "; none of its data were loaded yet. ",
    }
}

/// Writes that a source is refused, if so, and what is served of it. Its reason is in the table of the files.
fn write_refused<W: Write>(out: &mut W, file: &FileStatus) -> io::Result<()> {
    if file.refusal.is_none() {
        return Ok(());
    }
    let (path, served) = (
        Piece::Html(&file.path),
        Piece::Raw(still_served(file.taken)),
    );
    match file.refused_at {
        None => write_pieces(out, &[path, Piece::Raw(" is refused"), served]),
        Some(since) => write_pieces(
            out,
            &[
                path,
                Piece::Raw(" is refused since "),
                Piece::Time(since),
                served,
            ],
        ),
    }
}

/// Writes which sources are old or refused.
fn write_sources<W: Write>(out: &mut W, status: &Status) -> io::Result<()> {
    for file in &status.files {
        write_old(out, file)?;
        write_refused(out, file)?;
    }
    Ok(())
}

/// Writes from how many VRPs to how many something shrank.
fn write_shrunk_to<W: Write>(out: &mut W, peak: VrpPeak, vrps: u64) -> io::Result<()> {
    let pieces = [
        Piece::Raw(" shrank from "),
        Piece::Grouped(peak.vrps),
        Piece::Raw(" to "),
        Piece::Grouped(vrps),
        Piece::Raw(" VRPs at "),
        Piece::Time(peak.until),
        Piece::Raw(". "),
    ];
    write_pieces(out, &pieces)
}

/// Writes from how many VRPs the table shrank.
fn write_peak<W: Write>(out: &mut W, status: &Status) -> io::Result<()> {
    let Some(peak) = status.peak else {
        return Ok(());
    };
    out.write_all(b"The table")?;
    write_shrunk_to(out, peak, served_vrps(status))
}

/// Writes from how many VRPs a trust anchor of a source shrank.
fn write_anchor<'a, W: Write>(
    out: &mut W,
    path: &'a str,
    anchor: &'a AnchorStatus,
) -> io::Result<()> {
    let Some(peak) = anchor.peak else {
        return Ok(());
    };
    let pieces = [
        Piece::Html(path),
        Piece::Raw(": "),
        Piece::Html(&anchor.name),
    ];
    write_pieces(out, &pieces)?;
    write_shrunk_to(out, peak, anchor.vrps)
}

/// Writes which trust anchors of a source shrank.
fn write_anchors<W: Write>(out: &mut W, file: &FileStatus) -> io::Result<()> {
    for anchor in &file.anchors {
        if has_shrunk(anchor) {
            write_anchor(out, &file.path, anchor)?;
        }
    }
    Ok(())
}

/// Writes that the table shrank, if so, and which trust anchors of sources shrank.
fn write_shrunk<W: Write>(out: &mut W, status: &Status) -> io::Result<()> {
    if holds_for_all(status, Reason::Shrank) {
        write_peak(out, status)?;
    }
    for file in &status.files {
        write_anchors(out, file)?;
    }
    Ok(())
}

/// The option that limits routers.
fn limit_text(limit: ClientLimit) -> &'static str {
    match limit {
        ClientLimit::All => "--clients: ",
        ClientLimit::OfAddress => "--clients-per-address: ",
    }
}

/// Writes how many routers were turned away, and by which limit.
fn write_away<W: Write>(out: &mut W, away: Option<TurnedAway>) -> io::Result<()> {
    match away {
        None => Ok(()),
        Some(away) => write_pieces(
            out,
            &[
                Piece::Raw("Routers were turned away by "),
                Piece::Raw(limit_text(away.limit)),
                Piece::Grouped(away.routers),
                Piece::Raw(", the last at "),
                Piece::Time(away.last),
                Piece::Raw(". "),
            ],
        ),
    }
}

/// Writes which calls on files were slow, and how long they lasted.
fn write_slow<W: Write>(out: &mut W, status: &Status) -> io::Result<()> {
    for file in &status.files {
        if is_blamed(status.now, status.max_age, Reason::SlowPoll, file) {
            write_slow_call(out, &file.path, file.slow)?;
        }
    }
    Ok(())
}

/// Writes how long the last slow call on a file lasted, if there was one.
fn write_slow_call<W: Write>(out: &mut W, path: &str, slow: Option<SlowCall>) -> io::Result<()> {
    match slow {
        None => Ok(()),
        Some(call) => write_pieces(
            out,
            &[
                Piece::Raw("A call on "),
                Piece::Html(path),
                Piece::Raw(" took "),
                Piece::Span(call.milliseconds / 1000),
                Piece::Raw(" at "),
                Piece::Time(call.at),
                Piece::Raw(". "),
            ],
        ),
    }
}

/// Writes how far the clock was set back.
fn write_clock<W: Write>(out: &mut W, clock_behind: u64) -> io::Result<()> {
    let pieces = [
        Piece::Raw("The clock was set back by "),
        Piece::Grouped(clock_behind),
        Piece::Raw(" s. "),
    ];
    write_pieces(out, &pieces)
}

/// Writes a reason that holds. That sources are old or refused is written together.
fn write_reason<W: Write>(out: &mut W, status: &Status, reason: Reason) -> io::Result<()> {
    match reason {
        Reason::Publication => write_failure(out, &status.publication_failure),
        Reason::Shrank => write_shrunk(out, status),
        Reason::TurnedAway => write_away(out, status.turned_away),
        Reason::SlowPoll => write_slow(out, status),
        Reason::Clock => write_clock(out, status.clock_behind),
        Reason::Old | Reason::RefusedLong | Reason::Refused => Ok(()),
        Reason::NoVrps | Reason::NoVersion => out.write_all(sentence(status, reason).as_bytes()),
    }
}

/// Writes the reasons that hold, but for sources that are old or refused.
fn write_reasons<W: Write>(out: &mut W, status: &Status) -> io::Result<()> {
    for reason in REASONS {
        if has_reason(status, reason) {
            write_reason(out, status, reason)?;
        }
    }
    Ok(())
}

/// Writes how many routers are behind, if some are: a note, and no reason.
fn write_behind<W: Write>(out: &mut W, behind: u64, routers: u64) -> io::Result<()> {
    if behind == 0 {
        return Ok(());
    }
    let noun = if routers == 1 {
        " router "
    } else {
        " routers "
    };
    let verb = if behind == 1 { "is" } else { "are" };
    let pieces = [
        Piece::Grouped(behind),
        Piece::Raw(" of "),
        Piece::Grouped(routers),
        Piece::Raw(noun),
        Piece::Raw(verb),
        Piece::Raw(" behind. "),
    ];
    write_pieces(out, &pieces)
}

/// Writes the state in sentences, each with a space after it.
pub(crate) fn write_state<W: Write>(out: &mut W, status: &Status) -> io::Result<()> {
    if is_well(status) {
        out.write_all(b"All is well. ")?;
    } else {
        write_reasons(out, status)?;
        write_sources(out, status)?;
    }
    write_behind(out, behind_count(status), status.clients.len() as u64)
}
