//! How much of the files is not served: its metric, and its words on the page.
ghost use Rattle.std.specs.Prelude.{◌≡◌, OnOk, Some, map};
ghost use Rattle.std.specs.Io.KnownBytes.{Appends};
ghost use Rattle.std.specs.List.{flat_map};
ghost use Rattle.status_pages.specs.Ignored.{ignored_line, ignored_lines, kind_counted, kinds_of};

use crate::pieces::{Piece, write_pieces};
use crate::status::{FileStatus, IgnoredEntries};
use crate::text::write_label;
use std::io::{self, Write};

/// A kind of entries, as a label of the metric, and how many there are.
#[derive(Clone, Copy, Debug, PartialEq, Eq)]
pub(crate) struct KindCount {
    pub(crate) kind: &'static str,
    pub(crate) count: u64,
}

impl IgnoredEntries {
    /// The entries of each kind.
    pub(crate) fn kinds(&self) -> [KindCount; 2]
        ensures { map kind_counted result ≡ kinds_of (Some self.now) }
    {
        match self {
            IgnoredEntries::Export { aspas, router_keys } => [
                KindCount {
                    kind: "aspa",
                    count: *aspas,
                },
                KindCount {
                    kind: "router_key",
                    count: *router_keys,
                },
            ],
            IgnoredEntries::Slurm {
                bgpsec_filters,
                bgpsec_assertions,
            } => [
                KindCount {
                    kind: "bgpsec_filter",
                    count: *bgpsec_filters,
                },
                KindCount {
                    kind: "bgpsec_assertion",
                    count: *bgpsec_assertions,
                },
            ],
        }
    }
}

/// Writes how many entries of a kind a file has.
#[tactic(auto, unfolding(crate::specs::Ignored::ignored_line))]
fn write_kind<W: Write>(out: &mut W, path: &str, entries: &KindCount) -> io::Result<()>
    ensures { OnOk result (Appends (W.contents out.old) (W.contents out.new) (ignored_line path.now (kind_counted entries.now))) }
{
    out.write_all(b"rpkirtrd_file_ignored_entries{file=\"")?;
    write_label(out, path)?;
    out.write_all(b"\",kind=\"")?;
    out.write_all(entries.kind.as_bytes())?;
    out.write_all(b"\"} ")?;
    writeln!(out, "{}", entries.count)
}

/// Writes how many entries of each kind a file has.
fn write_kinds<W: Write>(out: &mut W, path: &str, entries: &[KindCount]) -> io::Result<()>
    ensures { OnOk result (Appends (W.contents out.old) (W.contents out.new) (flat_map (ignored_line path.now) (map kind_counted entries.now))) }
{
    for of_kind in entries {
        write_kind(out, path, of_kind)?;
    }
    Ok(())
}

/// Writes how much of a file is not served, by kind.
fn write_of_file<W: Write>(out: &mut W, file: &FileStatus) -> io::Result<()>
    ensures { OnOk result (Appends (W.contents out.old) (W.contents out.new) (ignored_lines file.now)) }
{
    match &file.ignored {
        None => Ok(()),
        Some(ignored) => write_kinds(out, file.path.as_str(), &ignored.kinds()),
    }
}

/// Writes the values of the metric `rpkirtrd_file_ignored_entries`: how much of each file is not served, by kind.
pub(crate) fn write_ignored<W: Write>(out: &mut W, files: &[FileStatus]) -> io::Result<()>
    ensures { OnOk result (Appends (W.contents out.old) (W.contents out.new) (flat_map ignored_lines files.now)) }
{
    for file in files {
        write_of_file(out, file)?;
    }
    Ok(())
}

/// What entries of a kind are on the page: one of them, and several.
fn words_of(kind: &str) -> (&'static str, &'static str) {
    match kind {
        "aspa" => (" ASPA", " ASPAs"),
        "router_key" => (" router key", " router keys"),
        "bgpsec_filter" => (" BGPsec filter", " BGPsec filters"),
        _ => (" BGPsec assertion", " BGPsec assertions"),
    }
}

/// Writes the entries of a kind in words, if there are any.
fn write_words<W: Write>(out: &mut W, head: &str, entries: &KindCount) -> io::Result<()> {
    if entries.count == 0 {
        return Ok(());
    }
    let (one, several) = words_of(entries.kind);
    let words = if entries.count == 1 { one } else { several };
    let pieces = [
        Piece::Raw(head),
        Piece::Grouped(entries.count),
        Piece::Raw(words),
    ];
    write_pieces(out, &pieces)
}

/// Writes in words how much of a file is not served, if there is any.
pub(crate) fn write_not_served<W: Write>(out: &mut W, file: &FileStatus) -> io::Result<()> {
    let Some(ignored) = &file.ignored else {
        return Ok(());
    };
    let [first, second] = ignored.kinds();
    write_words(out, ", not served: ", &first)?;
    let head = if first.count == 0 {
        ", not served: "
    } else {
        ", "
    };
    write_words(out, head, &second)
}
