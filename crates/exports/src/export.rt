//! Exports, read from JSON.
ghost use Rattle.std.specs.Prelude.{◌≡◌, ◌≤◌, ℕ, IfOk, IfErr};
ghost use Rattle.vrps.specs.VrpSet.{set_of, size};
ghost use Rattle.exports.specs.Anchors.{IsExportAnchored};
ghost use Rattle.exports.specs.Export.{HasFault, IsExport};
ghost use Rattle.exports.specs.Gathering.{SetFails};
ghost use Rattle.exports.specs.Ignored.{IsExportCounted};
ghost use Rattle.exports.specs.Lasting.{AreLasts, IsExportLasting};
ghost use Rattle.exports.specs.Numbering.{AreNumbers};
ghost use Rattle.exports.specs.Until.{IsBefore, IsExportUntil};

use crate::anchors::ExportAnchors;
use crate::fault::ExportFault;
use crate::gathered::EntryRecords;
use crate::ignored::Ignored;
use crate::lasting::{SetLasting, set_lasting};
use crate::streaming::{Entries, ExportMembers};
use crate::text::parts_of_text;
use std::alloc::Global;
use std::str;
use vrps::VrpSet;

/// What a validator exported, read for one second: the `now` of the call, in seconds since 1970.
#[derive(Debug, Drop)]
pub struct Export {
    /// The VRPs of the entries that count at `now`. An entry counts before the second of its `expires`, and always if it has none.
    pub set: VrpSet,
    /// The number of entries that do not count, because their `expires` is at or before `now`.
    pub expired: u64,
    /// The second since 1970 at which the export was made, by its `metadata`. `None`: it does not say so.
    pub built: Option<u64>,
}

/// An export, and the second until which it stays the same.
#[derive(Debug, Drop)]
pub struct TimedExport {
    /// The export at `now`. It is the same at each later second before `until`.
    pub export: Export,
    /// The least `expires` of the entries that count, in seconds since 1970. From that second on, this entry does not count.
    /// `None`: no entry that counts has an `expires`.
    pub until: Option<u64>,
}

/// An export, and the last second at which each of its records counts. Seconds are counted since 1970.
#[derive(Debug, Drop)]
pub struct ExportLasting {
    /// The export at `now`.
    pub export: Export,
    /// The least `expires` of the entries that count, as in [`TimedExport`]. `None`: no entry that counts has an `expires`.
    pub until: Option<u64>,
    /// For each record of the set, in the set's order, the last second at which it counts: the one before the `expires` of its entry.
    /// If several entries have this record, the greatest of these seconds is used. `u64::MAX`: one of them has no `expires`.
    pub lasts: Vec<u64>,
}

/// An export with the last second of each record, the number of elements that are not served, and the trust anchors.
#[derive(Debug, Drop)]
pub struct ExportCounted {
    /// The export at `now`, and the last second at which each record counts.
    pub lasting: ExportLasting,
    /// The number of elements that are not served: ASPAs and router keys. It does not depend on `now`.
    pub ignored: Ignored,
    /// The trust anchors that the entries name.
    pub anchors: ExportAnchors,
}

/// The export of what was gathered, and its trust anchors.
fn export_of(
    alloc: Global,
    gathered: EntryRecords,
    built: Option<u64>,
) -> Result<(ExportLasting, ExportAnchors), ExportFault>
    ensures set { IfOk result (λ x. (x.0.export.set ≡ set_of gathered.records.items) × (size x.0.export.set ≤ 16777215)) }
    ensures lasts { IfOk result (λ x. AreLasts gathered.records.items gathered.lasts.items x.0.export.set x.0.lasts.items) }
    ensures anchors { IfOk result (λ x. AreNumbers gathered.records.items gathered.anchors.items x.0.export.set x.1.of_each.items × (x.1.names ≡ gathered.names.names)) }
    ensures rest { IfOk result (λ x. (x.0.export.expired ≡ gathered.expired) × (x.0.export.built ≡ built) × (x.0.until ≡ gathered.until)) }
    ensures fault { IfErr result (λ fault. SetFails gathered.records.items fault) }
{
    let EntryRecords {
        records,
        lasts,
        anchors,
        names,
        expired,
        until,
    } = gathered;
    let made = set_lasting(alloc, records, lasts.as_slice(), anchors.as_slice())?;
    let SetLasting {
        set,
        lasts,
        anchors: of_each,
    } = made;
    let export = Export {
        set,
        expired,
        built,
    };
    let lasting = ExportLasting {
        export,
        until,
        lasts,
    };
    let anchors = ExportAnchors {
        names: names.names,
        of_each,
    };
    Ok((lasting, anchors))
}

/// The export of a text.
fn read_text(alloc: Global, text: &str, now: u64) -> Result<ExportCounted, ExportFault>
    ensures ok { IfOk result (λ x. IsExportCounted text.now now x) }
    ensures anchors { IfOk result (λ x. IsExportAnchored text.now now x) }
    ensures fault { IfErr result (λ fault. HasFault text.now now fault) }
{
    let ExportMembers {
        entries,
        built,
        elements,
        repeats,
    } = parts_of_text(alloc, text, now)?;
    if repeats {
        return Err(ExportFault::Repeated);
    }
    let gathered = match entries {
        Some(Entries::Whole(gathered)) => gathered,
        Some(Entries::Broken(index, what)) => return Err(ExportFault::Entry(index, what)),
        None => return Err(ExportFault::NoRoas),
    };
    let Some(ignored) = elements.ignored() else {
        return Err(ExportFault::Memory);
    };
    let (lasting, anchors) = export_of(alloc, gathered, built)?;
    Ok(ExportCounted {
        lasting,
        ignored,
        anchors,
    })
}

/// Reads an export: a payload list (an array), or an object whose member `roas` is an array of entries. `now` is in seconds since 1970.
///
/// An entry of `roas` is an object with `asn`, `prefix`, `maxLength` and perhaps `expires`. Other members are ignored.
/// `asn` is a whole number below 2^32, or a text of one, with `AS` before it or without. An IPv6 prefix may be in mixed notation.
/// An entry with `expires` counts before that second since 1970, any other entry always.
/// A name that is read must not be repeated in its object. [`ExportFault::Repeated`] lists these names.
///
/// An item of a payload list has exactly `asn`, `prefix` and `maxLength`, and `asn` is a number. If an item is otherwise, the fault is `NoRoas`.
/// Of a repeated name the last value counts.
///
/// `Err`: the first fault in this order: `NotJson`, `Repeated`, `NoRoas`, `Entry`, `TooMany`. `Memory` (out of memory) may come at any step.
/// `NotJson` includes bytes that are not UTF-8, a nesting of over 127 levels, and a number that is too large for a float. The text is read token
/// by token, without a tree of it.
pub fn read_export(alloc: Global, bytes: &[u8], now: u64) -> Result<Export, ExportFault>
    ensures ok { IfOk result (λ export. IsExport bytes.now now export) }
    ensures fault { IfErr result (λ fault. HasFault bytes.now now fault) }
{
    match read_export_until(alloc, bytes, now) {
        Ok(TimedExport { export, until: _ }) => Ok(export),
        Err(fault) => Err(fault),
    }
}

/// Reads an export by the rules of [`read_export`], with the same faults. `now` is in seconds since 1970. Also returns `until`, the second since 1970
/// until which the export stays the same.
/// `Some(until)`: from that second on, at least one entry that counts at `now` does not count. Before it, the bytes need not be read again.
/// `None`: the export stays the same at each later second.
pub fn read_export_until(alloc: Global, bytes: &[u8], now: u64) -> Result<TimedExport, ExportFault>
    ensures ok { IfOk result (λ x. IsExportUntil bytes.now now x) }
    ensures lasts { IfOk result (λ x. (t : ℕ) → now ≤ t → IsBefore t x.until → IsExport bytes.now t x.export) }
    ensures fault { IfErr result (λ fault. HasFault bytes.now now fault) }
{
    match read_export_lasting(alloc, bytes, now) {
        Ok(read) => Ok(TimedExport {
            export: read.export,
            until: read.until,
        }),
        Err(fault) => Err(fault),
    }
}

/// Reads an export by the rules of [`read_export`], with the same faults. Also returns the last second at which each record counts, in the order of
/// the set. So the records that count at a later second follow without the bytes.
/// `now` and the last seconds are in seconds since 1970. `u64::MAX`: the record counts at each later second.
pub fn read_export_lasting(
    alloc: Global,
    bytes: &[u8],
    now: u64,
) -> Result<ExportLasting, ExportFault>
    ensures ok { IfOk result (λ x. IsExportLasting bytes.now now x) }
    ensures fault { IfErr result (λ fault. HasFault bytes.now now fault) }
{
    match read_export_counted(alloc, bytes, now) {
        Ok(
            ExportCounted {
                lasting,
                ignored: _,
                anchors: _,
            },
        ) => Ok(lasting),
        Err(fault) => Err(fault),
    }
}

/// Reads an export by the rules of [`read_export_lasting`], at `now`, in seconds since 1970. Also counts the elements that are not served, and
/// returns the trust anchors.
///
/// The elements counted are those of the arrays `aspas`, `bgpsec_keys` and `routerKeys` in the root object.
/// A member that is not an array counts as empty, and a payload list has no such members.
/// These names must not be repeated in the root. The elements cost no memory.
///
/// The trust anchor of a record is the text `ta` of its entry, or of one of its entries if several have this record. A value that is not a text
/// counts as absent.
/// At most 32 names of at most 64 bytes are kept. If `ta` is repeated in an entry, the last one counts. The faults are those of [`read_export`].
pub fn read_export_counted(
    alloc: Global,
    bytes: &[u8],
    now: u64,
) -> Result<ExportCounted, ExportFault>
    ensures ok { IfOk result (λ x. IsExportCounted bytes.now now x) }
    ensures anchors { IfOk result (λ x. IsExportAnchored bytes.now now x) }
    ensures fault { IfErr result (λ fault. HasFault bytes.now now fault) }
{
    match str::from_utf8(bytes) {
        Ok(text) => read_text(alloc, text, now),
        Err(_no_utf8) => Err(ExportFault::NotJson),
    }
}
