//! The start of an export: its metadata, before the records.
ghost use Rattle.std.specs.Prelude.{◌≡◌, OnOk};
ghost use Rattle.std.specs.Io.KnownBytes.{Appends};
ghost use Rattle.status_pages.specs.Export.{BeginsExport, BeginsRoutinator, export_head, routinator_head};

use event_log::time_at;
use std::io::{self, Write};

/// Writes the start, with the time as a text.
#[tactic(auto, unfolding(crate::specs::Export::export_head))]
fn write_export_head_at<W: Write>(out: &mut W, time: &[u8], made: u64, vrps: u64) -> io::Result<()>
    ensures { OnOk result (Appends (W.contents out.old) (W.contents out.new) (export_head time.now made vrps)) }
{
    out.write_all(b"{\"metadata\":{\"buildtime\":\"")?;
    out.write_all(time)?;
    write!(out, "\",\"generated\":{made},\"vrps\":{vrps}}},\"roas\":")
}

/// Writes the start of a JSON export in the format of rpki-client and StayRTR: the metadata and the key `roas`. The caller writes the VRPs after
/// it, as a payload list, and then `}`.
///
/// `made` is when the VRPs were made, in seconds since 1970. `vrps` is their number. `Err`: the writer failed.
pub fn write_export_head<W: Write>(out: &mut W, made: u64, vrps: u64) -> io::Result<()>
    ensures { OnOk result (BeginsExport (W.contents out.old) (W.contents out.new) made vrps) }
{
    let time = time_at(made);
    write_export_head_at(out, &time, made, vrps)
}

/// Writes the start in the format of Routinator, with the time as a text.
fn write_routinator_head_at<W: Write>(out: &mut W, time: &[u8], made: u64) -> io::Result<()>
    ensures { OnOk result (Appends (W.contents out.old) (W.contents out.new) (routinator_head time.now made)) }
{
    write!(
        out,
        "{{\"metadata\":{{\"generated\":{made},\"generatedTime\":\""
    )?;
    out.write_all(time)?;
    out.write_all(b"\"},\"roas\":")
}

/// Writes the start of a JSON export in the format of Routinator: the metadata and the key `roas`. The caller writes the VRPs after it, with
/// [`write_roas`](crate::write_roas), and then `}`.
///
/// `made` is when the VRPs were made, in seconds since 1970. `Err`: the writer failed.
pub fn write_routinator_head<W: Write>(out: &mut W, made: u64) -> io::Result<()>
    ensures { OnOk result (BeginsRoutinator (W.contents out.old) (W.contents out.new) made) }
{
    let time = time_at(made);
    write_routinator_head_at(out, &time, made)
}
