//! The records as the array of objects in Routinator's JSON (`/json`).
ghost use Rattle.std.specs.Prelude.{◌≡◌, OnOk};
ghost use Rattle.std.specs.Io.KnownBytes.{Appends};
ghost use Rattle.std.specs.List.{flat_map};
ghost use Rattle.status_pages.specs.Roas.{joined_roas, roa_after_comma, roa_text, roas_text};

use prefixes::Vrp;
use std::io::{self, Write};

/// Writes a record.
#[tactic(auto, unfolding(crate::specs::Roas::roa_text))]
fn write_roa<W: Write>(out: &mut W, vrp: &Vrp) -> io::Result<()>
    ensures { OnOk result (Appends (W.contents out.old) (W.contents out.new) (roa_text vrp.now)) }
{
    let (asn, prefix, max_len) = (vrp.asn(), vrp.prefix(), vrp.max_len());
    write!(
        out,
        "{{\"asn\":\"AS{asn}\",\"prefix\":\"{prefix}\",\"maxLength\":{max_len},\"ta\":\"\"}}"
    )
}

/// Writes a comma and a record.
fn write_after_comma<W: Write>(out: &mut W, vrp: &Vrp) -> io::Result<()>
    ensures { OnOk result (Appends (W.contents out.old) (W.contents out.new) (roa_after_comma vrp.now)) }
{
    out.write_all(b",")?;
    write_roa(out, vrp)
}

/// Writes records, each after a comma.
fn write_more<W: Write>(out: &mut W, records: &[Vrp]) -> io::Result<()>
    ensures { OnOk result (Appends (W.contents out.old) (W.contents out.new) (flat_map roa_after_comma records.now)) }
{
    for vrp in records {
        write_after_comma(out, vrp)?;
    }
    Ok(())
}

/// Writes records, separated by commas.
fn write_joined<W: Write>(out: &mut W, records: &[Vrp]) -> io::Result<()>
    ensures { OnOk result (Appends (W.contents out.old) (W.contents out.new) (joined_roas records.now)) }
{
    let Some((first, others)) = records.split_first() else {
        return Ok(());
    };
    write_roa(out, first)?;
    write_more(out, others)
}

/// Writes VRPs as a JSON array in the order given, as Routinator and StayRTR do. Each VRP is an object with the members `asn`, `prefix`,
/// `maxLength` and `ta`. The member `ta` is empty, as a cache does not know the trust anchor. Without VRPs it writes `[]`.
/// `Err`: the writer failed, and a part of the text may be written.
#[tactic(auto, unfolding(crate::specs::Roas::roas_text))]
pub fn write_roas<W: Write>(out: &mut W, records: &[Vrp]) -> io::Result<()>
    ensures { OnOk result (Appends (W.contents out.old) (W.contents out.new) (roas_text records.now)) }
{
    out.write_all(b"[")?;
    write_joined(out, records)?;
    out.write_all(b"]")
}
