//! The records as CSV.
ghost use Rattle.std.specs.Prelude.{◌≡◌, OnOk};
ghost use Rattle.std.specs.Io.KnownBytes.{Appends};
ghost use Rattle.std.specs.List.{flat_map};
ghost use Rattle.status_pages.specs.Csv.{csv_line, csv_text, routinator_csv_text};

use prefixes::Vrp;
use std::io::{self, Write};

/// Writes the line of a record, with this end.
#[tactic(auto, unfolding(crate::specs::Csv::csv_line))]
fn write_csv_line<W: Write>(out: &mut W, vrp: &Vrp, end: &str) -> io::Result<()>
    ensures { OnOk result (Appends (W.contents out.old) (W.contents out.new) (csv_line end.now vrp.now)) }
{
    let (asn, prefix, max_len) = (vrp.asn(), vrp.prefix(), vrp.max_len());
    write!(out, "AS{asn},{prefix},{max_len}{end}")
}

/// Writes the lines of records, each with this end.
fn write_csv_lines<W: Write>(out: &mut W, records: &[Vrp], end: &str) -> io::Result<()>
    ensures { OnOk result (Appends (W.contents out.old) (W.contents out.new) (flat_map (csv_line end.now) records.now)) }
{
    for vrp in records {
        write_csv_line(out, vrp, end)?;
    }
    Ok(())
}

/// Writes VRPs as CSV: the header line `ASN,IP Prefix,Max Length`, then one line for each VRP in the order given, such as
/// `AS64496,192.0.2.0/24,26`. `Err`: the writer failed, and a part of the text may be written.
pub fn write_csv<W: Write>(out: &mut W, records: &[Vrp]) -> io::Result<()>
    ensures { OnOk result (Appends (W.contents out.old) (W.contents out.new) (csv_text records.now)) }
{
    out.write_all(b"ASN,IP Prefix,Max Length\n")?;
    write_csv_lines(out, records, "\n")
}

/// Writes VRPs as CSV with the columns of Routinator: the header line `ASN,IP Prefix,Max Length,Trust Anchor`, then one line for each VRP in the
/// order given, such as `AS64496,192.0.2.0/24,26,`. The last column is empty, as a cache does not know the trust anchor.
/// `Err`: the writer failed, and a part of the text may be written.
pub fn write_routinator_csv<W: Write>(out: &mut W, records: &[Vrp]) -> io::Result<()>
    ensures { OnOk result (Appends (W.contents out.old) (W.contents out.new) (routinator_csv_text records.now)) }
{
    out.write_all(b"ASN,IP Prefix,Max Length,Trust Anchor\n")?;
    write_csv_lines(out, records, ",\n")
}
