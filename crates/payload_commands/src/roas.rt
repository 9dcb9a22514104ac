//! ROAs, printed in lines.
ghost use Rattle.std.specs.Prelude.{◌≡◌, OnOk};
ghost use Rattle.std.specs.Io.KnownBytes.{Appends};
ghost use Rattle.payload_commands.specs.RoaLines.{entry_line, roa_lines};

use payloads::{Roa, RoaEntry};
use prefixes::Asn;
use std::io::{self, Write};

/// Prints an entry: the prefix, the maximum length and the AS.
fn print_entry<W: Write>(asn: Asn, entry: &RoaEntry, out: &mut W) -> io::Result<()>
    ensures { OnOk result (Appends (W.contents out.old) (W.contents out.new) (entry_line asn.0 entry.now)) }
{
    let max_len = entry.greatest_length();
    writeln!(out, "{} {} {}", entry.prefix, max_len, asn)
}

/// Prints one line for each ROA entry, in the ROA's order: prefix, maximum length, AS number without `AS`, with spaces between.
/// Without a maximum length, the prefix length is printed. `Err`: the output failed.
pub fn print_roa<W: Write>(roa: &Roa, out: &mut W) -> io::Result<()>
    ensures { OnOk result (Appends (W.contents out.old) (W.contents out.new) (roa_lines roa.now)) }
{
    let asn = roa.asn();
    for entry in roa.entries() {
        print_entry(asn, entry, out)?;
    }
    Ok(())
}
