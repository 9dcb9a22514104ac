//! PDUs, printed in lines.
ghost use Rattle.std.specs.Prelude.{◌≡◌, codes, IfOk, OnOk};
ghost use Rattle.std.specs.Io.KnownBytes.{Appends};
ghost use Rattle.rtr_commands.specs.UnitLines.{TellsUnits, copy_text, report_line, unit_line};

use command_parts::print_hex;
use prefixes::Vrp;
use rtr_pdu::{Counted, ReadFault, Unit, Version, read_unit_of};
use std::io::{self, ErrorKind, Write};

/// What follows the PDUs at the beginning of an input.
#[derive(Clone, Copy, Debug, PartialEq, Eq)]
pub enum UnitsEnd {
    /// Nothing follows: the input ends after a PDU, or is empty.
    Whole,
    /// Bytes follow that are not a PDU, or only its beginning. `number` is the fault, 1 to 7. `offset` is its place, in bytes from the start.
    Refused { number: u8, offset: usize },
}

/// Prints a payload that is announced, or withdrawn.
#[tactic(auto, unfolding(crate::specs::UnitLines::unit_line))]
fn print_prefix<W: Write>(announce: bool, vrp: &Vrp, out: &mut W) -> io::Result<()>
    ensures { OnOk result (Appends (W.contents out.old) (W.contents out.new) (unit_line (Unit.Prefix announce vrp.now))) }
{
    let prefix = vrp.prefix();
    let asn = vrp.asn();
    if announce {
        writeln!(out, "announce {} {} {}", prefix, vrp.max_len(), asn)
    } else {
        writeln!(out, "withdraw {} {} {}", prefix, vrp.max_len(), asn)
    }
}

/// Prints the copy of an Error Report in hexadecimal, `-` if it is empty.
#[tactic(auto, unfolding(crate::specs::UnitLines::copy_text))]
fn print_copy<W: Write>(copy: &[u8], out: &mut W) -> io::Result<()>
    ensures { OnOk result (Appends (W.contents out.old) (W.contents out.new) (copy_text copy.now)) }
{
    if copy.is_empty() {
        write!(out, "-")
    } else {
        print_hex(copy, out)
    }
}

/// Prints an Error Report: its code and its copy.
fn print_report<W: Write>(code: u16, copy: &[u8], out: &mut W) -> io::Result<()>
    ensures { OnOk result (Appends (W.contents out.old) (W.contents out.new) (report_line code copy.now)) }
{
    write!(out, "error-report {code} ")?;
    print_copy(copy, out)?;
    writeln!(out)
}

/// Prints a PDU as one line: its type and its fields, such as `serial-query 4660 5`. An Error Report has its code and its encapsulated PDU in
/// hexadecimal, `-` if that is empty. A Router Key has its type alone. `Err`: the output failed.
#[tactic(auto, unfolding(crate::specs::UnitLines::unit_line))]
pub fn print_unit<W: Write>(unit: &Unit, out: &mut W) -> io::Result<()>
    ensures { OnOk result (Appends (W.contents out.old) (W.contents out.new) (unit_line unit.now)) }
{
    match unit {
        Unit::SerialNotify { session, serial } => writeln!(out, "serial-notify {session} {serial}"),
        Unit::SerialQuery { session, serial } => writeln!(out, "serial-query {session} {serial}"),
        Unit::ResetQuery => writeln!(out, "reset-query"),
        Unit::CacheResponse { session } => writeln!(out, "cache-response {session}"),
        Unit::Prefix { announce, vrp } => print_prefix(*announce, vrp, out),
        Unit::EndOfData {
            session,
            serial,
            refresh,
            retry,
            expire,
        } => {
            writeln!(
                out,
                "end-of-data {session} {serial} {refresh} {retry} {expire}"
            )
        }
        Unit::EndOfData0 { session, serial } => writeln!(out, "end-of-data {session} {serial}"),
        Unit::CacheReset => writeln!(out, "cache-reset"),
        Unit::RouterKey(_) => writeln!(out, "router-key"),
        Unit::ErrorReport(report) => print_report(report.code(), report.copy(), out),
    }
}

/// Prints the PDUs at the beginning of the bytes, one a line (RFC 6810 section 5, RFC 8210 section 5).
/// Returns what follows them. The first header gives the protocol version of all PDUs; another version later is a fault.
/// `Err`: the output failed.
pub fn print_units<W: Write>(bytes: &[u8], out: &mut W) -> io::Result<UnitsEnd>
    ensures { IfOk result (λ end. TellsUnits bytes.now (W.contents out.old) (W.contents out.new) end) }
{
    let version = Version::first(bytes);
    let mut input = Counted::new(bytes);
    loop {
        let offset = bytes.len() - input.device().len();
        match read_unit_of(version, &mut input) {
            Ok(Some(unit)) => print_unit(&unit, out)?,
            Ok(None) => return Ok(UnitsEnd::Whole),
            Err(ReadFault::Fault(fault)) => {
                return Ok(UnitsEnd::Refused {
                    number: fault.number(),
                    offset,
                });
            }
            Err(ReadFault::ReadFailed) => return Err(io::Error::from(ErrorKind::Other)),
        }
    }
}
