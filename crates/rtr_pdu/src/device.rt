//! One PDU from a reader, and one to a writer.
ghost use Rattle.std.specs.Prelude.{◌≡◌, ◌<◌, ◌≤◌, ◌+◌, true, false, length, IfOk, IfErr};
ghost use Rattle.std.specs.Io.KnownBytes.{Appends};
ghost use Rattle.rtr_pdu.specs.Counted.{device_of, calls_of, failures_of, HasFailed};
ghost use Rattle.rtr_pdu.specs.Device.{ReadsUnit, CountsRead, GoesOutInPart, wanted, end_answer};
ghost use Rattle.rtr_pdu.specs.Stream.{as_read, IsPartial};
ghost use Rattle.rtr_pdu.specs.Unit.{IsUnit, fits, unit_bytes};

use crate::counted::Counted;
use crate::reader::UnitReader;
use crate::reading::number_32;
use crate::unit::{MAX_UNIT_LEN, Next, Unit, UnitFault};
use crate::version::Version;
use crate::writing::encode;
use arrayvec::ArrayVec;
use std::io::{Read, Write};
use thiserror::Error;

/// Why no PDU was read. The numbers of the faults are fixed.
#[derive(Clone, Copy, Debug, PartialEq, Eq, Error)]
pub enum ReadFault {
    /// The bytes are not a valid PDU, or the input ends within one.
    #[error(transparent)]
    Fault(UnitFault),
    /// A read call returned an error.
    #[error("the reader failed (fault 8)")]
    ReadFailed,
}

impl ReadFault {
    ghost use Rattle.rtr_pdu.specs.Fault.{read_fault_number};

    /// The number of the fault, as `Display` writes it: 1 to 7 for a `UnitFault`, 8 if the reader failed.
    pub fn number(self) -> u8
        ensures { result ≡ read_fault_number self }
    {
        match self {
            ReadFault::Fault(fault) => fault.number(),
            ReadFault::ReadFailed => 8,
        }
    }
}

/// A write call returned an error, or wrote no byte.
#[derive(Clone, Copy, Debug, PartialEq, Eq, Error)]
#[error("the writer failed")]
pub struct WriteFailed;

/// Writes all the bytes.
fn write_bytes<W: Write>(bytes: &[u8], out: &mut Counted<W>) -> Result<(), WriteFailed>
    ensures ok { IfOk result (λ _. Appends (W.contents (device_of out.old)) (W.contents (device_of out.new)) bytes.now
        × (failures_of out.new ≡ failures_of out.old)) }
    ensures err { IfErr result (λ _. GoesOutInPart (W.contents (device_of out.old)) (W.contents (device_of out.new)) bytes.now
        × HasFailed out.old out.new) }
    ensures calls { calls_of out.new ≤ calls_of out.old + length bytes.now }
{
    let mut at = 0;
    while at < bytes.len() {
        match out.write(&bytes[at..]) {
            Ok(0) => return Err(WriteFailed),
            Ok(n) => at += n,
            Err(_) => return Err(WriteFailed),
        }
    }
    Ok(())
}

/// Writes a PDU of version 1 (RFC 8210 section 5), with one write call if the writer accepts all bytes at once. The PDU must fit version 1
/// (`Unit::fits`). The writer is not flushed.
/// `WriteFailed`: a write call returned an error of any kind, or wrote no byte. Then only a part of the PDU is written, possibly no byte of it.
pub fn write_unit<W: Write>(unit: &Unit, out: &mut Counted<W>) -> Result<(), WriteFailed>
    requires { fits Version.V1 unit.now ≡ true }
    ensures ok { IfOk result (λ _. Appends (W.contents (device_of out.old)) (W.contents (device_of out.new)) (unit_bytes Version.V1 unit.now)
        × (failures_of out.new ≡ failures_of out.old)) }
    ensures err { IfErr result (λ _. GoesOutInPart (W.contents (device_of out.old)) (W.contents (device_of out.new)) (unit_bytes Version.V1 unit.now)
        × HasFailed out.old out.new) }
    ensures calls { calls_of out.new ≤ calls_of out.old + length (unit_bytes Version.V1 unit.now) }
    ensures unit { IsUnit unit.now }
{
    let mut buffer = ArrayVec::new();
    encode(unit, &mut buffer);
    write_bytes(buffer.as_slice(), out)
}

/// The answer at the end of the input.
fn end(fault: Option<UnitFault>) -> Result<Option<Unit>, ReadFault>
    ensures { result ≡ end_answer fault }
{
    match fault {
        None => Ok(None),
        Some(fault) => Err(ReadFault::Fault(fault)),
    }
}

/// How many bytes are needed of a PDU: to the end of its header, or of the whole.
fn missing(version: Version, held: &[u8]) -> usize
    requires { IsPartial version (as_read version false held.now) }
    ensures value { result ≡ wanted held.now }
    ensures some { 0 < result }
    ensures most { result ≤ MAX_UNIT_LEN }
{
    if held.len() < 8 {
        8 - held.len()
    } else {
        number_32(held, 4) as usize - held.len()
    }
}

/// Reads one PDU of version 1, as `read_unit_of` does, with the same errors. `Ok(None)`: the input ends before the first byte.
pub fn read_unit<R: Read>(input: &mut Counted<R>) -> Result<Option<Unit>, ReadFault>
    ensures reads { ReadsUnit Version.V1 (R.remaining (device_of input.old)) (R.remaining (device_of input.new)) (calls_of input.old) (calls_of input.new) result }
    ensures counts { CountsRead input.old input.new result }
{
    read_unit_of(Version::V1, input)
}

/// Reads one PDU of this version, and no byte after it. `Ok(None)`: the input ends before the first byte. Every PDU must show this version, a
/// Serial Notify too.
/// `Fault`: the bytes are not a valid PDU, or the input ends within one (`Truncated`). `ReadFailed`: a read call returned an error of any kind.
/// Then the bytes read so far are lost.
pub fn read_unit_of<R: Read>(
    version: Version,
    input: &mut Counted<R>,
) -> Result<Option<Unit>, ReadFault>
    ensures reads { ReadsUnit version (R.remaining (device_of input.old)) (R.remaining (device_of input.new)) (calls_of input.old) (calls_of input.new) result }
    ensures counts { CountsRead input.old input.new result }
{
    let mut reader = UnitReader::of_version(version);
    let mut bytes = [0u8; MAX_UNIT_LEN];
    loop {
        let size = missing(version, reader.held());
        match input.read(&mut bytes[..size]) {
            Ok(0) => return end(reader.end_of_input()),
            Ok(n) => {
                let mut piece = &bytes[..n];
                match reader.next(&mut piece) {
                    Next::Unit(unit) => return Ok(Some(unit)),
                    Next::NeedMore => {}
                    Next::Fault(fault) => return Err(ReadFault::Fault(fault)),
                }
            }
            Err(_) => return Err(ReadFault::ReadFailed),
        }
    }
}
