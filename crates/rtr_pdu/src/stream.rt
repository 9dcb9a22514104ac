//! Whole streams.
ghost use Rattle.std.specs.Prelude.{◌≡◌, ℕ, Bool, List, ◌++◌, Option, is_some, IfOk};
ghost use Rattle.std.specs.List.{flat_map};
ghost use Rattle.rtr_pdu.specs.Stream.{is_notify};
ghost use Rattle.rtr_pdu.specs.Run.{HasBegun, HasFed, HasOnly};
ghost use Rattle.rtr_pdu.specs.Reader.{fresh, told};
ghost use Rattle.rtr_pdu.specs.Version.{version_in};

use crate::reader::UnitReader;
use crate::unit::{Next, Unit, UnitFault};
use crate::version::Version;
use std::alloc::{AllocError, Global};

/// Whether the PDU is a Serial Notify.
fn shows_notify(unit: &Unit) -> bool
    ensures { result ≡ is_notify unit.now }
{
    match unit {
        Unit::SerialNotify { .. } => true,
        _ => false,
    }
}

/// Lets the reader know of agreement at the first PDU that is no Serial Notify.
fn tell(reader: &mut UnitReader, unit: &Unit)
    ensures { reader.new ≡ told unit.now reader.old }
{
    if !shows_notify(unit) {
        reader.agreed();
    }
}

/// Reads a piece to its end, or to a fault.
fn feed(
    reader: &mut UnitReader,
    units: &mut Vec<Unit>,
    piece: &[u8],
) -> Result<Option<UnitFault>, AllocError>
    ensures { IfOk result (λ fault. (start : Option Version) (any : Bool) (stream : List ℕ) → HasBegun start any stream units.old.items reader.old
        → HasFed start any (stream ++ piece.now) units.new.items reader.new fault) }
{
    let mut rest = piece;
    loop {
        match reader.next(&mut rest) {
            Next::Unit(unit) => {
                tell(reader, &unit);
                units.push(unit)?;
            }
            Next::NeedMore => return Ok(None),
            Next::Fault(fault) => return Ok(Some(fault)),
        }
    }
}

/// A reader at a router that speaks this version, or at the cache.
fn reader_at(router: Option<Version>) -> UnitReader
    ensures { result ≡ fresh router (is_some router) }
{
    match router {
        Some(version) => UnitReader::for_router(version),
        None => UnitReader::for_cache(),
    }
}

/// Reads the PDUs of the stream that arrives in these pieces, up to its end or the first fault. It returns the PDUs and the fault; `None`: there
/// is no fault.
/// `router`: the version that the reading router speaks, or `None` to read as a cache. A router agrees on its version at the first PDU other
/// than a Serial Notify.
/// It is not a fault here if the stream ends within a PDU. `AllocError`: no memory for the PDUs.
pub fn read_all(
    alloc: Global,
    router: Option<Version>,
    pieces: &[Vec<u8>],
) -> Result<(Vec<Unit>, Option<UnitFault>), AllocError>
    // Nothing else is read from the same bytes, however they are cut.
    ensures { IfOk result (λ found. HasOnly (version_in router (flat_map (λ piece. piece.items) pieces.now)) (is_some router) (flat_map (λ piece. piece.items) pieces.now) found.0.items found.1) }
{
    let mut reader = reader_at(router);
    let mut units = Vec::new(alloc);
    for piece in pieces {
        let fault = feed(&mut reader, &mut units, piece.as_slice())?;
        if fault.is_some() {
            return Ok((units, fault));
        }
    }
    Ok((units, None))
}
