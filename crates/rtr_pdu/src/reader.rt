//! PDUs from a stream that comes in pieces.
ghost use Rattle.std.specs.Prelude.{◌≡◌, ℕ, ◌≤◌, List, [], ◌++◌, length, Bool, Some, None, true, false, IfSome, IfNone};
ghost use Rattle.prefixes.specs.Payload.{Payload};
ghost use Rattle.arrayvec.specs.ArrayVec.{array_vec_len};
ghost use Rattle.rtr_pdu.specs.Stream.{as_read, header_fault, length_of, IsPartial};
ghost use Rattle.rtr_pdu.specs.Reader.{Advances, FitsAnswer, ReaderTakes, IsReader, fresh, after_agreed, at_end, known_version, version_with, Reader};
ghost use Rattle.rtr_pdu.specs.Version.{version_in};
ghost use Rattle.rtr_pdu.specs.Reading.{filled, unfilled};
ghost use Rattle.rtr_pdu.specs.declared.unit.Unit.TheVariants.{Prefix};

use crate::reading::{judge, number_32, read, read_prefix, whole_size};
use crate::unit::{MAX_UNIT_LEN, Next, UnitFault};
use crate::version::Version;
use crate::writing::UnitBuffer;
use arrayvec::ArrayVec;
use prefixes::Vrp;
use std::marker::Model;

/// Moves bytes of the piece to the buffer until it has this size.
fn fill(buffer: &mut UnitBuffer, piece: &mut &[u8], size: usize)
    requires { size ≤ MAX_UNIT_LEN }
    ensures held { buffer.new.items ≡ filled size buffer.old.items piece.old.now }
    ensures rest { piece.new.now ≡ unfilled size buffer.old.items piece.old.now }
{
    let bytes: &[u8] = *piece;
    let missing = size.saturating_sub(buffer.len()).min(bytes.len());
    let (front, back) = bytes.split_at(missing);
    let _fits = buffer.try_extend_from_slice(front);
    *piece = back;
}

/// Consumes the body of a PDU whose header has no fault.
fn finish(version: Version, any: bool, buffer: &mut UnitBuffer, piece: &mut &[u8]) -> Next
    requires sound { header_fault version (as_read version any buffer.old.items) ≡ None }
    requires header { 8 ≤ array_vec_len buffer.old }
    requires within { array_vec_len buffer.old ≤ length_of (as_read version any buffer.old.items) }
    ensures { Advances version any buffer.old.items piece.old.now result piece.new.now buffer.new.items }
{
    let size = number_32(buffer.as_slice(), 4) as usize;
    fill(buffer, piece, size);
    if buffer.len() < size {
        return Next::NeedMore;
    }
    match read(version, any, buffer.as_slice()) {
        Ok(unit) => Next::Unit(unit),
        Err(fault) => Next::Fault(fault),
    }
}

/// Consumes what there is of a PDU.
fn advance(version: Version, any: bool, buffer: &mut UnitBuffer, piece: &mut &[u8]) -> Next
    requires { IsPartial version (as_read version any buffer.old.items) }
    ensures { Advances version any buffer.old.items piece.old.now result piece.new.now buffer.new.items }
{
    fill(buffer, piece, 8);
    if buffer.len() < 8 {
        return Next::NeedMore;
    }
    match judge(version, any, buffer.as_slice()) {
        Some(fault) => Next::Fault(fault),
        None => finish(version, any, buffer, piece),
    }
}

/// Reads PDUs of one version from a stream that arrives in pieces, one PDU per call. It consumes no byte of a PDU before the previous PDU is
/// returned.
/// It holds at most 4,096 bytes. They are stored inline, so it allocates no memory.
#[derive(Debug, Drop)]
pub struct UnitReader {
    /// The version of the PDUs, if it was known from the start or a PDU was read.
    version: Option<Version>,
    /// What was read of the PDU in hand, or of the bytes that are none.
    buffer: UnitBuffer,
    /// Whether a Serial Notify may show any version.
    any: bool,
    /// The same for the PDUs after the one in hand.
    later: bool,
    /// The fault, once there was one.
    fault: Option<UnitFault>,
}

impl Model for UnitReader {
    ghost use Rattle.rtr_pdu.specs.Reader.{Reader, IsReader};
    ghost use Rattle.rtr_pdu.specs.Version.{version_in};

    ghost Value = { Reader };

    ghost view = { λ r. record { version = r.version; held = r.buffer.items; any = r.any; later = r.later; fault = r.fault } };

    ghost invariant = { λ r. IsReader (version_in r.version r.buffer.items) (record { version = r.version; held = r.buffer.items; any = r.any; later = r.later; fault = r.fault }) };
}

impl UnitReader {
    /// A reader of nothing yet.
    fn fresh(version: Option<Version>, any: bool) -> Self
        ensures { result ≡ fresh version any }
    {
        UnitReader {
            version,
            buffer: ArrayVec::new(),
            any,
            later: any,
            fault: None,
        }
    }

    /// A reader for a cache. The first header decides the version (RFC 8210 section 7).
    pub fn for_cache() -> Self
        ensures { result ≡ fresh None false }
    {
        UnitReader::fresh(None, false)
    }

    /// A reader that accepts only PDUs of this version.
    pub fn of_version(version: Version) -> Self
        ensures { result ≡ fresh (Some version) false }
    {
        UnitReader::fresh(Some(version), false)
    }

    /// A reader for a router that speaks this version and has not agreed on it yet. It accepts a Serial Notify of any version (RFC 8210 section
    /// 7), recognized by its type 0 and its length of 12 bytes. Call `agreed` at the agreement.
    pub fn for_router(version: Version) -> Self
        ensures { result ≡ fresh (Some version) true }
    {
        UnitReader::fresh(Some(version), true)
    }

    /// The version given at the start, otherwise that of the first PDU that was returned. `None`: it is a reader for a cache that has returned
    /// no PDU. A PDU with a fault is not returned.
    pub fn expected(&self) -> Option<Version>
        ensures { result ≡ self.now.version }
    {
        self.version
    }

    /// The version given at the start, otherwise that of the first header, as `Version::first` reads it. `None`: it is a reader for a cache, and
    /// the 8 bytes of the first header are not complete.
    pub fn version(&self) -> Option<Version>
        ensures { result ≡ known_version self.now }
    {
        match self.version {
            Some(version) => Some(version),
            None => {
                if self.buffer.len() < 8 {
                    None
                } else {
                    Some(Version::first(self.buffer.as_slice()))
                }
            }
        }
    }

    /// The version of the current PDU, if this piece follows.
    fn version_with(&self, piece: &[u8]) -> Version
        ensures { result ≡ version_with self.now piece.now }
    {
        match self.version {
            Some(version) => version,
            None if self.buffer.is_empty() => Version::first(piece),
            None => Version::first(self.buffer.as_slice()),
        }
    }

    /// Notes that both ends agreed on the version. From the next PDU on, a Serial Notify of another version is a fault. If all 8 bytes of a header
    /// are already held, that PDU keeps the old rule. A reader that was not made by `for_router`, or a second call, changes nothing.
    pub fn agreed(&mut self)
        ensures { self.new ≡ after_agreed self.old }
    {
        if self.buffer.len() < 8 {
            self.any = false;
        }
        self.later = false;
    }

    /// Reads from `piece` and moves it past the consumed bytes.
    /// `Unit`: a PDU is complete, and `piece` begins after it. `NeedMore`: all bytes are consumed, and no PDU is complete.
    /// `Fault`: the bytes are not a valid PDU. A header fault shows after 8 bytes, a body fault after the whole PDU. All later calls return the
    /// same fault and consume nothing.
    pub fn next(&mut self, piece: &mut &[u8]) -> Next
        ensures takes { ReaderTakes (version_with self.old piece.old.now) self.old piece.old.now result piece.new.now self.new }
        ensures reader { IsReader (version_with self.old piece.old.now) self.old }
        ensures fits { FitsAnswer (version_with self.old piece.old.now) result }
    {
        if let Some(fault) = self.fault {
            return Next::Fault(fault);
        }
        let version = self.version_with(*piece);
        match advance(version, self.any, &mut self.buffer, piece) {
            Next::Unit(unit) => {
                self.buffer.clear();
                self.any = self.later;
                self.version = Some(version);
                Next::Unit(unit)
            }
            Next::NeedMore => Next::NeedMore,
            Next::Fault(fault) => {
                self.fault = Some(fault);
                Next::Fault(fault)
            }
        }
    }

    /// Reads an IPv4 or IPv6 Prefix (RFC 8210 sections 5.6 and 5.7) as `next` does, but makes no `Unit`. It returns `true` for an announcement
    /// or `false` for a withdrawal, and the VRP.
    /// `None`: no whole valid Prefix is at the front of `piece`, or the reader holds bytes or has a fault. Then nothing is consumed; call
    /// `next`.
    pub fn next_prefix(&mut self, piece: &mut &[u8]) -> Option<(bool, Vrp)>
        ensures some { IfSome result (λ found. ReaderTakes (version_with self.old piece.old.now) self.old piece.old.now (Next.Unit (Prefix found.0 found.1)) piece.new.now self.new) }
        ensures none { IfNone result ((self.new ≡ self.old) × (piece.new.now ≡ piece.old.now)) }
        ensures only { IfNone result (self.old.held ≡ [] → (announce : Bool) (v : Payload) (rest : List ℕ) (now : Reader) → ¬ (ReaderTakes (version_with self.old piece.old.now) self.old piece.old.now (Next.Unit (Prefix announce v)) rest now)) }
        ensures reader { IsReader (version_with self.old piece.old.now) self.old }
    {
        if self.fault.is_some() || self.buffer.len() > 0 {
            return None;
        }
        let bytes: &[u8] = *piece;
        let version = self.version_with(bytes);
        let Some(size) = whole_size(version, self.any, bytes) else {
            return None;
        };
        let (unit, behind) = bytes.split_at(size);
        let Some(found) = read_prefix(version, self.any, unit) else {
            return None;
        };
        *piece = behind;
        self.any = self.later;
        self.version = Some(version);
        Some(found)
    }

    /// Notes the end of the input and returns its fault: the one already found, or `Truncated` if the input ends within a PDU. `None`: the input
    /// ends after a whole PDU, or is empty.
    /// After `Truncated`, `next` returns this fault, too.
    pub fn end_of_input(&mut self) -> Option<UnitFault>
        ensures answer { result ≡ at_end self.old }
        ensures kept { self.new ≡ record self.old { fault = at_end self.old } }
    {
        if self.fault.is_none() && self.buffer.len() > 0 {
            self.fault = Some(UnitFault::Truncated);
        }
        self.fault
    }

    /// Returns the consumed bytes that are in no returned PDU: the beginning of the current PDU, or nothing. After a header fault they are the 8
    /// bytes of the header, after a body fault the whole PDU.
    pub fn held(&self) -> &[u8]
        ensures held { result.now ≡ self.now.held }
        ensures reader { IsReader (version_in self.now.version self.now.held) self.now }
        ensures fits { length result.now ≤ MAX_UNIT_LEN }
    {
        self.buffer.as_slice()
    }
}
