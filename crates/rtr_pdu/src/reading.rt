//! PDUs from bytes.
ghost use Rattle.std.specs.Prelude.{◌≡◌, ◌==◌, ◌&&◌, true, not, nat_lt, Some, None, if◌then◌else◌, ◌+◌, ◌≤◌, length, take, Bool, IfOk, IfErr, IfSome, IfNone};
ghost use Rattle.rtr_pdu.specs.Kind.{type_number, end_of_data_len, fixed_len, may_have, is_type};
ghost use Rattle.rtr_pdu.specs.Judging.{end_of_data_in};
ghost use Rattle.rtr_pdu.specs.Stream.{fault_of, header_fault, as_read, type_of, length_of, IsKind, IsRecord, IsReport, IsWhole};
ghost use Rattle.rtr_pdu.specs.Unit.{Reads};
ghost use Rattle.prefixes.specs.Payload.{Payload};
ghost use Rattle.rtr_pdu.specs.Reading.{number_at, v4_in, v6_in, key_in, report_in, IsBody};
ghost use Rattle.rtr_pdu.specs.Version.{version_number};
ghost use Rattle.rtr_pdu.specs.Reader.{IsRead, IsFaulty};

use crate::kind::Kind;
use crate::unit::{ErrorReport, MAX_UNIT_LEN, RouterKey, Unit, UnitFault};
use crate::version::Version;
use byteorder::{BigEndian, ByteOrder};
use prefixes::{Asn, IpPrefix, Prefix, V4, V6, Vrp};
use std::str;

/// The fault of the length of a PDU of this type.
fn judge_len(version: Version, kind: Kind, len: u32) -> Option<UnitFault>
    ensures { result ≡ (if not (may_have version kind len) then Some UnitFault.Length else if nat_lt MAX_UNIT_LEN len then Some UnitFault.TooLong else None) }
{
    if !kind.may_have(version, len) {
        Some(UnitFault::Length)
    } else if len > MAX_UNIT_LEN as u32 {
        Some(UnitFault::TooLong)
    } else {
        None
    }
}

/// The first fault of a header that shows this version.
fn judge_header(version: Version, shown: u8, kind: u8, len: u32) -> Option<UnitFault>
    ensures { result ≡ fault_of version shown kind len }
{
    if shown != version.number() {
        Some(UnitFault::Version)
    } else if let Some(known) = Kind::from_number(version, kind) {
        judge_len(version, known, len)
    } else {
        Some(UnitFault::Type)
    }
}

/// The version that a header counts as showing.
fn shown_version(version: Version, any: bool, shown: u8, kind: u8, len: u32) -> u8
    ensures { result ≡ (if any && (kind == type_number Kind.SerialNotify && len == fixed_len version Kind.SerialNotify) then version_number version else shown) }
{
    let notify = Kind::SerialNotify;
    if any && kind == notify.number() && len == notify.fixed_len(version) {
        version.number()
    } else {
        shown
    }
}

/// Returns the first fault of the header in the first 8 bytes, in the order `Version`, `Type`, `Length`, `TooLong`. `None`: the header has no fault.
/// `bytes` must have at least 8 bytes. The bytes after the header are not looked at.
/// If `any` is true, a Serial Notify of 12 bytes may show any version (RFC 8210 section 7).
pub fn judge(version: Version, any: bool, bytes: &[u8]) -> Option<UnitFault>
    requires { 8 ≤ length bytes.now }
    ensures { result ≡ header_fault version (as_read version any bytes.now) }
{
    let kind = bytes[1];
    let len = number_32(bytes, 4);
    let shown = shown_version(version, any, bytes[0], kind, len);
    judge_header(version, shown, kind, len)
}

fn number_16(bytes: &[u8], at: usize) -> u16
    requires { at + 2 ≤ length bytes.now }
    ensures { result ≡ number_at 2 at bytes.now }
{
    BigEndian::read_u16(&bytes[at..])
}

/// The 32-bit number in network byte order at offset `at`. `bytes` must have at least `at + 4` bytes.
pub fn number_32(bytes: &[u8], at: usize) -> u32
    requires { at + 4 ≤ length bytes.now }
    ensures { result ≡ number_at 4 at bytes.now }
{
    BigEndian::read_u32(&bytes[at..])
}

fn number_128(bytes: &[u8], at: usize) -> u128
    requires { at + 16 ≤ length bytes.now }
    ensures { result ≡ number_at 16 at bytes.now }
{
    BigEndian::read_u128(&bytes[at..])
}

/// The payload of an IPv4 Prefix.
fn v4_record(bytes: &[u8]) -> Option<Vrp>
    requires { length bytes.now ≡ 20 }
    ensures some { IfSome result (λ v. (v ≡ v4_in bytes.now) × IsRecord 32 bytes.now) }
    ensures none { IfNone result (¬ (IsRecord 32 bytes.now)) }
{
    match Prefix::<V4>::new(u128::from(number_32(bytes, 12)), bytes[9]) {
        Err(_) => None,
        Ok(prefix) => match Vrp::new(IpPrefix::V4(prefix), bytes[10], Asn(number_32(bytes, 16))) {
            Err(_) => None,
            Ok(vrp) => Some(vrp),
        },
    }
}

/// The payload of an IPv6 Prefix.
fn v6_record(bytes: &[u8]) -> Option<Vrp>
    requires { length bytes.now ≡ 32 }
    ensures some { IfSome result (λ v. (v ≡ v6_in bytes.now) × IsRecord 128 bytes.now) }
    ensures none { IfNone result (¬ (IsRecord 128 bytes.now)) }
{
    match Prefix::<V6>::new(number_128(bytes, 12), bytes[9]) {
        Err(_) => None,
        Ok(prefix) => match Vrp::new(IpPrefix::V6(prefix), bytes[10], Asn(number_32(bytes, 28))) {
            Err(_) => None,
            Ok(vrp) => Some(vrp),
        },
    }
}

/// The key of a Router Key.
fn key(bytes: &[u8]) -> RouterKey
    requires low { 32 ≤ length bytes.now }
    requires high { length bytes.now ≤ MAX_UNIT_LEN }
    ensures { result ≡ key_in bytes.now }
{
    let mut identifier = [0u8; 20];
    identifier.copy_from_slice(&bytes[8..28]);
    RouterKey::new(
        bytes[2] % 2 == 1,
        identifier,
        number_32(bytes, 28),
        &bytes[32..],
    )
}

/// The report of an Error Report.
fn report(version: Version, bytes: &[u8]) -> Option<ErrorReport>
    requires low { 16 ≤ length bytes.now }
    requires high { length bytes.now ≤ MAX_UNIT_LEN }
    requires exact { length bytes.now ≡ length_of bytes.now }
    ensures some { IfSome result (λ r. (r ≡ report_in bytes.now) × IsReport version bytes.now) }
    ensures none { IfNone result (¬ (IsReport version bytes.now)) }
{
    let copy_len = number_32(bytes, 8) as usize;
    if copy_len > bytes.len() - 16 {
        return None;
    }
    let text_len = number_32(bytes, 12 + copy_len) as usize;
    if text_len != bytes.len() - 16 - copy_len {
        return None;
    }
    match str::from_utf8(&bytes[16 + copy_len..]) {
        Err(_) => None,
        Ok(text) => {
            let copy = &bytes[12..12 + copy_len];
            Some(ErrorReport::new(number_16(bytes, 2), copy, text))
        }
    }
}

/// The type of a PDU whose header has no fault.
fn kind_of(version: Version, bytes: &[u8]) -> Kind
    requires two { 2 ≤ length bytes.now }
    requires known { is_type version (type_of bytes.now) ≡ true }
    ensures { IsKind result bytes.now }
{
    match Kind::from_number(version, bytes[1]) {
        Some(kind) => kind,
        None => unreachable!(),
    }
}

/// The End of Data in bytes of its length.
fn end_of_data(version: Version, bytes: &[u8]) -> Unit
    requires { length bytes.now ≡ end_of_data_len version }
    ensures { result ≡ end_of_data_in version bytes.now }
{
    match version {
        Version::V0 => Unit::EndOfData0 {
            session: number_16(bytes, 2),
            serial: number_32(bytes, 8),
        },
        Version::V1 => Unit::EndOfData {
            session: number_16(bytes, 2),
            serial: number_32(bytes, 8),
            refresh: number_32(bytes, 12),
            retry: number_32(bytes, 16),
            expire: number_32(bytes, 20),
        },
    }
}

/// Reads the PDU in `bytes`. They must be one whole PDU whose header has no fault by `judge`, with the same `version` and `any`.
/// `Record`: a Prefix does not hold a valid VRP. `ErrorReport`: the lengths in an Error Report do not add up, or its text is not UTF-8. There are no
/// other faults.
pub fn read(version: Version, any: bool, bytes: &[u8]) -> Result<Unit, UnitFault>
    requires { IsBody version any bytes.now }
    ensures ok { IfOk result (λ unit. IsRead version any bytes.now unit) }
    ensures err { IfErr result (λ fault. IsFaulty version any bytes.now fault) }
{
    match kind_of(version, bytes) {
        Kind::SerialNotify => Ok(Unit::SerialNotify {
            session: number_16(bytes, 2),
            serial: number_32(bytes, 8),
        }),
        Kind::SerialQuery => Ok(Unit::SerialQuery {
            session: number_16(bytes, 2),
            serial: number_32(bytes, 8),
        }),
        Kind::ResetQuery => Ok(Unit::ResetQuery),
        Kind::CacheResponse => Ok(Unit::CacheResponse {
            session: number_16(bytes, 2),
        }),
        Kind::Ipv4Prefix => match v4_record(bytes) {
            Some(vrp) => Ok(Unit::Prefix {
                announce: bytes[8] % 2 == 1,
                vrp,
            }),
            None => Err(UnitFault::Record),
        },
        Kind::Ipv6Prefix => match v6_record(bytes) {
            Some(vrp) => Ok(Unit::Prefix {
                announce: bytes[8] % 2 == 1,
                vrp,
            }),
            None => Err(UnitFault::Record),
        },
        Kind::EndOfData => Ok(end_of_data(version, bytes)),
        Kind::CacheReset => Ok(Unit::CacheReset),
        Kind::RouterKey => Ok(Unit::RouterKey(key(bytes))),
        Kind::ErrorReport => match report(version, bytes) {
            Some(report) => Ok(Unit::ErrorReport(report)),
            None => Err(UnitFault::ErrorReport),
        },
    }
}

/// Reads the Prefix in `bytes`. They must be one whole PDU whose header has no fault by `judge`, with the same `version` and `any`. The result is
/// `true` for an announcement or `false` for a withdrawal, and the VRP.
/// `None`: the PDU is of another type, or is a Prefix that does not hold a valid VRP.
pub fn read_prefix(version: Version, any: bool, bytes: &[u8]) -> Option<(bool, Vrp)>
    requires { IsBody version any bytes.now }
    ensures some { IfSome result (λ found. IsRead version any bytes.now (Unit.Prefix found.0 found.1)) }
    ensures none { IfNone result ((announce : Bool) (v : Payload) → ¬ (Reads version (Unit.Prefix announce v) (as_read version any bytes.now))) }
{
    match kind_of(version, bytes) {
        Kind::Ipv4Prefix => match v4_record(bytes) {
            Some(vrp) => Some((bytes[8] % 2 == 1, vrp)),
            None => None,
        },
        Kind::Ipv6Prefix => match v6_record(bytes) {
            Some(vrp) => Some((bytes[8] % 2 == 1, vrp)),
            None => None,
        },
        _ => None,
    }
}

/// Returns the length in bytes, header included, of the PDU with which `bytes` begins, once all of it is there. `version` is the expected one, and
/// `any` is as in `judge`. `None`: fewer than 8 bytes are there, the header has a fault by `judge`, or the end has not arrived. The body is not
/// checked.
pub fn whole_size(version: Version, any: bool, bytes: &[u8]) -> Option<usize>
    ensures within { IfSome result (λ size. size ≤ length bytes.now) }
    ensures body { IfSome result (λ size. IsBody version any (take size bytes.now)) }
    ensures none { IfNone result (¬ (IsWhole version (as_read version any bytes.now))) }
{
    if bytes.len() < 8 {
        return None;
    }
    let (header, _) = bytes.split_at(8);
    if judge(version, any, header).is_some() {
        return None;
    }
    let size = number_32(header, 4) as usize;
    if bytes.len() < size {
        return None;
    }
    Some(size)
}
