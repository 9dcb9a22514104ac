//! PDUs as bytes.
ghost use Rattle.std.specs.Prelude.{◌≡◌, ◌+◌, ◌≤◌, List, ℕ, ◌∷◌, ◌++◌, drop, take, length, true};
ghost use Rattle.arrayvec.specs.ArrayVec.{array_vec_len};
ghost use Rattle.std.specs.Int.{byte_at};
ghost use Rattle.byteorder.specs.Endian.{big_bytes};
ghost use Rattle.rtr_pdu.specs.Kind.{type_number};
ghost use Rattle.rtr_pdu.specs.Placing.{PutsFour};
ghost use Rattle.rtr_pdu.specs.Unit.{IsUnit, fits, header, fixed_header, prefix_bytes, unit_bytes, zeros, flag};

use crate::kind::Kind;
use crate::unit::{ErrorReport, MAX_UNIT_LEN, RouterKey, Unit};
use crate::version::Version;
use arrayvec::ArrayVec;
use prefixes::{IpPrefix, Prefix, V4, V6, Vrp};

/// A buffer with room for the longest PDU: 4,096 bytes, stored inline.
pub type UnitBuffer = ArrayVec<u8, MAX_UNIT_LEN>;

/// Appends bytes.
fn put(buffer: &mut UnitBuffer, bytes: &[u8])
    requires { array_vec_len buffer.old + length bytes.now ≤ MAX_UNIT_LEN }
    ensures items { buffer.new.items ≡ buffer.old.items ++ bytes.now }
    ensures len { array_vec_len buffer.new ≡ array_vec_len buffer.old + length bytes.now }
{
    let _fits = buffer.try_extend_from_slice(bytes);
}

/// Begins a PDU in an empty buffer.
fn put_header(buffer: &mut UnitBuffer, version: Version, kind: Kind, field: u16, len: u32)
    ensures items { buffer.new.items ≡ header version (type_number kind) field len }
    ensures len { array_vec_len buffer.new ≡ 8 }
{
    buffer.clear();
    put(buffer, &[version.number(), kind.number()]);
    put(buffer, &field.to_be_bytes());
    put(buffer, &len.to_be_bytes());
}

/// The same of a PDU whose type has one length.
fn put_fixed(buffer: &mut UnitBuffer, version: Version, kind: Kind, field: u16)
    ensures items { buffer.new.items ≡ fixed_header version kind field }
    ensures len { array_vec_len buffer.new ≡ 8 }
{
    put_header(buffer, version, kind, field, kind.fixed_len(version));
}

fn put_number(buffer: &mut UnitBuffer, number: u32)
    requires { array_vec_len buffer.old + 4 ≤ MAX_UNIT_LEN }
    ensures items { buffer.new.items ≡ buffer.old.items ++ big_bytes 4 number }
    ensures len { array_vec_len buffer.new ≡ array_vec_len buffer.old + 4 }
{
    put(buffer, &number.to_be_bytes());
}

fn put_end_of_data(
    version: Version,
    session: u16,
    serial: u32,
    refresh: u32,
    retry: u32,
    expire: u32,
    buffer: &mut UnitBuffer,
)
    ensures { buffer.new.items ≡ unit_bytes version (Unit.EndOfData session serial refresh retry expire) }
{
    put_fixed(buffer, version, Kind::EndOfData, session);
    put_number(buffer, serial);
    put_number(buffer, refresh);
    put_number(buffer, retry);
    put_number(buffer, expire);
}

fn flag_of(announce: bool) -> u8
    ensures { result ≡ flag announce }
{
    if announce { 1 } else { 0 }
}

fn put_key(version: Version, key: &RouterKey, buffer: &mut UnitBuffer)
    ensures bytes { buffer.new.items ≡ unit_bytes version (Unit.RouterKey key.now) }
    ensures unit { IsUnit (Unit.RouterKey key.now) }
{
    let info = key.info();
    buffer.clear();
    let kind = Kind::RouterKey;
    put(
        buffer,
        &[version.number(), kind.number(), flag_of(key.announce()), 0],
    );
    put_number(buffer, kind.fixed_len(version) + info.len() as u32);
    put(buffer, key.identifier());
    put_number(buffer, key.asn());
    put(buffer, info);
}

fn put_report(version: Version, report: &ErrorReport, buffer: &mut UnitBuffer)
    ensures bytes { buffer.new.items ≡ unit_bytes version (Unit.ErrorReport report.now) }
    ensures unit { IsUnit (Unit.ErrorReport report.now) }
{
    let copy = report.copy();
    let text = report.text();
    let kind = Kind::ErrorReport;
    let len = kind.fixed_len(version) + copy.len() as u32 + text.len() as u32;
    put_header(buffer, version, kind, report.code(), len);
    put_number(buffer, copy.len() as u32);
    put(buffer, copy);
    put_number(buffer, text.len() as u32);
    put(buffer, text);
}

/// Encodes a PDU in this version. It replaces the contents of `buffer`. Reserved fields are zero. The PDU must fit the version (`Unit::fits`). A
/// reader of the version reads the bytes as this PDU.
pub fn encode_as(version: Version, unit: &Unit, buffer: &mut UnitBuffer)
    requires { fits version unit.now ≡ true }
    ensures bytes { buffer.new.items ≡ unit_bytes version unit.now }
    ensures unit { IsUnit unit.now }
{
    match unit {
        Unit::SerialNotify { session, serial } => {
            put_fixed(buffer, version, Kind::SerialNotify, *session);
            put_number(buffer, *serial);
        }
        Unit::SerialQuery { session, serial } => {
            put_fixed(buffer, version, Kind::SerialQuery, *session);
            put_number(buffer, *serial);
        }
        Unit::ResetQuery => put_fixed(buffer, version, Kind::ResetQuery, 0),
        Unit::CacheResponse { session } => {
            put_fixed(buffer, version, Kind::CacheResponse, *session);
        }
        Unit::Prefix { announce, vrp } => encode_prefix(version, *announce, vrp, buffer),
        Unit::EndOfData {
            session,
            serial,
            refresh,
            retry,
            expire,
        } => put_end_of_data(
            version, *session, *serial, *refresh, *retry, *expire, buffer,
        ),
        Unit::EndOfData0 { session, serial } => {
            put_fixed(buffer, version, Kind::EndOfData, *session);
            put_number(buffer, *serial);
        }
        Unit::CacheReset => put_fixed(buffer, version, Kind::CacheReset, 0),
        Unit::RouterKey(key) => put_key(version, key, buffer),
        Unit::ErrorReport(report) => put_report(version, report, buffer),
    }
}

/// Encodes a PDU in version 1 (RFC 8210 section 5), as `encode_as` does. It replaces the contents of `buffer`. The PDU must fit version 1
/// (`Unit::fits`).
pub fn encode(unit: &Unit, buffer: &mut UnitBuffer)
    requires { fits Version.V1 unit.now ≡ true }
    ensures bytes { buffer.new.items ≡ unit_bytes Version.V1 unit.now }
    ensures unit { IsUnit unit.now }
{
    encode_as(Version::V1, unit, buffer);
}

/// Encodes an IPv4 or IPv6 Prefix (RFC 6810 and RFC 8210, sections 5.6 and 5.7) without making a `Unit`. It replaces the contents of `buffer`.
/// `announce`: `true` for an announcement, `false` for a withdrawal.
pub fn encode_prefix(version: Version, announce: bool, vrp: &Vrp, buffer: &mut UnitBuffer)
    ensures bytes { buffer.new.items ≡ unit_bytes version (Unit.Prefix announce vrp.now) }
    ensures unit { IsUnit (Unit.Prefix announce vrp.now) }
{
    let mut unit = [0u8; MAX_PREFIX_LEN];
    let size = encode_prefix_at(version, announce, vrp, &mut unit, 0);
    buffer.clear();
    put(buffer, &unit[..size]);
}

/// The length in bytes of the longest Prefix, an IPv6 Prefix (RFC 8210 section 5.7).
pub const MAX_PREFIX_LEN: usize = 32;

/// Writes four bytes behind the first `at` of `out`.
#[inline(always)]
fn put_four(out: &mut [u8], at: usize, a: u8, b: u8, c: u8, d: u8)
    requires { at + 4 ≤ length out.old }
    ensures puts { PutsFour at a b c d out.old out.new }
    ensures len { length out.new ≡ length out.old }
{
    out[at] = a;
    out[at + 1] = b;
    out[at + 2] = c;
    out[at + 3] = d;
}

/// Writes a number of four bytes behind the first `at` of `out`, the highest byte first.
#[inline(always)]
fn put_word(out: &mut [u8], at: usize, word: u32)
    requires { at + 4 ≤ length out.old }
    ensures puts { PutsFour at (byte_at 3 word) (byte_at 2 word) (byte_at 1 word) (byte_at 0 word) out.old out.new }
    ensures len { length out.new ≡ length out.old }
{
    let bytes = word.to_be_bytes();
    put_four(out, at, bytes[0], bytes[1], bytes[2], bytes[3]);
}

/// Writes an IPv4 Prefix (RFC 8210 section 5.6) behind the first `at` bytes of `out`. The address and the AS number are written right
/// after they are read: so each is one store.
#[inline(always)]
fn put_ipv4(
    version: Version,
    announce: bool,
    prefix: &Prefix<V4>,
    vrp: &Vrp,
    out: &mut [u8],
    at: usize,
)
    requires { at + 20 ≤ length out.old }
    ensures { out.new ≡ take at out.old ++ prefix_bytes version announce (IpPrefix.V4 prefix.now) vrp.now.max_len vrp.now.asn zeros ++ drop (at + 20) out.old }
{
    put_word(out, at + 12, prefix.addr() as u32);
    put_word(out, at + 16, vrp.asn().0);
    put_four(
        out,
        at + 8,
        flag_of(announce),
        prefix.len(),
        vrp.max_len(),
        0,
    );
    put_four(out, at, version.number(), 4, 0, 0);
    put_four(out, at + 4, 0, 0, 0, 20);
}

/// Writes an IPv6 Prefix (RFC 8210 section 5.7) behind the first `at` bytes of `out`, in the order of `put_ipv4`.
#[inline(always)]
fn put_ipv6(
    version: Version,
    announce: bool,
    prefix: &Prefix<V6>,
    vrp: &Vrp,
    out: &mut [u8],
    at: usize,
)
    requires { at + 32 ≤ length out.old }
    ensures { out.new ≡ take at out.old ++ prefix_bytes version announce (IpPrefix.V6 prefix.now) vrp.now.max_len vrp.now.asn zeros ++ drop (at + 32) out.old }
{
    let a = prefix.addr().to_be_bytes();
    put_four(out, at + 12, a[0], a[1], a[2], a[3]);
    put_four(out, at + 16, a[4], a[5], a[6], a[7]);
    put_word(out, at + 28, vrp.asn().0);
    let max_len = vrp.max_len();
    put_four(out, at + 20, a[8], a[9], a[10], a[11]);
    put_four(out, at + 24, a[12], a[13], a[14], a[15]);
    put_four(out, at + 8, flag_of(announce), prefix.len(), max_len, 0);
    put_four(out, at, version.number(), 6, 0, 0);
    put_four(out, at + 4, 0, 0, 0, 32);
}

/// Encodes a Prefix into `out` at offset `at`, and returns the offset of its end. All other bytes of `out` stay. `out` must have at least `at +
/// MAX_PREFIX_LEN` bytes.
/// `announce`: `true` for an announcement, `false` for a withdrawal.
#[inline(always)]
pub fn encode_prefix_at(
    version: Version,
    announce: bool,
    vrp: &Vrp,
    out: &mut [u8],
    at: usize,
) -> usize
    requires { at + MAX_PREFIX_LEN ≤ length out.old }
    ensures bytes { out.new ≡ take at out.old ++ unit_bytes version (Unit.Prefix announce vrp.now) ++ drop result out.old }
    ensures end { result ≡ at + length (unit_bytes version (Unit.Prefix announce vrp.now)) }
    ensures unit { IsUnit (Unit.Prefix announce vrp.now) }
{
    match vrp.prefix() {
        IpPrefix::V4(p) => {
            put_ipv4(version, announce, &p, vrp, out, at);
            at + 20
        }
        IpPrefix::V6(p) => {
            put_ipv6(version, announce, &p, vrp, out, at);
            at + 32
        }
    }
}
