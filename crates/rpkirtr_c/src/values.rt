//! Records, routes and states as C has them.
ghost use Rattle.std.specs.Prelude.{◌≡◌, ℕ, ◌<◌, ◌^◌, drop, IfSome, IfNone};
ghost use Rattle.prefixes.specs.Address.{Block, IsPrefix};
ghost use Rattle.prefixes.specs.Payload.{Payload};
ghost use Rattle.prefixes.specs.declared.prefix.IpPrefix.{IpPrefix};
ghost use Rattle.prefixes.specs.declared.route.Route.{Route};
ghost use Rattle.rpkirtr_c.specs.Answers.{number};
ghost use Rattle.rpkirtr_c.specs.Spelled.{IsCopied, IsRecordAt, SpellsPrefix, SpellsRecord, SpellsRoute, address_bytes, family_number, no_record, state_number, v4_bytes, v6_bytes};

use crate::call_status::CallStatus;
use byteorder::{BigEndian, ByteOrder};
use prefixes::{Asn, IpPrefix, Prefix, Route, V4, V6, Vrp};
use vrps::OriginState;

/// A record. The address is in network order, that of IPv4 in the first four bytes; the family is 4 or 6.
#[repr(C)]
#[derive(Clone, Copy, Debug)]
pub struct CRecord {
    pub addr: [u8; 16],
    pub asn: u32,
    pub family: u8,
    pub len: u8,
    pub max_len: u8,
    pub zero_: u8,
}

/// A route. If `has_origin` is 0, its origin is NONE (RFC 6811 section 2).
#[repr(C)]
#[derive(Clone, Copy, Debug)]
pub struct CRoute {
    pub addr: [u8; 16],
    pub origin: u32,
    pub family: u8,
    pub len: u8,
    pub has_origin: u8,
    pub zero_: u8,
}

/// The IPv4 address in these bytes, if there is one.
fn v4_number(addr: &[u8; 16]) -> Option<u32>
    ensures some { IfSome result (λ n. (n < 2 ^ 32) × (addr.now ≡ v4_bytes n)) }
    ensures none { IfNone result ((n : ℕ) → ¬ (addr.now ≡ v4_bytes n)) }
{
    if addr[4..] != [0; 12] {
        return None;
    }
    Some(BigEndian::read_u32(addr))
}

/// The IPv6 address in these bytes.
fn v6_number(addr: &[u8; 16]) -> u128
    ensures { addr.now ≡ v6_bytes result }
{
    BigEndian::read_u128(addr)
}

/// The IPv4 prefix of these, if it is one.
fn v4_of(addr: &[u8; 16], len: u8) -> Option<Prefix<V4>>
    ensures some { IfSome result (λ p. IsPrefix 32 p × (addr.now ≡ v4_bytes p.addr) × (len ≡ p.len)) }
    ensures none { IfNone result ((p : Block) → IsPrefix 32 p → addr.now ≡ v4_bytes p.addr → ¬ (len ≡ p.len)) }
{
    let number = v4_number(addr)?;
    match Prefix::new(u128::from(number), len) {
        Ok(prefix) => Some(prefix),
        Err(_) => None,
    }
}

/// The IPv6 prefix of these, if it is one.
fn v6_of(addr: &[u8; 16], len: u8) -> Option<Prefix<V6>>
    ensures some { IfSome result (λ p. IsPrefix 128 p × (addr.now ≡ v6_bytes p.addr) × (len ≡ p.len)) }
    ensures none { IfNone result ((p : Block) → IsPrefix 128 p → addr.now ≡ v6_bytes p.addr → ¬ (len ≡ p.len)) }
{
    let number = v6_number(addr);
    match Prefix::new(number, len) {
        Ok(prefix) => Some(prefix),
        Err(_) => None,
    }
}

/// The prefix of these, if it is one.
fn prefix_of(family: u8, addr: &[u8; 16], len: u8) -> Option<IpPrefix>
    ensures some { IfSome result (λ p. SpellsPrefix family addr.now len p) }
    ensures none { IfNone result ((p : IpPrefix) → ¬ (SpellsPrefix family addr.now len p)) }
{
    match family {
        4 => Some(IpPrefix::V4(v4_of(addr, len)?)),
        6 => Some(IpPrefix::V6(v6_of(addr, len)?)),
        _ => None,
    }
}

/// Converts a route of the C interface. `None`: its family, address or length does not give a prefix, or `zero_` is not 0.
pub fn route_of(route: &CRoute) -> Option<Route>
    ensures some { IfSome result (λ r. SpellsRoute route.now r) }
    ensures none { IfNone result ((r : Route) → ¬ (SpellsRoute route.now r)) }
{
    if route.zero_ != 0 {
        return None;
    }
    let prefix = prefix_of(route.family, &route.addr, route.len)?;
    let origin = if route.has_origin == 0 {
        None
    } else {
        Some(route.origin)
    };
    Some(Route { prefix, origin })
}

/// Converts a record of the C interface to a VRP. `None`: its prefix or maximum length is not valid, or `zero_` is not 0.
pub fn vrp_of(from: &CRecord) -> Option<Vrp>
    ensures some { IfSome result (λ v. SpellsRecord from.now v) }
    ensures none { IfNone result ((v : Payload) → ¬ (SpellsRecord from.now v)) }
{
    if from.zero_ != 0 {
        return None;
    }
    let prefix = prefix_of(from.family, &from.addr, from.len)?;
    match Vrp::new(prefix, from.max_len, Asn(from.asn)) {
        Ok(vrp) => Some(vrp),
        Err(_) => None,
    }
}

/// The bytes of an IPv4 address.
fn v4_bytes(number: u32) -> [u8; 16]
    ensures { result ≡ v4_bytes number }
{
    let mut addr = [0; 16];
    BigEndian::write_u32(&mut addr, number);
    addr
}

/// The bytes of an IPv6 address.
fn v6_bytes(number: u128) -> [u8; 16]
    ensures { result ≡ v6_bytes number }
{
    let mut addr = [0; 16];
    BigEndian::write_u128(&mut addr, number);
    addr
}

/// The address of a prefix.
fn address_of(prefix: &IpPrefix) -> [u8; 16]
    ensures { result ≡ address_bytes prefix.now }
{
    match prefix {
        IpPrefix::V4(p) => v4_bytes(p.addr() as u32),
        IpPrefix::V6(p) => v6_bytes(p.addr()),
    }
}

/// The number of a prefix's family.
fn family_of(prefix: &IpPrefix) -> u8
    ensures { result ≡ family_number prefix.now }
{
    match prefix {
        IpPrefix::V4(_) => 4,
        IpPrefix::V6(_) => 6,
    }
}

/// Converts a VRP to a record of the C interface. Zeros follow an IPv4 address, and `zero_` is 0.
pub fn record_of(vrp: &Vrp) -> CRecord
    ensures { SpellsRecord result vrp.now }
{
    let prefix = vrp.prefix();
    CRecord {
        addr: address_of(&prefix),
        asn: vrp.asn().0,
        family: family_of(&prefix),
        len: prefix.len(),
        max_len: vrp.max_len(),
        zero_: 0,
    }
}

/// Returns the record whose fields are all 0. It is written if a record does not exist.
pub fn no_record() -> CRecord
    ensures { result ≡ no_record }
{
    CRecord {
        addr: [0; 16],
        asn: 0,
        family: 0,
        len: 0,
        max_len: 0,
        zero_: 0,
    }
}

/// The part of the list from index `first` on. Empty if `first` is the length or more.
pub fn from_index(list: &[Vrp], first: usize) -> &[Vrp]
    ensures { result.now ≡ drop first list.now }
{
    match list.get(first..) {
        None => &[],
        Some(rest) => rest,
    }
}

/// Copies the first records of the list to `room`, as many as fit, and returns how many. The rest of `room` stays.
pub fn copy_records(list: &[Vrp], room: &mut [CRecord]) -> usize
    ensures { IsCopied list.now room.old room.new result }
{
    let count = list.len().min(room.len());
    for i in 0..count {
        room[i] = record_of(&list[i]);
    }
    count
}

/// Writes the record at this index, from 0, to `told`. `OutOfRange`: the index is the length or more, and `no_record` is written.
pub fn record_at(list: &[Vrp], index: usize, told: &mut CRecord) -> CallStatus
    ensures { IsRecordAt list.now index (number result) told.new }
{
    match list.get(index) {
        None => {
            *told = no_record();
            CallStatus::OutOfRange
        }
        Some(vrp) => {
            *told = record_of(vrp);
            CallStatus::Done
        }
    }
}

/// The state's number in the C interface: `RPKIRTR_NOT_FOUND` (0), `RPKIRTR_VALID` (1) or `RPKIRTR_INVALID` (2).
pub fn state_number(state: OriginState) -> i32
    ensures { result ≡ state_number state }
{
    match state {
        OriginState::NotFound => 0,
        OriginState::Valid => 1,
        OriginState::Invalid => 2,
    }
}
