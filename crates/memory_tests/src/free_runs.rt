//! Calls that allocate no memory: they give their answers with every request refused.

use crate::end_runs::{
    ANSWER, RESET_QUERY, SERIAL_QUERY, answered, cache_from, tell_due, tell_router,
};
use crate::payload_runs::{ONE_PREFIX, tell_decoded};
use crate::telling::{V, begin, set_of, tell, tell_bytes};
use arrayvec::ArrayVec;
use der_lite::Cursor;
use payloads::{Roa, RoaEntry};
use prefixes::{Asn, IpPrefix, Route};
use rtr_ends::{Cache, Conn, Router};
use rtr_pdu::{Counted, Next, Unit, UnitReader, Version, encode, read_unit, write_unit};
use std::alloc::{AllocError, Global};
use vrps::{OriginIndex, OriginState, Serial, VersionLog, VrpSet};

/// A ROA with a version, with a maximum that is the prefix's length, with a prefix twice, and with host bits.
const FAULTY: &[&[u8]] = &[
    b"\
    \x30\x1c\xa0\x03\x02\x01\x00\
    \x02\x03\x00\xfb\xf0\
    \x30\x10\x30\x0e\x04\x02\x00\x01\
    \x30\x08\x30\x06\x03\x04\x00\xc0\x00\x02",
    b"\
    \x30\x22\x02\x03\x00\xfb\xf0\
    \x30\x1b\x30\x19\x04\x02\x00\x01\
    \x30\x13\x30\x06\x03\x04\x00\xc0\x00\x02\
    \x30\x09\x03\x04\x00\xc0\x00\x02\
    \x02\x01\x18",
    b"\
    \x30\x1f\x02\x03\x00\xfb\xf0\
    \x30\x18\x30\x16\x04\x02\x00\x01\
    \x30\x10\x30\x06\x03\x04\x00\xc0\x00\x02\
    \x30\x06\x03\x04\x00\xc0\x00\x02",
    b"\
    \x30\x17\x02\x03\x00\xfb\xf0\
    \x30\x10\x30\x0e\x04\x02\x00\x01\
    \x30\x08\x30\x06\x03\x04\x01\xc0\x00\x03",
];

/// A ROA with a byte behind it, and what is none.
const OTHERS: &[&[u8]] = &[
    b"\
    \x30\x17\x02\x03\x00\xfb\xf0\
    \x30\x10\x30\x0e\x04\x02\x00\x01\
    \x30\x08\x30\x06\x03\x04\x00\xc0\x00\x02\
    \x00",
    b"\x30\x80",
    b"\x30\x04\x02\x02\x00\x01",
    b"\x30\x03\x02\x01\x80",
    b"\x30\x05\x02\x03\x00\xfb\xf0",
];

/// Decodes each of these.
fn tell_each(rt: &HostRuntime, payloads: &[&[u8]]) {
    for payload in payloads {
        tell_decoded(rt, payload);
    }
}

/// Decodes each beginning of a payload.
fn tell_beginnings(rt: &HostRuntime, payload: &[u8]) {
    for count in 0..payload.len() {
        tell_decoded(rt, &payload[..count]);
    }
}

#[test]
fn free_faults(rt: HostRuntime) {
    begin(rt.alloc());
    tell_each(&rt, FAULTY);
    tell_beginnings(&rt, ONE_PREFIX);
    tell_each(&rt, OTHERS);
}

fn tell_whether(rt: &HostRuntime, holds: bool) {
    tell(rt, if holds { "yes" } else { "no" });
}

/// Reads an integer behind the head of a sequence, and no bits, as it ends there.
fn tell_nested(rt: &HostRuntime, whole: &mut Cursor) {
    tell_whether(rt, whole.peek_tag() == Some(0x30));
    if let Ok(mut inner) = whole.sequence() {
        tell_whether(
            rt,
            matches!(inner.integer(), Ok(it) if it == b"\x00\xfb\xf0".as_slice()),
        );
        tell_whether(rt, inner.offset() == 7);
        tell_whether(rt, inner.bits().is_err());
        tell_whether(rt, inner.at_end());
    }
}

/// Reads octets, an object identifier, text, a time and bits.
fn tell_others(rt: &HostRuntime, others: &mut Cursor) {
    tell_whether(rt, matches!(others.octets(), Ok(it) if it.len() == 1));
    tell_whether(rt, matches!(others.oid(), Ok(it) if it.len() == 2));
    tell_whether(rt, matches!(others.ia5(), Ok(it) if it == "a.roa"));
    tell_whether(rt, others.time().is_ok());
    tell_whether(rt, matches!(others.bits(), Ok(it) if it.bytes.len() == 1));
}

/// Whether a prefix covers another, and a serial is before another.
fn tell_order(rt: &HostRuntime) {
    if let (Ok(short), Ok(long)) = (
        IpPrefix::parse("192.0.2.0/24"),
        IpPrefix::parse("192.0.2.0/25"),
    ) {
        tell_whether(rt, short.covers(&long));
    }
    tell_whether(rt, Serial(4_294_967_295).is_before(Serial(0)));
}

#[test]
fn free_readings(rt: HostRuntime) {
    begin(rt.alloc());
    let mut whole = Cursor::new(ONE_PREFIX);
    tell_nested(&rt, &mut whole);
    tell_whether(&rt, whole.finish().is_ok());
    tell_others(
        &rt,
        &mut Cursor::new(
            b"\x04\x01\xaa\x06\x02\x2a\x03\x16\x05a.roa\x18\x0f20250101120000Z\x03\x02\x00\xc0",
        ),
    );
    tell_order(&rt);
}

/// The list of one entry.
fn entry(alloc: Global, text: &str, max_len: Option<u8>) -> Option<Vec<RoaEntry>> {
    let mut entries = Vec::new(alloc);
    let Ok(prefix) = IpPrefix::parse(text) else {
        return None;
    };
    if entries.push(RoaEntry { prefix, max_len }).is_err() {
        return None;
    }
    Some(entries)
}

/// Prints whether a ROA of one entry is made.
fn tell_made(rt: &HostRuntime, entries: Vec<RoaEntry>) {
    match Roa::new(Asn(64496), entries) {
        Ok(roa) => tell_whether(rt, roa.entries().len() == 1),
        Err(_) => tell_whether(rt, false),
    }
}

#[test]
fn free_roas(rt: HostRuntime) {
    let alloc = rt.alloc();
    if let (Some(one), Some(other)) = (
        entry(alloc, "192.0.2.0/24", None),
        entry(alloc, "2001:db8::/32", Some(48)),
    ) {
        begin(alloc);
        tell_made(&rt, one);
        tell_made(&rt, other);
    }
}

/// Prints what a router sends.
fn tell_sent(rt: &HostRuntime, router: &mut Router) {
    let mut room = [0u8; 64];
    let count = router.pull(&mut room);
    if let Some(front) = room.get(..count) {
        tell_bytes(rt, front);
    }
}

/// A router judges a route, asks, forgets what is too old, and asks on a new connection.
fn tell_asked(rt: &HostRuntime, router: &mut Router, route: &Route) {
    tell_whether(rt, router.route_state(route) == OriginState::Valid);
    tell_whether(rt, router.ask().is_ok());
    tell_sent(rt, router);
    router.tick(7201);
    tell_router(rt, router);
    router.closed(7201);
    router.connect(7201);
    tell_sent(rt, router);
}

/// An index over the one record that the router has.
fn index_of(alloc: Global) -> Option<OriginIndex> {
    match set_of(alloc, &[V]) {
        Some(set) => OriginIndex::over(alloc, &set).ok(),
        None => None,
    }
}

#[test]
fn free_states(rt: HostRuntime) {
    let alloc = rt.alloc();
    if let (Ok(prefix), Some(index)) = (IpPrefix::parse("192.0.2.0/24"), index_of(alloc)) {
        let route = Route {
            prefix,
            origin: Some(64496),
        };
        let mut router = Router::new(alloc);
        answered(&mut router, ANSWER);
        begin(alloc);
        tell_whether(&rt, index.state(&route) == OriginState::Valid);
        tell_asked(&rt, &mut router, &route);
    }
}

/// Answers all, notifies, answers another connection that nothing changed, and closes the first.
fn tell_served(rt: &HostRuntime, cache: &mut Cache<VersionLog>, conn: Conn, other: Conn) {
    tell_whether(rt, cache.receive(conn, RESET_QUERY) == 8);
    tell_due(rt, cache, conn, 64);
    tell_whether(rt, cache.notify(conn));
    tell_due(rt, cache, conn, 64);
    cache.receive(other, SERIAL_QUERY);
    tell_due(rt, cache, other, 64);
    tell_whether(rt, cache.is_open(other));
    cache.close(conn);
    tell_whether(rt, cache.is_open(conn));
}

/// Answers that there is no data.
fn tell_empty(rt: &HostRuntime, cache: &mut Cache<VersionLog>, conn: Conn) {
    cache.receive(conn, RESET_QUERY);
    tell_due(rt, cache, conn, 64);
    tell_whether(rt, cache.is_open(conn));
}

/// Two connections.
fn both_opened(cache: &mut Cache<VersionLog>) -> Result<(Conn, Conn), AllocError> {
    let conn = cache.open()?;
    let other = cache.open()?;
    Ok((conn, other))
}

/// The answers of a cache that has published a set, and of one that has not.
fn tell_answers(
    rt: &HostRuntime,
    cache: &mut Cache<VersionLog>,
    empty: &mut Cache<VersionLog>,
    set: VrpSet,
) {
    if cache.publish(set).is_err() {
        return;
    }
    if let (Ok((conn, other)), Ok(early)) = (both_opened(cache), empty.open()) {
        begin(rt.alloc());
        tell_served(rt, cache, conn, other);
        tell_empty(rt, empty, early);
    }
}

#[test]
fn free_answers(rt: HostRuntime) {
    let alloc = rt.alloc();
    if let (Some(mut cache), Some(mut empty), Some(set)) = (
        cache_from(alloc, 5),
        cache_from(alloc, 5),
        set_of(alloc, &[V]),
    ) {
        tell_answers(&rt, &mut cache, &mut empty, set);
    }
}

/// Prints whether the first PDU of the answer is read, piece by piece and from a stream, and that the others are left.
fn tell_read(rt: &HostRuntime) {
    let mut reader = UnitReader::for_router(Version::V1);
    let mut piece = ANSWER;
    let is_response = matches!(
        reader.next(&mut piece),
        Next::Unit(Unit::CacheResponse { session: 4660 })
    );
    tell_whether(rt, is_response);
    tell_whether(rt, piece.len() == 44);
    let mut input = Counted::new(ANSWER);
    tell_whether(rt, matches!(read_unit(&mut input), Ok(Some(_))));
}

/// Prints whether a PDU is written to a stream, and what is there then.
fn tell_written(rt: &HostRuntime) {
    let unit = Unit::CacheResponse { session: 4660 };
    let mut room = [0u8; 8];
    let mut output = Counted::new(&mut room[..]);
    tell_whether(rt, write_unit(&unit, &mut output).is_ok());
    tell_bytes(rt, &room);
}

#[test]
fn free_units(rt: HostRuntime) {
    begin(rt.alloc());
    let mut buffer = ArrayVec::new();
    let unit = Unit::CacheResponse { session: 4660 };
    encode(&unit, &mut buffer);
    tell_bytes(&rt, buffer.as_slice());
    tell_read(&rt);
    tell_written(&rt);
}
