use crate::telling::{V, W, begin, each_twice, no_memory, tell, tell_bytes, twice};
use rtr_ends::{Cache, Conn, End, Link, Router, Timing};
use std::alloc::Global;
use vrps::{VersionLog, VrpSet};

pub(crate) const RESET_QUERY: &[u8] = b"\x01\x02\x00\x00\x00\x00\x00\x08";

/// What changed since serial 5 of session 4660?
pub(crate) const SERIAL_QUERY: &[u8] = b"\x01\x01\x12\x34\x00\x00\x00\x0c\x00\x00\x00\x05";

/// The same since serial 4.
const OLD_QUERY: &[u8] = b"\x01\x01\x12\x34\x00\x00\x00\x0c\x00\x00\x00\x04";

/// The answer to a Reset Query: 192.0.2.0/24 up to 24 of AS 64496, serial 5.
pub(crate) const ANSWER: &[u8] = b"\
    \x01\x03\x12\x34\x00\x00\x00\x08\
    \x01\x04\x00\x00\x00\x00\x00\x14\x01\x18\x18\x00\xc0\x00\x02\x00\x00\x00\xfb\xf0\
    \x01\x07\x12\x34\x00\x00\x00\x18\x00\x00\x00\x05\x00\x00\x0e\x10\x00\x00\x02\x58\x00\x00\x1c\x20";

/// The answer to the Serial Query: 198.51.100.0/24 up to 24 of AS 64497 came in, serial 6.
const CHANGE: &[u8] = b"\
    \x01\x03\x12\x34\x00\x00\x00\x08\
    \x01\x04\x00\x00\x00\x00\x00\x14\x01\x18\x18\x00\xc6\x33\x64\x00\x00\x00\xfb\xf1\
    \x01\x07\x12\x34\x00\x00\x00\x18\x00\x00\x00\x06\x00\x00\x0e\x10\x00\x00\x02\x58\x00\x00\x1c\x20";

/// A cache of session 4660 that has published nothing, keeps two versions before the current one, and begins at this serial.
pub(crate) fn cache_from(alloc: Global, start: u32) -> Option<Cache<VersionLog>> {
    match VersionLog::new(alloc, 4660, start, 2) {
        Ok(log) => Some(Cache::new(alloc, log, Timing::default())),
        Err(_) => None,
    }
}

/// Opens a connection, at the second try if memory ran out.
fn opened(rt: &HostRuntime, cache: &mut Cache<VersionLog>) -> Option<Conn> {
    if let Ok(conn) = cache.open() {
        return Some(conn);
    }
    tell(rt, "memory");
    cache.open().ok()
}

/// Publishes a set, or prints that memory ran out.
fn is_published(rt: &HostRuntime, cache: &mut Cache<VersionLog>, set: VrpSet) -> bool {
    cache.publish(set).is_ok() || no_memory(rt)
}

/// Publishes a set, and once more if memory ran out.
fn publish(rt: &HostRuntime, cache: &mut Cache<VersionLog>, (set, again): (VrpSet, VrpSet)) {
    if !is_published(rt, cache, set) {
        is_published(rt, cache, again);
    }
}

/// Publishes sets, one after the other.
fn publish_all(rt: &HostRuntime, cache: &mut Cache<VersionLog>, sets: Vec<(VrpSet, VrpSet)>) {
    for both in sets {
        publish(rt, cache, both);
    }
}

/// Prints what is due, at most this many bytes.
pub(crate) fn tell_due(rt: &HostRuntime, cache: &mut Cache<VersionLog>, conn: Conn, most: usize) {
    let mut room = [0u8; 64];
    if let Some(out) = room.get_mut(..most) {
        let count = cache.pull(conn, out);
        if let Some(front) = room.get(..count) {
            tell_bytes(rt, front);
        }
    }
}

/// Prints what is due, at most this many bytes, and whether the connection continues.
fn tell_pulled(rt: &HostRuntime, cache: &mut Cache<VersionLog>, conn: Conn, most: usize) {
    tell_due(rt, cache, conn, most);
    let is_open = cache.is_open(conn);
    tell(rt, if is_open { "open" } else { "ended" });
}

/// Passes in a query, and prints what is due then.
fn tell_answer(rt: &HostRuntime, cache: &mut Cache<VersionLog>, conn: Conn, query: &[u8]) {
    cache.receive(conn, query);
    tell_pulled(rt, cache, conn, 64);
}

/// The same on a new connection.
fn tell_first_answer(
    rt: &HostRuntime,
    cache: &mut Cache<VersionLog>,
    query: &[u8],
) -> Option<Conn> {
    let conn = opened(rt, cache)?;
    tell_answer(rt, cache, conn, query);
    Some(conn)
}

#[test]
fn answer_a_reset_query(rt: HostRuntime) {
    let alloc = rt.alloc();
    if let (Some(mut cache), Some(sets)) = (cache_from(alloc, 5), twice(alloc, &[V])) {
        begin(alloc);
        publish(&rt, &mut cache, sets);
        let _conn = tell_first_answer(&rt, &mut cache, RESET_QUERY);
    }
}

/// Opens two connections.
fn both_opened(rt: &HostRuntime, cache: &mut Cache<VersionLog>) -> Option<(Conn, Conn)> {
    let conn = opened(rt, cache)?;
    let other = opened(rt, cache)?;
    Some((conn, other))
}

/// One connection asks for all, and another set is published before it has read that. Then both ask what changed.
fn tell_changes(rt: &HostRuntime, cache: &mut Cache<VersionLog>, sets: (VrpSet, VrpSet)) {
    if let Some((conn, other)) = both_opened(rt, cache) {
        cache.receive(conn, RESET_QUERY);
        tell_pulled(rt, cache, conn, 10);
        publish(rt, cache, sets);
        tell_pulled(rt, cache, conn, 64);
        tell_answer(rt, cache, conn, SERIAL_QUERY);
        tell_answer(rt, cache, other, SERIAL_QUERY);
    }
}

/// A query of what changed finds no memory: its connection ends with a report, the other is answered.
#[test]
fn answer_a_serial_query(rt: HostRuntime) {
    let alloc = rt.alloc();
    if let (Some(mut cache), Some(first), Some(second)) = (
        cache_from(alloc, 5),
        twice(alloc, &[V]),
        twice(alloc, &[V, W]),
    ) {
        begin(alloc);
        publish(&rt, &mut cache, first);
        tell_changes(&rt, &mut cache, second);
    }
}

/// Asks what changed since serials 5 and 4, and the second for all then.
fn tell_old_answers(rt: &HostRuntime, cache: &mut Cache<VersionLog>) {
    let _conn = tell_first_answer(rt, cache, SERIAL_QUERY);
    if let Some(old) = tell_first_answer(rt, cache, OLD_QUERY) {
        tell_answer(rt, cache, old, RESET_QUERY);
    }
}

/// Versions 4 to 7 of which two before the current one are kept: from 5 on nothing changed, 4 is forgotten, and its router asks for all.
#[test]
fn answer_an_old_serial(rt: HostRuntime) {
    let alloc = rt.alloc();
    if let (Some(mut cache), Some(sets)) = (
        cache_from(alloc, 4),
        each_twice(alloc, &[&[], &[V], &[V, W], &[V]]),
    ) {
        begin(alloc);
        publish_all(&rt, &mut cache, sets);
        tell_old_answers(&rt, &mut cache);
    }
}

#[test]
fn answer_without_data(rt: HostRuntime) {
    if let Some(mut cache) = cache_from(rt.alloc(), 5) {
        begin(rt.alloc());
        let _conn = tell_first_answer(&rt, &mut cache, RESET_QUERY);
    }
}

/// The state of a link.
fn word(link: Link) -> &'static str {
    match link {
        Link::Idle => "Idle",
        Link::Ended(End::Memory) => "Ended(Memory)",
        Link::Ended(End::Expired) => "Ended(Expired)",
        _ => "another link",
    }
}

/// Prints the link, the size of the table, and what is committed.
pub(crate) fn tell_router(rt: &HostRuntime, router: &Router) {
    let link = word(router.link());
    let held = router.table().len();
    let _printed = match router.committed() {
        Some((_version, session, serial)) => {
            println!(rt; "{link} {held} {session} {}", serial.0)
        }
        None => println!(rt; "{link} {held}"),
    };
}

/// Connects, pulls the question, and passes in an answer.
pub(crate) fn answered(router: &mut Router, answer: &[u8]) {
    let mut room = [0u8; 64];
    router.connect(0);
    router.pull(&mut room);
    router.receive(answer, 0);
}

/// Passes in an answer on a connection, prints the router's state then, and returns whether the version of this serial is committed.
fn is_committed(rt: &HostRuntime, router: &mut Router, answer: &[u8], serial: u32) -> bool {
    answered(router, answer);
    tell_router(rt, router);
    match router.committed() {
        Some((_version, _session, found)) => found.0 == serial,
        None => false,
    }
}

/// The same on another connection if it is not.
fn tell_committed(rt: &HostRuntime, router: &mut Router, answer: &[u8], serial: u32) {
    let _done = is_committed(rt, router, answer, serial)
        || is_committed(rt, router, answer, serial);
}

#[test]
fn commit_an_answer(rt: HostRuntime) {
    let mut router = Router::new(rt.alloc());
    begin(rt.alloc());
    tell_committed(&rt, &mut router, ANSWER, 5);
}

#[test]
fn commit_a_change(rt: HostRuntime) {
    let mut router = Router::new(rt.alloc());
    answered(&mut router, ANSWER);
    begin(rt.alloc());
    tell_committed(&rt, &mut router, CHANGE, 6);
}
