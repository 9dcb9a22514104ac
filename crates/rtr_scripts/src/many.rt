//! A long answer of a cache in pieces, over both stores of versions.
use crate::cache::{Log, cache_of};
use prefixes::{Asn, IpPrefix, Prefix, V4, Vrp};
use rtr_ends::{Cache, Conn};
use std::alloc::Global;
use test_values::answers::answer_of;
use test_values::hex::bytes;
use test_values::units::RESET_QUERY;
use vrps::{VersionLog, VersionStore, VrpSet, WholeLog};

/// The record of this address of 32 bits and this AS.
fn numbered(number: u32) -> Option<Vrp> {
    match Prefix::<V4>::new(u128::from(number), 32) {
        Ok(prefix) => Vrp::new(IpPrefix::V4(prefix), 32, Asn(number)).ok(),
        Err(_) => None,
    }
}

/// The first of these records.
fn many(alloc: Global, count: u32) -> Option<VrpSet> {
    let mut list = Vec::new(alloc);
    for number in 0..count {
        let Some(vrp) = numbered(number) else {
            return None;
        };
        if list.push(vrp).is_err() {
            return None;
        }
    }
    VrpSet::from_list(list).ok()
}

/// What is left of an answer after a piece of at most this many bytes, if that is the front of it.
fn left<'a, S: VersionStore>(
    cache: &mut Cache<S>,
    conn: Conn,
    size: usize,
    answer: &'a [u8],
) -> Option<&'a [u8]> {
    let mut room = [0u8; 4096];
    let count = match room.get_mut(..size) {
        None => 0,
        Some(out) => cache.pull(conn, out),
    };
    answer.strip_prefix(room.get(..count)?)
}

/// Whether this answer, and nothing else, is pulled in pieces of at most this many bytes.
fn is_pulled<S: VersionStore>(
    cache: &mut Cache<S>,
    conn: Conn,
    size: usize,
    answer: &[u8],
) -> bool {
    let mut rest = answer;
    for _piece in 0..300_000u32 {
        if !cache.has_bytes(conn) {
            return rest.is_empty();
        }
        match left(cache, conn, size, rest) {
            Some(behind) => rest = behind,
            None => return false,
        }
    }
    false
}

/// Whether a Reset Query is answered so, in one piece of 4,096 bytes after the other, in pieces of seven bytes, and byte by byte.
fn is_answered<S: VersionStore>(cache: &mut Cache<S>, answer: &[u8]) -> bool {
    let Ok(conn) = cache.open() else {
        return false;
    };
    for size in [4096, 7, 1] {
        if cache.receive(conn, bytes(RESET_QUERY).as_slice()) != 8
            || !is_pulled(cache, conn, size, answer)
        {
            return false;
        }
    }
    true
}

/// Whether a cache of these records answers so.
fn is_told<S: Log + Drop>(alloc: Global, set: VrpSet, answer: &[u8]) -> bool {
    match cache_of::<S>(alloc) {
        Some(mut cache) => cache.publish(set).is_ok() && is_answered(&mut cache, answer),
        None => false,
    }
}

/// Whether this many records are sent in pieces.
fn sends_many<S: Log + Drop>(alloc: Global, count: u32) -> bool {
    match (many(alloc, count), answer_of(alloc, count)) {
        (Some(set), Some(answer)) => is_told::<S>(alloc, set, answer.as_slice()),
        _ => false,
    }
}

/// The number of records of a script, if they are not sent over each store, or an empty text.
pub(crate) fn wrong_step<'a>(alloc: Global, steps: &'a str) -> &'a str {
    match steps.trim().parse::<u32>() {
        Ok(count)
            if sends_many::<VersionLog>(alloc, count) && sends_many::<WholeLog>(alloc, count) => "",
        _ => steps,
    }
}
