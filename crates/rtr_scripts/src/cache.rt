//! Steps at a cache, and one function that plays them over any store of versions. Each line is a step: a word, and what belongs to it.
//!
//! - `publishes as SERIAL RECORDS`, `publishes same RECORDS`: a set is published, as a version of this serial, or it is the current one.
//! - `has SERIAL COUNT`, `has nothing`: the current version has this serial and this many records, or there is none.
//! - `opens PLACE`: a connection is opened. It gets the number that the one of this place had, or a number that none had.
//! - `PLACE EVENT`: something happens on the connection of this place among those that have been opened.
//!
//! Events are these.
//!
//! - `takes COUNT PDUS`: this many bytes of these PDUs are consumed.
//! - `begins BYTES`: these bytes go out first, in one piece.
//! - `sends PDUS`, `sends-0 PDUS`: these PDUs are due, or the same in version 0, and nothing else.
//! - `silent`: nothing goes out, and nothing is written into its buffer.
//! - `notifies yes`, `notifies no`: a notify is asked for, which is or is not sent.
//! - `pending yes`, `open yes`, and the same with `no`: bytes are due, and the connection continues.
//! - `closes`: the connection is closed.
//!
//! Bars part PDUs, and each has a name (`test_values::scripts`) or is spelled in hexadecimal digits.
use prefixes::Vrp;
use rtr_ends::laws::each_has_room;
use rtr_ends::{Cache, Conn, Timing};
use std::alloc::Global;
use test_values::hex::Bytes;
use test_values::scripts::{Words, units_in};
use test_values::sets::record;
use vrps::{Published, VersionLog, VersionStore, VrpSet, WholeLog};

/// A store of versions: the steps to the current set, and the plain program of whole sets.
pub(crate) trait Log: VersionStore {
    /// A log of this session without versions, whose first one has the serial `start`, and which keeps two before the current one.
    fn log(alloc: Global, session: u16, start: u32) -> Option<Self>;
}

impl Log for VersionLog {
    fn log(alloc: Global, session: u16, start: u32) -> Option<VersionLog> {
        VersionLog::new(alloc, session, start, 2).ok()
    }
}

impl Log for WholeLog {
    fn log(alloc: Global, session: u16, start: u32) -> Option<WholeLog> {
        WholeLog::new(alloc, session, start, 2).ok()
    }
}

/// The session of a cache, the serial of the first version, and whether it is one of both versions, which has session 0x0777 in version 0.
type Start = (u16, u32, bool);

/// The record of this name.
fn named(name: &str) -> Option<Vrp> {
    match name {
        "V" => record("192.0.2.0/24", 24, 64496),
        "W" => record("198.51.100.0/24", 24, 64497),
        "X" => record("203.0.113.0/24", 24, 64498),
        "Y" => record("2001:db8::/32", 48, 64499),
        _ => None,
    }
}

/// The set of the records of these names.
fn set_named(alloc: Global, names: &str) -> Option<VrpSet> {
    let mut list = Vec::new(alloc);
    for name in names.split_whitespace() {
        let Some(vrp) = named(name) else {
            return None;
        };
        if list.push(vrp).is_err() {
            return None;
        }
    }
    VrpSet::from_list(list).ok()
}

/// What is answered if the set of the records of these names is published.
fn publish<S: VersionStore>(cache: &mut Cache<S>, alloc: Global, names: &str) -> Option<Published> {
    match set_named(alloc, names) {
        Some(set) => cache.publish(set).ok(),
        None => None,
    }
}

/// Whether a set is published as a line says.
fn is_published<S: VersionStore>(
    cache: &mut Cache<S>,
    alloc: Global,
    words: &mut Words<'_>,
) -> bool {
    let is_new = words.next() == "as";
    let serial = if is_new { words.number() } else { None };
    match publish(cache, alloc, words.rest) {
        Some(Published::New(found)) => serial == Some(u64::from(found.0)),
        Some(Published::Unchanged) => !is_new,
        None => false,
    }
}

/// Whether the current version is the one that a line says.
fn has<S: VersionStore>(cache: &Cache<S>, words: &mut Words<'_>) -> bool {
    match (cache.current(), words.number()) {
        (Some((current, set)), Some(serial)) => {
            u64::from(current.0) == serial && words.number() == Some(set.len() as u64)
        }
        (None, None) => true,
        _ => false,
    }
}

/// All that is due, pulled in pieces of at most this many bytes.
fn pulled<S: VersionStore>(cache: &mut Cache<S>, conn: Conn, size: usize) -> Bytes {
    let mut all = Bytes::new();
    let mut room = [0u8; 64];
    for _ in 0..256 {
        let count = match room.get_mut(..size) {
            None => 0,
            Some(out) => cache.pull(conn, out),
        };
        if let Some(front) = room.get(..count) {
            let _fits = all.try_extend_from_slice(front);
        }
    }
    all
}

/// Whether a piece goes out that begins with these bytes.
fn begins<S: VersionStore>(cache: &mut Cache<S>, conn: Conn, front: &Bytes) -> bool {
    let mut room = [7u8; 64];
    match room.get_mut(..front.len()) {
        None => false,
        Some(out) => cache.pull(conn, out) == front.len() && *out == *front.as_slice(),
    }
}

fn sends_nothing<S: VersionStore>(cache: &mut Cache<S>, conn: Conn) -> bool {
    let mut out = [7u8; 8];
    cache.pull(conn, &mut out) == 0 && out == [7u8; 8]
}

/// Whether as many bytes are consumed as a line says.
fn takes<S: VersionStore>(cache: &mut Cache<S>, conn: Conn, words: &mut Words<'_>) -> bool {
    let count = words.number();
    let units = units_in(1, words.rest);
    count == Some(cache.receive(conn, units.as_slice()) as u64)
}

/// Whether an event goes as it has to, if bytes go out in pieces of this many.
fn happens<S: VersionStore>(
    cache: &mut Cache<S>,
    conn: Conn,
    size: usize,
    words: &mut Words<'_>,
) -> bool {
    match words.next() {
        "takes" => takes(cache, conn, words),
        "begins" => begins(cache, conn, &units_in(1, words.rest)),
        "sends" => pulled(cache, conn, size).as_slice() == units_in(1, words.rest).as_slice(),
        "sends-0" => pulled(cache, conn, size).as_slice() == units_in(0, words.rest).as_slice(),
        "silent" => sends_nothing(cache, conn),
        "notifies" => cache.notify(conn) == (words.rest == "yes"),
        "pending" => cache.has_bytes(conn) == (words.rest == "yes"),
        "open" => cache.is_open(conn) == (words.rest == "yes"),
        "closes" => {
            cache.close(conn);
            true
        }
        _ => false,
    }
}

/// Whether a connection that is opened has this place.
fn opens<S: VersionStore>(cache: &mut Cache<S>, conns: &mut Vec<Conn>, place: &str) -> bool {
    let Ok(conn) = cache.open() else {
        return false;
    };
    if let Some(known) = conn_at(conns.as_slice(), place) {
        return known == conn;
    }
    !conns.contains(&conn) && conns.push(conn).is_ok()
}

/// The connection of a place.
fn conn_at(conns: &[Conn], place: &str) -> Option<Conn> {
    match place.parse::<usize>() {
        Ok(place) => conns.get(place).copied(),
        Err(_) => None,
    }
}

/// Whether a line goes as it has to.
fn goes<S: VersionStore>(
    cache: &mut Cache<S>,
    conns: &mut Vec<Conn>,
    alloc: Global,
    size: usize,
    line: &str,
) -> bool {
    let mut words = Words { rest: line };
    match words.next() {
        "publishes" => is_published(cache, alloc, &mut words),
        "has" => has(cache, &mut words),
        "opens" => opens(cache, conns, words.rest),
        place => match conn_at(conns.as_slice(), place) {
            Some(conn) => happens(cache, conn, size, &mut words),
            None => false,
        },
    }
}

/// The first line that does not go as it has to, with what goes out pulled in pieces of this many bytes, or an empty text.
fn first_wrong<'a, S: VersionStore>(
    cache: &mut Cache<S>,
    alloc: Global,
    size: usize,
    steps: &'a str,
) -> &'a str {
    let mut conns = Vec::new(alloc);
    for line in steps.lines() {
        if !goes(cache, &mut conns, alloc, size, line) {
            return line;
        }
    }
    ""
}

/// A cache at its start.
fn cache_at<S: Log + Drop>(alloc: Global, (session, serial, is_both): Start) -> Option<Cache<S>> {
    let log = S::log(alloc, session, serial)?;
    if is_both {
        return Some(Cache::new_both(alloc, log, 0x0777, Timing::default()));
    }
    Some(Cache::new(alloc, log, Timing::default()))
}

/// A cache of session 0x1234 without versions, whose first one has the serial 5.
pub(crate) fn cache_of<S: Log + Drop>(alloc: Global) -> Option<Cache<S>> {
    cache_at(alloc, (0x1234, 5, false))
}

/// The first line of a script that does not go as it has to from its start on.
fn wrong_at<'a, S: Log + Drop>(
    alloc: Global,
    start: Start,
    size: usize,
    steps: &'a str,
) -> &'a str {
    let Some(mut cache) = cache_at::<S>(alloc, start) else {
        return steps;
    };
    let wrong = first_wrong(&mut cache, alloc, size, steps);
    each_has_room(&cache);
    wrong
}

/// The same with pieces of one byte, of seven and of 64.
fn wrong_over<'a, S: Log + Drop>(alloc: Global, start: Start, steps: &'a str) -> &'a str {
    for size in [1, 7, 64] {
        let wrong = wrong_at::<S>(alloc, start, size, steps);
        if !wrong.is_empty() {
            return wrong;
        }
    }
    ""
}

/// The start that a script names.
fn start_of(words: &mut Words<'_>) -> Option<Start> {
    let session = u16::try_from(words.number()?).ok()?;
    let serial = u32::try_from(words.number()?).ok()?;
    Some((session, serial, words.rest == "both"))
}

/// The first step of a script that does not go as it says, over each store, or an empty text.
pub(crate) fn wrong_step<'a>(alloc: Global, words: &mut Words<'_>, steps: &'a str) -> &'a str {
    let Some(start) = start_of(words) else {
        return steps;
    };
    let wrong = wrong_over::<VersionLog>(alloc, start, steps);
    if !wrong.is_empty() {
        return wrong;
    }
    wrong_over::<WholeLog>(alloc, start, steps)
}
