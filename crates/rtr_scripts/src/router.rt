//! Steps at a router, and one function that plays them. Each line is a step: a word, and what belongs to it.
//!
//! - `speaks VERSION`, `connects NOW`, `ticks NOW`, `closes NOW`: this is called.
//! - `configures REFRESH RETRY EXPIRE KEEPS MOST`: it gets these intervals, of which refresh and expire are kept if KEEPS is 1, and at most
//!   this many records.
//! - `receives NOW PDUS`: these PDUs come, one after the other, and all of each is consumed.
//! - `leaves NOW PDUS`: nothing of these PDUs is consumed.
//! - `receives-part COUNT NOW PDUS`: of these PDUs, in one piece, this many bytes are consumed.
//! - `receives-front NOW PDUS`: as many bytes of these PDUs come as the cut says, in one piece, and all are consumed.
//! - `receives-cut COUNT NOW PDUS`: these PDUs come in two pieces, cut there, and what is left comes again. This many bytes are consumed.
//! - `receives-many RECORDS SIZE`: an answer of this many records comes in pieces of this many bytes, and all of each is consumed.
//! - `begins BYTES`: these bytes are pulled, in one piece.
//! - `sends PDUS`: these PDUs are pending, and nothing else.
//! - `asks`, `asks busy`, `asks not-connected`: it is asked to put its question, and answers so.
//! - `due MOMENT`: its next call is due at this moment.
//! - `wakes MOMENT`, `wakes never`: it has nothing to do before this moment, or at all.
//! - `pending yes`, `pending no`: it has bytes to send, or none.
//! - `link STATE`: the state of its link, with the code of the Error Report that ended it.
//! - `holds RECORDS VERSION SESSION SERIAL`, `holds nothing`: what is committed.
//! - `committed VERSION SESSION SERIAL MOMENT REFRESH RETRY EXPIRE`, `committed nothing`: the names, the moment and the intervals of it.
//! - `changed WITHDRAWN ANNOUNCED`, `changed nothing`: how many records the latest commit withdrew and announced.
//! - `judges PREFIX AS STATE`: a route has this state.
//! - `covers PREFIX AS COUNT`: this many records cover a route, which are all that it has or none.
//! - `numbered`: each record has the AS of its place.
//!
//! Bars part PDUs, and each has a name (`test_values::scripts`) or is spelled in hexadecimal digits.
use prefixes::{IpPrefix, Route};
use rtr_ends::laws::router_has_room;
use rtr_ends::{AskFault, End, Link, Router, RouterConfig, Timing};
use rtr_pdu::Version;
use std::alloc::Global;
use test_values::answers::answer_of;
use test_values::hex::Bytes;
use test_values::scripts::{Words, unit_in, units_in};
use vrps::{OriginState, Serial};

/// Whether all of each of these PDUs is consumed.
fn takes(router: &mut Router, version: Version, units: &str, now: u64) -> bool {
    for name in units.split('|') {
        let piece = unit_in(version.number(), name);
        if router.receive(piece.as_slice(), now) != piece.len() {
            return false;
        }
    }
    true
}

/// How many bytes a router consumes if they come in two pieces, and what it leaves comes again.
fn taken_of(router: &mut Router, bytes: &[u8], cut: usize, now: u64) -> usize {
    let mut count = match bytes.get(..cut) {
        Some(front) => router.receive(front, now),
        None => 0,
    };
    for _ in 0..3 {
        if let Some(rest) = bytes.get(count..) {
            count = count.saturating_add(router.receive(rest, now));
        }
    }
    count
}

/// Whether the front of these bytes comes in one piece, and all of it is consumed.
fn takes_front(router: &mut Router, bytes: &[u8], cut: usize, now: u64) -> bool {
    match bytes.get(..cut) {
        Some(front) => router.receive(front, now) == cut,
        None => false,
    }
}

/// Whether as many bytes of PDUs are consumed as a line says.
fn receives(
    router: &mut Router,
    version: Version,
    cut: usize,
    word: &str,
    words: &mut Words<'_>,
) -> Option<bool> {
    let count = match word {
        "receives-part" | "receives-cut" => words.number()?,
        _ => 0,
    };
    let now = words.number()?;
    if word == "receives" {
        return Some(takes(router, version, words.rest, now));
    }
    let piece = units_in(version.number(), words.rest);
    match word {
        "receives-front" => Some(takes_front(router, piece.as_slice(), cut, now)),
        "receives-cut" => Some(taken_of(router, piece.as_slice(), cut, now) as u64 == count),
        _ => Some(router.receive(piece.as_slice(), now) as u64 == count),
    }
}

/// Whether all of each piece of this many bytes is consumed.
fn is_fed(router: &mut Router, answer: &[u8], size: usize) -> bool {
    for piece in answer.chunks(size.max(1)) {
        if router.receive(piece, 0) != piece.len() {
            return false;
        }
    }
    true
}

/// Whether an answer of as many records as a line says is consumed in pieces.
fn receives_many(router: &mut Router, alloc: Global, words: &mut Words<'_>) -> Option<bool> {
    let records = u32::try_from(words.number()?).ok()?;
    let size = usize::try_from(words.number()?).ok()?;
    let answer = answer_of(alloc, records)?;
    Some(is_fed(router, answer.as_slice(), size))
}

/// Whether exactly these bytes are pending.
pub(crate) fn sends(router: &mut Router, expected: &Bytes) -> bool {
    let mut room = [0u8; 64];
    if router.has_bytes() == expected.is_empty() {
        return false;
    }
    let count = router.pull(&mut room);
    room.get(..count) == Some(expected.as_slice()) && !router.has_bytes()
}

/// Whether a piece is pulled that is these bytes.
fn begins(router: &mut Router, front: &Bytes) -> bool {
    let mut room = [0u8; 64];
    match room.get_mut(..front.len()) {
        None => false,
        Some(out) => router.pull(out) == front.len() && *out == *front.as_slice(),
    }
}

fn asks(router: &mut Router, answer: &str) -> bool {
    match router.ask() {
        Ok(()) => answer.is_empty(),
        Err(AskFault::Busy) => answer == "busy",
        Err(AskFault::NotConnected) => answer == "not-connected",
    }
}

/// Whether a line is one of these calls, which is then made.
fn calls(router: &mut Router, word: &str, now: u64) -> bool {
    match word {
        "speaks" => router.speak(if now == 0 { Version::V0 } else { Version::V1 }),
        "connects" => router.connect(now),
        "ticks" => router.tick(now),
        "closes" => router.closed(now),
        _ => return false,
    }
    true
}

/// Whether this many records are committed, under this session and serial of this version.
pub(crate) fn holds(
    router: &Router,
    records: usize,
    version: Version,
    session: u16,
    serial: u32,
) -> bool {
    router_has_room(router);
    router.table().len() == records
        && router.committed() == Some((version, session, Serial(serial)))
}

/// Whether what is committed is what a line says.
fn is_held(router: &Router, words: &mut Words<'_>) -> bool {
    let records = words.next();
    match router.committed() {
        None => records == "nothing" && router.table().is_empty(),
        Some((version, session, serial)) => {
            records.parse::<usize>().ok() == Some(router.table().len())
                && words.number() == Some(u64::from(version.number()))
                && words.number() == Some(u64::from(session))
                && words.number() == Some(u64::from(serial.0))
        }
    }
}

/// Whether the committed version has the names, the moment and the intervals of a line.
fn is_committed(router: &Router, words: &mut Words<'_>) -> bool {
    match router.committed_version() {
        None => words.rest == "nothing",
        Some(found) => {
            words.number() == Some(u64::from(found.version.number()))
                && words.number() == Some(u64::from(found.session))
                && words.number() == Some(u64::from(found.serial.0))
                && words.number() == Some(found.moment)
                && words.number() == Some(u64::from(found.refresh))
                && words.number() == Some(u64::from(found.retry))
                && words.number() == Some(u64::from(found.expire))
        }
    }
}

/// Whether the latest commit withdrew and announced as many records as a line says.
fn has_changed(router: &Router, words: &mut Words<'_>) -> bool {
    match router.last_change() {
        Ok(Some(change)) => {
            words.number() == Some(change.withdraw.len() as u64)
                && words.number() == Some(change.announce.len() as u64)
        }
        Ok(None) => words.rest == "nothing",
        Err(_) => false,
    }
}

/// How many records of the table cover the route of a line, if they are all that it has or none.
fn covering(router: &Router, words: &mut Words<'_>) -> Option<u64> {
    let found = router.covering(&route_of(words)?).ok()?;
    let is_told = found.is_empty() || found.as_slice() == router.table().as_slice();
    is_told.then_some(found.len() as u64)
}

/// Whether each record has the AS of its place.
fn is_numbered(router: &Router) -> bool {
    for (place, vrp) in router.table().as_slice().iter().enumerate() {
        if vrp.asn().0 as usize != place {
            return false;
        }
    }
    true
}

/// A configuration of these intervals, of which refresh and expire are kept or not.
fn config_of(words: &mut Words<'_>) -> Option<RouterConfig> {
    let refresh = u32::try_from(words.number()?).ok()?;
    let retry = u32::try_from(words.number()?).ok()?;
    let expire = u32::try_from(words.number()?).ok()?;
    let keeps = words.number()? == 1;
    let most = u32::try_from(words.number()?).ok()?;
    let intervals = Timing::new(refresh, retry, expire).ok()?;
    Some(RouterConfig {
        intervals,
        keeps_refresh: keeps,
        keeps_retry: false,
        keeps_expire: keeps,
        most,
    })
}

/// Whether a router gets the configuration of a line.
fn is_configured(router: &mut Router, words: &mut Words<'_>) -> bool {
    match config_of(words) {
        Some(config) => {
            router.configure(config);
            *router.config() == config
        }
        None => false,
    }
}

/// Whether the link is in the state that a line says.
fn is_link(router: &Router, words: &mut Words<'_>) -> bool {
    let state = words.next();
    match router.link() {
        Link::Closed => state == "closed",
        Link::Idle => state == "idle",
        Link::Asked => state == "asked",
        Link::Answering => state == "answering",
        Link::Ended(End::Expired) => state == "expired",
        Link::Ended(End::TooMany) => state == "too-many",
        Link::Ended(End::Reported(code)) => {
            state == "reported" && words.number() == Some(u64::from(code))
        }
        Link::Ended(End::Told(code)) => {
            state == "told" && words.number() == Some(u64::from(code))
        }
        Link::Ended(End::Malformed) => state == "malformed",
        Link::Ended(_) => false,
    }
}

/// The route of a line.
fn route_of(words: &mut Words<'_>) -> Option<Route> {
    let prefix = IpPrefix::parse(words.next()).ok()?;
    let origin = u32::try_from(words.number()?).ok()?;
    Some(Route {
        prefix,
        origin: Some(origin),
    })
}

/// Whether a route has the state that a line says.
fn judges(router: &Router, words: &mut Words<'_>) -> bool {
    let Some(route) = route_of(words) else {
        return false;
    };
    match router.route_state(&route) {
        OriginState::NotFound => words.rest == "not-found",
        OriginState::Invalid => words.rest == "invalid",
        OriginState::Valid => words.rest == "valid",
    }
}

/// Whether a router has what it has to have.
fn stands(router: &Router, word: &str, words: &mut Words<'_>) -> bool {
    match word {
        "due" => router.due() == words.number(),
        "wakes" => router.wake_at() == words.number(),
        "pending" => router.has_bytes() == (words.rest == "yes"),
        "link" => is_link(router, words),
        "holds" => is_held(router, words),
        "committed" => is_committed(router, words),
        "changed" => has_changed(router, words),
        "judges" => judges(router, words),
        "covers" => {
            let count = covering(router, words);
            count.is_some() && words.number() == count
        }
        "numbered" => is_numbered(router),
        _ => false,
    }
}

/// Whether a line goes as it has to. PDUs are spelled in version 1, and come and go as they are in this version.
fn goes(router: &mut Router, alloc: Global, version: Version, cut: usize, line: &str) -> bool {
    let mut words = Words { rest: line };
    let word = words.next();
    match word {
        "speaks" | "connects" | "ticks" | "closes" => match words.number() {
            Some(now) => calls(router, word, now),
            None => false,
        },
        "configures" => is_configured(router, &mut words),
        "receives" | "leaves" | "receives-part" | "receives-front" | "receives-cut" => {
            receives(router, version, cut, word, &mut words) == Some(true)
        }
        "receives-many" => receives_many(router, alloc, &mut words) == Some(true),
        "begins" => begins(router, &units_in(version.number(), words.rest)),
        "sends" => sends(router, &units_in(version.number(), words.rest)),
        "asks" => asks(router, words.rest),
        _ => stands(router, word, &mut words),
    }
}

/// The first line that does not go as it has to, or an empty text.
fn first_wrong<'a>(
    router: &mut Router,
    alloc: Global,
    version: Version,
    cut: usize,
    steps: &'a str,
) -> &'a str {
    for line in steps.lines() {
        if !goes(router, alloc, version, cut, line) {
            return line;
        }
    }
    ""
}

/// A router of this version at which these lines went as they have to.
pub(crate) fn played(alloc: Global, version: Version, steps: &str) -> Option<Router> {
    let mut router = Router::new(alloc);
    router.speak(version);
    if first_wrong(&mut router, alloc, version, 0, steps).is_empty() {
        Some(router)
    } else {
        None
    }
}

/// The same at a new router of this version, which has the configuration of a new router.
fn wrong_at<'a>(alloc: Global, version: Version, cut: usize, steps: &'a str) -> &'a str {
    let mut router = Router::new(alloc);
    router.speak(version);
    if *router.config() != RouterConfig::default() {
        return steps;
    }
    first_wrong(&mut router, alloc, version, cut, steps)
}

/// The same for each cut.
fn wrong_in<'a>(
    alloc: Global,
    version: Version,
    (from, to): (usize, usize),
    steps: &'a str,
) -> &'a str {
    for cut in from..=to {
        let wrong = wrong_at(alloc, version, cut, steps);
        if !wrong.is_empty() {
            return wrong;
        }
    }
    ""
}

/// The first cut and the last. A script that names none has one.
fn cuts(word: &str, words: &mut Words<'_>) -> Option<(usize, usize)> {
    if word != "cut" {
        return word.is_empty().then_some((0, 0));
    }
    let from = usize::try_from(words.number()?).ok()?;
    let to = usize::try_from(words.number()?).ok()?;
    (from <= to).then_some((from, to))
}

/// The first step of a script that does not go as it says, or an empty text.
pub(crate) fn wrong_step<'a>(alloc: Global, words: &mut Words<'_>, steps: &'a str) -> &'a str {
    let word = words.next();
    let is_both = word == "both";
    let Some(cuts) = cuts(if is_both { words.next() } else { word }, words) else {
        return steps;
    };
    let wrong = wrong_in(alloc, Version::V1, cuts, steps);
    if is_both && wrong.is_empty() {
        return wrong_in(alloc, Version::V0, cuts, steps);
    }
    wrong
}
