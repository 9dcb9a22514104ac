//! Inputs that are served and fetched over devices in memory, each call of which may fail.
use rtr_ends::{
    Cache, End, Fetched, Link, Router, Served, StreamFault, Timing, fetch_stream, serve_stream,
};
use rtr_pdu::{Counted, Version};
use std::alloc::Global;
use std::io;
use std::io::{ErrorKind, Read, Write};
use test_values::hex::{Bytes, bytes};
use test_values::sets::{V, set_in};
use test_values::units::{ANSWER, RESET_QUERY, UNCHANGED};
use vrps::{Serial, VersionLog};

const TWO_QUERIES: &str = "01 02 0000 00000008 | 01 02 0000 00000008";

/// Code 2, No Data Available, to a Reset Query.
const NO_DATA: &str = "01 0a 0002 00000018 00000008 0102000000000008 00000000";

/// A reader of this many bytes a call, which fails after a number of calls.
#[derive(Drop)]
struct Steps {
    bytes: Bytes,
    /// How many were read.
    place: usize,
    size: usize,
    calls: u8,
}

impl Steps {
    /// What was not read yet.
    fn left(&self) -> &[u8] {
        let bytes = self.bytes.as_slice();
        &bytes[self.place.min(bytes.len())..]
    }
}

impl Read for Steps {
    fn read(&mut self, buf: &mut [u8]) -> io::Result<usize> {
        if self.calls == 0 {
            return Err(io::Error::from(ErrorKind::BrokenPipe));
        }
        self.calls -= 1;
        let mut rest = self.left();
        let most = self.size.min(buf.len());
        let Some(room) = buf.get_mut(..most) else {
            return Ok(0);
        };
        let count = rest.read(room)?;
        self.place = self.place.saturating_add(count);
        Ok(count)
    }
}

/// A writer that accepts this many bytes a call, and after a number of calls none: it fails, or says that it accepted none.
#[derive(Drop)]
struct Stalling {
    taken: Vec<u8>,
    size: usize,
    calls: u8,
    fails: bool,
}

impl Write for Stalling {
    fn write(&mut self, buf: &[u8]) -> io::Result<usize> {
        if self.calls == 0 {
            return if self.fails {
                Err(io::Error::from(ErrorKind::BrokenPipe))
            } else {
                Ok(0)
            };
        }
        self.calls -= 1;
        let count = self.size.min(buf.len());
        match buf.get(..count) {
            Some(front) if self.taken.extend_from_slice(front).is_ok() => Ok(count),
            _ => Err(io::Error::from(ErrorKind::OutOfMemory)),
        }
    }

    fn flush(&mut self) -> io::Result<()> {
        Ok(())
    }
}

fn stepwise(units: &str, size: usize, calls: u8) -> Counted<Steps> {
    Counted::new(Steps {
        bytes: bytes(units),
        place: 0,
        size,
        calls,
    })
}

fn list(alloc: Global) -> Counted<Vec<u8>> {
    Counted::new(Vec::new(alloc))
}

fn writer_of(alloc: Global, size: usize, calls: u8, fails: bool) -> Counted<Stalling> {
    Counted::new(Stalling {
        taken: Vec::new(alloc),
        size,
        calls,
        fails,
    })
}

/// A cache of session 0x1234 whose one version, of serial 5, has v.
fn cache_of_v(alloc: Global) -> Option<Cache<VersionLog>> {
    let Ok(log) = VersionLog::new(alloc, 0x1234, 5, 2) else {
        return None;
    };
    let mut cache = Cache::new(alloc, log, Timing::default());
    match cache.publish(set_in(alloc, &[V])?) {
        Ok(_) => Some(cache),
        Err(_) => None,
    }
}

/// Whether an input is served so. Whatever its result, its connection is closed after it: the next one has its number.
fn serves<I: Read, O: Write>(
    cache: &mut Cache<VersionLog>,
    input: &mut Counted<I>,
    output: &mut Counted<O>,
    limit: u64,
    served: Result<Served, StreamFault>,
) -> bool {
    let Ok(first) = cache.open() else {
        return false;
    };
    cache.close(first);
    if serve_stream(cache, input, output, limit) != served {
        return false;
    }
    match cache.open() {
        Ok(next) => next == first,
        Err(_) => false,
    }
}

/// Whether this many answers went out; if they are all, nothing else did.
fn has_answers(out: &[u8], answers: usize, are_all: bool) -> bool {
    let mut all = Bytes::new();
    for _answer in 0..answers {
        let _fits = all.try_extend_from_slice(bytes(ANSWER).as_slice());
    }
    out.starts_with(all.as_slice()) && (!are_all || out.len() == all.len())
}

/// Whether these are served so, in at most this many reads, with this many answers; if the cache ends it, it says why after them.
fn is_served(alloc: Global, units: &str, limit: u64, served: Served, answers: usize) -> bool {
    let are_all = served != Served::CacheEnded;
    let Some(mut cache) = cache_of_v(alloc) else {
        return false;
    };
    let mut input = stepwise(units, 8, 9);
    let mut output = list(alloc);
    serves(&mut cache, &mut input, &mut output, limit, Ok(served))
        && has_answers(output.device().as_slice(), answers, are_all)
}

#[test]
fn a_connection_is_served_to_its_end(rt: HostRuntime) {
    let alloc = rt.alloc();
    assert!(rt; is_served(alloc, TWO_QUERIES, 9, Served::PeerClosed, 2));
    let cut = "01 02 0000 00000008 | 01 02";
    assert!(rt; is_served(alloc, cut, 9, Served::Truncated, 1));
    assert!(rt; is_served(alloc, TWO_QUERIES, 1, Served::Limit, 1));
    assert!(rt; is_served(alloc, TWO_QUERIES, 0, Served::Limit, 0));
    let in_both = "01 02 0000 00000008 | 00 02 0000 00000008";
    assert!(rt; is_served(alloc, in_both, 9, Served::CacheEnded, 1));
}

/// What changed since serial 5 of session 4660? Asked twice: nothing changed.
const SINCE_TWICE: &str = "01 01 1234 0000000c 00000005 | 01 01 1234 0000000c 00000005";

/// Whether this is the beginning, of this length, of the two answers to that.
fn is_unchanged_twice(out: &[u8], len: usize) -> bool {
    let mut both = bytes(UNCHANGED);
    let _fits = both.try_extend_from_slice(bytes(UNCHANGED).as_slice());
    both.as_slice().get(..len) == Some(out)
}

/// Whether what was read before this many calls is answered, before the call that fails.
fn is_answered_up_to(alloc: Global, calls: u8) -> bool {
    let Some(mut cache) = cache_of_v(alloc) else {
        return false;
    };
    let mut input = stepwise(SINCE_TWICE, 5, calls);
    let mut output = list(alloc);
    let failed = Err(StreamFault::ReadFailed);
    // Each answer of 32 bytes follows the 12 bytes of its query.
    let answered = usize::from(calls) * 5 / 12 * 32;
    serves(&mut cache, &mut input, &mut output, 9, failed)
        && input.failures() == 1
        && is_unchanged_twice(output.device().as_slice(), answered)
}

#[test]
fn each_read_may_fail(rt: HostRuntime) {
    for calls in 0..5u8 {
        assert!(rt; is_answered_up_to(rt.alloc(), calls));
    }
}

/// Whether two queries are served so to a writer that accepts seven bytes a call, and after this many calls none.
fn is_stalled(alloc: Global, calls: u8, fails: bool) -> bool {
    let Some(mut cache) = cache_of_v(alloc) else {
        return false;
    };
    let mut input = stepwise(SINCE_TWICE, 24, 9);
    let mut output = writer_of(alloc, 7, calls, fails);
    // Each answer of 32 bytes needs five calls.
    let whole = usize::from(calls / 5) * 32 + usize::from(calls % 5) * 7;
    let served = if whole < 64 {
        Err(StreamFault::WriteFailed)
    } else {
        Ok(Served::PeerClosed)
    };
    serves(&mut cache, &mut input, &mut output, 9, served)
        && input.failures() == 0
        && is_unchanged_twice(output.device().taken.as_slice(), whole)
}

#[test]
fn each_write_may_fail_or_take_nothing(rt: HostRuntime) {
    for calls in 0..=10u8 {
        assert!(rt; is_stalled(rt.alloc(), calls, true));
        assert!(rt; is_stalled(rt.alloc(), calls, false));
    }
}

/// Whether these bytes are fetched so, in at most this many reads, with one question that went out in one write.
fn fetches(
    router: &mut Router,
    alloc: Global,
    units: &str,
    limit: u64,
    fetched: Result<Fetched, StreamFault>,
) -> bool {
    let mut input = stepwise(units, 20, 5);
    let mut output = list(alloc);
    fetch_stream(router, &mut input, &mut output, 100, limit) == fetched
        && output.calls() == 1
        && router.link() == Link::Closed
}

/// Whether a router that receives No Data Available has asked for all.
fn fetches_nothing(router: &mut Router, alloc: Global) -> bool {
    let mut input = stepwise(NO_DATA, 4096, 9);
    let mut output = list(alloc);
    fetch_stream(router, &mut input, &mut output, 100, 9) == Ok(Fetched::NoData)
        && output.device().as_slice() == bytes(RESET_QUERY).as_slice()
}

/// Whether it has one record, as serial 5 of session 4660.
fn has_committed(router: &Router) -> bool {
    router.table().len() == 1 && router.committed() == Some((Version::V1, 4660, Serial(5)))
}

#[test]
fn a_router_fetches(rt: HostRuntime) {
    let alloc = rt.alloc();
    let mut router = Router::new(alloc);
    assert!(rt; fetches_nothing(&mut router, alloc));
    assert!(rt; fetches(&mut router, alloc, "", 9, Ok(Fetched::PeerClosed)));
    assert!(rt; fetches(&mut router, alloc, ANSWER, 2, Ok(Fetched::Limit)));
    assert!(rt; fetches(&mut router, alloc, ANSWER, 0, Ok(Fetched::Limit)));
    assert!(rt; router.committed().is_none());
    assert!(rt; fetches(&mut router, alloc, ANSWER, 3, Ok(Fetched::Committed)));
    assert!(rt; has_committed(&router));
}

/// Whether a fetch says that a link ended by a report, and the report follows the question.
fn tells_an_end(router: &mut Router, alloc: Global) -> bool {
    let mut input = stepwise(TWO_QUERIES, 4096, 9);
    let mut output = list(alloc);
    fetch_stream(router, &mut input, &mut output, 100, 9) == Ok(Fetched::Ended(End::Reported(0)))
        && output.device().len() == 32
}

#[test]
fn a_link_that_ends_is_told(rt: HostRuntime) {
    let mut router = Router::new(rt.alloc());
    assert!(rt; tells_an_end(&mut router, rt.alloc()));
}

/// Whether a fetch fails at the third read, and leaves the table empty.
fn fails_at_a_read(router: &mut Router, alloc: Global) -> bool {
    let mut input = stepwise(ANSWER, 8, 2);
    let mut output = list(alloc);
    fetch_stream(router, &mut input, &mut output, 100, 9) == Err(StreamFault::ReadFailed)
        && input.failures() == 1
        && router.table().is_empty()
}

/// Whether a fetch fails behind the first three bytes of its question.
fn fails_at_a_write(router: &mut Router, alloc: Global) -> bool {
    let mut input = stepwise(ANSWER, 8, 2);
    let mut output = writer_of(alloc, 3, 1, true);
    fetch_stream(router, &mut input, &mut output, 100, 9) == Err(StreamFault::WriteFailed)
        && output.failures() == 1
        && output.device().taken.as_slice() == bytes("01 01 12").as_slice()
}

#[test]
fn a_fetch_that_fails_leaves_the_table(rt: HostRuntime) {
    let alloc = rt.alloc();
    let mut router = Router::new(alloc);
    assert!(rt; fails_at_a_read(&mut router, alloc));
    assert!(rt; fetches(&mut router, alloc, ANSWER, 9, Ok(Fetched::Committed)));
    assert!(rt; fails_at_a_write(&mut router, alloc));
    assert!(rt; has_committed(&router));
}
