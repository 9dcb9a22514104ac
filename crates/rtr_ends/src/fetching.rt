//! One connection of a router over a reader and a writer.
ghost use Rattle.std.specs.Prelude.{◌≡◌, ◌-◌, ◌<◌, ◌≤◌, List, ◌∷◌, length, IfSome};
ghost use Rattle.rtr_pdu.specs.Counted.{calls_of, device_of};
ghost use Rattle.rtr_ends.specs.FetchStream.{FetchReads, FetchedAs, Fetches, IsReached, Taken, reached_by};
ghost use Rattle.rtr_ends.specs.Router as model;
ghost use Rattle.rtr_ends.specs.LinkRules as rules;
ghost use Rattle.rtr_ends.specs.RouterShown.{IsShown, CallsLead};
ghost use Rattle.rtr_ends.specs.Streams.{FailsSo, WritesSo, stream_fault_of};

use crate::link::{End, Link};
use crate::router::Router;
use crate::streams::{StreamFault, write_bytes};
use rtr_pdu::{Counted, MAX_UNIT_LEN, WriteFailed};
use std::io::{Read, Write};

/// How `fetch_stream` ended.
#[derive(Clone, Copy, Debug, PartialEq, Eq)]
pub enum Fetched {
    /// The cache answered, and its version was committed.
    Committed,
    /// The cache has no data: it sent an Error Report of code 2 (RFC 8210 section 12).
    NoData,
    /// The link ended for this reason, before or after a commit.
    Ended(End),
    /// The input ended while a query was outstanding.
    PeerClosed,
    /// `limit` reads were made, and a query is still outstanding.
    Limit,
}

/// Fetches one version from a cache: connects the router, sends its query, and reads from `input` until no query is outstanding. Returns earlier
/// if the link or the input ends or `limit` reads were made. Returns an error if a read or a write fails.
/// Reads pieces of at most 4,096 bytes, each to its end unless the link ends, so also PDUs after the answer. Sends each query in one write if
/// the writer accepts it. `now` is in seconds of the router's clock. In every case `Router::closed` is called.
/// The router drops its committed table only if it has expired at `now`, if the cache shows another session, or if it answers a Serial Query
/// with code 0.
pub fn fetch_stream<R: Read, W: Write>(
    router: &mut Router,
    input: &mut Counted<R>,
    output: &mut Counted<W>,
    now: u64,
    limit: u64,
) -> Result<Fetched, StreamFault>
    ensures fetches { (calls : List model.RouterCall) → CallsLead calls router.old → Fetches now calls (R.remaining (device_of input.old)) (R.remaining (device_of input.new))
        (calls_of input.new - calls_of input.old) (W.contents (device_of output.old)) (W.contents (device_of output.new)) result router.new }
    ensures fails { FailsSo input.old input.new output.old output.new (stream_fault_of result) }
    ensures reads { FetchReads limit (calls_of input.old) (calls_of input.new) result }
{
    router.connect(now);
    let result = fetch(router, input, output, now, limit);
    router.closed(now);
    result
}

/// Asks and reads on an open connection.
fn fetch<R: Read, W: Write>(
    router: &mut Router,
    input: &mut Counted<R>,
    output: &mut Counted<W>,
    now: u64,
    limit: u64,
) -> Result<Fetched, StreamFault>
    ensures fetches { (calls : List model.RouterCall) → CallsLead (model.Connects now ∷ calls) router.old → FetchedAs now calls (R.remaining (device_of input.old)) (R.remaining (device_of input.new))
        (calls_of input.new - calls_of input.old) (W.contents (device_of output.old)) (W.contents (device_of output.new)) result router.new }
    ensures fails { FailsSo input.old input.new output.old output.new (stream_fault_of result) }
    ensures reads { FetchReads limit (calls_of input.old) (calls_of input.new) result }
{
    let mut buffer = [0u8; MAX_UNIT_LEN];
    let mut room = [0u8; MAX_UNIT_LEN];
    match take(router, &[], now, &mut room, output) {
        Err(WriteFailed) => return Err(StreamFault::WriteFailed),
        Ok(()) => {}
    }
    for _turn in 0..limit {
        match reached(router) {
            Some(fetched) => return Ok(fetched),
            None => {}
        }
        match input.read(&mut buffer) {
            Ok(0) => return Ok(Fetched::PeerClosed),
            Ok(n) => match take(router, &buffer[..n], now, &mut room, output) {
                Err(WriteFailed) => return Err(StreamFault::WriteFailed),
                Ok(()) => {}
            },
            Err(_) => return Err(StreamFault::ReadFailed),
        }
    }
    match reached(router) {
        Some(fetched) => Ok(fetched),
        None => Ok(Fetched::Limit),
    }
}

/// The outcome of the router, if no question is outstanding.
fn reached(router: &Router) -> Option<Fetched>
    ensures is { (r : rules.Router) → IsShown r router.now → result ≡ reached_by r.link r.no_data }
    ensures kind { IfSome result (λ fetched. IsReached fetched) }
{
    match router.link() {
        Link::Idle => {
            if router.no_data() {
                Some(Fetched::NoData)
            } else {
                Some(Fetched::Committed)
            }
        }
        Link::Ended(end) => Some(Fetched::Ended(end)),
        Link::Asked => None,
        Link::Answering => None,
        Link::Closed => None,
    }
}

/// Passes in a piece that was read, and writes what is pending before it and between its PDUs, as long as the link is open.
fn take<W: Write>(
    router: &mut Router,
    piece: &[u8],
    now: u64,
    room: &mut [u8],
    output: &mut Counted<W>,
) -> Result<(), WriteFailed>
    requires { 0 < length room.old }
    ensures takes { (calls : List model.RouterCall) → CallsLead calls router.old →
        Taken now calls piece.now (W.contents (device_of output.old)) (W.contents (device_of output.new)) result router.new }
    ensures fails { WritesSo output.old output.new result }
{
    let mut at = 0;
    loop {
        let ready = router.pull(room);
        if ready > 0 {
            write_bytes(&room[..ready], output)?;
        } else {
            let taken = router.receive(&piece[at..], now);
            if taken == 0 {
                return Ok(());
            }
            at += taken;
        }
    }
}
