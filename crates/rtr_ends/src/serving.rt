//! One connection of a cache over a reader and a writer.
ghost use Rattle.std.specs.Prelude.{◌≡◌, ◌⊎◌, ◌-◌, ◌<◌, ℕ, Ok, List, [], length, IfErr};
ghost use Rattle.std.specs.List.{AllByRecursion};
ghost use Rattle.rtr_pdu.specs.Counted.{calls_of, device_of, failures_of, HasFailed};
ghost use Rattle.rtr_ends.specs.Cache.{ConnCall};
ghost use Rattle.rtr_ends.specs.CacheState.{CacheState, ShowsCache};
ghost use Rattle.rtr_ends.specs.ServeStream.{Answered, EndedAs, IsTurn, ReadsWithin, ServesConnection, StandsAt, ended_within, is_within};
ghost use Rattle.rtr_ends.specs.Streams.{FailsSo, WritesSo, stream_fault_of};

use crate::cache::{Cache, Conn};
use crate::streams::{StreamFault, write_bytes};
use rtr_pdu::{Counted, MAX_UNIT_LEN, WriteFailed};
use std::io::{Read, Write};
use vrps::VersionStore;

/// How `serve_stream` ended.
#[derive(Clone, Copy, Debug, PartialEq, Eq)]
pub enum Served {
    /// The input ended at the end of a PDU.
    PeerClosed,
    /// The input ended inside a PDU.
    Truncated,
    /// The cache ended the connection (RFC 8210 section 12). It sent an Error Report, or it received one, which is never answered.
    CacheEnded,
    /// `limit` reads were made.
    Limit,
}

/// Serves one connection until it ends: reads queries from `input`, and writes the replies of the cache to `output`. Returns once the input or
/// the connection ends, or after `limit` reads. Returns an error if a read or a write fails, or if memory for the connection runs out.
/// If memory for an answer runs out, the cache sends an Error Report of code 1, and the result is `CacheEnded`. What was read is answered before
/// the next read. No Serial Notify is sent.
/// Reads pieces of at most 4,096 bytes, and writes pieces of at most 32,768. The connection is closed in every case.
pub fn serve_stream<S: VersionStore, R: Read, W: Write>(
    cache: &mut Cache<S>,
    input: &mut Counted<R>,
    output: &mut Counted<W>,
    limit: u64,
) -> Result<Served, StreamFault>
    ensures serves { (m : CacheState) → ShowsCache S.holds m cache.old → ServesConnection m (R.remaining (device_of input.old)) (R.remaining (device_of input.new))
        (calls_of input.new - calls_of input.old) (W.contents (device_of output.old)) (W.contents (device_of output.new)) result }
    ensures closed { (m : CacheState) → ShowsCache S.holds m cache.old → ShowsCache S.holds m cache.new }
    ensures fails { FailsSo input.old input.new output.old output.new (stream_fault_of result) }
    ensures reads { ReadsWithin limit (calls_of input.old) (calls_of input.new) result }
{
    match cache.open() {
        Err(_) => Err(StreamFault::Memory),
        Ok(conn) => {
            let result = serve(cache, conn, input, output, limit);
            cache.close(conn);
            result
        }
    }
}

/// Serves an open connection.
fn serve<S: VersionStore, R: Read, W: Write>(
    cache: &mut Cache<S>,
    conn: Conn,
    input: &mut Counted<R>,
    output: &mut Counted<W>,
    limit: u64,
) -> Result<Served, StreamFault>
    ensures serves { (m : CacheState) → StandsAt S.holds m conn.0 [] cache.old → EndedAs S.holds m conn.0 (R.remaining (device_of input.old)) (R.remaining (device_of input.new))
        (calls_of input.new - calls_of input.old) (W.contents (device_of output.old)) (W.contents (device_of output.new)) result cache.new }
    ensures fails { FailsSo input.old input.new output.old output.new (stream_fault_of result) }
    ensures reads { ReadsWithin limit (calls_of input.old) (calls_of input.new) result }
{
    let mut buffer = [0u8; MAX_UNIT_LEN];
    let mut room = [0u8; 32768];
    for _turn in 0..limit {
        match input.read(&mut buffer) {
            Ok(0) => return Ok(end_of_input(cache, conn)),
            Ok(n) => match answer(cache, conn, &buffer[..n], &mut room, output) {
                Err(WriteFailed) => return Err(StreamFault::WriteFailed),
                Ok(()) => {
                    if !cache.is_open(conn) {
                        return Ok(Served::CacheEnded);
                    }
                }
            },
            Err(_) => return Err(StreamFault::ReadFailed),
        }
    }
    Ok(Served::Limit)
}

/// How a connection ends when its input does.
fn end_of_input<S: VersionStore>(cache: &Cache<S>, conn: Conn) -> Served
    ensures either { (result ≡ Served.Truncated) ⊎ (result ≡ Served.PeerClosed) }
    ensures within { (m : CacheState) → ShowsCache S.holds m cache.now → result ≡ ended_within (is_within (m.at conn.0)) }
{
    if cache.is_within_unit(conn) {
        Served::Truncated
    } else {
        Served::PeerClosed
    }
}

/// Answers a piece that was read: passes it in, and writes what becomes due, as long as the connection is open.
fn answer<S: VersionStore, W: Write>(
    cache: &mut Cache<S>,
    conn: Conn,
    piece: &[u8],
    room: &mut [u8],
    output: &mut Counted<W>,
) -> Result<(), WriteFailed>
    requires { 0 < length room.old }
    ensures answers { (m : CacheState) (calls : List ConnCall) → AllByRecursion IsTurn calls → StandsAt S.holds m conn.0 calls cache.old →
        Answered S.holds m conn.0 calls piece.now (W.contents (device_of output.old)) (W.contents (device_of output.new)) result cache.new }
    ensures fails { WritesSo output.old output.new result }
{
    let mut at = 0;
    loop {
        let ready = cache.pull(conn, room);
        if ready > 0 {
            write_bytes(&room[..ready], output)?;
        } else {
            let taken = cache.receive(conn, &piece[at..]);
            if taken == 0 {
                return Ok(());
            }
            at += taken;
        }
    }
}
