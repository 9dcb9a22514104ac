//! What was read of a stream and is not consumed, and what was pulled and is not written.
ghost use Rattle.std.specs.Prelude.{◌≡◌, ◌↔◌, ◌≤◌, [], IsTrue, length, take, drop};
ghost use Rattle.std.specs.Io.KnownBytes.{Keeps};
ghost use Rattle.rtr_pdu.specs.Payloads.{AreBytes};
ghost use Rattle.rtr_ends.specs.CacheState.{CacheState, GivesBytes, ShowsCache, TakesPiece};
ghost use Rattle.rtr_server.specs.Streams.{EmptiesSo, FillsSo, Logged, PullsInto, a_read, a_write, moved_count, room_of};
ghost use Rattle.rtr_server.specs.Counting.{counted_on, first_byte};

use crate::stream::{Progress, Stream};
use crate::tally::{Tally, first_byte};
use rtr_ends::{Cache, Conn};
use rtr_pdu::MAX_UNIT_LEN;
use std::alloc::Global;
use std::marker::Model;
use vrps::VersionStore;

/// What was read of a stream and is not consumed.
#[derive(Debug, Drop)]
pub(crate) struct Unread {
    bytes: [u8; MAX_UNIT_LEN],
    from: usize,
    to: usize,
}

impl Model for Unread {
    ghost use Rattle.std.specs.Prelude.{ℕ, List, ◌≤◌, ◌-◌, take, drop};

    ghost Value = { List ℕ };

    ghost view = { λ u. take (u.to - u.from) (drop u.from u.bytes) };

    ghost invariant = { λ u. (u.from ≤ u.to) × (u.to ≤ 4096) };
}

#[tactic(auto, using(crate::proofs::Windows::moved_on))]
impl Unread {
    /// Nothing was read yet.
    pub(crate) fn new() -> Unread
        ensures { result ≡ [] }
    {
        Unread {
            bytes: [0; MAX_UNIT_LEN],
            from: 0,
            to: 0,
        }
    }

    /// Whether nothing is left of it.
    pub(crate) fn is_empty(&self) -> bool
        ensures { IsTrue result ↔ (self.now ≡ []) }
    {
        self.from == self.to
    }

    /// Reads a piece, if nothing is left of the last.
    pub(crate) fn read<T: Stream>(&mut self, stream: &mut T) -> Progress
        requires { self.old ≡ [] }
        ensures fills { FillsSo (T.remaining stream.old) (T.remaining stream.new) result self.new }
        ensures room { length self.new ≤ 4096 }
        ensures keeps { Keeps (T.contents stream.old) (T.contents stream.new) }
        ensures logs { Logged (a_read result) (T.answers stream.old) (T.answers stream.new) }
    {
        let moved = stream.read(&mut self.bytes);
        self.from = 0;
        self.to = match moved {
            Progress::Bytes(n) => n,
            _ => 0,
        };
        moved
    }

    /// Passes the read bytes to the cache, and counts those consumed. Notes the first byte of all. Returns how many were consumed.
    pub(crate) fn hand_in<S: VersionStore>(
        &mut self,
        cache: &mut Cache<S>,
        conn: Conn,
        received: &mut Tally,
        asked: &mut Option<u8>,
    ) -> usize
        ensures takes { (m : CacheState) → ShowsCache S.holds m cache.old → TakesPiece S.holds m conn.0 self.old result cache.new }
        ensures rest { self.new ≡ drop result self.old }
        ensures within { result ≤ length self.old }
        ensures bytes { AreBytes self.old }
        ensures counts { received.new ≡ counted_on received.old (take result self.old) }
        ensures asks { asked.new ≡ first_byte asked.old (take result self.old) }
    {
        let taken = hand_piece(cache, conn, &self.bytes[self.from..self.to]);
        received.count(&self.bytes[self.from..self.from + taken]);
        *asked = first_byte(*asked, &self.bytes[self.from..self.from + taken]);
        self.from += taken;
        taken
    }
}

/// Passes in bytes.
fn hand_piece<S: VersionStore>(cache: &mut Cache<S>, conn: Conn, piece: &[u8]) -> usize
    ensures takes { (m : CacheState) → ShowsCache S.holds m cache.old → TakesPiece S.holds m conn.0 piece.now result cache.new }
    ensures within { result ≤ length piece.now }
    ensures bytes { AreBytes piece.now }
{
    cache.receive(conn, piece)
}

/// How many bytes the small room has.
const SMALL_ROOM: usize = 1024;

/// How many bytes the large room has.
const LARGE_ROOM: usize = 32768;

/// What was pulled and is not written. It lies in a small room; while an answer goes out that fills that, in a large one, if there is memory
/// for it. So a client to which nothing is due has no large room.
#[derive(Debug, Drop)]
pub(crate) struct Unwritten {
    alloc: Global,
    small: [u8; SMALL_ROOM],
    /// The large room, or nothing.
    large: Vec<u8>,
    from: usize,
    to: usize,
}

impl Model for Unwritten {
    ghost use Rattle.std.specs.Prelude.{ℕ, List, ◌≤◌, ◌-◌, length, take, drop};
    ghost use Rattle.rtr_server.specs.Streams.{room_of};

    ghost Value = { List ℕ };

    ghost view = { λ u. take (u.to - u.from) (drop u.from (room_of u.small u.large.items)) };

    ghost invariant = { λ u. (u.from ≤ u.to) × (u.to ≤ length (room_of u.small u.large.items)) × (length u.large.items ≤ 32768) };
}

#[tactic(auto, using(crate::proofs::Windows::moved_on))]
impl Unwritten {
    /// Nothing was pulled yet.
    pub(crate) fn new(alloc: Global) -> Unwritten
        ensures { result ≡ [] }
    {
        Unwritten {
            alloc,
            small: [0; SMALL_ROOM],
            large: Vec::new(alloc),
            from: 0,
            to: 0,
        }
    }

    /// Whether nothing is left of it.
    pub(crate) fn is_empty(&self) -> bool
        ensures { IsTrue result ↔ (self.now ≡ []) }
    {
        self.from == self.to
    }

    /// Asks for the large room, if what was pulled last filled the small one.
    fn make_room(&mut self)
        requires { self.old ≡ [] }
        ensures { self.new ≡ [] }
    {
        if self.to == SMALL_ROOM && self.large.is_empty() {
            self.large = large_room(self.alloc);
        }
        self.from = 0;
        self.to = 0;
    }

    /// Gives the large room back, if nothing is left of what was pulled.
    fn give_back(&mut self)
        ensures { self.new ≡ self.old }
    {
        if self.from == self.to {
            self.large = Vec::new(self.alloc);
            self.from = 0;
            self.to = 0;
        }
    }

    /// Pulls what is due, if nothing is left to write, as far as there is room.
    pub(crate) fn pull<S: VersionStore>(&mut self, cache: &mut Cache<S>, conn: Conn)
        requires { self.old ≡ [] }
        ensures { (m : CacheState) → ShowsCache S.holds m cache.old → PullsInto S.holds m conn.0 self.new cache.new }
    {
        self.make_room();
        self.from = 0;
        self.to = pull_into(&mut self.small, &mut self.large, cache, conn);
        self.give_back();
    }

    /// Writes of it what the stream accepts in one call, and counts that.
    pub(crate) fn write<T: Stream>(&mut self, stream: &mut T, sent: &mut Tally) -> Progress
        ensures empties { EmptiesSo (T.contents stream.old) (T.contents stream.new) result self.old self.new }
        ensures keeps { Keeps (T.remaining stream.old) (T.remaining stream.new) }
        ensures logs { Logged (a_write result) (T.answers stream.old) (T.answers stream.new) }
        ensures counts { sent.new ≡ counted_on sent.old (take (moved_count result) self.old) }
    {
        let room = room_at_hand(&self.small, &self.large);
        let moved = stream.write(&room[self.from..self.to]);
        let gone = moved.count() as usize;
        sent.count(&room[self.from..self.from + gone]);
        self.from += gone;
        moved
    }
}

/// A large room, or none if memory runs out.
fn large_room(alloc: Global) -> Vec<u8>
    ensures { length result.items ≤ 32768 }
{
    match vec![in alloc; 0; LARGE_ROOM] {
        Ok(room) => room,
        Err(_) => Vec::new(alloc),
    }
}

/// The large room if there is one, otherwise the small one.
fn room_at_hand<'a>(small: &'a [u8; SMALL_ROOM], large: &'a Vec<u8>) -> &'a [u8]
    ensures { result.now ≡ room_of small.now large.now.items }
{
    if large.is_empty() {
        small
    } else {
        large.as_slice()
    }
}

/// Pulls what is due into the large room if there is one, otherwise into the small one.
fn pull_into<S: VersionStore>(
    small: &mut [u8; SMALL_ROOM],
    large: &mut Vec<u8>,
    cache: &mut Cache<S>,
    conn: Conn,
) -> usize
    ensures gives { (m : CacheState) → ShowsCache S.holds m cache.old → GivesBytes S.holds m conn.0 (room_of small.old large.old.items) result (room_of small.new large.new.items) cache.new }
    ensures within { result ≤ length (room_of small.old large.old.items) }
    ensures room { length (room_of small.new large.new.items) ≡ length (room_of small.old large.old.items) }
    ensures large { length large.new.items ≡ length large.old.items }
{
    if large.is_empty() {
        cache.pull(conn, small)
    } else {
        cache.pull(conn, large.as_mut_slice())
    }
}
