//! Bytes between a stream and a router.
ghost use Rattle.std.specs.Prelude.{◌≡◌, ◌↔◌, ◌≤◌, [], IsTrue, length, take, drop};
ghost use Rattle.std.specs.Io.KnownBytes.{Keeps};
ghost use Rattle.rtr_pdu.specs.Payloads.{AreBytes};
ghost use Rattle.rtr_ends.specs.LinkRules as rules;
ghost use Rattle.rtr_ends.specs.Router as model;
ghost use Rattle.rtr_ends.specs.Router.{called};
ghost use Rattle.rtr_ends.specs.RouterShown.{Calls, IsShown, ReceivesSo};
ghost use Rattle.rtr_server.specs.Counting.{counted_on, first_byte};
ghost use Rattle.rtr_server.specs.Streams.{EmptiesSo, FillsSo, Logged, a_read, a_write, moved_count};
ghost use Rattle.upstreams.specs.Versions.{opened_on};

use crate::opening::Opening;
use rtr_ends::Router;
use rtr_pdu::MAX_UNIT_LEN;
use rtr_server::{Progress, Stream, Tally};
use std::marker::Model;

/// Bytes that were read and are not consumed, or that were pulled and are not written.
#[derive(Debug, Drop)]
pub(crate) struct Buffer {
    bytes: [u8; MAX_UNIT_LEN],
    from: usize,
    to: usize,
}

impl Model for Buffer {
    ghost use Rattle.std.specs.Prelude.{ℕ, List, ◌≤◌, ◌-◌, take, drop};

    ghost Value = { List ℕ };

    ghost view = { λ b. take (b.to - b.from) (drop b.from b.bytes) };

    ghost invariant = { λ b. (b.from ≤ b.to) × (b.to ≤ 4096) };
}

#[tactic(auto, using(rtr_server::proofs::Windows::moved_on))]
impl Buffer {
    /// An empty buffer.
    pub(crate) fn new() -> Buffer
        ensures { result ≡ [] }
    {
        Buffer {
            bytes: [0; MAX_UNIT_LEN],
            from: 0,
            to: 0,
        }
    }

    /// Whether it is empty.
    pub(crate) fn is_empty(&self) -> bool
        ensures { IsTrue result ↔ (self.now ≡ []) }
    {
        self.from == self.to
    }

    /// Reads a piece, if it is empty.
    pub(crate) fn read<T: Stream>(&mut self, stream: &mut T) -> Progress
        requires { self.old ≡ [] }
        ensures fills { FillsSo (T.remaining stream.old) (T.remaining stream.new) result self.new }
        ensures room { length self.new ≤ 4096 }
        ensures keeps { Keeps (T.contents stream.old) (T.contents stream.new) }
        ensures logs { Logged (a_read result) (T.answers stream.old) (T.answers stream.new) }
    {
        let moved = stream.read(&mut self.bytes);
        self.from = 0;
        self.to = match moved {
            Progress::Bytes(n) => n,
            _ => 0,
        };
        moved
    }

    /// Passes it to the router, counts what was consumed, notes the first byte of all, and returns how many bytes were consumed.
    pub(crate) fn hand_in(
        &mut self,
        router: &mut Router,
        now: u64,
        received: &mut Tally,
        asked: &mut Option<u8>,
        opening: &mut Opening,
    ) -> usize
        ensures takes { ReceivesSo now self.old result router.old router.new }
        ensures rest { self.new ≡ drop result self.old }
        ensures within { result ≤ length self.old }
        ensures bytes { AreBytes self.old }
        ensures counts { received.new ≡ counted_on received.old (take result self.old) }
        ensures asks { asked.new ≡ first_byte asked.old (take result self.old) }
        ensures opens { opening.new ≡ opened_on opening.old (take result self.old) }
    {
        let taken = hand_piece(router, &self.bytes[self.from..self.to], now);
        received.count(&self.bytes[self.from..self.from + taken]);
        *asked = first_byte(*asked, &self.bytes[self.from..self.from + taken]);
        opening.read(&self.bytes[self.from..self.from + taken]);
        self.from += taken;
        taken
    }

    /// Pulls what the router has to send, if it is empty.
    pub(crate) fn pull(&mut self, router: &mut Router)
        requires { self.old ≡ [] }
        ensures calls { Calls (λ r. (called (model.Pulls 4096) r).router) router.old router.new }
        ensures bytes { (r : rules.Router) → IsShown r router.old → self.new ≡ take 4096 r.out }
    {
        self.from = 0;
        self.to = router.pull(&mut self.bytes);
    }

    /// Writes of it what the stream accepts in one call, and counts that.
    pub(crate) fn write<T: Stream>(&mut self, stream: &mut T, sent: &mut Tally) -> Progress
        ensures empties { EmptiesSo (T.contents stream.old) (T.contents stream.new) result self.old self.new }
        ensures keeps { Keeps (T.remaining stream.old) (T.remaining stream.new) }
        ensures logs { Logged (a_write result) (T.answers stream.old) (T.answers stream.new) }
        ensures counts { sent.new ≡ counted_on sent.old (take (moved_count result) self.old) }
    {
        let moved = stream.write(&self.bytes[self.from..self.to]);
        let gone = moved.count() as usize;
        sent.count(&self.bytes[self.from..self.from + gone]);
        self.from += gone;
        moved
    }
}

/// Passes in bytes.
fn hand_piece(router: &mut Router, piece: &[u8], now: u64) -> usize
    ensures takes { ReceivesSo now piece.now result router.old router.new }
    ensures within { result ≤ length piece.now }
    ensures bytes { AreBytes piece.now }
{
    router.receive(piece, now)
}

/// The first byte that came: one that came before, or the first of these.
fn first_byte(before: Option<u8>, bytes: &[u8]) -> Option<u8>
    ensures { result ≡ first_byte before bytes.now }
{
    match before {
        Some(_) => before,
        None => bytes.get(0).copied(),
    }
}
