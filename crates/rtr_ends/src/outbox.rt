//! Bytes to be pulled.
ghost use Rattle.std.specs.Prelude.{◌≡◌, ◌≤◌, ◌==◌, true, [], ◌++◌, length, take, drop, min};
ghost use Rattle.rtr_pdu.specs.Unit.{fits};
ghost use Rattle.rtr_ends.specs.Answer.{sent};
ghost use Rattle.rtr_ends.specs.Cache.{is_none};

use rtr_pdu::{MAX_UNIT_LEN, Unit, UnitBuffer, Version, encode_as};
use std::marker::Model;

/// The bytes of one PDU that are still to be pulled. It allocates no memory.
#[derive(Debug, Drop)]
pub struct Outbox {
    unit: UnitBuffer,
    /// How many of its bytes were pulled.
    pulled: usize,
}

impl Model for Outbox {
    ghost use Rattle.std.specs.Prelude.{ℕ, ◌≤◌, List, length, drop};

    ghost Value = { List ℕ };

    ghost view = { λ o. drop o.pulled o.unit.items };

    ghost invariant = { λ o. o.pulled ≤ length o.unit.items };
}

impl Outbox {
    /// An outbox with nothing pending. It allocates no memory.
    pub fn new() -> Outbox
        ensures { result ≡ [] }
    {
        Outbox {
            unit: UnitBuffer::new(),
            pulled: 0,
        }
    }

    /// Returns whether nothing is pending.
    pub fn is_empty(&self) -> bool
        ensures { result ≡ is_none self.now }
    {
        self.pulled == self.unit.len()
    }

    /// How many bytes are pending, at most 4,096.
    pub fn len(&self) -> usize
        ensures count { result ≡ length self.now }
        ensures fits { result ≤ MAX_UNIT_LEN }
    {
        self.unit.len() - self.pulled
    }

    /// Drops what is pending.
    pub fn clear(&mut self)
        ensures { self.new ≡ [] }
    {
        self.unit.clear();
        self.pulled = 0;
    }

    /// Makes a PDU pending in this version of the protocol, and drops what was pending before. The PDU must fit the version (`Unit::fits`).
    pub fn put(&mut self, version: Version, unit: &Unit)
        requires { fits version unit.now ≡ true }
        ensures { self.new ≡ sent version unit.now }
    {
        encode_as(version, unit, &mut self.unit);
        self.pulled = 0;
    }

    /// Moves pending bytes into the front of `room`, as many as fit, and returns how many. The rest of `room` and the rest of the pending bytes
    /// stay.
    pub fn pull(&mut self, room: &mut [u8]) -> usize
        ensures count { result ≡ min (length room.old) (length self.old) }
        ensures front { room.new ≡ take (length room.old) self.old ++ drop (length self.old) room.old }
        ensures rest { self.new ≡ drop (length room.old) self.old }
    {
        let bytes = &self.unit.as_slice()[self.pulled..];
        let count = bytes.len().min(room.len());
        room[..count].copy_from_slice(&bytes[..count]);
        self.pulled += count;
        count
    }
}
