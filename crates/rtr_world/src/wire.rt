//! Bytes in transit in one direction of a connection.
ghost use Rattle.std.specs.Prelude.{◌≡◌, [], ◌++◌, take, drop, is_ok, if◌then◌else◌};
ghost use Rattle.rtr_ends.specs.Cache.{is_none};

use std::alloc::{AllocError, Global};
use std::marker::Model;

/// The bytes in transit from one end of a connection to the other, in order (an ordered transport, RFC 8210 section 9).
#[derive(Debug, Drop)]
pub struct Wire {
    bytes: Vec<u8>,
    /// How many of them have arrived.
    arrived: usize,
}

impl Model for Wire {
    ghost use Rattle.std.specs.Prelude.{ℕ, ◌≤◌, List, length, drop};

    ghost Value = { List ℕ };

    ghost view = { λ wire. drop wire.arrived wire.bytes.items };

    ghost invariant = { λ wire. wire.arrived ≤ length wire.bytes.items };
}

impl Wire {
    /// A wire with nothing in transit.
    pub fn new(alloc: Global) -> Wire
        ensures { result ≡ [] }
    {
        Wire {
            bytes: Vec::new(alloc),
            arrived: 0,
        }
    }

    /// Whether no bytes are in transit.
    pub fn is_empty(&self) -> bool
        ensures { result ≡ is_none self.now }
    {
        self.arrived == self.bytes.as_slice().len()
    }

    /// Drops all bytes in transit.
    pub fn clear(&mut self)
        ensures { self.new ≡ [] }
    {
        self.bytes.clear();
        self.arrived = 0;
    }

    /// Keeps the first `most` bytes in transit, or all if there are fewer, and drops the rest.
    pub fn keep(&mut self, most: u64)
        ensures { self.new ≡ take most self.old }
    {
        let left = self.bytes.len() - self.arrived;
        let kept = (left as u64).min(most) as usize;
        self.bytes.truncate(self.arrived + kept);
    }

    /// The first `most` bytes in transit, or all if there are fewer. They stay in transit until `arrive`.
    pub fn front(&self, most: u64) -> &[u8]
        ensures { result.now ≡ take most self.now }
    {
        let left = &self.bytes.as_slice()[self.arrived..];
        let count = (left.len() as u64).min(most) as usize;
        &left[..count]
    }

    /// Removes the first `count` bytes, or all if there are fewer: they have arrived.
    pub fn arrive(&mut self, count: usize)
        ensures { self.new ≡ drop count self.old }
    {
        if count < self.bytes.len() - self.arrived {
            self.arrived += count;
        } else {
            self.clear();
        }
    }

    /// Appends the first `most` bytes of `bytes`, or all if there are fewer. `Err`: memory ran out, and nothing is appended.
    pub fn put(&mut self, bytes: &[u8], most: usize) -> Result<(), AllocError>
        ensures { self.new ≡ (if is_ok result then self.old ++ take most bytes.now else self.old) }
    {
        let count = most.min(bytes.len());
        self.bytes.extend_from_slice(&bytes[..count])
    }
}
