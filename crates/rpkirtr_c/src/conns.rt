//! The connections of a cache by their numbers.
ghost use Rattle.std.specs.Prelude.{◌≡◌, ℕ, ◌≤◌, ◌<◌, ◌==◌, [], length, Option, Some, None, option_map, if◌then◌else◌, OnOk, vec_len, vec_capacity};
ghost use Rattle.rpkirtr_c.specs.Caches.{number_at};

use rtr_ends::Conn;
use std::alloc::{AllocError, Global};

/// The connections that a cache has opened and not closed.
#[derive(Debug, Drop)]
pub struct Conns {
    slots: Vec<Option<Conn>>,
}

impl Conns {
    /// There are none.
    pub(crate) fn new(alloc: Global) -> Conns
        ensures { result.slots.items ≡ [] }
    {
        Conns {
            slots: Vec::new(alloc),
        }
    }

    /// The connection of a number.
    pub(crate) fn get(&self, number: u32) -> Option<Conn>
        ensures { option_map (λ n. n.0) result ≡ number_at self.now.slots.items number }
    {
        match self.slots.get(number as usize)? {
            None => None,
            Some(conn) => Some(*conn),
        }
    }

    /// Makes room for one connection more.
    pub(crate) fn reserve(&mut self) -> Result<(), AllocError>
        ensures items { self.new.slots.items ≡ self.old.slots.items }
        ensures room { OnOk result (vec_len self.new.slots < vec_capacity self.new.slots) }
    {
        self.slots.reserve(1)
    }

    /// Adds a connection under its number. It allocates no memory.
    pub(crate) fn insert(&mut self, conn: Conn)
        requires { vec_len self.old.slots < vec_capacity self.old.slots }
        ensures { conn.0 ≤ length self.old.slots.items → (c : ℕ) → number_at self.new.slots.items c ≡ (if c == conn.0 then Some conn.0 else number_at self.old.slots.items c) }
    {
        let number = conn.number();
        if number < self.slots.len() {
            self.slots[number] = Some(conn);
        } else {
            self.slots.push_reserved(Some(conn));
        }
    }

    /// Removes the connection of a number.
    pub(crate) fn remove(&mut self, number: u32)
        ensures { (c : ℕ) → number_at self.new.slots.items c ≡ (if c == number then None else number_at self.old.slots.items c) }
    {
        let number = number as usize;
        if number < self.slots.len() {
            self.slots[number] = None;
        }
    }
}
