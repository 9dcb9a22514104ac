//! The entries of a ROA while its payload is read.

ghost use Rattle.std.specs.Prelude.{◌≡◌, ◌<◌, ◌^◌, ◌≤◌, IfOk, [], ◌∷◌};
ghost use Rattle.payloads.specs.Gives.{Progress, Grows};

use crate::RoaEntry;
use prefixes::IpPrefix;
use std::alloc::{AllocError, Global};
use std::marker::Model;

/// Counts the entries that come, and lists the first of them, as many as there is room for.
#[derive(Drop)]
pub(crate) struct Entries {
    count: usize,
    room: usize,
    listed: Vec<RoaEntry>,
}

impl Model for Entries {
    ghost use Rattle.std.specs.Prelude.{◌≤◌, length};
    ghost use Rattle.std.specs.Prelude.{vec_capacity};
    ghost use Rattle.payloads.specs.Gives.{Progress};

    ghost Value = { Progress };

    ghost view = { λ e. record { count = e.count; room = e.room; listed = e.listed.items } };

    ghost invariant = { λ e. (length e.listed.items ≤ e.room) × (e.room ≤ vec_capacity e.listed) };
}

impl Entries {
    /// Room for this many entries.
    pub(crate) fn with_room(alloc: Global, room: usize) -> Result<Entries, AllocError>
        ensures { IfOk result (λ e. e ≡ record { count = 0; room = room; listed = [] }) }
    {
        let listed = Vec::with_capacity(alloc, room)?;
        Ok(Entries {
            count: 0,
            room,
            listed,
        })
    }

    /// No room: the entries are only counted. It allocates no memory.
    pub(crate) fn counted(alloc: Global) -> Entries
        ensures { result ≡ record { count = 0; room = 0; listed = [] } }
    {
        Entries {
            count: 0,
            room: 0,
            listed: Vec::new(alloc),
        }
    }

    /// How many entries came.
    pub(crate) fn count(&self) -> usize
        ensures { result ≡ self.now.count }
    {
        self.count
    }

    /// One entry more.
    pub(crate) fn add(&mut self, prefix: IpPrefix, max_len: Option<u8>)
        requires { self.old.count < 65536 }
        ensures { Grows self.old self.new (record { prefix = prefix; max_len = max_len } ∷ []) }
    {
        if self.listed.len() < self.room {
            self.listed.push(RoaEntry { prefix, max_len }).unwrap();
        }
        self.count += 1;
    }

    /// The entries that are listed.
    pub(crate) fn into_list(self) -> Vec<RoaEntry>
        ensures { result.items ≡ self.listed }
    {
        self.listed
    }
}
