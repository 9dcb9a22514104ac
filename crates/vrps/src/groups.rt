//! Groups: all records of one prefix, read one at a time and counted.
ghost use Rattle.std.specs.Prelude.{◌≡◌, ◌+◌, ◌<◌, ◌^◌, [], ◌∷◌, ◌++◌, length, IfOk, OnOk};
ghost use Rattle.prefixes.specs.Payload.{Payload};
ghost use Rattle.vrps.specs.Groups.{AreGroups, group_at, of_prefix, prefix_at};
ghost use Rattle.vrps.specs.Heads.{AreHeads, MayFollow, heads_of};
ghost use Rattle.vrps.specs.Keys.{key_prefix};

use crate::key::{Head, Key};
use prefixes::{IpPrefix, Prefix, V6, Vrp};
use std::alloc::{AllocError, Global};

/// The prefixes of sorted groups, those of a family side by side.
#[derive(Debug, Drop)]
pub(crate) struct Heads {
    /// Of the IPv4 groups, which are the first ones.
    v4: Vec<Head<u32>>,
    /// Of the IPv6 groups.
    v6: Vec<Prefix<V6>>,
}

impl Heads {
    /// Those of no group.
    pub(crate) fn new(alloc: Global) -> Heads
        ensures { heads_of result ≡ [] }
    {
        Heads {
            v4: Vec::new(alloc),
            v6: Vec::new(alloc),
        }
    }

    /// Those of no group, with room for this many of each family.
    pub(crate) fn with_capacity(alloc: Global, v4: usize, v6: usize) -> Result<Heads, AllocError>
        ensures { IfOk result (λ heads. heads_of heads ≡ []) }
    {
        let v4 = Vec::with_capacity(alloc, v4)?;
        let v6 = Vec::with_capacity(alloc, v6)?;
        Ok(Heads { v4, v6 })
    }

    /// Adds the prefix of the next group.
    pub(crate) fn push(&mut self, prefix: &IpPrefix) -> Result<(), AllocError>
        requires { MayFollow self.old prefix.now }
        ensures { OnOk result (heads_of self.new ≡ heads_of self.old ++ prefix.now ∷ []) }
    {
        match prefix {
            IpPrefix::V4(p) => self.v4.push(Head {
                addr: p.addr() as u32,
                len: p.len(),
            })?,
            IpPrefix::V6(p) => self.v6.push(*p)?,
        }
        Ok(())
    }
}

/// Sorted groups of records. A group is all records of one prefix. The prefixes are kept apart from the records, as a search reads them alone.
#[derive(Debug, Drop)]
pub(crate) struct Groups {
    /// The groups, one after the other.
    records: Vec<Vrp>,
    /// For each group the place of its first record.
    starts: Vec<u32>,
    /// For each group its prefix.
    heads: Heads,
    ghost sorted: { AreGroups records.items starts.items },
    ghost headed: { AreHeads records.items starts.items (length starts.items) (heads_of heads) },
}

impl Groups {
    /// Sorted groups: their records, where each group begins, and its prefix.
    pub(crate) fn new(records: Vec<Vrp>, starts: Vec<u32>, heads: Heads) -> Groups
        requires sorted { AreGroups records.items starts.items }
        requires headed { AreHeads records.items starts.items (length starts.items) (heads_of heads) }
        ensures { result.records.items ≡ records.items }
    {
        Groups {
            records,
            starts,
            heads,
        }
    }

    /// How many groups there are.
    pub(crate) fn len(&self) -> usize
        ensures { result ≡ length self.now.starts.items }
    {
        self.starts.len()
    }

    /// Hands out the group at a place, and counts the reading. No other call reads a group.
    pub(crate) fn at(&self, place: usize, probes: &mut u32) -> Group<'_>
        requires place { place < length self.now.starts.items }
        requires probes { probes.old + 1 < 2 ^ 32 }
        ensures groups { result.groups.now ≡ self.now }
        ensures place { result.place ≡ place }
        ensures counted { probes.new ≡ probes.old + 1 }
    {
        *probes += 1;
        Group {
            groups: self,
            place,
        }
    }
}

/// One group that was handed out.
#[derive(Clone, Copy)]
pub(crate) struct Group<'a> {
    groups: &'a Groups,
    place: usize,
    ghost within: { place < length groups.now.starts.items },
}

impl<'a> Group<'a> {
    /// Its prefix.
    pub(crate) fn key(&self) -> Key
        ensures { (d : Payload) → key_prefix result ≡ prefix_at self.now.groups.now.records.items self.now.groups.now.starts.items self.now.place d }
    {
        let heads = &self.groups.heads;
        if self.place < heads.v4.len() {
            Key::V4(heads.v4[self.place])
        } else {
            let p = &heads.v6[self.place - heads.v4.len()];
            Key::V6(Head {
                addr: p.addr(),
                len: p.len(),
            })
        }
    }

    /// Its records: all those of its prefix.
    pub(crate) fn records(&self) -> &'a [Vrp]
        ensures all { (d : Payload) → result.now ≡ of_prefix (prefix_at self.now.groups.now.records.items self.now.groups.now.starts.items self.now.place d) self.now.groups.now.records.items }
        ensures part { result.now ≡ group_at self.now.groups.now.records.items self.now.groups.now.starts.items self.now.place }
    {
        let groups = self.groups;
        let begin = groups.starts[self.place] as usize;
        let end = match groups.starts.get(self.place + 1) {
            None => groups.records.len(),
            Some(next) => *next as usize,
        };
        &groups.records[begin..end]
    }
}
