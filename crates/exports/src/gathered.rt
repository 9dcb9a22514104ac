//! What is gathered of the entries of an export: which count at a second (`expires`), and the last second of each.
ghost use Rattle.std.specs.Prelude.{◌≡◌, ◌+◌, ◌^◌, ◌<◌, ◌++◌, ◌∷◌, [], ℕ, List, map, option_map, IfOk, OnOk};
ghost use Rattle.std.specs.Bool.{OnFalse, OnTrue};
ghost use Rattle.exports.specs.Anchors.{number_in, one_named};
ghost use Rattle.exports.specs.Entry.{counts_at, current, expired};
ghost use Rattle.exports.specs.Gathering.{Gathers, IsLasting};
ghost use Rattle.exports.specs.Lasting.{last_second, last_seconds};
ghost use Rattle.exports.specs.Names.{with_names};
ghost use Rattle.exports.specs.Numbering.{Anchors, names_of};
ghost use Rattle.exports.specs.Until.{IsFirst, endings};

use crate::anchors::{AnchorNames, NO_ANCHOR};
use crate::entry::ExportEntry;
use prefixes::Vrp;
use std::alloc::{AllocError, Global};

/// What was gathered of entries: the payloads of those that count, and for each the last second at which it does and the number of its trust
/// anchor. Also the names of these, how many entries do not count, and the first second at which one that counts does not, if there is one.
#[derive(Debug, Drop)]
pub struct EntryRecords {
    pub(crate) records: Vec<Vrp>,
    pub(crate) lasts: Vec<u64>,
    pub(crate) anchors: Vec<u8>,
    pub(crate) names: AnchorNames,
    pub(crate) expired: u64,
    pub(crate) until: Option<u64>,
}

/// Whether an entry counts at a moment.
fn counts(entry: &ExportEntry, now: u64) -> bool
    ensures { result ≡ counts_at now entry.now }
{
    match entry.expires {
        Some(second) => now < second,
        None => true,
    }
}

/// The last second at which an entry with this expiry counts; `u64::MAX` if it has none.
fn last_second(expires: Option<u64>) -> u64
    ensures { result ≡ last_second expires }
{
    match expires {
        Some(second) => second.saturating_sub(1),
        None => u64::MAX,
    }
}

/// The sooner of two ends, if there are any.
fn sooner(one: Option<u64>, other: Option<u64>) -> Option<u64>
    ensures { (ts us : List ℕ) → IsFirst ts one → IsFirst us other → IsFirst (ts ++ us) result }
{
    match (one, other) {
        (Some(first), Some(second)) => Some(first.min(second)),
        (Some(first), None) => Some(first),
        (None, end) => end,
    }
}

impl EntryRecords {
    /// Nothing.
    pub(crate) fn new(alloc: Global) -> EntryRecords
        ensures gathers { (now : ℕ) → Gathers now [] result }
        ensures anchors { (now : ℕ) → Anchors now [] [] result }
    {
        EntryRecords {
            records: Vec::new(alloc),
            lasts: Vec::new(alloc),
            anchors: Vec::new(alloc),
            names: AnchorNames::new(alloc),
            expired: 0,
            until: None,
        }
    }

    /// These payloads, which all count and do so for ever.
    pub(crate) fn lasting(alloc: Global, records: Vec<Vrp>) -> Result<EntryRecords, AllocError>
        ensures { IfOk result (λ g. (g.records ≡ records) × IsLasting g) }
    {
        let lasts = vec![in alloc; u64::MAX; records.len()]?;
        let anchors = vec![in alloc; NO_ANCHOR; records.len()]?;
        Ok(EntryRecords {
            records,
            lasts,
            anchors,
            names: AnchorNames::new(alloc),
            expired: 0,
            until: None,
        })
    }

    /// Whether the number of expired entries has reached its limit.
    pub(crate) fn is_full(&self) -> bool
        ensures full { OnTrue result (self.now.expired + 1 ≡ 2 ^ 64) }
        ensures room { OnFalse result (self.now.expired + 1 < 2 ^ 64) }
    {
        self.expired == u64::MAX
    }

    /// Gathers one more entry, and the name of its trust anchor, if it has one.
    pub(crate) fn add(
        &mut self,
        alloc: Global,
        entry: &ExportEntry,
        ta: Option<&str>,
        now: u64,
    ) -> Result<(), AllocError>
        requires { self.old.expired + 1 < 2 ^ 64 }
        ensures records { OnOk result (self.new.records.items ≡ self.old.records.items ++ current now (entry.now ∷ [])) }
        ensures lasts { OnOk result (self.new.lasts.items ≡ self.old.lasts.items ++ last_seconds now (entry.now ∷ [])) }
        ensures expired { OnOk result (self.new.expired ≡ self.old.expired + expired now (entry.now ∷ [])) }
        ensures names { OnOk result (names_of self.new ≡ with_names (names_of self.old) (one_named now entry.now (option_map (λ s. s.now) ta.entry))) }
        ensures anchors { OnOk result (self.new.anchors.items ≡ self.old.anchors.items ++ map (λ p. number_in (names_of self.new) p.1) (one_named now entry.now (option_map (λ s. s.now) ta.entry))) }
        ensures until { OnOk result ((ts : List ℕ) → IsFirst ts self.old.until → IsFirst (ts ++ endings now (entry.now ∷ [])) self.new.until) }
    {
        if counts(entry, now) {
            self.records.push(entry.payload)?;
            self.lasts.push(last_second(entry.expires))?;
            self.anchors.push(self.names.number(alloc, ta)?)?;
            self.until = sooner(self.until, entry.expires);
        } else {
            self.expired += 1;
        }
        Ok(())
    }
}
