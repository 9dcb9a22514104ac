//! What one source says: the export of a file as it was read last, or the set of another cache.
ghost use Rattle.std.specs.Prelude.{◌≡◌, ℕ, ◌+◌, ◌^◌, ◌<◌, ◌++◌, ◌∷◌, [], cond, length, nat_le, slice_get, IfOk, IsErrOf, None, OnOk, Some, replicate};
ghost use Rattle.vrps.specs.VrpSet.{empty, size};
ghost use Rattle.exports.specs.Lasting.{counting, last_at};
ghost use Rattle.sources.specs.Served.{CountsUntil, IsNothing, counting_at, ends_between, expired_of, is_any_before, none_ignored};
ghost use Rattle.sources.specs.ByAnchor.{AreLeft, HasNoAnchors, raised};
ghost use Rattle.sources.specs.Shrinking.{left_of};

use exports::{ExportAnchors, Ignored};
use prefixes::Vrp;
use std::alloc::{AllocError, Global};
use vrps::{SetFault, VrpSet};

/// The last export of a file, or the set of another cache: its records, and when each of them ends. Times are in seconds since 1970 (UTC).
#[derive(Debug, Drop)]
pub struct Listed {
    /// The records that counted when the export or set was loaded.
    pub set: VrpSet,
    /// For each record, in the order of `set`: the last second at which it counts. `u64::MAX`: it does not end.
    pub lasts: Vec<u64>,
    /// When the export was made, in seconds since 1970. `None`: the export does not say so.
    pub built: Option<u64>,
    /// The numbers of elements of the export that are not served.
    pub ignored: Ignored,
    /// The trust anchors of the records. It is empty for a set of another cache.
    pub anchors: ExportAnchors,
}

/// No trust anchors.
fn no_anchors(alloc: Global) -> ExportAnchors
    ensures { HasNoAnchors result }
{
    ExportAnchors {
        names: Vec::new(alloc),
        of_each: Vec::new(alloc),
    }
}

/// Nothing is left out.
const NONE_IGNORED: Ignored = Ignored {
    aspas: 0,
    router_keys: 0,
};

impl Listed {
    /// Returns a list without records. It allocates nothing.
    pub fn empty(alloc: Global) -> Listed
        ensures { IsNothing result }
    {
        Listed {
            set: VrpSet::empty(alloc),
            lasts: Vec::new(alloc),
            built: None,
            ignored: NONE_IGNORED,
            anchors: no_anchors(alloc),
        }
    }

    /// A set whose records all count at each second before a moment, and at none from then on. Without a moment they count at each second.
    pub(crate) fn until(
        alloc: Global,
        set: &VrpSet,
        until: Option<u64>,
    ) -> Result<Listed, AllocError>
        ensures { IfOk result (CountsUntil set.now until) }
    {
        let Some(end) = until else {
            return Listed::to_one_second(alloc, set, u64::MAX);
        };
        if end == 0 {
            return Ok(Listed::empty(alloc));
        }
        Listed::to_one_second(alloc, set, end - 1)
    }

    /// A set whose records all have the same last second.
    fn to_one_second(alloc: Global, set: &VrpSet, last: u64) -> Result<Listed, AllocError>
        ensures set { IfOk result (λ l. (l.set ≡ set.now) × (l.built ≡ None) × (l.ignored ≡ none_ignored) × HasNoAnchors l.anchors) }
        ensures lasts { IfOk result (λ l. l.lasts.items ≡ replicate (size set.now) last) }
    {
        Listed::ending(alloc, set.duplicate()?, last, None)
    }

    /// A set that was made at a second, or it is not known when. Its records all have the same last second.
    pub(crate) fn ending(
        alloc: Global,
        set: VrpSet,
        last: u64,
        built: Option<u64>,
    ) -> Result<Listed, AllocError>
        ensures set { IfOk result (λ l. (l.set ≡ set) × (l.built ≡ built) × (l.ignored ≡ none_ignored) × HasNoAnchors l.anchors) }
        ensures lasts { IfOk result (λ l. l.lasts.items ≡ replicate (size set) last) }
    {
        let lasts = vec![in alloc; last; set.len()]?;
        Ok(Listed {
            set,
            lasts,
            built,
            ignored: NONE_IGNORED,
            anchors: no_anchors(alloc),
        })
    }

    /// A list that was made at a second, and whose records have all expired.
    pub(crate) fn ended(alloc: Global, built: u64) -> Listed
        ensures list { (result.set ≡ empty) × (result.lasts.items ≡ []) × (result.built ≡ Some built) }
        ensures rest { (result.ignored ≡ none_ignored) × HasNoAnchors result.anchors }
    {
        Listed {
            built: Some(built),
            ..Listed::empty(alloc)
        }
    }

    /// How many records have expired at this moment.
    pub(crate) fn expired(&self, now: u64) -> u64
        ensures { result ≡ expired_of now (Some self.now) }
    {
        self.lasts.iter().filter(|last| **last < now).count() as u64
    }

    /// For each name of a trust anchor how many records count at this moment and have it.
    pub(crate) fn left_of_anchors(&self, alloc: Global, now: u64) -> Result<Vec<u64>, AllocError>
        ensures { IfOk result (λ counts. AreLeft now (length self.now.anchors.names.items) self.now.lasts.items self.now.anchors.of_each.items counts.items) }
    {
        let names = self.anchors.names.len();
        let numbers = self.anchors.of_each.as_slice();
        left_of_anchors(alloc, names, self.lasts.as_slice(), numbers, now)
    }

    /// How many records count at this moment.
    pub(crate) fn left(&self, now: u64) -> u64
        ensures { result ≡ left_of now (Some self.now) }
    {
        (self.set.len() as u64).saturating_sub(self.expired(now))
    }

    /// Whether a record has its last second at `from` or later, and before `to`. Until `to` it has then expired, and at `from` it has not.
    pub(crate) fn ends_between(&self, from: u64, to: u64) -> bool
        ensures { result ≡ ends_between from to (Some self.now) }
    {
        self.lasts.iter().any(|last| from <= *last && *last < to)
    }

    /// The set of the records that count at this moment.
    pub(crate) fn counted(&self, alloc: Global, now: u64) -> Result<VrpSet, SetFault>
        ensures ok { IfOk result (λ s. s ≡ counting_at now self.now) }
        ensures too_many { IsErrOf result SetFault.TooMany → 16777215 < size (counting_at now self.now) }
    {
        let lasts = self.lasts.as_slice();
        if is_any_before(lasts, now) {
            return VrpSet::from_list(counting(alloc, self.set.as_slice(), lasts, now)?);
        }
        Ok(self.set.duplicate()?)
    }
}

/// Whether some of these last seconds are before a moment.
fn is_any_before(lasts: &[u64], now: u64) -> bool
    ensures { result ≡ is_any_before now lasts.now }
{
    lasts.iter().any(|last| *last < now)
}

/// Whether the last second at a place is not before a moment.
fn is_counting(lasts: &[u64], index: usize, now: u64) -> bool
    ensures { result ≡ nat_le now (last_at lasts.now index) }
{
    match lasts.get(index) {
        Some(last) => now <= *last,
        None => true,
    }
}

/// Appends a record, if it counts.
fn push_if(left: &mut Vec<Vrp>, vrp: &Vrp, counts: bool) -> Result<(), AllocError>
    ensures { OnOk result (left.new.items ≡ left.old.items ++ cond counts (vrp.now ∷ []) []) }
{
    if counts {
        left.push(*vrp)?;
    }
    Ok(())
}

/// Those of the records whose last second is not before a moment.
fn counting(alloc: Global, records: &[Vrp], lasts: &[u64], now: u64) -> Result<Vec<Vrp>, AllocError>
    ensures { IfOk result (λ left. left.items ≡ counting now records.now lasts.now) }
{
    let mut left = Vec::new(alloc);
    for (index, vrp) in records.iter().enumerate() {
        push_if(&mut left, vrp, is_counting(lasts, index, now))?;
    }
    Ok(left)
}

/// The number at a place, if there is one and it counts.
fn number_at(numbers: &[u8], index: usize, counts: bool) -> Option<usize>
    ensures { result ≡ cond counts (slice_get numbers.now index) None }
{
    if !counts {
        return None;
    }
    match numbers.get(index) {
        Some(number) => Some(usize::from(*number)),
        None => None,
    }
}

/// Adds one to the count at a place, if there is one.
fn raise(counts: &mut Vec<u64>, place: Option<usize>)
    requires { (i n : ℕ) → slice_get counts.old.items i ≡ Some n → n + 1 < 2 ^ 64 }
    ensures { counts.new.items ≡ raised place counts.old.items }
{
    if let Some(place) = place {
        if place < counts.len() {
            counts[place] += 1;
        }
    }
}

/// For each of this many trust anchors how many places have its number and a last second that is not before a moment.
fn left_of_anchors(
    alloc: Global,
    names: usize,
    lasts: &[u64],
    numbers: &[u8],
    now: u64,
) -> Result<Vec<u64>, AllocError>
    ensures { IfOk result (λ counts. AreLeft now names lasts.now numbers.now counts.items) }
{
    let mut counts = vec![in alloc; 0u64; names]?;
    for (index, last) in lasts.iter().enumerate() {
        raise(&mut counts, number_at(numbers, index, now <= *last));
    }
    Ok(counts)
}
