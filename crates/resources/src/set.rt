//! Sets of addresses of one family, or of AS numbers.

ghost use Rattle.std.specs.Prelude.{◌≡◌, ◌≤◌, ◌↔◌, ◌⊎◌, ◌++◌, ◌∷◌, ℕ, List, IsTrue, IfOk, []};
ghost use Rattle.std.specs.List.{All};
ghost use Rattle.resources.specs.declared.range.ResourceRange.{ResourceRange as RangeValue};
ghost use Rattle.resources.specs.Ranges.{is_after as is_after_of, are_apart as are_apart_of, AreRanges, Covers, IsIn, Overlap, Within};
ghost use Rattle.resources.specs.Walks.{from_end as from_end_of, begins_by as begins_by_of, begins_in as begins_in_of, hull as hull_of, merged as merged_of};

use crate::ResourceRange;
use std::alloc::{AllocError, Global};
use std::marker::Model;

/// Whether a number lies between this end of a range and the next range, if there is such an end.
fn is_after(range: &ResourceRange, end: Option<u128>) -> bool
    ensures { result ≡ is_after_of end range.now }
{
    match end {
        Some(high) => high < range.low && range.low - high > 1,
        None => true,
    }
}

/// Whether the ranges ascend, and neither overlap nor touch.
pub(crate) fn are_apart(ranges: &[ResourceRange]) -> bool
    ensures { result ≡ are_apart_of ranges.now }
{
    let mut end = None;
    for range in ranges {
        if !is_after(range, end) {
            return false;
        }
        end = Some(range.high);
    }
    true
}

/// A set of numbers, as ranges that ascend, and neither overlap nor touch. So a set has one list of ranges.
#[derive(Debug, Drop)]
pub struct ResourceSet {
    ranges: Vec<ResourceRange>,
}

impl Model for ResourceSet {
    ghost use Rattle.std.specs.Prelude.{List};
    ghost use Rattle.resources.specs.declared.range.ResourceRange.{ResourceRange as RangeValue};
    ghost use Rattle.resources.specs.Ranges.{AreRanges};

    ghost Value = { List RangeValue };

    ghost view = { λ s. s.ranges.items };

    ghost invariant = { λ s. AreRanges s.ranges.items };
}

impl ResourceSet {
    /// A set without numbers. It allocates no memory.
    pub fn empty(alloc: Global) -> ResourceSet
        ensures { result ≡ [] }
    {
        ResourceSet {
            ranges: Vec::new(alloc),
        }
    }

    /// The set of these ranges.
    pub(crate) fn of(ranges: Vec<ResourceRange>) -> ResourceSet
        requires { AreRanges ranges.items }
        ensures { result ≡ ranges.items }
    {
        ResourceSet { ranges }
    }

    /// The ranges, in ascending order. Between each two there is a number that the set lacks.
    pub fn as_slice(&self) -> &[ResourceRange]
        ensures { result.now ≡ self.now }
    {
        self.ranges.as_slice()
    }

    /// Returns whether each number of this set is in the other (RFC 3779 sections 2.3 and 3.3). This takes one walk of both lists.
    pub fn is_within(&self, outer: &ResourceSet) -> bool
        ensures { IsTrue result ↔ Within self.now outer.now }
    {
        let mut rest = outer.ranges.as_slice();
        for range in &self.ranges {
            rest = from_end(rest, range.high);
            if !begins_by(range, rest) {
                return false;
            }
        }
        true
    }

    /// Returns whether a number of this set is in the other. Both lists are walked once.
    pub fn overlaps(&self, other: &ResourceSet) -> bool
        ensures { IsTrue result ↔ Overlap self.now other.now }
    {
        let mut rest = other.ranges.as_slice();
        for range in &self.ranges {
            rest = from_end(rest, range.low);
            if begins_in(range, rest) {
                return true;
            }
        }
        false
    }

    /// Returns the set of the numbers that are in this set or in the range. A range whose `high` is below its `low` has no numbers. The only error
    /// is that memory ran out.
    pub fn with(&self, alloc: Global, range: ResourceRange) -> Result<ResourceSet, AllocError>
        ensures { IfOk result (λ set. (n : ℕ) → Covers set n ↔ (IsIn range n ⊎ Covers self.now n)) }
    {
        if range.high < range.low {
            return Ok(ResourceSet::of(self.ranges.clone()?));
        }
        Ok(ResourceSet::of(merged(alloc, self.as_slice(), range)?))
    }
}

/// The range from the lower beginning to the higher end.
fn hull(a: ResourceRange, b: ResourceRange) -> ResourceRange
    ensures { result ≡ hull_of a b }
{
    ResourceRange {
        low: a.low.min(b.low),
        high: a.high.max(b.high),
    }
}

/// Writes the lower of two ranges, if they neither overlap nor touch, and returns the other; otherwise returns the range of both.
fn put_lower(
    ranges: &mut Vec<ResourceRange>,
    range: ResourceRange,
    next: ResourceRange,
) -> Result<ResourceRange, AllocError>
    ensures { IfOk result (λ last. (more : List RangeValue) → ranges.old.items ++ merged_of range (next ∷ more) ≡ ranges.new.items ++ merged_of last more) }
{
    if is_after(&next, Some(range.high)) {
        ranges.push(range)?;
        return Ok(next);
    }
    if is_after(&range, Some(next.high)) {
        ranges.push(next)?;
        return Ok(range);
    }
    Ok(hull(range, next))
}

/// The ranges with one more, in order.
fn merged(
    alloc: Global,
    ranges: &[ResourceRange],
    range: ResourceRange,
) -> Result<Vec<ResourceRange>, AllocError>
    ensures { IfOk result (λ all. all.items ≡ merged_of range ranges.now) }
{
    let mut all = Vec::new(alloc);
    let mut last = range;
    for next in ranges {
        last = put_lower(&mut all, last, *next)?;
    }
    all.push(last)?;
    Ok(all)
}

/// The ranges from the first that does not end before this number.
fn from_end(ranges: &[ResourceRange], number: u128) -> &[ResourceRange]
    ensures { result.now ≡ from_end_of number ranges.now }
{
    let mut rest = ranges;
    while let [first, others @ ..] = rest {
        if number <= first.high {
            return rest;
        }
        rest = others;
    }
    rest
}

/// Whether the first of the ranges begins no later than this one.
fn begins_by(range: &ResourceRange, ranges: &[ResourceRange]) -> bool
    ensures { result ≡ begins_by_of range.now ranges.now }
{
    match ranges {
        [first, ..] => first.low <= range.low,
        [] => false,
    }
}

/// Whether the first of the ranges begins no later than this one ends.
fn begins_in(range: &ResourceRange, ranges: &[ResourceRange]) -> bool
    ensures { result ≡ begins_in_of range.now ranges.now }
{
    match ranges {
        [first, ..] => first.low <= range.high,
        [] => false,
    }
}
