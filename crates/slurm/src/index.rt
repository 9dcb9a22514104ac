//! Filters, arranged for records that come in ascending order.
ghost use Rattle.std.specs.Prelude.{◌≡◌, ◌≤◌, ◌||◌, ◌&&◌, ◌==◌, [], IfOk, OnOk, length};
ghost use Rattle.std.specs.List.{All, list_any};
ghost use Rattle.std.specs.List.Sorted.{IsNonDecreasing, IsNonDecreasingBy, IsSorted};
ghost use Rattle.prefixes.specs.Address.{IsPrefix};
ghost use Rattle.prefixes.specs.Payload.{Payload, block_of, covers, prefix_cmp, width_of};
ghost use Rattle.slurm.specs.Arranged.{Opens, covering};

use crate::filter::PrefixFilter;
use prefixes::{IpPrefix, Vrp};
use std::alloc::{AllocError, Global};

/// A filter that has a prefix and an AS.
#[derive(Clone, Copy, Debug)]
pub(crate) struct Both {
    asn: u32,
    prefix: IpPrefix,
}

/// The filters: the prefixes of those with a prefix alone, in ascending order; those with both, in ascending order of the AS; the ASes of
/// those with an AS alone, in ascending order; and whether one has neither.
#[derive(Debug, Drop)]
pub(crate) struct Index {
    pub(crate) by_prefix: Vec<IpPrefix>,
    by_both: Vec<Both>,
    by_as: Vec<u32>,
    all: bool,
}

impl Index {
    ghost use Rattle.slurm.specs.Exceptions.{is_filtered, matches};
    ghost use Rattle.slurm.specs.Arranged.{hit_anywhere, hit_by};

    /// Adds a filter.
    fn add(&mut self, filter: &PrefixFilter) -> Result<(), AllocError>
        ensures { OnOk result ((v : Payload) → hit_by self.new v ≡ (hit_by self.old v || matches filter.now v)) }
    {
        match (filter.prefix, filter.asn) {
            (Some(prefix), Some(asn)) => self.by_both.push(Both { asn: asn.0, prefix })?,
            (Some(prefix), None) => self.by_prefix.push(prefix)?,
            (None, Some(asn)) => self.by_as.push(asn.0)?,
            (None, None) => self.all = true,
        }
        Ok(())
    }

    /// The filters in no order.
    fn of(alloc: Global, filters: &[PrefixFilter]) -> Result<Index, AllocError>
        ensures { IfOk result (λ i. (v : Payload) → hit_by i v ≡ is_filtered filters.now v) }
    {
        let mut index = Index {
            by_prefix: Vec::new(alloc),
            by_both: Vec::new(alloc),
            by_as: Vec::new(alloc),
            all: false,
        };
        for filter in filters {
            index.add(filter)?;
        }
        Ok(index)
    }

    /// The filters.
    pub(crate) fn over(alloc: Global, filters: &[PrefixFilter]) -> Result<Index, AllocError>
        ensures hits { IfOk result (λ i. (v : Payload) → hit_by i v ≡ is_filtered filters.now v) }
        ensures by_prefix { IfOk result (λ i. IsSorted prefix_cmp i.by_prefix.items) }
        ensures prefixes { IfOk result (λ i. All (λ f. IsPrefix (width_of f) (block_of f)) i.by_prefix.items) }
        ensures by_both { IfOk result (λ i. IsNonDecreasingBy (λ f. f.asn) i.by_both.items) }
        ensures by_as { IfOk result (λ i. IsNonDecreasing i.by_as.items) }
    {
        let Index {
            mut by_prefix,
            mut by_both,
            mut by_as,
            all,
        } = Index::of(alloc, filters)?;
        by_prefix.sort_unstable();
        by_both.sort_unstable_by_key(|filter| filter.asn);
        by_as.sort_unstable();
        know_prefixes(by_prefix.as_slice());
        Ok(Index {
            by_prefix,
            by_both,
            by_as,
            all,
        })
    }

    /// Whether a filter that has more than a prefix, or nothing, matches the record.
    fn is_hit_anywhere(&self, vrp: &Vrp) -> bool
        requires by_both { IsNonDecreasingBy (λ f. f.asn) self.now.by_both.items }
        requires by_as { IsNonDecreasing self.now.by_as.items }
        ensures { result ≡ hit_anywhere self.now vrp.now }
    {
        any_of_both(self.by_both.as_slice(), vrp.asn().0, &vrp.prefix())
            || has_number(self.by_as.as_slice(), vrp.asn().0)
            || self.all
    }

    /// Whether one of these prefixes covers the record's, or another filter matches it.
    pub(crate) fn is_hit(&self, opened: &[IpPrefix], vrp: &Vrp) -> bool
        requires by_both { IsNonDecreasingBy (λ f. f.asn) self.now.by_both.items }
        requires by_as { IsNonDecreasing self.now.by_as.items }
        ensures { result ≡ (list_any (λ f. covers f vrp.now.prefix) opened.now || hit_anywhere self.now vrp.now) }
    {
        any_covers(opened, &vrp.prefix()) || self.is_hit_anywhere(vrp)
    }
}

/// Whether one of these prefixes covers the other one.
fn any_covers(prefixes: &[IpPrefix], other: &IpPrefix) -> bool
    ensures { result ≡ list_any (λ f. covers f other.now) prefixes.now }
{
    prefixes.iter().any(|prefix| prefix.covers(other))
}

/// Looks at each prefix once. That it has no host bits is known of one that is looked at.
fn know_prefixes(prefixes: &[IpPrefix])
    ensures { All (λ f. IsPrefix (width_of f) (block_of f)) prefixes.now }
{
    for prefix in prefixes {
        let _len = prefix.len();
    }
}

/// Of ascending prefixes adds those from a place on that are not after another one, and returns the index after the last of these.
pub(crate) fn add_up_to(
    opened: &mut Vec<IpPrefix>,
    prefixes: &[IpPrefix],
    next: usize,
    prefix: &IpPrefix,
) -> Result<usize, AllocError>
    requires { next ≤ length prefixes.now }
    ensures { IfOk result (λ to. Opens prefixes.now prefix.now next opened.old.items to opened.new.items) }
{
    let mut to = next;
    while to < prefixes.len() && prefixes[to].cmp(prefix).is_le() {
        opened.push(prefixes[to])?;
        to += 1;
    }
    Ok(to)
}

/// Leaves only those that cover the prefix.
pub(crate) fn keep_covering(opened: &mut Vec<IpPrefix>, prefix: &IpPrefix)
    ensures { opened.new.items ≡ covering prefix.now opened.old.items }
{
    opened.retain(|other| other.covers(prefix));
}

/// Whether one of the filters, which are in ascending order of the AS, is of the AS and covers the prefix.
fn any_of_both(filters: &[Both], asn: u32, prefix: &IpPrefix) -> bool
    requires { IsNonDecreasingBy (λ f. f.asn) filters.now }
    ensures { result ≡ list_any (λ f. (f.asn == asn) && covers f.prefix prefix.now) filters.now }
{
    let start = filters.partition_point(|filter| filter.asn < asn);
    let rest = &filters[start..];
    let count = rest.partition_point(|filter| filter.asn <= asn);
    any_of_these_covers(&rest[..count], prefix)
}

/// Whether one of the filters covers the prefix.
fn any_of_these_covers(filters: &[Both], prefix: &IpPrefix) -> bool
    ensures { result ≡ list_any (λ f. covers f.prefix prefix.now) filters.now }
{
    filters.iter().any(|filter| filter.prefix.covers(prefix))
}

/// Whether the number is in the ascending list.
fn has_number(numbers: &[u32], number: u32) -> bool
    requires { IsNonDecreasing numbers.now }
    ensures { result ≡ list_any (λ n. n == number) numbers.now }
{
    numbers.binary_search(&number).is_ok()
}
