//! How ascending records are grouped by their prefixes.
ghost use Rattle.std.specs.Prelude.{◌≡◌, ◌≤◌, [], length, IfOk};
ghost use Rattle.std.specs.List.{All};
ghost use Rattle.std.specs.List.Sorted.{IsStrictlySortedBy};
ghost use Rattle.prefixes.specs.Payload.{IsPayload, vrp_cmp};
ghost use Rattle.vrps.specs.Groups.{AreGroups, same_prefix};
ghost use Rattle.vrps.specs.Heads.{AreHeads, heads_of};

use crate::groups::{Groups, Heads};
use prefixes::{IpPrefix, Vrp};
use std::alloc::{AllocError, Global};

/// The groups of ascending records. They are walked once to find where groups begin, and the groups once for their prefixes.
pub(crate) fn grouped(alloc: Global, records: Vec<Vrp>) -> Result<Groups, AllocError>
    requires ascends { IsStrictlySortedBy vrp_cmp records.items }
    requires payloads { All IsPayload records.items }
    requires limit { length records.items ≤ 16777215 }
    ensures { IfOk result (λ groups. groups.records.items ≡ records.items) }
{
    let starts = starts_of(alloc, &records)?;
    let heads = heads_of(alloc, &records, &starts)?;
    Ok(Groups::new(records, starts, heads))
}

/// No group. It allocates no memory.
pub(crate) fn no_groups(alloc: Global) -> Groups
    ensures { result.records.items ≡ [] }
{
    Groups::new(Vec::new(alloc), Vec::new(alloc), Heads::new(alloc))
}

/// For each group of ascending records the place of its first one.
fn starts_of(alloc: Global, records: &[Vrp]) -> Result<Vec<u32>, AllocError>
    requires ascends { IsStrictlySortedBy vrp_cmp records.now }
    requires payloads { All IsPayload records.now }
    requires limit { length records.now ≤ 16777215 }
    ensures { IfOk result (λ starts. AreGroups records.now starts.items) }
{
    let mut starts = Vec::with_capacity(alloc, records.len())?;
    for (index, vrp) in records.iter().enumerate() {
        if index == 0 || !is_same_prefix(&vrp.prefix(), &records[index - 1].prefix()) {
            starts.push(index as u32)?;
        }
    }
    Ok(starts)
}

/// Whether both are one prefix.
fn is_same_prefix(p: &IpPrefix, q: &IpPrefix) -> bool
    ensures { result ≡ same_prefix p.now q.now }
{
    match (p, q) {
        (IpPrefix::V4(p), IpPrefix::V4(q)) => p.addr() == q.addr() && p.len() == q.len(),
        (IpPrefix::V6(p), IpPrefix::V6(q)) => p.addr() == q.addr() && p.len() == q.len(),
        _ => false,
    }
}

/// The prefixes of groups.
fn heads_of(alloc: Global, records: &[Vrp], starts: &[u32]) -> Result<Heads, AllocError>
    requires { AreGroups records.now starts.now }
    ensures { IfOk result (λ heads. AreHeads records.now starts.now (length starts.now) (heads_of heads)) }
{
    let v4 = first_v6(records, starts);
    let mut heads = Heads::with_capacity(alloc, v4, starts.len() - v4)?;
    for start in starts {
        heads.push(&records[*start as usize].prefix())?;
    }
    Ok(heads)
}

/// The place of the first IPv6 group, or the number of groups if there is none.
fn first_v6(records: &[Vrp], starts: &[u32]) -> usize
    requires { AreGroups records.now starts.now }
    ensures { result ≤ length starts.now }
{
    for (place, start) in starts.iter().enumerate() {
        if let IpPrefix::V6(_) = records[*start as usize].prefix() {
            return place;
        }
    }
    starts.len()
}
