//! Blocks of one kind, and lists of them (RFC 3779 sections 2.2.3.6 and 3.2.3.4).

ghost use Rattle.std.specs.Prelude.{◌≡◌, ◌≤◌, ◌++◌, ◌∷◌, [], IfOk};
ghost use Rattle.std.specs.List.{All};
ghost use Rattle.der_lite.specs.Decoding.{read_each};
ghost use Rattle.resources.specs.Gives.{GivesNext, GivesOrMemory, GivesAllOrMemory};
ghost use Rattle.resources.specs.Reading.{as_number_at, as_range_at, as_block_at, block_at, blocks_at};

use crate::address::address_block;
use crate::elements::{INTEGER, begins};
use crate::set::are_apart;
use crate::{
    ResourceError, ResourceFault, ResourceFaultKind, ResourceKind, ResourceRange, ResourceSet,
};
use der_lite::{Cursor, unsigned};
use std::alloc::{AllocError, Global};

/// ASId.
#[tactic(auto, unfolding(crate::specs::Reading::as_number_at, der_lite::specs::DerReading::content_at))]
fn as_number(cursor: &mut Cursor) -> Result<u32, ResourceFault>
    ensures { GivesNext (λ n. n) result cursor.new (as_number_at cursor.old) }
{
    let offset = cursor.offset();
    match unsigned(cursor.integer()?) {
        Some(number) => Ok(number),
        None => Err(ResourceFaultKind::AsNumber.at(offset)),
    }
}

/// ASRange.
#[tactic(auto, unfolding(crate::specs::Reading::as_range_at))]
fn as_range(cursor: &mut Cursor) -> Result<ResourceRange, ResourceFault>
    ensures exact { GivesNext (λ r. r) result cursor.new (as_range_at cursor.old) }
    ensures ordered { IfOk result (λ r. r.low ≤ r.high) }
{
    let offset = cursor.offset();
    let mut members = cursor.sequence()?;
    let low = as_number(&mut members)?;
    let high = as_number(&mut members)?;
    members.finish()?;
    if high < low {
        return Err(ResourceFaultKind::Order.at(offset));
    }
    if high == low {
        return Err(ResourceFaultKind::Single.at(offset));
    }
    Ok(ResourceRange {
        low: u128::from(low),
        high: u128::from(high),
    })
}

/// ASIdOrRange.
#[tactic(auto, unfolding(crate::specs::Reading::as_block_at))]
fn as_block(cursor: &mut Cursor) -> Result<ResourceRange, ResourceFault>
    ensures exact { GivesNext (λ r. r) result cursor.new (as_block_at cursor.old) }
    ensures ordered { IfOk result (λ r. r.low ≤ r.high) }
{
    if begins(cursor, INTEGER) {
        let number = u128::from(as_number(cursor)?);
        return Ok(ResourceRange {
            low: number,
            high: number,
        });
    }
    as_range(cursor)
}

/// A block of this kind.
#[tactic(auto, unfolding(crate::specs::Reading::block_at))]
fn block(cursor: &mut Cursor, kind: ResourceKind) -> Result<ResourceRange, ResourceFault>
    ensures exact { GivesNext (λ r. r) result cursor.new (block_at kind cursor.old) }
    ensures ordered { IfOk result (λ r. r.low ≤ r.high) }
{
    match kind {
        ResourceKind::Ipv4 => address_block(cursor, 32),
        ResourceKind::Ipv6 => address_block(cursor, 128),
        ResourceKind::As => as_block(cursor),
    }
}

/// Adds a block behind the others.
fn keep(ranges: &mut Vec<ResourceRange>, range: ResourceRange) -> Result<(), AllocError>
    ensures { IfOk result (λ _. ranges.new.items ≡ ranges.old.items ++ range ∷ []) }
{
    ranges.push(range)?;
    Ok(())
}

/// The blocks, to the end.
fn each_block(
    alloc: Global,
    members: Cursor,
    kind: ResourceKind,
) -> Result<Vec<ResourceRange>, ResourceError>
    ensures exact { GivesAllOrMemory (λ ranges. ranges.items) result (read_each (λ _. block_at kind) members.entry) }
    ensures full { IfOk result (λ ranges. All (λ r. r.low ≤ r.high) ranges.items) }
{
    let mut members = members;
    let mut ranges = Vec::new(alloc);
    while !members.at_end() {
        let range = block(&mut members, kind)?;
        keep(&mut ranges, range)?;
    }
    Ok(ranges)
}

/// addressesOrRanges, or asIdsOrRanges.
#[tactic(auto, unfolding(crate::specs::Reading::blocks_at))]
pub(crate) fn blocks(
    alloc: Global,
    cursor: &mut Cursor,
    kind: ResourceKind,
) -> Result<ResourceSet, ResourceError>
    ensures { GivesOrMemory (λ set. set) result cursor.new (blocks_at kind cursor.old) }
{
    let offset = cursor.offset();
    let members = cursor.sequence()?;
    let ranges = each_block(alloc, members, kind)?;
    if ranges.is_empty() {
        return Err(ResourceError::At(ResourceFaultKind::Empty.at(offset)));
    }
    if !are_apart(ranges.as_slice()) {
        return Err(ResourceError::At(ResourceFaultKind::Touching.at(offset)));
    }
    Ok(ResourceSet::of(ranges))
}
