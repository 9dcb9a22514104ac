//! IP addresses: a prefix, or a range (RFC 3779 section 2.2.3).

ghost use Rattle.std.specs.Prelude.{◌≡◌, ◌≤◌, IfOk, IsTrue, length};
ghost use Rattle.der_lite.specs.Der.{is_bit_string};
ghost use Rattle.der_lite.specs.Values.{bits_value};
ghost use Rattle.der_lite.specs.Cursors.{bits_content};
ghost use Rattle.resources.specs.Gives.{GivesNext};
ghost use Rattle.resources.specs.Reading.{prefix_at, bound_at, address_range_at, address_block_at};

use crate::bits::{addresses, ends_in, is_longer, is_prefix};
use crate::elements::{BIT_STRING, begins};
use crate::{ResourceFault, ResourceFaultKind, ResourceRange};
use der_lite::{Bits, Cursor};

/// addressPrefix.
#[tactic(auto, unfolding(crate::specs::Reading::prefix_at, der_lite::specs::DerReading::content_at))]
fn prefix(cursor: &mut Cursor, width: u8) -> Result<ResourceRange, ResourceFault>
    requires { width ≤ 128 }
    ensures exact { GivesNext (λ r. r) result cursor.new (prefix_at width cursor.old) }
    ensures ordered { IfOk result (λ r. r.low ≤ r.high) }
{
    let offset = cursor.offset();
    let bits = cursor.bits()?;
    if is_longer(bits, width) {
        return Err(ResourceFaultKind::AddressLength.at(offset));
    }
    Ok(addresses(bits, width))
}

/// min or max of a range, which does not end in this bit.
#[tactic(auto, unfolding(crate::specs::Reading::bound_at, der_lite::specs::DerReading::content_at))]
fn bound<'a>(cursor: &mut Cursor<'a>, width: u8, bit: bool) -> Result<Bits<'a>, ResourceFault>
    requires { width ≤ 128 }
    ensures exact { GivesNext (λ b. bits_value (bits_content b)) result cursor.new (bound_at bit width cursor.old) }
    ensures valid { IfOk result (λ b. IsTrue (is_bit_string (bits_content b))) }
    ensures within { IfOk result (λ b. length (bits_value (bits_content b)) ≤ width) }
{
    let offset = cursor.offset();
    let bits = cursor.bits()?;
    if is_longer(bits, width) {
        return Err(ResourceFaultKind::AddressLength.at(offset));
    }
    if ends_in(bits, bit) {
        return Err(ResourceFaultKind::Bound.at(offset));
    }
    Ok(bits)
}

/// addressRange.
#[tactic(auto, unfolding(crate::specs::Reading::address_range_at))]
fn address_range(cursor: &mut Cursor, width: u8) -> Result<ResourceRange, ResourceFault>
    requires { width ≤ 128 }
    ensures exact { GivesNext (λ r. r) result cursor.new (address_range_at width cursor.old) }
    ensures ordered { IfOk result (λ r. r.low ≤ r.high) }
{
    let offset = cursor.offset();
    let mut members = cursor.sequence()?;
    let min = bound(&mut members, width, false)?;
    let max = bound(&mut members, width, true)?;
    members.finish()?;
    let range = ResourceRange {
        low: addresses(min, width).low,
        high: addresses(max, width).high,
    };
    if range.high < range.low {
        return Err(ResourceFaultKind::Order.at(offset));
    }
    if is_prefix(range, min, max, width) {
        return Err(ResourceFaultKind::Single.at(offset));
    }
    Ok(range)
}

/// IPAddressOrRange.
#[tactic(auto, unfolding(crate::specs::Reading::address_block_at))]
pub(crate) fn address_block(cursor: &mut Cursor, width: u8) -> Result<ResourceRange, ResourceFault>
    requires { width ≤ 128 }
    ensures exact { GivesNext (λ r. r) result cursor.new (address_block_at width cursor.old) }
    ensures ordered { IfOk result (λ r. r.low ≤ r.high) }
{
    if begins(cursor, BIT_STRING) {
        return prefix(cursor, width);
    }
    address_range(cursor, width)
}
