//! ASIdentifiers (RFC 3779 section 3.2.3, RFC 6487 section 4.8.11).

ghost use Rattle.std.specs.Prelude.{◌≡◌};
ghost use Rattle.resources.specs.Gives.{GivesOrMemory, GivesAllOrMemory, Reads};
ghost use Rattle.resources.specs.Resources.{as_value};
ghost use Rattle.resources.specs.Reading.{asnum_at, as_identifiers_at, as_all};

use crate::choice::choice;
use crate::elements::EXPLICIT_0;
use crate::{ResourceChoice, ResourceError, ResourceFaultKind, ResourceKind};
use der_lite::Cursor;
use std::alloc::Global;

/// asnum.
#[tactic(auto, unfolding(crate::specs::Reading::asnum_at))]
fn asnum(alloc: Global, cursor: &mut Cursor) -> Result<ResourceChoice, ResourceError>
    ensures { GivesOrMemory (λ c. c) result cursor.new (asnum_at cursor.old) }
{
    let mut members = cursor.tagged(EXPLICIT_0)?;
    let choice = choice(alloc, &mut members, ResourceKind::As)?;
    members.finish()?;
    Ok(choice)
}

/// ASIdentifiers: asnum, and the end.
#[tactic(auto, unfolding(crate::specs::Reading::as_identifiers_at))]
fn as_identifiers(alloc: Global, cursor: &mut Cursor) -> Result<ResourceChoice, ResourceError>
    ensures { GivesOrMemory (λ c. c) result cursor.new (as_identifiers_at cursor.old) }
{
    let mut members = cursor.sequence()?;
    let choice = asnum(alloc, &mut members)?;
    if !members.at_end() {
        let offset = members.offset();
        return Err(ResourceError::At(ResourceFaultKind::RoutingDomains.at(offset)));
    }
    Ok(choice)
}

/// ASIdentifiers, and the end.
#[tactic(auto, unfolding(crate::specs::Reading::as_all))]
fn whole_as(alloc: Global, value: &[u8]) -> Result<ResourceChoice, ResourceError>
    ensures { GivesAllOrMemory (λ c. c) result (as_all value.now) }
{
    let mut whole = Cursor::new(value);
    let choice = as_identifiers(alloc, &mut whole)?;
    whole.finish()?;
    Ok(choice)
}

/// Reads the content of the extnValue of autonomousSysIds (RFC 3779 section 3.2.3, RFC 6487 section 4.8.11). It has to be DER in canonical form:
/// asnum alone, with `inherit`, or a list that is not empty.
///
/// `At`: the first fault, with its offset in `value`. Bytes that follow are a fault. `Memory`: memory ran out.
pub fn read_as_ids(alloc: Global, value: &[u8]) -> Result<ResourceChoice, ResourceError>
    ensures { Reads as_value result value.now }
{
    whole_as(alloc, value)
}
