//! What a certificate says of its resources of one kind (RFC 3779 sections 2.2.3.5 and 3.2.3.3).

ghost use Rattle.std.specs.Prelude.{◌≡◌, option_map};
ghost use Rattle.resources.specs.Gives.{GivesNext, GivesOrMemory};
ghost use Rattle.resources.specs.Reading.{null_at, choice_at};
ghost use Rattle.resources.specs.Sets.{Holds};

use crate::block::blocks;
use crate::elements::{NULL, begins};
use crate::{ResourceError, ResourceFault, ResourceFaultKind, ResourceKind, ResourceSet};
use der_lite::Cursor;
use std::alloc::Global;

/// What a certificate says of its resources of one kind.
#[derive(Debug, Drop)]
pub enum ResourceChoice {
    /// All that the issuer holds.
    Inherit,
    /// These.
    Listed(ResourceSet),
}

impl ResourceChoice {
    /// What the subject of the certificate holds of one kind, if its issuer holds `issuer` of the same kind. `None`: the certificate lists a number
    /// that the issuer does not hold, so it is not valid (RFC 6487 section 7.2). A trust anchor may not inherit: its caller judges that.
    pub fn held<'a>(&'a self, issuer: &'a ResourceSet) -> Option<&'a ResourceSet>
        ensures { Holds self.now issuer.now (option_map (λ held. held.now) result) }
    {
        match self {
            ResourceChoice::Inherit => Some(issuer),
            ResourceChoice::Listed(set) if set.is_within(issuer) => Some(set),
            ResourceChoice::Listed(_) => None,
        }
    }
}

/// inherit.
#[tactic(auto, unfolding(crate::specs::Reading::null_at, der_lite::specs::DerReading::content_at))]
fn null(cursor: &mut Cursor) -> Result<(), ResourceFault>
    ensures { GivesNext (λ _. tt) result cursor.new (null_at cursor.old) }
{
    let offset = cursor.offset();
    if !cursor.tagged(NULL)?.remaining().is_empty() {
        return Err(ResourceFaultKind::Inherit.at(offset));
    }
    Ok(())
}

/// inherit, or a list of blocks of this kind.
#[tactic(auto, unfolding(crate::specs::Reading::choice_at))]
pub(crate) fn choice(
    alloc: Global,
    cursor: &mut Cursor,
    kind: ResourceKind,
) -> Result<ResourceChoice, ResourceError>
    ensures { GivesOrMemory (λ c. c) result cursor.new (choice_at kind cursor.old) }
{
    if begins(cursor, NULL) {
        null(cursor)?;
        return Ok(ResourceChoice::Inherit);
    }
    Ok(ResourceChoice::Listed(blocks(alloc, cursor, kind)?))
}
