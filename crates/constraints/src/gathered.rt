//! The numbers of all entries of one action, as sets.

ghost use Rattle.std.specs.Prelude.{◌≡◌, ◌↔◌, ◌⊎◌, ◌||◌, ℕ, false, [], ◌∷◌, IfOk, IsTrue};
ghost use Rattle.resources.specs.Ranges.{Overlap, Within};
ghost use Rattle.constraints.specs.Judging.{same_action as same_action_of};
ghost use Rattle.constraints.specs.Gathering.{Gathers, Adds, AddsAll};

use crate::{Constraint, ConstraintAction};
use resources::{ResourceKind, ResourceSet};
use std::alloc::{AllocError, Global};

/// The numbers of all entries of one action. IPv4 and IPv6 addresses are of one family of entries.
#[derive(Debug, Drop)]
pub(crate) struct Gathered {
    pub(crate) v4: ResourceSet,
    pub(crate) v6: ResourceSet,
    pub(crate) numbers: ResourceSet,
    pub(crate) some_ip: bool,
    pub(crate) some_as: bool,
}

/// Whether two actions are the same.
pub(crate) fn same_action(action: ConstraintAction, other: ConstraintAction) -> bool
    ensures { result ≡ same_action_of action other }
{
    match (action, other) {
        (ConstraintAction::Allow, ConstraintAction::Allow) => true,
        (ConstraintAction::Deny, ConstraintAction::Deny) => true,
        _ => false,
    }
}

/// The numbers of one more entry.
fn add(alloc: Global, gathered: Gathered, entry: &Constraint) -> Result<Gathered, AllocError>
    ensures { IfOk result (λ new. Adds gathered entry.now new) }
{
    match entry.kind {
        ResourceKind::Ipv4 => Ok(Gathered {
            v4: gathered.v4.with(alloc, entry.range)?,
            v6: gathered.v6,
            numbers: gathered.numbers,
            some_ip: true,
            some_as: gathered.some_as,
        }),
        ResourceKind::Ipv6 => Ok(Gathered {
            v4: gathered.v4,
            v6: gathered.v6.with(alloc, entry.range)?,
            numbers: gathered.numbers,
            some_ip: true,
            some_as: gathered.some_as,
        }),
        ResourceKind::As => Ok(Gathered {
            v4: gathered.v4,
            v6: gathered.v6,
            numbers: gathered.numbers.with(alloc, entry.range)?,
            some_ip: gathered.some_ip,
            some_as: true,
        }),
    }
}

/// The numbers of an entry too, if it has this action.
fn add_if(
    alloc: Global,
    gathered: Gathered,
    entry: &Constraint,
    action: ConstraintAction,
) -> Result<Gathered, AllocError>
    ensures { IfOk result (λ new. AddsAll action gathered (entry.now ∷ []) new) }
{
    if !same_action(entry.action, action) {
        return Ok(gathered);
    }
    add(alloc, gathered, entry)
}

/// The numbers of all entries of this action.
#[tactic(auto, using(crate::proofs::GatherLaws::leaves_all, crate::proofs::GatherLaws::leaves_on, crate::proofs::GatherLaws::leaves_none))]
pub(crate) fn gather(
    alloc: Global,
    entries: &[Constraint],
    action: ConstraintAction,
) -> Result<Gathered, AllocError>
    ensures { IfOk result (Gathers action entries.now) }
{
    let mut gathered = Gathered {
        v4: ResourceSet::empty(alloc),
        v6: ResourceSet::empty(alloc),
        numbers: ResourceSet::empty(alloc),
        some_ip: false,
        some_as: false,
    };
    let mut rest = entries;
    while let [first, others @ ..] = rest {
        gathered = add_if(alloc, gathered, first, action)?;
        rest = others;
    }
    Ok(gathered)
}

impl Gathered {
    /// Whether addresses overlap these.
    pub(crate) fn overlaps_ip(&self, v4: &ResourceSet, v6: &ResourceSet) -> bool
        ensures { IsTrue result ↔ (Overlap self.now.v4 v4.now ⊎ Overlap self.now.v6 v6.now) }
    {
        self.v4.overlaps(v4) || self.v6.overlaps(v6)
    }

    /// Whether all addresses are among these, if there are entries for addresses.
    pub(crate) fn has_ip(&self, v4: &ResourceSet, v6: &ResourceSet) -> bool
        ensures { IsTrue result ↔ ((self.now.some_ip ≡ false) ⊎ (Within v4.now self.now.v4 × Within v6.now self.now.v6)) }
    {
        !self.some_ip || v4.is_within(&self.v4) && v6.is_within(&self.v6)
    }

    /// Whether all AS numbers are among these, if there are entries for AS numbers.
    pub(crate) fn has_as(&self, numbers: &ResourceSet) -> bool
        ensures { IsTrue result ↔ ((self.now.some_as ≡ false) ⊎ Within numbers.now self.now.numbers) }
    {
        !self.some_as || numbers.is_within(&self.numbers)
    }
}
