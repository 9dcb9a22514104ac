//! Which entry denies resources.

ghost use Rattle.std.specs.Prelude.{◌≡◌, ◌↔◌, ℕ, IsTrue, [], ◌∷◌};
ghost use Rattle.resources.specs.Ranges.{IsIn, Overlap};
ghost use Rattle.constraints.specs.Judging.{Denies, FirstDenial};
ghost use Rattle.constraints.specs.Parts.{sets_of};

use crate::gathered::same_action;
use crate::{Constraint, ConstraintAction};
use resources::{ResourceKind, ResourceRange};

/// What is judged: ranges of each kind.
#[derive(Clone, Copy)]
pub(crate) struct Judged<'a> {
    pub(crate) v4: &'a [ResourceRange],
    pub(crate) v6: &'a [ResourceRange],
    pub(crate) numbers: &'a [ResourceRange],
}

/// Whether two ranges have a number in common.
fn share(range: &ResourceRange, other: &ResourceRange) -> bool
    ensures { IsTrue result ↔ ((n : ℕ) × IsIn range.now n × IsIn other.now n) }
{
    if range.high < range.low {
        return false;
    }
    if other.high < other.low {
        return false;
    }
    if range.high < other.low {
        return false;
    }
    range.low <= other.high
}

/// Whether a range and others have a number in common.
fn meets(range: &ResourceRange, others: &[ResourceRange]) -> bool
    ensures { IsTrue result ↔ Overlap (range.now ∷ []) others.now }
{
    let mut rest = others;
    while let [first, more @ ..] = rest {
        if share(range, first) {
            return true;
        }
        rest = more;
    }
    false
}

/// Whether an entry denies a number of what is judged.
fn denies(entry: &Constraint, judged: Judged) -> bool
    ensures { IsTrue result ↔ Denies (sets_of judged.entry) entry.now }
{
    if !same_action(entry.action, ConstraintAction::Deny) {
        return false;
    }
    match entry.kind {
        ResourceKind::Ipv4 => meets(&entry.range, judged.v4),
        ResourceKind::Ipv6 => meets(&entry.range, judged.v6),
        ResourceKind::As => meets(&entry.range, judged.numbers),
    }
}

/// The line of the first entry that denies.
pub(crate) fn first_denial(entries: &[Constraint], judged: Judged) -> Option<usize>
    ensures { FirstDenial (sets_of judged.entry) entries.now result }
{
    let mut rest = entries;
    while let [first, more @ ..] = rest {
        if denies(first, judged) {
            return Some(first.line);
        }
        rest = more;
    }
    None
}
