//! Which of several certificates counts that are anchors of one key.

ghost use Rattle.std.specs.Prelude.{◌≡◌, ◌↔◌, IsTrue, [], MatchOption};
ghost use Rattle.der_lite.specs.Moments.{moment_before};
ghost use Rattle.trust_anchors.specs.Choice.{IsBetter, IsChosen};

use der_lite::Moment;
use std::marker::Model;

/// The time of a certificate (RFC 5280 section 4.1.2.5).
#[derive(Debug, Drop)]
pub struct AnchorValidity {
    /// When it begins.
    pub not_before: Moment,
    /// When it ends.
    pub not_after: Moment,
}

impl Model for AnchorValidity {
    ghost use Rattle.trust_anchors.specs.Choice.{Times};

    ghost Value = { Times };

    ghost view = { λ v. (v.not_before, v.not_after) };
}

/// Whether one moment is before another.
#[tactic(auto, unfolding(der_lite::specs::Moments::moment_before))]
pub(crate) fn is_before(one: &Moment, other: &Moment) -> bool
    ensures { result ≡ moment_before one.now other.now }
{
    one < other
}

impl AnchorValidity {
    /// Whether this time is better, of two certificates that are trust anchors of one key: it begins later, or both begin at once and it ends
    /// earlier.
    pub fn is_better(&self, other: &AnchorValidity) -> bool
        ensures { IsTrue result ↔ IsBetter self.now other.now }
    {
        if is_before(&other.not_before, &self.not_before) {
            return true;
        }
        if is_before(&self.not_before, &other.not_before) {
            return false;
        }
        is_before(&self.not_after, &other.not_after)
    }
}

/// Chooses among certificates that are trust anchors of one key: the place of the first than which none is better. `None`: there are none.
pub fn choose(validities: &[AnchorValidity]) -> Option<usize>
    ensures { MatchOption result (validities.now ≡ []) (λ place. IsChosen validities.now place) }
{
    if validities.is_empty() {
        return None;
    }
    let mut best = 0;
    for at in 1..validities.len() {
        if validities[at].is_better(&validities[best]) {
            best = at;
        }
    }
    Some(best)
}
