//! A law of validations. Nothing here runs.

ghost use Rattle.authority_walk.specs.Hierarchy.{GiveSameDepth, GiveSameVrps};

use crate::reader::Reader;

/// Law: two validations over the same files give the same VRPs, and agree on whether there are deeper authorities. So the answer does not depend on
/// the order of the visits, on the budgets of steps, or on what a reader remembers.
pub fn one_answer<R: Reader>()
    ensures vrps { (files : R.Files) → GiveSameVrps (R.hierarchy files) }
    ensures deeper { (files : R.Files) → GiveSameDepth (R.hierarchy files) }
{}
