//! An entry of a file of constraints.

use crate::ConstraintAction;
use resources::{ResourceKind, ResourceRange};

/// An entry of a file of constraints, with its line.
#[derive(Clone, Copy, Debug, PartialEq, Eq)]
pub struct Constraint {
    /// The number of the line, from 1.
    pub line: usize,
    /// Whether the entry allows or denies.
    pub action: ConstraintAction,
    /// What the numbers are: IPv4 addresses, IPv6 addresses, or AS numbers.
    pub kind: ResourceKind,
    /// The numbers.
    pub range: ResourceRange,
}
