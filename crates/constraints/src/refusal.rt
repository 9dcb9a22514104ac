//! Why constraints refuse resources.

use thiserror::Error;

/// Why constraints refuse resources.
#[derive(Clone, Copy, Debug, PartialEq, Eq, Error)]
pub enum ConstraintRefusal {
    /// An entry denies one of the numbers. This is the first such entry of the file, by its line.
    #[error("line {line}: the resources overlap what this entry denies")]
    Denied {
        /// The line of the entry, from 1.
        line: usize,
    },
    /// The file has entries that allow, and these do not allow all of the numbers.
    #[error("the resources are not within what the entries allow")]
    NotAllowed,
}
