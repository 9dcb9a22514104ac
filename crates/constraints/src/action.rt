//! What an entry does.

/// What an entry does with the numbers that it names.
#[derive(Clone, Copy, Debug, PartialEq, Eq)]
pub enum ConstraintAction {
    /// It allows them.
    Allow,
    /// It denies them.
    Deny,
}
