//! A range of addresses or of AS numbers.

/// The numbers from `low` to `high`, both included. An address is the number that its bits spell, the highest first.
#[derive(Clone, Copy, Debug, PartialEq, Eq)]
pub struct ResourceRange {
    /// The first number.
    pub low: u128,
    /// The last number.
    pub high: u128,
}
