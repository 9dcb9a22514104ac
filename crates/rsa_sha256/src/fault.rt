//! What can be wrong with a modulus.
use thiserror::Error;

/// Why octets are not the modulus of a key. The first fault in this order is reported.
/// Each kind has a fixed number, with which its error text ends.
#[derive(Clone, Copy, Debug, PartialEq, Eq, Error)]
pub enum ModulusFault {
    /// 1: the modulus has fewer than 256 or more than 512 octets (2,048 to 4,096 bits).
    #[error("the modulus does not have 2048 to 4096 bits (fault 1)")]
    Length,
    /// 2: the first bit of the modulus is 0.
    #[error("the first bit of the modulus is 0 (fault 2)")]
    TopBit,
    /// 3: the modulus is even, so it is not a product of odd primes (RFC 8017 section 3.1).
    #[error("the modulus is even (fault 3)")]
    Even,
}
