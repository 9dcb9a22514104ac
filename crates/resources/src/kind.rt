//! What is numbered.

/// What the numbers of a range are.
#[derive(Clone, Copy, Debug, PartialEq, Eq)]
pub enum ResourceKind {
    /// IPv4 addresses, of 32 bits.
    Ipv4,
    /// IPv6 addresses, of 128 bits.
    Ipv6,
    /// AS numbers, of 32 bits.
    As,
}
