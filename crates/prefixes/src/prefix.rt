//! Prefixes of one family, and of either.
ghost use Rattle.std.specs.Prelude.{◌≡◌, ℕ, ◌-◌, ◌/◌, ◌%◌, ◌^◌, ◌<◌, ◌≤◌, ◌↔◌, IsTrue, IfOk, IsOk, Err};
ghost use Rattle.std.proofs.Common.{rules};
ghost use Rattle.std.specs.Cmp.{partial_order_from_own_ties, partial_order_from_total};
ghost use Rattle.std.specs.Cmp.Rules.{comparing};
ghost use Rattle.std.specs.Ordering.{as_partial_cmp};
ghost use Rattle.prefixes.specs.Address.{Block, HasNoHostBits, IsPrefix, contains};
ghost use Rattle.prefixes.specs.Payload.{block_cmp, prefix_cmp};
ghost use Rattle.prefixes.specs.Orders.{block_total, prefix_total};

use crate::address::Address;
use crate::family::{Family, V4, V6};
use crate::fault::PrefixFault;
use std::cmp::Ordering;
use std::marker::{Model, PhantomData};

/// A prefix of the family `F`: an address and a prefix length. All bits beyond the length are zero (RFC 4632 section 3.1, RFC 4291 section 2.3).
#[derive_where(Clone, Copy, PartialEq, Eq, Hash)]
pub struct Prefix<F: Family> {
    addr: Address,
    len: u8,
    family: PhantomData<F>,
}

impl<F: Family> Model for Prefix<F> {
    ghost use Rattle.std.specs.Prelude.{◌≡◌, ℕ, ◌-◌, ◌^◌, ◌<◌, ◌≤◌};
    ghost use Rattle.prefixes.specs.Address.{Block, IsPrefix};

    ghost Value = { Block };

    ghost view = { λ p. record { addr = p.addr; len = p.len } };

    ghost invariant = { λ p. IsPrefix F.WIDTH (record { addr = p.addr; len = p.len }) };

    ghost inverse = { λ p. record { addr = p.addr; len = p.len; family = record {} } };
}

impl<F: Family> Prefix<F> {
    /// Makes a prefix from an address, as a number below 2^32 (IPv4) or 2^128 (IPv6), and a length in bits.
    /// `TooLong`: the length is greater than the width of the family. `HostBits`: otherwise, a bit beyond the length is set.
    pub fn new(addr: u128, len: u8) -> Result<Self, PrefixFault>
        requires { addr < 2 ^ F.WIDTH }
        ensures ok { IfOk result (λ p. p ≡ record { addr = addr; len = len }) }
        ensures valid { IsOk result ↔ ((len ≤ F.WIDTH) × HasNoHostBits F.WIDTH addr len) }
        ensures too_long { result ≡ Err PrefixFault.TooLong ↔ (F.WIDTH < len) }
        ensures host_bits { result ≡ Err PrefixFault.HostBits ↔ ((len ≤ F.WIDTH) × ¬ (HasNoHostBits F.WIDTH addr len)) }
    {
        if F::WIDTH < len {
            return Err(PrefixFault::TooLong);
        }
        let host = F::WIDTH - len;
        let host_bits = if host == 128 {
            addr
        } else {
            addr % (1u128 << host)
        };
        if host_bits != 0 {
            return Err(PrefixFault::HostBits);
        }
        Ok(Prefix {
            addr: Address::new(addr),
            len,
            family: PhantomData,
        })
    }

    /// The address as a number below 2^32 (IPv4) or 2^128 (IPv6).
    pub fn addr(&self) -> u128
        ensures value { result ≡ self.now.addr }
        ensures prefix { IsPrefix F.WIDTH self.now }
    {
        self.addr.number()
    }

    /// The prefix length in bits: at most 32 for IPv4, at most 128 for IPv6.
    pub fn len(&self) -> u8
        ensures value { result ≡ self.now.len }
        ensures prefix { IsPrefix F.WIDTH self.now }
    {
        self.len
    }

    /// Returns whether this prefix contains every address of `other` (RFC 6811 section 2, "Covered"). A prefix covers itself.
    pub fn covers(&self, other: &Prefix<F>) -> bool
        ensures { result ≡ contains F.WIDTH self.now other.now }
    {
        if other.len < self.len {
            return false;
        }
        let host = F::WIDTH - self.len;
        host == 128 || self.addr() >> host == other.addr() >> host
    }
}

/// Orders prefixes of one family by address, then by length.
impl<F: Family> Ord for Prefix<F> {
    ghost cmp = { block_cmp };

    ghost total = { block_total };

    ghost matches_partial_cmp = { Prim.search (comparing, rules) };

    ghost matches_eq = { Prim.search (comparing, rules) };

    #[inline(always)]
    fn cmp(&self, other: &Prefix<F>) -> Ordering {
        match self.addr().cmp(&other.addr()) {
            Ordering::Equal => self.len.cmp(&other.len),
            unequal => unequal,
        }
    }
}

impl<F: Family> PartialOrd for Prefix<F> {
    ghost partial_cmp = { as_partial_cmp block_cmp };

    ghost laws = { partial_order_from_own_ties (partial_order_from_total block_total) (Prim.search (comparing, rules)) };

    fn partial_cmp(&self, other: &Prefix<F>) -> Option<Ordering> {
        Some(self.cmp(other))
    }
}

/// An IPv4 or IPv6 prefix. IPv4 comes before IPv6. Within a family the order is by address, then by length.
#[derive(Clone, Copy, PartialEq, Eq, Hash)]
pub enum IpPrefix {
    V4(Prefix<V4>),
    V6(Prefix<V6>),
}

impl IpPrefix {
    ghost use Rattle.prefixes.specs.Payload.{block_of, covers, width_of};

    /// Returns whether both prefixes are of one family and this one contains every address of `other` (RFC 6811 section 2, "Covered").
    pub fn covers(&self, other: &IpPrefix) -> bool
        ensures { result ≡ covers self.now other.now }
    {
        match (self, other) {
            (IpPrefix::V4(p), IpPrefix::V4(q)) => p.covers(q),
            (IpPrefix::V6(p), IpPrefix::V6(q)) => p.covers(q),
            _ => false,
        }
    }

    /// The prefix length in bits: at most 32 for IPv4, at most 128 for IPv6.
    pub fn len(&self) -> u8
        ensures value { result ≡ (block_of self.now).len }
        ensures prefix { IsPrefix (width_of self.now) (block_of self.now) }
    {
        match self {
            IpPrefix::V4(p) => p.len(),
            IpPrefix::V6(p) => p.len(),
        }
    }
}

/// Orders prefixes by family (IPv4 first), then by address, then by length.
impl Ord for IpPrefix {
    ghost cmp = { prefix_cmp };

    ghost total = { prefix_total };

    ghost matches_partial_cmp = { Prim.search (comparing, rules) };

    ghost matches_eq = { Prim.search (comparing, rules) };

    #[inline(always)]
    fn cmp(&self, other: &IpPrefix) -> Ordering {
        match (self, other) {
            (IpPrefix::V4(p), IpPrefix::V4(q)) => p.cmp(q),
            (IpPrefix::V6(p), IpPrefix::V6(q)) => p.cmp(q),
            (IpPrefix::V4(_), IpPrefix::V6(_)) => Ordering::Less,
            (IpPrefix::V6(_), IpPrefix::V4(_)) => Ordering::Greater,
        }
    }
}

impl PartialOrd for IpPrefix {
    ghost partial_cmp = { as_partial_cmp prefix_cmp };

    ghost laws = { partial_order_from_own_ties (partial_order_from_total prefix_total) (Prim.search (comparing, rules)) };

    fn partial_cmp(&self, other: &IpPrefix) -> Option<Ordering> {
        Some(self.cmp(other))
    }
}
