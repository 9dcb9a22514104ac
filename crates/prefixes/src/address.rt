//! Addresses in few bytes.
ghost use Rattle.std.specs.Prelude.{◌≡◌, ◌==◌};
ghost use Rattle.std.proofs.Common.{rules};
ghost use Rattle.std.specs.Cmp.{partial_order_from_own_ties};
ghost use Rattle.std.specs.Cmp.Rules.{comparing, hashing};
ghost use Rattle.std.specs.Ordering.{nat_cmp, as_partial_cmp};
ghost use Rattle.std.specs.Hash as fed;

use std::cmp::Ordering;
use std::hash::{Hash, Hasher};
use std::marker::Model;

/// An address, as a number below 2 to the 128. It lies in bytes, the lowest of each half first: bytes may lie anywhere, so whatever holds
/// an address has no gaps.
#[derive(Clone, Copy)]
pub(crate) struct Address {
    high: [u8; 8],
    low: [u8; 8],
}

impl Model for Address {
    ghost use Rattle.std.specs.Prelude.{ℕ, ◌/◌, ◌%◌, ◌^◌};
    ghost use Rattle.std.specs.Int.{w64, to_le_bytes};
    ghost use Rattle.prefixes.specs.Halves.{AreEight, number_of, high_again, low_again};

    ghost Value = { ℕ };

    ghost view = { λ a. number_of a.high a.low };

    ghost invariant = { λ a. AreEight a.high × AreEight a.low };

    ghost inverse = { λ n. record { high = to_le_bytes w64 (n / 2 ^ 64); low = to_le_bytes w64 (n % 2 ^ 64) } };

    ghost inverse_ok = { λ a h i. record { high = high_again a.high a.low h.0 h.1 i; low = low_again a.high a.low h.1 i } };
}

impl Address {
    /// The address of this number.
    pub(crate) fn new(number: u128) -> Address
        ensures { result ≡ number }
    {
        Address {
            high: ((number / 0x1_0000_0000_0000_0000) as u64).to_le_bytes(),
            low: ((number % 0x1_0000_0000_0000_0000) as u64).to_le_bytes(),
        }
    }

    /// The number.
    pub(crate) fn number(&self) -> u128
        ensures { result ≡ self.now }
    {
        let high = u64::from_le_bytes(self.high);
        let low = u64::from_le_bytes(self.low);
        u128::from(high) * 0x1_0000_0000_0000_0000 + u128::from(low)
    }
}

impl PartialEq for Address {
    ghost eq = { ◌==◌ };

    ghost laws = { Prim.search (comparing, rules) };

    fn eq(&self, other: &Address) -> bool {
        self.number() == other.number()
    }
}

impl Eq for Address {
    ghost laws = { Prim.search (comparing, rules) };
}

impl Ord for Address {
    ghost cmp = { nat_cmp };

    ghost total = { Prim.search (comparing, rules) };

    ghost matches_partial_cmp = { Prim.search (comparing, rules) };

    ghost matches_eq = { Prim.search (comparing, rules) };

    fn cmp(&self, other: &Address) -> Ordering {
        self.number().cmp(&other.number())
    }
}

impl PartialOrd for Address {
    ghost partial_cmp = { as_partial_cmp nat_cmp };

    ghost laws = { partial_order_from_own_ties (Prim.search (comparing, rules)) (Prim.search (comparing, rules)) };

    fn partial_cmp(&self, other: &Address) -> Option<Ordering> {
        Some(self.cmp(other))
    }
}

impl Hash for Address {
    ghost hash_input = { fed.u128 };

    ghost respects_eq = { Prim.search (hashing, rules) };

    fn hash<H: Hasher>(&self, state: &mut H) {
        self.number().hash(state);
    }
}
