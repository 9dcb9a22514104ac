//! Prefixes as a search compares them: by family, address and length.
ghost use Rattle.std.specs.Prelude.{◌≡◌, ℕ, ◌-◌, ◌*◌, ◌≤◌, ◌<◌, ◌^◌, nat_le, nat_lt, ◌==◌};
ghost use Rattle.std.specs.Ordering.{is_le};
ghost use Rattle.prefixes.specs.Address.{first_bits};
ghost use Rattle.prefixes.specs.Payload.{block_cmp, block_of, covers, width_of};
ghost use Rattle.vrps.specs.Keys.{agree, cut, key_prefix, up_to};

use prefixes::IpPrefix;

/// An address of one family, and how many of its first bits count.
#[derive(Clone, Copy, Debug)]
pub(crate) struct Head<A: Copy> {
    pub(crate) addr: A,
    pub(crate) len: u8,
}

/// A prefix, in as few bytes as its family needs.
#[derive(Clone, Copy)]
pub(crate) enum Key {
    V4(Head<u32>),
    V6(Head<u128>),
}

impl Key {
    /// The first bits of a prefix.
    pub(crate) fn cut(prefix: &IpPrefix, len: u8) -> Key
        requires { len ≤ (block_of prefix.now).len }
        ensures { key_prefix result ≡ cut prefix.now len }
    {
        match prefix {
            IpPrefix::V4(p) => Key::V4(Head {
                addr: first_bits(p.addr(), 32, len) as u32,
                len,
            }),
            IpPrefix::V6(p) => Key::V6(Head {
                addr: first_bits(p.addr(), 128, len),
                len,
            }),
        }
    }

    /// How many of the first bits count.
    pub(crate) fn len(&self) -> u8
        ensures { result ≡ (block_of (key_prefix self.now)).len }
    {
        match self {
            Key::V4(head) => head.len,
            Key::V6(head) => head.len,
        }
    }

    /// Whether it is not after the other.
    pub(crate) fn is_up_to(&self, other: &Key) -> bool
        ensures { result ≡ up_to (key_prefix self.now) (key_prefix other.now) }
    {
        match (self, other) {
            (Key::V4(p), Key::V4(q)) => {
                is_block_up_to(u128::from(p.addr), p.len, u128::from(q.addr), q.len)
            }
            (Key::V6(p), Key::V6(q)) => is_block_up_to(p.addr, p.len, q.addr, q.len),
            (Key::V4(_), Key::V6(_)) => true,
            (Key::V6(_), Key::V4(_)) => false,
        }
    }

    /// Whether they are of one family, and each address of the prefix is one of the key.
    pub(crate) fn covers(&self, prefix: &IpPrefix) -> bool
        ensures { result ≡ covers (key_prefix self.now) prefix.now }
    {
        self.len() <= prefix.len() && self.len() < self.shared_lengths(prefix)
    }

    /// How many lengths, from 0 on, a prefix may have that covers both.
    pub(crate) fn shared_lengths(&self, prefix: &IpPrefix) -> u8
        ensures { (len : ℕ) → len ≤ width_of prefix.now → agree (key_prefix self.now) prefix.now len ≡ nat_lt len result }
    {
        match (self, prefix) {
            (Key::V4(p), IpPrefix::V4(q)) => agreeing(u128::from(p.addr), q.addr()) - 96 + 1,
            (Key::V6(p), IpPrefix::V6(q)) => agreeing(p.addr, q.addr()) + 1,
            _ => 0,
        }
    }
}

/// The address without the bits after the first ones.
fn first_bits(addr: u128, width: u8, len: u8) -> u128
    requires len { len ≤ width }
    requires width { width ≤ 128 }
    requires addr { addr < 2 ^ width }
    ensures { result ≡ first_bits width addr len * 2 ^ (width - len) }
{
    let host = width - len;
    if host == 128 {
        return 0;
    }
    addr >> host << host
}

/// Whether the first address and length are not after the second.
fn is_block_up_to(addr: u128, len: u8, other_addr: u128, other_len: u8) -> bool
    ensures { result ≡ is_le (block_cmp (record { addr = addr; len = len }) (record { addr = other_addr; len = other_len })) }
{
    addr < other_addr || addr == other_addr && len <= other_len
}

/// How many of the 128 first bits of two addresses agree.
fn agreeing(a: u128, b: u128) -> u8
    ensures within { result ≤ 128 }
    ensures agree { (len : ℕ) → len ≤ 128 → (first_bits 128 a len == first_bits 128 b len) ≡ nat_le len result }
{
    (a ^ b).leading_zeros() as u8
}
