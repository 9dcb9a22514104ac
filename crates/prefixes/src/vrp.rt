//! Validated ROA payloads.
ghost use Rattle.std.specs.Prelude.{◌≡◌, ℕ, ◌-◌, ◌/◌, ◌%◌, ◌^◌, ◌<◌, ◌≤◌, ◌↔◌, IsTrue, IfOk, IsOk, OnErr, Err};
ghost use Rattle.std.proofs.Common.{rules};
ghost use Rattle.std.specs.Cmp.{partial_order_from_own_ties, partial_order_from_total};
ghost use Rattle.std.specs.Cmp.Rules.{comparing};
ghost use Rattle.std.specs.Ordering.{as_partial_cmp};
ghost use Rattle.prefixes.specs.Payload.{Payload, IsPayload, width_of, block_of, vrp_cmp};
ghost use Rattle.prefixes.specs.Orders.{vrp_total};

use crate::asn::Asn;
use crate::fault::PrefixFault;
use crate::prefix::IpPrefix;
use std::cmp::Ordering;
use std::marker::Model;
use std::mem::size_of;

/// A validated ROA payload (VRP): the AS may originate the prefix, and its more specific prefixes up to the maximum length (RFC 6811 section 2).
/// VRPs are ordered by family, address, prefix length, maximum length, AS number.
#[derive(Clone, Copy, Debug, PartialEq, Eq, Hash)]
pub struct Vrp {
    prefix: IpPrefix,
    max_len: u8,
    asn: Asn,
}

// Sets and B-trees are made of records; their time is linear in the size of these.
const _: () = prove!(size_of::<Vrp>() == 24);

impl Model for Vrp {
    ghost use Rattle.prefixes.specs.Payload.{Payload, IsPayload};

    ghost Value = { Payload };

    ghost view = { λ v. record { prefix = v.prefix; max_len = v.max_len; asn = v.asn.0 } };

    ghost invariant = { λ v. IsPayload (record { prefix = v.prefix; max_len = v.max_len; asn = v.asn.0 }) };

    ghost inverse = { λ v. record { prefix = v.prefix; max_len = v.max_len; asn = record { 0 = v.asn } } };
}

impl Vrp {
    /// Makes a VRP. `max_len` is in bits.
    /// `MaxLength`: `max_len` is below the length of `prefix`, or over 32 (IPv4) or 128 (IPv6). It is the only error.
    pub fn new(prefix: IpPrefix, max_len: u8, asn: Asn) -> Result<Self, PrefixFault>
        ensures ok { IfOk result (λ v. v ≡ record { prefix = prefix; max_len = max_len; asn = asn.0 }) }
        ensures valid { IsOk result ↔ (((block_of prefix).len ≤ max_len) × (max_len ≤ width_of prefix)) }
        ensures only { OnErr result (result ≡ Err PrefixFault.MaxLength) }
    {
        let (len, width) = match prefix {
            IpPrefix::V4(p) => (p.len(), 32),
            IpPrefix::V6(p) => (p.len(), 128),
        };
        if max_len < len || width < max_len {
            return Err(PrefixFault::MaxLength);
        }
        Ok(Vrp {
            prefix,
            max_len,
            asn,
        })
    }

    /// The prefix of the VRP.
    pub fn prefix(&self) -> IpPrefix
        ensures value { result ≡ self.now.prefix }
        ensures payload { IsPayload self.now }
    {
        self.prefix
    }

    /// The maximum length in bits: the greatest length of a prefix that the AS may originate.
    pub fn max_len(&self) -> u8
        ensures value { result ≡ self.now.max_len }
        ensures payload { IsPayload self.now }
    {
        self.max_len
    }

    /// The AS that may originate the prefix. AS 0: no route matches this VRP (RFC 6483 section 4). Another VRP may still match the route.
    pub fn asn(&self) -> Asn
        ensures value { result.0 ≡ self.now.asn }
        ensures payload { IsPayload self.now }
    {
        self.asn
    }
}

/// Orders VRPs by family (IPv4 first), address, prefix length, maximum length, AS number. Sets list VRPs in this order. The function is inlined,
/// since walks over sets spend most of their time in it.
impl Ord for Vrp {
    ghost cmp = { vrp_cmp };

    ghost total = { vrp_total };

    ghost matches_partial_cmp = { Prim.search (comparing, rules) };

    ghost matches_eq = { Prim.search (comparing, rules) };

    #[inline(always)]
    fn cmp(&self, other: &Vrp) -> Ordering {
        match self.prefix.cmp(&other.prefix) {
            Ordering::Equal => self
                .max_len
                .cmp(&other.max_len)
                .then(self.asn.0.cmp(&other.asn.0)),
            unequal => unequal,
        }
    }
}

impl PartialOrd for Vrp {
    ghost partial_cmp = { as_partial_cmp vrp_cmp };

    ghost laws = { partial_order_from_own_ties (partial_order_from_total vrp_total) (Prim.search (comparing, rules)) };

    fn partial_cmp(&self, other: &Vrp) -> Option<Ordering> {
        Some(self.cmp(other))
    }
}
