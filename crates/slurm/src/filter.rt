//! Filters of records, and exceptions as a whole.
ghost use Rattle.std.specs.Prelude.{◌≡◌};

use prefixes::{Asn, IpPrefix, Vrp};
use vrps::VrpSet;

/// A prefix filter (RFC 8416 section 3.3.1). It matches a VRP if both of its conditions hold.
/// - If it has a prefix, the VRP's prefix is equal to it or covered by it.
/// - If it has an AS, the VRP has this AS.
#[derive(Clone, Copy, Debug, PartialEq, Eq)]
pub struct PrefixFilter {
    /// The prefix that matches, together with all prefixes that it covers. `None`: every prefix matches.
    pub prefix: Option<IpPrefix>,
    /// The AS that matches. `None`: every AS matches.
    pub asn: Option<Asn>,
}

impl PrefixFilter {
    ghost use Rattle.slurm.specs.Exceptions.{is_of_as, is_within, matches};

    /// Returns whether the filter matches the VRP. If the filter has a prefix, that must equal or cover the VRP's prefix. If it has an AS, that must
    /// be the AS of the VRP. A filter with both needs both. A filter with neither matches every VRP.
    pub fn matches(&self, vrp: &Vrp) -> bool
        ensures { result ≡ matches self.now vrp.now }
    {
        self.reaches(&vrp.prefix()) && self.is_of_as(vrp.asn())
    }

    /// Whether the prefix is the filter's, if it has one, or is covered by it.
    fn reaches(&self, prefix: &IpPrefix) -> bool
        ensures { result ≡ is_within self.now.prefix prefix.now }
    {
        match &self.prefix {
            Some(covering) => covering.covers(prefix),
            None => true,
        }
    }

    /// Whether the AS is the filter's, if it has one.
    fn is_of_as(&self, asn: Asn) -> bool
        ensures { result ≡ is_of_as self.now.asn asn.0 }
    {
        match self.asn {
            Some(other) => other.0 == asn.0,
            None => true,
        }
    }
}

/// Local exceptions. [`apply`](crate::apply) removes the VRPs that a filter matches, and adds the assertions. Filters do not act on the
/// assertions.
#[derive(Debug, Drop)]
pub struct Slurm {
    /// The prefix filters, in the order of the file.
    pub filters: Vec<PrefixFilter>,
    /// The prefix assertions as VRPs (RFC 8416 section 3.4.1).
    pub assertions: VrpSet,
}
