//! How many VRPs of each address family a set has.
ghost use Rattle.std.specs.Prelude.{◌≡◌};
ghost use Rattle.rtr_daemon.specs.Families.{families_of, is_ipv4, no_families};

use prefixes::{IpPrefix, Vrp};
use vrps::VrpSet;

/// How many VRPs of each address family a set has.
#[derive(Clone, Copy, Debug, PartialEq, Eq)]
pub(crate) struct Families {
    pub(crate) ipv4: u64,
    pub(crate) ipv6: u64,
}

impl Families {
    /// Those of no set.
    pub(crate) fn none() -> Families
        ensures { result ≡ no_families }
    {
        Families { ipv4: 0, ipv6: 0 }
    }

    /// Of a set, in which all of IPv4 is before all of IPv6.
    pub(crate) fn of(set: &VrpSet) -> Families
        ensures { result ≡ families_of set.now }
    {
        let records = set.as_slice();
        let ipv4 = records.partition_point(|vrp| is_ipv4(vrp));
        Families {
            ipv4: ipv4 as u64,
            ipv6: records.len().saturating_sub(ipv4) as u64,
        }
    }
}

/// Whether a VRP is of IPv4.
fn is_ipv4(vrp: &Vrp) -> bool
    ensures { result ≡ is_ipv4 vrp.now }
{
    matches!(vrp.prefix(), IpPrefix::V4(_))
}
