//! What a caller configures of a router.
ghost use Rattle.std.specs.Prelude.{◌≡◌, ◌≤◌};
ghost use Rattle.rtr_ends.specs.Configuration.{default_config, limit_of, own_if};

use crate::timing::Timing;
use vrps::VrpSet;

/// The configuration of a router: its own intervals (RFC 8210 section 6), and the most records that it accepts. If an interval is kept, it
/// replaces the one in an End of Data. An interval that is not kept applies only if no End of Data gave one: in version 0 (RFC 6810), and for
/// retry before the first commit. If only some are kept, expire is not compared with the others: data may expire before they are refreshed.
#[derive(Clone, Copy, Debug, PartialEq, Eq)]
pub struct RouterConfig {
    /// The router's own refresh, retry and expire intervals, in seconds.
    pub intervals: Timing,
    /// `true`: the own refresh interval replaces the one in an End of Data.
    pub keeps_refresh: bool,
    /// `true`: the own retry interval replaces the one in an End of Data.
    pub keeps_retry: bool,
    /// `true`: the own expire interval replaces the one in an End of Data.
    pub keeps_expire: bool,
    /// The most records that the table may have. If an answer exceeds it, the link ends with `End::TooMany`. Values above 16,777,215 count as
    /// 16,777,215.
    pub most: u32,
}

impl RouterConfig {
    /// The most records of a table.
    pub(crate) fn limit(&self) -> usize
        ensures limit { result ≡ limit_of self.now }
        ensures fits { result ≤ 16777215 }
    {
        let most = self.most as usize;
        if VrpSet::LIMIT < most {
            VrpSet::LIMIT
        } else {
            most
        }
    }
}

impl Default for RouterConfig {
    ghost is_default = { λ c. c ≡ default_config };

    /// The default: the intervals of `Timing::default()`, none of them kept, and at most 16,777,215 records.
    fn default() -> RouterConfig {
        RouterConfig {
            intervals: Timing::default(),
            keeps_refresh: false,
            keeps_retry: false,
            keeps_expire: false,
            most: 16_777_215,
        }
    }
}

/// Returns `own`, the router's own interval, if `keeps` is true. Otherwise returns `told`, the interval of an End of Data.
pub fn own_if(keeps: bool, own: u32, told: u32) -> u32
    ensures { result ≡ own_if keeps own told }
{
    if keeps { own } else { told }
}
