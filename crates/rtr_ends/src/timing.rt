//! The intervals of an End of Data.
ghost use Rattle.std.specs.Prelude.{◌≡◌, ℕ, ◌≤◌, ◌<◌, ◌↔◌, IfOk, IsOk, Err};
ghost use Rattle.rtr_ends.specs.Timing.{Intervals, InRange, IsTiming, OutlastsOthers, default_intervals, intervals};

use std::marker::Model;
use thiserror::Error;

/// Why `Timing::new` refuses the intervals. The numbers are fixed.
#[derive(Clone, Copy, Debug, PartialEq, Eq, Error)]
pub enum TimingFault {
    /// An interval is out of its range (RFC 8210 section 6).
    #[error("an interval is out of its range (fault 1)")]
    OutOfRange = 1,
    /// The expire interval is not larger than both refresh and retry.
    #[error("the expire interval is not larger than the refresh and the retry interval (fault 2)")]
    ExpireTooSmall = 2,
}

impl TimingFault {
    ghost use Rattle.rtr_ends.specs.Timing.{timing_fault_number};

    /// The number of the fault, as in its printed text: 1 or 2.
    pub fn number(self) -> u8
        ensures { result ≡ timing_fault_number self }
    {
        self as u8
    }
}

/// The refresh, retry and expire intervals that a cache sends its routers, in seconds (RFC 8210 section 6). They say when to query again, when
/// to retry after a failure, and when to drop the committed records.
#[derive(Clone, Copy, Debug, PartialEq, Eq)]
pub struct Timing {
    refresh: u32,
    retry: u32,
    expire: u32,
}

impl Model for Timing {
    ghost use Rattle.rtr_ends.specs.Timing.{Intervals, IsTiming};

    ghost Value = { Intervals };

    ghost view = { λ t. record { refresh = t.refresh; retry = t.retry; expire = t.expire } };

    ghost invariant = { λ t. IsTiming (record { refresh = t.refresh; retry = t.retry; expire = t.expire }) };

    ghost inverse = { λ t. record { refresh = t.refresh; retry = t.retry; expire = t.expire } };
}

impl Timing {
    /// Checks three intervals in seconds. `OutOfRange`: refresh is not from 1 to 86,400, retry not from 1 to 7,200, or expire not from 600 to
    /// 172,800.
    /// `ExpireTooSmall`: all are in range, but expire is not larger than both others. `Ok`: the intervals keep these rules (RFC 8210 section 6).
    pub fn new(refresh: u32, retry: u32, expire: u32) -> Result<Timing, TimingFault>
        ensures ok { IfOk result (λ timing. (timing ≡ intervals refresh retry expire) × IsTiming timing) }
        ensures out_of_range { (result ≡ Err TimingFault.OutOfRange) ↔ (¬ (InRange (intervals refresh retry expire))) }
        ensures expire_too_small { (result ≡ Err TimingFault.ExpireTooSmall)
            ↔ (InRange (intervals refresh retry expire) × ¬ (OutlastsOthers (intervals refresh retry expire))) }
    {
        if refresh < 1 || refresh > 86_400 {
            return Err(TimingFault::OutOfRange);
        }
        if retry < 1 || retry > 7_200 {
            return Err(TimingFault::OutOfRange);
        }
        if expire < 600 || expire > 172_800 {
            return Err(TimingFault::OutOfRange);
        }
        if expire <= refresh || expire <= retry {
            return Err(TimingFault::ExpireTooSmall);
        }
        Ok(Timing {
            refresh,
            retry,
            expire,
        })
    }

    /// The refresh interval in seconds: how long a router waits after a commit before its next query.
    pub fn refresh(&self) -> u32
        ensures value { result ≡ self.now.refresh }
        ensures timing { IsTiming self.now }
    {
        self.refresh
    }

    /// The retry interval in seconds: how long a router waits after a failed query before it tries again.
    pub fn retry(&self) -> u32
        ensures value { result ≡ self.now.retry }
        ensures timing { IsTiming self.now }
    {
        self.retry
    }

    /// The expire interval in seconds: how long a router keeps what it committed if it commits nothing later.
    pub fn expire(&self) -> u32
        ensures value { result ≡ self.now.expire }
        ensures timing { IsTiming self.now }
    {
        self.expire
    }
}

impl Default for Timing {
    ghost is_default = { λ t. t ≡ default_intervals };

    /// The default, in seconds: refresh 3600, retry 600, expire 7200.
    fn default() -> Timing {
        Timing {
            refresh: 3600,
            retry: 600,
            expire: 7200,
        }
    }
}
