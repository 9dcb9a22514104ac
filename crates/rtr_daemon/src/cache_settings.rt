//! The settings of a cache.
ghost use Rattle.std.specs.Prelude.{◌≡◌, ◌*◌};

use rtr_ends::Timing;

/// The settings of a daemon's cache. The daemon uses them at its start, and again if it drops all versions.
#[derive(Clone, Copy, Debug, PartialEq, Eq)]
pub struct CacheSettings {
    /// The number of versions before the current one that are kept: 1 to 65,536. A value outside is replaced by the nearest of these.
    pub keep: u32,
    /// The Refresh, Retry and Expire Intervals that the cache sends to routers (RFC 8210 section 6).
    pub timing: Timing,
    /// The largest number of clients at once.
    pub clients: usize,
}

impl CacheSettings {
    /// For how long publication may fail until the versions are dropped: the Expire Interval (RFC 8210 section 6), in milliseconds.
    pub(crate) fn expire_millis(&self) -> u64
        ensures { result ≡ self.now.timing.expire * 1000 }
    {
        u64::from(self.timing.expire()) * 1000
    }
}
