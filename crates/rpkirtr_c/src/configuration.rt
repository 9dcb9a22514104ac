//! The configuration of a router as C has it.
ghost use Rattle.std.specs.Prelude.{◌≡◌, IfOk, IfErr};
ghost use Rattle.rpkirtr_c.specs.Answers.{number};
ghost use Rattle.rpkirtr_c.specs.Configurations.{IsConfigFault, IsConfigTold, IsValid, config_number, config_of, config_status, told_config};

use crate::call_status::CallStatus;
use rtr_ends::{RouterConfig, Timing, TimingFault};

/// The size of a configuration, in bytes.
pub(crate) const CONFIG_SIZE: u32 = 24;

/// What a caller configures of a router: its own intervals, in seconds, which of them it keeps, and the most records. A byte is 0 for no, and
/// any other for yes. `size_` is the size of the structure, and `zero_` is 0.
#[repr(C)]
#[derive(Clone, Copy, Debug)]
pub struct CConfig {
    pub size_: u32,
    pub refresh: u32,
    pub retry: u32,
    pub expire: u32,
    pub most: u32,
    pub keeps_refresh: u8,
    pub keeps_retry: u8,
    pub keeps_expire: u8,
    pub zero_: u8,
}

/// Why a configuration is refused.
#[derive(Clone, Copy, Debug, PartialEq, Eq)]
pub(crate) enum ConfigFault {
    /// The structure has another size, or padding that is not zero.
    Structure,
    /// The router may hold no record.
    NoRoom,
    /// The intervals are not valid.
    Intervals(TimingFault),
}

impl ConfigFault {
    /// What a call answers of it.
    pub(crate) fn status(self) -> CallStatus
        ensures { result ≡ config_status self }
    {
        match self {
            ConfigFault::Structure => CallStatus::BadStructure,
            ConfigFault::NoRoom => CallStatus::OutOfRange,
            ConfigFault::Intervals(_) => CallStatus::BadTiming,
        }
    }

    /// The number of what is at fault in the intervals: 0 if they are not at fault.
    pub(crate) fn number(self) -> u32
        ensures { result ≡ config_number self }
    {
        match self {
            ConfigFault::Structure => 0,
            ConfigFault::NoRoom => 0,
            ConfigFault::Intervals(fault) => u32::from(fault.number()),
        }
    }
}

/// The configuration of a router, or why there is none. The structure is judged first, then how many records the router may hold.
pub(crate) fn config_of(config: &CConfig) -> Result<RouterConfig, ConfigFault>
    ensures ok { IfOk result (λ own. IsValid config.now × (own ≡ config_of config.now)) }
    ensures err { IfErr result (IsConfigFault config.now) }
{
    if config.size_ != CONFIG_SIZE || config.zero_ != 0 {
        return Err(ConfigFault::Structure);
    }
    if config.most == 0 {
        return Err(ConfigFault::NoRoom);
    }
    match Timing::new(config.refresh, config.retry, config.expire) {
        Err(fault) => Err(ConfigFault::Intervals(fault)),
        Ok(intervals) => Ok(RouterConfig {
            intervals,
            keeps_refresh: config.keeps_refresh != 0,
            keeps_retry: config.keeps_retry != 0,
            keeps_expire: config.keeps_expire != 0,
            most: config.most,
        }),
    }
}

/// A configuration as C has it.
pub(crate) fn told_config(config: &RouterConfig) -> CConfig
    ensures { result ≡ told_config config.now }
{
    CConfig {
        size_: CONFIG_SIZE,
        refresh: config.intervals.refresh(),
        retry: config.intervals.retry(),
        expire: config.intervals.expire(),
        most: config.most,
        keeps_refresh: u8::from(config.keeps_refresh),
        keeps_retry: u8::from(config.keeps_retry),
        keeps_expire: u8::from(config.keeps_expire),
        zero_: 0,
    }
}

/// Writes a configuration, if the structure has the size of this header.
pub(crate) fn tell_config(config: &RouterConfig, out: &mut CConfig) -> CallStatus
    ensures { IsConfigTold config.now (number result) out.old out.new }
{
    if out.size_ != CONFIG_SIZE {
        return CallStatus::BadStructure;
    }
    *out = told_config(config);
    CallStatus::Done
}
