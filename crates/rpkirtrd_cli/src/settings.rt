//! The settings of a run.
ghost use Rattle.std.specs.Prelude.{◌≡◌, ◌≤◌, ◌+◌, true, IsSome, vec_len};
ghost use Rattle.rpkirtrd_cli.specs.Bounds.{is_within};

use event_log::{LogFormat, LogLevel};
use rtr_ends::Timing;
use std::net::SocketAddr;

/// The settings of a run of the daemon. At least one of `vrps` and `points` is not empty.
#[derive(Debug, Drop)]
pub struct Settings {
    /// The paths of the exports of validators, and of payload lists.
    pub vrps: Vec<String>,
    /// The paths of the directories that are publication points.
    pub points: Vec<String>,
    /// The paths of the files with local exceptions (SLURM, RFC 8416). They are applied together.
    pub slurm: Vec<String>,
    /// The listening addresses for routers, at least one.
    pub listen: Vec<SocketAddr>,
    /// The session in protocol version 1. `None`: the daemon chooses it at the start.
    pub session: Option<u16>,
    /// The session in protocol version 0. `None`: the daemon chooses it at the start.
    pub session0: Option<u16>,
    /// The serial of the first version. `None`: the daemon chooses it at the start.
    pub start: Option<u32>,
    /// How many versions before the current one are kept, 1 to 65,536. A router that has one of them is sent only the changes.
    pub keep: u32,
    /// The refresh, retry and expire intervals that are sent to routers (RFC 8210 section 6).
    pub timing: Timing,
    /// The seconds between two polls of the files.
    pub check: u32,
    /// The maximum age of an export in seconds. An older one is reported. `None`: no export is too old.
    pub max_age: Option<u64>,
    /// Whether the daemon stops as soon as an export is older than `max_age`.
    pub stop_when_old: bool,
    /// The largest size in bytes of a file that is read. A larger one is refused.
    pub max_size: u64,
    /// How many percent of its records a changed export may lose, 1 to 99. If it lost more, it is refused. `None`: no limit.
    pub max_shrink: Option<u8>,
    /// For how many seconds an export is refused that lost more than `max_shrink`. Then it is loaded.
    pub shrink_hold: u32,
    /// Whether records for 0.0.0.0/0 and ::/0 are left out.
    pub leave_out_length_0: bool,
    /// How many routers may be connected at once. The process's descriptor limit may allow fewer.
    pub clients: usize,
    /// How many routers may be connected at once from one address. `None`: no such limit.
    pub clients_per_address: Option<u64>,
    /// After how many seconds without progress a client that is blocked on writing is closed.
    pub stall: u32,
    /// How many seconds after a query its client is closed, if it has not accepted the whole answer by then: 60 to 86,400.
    pub slow: u32,
    /// The address of the status pages. `None`: there are no status pages.
    pub status: Option<SocketAddr>,
    /// The host name by which clients may call the status pages, besides addresses and localhost. `None`: no such name.
    pub status_name: Option<String>,
    /// The format of the log.
    pub log: LogFormat,
    /// The least severe level that is logged.
    pub log_level: LogLevel,
    /// Whether the daemon stops when the first client is closed.
    pub once: bool,
    /// Whether the configuration is only checked. Then nothing is served.
    pub check_config: bool,

    // Every run has at least one source and at least one address, and its numbers are in range.
    ghost has_source: { 1 ≤ vec_len vrps + vec_len points },
    ghost listens: { 1 ≤ vec_len listen },
    ghost keeps_from: { 1 ≤ keep },
    ghost keeps_to: { keep ≤ 65536 },
    ghost looks: { 1 ≤ check },
    ghost reads: { 1 ≤ max_size },
    ghost reads_to: { max_size ≤ 1099511627776 },
    ghost shrinks_within: { is_within 1 99 max_shrink ≡ true },
    ghost holds_from: { 60 ≤ shrink_hold },
    ghost holds_to: { shrink_hold ≤ 31536000 },
    ghost serves: { 1 ≤ clients },
    ghost serves_to: { clients ≤ 4294967295 },
    ghost waits: { 1 ≤ stall },
    ghost slow_from: { 60 ≤ slow },
    ghost slow_to: { slow ≤ 86400 },
    ghost names: { IsSome status_name → IsSome status },
    ghost ages: { stop_when_old ≡ true → IsSome max_age },
    ghost ages_within: { is_within 1 4294967295 max_age ≡ true },
    ghost shares_within: { is_within 1 4294967295 clients_per_address ≡ true },
}
