//! The status of a cache.

use std::net::SocketAddr;

/// The status of a cache at a time. All times are in seconds since 1970.
#[derive(Debug, Drop)]
pub struct Status {
    /// The program's version, as `--version` prints it.
    pub version: &'static str,
    /// The name of the host. `None`: it is not known.
    pub host: Option<String>,
    /// The addresses and ports at which routers connect.
    pub addresses: Vec<SocketAddr>,
    /// The time of the status.
    pub now: u64,
    /// When the program started.
    pub started: u64,
    /// The number of seconds by which the system clock was set back since the start.
    pub clock_behind: u64,
    /// The session in protocol version 1 (RFC 8210 section 5.1).
    pub session: u16,
    /// The session in protocol version 0 (RFC 6810 section 5.1).
    pub session0: u16,
    /// The serial of the served version. `None`: no version is published yet.
    pub serial: Option<u32>,
    /// The number of IPv4 VRPs that are served.
    pub ipv4: u64,
    /// The number of IPv6 VRPs that are served.
    pub ipv6: u64,
    /// The number of VRPs that the sources of the served version give together, before local exceptions are applied.
    pub given: u64,
    /// The number of VRPs of length 0 (for `0.0.0.0/0` or `::/0`) that are left out.
    pub left_out: u64,
    /// The most VRPs that were served at once within the last 24 hours. `None`: nothing is recorded for that time.
    pub peak: Option<VrpPeak>,
    /// The last 64 versions, the oldest first.
    pub changes: Vec<ChangeStatus>,
    /// The watched files and publication points.
    pub files: Vec<FileStatus>,
    /// The maximum age of data, in seconds. Older data count as old. `None`: data never count as old.
    pub max_age: Option<u64>,
    /// The connected clients.
    pub clients: Vec<ClientStatus>,
    /// The most clients that may be connected at once.
    pub client_limit: u64,
    /// The number of clients admitted since the start, whether open or closed.
    pub clients_ever: u64,
    /// The number of clients that were disconnected on arrival since the start, because a limit was reached.
    pub clients_refused: u64,
    /// The last clients that were disconnected on arrival. `None`: there were none.
    pub turned_away: Option<TurnedAway>,
    /// The number of clients that were disconnected since the start, because they accepted no byte for too long.
    pub clients_stalled: u64,
    /// The traffic from all clients since the start.
    pub received: TotalTraffic,
    /// The traffic to all clients since the start.
    pub sent: TotalTraffic,
    /// The Error Report PDUs of closed clients since the start.
    pub error_reports: ErrorReports,
    /// The number of times that a file was loaded since the start.
    pub reloads_taken: u64,
    /// The number of times that a file was refused since the start.
    pub reloads_refused: u64,
    /// The duration of the last load, in milliseconds. `None`: there was no load yet.
    pub reload_milliseconds: Option<u64>,
    /// The number of times that the publication of a version failed since the start.
    pub publications_failed: u64,
    /// Why the last publication failed. `None`: no publication has failed since the last version was published.
    pub publication_failure: Option<PublicationFailure>,
    /// The numbers of log lines that were lost.
    pub log_lines_lost: LostLines,
}

/// The most VRPs that there were at once within some time.
#[derive(Clone, Copy, Debug, PartialEq, Eq)]
pub struct VrpPeak {
    /// The number of VRPs.
    pub vrps: u64,
    /// The last time at which there were as many, in seconds since 1970.
    pub until: u64,
}

/// The limit of the number of clients that was reached.
#[derive(Clone, Copy, Debug, PartialEq, Eq)]
pub enum ClientLimit {
    /// The limit of all clients together.
    All,
    /// The limit of the clients of one IP address.
    OfAddress,
}

/// Clients that were disconnected on arrival. Less than ten minutes lie between one and the next.
#[derive(Clone, Copy, Debug, PartialEq, Eq)]
pub struct TurnedAway {
    /// The number of these clients.
    pub routers: u64,
    /// When the last of them came, in seconds since 1970.
    pub last: u64,
    /// The limit that the last of them met.
    pub limit: ClientLimit,
}

/// Publications of a version that fail.
#[derive(Debug, Drop)]
pub struct PublicationFailure {
    /// Since when publications fail, in seconds since 1970.
    pub since: u64,
    /// Why the last publication failed.
    pub reason: String,
}

/// The numbers of lines that the log lost since the start.
#[derive(Clone, Copy, Debug, PartialEq, Eq)]
pub struct LostLines {
    /// The number of lines for which standard error had no room.
    pub dropped: u64,
    /// The number of lines about clients that the rate limit suppressed.
    pub suppressed: u64,
}

/// A published version.
#[derive(Clone, Copy, Debug, PartialEq, Eq)]
pub struct ChangeStatus {
    /// The serial of the version.
    pub serial: u32,
    /// When it was published, in seconds since 1970.
    pub at: u64,
    /// The number of VRPs that the version announced.
    pub announced: u64,
    /// The number of VRPs that the version withdrew.
    pub withdrawn: u64,
    /// The number of VRPs of the version.
    pub records: u64,
}

/// The status of a watched file or publication point. All times are in seconds since 1970.
#[derive(Debug, Drop)]
pub struct FileStatus {
    /// Its path.
    pub path: String,
    /// When the loaded data were made. This is the time that the data state, or else the modification time of the file. `None`: not known.
    pub built: Option<u64>,
    /// When it was last loaded. `None`: never.
    pub taken: Option<u64>,
    /// Why it was refused last. `None`: it was not refused, or was loaded since.
    pub refusal: Option<String>,
    /// Since when it is refused. `None`: it is not refused.
    pub refused_at: Option<u64>,
    /// Whether the loaded data are older than the maximum age.
    pub is_old: bool,
    /// The number of its entries that have expired.
    pub expired: u64,
    /// The number of VRPs that it gives now. `None`: not known.
    pub vrps: Option<u64>,
    /// The trust anchors of its VRPs, each once. Those of the last 24 hours that have vanished are in it too. At most 32 are in it now.
    pub anchors: Vec<AnchorStatus>,
    /// The numbers of its entries that are not served. `None`: it is a publication point, or was not loaded.
    pub ignored: Option<IgnoredEntries>,
    /// The last call on the file that lasted longer than five seconds. `None`: there was none.
    pub slow: Option<SlowCall>,
    /// The size of the file in bytes when it was loaded last. `None`: it is at most three quarters of the maximum size, or was not loaded.
    pub near_limit: Option<u64>,
}

/// A trust anchor of a file: the value of `ta` of its VRPs.
#[derive(Debug, Drop)]
pub struct AnchorStatus {
    /// The name of the trust anchor, such as `ripe`. It is not empty.
    pub name: String,
    /// The number of VRPs of the file that have it now. A trust anchor that has vanished has 0.
    pub vrps: u64,
    /// The most VRPs that had it in an earlier load of the file within the last 24 hours. `None`: no such load.
    pub peak: Option<VrpPeak>,
}

/// A slow call on a file: a single stat, open or read.
#[derive(Clone, Copy, Debug, PartialEq, Eq)]
pub struct SlowCall {
    /// The duration of the call, in milliseconds.
    pub milliseconds: u64,
    /// When the call ended, in seconds since 1970.
    pub at: u64,
}

/// The numbers of entries of a file that are not served. Only the VRPs of ROAs are served.
#[derive(Clone, Copy, Debug, PartialEq, Eq)]
pub enum IgnoredEntries {
    /// The entries of an export.
    Export {
        /// ASPAs.
        aspas: u64,
        /// Router keys (RFC 8635).
        router_keys: u64,
    },
    /// The entries of a SLURM file.
    Slurm {
        /// Filters on BGPsec (RFC 8416 section 3.3.2).
        bgpsec_filters: u64,
        /// Assertions on BGPsec (section 3.4.2).
        bgpsec_assertions: u64,
    },
}

/// A connected client.
#[derive(Clone, Copy, Debug, PartialEq, Eq)]
pub struct ClientStatus {
    /// Its address and port.
    pub address: SocketAddr,
    /// Its protocol version, 0 or 1. `None`: it has sent no PDU yet.
    pub version: Option<u8>,
    /// The serial of the last End of Data that was sent to it. `None`: none was sent.
    pub serial: Option<u32>,
    /// When it connected, in seconds since 1970.
    pub since: u64,
    /// The traffic from it.
    pub received: ClientTraffic,
    /// The traffic to it.
    pub sent: ClientTraffic,
}

/// The numbers of Error Report PDUs by error code: the last one of each closed client in each direction.
#[derive(Clone, Copy, Debug, PartialEq, Eq)]
pub struct ErrorReports {
    /// The Error Reports that clients sent.
    pub received: ReportsByCode,
    /// The Error Reports that were sent to clients.
    pub sent: ReportsByCode,
}

impl ErrorReports {
    /// No Error Report.
    pub const NONE: ErrorReports = ErrorReports {
        received: ReportsByCode::NONE,
        sent: ReportsByCode::NONE,
    };
}

/// The numbers of Error Reports by error code (RFC 8210 section 12).
#[derive(Clone, Copy, Debug, PartialEq, Eq)]
pub struct ReportsByCode {
    /// The numbers for the codes from 0 to 8, by code.
    pub known: [u64; 9],
    /// The number for all other codes.
    pub others: u64,
}

impl ReportsByCode {
    /// None of any code.
    pub const NONE: ReportsByCode = ReportsByCode {
        known: [0; 9],
        others: 0,
    };
}

/// The traffic of one connection in one direction.
#[derive(Clone, Copy, Debug, PartialEq, Eq)]
pub struct ClientTraffic {
    /// How many bytes.
    pub bytes: u64,
    /// How many PDUs.
    pub pdus: u64,
}

/// The traffic of all connections in one direction.
#[derive(Clone, Copy, Debug, PartialEq, Eq)]
pub struct TotalTraffic {
    /// How many bytes.
    pub bytes: u64,
    /// How many PDUs of each type.
    pub pdus: PdusByType,
}

/// How many PDUs of each type (RFC 8210 section 5).
#[derive(Clone, Copy, Debug, PartialEq, Eq)]
pub struct PdusByType {
    pub serial_notify: u64,
    pub serial_query: u64,
    pub reset_query: u64,
    pub cache_response: u64,
    pub ipv4_prefix: u64,
    pub ipv6_prefix: u64,
    pub end_of_data: u64,
    pub cache_reset: u64,
    pub router_key: u64,
    pub error_report: u64,
}
