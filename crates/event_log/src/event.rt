//! The events of the log.
use session_names::SessionIds;
use std::net::SocketAddr;

/// Why a client was closed, and its counters.
#[derive(Clone, Copy, Debug, PartialEq, Eq)]
pub struct ClientClosed<'a> {
    /// The client's address and port.
    pub address: SocketAddr,
    /// Why it was closed, in a few words.
    pub why: &'a str,
    /// The client's protocol version, 0 or 1, or `None` if it sent no whole header.
    pub version: Option<u8>,
    /// How many bytes were read from it.
    pub read: u64,
    /// How many bytes were written to it.
    pub written: u64,
    /// How many seconds it was connected.
    pub seconds: u64,
}

/// An Error Report (RFC 8210 section 5.11) between the daemon and a client.
#[derive(Clone, Copy, Debug, PartialEq, Eq)]
pub struct PeerReport<'a> {
    /// The client's address and port.
    pub address: SocketAddr,
    /// Whether the client sent the report. If not, the daemon sent it to the client.
    pub is_received: bool,
    /// The error code (RFC 8210 section 12).
    pub code: u16,
    /// The text of the report, or its start.
    pub text: &'a str,
}

/// The counters of a published version.
#[derive(Clone, Copy, Debug, PartialEq, Eq)]
pub struct Publication {
    /// The session in protocol version 1.
    pub session: u16,
    /// The version's serial.
    pub serial: u32,
    /// How many records the version announces.
    pub announced: u64,
    /// How many records the version withdraws.
    pub withdrawn: u64,
    /// How many records the version has in all.
    pub records: u64,
    /// The duration of the publication in milliseconds.
    pub milliseconds: u64,
}

/// An event. Each event is one log line: a word, and values under keys.
#[derive(Clone, Copy, Debug, PartialEq, Eq)]
pub enum LogEvent<'a> {
    /// `started`: the daemon starts, with these session ids and this first serial.
    Started(SessionIds),
    /// `limited`: the system's limit of descriptors allows fewer clients than the settings.
    Limited {
        /// How many clients there may be at once.
        clients: u64,
    },
    /// `listening`: a listener for routers is open at an address.
    Listening {
        /// The address and the port.
        address: SocketAddr,
    },
    /// `status`: the status pages are at an address.
    Status {
        /// The address and the port.
        address: SocketAddr,
    },
    /// `ready`: the first version is published.
    Ready,
    /// `client-came`: a client has connected.
    ClientCame {
        /// The client's address and port.
        address: SocketAddr,
    },
    /// `client-gone`: a client was closed.
    ClientGone(ClientClosed<'a>),
    /// `error-report`: a client that was closed had sent or received an Error Report.
    ErrorReport(PeerReport<'a>),
    /// `error-report`: a client was closed, because it asked in a protocol version that is not served.
    /// It was sent Error Report 4, Unsupported Protocol Version. It may connect again in a lower version (RFC 8210 section 7).
    VersionRefused {
        /// The client's address and port.
        address: SocketAddr,
        /// The version in which it asked.
        asked: u8,
    },
    /// `stalled`: a client was blocked on writing for too long, and is closed.
    Stalled {
        /// The client's address and port.
        address: SocketAddr,
    },
    /// `full`: a client was closed at once, as the limit of clients is reached.
    Full {
        /// The address and the port of the client that was closed.
        address: SocketAddr,
        /// How many clients there are.
        clients: u64,
    },
    /// `address-full`: a client was closed at once, as the limit of its address is reached.
    AddressFull {
        /// The address and the port of the client that was closed.
        address: SocketAddr,
        /// How many clients the address has.
        clients: u64,
    },
    /// `full`: a connection to the status pages was closed, because the limit of connections is reached. It was closed at once, or for a
    /// newer one.
    StatusFull {
        /// The address and the port of the visitor whose connection was closed.
        address: SocketAddr,
        /// How many connections there are.
        clients: u64,
    },
    /// `suppressed`: lines about clients were left out, as too many came at once.
    Suppressed {
        /// How many lines were left out.
        lines: u64,
        /// The length of the interval in which they were left out, in seconds.
        seconds: u64,
    },
    /// `no-descriptor`: the system has no descriptor for a pending connection.
    NoDescriptor,
    /// `published`: a version was published.
    Published(Publication),
    /// `left-out`: the number of records of length 0 that are left out has changed.
    LeftOut {
        /// How many records are left out now.
        records: u64,
    },
    /// `refused`: a file or a publication point is refused. The served set stays.
    Refused {
        /// The path of the file or of the directory.
        file: &'a str,
        /// Why, in words.
        reason: &'a str,
    },
    /// `taken`: a file or a publication point that was refused is loaded again.
    Taken {
        /// The path of the file or of the directory.
        file: &'a str,
    },
    /// `old`: the data of a file have become older than the maximum age.
    Old {
        /// The path of the file.
        file: &'a str,
        /// How many seconds ago they were made.
        age: u64,
    },
    /// `fresh`: the data of a file are no longer old.
    Fresh {
        /// The path of the file.
        file: &'a str,
        /// How many seconds ago they were made.
        age: u64,
    },
    /// `expired`: entries of a file have expired, or all objects of a publication point. They are not served.
    Expired {
        /// The path of the file.
        file: &'a str,
        /// How many. For a publication point, this is the number of objects that its manifest lists.
        entries: u64,
    },
    /// `not-served`: an export was loaded, and the number of its elements that are not served has changed since the last load of the file.
    NotServed {
        /// The path of the file.
        file: &'a str,
        /// How many ASPAs it has.
        aspas: u64,
        /// How many router keys it has (RFC 8635).
        router_keys: u64,
    },
    /// `not-served`: a file of local exceptions (RFC 8416) was loaded, and the number of its BGPsec entries has changed since the last
    /// load.
    /// Entries on BGPsec are not applied.
    SlurmNotServed {
        /// The path of the file.
        file: &'a str,
        /// How many filters on BGPsec it has (RFC 8416 section 3.3.2).
        bgpsec_filters: u64,
        /// How many assertions on BGPsec it has (section 3.4.2).
        bgpsec_assertions: u64,
    },
    /// `unwell`: a reason has begun why the daemon is not well.
    Unwell {
        /// The word of the reason.
        reason: &'a str,
    },
    /// `unwell`: a source has become a reason why the daemon is not well.
    FileUnwell {
        /// The word of the reason.
        reason: &'a str,
        /// The path of the file or of the directory.
        file: &'a str,
    },
    /// `well`: a reason has ended why the daemon is not well.
    Well {
        /// The word of the reason.
        reason: &'a str,
    },
    /// `well`: a source is no longer a reason why the daemon is not well.
    FileWell {
        /// The word of the reason.
        reason: &'a str,
        /// The path of the file or of the directory.
        file: &'a str,
    },
    /// `clock`: the clock was set back.
    Clock {
        /// How many seconds the clock is behind its expected time: the second of the start plus the seconds elapsed since.
        behind: u64,
    },
    /// `warning`: the daemon continues, and the operator should know this.
    Warning {
        /// What, in words.
        reason: &'a str,
    },
    /// `memory`: memory ran out.
    Memory {
        /// For what, in a few words.
        what: &'a str,
    },
    /// `failed`: a call of the system failed.
    Failed {
        /// For what, in a few words.
        what: &'a str,
        /// Why, in words.
        reason: &'a str,
    },
    /// `dropped`: lines of the log were lost, as standard error accepted none.
    Dropped {
        /// How many lines.
        lines: u64,
    },
    /// `checked`: the configuration was checked. These values are what would be served.
    Checked {
        /// How many files were read.
        files: u64,
        /// How many records have an IPv4 prefix.
        ipv4: u64,
        /// How many records have an IPv6 prefix.
        ipv6: u64,
        /// How many records of length 0 are left out.
        left_out: u64,
    },
    /// `stopped`: the daemon stops.
    Stopped {
        /// Why, in words.
        reason: &'a str,
    },
}
