//! Made-up caches: a function makes what it is given, a cache without a version, into another one.

use status_pages::{
    AnchorStatus, ChangeStatus, ClientStatus, ClientTraffic, ErrorReports, FileStatus,
    IgnoredEntries, LostLines, PdusByType, PublicationFailure, ReportsByCode, Status, TotalTraffic,
};
use std::alloc::{AllocError, Global};
use std::net::{IpAddr, Ipv4Addr, Ipv6Addr, SocketAddr};

/// 2026-11-26T00:37:00Z.
pub(crate) const NOW: u64 = 1_795_653_420;

const NO_PDUS: PdusByType = PdusByType {
    serial_notify: 0,
    serial_query: 0,
    reset_query: 0,
    cache_response: 0,
    ipv4_prefix: 0,
    ipv6_prefix: 0,
    end_of_data: 0,
    cache_reset: 0,
    router_key: 0,
    error_report: 0,
};

/// PDUs of all types, each another number.
const RECEIVED: PdusByType = PdusByType {
    serial_notify: 101,
    serial_query: 102,
    reset_query: 103,
    cache_response: 104,
    ipv4_prefix: 105,
    ipv6_prefix: 106,
    end_of_data: 107,
    cache_reset: 108,
    router_key: 109,
    error_report: 110,
};

const SENT: PdusByType = PdusByType {
    serial_notify: 201,
    serial_query: 202,
    reset_query: 203,
    cache_response: 204,
    ipv4_prefix: 205,
    ipv6_prefix: 206,
    end_of_data: 207,
    cache_reset: 208,
    router_key: 209,
    error_report: 210,
};

/// A cache without a version.
pub(crate) fn empty(alloc: Global) -> Status {
    Status {
        version: "0.1.0",
        host: None,
        addresses: Vec::new(alloc),
        now: NOW,
        started: NOW - 5,
        clock_behind: 0,
        session: 4660,
        session0: 22136,
        serial: None,
        ipv4: 0,
        ipv6: 0,
        given: 0,
        left_out: 0,
        peak: None,
        changes: Vec::new(alloc),
        files: Vec::new(alloc),
        max_age: None,
        clients: Vec::new(alloc),
        client_limit: 256,
        clients_ever: 0,
        clients_refused: 0,
        turned_away: None,
        clients_stalled: 0,
        error_reports: ErrorReports::NONE,
        received: TotalTraffic {
            bytes: 0,
            pdus: NO_PDUS,
        },
        sent: TotalTraffic {
            bytes: 0,
            pdus: NO_PDUS,
        },
        reloads_taken: 0,
        reloads_refused: 0,
        reload_milliseconds: None,
        publications_failed: 0,
        publication_failure: None,
        log_lines_lost: LostLines {
            dropped: 0,
            suppressed: 0,
        },
    }
}

/// A version.
fn change(serial: u32, at: u64, announced: u64, withdrawn: u64, records: u64) -> ChangeStatus {
    ChangeStatus {
        serial,
        at,
        announced,
        withdrawn,
        records,
    }
}

/// A trust anchor, with how many VRPs it has.
fn anchor(alloc: Global, name: &str, vrps: u64) -> Result<AnchorStatus, AllocError> {
    Ok(AnchorStatus {
        name: String::from_str(alloc, name)?,
        vrps,
        peak: None,
    })
}

/// Two trust anchors, one of whose names is special in HTML, in labels and in JSON.
fn anchors(alloc: Global) -> Result<Vec<AnchorStatus>, AllocError> {
    let mut found = Vec::new(alloc);
    found.push(anchor(alloc, "ripe", 500_000)?)?;
    found.push(anchor(alloc, "<a>\"b\\c\n", 23_000)?)?;
    Ok(found)
}

/// A file that is loaded.
fn taken_file(alloc: Global) -> Result<FileStatus, AllocError> {
    Ok(FileStatus {
        path: String::from_str(alloc, "/var/db/rpki-client/json")?,
        built: Some(NOW - 600),
        taken: Some(NOW - 300),
        refusal: None,
        refused_at: None,
        is_old: false,
        expired: 12,
        vrps: Some(523_456),
        anchors: anchors(alloc)?,
        ignored: Some(IgnoredEntries::Export {
            aspas: 1,
            router_keys: 1200,
        }),
        slow: None,
        near_limit: None,
    })
}

/// A reason that is special in HTML.
fn refusal(alloc: Global) -> Result<Option<String>, AllocError> {
    let text = "entry 3 of roas cannot be read: <prefix> is not a prefix (fault 3)";
    Ok(Some(String::from_str(alloc, text)?))
}

/// A file that is refused, whose path is special in HTML and in labels.
fn refused_file(alloc: Global) -> Result<FileStatus, AllocError> {
    let refusal = refusal(alloc)?;
    Ok(FileStatus {
        path: String::from_str(alloc, "/srv/<b>\"a\\b\"&c\n.json")?,
        built: None,
        taken: None,
        refusal,
        refused_at: Some(NOW - 200),
        is_old: false,
        expired: 0,
        vrps: None,
        anchors: Vec::new(alloc),
        ignored: None,
        slow: None,
        near_limit: None,
    })
}

/// A client that sent this many queries.
fn client(address: IpAddr, version: Option<u8>, serial: Option<u32>, ago: u64) -> ClientStatus {
    ClientStatus {
        address: SocketAddr::new(address, 40_000),
        version,
        serial,
        since: NOW.saturating_sub(ago),
        received: ClientTraffic { bytes: 20, pdus: 2 },
        sent: ClientTraffic {
            bytes: 12_000_000,
            pdus: 500_003,
        },
    }
}

/// The versions of the small cache.
fn put_changes(status: &mut Status) -> Result<(), AllocError> {
    let first = change(1_795_653_119, NOW - 3900, 523_000, 0, 523_000);
    status.changes.push(first)?;
    let second = change(1_795_653_120, NOW - 300, 1000, 544, 523_456);
    Ok(status.changes.push(second)?)
}

/// The routers of the small cache.
fn put_clients(status: &mut Status) -> Result<(), AllocError> {
    let v4 = IpAddr::V4(Ipv4Addr::new(192, 0, 2, 1));
    let v6 = IpAddr::V6(Ipv6Addr::LOCALHOST);
    let served = Some(1_795_653_120);
    status.clients.push(client(v4, Some(1), served, 60))?;
    let old = Some(1_795_653_118);
    status.clients.push(client(v6, Some(0), old, 7200))?;
    Ok(status.clients.push(client(v4, None, None, 0))?)
}

/// The counters of the small cache, each another number.
fn put_counters(status: &mut Status) {
    status.clients_ever = 17;
    status.clients_refused = 31;
    status.clients_stalled = 37;
    status.received = TotalTraffic {
        bytes: 300,
        pdus: RECEIVED,
    };
    status.sent = TotalTraffic {
        bytes: 1_000_000,
        pdus: SENT,
    };
    status.error_reports = ErrorReports {
        received: ReportsByCode {
            known: [61, 62, 63, 64, 65, 66, 67, 68, 69],
            others: 70,
        },
        sent: ReportsByCode {
            known: [71, 72, 73, 74, 75, 76, 77, 78, 79],
            others: 80,
        },
    };
    status.reloads_taken = 41;
    status.reloads_refused = 5;
    status.reload_milliseconds = Some(1045);
    status.publications_failed = 43;
    status.log_lines_lost = LostLines {
        dropped: 47,
        suppressed: 53,
    };
}

/// A cache with two versions, two files and three clients.
pub(crate) fn put_small(alloc: Global, status: &mut Status) -> Result<(), AllocError> {
    status.started = NOW - 90_000;
    status.clock_behind = 3600;
    status.serial = Some(1_795_653_120);
    status.ipv4 = 400_000;
    status.ipv6 = 123_456;
    status.given = 523_458;
    status.left_out = 2;
    put_counters(status);
    put_changes(status)?;
    put_clients(status)?;
    status.files.push(taken_file(alloc)?)?;
    Ok(status.files.push(refused_file(alloc)?)?)
}

/// A cache whose first version has the serial 0.
pub(crate) fn put_first(status: &mut Status) {
    status.serial = Some(0);
}

/// A cache with one version, as great as can be, at the start of 1970.
pub(crate) fn put_huge(status: &mut Status) -> Result<(), AllocError> {
    Ok(status.changes.push(change(5, 0, u64::MAX, 0, u64::MAX))?)
}

/// The small cache with the name of its host, which is special in HTML, and two addresses.
pub(crate) fn put_named(alloc: Global, status: &mut Status) -> Result<(), AllocError> {
    put_small(alloc, status)?;
    status.host = Some(String::from_str(alloc, "<rtr1>.example.net")?);
    let address = IpAddr::V4(Ipv4Addr::new(192, 0, 2, 1));
    status.addresses.push(SocketAddr::new(address, 3323))?;
    let address = IpAddr::V4(Ipv4Addr::new(192, 0, 2, 2));
    Ok(status.addresses.push(SocketAddr::new(address, 323))?)
}

/// The small cache without its refused file, and with the right time.
fn put_healed(alloc: Global, status: &mut Status) -> Result<(), AllocError> {
    put_small(alloc, status)?;
    status.clock_behind = 0;
    let _refused = status.files.pop();
    Ok(())
}

/// The same, and each router holds the served version.
pub(crate) fn put_well(alloc: Global, status: &mut Status) -> Result<(), AllocError> {
    put_healed(alloc, status)?;
    let served = status.serial;
    for client in status.clients.iter_mut() {
        client.serial = served;
    }
    Ok(())
}

/// The last publication failed, for a reason that is special in HTML.
pub(crate) fn put_failure(alloc: Global, status: &mut Status) -> Result<(), AllocError> {
    status.publication_failure = Some(PublicationFailure {
        since: NOW - 120,
        reason: String::from_str(alloc, "more than <16777215> records (fault 1)")?,
    });
    Ok(())
}

/// A cache whose last publication failed, and which has no router.
pub(crate) fn put_failing(alloc: Global, status: &mut Status) -> Result<(), AllocError> {
    put_healed(alloc, status)?;
    status.clients.clear();
    put_failure(alloc, status)
}

/// The small cache with 300 routers, whose last publication failed.
pub(crate) fn put_crowded(alloc: Global, status: &mut Status) -> Result<(), AllocError> {
    put_small(alloc, status)?;
    let v4 = IpAddr::V4(Ipv4Addr::new(192, 0, 2, 1));
    for _client in 3..300 {
        let served = Some(1_795_653_120);
        status.clients.push(client(v4, Some(1), served, 60))?;
    }
    put_failure(alloc, status)
}

/// The small cache, whose data are too old.
pub(crate) fn put_old(alloc: Global, status: &mut Status) -> Result<(), AllocError> {
    put_small(alloc, status)?;
    for file in status.files.iter_mut() {
        file.is_old = file.built.is_some();
    }
    Ok(())
}

/// The small cache with one router. It is connected for `connected` seconds, at `ago` seconds after the last version, and lacks `lacks`
/// versions.
pub(crate) fn put_router(
    alloc: Global,
    status: &mut Status,
    connected: u64,
    ago: u64,
    lacks: Option<u32>,
) -> Result<(), AllocError> {
    put_small(alloc, status)?;
    status.now = (NOW - 300).saturating_add(ago);
    status.clients.clear();
    let v4 = IpAddr::V4(Ipv4Addr::new(192, 0, 2, 1));
    let serial = lacks.map(|versions| u32::wrapping_sub(1_795_653_120, versions));
    let mut client = client(v4, None, serial, 0);
    client.since = status.now.saturating_sub(connected);
    Ok(status.clients.push(client)?)
}
