//! What was counted of a client that has left.
use crate::lines::{Manner, Memory, PLAIN, client_of, server_of, shared, waits};
use rtr_pdu::{Kind, Version};
use rtr_server::{ByteCounts, Client, CloseReason, Parted, PdusByKind, Report, Turn};
use std::alloc::Global;
use test_values::hex::bytes;
use test_values::sets::V;
use test_values::units::RESET_QUERY;

/// What comes from a client, after which its bytes end or it waits, how it is closed, and what is counted then of it.
struct Leaving {
    sends: &'static str,
    stays_open: bool,
    how: CloseReason,
    /// Bytes read and written.
    carried: (u64, u64),
    version: Option<Version>,
    received: &'static [(Kind, u64)],
    sent: &'static [(Kind, u64)],
    /// The code and the text of the Error Report that it sent.
    says: Option<(u16, &'static str)>,
    /// The code of the one that was sent to it.
    sent_code: Option<u16>,
}

/// The types that are counted, but for those of the prefixes.
const KINDS: [Kind; 8] = [
    Kind::SerialNotify,
    Kind::SerialQuery,
    Kind::ResetQuery,
    Kind::CacheResponse,
    Kind::EndOfData,
    Kind::CacheReset,
    Kind::RouterKey,
    Kind::ErrorReport,
];

const LEAVINGS: &[Leaving] = &[
    // A Reset Query, and an Error Report of code 0 behind its answer.
    Leaving {
        sends: "01 02 0000 00000008 | 01 0a 0000 00000010 00000000 00000000",
        stays_open: true,
        how: CloseReason::CacheEnded,
        carried: (24, 52),
        version: Some(Version::V1),
        received: &[(Kind::ResetQuery, 1), (Kind::ErrorReport, 1)],
        sent: &[(Kind::CacheResponse, 1), (Kind::EndOfData, 1)],
        says: Some((0, "")),
        sent_code: None,
    },
    // An Error Report of version 0 before anything else.
    Leaving {
        sends: "00 0a 0002 00000010 00000000 00000000",
        stays_open: true,
        how: CloseReason::CacheEnded,
        carried: (16, 0),
        version: Some(Version::V0),
        received: &[(Kind::ErrorReport, 1)],
        sent: &[],
        says: Some((2, "")),
        sent_code: None,
    },
    // An Error Report of code 3 on a Reset Query, with the text "no".
    Leaving {
        sends: "01 02 0000 00000008 | 01 0a 0003 0000001a 00000008 0102000000000008 00000002 6e6f",
        stays_open: true,
        how: CloseReason::CacheEnded,
        carried: (34, 52),
        version: Some(Version::V1),
        received: &[(Kind::ResetQuery, 1), (Kind::ErrorReport, 1)],
        sent: &[(Kind::CacheResponse, 1), (Kind::EndOfData, 1)],
        says: Some((3, "no")),
        sent_code: None,
    },
    // A Cache Reset, which no router sends: an Error Report with a copy of it goes out.
    Leaving {
        sends: "01 08 0000 00000008",
        stays_open: true,
        how: CloseReason::CacheEnded,
        carried: (8, 24),
        version: Some(Version::V1),
        received: &[(Kind::CacheReset, 1)],
        sent: &[(Kind::ErrorReport, 1)],
        says: None,
        sent_code: Some(3),
    },
    Leaving {
        sends: RESET_QUERY,
        stays_open: false,
        how: CloseReason::PeerClosed,
        carried: (8, 52),
        version: Some(Version::V1),
        received: &[(Kind::ResetQuery, 1)],
        sent: &[(Kind::CacheResponse, 1), (Kind::EndOfData, 1)],
        says: None,
        sent_code: None,
    },
    Leaving {
        sends: "01 02 00",
        stays_open: false,
        how: CloseReason::Truncated,
        carried: (3, 0),
        version: None,
        received: &[],
        sent: &[],
        says: None,
        sent_code: None,
    },
    Leaving {
        sends: "",
        stays_open: false,
        how: CloseReason::PeerClosed,
        carried: (0, 0),
        version: None,
        received: &[],
        sent: &[],
        says: None,
        sent_code: None,
    },
];

/// How often a type is in a list.
fn told(list: &[(Kind, u64)], kind: Kind) -> u64 {
    for &(other, count) in list {
        if other == kind {
            return count;
        }
    }
    0
}

/// Whether the PDUs are these, and no others but prefixes.
fn are(pdus: &PdusByKind, list: &[(Kind, u64)]) -> bool {
    for kind in KINDS.iter() {
        if pdus.of(*kind) != told(list, *kind) {
            return false;
        }
    }
    true
}

/// Whether a report says this.
fn says(report: &Option<Report>, expected: Option<(u16, &str)>) -> bool {
    match (report, expected) {
        (None, None) => true,
        (Some(report), Some((code, text))) => {
            report.code() == code && report.text() == text.as_bytes()
        }
        _ => false,
    }
}

/// Whether it is counted so.
fn is_counted(parted: &Parted, leaving: &Leaving) -> bool {
    let (read, written) = leaving.carried;
    parted.carried == ByteCounts { read, written }
        && parted.version == leaving.version
        && are(&parted.received, leaving.received)
        && are(&parted.sent, leaving.sent)
        && says(&parted.received_report, leaving.says)
        && parted.sent_report == leaving.sent_code
}

/// Serves a client to its end, call by call, and says how it went.
fn end_of(server: &mut Memory, client: Client) -> Option<CloseReason> {
    for _call in 0..40 {
        if let Some(Turn::Gone(how)) = server.serve(client, 1) {
            return Some(how);
        }
    }
    None
}

/// How a client leaves that sends so.
fn leaves(server: &mut Memory, alloc: Global, leaving: &Leaving) -> Option<CloseReason> {
    let out = shared(alloc, &[])?;
    let manner = Manner {
        stays_open: leaving.stays_open,
        ..PLAIN
    };
    let client = client_of(server, alloc, bytes(leaving.sends).as_slice(), manner, &out)?;
    end_of(server, client)
}

/// Whether it leaves so, and is counted so.
fn leaves_so(server: &mut Memory, alloc: Global, leaving: &Leaving) -> bool {
    if leaves(server, alloc, leaving) != Some(leaving.how) {
        return false;
    }
    match server.parted() {
        Some(parted) => is_counted(&parted, leaving),
        None => false,
    }
}

/// Whether all of them do, one after the other, at a server of which none has left.
fn all_leave_so(alloc: Global, leavings: &[Leaving]) -> bool {
    let Some(mut server) = server_of(alloc, &[V], 1) else {
        return false;
    };
    if server.parted().is_some() {
        return false;
    }
    for leaving in leavings {
        if !leaves_so(&mut server, alloc, leaving) {
            return false;
        }
    }
    true
}

#[test]
fn a_client_that_has_left_is_counted_to_its_end(rt: HostRuntime) {
    assert!(rt; all_leave_so(rt.alloc(), LEAVINGS));
}

/// Whether a client that is dropped, and then none, leave what was counted of it.
fn is_dropped_so(server: &mut Memory, client: Client) -> bool {
    let carried = server.carried(client);
    server.drop_client(client);
    server.drop_client(client);
    match (carried, server.parted()) {
        (Some(carried), Some(parted)) => {
            parted.carried == carried && parted.received.of(Kind::ResetQuery) == 1
        }
        _ => false,
    }
}

/// Whether that is so of a client that is served and dropped.
fn drops(server: &mut Memory, alloc: Global) -> Option<bool> {
    let out = shared(alloc, &[])?;
    let client = client_of(server, alloc, bytes(RESET_QUERY).as_slice(), PLAIN, &out)?;
    let is_there = waits(server, client, 9) && server.parted().is_none();
    Some(is_there && is_dropped_so(server, client))
}

#[test]
fn a_client_that_is_dropped_is_counted_as_it_was(rt: HostRuntime) {
    match server_of(rt.alloc(), &[V], 1) {
        Some(mut server) => assert!(rt; drops(&mut server, rt.alloc()) == Some(true)),
        None => assert!(rt; false),
    }
}
