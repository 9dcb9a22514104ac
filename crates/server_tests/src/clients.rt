//! One client whose line waits, is interrupted or fails at one call, and how clients come and go.
use crate::lines::{
    Manner, Memory, PLAIN, Shared, client_of, is_front, is_list, len_of, line, publishes,
    server_of, shared, waits,
};
use rtr_pdu::{Kind, Version};
use rtr_server::{AdmitFault, ByteCounts, Client, CloseReason, Turn};
use std::alloc::Global;
use std::io::ErrorKind;
use test_values::hex::bytes;
use test_values::sets::{Rows, V};
use test_values::units::{ANSWER, RESET_QUERY};
use vrps::Serial;

const TWO_QUERIES: &str = "01 02 0000 00000008 | 01 02 0000 00000008";

/// The answers to them.
const TWO_ANSWERS: &str =
    "01 03 1234 00000008 | 01 04 0000 00000014 01 18 18 00 c0000200 0000fbf0 | 01 07 1234 00000018 00000005 00000e10 00000258 00001c20
    | 01 03 1234 00000008 | 01 04 0000 00000014 01 18 18 00 c0000200 0000fbf0 | 01 07 1234 00000018 00000005 00000e10 00000258 00001c20";

/// A Reset Query in version 0.
const QUERY_0: &str = "00 02 0000 00000008";

/// Serves a client to its end, in turns of this many calls.
fn end_of(server: &mut Memory, client: Client, budget: u32) -> Option<Turn> {
    let mut last = None;
    for _turn in 0..400 {
        match server.serve(client, budget) {
            None => return last,
            turn => last = turn,
        }
    }
    last
}

/// The last turn of a client that sends two queries on a line of this manner, which then ends.
fn last_turn(server: &mut Memory, alloc: Global, manner: Manner, out: &Shared) -> Option<Turn> {
    let client = client_of(server, alloc, bytes(TWO_QUERIES).as_slice(), manner, out)?;
    end_of(server, client, 3)
}

/// The same of a new server.
fn served(alloc: Global, manner: Manner, out: &Shared) -> Option<Turn> {
    match server_of(alloc, &[V], 1) {
        Some(mut server) => last_turn(&mut server, alloc, manner, out),
        None => None,
    }
}

/// Whether a line of this manner carries both answers whole.
fn carries_all(alloc: Global, manner: Manner) -> bool {
    let Some(out) = shared(alloc, &[]) else {
        return false;
    };
    served(alloc, manner, &out) == Some(Turn::Gone(CloseReason::PeerClosed))
        && is_list(&out, bytes(TWO_ANSWERS).as_slice())
}

/// Whether a line of this manner fails, or is closed, and carries a beginning of both answers.
fn carries_a_beginning(alloc: Global, manner: Manner) -> bool {
    let Some(out) = shared(alloc, &[]) else {
        return false;
    };
    let last = served(alloc, manner, &out);
    let failed = last == Some(Turn::Gone(CloseReason::ReadFailed))
        || last == Some(Turn::Gone(CloseReason::WriteFailed))
        || last == Some(Turn::Gone(CloseReason::PeerClosed));
    failed && is_front(&out, bytes(TWO_ANSWERS).as_slice())
}

/// A line that ends after its bytes, carries this many at a call, and fails so at one call.
fn ending(size: usize, bad_call: u32, error: ErrorKind) -> Manner {
    Manner {
        size,
        bad_call,
        error,
        stays_open: false,
    }
}

/// Whether lines of this size carry all, whichever call this happens to.
fn all_carry(alloc: Global, size: usize, error: ErrorKind) -> bool {
    for bad_call in 0..30 {
        if !carries_all(alloc, ending(size, bad_call, error)) {
            return false;
        }
    }
    true
}

#[test]
fn a_line_that_waits_or_is_interrupted_at_any_call_carries_the_same(rt: HostRuntime) {
    for size in [1, 7, 64] {
        assert!(rt; all_carry(rt.alloc(), size, ErrorKind::WouldBlock));
        assert!(rt; all_carry(rt.alloc(), size, ErrorKind::Interrupted));
    }
}

#[test]
fn a_line_that_fails_has_carried_a_beginning(rt: HostRuntime) {
    for bad_call in 1..4 {
        for size in [1, 7, 64] {
            let manner = ending(size, bad_call, ErrorKind::BrokenPipe);
            assert!(rt; carries_a_beginning(rt.alloc(), manner));
        }
    }
}

/// A client that asks for all.
fn asking(server: &mut Memory, alloc: Global, out: &Shared) -> Option<Client> {
    client_of(server, alloc, bytes(RESET_QUERY).as_slice(), PLAIN, out)
}

/// Whether there is no room for one more.
fn is_full(server: &mut Memory, alloc: Global, out: &Shared) -> bool {
    match line(alloc, bytes(RESET_QUERY).as_slice(), PLAIN, out) {
        Some(line) => server.admit(line) == Err(AdmitFault::TooManyClients),
        None => false,
    }
}

/// Whether these are the first two clients.
fn are_first(server: &Memory, first: Client, second: Client) -> bool {
    first != second && server.clients() == 2 && first.number() == 0 && second.number() == 1
}

/// Whether the first client goes, and the second stays.
fn first_goes(server: &mut Memory, first: Client, second: Client) -> bool {
    server.drop_client(first);
    server.clients() == 1
        && server.serve(first, 9) == None
        && server.stream(first).is_none()
        && server.stream(second).is_some()
}

/// Whether the current version is the first one, of one record.
fn has_first_version(server: &Memory) -> bool {
    match server.current() {
        Some((serial, set)) => serial == Serial(5) && set.len() == 1,
        None => false,
    }
}

/// Whether a client that is served so often at first, which is too seldom, and then often enough, is answered, and all is counted.
fn is_answered(server: &mut Memory, client: Client, out: &Shared) -> bool {
    let carried = ByteCounts {
        read: 8,
        written: 52,
    };
    server.serve(client, 0) == Some(Turn::Busy)
        && server.version(client).is_none()
        && waits(server, client, 99)
        && is_list(out, bytes(ANSWER).as_slice())
        && server.version(client) == Some(Version::V1)
        && server.carried(client) == Some(carried)
}

/// Whether two clients come, the first goes, and a third has its number.
fn come_and_go(server: &mut Memory, alloc: Global, out: &Shared) -> Option<bool> {
    let first = asking(server, alloc, out)?;
    let second = asking(server, alloc, out)?;
    let is_so = has_first_version(server)
        && are_first(server, first, second)
        && is_full(server, alloc, out)
        && first_goes(server, first, second);
    let again = asking(server, alloc, out)?;
    Some(is_so && again == first && server.clients() == 2 && is_answered(server, second, out))
}

#[test]
fn clients_come_and_go(rt: HostRuntime) {
    match (shared(rt.alloc(), &[]), server_of(rt.alloc(), &[V], 2)) {
        (Some(out), Some(mut server)) => {
            assert!(rt; come_and_go(&mut server, rt.alloc(), &out) == Some(true));
        }
        _ => assert!(rt; false),
    }
}

#[test]
fn each_fault_has_its_number(rt: HostRuntime) {
    assert!(rt; AdmitFault::TooManyClients.number() == 1 && AdmitFault::Memory.number() == 2);
}

/// How many PDUs of a type came from a client, and how many were sent to it.
fn counts(server: &Memory, client: Client, kind: Kind) -> Option<(u64, u64)> {
    let received = server.received(client)?.of(kind);
    let sent = server.sent(client)?.of(kind);
    Some((received, sent))
}

/// Whether a client that asks for all so often is answered each time, and each PDU is counted.
fn is_counted(server: &mut Memory, client: Client, answers: u64) -> bool {
    server.last_serial(client).is_none()
        && waits(server, client, 99)
        && counts(server, client, Kind::ResetQuery) == Some((answers, 0))
        && counts(server, client, Kind::CacheResponse) == Some((0, answers))
        && counts(server, client, Kind::Ipv4Prefix) == Some((0, answers))
        && counts(server, client, Kind::EndOfData) == Some((0, answers))
        && counts(server, client, Kind::ErrorReport) == Some((0, 0))
        && server.last_serial(client) == Some(Serial(5))
}

/// A client whose line accepts seven bytes at a call.
fn slow(server: &mut Memory, alloc: Global, asks: &str, out: &Shared) -> Option<Client> {
    let cut = Manner { size: 7, ..PLAIN };
    client_of(server, alloc, bytes(asks).as_slice(), cut, out)
}

/// Whether PDUs of a client of each version are counted.
fn both_are_counted(server: &mut Memory, alloc: Global, out: &Shared) -> Option<bool> {
    let newer = slow(server, alloc, TWO_QUERIES, out)?;
    let older = slow(server, alloc, QUERY_0, out)?;
    Some(is_counted(server, newer, 2) && is_counted(server, older, 1))
}

#[test]
fn pdus_are_counted_in_both_versions(rt: HostRuntime) {
    match (shared(rt.alloc(), &[]), server_of(rt.alloc(), &[V], 2)) {
        (Some(out), Some(mut server)) => {
            assert!(rt; both_are_counted(&mut server, rt.alloc(), &out) == Some(true));
        }
        _ => assert!(rt; false),
    }
}

/// Five records and more of each family, one behind the other.
const RUNS: Rows = &[
    ("192.0.2.0/28", 28, 64496),
    ("192.0.2.16/28", 28, 64496),
    ("192.0.2.32/28", 28, 64496),
    ("192.0.2.48/28", 28, 64496),
    ("192.0.2.64/28", 28, 64496),
    ("192.0.2.80/28", 28, 64496),
    ("2001:db8::/48", 48, 64496),
    ("2001:db8:1::/48", 48, 64496),
    ("2001:db8:2::/48", 48, 64496),
    ("2001:db8:3::/48", 48, 64496),
    ("2001:db8:4::/48", 48, 64496),
];

/// The same, except five and one, which others replace.
const OTHER_RUNS: Rows = &[
    ("192.0.2.0/28", 28, 64496),
    ("198.51.100.0/28", 28, 64496),
    ("198.51.100.16/28", 28, 64496),
    ("198.51.100.32/28", 28, 64496),
    ("198.51.100.48/28", 28, 64496),
    ("198.51.100.64/28", 28, 64496),
    ("2001:db8:1::/48", 48, 64496),
    ("2001:db8:2::/48", 48, 64496),
    ("2001:db8:3::/48", 48, 64496),
    ("2001:db8:4::/48", 48, 64496),
    ("2001:db8:5::/48", 48, 64496),
];

/// How many PDUs for IPv4 and IPv6, and how many End of Data, are counted as sent to a client.
fn prefixes_and_ends(server: &Memory, client: Client) -> Option<(u64, u64, u64)> {
    let sent = server.sent(client)?;
    let ends = sent.of(Kind::EndOfData);
    Some((sent.of(Kind::Ipv4Prefix), sent.of(Kind::Ipv6Prefix), ends))
}

/// The same of a router that asks for all and for a difference, on a line that accepts this many bytes at a call.
fn sent_to(
    server: &mut Memory,
    alloc: Global,
    query: &[u8],
    size: usize,
) -> Option<(u64, u64, u64)> {
    let out = shared(alloc, &[])?;
    let manner = Manner { size, ..PLAIN };
    let client = client_of(server, alloc, query, manner, &out)?;
    let _last = server.serve(client, 9999);
    prefixes_and_ends(server, client)
}

/// Whether 16, 7 and 2 are counted so.
fn is_sent(alloc: Global, query: &[u8], size: usize) -> bool {
    match server_of(alloc, RUNS, 1) {
        Some(mut server) => {
            publishes(&mut server, alloc, OTHER_RUNS)
                && sent_to(&mut server, alloc, query, size) == Some((16, 7, 2))
        }
        None => false,
    }
}

/// Whether they are, wherever runs are cut.
fn is_always_sent(alloc: Global, queries: &str) -> bool {
    let query = bytes(queries);
    for size in 1..610 {
        if !is_sent(alloc, query.as_slice(), size) {
            return false;
        }
    }
    true
}

#[test]
fn runs_are_counted_wherever_they_are_cut(rt: HostRuntime) {
    assert!(rt;
        is_always_sent(
            rt.alloc(),
            "01 02 0000 00000008 | 01 01 1234 0000000c 00000005"
        )
    );
    assert!(rt;
        is_always_sent(
            rt.alloc(),
            "00 02 0000 00000008 | 00 01 1234 0000000c 00000005"
        )
    );
}

/// The turn of a client whose bytes end inside a PDU.
fn cut_off(server: &mut Memory, alloc: Global, out: &Shared) -> Option<Turn> {
    let ends = Manner {
        stays_open: false,
        ..PLAIN
    };
    let client = client_of(server, alloc, &[1, 2, 0], ends, out)?;
    server.serve(client, 9)
}

/// Whether a client has an answer, is closed after it, and is gone.
fn is_ended(server: &mut Memory, client: Client, out: &Shared) -> bool {
    server.serve(client, 1) == Some(Turn::Busy)
        && server.serve(client, 9) == Some(Turn::Gone(CloseReason::CacheEnded))
        && len_of(out) > 8
        && server.serve(client, 9) == None
        && server.clients() == 0
}

/// Whether a client that sends what is no PDU is ended so.
fn ends(server: &mut Memory, alloc: Global, out: &Shared) -> Option<bool> {
    let manner = Manner {
        bad_call: 2,
        ..PLAIN
    };
    let client = client_of(server, alloc, &[9; 8], manner, out)?;
    Some(is_ended(server, client, out))
}

#[test]
fn what_ends_a_client_is_told(rt: HostRuntime) {
    match (shared(rt.alloc(), &[]), server_of(rt.alloc(), &[V], 2)) {
        (Some(out), Some(mut server)) => {
            let truncated = Some(Turn::Gone(CloseReason::Truncated));
            assert!(rt; cut_off(&mut server, rt.alloc(), &out) == truncated);
            assert!(rt; ends(&mut server, rt.alloc(), &out) == Some(true));
        }
        _ => assert!(rt; false),
    }
}
