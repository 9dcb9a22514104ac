//! A set that is published in the middle of an answer.
use crate::lines::{
    Manner, Memory, PLAIN, Shared, cache_with, len_of, line_between, more, publishes, shared, waits,
};
use prefixes::{Asn, IpPrefix, Vrp};
use rtr_server::{Client, Server, Turn};
use std::alloc::Global;
use test_values::hex::bytes;
use test_values::sets::V;
use test_values::units::{RESET_QUERY, RESPONSE};
use vrps::VrpSet;

/// A Serial Notify of serial 6 of session 4660.
const NOTIFY_6: &str = "01 00 1234 0000000c 00000006";

/// The record of 192.0.2.0/24 and this AS.
fn numbered(asn: u32) -> Option<Vrp> {
    match IpPrefix::parse("192.0.2.0/24") {
        Ok(prefix) => Vrp::new(prefix, 24, Asn(asn)).ok(),
        Err(_) => None,
    }
}

/// A set whose answer passes what is pulled at once, also into the large room: 2,000 records, 20 bytes each.
fn many(alloc: Global) -> Option<VrpSet> {
    let mut list = Vec::new(alloc);
    for asn in 1..2001 {
        let Some(vrp) = numbered(asn) else {
            return None;
        };
        if list.push(vrp).is_err() {
            return None;
        }
    }
    VrpSet::from_list(list).ok()
}

/// A server whose cache has that set.
fn server_of_many(alloc: Global) -> Option<Memory> {
    match cache_with(alloc, many(alloc)) {
        Some(cache) => Some(Server::new(alloc, cache, 1)),
        None => None,
    }
}

/// Whether a set is published in the middle of an answer, and the client asks again and waits. One read and three writes were made, of what the
/// small room had, and of the large one: its rest is left to write, and more is due.
fn is_served_on(
    server: &mut Memory,
    alloc: Global,
    client: Client,
    asked: &Shared,
    out: &Shared,
) -> bool {
    server.serve(client, 4) == Some(Turn::Busy)
        && len_of(out) == 1024 + 1000
        && publishes(server, alloc, &[V])
        && more(asked, bytes(RESET_QUERY).as_slice())
        && waits(server, client, 999)
}

/// Whether these bytes are at a place.
fn stands_at(list: &Shared, place: usize, bytes: &[u8]) -> bool {
    match list.try_borrow() {
        Err(_) => false,
        Ok(list) => match list.as_slice().get(place..) {
            None => false,
            Some(rest) => rest.starts_with(bytes),
        },
    }
}

/// Whether it has the whole answer of serial 5, the notify, and then the answer to the second query.
fn is_notified_behind(out: &Shared) -> bool {
    let answer = 8 + 2000 * 20 + 24;
    len_of(out) == answer + 12 + 52
        && stands_at(out, answer, bytes(NOTIFY_6).as_slice())
        && stands_at(out, answer + 12, bytes(RESPONSE).as_slice())
}

/// The client of a line that accepts 1,000 bytes at a call.
fn admitted(server: &mut Memory, asked: &Shared, out: &Shared) -> Option<Client> {
    let slow = Manner {
        size: 1000,
        ..PLAIN
    };
    match line_between(asked, slow, out) {
        Some(line) => server.admit(line).ok(),
        None => None,
    }
}

/// Whether its client is notified right after the answer.
fn notifies_behind(alloc: Global, asked: &Shared, out: &Shared) -> bool {
    let Some(mut server) = server_of_many(alloc) else {
        return false;
    };
    match admitted(&mut server, asked, out) {
        Some(client) => {
            is_served_on(&mut server, alloc, client, asked, out) && is_notified_behind(out)
        }
        None => false,
    }
}

#[test]
fn a_client_in_an_answer_is_notified_right_behind_it(rt: HostRuntime) {
    let query = bytes(RESET_QUERY);
    match (
        shared(rt.alloc(), query.as_slice()),
        shared(rt.alloc(), &[]),
    ) {
        (Some(asked), Some(out)) => assert!(rt; notifies_behind(rt.alloc(), &asked, &out)),
        _ => assert!(rt; false),
    }
}
