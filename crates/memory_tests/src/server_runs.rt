use crate::end_runs::{RESET_QUERY, SERIAL_QUERY, cache_from};
use crate::telling::{V, W, begin, no_memory, payload, tell, tell_bytes, twice};
use rtr_ends::Cache;
use rtr_server::{Client, CloseReason, Duplex, Server, Turn};
use std::alloc::Global;
use std::io;
use std::io::{ErrorKind, Read, Write};
use vrps::{VersionLog, VrpSet};

/// What comes from a router: this, and then nothing more for now.
#[derive(Drop)]
struct Feed {
    bytes: &'static [u8],
}

impl Read for Feed {
    fn read(&mut self, buf: &mut [u8]) -> io::Result<usize> {
        if self.bytes.is_empty() {
            return Err(io::Error::from(ErrorKind::WouldBlock));
        }
        self.bytes.read(buf)
    }
}

/// What went to it, in room of its own.
#[derive(Drop)]
struct Sink {
    room: [u8; 2048],
    filled: usize,
}

impl Write for Sink {
    fn write(&mut self, buf: &[u8]) -> io::Result<usize> {
        let Some(mut rest) = self.room.get_mut(self.filled..) else {
            return Ok(0);
        };
        let count = rest.write(buf)?;
        self.filled = self.filled.saturating_add(count);
        Ok(count)
    }

    fn flush(&mut self) -> io::Result<()> {
        Ok(())
    }
}

type Memory = Server<VersionLog, Duplex<Feed, Sink>>;

fn line(bytes: &'static [u8]) -> Duplex<Feed, Sink> {
    Duplex {
        input: Feed { bytes },
        output: Sink {
            room: [0; 2048],
            filled: 0,
        },
    }
}

/// Publishes a set, or prints that memory ran out.
fn is_published(rt: &HostRuntime, server: &mut Memory, set: VrpSet) -> bool {
    server.publish(set).is_ok() || no_memory(rt)
}

/// Publishes a set, and once more if memory ran out.
fn publish(rt: &HostRuntime, server: &mut Memory, (set, again): (VrpSet, VrpSet)) {
    if !is_published(rt, server, set) {
        is_published(rt, server, again);
    }
}

/// Admits a client, at the second try if memory ran out.
fn admitted(rt: &HostRuntime, server: &mut Memory, query: &'static [u8]) -> Option<Client> {
    if let Ok(client) = server.admit(line(query)) {
        return Some(client);
    }
    tell(rt, "memory");
    server.admit(line(query)).ok()
}

/// What went to a client, if it is there.
fn written(server: &Memory, client: Client) -> &[u8] {
    match server.stream(client) {
        None => &[],
        Some(line) => line.output.room.get(..line.output.filled).unwrap_or(&[]),
    }
}

/// What a turn came to.
fn word(turn: Option<Turn>) -> &'static str {
    match turn {
        None => "none",
        Some(Turn::WaitsToRead) => "WaitsToRead",
        Some(Turn::Gone(CloseReason::CacheEnded)) => "Gone(CacheEnded)",
        Some(_) => "another turn",
    }
}

/// One read and one write of a client; prints what went to it, and what its next turn came to.
fn tell_served(rt: &HostRuntime, server: &mut Memory, client: Client) {
    let _busy = server.serve(client, 2);
    tell_bytes(rt, written(server, client));
    tell(rt, word(server.serve(client, 9)));
}

/// Two clients come with this query.
fn both_admitted(
    rt: &HostRuntime,
    server: &mut Memory,
    query: &'static [u8],
) -> Option<(Client, Client)> {
    let client = admitted(rt, server, query)?;
    let other = admitted(rt, server, query)?;
    Some((client, other))
}

/// Two clients come with this query, and then each of them is served.
fn tell_both(rt: &HostRuntime, server: &mut Memory, query: &'static [u8]) {
    if let Some((client, other)) = both_admitted(rt, server, query) {
        tell_served(rt, server, client);
        tell_served(rt, server, other);
    }
}

/// Two routers ask what has changed: if memory runs out for the change, that client ends with a report, and the other is answered.
#[test]
fn serve_serial_queries(rt: HostRuntime) {
    let alloc = rt.alloc();
    if let (Some(first), Some(second), Some(cache)) = (
        twice(alloc, &[V]),
        twice(alloc, &[V, W]),
        cache_from(alloc, 5),
    ) {
        begin(alloc);
        let mut server = Server::new(alloc, cache, 2);
        publish(&rt, &mut server, first);
        publish(&rt, &mut server, second);
        tell_both(&rt, &mut server, SERIAL_QUERY);
    }
}

/// Sixty records, whose answer fills the small room.
fn sixty(alloc: Global) -> Option<VrpSet> {
    let mut list = Vec::new(alloc);
    for asn in 1..61 {
        if list.push(payload(&("192.0.2.0/24", 24, asn))?).is_err() {
            return None;
        }
    }
    VrpSet::from_list(list).ok()
}

/// A cache that has published them.
fn cache_of_sixty(alloc: Global) -> Option<Cache<VersionLog>> {
    match (cache_from(alloc, 5), sixty(alloc)) {
        (Some(mut cache), Some(set)) => {
            if cache.publish(set).is_ok() {
                Some(cache)
            } else {
                None
            }
        }
        _ => None,
    }
}

/// Serves a client, and prints how much went to it.
fn tell_length(rt: &HostRuntime, server: &mut Memory, client: Client) {
    let turn = server.serve(client, 99);
    let len = written(server, client).len();
    let _printed = match turn {
        Some(Turn::WaitsToRead) => println!(rt; "{len}"),
        _ => println!(rt; "{len}, and no wait"),
    };
}

/// An answer goes out whole, whether there is memory for a large room or not.
#[test]
fn serve_a_long_answer(rt: HostRuntime) {
    let alloc = rt.alloc();
    if let Some(cache) = cache_of_sixty(alloc) {
        let mut server = Server::new(alloc, cache, 1);
        if let Ok(client) = server.admit(line(RESET_QUERY)) {
            begin(alloc);
            tell_length(&rt, &mut server, client);
        }
    }
}
