//! A client that accepts no byte, and one that accepts few.
use crate::lines::cache_of;
use rtr_server::{ByteCounts, Client, Duplex, Server, Turn};
use std::alloc::Global;
use std::cell::RefCell;
use std::io;
use std::io::{ErrorKind, Write};
use std::rc::Rc;
use test_values::sets::V;
use vrps::VersionLog;

/// How many bytes more a client accepts, which the test and its line both hold.
type Room = Rc<RefCell<usize>>;

/// What goes to a client that accepts this many bytes, and then none.
#[derive(Drop)]
struct Narrow {
    room: Room,
}

impl Write for Narrow {
    fn write(&mut self, buf: &[u8]) -> io::Result<usize> {
        match self.room.try_borrow_mut() {
            Err(_) => Err(io::Error::from(ErrorKind::Other)),
            Ok(mut room) => {
                let count = buf.len().min(*room);
                if count == 0 {
                    return Err(io::Error::from(ErrorKind::WouldBlock));
                }
                *room = room.saturating_sub(count);
                Ok(count)
            }
        }
    }

    fn flush(&mut self) -> io::Result<()> {
        Ok(())
    }
}

type Tight = Server<VersionLog, Duplex<&'static [u8], Narrow>>;

/// A Reset Query.
const QUERY: &[u8] = &[1, 2, 0, 0, 0, 0, 0, 8];

/// The client accepts this many bytes more.
fn widen(room: &Room, more: usize) -> bool {
    match room.try_borrow_mut() {
        Err(_) => false,
        Ok(mut room) => {
            *room = room.saturating_add(more);
            true
        }
    }
}

/// Whether a client that accepts this many bytes more waits to be written to, and has this many then.
fn waits_with(server: &mut Tight, client: Client, room: &Room, more: usize, written: u64) -> bool {
    widen(room, more)
        && server.serve(client, 9) == Some(Turn::WaitsToWrite)
        && server.carried(client) == Some(ByteCounts { read: 8, written })
}

/// A client whose answer has 52 bytes accepts 20 of them, none in two turns, one, and none.
fn takes_some(server: &mut Tight, client: Client, room: &Room) -> bool {
    waits_with(server, client, room, 20, 20)
        && waits_with(server, client, room, 0, 20)
        && waits_with(server, client, room, 0, 20)
        && waits_with(server, client, room, 1, 21)
        && waits_with(server, client, room, 0, 21)
}

/// Whether that is seen of a client with this room.
fn is_seen(alloc: Global, room: &Room, output: Narrow) -> bool {
    let Some(cache) = cache_of(alloc, &[V]) else {
        return false;
    };
    let mut server = Server::new(alloc, cache, 1);
    let line = Duplex {
        input: QUERY,
        output,
    };
    match server.admit(line) {
        Ok(client) => takes_some(&mut server, client, room),
        Err(_) => false,
    }
}

/// Whether that is seen of a client with room of its own.
fn is_seen_in(alloc: Global, room: &Room) -> bool {
    match room.clone() {
        Ok(other) => is_seen(alloc, room, Narrow { room: other }),
        Err(_) => false,
    }
}

#[test]
fn what_a_client_takes_is_seen_by_its_count(rt: HostRuntime) {
    match Rc::new(rt.alloc(), RefCell::new(0)) {
        Ok(room) => assert!(rt; is_seen_in(rt.alloc(), &room)),
        Err(_) => assert!(rt; false),
    }
}
