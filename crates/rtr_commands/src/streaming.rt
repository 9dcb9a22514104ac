//! The two ends of a connection over sockets of this machine.
ghost use Rattle.std.specs.Prelude.{◌≤◌, IfOk};

use command_parts::ProgramFault;
use payload_lists::write_list;
use rtr_ends::{
    Cache, Conn, Fetched, Link, Router, Served, StreamFault, fetch_stream, serve_stream,
};
use rtr_pdu::{Counted, MAX_UNIT_LEN, Version};
use std::alloc::Global;
use std::io;
use std::io::{ErrorKind, Read, Write};
use std::net::{
    IpAddr, Ipv4Addr, Net, OpenListener, OpenStream, Shutdown, SocketAddr, TcpListener, TcpStream,
};
use std::time::Duration;
use vrps::VersionLog;

/// How often is read on a connection at most.
const MOST_READS: u64 = 1_000_000;

/// How often is read at most on a connection that the cache has ended.
const LAST_READS: u32 = 64;

/// How long each of these reads waits at most, in milliseconds.
const LAST_WAIT: u64 = 250;

fn loopback(port: u16) -> SocketAddr {
    SocketAddr::new(IpAddr::V4(Ipv4Addr::LOCALHOST), port)
}

/// Opens a listener on this port of 127.0.0.1. With port 0, the system chooses a free one. `Err`: the error of the system, for example that the
/// port is in use.
pub fn listen<R: Net>(rt: &R, port: u16) -> io::Result<R::Listener> {
    TcpListener::bind(rt, loopback(port))
}

/// Opens a connection to this port of 127.0.0.1. `Err`: the error of the system, for example that nothing listens there.
pub fn dial<R: Net>(rt: &R, port: u16) -> io::Result<R::Stream> {
    TcpStream::connect(rt, loopback(port))
}

/// The next connection. One that its router gave up before it was accepted is skipped, and a call that was interrupted is made again.
fn accept<L: OpenListener>(listener: &L) -> io::Result<L::Stream> {
    for _call in 0..MOST_READS {
        match listener.accept() {
            Ok((stream, _peer)) => return Ok(stream),
            Err(error) if is_passing(error.kind()) => {}
            Err(error) => return Err(error),
        }
    }
    Err(io::Error::from(ErrorKind::ConnectionAborted))
}

/// Whether a fault at a listener says nothing of the connections that come after.
fn is_passing(kind: ErrorKind) -> bool {
    matches!(kind, ErrorKind::ConnectionAborted | ErrorKind::Interrupted)
}

/// Accepts and serves `connections` connections, one after the other. `Ok(None)`: none failed. `Ok(Some(fault))`: the fault of the first
/// connection that failed. The connections after it are served nevertheless. `Err`: an accept failed. No further connection is served. An accept
/// that was interrupted, or whose connection was aborted, is made again.
pub fn serve_all<L: OpenListener>(
    listener: &L,
    cache: &mut Cache<VersionLog>,
    connections: u32,
) -> io::Result<Option<StreamFault>>
where
    L::Stream: Read + Write + OpenStream + Drop,
{
    let mut first = None;
    for _connection in 0..connections {
        let fault = serve_one(cache, accept(listener)?);
        first = first.or(fault);
    }
    Ok(first)
}

/// Serves one connection. It answers how it failed, if it did; a socket that could not be prepared is one that could not be read.
fn serve_one<T: Read + Write + OpenStream + Drop>(
    cache: &mut Cache<VersionLog>,
    stream: T,
) -> Option<StreamFault> {
    match serve_prepared(cache, stream) {
        Ok(fault) => fault,
        Err(error) if error.kind() == ErrorKind::OutOfMemory => Some(StreamFault::Memory),
        Err(_) => Some(StreamFault::ReadFailed),
    }
}

/// Serves one connection whose last piece of an answer is not held back until the ones before it are acknowledged.
fn serve_prepared<T: Read + Write + OpenStream + Drop>(
    cache: &mut Cache<VersionLog>,
    stream: T,
) -> io::Result<Option<StreamFault>> {
    stream.set_nodelay(true)?;
    let mut left = stream.try_clone()?;
    let mut output = Counted::new(stream.try_clone()?);
    let mut input = Counted::new(stream);
    let served = serve_stream(cache, &mut input, &mut output, MOST_READS);
    if let Ok(Served::CacheEnded) = served {
        let_go(&mut left);
    }
    Ok(served.err())
}

/// Ends a connection at which the cache has stopped reading. If the socket were closed while bytes of the router are unread, the system
/// would reset the connection. The Error Report that was sent last could then be lost on its way. So the end of the output is sent, and
/// what still comes is read for some seconds at most.
fn let_go<T: Read + OpenStream>(stream: &mut T) {
    let mut room = [0u8; 32768];
    let wait = Some(Duration::from_millis(LAST_WAIT));
    if stream.shutdown(Shutdown::Write).is_err() || stream.set_read_timeout(wait).is_err() {
        return;
    }
    for _read in 0..LAST_READS {
        match stream.read(&mut room) {
            Ok(0) | Err(_) => return,
            Ok(_) => {}
        }
    }
}

/// Fetches all data with a new router over a connection, in this protocol version. The router's clock stays at second 0. `Ok`: the router, and
/// how the fetch ended. It is `Ended(Memory)` if memory ran out at the router. `Err`: a read, a write or another call of the connection failed,
/// perhaps for lack of memory.
pub fn fetch_all<T: Read + Write + OpenStream + Drop>(
    alloc: Global,
    stream: T,
    version: Version,
) -> Result<(Router, Fetched), ProgramFault> {
    let mut output = Counted::new(stream.try_clone()?);
    let mut input = Counted::new(stream);
    let mut router = Router::new(alloc);
    router.speak(version);
    match fetch_stream(&mut router, &mut input, &mut output, 0, MOST_READS) {
        Ok(fetched) => Ok((router, fetched)),
        Err(StreamFault::Memory) => Err(ProgramFault::Memory),
        Err(_) => Err(ProgramFault::Device),
    }
}

/// Opens a TCP connection from this process to itself over 127.0.0.1. Returns the router's socket, which connected, and the cache's socket,
/// which was accepted. `Err`: the error of the system.
pub fn connected<R: Net>(rt: &R) -> io::Result<(R::Stream, R::Stream)> {
    let listener = listen(rt, 0)?;
    let near = TcpStream::connect(rt, listener.local_addr()?)?;
    let (far, _peer) = listener.accept()?;
    Ok((near, far))
}

/// Fetches all data with a new router from `cache`, in protocol version 1. `near` is the router's socket and `far` the cache's, of one
/// connection. Both ends move bytes in turns of at most 4,096. The router's clock stays at second 0. `Ok`: the router, and how the fetch ended.
/// It is `Ended(Memory)` if memory ran out at the router. `Err`: a read or a write failed, or there was no memory for the connection at the
/// cache.
pub fn fetch_in_turns<T: Read + Write + Drop>(
    alloc: Global,
    cache: &mut Cache<VersionLog>,
    mut near: T,
    mut far: T,
) -> Result<(Router, Fetched), ProgramFault> {
    let conn = cache.open()?;
    let mut router = Router::new(alloc);
    router.connect(0);
    for _turn in 0..MOST_READS {
        let asked = send_question(&mut router, cache, conn, &mut near, &mut far)?;
        let told = send_answer(cache, conn, &mut router, &mut far, &mut near)?;
        if !asked && !told {
            break;
        }
    }
    let fetched = reached(&router);
    Ok((router, fetched))
}

/// Moves what is pending from a router to the cache. It answers whether there was anything.
fn send_question<T: Read + Write>(
    router: &mut Router,
    cache: &mut Cache<VersionLog>,
    conn: Conn,
    near: &mut T,
    far: &mut T,
) -> io::Result<bool> {
    let mut room = [0u8; MAX_UNIT_LEN];
    let count = router.pull(&mut room);
    near.write_all(&room[..count])?;
    far.read_exact(&mut room[..count])?;
    let mut rest = &room[..count];
    for _unit in 0..count {
        let taken = cache.receive(conn, rest);
        rest = rest.get(taken..).unwrap_or_default();
    }
    Ok(count > 0)
}

/// Moves what is due from the cache to a router. It answers whether there was anything.
fn send_answer<T: Read + Write>(
    cache: &mut Cache<VersionLog>,
    conn: Conn,
    router: &mut Router,
    far: &mut T,
    near: &mut T,
) -> io::Result<bool> {
    let mut room = [0u8; MAX_UNIT_LEN];
    let count = cache.pull(conn, &mut room);
    far.write_all(&room[..count])?;
    near.read_exact(&mut room[..count])?;
    let mut rest = &room[..count];
    for _unit in 0..count {
        let taken = router.receive(rest, 0);
        rest = rest.get(taken..).unwrap_or_default();
    }
    Ok(count > 0)
}

/// What a router has come to that asked on its first connection.
fn reached(router: &Router) -> Fetched {
    match router.link() {
        Link::Ended(end) => Fetched::Ended(end),
        Link::Idle if router.committed().is_some() => Fetched::Committed,
        Link::Idle => Fetched::NoData,
        _ => Fetched::Limit,
    }
}

/// Prints the line `committed SESSION SERIAL` for the data that a router holds. Prints nothing if it holds none.
/// `Err`: the output failed.
pub fn tell_committed<O: Write>(router: &Router, out: &mut O) -> io::Result<()> {
    match router.committed() {
        None => Ok(()),
        Some((_version, session, serial)) => writeln!(out, "committed {session} {}", serial.0),
    }
}

/// Prints the result of a fetch, and returns the exit status. `router` is the router that fetched.
/// Status 0 (`Committed`): prints the line of `tell_committed`, and then the table as a payload list.
/// Status 1: prints one line with the reason, `no-data`, `ended NUMBER`, `closed` or `limit`. `Err`: the output failed, or memory ran out.
pub fn tell_fetched<O: Write>(
    alloc: Global,
    router: &Router,
    fetched: Fetched,
    out: &mut O,
) -> Result<u8, ProgramFault>
    ensures { IfOk result (λ s. s ≤ 1) }
{
    match fetched {
        Fetched::Committed => {
            tell_committed(router, out)?;
            let text = write_list(alloc, router.table().as_slice())?;
            writeln!(out, "{text}")?;
            return Ok(0);
        }
        Fetched::NoData => writeln!(out, "no-data")?,
        Fetched::Ended(end) => writeln!(out, "ended {}", end.number())?,
        Fetched::PeerClosed => writeln!(out, "closed")?,
        Fetched::Limit => writeln!(out, "limit")?,
    }
    Ok(1)
}
