//! A cache (RFC 8210) over a transport of one's own, which here is frames over the standard streams. A router's frames come on standard
//! input, and the cache's go to standard output. Over any transport it does the same: it publishes, opens a connection, passes in what
//! comes on it, sends what is due, and closes it in the end. The SSH subsystem `rpki-rtr` (RFC 8210 section 9.1) has these bytes without
//! frames.
//!
//! Its words are the session and the serial of the first version. A cache that starts again without its earlier versions must not give a
//! new set an old name (RFC 8210 section 5.1). It uses another session, or continues with later serials, such as the seconds of a clock.
//!
//! Each loop is proved to end, so those that run as long as frames come are counted.
#![tactic(auto)]

use anyhow::{Result, bail};
use example_frames::{FrameReader, write_frame};
use prefixes::{Asn, Vrp};
use rtr_ends::{Cache, Conn, Timing};
use std::alloc::Global;
use std::env;
use std::io::{self, Read, Write};
use vrps::{VersionLog, VrpSet};

/// What the versions are called (RFC 8210 section 5.1): the session, and the serial of the first one.
#[derive(Clone, Copy)]
struct Names {
    session: u16,
    serial: u32,
}

/// How many versions before the current one are kept, to answer a router what changed since.
const KEPT_VERSIONS: u32 = 16;

/// What is published: prefixes, the greatest lengths of their routes, and the AS that announces these.
const PAYLOADS: [(&str, u8, Asn); 3] = [
    ("192.0.2.0/24", 24, Asn(64496)),
    ("198.51.100.0/24", 26, Asn(64497)),
    ("2001:db8::/32", 48, Asn(64497)),
];

fn main(rt: HostRuntime) -> Result<()> {
    let words: Vec<String> = env::args(&rt)?.skip(1).collect(rt.alloc())?;
    let mut cache = published(rt.alloc(), read_names(words.as_slice())?)?;
    let mut frames = FrameReader::new(rt.alloc(), rt.stdin());
    let conn = cache.open()?;
    let served = serve(&mut cache, conn, &mut frames, &mut rt.stdout());
    cache.close(conn);
    served
}

/// The names that two words write.
fn read_names(words: &[String]) -> Result<Names> {
    match words {
        [session, serial] => Ok(Names {
            session: session.parse()?,
            serial: serial.parse()?,
        }),
        _ => bail!("usage: example_cache SESSION SERIAL"),
    }
}

/// A cache that has published the payloads, and as yet has no connection.
fn published(alloc: Global, names: Names) -> Result<Cache<VersionLog>> {
    let mut list = Vec::new(alloc);
    for (prefix, max_len, asn) in PAYLOADS {
        list.push(Vrp::new(prefix.parse()?, max_len, asn)?)?;
    }
    let store = VersionLog::new(alloc, names.session, names.serial, KEPT_VERSIONS)?;
    let mut cache = Cache::new(alloc, store, Timing::default());
    cache.publish(VrpSet::from_list(list)?)?;
    Ok(cache)
}

/// Answers the frames of a router, until they end or the connection does.
fn serve<R: Read, W: Write>(
    cache: &mut Cache<VersionLog>,
    conn: Conn,
    frames: &mut FrameReader<R>,
    output: &mut W,
) -> Result<()> {
    for _ in 0..u64::MAX {
        let Some(bytes) = frames.read_frame()? else {
            break;
        };
        answer(cache, conn, &bytes, output)?;
        if !cache.is_open(conn) {
            bail!("the connection ended by an Error Report");
        }
    }
    if cache.is_within_unit(conn) {
        bail!("the input ended inside a PDU");
    }
    Ok(())
}

/// Passes in bytes of the router, and sends what becomes due to it. A call consumes them up to the end of a query, whose answer is sent
/// before the next one is read. It consumes none once the connection has ended.
fn answer<W: Write>(
    cache: &mut Cache<VersionLog>,
    conn: Conn,
    bytes: &[u8],
    output: &mut W,
) -> io::Result<()> {
    let mut rest = bytes;
    for _ in 0..u64::MAX {
        let taken = cache.receive(conn, rest);
        send_due(cache, conn, output)?;
        if taken == 0 {
            break;
        }
        rest = &rest[taken..];
    }
    Ok(())
}

/// Sends what is due to the router, in frames of up to 4,096 bytes.
fn send_due<W: Write>(cache: &mut Cache<VersionLog>, conn: Conn, output: &mut W) -> io::Result<()> {
    let mut room = [0; 4096];
    for _ in 0..u64::MAX {
        let count = cache.pull(conn, &mut room);
        if count == 0 {
            break;
        }
        write_frame(output, &room[..count])?;
    }
    Ok(())
}
