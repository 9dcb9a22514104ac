//! A router (RFC 8210) over a transport of one's own, which here is frames over the standard streams. The cache's frames come on standard
//! input, and the router's go to standard output. So what it holds in the end is printed on standard error. Over any transport it does the
//! same: it connects, sends its question, passes in what comes, and looks at its link.
//!
//! A router that continues calls `tick` when `due` has come, so a read from its transport has to end by then. Data that are not refreshed
//! expire (RFC 8210 section 6), and a router must not block for ever on a silent cache. Here reads wait, and the clock is looked at after
//! each.
//!
//! Each loop is proved to end, so those that run as long as frames come are counted.
#![tactic(auto)]

use anyhow::{Result, bail};
use example_frames::{FrameReader, write_frame};
use prefixes::{IpPrefix, Route};
use rtr_ends::{Link, Router};
use std::io::{self, Read, Write};
use std::time::{Clock, Instant};

/// A clock of seconds that never goes back.
#[derive(Clone, Copy)]
struct Seconds<'a, C> {
    rt: &'a C,
    began: Instant,
}

impl<'a, C: Clock> Seconds<'a, C> {
    /// It begins at 0.
    fn new(rt: &'a C) -> io::Result<Seconds<'a, C>> {
        Ok(Seconds {
            rt,
            began: Instant::now(rt)?,
        })
    }

    fn now(&self) -> io::Result<u64> {
        Ok(Instant::now(self.rt)?.duration_since(self.began).as_secs())
    }
}

fn main(rt: HostRuntime) -> Result<()> {
    let mut router = Router::new(rt.alloc());
    let mut frames = FrameReader::new(rt.alloc(), rt.stdin());
    let clock = Seconds::new(&rt)?;
    router.connect(clock.now()?);
    fetch(&mut router, &mut frames, &mut rt.stdout(), &clock)?;
    router.closed(clock.now()?);
    report(&rt, &router)
}

/// Sends the router's question, which is a Reset Query as it holds nothing yet, and reads frames until that is answered.
fn fetch<R: Read, W: Write, C: Clock>(
    router: &mut Router,
    frames: &mut FrameReader<R>,
    output: &mut W,
    clock: &Seconds<'_, C>,
) -> Result<()> {
    send_due(router, output)?;
    for _ in 0..u64::MAX {
        if is_answered(router)? {
            return Ok(());
        }
        let Some(bytes) = frames.read_frame()? else {
            break;
        };
        let now = clock.now()?;
        router.tick(now);
        take(router, &bytes, output, now)?;
    }
    bail!("the input ended before the End of Data");
}

/// Whether the router holds what the cache has. It is an error if it never will.
fn is_answered(router: &Router) -> Result<bool> {
    match router.link() {
        Link::Asked | Link::Answering => Ok(false),
        Link::Idle if router.committed().is_none() => bail!("the cache has no data"),
        Link::Idle => Ok(true),
        Link::Ended(end) => bail!("{end}"),
        Link::Closed => bail!("there is no connection"),
    }
}

/// Passes in these bytes of the cache at a moment, and sends what becomes due to it.
fn take<W: Write>(router: &mut Router, bytes: &[u8], output: &mut W, now: u64) -> io::Result<()> {
    let mut rest = bytes;
    for _ in 0..u64::MAX {
        let taken = router.receive(rest, now);
        send_due(router, output)?;
        if taken == 0 {
            break;
        }
        rest = &rest[taken..];
    }
    Ok(())
}

/// Sends what is pending to the cache, in frames of up to 4,096 bytes.
fn send_due<W: Write>(router: &mut Router, output: &mut W) -> io::Result<()> {
    let mut room = [0; 4096];
    for _ in 0..u64::MAX {
        let count = router.pull(&mut room);
        if count == 0 {
            break;
        }
        write_frame(output, &room[..count])?;
    }
    Ok(())
}

/// Prints what the router holds, and the state of a route over it (RFC 6811 section 2).
fn report(rt: &impl Eprint, router: &Router) -> Result<()> {
    if let Some((_, session, serial)) = router.committed() {
        eprintln!(rt; "session {session}, serial {serial}")?;
    }
    for vrp in router.table() {
        eprintln!(rt; "{vrp}")?;
    }
    let route = Route {
        prefix: IpPrefix::parse("192.0.2.0/24")?,
        origin: Some(64497),
    };
    let state = router.route_state(&route);
    eprintln!(rt; "{route} is {state}")?;
    Ok(())
}
