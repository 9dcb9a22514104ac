//! A router client (RFC 8210) that stays connected. It follows the cache at an address over TCP, and prints each change of its records on
//! standard output:
//!
//! - `+ 192.0.2.0/24-24 AS64496` and `- ..`: a record was announced or withdrawn. The number after the prefix is its maximum length.
//! - `serial 7 session 4660 records 12`: that was a commit, and 12 records are held.
//! - `ended: WHY`: the connection ended. The next one follows after the retry interval, and asks for what changed since the serial.
//! - `expired records 12`: the data expired (RFC 8210 section 6), so all were withdrawn.
//! - `dropped records 12`: the cache has another session (section 5.1), so all were withdrawn.
//!
//! To feed a routing table of your own, replace what `Follower` prints. The router, its timers and its connection are an `Upstream`, over any
//! transport that has a `Stream`. `Client` dials, waits and passes the time. A cache that leaves a query without an answer is given up after a
//! minute. A cache that speaks version 0 alone is asked again in that version (section 7). If the router holds nothing, the wait for the next
//! connection is ten seconds at most.
//!
//! Each loop is proved to end, so those that run as long as the client does are counted.
#![tactic(auto)]

use anyhow::{Result, bail};
use rtr_ends::{CommittedVersion, End, Router};
use rtr_server::Duplex;
use std::alloc::Global;
use std::io::{self, BufWriter, Write};
use std::net::{Net, OpenStream, SocketAddr, TcpStream};
use std::time::{Clock, Duration, Instant};
use std::{env, mem, thread};
use thiserror::Error;
use upstreams::{DisconnectReason, PollOutcome, Upstream};
use vrps::VrpSet;

/// The longest time for a connection to be made, in seconds.
const CONNECT_WAIT: u64 = 10;

/// The longest silence of the cache while a query is outstanding, in seconds.
const ANSWER_WAIT: u64 = 60;

/// The longest wait for the next connection while the router holds nothing, in seconds.
const EMPTY_WAIT: u64 = 10;

/// The longest wait before the timers run, in seconds.
const TICK: u64 = 1;

/// Why a connection ended. Another one may succeed.
#[derive(Debug, Drop, Error)]
enum Lost {
    /// The cache closed it.
    #[error("the cache closed the connection")]
    Closed,
    /// A query had no answer in time.
    #[error("the cache was silent while a query was outstanding")]
    Silent,
    /// The router's link ended.
    #[error("{0}")]
    Link(End),
    /// A read or a write failed.
    #[error("the connection was reset")]
    Reset,
    /// It could not be made.
    #[error("{0}")]
    Socket(io::Error),
}

impl From<DisconnectReason> for Lost {
    fn from(reason: DisconnectReason) -> Lost {
        match reason {
            DisconnectReason::PeerClosed => Lost::Closed,
            DisconnectReason::LinkEnded(end) => Lost::Link(end),
            DisconnectReason::ReadFailed | DisconnectReason::WriteFailed => Lost::Reset,
            DisconnectReason::Stalled | DisconnectReason::TimedOut => Lost::Silent,
        }
    }
}

/// The follower of a router: the records that it has printed, and their version.
#[derive(Drop)]
struct Follower<W: Write + Drop> {
    alloc: Global,
    output: BufWriter<W>,
    records: VrpSet,
    version: Option<CommittedVersion>,
    /// The number of commits that are still to be printed.
    left: u64,
}

impl<W: Write + Drop> Follower<W> {
    /// Prints what the router committed or dropped since the last call. Another commit is another version, as two sets of one session have
    /// two serials (RFC 8210 section 5.1).
    fn follow(&mut self, router: &Router, now: u64) -> Result<()> {
        let version = router.committed_version();
        if version == self.version {
            return Ok(());
        }
        match &version {
            Some(version) => self.commit(router, version)?,
            None => self.withdraw_all(now)?,
        }
        self.version = version;
        self.output.flush()?;
        Ok(())
    }

    /// Prints the latest commit.
    fn commit(&mut self, router: &Router, version: &CommittedVersion) -> Result<()> {
        if let Some(change) = router.last_change()? {
            self.records = change.apply(self.alloc, &self.records)?;
            self.print_all('-', &change.withdraw)?;
            self.print_all('+', &change.announce)?;
        }
        let (serial, session, count) = (version.serial, version.session, self.records.len());
        writeln!(
            self.output,
            "serial {serial} session {session} records {count}"
        )?;
        self.left = self.left.saturating_sub(1);
        Ok(())
    }

    /// Prints that the router dropped all: the records expired, or the cache has another session.
    fn withdraw_all(&mut self, now: u64) -> Result<()> {
        let records = VrpSet::empty(self.alloc);
        let dropped = mem::replace(&mut self.records, records);
        self.print_all('-', &dropped)?;
        let word = match &self.version {
            Some(it) if now.saturating_sub(it.moment) > u64::from(it.expire) => "expired",
            _ => "dropped",
        };
        writeln!(self.output, "{word} records {}", dropped.len())?;
        Ok(())
    }

    /// Prints a line for each record.
    fn print_all(&mut self, sign: char, records: &VrpSet) -> io::Result<()> {
        for vrp in records {
            let (prefix, max_len, asn) = (vrp.prefix(), vrp.max_len(), vrp.asn());
            writeln!(self.output, "{sign} {prefix}-{max_len} AS{asn}")?;
        }
        Ok(())
    }

    /// Prints how a connection ended.
    fn print_end(&mut self, lost: &Lost) -> io::Result<()> {
        writeln!(self.output, "ended: {lost}")?;
        self.output.flush()
    }
}

/// A router that follows one cache over TCP.
#[derive(Drop)]
struct Client<'a, R: Net, W: Write + Drop> {
    rt: &'a R,
    /// The start of its clock, which counts seconds and never goes back.
    began: Instant,
    upstream: Upstream<Duplex<R::Stream, R::Stream>>,
    follower: Follower<W>,
}

impl<'a, R: Clock + Net, W: Write + Drop> Client<'a, R, W> {
    /// Follows the cache at an address, on one connection after another, until all commits are printed.
    fn run(&mut self, address: &SocketAddr) -> Result<()> {
        for _ in 0..u64::MAX {
            if self.follower.left == 0 {
                break;
            }
            if let Some(lost) = self.session(address)? {
                self.lose(&lost)?;
            }
        }
        Ok(())
    }

    /// Follows the cache on one connection. It returns why that ended, or `None` if all commits are printed.
    fn session(&mut self, address: &SocketAddr) -> Result<Option<Lost>> {
        let now = self.now()?;
        match dial(self.rt, address) {
            Ok(stream) => {
                self.upstream.connect(stream, now);
                self.talk()
            }
            Err(error) => {
                self.upstream.connect_failed(now);
                Ok(Some(Lost::Socket(error)))
            }
        }
    }

    /// Runs the router over the connection. It returns why that ended, or `None` if all commits are printed.
    fn talk(&mut self) -> Result<Option<Lost>> {
        for _ in 0..u64::MAX {
            let stalled = self.tick()?;
            if self.follower.left == 0 {
                break;
            }
            let lost = match stalled {
                Some(reason) => Some(reason),
                None => self.exchange()?,
            };
            if let Some(reason) = lost {
                return Ok(Some(Lost::from(reason)));
            }
        }
        Ok(None)
    }

    /// Runs the timers, and prints what expired. It returns why the connection ended, if it was silent for too long.
    fn tick(&mut self) -> Result<Option<DisconnectReason>> {
        let now = self.now()?;
        let stalled = self.upstream.tick(now);
        self.follower.follow(self.upstream.router(), now)?;
        Ok(stalled)
    }

    /// Makes one call of the socket, and prints what follows from it: so no commit is missed. It returns why the connection ended, if it did.
    /// If there is nothing to read, it waits.
    fn exchange(&mut self) -> Result<Option<DisconnectReason>> {
        let now = self.now()?;
        let outcome = self.upstream.poll(now, 1);
        self.follower.follow(self.upstream.router(), now)?;
        match outcome {
            PollOutcome::Disconnected(reason) => return Ok(Some(reason)),
            PollOutcome::WaitsToRead | PollOutcome::WaitsToWrite => self.await_bytes()?,
            PollOutcome::Busy | PollOutcome::NotConnected => {}
        }
        Ok(None)
    }

    /// Waits for bytes of the cache, a tick at most.
    fn await_bytes(&self) -> io::Result<()> {
        let Some(stream) = self.upstream.stream() else {
            return Ok(());
        };
        stream.input.set_nonblocking(false)?;
        let _came = stream.input.peek(&mut [0]);
        stream.input.set_nonblocking(true)
    }

    /// Prints why a connection ended, and waits until the next one is due. That is at once if the cache has another session, or asks for version 0.
    fn lose(&mut self, lost: &Lost) -> Result<()> {
        self.follower.print_end(lost)?;
        self.wait()
    }

    /// Waits until the next connection is due. Records can expire meanwhile.
    fn wait(&mut self) -> Result<()> {
        let began = self.now()?;
        for _ in 0..u64::MAX {
            self.tick()?;
            let now = self.now()?;
            if self.upstream.is_due(now) || self.is_empty_since(began, now) {
                break;
            }
            thread::sleep(self.rt, Duration::from_secs(TICK));
        }
        Ok(())
    }

    /// Whether the router holds nothing, and the wait for the next connection has been long enough for that.
    fn is_empty_since(&self, began: u64, now: u64) -> bool {
        self.upstream.committed().is_none() && now.saturating_sub(began) >= EMPTY_WAIT
    }

    /// The time by its clock.
    fn now(&self) -> io::Result<u64> {
        Ok(Instant::now(self.rt)?.duration_since(self.began).as_secs())
    }
}

/// Connects to an address. No call of the stream blocks.
fn dial<R: Net>(rt: &R, address: &SocketAddr) -> io::Result<Duplex<R::Stream, R::Stream>> {
    let wait = Duration::from_secs(CONNECT_WAIT);
    let output = TcpStream::connect_timeout(rt, address, wait)?;
    output.set_nodelay(true)?;
    output.set_read_timeout(Some(Duration::from_secs(TICK)))?;
    output.set_nonblocking(true)?;
    let input = output.try_clone()?;
    Ok(Duplex { input, output })
}

fn main(rt: HostRuntime) -> Result<()> {
    let words: Vec<String> = env::args(&rt)?.skip(1).collect(rt.alloc())?;
    let (address, commits) = read_words(words.as_slice())?;
    let follower = Follower {
        alloc: rt.alloc(),
        output: BufWriter::new(rt.alloc(), rt.stdout())?,
        records: VrpSet::empty(rt.alloc()),
        version: None,
        left: commits,
    };
    let mut client = Client {
        rt: &rt,
        began: Instant::now(&rt)?,
        upstream: Upstream::new(rt.alloc(), ANSWER_WAIT),
        follower,
    };
    client.run(&address)
}

/// The address of the cache, and how many commits are printed before the program ends.
fn read_words(words: &[String]) -> Result<(SocketAddr, u64)> {
    match words {
        [address] => Ok((address.parse()?, u64::MAX)),
        [address, commits] => Ok((address.parse()?, commits.parse()?)),
        _ => bail!("usage: example_router_tcp ADDRESS:PORT [COMMITS]"),
    }
}
