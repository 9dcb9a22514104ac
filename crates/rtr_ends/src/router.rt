//! Routers, over any transport.
ghost use Rattle.rtr_pdu.specs.Reader.{after_agreed};
ghost use Rattle.std.specs.Prelude.{if◌then◌else◌, ℕ, List, Option, ◌≡◌, ◌<◌, ◌≤◌, ◌&&◌, not, true, false, [], ◌++◌, take, drop, min, length, option_map, IfOk};
ghost use Rattle.rtr_ends.specs.Cache.{is_none};
ghost use Rattle.rtr_ends.specs.Router as model;
ghost use Rattle.rtr_ends.specs.RouterLink as linked;
ghost use Rattle.rtr_ends.specs.LinkRules as rules;
ghost use Rattle.rtr_ends.specs.Router.{called};
ghost use Rattle.rtr_ends.specs.Seen.{ShowsRouter, seen_link, seen_versions};
ghost use Rattle.rtr_ends.specs.Transcript.{configured, due, kept, last_change};
ghost use Rattle.rtr_ends.specs.Wake.{WakesAt};
ghost use Rattle.rtr_ends.specs.Peer.{HasBufferRoom};
ghost use Rattle.rtr_ends.specs.RouterLink.{asked_on, name_of, told_link};
ghost use Rattle.vrps.specs.Origin.{covering, state};

use crate::configuration::RouterConfig;
use crate::link::{AskFault, Link};
use crate::machine::{Machine, State};
use crate::question::CommittedVersion;
use prefixes::{Route, Vrp};
use rtr_pdu::{Next, UnitReader, Version};
use std::alloc::{AllocError, Global};
use vrps::{Change, OriginState, Serial, VrpSet};

/// The router of the RTR protocol: its committed table, and at most one connection (RFC 6810, RFC 8210 sections 5 to 8). It handles bytes only:
/// the caller does the input and output. Times are in seconds of a clock that the caller supplies. If a time is below the greatest one so far,
/// that greatest one counts.
#[derive(Debug, Drop)]
pub struct Router {
    machine: Machine,
    reader: UnitReader,
}

impl Router {
    ghost use Rattle.rtr_ends.specs.RouterShown.{Calls, IsShown, CallsLead, LeadsOn, ReceivesSo, TakesOn, held_by_router};

    /// A router that has committed nothing and has no connection. Its connections are of version 1 of the protocol, unless `speak` sets another.
    /// Allocates no memory.
    pub fn new(alloc: Global) -> Router
        ensures { IsShown rules.new_router result }
    {
        Router {
            machine: Machine::new(alloc),
            reader: UnitReader::for_router(Version::V1),
        }
    }

    /// Sets the version of the protocol for all later connections. An open connection keeps its version. Allocates no memory.
    pub fn speak(&mut self, version: Version)
        ensures calls { Calls (λ r. (called (model.Speaks version) r).router) self.old self.new }
        ensures leads { LeadsOn (model.Speaks version) self.old self.new }
    {
        self.machine.speaks = version;
    }

    /// Sets the configuration. It applies to later commits, and to later records of an answer that is under way. What is committed keeps its
    /// intervals. While nothing is committed, a later failure uses the new retry interval. Sends nothing, and allocates no memory.
    pub fn configure(&mut self, config: RouterConfig)
        ensures calls { Calls (λ r. (called (model.Configures config) r).router) self.old self.new }
        ensures leads { LeadsOn (model.Configures config) self.old self.new }
    {
        self.machine.config = config;
    }

    /// The configuration that was set last, or the default if none was set.
    pub fn config(&self) -> &RouterConfig
        ensures shown { (r : rules.Router) → IsShown r self.now → result.now ≡ r.config }
        ensures kept { (calls : List model.RouterCall) → CallsLead calls self.now → result.now ≡ configured (model.played calls).items }
    {
        &self.machine.config
    }

    /// Starts a connection and queues its first query, to be pulled. Call it once the transport is connected. The connection has the version
    /// that `speak` set last. An older connection is closed.
    /// `now` is in seconds of the caller's clock. A committed table that has expired at `now` is dropped first. Allocates no memory.
    pub fn connect(&mut self, now: u64)
        ensures calls { Calls (λ r. (called (model.Connects now) r).router) self.old self.new }
        ensures leads { LeadsOn (model.Connects now) self.old self.new }
    {
        self.machine.connect(now);
        self.reader = UnitReader::for_router(self.machine.spoken);
    }

    /// Notes that the transport connection is closed. Advances the clock to `now`, in seconds of the caller's clock. Drops the pending bytes and the
    /// unfinished answer. The committed table stays, unless it has expired at `now`.
    /// If there was a connection, the next query is due after the retry interval. If there was none, `due` stays. Allocates no memory.
    pub fn closed(&mut self, now: u64)
        ensures calls { Calls (λ r. (called (model.Closes now) r).router) self.old self.new }
        ensures leads { LeadsOn (model.Closes now) self.old self.new }
    {
        self.machine.closed(now);
    }

    /// Advances the clock to `now`, in seconds of the caller's clock. Drops the committed table if it has expired. If a Serial Query is
    /// outstanding then, the link ends with `End::Expired`, and pending bytes are dropped.
    /// Queues a query if the link is idle and the query is due. Allocates no memory.
    pub fn tick(&mut self, now: u64)
        ensures calls { Calls (λ r. (called (model.Ticks now) r).router) self.old self.new }
        ensures leads { LeadsOn (model.Ticks now) self.old self.new }
    {
        self.machine.tick(now);
    }

    /// Queues a query at once, to be pulled, if the link is idle. Otherwise returns an error: `Busy` if a query is outstanding, `NotConnected`
    /// if no link is open. Allocates no memory.
    pub fn ask(&mut self) -> Result<(), AskFault>
        ensures calls { Calls (λ r. (called model.AsksNow r).router) self.old self.new }
        ensures leads { LeadsOn model.AsksNow self.old self.new }
        ensures result { (r : rules.Router) → IsShown r self.old → result ≡ asked_on r.link }
    {
        match self.machine.state {
            State::Idle => {
                let _asks = self.machine.ask_idle();
                Ok(())
            }
            State::Asked(_) => Err(AskFault::Busy),
            State::Answering { .. } => Err(AskFault::Busy),
            State::Closed => Err(AskFault::NotConnected),
            State::Ended(_) => Err(AskFault::NotConnected),
        }
    }

    /// Moves pending bytes for the cache into the front of `room`, as many as fit. Returns how many: 0 if none are pending. Allocates no memory.
    pub fn pull(&mut self, room: &mut [u8]) -> usize
        ensures calls { Calls (λ r. (called (model.Pulls (length room.old)) r).router) self.old self.new }
        ensures leads { LeadsOn (model.Pulls (length room.old)) self.old self.new }
        ensures within { result ≤ length room.old }
        ensures bytes { (r : rules.Router) → IsShown r self.old → (result ≡ min (length room.old) (length r.out)) × (room.new ≡ take (length room.old) r.out ++ drop (length r.out) room.old) }
    {
        self.machine.out.pull(room)
    }

    /// Returns whether bytes for the cache are pending, to be pulled.
    pub fn has_bytes(&self) -> bool
        ensures { (r : rules.Router) → IsShown r self.now → is_none r.out ≡ not result }
    {
        !self.machine.out.is_empty()
    }

    /// The committed set of VRPs. It is empty if nothing is committed.
    pub fn table(&self) -> &VrpSet
        ensures shown { (r : rules.Router) → IsShown r self.now → result.now ≡ r.table }
        ensures kept { (calls : List model.RouterCall) → CallsLead calls self.now → result.now ≡ (kept (model.played calls).items).table }
    {
        self.machine.table.set()
    }

    /// The committed version: its version of the protocol, its session ID and its serial. `None`: nothing is committed, or it was dropped since.
    pub fn committed(&self) -> Option<(Version, u16, Serial)>
        ensures shown { (r : rules.Router) → IsShown r self.now → option_map (λ name. (name.0, name.1, name.2.0)) result ≡ name_of r.version }
        ensures kept { (calls : List model.RouterCall) → CallsLead calls self.now → option_map (λ name. (name.0, name.1, name.2.0)) result ≡ name_of (kept (model.played calls).items).version }
    {
        match &self.machine.version {
            Some(version) => Some((version.version, version.session, version.serial)),
            None => None,
        }
    }

    /// The committed version with the time of its commit and its intervals, in seconds of the caller's clock. `None`: nothing is committed, or
    /// it was dropped since.
    pub fn committed_version(&self) -> Option<CommittedVersion>
        ensures shown { (r : rules.Router) → IsShown r self.now → seen_versions result ≡ r.version }
        ensures kept { (calls : List model.RouterCall) → CallsLead calls self.now → seen_versions result ≡ (kept (model.played calls).items).version }
    {
        self.machine.version
    }

    /// The change of the latest commit: the records by which the committed table differs from the table before it. `Ok(None)`: nothing is
    /// committed, so whoever follows the table drops all records. Returns an error if memory runs out. The time is linear in the records of both
    /// tables.
    pub fn last_change(&self) -> Result<Option<Change>, AllocError>
        ensures shown { (r : rules.Router) → IsShown r self.now → IfOk result (λ change. change ≡ last_change (record { version = r.version; table = r.table; before = r.before })) }
        ensures kept { (calls : List model.RouterCall) → CallsLead calls self.now → IfOk result (λ change. change ≡ last_change (kept (model.played calls).items)) }
    {
        match &self.machine.version {
            None => Ok(None),
            Some(_) => {
                let table = self.machine.table.set();
                let change = Change::between(self.machine.alloc, &self.machine.before, table)?;
                Ok(Some(change))
            }
        }
    }

    /// The committed VRPs whose prefix covers that of the route (RFC 6811 section 2), in ascending order. The list is empty if there are none.
    /// The origin and the maximum lengths do not matter. Returns an error if memory runs out.
    pub fn covering(&self, route: &Route) -> Result<Vec<Vrp>, AllocError>
        ensures { (r : rules.Router) → IsShown r self.now → IfOk result (λ records. records.items ≡ covering r.table route.now) }
    {
        self.machine.table.covering(self.machine.alloc, route)
    }

    /// The origin validation state of the route over the committed table: valid, invalid or not found (RFC 6811 section 2). Allocates no memory.
    pub fn route_state(&self, route: &Route) -> OriginState
        ensures { (r : rules.Router) → IsShown r self.now → result ≡ state r.table route.now }
    {
        self.machine.table.state(route)
    }

    /// When to query again, in seconds of the caller's clock: refresh seconds after a commit, or retry seconds after No Data to a query or after
    /// a close. The latest of these events counts. If the link is idle, `tick` sends the query then. If it is closed, connect again then.
    /// `None`: no such event yet.
    pub fn due(&self) -> Option<u64>
        ensures shown { (r : rules.Router) → IsShown r self.now → result ≡ r.due }
        ensures kept { (calls : List model.RouterCall) → CallsLead calls self.now → result ≡ due (model.played calls).items }
    {
        self.machine.due
    }

    /// When to call `tick` next, in seconds of the caller's clock. It is when an idle link is due to query, or when the committed version
    /// expires (RFC 8210 section 6). Before it, `tick` only advances the clock. If it has passed, call `tick` at once. `None`: there is nothing
    /// to wait for. Each other call may change it.
    pub fn wake_at(&self) -> Option<u64>
        ensures { (r : rules.Router) → IsShown r self.now → WakesAt result r }
    {
        self.machine.wake_at()
    }

    /// The state of the link to the cache. The clock does not advance. After `Link::Ended`, close the transport and call `closed`.
    pub fn link(&self) -> Link
        ensures { (r : rules.Router) → IsShown r self.now → result ≡ told_link r.link }
    {
        match self.machine.state {
            State::Closed => Link::Closed,
            State::Idle => Link::Idle,
            State::Asked(_) => Link::Asked,
            State::Answering { .. } => Link::Answering,
            State::Ended(end) => Link::Ended(end),
        }
    }

    /// Whether code 2, No Data Available, and no commit brought a link to idle last.
    pub(crate) fn no_data(&self) -> bool
        ensures { (r : rules.Router) → IsShown r self.now → result ≡ r.no_data }
    {
        self.machine.no_data
    }

    /// The bytes that it holds: received that are no whole PDU yet, and to be pulled.
    pub(crate) fn room(&self)
        ensures { HasBufferRoom (held_by_router self.now) }
    {
        let _received = self.reader.held();
        let _ready = self.machine.out.len();
    }

    /// Receives bytes from the cache, and returns how many were consumed. `now` is in seconds of the caller's clock, which advances first. A
    /// table that has expired is dropped then, as by `tick`.
    /// Returns 0 if bytes are pending (call `pull` first) or no link is open. Otherwise consumes up to the first PDU or fault that makes bytes
    /// pending or ends the link. If there is none, consumes all of `piece`.
    /// If memory runs out, the link ends with `End::Memory`, and the committed table stays.
    pub fn receive(&mut self, piece: &[u8], now: u64) -> usize
        ensures shown { ReceivesSo now piece.now result self.old self.new }
        ensures leads { (wanting : Option ℕ) × LeadsOn (model.Receives now wanting piece.now) self.old self.new }
        ensures within { result ≤ length piece.now }
    {
        self.machine.advance_clock(now);
        let mut rest = piece;
        self.take(&mut rest);
        piece.len() - rest.len()
    }

    /// Consumes bytes from the front of the piece.
    fn take(&mut self, piece: &mut &[u8])
        ensures takes { TakesOn false self.old piece.old.now self.new piece.new.now }
        ensures less { length piece.new.now ≤ length piece.old.now }
    {
        while self.machine.takes() {
            if !self.step(piece) {
                return;
            }
        }
    }

    /// Consumes the bytes up to the end of a PDU, or all of them, or up to a fault; whether it was a PDU.
    fn step(&mut self, piece: &mut &[u8]) -> bool
        requires { (linked.is_reading (seen_link self.old.machine.state [] []) && is_none self.old.machine.out) ≡ true }
        ensures takes { TakesOn result self.old piece.old.now self.new piece.new.now }
        ensures less { result ≡ true → length piece.new.now < length piece.old.now }
        ensures within { length piece.new.now ≤ length piece.old.now }
    {
        if let Some(found) = self.reader.next_prefix(piece) {
            self.machine.follow(self.reader.expected());
            let _lacks = self.machine.read_prefix(found.0, &found.1);
            self.agree();
            return true;
        }
        self.step_unit(piece)
    }

    /// As `step`, for a PDU of any type.
    #[inline(never)]
    fn step_unit(&mut self, piece: &mut &[u8]) -> bool
        requires { (linked.is_reading (seen_link self.old.machine.state [] []) && is_none self.old.machine.out) ≡ true }
        ensures takes { TakesOn result self.old piece.old.now self.new piece.new.now }
        ensures less { result ≡ true → length piece.new.now < length piece.old.now }
        ensures within { length piece.new.now ≤ length piece.old.now }
    {
        match self.reader.next(piece) {
            Next::Unit(unit) => {
                self.machine.follow(self.reader.expected());
                let _lacks = self.machine.read(&unit);
                self.agree();
                true
            }
            Next::NeedMore => false,
            Next::Fault(fault) => {
                self.machine.on_fault(fault, self.reader.held());
                false
            }
        }
    }

    /// Informs the reader of the agreement on a version, if there is one.
    fn agree(&mut self)
        ensures { self.new ≡ record self.old { reader = if self.old.machine.agreed then after_agreed self.old.reader else self.old.reader } }
    {
        if self.machine.agreed {
            self.reader.agreed();
        }
    }
}
