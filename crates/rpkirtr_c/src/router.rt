//! A router for C.
ghost use Rattle.std.specs.Prelude.{◌≡◌, ℤ, ◌≤◌, length, take, Option, Some, None, is_none, option_map, false};
ghost use Rattle.std.specs.Coded.{coded_option};
ghost use Rattle.rpkirtr_c.specs.declared.session.Session.{Session};
ghost use Rattle.rpkirtr_c.specs.contracts.session.Session as session;
ghost use Rattle.rpkirtr_c.specs.Answers.{number};
ghost use Rattle.rpkirtr_c.specs.Live.{Freed, New, On};
ghost use Rattle.rpkirtr_c.specs.Sessions.{Carries, IsPulled, IsSpoken, Makes, Receives, Shows, Wakes, ask_answer};
ghost use Rattle.rpkirtr_c.specs.Carried.{IsTold, and_sent};
ghost use Rattle.rpkirtr_c.specs.Configurations.{IsConfigTold, IsConfigured};
ghost use Rattle.rtr_ends.specs.Transcript.{retry_of, sum_of};
ghost use Rattle.rtr_ends.specs.Configuration.{default_config};
ghost use Rattle.rpkirtr_c.specs.Links.{committed_of, link_of, moment_of, never};
ghost use Rattle.rtr_ends.specs.RouterLink.{asked_on, told_link};
ghost use Rattle.rtr_ends.specs.declared.link.Link.TheVariants as links;
ghost use Rattle.rpkirtr_c.specs.declared.call_status.CallStatus.TheVariants.{Done};
ghost use Rattle.rtr_ends.specs.LinkRules as rules;
ghost use Rattle.rtr_ends.specs.Router as model;
ghost use Rattle.rtr_ends.specs.RouterShown.{IsShown};
ghost use Rattle.rtr_server.specs.Turns.{no_traffic};
ghost use Rattle.vrps.specs.VrpSet.{empty};

use crate::call_status::CallStatus;
use crate::configuration::{CConfig, config_of, tell_config};
use crate::links::{CCommitted, CLink, NEVER, committed_of, link_of, version_of};
use crate::loose::Loose;
use crate::session::Session;
use crate::traffic::{CTraffic, tell};
use rtr_ends::{AskFault, Link, Router, RouterConfig};
use rtr_server::Traffic;
use std::alloc::Global;
use std::fmt::{self, Debug};
use std::marker::Model;
use vrps::VrpSet;

/// A router, as C holds it: all zero before `rpkirtr_router_new` and after `rpkirtr_router_free`.
#[repr(C)]
#[derive(Drop)]
pub struct RouterHandle {
    at: *mut (),
    alloc: Global,
    ghost value: { Option Session } by { coded_option session.the_row.coded },
}

impl Model for RouterHandle {
    ghost use Rattle.rpkirtr_c.specs.Held.{held};
    ghost use Rattle.rpkirtr_c.specs.contracts.session.Session.{the_row};
    ghost use Rattle.std.specs.Box.Ownership.{box_owns};
    ghost use Rattle.std.specs.contracts.impls.GlobalAllocator.TheImpl as heap_impl;

    ghost also_owns = { λ h. held h.at h.value (λ s. box_owns (heap_impl.ghosts.dealloc_token h.alloc) the_row h.at s) };
}

unsafe impl Send for RouterHandle {}

/// It shows nothing of the handle's value.
impl Debug for RouterHandle {
    fn fmt<W: fmt::Write>(&self, f: &mut fmt::Formatter<W>) -> fmt::Result {
        f.write_str("RouterHandle(..)")
    }
}

impl RouterHandle {
    ghost use Rattle.std.specs.Borrow.{sem};
    ghost use Rattle.rpkirtr_c.specs.Lent.{LendsSession};

    /// Whether there is no value. The handle stays as it is.
    pub(crate) fn is_empty(&mut self) -> bool
        ensures { (result ≡ is_none self.old.value) × (self.new ≡ self.old) }
    {
        self.at.is_null()
    }

    /// The value, which stays in its handle.
    pub(crate) fn value(&mut self) -> &mut Session
        requires { is_none self.old.value ≡ false }
        ensures* lends { sem 𝓛 (LendsSession self.entry result) }
        ensures value { Some result.now ≡ self.old.value }
    {
        unsafe { &mut *(self.at as *mut Session) }
    }

    fn of(l: Loose<Session, Global>) -> RouterHandle
        ensures { result.value ≡ Some l.value }
    {
        let Loose { at, alloc } = l;
        RouterHandle {
            at: at as *mut (),
            alloc,
        }
    }

    fn into_loose(self) -> Loose<Session, Global>
        requires { is_none self.value ≡ false }
        ensures { Some result.value ≡ self.value }
    {
        let RouterHandle { at, alloc } = self;
        Loose {
            at: at as *mut Session,
            alloc,
        }
    }

    fn empty(alloc: Global) -> RouterHandle
        ensures { result.value ≡ None }
    {
        RouterHandle {
            at: std::ptr::null_mut(),
            alloc,
        }
    }

    fn looked(self) -> (RouterHandle, bool)
        ensures { (result.0 ≡ self) × (result.1 ≡ is_none self.value) }
    {
        let RouterHandle { at, alloc } = self;
        let is_null = at.is_null();
        (RouterHandle { at, alloc }, is_null)
    }
}

/// The handle of a session.
pub(crate) fn shut(session: Box<Session>) -> RouterHandle
    ensures { result.value ≡ Some session.value }
{
    RouterHandle::of(Loose::of(session))
}

impl RouterHandle {
    /// Moves the session out, if there is one. The handle is empty then.
    pub(crate) fn take(&mut self, alloc: Global) -> Option<Box<Session>>
        ensures taken { option_map (λ s. s.value) result ≡ self.old.value }
        ensures empty { self.new.value ≡ None }
    {
        let old = std::mem::replace(self, RouterHandle::empty(alloc));
        let (old, is_empty) = old.looked();
        if is_empty {
            return None;
        }
        Some(old.into_loose().into_box())
    }
}

/// Makes a router in the empty handle `h`. It has committed nothing, has no connection, and speaks version 1 of the protocol.
/// Returns the number of a `CallStatus`: `Done`, `Live` if `h` is not empty, or `NoMemory`. On a refusal the handle stays as it was.
#[unsafe(no_mangle)]
pub extern "C" fn rpkirtr_router_new(alloc: Global, h: &mut RouterHandle) -> i32
    ensures { New h.old.value h.new.value result (λ s. IsShown rules.new_router s.router × (s.taken ≡ empty) × (s.pending ≡ None) × (s.traffic ≡ no_traffic)) }
{
    if let Some(session) = h.take(alloc) {
        *h = shut(session);
        return CallStatus::Live.number();
    }
    let session = Session {
        router: Router::new(alloc),
        taken: VrpSet::empty(alloc),
        pending: None,
        traffic: Traffic::new(),
    };
    match Box::new(alloc, session) {
        Err(_) => CallStatus::NoMemory.number(),
        Ok(session) => {
            *h = shut(session);
            CallStatus::Done.number()
        }
    }
}

/// Frees the router with all that it holds, and empties the handle.
/// Returns the number of a `CallStatus`: `Done`, or `Empty` if `h` holds no router.
#[unsafe(no_mangle)]
pub extern "C" fn rpkirtr_router_free(alloc: Global, h: &mut RouterHandle) -> i32
    ensures { Freed h.old.value h.new.value result }
{
    match h.take(alloc) {
        None => CallStatus::Empty.number(),
        Some(_session) => CallStatus::Done.number(),
    }
}

/// Sets the version of the protocol, 0 or 1, for all later connections. An open connection keeps its version.
/// Returns the number of a `CallStatus`: `Done`, `Empty` if `h` holds no router, or `BadVersion` for any other number. On a refusal nothing changes.
#[unsafe(no_mangle)]
pub extern "C" fn rpkirtr_router_speak(alloc: Global, h: &mut RouterHandle, version: u8) -> i32
    ensures { On h.old.value h.new.value result (λ s t. IsSpoken version result s t) }
{
    let Some(mut session) = h.take(alloc) else {
        return CallStatus::Empty.number();
    };
    let answer = match version_of(version) {
        None => CallStatus::BadVersion,
        Some(version) => {
            session.router.speak(version);
            CallStatus::Done
        }
    };
    *h = shut(session);
    answer.number()
}

/// Configures the router from now on. What is committed keeps its intervals.
/// Returns the number of a `CallStatus`: `Done`, `Empty` if `h` holds no router, `BadStructure` or `BadTiming`, judged in this order. On a refusal
/// nothing changes. `fault` is the number of a `TimingFault` after `BadTiming`, otherwise 0.
#[unsafe(no_mangle)]
pub extern "C" fn rpkirtr_router_configure(
    alloc: Global,
    h: &mut RouterHandle,
    config: &CConfig,
    fault: &mut u32,
) -> i32
    ensures call { On h.old.value h.new.value result (λ s t. IsConfigured config.now result fault.new s t) }
    ensures empty { h.old.value ≡ None → fault.new ≡ 0 }
{
    *fault = 0;
    let Some(mut session) = h.take(alloc) else {
        return CallStatus::Empty.number();
    };
    let answer = match config_of(config) {
        Err(found) => {
            *fault = found.number();
            found.status()
        }
        Ok(config) => {
            session.router.configure(config);
            CallStatus::Done
        }
    };
    *h = shut(session);
    answer.number()
}

/// Writes the configuration that was set last, or the default one if none was set.
/// Returns the number of a `CallStatus`: `Done`, `BadStructure`, or `Empty` if `h` holds no router, and then the default one is written. If `size_`
/// is not the size of the structure, nothing is written.
#[tactic(auto, using(crate::proofs::Calls::tells))]
#[unsafe(no_mangle)]
pub extern "C" fn rpkirtr_router_config(h: &mut RouterHandle, config: &mut CConfig) -> i32
    ensures call { On h.old.value h.new.value result (λ s t. (t ≡ s) × Shows s (λ r. IsConfigTold r.config result config.old config.new)) }
    ensures empty { h.old.value ≡ None → (answer : ℤ) × IsConfigTold default_config answer config.old config.new }
{
    if h.is_empty() {
        tell_config(&RouterConfig::default(), config);
        return CallStatus::Empty.number();
    }
    tell_config(h.value().router.config(), config).number()
}

/// Starts a connection at second `now` of the caller's clock. Its first query is then ready to be pulled. An older connection is closed, and its
/// traffic is forgotten.
/// Returns the number of a `CallStatus`: `Done`, or `Empty` if `h` holds no router.
#[unsafe(no_mangle)]
pub extern "C" fn rpkirtr_router_connect(alloc: Global, h: &mut RouterHandle, now: u64) -> i32
    ensures call { On h.old.value h.new.value result (λ s t. (result ≡ number Done) × Carries (model.Connects now) no_traffic s t) }
{
    let Some(mut session) = h.take(alloc) else {
        return CallStatus::Empty.number();
    };
    session.connect(now);
    *h = shut(session);
    CallStatus::Done.number()
}

/// Notes that the transport closed the connection at second `now` of the caller's clock. Bytes that were not pulled and an unfinished answer are
/// dropped. Committed records stay unless they have expired.
/// Returns the number of a `CallStatus`: `Done`, or `Empty` if `h` holds no router.
#[unsafe(no_mangle)]
pub extern "C" fn rpkirtr_router_connection_closed(
    alloc: Global,
    h: &mut RouterHandle,
    now: u64,
) -> i32
    ensures { On h.old.value h.new.value result (λ s t. (result ≡ number Done) × Makes (model.Closes now) s t) }
{
    let Some(mut session) = h.take(alloc) else {
        return CallStatus::Empty.number();
    };
    session.router.closed(now);
    *h = shut(session);
    CallStatus::Done.number()
}

/// The retry interval in force, in seconds (RFC 8210 section 6).
fn retry_of(router: &Router) -> u32
    ensures { (r : rules.Router) → IsShown r router.now → result ≡ retry_of r.config r.version }
{
    match router.committed_version() {
        None => router.config().intervals.retry(),
        Some(version) => version.retry,
    }
}

/// Notes that an attempt to connect failed at second `now` of the caller's clock, and writes when to try again: one retry interval later. The
/// interval is that of the committed version, or the configured one if nothing is committed. The router stays as it is.
/// Returns the number of a `CallStatus`: `Done`, or `Empty` if `h` holds no router, and then `NEVER` is written.
#[unsafe(no_mangle)]
pub extern "C" fn rpkirtr_router_connect_failed(h: &mut RouterHandle, now: u64, at: &mut u64) -> i32
    ensures call { On h.old.value h.new.value result (λ s t. (result ≡ number Done) × (t ≡ s) × Shows s (λ r. at.new ≡ sum_of now (retry_of r.config r.version))) }
    ensures empty { h.old.value ≡ None → at.new ≡ never }
{
    *at = NEVER;
    if h.is_empty() {
        return CallStatus::Empty.number();
    }
    *at = now.saturating_add(u64::from(retry_of(&h.value().router)));
    CallStatus::Done.number()
}

/// Passes bytes that were received at second `now` of the caller's clock to the router, and writes to `taken` how many it consumed. It consumes none
/// if bytes are pending (pull first) or no link is open. Otherwise it consumes up to the first PDU or fault that makes bytes pending or ends the
/// link, or all of `bytes`. If memory runs out, the link ends with `End::Memory`, and the committed records stay.
/// Returns the number of a `CallStatus`: `Done`, also in these cases, or `Empty` if `h` holds no router, and then `taken` is 0.
#[unsafe(no_mangle)]
pub extern "C" fn rpkirtr_router_receive(
    alloc: Global,
    h: &mut RouterHandle,
    bytes: &[u8],
    now: u64,
    taken: &mut usize,
) -> i32
    ensures call { On h.old.value h.new.value result (λ s t. (result ≡ number Done) × Receives now bytes.now taken.new s t) }
    ensures empty { h.old.value ≡ None → taken.new ≡ 0 }
    ensures within { taken.new ≤ length bytes.now }
{
    *taken = 0;
    let Some(mut session) = h.take(alloc) else {
        return CallStatus::Empty.number();
    };
    *taken = session.receive(bytes, now);
    *h = shut(session);
    CallStatus::Done.number()
}

/// Moves pending bytes for the cache into the front of `room`, as many as fit, and writes to `pulled` how many: 0 if none are pending. The rest of
/// `room` stays.
/// Returns the number of a `CallStatus`: `Done`, or `Empty` if `h` holds no router, and then `pulled` is 0.
#[unsafe(no_mangle)]
pub extern "C" fn rpkirtr_router_pull(
    alloc: Global,
    h: &mut RouterHandle,
    room: &mut [u8],
    pulled: &mut usize,
) -> i32
    ensures call { On h.old.value h.new.value result (λ s t. (result ≡ number Done) × Carries (model.Pulls (length room.old)) (and_sent (take pulled.new room.new) s.traffic) s t × Shows s (λ r. IsPulled r.out room.old room.new pulled.new)) }
    ensures empty { h.old.value ≡ None → (room.new ≡ room.old) × (pulled.new ≡ 0) }
    ensures within { pulled.new ≤ length room.old }
{
    *pulled = 0;
    let Some(mut session) = h.take(alloc) else {
        return CallStatus::Empty.number();
    };
    *pulled = session.pull(room);
    *h = shut(session);
    CallStatus::Done.number()
}

/// Advances the clock to second `now` of the caller's clock. If the records have expired, they are dropped, and a link with an outstanding Serial
/// Query ends. If the query of an idle link is due, it is then ready to be pulled.
/// Returns the number of a `CallStatus`: `Done`, or `Empty` if `h` holds no router.
#[unsafe(no_mangle)]
pub extern "C" fn rpkirtr_router_tick(alloc: Global, h: &mut RouterHandle, now: u64) -> i32
    ensures { On h.old.value h.new.value result (λ s t. (result ≡ number Done) × Makes (model.Ticks now) s t) }
{
    let Some(mut session) = h.take(alloc) else {
        return CallStatus::Empty.number();
    };
    session.router.tick(now);
    *h = shut(session);
    CallStatus::Done.number()
}

/// Makes a query ready to be pulled, if the link is idle.
/// Returns the number of a `CallStatus`: `Done`, `Empty` if `h` holds no router, `Busy` if a query is outstanding, or `NotLinked` if no link is open.
/// On a refusal nothing changes.
#[unsafe(no_mangle)]
pub extern "C" fn rpkirtr_router_ask(alloc: Global, h: &mut RouterHandle) -> i32
    ensures { On h.old.value h.new.value result (λ s t. Makes model.AsksNow s t × Shows s (λ r. result ≡ number (ask_answer (asked_on r.link)))) }
{
    let Some(mut session) = h.take(alloc) else {
        return CallStatus::Empty.number();
    };
    let answer = match session.router.ask() {
        Ok(()) => CallStatus::Done,
        Err(AskFault::Busy) => CallStatus::Busy,
        Err(AskFault::NotConnected) => CallStatus::NotLinked,
    };
    *h = shut(session);
    answer.number()
}

/// Writes when the next query of an idle link is due, or the next attempt to connect a closed one (RFC 8210 section 6). The time is in seconds of the
/// caller's clock. It is `NEVER` before the first commit, No Data or close. While a query is outstanding, it may be in the past.
/// Returns the number of a `CallStatus`: `Done`, or `Empty` if `h` holds no router, and then `NEVER` is written.
#[unsafe(no_mangle)]
pub extern "C" fn rpkirtr_router_next_query_at(h: &mut RouterHandle, at: &mut u64) -> i32
    ensures call { On h.old.value h.new.value result (λ s t. (result ≡ number Done) × (t ≡ s) × Shows s (λ r. at.new ≡ moment_of r.due)) }
    ensures empty { h.old.value ≡ None → at.new ≡ never }
{
    *at = NEVER;
    if h.is_empty() {
        return CallStatus::Empty.number();
    }
    let session = h.value();
    *at = session.router.due().unwrap_or(NEVER);
    CallStatus::Done.number()
}

/// Writes the time from which on a tick has something to do, in seconds of the caller's clock: `NEVER` if there is none. It is that of the next query
/// of an idle link, or that of the expiry of what is committed. An attempt to connect does not count.
/// Returns the number of a `CallStatus`: `Done`, or `Empty` if `h` holds no router, and then `NEVER` is written.
#[unsafe(no_mangle)]
pub extern "C" fn rpkirtr_router_wake_at(h: &mut RouterHandle, at: &mut u64) -> i32
    ensures call { On h.old.value h.new.value result (λ s t. (result ≡ number Done) × (t ≡ s) × Wakes at.new s) }
    ensures empty { h.old.value ≡ None → at.new ≡ never }
{
    *at = NEVER;
    if h.is_empty() {
        return CallStatus::Empty.number();
    }
    let session = h.value();
    *at = session.router.wake_at().unwrap_or(NEVER);
    CallStatus::Done.number()
}

/// Writes all fields of `link`. `end` is 0 unless the link has ended. `code` is 0 unless the end has the code of an Error Report.
/// Returns the number of a `CallStatus`: `Done`, or `Empty` if `h` holds no router, and then all fields are 0, as for a closed link.
#[unsafe(no_mangle)]
pub extern "C" fn rpkirtr_router_link(h: &mut RouterHandle, link: &mut CLink) -> i32
    ensures call { On h.old.value h.new.value result (λ s t. (result ≡ number Done) × (t ≡ s) × Shows s (λ r. link.new ≡ link_of (told_link r.link))) }
    ensures empty { h.old.value ≡ None → link.new ≡ link_of links.Closed }
{
    *link = link_of(Link::Closed);
    if h.is_empty() {
        return CallStatus::Empty.number();
    }
    let session = h.value();
    *link = link_of(session.router.link());
    CallStatus::Done.number()
}

/// Writes the committed version, with the second of its commit and its intervals. All fields are 0 if nothing is committed, for example because it
/// has expired.
/// Returns the number of a `CallStatus`: `Done`, or `Empty` if `h` holds no router, and then all fields are 0.
#[unsafe(no_mangle)]
pub extern "C" fn rpkirtr_router_committed(h: &mut RouterHandle, committed: &mut CCommitted) -> i32
    ensures call { On h.old.value h.new.value result (λ s t. (result ≡ number Done) × (t ≡ s) × Shows s (λ r. committed.new ≡ committed_of r.version)) }
    ensures empty { h.old.value ≡ None → committed.new ≡ committed_of None }
{
    *committed = committed_of(None);
    if h.is_empty() {
        return CallStatus::Empty.number();
    }
    let session = h.value();
    *committed = committed_of(session.router.committed_version());
    CallStatus::Done.number()
}

/// Writes what the latest connection carried, in each direction: the bytes that the router consumed, and those that were pulled. All is 0 before the
/// first connection, and stays when the connection closes.
/// Returns the number of a `CallStatus`: `Done`, `BadStructure`, or `Empty` if `h` holds no router, and then all is 0. If `size_` is not the size of
/// the structure, nothing is written.
#[unsafe(no_mangle)]
pub extern "C" fn rpkirtr_router_traffic(h: &mut RouterHandle, traffic: &mut CTraffic) -> i32
    ensures call { On h.old.value h.new.value result (λ s t. (t ≡ s) × IsTold s.traffic result traffic.old traffic.new) }
    ensures empty { h.old.value ≡ None → (answer : ℤ) × IsTold no_traffic answer traffic.old traffic.new }
{
    if h.is_empty() {
        tell(&Traffic::new(), traffic);
        return CallStatus::Empty.number();
    }
    let session = h.value();
    let answer = tell(&session.traffic, traffic);
    answer.number()
}
