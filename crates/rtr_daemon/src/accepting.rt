//! Listeners, and the connections that are accepted from them.
ghost use Rattle.std.specs.Prelude.{◌≡◌, ◌≤◌, ℕ, Some, false, true, IfOk, replicate, slice_get, unwrap_or};
ghost use Rattle.rtr_daemon.specs.Accepting.{AcceptsOnce, AreTriedBy, AsksEach, AsksOne, PausesOne, can_accept, changed_at, is_asked, resumed, with_pause, with_pending};
ghost use Rattle.rtr_daemon.specs.Due.{OnlyAdmitted, OnlyClients};
ghost use Rattle.rtr_daemon.specs.Newcomers.{AddsAccepted, MayAdd};
ghost use Rattle.rtr_daemon.specs.Queue.{QueuesBehind};
ghost use Rattle.rtr_daemon.specs.Serving.{Continues};
ghost use Rattle.rtr_daemon.specs.Starting.{open_listener};

use crate::client_entry::Ends;
use crate::daemon::Daemon;
use crate::environment::{AcceptResult, EventLog, Sockets, Time};
use event_log::LogEvent;
use rtr_server::{AdmitFault, Stream};
use status_pages::ClientLimit;
use std::alloc::{AllocError, Global};
use std::io;
use vrps::VersionStore;

/// How many connections are accepted from one listener in one turn.
const AT_ONCE: usize = 1024;

/// How long a listener is paused after an accept failed, in milliseconds.
const PAUSE: u64 = 1000;

/// A listener: whether a connection may be pending there, and until when it is paused.
#[derive(Debug, Drop)]
struct Listener {
    pending: bool,
    paused_until: Option<u64>,
}

/// All listeners. Times are in milliseconds of the monotonic clock.
#[derive(Debug, Drop)]
pub(crate) struct Listeners {
    listeners: Vec<Listener>,
    /// Whether a failure to accept was reported since a connection was accepted last.
    is_reported: bool,
}

impl Listener {
    /// Whether a connection may be pending and the listener is not paused.
    fn can_accept(&self, now: u64) -> bool
        ensures { result ≡ can_accept self.now now }
    {
        self.pending && self.next_try() <= now
    }

    /// The earliest time at which a connection is accepted.
    fn next_try(&self) -> u64
        ensures { result ≡ unwrap_or self.now.paused_until 0 }
    {
        match self.paused_until {
            Some(until) => until,
            None => 0,
        }
    }
}

impl Listeners {
    /// This many listeners. A connection may be pending at each.
    pub(crate) fn new(alloc: Global, count: usize) -> Result<Listeners, AllocError>
        ensures { IfOk result (λ all. all.listeners.items ≡ replicate count open_listener) }
    {
        let mut listeners = Vec::with_capacity(alloc, count)?;
        for _listener in 0..count {
            listeners.push(Listener {
                pending: true,
                paused_until: None,
            })?;
        }
        Ok(Listeners {
            listeners,
            is_reported: false,
        })
    }

    /// Notes whether a connection may be pending at a listener.
    pub(crate) fn note(&mut self, listener: usize, pending: bool)
        ensures items { self.new.listeners.items ≡ changed_at self.old.listeners.items listener (with_pending pending) }
        ensures rest { self.new ≡ record self.old { listeners = self.new.listeners } }
    {
        if let Some(it) = self.listeners.get_mut(listener) {
            it.pending = pending;
        }
    }

    /// Pauses a listener until this time.
    fn pause(&mut self, listener: usize, until: u64)
        ensures items { self.new.listeners.items ≡ changed_at self.old.listeners.items listener (with_pause until) }
        ensures rest { self.new ≡ record self.old { listeners = self.new.listeners } }
    {
        if let Some(it) = self.listeners.get_mut(listener) {
            it.paused_until = Some(until);
        }
    }

    /// Ends all pauses.
    fn resume_all(&mut self)
        ensures items { self.new.listeners.items ≡ resumed true self.old.listeners.items }
        ensures rest { self.new ≡ record self.old { listeners = self.new.listeners } }
    {
        for listener in self.listeners.iter_mut() {
            listener.paused_until = None;
        }
    }

    /// The earliest time at which a listener with a pending connection can be tried.
    pub(crate) fn next_try(&self) -> Option<u64>
        ensures { AreTriedBy result self.now.listeners.items }
    {
        let mut next = None;
        for listener in self.listeners.iter() {
            if listener.pending {
                next = Some(earlier(next, listener.next_try()));
            }
        }
        next
    }

    fn can_accept(&self, listener: usize, now: u64) -> bool
        ensures { result ≡ is_asked (slice_get self.now.listeners.items listener) now }
    {
        match self.listeners.get(listener) {
            Some(it) => it.can_accept(now),
            None => false,
        }
    }

    /// Marks a failure to accept as reported. Returns true if none was reported since a connection was accepted last.
    fn mark_reported(&mut self) -> bool
        ensures { self.new ≡ record self.old { is_reported = self.new.is_reported } }
    {
        let is_news = !self.is_reported;
        self.is_reported = true;
        is_news
    }
}

/// The earlier of two times, or the second if there is no first.
fn earlier(first: Option<u64>, second: u64) -> u64
    ensures second { result ≤ second }
    ensures first { (at : ℕ) → first ≡ Some at → result ≤ at }
{
    match first {
        Some(first) => first.min(second),
        None => second,
    }
}

impl<S: VersionStore, T: Stream + Drop> Daemon<S, T> {
    /// When a listener with a pending connection can be tried, in milliseconds of the monotonic clock, once a version is published.
    pub(crate) fn next_accept(&self) -> Option<u64>
        ensures { self.now.is_ready ≡ true → AreTriedBy result self.now.listeners.listeners.items }
    {
        if !self.is_ready {
            return None;
        }
        let next_try = self.listeners.next_try()?;
        if self.has_closed {
            Some(0)
        } else {
            Some(next_try)
        }
    }

    /// Accepts the pending connections of all listeners, once a version is published. If a client was closed, no listener is paused any longer: there
    /// may be room again.
    pub(crate) fn accept_pending<W: Sockets<T> + Time + EventLog>(&mut self, env: &mut W)
        ensures goes { Continues S.holds T.remaining T.contents self.old.service self.new.service }
        ensures rest { OnlyAdmitted self.old self.new }
        ensures queue { QueuesBehind self.old.clients.queue.items self.new.clients }
        ensures clients { AddsAccepted W.calls W.can_tick self.old.clients self.new.clients }
        ensures before { self.old.is_ready ≡ false → self.new.service ≡ self.old.service }
        ensures asks { self.old.is_ready ≡ true → AsksEach W.calls W.can_tick (resumed self.old.has_closed self.old.listeners.listeners.items) self.new.listeners.listeners.items }
    {
        if !self.is_ready {
            return;
        }
        self.resume();
        for listener in 0..self.listeners.listeners.len() {
            self.accept_from(listener, env);
        }
    }

    /// Ends all pauses, if a client was closed.
    fn resume(&mut self)
        ensures items { self.new.listeners.listeners.items ≡ resumed self.old.has_closed self.old.listeners.listeners.items }
        ensures rest { self.new ≡ record self.old { listeners = self.new.listeners; has_closed = false } }
    {
        if self.has_closed {
            self.listeners.resume_all();
            self.has_closed = false;
        }
    }

    /// Accepts the pending connections of one listener.
    fn accept_from<W: Sockets<T> + Time + EventLog>(&mut self, listener: usize, env: &mut W)
        ensures goes { Continues S.holds T.remaining T.contents self.old.service self.new.service }
        ensures rest { OnlyAdmitted self.old self.new }
        ensures queue { QueuesBehind self.old.clients.queue.items self.new.clients }
        ensures clients { AddsAccepted W.calls W.can_tick self.old.clients self.new.clients }
        ensures asks { AsksOne W.calls W.can_tick listener self.old.listeners.listeners.items self.new.listeners.listeners.items }
    {
        for _connection in 0..AT_ONCE {
            if !self.listeners.can_accept(listener, env.millis()) {
                return;
            }
            self.accept_one(listener, env);
        }
    }

    /// Accepts one connection, if one is pending.
    fn accept_one<W: Sockets<T> + Time + EventLog>(&mut self, listener: usize, env: &mut W)
        ensures goes { Continues S.holds T.remaining T.contents self.old.service self.new.service }
        ensures rest { OnlyAdmitted self.old self.new }
        ensures queue { QueuesBehind self.old.clients.queue.items self.new.clients }
        ensures clients { AddsAccepted W.calls W.can_tick self.old.clients self.new.clients }
        ensures asks { AcceptsOnce W.calls W.can_tick listener self.old.listeners.listeners.items self.new.listeners.listeners.items }
    {
        match env.accept(listener) {
            AcceptResult::Connection {
                stream,
                token,
                address,
                local,
            } => {
                self.listeners.is_reported = false;
                self.admit(stream, token, Ends { address, local }, env);
            }
            AcceptResult::WouldBlock => self.listeners.note(listener, false),
            AcceptResult::Again => {}
            AcceptResult::NoRoom => self.pause(listener, &LogEvent::NoDescriptor, env),
            AcceptResult::Failed(error) => self.note_accept_failure(listener, &error, env),
        }
    }

    /// Admits a client, if its address is below its limit.
    fn admit<W: Time + EventLog>(&mut self, stream: T, token: usize, ends: Ends, env: &mut W)
        ensures goes { Continues S.holds T.remaining T.contents self.old.service self.new.service }
        ensures rest { OnlyClients self.old self.new }
        ensures queue { QueuesBehind self.old.clients.queue.items self.new.clients }
        ensures adds { MayAdd W.can_tick token self.old.clients self.new.clients }
    {
        let address = ends.address;
        let clients = self.clients.of_address(address);
        match self.plan.clients_per_address {
            Some(most) if clients >= most => {
                let now = env.seconds();
                self.statistics
                    .count_refused_client(ClientLimit::OfAddress, now);
                env.log(now, &LogEvent::AddressFull { address, clients });
            }
            _ => self.admit_within(stream, token, ends, env),
        }
    }

    /// Admits a client whose address is below its limit.
    fn admit_within<W: Time + EventLog>(&mut self, stream: T, token: usize, ends: Ends, env: &mut W)
        ensures goes { Continues S.holds T.remaining T.contents self.old.service self.new.service }
        ensures rest { OnlyClients self.old self.new }
        ensures queue { QueuesBehind self.old.clients.queue.items self.new.clients }
        ensures adds { MayAdd W.can_tick token self.old.clients self.new.clients }
    {
        let now = env.seconds();
        let address = ends.address;
        match self.service.admit(stream) {
            Err(AdmitFault::TooManyClients) => {
                self.statistics.count_refused_client(ClientLimit::All, now);
                let clients = self.service.server().clients() as u64;
                env.log(now, &LogEvent::Full { address, clients });
            }
            Err(AdmitFault::Memory) => env.log(now, &LogEvent::Memory { what: "a client" }),
            Ok(client) => {
                if self.clients.add(token, client, ends, env.millis()).is_err() {
                    self.service.drop_client(client);
                    env.log(now, &LogEvent::Memory { what: "a client" });
                } else {
                    self.statistics.count_client();
                    env.log(now, &LogEvent::ClientCame { address });
                }
            }
        }
    }

    /// Pauses a listener after a failed accept. The failure is reported once, until a connection is accepted.
    fn pause<W: Time + EventLog>(&mut self, listener: usize, event: &LogEvent<'_>, env: &mut W)
        ensures rest { self.new ≡ record self.old { listeners = self.new.listeners } }
        ensures paused { PausesOne W.can_tick listener self.old.listeners.listeners.items self.new.listeners.listeners.items }
    {
        self.listeners
            .pause(listener, env.millis().saturating_add(PAUSE));
        if self.listeners.mark_reported() {
            let now = env.seconds();
            env.log(now, event);
        }
    }

    /// Pauses a listener after an accept that failed for another reason.
    fn note_accept_failure<W: Time + EventLog>(
        &mut self,
        listener: usize,
        error: &io::Error,
        env: &mut W,
    )
        ensures rest { self.new ≡ record self.old { listeners = self.new.listeners } }
        ensures paused { PausesOne W.can_tick listener self.old.listeners.listeners.items self.new.listeners.listeners.items }
    {
        match error.to_string(self.alloc) {
            Ok(reason) => self.pause(
                listener,
                &LogEvent::Failed {
                    what: "accept",
                    reason: reason.as_str(),
                },
                env,
            ),
            Err(_) => self.pause(listener, &LogEvent::Memory { what: "a client" }, env),
        }
    }
}
