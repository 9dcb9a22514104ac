//! An upstream cache: this program is its router.
ghost use Rattle.std.specs.Prelude.{◌≡◌, ◌∷◌, [], List, None, Some, is_some, option_map, true};
ghost use Rattle.rtr_ends.specs.LinkRules as rules;
ghost use Rattle.rtr_ends.specs.Router as model;
ghost use Rattle.rtr_ends.specs.Router.{called};
ghost use Rattle.rtr_ends.specs.RouterLink.{name_of};
ghost use Rattle.rtr_ends.specs.RouterShown.{Calls, CallsLead, IsShown};
ghost use Rattle.rtr_ends.specs.Transcript.{kept};
ghost use Rattle.rtr_pdu.specs.declared.version.Version.TheVariants.{V1};
ghost use Rattle.rtr_server.specs.Clients.{Begun};
ghost use Rattle.rtr_server.specs.Counting.{none_counted};
ghost use Rattle.upstreams.specs.Polls.{PollsIf, no_bytes, notes_of, with_ask, with_tick};
ghost use Rattle.upstreams.specs.Upstreams.{CallsOn, GoesOn, LedTo, Polls, ShowsUpstream, TicksOn, connected, connecting, asks_early, carried_by, data_of, received_by, sent_by};
ghost use Rattle.upstreams.specs.Versions.{fallback_at, version_at};

use crate::connection::{Connection, DisconnectReason, PollOutcome};
use crate::notes::{Notes, is_idle};
use crate::times::is_past;
use crate::versions::{Fallback, version_if};
use rtr_ends::{Router, RouterConfig};
use rtr_pdu::Version;
use rtr_server::{ByteCounts, PdusByKind, Stream};
use std::alloc::Global;
use vrps::{Serial, VrpSet};

/// After how many seconds an answer is given up, unless `set_answer_limit` says otherwise.
const ANSWER_LIMIT: u64 = 3600;

/// The router's side of an upstream cache: its committed data, and its connection if there is one (RFC 6810, RFC 8210 sections 5 to 8).
/// All times are in seconds of a clock that the caller supplies. A time below the greatest so far counts, for the router, as the greatest.
#[derive(Debug, Drop)]
pub struct Upstream<T> {
    pub(crate) router: Router,
    pub(crate) connection: Option<Connection<T>>,
    /// After how many seconds without a byte a connection is dropped on which a question is outstanding.
    pub(crate) stall: u64,
    /// After how many seconds it is dropped if the question is still outstanding.
    pub(crate) answer_limit: u64,
    /// What is noted of the latest connection, once that is dropped.
    pub(crate) notes: Notes,
    /// Which version its connections have.
    pub(crate) fallback: Fallback,
    /// The bytes that went over the latest connection, once that is dropped.
    carried: ByteCounts,
    /// The PDUs that came on it, by type.
    received: PdusByKind,
    /// The PDUs that were sent on it, by type.
    sent: PdusByKind,
}

impl<T: Stream + Drop> Upstream<T> {
    /// A new upstream without data and without a connection. It allocates no memory.
    /// A connection is dropped if a query is outstanding and no byte comes for `stall` seconds. Connections speak protocol version 1.
    pub fn new(alloc: Global, stall: u64) -> Upstream<T>
        ensures shows { (b : Begun) → ShowsUpstream T.remaining T.contents [] b result }
        ensures stall { result.stall ≡ stall }
        ensures limit { result.answer_limit ≡ 3600 }
        ensures fallback { result.fallback ≡ record { chosen = V1; since = None } }
        ensures carried { result.carried ≡ no_bytes }
        ensures pdus { (result.received ≡ none_counted.pdus) × (result.sent ≡ none_counted.pdus) }
    {
        Upstream {
            router: Router::new(alloc),
            connection: None,
            stall,
            answer_limit: ANSWER_LIMIT,
            notes: Notes::new(0, Version::V1),
            fallback: Fallback {
                chosen: Version::V1,
                since: None,
            },
            carried: ByteCounts {
                read: 0,
                written: 0,
            },
            received: PdusByKind::none(),
            sent: PdusByKind::none(),
        }
    }

    /// Sets the protocol version for all later connections. An open connection keeps its version. Version 1 is version 1 with fallback: `connect` uses
    /// version 0 for a cache that asks for it (RFC 8210 section 7).
    pub fn set_version(&mut self, version: Version)
        ensures calls { CallsOn T.remaining T.contents (model.Speaks version) self.old self.new }
        ensures rest { self.new ≡ record self.old { router = self.new.router; fallback = record { chosen = version; since = None } } }
    {
        self.fallback = Fallback {
            chosen: version,
            since: None,
        };
        self.router.speak(self.fallback.chosen);
    }

    /// Sets after how many seconds a connection is dropped whose query has no complete answer: 3,600 unless it is set. It applies to the query that
    /// is outstanding too.
    pub fn set_answer_limit(&mut self, seconds: u64)
        ensures { self.new ≡ record self.old { answer_limit = seconds } }
    {
        self.answer_limit = seconds;
    }

    /// Sets the configuration of the router: intervals of its own, and the most records (RFC 8210 section 6). It applies to later commits, and to later
    /// records of an answer that is under way.
    pub fn configure(&mut self, config: RouterConfig)
        ensures calls { CallsOn T.remaining T.contents (model.Configures config) self.old self.new }
        ensures rest { self.new ≡ record self.old { router = self.new.router } }
    {
        self.router.configure(config);
    }

    /// Begins a connection over `stream`, which was made at second `now` of the caller's clock. A query becomes due on it: call `poll` to send it.
    /// If there is an older connection, it is dropped. The byte and PDU counts start at 0.
    ///
    /// Its version is the one that was set. If that is 1, it is version 0 for a cache that asked for it on the latest connection (RFC 8210 section 7). The
    /// cache asks by a response or an Error Report of version 0 as the first PDU, Serial Notifies apart, or by Error Report 4. Version 0 is kept as
    /// long as data of version 0 is committed, and at most for a day after the cache asked.
    pub fn connect(&mut self, stream: T, now: u64)
        ensures calls { (calls : List model.RouterCall) (b : Begun) → ShowsUpstream T.remaining T.contents calls b self.old →
            ShowsUpstream T.remaining T.contents (connecting now (version_at now self.old.fallback calls) calls) (record { before = T.remaining stream; had = T.contents stream }) self.new }
        ensures fallback { LedTo T.remaining T.contents self.old (λ calls. self.new.fallback ≡ fallback_at now self.old.fallback calls) }
        ensures carried { carried_by self.new.connection self.new.carried ≡ no_bytes }
        ensures pdus { (received_by self.new.connection self.new.received ≡ none_counted.pdus) × (sent_by self.new.connection self.new.sent ≡ none_counted.pdus) }
        ensures stall { self.new.stall ≡ self.old.stall }
        ensures limit { self.new.answer_limit ≡ self.old.answer_limit }
    {
        let spoken = self.begin(now);
        self.connection = Some(Connection::new(stream, now, spoken));
    }

    /// Notes that an attempt to connect failed at second `at` of the caller's clock. If there is an older connection, it is dropped. The next attempt
    /// is due after the retry interval (RFC 8210 section 6). `carried`, `received` and `sent` keep the counts of the latest connection. The attempt was
    /// of the version that `connect` would have used.
    pub fn connect_failed(&mut self, at: u64)
        ensures calls { (calls : List model.RouterCall) (b : Begun) → ShowsUpstream T.remaining T.contents calls b self.old →
            ShowsUpstream T.remaining T.contents (model.Closes at ∷ connecting at (version_at at self.old.fallback calls) calls) b self.new }
        ensures fallback { LedTo T.remaining T.contents self.old (λ calls. self.new.fallback ≡ fallback_at at self.old.fallback calls) }
        ensures gone { self.new.connection ≡ None }
        ensures carried { self.new.carried ≡ carried_by self.old.connection self.old.carried }
        ensures received { self.new.received ≡ received_by self.old.connection self.old.received }
        ensures sent { self.new.sent ≡ sent_by self.old.connection self.old.sent }
        ensures stall { self.new.stall ≡ self.old.stall }
        ensures limit { self.new.answer_limit ≡ self.old.answer_limit }
    {
        let spoken = self.begin(at);
        self.close(at);
        self.notes = Notes::new(at, spoken);
    }

    /// Connects the router, in the version that is due.
    fn begin(&mut self, now: u64) -> Version
        ensures calls { (calls : List model.RouterCall) (b : Begun) → ShowsUpstream T.remaining T.contents calls b self.old →
            Calls (connected now (version_at now self.old.fallback calls)) self.old.router self.new.router × (result ≡ version_at now self.old.fallback calls) }
        ensures fallback { LedTo T.remaining T.contents self.old (λ calls. self.new.fallback ≡ fallback_at now self.old.fallback calls) }
        ensures rest { self.new ≡ record self.old { router = self.new.router; fallback = self.new.fallback } }
    {
        let is_0 = self.is_of_version_0(now);
        let since = self.fallback_since(now);
        self.fallback.since = since;
        self.router.speak(version_if(is_0));
        self.router.connect(now);
        version_if(is_0)
    }

    /// Drops the connection at second `now`, if there is one. Bytes that are not written yet are lost. Committed data stays unless it has
    /// expired. `carried`, `received` and `sent` keep the counts of the dropped connection.
    pub fn disconnect(&mut self, now: u64)
        ensures calls { CallsOn T.remaining T.contents (model.Closes now) self.old self.new }
        ensures gone { self.new.connection ≡ None }
        ensures carried { self.new.carried ≡ carried_by self.old.connection self.old.carried }
        ensures received { self.new.received ≡ received_by self.old.connection self.old.received }
        ensures sent { self.new.sent ≡ sent_by self.old.connection self.old.sent }
        ensures stall { self.new.stall ≡ self.old.stall }
        ensures limit { self.new.answer_limit ≡ self.old.answer_limit }
        ensures fallback { self.new.fallback ≡ self.old.fallback }
    {
        self.close(now);
    }

    /// Drops the connection, keeps its counts, and notifies the router.
    fn close(&mut self, now: u64)
        ensures calls { Calls (λ r. (called (model.Closes now) r).router) self.old.router self.new.router }
        ensures gone { self.new.connection ≡ None }
        ensures noted { self.new.notes ≡ notes_of self.old.connection self.old.notes }
        ensures carried { self.new.carried ≡ carried_by self.old.connection self.old.carried }
        ensures received { self.new.received ≡ received_by self.old.connection self.old.received }
        ensures sent { self.new.sent ≡ sent_by self.old.connection self.old.sent }
        ensures stall { self.new.stall ≡ self.old.stall }
        ensures limit { self.new.answer_limit ≡ self.old.answer_limit }
        ensures fallback { self.new.fallback ≡ self.old.fallback }
    {
        self.carried = self.carried();
        self.received = self.received();
        self.sent = self.sent();
        self.notes = self.notes();
        self.connection = None;
        self.router.closed(now);
    }

    /// Advances the clock to second `now`. Expired data is dropped. An idle link sends a query if one is due: by the refresh or retry interval, or
    /// before the data expire (RFC 8210 section 6).
    /// `Some(Stalled)`: a query was outstanding and no byte came for `stall` seconds, so the connection was dropped. `Some(TimedOut)`: a query was
    /// outstanding for the limit of an answer, so it was dropped too. Otherwise `None`.
    /// Call `poll` afterwards: a query may have to be written, or the link may have ended.
    pub fn tick(&mut self, now: u64) -> Option<DisconnectReason>
        ensures ticks { TicksOn T.remaining T.contents now self.old result self.new }
        ensures gone { is_some result ≡ true → self.new.connection ≡ None }
        ensures stall { self.new.stall ≡ self.old.stall }
        ensures limit { self.new.answer_limit ≡ self.old.answer_limit }
        ensures fallback { self.new.fallback ≡ self.old.fallback }
    {
        let lost = self.lost_at(now);
        if lost.is_some() {
            self.disconnect(now);
            return lost;
        }
        self.advance(now);
        if is_past(self.question_due(), now) {
            self.ask(now);
        }
        None
    }

    /// Advances the clock.
    fn advance(&mut self, now: u64)
        ensures calls { CallsOn T.remaining T.contents (model.Ticks now) self.old self.new }
        ensures stall { self.new.stall ≡ self.old.stall }
        ensures limit { self.new.answer_limit ≡ self.old.answer_limit }
        ensures fallback { self.new.fallback ≡ self.old.fallback }
    {
        let was_idle = is_idle(&self.router);
        self.router.tick(now);
        note_tick(&mut self.connection, was_idle, &self.router, now);
    }

    /// Puts a query at this time, after the clock was advanced to it.
    fn ask(&mut self, now: u64)
        ensures calls { (calls : List model.RouterCall) (b : Begun) → ShowsUpstream T.remaining T.contents (model.Ticks now ∷ calls) b self.old →
            asks_early now (model.Ticks now ∷ calls) ≡ true → ShowsUpstream T.remaining T.contents (model.AsksNow ∷ model.Ticks now ∷ calls) b self.new }
        ensures stall { self.new.stall ≡ self.old.stall }
        ensures limit { self.new.answer_limit ≡ self.old.answer_limit }
        ensures fallback { self.new.fallback ≡ self.old.fallback }
    {
        let _asked = self.router.ask();
        note_query(&mut self.connection, now);
    }

    /// Writes and reads at second `now`, with at most `budget` calls of the stream. See [`PollOutcome`] for the result. All pending output is
    /// written before more is read. The router consumes input only while it has nothing to send. `Disconnected`: the connection was dropped, for
    /// this reason. `carried`, `received` and `sent` keep its counts. A lost connection alone drops no committed data.
    pub fn poll(&mut self, now: u64, budget: u32) -> PollOutcome
        ensures polls { Polls T.remaining T.contents T.answers now budget self.old result self.new }
        ensures goes { GoesOn T.remaining T.contents self.old self.new }
    {
        let outcome = poll_connection(&mut self.connection, &mut self.router, now, budget);
        if let PollOutcome::Disconnected(_reason) = outcome {
            self.close(now);
        }
        outcome
    }

    /// What is noted of the latest connection.
    pub(crate) fn notes(&self) -> Notes
        ensures { result ≡ notes_of self.now.connection self.now.notes }
    {
        match &self.connection {
            None => self.notes,
            Some(connection) => connection.notes,
        }
    }

    /// Returns whether there is a connection. It counts even if its link has ended: `poll` drops it once all pending bytes are written.
    pub fn is_connected(&self) -> bool
        ensures { result ≡ is_some self.now.connection }
    {
        self.connection.is_some()
    }

    /// The stream of the connection. `None`: there is no connection.
    pub fn stream(&self) -> Option<&T>
        ensures { option_map (λ stream. stream.now) result ≡ option_map (λ c. c.stream) self.now.connection }
    {
        match &self.connection {
            None => None,
            Some(connection) => Some(&connection.stream),
        }
    }

    /// Returns the numbers of bytes read and written on the latest connection, even after it was dropped. Both are 0 before the first connection.
    pub fn carried(&self) -> ByteCounts
        ensures { result ≡ carried_by self.now.connection self.now.carried }
    {
        match &self.connection {
            None => self.carried,
            Some(connection) => connection.traffic.carried,
        }
    }

    /// Returns the number of PDUs of each type received on the latest connection, even after it was dropped. Only PDUs that the router consumed
    /// count.
    /// All are 0 before the first connection.
    pub fn received(&self) -> PdusByKind
        ensures { result ≡ received_by self.now.connection self.now.received }
    {
        match &self.connection {
            None => self.received,
            Some(connection) => connection.traffic.received.pdus(),
        }
    }

    /// Returns the number of PDUs of each type sent on the latest connection, even after it was dropped. Only PDUs that were written completely
    /// count.
    /// All are 0 before the first connection.
    pub fn sent(&self) -> PdusByKind
        ensures { result ≡ sent_by self.now.connection self.now.sent }
    {
        match &self.connection {
            None => self.sent,
            Some(connection) => connection.traffic.sent.pdus(),
        }
    }

    /// Protocol version, session and serial of the committed data. `None`: no data is committed, for example because it has expired.
    pub fn committed(&self) -> Option<(Version, u16, Serial)>
        ensures { (calls : List model.RouterCall) (b : Begun) → ShowsUpstream T.remaining T.contents calls b self.now →
            option_map (λ name. (name.0, name.1, name.2.0)) result ≡ name_of (kept (model.played calls).items).version }
    {
        self.router.committed()
    }

    /// The committed table. It is empty if nothing is committed. A committed table may be empty too: see `data`. Records that have expired stay
    /// until the next call with a time, such as `tick` or `poll`.
    pub fn table(&self) -> &VrpSet
        ensures { LedTo T.remaining T.contents self.now (λ calls. result.now ≡ (kept (model.played calls).items).table) }
    {
        self.router.table()
    }

    /// The committed table. `None`: no data is committed, for example because it has expired.
    pub fn data(&self) -> Option<&VrpSet>
        ensures { (calls : List model.RouterCall) (b : Begun) → ShowsUpstream T.remaining T.contents calls b self.now →
            option_map (λ set. set.now) result ≡ data_of (kept (model.played calls).items) }
    {
        match self.router.committed() {
            Some(_name) => Some(self.router.table()),
            None => None,
        }
    }

    /// The router state machine of this upstream, for example to read its link and its intervals.
    pub fn router(&self) -> &Router
        ensures { result.now ≡ self.now.router }
    {
        &self.router
    }
}

/// Polls a connection, if there is one.
fn poll_connection<T: Stream>(
    connection: &mut Option<Connection<T>>,
    router: &mut Router,
    now: u64,
    budget: u32,
) -> PollOutcome
    ensures { PollsIf T.remaining T.contents T.answers now budget router.old connection.old result router.new connection.new }
{
    match connection {
        None => PollOutcome::NotConnected,
        Some(connection) => connection.poll(router, now, budget),
    }
}

/// Notes on the connection that the clock was advanced.
fn note_tick<T>(connection: &mut Option<Connection<T>>, was_idle: bool, router: &Router, now: u64)
    ensures { (r : rules.Router) → IsShown r router.now → connection.new ≡ with_tick now was_idle r connection.old }
{
    if let Some(connection) = connection {
        connection.notes.tick(was_idle, router, now);
    }
}

/// Notes on the connection that a query was put.
fn note_query<T>(connection: &mut Option<Connection<T>>, now: u64)
    ensures { connection.new ≡ with_ask now connection.old }
{
    if let Some(connection) = connection {
        connection.notes.ask(now);
    }
}
