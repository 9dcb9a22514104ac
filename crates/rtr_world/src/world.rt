//! The world.
ghost use Rattle.std.specs.Prelude.{◌≡◌, ◌↔◌, ◌≤◌, ◌==◌, ◌||◌, ℕ, List, [], map, length, Option, Result, IfOk, option_map, option_and_then};
ghost use Rattle.std.specs.List.{AllByRecursion, list_any};
ghost use Rattle.vrps.specs.Origin.{state};
ghost use Rattle.vrps.specs.Serial.{serial_at};
ghost use Rattle.vrps.specs.Store.{is_current};
ghost use Rattle.rtr_ends.specs.Cache.{Conn};
ghost use Rattle.rtr_ends.specs.RouterLink.{name_of, told_link};
ghost use Rattle.rtr_ends.specs.RouterLaws.{IsKept};
ghost use Rattle.rtr_world.specs.CatchUp.{Rests};
ghost use Rattle.rtr_world.specs.CaughtUp.{CatchesUp, Concluded, IdleOrDropped, IsIdle, Reconnected, Rounded, StaysOpen};
ghost use Rattle.rtr_world.specs.Claims.{AreLawful, HoldsNamed};
ghost use Rattle.rtr_world.specs.Events.{event_of, side_event_of};
ghost use Rattle.rtr_world.specs.History.{Entry, Made, Reached, all_have_room, side_at};
ghost use Rattle.rtr_world.specs.OneAnswer.{Between};
ghost use Rattle.rtr_world.specs.VersionPlaces.{NeverBack};
ghost use Rattle.rtr_world.specs.Reached.{LeadsTo, LoseAll, RunsSo, RunsTo, SettledAll, ShowsParts, ShowsWorld, StepsOnce, StepsTo};
ghost use Rattle.rtr_world.specs.SideShown.{IsNewSide};
ghost use Rattle.rtr_world.specs.World as model;

use crate::event::{CatchFault, Event, SideEvent, WorldFault};
use crate::side::Side;
use prefixes::Route;
use rtr_ends::{Cache, Link, Sessions, Timing};
use rtr_pdu::Version;
use std::alloc::{AllocError, Global};
use std::marker::Model;
use vrps::{OriginState, Serial, VersionLog, VrpSet};

/// How many versions before the current one a cache keeps: 1 to 65,536.
#[derive(Debug, Drop)]
struct Keep(u32);

impl Model for Keep {
    ghost use Rattle.std.specs.Prelude.{ℕ, ◌≤◌};

    ghost Value = { ℕ };

    ghost view = { λ keep. keep.0 };

    ghost invariant = { λ keep. (1 ≤ keep.0) × (keep.0 ≤ 65536) };
}

/// One cache, its routers and the wires between them. Routers are numbered from 0. The world keeps no history.
#[derive(Debug, Drop)]
pub struct World {
    alloc: Global,
    keep: Keep,
    /// The sessions of all instances of the cache.
    sessions: Vec<Sessions>,
    /// The sessions of the present instance.
    present: Sessions,
    /// The serial of the first version of the present instance.
    start: u32,
    cache: Cache<VersionLog>,
    sides: Vec<Side>,
}

impl World {
    /// A world of one cache and `routers` routers. Nothing is published, and no router is connected. `Err`: memory ran out.
    /// `session` is the cache's session in protocol version 1, `session0` the one in version 0. `start` is the serial of its first version.
    /// `keep` is how many versions before the current one the cache keeps for differences, 1 to 65,536.
    pub fn new(
        alloc: Global,
        routers: u16,
        session: u16,
        session0: u16,
        start: u32,
        keep: u32,
    ) -> Result<World, AllocError>
        requires some { 1 ≤ keep }
        requires limit { keep ≤ 65536 }
        ensures { IfOk result (λ world. LeadsTo (record { routers = routers; session = session; session0 = session0; start = start; keep = keep }) [] world) }
    {
        let store = VersionLog::new(alloc, session, start, keep)?;
        let present = Sessions {
            v0: session0,
            v1: session,
        };
        let mut sessions = Vec::new(alloc);
        sessions.push(present)?;
        let sides = new_sides(alloc, routers)?;
        Ok(World {
            alloc,
            keep: Keep(keep),
            sessions,
            present,
            start,
            cache: Cache::new_both(alloc, store, session0, Timing::default()),
            sides,
        })
    }

    /// Whether this set is the cache's current one. It allocates no memory.
    fn is_current(&self, set: &VrpSet) -> bool
        ensures { (w : model.World) → ShowsWorld w self.now → result ≡ is_current w.present.sets set.now }
    {
        match self.cache.current() {
            None => false,
            Some((_, now)) => now.is_same(set),
        }
    }

    /// The serial of the version that would be published next.
    fn next(&self) -> Serial
        ensures { (w : model.World) → Reached w → ShowsWorld w self.now → result.0 ≡ serial_at w.present.start (length w.present.sets) }
    {
        match self.cache.current() {
            None => Serial(self.start),
            Some((serial, _)) => Serial(serial.0.wrapping_add(1)),
        }
    }

    /// Whether a new version would be fewer than 2^31 after each that a router holds, and after each that was current when the connection
    /// of one was made.
    fn has_room(&self) -> bool
        ensures { (w : model.World) → Reached w → ShowsWorld w self.now → result ≡ all_have_room w.present w.sides }
    {
        let next = self.next();
        for side in &self.sides {
            if !side.has_room(self.present, next) {
                return false;
            }
        }
        true
    }

    /// The cache publishes a set.
    fn publish(&mut self, set: &VrpSet) -> Result<(), WorldFault>
        ensures { (w : model.World) → Reached w → ShowsWorld w self.old → StepsOnce w (model.Publish set.now) result self.new }
    {
        let _size = set.len();
        if self.is_current(set) {
            return Ok(());
        }
        if !self.has_room() {
            return Err(WorldFault::TooManyVersions);
        }
        let set = set.duplicate()?;
        let _published = self.cache.publish(set)?;
        Ok(())
    }

    /// Whether an instance of the cache has one of these sessions, or had it, in the same version of the protocol.
    fn is_used(&self, session: u16, session0: u16) -> bool
        ensures { result ≡ list_any (λ y. y.v1 == session || y.v0 == session0) self.now.sessions.items }
    {
        self.sessions
            .iter()
            .any(|used| used.v1 == session || used.v0 == session0)
    }

    /// A new instance of the cache begins.
    fn restart(&mut self, session: u16, session0: u16, start: u32) -> Result<(), WorldFault>
        ensures { (w : model.World) → Reached w → ShowsWorld w self.old → StepsOnce w (model.Restart session session0 start) result self.new }
    {
        if self.is_used(session, session0) {
            return Err(WorldFault::SessionUsed);
        }
        let store = VersionLog::new(self.alloc, session, start, self.keep.0)?;
        let present = Sessions {
            v0: session0,
            v1: session,
        };
        if self.sessions.push(present).is_err() {
            return Err(WorldFault::Memory);
        }
        self.present = present;
        self.start = start;
        self.cache = Cache::new_both(self.alloc, store, session0, Timing::default());
        lose_caches(&mut self.sides);
        settle_all(&mut self.cache, &mut self.sides);
        Ok(())
    }

    /// Something happens at one router.
    fn on(&mut self, router: u16, event: SideEvent) -> Result<(), WorldFault>
        ensures { (w : model.World) → Reached w → ShowsWorld w self.old → StepsOnce w (model.On router (side_event_of event)) result self.new }
    {
        let number = usize::from(router);
        if number >= self.sides.len() {
            return Err(WorldFault::NoSuchRouter);
        }
        self.sides[number].happen(&mut self.cache, self.alloc, self.start, event)?;
        Ok(())
    }

    /// Runs one event and the clean-up after it. `Err`: the event was refused.
    /// After `SessionUsed`, `TooManyVersions` and `NoSuchRouter`, nothing is changed.
    /// After `Memory`, a `Publish` or `Restart` changed nothing. Any other event cut its router's connection, and nothing more arrives.
    pub fn step(&mut self, event: &Event) -> Result<(), WorldFault>
        ensures { (made : Made) (history : List Entry) → LeadsTo made history self.old → StepsTo made history (event_of event.now) result self.new }
    {
        match event {
            Event::Publish(set) => self.publish(set),
            Event::Restart {
                session,
                session0,
                start,
            } => self.restart(*session, *session0, *start),
            Event::On { router, event } => self.on(*router, *event),
        }
    }

    /// Runs the events in their order, and returns how many were refused. A refused event does not stop the run: [`step`](World::step) says what
    /// it leaves. If memory runs out while an end handles a PDU, the event is not refused.
    ///
    /// After every list of events, each router's table is empty if it holds no session. Otherwise it is exactly a set that the cache published:
    /// the one under the protocol version, session and serial of the End of Data that this router committed last.
    /// Each announcement and each withdrawal of a committed answer acted exactly once. The state of every route is that of RFC 6811 over the table.
    /// At most one answer is in transit to a router: that of the cache when the cache read the query, or an Error Report if memory ran out.
    /// No router commits a version that was published before one that it committed earlier.
    /// A link becomes `Ended` only by lack of memory, by expiry, or by an Error Report about lack of memory or another session. Events that close
    /// a connection make it `Closed`.
    pub fn run(&mut self, events: &[Event]) -> usize
        ensures steps { (made : Made) (history : List Entry) → LeadsTo made history self.old → RunsTo made history (map event_of events.now) result self.new }
        ensures tables { (made : Made) (history : List Entry) → LeadsTo made history self.old → RunsSo made history (map event_of events.now) result self.new (λ w s. IsKept s.router s.items) }
        ensures one_answer { (made : Made) (history : List Entry) → LeadsTo made history self.old → RunsSo made history (map event_of events.now) result self.new (λ w s. Between w s s.router.link) }
        ensures sentence { (made : Made) (history : List Entry) → LeadsTo made history self.old → RunsSo made history (map event_of events.now) result self.new (λ w s. HoldsNamed (model.instances w) s.items s.router.table) }
        ensures no_way_back { (made : Made) (history : List Entry) → LeadsTo made history self.old → RunsSo made history (map event_of events.now) result self.new (λ w s. NeverBack s.places) }
        ensures lawful_ends { (made : Made) (history : List Entry) → LeadsTo made history self.old → RunsSo made history (map event_of events.now) result self.new (λ w s. AreLawful s.endings) }
    {
        let mut refused = 0;
        for event in events {
            refused += usize::from(self.step(event).is_err());
        }
        refused
    }

    /// A round at a router: all bytes go each step of the way to the cache and back.
    fn round(&mut self, router: u16) -> Result<(), WorldFault>
        ensures { (made : Made) (history : List Entry) (l : LeadsTo made history self.old) (s : model.Side) → side_at router l.world.sides ≡ Option.Some s → Rounded made history router l.world result self.new }
    {
        self.on(router, SideEvent::RouterSends(u64::MAX))?;
        self.on(router, SideEvent::CacheGets(u64::MAX))?;
        self.on(router, SideEvent::CacheSends(u64::MAX))?;
        self.on(router, SideEvent::RouterGets(u64::MAX))
    }

    /// The link of a router.
    fn link(&self, router: u16) -> Link
        ensures { (w : model.World) (s : model.Side) → ShowsWorld w self.now → side_at router w.sides ≡ Option.Some s → result ≡ told_link s.router.link }
    {
        match self.sides.get(usize::from(router)) {
            None => Link::Closed,
            Some(side) => side.router.link(),
        }
    }

    /// Connects a router, and moves all bytes both ways until nothing moves. That is after one round, or after two if the cache could not
    /// say what changed and the router asked for all.
    fn reconnect(&mut self, router: u16) -> Result<(), WorldFault>
        ensures { (made : Made) (history : List Entry) (l : LeadsTo made history self.old) (s : model.Side) → side_at router l.world.sides ≡ Option.Some s → Reconnected 1 made history router s IdleOrDropped result self.new }
    {
        self.on(router, SideEvent::Connect)?;
        self.round(router)?;
        match self.link(router) {
            Link::Asked => self.round(router),
            _ => Ok(()),
        }
    }

    /// Connects a router so, and once more if it had to drop what it held of another session.
    fn reconnect_as_told(&mut self, router: u16) -> Result<(), WorldFault>
        ensures { (made : Made) (history : List Entry) (l : LeadsTo made history self.old) (s : model.Side) → side_at router l.world.sides ≡ Option.Some s → Reconnected 2 made history router s IsIdle result self.new }
    {
        let held = self.committed(router).is_some();
        self.reconnect(router)?;
        if held && self.committed(router).is_none() {
            return self.reconnect(router);
        }
        Ok(())
    }

    /// Brings a router up to date. Cuts its old connection, connects, and moves all bytes both ways until nothing moves.
    /// If the router had to drop data of another session, it connects once more.
    /// `Ok`: the router holds the newest version of the present instance, in the protocol version that it speaks.
    /// `Err(NoData)`: nothing is published, and the router holds no session of the protocol version that it speaks.
    /// After both, the last connection stays open and idle, with nothing in transit.
    /// `Err(NoSuchRouter)`: nothing is changed. `Err(Memory)`: memory ran out at one of these events, and the connection is cut.
    pub fn catch_up(&mut self, router: u16) -> Result<(), CatchFault>
        ensures caught { (made : Made) (history : List Entry) → LeadsTo made history self.old → CatchesUp made history router result self.new }
        ensures no_such { (made : Made) (history : List Entry) (l : LeadsTo made history self.old) → result ≡ Result.Err CatchFault.NoSuchRouter ↔ (length l.world.sides ≤ router) }
    {
        if usize::from(router) >= self.sides.len() {
            return Err(CatchFault::NoSuchRouter);
        }
        let _cut = self.on(router, SideEvent::Cut(0));
        if self.reconnect_as_told(router).is_err() {
            return Err(CatchFault::Memory);
        }
        self.conclude(router)
    }

    /// The result of catching up: if the link is not idle, memory ran out, and the connection is cut.
    fn conclude(&mut self, router: u16) -> Result<(), CatchFault>
        ensures concluded { (made : Made) (history : List Entry) (l : LeadsTo made history self.old) (s : model.Side) → StaysOpen router history → side_at router l.world.sides ≡ Option.Some s → Rests s → Concluded made history router s result self.new }
        ensures there { result ≡ Result.Err CatchFault.NoSuchRouter → ⊥ }
    {
        match self.link(router) {
            Link::Idle => match self.cache.current() {
                None => Err(CatchFault::NoData),
                Some(_) => Ok(()),
            },
            _ => {
                let _cut = self.on(router, SideEvent::Cut(0));
                Err(CatchFault::Memory)
            }
        }
    }

    /// Returns the committed table of a router, which is empty if it holds no session. `router` is its index from 0. `None`: there is no such router.
    pub fn table(&self, router: u16) -> Option<&VrpSet>
        ensures { (w : model.World) → ShowsWorld w self.now → option_map (λ t. t.now) result ≡ option_map (λ s. s.router.table) (side_at router w.sides) }
    {
        let side = self.sides.get(usize::from(router))?;
        Some(side.router.table())
    }

    /// Returns protocol version, session and serial of the data that a router holds. `router` is its index from 0. `None`: the router holds no
    /// session, or there is no such router.
    pub fn committed(&self, router: u16) -> Option<(Version, u16, Serial)>
        ensures { (w : model.World) → ShowsWorld w self.now → option_map (λ name. (name.0, name.1, name.2.0)) result ≡ option_and_then (λ s. name_of s.router.version) (side_at router w.sides) }
    {
        let side = self.sides.get(usize::from(router))?;
        side.router.committed()
    }

    /// Returns the origin validation state of a route over the committed table of a router (RFC 6811 section 2). `router` is its index from 0.
    /// `None`: there is no such router.
    pub fn route_state(&self, router: u16, route: &Route) -> Option<OriginState>
        ensures { (w : model.World) → ShowsWorld w self.now → result ≡ option_map (λ s. state s.router.table route.now) (side_at router w.sides) }
    {
        let side = self.sides.get(usize::from(router))?;
        Some(side.router.route_state(route))
    }
}

/// This many routers that were never connected.
fn new_sides(alloc: Global, routers: u16) -> Result<Vec<Side>, AllocError>
    ensures { IfOk result (λ sides. (length sides.items ≡ routers) × AllByRecursion IsNewSide sides.items) }
{
    let mut sides = Vec::new(alloc);
    for _number in 0..routers {
        sides.push(Side::new(alloc))?;
    }
    Ok(sides)
}

/// All connections end at the cache, and bytes towards it are gone.
fn lose_caches(sides: &mut Vec<Side>)
    ensures { LoseAll sides.old.items sides.new.items }
{
    for number in 0..sides.len() {
        sides[number].lose_cache();
    }
}

/// The clean-up at each side.
fn settle_all(cache: &mut Cache<VersionLog>, sides: &mut Vec<Side>)
    ensures { (w : model.World) (at : ℕ → Option Conn) → ShowsParts w at cache.old sides.old.items → SettledAll w cache.new sides.new.items }
{
    for number in 0..sides.len() {
        sides[number].settle(cache);
    }
}
