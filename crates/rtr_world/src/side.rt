//! One router of a world, its connection, and the bytes in transit.
ghost use Rattle.std.specs.Prelude.{◌≡◌, ℕ, ◌+◌, ◌-◌, ◌≤◌, ◌^◌, ◌&&◌, ◌||◌, nat_lt, length, Option, IfSome, is_none, option_map};
ghost use Rattle.vrps.specs.Instance.{Instance};
ghost use Rattle.vrps.specs.Serial.{serial_at};
ghost use Rattle.vrps.specs.Steps.{HoldsSteps};
ghost use Rattle.rtr_ends.specs.CacheState.{ShowsCache};
ghost use Rattle.rtr_ends.specs.LinkRules.{Router as Routed};
ghost use Rattle.rtr_ends.specs.RouterShown.{IsShown};
ghost use Rattle.rtr_world.specs.History.{Reached, room_for, room_since, side_at};
ghost use Rattle.rtr_world.specs.Reached.{Lost};
ghost use Rattle.rtr_ends.specs.Cache.{Conn as Conned};
ghost use Rattle.rtr_world.specs.Events.{side_event_of};
ghost use Rattle.rtr_world.specs.SideShown.{BeginsEvent, Goes, Happens, HasSessions, IsNewSide, Moves, ShowsBoth, ShowsSide, held_of, state_of};
ghost use Rattle.rtr_world.specs.World as model;

use crate::event::SideEvent;
use crate::wire::Wire;
use rtr_ends::{Cache, Conn, Router, Sessions};
use std::alloc::{AllocError, Global};
use vrps::{Serial, VersionLog};

/// A router of a world, its connection at the cache, and the bytes in transit in both directions.
#[derive(Debug, Drop)]
pub struct Side {
    pub router: Router,
    pub conn: Option<Conn>,
    pub up: Wire,
    pub down: Wire,
    /// The serial that was current when the connection was made, or the first serial if nothing was published then.
    /// `None`: there is no connection, or it was made to an earlier instance of the cache.
    pub made: Option<Serial>,
}

impl Side {
    /// A router that was never connected, with nothing in transit.
    pub fn new(alloc: Global) -> Side
        ensures { IsNewSide result }
    {
        Side {
            router: Router::new(alloc),
            conn: None,
            up: Wire::new(alloc),
            down: Wire::new(alloc),
            made: None,
        }
    }

    /// Closes the connection at the cache. If none is open, nothing changes. Bytes in transit are kept.
    pub fn close(&mut self, cache: &mut Cache<VersionLog>)
        ensures { Goes (λ w s. record s { conn = Option.None }) cache.old self.old cache.new self.new }
    {
        if let Some(conn) = self.conn {
            cache.close(conn);
            self.conn = None;
        }
    }

    /// Notes that the cache restarted: its side of the connection and the bytes in transit to it are lost. Bytes in transit to the router stay.
    pub fn lose_cache(&mut self)
        ensures { Lost self.old self.new }
    {
        self.conn = None;
        self.up.clear();
        self.made = None;
    }

    /// The serial that the router holds of the instance with these sessions.
    fn held(&self, sessions: Sessions) -> Option<Serial>
        ensures { (i : Instance) (r : Routed) → HasSessions i sessions → IsShown r self.now.router → option_map (λ s. s.0) result ≡ held_of i r.version }
    {
        let (version, session, serial) = self.router.committed()?;
        if sessions.of(version) == session {
            Some(serial)
        } else {
            None
        }
    }

    /// Whether a version of serial `next` is fewer than 2^31 versions after each one that this side still uses.
    /// These are the version that the router holds of the instance with these sessions, and the one that was current when it connected.
    /// `true` if there is neither.
    pub fn has_room(&self, sessions: Sessions, next: Serial) -> bool
        ensures { (w : model.World) (at : ℕ → Option Conned) (r : ℕ) (s : model.Side) → Reached w → side_at r w.sides ≡ Option.Some s → HasSessions w.present sessions →
            next.0 ≡ serial_at w.present.start (length w.present.sets) → ShowsSide w at s self.now → result ≡ (room_for w.present s.router.version && room_since w.present s.home) }
    {
        is_near(self.held(sessions), next) && is_near(self.made, next)
    }

    /// A new router is in this one's place.
    fn restart(&mut self, cache: &mut Cache<VersionLog>, alloc: Global)
        ensures { Goes (λ w s. model.router_restarts s) cache.old self.old cache.new self.new }
    {
        self.close(cache);
        *self = Side::new(alloc);
    }

    /// Closes the connection at the cache. The bytes on their way to the cache are lost. Of those on their way to the router, at most this many
    /// still arrive.
    fn cut(&mut self, cache: &mut Cache<VersionLog>, left: u64)
        ensures { Goes (λ w s. model.cut left s) cache.old self.old cache.new self.new }
    {
        self.close(cache);
        self.up.clear();
        self.down.keep(left);
    }

    /// A connection is made, to an instance whose first version has the serial `start`.
    fn connect(&mut self, cache: &mut Cache<VersionLog>, start: u32) -> Result<(), AllocError>
        ensures { (w : model.World) (at : ℕ → Option Conned) (s : model.Side) → w.present.start ≡ start → ShowsBoth w at s cache.old self.old →
            BeginsEvent w at model.Connect s (λ t. Moves w at self.old.conn t cache.new self.new) result }
    {
        self.close(cache);
        let conn = cache.open()?;
        self.router.connect(0);
        self.conn = Some(conn);
        self.up.clear();
        self.down.clear();
        self.made = Some(current_or(cache, start));
        Ok(())
    }

    /// The cache notifies the router, if it can.
    fn notify(&mut self, cache: &mut Cache<VersionLog>)
        ensures { Goes (λ w s. model.notifies_at w s s.conn) cache.old self.old cache.new self.new }
    {
        if let Some(conn) = self.conn {
            let _notified = cache.notify(conn);
        }
    }

    /// What an event does at this side, the clean-up aside. If memory runs out, the cut is still to come.
    fn begin(
        &mut self,
        cache: &mut Cache<VersionLog>,
        alloc: Global,
        start: u32,
        event: SideEvent,
    ) -> Result<(), AllocError>
        ensures { (w : model.World) (at : ℕ → Option Conned) (s : model.Side) → w.present.start ≡ start → ShowsBoth w at s cache.old self.old →
            BeginsEvent w at (side_event_of event) s (λ t. Moves w at self.old.conn t cache.new self.new) result }
    {
        match event {
            SideEvent::RouterRestart => self.restart(cache, alloc),
            SideEvent::Speak(version) => self.router.speak(version),
            SideEvent::Connect => return self.connect(cache, start),
            SideEvent::RouterSends(most) => return self.router_sends(most),
            SideEvent::CacheGets(most) => self.cache_gets(cache, most),
            SideEvent::CacheSends(most) => return self.cache_sends(cache, most),
            SideEvent::RouterGets(most) => self.router_gets(most),
            SideEvent::Cut(left) => self.cut(cache, left),
            SideEvent::NotifyRouter => self.notify(cache),
            SideEvent::Ask => {
                let _asked = self.router.ask();
            }
            SideEvent::Tick(now) => self.router.tick(now),
        }
        Ok(())
    }

    /// Runs one event at this side, and then the clean-up. `start` is the serial of the first version of the cache's instance.
    /// `Err`: memory ran out. The connection is cut, and nothing more arrives.
    pub fn happen(
        &mut self,
        cache: &mut Cache<VersionLog>,
        alloc: Global,
        start: u32,
        event: SideEvent,
    ) -> Result<(), AllocError>
        ensures { (w : model.World) (at : ℕ → Option Conned) (s : model.Side) → w.present.start ≡ start → ShowsBoth w at s cache.old self.old →
            Happens w at (side_event_of event) s (λ t. Moves w at self.old.conn t cache.new self.new) result }
    {
        let done = self.begin(cache, alloc, start, event);
        if done.is_err() {
            self.cut(cache, 0);
        }
        self.settle(cache);
        done
    }
}

/// The serial of the current version, or this one if nothing is published.
fn current_or(cache: &Cache<VersionLog>, start: u32) -> Serial
    ensures { (w : model.World) (at : ℕ → Option Conned) → w.present.start ≡ start → ShowsCache HoldsSteps (state_of w at) cache.now → result.0 ≡ serial_at w.present.start (length w.present.sets - 1) }
{
    match cache.current() {
        None => Serial(start),
        Some((serial, _)) => serial,
    }
}

/// Whether the version of a serial is fewer than 2^31 after this one, if there is one.
fn is_near(held: Option<Serial>, next: Serial) -> bool
    ensures { (start position steps : ℕ) → steps ≤ 2 ^ 31 → IfSome held (λ s. s.0 ≡ serial_at start position) → next.0 ≡ serial_at start (position + steps) → result ≡ (is_none held || nat_lt steps (2 ^ 31)) }
{
    match held {
        None => true,
        Some(serial) => serial == next || serial.is_before(next),
    }
}
