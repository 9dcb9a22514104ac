//! The clean-up after an event: what has ended is closed, and the router notified.
ghost use Rattle.std.specs.Prelude.{◌≡◌};
ghost use Rattle.rtr_ends.specs.LinkRules.{Router};
ghost use Rattle.rtr_ends.specs.RouterLink.{is_closed};
ghost use Rattle.rtr_ends.specs.RouterShown.{IsShown};
ghost use Rattle.rtr_world.specs.SideShown.{Alone, Goes};
ghost use Rattle.rtr_world.specs.World as model;

use crate::side::Side;
use rtr_ends::{Cache, Link};
use vrps::VersionLog;

impl Side {
    /// Whether the router has no connection.
    fn is_closed(&self) -> bool
        ensures { (r : Router) → IsShown r self.now.router → result ≡ is_closed r.link }
    {
        match self.router.link() {
            Link::Closed => true,
            _ => false,
        }
    }

    /// Whether the router's link ended.
    fn has_ended(&self) -> bool
        ensures { (r : Router) → IsShown r self.now.router → result ≡ model.is_ended r.link }
    {
        match self.router.link() {
            Link::Ended(_) => true,
            _ => false,
        }
    }

    /// A connection at the cache that ended, with nothing left to pull, is closed there.
    fn close_ended(&mut self, cache: &mut Cache<VersionLog>)
        ensures { Goes (λ w s. model.settle_conn s s.conn) cache.old self.old cache.new self.new }
    {
        if let Some(conn) = self.conn {
            if !cache.is_open(conn) && !cache.has_bytes(conn) {
                self.close(cache);
            }
        }
    }

    /// The router is notified that its connection is closed.
    fn tell_closed(&mut self)
        ensures { Alone (λ w s. model.tell_closed (model.instances w) s) self.old self.new }
    {
        if !self.is_closed() {
            self.router.closed(0);
        }
        self.made = None;
    }

    /// A router whose link ended, with nothing left to pull, is notified.
    fn tell_ended(&mut self)
        ensures { Alone (λ w s. model.settle_link (model.instances w) s s.router.link s.router.out) self.old self.new }
    {
        if self.has_ended() && !self.router.has_bytes() {
            self.tell_closed();
        }
    }

    /// Bytes towards a closed link are gone, and the cache's side is closed if nothing is on its way to it.
    fn drop_rest(&mut self, cache: &mut Cache<VersionLog>)
        ensures { Goes (λ w s. model.settle_rest s s.router.link s.up) cache.old self.old cache.new self.new }
    {
        if !self.is_closed() {
            return;
        }
        self.down.clear();
        if self.up.is_empty() {
            self.close(cache);
        }
    }

    /// A router whose connection is closed at the cache is notified if nothing is on its way to it. Then there is no connection.
    fn tell_cut(&mut self)
        ensures { Alone (λ w s. model.settle_wire (model.instances w) s s.conn s.down) self.old self.new }
    {
        if self.conn.is_none() && self.down.is_empty() {
            self.tell_closed();
            self.up.clear();
        }
    }

    /// Cleans up after an event. It closes what has ended, and drops bytes in transit to a closed end. A router whose connection is gone learns that
    /// it is closed, once no bytes are in transit to it. A second call changes nothing.
    pub fn settle(&mut self, cache: &mut Cache<VersionLog>)
        ensures { Goes (λ w s. model.settle (model.instances w) s) cache.old self.old cache.new self.new }
    {
        self.close_ended(cache);
        self.tell_ended();
        self.drop_rest(cache);
        self.tell_cut();
    }
}
