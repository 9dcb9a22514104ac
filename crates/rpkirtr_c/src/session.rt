//! The value of a router's handle.
ghost use Rattle.std.specs.Prelude.{◌≡◌, ◌≤◌, length, take};
ghost use Rattle.rtr_ends.specs.Router as model;
ghost use Rattle.rtr_server.specs.Counting.{first_byte};
ghost use Rattle.rtr_server.specs.Turns.{no_traffic};
ghost use Rattle.rpkirtr_c.specs.Carried.{and_sent};
ghost use Rattle.rpkirtr_c.specs.Sessions.{Carries, IsPulled, Receives, Shows};

use rtr_ends::Router;
use rtr_server::Traffic;
use vrps::{Change, VrpSet};

/// A change that has begun, and the records to which it leads.
#[derive(Debug, Drop)]
pub struct Pending {
    pub(crate) change: Change,
    pub(crate) table: VrpSet,
}

/// A router, the records that were accepted last, the change that has begun, and what the latest connection carried.
#[derive(Debug, Drop)]
pub struct Session {
    pub(crate) router: Router,
    pub(crate) taken: VrpSet,
    pub(crate) pending: Option<Pending>,
    pub(crate) traffic: Traffic,
}

impl Session {
    /// A connection is made, which has carried nothing.
    pub(crate) fn connect(&mut self, now: u64)
        ensures { Carries (model.Connects now) no_traffic self.old self.new }
    {
        self.router.connect(now);
        self.traffic = Traffic::new();
    }

    /// Passes in bytes, counts those that were consumed, and returns how many these are.
    pub(crate) fn receive(&mut self, bytes: &[u8], now: u64) -> usize
        ensures receives { Receives now bytes.now result self.old self.new }
        ensures within { result ≤ length bytes.now }
    {
        let taken = self.router.receive(bytes, now);
        let traffic = &mut self.traffic;
        traffic.carried.read = traffic.carried.read.saturating_add(taken as u64);
        traffic.received.count(&bytes[..taken]);
        traffic.asked = first_byte(traffic.asked, &bytes[..taken]);
        taken
    }

    /// Moves bytes to be sent into the room, counts them, and returns how many these are.
    pub(crate) fn pull(&mut self, room: &mut [u8]) -> usize
        ensures carries { Carries (model.Pulls (length room.old)) (and_sent (take result room.new) self.old.traffic) self.old self.new }
        ensures pulled { Shows self.old (λ r. IsPulled r.out room.old room.new result) }
        ensures within { result ≤ length room.old }
    {
        let pulled = self.router.pull(room);
        let traffic = &mut self.traffic;
        traffic.carried.written = traffic.carried.written.saturating_add(pulled as u64);
        traffic.sent.count(&room[..pulled]);
        pulled
    }
}

/// The first byte that came: one that came before, or the first of these.
fn first_byte(before: Option<u8>, bytes: &[u8]) -> Option<u8>
    ensures { result ≡ first_byte before bytes.now }
{
    match before {
        Some(_) => before,
        None => bytes.get(0).copied(),
    }
}
