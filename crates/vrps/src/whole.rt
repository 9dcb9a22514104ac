//! A log of versions that keeps whole sets.
ghost use Rattle.std.specs.Prelude.{◌≡◌, ◌≤◌, ℕ, [], IfOk};
ghost use Rattle.vrps.specs.Wholes.{IsBehind};
ghost use Rattle.vrps.specs.Store.{is_current};

use crate::store::{Published, Since, VersionStore};
use crate::{Change, Serial, VrpSet};
use std::alloc::{AllocError, Global};
use std::collections::VecDeque;
use std::rc::Rc;

/// The versions of one session, each kept as a whole set: the current one and some before it. Room for them is allocated by `new`, so `publish`
/// allocates nothing.
#[derive(Debug, Drop)]
pub struct WholeLog {
    alloc: Global,
    session: u16,
    /// The serial of the next version.
    next: Serial,
    /// The newest first.
    sets: VecDeque<Rc<VrpSet>>,
}

impl WholeLog {
    ghost use Rattle.vrps.specs.WholeLogs.{HasRoom, IsLogOf, sets_of};

    /// A log without versions. `session` is the session ID, `start` the serial of the first version. `keep` is how many versions before the
    /// current one are kept, from 1 to 65,536. Room for references to `keep + 1` sets is allocated here. `AllocError`: no memory for it.
    pub fn new(alloc: Global, session: u16, start: u32, keep: u32) -> Result<WholeLog, AllocError>
        requires some { 1 ≤ keep }
        requires limit { keep ≤ 65536 }
        ensures { IfOk result (λ log. (session0 : ℕ) → IsLogOf keep (record { session = session; session0 = session0; start = start; sets = [] }) log) }
    {
        let sets = VecDeque::with_capacity(alloc, keep as usize + 1)?;
        Ok(WholeLog {
            alloc,
            session,
            next: Serial(start),
            sets,
        })
    }

    /// Drops the oldest set if there is no room for one more.
    fn make_room(&mut self)
        ensures { HasRoom self.old self.new }
    {
        if self.sets.len() == self.sets.capacity() {
            let _oldest = self.sets.pop_back();
        }
    }

    /// How many versions before the current one that of this serial is.
    fn behind(&self, serial: Serial) -> usize
        ensures { IsBehind self.now.next.0 serial.0 result }
    {
        self.next.0.wrapping_sub(1).wrapping_sub(serial.0) as usize
    }

    /// Whether the current version is this set.
    fn is_current(&self, set: &VrpSet) -> bool
        ensures { result ≡ is_current (sets_of self.now) set.now }
    {
        match self.sets.front() {
            None => false,
            Some(now) => now.as_ref().is_same(set),
        }
    }
}

impl VersionStore for WholeLog {
    ghost use Rattle.vrps.specs.WholeLogs.{IsLogOf};

    ghost holds = { IsLogOf };

    fn session(&self) -> u16 {
        self.session
    }

    fn publish(&mut self, set: Rc<VrpSet>) -> Result<Published, AllocError> {
        if self.is_current(set.as_ref()) {
            return Ok(Published::Unchanged);
        }
        let serial = self.next;
        self.make_room();
        self.sets.push_front(set)?;
        self.next = Serial(serial.0.wrapping_add(1));
        Ok(Published::New(serial))
    }

    fn current(&self) -> Option<(Serial, &Rc<VrpSet>)> {
        let now = self.sets.front()?;
        Some((Serial(self.next.0.wrapping_sub(1)), now))
    }

    fn since(&self, serial: Serial) -> Result<Since, AllocError> {
        let Some(now) = self.sets.front() else {
            return Ok(Since::NoData);
        };
        let Some(before) = self.sets.get(self.behind(serial)) else {
            return Ok(Since::Unknown);
        };
        let change = Change::between(self.alloc, before.as_ref(), now.as_ref())?;
        Ok(Since::Change(change))
    }
}
