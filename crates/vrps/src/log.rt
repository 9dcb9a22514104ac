//! A log of versions that keeps the current set and the steps to it.
ghost use Rattle.std.specs.Prelude.{◌≡◌, ◌≤◌, ◌↔◌, ◌+◌, ◌%◌, ◌^◌, IsTrue, ℕ, [], ◌∷◌, take, IfOk, option_map};
ghost use Rattle.vrps.specs.Instance.{Instance};
ghost use Rattle.vrps.specs.NewestSteps.{newest_step};
ghost use Rattle.vrps.specs.Steps.{HoldsSteps, kept_step};
ghost use Rattle.vrps.specs.VrpSet.{IsListing, set_of, size};
ghost use Rattle.vrps.specs.Wholes.{IsBehind};

use crate::merge::{Lists, merged};
use crate::store::{Published, Since, VersionStore};
use crate::{Change, Serial, VrpSet};
use circular_buffer::HeapCircularBuffer;
use std::alloc::{AllocError, Global};
use std::marker::Model;
use std::rc::Rc;

/// The versions of one session: the current set, and the changes that lead to it from the kept versions.
/// `publish` walks both sets once, and allocates memory for the new change before it modifies the log. `since` merges the changes on request. So
/// the log needs the memory of one set and of the changes.
#[derive(Debug, Drop)]
pub struct VersionLog {
    alloc: Global,
    session: u16,
    /// The serial of the next version.
    next: Serial,
    newest: Option<Rc<VrpSet>>,
    /// The newest first.
    steps: HeapCircularBuffer<Change>,
}

impl Model for VersionLog {
    ghost use Rattle.std.specs.Prelude.{option_map};
    ghost use Rattle.vrps.specs.Steps.{LeadsToNow, Steps, coded_steps, steps_log};

    ghost Value = { Steps };

    ghost coded = { coded_steps };

    ghost view = { λ log. steps_log log.session log.next.0 (option_map (λ set. set.value) log.newest) log.steps.items log.steps.capacity };

    ghost invariant = { λ log. LeadsToNow (option_map (λ set. set.value) log.newest) log.steps.items };
}

impl VersionLog {
    /// A log without versions. `session` is the session ID, `start` the serial of the first version.
    /// `keep` is how many versions before the current one are kept, from 1 to 65,536. Room for `keep` changes is allocated here. `AllocError`:
    /// no memory for them.
    pub fn new(alloc: Global, session: u16, start: u32, keep: u32) -> Result<VersionLog, AllocError>
        requires some { 1 ≤ keep }
        requires limit { keep ≤ 65536 }
        ensures { IfOk result (λ log. (session0 : ℕ) → HoldsSteps keep (record { session = session; session0 = session0; start = start; sets = [] }) log) }
    {
        let steps = HeapCircularBuffer::with_capacity(alloc, keep as usize)?;
        Ok(VersionLog {
            alloc,
            session,
            next: Serial(start),
            newest: None,
            steps,
        })
    }

    /// Returns the kept change at place `i`, from 0. Place 0 is the oldest, and each change leads from one version to the next. `None`: at most `i`
    /// changes are kept.
    pub fn kept(&self, i: usize) -> Option<&Change>
        ensures { (keep : ℕ) (instance : Instance) → HoldsSteps keep instance self.now → option_map (λ step. step.now) result ≡ kept_step keep instance.sets i }
    {
        self.steps.nth_back(i)
    }

    /// The change from the previous version to the current one. `None`: there is no previous version.
    pub fn newest_step(&self) -> Option<&Change>
        ensures { (keep : ℕ) (instance : Instance) → HoldsSteps keep instance self.now → option_map (λ step. step.now) result ≡ newest_step keep instance.sets }
    {
        self.steps.front()
    }

    /// How many versions before the current one that of this serial is.
    fn behind(&self, serial: Serial) -> usize
        ensures { IsBehind self.now.next serial.0 result }
    {
        self.next.0.wrapping_sub(1).wrapping_sub(serial.0) as usize
    }
}

/// The change of two listings.
fn change_of(lists: Lists) -> Change
    requires withdraw { IsListing lists.withdraw.items }
    requires announce { IsListing lists.announce.items }
    ensures { result ≡ record { withdraw = set_of lists.withdraw.items; announce = set_of lists.announce.items } }
{
    let Lists { withdraw, announce } = lists;
    Change {
        withdraw: VrpSet::from_listing(withdraw),
        announce: VrpSet::from_listing(announce),
    }
}

/// Whether nothing is withdrawn and nothing announced.
fn is_nothing(step: &Change) -> bool
    ensures { IsTrue result ↔ ((size step.now.withdraw ≡ 0) × (size step.now.announce ≡ 0)) }
{
    step.withdraw.is_empty() && step.announce.is_empty()
}

/// Adds the newest step. If there is no room, the oldest one is dropped.
fn keep(steps: &mut HeapCircularBuffer<Change>, step: Change)
    ensures items { steps.new.items ≡ take steps.old.capacity (step ∷ steps.old.items) }
    ensures capacity { steps.new.capacity ≡ steps.old.capacity }
{
    let _oldest = steps.push_front(step);
}

/// The serial, which advances to the next one.
fn take_serial(next: &mut Serial) -> Serial
    ensures serial { result.0 ≡ next.old.0 }
    ensures next { next.new.0 ≡ (next.old.0 + 1) % 2 ^ 32 }
{
    let serial = *next;
    next.0 = serial.0.wrapping_add(1);
    serial
}

impl VersionStore for VersionLog {
    ghost use Rattle.vrps.specs.Steps.{HoldsSteps};

    ghost holds = { HoldsSteps };

    fn session(&self) -> u16 {
        self.session
    }

    fn publish(&mut self, set: Rc<VrpSet>) -> Result<Published, AllocError> {
        let _size = set.as_ref().len();
        let Some(now) = self.newest.as_ref() else {
            self.newest = Some(set);
            return Ok(Published::New(take_serial(&mut self.next)));
        };
        let step = Change::between(self.alloc, now.as_ref(), set.as_ref())?;
        if is_nothing(&step) {
            return Ok(Published::Unchanged);
        }
        keep(&mut self.steps, step);
        self.newest = Some(set);
        Ok(Published::New(take_serial(&mut self.next)))
    }

    fn current(&self) -> Option<(Serial, &Rc<VrpSet>)> {
        let now = self.newest.as_ref()?;
        Some((Serial(self.next.0.wrapping_sub(1)), now))
    }

    fn since(&self, serial: Serial) -> Result<Since, AllocError> {
        let Some(_now) = self.newest.as_ref() else {
            return Ok(Since::NoData);
        };
        let behind = self.behind(serial);
        if self.steps.len() < behind {
            return Ok(Since::Unknown);
        }
        let lists = merged(self.alloc, &self.steps, 0, behind)?;
        Ok(Since::Change(change_of(lists)))
    }
}
