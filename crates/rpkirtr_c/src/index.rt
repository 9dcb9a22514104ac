//! Origin validation over records of a caller in C.
ghost use Rattle.std.specs.Prelude.{◌≡◌, ◌≤◌, length, List, Option, Some, None, is_none, option_map, false, ◌++◌, ◌∷◌, [], IfOk, IfErr, OnOk};
ghost use Rattle.std.specs.Coded.{coded_option};
ghost use Rattle.prefixes.specs.declared.route.Route.{Route};
ghost use Rattle.rpkirtr_c.specs.Answers.{number};
ghost use Rattle.rpkirtr_c.specs.Indexes.{AreRecords, IsFaultOf, IsOver, IsRecordFault, IsSetFault, NewIndex, bad_of, fault_status};
ghost use Rattle.rpkirtr_c.specs.Live.{Freed, New, On};
ghost use Rattle.rpkirtr_c.specs.Sessions.{AreCovering, IsJudged};
ghost use Rattle.rpkirtr_c.specs.Spelled.{state_number};
ghost use Rattle.rpkirtr_c.specs.declared.judge.Judge.{Judge};
ghost use Rattle.rpkirtr_c.specs.contracts.judge.Judge as judge;
ghost use Rattle.rpkirtr_c.specs.declared.call_status.CallStatus.TheVariants.{Done};
ghost use Rattle.rpkirtr_c.specs.declared.values.CRecord.{CRecord as Records};
ghost use Rattle.vrps.specs.VrpSet.{set_of, size};
ghost use Rattle.vrps.specs.declared.origin.OriginState.TheVariants.{NotFound};

use crate::call_status::CallStatus;
use crate::judge::{Judge, SharedJudge};
use crate::loose::Loose;
use crate::values::{CRecord, CRoute, copy_records, route_of, state_number, vrp_of};
use prefixes::Vrp;
use std::alloc::{AllocError, Global};
use std::fmt::{self, Debug};
use std::marker::Model;
use vrps::{OriginIndex, OriginState, SetFault, VrpSet};

/// An index, as C holds it: all zero before `rpkirtr_index_new` and after `rpkirtr_index_free`.
#[repr(C)]
#[derive(Drop)]
pub struct IndexHandle {
    at: *mut (),
    alloc: Global,
    ghost value: { Option Judge } by { coded_option judge.the_row.coded },
}

impl Model for IndexHandle {
    ghost use Rattle.rpkirtr_c.specs.Held.{held};
    ghost use Rattle.rpkirtr_c.specs.contracts.judge.SharedJudge.{the_row};
    ghost use Rattle.std.specs.Box.Ownership.{box_owns};
    ghost use Rattle.std.specs.contracts.impls.GlobalAllocator.TheImpl as heap_impl;

    ghost also_owns = { λ h. held h.at h.value (λ s. box_owns (heap_impl.ghosts.dealloc_token h.alloc) the_row h.at s) };
}

unsafe impl Send for IndexHandle {}

/// It shows nothing of the handle's value.
impl Debug for IndexHandle {
    fn fmt<W: fmt::Write>(&self, f: &mut fmt::Formatter<W>) -> fmt::Result {
        f.write_str("IndexHandle(..)")
    }
}

impl IndexHandle {
    ghost use Rattle.std.specs.Borrow.{sem};
    ghost use Rattle.rpkirtr_c.specs.Lent.{LendsJudge};

    /// Whether there is no value. The handle stays as it is.
    pub(crate) fn is_empty(&mut self) -> bool
        ensures { (result ≡ is_none self.old.value) × (self.new ≡ self.old) }
    {
        self.at.is_null()
    }

    /// The value, which stays in its handle.
    pub(crate) fn value(&mut self) -> &mut SharedJudge
        requires { is_none self.old.value ≡ false }
        ensures* lends { sem 𝓛 (LendsJudge self.entry result) }
        ensures value { Some result.now ≡ self.old.value }
    {
        unsafe { &mut *(self.at as *mut SharedJudge) }
    }

    fn of(l: Loose<SharedJudge, Global>) -> IndexHandle
        ensures { result.value ≡ Some l.value }
    {
        let Loose { at, alloc } = l;
        IndexHandle {
            at: at as *mut (),
            alloc,
        }
    }

    fn into_loose(self) -> Loose<SharedJudge, Global>
        requires { is_none self.value ≡ false }
        ensures { Some result.value ≡ self.value }
    {
        let IndexHandle { at, alloc } = self;
        Loose {
            at: at as *mut SharedJudge,
            alloc,
        }
    }

    fn empty(alloc: Global) -> IndexHandle
        ensures { result.value ≡ None }
    {
        IndexHandle {
            at: std::ptr::null_mut(),
            alloc,
        }
    }

    fn looked(self) -> (IndexHandle, bool)
        ensures { (result.0 ≡ self) × (result.1 ≡ is_none self.value) }
    {
        let IndexHandle { at, alloc } = self;
        let is_null = at.is_null();
        (IndexHandle { at, alloc }, is_null)
    }

    /// Moves the index out, if there is one. The handle is empty then.
    pub(crate) fn take(&mut self, alloc: Global) -> Option<Box<SharedJudge>>
        ensures taken { option_map (λ s. s.value) result ≡ self.old.value }
        ensures empty { self.new.value ≡ None }
    {
        let old = std::mem::replace(self, IndexHandle::empty(alloc));
        let (old, is_empty) = old.looked();
        if is_empty {
            return None;
        }
        Some(old.into_loose().into_box())
    }
}

/// The handle of an index.
pub(crate) fn shut_index(judge: Box<SharedJudge>) -> IndexHandle
    ensures { result.value ≡ Some judge.value }
{
    IndexHandle::of(Loose::of(judge))
}

/// Why there is no index over records.
#[derive(Clone, Copy, Debug, PartialEq, Eq)]
pub(crate) enum IndexFault {
    /// The record at this index is the first that is none.
    Bad(usize),
    /// More different records than a set may have.
    TooMany,
    /// Out of memory.
    Memory,
}

impl From<AllocError> for IndexFault {
    ghost use Rattle.rpkirtr_c.specs.declared.index.IndexFault.TheVariants.{Memory};

    ghost from_gives = { λ _ e. e ≡ Memory };

    fn from(_error: AllocError) -> IndexFault {
        IndexFault::Memory
    }
}

/// Adds a payload to a list.
fn push(list: &mut Vec<Vrp>, vrp: Vrp) -> Result<(), AllocError>
    ensures { OnOk result (list.new.items ≡ list.old.items ++ vrp ∷ []) }
{
    list.push(vrp)?;
    Ok(())
}

/// Adds the payloads of records to a list, up to the first that is none.
pub(crate) fn add_vrps(list: &mut Vec<Vrp>, records: &[CRecord]) -> Result<(), IndexFault>
    ensures ok { OnOk result ((before : List Records) → AreRecords list.old.items before → AreRecords list.new.items (before ++ records.now)) }
    ensures err { IfErr result (IsRecordFault records.now) }
{
    for i in 0..records.len() {
        match vrp_of(&records[i]) {
            None => return Err(IndexFault::Bad(i)),
            Some(vrp) => push(list, vrp)?,
        }
    }
    Ok(())
}

/// The payloads of records, or the first that is none.
pub(crate) fn vrps_of(alloc: Global, records: &[CRecord]) -> Result<Vec<Vrp>, IndexFault>
    ensures ok { IfOk result (λ list. AreRecords list.items records.now) }
    ensures err { IfErr result (IsRecordFault records.now) }
{
    let mut list = Vec::new(alloc);
    add_vrps(&mut list, records)?;
    Ok(list)
}

/// The set of payloads, or why there is none.
pub(crate) fn set_over(list: Vec<Vrp>) -> Result<VrpSet, IndexFault>
    ensures ok { IfOk result (λ set. set ≡ set_of list.items) }
    ensures err { IfErr result (IsSetFault list.items) }
{
    match VrpSet::from_list(list) {
        Err(SetFault::TooMany) => Err(IndexFault::TooMany),
        Err(SetFault::Memory) => Err(IndexFault::Memory),
        Ok(set) => Ok(set),
    }
}

/// An index over payloads, or why there is none.
pub(crate) fn judge_over(alloc: Global, list: Vec<Vrp>) -> Result<Judge, IndexFault>
    ensures ok { IfOk result (λ t. t.index ≡ set_of list.items) }
    ensures err { IfErr result (IsSetFault list.items) }
{
    let set = set_over(list)?;
    let index = OriginIndex::over(alloc, &set)?;
    Ok(Judge::over(index, set.len()))
}

/// An index over records, or why there is none.
fn index_over(alloc: Global, records: &[CRecord]) -> Result<Judge, IndexFault>
    ensures ok { IfOk result (IsOver records.now) }
    ensures err { IfErr result (IsFaultOf records.now) }
{
    let list = vrps_of(alloc, records)?;
    judge_over(alloc, list)
}

impl IndexFault {
    /// What a call answers of it.
    pub(crate) fn status(self) -> CallStatus
        ensures { result ≡ fault_status self }
    {
        match self {
            IndexFault::Bad(_) => CallStatus::BadRecord,
            IndexFault::TooMany => CallStatus::OutOfRange,
            IndexFault::Memory => CallStatus::NoMemory,
        }
    }

    /// The index of the record that is none.
    pub(crate) fn bad(self) -> usize
        ensures { result ≡ bad_of self }
    {
        match self {
            IndexFault::Bad(i) => i,
            IndexFault::TooMany => 0,
            IndexFault::Memory => 0,
        }
    }
}

/// A block with the first owner of an index.
pub(crate) fn boxed(alloc: Global, judge: Judge) -> Result<Box<SharedJudge>, AllocError>
    ensures { IfOk result (λ b. b.value ≡ judge) }
{
    let shared = SharedJudge::over(alloc, judge)?;
    match Box::new(alloc, shared) {
        Err(_) => Err(AllocError),
        Ok(shared) => Ok(shared),
    }
}

/// A block of an index over records, or why there is none.
fn boxed_over(alloc: Global, records: &[CRecord]) -> Result<Box<SharedJudge>, IndexFault>
    ensures ok { IfOk result (λ b. IsOver records.now b.value) }
    ensures err { IfErr result (IsFaultOf records.now) }
{
    let judge = index_over(alloc, records)?;
    Ok(boxed(alloc, judge)?)
}

/// Makes an index over records in the empty handle `h`. A record that is listed twice counts once.
/// Returns the number of a `CallStatus`: `Done`, `Live` if `h` is not empty, `BadRecord`, `OutOfRange` for more than 16,777,215 different records, or
/// `NoMemory`. After `BadRecord`, `bad` is the index of the first malformed record, otherwise 0. On a refusal the handle stays as it was.
#[unsafe(no_mangle)]
pub extern "C" fn rpkirtr_index_new(
    alloc: Global,
    h: &mut IndexHandle,
    records: &[CRecord],
    bad: &mut usize,
) -> i32
    ensures { NewIndex records.now h.old.value h.new.value result bad.new }
{
    *bad = 0;
    if let Some(judge) = h.take(alloc) {
        *h = shut_index(judge);
        return CallStatus::Live.number();
    }
    match boxed_over(alloc, records) {
        Err(fault) => {
            *bad = fault.bad();
            fault.status().number()
        }
        Ok(judge) => {
            *h = shut_index(judge);
            CallStatus::Done.number()
        }
    }
}

/// A block of an index over a set.
fn boxed_set(alloc: Global, set: &VrpSet) -> Result<Box<SharedJudge>, IndexFault>
    ensures { IfOk result (λ b. b.value.index ≡ set.now) }
{
    let index = OriginIndex::over(alloc, set)?;
    Ok(boxed(alloc, Judge::over(index, set.len()))?)
}

/// Makes an index over a set in an empty handle.
pub(crate) fn fill_index(alloc: Global, set: &VrpSet, h: &mut IndexHandle) -> CallStatus
    ensures { New h.old.value h.new.value (number result) (λ s. s.index ≡ set.now) }
{
    if let Some(judge) = h.take(alloc) {
        *h = shut_index(judge);
        return CallStatus::Live;
    }
    match boxed_set(alloc, set) {
        Err(_) => CallStatus::NoMemory,
        Ok(judge) => {
            *h = shut_index(judge);
            CallStatus::Done
        }
    }
}

/// Frees the index, and empties the handle.
/// Returns the number of a `CallStatus`: `Done`, or `Empty` if `h` holds no index.
#[unsafe(no_mangle)]
pub extern "C" fn rpkirtr_index_free(alloc: Global, h: &mut IndexHandle) -> i32
    ensures { Freed h.old.value h.new.value result }
{
    match h.take(alloc) {
        None => CallStatus::Empty.number(),
        Some(_judge) => CallStatus::Done.number(),
    }
}

/// Writes how many different records the index is over.
/// Returns the number of a `CallStatus`: `Done`, or `Empty` if `h` holds no index, and then 0 is written.
#[unsafe(no_mangle)]
pub extern "C" fn rpkirtr_index_count(h: &mut IndexHandle, count: &mut usize) -> i32
    ensures call { On h.old.value h.new.value result (λ s t. (result ≡ number Done) × (t ≡ s) × (count.new ≡ size s.index)) }
    ensures empty { h.old.value ≡ None → count.new ≡ 0 }
{
    *count = 0;
    if h.is_empty() {
        return CallStatus::Empty.number();
    }
    let judge = h.value().judge();
    *count = judge.count;
    CallStatus::Done.number()
}

/// Writes the origin validation state of a route over the index (RFC 6811 section 2): 0 not found, 1 valid, 2 invalid.
/// Returns the number of a `CallStatus`: `Done`, `Empty` if `h` holds no index, or `BadRoute` if the route has no valid prefix. On a refusal 0 is
/// written.
#[unsafe(no_mangle)]
pub extern "C" fn rpkirtr_index_state(h: &mut IndexHandle, route: &CRoute, state: &mut i32) -> i32
    ensures call { On h.old.value h.new.value result (λ s t. (t ≡ s) × IsJudged route.now s.index result state.new) }
    ensures empty { h.old.value ≡ None → state.new ≡ state_number NotFound }
{
    *state = state_number(OriginState::NotFound);
    if h.is_empty() {
        return CallStatus::Empty.number();
    }
    let judge = h.value().judge();
    let answer = match route_of(route) {
        None => CallStatus::BadRoute,
        Some(route) => {
            *state = state_number(judge.index.state(&route));
            CallStatus::Done
        }
    };
    answer.number()
}

/// Copies the records of the index that cover a route into `room`, in ascending order, as many as fit. It writes to `count` how many cover the route,
/// also if fewer fit. The rest of `room` stays.
/// Returns the number of a `CallStatus`: `Done`, `Empty` if `h` holds no index, `BadRoute` if the route has no valid prefix, or `NoMemory`. On a
/// refusal `count` is 0, and `room` stays.
#[unsafe(no_mangle)]
pub extern "C" fn rpkirtr_index_covering(
    alloc: Global,
    h: &mut IndexHandle,
    route: &CRoute,
    room: &mut [CRecord],
    count: &mut usize,
) -> i32
    ensures call { On h.old.value h.new.value result (λ s t. (t ≡ s) × AreCovering route.now s.index result room.old room.new count.new) }
    ensures empty { h.old.value ≡ None → (room.new ≡ room.old) × (count.new ≡ 0) }
{
    *count = 0;
    if h.is_empty() {
        return CallStatus::Empty.number();
    }
    let judge = h.value().judge();
    let answer = match route_of(route) {
        None => CallStatus::BadRoute,
        Some(route) => match judge.index.covering(alloc, &route) {
            Err(_) => CallStatus::NoMemory,
            Ok(records) => {
                *count = records.len();
                let _copied = copy_records(records.as_slice(), room);
                CallStatus::Done
            }
        },
    };
    answer.number()
}
