//! What changed since the records of a router were accepted last.
ghost use Rattle.std.specs.Prelude.{◌≡◌, ◌≤◌, length, drop, Option, Some, None, IfOk};
ghost use Rattle.rpkirtr_c.specs.Answers.{number};
ghost use Rattle.rpkirtr_c.specs.Changes.{Begins, IsBegun, Takes, announced_of, withdrawn_of};
ghost use Rattle.rpkirtr_c.specs.Live.{On};
ghost use Rattle.rpkirtr_c.specs.Spelled.{IsCopied};
ghost use Rattle.rpkirtr_c.specs.declared.call_status.CallStatus.TheVariants.{Done};
ghost use Rattle.vrps.specs.Change.{between};
ghost use Rattle.vrps.specs.VrpSet.{VrpSet as Vrps};

use crate::call_status::CallStatus;
use crate::router::{RouterHandle, shut};
use crate::session::{Pending, Session};
use crate::values::{CRecord, copy_records, from_index};
use prefixes::Vrp;
use std::alloc::{AllocError, Global};
use vrps::{Change, VrpSet};

/// What leads from the accepted set to the table.
fn pending(alloc: Global, taken: &VrpSet, table: &VrpSet) -> Result<Pending, AllocError>
    ensures { IfOk result (IsBegun taken.now table.now) }
{
    let change = Change::between(alloc, taken, table)?;
    let table = table.duplicate()?;
    Ok(Pending { change, table })
}

/// The records that were withdrawn, if a change has begun.
fn withdrawn(pending: &Option<Pending>) -> &[Vrp]
    ensures { result.now ≡ withdrawn_of pending.now }
{
    match pending {
        None => &[],
        Some(pending) => pending.change.withdraw.as_slice(),
    }
}

/// The records that were announced, if a change has begun.
fn announced(pending: &Option<Pending>) -> &[Vrp]
    ensures { result.now ≡ announced_of pending.now }
{
    match pending {
        None => &[],
        Some(pending) => pending.change.announce.as_slice(),
    }
}

/// Begins the change from the accepted records to the table, and counts it.
#[tactic(auto, using(crate::proofs::Calls::begins))]
fn begin(
    alloc: Global,
    session: &mut Session,
    withdraws: &mut usize,
    announces: &mut usize,
) -> CallStatus
    ensures { Begins (number result) withdraws.new announces.new session.old session.new }
{
    *withdraws = 0;
    *announces = 0;
    let begun = match pending(alloc, &session.taken, session.router.table()) {
        Err(_) => return CallStatus::NoMemory,
        Ok(begun) => begun,
    };
    *withdraws = begun.change.withdraw.len();
    *announces = begun.change.announce.len();
    session.pending = Some(begun);
    CallStatus::Done
}

/// Begins a change: from the records that were accepted last, at first none, to the committed records. It writes how many records the change
/// withdraws and announces. The change is kept until another begins or `rpkirtr_router_changes_taken` accepts it.
/// Returns the number of a `CallStatus`: `Done`, `Empty` if `h` holds no router, or `NoMemory`. On a refusal both numbers are 0, and an earlier
/// change is kept.
#[unsafe(no_mangle)]
pub extern "C" fn rpkirtr_router_changes_begin(
    alloc: Global,
    h: &mut RouterHandle,
    withdraws: &mut usize,
    announces: &mut usize,
) -> i32
    ensures call { On h.old.value h.new.value result (λ s t. Begins result withdraws.new announces.new s t) }
    ensures empty { h.old.value ≡ None → (withdraws.new ≡ 0) × (announces.new ≡ 0) }
{
    *withdraws = 0;
    *announces = 0;
    let Some(mut session) = h.take(alloc) else {
        return CallStatus::Empty.number();
    };
    let answer = begin(alloc, &mut session, withdraws, announces);
    *h = shut(session);
    answer.number()
}

/// Copies the withdrawn records of the change from index `first` on into `room`, in ascending order, as many as fit. It writes to `copied` how many:
/// 0 if no change has begun. The rest of `room` stays.
/// Returns the number of a `CallStatus`: `Done`, or `Empty` if `h` holds no router, and then `copied` is 0.
#[unsafe(no_mangle)]
pub extern "C" fn rpkirtr_router_withdrawn(
    h: &mut RouterHandle,
    first: usize,
    room: &mut [CRecord],
    copied: &mut usize,
) -> i32
    ensures call { On h.old.value h.new.value result (λ s t. (result ≡ number Done) × (t ≡ s) × IsCopied (drop first (withdrawn_of s.pending)) room.old room.new copied.new) }
    ensures empty { h.old.value ≡ None → (room.new ≡ room.old) × (copied.new ≡ 0) }
{
    *copied = 0;
    if h.is_empty() {
        return CallStatus::Empty.number();
    }
    let session = h.value();
    *copied = copy_records(from_index(withdrawn(&session.pending), first), room);
    CallStatus::Done.number()
}

/// Copies the announced records of the change from index `first` on into `room`, in ascending order, as many as fit. It writes to `copied` how many:
/// 0 if no change has begun. The rest of `room` stays.
/// Returns the number of a `CallStatus`: `Done`, or `Empty` if `h` holds no router, and then `copied` is 0.
#[unsafe(no_mangle)]
pub extern "C" fn rpkirtr_router_announced(
    h: &mut RouterHandle,
    first: usize,
    room: &mut [CRecord],
    copied: &mut usize,
) -> i32
    ensures call { On h.old.value h.new.value result (λ s t. (result ≡ number Done) × (t ≡ s) × IsCopied (drop first (announced_of s.pending)) room.old room.new copied.new) }
    ensures empty { h.old.value ≡ None → (room.new ≡ room.old) × (copied.new ≡ 0) }
{
    *copied = 0;
    if h.is_empty() {
        return CallStatus::Empty.number();
    }
    let session = h.value();
    *copied = copy_records(from_index(announced(&session.pending), first), room);
    CallStatus::Done.number()
}

/// Accepts the change that has begun. The next change begins at the records to which this one led, even if the router has committed others since. If
/// no change has begun, nothing changes.
/// Returns the number of a `CallStatus`: `Done` in both cases, or `Empty` if `h` holds no router.
#[unsafe(no_mangle)]
pub extern "C" fn rpkirtr_router_changes_taken(alloc: Global, h: &mut RouterHandle) -> i32
    ensures { On h.old.value h.new.value result (λ s t. (result ≡ number Done) × Takes s t) }
{
    let Some(mut session) = h.take(alloc) else {
        return CallStatus::Empty.number();
    };
    let pending = session.pending.take();
    if let Some(pending) = pending {
        session.taken = pending.table;
    }
    *h = shut(session);
    CallStatus::Done.number()
}
