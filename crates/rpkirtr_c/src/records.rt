//! The committed records of a router for C, and the state of a route over them.
ghost use Rattle.std.specs.Prelude.{◌≡◌, ◌≤◌, length, drop, Option, Some, None, OnErr};
ghost use Rattle.prefixes.specs.declared.route.Route.{Route};
ghost use Rattle.rpkirtr_c.specs.Answers.{number};
ghost use Rattle.rpkirtr_c.specs.Live.{New, On};
ghost use Rattle.rpkirtr_c.specs.Sessions.{AreCovering, IsJudged, Shows};
ghost use Rattle.rpkirtr_c.specs.Spelled.{IsCopied, IsRecordAt, no_record, state_number};
ghost use Rattle.rpkirtr_c.specs.declared.call_status.CallStatus.TheVariants.{Done};
ghost use Rattle.vrps.specs.VrpSet.{listing, size};
ghost use Rattle.vrps.specs.declared.origin.OriginState.TheVariants.{NotFound};

use crate::call_status::CallStatus;
use crate::index::{IndexHandle, fill_index};
use crate::router::{RouterHandle, shut};
use crate::values::{
    CRecord, CRoute, copy_records, from_index, no_record, record_at, route_of, state_number,
};
use std::alloc::Global;
use vrps::OriginState;

/// Writes how many records are committed.
/// Returns the number of a `CallStatus`: `Done`, or `Empty` if `h` holds no router, and then 0 is written.
#[unsafe(no_mangle)]
pub extern "C" fn rpkirtr_router_count(h: &mut RouterHandle, count: &mut usize) -> i32
    ensures call { On h.old.value h.new.value result (λ s t. (result ≡ number Done) × (t ≡ s) × Shows s (λ r. count.new ≡ size r.table)) }
    ensures empty { h.old.value ≡ None → count.new ≡ 0 }
{
    *count = 0;
    if h.is_empty() {
        return CallStatus::Empty.number();
    }
    let session = h.value();
    *count = session.router.table().len();
    CallStatus::Done.number()
}

/// Writes the origin validation state of a route over the committed records (RFC 6811 section 2): 0 not found, 1 valid, 2 invalid. Records that have
/// expired count until the next call with a time.
/// Returns the number of a `CallStatus`: `Done`, `Empty` if `h` holds no router, or `BadRoute` if the route has no valid prefix. On a refusal 0 is
/// written.
#[unsafe(no_mangle)]
pub extern "C" fn rpkirtr_router_state(h: &mut RouterHandle, route: &CRoute, state: &mut i32) -> i32
    ensures call { On h.old.value h.new.value result (λ s t. (t ≡ s) × Shows s (λ r. IsJudged route.now r.table result state.new)) }
    ensures empty { h.old.value ≡ None → state.new ≡ state_number NotFound }
{
    *state = state_number(OriginState::NotFound);
    if h.is_empty() {
        return CallStatus::Empty.number();
    }
    let session = h.value();
    let answer = match route_of(route) {
        None => CallStatus::BadRoute,
        Some(route) => {
            *state = state_number(session.router.route_state(&route));
            CallStatus::Done
        }
    };
    answer.number()
}

/// Writes the record at `index`, from 0, of the committed records in ascending order.
/// Returns the number of a `CallStatus`: `Done`, `Empty` if `h` holds no router, or `OutOfRange` if `index` is their number or more. On a refusal all
/// fields of `out` are 0.
#[unsafe(no_mangle)]
pub extern "C" fn rpkirtr_router_record(
    h: &mut RouterHandle,
    index: usize,
    out: &mut CRecord,
) -> i32
    ensures call { On h.old.value h.new.value result (λ s t. (t ≡ s) × Shows s (λ r. IsRecordAt (listing r.table) index result out.new)) }
    ensures empty { h.old.value ≡ None → out.new ≡ no_record }
{
    *out = no_record();
    if h.is_empty() {
        return CallStatus::Empty.number();
    }
    let session = h.value();
    let answer = record_at(session.router.table().as_slice(), index, out);
    answer.number()
}

/// Copies the committed records from index `first` on into `room`, in ascending order, as many as fit. It writes to `copied` how many: 0 if `first`
/// is their number or more. The rest of `room` stays.
/// Returns the number of a `CallStatus`: `Done`, or `Empty` if `h` holds no router, and then `copied` is 0.
#[unsafe(no_mangle)]
pub extern "C" fn rpkirtr_router_records(
    h: &mut RouterHandle,
    first: usize,
    room: &mut [CRecord],
    copied: &mut usize,
) -> i32
    ensures call { On h.old.value h.new.value result (λ s t. (result ≡ number Done) × (t ≡ s) × Shows s (λ r. IsCopied (drop first (listing r.table)) room.old room.new copied.new)) }
    ensures empty { h.old.value ≡ None → (room.new ≡ room.old) × (copied.new ≡ 0) }
{
    *copied = 0;
    if h.is_empty() {
        return CallStatus::Empty.number();
    }
    let session = h.value();
    *copied = copy_records(from_index(session.router.table().as_slice(), first), room);
    CallStatus::Done.number()
}

/// Copies the committed records that cover a route into `room`, in ascending order, as many as fit. It writes to `count` how many cover the route,
/// also if fewer fit. The rest of `room` stays.
/// Returns the number of a `CallStatus`: `Done`, `Empty` if `h` holds no router, `BadRoute` if the route has no valid prefix, or `NoMemory`. On a
/// refusal `count` is 0, and `room` stays.
#[unsafe(no_mangle)]
pub extern "C" fn rpkirtr_router_covering(
    h: &mut RouterHandle,
    route: &CRoute,
    room: &mut [CRecord],
    count: &mut usize,
) -> i32
    ensures call { On h.old.value h.new.value result (λ s t. (t ≡ s) × Shows s (λ r. AreCovering route.now r.table result room.old room.new count.new)) }
    ensures empty { h.old.value ≡ None → (room.new ≡ room.old) × (count.new ≡ 0) }
{
    *count = 0;
    if h.is_empty() {
        return CallStatus::Empty.number();
    }
    let session = h.value();
    let answer = match route_of(route) {
        None => CallStatus::BadRoute,
        Some(route) => match session.router.covering(&route) {
            Err(_) => CallStatus::NoMemory,
            Ok(records) => {
                *count = records.len();
                let _copied = copy_records(records.as_slice(), room);
                CallStatus::Done
            }
        },
    };
    answer.number()
}

/// Makes an index over the committed records in the empty handle `index`. The index does not change if the router changes or is freed, nor if the
/// records expire.
/// Returns the number of a `CallStatus`: `Done`, `Empty` if `h` holds no router, `Live` if `index` is not empty, or `NoMemory`. On a refusal `index`
/// stays as it was.
#[tactic(auto, using(crate::proofs::Calls::indexes))]
#[unsafe(no_mangle)]
pub extern "C" fn rpkirtr_router_index(
    alloc: Global,
    h: &mut RouterHandle,
    index: &mut IndexHandle,
) -> i32
    ensures call { On h.old.value h.new.value result (λ s t. (t ≡ s) × Shows s (λ r. New index.old.value index.new.value result (λ j. j.index ≡ r.table))) }
    ensures empty { h.old.value ≡ None → index.new.value ≡ index.old.value }
{
    if h.is_empty() {
        return CallStatus::Empty.number();
    }
    let session = h.value();
    let answer = fill_index(alloc, session.router.table(), index);
    answer.number()
}
