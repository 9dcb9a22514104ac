//! ROAs of a caller in C.
ghost use Rattle.std.specs.Prelude.{◌≡◌, ◌≤◌, length, drop, Option, Some, None, is_none, option_map, false, IfOk, IfErr};
ghost use Rattle.std.specs.Coded.{coded_option};
ghost use Rattle.rpkirtr_c.specs.Answers.{number};
ghost use Rattle.rpkirtr_c.specs.Live.{Freed, On};
ghost use Rattle.rpkirtr_c.specs.Objects.{IsAuthorization, IsRoaFault, NewRoa};
ghost use Rattle.rpkirtr_c.specs.Spelled.{IsCopied};
ghost use Rattle.rpkirtr_c.specs.declared.authorization.Authorization.{Authorization};
ghost use Rattle.rpkirtr_c.specs.contracts.authorization.Authorization as authorization;
ghost use Rattle.rpkirtr_c.specs.declared.call_status.CallStatus.TheVariants.{Done};

use crate::authorization::Authorization;
use crate::call_status::CallStatus;
use crate::loose::Loose;
use crate::objects::{CFault, fault_of, no_fault};
use crate::values::{CRecord, copy_records, from_index};
use payloads::{PayloadFault, decode_roa};
use std::alloc::Global;
use std::fmt::{self, Debug};
use std::marker::Model;

/// A decoded ROA, as C holds it: all zero before `rpkirtr_roa_new` and after `rpkirtr_roa_free`.
#[repr(C)]
#[derive(Drop)]
pub struct RoaHandle {
    at: *mut (),
    alloc: Global,
    ghost value: { Option Authorization } by { coded_option authorization.the_row.coded },
}

impl Model for RoaHandle {
    ghost use Rattle.rpkirtr_c.specs.Held.{held};
    ghost use Rattle.rpkirtr_c.specs.contracts.authorization.Authorization.{the_row};
    ghost use Rattle.std.specs.Box.Ownership.{box_owns};
    ghost use Rattle.std.specs.contracts.impls.GlobalAllocator.TheImpl as heap_impl;

    ghost also_owns = { λ h. held h.at h.value (λ s. box_owns (heap_impl.ghosts.dealloc_token h.alloc) the_row h.at s) };
}

unsafe impl Send for RoaHandle {}

/// It shows nothing of the handle's value.
impl Debug for RoaHandle {
    fn fmt<W: fmt::Write>(&self, f: &mut fmt::Formatter<W>) -> fmt::Result {
        f.write_str("RoaHandle(..)")
    }
}

impl RoaHandle {
    ghost use Rattle.std.specs.Borrow.{sem};
    ghost use Rattle.rpkirtr_c.specs.Lent.{LendsAuthorization};

    /// Whether there is no value. The handle stays as it is.
    pub(crate) fn is_empty(&mut self) -> bool
        ensures { (result ≡ is_none self.old.value) × (self.new ≡ self.old) }
    {
        self.at.is_null()
    }

    /// The value, which stays in its handle.
    pub(crate) fn value(&mut self) -> &mut Authorization
        requires { is_none self.old.value ≡ false }
        ensures* lends { sem 𝓛 (LendsAuthorization self.entry result) }
        ensures value { Some result.now ≡ self.old.value }
    {
        unsafe { &mut *(self.at as *mut Authorization) }
    }

    fn of(l: Loose<Authorization, Global>) -> RoaHandle
        ensures { result.value ≡ Some l.value }
    {
        let Loose { at, alloc } = l;
        RoaHandle {
            at: at as *mut (),
            alloc,
        }
    }

    fn into_loose(self) -> Loose<Authorization, Global>
        requires { is_none self.value ≡ false }
        ensures { Some result.value ≡ self.value }
    {
        let RoaHandle { at, alloc } = self;
        Loose {
            at: at as *mut Authorization,
            alloc,
        }
    }

    fn empty(alloc: Global) -> RoaHandle
        ensures { result.value ≡ None }
    {
        RoaHandle {
            at: std::ptr::null_mut(),
            alloc,
        }
    }

    fn looked(self) -> (RoaHandle, bool)
        ensures { (result.0 ≡ self) × (result.1 ≡ is_none self.value) }
    {
        let RoaHandle { at, alloc } = self;
        let is_null = at.is_null();
        (RoaHandle { at, alloc }, is_null)
    }

    /// Moves the value out, if there is one. The handle is empty then.
    fn take(&mut self, alloc: Global) -> Option<Box<Authorization>>
        ensures taken { option_map (λ s. s.value) result ≡ self.old.value }
        ensures empty { self.new.value ≡ None }
    {
        let old = std::mem::replace(self, RoaHandle::empty(alloc));
        let (old, is_empty) = old.looked();
        if is_empty {
            return None;
        }
        Some(old.into_loose().into_box())
    }
}

/// The handle of a decoded ROA.
fn shut_roa(value: Box<Authorization>) -> RoaHandle
    ensures { result.value ≡ Some value.value }
{
    RoaHandle::of(Loose::of(value))
}

/// The value of the ROA that the bytes spell, or why there is none.
fn authorization(alloc: Global, bytes: &[u8]) -> Result<Authorization, PayloadFault>
    ensures ok { IfOk result (IsAuthorization bytes.now) }
    ensures err { IfErr result (IsRoaFault bytes.now) }
{
    let roa = decode_roa(alloc, bytes)?;
    let vrps = roa.vrps(alloc)?;
    Ok(Authorization {
        asn: roa.asn(),
        vrps,
    })
}

/// The same in a block.
fn boxed(alloc: Global, bytes: &[u8]) -> Result<Box<Authorization>, PayloadFault>
    ensures ok { IfOk result (λ b. IsAuthorization bytes.now b.value) }
    ensures err { IfErr result (IsRoaFault bytes.now) }
{
    let value = authorization(alloc, bytes)?;
    match Box::new(alloc, value) {
        Err(_) => Err(PayloadFault::Memory),
        Ok(value) => Ok(value),
    }
}

/// Decodes the payload of a ROA into the empty handle `h` (RFC 9582 section 4). The signed object around it is not checked.
/// Returns the number of a `CallStatus`: `Done`, `Live` if `h` is not empty, `BadPayload` or `NoMemory`. After `BadPayload`, `fault` is the first
/// fault and its byte offset, otherwise all of it is 0. On a refusal the handle stays as it was.
#[unsafe(no_mangle)]
pub extern "C" fn rpkirtr_roa_new(
    alloc: Global,
    h: &mut RoaHandle,
    bytes: &[u8],
    fault: &mut CFault,
) -> i32
    ensures { NewRoa bytes.now h.old.value h.new.value result fault.new }
{
    *fault = no_fault();
    if let Some(value) = h.take(alloc) {
        *h = shut_roa(value);
        return CallStatus::Live.number();
    }
    match boxed(alloc, bytes) {
        Err(PayloadFault::At(found)) => {
            *fault = fault_of(found);
            CallStatus::BadPayload.number()
        }
        Err(PayloadFault::Memory) => CallStatus::NoMemory.number(),
        Ok(value) => {
            *h = shut_roa(value);
            CallStatus::Done.number()
        }
    }
}

/// Frees the ROA, and empties the handle.
/// Returns the number of a `CallStatus`: `Done`, or `Empty` if `h` holds no ROA.
#[unsafe(no_mangle)]
pub extern "C" fn rpkirtr_roa_free(alloc: Global, h: &mut RoaHandle) -> i32
    ensures { Freed h.old.value h.new.value result }
{
    match h.take(alloc) {
        None => CallStatus::Empty.number(),
        Some(_value) => CallStatus::Done.number(),
    }
}

/// Writes the AS that may originate the prefixes.
/// Returns the number of a `CallStatus`: `Done`, or `Empty` if `h` holds no ROA, and then 0 is written.
#[unsafe(no_mangle)]
pub extern "C" fn rpkirtr_roa_asn(h: &mut RoaHandle, asn: &mut u32) -> i32
    ensures call { On h.old.value h.new.value result (λ s t. (result ≡ number Done) × (t ≡ s) × (asn.new ≡ s.asn.0)) }
    ensures empty { h.old.value ≡ None → asn.new ≡ 0 }
{
    *asn = 0;
    if h.is_empty() {
        return CallStatus::Empty.number();
    }
    let value = h.value();
    *asn = value.asn.0;
    CallStatus::Done.number()
}

/// Writes how many prefixes the ROA lists.
/// Returns the number of a `CallStatus`: `Done`, or `Empty` if `h` holds no ROA, and then 0 is written.
#[unsafe(no_mangle)]
pub extern "C" fn rpkirtr_roa_count(h: &mut RoaHandle, count: &mut usize) -> i32
    ensures call { On h.old.value h.new.value result (λ s t. (result ≡ number Done) × (t ≡ s) × (count.new ≡ length s.vrps.items)) }
    ensures empty { h.old.value ≡ None → count.new ≡ 0 }
{
    *count = 0;
    if h.is_empty() {
        return CallStatus::Empty.number();
    }
    let value = h.value();
    *count = value.vrps.len();
    CallStatus::Done.number()
}

/// Copies the records that the ROA authorizes from index `first` on into `room`, in the order of the ROA, as many as fit. It writes to `copied` how
/// many: 0 if `first` is their number or more. The rest of `room` stays.
/// Returns the number of a `CallStatus`: `Done`, or `Empty` if `h` holds no ROA, and then `copied` is 0.
#[unsafe(no_mangle)]
pub extern "C" fn rpkirtr_roa_records(
    h: &mut RoaHandle,
    first: usize,
    room: &mut [CRecord],
    copied: &mut usize,
) -> i32
    ensures call { On h.old.value h.new.value result (λ s t. (result ≡ number Done) × (t ≡ s) × IsCopied (drop first s.vrps.items) room.old room.new copied.new) }
    ensures empty { h.old.value ≡ None → (room.new ≡ room.old) × (copied.new ≡ 0) }
{
    *copied = 0;
    if h.is_empty() {
        return CallStatus::Empty.number();
    }
    let value = h.value();
    *copied = copy_records(from_index(value.vrps.as_slice(), first), room);
    CallStatus::Done.number()
}
