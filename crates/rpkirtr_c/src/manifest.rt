//! Manifests of a caller in C.
ghost use Rattle.std.specs.Prelude.{◌≡◌, ◌≤◌, length, Option, Some, None, is_none, option_map, false, IfOk, IfErr};
ghost use Rattle.std.specs.Coded.{coded_option};
ghost use Rattle.rpkirtr_c.specs.Answers.{number};
ghost use Rattle.rpkirtr_c.specs.Live.{Freed, On};
ghost use Rattle.rpkirtr_c.specs.Manifests.{AreTimes, IsContents, IsFileAt, IsManifestFault, NewManifest};
ghost use Rattle.rpkirtr_c.specs.Octets.{IsFilled, no_digest};
ghost use Rattle.rpkirtr_c.specs.declared.contents.Contents.{Contents};
ghost use Rattle.rpkirtr_c.specs.contracts.contents.Contents as contents;
ghost use Rattle.rpkirtr_c.specs.declared.call_status.CallStatus.TheVariants.{Done};

use crate::call_status::CallStatus;
use crate::contents::Contents;
use crate::loose::Loose;
use crate::objects::{CFault, fault_of, no_fault};
use crate::octets::{CDigest, copy_octets, no_digest};
use payloads::{ListedFile, PayloadFault, decode_manifest};
use std::alloc::Global;
use std::fmt::{self, Debug};
use std::marker::Model;

/// A decoded manifest, as C holds it: all zero before `rpkirtr_manifest_new` and after `rpkirtr_manifest_free`.
#[repr(C)]
#[derive(Drop)]
pub struct ManifestHandle {
    at: *mut (),
    alloc: Global,
    ghost value: { Option Contents } by { coded_option contents.the_row.coded },
}

impl Model for ManifestHandle {
    ghost use Rattle.rpkirtr_c.specs.Held.{held};
    ghost use Rattle.rpkirtr_c.specs.contracts.contents.Contents.{the_row};
    ghost use Rattle.std.specs.Box.Ownership.{box_owns};
    ghost use Rattle.std.specs.contracts.impls.GlobalAllocator.TheImpl as heap_impl;

    ghost also_owns = { λ h. held h.at h.value (λ s. box_owns (heap_impl.ghosts.dealloc_token h.alloc) the_row h.at s) };
}

unsafe impl Send for ManifestHandle {}

/// It shows nothing of the handle's value.
impl Debug for ManifestHandle {
    fn fmt<W: fmt::Write>(&self, f: &mut fmt::Formatter<W>) -> fmt::Result {
        f.write_str("ManifestHandle(..)")
    }
}

impl ManifestHandle {
    ghost use Rattle.std.specs.Borrow.{sem};
    ghost use Rattle.rpkirtr_c.specs.Lent.{LendsContents};

    /// Whether there is no value. The handle stays as it is.
    pub(crate) fn is_empty(&mut self) -> bool
        ensures { (result ≡ is_none self.old.value) × (self.new ≡ self.old) }
    {
        self.at.is_null()
    }

    /// The value, which stays in its handle.
    pub(crate) fn value(&mut self) -> &mut Contents
        requires { is_none self.old.value ≡ false }
        ensures* lends { sem 𝓛 (LendsContents self.entry result) }
        ensures value { Some result.now ≡ self.old.value }
    {
        unsafe { &mut *(self.at as *mut Contents) }
    }

    fn of(l: Loose<Contents, Global>) -> ManifestHandle
        ensures { result.value ≡ Some l.value }
    {
        let Loose { at, alloc } = l;
        ManifestHandle {
            at: at as *mut (),
            alloc,
        }
    }

    fn into_loose(self) -> Loose<Contents, Global>
        requires { is_none self.value ≡ false }
        ensures { Some result.value ≡ self.value }
    {
        let ManifestHandle { at, alloc } = self;
        Loose {
            at: at as *mut Contents,
            alloc,
        }
    }

    fn empty(alloc: Global) -> ManifestHandle
        ensures { result.value ≡ None }
    {
        ManifestHandle {
            at: std::ptr::null_mut(),
            alloc,
        }
    }

    fn looked(self) -> (ManifestHandle, bool)
        ensures { (result.0 ≡ self) × (result.1 ≡ is_none self.value) }
    {
        let ManifestHandle { at, alloc } = self;
        let is_null = at.is_null();
        (ManifestHandle { at, alloc }, is_null)
    }

    /// Moves the value out, if there is one. The handle is empty then.
    fn take(&mut self, alloc: Global) -> Option<Box<Contents>>
        ensures taken { option_map (λ s. s.value) result ≡ self.old.value }
        ensures empty { self.new.value ≡ None }
    {
        let old = std::mem::replace(self, ManifestHandle::empty(alloc));
        let (old, is_empty) = old.looked();
        if is_empty {
            return None;
        }
        Some(old.into_loose().into_box())
    }
}

/// The handle of a decoded manifest.
fn shut_manifest(value: Box<Contents>) -> ManifestHandle
    ensures { result.value ≡ Some value.value }
{
    ManifestHandle::of(Loose::of(value))
}

/// A block of the manifest that the bytes spell, or why there is none.
fn boxed(alloc: Global, bytes: &[u8]) -> Result<Box<Contents>, PayloadFault>
    ensures ok { IfOk result (λ b. IsContents bytes.now b.value) }
    ensures err { IfErr result (IsManifestFault bytes.now) }
{
    let manifest = decode_manifest(alloc, bytes)?;
    match Box::new(alloc, Contents { manifest }) {
        Err(_) => Err(PayloadFault::Memory),
        Ok(contents) => Ok(contents),
    }
}

/// Decodes the payload of a manifest into the empty handle `h` (RFC 9286 section 4). The signed object around it is not checked, nor whether the
/// manifest is stale.
/// Returns the number of a `CallStatus`: `Done`, `Live` if `h` is not empty, `BadPayload` or `NoMemory`. After `BadPayload`, `fault` is the first
/// fault and its byte offset, otherwise all of it is 0. On a refusal the handle stays as it was.
#[unsafe(no_mangle)]
pub extern "C" fn rpkirtr_manifest_new(
    alloc: Global,
    h: &mut ManifestHandle,
    bytes: &[u8],
    fault: &mut CFault,
) -> i32
    ensures { NewManifest bytes.now h.old.value h.new.value result fault.new }
{
    *fault = no_fault();
    if let Some(contents) = h.take(alloc) {
        *h = shut_manifest(contents);
        return CallStatus::Live.number();
    }
    match boxed(alloc, bytes) {
        Err(PayloadFault::At(found)) => {
            *fault = fault_of(found);
            CallStatus::BadPayload.number()
        }
        Err(PayloadFault::Memory) => CallStatus::NoMemory.number(),
        Ok(contents) => {
            *h = shut_manifest(contents);
            CallStatus::Done.number()
        }
    }
}

/// Frees the manifest, and empties the handle.
/// Returns the number of a `CallStatus`: `Done`, or `Empty` if `h` holds no manifest.
#[unsafe(no_mangle)]
pub extern "C" fn rpkirtr_manifest_free(alloc: Global, h: &mut ManifestHandle) -> i32
    ensures { Freed h.old.value h.new.value result }
{
    match h.take(alloc) {
        None => CallStatus::Empty.number(),
        Some(_contents) => CallStatus::Done.number(),
    }
}

/// Copies the octets of the manifest number into `room`, the highest first, as many as fit. It writes to `len` how many the number has, 1 to 20, also
/// if fewer fit. The rest of `room` stays.
/// Returns the number of a `CallStatus`: `Done`, or `Empty` if `h` holds no manifest, and then `len` is 0.
#[unsafe(no_mangle)]
pub extern "C" fn rpkirtr_manifest_number(
    h: &mut ManifestHandle,
    room: &mut [u8],
    len: &mut usize,
) -> i32
    ensures call { On h.old.value h.new.value result (λ s t. (result ≡ number Done) × (t ≡ s) × IsFilled s.manifest.number room.old room.new × (len.new ≡ length s.manifest.number)) }
    ensures empty { h.old.value ≡ None → (room.new ≡ room.old) × (len.new ≡ 0) }
{
    *len = 0;
    if h.is_empty() {
        return CallStatus::Empty.number();
    }
    let contents = h.value();
    *len = copy_octets(contents.manifest.number(), room);
    CallStatus::Done.number()
}

/// Writes thisUpdate and nextUpdate, in seconds since the beginning of 1970 in UTC.
/// Returns the number of a `CallStatus`: `Done`, or `Empty` if `h` holds no manifest, and then both are 0.
#[unsafe(no_mangle)]
pub extern "C" fn rpkirtr_manifest_times(
    h: &mut ManifestHandle,
    this_update: &mut u64,
    next_update: &mut u64,
) -> i32
    ensures call { On h.old.value h.new.value result (λ s t. (result ≡ number Done) × (t ≡ s) × AreTimes s.manifest this_update.new next_update.new) }
    ensures empty { h.old.value ≡ None → (this_update.new ≡ 0) × (next_update.new ≡ 0) }
{
    *this_update = 0;
    *next_update = 0;
    if h.is_empty() {
        return CallStatus::Empty.number();
    }
    let contents = h.value();
    *this_update = contents.manifest.this_update().seconds();
    *next_update = contents.manifest.next_update().seconds();
    CallStatus::Done.number()
}

/// Writes how many files the manifest lists.
/// Returns the number of a `CallStatus`: `Done`, or `Empty` if `h` holds no manifest, and then 0 is written.
#[unsafe(no_mangle)]
pub extern "C" fn rpkirtr_manifest_count(h: &mut ManifestHandle, count: &mut usize) -> i32
    ensures call { On h.old.value h.new.value result (λ s t. (result ≡ number Done) × (t ≡ s) × (count.new ≡ length s.manifest.files)) }
    ensures empty { h.old.value ≡ None → count.new ≡ 0 }
{
    *count = 0;
    if h.is_empty() {
        return CallStatus::Empty.number();
    }
    let contents = h.value();
    *count = contents.manifest.files().len();
    CallStatus::Done.number()
}

/// Writes the file at an index.
fn write_file(
    files: &[ListedFile],
    index: usize,
    room: &mut [u8],
    len: &mut usize,
    digest: &mut CDigest,
) -> CallStatus
    ensures { IsFileAt files.now index (number result) room.old room.new len.new digest.new }
{
    match files.get(index) {
        None => {
            *len = 0;
            *digest = no_digest();
            CallStatus::OutOfRange
        }
        Some(file) => {
            *len = copy_octets(file.name().as_bytes(), room);
            *digest = CDigest {
                octets: *file.hash(),
            };
            CallStatus::Done
        }
    }
}

/// Copies the name of the file at `index`, from 0, into `room`, as much as fits, without a zero octet after it. It writes the length of the whole
/// name to `len`, and the SHA-256 digest of the file to `digest`.
/// Returns the number of a `CallStatus`: `Done`, `Empty` if `h` holds no manifest, or `OutOfRange` if `index` is the number of files or more. On a
/// refusal `len` and `digest` are 0, and `room` stays.
#[unsafe(no_mangle)]
pub extern "C" fn rpkirtr_manifest_file(
    h: &mut ManifestHandle,
    index: usize,
    room: &mut [u8],
    len: &mut usize,
    digest: &mut CDigest,
) -> i32
    ensures call { On h.old.value h.new.value result (λ s t. (t ≡ s) × IsFileAt s.manifest.files index result room.old room.new len.new digest.new) }
    ensures empty { h.old.value ≡ None → (room.new ≡ room.old) × (len.new ≡ 0) × (digest.new ≡ no_digest) }
{
    *len = 0;
    *digest = no_digest();
    if h.is_empty() {
        return CallStatus::Empty.number();
    }
    let contents = h.value();
    let answer = write_file(contents.manifest.files(), index, room, len, digest);
    answer.number()
}
