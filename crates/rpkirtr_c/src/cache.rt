//! A cache for C.
ghost use Rattle.std.specs.Prelude.{◌≡◌, ◌≤◌, length, Option, Some, None, is_none, option_map, false, IfOk, IfErr};
ghost use Rattle.std.specs.Coded.{coded_option};
ghost use Rattle.std.specs.Int.{from_bool};
ghost use Rattle.vrps.specs.Instance.{versions};
ghost use Rattle.vrps.specs.Stores.{newest};
ghost use Rattle.rtr_ends.specs.CacheState.{can_notify_at, has_bytes_at, is_open_at, notified, with_conn};
ghost use Rattle.rpkirtr_c.specs.Answers.{number};
ghost use Rattle.rpkirtr_c.specs.Caches.{AtConn, Gives, IsCacheFault, IsCurrent, IsNew, IsServing, NewCache, Opens, Publishes, Serves, Takes};
ghost use Rattle.rpkirtr_c.specs.Live.{Freed, On};
ghost use Rattle.rpkirtr_c.specs.declared.served_cache.ServedCache.{ServedCache};
ghost use Rattle.rpkirtr_c.specs.contracts.served_cache.ServedCache as served;
ghost use Rattle.rpkirtr_c.specs.declared.call_status.CallStatus.TheVariants.{Done};

use crate::call_status::CallStatus;
use crate::loose::Loose;
use crate::served_cache::{CacheFault, ServedCache, Settings};
use crate::values::CRecord;
use std::alloc::Global;
use std::fmt::{self, Debug};
use std::marker::Model;

/// A cache, as C holds it: all zero before `rpkirtr_cache_new` and after `rpkirtr_cache_free`. It stays on one thread.
#[repr(C)]
#[derive(Drop)]
pub struct CacheHandle {
    at: *mut (),
    alloc: Global,
    ghost value: { Option ServedCache } by { coded_option served.the_row.coded },
}

impl Model for CacheHandle {
    ghost use Rattle.rpkirtr_c.specs.Held.{held};
    ghost use Rattle.rpkirtr_c.specs.contracts.served_cache.ServedCache.{the_row};
    ghost use Rattle.std.specs.Box.Ownership.{box_owns};
    ghost use Rattle.std.specs.contracts.impls.GlobalAllocator.TheImpl as heap_impl;

    ghost also_owns = { λ h. held h.at h.value (λ s. box_owns (heap_impl.ghosts.dealloc_token h.alloc) the_row h.at s) };
}

/// It shows nothing of the handle's value.
impl Debug for CacheHandle {
    fn fmt<W: fmt::Write>(&self, f: &mut fmt::Formatter<W>) -> fmt::Result {
        f.write_str("CacheHandle(..)")
    }
}

impl CacheHandle {
    ghost use Rattle.std.specs.Borrow.{sem};
    ghost use Rattle.rpkirtr_c.specs.Lent.{LendsServedCache};

    /// Whether there is no value. The handle stays as it is.
    pub(crate) fn is_empty(&mut self) -> bool
        ensures { (result ≡ is_none self.old.value) × (self.new ≡ self.old) }
    {
        self.at.is_null()
    }

    /// The value, which stays in its handle.
    pub(crate) fn value(&mut self) -> &mut ServedCache
        requires { is_none self.old.value ≡ false }
        ensures* lends { sem 𝓛 (LendsServedCache self.entry result) }
        ensures value { Some result.now ≡ self.old.value }
    {
        unsafe { &mut *(self.at as *mut ServedCache) }
    }

    fn of(l: Loose<ServedCache, Global>) -> CacheHandle
        ensures { result.value ≡ Some l.value }
    {
        let Loose { at, alloc } = l;
        CacheHandle {
            at: at as *mut (),
            alloc,
        }
    }

    fn into_loose(self) -> Loose<ServedCache, Global>
        requires { is_none self.value ≡ false }
        ensures { Some result.value ≡ self.value }
    {
        let CacheHandle { at, alloc } = self;
        Loose {
            at: at as *mut ServedCache,
            alloc,
        }
    }

    fn empty(alloc: Global) -> CacheHandle
        ensures { result.value ≡ None }
    {
        CacheHandle {
            at: std::ptr::null_mut(),
            alloc,
        }
    }

    fn looked(self) -> (CacheHandle, bool)
        ensures { (result.0 ≡ self) × (result.1 ≡ is_none self.value) }
    {
        let CacheHandle { at, alloc } = self;
        let is_null = at.is_null();
        (CacheHandle { at, alloc }, is_null)
    }

    /// Moves the cache out, if there is one. The handle is empty then.
    fn take(&mut self, alloc: Global) -> Option<Box<ServedCache>>
        ensures taken { option_map (λ s. s.value) result ≡ self.old.value }
        ensures empty { self.new.value ≡ None }
    {
        let old = std::mem::replace(self, CacheHandle::empty(alloc));
        let (old, is_empty) = old.looked();
        if is_empty {
            return None;
        }
        Some(old.into_loose().into_box())
    }
}

/// The handle of a cache.
fn shut_cache(served: Box<ServedCache>) -> CacheHandle
    ensures { result.value ≡ Some served.value }
{
    CacheHandle::of(Loose::of(served))
}

/// A block of a cache of these settings, or why there is none.
fn boxed(alloc: Global, settings: &Settings) -> Result<Box<ServedCache>, CacheFault>
    ensures ok { IfOk result (λ b. IsNew settings.now b.value) }
    ensures err { IfErr result (IsCacheFault settings.now) }
{
    let served = ServedCache::new(alloc, settings)?;
    match Box::new(alloc, served) {
        Err(_) => Err(CacheFault::Memory),
        Ok(served) => Ok(served),
    }
}

/// Makes a cache of these settings in an empty handle. If there is none, what is at fault in the intervals is written.
fn make(alloc: Global, h: &mut CacheHandle, settings: &Settings, fault: &mut u32) -> CallStatus
    ensures { NewCache settings.now h.old.value h.new.value (number result) fault.new }
{
    *fault = 0;
    if let Some(served) = h.take(alloc) {
        *h = shut_cache(served);
        return CallStatus::Live;
    }
    match boxed(alloc, settings) {
        Err(found) => {
            *fault = found.timing();
            found.status()
        }
        Ok(served) => {
            *h = shut_cache(served);
            CallStatus::Done
        }
    }
}

/// Makes a cache in the empty handle `h`. It has published nothing, and has no connection. `session` and `session0` are its sessions in versions 1
/// and 0 of the protocol. Its first version has the serial `start`, and it keeps `keep` versions before the current one, 1 to 65,536. It sends the
/// intervals `refresh`, `retry` and `expire`, in seconds (RFC 8210 section 6).
/// Returns the number of a `CallStatus`: `Done`, `Live` if `h` is not empty, `BadTiming`, `BadKeep` or `NoMemory`, judged in this order. `fault` is
/// the number of a `TimingFault` after `BadTiming`, otherwise 0. On a refusal the handle stays as it was.
#[unsafe(no_mangle)]
pub extern "C" fn rpkirtr_cache_new(
    alloc: Global,
    h: &mut CacheHandle,
    session: u16,
    session0: u16,
    start: u32,
    keep: u32,
    refresh: u32,
    retry: u32,
    expire: u32,
    fault: &mut u32,
) -> i32
    ensures { NewCache (record { session = session; session0 = session0; start = start; keep = keep; refresh = refresh; retry = retry; expire = expire }) h.old.value h.new.value result fault.new }
{
    let settings = Settings {
        session,
        session0,
        start,
        keep,
        refresh,
        retry,
        expire,
    };
    make(alloc, h, &settings, fault).number()
}

/// Frees the cache with its connections, and empties the handle.
/// Returns the number of a `CallStatus`: `Done`, or `Empty` if `h` holds no cache.
#[unsafe(no_mangle)]
pub extern "C" fn rpkirtr_cache_free(alloc: Global, h: &mut CacheHandle) -> i32
    ensures { Freed h.old.value h.new.value result }
{
    match h.take(alloc) {
        None => CallStatus::Empty.number(),
        Some(_served) => CallStatus::Done.number(),
    }
}

/// Publishes the set of records, and writes the fault if there is one, and whether the set was that of the current version.
fn publish(
    alloc: Global,
    served: &mut ServedCache,
    records: &[CRecord],
    bad: &mut usize,
    unchanged: &mut u8,
) -> CallStatus
    ensures { Serves served.old (λ m. Publishes m records.now (number result) bad.new unchanged.new served.new) }
{
    *bad = 0;
    *unchanged = 0;
    match served.publish(alloc, records) {
        Err(fault) => {
            *bad = fault.bad();
            fault.status()
        }
        Ok(is_same) => {
            *unchanged = u8::from(is_same);
            CallStatus::Done
        }
    }
}

/// Publishes the set of records. A record that is listed twice counts once. `unchanged` is 1 if the set is that of the current version, and then no
/// version is added. Otherwise it is 0. An answer that has begun keeps its version. No Serial Notify is sent: see `rpkirtr_cache_notify`.
/// Returns the number of a `CallStatus`: `Done`, `Empty` if `h` holds no cache, `BadRecord`, `OutOfRange` for more than 16,777,215 different records,
/// or `NoMemory`. After `BadRecord`, `bad` is the index of the first malformed record, otherwise 0. On a refusal nothing is published.
#[unsafe(no_mangle)]
pub extern "C" fn rpkirtr_cache_publish(
    alloc: Global,
    h: &mut CacheHandle,
    records: &[CRecord],
    bad: &mut usize,
    unchanged: &mut u8,
) -> i32
    ensures call { On h.old.value h.new.value result (λ s t. Serves s (λ m. Publishes m records.now result bad.new unchanged.new t)) }
    ensures empty { h.old.value ≡ None → (bad.new ≡ 0) × (unchanged.new ≡ 0) }
{
    *bad = 0;
    *unchanged = 0;
    let Some(mut served) = h.take(alloc) else {
        return CallStatus::Empty.number();
    };
    let answer = publish(alloc, &mut served, records, bad, unchanged);
    *h = shut_cache(served);
    answer.number()
}

/// Opens a connection to a router, and writes its number to `conn`: the least that no connection has.
/// Returns the number of a `CallStatus`: `Done`, `Empty` if `h` holds no cache, `NoMemory`, or `OutOfRange` if that number has more than 32 bits. On
/// a refusal no connection is opened, and `conn` is 0.
#[unsafe(no_mangle)]
pub extern "C" fn rpkirtr_cache_open(alloc: Global, h: &mut CacheHandle, conn: &mut u32) -> i32
    ensures call { On h.old.value h.new.value result (λ s t. Serves s (λ m. Opens m result conn.new t)) }
    ensures empty { h.old.value ≡ None → conn.new ≡ 0 }
{
    *conn = 0;
    let Some(mut served) = h.take(alloc) else {
        return CallStatus::Empty.number();
    };
    let answer = served.open(conn);
    *h = shut_cache(served);
    answer.number()
}

/// Closes a connection, and drops the bytes that were due on it. Its number is then free.
/// Returns the number of a `CallStatus`: `Done`, `Empty` if `h` holds no cache, or `NoConnection` if no connection has the number `conn`. On a
/// refusal nothing changes.
#[unsafe(no_mangle)]
pub extern "C" fn rpkirtr_cache_close(alloc: Global, h: &mut CacheHandle, conn: u32) -> i32
    ensures { On h.old.value h.new.value result (λ s t. Serves s (λ m. AtConn (m.at conn) result (IsServing (with_conn conn None m) t) (t ≡ s))) }
{
    let Some(mut served) = h.take(alloc) else {
        return CallStatus::Empty.number();
    };
    let answer = served.close(conn);
    *h = shut_cache(served);
    answer.number()
}

/// Passes bytes that were received on a connection to the cache, and writes to `taken` how many it consumed. It consumes none if bytes are due (pull
/// first) or the connection has ended. Otherwise it consumes up to the end of the first PDU, up to a fault, or all of `bytes`. If memory runs out for
/// an answer, an Error Report of code 1 is due, and the connection ends (RFC 8210 section 12). The status is `Done` then too.
/// Returns the number of a `CallStatus`: `Done`, `Empty` if `h` holds no cache, or `NoConnection` if no connection has the number `conn`. On a
/// refusal `taken` is 0.
#[unsafe(no_mangle)]
pub extern "C" fn rpkirtr_cache_receive(
    alloc: Global,
    h: &mut CacheHandle,
    conn: u32,
    bytes: &[u8],
    taken: &mut usize,
) -> i32
    ensures call { On h.old.value h.new.value result (λ s t. Serves s (λ m. AtConn (m.at conn) result (Takes m conn bytes.now taken.new t) ((t ≡ s) × (taken.new ≡ 0)))) }
    ensures empty { h.old.value ≡ None → taken.new ≡ 0 }
    ensures within { taken.new ≤ length bytes.now }
{
    *taken = 0;
    let Some(mut served) = h.take(alloc) else {
        return CallStatus::Empty.number();
    };
    let answer = served.receive(conn, bytes, taken);
    *h = shut_cache(served);
    answer.number()
}

/// Moves bytes that are due on a connection into the front of `room`, as many as fit, and writes to `pulled` how many: 0 if none are due. The rest of
/// `room` stays.
/// Returns the number of a `CallStatus`: `Done`, `Empty` if `h` holds no cache, or `NoConnection` if no connection has the number `conn`. On a
/// refusal `pulled` is 0.
#[unsafe(no_mangle)]
pub extern "C" fn rpkirtr_cache_pull(
    alloc: Global,
    h: &mut CacheHandle,
    conn: u32,
    room: &mut [u8],
    pulled: &mut usize,
) -> i32
    ensures call { On h.old.value h.new.value result (λ s t. Serves s (λ m. AtConn (m.at conn) result (Gives m conn room.old pulled.new room.new t) ((t ≡ s) × (room.new ≡ room.old) × (pulled.new ≡ 0)))) }
    ensures empty { h.old.value ≡ None → (room.new ≡ room.old) × (pulled.new ≡ 0) }
    ensures within { pulled.new ≤ length room.old }
{
    *pulled = 0;
    let Some(mut served) = h.take(alloc) else {
        return CallStatus::Empty.number();
    };
    let answer = served.pull(conn, room, pulled);
    *h = shut_cache(served);
    answer.number()
}

/// Makes a Serial Notify of the current version ready to be pulled on a connection (RFC 8210 section 5.2), and writes 1 to `sent`. If nothing is
/// published, if bytes are due, or if the connection has ended, `sent` is 0, and the status is `Done`.
/// Returns the number of a `CallStatus`: `Done`, `Empty` if `h` holds no cache, or `NoConnection` if no connection has the number `conn`. On a
/// refusal `sent` is 0.
#[unsafe(no_mangle)]
pub extern "C" fn rpkirtr_cache_notify(
    alloc: Global,
    h: &mut CacheHandle,
    conn: u32,
    sent: &mut u8,
) -> i32
    ensures call { On h.old.value h.new.value result (λ s t. Serves s (λ m. AtConn (m.at conn) result ((sent.new ≡ from_bool (can_notify_at m.cache (m.at conn))) × IsServing (notified conn m) t) ((t ≡ s) × (sent.new ≡ 0)))) }
    ensures empty { h.old.value ≡ None → sent.new ≡ 0 }
{
    *sent = 0;
    let Some(mut served) = h.take(alloc) else {
        return CallStatus::Empty.number();
    };
    let answer = served.notify(conn, sent);
    *h = shut_cache(served);
    answer.number()
}

/// Writes whether bytes are due on a connection: 1 or 0.
/// Returns the number of a `CallStatus`: `Done`, `Empty` if `h` holds no cache, or `NoConnection` if no connection has the number `conn`. On a
/// refusal `has` is 0.
#[unsafe(no_mangle)]
pub extern "C" fn rpkirtr_cache_has_bytes(h: &mut CacheHandle, conn: u32, has: &mut u8) -> i32
    ensures call { On h.old.value h.new.value result (λ s t. (t ≡ s) × Serves s (λ m. AtConn (m.at conn) result (has.new ≡ from_bool (has_bytes_at (m.at conn))) (has.new ≡ 0))) }
    ensures empty { h.old.value ≡ None → has.new ≡ 0 }
{
    *has = 0;
    if h.is_empty() {
        return CallStatus::Empty.number();
    }
    let served = h.value();
    let answer = served.has_bytes(conn, has);
    answer.number()
}

/// Writes whether a connection continues: 1, or 0 if it has ended. What is due can be pulled after its end too.
/// Returns the number of a `CallStatus`: `Done`, `Empty` if `h` holds no cache, or `NoConnection` if no connection has the number `conn`. On a
/// refusal `continues` is 0.
#[unsafe(no_mangle)]
pub extern "C" fn rpkirtr_cache_is_open(h: &mut CacheHandle, conn: u32, continues: &mut u8) -> i32
    ensures call { On h.old.value h.new.value result (λ s t. (t ≡ s) × Serves s (λ m. AtConn (m.at conn) result (continues.new ≡ from_bool (is_open_at (m.at conn))) (continues.new ≡ 0))) }
    ensures empty { h.old.value ≡ None → continues.new ≡ 0 }
{
    *continues = 0;
    if h.is_empty() {
        return CallStatus::Empty.number();
    }
    let served = h.value();
    let answer = served.is_open(conn, continues);
    answer.number()
}

/// Writes the serial of the current version, and how many records it has.
/// Returns the number of a `CallStatus`: `Done`, `Empty` if `h` holds no cache, or `NoData` if nothing is published. On a refusal both are 0.
#[unsafe(no_mangle)]
pub extern "C" fn rpkirtr_cache_current(
    h: &mut CacheHandle,
    serial: &mut u32,
    count: &mut usize,
) -> i32
    ensures call { On h.old.value h.new.value result (λ s t. (t ≡ s) × Serves s (λ m. IsCurrent (newest (versions m.cache)) result serial.new count.new)) }
    ensures empty { h.old.value ≡ None → (serial.new ≡ 0) × (count.new ≡ 0) }
{
    *serial = 0;
    *count = 0;
    if h.is_empty() {
        return CallStatus::Empty.number();
    }
    let served = h.value();
    let answer = served.current(serial, count);
    answer.number()
}
