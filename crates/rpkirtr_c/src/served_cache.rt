//! The value of a cache's handle.
ghost use Rattle.std.specs.Prelude.{◌≡◌, ℕ, ◌≤◌, ◌<◌, length, None, IfOk, IfErr, vec_len, vec_capacity};
ghost use Rattle.std.specs.Int.{from_bool};
ghost use Rattle.vrps.specs.Instance.{versions};
ghost use Rattle.vrps.specs.Stores.{newest};
ghost use Rattle.rtr_ends.specs.CacheState.{CacheState, can_notify_at, has_bytes_at, is_open_at, notified, with_conn};
ghost use Rattle.rtr_ends.specs.Timing.{IsTiming};
ghost use Rattle.rpkirtr_c.specs.Answers.{number};
ghost use Rattle.rpkirtr_c.specs.Indexes.{IsFaultOf};
ghost use Rattle.rpkirtr_c.specs.Caches.{AtConn, Gives, IsCacheFault, IsCurrent, IsNew, IsOpening, IsPublished, IsServing, Opens, Serves, Takes, cache_status, intervals_in, timing_number};

use crate::call_status::CallStatus;
use crate::conns::Conns;
use crate::index::{IndexFault, set_over, vrps_of};
use crate::values::CRecord;
use rtr_ends::{Cache, Conn, Timing, TimingFault};
use std::alloc::{AllocError, Global};
use vrps::{Published, VersionLog};

/// A cache, and its connections by their numbers.
#[derive(Debug, Drop)]
pub struct ServedCache {
    pub(crate) cache: Cache<VersionLog>,
    pub(crate) conns: Conns,
}

/// What a cache is made of: the sessions of versions 1 and 0 of the protocol, and the serial of its first version. Then how many versions
/// before the current one it keeps, and the intervals that it sends.
#[derive(Clone, Copy, Debug)]
pub(crate) struct Settings {
    pub(crate) session: u16,
    pub(crate) session0: u16,
    pub(crate) start: u32,
    pub(crate) keep: u32,
    pub(crate) refresh: u32,
    pub(crate) retry: u32,
    pub(crate) expire: u32,
}

/// Why there is no cache.
#[derive(Clone, Copy, Debug, PartialEq, Eq)]
pub(crate) enum CacheFault {
    /// The intervals are not valid.
    Timing(TimingFault),
    /// The number of versions to keep is 0, or above 65,536.
    Keep,
    /// Out of memory.
    Memory,
}

impl From<AllocError> for CacheFault {
    ghost use Rattle.rpkirtr_c.specs.declared.served_cache.CacheFault.TheVariants.{Memory};

    ghost from_gives = { λ _ e. e ≡ Memory };

    fn from(_error: AllocError) -> CacheFault {
        CacheFault::Memory
    }
}

impl CacheFault {
    /// What a call answers of it.
    pub(crate) fn status(self) -> CallStatus
        ensures { result ≡ cache_status self }
    {
        match self {
            CacheFault::Timing(_) => CallStatus::BadTiming,
            CacheFault::Keep => CallStatus::BadKeep,
            CacheFault::Memory => CallStatus::NoMemory,
        }
    }

    /// The number of what is at fault in the intervals: 0 if they are not at fault.
    pub(crate) fn timing(self) -> u32
        ensures { result ≡ timing_number self }
    {
        match self {
            CacheFault::Timing(fault) => u32::from(fault.number()),
            CacheFault::Keep => 0,
            CacheFault::Memory => 0,
        }
    }
}

/// The intervals of settings, or what is at fault in them.
fn timing_of(settings: &Settings) -> Result<Timing, CacheFault>
    ensures ok { IfOk result (λ timing. (timing ≡ intervals_in settings.now) × IsTiming timing) }
    ensures err { IfErr result (IsCacheFault settings.now) }
{
    match Timing::new(settings.refresh, settings.retry, settings.expire) {
        Err(fault) => Err(CacheFault::Timing(fault)),
        Ok(timing) => Ok(timing),
    }
}

impl ServedCache {
    /// A cache that has published nothing and has no connection, or why there is none.
    pub(crate) fn new(alloc: Global, settings: &Settings) -> Result<ServedCache, CacheFault>
        ensures ok { IfOk result (IsNew settings.now) }
        ensures err { IfErr result (IsCacheFault settings.now) }
    {
        let timing = timing_of(settings)?;
        if settings.keep < 1 || settings.keep > 65_536 {
            return Err(CacheFault::Keep);
        }
        let log = VersionLog::new(alloc, settings.session, settings.start, settings.keep)?;
        Ok(ServedCache {
            cache: Cache::new_both(alloc, log, settings.session0, timing),
            conns: Conns::new(alloc),
        })
    }

    /// Publishes the set of records.
    pub(crate) fn publish(&mut self, alloc: Global, records: &[CRecord]) -> Result<bool, IndexFault>
        ensures ok { Serves self.old (λ m. IfOk result (λ is_same. IsPublished m records.now (from_bool is_same) self.new)) }
        ensures err { IfErr result (IsFaultOf records.now) }
        ensures stays { Serves self.old (λ m. IfErr result (λ _. IsServing m self.new)) }
    {
        let list = vrps_of(alloc, records)?;
        let set = set_over(list)?;
        match self.cache.publish(set)? {
            Published::New(_) => Ok(false),
            Published::Unchanged => Ok(true),
        }
    }

    /// Opens a connection, and writes its number.
    pub(crate) fn open(&mut self, conn: &mut u32) -> CallStatus
        ensures { Serves self.old (λ m. Opens m (number result) conn.new self.new) }
    {
        *conn = 0;
        if self.conns.reserve().is_err() {
            return CallStatus::NoMemory;
        }
        match self.cache.open() {
            Err(_) => CallStatus::NoMemory,
            Ok(opened) => self.keep(opened, conn),
        }
    }

    /// Keeps a connection that was opened, if its number has at most 32 bits. If it has more, it is closed.
    fn keep(&mut self, opened: Conn, conn: &mut u32) -> CallStatus
        requires { vec_len self.old.conns.slots < vec_capacity self.old.conns.slots }
        ensures { conn.old ≡ 0 → (m : CacheState) → IsOpening m opened.0 self.old → Opens m (number result) conn.new self.new }
    {
        match u32::try_from(opened.number()) {
            Err(_) => {
                self.cache.close(opened);
                CallStatus::OutOfRange
            }
            Ok(fits) => {
                *conn = fits;
                self.conns.insert(opened);
                CallStatus::Done
            }
        }
    }

    /// Closes a connection.
    pub(crate) fn close(&mut self, conn: u32) -> CallStatus
        ensures { Serves self.old (λ m. AtConn (m.at conn) (number result) (IsServing (with_conn conn None m) self.new) (self.new ≡ self.old)) }
    {
        match self.conns.get(conn) {
            None => CallStatus::NoConnection,
            Some(found) => {
                self.cache.close(found);
                self.conns.remove(conn);
                CallStatus::Done
            }
        }
    }

    /// Receives bytes on a connection, and writes how many were consumed.
    pub(crate) fn receive(&mut self, conn: u32, piece: &[u8], taken: &mut usize) -> CallStatus
        ensures call { Serves self.old (λ m. AtConn (m.at conn) (number result) (Takes m conn piece.now taken.new self.new) ((self.new ≡ self.old) × (taken.new ≡ 0))) }
        ensures within { taken.new ≤ length piece.now }
    {
        *taken = 0;
        match self.conns.get(conn) {
            None => CallStatus::NoConnection,
            Some(found) => {
                *taken = self.cache.receive(found, piece);
                CallStatus::Done
            }
        }
    }

    /// Moves bytes that are due on a connection into the room, and writes how many.
    pub(crate) fn pull(&mut self, conn: u32, room: &mut [u8], pulled: &mut usize) -> CallStatus
        ensures call { Serves self.old (λ m. AtConn (m.at conn) (number result) (Gives m conn room.old pulled.new room.new self.new) ((self.new ≡ self.old) × (room.new ≡ room.old) × (pulled.new ≡ 0))) }
        ensures within { pulled.new ≤ length room.old }
    {
        *pulled = 0;
        match self.conns.get(conn) {
            None => CallStatus::NoConnection,
            Some(found) => {
                *pulled = self.cache.pull(found, room);
                CallStatus::Done
            }
        }
    }

    /// Sends a Serial Notify on a connection, if it can be sent, and writes whether it was.
    pub(crate) fn notify(&mut self, conn: u32, sent: &mut u8) -> CallStatus
        ensures { Serves self.old (λ m. AtConn (m.at conn) (number result) ((sent.new ≡ from_bool (can_notify_at m.cache (m.at conn))) × IsServing (notified conn m) self.new) ((self.new ≡ self.old) × (sent.new ≡ 0))) }
    {
        *sent = 0;
        match self.conns.get(conn) {
            None => CallStatus::NoConnection,
            Some(found) => {
                *sent = u8::from(self.cache.notify(found));
                CallStatus::Done
            }
        }
    }

    /// Writes whether bytes are due on a connection.
    pub(crate) fn has_bytes(&self, conn: u32, has: &mut u8) -> CallStatus
        ensures { Serves self.now (λ m. AtConn (m.at conn) (number result) (has.new ≡ from_bool (has_bytes_at (m.at conn))) (has.new ≡ 0)) }
    {
        *has = 0;
        match self.conns.get(conn) {
            None => CallStatus::NoConnection,
            Some(found) => {
                *has = u8::from(self.cache.has_bytes(found));
                CallStatus::Done
            }
        }
    }

    /// Writes whether a connection continues.
    pub(crate) fn is_open(&self, conn: u32, continues: &mut u8) -> CallStatus
        ensures { Serves self.now (λ m. AtConn (m.at conn) (number result) (continues.new ≡ from_bool (is_open_at (m.at conn))) (continues.new ≡ 0)) }
    {
        *continues = 0;
        match self.conns.get(conn) {
            None => CallStatus::NoConnection,
            Some(found) => {
                *continues = u8::from(self.cache.is_open(found));
                CallStatus::Done
            }
        }
    }

    /// Writes the serial of the current version, and how many records it has.
    pub(crate) fn current(&self, serial: &mut u32, count: &mut usize) -> CallStatus
        ensures { Serves self.now (λ m. IsCurrent (newest (versions m.cache)) (number result) serial.new count.new) }
    {
        *serial = 0;
        *count = 0;
        match self.cache.current() {
            None => CallStatus::NoData,
            Some((newest, set)) => {
                *serial = newest.0;
                *count = set.len();
                CallStatus::Done
            }
        }
    }
}
