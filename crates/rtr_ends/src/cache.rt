//! The cache: many connections over one store of versions.
ghost use Rattle.std.specs.Prelude.{◌≡◌, ℕ, ◌<◌, ◌≤◌, length, Option, IfOk, map, option_map};
ghost use Rattle.std.specs.List.{AllByRecursion};
ghost use Rattle.vrps.specs.Instance.{Instance, versions};
ghost use Rattle.vrps.specs.Store.{is_current};
ghost use Rattle.vrps.specs.Stores.{Publishes, newest};
ghost use Rattle.rtr_ends.specs.CacheState.{CacheState, GivesBytes, HandsOut, OffersAt, Opens, ShowsCache, TakesPiece, has_bytes_at, is_open_at, notified, can_notify_at, peer_at, version_at, with_conn, without_conns};
ghost use Rattle.rtr_ends.specs.Sender.{numbered_of};
ghost use Rattle.rtr_ends.specs.ServeStream.{is_within};

use crate::numbers::FreeNumbers;
use crate::peer::Peer;
use crate::sender::Share;
use crate::sessions::Sessions;
use crate::timing::Timing;
use rtr_pdu::Version;
use std::alloc::{AllocError, Global};
use std::rc::Rc;
use vrps::{Published, Serial, VersionStore, VrpSet};

/// The handle of a connection at a cache. Its number may go to another connection after `Cache::close`.
#[derive(Clone, Copy, Debug, PartialEq, Eq)]
pub struct Conn(usize);

impl Conn {
    /// The number of the connection. `Cache::open` gives the lowest number that no connection has.
    pub fn number(self) -> usize
        ensures { result ≡ self.0 }
    {
        self.0
    }
}

/// The cache of the RTR protocol (RFC 6810, RFC 8210). It answers the queries of its routers from a store of versions. It handles bytes only:
/// the caller does the input and output of each connection. A call with a `Conn` changes nothing if no connection has its number.
#[derive(Debug, Drop)]
pub struct Cache<S> {
    alloc: Global,
    store: S,
    /// The session number of version 0.
    session0: u16,
    timing: Timing,
    /// The connections by their numbers.
    peers: Vec<Option<Box<Peer>>>,
    /// The numbers in that list that no connection has.
    free: FreeNumbers,
}

impl<S: VersionStore> Cache<S> {
    /// A cache without connections. `store` holds the versions to serve. `timing` holds the intervals that each End of Data of version 1
    /// carries. The session ID of the store is used in both versions of the protocol. Allocates no memory.
    pub fn new(alloc: Global, store: S, timing: Timing) -> Cache<S>
        ensures { (keep : ℕ) (i : Instance) → S.holds keep i store → i.session0 ≡ i.session → ShowsCache S.holds (without_conns keep timing i) result }
    {
        let session0 = store.session();
        Cache::new_both(alloc, store, session0, timing)
    }

    /// A cache as from `new`, but with its own session ID `session0` for version 0 of the protocol. A session ID belongs to one version of the
    /// protocol (RFC 8210 section 5.1). Version 1 uses the session ID of the store. Allocates no memory.
    pub fn new_both(alloc: Global, store: S, session0: u16, timing: Timing) -> Cache<S>
        ensures { (keep : ℕ) (i : Instance) → S.holds keep i store → i.session0 ≡ session0 → ShowsCache S.holds (without_conns keep timing i) result }
    {
        Cache {
            alloc,
            store,
            session0,
            timing,
            peers: Vec::new(alloc),
            free: FreeNumbers::new(alloc),
        }
    }

    /// Receives bytes from the router, and returns how many were consumed. Returns 0 if bytes are due to the router (call `pull` first), if the
    /// connection has ended, or if there is none.
    /// Otherwise consumes up to the end of the first PDU, up to a fault, or all of `piece`. A fault ends the connection, and an Error Report is
    /// due unless the faulty PDU is one. An Error Report from the router ends it without an answer.
    /// Only a Serial Query allocates memory. If memory runs out, an Error Report of code 1 is due, and the connection ends (RFC 8210 section
    /// 12).
    pub fn receive(&mut self, conn: Conn, piece: &[u8]) -> usize
        ensures takes { (m : CacheState) → ShowsCache S.holds m self.old → TakesPiece S.holds m conn.0 piece.now result self.new }
        ensures within { result ≤ length piece.now }
    {
        if conn.0 >= self.peers.len() {
            return 0;
        }
        match &mut self.peers[conn.0] {
            None => 0,
            Some(peer) => peer.receive(&self.store, piece),
        }
    }

    /// Writes bytes that are due to the router into the front of `out`, as many as fit. Returns how many: 0 if nothing is due or there is no
    /// such connection. An answer is of the version that was current when its query was read. Allocates no memory.
    pub fn pull(&mut self, conn: Conn, out: &mut [u8]) -> usize
        ensures gives { (m : CacheState) → ShowsCache S.holds m self.old → GivesBytes S.holds m conn.0 out.old result out.new self.new }
        ensures within { result ≤ length out.old }
    {
        if conn.0 >= self.peers.len() {
            return 0;
        }
        match &mut self.peers[conn.0] {
            None => 0,
            Some(peer) => peer.pull(out),
        }
    }

    /// Queues a Serial Notify of the current version for the router (RFC 8210 section 5.2), to be pulled. It is of the protocol version of
    /// `version`, or of version 1 if that is `None`. Returns whether it did.
    /// Returns `false` if there is no such connection, if it has ended, if bytes are due, or if nothing is published. Allocates no memory.
    pub fn notify(&mut self, conn: Conn) -> bool
        ensures { (m : CacheState) → ShowsCache S.holds m self.old → (result ≡ can_notify_at m.cache (m.at conn.0)) × ShowsCache S.holds (notified conn.0 m) self.new }
    {
        if conn.0 >= self.peers.len() {
            return false;
        }
        match &mut self.peers[conn.0] {
            None => false,
            Some(peer) => peer.notify(),
        }
    }

    /// The connection under a number.
    fn peer(&self, conn: Conn) -> Option<&Peer>
        ensures { option_map (λ p. p.now) result ≡ peer_at self.now.peers.items conn.0 }
    {
        match self.peers.get(conn.0)? {
            None => None,
            Some(peer) => Some(peer.as_ref()),
        }
    }

    /// Returns whether the connection continues. `false`: it has ended, or there is no such connection. Bytes that are due can still be pulled
    /// after the end.
    pub fn is_open(&self, conn: Conn) -> bool
        ensures { (m : CacheState) → ShowsCache S.holds m self.now → result ≡ is_open_at (m.at conn.0) }
    {
        match self.peer(conn) {
            None => false,
            Some(peer) => peer.is_open(),
        }
    }

    /// Returns whether bytes are due to the router, also after the connection has ended. `false` if there is no such connection.
    pub fn has_bytes(&self, conn: Conn) -> bool
        ensures { (m : CacheState) → ShowsCache S.holds m self.now → result ≡ has_bytes_at (m.at conn.0) }
    {
        match self.peer(conn) {
            None => false,
            Some(peer) => peer.has_bytes(),
        }
    }

    /// Returns whether a PDU from the router has arrived only in part. `false` if the connection has ended, also by a fault in such a PDU, or if
    /// there is no such connection.
    pub fn is_within_unit(&self, conn: Conn) -> bool
        ensures { (m : CacheState) → ShowsCache S.holds m self.now → result ≡ is_within (m.at conn.0) }
    {
        match self.peer(conn) {
            None => false,
            Some(peer) => peer.is_within_unit(),
        }
    }

    /// The version of the protocol that the first header of the router selects: version 0 if its first byte is 0, otherwise version 1 (RFC 8210
    /// section 7). `None`: no whole header has come yet, or there is no such connection.
    pub fn version(&self, conn: Conn) -> Option<Version>
        ensures { (m : CacheState) → ShowsCache S.holds m self.now → result ≡ version_at (m.at conn.0) }
    {
        self.peer(conn)?.version()
    }

    /// The current version: its serial and its set of VRPs. `None`: nothing is published.
    pub fn current(&self) -> Option<(Serial, &VrpSet)>
        ensures { (m : CacheState) → ShowsCache S.holds m self.now → option_map (λ found. record { serial = found.0.0; set = found.1.now }) result ≡ newest (versions m.cache) }
    {
        let (serial, set) = self.store.current()?;
        Some((serial, set.as_ref()))
    }

    /// The store of versions that the cache was made with.
    pub fn version_store(&self) -> &S
        ensures { result.now ≡ self.now.store }
    {
        &self.store
    }

    /// Closes the connection and drops the bytes that were due. Its number is free afterwards. Does nothing if there is no such connection.
    /// Allocates no memory.
    pub fn close(&mut self, conn: Conn)
        ensures { (m : CacheState) → ShowsCache S.holds m self.old → ShowsCache S.holds (with_conn conn.0 Option.None m) self.new }
    {
        if self.peer(conn).is_some() {
            self.peers[conn.0] = None;
            self.free.put(conn.0);
        }
    }

    /// A share of the current version.
    fn share(&self) -> Result<Option<Share>, AllocError>
        ensures { (keep : ℕ) (i : Instance) → S.holds keep i self.now.store → IfOk result (λ share. option_map numbered_of share ≡ newest (versions i)) }
    {
        match self.store.current() {
            None => Ok(None),
            Some((serial, set)) => {
                let set = set.clone()?;
                Ok(Some(Share { serial, set }))
            }
        }
    }

    /// The session numbers.
    fn sessions(&self) -> Sessions
        ensures v0 { result.v0 ≡ self.now.session0 }
        ensures v1 { (keep : ℕ) (i : Instance) → S.holds keep i self.now.store → result.v1 ≡ i.session }
    {
        Sessions {
            v0: self.session0,
            v1: self.store.session(),
        }
    }

    /// Opens a connection, which gets the lowest number that no connection has. `AllocError`: memory ran out, and nothing is changed.
    pub fn open(&mut self) -> Result<Conn, AllocError>
        ensures { (m : CacheState) → ShowsCache S.holds m self.old → Opens S.holds m result self.new }
    {
        let ready = self.share()?;
        let peer = Box::new(self.alloc, Peer::new(self.sessions(), self.timing, ready))?;
        let count = self.peers.len();
        let number = self.free.take().unwrap_or(count);
        if number < count {
            self.peers[number] = Some(peer);
        } else {
            self.free.reserve(count + 1)?;
            self.peers.push(Some(peer))?;
        }
        Ok(Conn(number))
    }

    /// A share of this set for each number.
    fn shares(&self, set: &Rc<VrpSet>) -> Result<Vec<Rc<VrpSet>>, AllocError>
        ensures { IfOk result (λ shares. (length shares.items ≡ length self.now.peers.items) × AllByRecursion (λ s. s ≡ set.now.value) (map (λ share. share.value) shares.items)) }
    {
        let mut shares = Vec::new(self.alloc);
        for _number in 0..self.peers.len() {
            shares.push(set.clone()?)?;
        }
        Ok(shares)
    }

    /// Whether the set is that of the current version.
    fn is_current(&self, set: &VrpSet) -> bool
        ensures { (keep : ℕ) (i : Instance) → S.holds keep i self.now.store → result ≡ is_current i.sets set.now }
    {
        match self.store.current() {
            None => false,
            Some((_, current)) => current.is_same(set),
        }
    }

    /// Publishes a set of VRPs. Returns `Published::New` with the new serial, or `Unchanged` if the set equals the current version. An answer
    /// that is under way still goes out in its own version. Sends no Serial Notify: see `notify`. Returns an error if memory runs out; nothing
    /// is published then.
    pub fn publish(&mut self, set: VrpSet) -> Result<Published, AllocError>
        ensures { (m : CacheState) → ShowsCache S.holds m self.old → Publishes (λ i cache. ShowsCache S.holds (record m { cache = i }) cache) result set m.cache self.new }
    {
        if self.is_current(&set) {
            return Ok(Published::Unchanged);
        }
        let set = Rc::new(self.alloc, set)?;
        let shares = self.shares(&set)?;
        match self.store.publish(set)? {
            Published::Unchanged => Ok(Published::Unchanged),
            Published::New(serial) => {
                hand_out(&mut self.peers, serial, shares);
                Ok(Published::New(serial))
            }
        }
    }
}

/// Hands a share of a newer version to the connection under a number, if there is one.
fn offer_at(peers: &mut Vec<Option<Box<Peer>>>, number: usize, share: Share)
    requires { number < length peers.old.items }
    ensures { OffersAt peers.old.items number share peers.new.items }
{
    match &mut peers[number] {
        None => {}
        Some(peer) => peer.offer(share),
    }
}

/// Hands a share of a newer version to each connection.
fn hand_out(peers: &mut Vec<Option<Box<Peer>>>, serial: Serial, shares: Vec<Rc<VrpSet>>)
    requires { length shares.items ≡ length peers.old.items }
    ensures { HandsOut peers.old.items serial.0 (map (λ share. share.value) shares.items) peers.new.items }
{
    let mut shares = shares;
    for number in 0..peers.len() {
        if let Some(set) = shares.pop() {
            offer_at(peers, number, Share { serial, set });
        }
    }
}
