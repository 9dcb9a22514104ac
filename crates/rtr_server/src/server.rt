//! One cache and many clients: who is admitted, served, notified and closed.
ghost use Rattle.std.specs.Prelude.{◌≡◌, ◌+◌, ◌<◌, ◌&&◌, ℕ, false, true, not, [], ◌∷◌, IfErr, IfOk, Option, cond, if◌then◌else◌, length, option_map};
ghost use Rattle.vrps.specs.Instance.{Instance, IsInstance, versions};
ghost use Rattle.vrps.specs.Stores.{newest};
ghost use Rattle.rtr_ends.specs.Timing.{Intervals};
ghost use Rattle.rtr_ends.specs.CacheState.{CacheCall, CacheState, ShowsCache, can_notify_at, joined, life, notified, version_at, with_conn, without_conns};
ghost use Rattle.rtr_server.specs.Clients.{AdmitsTo, Begun, GoesOnAfter, IsCounted, KeepsAll, KeepsOthers, NotifiesAt, NotifiesBelow, Past, PublishesSo, PublishesTo, Serves};
ghost use Rattle.rtr_server.specs.Clients.{ShowsServer, TakesTurn, admit_fault_number, clients_in, has_asked, is_gone, made, parted_last, parted_of, present, router_asked, slot_at};
ghost use Rattle.rtr_server.specs.Turns.{no_traffic};

use crate::stream::Stream;
use crate::tally::PdusByKind;
use crate::turn::{ByteCounts, Parted, Slot, Turn};
use rtr_ends::{Cache, Conn};
use rtr_pdu::Version;
use std::alloc::{AllocError, Global};
use thiserror::Error;
use vrps::{Published, Serial, VersionStore, VrpSet};

/// The handle of a client: the number of its connection at the cache. The number may go to another client after this one is closed. The handle
/// then means that client.
#[derive(Clone, Copy, Debug, PartialEq, Eq)]
pub struct Client(Conn);

impl Client {
    /// The number of the client. It is also that of its connection at the cache.
    pub fn number(self) -> usize
        ensures { result ≡ self.0.0 }
    {
        self.0.number()
    }
}

/// Another name of `Client`, for use as a poll token or as a key in tables of connections.
pub type ClientId = Client;

/// Why `Server::admit` refuses a stream. The numbers are fixed.
#[derive(Clone, Copy, Debug, PartialEq, Eq, Error)]
pub enum AdmitFault {
    /// The server already has the most clients that it may have.
    #[error("too many clients (fault 1)")]
    TooManyClients = 1,
    /// No memory for another client.
    #[error("out of memory for a client (fault 2)")]
    Memory = 2,
}

impl AdmitFault {
    /// The number of the fault, as in its printed text.
    pub fn number(self) -> u8
        ensures { result ≡ admit_fault_number self }
    {
        self as u8
    }
}

/// One cache and its clients. Each client has one non-blocking stream and one connection at the cache, both under the same number.
#[derive(Debug, Drop)]
pub struct Server<S, T> {
    alloc: Global,
    cache: Cache<S>,
    most: usize,
    /// How many are there.
    count: usize,
    slots: Vec<Option<Box<Slot<T>>>>,
    /// What was counted of the client that left last.
    parted: Option<Parted>,
}

impl<S: VersionStore, T: Stream + Drop> Server<S, T> {
    /// A server without clients. `cache` must have no connection. `most` is the most clients that the server may have. Allocates no memory.
    pub fn new(alloc: Global, cache: Cache<S>, most: usize) -> Server<S, T>
        ensures past { (keep : ℕ) (timing : Intervals) (i : Instance) (begun : ℕ → Begun) → IsInstance i → ShowsCache S.holds (without_conns keep timing i) cache →
            ShowsServer S.holds T.remaining T.contents (record { keep = keep; timing = timing; first = i; most = most; calls = []; begun = begun }) result }
        ensures parted { result.parted ≡ Option.None }
    {
        Server {
            alloc,
            cache,
            most,
            count: 0,
            slots: Vec::new(alloc),
            parted: None,
        }
    }

    /// Admits a client with its stream. It gets the lowest number that no client has. Returns `TooManyClients` if and only if `most` clients are
    /// there, and `Memory` if memory runs out. On an error the stream is dropped, and the other clients stay as they are.
    pub fn admit(&mut self, stream: T) -> Result<Client, AdmitFault>
        ensures admits { (p : Past) → ShowsServer S.holds T.remaining T.contents p self.old → AdmitsTo S.holds T.remaining T.contents p stream result self.old self.new }
        ensures parted { self.new.parted ≡ self.old.parted }
    {
        if self.count >= self.most {
            return Err(AdmitFault::TooManyClients);
        }
        match self.cache.open() {
            Err(_) => Err(AdmitFault::Memory),
            Ok(conn) => match put_at(self.alloc, &mut self.slots, conn, stream) {
                Err(_) => {
                    self.cache.close(conn);
                    Err(AdmitFault::Memory)
                }
                Ok(()) => {
                    self.count += 1;
                    Ok(Client(conn))
                }
            },
        }
    }

    /// One turn of a client, which is removed if it was closed.
    fn serve_one(&mut self, client: Client, budget: u32) -> Option<Turn>
        ensures others { KeepsOthers client.0.0 self.old.slots.items self.new.slots.items }
        ensures serves { Serves S.holds T.remaining T.contents T.answers budget client.0.0 (slot_at self.old.slots.items client.0.0) self.old.cache result (slot_at self.new.slots.items client.0.0) self.new.cache self.new.parted }
        ensures stays { is_gone result ≡ false → self.new.parted ≡ self.old.parted }
        ensures most { self.new.most ≡ self.old.most }
        ensures counted { IsCounted self.old → IsCounted self.new }
    {
        let number = client.0.number();
        let turn = turn_at(&mut self.cache, &mut self.slots, number, budget);
        if is_gone(turn) {
            self.close(client);
        }
        turn
    }

    /// Runs one turn of a client, with at most `budget` calls of its stream, and returns how the turn ended. `None`: there is no such client.
    /// Pulled bytes are written before more are pulled. If nothing is due, the cache receives the bytes that were read. If no read bytes are left,
    /// more are read. After `Turn::Gone` the client is closed, `parted` has its counts, and its number is free for another client. No other client
    /// changes.
    pub fn serve(&mut self, client: Client, budget: u32) -> Option<Turn>
        ensures others { KeepsOthers client.0.0 self.old.slots.items self.new.slots.items }
        ensures serves { Serves S.holds T.remaining T.contents T.answers budget client.0.0 (slot_at self.old.slots.items client.0.0) self.old.cache result (slot_at self.new.slots.items client.0.0) self.new.cache self.new.parted }
        ensures stays { is_gone result ≡ false → self.new.parted ≡ self.old.parted }
        ensures past { (p : Past) → ShowsServer S.holds T.remaining T.contents p self.old → GoesOnAfter S.holds T.remaining T.contents p client.0.0 result self.new }
    {
        self.serve_one(client, budget)
    }

    /// Publishes a set, and notifies the routers of all clients that have asked if it is new.
    fn publish_to_all(&mut self, set: VrpSet) -> Result<Published, AllocError>
        ensures publishes { (m : CacheState) → ShowsCache S.holds m self.old.cache → PublishesSo S.holds m set self.old.slots.items result self.new.slots.items self.new.cache }
        ensures most { self.new.most ≡ self.old.most }
        ensures parted { self.new.parted ≡ self.old.parted }
        ensures counted { IsCounted self.old → IsCounted self.new }
    {
        let published = self.cache.publish(set)?;
        if let Published::New(_) = published {
            notify_all(&mut self.cache, &mut self.slots);
        }
        Ok(published)
    }

    /// Publishes a set of VRPs. Returns `Published::New` with the new serial, or `Unchanged` if the set equals the current version. A new
    /// version is notified to each client that has sent a query and whose connection has not ended (RFC 8210 section 7). If bytes are due to the
    /// client, the notify follows once they are pulled, before anything more is received. Bytes already pulled go out first. A client without a
    /// query gets no notify. Returns an error if memory runs out; nothing is published then.
    pub fn publish(&mut self, set: VrpSet) -> Result<Published, AllocError>
        ensures publishes { (p : Past) → ShowsServer S.holds T.remaining T.contents p self.old → PublishesTo S.holds T.remaining T.contents p set result self.old self.new }
        ensures parted { self.new.parted ≡ self.old.parted }
    {
        let _size = set.len();
        self.publish_to_all(set)
    }

    /// Closes a client and drops its stream with all bytes that remained to be written. `parted` has its counts afterwards. Does nothing if
    /// there is no such client. If the number went to another client, that one is closed.
    pub fn drop_client(&mut self, client: Client)
        ensures others { KeepsOthers client.0.0 self.old.slots.items self.new.slots.items }
        ensures gone { slot_at self.new.slots.items client.0.0 ≡ Option.None }
        ensures past { (p : Past) → ShowsServer S.holds T.remaining T.contents p self.old → ShowsServer S.holds T.remaining T.contents (record p { calls = CacheCall.Close client.0.0 ∷ p.calls }) self.new }
        ensures parted { (m : CacheState) → ShowsCache S.holds m self.old.cache → self.new.parted ≡ parted_last (version_at (m.at client.0.0)) (slot_at self.old.slots.items client.0.0) self.old.parted }
    {
        self.close(client);
    }

    /// Keeps what was counted of the client, empties its place, and closes its connection.
    fn close(&mut self, client: Client)
        ensures others { KeepsOthers client.0.0 self.old.slots.items self.new.slots.items }
        ensures gone { slot_at self.new.slots.items client.0.0 ≡ Option.None }
        ensures closed { (m : CacheState) → ShowsCache S.holds m self.old.cache → ShowsCache S.holds (with_conn client.0.0 Option.None m) self.new.cache }
        ensures most { self.new.most ≡ self.old.most }
        ensures counted { IsCounted self.old → IsCounted self.new }
        ensures parted { (m : CacheState) → ShowsCache S.holds m self.old.cache → self.new.parted ≡ parted_last (version_at (m.at client.0.0)) (slot_at self.old.slots.items client.0.0) self.old.parted }
    {
        let version = self.cache.version(client.0);
        self.parted = counts_at(&self.slots, client.0.number(), version).or(self.parted);
        if empty_at(&mut self.slots, client.0.number()) {
            self.count = self.count.saturating_sub(1);
        }
        self.cache.close(client.0);
    }

    /// The number of clients: those that were admitted and are not closed.
    pub fn clients(&self) -> usize
        ensures { (p : Past) → ShowsServer S.holds T.remaining T.contents p self.now → result ≡ clients_in self.now.slots.items }
    {
        self.count
    }

    /// The counts of the client that left last, by a turn that returned `Turn::Gone` or by `drop_client`. `None`: no client has left yet.
    pub fn parted(&self) -> Option<Parted>
        ensures { result ≡ self.now.parted }
    {
        self.parted
    }

    /// The stream of a client. `None`: there is no such client.
    pub fn stream(&self, client: Client) -> Option<&T>
        ensures { option_map (λ stream. stream.now) result ≡ option_map (λ slot. slot.stream) (slot_at self.now.slots.items client.0.0) }
    {
        match self.slots.get(client.0.number())? {
            None => None,
            Some(slot) => Some(&slot.stream),
        }
    }

    /// Returns the numbers of bytes read from a client and written to it since it was admitted. `None`: there is no such client.
    pub fn carried(&self, client: Client) -> Option<ByteCounts>
        ensures { result ≡ option_map (λ slot. slot.traffic.carried) (slot_at self.now.slots.items client.0.0) }
    {
        match self.slots.get(client.0.number())? {
            None => None,
            Some(slot) => Some(slot.traffic.carried),
        }
    }

    /// Returns the numbers of PDUs that came from a client since it was admitted, by type. `None`: there is no such client. A PDU counts once the
    /// cache has consumed as many bytes as its header says, and at least 8. A PDU with a fault after its header counts too.
    pub fn received(&self, client: Client) -> Option<PdusByKind>
        ensures { result ≡ option_map (λ slot. slot.traffic.received.pdus) (slot_at self.now.slots.items client.0.0) }
    {
        match self.slots.get(client.0.number())? {
            None => None,
            Some(slot) => Some(slot.traffic.received.pdus()),
        }
    }

    /// Returns the numbers of PDUs sent to a client since it was admitted, by type. `None`: there is no such client. A PDU counts once all of it is
    /// written to the stream.
    pub fn sent(&self, client: Client) -> Option<PdusByKind>
        ensures { result ≡ option_map (λ slot. slot.traffic.sent.pdus) (slot_at self.now.slots.items client.0.0) }
    {
        match self.slots.get(client.0.number())? {
            None => None,
            Some(slot) => Some(slot.traffic.sent.pdus()),
        }
    }

    /// Returns whether a whole Serial Query or Reset Query came from a client and was consumed by the cache. `false`: no query came, or only a part
    /// of one, or there is no such client.
    pub fn has_asked(&self, client: Client) -> bool
        ensures counted { result ≡ has_asked (slot_at self.now.slots.items client.0.0) }
        ensures past { (p : Past) → ShowsServer S.holds T.remaining T.contents p self.now → result ≡ router_asked (life p.calls (made p) client.0.0) }
    {
        match self.received(client) {
            None => false,
            Some(pdus) => pdus.has_query(),
        }
    }

    /// The serial of the last End of Data that was sent to a client (RFC 8210 section 5.8). If the router accepted all of its answers, it has
    /// this version. `None`: no End of Data was sent yet, or there is no such client.
    pub fn last_serial(&self, client: Client) -> Option<Serial>
        ensures { result ≡ joined (option_map (λ slot. slot.traffic.sent.serial) (slot_at self.now.slots.items client.0.0)) }
    {
        match self.slots.get(client.0.number())? {
            None => None,
            Some(slot) => slot.traffic.sent.serial(),
        }
    }

    /// The version of the protocol in which the connection of a client speaks (RFC 8210 section 7): 0 if its first header has version 0,
    /// otherwise 1. So it is also 1 if that header has a version that the cache does not support. `None`: no whole header has come yet, or there
    /// is no such client.
    pub fn version(&self, client: Client) -> Option<Version>
        ensures { (p : Past) → ShowsServer S.holds T.remaining T.contents p self.now → result ≡ version_at ((present p).at client.0.0) }
    {
        self.cache.version(client.0)
    }

    /// The current version: its serial and its set of VRPs. `None`: nothing is published.
    pub fn current(&self) -> Option<(Serial, &VrpSet)>
        ensures { (p : Past) → ShowsServer S.holds T.remaining T.contents p self.now → option_map (λ found. record { serial = found.0.0; set = found.1.now }) result ≡ newest (versions (present p).cache) }
    {
        self.cache.current()
    }

    /// Returns the store that holds the versions of the cache.
    pub fn version_store(&self) -> &S
        ensures { result.now ≡ self.now.cache.store }
    {
        self.cache.version_store()
    }
}

/// Notifies a router if it has asked. Returns whether the notify is still to be sent.
fn owes<S: VersionStore>(cache: &mut Cache<S>, conn: Conn, asked: bool) -> bool
    ensures { (m : CacheState) → ShowsCache S.holds m cache.old → (result ≡ (asked && not (can_notify_at m.cache (m.at conn.0)))) × ShowsCache S.holds (if asked then notified conn.0 m else m) cache.new }
{
    asked && !cache.notify(conn)
}

/// Notifies the client under a number, or marks a notify to it as pending, if it has asked.
fn notify_at<S: VersionStore, T: Stream>(
    cache: &mut Cache<S>,
    slots: &mut Vec<Option<Box<Slot<T>>>>,
    number: usize,
)
    requires { number < length slots.old.items }
    ensures others { KeepsOthers number slots.old.items slots.new.items }
    ensures len { length slots.new.items ≡ length slots.old.items }
    ensures count { clients_in slots.new.items ≡ clients_in slots.old.items }
    ensures told { (m : CacheState) → ShowsCache S.holds m cache.old → NotifiesAt S.holds (slot_at slots.old.items number) m (slot_at slots.new.items number) cache.new }
{
    match &mut slots[number] {
        None => {}
        Some(slot) => {
            let asked = slot.traffic.received.pdus().has_query();
            slot.is_owed = owes(cache, slot.conn, asked);
        }
    }
}

/// Notifies each client that has asked, or marks a notify to it as pending.
fn notify_all<S: VersionStore, T: Stream>(
    cache: &mut Cache<S>,
    slots: &mut Vec<Option<Box<Slot<T>>>>,
)
    ensures notifies { NotifiesBelow S.holds slots.old.items cache.old (length slots.old.items) slots.new.items cache.new }
    ensures count { clients_in slots.new.items ≡ clients_in slots.old.items }
{
    for number in 0..slots.len() {
        notify_at(cache, slots, number);
    }
}

/// Makes room for a place of this number.
fn grow<T: Stream + Drop>(
    slots: &mut Vec<Option<Box<Slot<T>>>>,
    number: usize,
) -> Result<(), AllocError>
    ensures kept { KeepsAll slots.old.items slots.new.items }
    ensures room { IfOk result (λ _. number < length slots.new.items) }
    ensures count { clients_in slots.new.items ≡ clients_in slots.old.items }
{
    while slots.len() <= number {
        slots.push(None)?;
    }
    Ok(())
}

/// Puts a client under the number of its connection, if none is there.
fn put_at<T: Stream + Drop>(
    alloc: Global,
    slots: &mut Vec<Option<Box<Slot<T>>>>,
    conn: Conn,
    stream: T,
) -> Result<(), AllocError>
    ensures others { KeepsOthers conn.0 slots.old.items slots.new.items }
    ensures placed { IfOk result (λ _. slot_at slots.new.items conn.0 ≡ Option.Some (record { stream = stream; conn = conn; unread = []; unwritten = []; is_owed = false; traffic = no_traffic })) }
    ensures kept { IfErr result (λ _. KeepsAll slots.old.items slots.new.items) }
    ensures more { IfOk result (λ _. slot_at slots.old.items conn.0 ≡ Option.None → clients_in slots.new.items ≡ clients_in slots.old.items + 1) }
    ensures same { IfErr result (λ _. clients_in slots.new.items ≡ clients_in slots.old.items) }
{
    let number = conn.number();
    grow(slots, number)?;
    let slot = Box::new(alloc, Slot::new(alloc, stream, conn))?;
    slots[number] = Some(slot);
    Ok(())
}

/// Whether a client is gone.
fn is_gone(turn: Option<Turn>) -> bool
    ensures { result ≡ is_gone turn }
{
    match turn {
        Some(Turn::Gone(_)) => true,
        _ => false,
    }
}

/// One turn of the client under a number, if there is one.
fn turn_at<S: VersionStore, T: Stream>(
    cache: &mut Cache<S>,
    slots: &mut Vec<Option<Box<Slot<T>>>>,
    number: usize,
    budget: u32,
) -> Option<Turn>
    ensures others { KeepsOthers number slots.old.items slots.new.items }
    ensures turns { TakesTurn S.holds T.remaining T.contents T.answers budget (slot_at slots.old.items number) cache.old result (slot_at slots.new.items number) cache.new }
    ensures count { clients_in slots.new.items ≡ clients_in slots.old.items }
{
    if number >= slots.len() {
        return None;
    }
    match &mut slots[number] {
        None => None,
        Some(slot) => Some(slot.turn(cache, budget)),
    }
}

/// What is counted of the client under a number, which speaks in this version, if there is one.
fn counts_at<T: Stream>(
    slots: &Vec<Option<Box<Slot<T>>>>,
    number: usize,
    version: Option<Version>,
) -> Option<Parted>
    ensures { result ≡ option_map (parted_of version) (slot_at slots.now.items number) }
{
    match slots.get(number)? {
        None => None,
        Some(slot) => Some(Parted {
            carried: slot.traffic.carried,
            received: slot.traffic.received.pdus(),
            sent: slot.traffic.sent.pdus(),
            received_report: slot.traffic.received.report(),
            sent_report: slot.traffic.sent.report_code(),
            version,
            asked: slot.traffic.asked,
        }),
    }
}

/// Empties the place under a number, and says whether a client was there.
fn empty_at<T: Stream + Drop>(slots: &mut Vec<Option<Box<Slot<T>>>>, number: usize) -> bool
    ensures others { KeepsOthers number slots.old.items slots.new.items }
    ensures gone { slot_at slots.new.items number ≡ Option.None }
    ensures count { clients_in slots.old.items ≡ clients_in slots.new.items + cond result 1 0 }
{
    if number >= slots.len() {
        return false;
    }
    let was_there = slots[number].is_some();
    slots[number] = None;
    was_there
}
