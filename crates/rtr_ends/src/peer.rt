//! A router on its connection, as the cache sees it: what is answered to each PDU.
ghost use Rattle.std.specs.Prelude.{◌≡◌, ◌≤◌, ℕ, length, Bool, true, false, not, ◌||◌, List, [], ◌∷◌, Some, option_map};
ghost use Rattle.vrps.specs.Instance.{Instance, versions};
ghost use Rattle.vrps.specs.Stores.{newest};
ghost use Rattle.rtr_pdu.specs.Reader.{known_version};
ghost use Rattle.rtr_pdu.specs.Unit.{fits};
ghost use Rattle.rtr_ends.specs.Cache.{Conn, can_notify, conn_notified, is_none, new_conn};
ghost use Rattle.rtr_ends.specs.Connection.{spoken_in};
ghost use Rattle.rtr_ends.specs.Peer.{SendsReply, EndsConnection, ReportsFault, Knows, Pulls, Receives, ShowsPeer, maybe, read_reply, since_reply};
ghost use Rattle.rtr_ends.specs.Sender.{Speaks, due_of, newest_of, numbered_of};
ghost use Rattle.rtr_ends.specs.Timing.{Intervals};

use crate::reports::{fault_unit, report, report_on};
use crate::sender::{Sender, Share};
use crate::sessions::Sessions;
use crate::timing::Timing;
use rtr_pdu::{Next, Unit, UnitFault, UnitReader, Version, error_code};
use vrps::{Serial, Since, VersionStore};

/// The cache's end of one connection (RFC 8210 sections 5 to 8). It holds at most 4,096 received bytes and 4,096 bytes to be sent.
#[derive(Debug, Drop)]
pub struct Peer {
    pub reader: UnitReader,
    pub ended: bool,
    pub sender: Sender,
}

impl Peer {
    /// The cache's end of a new connection, before any byte arrives. `sessions` and `timing` are the cache's session IDs and intervals. `ready`
    /// is the newest version (serial and set). `None`: the cache has published nothing yet.
    pub fn new(sessions: Sessions, timing: Timing, ready: Option<Share>) -> Self
        ensures { (i : Instance) → sessions.v1 ≡ i.session → sessions.v0 ≡ i.session0 → option_map numbered_of ready ≡ newest (versions i) → ShowsPeer timing i (new_conn i) result }
    {
        Peer {
            reader: UnitReader::for_cache(),
            ended: false,
            sender: Sender::new(sessions, timing, ready),
        }
    }

    /// Whether it consumes no bytes: bytes are due, or it has ended.
    fn stops(&self) -> bool
        ensures { result ≡ (self.now.ended || not (is_none (due_of self.now.sender))) }
    {
        self.ended || self.sender.is_due()
    }

    /// Returns whether a PDU from the router has arrived only in part. After a fault it is `false`.
    pub fn is_within_unit(&self) -> bool
        ensures { result ≡ not (is_none self.now.reader.held) }
    {
        !self.reader.held().is_empty()
    }

    /// The version of the protocol that the first header selects: version 0 if its first byte is 0, otherwise version 1. `None`: no whole header
    /// has come yet.
    pub fn version(&self) -> Option<Version>
        ensures { result ≡ known_version self.now.reader }
    {
        self.reader.version()
    }

    /// Sets the version for PDUs that are sent: that of the first header, or version 1 if no header has come.
    fn speak(&mut self)
        requires { due_of self.old.sender ≡ [] }
        ensures reader { self.new.reader ≡ self.old.reader }
        ensures ended { self.new.ended ≡ self.old.ended }
        ensures speaks { Speaks (spoken_in (known_version self.old.reader)) self.old.sender self.new.sender }
    {
        match self.reader.version() {
            None => self.sender.speak(Version::V1),
            Some(version) => self.sender.speak(version),
        }
    }

    /// Sends a report, and ends.
    fn end(&mut self, unit: &Unit)
        requires due { due_of self.old.sender ≡ [] }
        requires fits { fits self.old.sender.version unit.now ≡ true }
        ensures { EndsConnection self.old (unit.now ∷ []) self.new }
    {
        self.sender.send(unit);
        self.ended = true;
    }

    /// Answers a Serial Query of the own session. `asked` is the serial in the query, `current` that of the current version.
    fn answer_since<S: VersionStore>(&mut self, store: &S, asked: Serial, current: Serial)
        requires due { due_of self.old.sender ≡ [] }
        requires goes_on { self.old.ended ≡ false }
        requires current { Some current.0 ≡ option_map (λ v. v.serial) (newest_of self.old.sender) }
        ensures { (keep : ℕ) (t : Intervals) (i : Instance) → S.holds keep i store.now → Knows t i self.old.sender →
            (memory : Bool) × SendsReply t i (since_reply self.old.sender.version keep t i memory asked.0) self.old self.new }
    {
        match store.since(asked) {
            Err(_) => self.end(&report(error_code::INTERNAL_ERROR, &[])),
            Ok(Since::Change(change)) => self.sender.answer_step(current, change),
            Ok(Since::Unknown) => self.sender.send(&Unit::CacheReset),
            Ok(Since::NoData) => self.sender.send(&Unit::CacheReset),
        }
    }

    /// Answers a Serial Query.
    fn answer_serial<S: VersionStore>(&mut self, store: &S, session: u16, serial: u32)
        requires due { due_of self.old.sender ≡ [] }
        requires goes_on { self.old.ended ≡ false }
        ensures { (keep : ℕ) (t : Intervals) (i : Instance) → S.holds keep i store.now → Knows t i self.old.sender →
            (memory : Bool) × SendsReply t i (read_reply self.old.sender.version keep t i memory (Unit.SerialQuery session serial)) self.old self.new }
    {
        let version = self.sender.version;
        let query = Unit::SerialQuery { session, serial };
        if session != self.sender.session() {
            self.end(&report_on(version, error_code::CORRUPT_DATA, &query));
            return;
        }
        match self.sender.current() {
            None => {
                let report = report_on(version, error_code::NO_DATA_AVAILABLE, &query);
                self.sender.send(&report);
            }
            Some(current) => self.answer_since(store, Serial(serial), current),
        }
    }

    /// Answers a PDU.
    fn answer<S: VersionStore>(&mut self, store: &S, unit: &Unit)
        requires due { due_of self.old.sender ≡ [] }
        requires goes_on { self.old.ended ≡ false }
        requires fits { fits self.old.sender.version unit.now ≡ true }
        ensures { (keep : ℕ) (t : Intervals) (i : Instance) → S.holds keep i store.now → Knows t i self.old.sender →
            (memory : Bool) × SendsReply t i (read_reply self.old.sender.version keep t i memory unit.now) self.old self.new }
    {
        let version = self.sender.version;
        match unit {
            Unit::ResetQuery => self.sender.answer_reset(),
            Unit::SerialQuery { session, serial } => {
                self.answer_serial(store, *session, *serial);
            }
            Unit::ErrorReport(_) => self.ended = true,
            _ => self.end(&report_on(version, error_code::INVALID_REQUEST, unit)),
        }
    }

    /// Ends at a fault.
    fn fail(&mut self, fault: UnitFault)
        requires { due_of self.old.sender ≡ [] }
        ensures { ReportsFault self.old fault self.new }
    {
        self.speak();
        let unit = fault_unit(self.reader.expected(), fault, self.reader.held());
        self.reader = UnitReader::of_version(self.sender.version);
        match unit {
            None => self.ended = true,
            Some(unit) => self.end(&unit),
        }
    }

    /// Consumes bytes from the front of `piece`, and returns how many: up to the end of the first PDU, up to a fault, or all. Returns 0 if bytes
    /// are due or the connection has ended. `store` is the cache's store, which answers a Serial Query.
    /// A fault ends the connection, with an Error Report unless the faulty PDU is one. If memory for an answer runs out, an Error Report of code
    /// 1 ends it.
    pub fn receive<S: VersionStore>(&mut self, store: &S, piece: &[u8]) -> usize
        ensures receives { (keep : ℕ) (t : Intervals) (i : Instance) (o : Conn) → S.holds keep i store.now → ShowsPeer t i o self.old →
            Receives keep t i o piece.now result self.new }
        ensures within { result ≤ length piece.now }
    {
        if self.stops() {
            return 0;
        }
        let mut rest = piece;
        match self.reader.next(&mut rest) {
            Next::NeedMore => piece.len(),
            Next::Unit(unit) => {
                self.speak();
                self.answer(store, &unit);
                piece.len() - rest.len()
            }
            Next::Fault(fault) => {
                self.fail(fault);
                piece.len() - rest.len()
            }
        }
    }

    /// Writes bytes that are due to the router into the front of `out`, as many as fit, and returns how many: 0 if nothing is due. The rest of `out`
    /// stays.
    pub fn pull(&mut self, out: &mut [u8]) -> usize
        ensures pulls { (keep : ℕ) (t : Intervals) (i : Instance) (o : Conn) → ShowsPeer t i o self.old → Pulls keep t i o out.old result out.new self.new }
        ensures within { result ≤ length out.old }
    {
        self.sender.pull(out)
    }

    /// Queues a Serial Notify of the current version, and returns whether it did. It is of the protocol version of the first header, or of
    /// version 1 if no header has come.
    /// Returns `false` if bytes are due, if the connection has ended, or if nothing is published.
    pub fn notify(&mut self) -> bool
        ensures { (keep : ℕ) (t : Intervals) (i : Instance) (o : Conn) → ShowsPeer t i o self.old →
            (result ≡ can_notify i o) × ShowsPeer t i (conn_notified keep t i o) self.new }
    {
        if self.stops() {
            return false;
        }
        match self.sender.current() {
            None => false,
            Some(serial) => {
                self.speak();
                let session = self.sender.session();
                let serial = serial.0;
                self.sender.send(&Unit::SerialNotify { session, serial });
                true
            }
        }
    }

    /// Sets the newest version, which the next answer sends. An answer that is under way does not change. Sends no Serial Notify.
    pub fn offer(&mut self, share: Share)
        ensures { (t : Intervals) (i j : Instance) (o : Conn) → i.session ≡ j.session → i.session0 ≡ j.session0 → Some (numbered_of share) ≡ newest (versions j) →
            ShowsPeer t i o self.old → ShowsPeer t j o self.new }
    {
        self.sender.offer(share);
    }

    /// Returns whether bytes are due to the router: they are queued and not yet pulled. This may be so after the connection has ended.
    pub fn has_bytes(&self) -> bool
        ensures { (t : Intervals) (i : Instance) (o : Conn) → ShowsPeer t i o self.now → result ≡ not (is_none o.state.due) }
    {
        self.sender.is_due()
    }

    /// Returns whether the connection continues. `false`: the router sent an Error Report, of any code, faulty or not. Or one of another code than 2
    /// (No Data Available) is due to the router or was pulled (RFC 8210 sections 5.11 and 12). Bytes that are due can still be pulled.
    pub fn is_open(&self) -> bool
        ensures { (t : Intervals) (i : Instance) (o : Conn) → ShowsPeer t i o self.now → result ≡ not o.state.ended }
    {
        !self.ended
    }
}
