//! What a connection at the cache has to send: answers, notifies and Error Reports.
ghost use Rattle.std.specs.Prelude.{◌≡◌, ℕ, ◌<◌, ◌≤◌, length, Bool, true, false, not, [], ◌∷◌, ◌++◌, ◌+◌, Some, None, map, option_map, slice_get, drop, ◌^◌};
ghost use Rattle.vrps.specs.Instance.{NumberedSet};
ghost use Rattle.rtr_pdu.specs.Unit.{fits};
ghost use Rattle.rtr_pdu.specs.declared.version.Version.TheVariants.{V1};
ghost use Rattle.rtr_pdu.specs.declared.unit.Unit.TheVariants.{Prefix};
ghost use Rattle.rtr_ends.specs.Answer.{announcements, end_of_data, response, sent, whole_answer, withdrawals};
ghost use Rattle.rtr_ends.specs.Cache.{is_none};
ghost use Rattle.rtr_ends.specs.Sender.{BeginsAnswer, PullsBytes, FillsFrom, FillsOn, FillsWith, GivesFrom, Hands, KeepsRecords, KeepsRoom, Sends, Speaks, Stays, Writes, as_list, due_of, left, newest_of, own_session, ready_in, serial_in, units_in, numbered_of};

use crate::reports::report_on;
use crate::sessions::Sessions;
use crate::timing::Timing;
use arrayvec::ArrayVec;
use prefixes::Vrp;
use rtr_pdu::{
    MAX_PREFIX_LEN, MAX_UNIT_LEN, Unit, UnitBuffer, Version, encode_as, encode_prefix,
    encode_prefix_at, error_code,
};
use std::rc::Rc;
use vrps::{Change, Serial, VrpSet};

/// A version: its serial, and a share of its set.
#[derive(Debug, Drop)]
pub struct Share {
    pub serial: Serial,
    pub set: Rc<VrpSet>,
}

/// The records of an answer.
#[derive(Debug, Drop)]
pub enum Records {
    /// All of a version.
    Whole(Share),
    /// What leads to the version of this serial.
    Step(Serial, Change),
}

/// An answer under way: its Cache Response was sent, and the records before this place.
#[derive(Debug, Drop)]
pub struct AnswerCursor {
    pub records: Records,
    pub place: usize,
}

/// Writes the record of this set at this place, announced, and says whether there is one.
fn write_announced(version: Version, set: &VrpSet, place: usize, buffer: &mut UnitBuffer) -> bool
    ensures writes { Writes version (slice_get (announcements set.now) place) result buffer.old buffer.new.items buffer.new }
    ensures low { result ≡ true → place < 16777215 }
{
    match set.as_slice().get(place) {
        None => false,
        Some(vrp) => {
            encode_prefix(version, true, vrp, buffer);
            true
        }
    }
}

/// The records from a place on.
fn from_place(records: &[Vrp], place: usize) -> &[Vrp]
    ensures { result.now ≡ drop place records.now }
{
    let (_, rest) = records.split_at(place.min(records.len()));
    rest
}

/// Writes the records into `out` behind the first `filled` bytes, as long as there is room for the longest record. Returns how many bytes are
/// filled afterwards, and how many records were written.
fn fill_with(
    version: Version,
    announce: bool,
    records: &[Vrp],
    out: &mut [u8],
    filled: usize,
) -> (usize, usize)
    requires { filled ≤ length out.old }
    ensures { FillsWith version (map (λ v. Prefix announce v) records.now) out.old filled result.1 result.0 out.new }
{
    let mut end = filled;
    for (count, vrp) in records.iter().enumerate() {
        if out.len() - end < MAX_PREFIX_LEN {
            return (end, count);
        }
        end = encode_prefix_at(version, announce, vrp, out, end);
    }
    (end, records.len())
}

impl AnswerCursor {
    /// Writes the record at the current place into the buffer. Returns whether there is one.
    fn write(&self, version: Version, buffer: &mut UnitBuffer) -> bool
        ensures writes { Writes version (slice_get (units_in self.now.records) self.now.place) result buffer.old buffer.new.items buffer.new }
        ensures low { result ≡ true → self.now.place < 33554430 }
    {
        match &self.records {
            Records::Whole(share) => {
                write_announced(version, share.set.as_ref(), self.place, buffer)
            }
            Records::Step(_, change) => {
                let withdrawn = change.withdraw.as_slice();
                if self.place >= withdrawn.len() {
                    let place = self.place - withdrawn.len();
                    return write_announced(version, &change.announce, place, buffer);
                }
                encode_prefix(version, false, &withdrawn[self.place], buffer);
                true
            }
        }
    }

    /// Writes records from the place on behind the bytes of `out` that are filled, as `fill_with` does.
    fn fill_from(&self, version: Version, out: &mut [u8], filled: usize) -> (usize, usize)
        requires { filled ≤ length out.old }
        ensures fills { FillsWith version (drop self.now.place (units_in self.now.records)) out.old filled result.1 result.0 out.new }
        ensures low { self.now.place + result.1 < 2 ^ 64 }
    {
        match &self.records {
            Records::Whole(share) => {
                let records = share.set.as_ref().as_slice();
                let rest = from_place(records, self.place);
                fill_with(version, true, rest, out, filled)
            }
            Records::Step(_, change) => {
                let withdrawn = change.withdraw.as_slice();
                if self.place < withdrawn.len() {
                    let rest = from_place(withdrawn, self.place);
                    return fill_with(version, false, rest, out, filled);
                }
                let announced = change.announce.as_slice();
                let rest = from_place(announced, self.place - withdrawn.len());
                fill_with(version, true, rest, out, filled)
            }
        }
    }

    /// As `fill_from`, and the answer continues behind these records. Returns how many bytes of `out` are filled afterwards.
    fn fill(&mut self, version: Version, out: &mut [u8], filled: usize) -> usize
        requires { filled ≤ length out.old }
        ensures { FillsFrom version self.old out.old filled result out.new self.new }
    {
        let (end, count) = self.fill_from(version, out, filled);
        self.place += count;
        end
    }

    /// The serial of the version to which the answer leads.
    fn serial(&self) -> u32
        ensures { result ≡ serial_in self.now.records }
    {
        match &self.records {
            Records::Whole(share) => share.serial.0,
            Records::Step(serial, _) => serial.0,
        }
    }
}

/// What a connection has to send. Its bytes lie in one buffer, a PDU at a time; the records of the answer under way stay where they are
/// kept.
#[derive(Debug, Drop)]
pub struct Sender {
    /// The version of the protocol in which PDUs are sent.
    pub version: Version,
    pub sessions: Sessions,
    pub timing: Timing,
    /// The share of the current version that is kept ready for a Reset Query.
    pub ready: Option<Share>,
    pub answer: Option<AnswerCursor>,
    /// The PDU that goes out, with the number of its bytes that were pulled.
    pub buffer: UnitBuffer,
    pub pulled: usize,
}

impl Sender {
    /// A sender with nothing to send. Its version of the protocol is 1 until `speak` sets another. `ready` is the newest version. `None`:
    /// nothing is published yet.
    pub fn new(sessions: Sessions, timing: Timing, ready: Option<Share>) -> Self
        ensures due { due_of result ≡ [] }
        ensures version { result.version ≡ V1 }
        ensures sessions { result.sessions ≡ sessions }
        ensures timing { result.timing ≡ timing }
        ensures newest { newest_of result ≡ option_map numbered_of ready }
        ensures room { ready_in result ≤ MAX_UNIT_LEN }
    {
        Sender {
            version: Version::V1,
            sessions,
            timing,
            ready,
            answer: None,
            buffer: ArrayVec::new(),
            pulled: 0,
        }
    }

    /// Sets the version of the protocol for all later PDUs. Call it only if nothing is due.
    pub fn speak(&mut self, version: Version)
        requires { due_of self.old ≡ [] }
        ensures { Speaks version self.old self.new }
    {
        self.version = version;
    }

    /// The session ID for the version in which PDUs are sent.
    pub fn session(&self) -> u16
        ensures { result ≡ own_session self.now }
    {
        self.sessions.of(self.version)
    }

    /// Returns whether bytes are due.
    pub fn is_due(&self) -> bool
        ensures { result ≡ not (is_none (due_of self.now)) }
    {
        self.pulled < self.buffer.len() || self.answer.is_some()
    }

    /// Queues a PDU, to be pulled. Call it only if nothing is due. The PDU must fit the version of the sender (`Unit::fits`).
    pub fn send(&mut self, unit: &Unit)
        requires due { due_of self.old ≡ [] }
        requires fits { fits self.old.version unit.now ≡ true }
        ensures { Sends self.old (unit.now ∷ []) self.new }
    {
        encode_as(self.version, unit, &mut self.buffer);
        self.pulled = 0;
    }

    /// Keeps the share that the answer used, if no newer one is there.
    fn keep(&mut self, records: Records)
        requires { self.old.answer ≡ None }
        ensures { KeepsRecords self.old records self.new }
    {
        if self.ready.is_none() {
            if let Records::Whole(share) = records {
                self.ready = Some(share);
            }
        }
    }

    /// The record at the place was written into the buffer. The answer continues behind it.
    fn next_record(&mut self, cursor: AnswerCursor)
        requires none { self.old.answer ≡ None }
        requires low { cursor.place < 33554430 }
        ensures { self.new ≡ record self.old { answer = Some (record { records = cursor.records; place = cursor.place + 1 }); pulled = 0 } }
    {
        self.pulled = 0;
        let AnswerCursor { records, place } = cursor;
        let place = place + 1;
        let _none = self.answer.replace(AnswerCursor { records, place });
    }

    /// The End of Data of a version of this serial.
    fn end_of_data(&self, serial: u32) -> Unit
        ensures value { result ≡ end_of_data self.now.version (own_session self.now) serial self.now.timing }
        ensures fits { fits self.now.version result ≡ true }
    {
        let session = self.session();
        match self.version {
            Version::V0 => Unit::EndOfData0 { session, serial },
            Version::V1 => Unit::EndOfData {
                session,
                serial,
                refresh: self.timing.refresh(),
                retry: self.timing.retry(),
                expire: self.timing.expire(),
            },
        }
    }

    /// Writes the End of Data of the answer under way into the buffer.
    fn next_end(&mut self, cursor: AnswerCursor)
        requires none { self.old.answer ≡ None }
        requires at { None ≡ slice_get (units_in cursor.records) cursor.place }
        ensures { Hands (record self.old { answer = Some cursor }) self.new }
    {
        let end = self.end_of_data(cursor.serial());
        encode_as(self.version, &end, &mut self.buffer);
        self.pulled = 0;
        self.keep(cursor.records);
    }

    /// Writes the next PDU of the answer under way into the buffer.
    fn next(&mut self, cursor: AnswerCursor)
        requires { self.old.answer ≡ None }
        ensures { Hands (record self.old { answer = Some cursor }) self.new }
    {
        if cursor.write(self.version, &mut self.buffer) {
            self.next_record(cursor);
        } else {
            self.next_end(cursor);
        }
    }

    /// The serial of the newest version. `None`: nothing is published. Call it only if nothing is due.
    pub fn current(&self) -> Option<Serial>
        requires { due_of self.now ≡ [] }
        ensures { option_map (λ s. s.0) result ≡ option_map (λ v. v.serial) (newest_of self.now) }
    {
        match &self.ready {
            None => None,
            Some(share) => Some(share.serial),
        }
    }

    /// Begins an answer with these records.
    fn begin(&mut self, records: Records)
        requires { due_of self.old ≡ [] }
        ensures { BeginsAnswer self.old records self.new }
    {
        let session = self.session();
        encode_as(
            self.version,
            &Unit::CacheResponse { session },
            &mut self.buffer,
        );
        self.pulled = 0;
        let _none = self.answer.replace(AnswerCursor { records, place: 0 });
    }

    /// Answers a Reset Query: with a Cache Response, the announcements of the newest version in ascending order, and an End of Data. If nothing
    /// is published, it is an Error Report of code 2, No Data Available. Call it only if nothing is due.
    pub fn answer_reset(&mut self)
        requires { due_of self.old ≡ [] }
        ensures { Sends self.old (whole_answer self.old.version (own_session self.old) self.old.timing (as_list (newest_of self.old))) self.new }
    {
        match self.ready.take() {
            None => {
                let report = report_on(
                    self.version,
                    error_code::NO_DATA_AVAILABLE,
                    &Unit::ResetQuery,
                );
                self.send(&report);
            }
            Some(share) => self.begin(Records::Whole(share)),
        }
    }

    /// Answers a Serial Query: with a Cache Response, the withdrawals and then the announcements of `change`, each in ascending order, and an
    /// End of Data. `serial` must be that of the newest version. Call it only if nothing is due.
    pub fn answer_step(&mut self, serial: Serial, change: Change)
        requires due { due_of self.old ≡ [] }
        requires serial { Some serial.0 ≡ option_map (λ v. v.serial) (newest_of self.old) }
        ensures { (v : NumberedSet) → newest_of self.old ≡ Some v →
            Sends self.old (response self.old.version (own_session self.old) self.old.timing v (withdrawals change.withdraw ++ announcements change.announce)) self.new }
    {
        self.begin(Records::Step(serial, change));
    }

    /// Sets the newest version, which the next answer sends. An answer that is under way does not change.
    pub fn offer(&mut self, share: Share)
        ensures version { self.new.version ≡ self.old.version }
        ensures sessions { self.new.sessions ≡ self.old.sessions }
        ensures timing { self.new.timing ≡ self.old.timing }
        ensures due { due_of self.new ≡ due_of self.old }
        ensures newest { newest_of self.new ≡ Some (numbered_of share) }
        ensures room { KeepsRoom self.old self.new }
    {
        let _older = self.ready.replace(share);
    }

    /// Moves bytes of the buffer to `out`, behind the first `filled` bytes. Returns how many are filled afterwards.
    fn give(&mut self, out: &mut [u8], filled: usize) -> usize
        requires { filled ≤ length out.old }
        ensures { GivesFrom self.old out.old filled result out.new self.new }
    {
        let (_, left) = self
            .buffer
            .as_slice()
            .split_at(self.pulled.min(self.buffer.len()));
        let count = left.len().min(out.len() - filled);
        out[filled..filled + count].copy_from_slice(&left[..count]);
        self.pulled = self.buffer.len() - (left.len() - count);
        filled + count
    }

    /// Writes whole records of the answer under way straight behind the bytes of `out` that are filled.
    fn fill(&mut self, out: &mut [u8], filled: usize) -> usize
        requires { filled ≤ length out.old }
        ensures { FillsOn self.old out.old filled result out.new self.new }
    {
        match &mut self.answer {
            None => filled,
            Some(cursor) => cursor.fill(self.version, out, filled),
        }
    }

    /// Writes bytes that are due into the front of `out`, as many as fit, and returns how many. It is less than the length of `out` only if
    /// nothing is due afterwards. Records are written straight into `out`. The buffer holds the PDU of which only a part fits at the end of
    /// `out`.
    pub fn pull(&mut self, out: &mut [u8]) -> usize
        ensures gives { PullsBytes (due_of self.old) out.old result out.new (due_of self.new) }
        ensures stays { Stays self.old self.new }
    {
        let mut filled = 0;
        loop {
            filled = self.give(out, filled);
            if filled == out.len() {
                return filled;
            }
            filled = self.fill(out, filled);
            let Some(cursor) = self.answer.take() else {
                return filled;
            };
            self.next(cursor);
        }
    }
}
