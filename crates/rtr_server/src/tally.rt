//! How many PDUs of each type went one way, as their headers say (RFC 6810 section 5, RFC 8210 section 5).
ghost use Rattle.std.specs.Prelude.{◌≡◌, ◌+◌, ◌≤◌, ◌<◌, ◌-◌, ◌*◌, ◌^◌, ◌++◌, ◌∷◌, [], IfSome, length, max, min, option_map, take, drop, nat_le, nat_lt, slice_set, if◌then◌else◌, true};
ghost use Rattle.rtr_pdu.specs.Stream.{type_of};
ghost use Rattle.rtr_server.specs.Counting.{Counted, IsBetween, and_byte, and_many, and_pdu, and_pdus, and_whole, count_of, counted_on, first_byte};
ghost use Rattle.rtr_server.specs.Counting.{grown, has_query, is_whole, none_counted, report_after, serial_after, tail_at, text_in, told_len};
ghost use Rattle.rtr_server.specs.Runs.{IsOnlyCounted, PassesMany, ShowsHeader, length_in, type_in};

use crate::report::{REPORT_TEXT_LEN, Report};
use byteorder::{BigEndian, ByteOrder};
use rtr_pdu::Kind;
use std::marker::Model;
use vrps::Serial;

/// How many PDUs of each type went in one direction, counted by their headers (RFC 6810 section 5, RFC 8210 section 5). Each count saturates at
/// `u64::MAX`.
#[derive(Clone, Copy, Debug, PartialEq, Eq)]
pub struct PdusByKind {
    /// By the numbers from 0 to 10 that may be a type in a header. Five is none.
    counts: [u64; 11],
}

impl PdusByKind {
    /// Counters that are zero for every PDU type.
    pub fn none() -> PdusByKind
        ensures { result ≡ none_counted.pdus }
    {
        PdusByKind { counts: [0; 11] }
    }

    /// The number of PDUs of this type that were counted. It saturates at `u64::MAX`.
    pub fn of(&self, kind: Kind) -> u64
        ensures { result ≡ count_of self.now kind }
    {
        self.counts[usize::from(kind.number())]
    }

    /// Returns whether a Serial Query (RFC 8210 section 5.3) or a Reset Query (section 5.4) was counted.
    pub fn has_query(&self) -> bool
        ensures { result ≡ has_query self.now }
    {
        self.of(Kind::SerialQuery) > 0 || self.of(Kind::ResetQuery) > 0
    }

    /// Counts this many more of the type with this number. Numbers above ten are no type, and are not counted.
    fn add(&mut self, kind: u8, count: u64)
        ensures { self.new ≡ and_pdus count kind self.old }
    {
        let place = usize::from(kind);
        if place < self.counts.len() {
            self.counts[place] = self.counts[place].saturating_add(count);
        }
    }
}

/// The first bytes of a PDU that say what is counted: its header, and the serial of an End of Data.
const FRONT: usize = 12;

/// The bytes that are kept of an Error Report behind the PDU that it encapsulates: the length of the text, and the beginning of the text.
const TAIL: usize = 4 + REPORT_TEXT_LEN;

/// The counts of the bytes that went in one direction, in whatever pieces. It has the number of PDUs by type, the serial of the last End of
/// Data, and the last Error Report. A PDU counts once it is whole.
#[derive(Debug, Drop)]
pub struct Tally {
    pdus: PdusByKind,
    serial: Option<Serial>,
    report: Option<Report>,
    front: [u8; FRONT],
    tail: [u8; TAIL],
    came: u64,
}

impl Model for Tally {
    ghost use Rattle.std.specs.Prelude.{◌-◌, take};
    ghost use Rattle.rtr_server.specs.Counting.{Counted, tail_at};

    ghost Value = { Counted };

    ghost view = { λ t. record { pdus = t.pdus; serial = t.serial; report = t.report; front = take t.came t.front; tail = take (t.came - tail_at t.front) t.tail; came = t.came } };
}

impl Tally {
    /// A tally of no bytes: all counts are zero, and there is no serial and no Error Report.
    pub fn new() -> Tally
        ensures { result ≡ none_counted }
    {
        Tally {
            pdus: PdusByKind::none(),
            serial: None,
            report: None,
            front: [0; FRONT],
            tail: [0; TAIL],
            came: 0,
        }
    }

    /// The number of whole PDUs of each type. A PDU that has come only in part does not count.
    pub fn pdus(&self) -> PdusByKind
        ensures { result ≡ self.now.pdus }
    {
        self.pdus
    }

    /// The serial of the last End of Data (RFC 8210 section 5.8). An End of Data of fewer than 12 bytes has no serial, and does not change it.
    /// `None`: there was no End of Data with a serial.
    pub fn serial(&self) -> Option<Serial>
        ensures { result ≡ self.now.serial }
    {
        self.serial
    }

    /// The code and the text of the last Error Report (RFC 8210 section 5.11). `None`: there was no Error Report.
    pub fn report(&self) -> Option<Report>
        ensures { result ≡ self.now.report }
    {
        self.report
    }

    /// The code of the last Error Report (RFC 8210 section 12). `None`: there was no Error Report.
    pub fn report_code(&self) -> Option<u16>
        ensures { result ≡ option_map (λ said. said.code) self.now.report }
    {
        match &self.report {
            None => None,
            Some(report) => Some(report.code()),
        }
    }

    /// Counts the next bytes of one direction of a connection. They may begin or end inside a PDU. Only headers are judged: a PDU ends after as many
    /// bytes as its length says, and at least 8. It then counts under its type, even if it has a fault. No call shows the count of a type that is not
    /// in RFC 8210.
    /// The last serial and the last Error Report are kept.
    /// For whole PDUs see [`counts_units`](crate::laws::counts_units), for Error Reports [`counts_reports`](crate::laws::counts_reports).
    pub fn count(&mut self, piece: &[u8])
        ensures { self.new ≡ counted_on self.old piece.now }
    {
        count_all(self, piece);
    }

    /// One more byte of the last PDU came.
    fn grow(&mut self, byte: u8)
        ensures { self.new ≡ grown self.old byte }
    {
        put(&mut self.front, self.came, byte);
        put_behind(&mut self.tail, tail_at(&self.front), self.came, byte);
        self.came = self.came.saturating_add(1);
    }

    /// Whether the PDU that is being counted has come whole.
    fn is_whole(&self) -> bool
        ensures { result ≡ is_whole self.now }
    {
        self.came >= 8 && self.came >= told_len(first(&self.front, self.came))
    }

    /// Counts the PDU, which has come whole.
    fn end(&mut self)
        requires { 8 ≤ self.old.came }
        ensures { self.new ≡ and_whole self.old.front self.old.tail self.old.came self.old }
    {
        let front = first(&self.front, self.came);
        let tail = behind(&self.tail, tail_at(&self.front), self.came);
        note(&mut self.pdus, &mut self.serial, front, self.came);
        note_report(&mut self.report, front, tail, self.came);
        self.came = 0;
    }

    /// Counts a byte.
    fn take(&mut self, byte: u8)
        ensures { self.new ≡ and_byte self.old byte }
    {
        self.grow(byte);
        if self.is_whole() {
            self.end();
        }
    }

    /// Counts a PDU that is whole in front of these bytes, if no byte of another has come. It is no Error Report.
    fn add(&mut self, piece: &[u8], len: usize)
        requires none { self.old.came ≡ 0 }
        requires kind { ¬ (type_of piece.now ≡ 10) }
        requires header { 8 ≤ length piece.now }
        requires whole { len ≤ length piece.now }
        ensures { self.new ≡ and_whole piece.now [] len self.old }
    {
        note(&mut self.pdus, &mut self.serial, piece, len as u64);
        self.came = 0;
    }

    /// Counts this many PDUs of a type, if no byte of another has come. It is neither End of Data nor Error Report, of which more is kept.
    fn add_run(&mut self, kind: u8, count: u64)
        ensures { self.new ≡ and_many count kind self.old }
    {
        self.pdus.add(kind, count);
        self.came = 0;
    }

    /// Counts the PDU that is whole in front of these bytes, and those behind it that are like it, and returns what is left. The PDU is no
    /// Error Report.
    fn pass<'a>(&mut self, piece: &'a [u8], len: usize) -> &'a [u8]
        requires none { IsBetween self.old }
        requires kind { ¬ (type_of piece.now ≡ 10) }
        requires told { len ≡ told_len piece.now }
        requires header { 8 ≤ length piece.now }
        requires whole { len ≤ length piece.now }
        ensures counts { counted_on self.old piece.now ≡ counted_on self.new result.now }
        ensures less { length result.now < length piece.now }
    {
        let kind = piece[1];
        if kind == 7 {
            self.add(piece, len);
            return &piece[len..];
        }
        let (count, rest) = run_of(piece, len);
        self.add_run(kind, count);
        rest
    }

    /// Counts the PDUs in front if the first is whole and no Error Report, otherwise a byte, and returns what is left.
    fn next<'a>(&mut self, piece: &'a [u8]) -> &'a [u8]
        requires { 0 < length piece.now }
        ensures counts { counted_on self.old piece.now ≡ counted_on self.new result.now }
        ensures less { length result.now < length piece.now }
    {
        if self.came == 0 {
            if let Some(len) = plain_in_front(piece) {
                return self.pass(piece, len);
            }
        }
        self.take(piece[0]);
        &piece[1..]
    }
}

/// The first byte that came: one that came before, or the first of these.
pub(crate) fn first_byte(before: Option<u8>, bytes: &[u8]) -> Option<u8>
    ensures { result ≡ first_byte before bytes.now }
{
    match before {
        Some(_) => before,
        None => bytes.get(0).copied(),
    }
}

/// Counts bytes that went.
fn count_all(tally: &mut Tally, piece: &[u8])
    ensures { tally.new ≡ counted_on tally.old piece.now }
{
    let mut rest = piece;
    while !rest.is_empty() {
        rest = tally.next(rest);
    }
}

/// Counts a PDU of these first bytes, which has this many.
fn note(pdus: &mut PdusByKind, serial: &mut Option<Serial>, front: &[u8], len: u64)
    requires header { 8 ≤ length front.now }
    requires room { 12 ≤ len → 12 ≤ length front.now }
    ensures pdus { pdus.new ≡ and_pdu (type_of front.now) pdus.old }
    ensures serial { serial.new ≡ serial_after front.now len serial.old }
{
    let kind = front[1];
    pdus.add(kind, 1);
    if kind == 7 && len >= 12 {
        *serial = Some(Serial(BigEndian::read_u32(&front[8..])));
    }
}

/// Keeps what a PDU of this many bytes says, with these first bytes and this tail, if it is an Error Report.
fn note_report(report: &mut Option<Report>, front: &[u8], tail: &[u8], len: u64)
    requires header { 8 ≤ length front.now }
    requires room { 12 ≤ len → 12 ≤ length front.now }
    requires behind { length tail.now ≡ min 204 (len - tail_at front.now) }
    ensures { report.new ≡ report_after front.now tail.now len report.old }
{
    if front[1] == 10 {
        let code = BigEndian::read_u16(&front[2..]);
        *report = Some(Report::new(code, text_of(front, tail, len)));
    }
}

/// The beginning of the text of an Error Report of this many bytes, with these first bytes and this tail.
fn text_of<'a>(front: &[u8], tail: &'a [u8], len: u64) -> &'a [u8]
    requires room { 12 ≤ len → 12 ≤ length front.now }
    requires behind { length tail.now ≡ min 204 (len - tail_at front.now) }
    ensures value { result.now ≡ text_in front.now tail.now len }
    ensures most { length result.now ≤ 200 }
{
    if tail.len() < 4 {
        return &tail[..0];
    }
    let copy = u64::from(BigEndian::read_u32(&front[8..]));
    let text = u64::from(BigEndian::read_u32(tail));
    if 16 + copy + text == len {
        &tail[4..]
    } else {
        &tail[..0]
    }
}

/// Appends the next byte of a PDU, of which this many came, to its first ones, if it is one of these.
fn put(front: &mut [u8; FRONT], came: u64, byte: u8)
    ensures { front.new ≡ (if nat_lt came 12 then slice_set front.old came byte else front.old) }
{
    if came < FRONT as u64 {
        front[came as usize] = byte;
    }
}

/// Puts the next byte of a PDU, of which this many came, into its tail, if the byte is in it. The tail begins at this place.
fn put_behind(tail: &mut [u8; TAIL], at: u64, came: u64, byte: u8)
    ensures { tail.new ≡ (if nat_lt came at then tail.old else if nat_lt (came - at) 204 then slice_set tail.old (came - at) byte else tail.old) }
{
    if came >= at && came - at < TAIL as u64 {
        tail[(came - at) as usize] = byte;
    }
}

/// The first bytes of a PDU of which this many came.
fn first(front: &[u8; FRONT], came: u64) -> &[u8]
    ensures value { result.now ≡ take came front.now }
    ensures len { length result.now ≡ min 12 came }
{
    &front[..FRONT.min(came as usize)]
}

/// The tail of a PDU of which this many came: the bytes from this place on.
fn behind(tail: &[u8; TAIL], at: u64, came: u64) -> &[u8]
    ensures value { result.now ≡ take (came - at) tail.now }
    ensures len { length result.now ≡ min 204 (came - at) }
{
    &tail[..TAIL.min(came.saturating_sub(at) as usize)]
}

/// The place of the tail in an Error Report of these first bytes.
fn tail_at(front: &[u8; FRONT]) -> u64
    ensures value { result ≡ tail_at front.now }
    ensures low { result < 2 ^ 33 }
{
    12 + u64::from(BigEndian::read_u32(&front[8..]))
}

/// How many bytes a PDU has whose first bytes are these.
fn told_len(front: &[u8]) -> u64
    requires { 8 ≤ length front.now }
    ensures { result ≡ told_len front.now }
{
    u64::from(BigEndian::read_u32(&front[4..])).max(8)
}

/// The header in front of these bytes, as the number of its 64 bits.
fn header(bytes: &[u8]) -> u64
    requires { 8 ≤ length bytes.now }
    ensures { ShowsHeader result bytes.now }
{
    BigEndian::read_u64(bytes)
}

/// Whether this header is at a place of these bytes.
fn shows_at(bytes: &[u8], at: usize, head: u64) -> bool
    requires { at + 8 ≤ length bytes.now }
    ensures { result ≡ true → ShowsHeader head (drop at bytes.now) }
{
    header(&bytes[at..]) == head
}

/// Whether a PDU of this length and this header is whole in front of these bytes.
fn is_alike(bytes: &[u8], len: usize, head: u64) -> bool
    requires { 8 ≤ len }
    ensures fits { result ≡ true → len ≤ length bytes.now }
    ensures shows { result ≡ true → ShowsHeader head bytes.now }
{
    bytes.len() >= len && shows_at(bytes, 0, head)
}

/// Whether four PDUs of this length and this header are in front of these bytes.
fn are_four(bytes: &[u8], len: usize, head: u64) -> bool
    requires least { 8 ≤ len }
    requires most { len < 2 ^ 32 }
    ensures fits { result ≡ true → 4 * len ≤ length bytes.now }
    ensures first { result ≡ true → ShowsHeader head bytes.now }
    ensures second { result ≡ true → ShowsHeader head (drop len bytes.now) }
    ensures third { result ≡ true → ShowsHeader head (drop (2 * len) bytes.now) }
    ensures fourth { result ≡ true → ShowsHeader head (drop (3 * len) bytes.now) }
{
    bytes.len() >= 4 * len
        && shows_at(bytes, 0, head)
        && shows_at(bytes, len, head)
        && shows_at(bytes, 2 * len, head)
        && shows_at(bytes, 3 * len, head)
}

/// How many PDUs of this length and this header are in front of these bytes, by fours, and what is left behind them.
fn fours_of(piece: &[u8], len: usize, head: u64) -> (u64, &[u8])
    requires told { len ≡ max (length_in head) 8 }
    requires kind { IsOnlyCounted (type_in head) }
    ensures passes { PassesMany (type_in head) result.0 piece.now result.1.now }
    ensures less { result.0 + length result.1.now ≤ length piece.now }
{
    let mut rest = piece;
    let mut count = 0;
    while are_four(rest, len, head) {
        rest = &rest[4 * len..];
        count += 4;
    }
    (count, rest)
}

/// How many PDUs of this length and this header are in front of these bytes, one by one, and what is left behind them.
fn ones_of(piece: &[u8], len: usize, head: u64) -> (u64, &[u8])
    requires told { len ≡ max (length_in head) 8 }
    requires kind { IsOnlyCounted (type_in head) }
    ensures passes { PassesMany (type_in head) result.0 piece.now result.1.now }
    ensures less { result.0 + length result.1.now ≤ length piece.now }
{
    let mut rest = piece;
    let mut count = 0;
    while is_alike(rest, len, head) {
        rest = &rest[len..];
        count += 1;
    }
    (count, rest)
}

/// How many PDUs with the header of the first follow one another in front of these bytes, and what is left behind them.
fn run_of(piece: &[u8], len: usize) -> (u64, &[u8])
    requires told { len ≡ told_len piece.now }
    requires header { 8 ≤ length piece.now }
    requires whole { len ≤ length piece.now }
    requires kind { IsOnlyCounted (type_of piece.now) }
    ensures counts { (c : Counted) → IsBetween c → counted_on c piece.now ≡ counted_on (and_many result.0 (type_of piece.now) c) result.1.now }
    ensures less { length result.1.now < length piece.now }
{
    let head = header(piece);
    let (fours, rest) = fours_of(&piece[len..], len, head);
    let (ones, rest) = ones_of(rest, len, head);
    (1 + fours + ones, rest)
}

/// How many bytes the PDU in front has, if all of it is there and it is no Error Report.
fn plain_in_front(piece: &[u8]) -> Option<usize>
    ensures { IfSome result (λ len. (len ≡ told_len piece.now) × (8 ≤ length piece.now) × (len ≤ length piece.now) × (¬ (type_of piece.now ≡ 10))) }
{
    if piece.len() < 8 || piece[1] == 10 {
        return None;
    }
    let len = told_len(piece) as usize;
    if len <= piece.len() { Some(len) } else { None }
}
