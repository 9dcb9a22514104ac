//! What a connection of a router carried, as C has it.
ghost use Rattle.std.specs.Prelude.{◌≡◌, ◌<◌, length, nat_le};
ghost use Rattle.std.specs.List.{prefix_len};
ghost use Rattle.rpkirtr_c.specs.Answers.{number};
ghost use Rattle.rpkirtr_c.specs.Carried.{IsTold, carried_of, line_of, pdus_of, report_code, report_line, traffic_of};
ghost use Rattle.rpkirtr_c.specs.Texts.{in_room};

use crate::call_status::CallStatus;
use crate::texts::{CText, in_room};
use rtr_pdu::Kind;
use rtr_server::{PdusByKind, Report, Tally, Traffic};

/// The size of the structure, in bytes.
const TRAFFIC_SIZE: u32 = 344;

/// The most octets of a text. A zero follows them.
const MOST_TEXT: usize = 63;

/// What one direction of a connection carried. Counts stop at `u64::MAX`.
#[repr(C)]
#[derive(Clone, Copy, Debug)]
pub struct CCarried {
    /// How many bytes.
    pub bytes: u64,
    /// How many PDUs of each type (RFC 8210 section 5). Five is no type.
    pub pdus: [u64; 11],
    /// The beginning of the text of the last Error Report.
    pub text: CText,
    /// Its code (RFC 8210 section 12).
    pub code: u16,
    /// Whether there was one.
    pub has_report: u8,
    pub zero_: [u8; 5],
}

/// What a connection carried. `size_` is the size of the structure.
#[repr(C)]
#[derive(Clone, Copy, Debug)]
pub struct CTraffic {
    pub size_: u32,
    pub zero_: u32,
    pub received: CCarried,
    pub sent: CCarried,
}

/// How many PDUs of each type from 0 to 10.
fn pdus_of(pdus: &PdusByKind) -> [u64; 11]
    ensures { result ≡ pdus_of pdus.now }
{
    [
        pdus.of(Kind::SerialNotify),
        pdus.of(Kind::SerialQuery),
        pdus.of(Kind::ResetQuery),
        pdus.of(Kind::CacheResponse),
        pdus.of(Kind::Ipv4Prefix),
        0,
        pdus.of(Kind::Ipv6Prefix),
        pdus.of(Kind::EndOfData),
        pdus.of(Kind::CacheReset),
        pdus.of(Kind::RouterKey),
        pdus.of(Kind::ErrorReport),
    ]
}

/// How many octets come before the first control character.
fn line_len(text: &[u8]) -> usize
    ensures { result ≡ prefix_len (nat_le 32) text.now }
{
    text.iter().take_while(|octet| **octet >= 0x20).count()
}

/// The octets before the first control character, at most 63.
#[tactic(auto, using(std::proofs::lemmas::List::take_min))]
fn line_of(text: &[u8]) -> &[u8]
    ensures value { result.now ≡ line_of text.now }
    ensures short { length result.now < 64 }
{
    let line = &text[..line_len(text)];
    &line[..MOST_TEXT.min(line.len())]
}

/// The code of an Error Report: 0 if there was none.
fn report_code(report: &Option<Report>) -> u16
    ensures { result ≡ report_code report.now }
{
    match report {
        None => 0,
        Some(report) => report.code(),
    }
}

/// The beginning of the text of an Error Report, in its room.
fn report_text(report: &Option<Report>) -> CText
    ensures { result ≡ in_room (report_line report.now) }
{
    match report {
        None => in_room(b""),
        Some(report) => in_room(line_of(report.text())),
    }
}

/// What one direction carried: this many bytes, and what is counted of them.
fn carried_of(bytes: u64, tally: &Tally) -> CCarried
    ensures { result ≡ carried_of bytes tally.now }
{
    let report = tally.report();
    CCarried {
        bytes,
        pdus: pdus_of(&tally.pdus()),
        text: report_text(&report),
        code: report_code(&report),
        has_report: u8::from(report.is_some()),
        zero_: [0; 5],
    }
}

/// What both directions carried.
fn traffic_of(traffic: &Traffic) -> CTraffic
    ensures { result ≡ traffic_of traffic.now }
{
    CTraffic {
        size_: TRAFFIC_SIZE,
        zero_: 0,
        received: carried_of(traffic.carried.read, &traffic.received),
        sent: carried_of(traffic.carried.written, &traffic.sent),
    }
}

/// Writes what a connection carried, if the structure has the size of this header.
pub(crate) fn tell(traffic: &Traffic, out: &mut CTraffic) -> CallStatus
    ensures { IsTold traffic.now (number result) out.old out.new }
{
    if out.size_ != TRAFFIC_SIZE {
        return CallStatus::BadStructure;
    }
    *out = traffic_of(traffic);
    CallStatus::Done
}
