//! The answers of a cache, a PDU a line.
ghost use Rattle.rtr_pdu.specs.Unit.{fits};
ghost use Rattle.std.specs.Prelude.{◌≡◌, true, ℕ, [], ◌++◌, List, codes, string_bytes, IfOk, OnOk, IsErrOf, Ok};
ghost use Rattle.hex.specs.Hex.{decode_of, encode_lower};
ghost use Rattle.vrps.specs.Instance.{Instance};
ghost use Rattle.rtr_commands.specs.Answered.{AnswersBytes, LeavesOff};
ghost use Rattle.rtr_commands.specs.Lines.{cache_of, line_of};
ghost use Rattle.rtr_commands.specs.Serves.{HasExchanged, HasLines, HasServed, ServesOn, Starts, is_internal_error};

use command_parts::push_hex;
use hex::FromHexError;
use prefixes::Vrp;
use rtr_ends::{Cache, Conn, Timing};
use rtr_pdu::{
    MAX_UNIT_LEN, Next, Unit, UnitBuffer, UnitReader, Version, encode_as, encode_prefix, error_code,
};
use std::alloc::{AllocError, Global};
use thiserror::Error;
use vrps::{Serial, VersionLog, VrpSet};

/// A cache's replies to the bytes of one connection.
#[derive(Debug, Drop, PartialEq, Eq)]
pub struct Answered {
    /// One line for each PDU of the replies: its bytes in lower-case hexadecimal.
    pub lines: String,
    /// The offset of an incomplete PDU at the end of the router's bytes. `None`: there is none, or the connection has ended.
    pub left: Option<usize>,
}

/// Why there is no answer. Each kind has a fixed number, 1 or 2.
#[derive(Clone, Copy, Debug, PartialEq, Eq, Error)]
pub enum AnswerFault {
    /// The text is not pairs of hexadecimal digits.
    #[error("not hexadecimal digits in pairs (fault 1)")]
    BadHex = 1,
    /// Out of memory.
    #[error("out of memory (fault 2)")]
    Memory = 2,
}

impl AnswerFault {
    ghost use Rattle.rtr_commands.specs.AnswerFaults.{answer_fault_number};

    /// The fixed number of the fault, 1 or 2.
    pub fn number(self) -> u8
        ensures { result ≡ answer_fault_number self }
    {
        self as u8
    }
}

impl From<AllocError> for AnswerFault {
    ghost use Rattle.rtr_commands.specs.declared.answering.AnswerFault.TheVariants.{Memory};

    ghost from_gives = { λ _ e. e ≡ Memory };

    fn from(_error: AllocError) -> AnswerFault {
        AnswerFault::Memory
    }
}

/// A cache that has published this set alone, under this serial, and a session for each version of the protocol.
pub(crate) fn cache_with(
    alloc: Global,
    session: u16,
    session0: u16,
    serial: u32,
    set: VrpSet,
) -> Result<Cache<VersionLog>, AllocError>
    ensures { IfOk result (λ cache. Starts (cache_of session session0 serial set) cache) }
{
    let _within_limit = set.len();
    let log = VersionLog::new(alloc, session, serial, 1)?;
    let mut cache = Cache::new_both(alloc, log, session0, Timing::default());
    let _published = cache.publish(set)?;
    Ok(cache)
}

/// Pulls all that is due on a connection, behind what was pulled before.
fn pull_all(
    cache: &mut Cache<VersionLog>,
    conn: Conn,
    replies: &mut Vec<u8>,
) -> Result<(), AllocError>
    requires { (i : Instance) × ((came : List ℕ) × ServesOn i conn.0 came replies.old.items cache.old) }
    ensures { (i : Instance) (came : List ℕ) → ServesOn i conn.0 came replies.old.items cache.old → OnOk result (HasServed i conn.0 came replies.new.items cache.new) }
{
    let mut buffer = [0u8; MAX_UNIT_LEN];
    while cache.has_bytes(conn) {
        let count = cache.pull(conn, &mut buffer);
        replies.extend_from_slice(&buffer[..count])?;
    }
    Ok(())
}

/// Passes in bytes on a connection, piece by piece, and pulls all replies.
fn exchange(
    cache: &mut Cache<VersionLog>,
    conn: Conn,
    bytes: &[u8],
    replies: &mut Vec<u8>,
) -> Result<(), AllocError>
    requires { (i : Instance) × HasServed i conn.0 [] replies.old.items cache.old }
    ensures { (i : Instance) → HasServed i conn.0 [] replies.old.items cache.old → OnOk result (HasExchanged i conn.0 bytes.now replies.new.items cache.new) }
{
    let mut rest = bytes;
    while cache.is_open(conn) && !rest.is_empty() {
        let count = cache.receive(conn, rest);
        let (_, behind) = rest.split_at(count);
        pull_all(cache, conn, replies)?;
        rest = behind;
    }
    Ok(())
}

/// Whether the PDU is an Error Report of code 1.
fn is_internal_error(unit: &Unit) -> bool
    ensures { result ≡ is_internal_error unit.now }
{
    match unit {
        Unit::ErrorReport(report) => report.code() == error_code::INTERNAL_ERROR,
        _ => false,
    }
}

/// Appends the line of the PDU in a buffer.
fn push_bytes(lines: &mut String, buffer: &UnitBuffer) -> Result<(), AllocError>
    ensures { OnOk result (string_bytes lines.new ≡ string_bytes lines.old ++ (encode_lower buffer.now.items ++ codes "\n")) }
{
    push_hex(lines, buffer.as_slice())?;
    lines.push('\n')
}

/// Appends the line of a PDU of this version.
fn push_line(lines: &mut String, version: Version, unit: &Unit) -> Result<(), AllocError>
    requires { fits version unit.now ≡ true }
    ensures { OnOk result (string_bytes lines.new ≡ string_bytes lines.old ++ line_of version unit.now) }
{
    let mut buffer = UnitBuffer::new();
    encode_as(version, unit, &mut buffer);
    push_bytes(lines, &buffer)
}

/// The same of a Prefix, whose bytes are written into this buffer.
fn push_prefix(
    lines: &mut String,
    version: Version,
    announce: bool,
    vrp: &Vrp,
    buffer: &mut UnitBuffer,
) -> Result<(), AllocError>
    ensures { OnOk result (string_bytes lines.new ≡ string_bytes lines.old ++ line_of version (Unit.Prefix announce vrp.now)) }
{
    encode_prefix(version, announce, vrp, buffer);
    push_bytes(lines, buffer)
}

/// The lines of the PDUs of this version with which the bytes begin. An Internal Error among them says that the cache ran out of memory.
fn unit_lines(alloc: Global, version: Version, bytes: &[u8]) -> Result<String, AllocError>
    ensures { IfOk result (λ lines. HasLines version bytes.now (string_bytes lines)) }
{
    // (a byte has two digits, and a PDU has eight bytes or more for each newline)
    let mut lines = String::with_capacity(alloc, bytes.len().saturating_mul(17) / 8)?;
    let mut buffer = UnitBuffer::new();
    let mut reader = UnitReader::of_version(version);
    let mut rest = bytes;
    loop {
        if let Some(found) = reader.next_prefix(&mut rest) {
            push_prefix(&mut lines, version, found.0, &found.1, &mut buffer)?;
        } else {
            match reader.next(&mut rest) {
                Next::Unit(unit) => {
                    if is_internal_error(&unit) {
                        return Err(AllocError);
                    }
                    push_line(&mut lines, version, &unit)?;
                }
                _ => return Ok(lines),
            }
        }
    }
}

/// The place of the beginning of a PDU with which the bytes end. They are of the version that the first header gives.
fn cut_off(bytes: &[u8]) -> Option<usize>
    ensures { LeavesOff bytes.now result }
{
    let mut reader = UnitReader::of_version(Version::first(bytes));
    let mut rest = bytes;
    loop {
        let offset = bytes.len() - rest.len();
        match reader.next(&mut rest) {
            Next::Unit(_) => {}
            Next::Fault(_) => return None,
            Next::NeedMore if reader.held().is_empty() => return None,
            Next::NeedMore => return Some(offset),
        }
    }
}

/// The answers of a cache without a connection to the bytes that come on a new one.
fn answers_of(
    alloc: Global,
    cache: &mut Cache<VersionLog>,
    bytes: &[u8],
) -> Result<Answered, AllocError>
    requires { (i : Instance) × Starts i cache.old }
    ensures { (i : Instance) → Starts i cache.old → IfOk result (λ answered. AnswersBytes i bytes.now answered) }
{
    let conn = cache.open()?;
    let mut replies = Vec::new(alloc);
    exchange(cache, conn, bytes, &mut replies)?;
    let lines = unit_lines(alloc, Version::first(bytes), replies.as_slice())?;
    let left = if cache.is_open(conn) {
        cut_off(bytes)
    } else {
        None
    };
    Ok(Answered { lines, left })
}

/// Returns the replies of a cache to the bytes that `hex` gives, which come on a new connection. The cache has published only `set`, under
/// `serial`. Its session is `session` in protocol version 1 and `session0` in version 0. It replies in version 0 if the first byte is 0,
/// otherwise in version 1 (RFC 8210 section 7). Bytes after the end of the connection get no reply. An empty `hex` gives no replies.
/// `Err(BadHex)`: `hex` is not hexadecimal digits in pairs. `Err(Memory)`: memory ran out. Then no replies are returned, not even an Error
/// Report of code 1.
pub fn answer_lines(
    alloc: Global,
    session: u16,
    session0: u16,
    serial: u32,
    set: VrpSet,
    hex: &str,
) -> Result<Answered, AnswerFault>
    ensures ok { IfOk result (λ answered. (bytes : List ℕ) × (decode_of hex.now ≡ Ok bytes) × AnswersBytes (cache_of session session0 serial set) bytes answered) }
    ensures bad_hex { IsErrOf result AnswerFault.BadHex → (bytes : List ℕ) → ¬ (decode_of hex.now ≡ Ok bytes) }
{
    let bytes = match hex::decode(alloc, hex) {
        Ok(bytes) => bytes,
        Err(FromHexError::OutOfMemory) => return Err(AnswerFault::Memory),
        Err(_) => return Err(AnswerFault::BadHex),
    };
    let mut cache = cache_with(alloc, session, session0, serial, set)?;
    Ok(answers_of(alloc, &mut cache, bytes.as_slice())?)
}
