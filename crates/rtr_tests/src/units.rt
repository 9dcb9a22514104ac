//! PDUs that are cut, faulty, or read and written call by call. What a file of PDUs says is a row of the command `units`.
use arrayvec::ArrayVec;
use rtr_pdu::{
    Counted, Next, ReadFault, Unit, UnitFault, UnitReader, Version, encode_as, read_all, read_unit,
    read_unit_of, write_unit,
};
use std::alloc::Global;
use std::io::{Read, Write};
use std::process::Abort;
use std::{io, slice};
use test_values::hex::bytes;
use test_values::sets::record;
use test_values::units as wire;

/// Whether these PDUs of this version are written as these bytes.
fn are_written(version: Version, units: &[Unit], bytes: &[u8]) -> bool {
    let mut buffer = ArrayVec::new();
    let mut rest = bytes;
    for unit in units {
        if !unit.fits(version) {
            return false;
        }
        encode_as(version, unit, &mut buffer);
        if !rest.starts_with(buffer.as_slice()) {
            return false;
        }
        let Some(left) = rest.get(buffer.len()..) else {
            return false;
        };
        rest = left;
    }
    rest.is_empty()
}

/// Bytes in pieces of this many.
fn pieces_of(alloc: Global, bytes: &[u8], size: usize) -> Option<Vec<Vec<u8>>> {
    let mut pieces = Vec::new(alloc);
    for part in bytes.chunks(size.max(1)) {
        let Ok(piece) = part.to_vec(alloc) else {
            return None;
        };
        if pieces.push(piece).is_err() {
            return None;
        }
    }
    Some(pieces)
}

/// Whether PDUs of this version are read from these pieces that are written as these bytes.
fn are_read(alloc: Global, version: Version, pieces: &[Vec<u8>], bytes: &[u8]) -> bool {
    let Ok((units, fault)) = read_all(alloc, None, pieces) else {
        return false;
    };
    fault.is_none() && are_written(version, units.as_slice(), bytes)
}

/// Whether PDUs of this version come back from these bytes in pieces of every size.
fn come_back(alloc: Global, version: Version, bytes: &[u8]) -> bool {
    for size in 1..=bytes.len() {
        let Some(pieces) = pieces_of(alloc, bytes, size) else {
            return false;
        };
        if !are_read(alloc, version, pieces.as_slice(), bytes) {
            return false;
        }
    }
    true
}

/// The fault of the first PDU, how many bytes are held then, and how many are left: at a router of this version, or at the cache.
fn first_fault(router: Option<Version>, bytes: &[u8]) -> (Option<UnitFault>, usize, usize) {
    let mut reader = match router {
        Some(version) => UnitReader::for_router(version),
        None => UnitReader::for_cache(),
    };
    let mut piece = bytes;
    let fault = match reader.next(&mut piece) {
        Next::Fault(fault) => Some(fault),
        Next::NeedMore => reader.end_of_input(),
        Next::Unit(_) => None,
    };
    (fault, reader.held().len(), piece.len())
}

/// PDUs of a version.
const CUT: &[(Version, &str)] = &[
    (Version::V1, "01 00 1234 0000000c 00000005"),
    (Version::V1, wire::SERIAL_QUERY),
    (Version::V1, wire::RESET_QUERY),
    (Version::V1, wire::ANSWER),
    (
        Version::V1,
        "01 06 0000 00000020 01 20 30 00 20010db8 00000000 00000000 00000000 0000fbf0",
    ),
    (Version::V1, wire::CACHE_RESET),
    // A Router Key with four bytes of its key.
    (
        Version::V1,
        "01 09 0100 00000024 0102030405060708090a0b0c0d0e0f1011121314 0000fbf0 01020304",
    ),
    // No Data Available, with the Reset Query that it answers.
    (
        Version::V1,
        "01 0a 0002 00000018 00000008 0102000000000008 00000000",
    ),
    (
        Version::V0,
        "00 00 0777 0000000c 00000005 | 00 01 0777 0000000c 00000005 | 00 02 0000 00000008",
    ),
    (
        Version::V0,
        "00 03 0777 00000008 | 00 04 0000 00000014 01 18 18 00 c0000200 0000fbf0 | 00 07 0777 0000000c 00000005",
    ),
    (
        Version::V0,
        "00 03 0777 00000008 | 00 04 0000 00000014 01 18 18 00 c0000200 0000fbf0
        | 00 06 0000 00000020 00 20 30 00 20010db8 00000000 00000000 00000000 0000fbf0 | 00 07 0777 0000000c 00000005
        | 00 08 0000 00000008",
    ),
    // Code 0, Corrupt Data, to the Serial Query of another session.
    (
        Version::V0,
        "00 0a 0000 0000001c 0000000c 00 01 1234 0000000c 00000005 00000000 | 00 07 0777 0000000c 00000005",
    ),
];

fn expect_cut<R: Abort>(rt: &R, alloc: Global, rows: &[(Version, &str)]) {
    for &(version, text) in rows {
        assert!(rt; come_back(alloc, version, bytes(text).as_slice()));
    }
}

#[test]
fn units_in_every_cutting(rt: HostRuntime) {
    expect_cut(&rt, rt.alloc(), CUT);
}

/// A router's version, or none for a cache. What comes, the fault of its first PDU, how many bytes are held then, and how many are left.
type Faulty = (
    Option<Version>,
    &'static str,
    Option<UnitFault>,
    usize,
    usize,
);

const VERSION: Option<UnitFault> = Some(UnitFault::Version);

const LENGTH: Option<UnitFault> = Some(UnitFault::Length);

const TYPE: Option<UnitFault> = Some(UnitFault::Type);

const OLD: Option<Version> = Some(Version::V0);

const NEW: Option<Version> = Some(Version::V1);

const FAULTS: &[Faulty] = &[
    (None, "01 05 0000 00000008 01", TYPE, 8, 1),
    (None, "01 04 0000 ffffffff 01", LENGTH, 8, 1),
    (
        None,
        "01 09 0000 ffffffff 0101",
        Some(UnitFault::TooLong),
        8,
        2,
    ),
    (
        None,
        "01 04 0000 00000014 01 18 17 00 c0000200 0000fbf0 01",
        Some(UnitFault::Record),
        20,
        1,
    ),
    (
        None,
        "01 0a 0000 00000010 00000001 00000000",
        Some(UnitFault::ErrorReport),
        16,
        0,
    ),
    (None, "01 02", Some(UnitFault::Truncated), 2, 0),
    (None, "", None, 0, 0),
];

/// A Router Key, an End of Data with intervals, and a type that there is in no version. An End of Data without intervals in version 1. The
/// other version, and one that there is not.
const FAULTS_OF_A_VERSION: &[Faulty] = &[
    (None, "00 09 0100 00000022 07", TYPE, 8, 1),
    (None, "00 07 0777 00000018 00", LENGTH, 8, 1),
    (None, "00 05 0000 00000008", TYPE, 8, 0),
    (OLD, "00 09 0100 00000022 07", TYPE, 8, 1),
    (OLD, "00 07 0777 00000018 00", LENGTH, 8, 1),
    (None, "01 07 0777 0000000c 00000005", LENGTH, 8, 4),
    (NEW, "01 07 0777 0000000c 00000005", LENGTH, 8, 4),
    (NEW, "00 02 0000 00000008", VERSION, 8, 0),
    (OLD, "00 03 0777 00000008", None, 0, 0),
    (OLD, wire::RESPONSE, VERSION, 8, 0),
    (NEW, "00 03 0777 00000008", VERSION, 8, 0),
    (None, "02 02 0000 00000008", VERSION, 8, 0),
    (None, "00 02 0000", Some(UnitFault::Truncated), 4, 0),
];

fn expect_faults<R: Abort>(rt: &R, rows: &[Faulty]) {
    for &(router, text, fault, held, left) in rows {
        assert!(rt; first_fault(router, bytes(text).as_slice()) == (fault, held, left));
    }
}

#[test]
fn faults(rt: HostRuntime) {
    expect_faults(&rt, FAULTS);
    expect_faults(&rt, FAULTS_OF_A_VERSION);
    assert!(rt; UnitFault::Truncated.number() == 7);
}

/// Whether the version of a first header is refused, and again without a further byte.
fn is_refused_again(reader: &mut UnitReader, piece: &mut &[u8]) -> bool {
    matches!(reader.next(piece), Next::Fault(UnitFault::Version))
        && matches!(reader.next(piece), Next::Fault(UnitFault::Version))
        && piece.len() == 1
        && reader.held().len() == 8
        && reader.end_of_input() == Some(UnitFault::Version)
}

#[test]
fn a_fault_is_answered_again(rt: HostRuntime) {
    let mut reader = UnitReader::for_cache();
    let bytes = [0x02, 0x00, 0x12, 0x34, 0x00, 0x00, 0x00, 0x0c, 0x00];
    let mut piece = bytes.as_slice();
    assert!(rt; is_refused_again(&mut reader, &mut piece));
}

/// Whether this is a Serial Notify of session 0x1234, serial 5.
fn is_notify(next: Next) -> bool {
    matches!(
        next,
        Next::Unit(Unit::SerialNotify {
            session: 0x1234,
            serial: 5
        })
    )
}

/// Whether the version of this PDU is refused.
fn is_refused(reader: &mut UnitReader, unit: &[u8]) -> bool {
    let mut piece = unit;
    matches!(reader.next(&mut piece), Next::Fault(UnitFault::Version))
}

/// Whether agreement counts for a notify of another version if its header has not come whole, and for the PDUs after it in every case. It
/// is notified when this many bytes of the notify have come.
fn agrees_at(notify: &[u8], cut: usize) -> bool {
    let mut reader = UnitReader::for_router(Version::V1);
    let (mut front, mut back) = notify.split_at(cut.min(notify.len()));
    if !matches!(reader.next(&mut front), Next::NeedMore) || reader.held().len() != cut {
        return false;
    }
    reader.agreed();
    if cut < 8 {
        return is_refused(&mut reader, back) && reader.held().len() == 8;
    }
    is_notify(reader.next(&mut back)) && is_refused(&mut reader, notify)
}

#[test]
fn agreement_at_each_byte(rt: HostRuntime) {
    let notify = bytes("02 00 1234 0000000c 00000005");
    for cut in 0..12usize {
        assert!(rt; agrees_at(notify.as_slice(), cut));
    }
}

/// A writer that accepts one byte a call, and as many calls as it may; then it fails.
#[derive(Drop)]
struct Narrow {
    taken: Vec<u8>,
    calls: u8,
}

impl Write for Narrow {
    fn write(&mut self, buf: &[u8]) -> io::Result<usize> {
        if self.calls == 0 {
            return Err(io::Error::from(io::ErrorKind::BrokenPipe));
        }
        self.calls -= 1;
        let Some(byte) = buf.first() else {
            return Ok(0);
        };
        if self.taken.push(*byte).is_err() {
            return Err(io::Error::from(io::ErrorKind::OutOfMemory));
        }
        Ok(1)
    }

    fn flush(&mut self) -> io::Result<()> {
        Ok(())
    }
}

/// A reader that fails.
#[derive(Drop)]
struct Broken {}

impl Read for Broken {
    fn read(&mut self, _buf: &mut [u8]) -> io::Result<usize> {
        Err(io::Error::from(io::ErrorKind::BrokenPipe))
    }
}

/// Whether a PDU of this version is written as these bytes.
fn is_spelled(version: Version, unit: &Unit, bytes: &[u8]) -> bool {
    let mut buffer = ArrayVec::new();
    if !unit.fits(version) {
        return false;
    }
    encode_as(version, unit, &mut buffer);
    buffer.as_slice() == bytes
}

/// Whether what is read is the PDU of these digits in a version, the end of the input, or a PDU of another version.
fn is_unit(read: &Result<Option<Unit>, ReadFault>, version: Version, want: &str) -> bool {
    match read {
        Ok(Some(unit)) => is_spelled(version, unit, bytes(want).as_slice()),
        Ok(None) => want == "end",
        Err(ReadFault::Fault(UnitFault::Version)) => want == "another version",
        Err(_) => false,
    }
}

/// Whether one PDU of this version is read so. After it this many bytes are left, and this many calls were made, none of which failed.
pub(crate) fn reads(
    input: &mut Counted<&[u8]>,
    version: Version,
    want: &str,
    left: usize,
    calls: u64,
) -> bool {
    is_unit(&read_unit_of(version, input), version, want) && is_left(input, left, calls)
}

fn is_left(input: &Counted<&[u8]>, left: usize, calls: u64) -> bool {
    input.device().len() == left && input.calls() == calls && input.failures() == 0
}

/// Whether one PDU is read so in version 1, by the call that names no version.
fn reads_plainly(input: &mut Counted<&[u8]>, want: &str, left: usize, calls: u64) -> bool {
    is_unit(&read_unit(input), Version::V1, want) && is_left(input, left, calls)
}

#[test]
fn one_unit_and_no_more(rt: HostRuntime) {
    let answer = bytes(wire::ANSWER);
    let mut input = Counted::new(answer.as_slice());
    assert!(rt; reads_plainly(&mut input, wire::RESPONSE, 44, 1));
    assert!(rt; reads_plainly(&mut input, wire::V, 24, 3));
}

#[test]
fn a_fault_of_the_header_leaves_the_rest(rt: HostRuntime) {
    let bytes = [0x00, 0x02, 0x00, 0x00, 0x00, 0x00, 0x00, 0x08, 0x01];
    let mut input = Counted::new(bytes.as_slice());
    assert!(rt; reads_plainly(&mut input, "another version", 1, 1));
    assert!(rt; *input.device() == &bytes[8..]);
}

/// Whether a reader that fails is called once.
fn fails_once(broken: &mut Counted<Broken>) -> bool {
    matches!(read_unit(broken), Err(ReadFault::ReadFailed))
        && broken.calls() == 1
        && broken.failures() == 1
}

#[test]
fn end_and_failure_of_a_reader(rt: HostRuntime) {
    let mut input = Counted::new([].as_slice());
    assert!(rt; reads_plainly(&mut input, "end", 0, 1));
    let mut broken = Counted::new(Broken {});
    assert!(rt; fails_once(&mut broken));
    assert!(rt; ReadFault::ReadFailed.number() == 8);
}

/// Whether a writer of this many calls gets as many bytes of a PDU of 20, and fails if they are fewer.
fn is_written(alloc: Global, unit: &Unit, calls: u8) -> bool {
    if !unit.fits(Version::V1) {
        return false;
    }
    let mut out = Counted::new(Narrow {
        taken: Vec::new(alloc),
        calls,
    });
    let written = write_unit(unit, &mut out);
    let all = bytes(wire::V);
    written.is_ok() == (calls == 20)
        && all.as_slice().get(..usize::from(calls)) == Some(out.device().taken.as_slice())
        && out.failures() == (if calls == 20 { 0 } else { 1 })
}

/// Whether a writer that accepts all gets a PDU whole in one call.
fn is_written_whole(alloc: Global, unit: &Unit) -> bool {
    let mut whole = Counted::new(Vec::new(alloc));
    unit.fits(Version::V1)
        && write_unit(unit, &mut whole).is_ok()
        && whole.device().as_slice() == bytes(wire::V).as_slice()
        && whole.calls() == 1
        && whole.failures() == 0
}

#[test]
fn units_to_a_writer(rt: HostRuntime) {
    let unit = Unit::Prefix {
        announce: true,
        vrp: record("192.0.2.0/24", 24, 64496).expect(&rt, "a record"),
    };
    assert!(rt; is_written_whole(rt.alloc(), &unit));
    for calls in 0..=20u8 {
        assert!(rt; is_written(rt.alloc(), &unit, calls));
    }
}

#[test]
fn a_writer_that_takes_nothing(rt: HostRuntime) {
    let mut full = Counted::new(ArrayVec::<u8, 0>::new());
    assert!(rt; write_unit(&Unit::ResetQuery, &mut full).is_err());
    assert!(rt; (full.calls(), full.failures()) == (1, 1));
}
