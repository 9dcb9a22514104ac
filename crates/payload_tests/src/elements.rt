//! Elements by hand, and their faults. Those that are nested as in a ROA or a manifest are rows of the commands `roa` and `manifest`.

use der_lite::{Bits, Cursor, DerFault, DerWriter, is_integer, unsigned};
use std::alloc::{AllocError, Global};
use std::process::Abort;

/// How long the content is of the element of this tag at the cursor. A SEQUENCE is read as one
/// without members.
fn read_one(cursor: &mut Cursor, tag: u8) -> Result<usize, DerFault> {
    match tag {
        2 => Ok(cursor.integer()?.len()),
        3 => Ok(cursor.bits()?.bytes.len()),
        4 => Ok(cursor.octets()?.len()),
        6 => Ok(cursor.oid()?.len()),
        22 => Ok(cursor.ia5()?.len()),
        _ => {
            let inner = cursor.sequence()?;
            inner.finish()?;
            Ok(0)
        }
    }
}

/// The number and the offset of a fault.
fn place(fault: Option<DerFault>) -> Option<(u8, usize)> {
    match fault {
        None => None,
        Some(fault) => Some((fault.number(), fault.offset)),
    }
}

/// The number and the offset of the fault of an element of this tag.
fn fault(tag: u8, bytes: &[u8]) -> Option<(u8, usize)> {
    place(read_one(&mut Cursor::new(bytes), tag).err())
}

/// Elements: the tag, the bytes, and how long the content is.
const SHORTEST: &[(u8, &[u8], usize)] = &[
    (2u8, b"\x02\x01\x00", 1usize),
    (2, b"\x02\x01\x7f", 1),
    (2, b"\x02\x02\x00\x80", 2),
    (2, b"\x02\x02\xff\x7f", 2),
    (3, b"\x03\x01\x00", 0),
    (3, b"\x03\x02\x03\xf8", 1),
    (4, b"\x04\x00", 0),
    (6, b"\x06\x00", 0),
    (22, b"\x16\x00", 0),
    (22, b"\x16\x02a\x7f", 2),
    (48, b"\x30\x00", 0),
];

/// Whether the bytes are one element of this tag whose content is so long.
fn is_read(tag: u8, bytes: &[u8], len: usize) -> bool {
    let mut cursor = Cursor::new(bytes);
    cursor.peek_tag() == Some(tag)
        && read_one(&mut cursor, tag).ok() == Some(len)
        && cursor.at_end()
        && cursor.offset() == bytes.len()
        && cursor.peek_tag() == None
        && cursor.finish().is_ok()
}

fn expect_read<R: Abort>(rt: &R, rows: &[(u8, &[u8], usize)]) {
    for (tag, bytes, len) in rows {
        assert!(rt; is_read(*tag, bytes, *len));
    }
}

#[test]
fn reads_the_shortest(rt: HostRuntime) {
    expect_read(&rt, SHORTEST);
}

/// Bytes that are no element of this tag, and the number of the fault at the front.
const FAULTS: &[(u8, &[u8], u8)] = &[
    (2u8, b"", 1u8),
    (48, b"\x30\x84\xff\xff\xff\xff", 1),
    (48, b"\x30\x81", 1),
    (4, b"\x05\x01", 1),
    (4, b"\x05\x00", 2),
    (48, b"\x31\x81\x7f", 2),
    (48, b"\x30\x85\x00\x00\x00\x00\x01", 3),
    (48, b"\x30\x80", 3),
    (48, b"\x30\x85", 3),
    (48, b"\x30\xff", 3),
    (4, b"\x04\x81\x7f", 3),
    (4, b"\x04\x82\x00\x80", 3),
    (2, b"\x02\x00", 4),
    (2, b"\x02\x02\x00\x7f", 4),
    (2, b"\x02\x02\xff\x80", 4),
    (3, b"\x03\x00", 4),
    (3, b"\x03\x01\x03", 4),
    (3, b"\x03\x02\x03\xfc", 4),
    (3, b"\x03\x02\x08\x00", 4),
    (22, b"\x16\x01\x80", 4),
];

fn expect_faults<R: Abort>(rt: &R, rows: &[(u8, &[u8], u8)]) {
    for (tag, bytes, number) in rows {
        assert!(rt; fault(*tag, bytes) == Some((*number, 0)));
    }
}

#[test]
fn tells_the_first_fault(rt: HostRuntime) {
    expect_faults(&rt, FAULTS);
    assert!(rt; fault(48, b"\x30\x02\x04\x00") == Some((5, 2)));
}

/// Whether the faults of these members give their places in the payload.
fn has_offsets(inner: &mut Cursor) -> bool {
    inner.offset() == 4
        && place(inner.octets().err()) == Some((2, 4))
        && inner.offset() == 4
        && inner.integer().ok() == Some(b"\x05".as_slice())
        && place(inner.ia5().err()) == Some((4, 7))
        && inner.peek_tag() == Some(22)
}

#[test]
fn tells_offsets_in_the_payload(rt: HostRuntime) {
    let mut outer = Cursor::new(b"\x04\x00\x30\x06\x02\x01\x05\x16\x01\x80".as_slice());
    assert!(rt; outer.octets().is_ok());
    match outer.sequence() {
        Ok(mut inner) => {
            assert!(rt; has_offsets(&mut inner));
            assert!(rt; place(inner.finish().err()) == Some((5, 7)));
        }
        Err(_) => assert!(rt; false),
    }
    assert!(rt; outer.at_end());
}

/// Each beginning of an element of this tag is cut.
fn expect_cut<R: Abort>(rt: &R, tag: u8, whole: &[u8]) {
    for cut in 0..whole.len() {
        assert!(rt; fault(tag, &whole[..cut]) == Some((1, 0)));
    }
}

#[test]
fn refuses_every_beginning(rt: HostRuntime) {
    expect_cut(&rt, 48, b"\x30\x07\x04\x05\x01\x02\x03\x04\x05");
    expect_cut(&rt, 4, b"\x04\x82\x01\x00\x07");
}

/// How many octets there are, and the head of their element.
const LENGTHS: &[(u32, &[u8])] = &[
    (0u32, b"\x04\x00"),
    (127, b"\x04\x7f"),
    (128, b"\x04\x81\x80"),
    (255, b"\x04\x81\xff"),
    (256, b"\x04\x82\x01\x00"),
    (65535, b"\x04\x82\xff\xff"),
    (65536, b"\x04\x83\x01\x00\x00"),
    (16777216, b"\x04\x84\x01\x00\x00\x00"),
];

/// The element of this many octets.
fn octets_of(alloc: Global, len: u32) -> Option<Vec<u8>> {
    let Ok(content) = vec![in alloc; 7u8; len as usize] else {
        return None;
    };
    let mut writer = DerWriter::new(alloc);
    match writer.octets(content.as_slice()) {
        Ok(()) => Some(writer.into_bytes()),
        Err(_) => None,
    }
}

/// Whether this is the element of this many octets behind this head.
fn is_headed(written: &[u8], len: u32, head: &[u8]) -> bool {
    let mut cursor = Cursor::new(written);
    written.starts_with(head)
        && read_one(&mut cursor, 4).ok() == Some(len as usize)
        && cursor.finish().is_ok()
}

/// Whether this many octets are written behind this head.
fn is_length(alloc: Global, len: u32, head: &[u8]) -> bool {
    match octets_of(alloc, len) {
        Some(written) => is_headed(written.as_slice(), len, head),
        None => false,
    }
}

fn expect_heads<R: Abort>(rt: &R, alloc: Global, rows: &[(u32, &[u8])]) {
    for (len, head) in rows {
        assert!(rt; is_length(alloc, *len, head));
    }
}

#[test]
fn writes_lengths_in_the_fewest_bytes(rt: HostRuntime) {
    expect_heads(&rt, rt.alloc(), LENGTHS);
}

fn write_members(writer: &mut DerWriter) -> Result<(), AllocError> {
    writer.integer(b"\x00\x80")?;
    writer.bits(Bits {
        unused: 3,
        bytes: b"\xf8",
    })?;
    writer.octets(b"\x01")?;
    writer.oid(b"\x2a\x03")?;
    writer.ia5("a.roa")
}

/// The sequence of these members.
const SEQUENCE: &[u8] = b"\
    \x30\x16\x02\x02\x00\x80\
    \x03\x02\x03\xf8\
    \x04\x01\x01\
    \x06\x02\x2a\x03\
    \x16\x05\x61\x2e\x72\x6f\x61";

/// Whether the sequence of these bytes is written as that.
fn is_sequence(alloc: Global, members: &[u8]) -> bool {
    let mut writer = DerWriter::new(alloc);
    members.len() < 100 && writer.sequence(members).is_ok() && writer.as_slice() == SEQUENCE
}

#[test]
fn writes_each_element(rt: HostRuntime) {
    let mut members = DerWriter::new(rt.alloc());
    assert!(rt; write_members(&mut members).is_ok());
    assert!(rt; is_sequence(rt.alloc(), members.as_slice()));
}

/// Numbers, and their elements.
const NUMBERS: &[(u32, &[u8])] = &[
    (0u32, b"\x02\x01\x00"),
    (127, b"\x02\x01\x7f"),
    (128, b"\x02\x02\x00\x80"),
    (256, b"\x02\x02\x01\x00"),
    (64496, b"\x02\x03\x00\xfb\xf0"),
    (8388608, b"\x02\x04\x00\x80\x00\x00"),
    (4294967295, b"\x02\x05\x00\xff\xff\xff\xff"),
];

/// Whether a number is written as this element.
fn is_written(alloc: Global, number: u32, element: &[u8]) -> bool {
    let mut writer = DerWriter::new(alloc);
    writer.unsigned(number).is_ok() && writer.as_slice() == element
}

/// Whether this element is read as a number.
fn is_number(element: &[u8], number: u32) -> bool {
    match Cursor::new(element).integer() {
        Ok(content) => unsigned(content) == Some(number),
        Err(_) => false,
    }
}

fn expect_numbers<R: Abort>(rt: &R, alloc: Global, rows: &[(u32, &[u8])]) {
    for (number, element) in rows {
        assert!(rt; is_written(alloc, *number, element));
        assert!(rt; is_number(element, *number));
    }
}

#[test]
fn writes_numbers_in_the_fewest_bytes(rt: HostRuntime) {
    expect_numbers(&rt, rt.alloc(), NUMBERS);
}

#[test]
fn compares_the_count_and_the_bytes(rt: HostRuntime) {
    let bits = Bits {
        unused: 3,
        bytes: b"\x08".as_slice(),
    };
    let fewer = Bits {
        unused: 2,
        bytes: b"\x08".as_slice(),
    };
    let others = Bits {
        unused: 3,
        bytes: b"\x10".as_slice(),
    };
    assert!(rt; bits == bits);
    assert!(rt; bits != fewer);
    assert!(rt; bits != others);
}

#[test]
fn tells_the_fewest_bytes(rt: HostRuntime) {
    assert!(rt; is_integer(b"\x00"));
    assert!(rt; is_integer(b"\x00\x80"));
    assert!(rt; is_integer(b"\xff\x7f"));
    assert!(rt; !is_integer(b""));
    assert!(rt; !is_integer(b"\x00\x7f"));
    assert!(rt; !is_integer(b"\xff\x80"));
}
