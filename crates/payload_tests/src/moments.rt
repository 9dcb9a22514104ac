//! Moments by hand: their texts, their order, and their elements. Texts of no moment are rows of the command `payloads`.

use der_lite::{Cursor, DerWriter, Moment, days_of_month, days_of_year};
use std::alloc::Global;
use std::process::Abort;

const TEXTS: &[&str] = &[
    "19700101000000Z",
    "19720229000000Z",
    "20000229235959Z",
    "20250131010203Z",
    "20250430000000Z",
    "21000228235959Z",
    "24000229120000Z",
    "99991231235959Z",
];

/// Whether this text is that of a moment, which is written so.
fn is_written(alloc: Global, text: &str) -> bool {
    let Some(moment) = Moment::parse(text) else {
        return false;
    };
    match moment.to_string(alloc) {
        Ok(shown) => { shown.as_str() == text && moment.text().as_slice() == text.as_bytes() }
        Err(_) => false,
    }
}

fn expect_written<R: Abort>(rt: &R, alloc: Global, texts: &[&str]) {
    for text in texts {
        assert!(rt; is_written(alloc, text));
    }
}

#[test]
fn writes_what_it_reads(rt: HostRuntime) {
    expect_written(&rt, rt.alloc(), TEXTS);
}

/// Moments, and their seconds since 1970.
const COUNTED: &[(&str, u64)] = &[
    ("19700101000000Z", 0),
    ("20000301000000Z", 951_868_800),
    ("20240229235959Z", 1_709_251_199),
    ("20380119031407Z", 2_147_483_647),
    ("99991231235959Z", 253_402_300_799),
];

/// Whether this is the text of a moment of these seconds.
fn is_counted(text: &str, seconds: u64) -> bool {
    match Moment::from_text(text.as_bytes()) {
        Some(moment) => moment.seconds() == seconds,
        None => false,
    }
}

fn expect_seconds<R: Abort>(rt: &R, rows: &[(&str, u64)]) {
    for (text, seconds) in rows {
        assert!(rt; is_counted(text, *seconds));
    }
}

#[test]
fn counts_seconds_since_1970(rt: HostRuntime) {
    expect_seconds(&rt, COUNTED);
    assert!(rt; Moment::from_text(b"2024-02-29T23:59:59Z").is_none());
}

/// Years, and how many days each and its February has.
const YEARS: &[(u16, u64, u64)] = &[
    (1970, 365, 28),
    (2000, 366, 29),
    (2023, 365, 28),
    (2024, 366, 29),
    (2100, 365, 28),
    (2400, 366, 29),
];

/// The months of 2025, and how many days each has.
const MONTHS: &[(u16, u64)] = &[
    (1, 31),
    (2, 28),
    (3, 31),
    (4, 30),
    (5, 31),
    (6, 30),
    (7, 31),
    (8, 31),
    (9, 30),
    (10, 31),
    (11, 30),
    (12, 31),
];

fn expect_years<R: Abort>(rt: &R, rows: &[(u16, u64, u64)]) {
    for &(year, days, february) in rows {
        assert!(rt; days_of_year(year) == days && days_of_month(year, 2) == february);
    }
}

fn expect_months<R: Abort>(rt: &R, rows: &[(u16, u64)]) {
    for &(month, days) in rows {
        assert!(rt; days_of_month(2025, month) == days);
    }
}

#[test]
fn days_of_years_and_months(rt: HostRuntime) {
    expect_years(&rt, YEARS);
    expect_months(&rt, MONTHS);
}

const ASCENDING: &[&str] = &[
    "19700101000000Z",
    "20241231235959Z",
    "20250101000000Z",
    "20250101000001Z",
    "20250101000059Z",
    "20250101000100Z",
    "20250101005959Z",
    "20250101010000Z",
    "20250102000000Z",
    "20250131235959Z",
    "20250201000000Z",
    "99991231235959Z",
];

/// Whether two moments compare as their places in the list do.
fn compare(texts: &[&str], i: usize, k: usize) -> bool {
    let (Some(earlier), Some(later)) = (texts.get(i), texts.get(k)) else {
        return false;
    };
    let (Some(m), Some(n)) = (Moment::parse(earlier), Moment::parse(later)) else {
        return false;
    };
    m.cmp(&n) == i.cmp(&k)
        && m.partial_cmp(&n) == Some(i.cmp(&k))
        && (m == n) == (i == k)
        && (m < n) == (i < k)
}

fn expect_ascending<R: Abort>(rt: &R, texts: &[&str]) {
    for i in 0..texts.len() {
        for k in 0..texts.len() {
            assert!(rt; compare(texts, i, k));
        }
    }
}

#[test]
fn compares_the_earlier_number_first(rt: HostRuntime) {
    expect_ascending(&rt, ASCENDING);
}

/// Whether this element is written of a moment, and is read as that.
fn is_element(alloc: Global, moment: &Moment, element: &[u8]) -> bool {
    let mut writer = DerWriter::new(alloc);
    let mut cursor = Cursor::new(element);
    writer.time(moment).is_ok()
        && writer.as_slice() == element
        && cursor.time().ok() == Some(*moment)
        && cursor.at_end()
}

#[test]
fn stands_in_elements_both_ways(rt: HostRuntime) {
    let element = b"\x18\x0f20250101120000Z".as_slice();
    match Moment::parse("20250101120000Z") {
        Some(noon) => assert!(rt; is_element(rt.alloc(), &noon, element)),
        None => assert!(rt; false),
    }
}

/// Elements of no time, and the numbers of their faults.
const FAULTS: &[(&[u8], u8)] = &[
    (b"\x18", 1u8),
    (b"\x18\x0f20250101120000", 1),
    (b"\x17\x0d250101120000Z", 2),
    (b"\x18\x81\x0f20250101120000Z", 3),
    (b"\x18\x00", 4),
    (b"\x18\x0e2025010112000Z", 4),
    (b"\x18\x1020250101120000ZZ", 4),
    (b"\x18\x0f202501011200000", 4),
    (b"\x18\x0f20250229120000Z", 4),
    (b"\x18\x0f20251301120000Z", 4),
    (b"\x18\x0f20250101120060Z", 4),
    (b"\x18\x0f2025010112000\xb2Z", 4),
];

/// Whether the first fault is this one, at the front, and the cursor stays there.
fn is_fault(bytes: &[u8], number: u8) -> bool {
    let mut cursor = Cursor::new(bytes);
    match cursor.time() {
        Ok(_) => false,
        Err(fault) => fault.number() == number && fault.offset == 0 && cursor.offset() == 0,
    }
}

fn expect_faults<R: Abort>(rt: &R, rows: &[(&[u8], u8)]) {
    for (bytes, number) in rows {
        assert!(rt; is_fault(bytes, *number));
    }
}

#[test]
fn tells_the_first_fault_of_a_time(rt: HostRuntime) {
    expect_faults(&rt, FAULTS);
}
