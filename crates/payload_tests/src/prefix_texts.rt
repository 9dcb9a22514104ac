//! Prefixes, AS numbers and payloads by hand. How prefixes are spelled is in rows of the commands `answer`, `route` and `units`.
use prefixes::{Asn, Family, IpPrefix, PrefixFault, V4, V6, Vrp};
use std::alloc::Global;
use std::process::Abort;

/// Texts with bits behind the length.
const HOST_BITS: &[&str] = &[
    "192.0.2.1/24",
    "0.0.0.1/0",
    "8000::/0",
    "2001:db8::1/64",
    "2001:0DB8::CD30/60",
];

/// Texts of a length over that of an address.
const TOO_LONG: &[&str] = &[
    "192.0.2.0/33",
    "192.0.2.1/33",
    "192.0.2.0/256",
    "192.0.2.0/999",
    "::/129",
    "::1/256",
    "::/999",
];

/// Texts of no prefix.
const BAD_TEXT: &[&str] = &[
    "192.0.2.0/1000",
    "::/4294967296",
    "::/01",
    "::/+1",
    "::",
    "",
    " ::/0",
    "192.0.02.0/24",
    "192.0.2/24",
    "192.0.256.0/24",
    "::1.2.3.4/128",
    "1::2::3/64",
    "::1:2:3:4:5:6:7:8/128",
    "1:2:3:4:5:6:7/128",
    "12345::/16",
    "fe80::%1/128",
];

fn expect_refused<R: Abort>(rt: &R, texts: &[&str], want: &PrefixFault) {
    for text in texts {
        assert!(rt; IpPrefix::parse(text).err() == Some(*want));
    }
}

#[test]
fn other_text_is_refused(rt: HostRuntime) {
    expect_refused(&rt, HOST_BITS, &PrefixFault::HostBits);
    expect_refused(&rt, TOO_LONG, &PrefixFault::TooLong);
    expect_refused(&rt, BAD_TEXT, &PrefixFault::BadText);
}

const NUMBERS: &[(&str, u32)] = &[("0", 0), ("64496", 64496), ("4294967295", 4294967295)];

const NO_NUMBERS: &[&str] = &[
    "",
    " 1",
    "1 ",
    "01",
    "00",
    "+1",
    "-1",
    "1.0",
    "0x1",
    "AS1",
    "4294967296",
    "99999999999",
];

/// Whether this text is read as this number, and is what it is written as.
fn is_number(alloc: Global, text: &str, number: u32) -> bool {
    match Asn(number).to_string(alloc) {
        Ok(shown) => shown.as_str() == text && Asn::parse(text) == Ok(Asn(number)),
        Err(_) => false,
    }
}

fn expect_numbers<R: Abort>(rt: &R, alloc: Global, rows: &[(&str, u32)]) {
    for (text, number) in rows {
        assert!(rt; is_number(alloc, text, *number));
    }
}

fn expect_no_numbers<R: Abort>(rt: &R, texts: &[&str]) {
    for text in texts {
        assert!(rt; Asn::parse(text) == Err(PrefixFault::BadText));
    }
}

#[test]
fn numbers_are_read_and_written(rt: HostRuntime) {
    expect_numbers(&rt, rt.alloc(), NUMBERS);
    expect_no_numbers(&rt, NO_NUMBERS);
}

/// Prefixes, maximum lengths, and whether they fit.
const MAXIMA: &[(&str, u8, bool)] = &[
    ("192.0.2.0/24", 23, false),
    ("192.0.2.0/24", 24, true),
    ("192.0.2.0/24", 32, true),
    ("192.0.2.0/24", 33, false),
    ("::/0", 128, true),
    ("::/0", 129, false),
];

/// Whether a payload of this prefix and this maximum is made, or refused for its maximum.
fn is_judged(text: &str, max_len: u8, fits: bool) -> bool {
    let Ok(prefix) = IpPrefix::parse(text) else {
        return false;
    };
    match Vrp::new(prefix, max_len, Asn(64496)) {
        Ok(vrp) => fits && vrp.max_len() == max_len,
        Err(fault) => !fits && fault == PrefixFault::MaxLength,
    }
}

fn expect_judged<R: Abort>(rt: &R, rows: &[(&str, u8, bool)]) {
    for (text, max_len, fits) in rows {
        assert!(rt; is_judged(text, *max_len, *fits));
    }
}

#[test]
fn maximum_lengths_are_checked(rt: HostRuntime) {
    expect_judged(&rt, MAXIMA);
}

/// Prefixes, and whether the first covers the second.
const COVERS: &[(&str, &str, bool)] = &[
    ("192.0.2.0/24", "192.0.2.0/24", true),
    ("192.0.2.0/24", "192.0.2.128/25", true),
    ("192.0.2.128/25", "192.0.2.0/24", false),
    ("192.0.2.0/24", "192.0.3.0/24", false),
    ("0.0.0.0/0", "::/0", false),
    ("::/0", "2001:db8::/32", true),
];

/// Whether both are prefixes, and the first covers the second.
fn covers(text: &str, other: &str) -> Option<bool> {
    match (IpPrefix::parse(text), IpPrefix::parse(other)) {
        (Ok(p), Ok(q)) => Some(p.covers(&q)),
        _ => None,
    }
}

fn expect_covers<R: Abort>(rt: &R, rows: &[(&str, &str, bool)]) {
    for (text, other, want) in rows {
        assert!(rt; covers(text, other) == Some(*want));
    }
}

#[test]
fn shorter_prefixes_cover_longer_ones(rt: HostRuntime) {
    expect_covers(&rt, COVERS);
}

#[test]
fn families_have_their_numbers(rt: HostRuntime) {
    assert!(rt; (V4::WIDTH, V4::AFI) == (32, 1));
    assert!(rt; (V6::WIDTH, V6::AFI) == (128, 2));
}
