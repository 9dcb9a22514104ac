//! PDUs of the RPKI-to-Router protocol. Blanks part the fields as RFC 8210 section 5 draws them, and bars part the PDUs.
use crate::hex::{Bytes, bytes};

/// The bytes of these PDUs, one after the other.
pub fn all_of(units: &[&str]) -> Bytes {
    let mut all = Bytes::new();
    for unit in units {
        let _fits = all.try_extend_from_slice(bytes(unit).as_slice());
    }
    all
}

/// A PDU of version 1 that is no Error Report, as it is in version 0. The End of Data has 12 bytes, without intervals (RFC 6810 section
/// 5.8). All others differ in the version byte alone.
fn plain_in_0(unit: &[u8]) -> Bytes {
    let mut all = Bytes::new();
    for (at, &byte) in unit.iter().enumerate() {
        let is_end = unit.get(1) == Some(&7);
        let told = match at {
            0 => 0,
            7 if is_end => 12,
            _ => byte,
        };
        if !is_end || at < 12 {
            let _fits = all.try_push(told);
        }
    }
    all
}

/// The same, also of an Error Report, which copies a PDU as that is in version 0.
fn in_0(unit: &[u8]) -> Bytes {
    let copy = match (unit.get(1), unit.get(11)) {
        (Some(10), Some(&len)) if len > 0 => unit.get(12..usize::from(len).saturating_add(12)),
        _ => None,
    };
    let (Some(copy), Some(code)) = (copy, unit.get(2..4)) else {
        return plain_in_0(unit);
    };
    let copy = plain_in_0(copy);
    let mut all = Bytes::new();
    let _fits = all.try_extend_from_slice(&[0, 10]);
    let _fits = all.try_extend_from_slice(code);
    let len = (copy.len() % 128) as u8;
    let _fits = all.try_extend_from_slice(&[0, 0, 0, len + 16, 0, 0, 0, len]);
    let _fits = all.try_extend_from_slice(copy.as_slice());
    let _fits = all.try_extend_from_slice(&[0, 0, 0, 0]);
    all
}

/// The bytes of PDUs that are spelled in version 1, as they are in the version of this number.
pub fn bytes_in(version: u8, text: &str) -> Bytes {
    let mut all = Bytes::new();
    for part in text.split('|') {
        let unit = bytes(part);
        let unit = if version == 0 {
            in_0(unit.as_slice())
        } else {
            unit
        };
        let _fits = all.try_extend_from_slice(unit.as_slice());
    }
    all
}

pub const RESET_QUERY: &str = "01 02 0000 00000008";

/// What changed since serial 5 of session 4660?
pub const SERIAL_QUERY: &str = "01 01 1234 0000000c 00000005";

/// A Cache Response of session 4660.
pub const RESPONSE: &str = "01 03 1234 00000008";

/// 192.0.2.0/24 up to 24 of AS 64496, announced.
pub const V: &str = "01 04 0000 00000014 01 18 18 00 c0000200 0000fbf0";

/// The same, withdrawn.
pub const V_WITHDRAWN: &str = "01 04 0000 00000014 00 18 18 00 c0000200 0000fbf0";

/// 198.51.100.0/24 up to 24 of AS 64497, announced.
pub const W: &str = "01 04 0000 00000014 01 18 18 00 c6336400 0000fbf1";

/// 2001:db8::/32 up to 48 of AS 64499, announced.
pub const Y: &str = "01 06 0000 00000020 01 20 30 00 20010db8000000000000000000000000 0000fbf3";

/// An End of Data: serial 5 of session 4660, with the intervals that the standard recommends.
pub const END_5: &str = "01 07 1234 00000018 00000005 00000e10 00000258 00001c20";

/// The same with serial 6, 7 and 0.
pub const END_6: &str = "01 07 1234 00000018 00000006 00000e10 00000258 00001c20";

pub const END_7: &str = "01 07 1234 00000018 00000007 00000e10 00000258 00001c20";

pub const END_0: &str = "01 07 1234 00000018 00000000 00000e10 00000258 00001c20";

/// The whole answer of a cache whose serial 5 of session 4660 has v alone.
pub const ANSWER: &str =
    "01 03 1234 00000008 | 01 04 0000 00000014 01 18 18 00 c0000200 0000fbf0 | 01 07 1234 00000018 00000005 00000e10 00000258 00001c20";

/// The answer of that cache to a router that has serial 5.
pub const UNCHANGED: &str =
    "01 03 1234 00000008 | 01 07 1234 00000018 00000005 00000e10 00000258 00001c20";

pub const CACHE_RESET: &str = "01 08 0000 00000008";

/// v in version 0, announced.
pub const V_0: &str = "00 04 0000 00000014 01 18 18 00 c0000200 0000fbf0";

/// The whole answer of that cache in version 0, in which its session is 4660 too.
pub const ANSWER_0: &str =
    "00 03 1234 00000008 | 00 04 0000 00000014 01 18 18 00 c0000200 0000fbf0 | 00 07 1234 0000000c 00000005";
