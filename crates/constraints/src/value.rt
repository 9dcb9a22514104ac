//! What the words after `allow` and `deny` say.

ghost use Rattle.std.specs.Prelude.{◌≡◌, ◌⊎◌, ℕ, ◌+◌, ◌-◌, ◌%◌, ◌^◌, ◌<◌, ◌≤◌, MatchOption};
ghost use Rattle.std.specs.Char.{is_ascii_digit};
ghost use Rattle.std.specs.List.{list_all};
ghost use Rattle.std.specs.Str.{IsAscii, IsNotAscii};
ghost use Rattle.prefixes.specs.Text.{IsV6Address, v4_address};
ghost use Rattle.prefixes.specs.TextSteps.{IsOnly};
ghost use Rattle.prefix_texts.specs.MixedText.{IsMixedAddress};
ghost use Rattle.constraints.specs.Values.{same_kind as same_kind_of, range_from as range_from_of, addresses_of as addresses_of_prefix, is_dash as is_dash_of};
ghost use Rattle.constraints.specs.Values.{ReadsNumber, ReadsAddress, ReadsAddresses, ReadsEnd, ReadsRange, ReadsOne};

use crate::ConstraintFaultKind;
use prefix_texts::parse_prefix;
use prefixes::{Asn, IpPrefix, PrefixFault};
use resources::{ResourceKind, ResourceRange};
use std::net::{Ipv4Addr, Ipv6Addr};
use std::str::from_utf8;

/// Numbers of one kind.
#[derive(Clone, Copy)]
pub(crate) struct Numbers {
    pub(crate) kind: ResourceKind,
    pub(crate) range: ResourceRange,
}

/// An end of a range.
#[derive(Clone, Copy)]
struct End {
    kind: ResourceKind,
    number: u128,
}

/// A word of ASCII as a text.
fn ascii_text(word: &[u8]) -> Option<&str>
    ensures { MatchOption result (IsNotAscii word.now) (λ t. (t.now ≡ word.now) × IsAscii word.now) }
{
    if !word.is_ascii() {
        return None;
    }
    match from_utf8(word) {
        Ok(text) => Some(text),
        Err(_) => None,
    }
}

/// Whether all bytes are decimal digits.
fn are_digits(bytes: &[u8]) -> bool
    ensures { result ≡ list_all is_ascii_digit bytes.now }
{
    bytes.iter().all(u8::is_ascii_digit)
}

/// An AS number.
fn read_number(text: &str) -> Result<u32, ConstraintFaultKind>
    ensures { ReadsNumber text.now result }
{
    match Asn::parse(text) {
        Ok(number) => Ok(number.0),
        Err(_) => Err(ConstraintFaultKind::AsNumber),
    }
}

/// The IPv4 address that a text spells, as a number.
fn v4_number(text: &str) -> Option<u32>
    ensures { IsOnly (2 ^ 32) (λ n. text.now ≡ v4_address n) result }
{
    match text.parse::<Ipv4Addr>() {
        Ok(address) => Some(address.to_bits()),
        Err(_) => None,
    }
}

/// The IPv6 address that a text spells in plain or in mixed notation, as a number.
fn v6_number(text: &str) -> Option<u128>
    ensures { IsOnly (2 ^ 128) (λ n. IsV6Address n text.now ⊎ IsMixedAddress n text.now) result }
{
    match text.parse::<Ipv6Addr>() {
        Ok(address) => Some(address.to_bits()),
        Err(_) => None,
    }
}

/// An address.
fn read_address(text: &str) -> Result<End, ConstraintFaultKind>
    ensures { ReadsAddress text.now result }
{
    if let Some(number) = v4_number(text) {
        return Ok(End {
            kind: ResourceKind::Ipv4,
            number: u128::from(number),
        });
    }
    match v6_number(text) {
        Some(number) => Ok(End {
            kind: ResourceKind::Ipv6,
            number,
        }),
        None => Err(ConstraintFaultKind::Value),
    }
}

/// An end of a range.
fn read_end(word: &[u8]) -> Result<End, ConstraintFaultKind>
    ensures { ReadsEnd word.now result }
{
    let Some(text) = ascii_text(word) else {
        return Err(ConstraintFaultKind::NotAscii);
    };
    if are_digits(word) {
        let number = read_number(text)?;
        return Ok(End {
            kind: ResourceKind::As,
            number: u128::from(number),
        });
    }
    read_address(text)
}

/// Whether two kinds are the same.
fn same_kind(kind: ResourceKind, other: ResourceKind) -> bool
    ensures { result ≡ same_kind_of kind other }
{
    match (kind, other) {
        (ResourceKind::Ipv4, ResourceKind::Ipv4) => true,
        (ResourceKind::Ipv6, ResourceKind::Ipv6) => true,
        (ResourceKind::As, ResourceKind::As) => true,
        _ => false,
    }
}

/// The numbers from one end to the other.
fn range_from(low: End, high: End) -> Result<Numbers, ConstraintFaultKind>
    ensures { result ≡ range_from_of low high }
{
    if !same_kind(low.kind, high.kind) {
        return Err(ConstraintFaultKind::Families);
    }
    if high.number < low.number {
        return Err(ConstraintFaultKind::Order);
    }
    Ok(Numbers {
        kind: low.kind,
        range: ResourceRange {
            low: low.number,
            high: high.number,
        },
    })
}

/// A range.
pub(crate) fn read_range(begin: &[u8], end: &[u8]) -> Result<Numbers, ConstraintFaultKind>
    ensures { ReadsRange begin.now end.now result }
{
    let low = read_end(begin)?;
    let high = read_end(end)?;
    range_from(low, high)
}

/// The number of this many ones.
fn ones(count: u8) -> u128
    requires { count ≤ 128 }
    ensures { result + 1 ≡ 2 ^ count }
{
    if count == 128 {
        return u128::MAX;
    }
    (1u128 << count) - 1
}

/// The last address that begins as this one does.
fn last_address(addr: u128, width: u8, len: u8) -> u128
    requires within { len ≤ width }
    requires narrow { width ≤ 128 }
    requires small { addr < 2 ^ width }
    requires host { addr % 2 ^ (width - len) ≡ 0 }
    ensures { result ≡ addr + 2 ^ (width - len) - 1 }
{
    addr + ones(width - len)
}

/// The addresses of a prefix.
fn addresses_of(prefix: &IpPrefix) -> Numbers
    ensures { result ≡ addresses_of_prefix prefix.now }
{
    match prefix {
        IpPrefix::V4(p) => Numbers {
            kind: ResourceKind::Ipv4,
            range: ResourceRange {
                low: p.addr(),
                high: last_address(p.addr(), 32, p.len()),
            },
        },
        IpPrefix::V6(p) => Numbers {
            kind: ResourceKind::Ipv6,
            range: ResourceRange {
                low: p.addr(),
                high: last_address(p.addr(), 128, p.len()),
            },
        },
    }
}

/// A prefix.
fn read_addresses(text: &str) -> Result<Numbers, ConstraintFaultKind>
    ensures { ReadsAddresses text.now result }
{
    match parse_prefix(text) {
        Ok(prefix) => Ok(addresses_of(&prefix)),
        Err(fault) => match fault {
            PrefixFault::TooLong => Err(ConstraintFaultKind::TooLong),
            PrefixFault::HostBits => Err(ConstraintFaultKind::HostBits),
            _ => Err(ConstraintFaultKind::Value),
        },
    }
}

/// One word: an AS number, or a prefix.
pub(crate) fn read_one(word: &[u8]) -> Result<Numbers, ConstraintFaultKind>
    ensures { ReadsOne word.now result }
{
    let Some(text) = ascii_text(word) else {
        return Err(ConstraintFaultKind::NotAscii);
    };
    if are_digits(word) {
        let number = u128::from(read_number(text)?);
        return Ok(Numbers {
            kind: ResourceKind::As,
            range: ResourceRange {
                low: number,
                high: number,
            },
        });
    }
    read_addresses(text)
}

/// A dash, in bytes.
const DASH: [u8; 1] = [0x2d];

/// Whether a word is a dash.
pub(crate) fn is_dash(word: &[u8]) -> bool
    ensures { result ≡ is_dash_of word.now }
{
    word == DASH.as_slice()
}
