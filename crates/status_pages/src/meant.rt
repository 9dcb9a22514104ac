//! The route that a visitor probably meant, of texts that are none.
ghost use Rattle.std.specs.Prelude.{◌≡◌, ◌-◌, ◌%◌, ◌^◌};

use prefix_texts::parse_asn;
use prefixes::{Asn, IpPrefix, Prefix, Route};
use std::net::{Ipv4Addr, Ipv6Addr};

/// The route that these texts probably mean: without blanks around them. `as` is as good as `AS`. An address alone is its own prefix. Bits after
/// the length are cleared. `None`: there is no guess.
pub(crate) fn meant_route(asn: &str, prefix: &str) -> Option<Route> {
    let origin = meant_asn(asn.trim())?;
    Some(Route {
        prefix: meant_prefix(prefix.trim())?,
        origin: Some(origin.0),
    })
}

/// The AS number that a text probably means.
fn meant_asn(text: &str) -> Option<Asn> {
    match parse_asn(text) {
        Some(asn) => Some(asn),
        None => parse_asn(text.strip_prefix("as")?.trim()),
    }
}

/// The prefix that a text probably means.
fn meant_prefix(text: &str) -> Option<IpPrefix> {
    let Some((address, length)) = text.split_once('/') else {
        return of_address(text, None);
    };
    match length.trim().parse::<u8>() {
        Ok(len) => of_address(address.trim(), Some(len)),
        Err(_) => None,
    }
}

/// The prefix of this length that has an address. Without a length it has this address alone.
fn of_address(address: &str, len: Option<u8>) -> Option<IpPrefix> {
    if let Ok(v4) = address.parse::<Ipv4Addr>() {
        return v4_prefix(v4.to_bits(), len.unwrap_or(32));
    }
    match address.parse::<Ipv6Addr>() {
        Ok(v6) => v6_prefix(v6.to_bits(), len.unwrap_or(128)),
        Err(_) => None,
    }
}

/// The prefix of this length that has an IPv4 address.
fn v4_prefix(address: u32, len: u8) -> Option<IpPrefix> {
    match Prefix::new(cleared(u128::from(address), 32, len), len) {
        Ok(prefix) => Some(IpPrefix::V4(prefix)),
        Err(_) => None,
    }
}

/// The prefix of this length that has an IPv6 address.
fn v6_prefix(address: u128, len: u8) -> Option<IpPrefix> {
    match Prefix::new(cleared(address, 128, len), len) {
        Ok(prefix) => Some(IpPrefix::V6(prefix)),
        Err(_) => None,
    }
}

/// An address of this width, in which the bits after this length are cleared.
fn cleared(address: u128, width: u8, len: u8) -> u128
    ensures { result ≡ address - address % 2 ^ (width - len) }
{
    let host = width.saturating_sub(len);
    if host >= 128 {
        return 0;
    }
    address - address % (1u128 << host)
}
