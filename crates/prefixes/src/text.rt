//! Prefixes and AS numbers as text.
ghost use Rattle.std.specs.Prelude.{◌≡◌, ℕ, ◌<◌, ◌^◌, ◌↔◌, IsTrue, Some};
ghost use Rattle.std.specs.Fmt.{decimal};
ghost use Rattle.prefixes.specs.TextSteps.{BeginsNumeral, IsOnly, IsBlockJudged};
ghost use Rattle.prefixes.specs.Text.{IsV6Address, v4_address};

use crate::asn::Asn;
use crate::family::Family;
use crate::fault::PrefixFault;
use crate::prefix::{IpPrefix, Prefix};
use crate::route::Route;
use crate::vrp::Vrp;
use std::fmt::{self, Debug, Display};
use std::net::{Ipv4Addr, Ipv6Addr};
use std::str::FromStr;

impl IpPrefix {
    ghost use Rattle.prefixes.specs.Text.{PrefixText, ReadsAs};

    /// Reads a prefix from a text (RFC 4632 section 3.1, RFC 4291 sections 2.2 and 2.3): an address, a slash, and the length in bits.
    /// The length is one to three decimal digits without a leading zero. An IPv6 address must not contain dotted decimal.
    /// Errors, in this order: `BadText`: the text has another form. `TooLong`: the length is greater than the width of the family. `HostBits`: a
    /// bit beyond the length is set.
    pub fn parse(text: &str) -> Result<IpPrefix, PrefixFault>
        ensures reads { ReadsAs text.now result }
        ensures only { (p : IpPrefix) → PrefixText p text.now → result ≡ Ok p }
    {
        let Some((address, length)) = text.split_once('/') else {
            return Err(PrefixFault::BadText);
        };
        let Some(len) = number(length) else {
            return Err(PrefixFault::BadText);
        };
        if 1000 <= len {
            return Err(PrefixFault::BadText);
        }
        if let Some(addr) = v4_number(address) {
            return Ok(IpPrefix::V4(judged(addr as u128, len)?));
        }
        let Some(addr) = v6_number(address) else {
            return Err(PrefixFault::BadText);
        };
        Ok(IpPrefix::V6(judged(addr, len)?))
    }
}

/// Writes the address, a slash, and the length in decimal. IPv4 is written in dotted decimal.
/// IPv6 is written as in RFC 5952 section 4: lower case, no leading zeros, `::` for the first longest run of two or more zero groups. IPv6 is
/// never written with dotted decimal.
impl Display for IpPrefix {
    ghost use Rattle.prefixes.specs.Text.{written_text};

    ghost output = { λ p. Some (written_text p) };

    fn fmt<W: fmt::Write>(&self, f: &mut fmt::Formatter<W>) -> fmt::Result {
        match self {
            IpPrefix::V4(p) => {
                let address = Ipv4Addr::from_bits(p.addr() as u32);
                write!(f, "{}/{}", address, p.len())
            }
            IpPrefix::V6(p) => {
                let address = Ipv6Addr::from_bits(p.addr());
                write!(f, "{}/{}", address.hex_groups(), p.len())
            }
        }
    }
}

/// Writes the text that `Display` writes.
impl Debug for IpPrefix {
    fn fmt<W: fmt::Write>(&self, f: &mut fmt::Formatter<W>) -> fmt::Result {
        Display::fmt(self, f)
    }
}

/// Reads a prefix as `IpPrefix::parse` does.
impl FromStr for IpPrefix {
    type Err = PrefixFault;

    ghost use Rattle.prefixes.specs.Text.{ReadsAs};

    ghost from_str_gives = { λ text result. ReadsAs text result };

    fn from_str(text: &str) -> Result<IpPrefix, PrefixFault> {
        IpPrefix::parse(text)
    }
}

/// Writes the address as one hexadecimal number with `0x`, a slash, and the length in decimal.
impl<F: Family> Debug for Prefix<F> {
    fn fmt<W: fmt::Write>(&self, f: &mut fmt::Formatter<W>) -> fmt::Result {
        write!(f, "{:#x}/{}", self.addr(), self.len())
    }
}

impl Asn {
    ghost use Rattle.prefixes.specs.Text.{ReadsAsNumber};

    /// Reads an AS number in decimal digits without a leading zero, from 0 to 4294967295 (RFC 5396, "asplain").
    /// `BadText`: any other text, also one with `AS` before the digits. It is the only error.
    pub fn parse(text: &str) -> Result<Asn, PrefixFault>
        ensures { ReadsAsNumber text.now result }
    {
        match number(text) {
            Some(n) => Ok(Asn(n)),
            None => Err(PrefixFault::BadText),
        }
    }
}

/// Reads an AS number as `Asn::parse` does.
impl FromStr for Asn {
    type Err = PrefixFault;

    ghost use Rattle.prefixes.specs.Text.{ReadsAsNumber};

    ghost from_str_gives = { λ text result. ReadsAsNumber text result };

    fn from_str(text: &str) -> Result<Asn, PrefixFault> {
        Asn::parse(text)
    }
}

/// Writes the number in decimal without `AS` (RFC 5396, "asplain").
impl Display for Asn {
    ghost output = { λ a. Some (decimal a.0) };

    fn fmt<W: fmt::Write>(&self, f: &mut fmt::Formatter<W>) -> fmt::Result {
        write!(f, "{}", self.0)
    }
}

/// Writes the prefix, the maximum length and the AS number, separated by blanks: `192.0.2.0/24 26 64496`.
impl Display for Vrp {
    ghost use Rattle.prefixes.specs.Text.{vrp_text};

    ghost output = { λ v. Some (vrp_text v) };

    fn fmt<W: fmt::Write>(&self, f: &mut fmt::Formatter<W>) -> fmt::Result {
        write!(f, "{} {} {}", self.prefix(), self.max_len(), self.asn())
    }
}

/// Writes the prefix, a blank, and the origin AS number or `none`: `192.0.2.0/24 64496`. Commands read a route in this form.
impl Display for Route {
    ghost use Rattle.prefixes.specs.Text.{route_text};

    ghost output = { λ r. Some (route_text r) };

    fn fmt<W: fmt::Write>(&self, f: &mut fmt::Formatter<W>) -> fmt::Result {
        match self.origin {
            Some(asn) => write!(f, "{} {}", self.prefix, asn),
            None => write!(f, "{} none", self.prefix),
        }
    }
}

/// The prefix of this address and this length, or the first fault: a length over the width, then host bits.
fn judged<F: Family>(addr: u128, len: u32) -> Result<Prefix<F>, PrefixFault>
    requires { addr < 2 ^ F.WIDTH }
    ensures { IsBlockJudged F.WIDTH (record { addr = addr; len = len }) result }
{
    if len > F::WIDTH as u32 {
        return Err(PrefixFault::TooLong);
    }
    Prefix::new(addr, len as u8)
}

/// The IPv4 address that a text spells, as a number.
fn v4_number(text: &str) -> Option<u32>
    ensures { IsOnly (2 ^ 32) (λ addr. text.now ≡ v4_address addr) result }
{
    match text.parse::<Ipv4Addr>() {
        Ok(address) => Some(address.to_bits()),
        Err(_) => None,
    }
}

/// The IPv6 address that a text spells, as a number.
fn v6_number(text: &str) -> Option<u128>
    ensures { IsOnly (2 ^ 128) (λ addr. IsV6Address addr text.now) result }
{
    if text.contains('.') {
        return None;
    }
    match text.parse::<Ipv6Addr>() {
        Ok(address) => Some(address.to_bits()),
        Err(_) => None,
    }
}

/// The number that a text writes in decimal digits without leading zeros.
fn number(text: &str) -> Option<u32>
    ensures { IsOnly (2 ^ 32) (λ n. text.now ≡ decimal n) result }
{
    if !begins_number(text.as_bytes()) {
        return None;
    }
    match text.parse::<u32>() {
        Ok(n) => Some(n),
        Err(_) => None,
    }
}

/// Whether a text begins as a number without leading zeros does: with no sign, and with 0 only if 0 is all of it.
fn begins_number(bytes: &[u8]) -> bool
    ensures { IsTrue result ↔ BeginsNumeral bytes.now }
{
    !bytes.is_empty() && b'0' <= bytes[0] && (bytes[0] != b'0' || bytes.len() == 1)
}
