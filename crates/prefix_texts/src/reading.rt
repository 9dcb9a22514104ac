//! Prefixes, read from text.
ghost use Rattle.std.specs.Prelude.{◌≡◌, ◌⊎◌, ℕ, ◌<◌, ◌^◌, Ok};
ghost use Rattle.std.specs.Fmt.{decimal};
ghost use Rattle.prefixes.specs.Address.{Block};
ghost use Rattle.prefixes.specs.Text.{IsV6Address};
ghost use Rattle.prefixes.specs.TextSteps.{IsBlockJudged, IsOnly};
ghost use Rattle.prefixes.specs.declared.prefix.IpPrefix.{IpPrefix as OfEither};
ghost use Rattle.prefix_texts.specs.MixedText.{IsMixedAddress, ReadsPrefix, SpellsPrefix};
ghost use Rattle.prefix_texts.specs.Steps.{ReadsV6};

use prefixes::{Asn, IpPrefix, Prefix, PrefixFault, V6};
use std::net::Ipv6Addr;

/// The number that a text writes in decimal digits without leading zeros.
fn number_in(text: &str) -> Option<u32>
    ensures { IsOnly (2 ^ 32) (λ n. text.now ≡ decimal n) result }
{
    match Asn::parse(text) {
        Ok(number) => Some(number.0),
        Err(_) => None,
    }
}

/// The IPv6 address that a text spells in plain or in mixed notation, as a number.
fn address_in(text: &str) -> Option<u128>
    ensures { IsOnly (2 ^ 128) (λ n. IsV6Address n text.now ⊎ IsMixedAddress n text.now) result }
{
    match text.parse::<Ipv6Addr>() {
        Ok(address) => Some(address.to_bits()),
        Err(_) => None,
    }
}

/// The prefix of this address and this length, or the first fault: a length over the width, then host bits.
fn judged(addr: u128, len: u32) -> Result<Prefix<V6>, PrefixFault>
    ensures { IsBlockJudged 128 (record { addr = addr; len = len }) result }
{
    if 128 < len {
        return Err(PrefixFault::TooLong);
    }
    Prefix::new(addr, len as u8)
}

/// The IPv6 prefix that a text spells in plain or in mixed notation.
fn v6_prefix(text: &str) -> Result<IpPrefix, PrefixFault>
    ensures { ReadsV6 text.now result }
{
    let Some((address, length)) = text.split_once('/') else {
        return Err(PrefixFault::BadText);
    };
    let Some(len) = number_in(length) else {
        return Err(PrefixFault::BadText);
    };
    if 1000 <= len {
        return Err(PrefixFault::BadText);
    }
    let Some(addr) = address_in(address) else {
        return Err(PrefixFault::BadText);
    };
    Ok(IpPrefix::V6(judged(addr, len)?))
}

/// Reads a prefix as `IpPrefix::parse` does, and also in mixed notation: the last 32 bits of an IPv6 address may be in dotted decimal (RFC 4291
/// section 2.2, form 3; RFC 5952 section 5).
/// Errors, in this order: `BadText`: the text has another form. `TooLong`: the length is greater than the width of the family. `HostBits`: a bit
/// beyond the length is set.
pub fn parse_prefix(text: &str) -> Result<IpPrefix, PrefixFault>
    ensures reads { ReadsPrefix text.now result }
    ensures only { (p : OfEither) → SpellsPrefix p text.now → result ≡ Ok p }
{
    match IpPrefix::parse(text) {
        Ok(prefix) => Ok(prefix),
        Err(fault) => match fault {
            PrefixFault::BadText => v6_prefix(text),
            _ => Err(fault),
        },
    }
}
