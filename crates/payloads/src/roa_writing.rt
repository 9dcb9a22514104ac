//! Writing the payload of a ROA, each element from its members outwards (RFC 9582 section 4).

ghost use Rattle.std.specs.Prelude.{◌≡◌, ◌-◌, ◌*◌, ◌^◌, ◌≤◌, ◌<◌, ◌++◌, length, IfOk, OnOk};
ghost use Rattle.std.specs.Int.{bytes_high_first};
ghost use Rattle.std.specs.List.{All};
ghost use Rattle.prefixes.specs.Payload.{block_of, width_of};
ghost use Rattle.payloads.specs.RoaEntries.{HasPrefix};
ghost use Rattle.payloads.specs.RoaValues.{RoaSpells};
ghost use Rattle.payloads.specs.RoaBytes.{address_content, maximum_bytes, entry_bytes, list_bytes, family_bytes, families_bytes};
ghost use Rattle.der_lite.specs.Der.{BIT_STRING};
ghost use Rattle.der_lite.specs.Writing.{Adds};

use crate::roa_family::AddressFamily;
use crate::{Roa, RoaEntry};
use der_lite::{Bits, DerWriter};
use prefixes::IpPrefix;
use std::alloc::{AllocError, Global};

/// Encodes a ROA as the DER of a RouteOriginAttestation (RFC 9582 section 4): the content of a signed object, without its signature. No other
/// bytes decode to this ROA. `Err`: memory ran out.
pub fn encode_roa(alloc: Global, roa: &Roa) -> Result<Vec<u8>, AllocError>
    ensures { IfOk result (λ bytes. RoaSpells roa.now bytes.items) }
{
    let entries = roa.entries();
    let families = families(alloc, entries)?;
    let mut members = DerWriter::new(alloc);
    members.unsigned(roa.asn().0)?;
    members.sequence(families.as_slice())?;
    let mut payload = DerWriter::new(alloc);
    payload.sequence(members.as_slice())?;
    know_prefixes(entries);
    Ok(payload.into_bytes())
}

/// The families of the entries, IPv4 before IPv6 (4.3).
fn families(alloc: Global, entries: &[RoaEntry]) -> Result<DerWriter, AllocError>
    requires { length entries.now ≤ 65536 }
    ensures { IfOk result (λ families. families ≡ families_bytes entries.now) }
{
    let ipv4 = addresses(alloc, AddressFamily::Ipv4, entries)?;
    let ipv6 = addresses(alloc, AddressFamily::Ipv6, entries)?;
    let mut families = DerWriter::new(alloc);
    add_family(alloc, &mut families, AddressFamily::Ipv4, ipv4.as_slice())?;
    add_family(alloc, &mut families, AddressFamily::Ipv6, ipv6.as_slice())?;
    Ok(families)
}

/// Adds a family and the list of its addresses, unless the list is empty (4.3.1). Without memory
/// nothing is added.
fn add_family(
    alloc: Global,
    families: &mut DerWriter,
    family: AddressFamily,
    list: &[u8],
) -> Result<(), AllocError>
    requires { length list.now < 4000000 }
    ensures { OnOk result (families.new ≡ families.old ++ family_bytes family list.now) }
{
    if list.is_empty() {
        return Ok(());
    }
    let mut members = DerWriter::new(alloc);
    members.octets(&[0, family.number()])?;
    members.sequence(list)?;
    families.sequence(members.as_slice())
}

/// The addresses of the entries of this family, in their order (4.3.1).
fn addresses(
    alloc: Global,
    family: AddressFamily,
    entries: &[RoaEntry],
) -> Result<DerWriter, AllocError>
    ensures { IfOk result (λ list. list ≡ list_bytes family entries.now) }
{
    let mut list = DerWriter::new(alloc);
    for entry in entries {
        if family.has(&entry.prefix) {
            add_entry(alloc, &mut list, &entry.prefix, entry.max_len)?;
        }
    }
    Ok(list)
}

/// Adds an entry: its address, and the maximum length if it has one (4.3.2). Without memory nothing
/// is added.
#[tactic(auto, unfolding(crate::specs::RoaBytes::entry_bytes))]
fn add_entry(
    alloc: Global,
    list: &mut DerWriter,
    prefix: &IpPrefix,
    max_len: Option<u8>,
) -> Result<(), AllocError>
    ensures { OnOk result (list.new ≡ list.old ++ entry_bytes (record { prefix = prefix.now; max_len = max_len })) }
{
    let mut members = DerWriter::new(alloc);
    add_address(&mut members, prefix)?;
    add_maximum(&mut members, max_len)?;
    list.sequence(members.as_slice())
}

/// Adds a maximum length if there is one (4.3.2.2). Without memory nothing is added.
fn add_maximum(members: &mut DerWriter, max_len: Option<u8>) -> Result<(), AllocError>
    ensures { OnOk result (members.new ≡ members.old ++ maximum_bytes max_len) }
{
    match max_len {
        None => Ok(()),
        Some(max_len) => members.unsigned(u32::from(max_len)),
    }
}

/// Adds the bits of a prefix (4.3.2.1). Without memory nothing is added.
fn add_address(members: &mut DerWriter, prefix: &IpPrefix) -> Result<(), AllocError>
    ensures { Adds result BIT_STRING (address_content prefix.now) members.old members.new }
{
    let octets = octets(prefix);
    let len = usize::from(prefix.len());
    let count = (len + 7) / 8;
    let unused = (8 * count - len) as u8;
    members.bits(Bits {
        unused,
        bytes: &octets[..count],
    })
}

/// The bytes of an address, and zeros behind those of IPv4.
fn octets(prefix: &IpPrefix) -> [u8; 16]
    ensures { result ≡ bytes_high_first 16 ((block_of prefix.now).addr * 2 ^ (128 - width_of prefix.now)) }
{
    match prefix {
        IpPrefix::V4(prefix) => (prefix.addr() << 96).to_be_bytes(),
        IpPrefix::V6(prefix) => prefix.addr().to_be_bytes(),
    }
}

/// Looks at each entry once. That its prefix is one is known of a value that is looked at.
fn know_prefixes(entries: &[RoaEntry])
    ensures { All HasPrefix entries.now }
{
    for entry in entries {
        let _len = entry.prefix.len();
    }
}
