//! Writing the ROAPayloadSet of an AS, each element from its members outwards (RFC 9582 section 4).

ghost use Rattle.std.specs.Prelude.{◌≡◌, ◌-◌, ◌*◌, ◌^◌, ◌≤◌, ◌<◌, ◌++◌, length, map, IfOk, OnOk};
ghost use Rattle.std.specs.Int.{bytes_high_first};
ghost use Rattle.prefixes.specs.Payload.{block_of, width_of};
ghost use Rattle.payloads.specs.RoaBytes.{address_content, maximum_bytes, entry_bytes, families_bytes};
ghost use Rattle.der_lite.specs.Der.{BIT_STRING};
ghost use Rattle.der_lite.specs.Writing.{Adds};
ghost use Rattle.ccr.specs.Families.{addresses_of, element_of};
ghost use Rattle.ccr.specs.Canonical.{entry_of, payload_set};

use crate::family::Family;
use der_lite::{Bits, DerWriter};
use payloads::RoaEntry;
use prefixes::{Asn, IpPrefix, Vrp};
use std::alloc::{AllocError, Global};

/// Adds the ROAPayloadSet of an AS: its number, and the entries of its VRPs. Without memory nothing is added.
#[tactic(auto, unfolding(crate::specs::Canonical::payload_set))]
pub(crate) fn add_payload_set(
    alloc: Global,
    sets: &mut DerWriter,
    asn: Asn,
    vrps: &[Vrp],
) -> Result<(), AllocError>
    requires { length vrps.now ≤ 16777215 }
    ensures { OnOk result (sets.new ≡ sets.old ++ payload_set asn.0 vrps.now) }
{
    let families = families(alloc, vrps)?;
    let mut members = DerWriter::new(alloc);
    members.unsigned(asn.0)?;
    members.sequence(families.as_slice())?;
    sets.sequence(members.as_slice())
}

/// The families of the VRPs, IPv4 before IPv6 (4.3).
fn families(alloc: Global, vrps: &[Vrp]) -> Result<DerWriter, AllocError>
    requires { length vrps.now ≤ 16777215 }
    ensures { IfOk result (λ families. families ≡ families_bytes (map entry_of vrps.now)) }
{
    let ipv4 = addresses(alloc, Family::Ipv4, vrps)?;
    let ipv6 = addresses(alloc, Family::Ipv6, vrps)?;
    let mut families = DerWriter::new(alloc);
    add_family(alloc, &mut families, Family::Ipv4, ipv4.as_slice())?;
    add_family(alloc, &mut families, Family::Ipv6, ipv6.as_slice())?;
    Ok(families)
}

/// Adds a family and the list of its addresses, unless the list is empty (4.3.1). Without memory
/// nothing is added.
fn add_family(
    alloc: Global,
    families: &mut DerWriter,
    family: Family,
    list: &[u8],
) -> Result<(), AllocError>
    requires { length list.now < 1000000000 }
    ensures { OnOk result (families.new ≡ families.old ++ element_of family list.now) }
{
    if list.is_empty() {
        return Ok(());
    }
    let mut members = DerWriter::new(alloc);
    members.octets(&[0, family.number()])?;
    members.sequence(list)?;
    families.sequence(members.as_slice())
}

/// The entry of a VRP. Its maximum length is left out if it is the length of the prefix (4.3.2.2).
fn entry_of(vrp: &Vrp) -> RoaEntry
    ensures { result ≡ entry_of vrp.now }
{
    let prefix = vrp.prefix();
    let max_len = if vrp.max_len() == prefix.len() {
        None
    } else {
        Some(vrp.max_len())
    };
    RoaEntry { prefix, max_len }
}

/// The addresses of the VRPs of this family, in their order (4.3.1).
fn addresses(alloc: Global, family: Family, vrps: &[Vrp]) -> Result<DerWriter, AllocError>
    ensures { IfOk result (λ list. list ≡ addresses_of family (map entry_of vrps.now)) }
{
    let mut list = DerWriter::new(alloc);
    for vrp in vrps {
        let entry = entry_of(vrp);
        if family.has(&entry.prefix) {
            add_entry(alloc, &mut list, &entry.prefix, entry.max_len)?;
        }
    }
    Ok(list)
}

/// Adds an entry: its address, and the maximum length if it has one (4.3.2). Without memory nothing
/// is added.
fn add_entry(
    alloc: Global,
    list: &mut DerWriter,
    prefix: &IpPrefix,
    max_len: Option<u8>,
) -> Result<(), AllocError>
    ensures { OnOk result (list.new ≡ list.old ++ entry_bytes (record { prefix = prefix.now; max_len = max_len })) }
{
    let mut members = DerWriter::new(alloc);
    add_address(&mut members, prefix)?;
    add_maximum(&mut members, max_len)?;
    list.sequence(members.as_slice())
}

/// Adds a maximum length if there is one (4.3.2.2). Without memory nothing is added.
fn add_maximum(members: &mut DerWriter, max_len: Option<u8>) -> Result<(), AllocError>
    ensures { OnOk result (members.new ≡ members.old ++ maximum_bytes max_len) }
{
    match max_len {
        None => Ok(()),
        Some(max_len) => members.unsigned(u32::from(max_len)),
    }
}

/// Adds the bits of a prefix (4.3.2.1). Without memory nothing is added.
fn add_address(members: &mut DerWriter, prefix: &IpPrefix) -> Result<(), AllocError>
    ensures { Adds result BIT_STRING (address_content prefix.now) members.old members.new }
{
    let octets = octets(prefix);
    let len = usize::from(prefix.len());
    let count = (len + 7) / 8;
    let unused = (8 * count - len) as u8;
    members.bits(Bits {
        unused,
        bytes: &octets[..count],
    })
}

/// The bytes of an address, and zeros behind those of IPv4.
fn octets(prefix: &IpPrefix) -> [u8; 16]
    ensures { result ≡ bytes_high_first 16 ((block_of prefix.now).addr * 2 ^ (128 - width_of prefix.now)) }
{
    match prefix {
        IpPrefix::V4(prefix) => (prefix.addr() << 96).to_be_bytes(),
        IpPrefix::V6(prefix) => prefix.addr().to_be_bytes(),
    }
}
