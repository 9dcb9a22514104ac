//! Reading a ROAPayloadSet, the RouteOriginAttestation of an AS (RFC 9582 section 4), from top to bottom. It has any number of entries.

ghost use Rattle.std.specs.Prelude.{◌≡◌, ◌++◌, ◌∷◌, [], false, IfOk, OnOk, map, option_copied, option_map, ⊤};
ghost use Rattle.payloads.specs.RoaEntries.{is_bad_maximum, is_not_above, payload_of};
ghost use Rattle.payloads.specs.RoaReading.{as_id_at, address_family_at, address_at, maximum_at, entry_at};
ghost use Rattle.payloads.specs.RoaValues.{all_entries, entries_of, payloads_of};
ghost use Rattle.ccr.specs.Families.{of_roa};
ghost use Rattle.ccr.specs.PayloadSet.{is_not_above as is_as_not_above};
ghost use Rattle.ccr.specs.PayloadSetReading.{entries_at, addresses_at, ip_family_at, number_of, payloads_from, second_at, blocks_at, payload_set_at};
ghost use Rattle.ccr.specs.Faults.{EndsAt, GivesNext, GivesAll, ListsPayloads};

use crate::bits::prefix_of;
use crate::family::Family;
use crate::{CcrFault, CcrFaultKind, ReadCcrError};
use der_lite::{Cursor, DerFault, DerFaultKind, unsigned};
use payloads::{GrammarFaultKind, RoaEntry};
use prefixes::{Asn, IpPrefix, Vrp};
use std::alloc::AllocError;

/// The tag of an explicitly tagged version.
const EXPLICIT_0: u8 = 0xa0;

/// A fault of a RouteOriginAttestation, at an offset.
fn fault(kind: GrammarFaultKind, offset: usize) -> CcrFault
    ensures { result ≡ record { kind = CcrFaultKind.PayloadSet kind; offset = offset } }
{
    CcrFaultKind::PayloadSet(kind).at(offset)
}

/// asID INTEGER (0..4294967295) (4.2). A version (tag `a0`) in its place is `VersionPresent` (4.1).
#[tactic(auto, unfolding(payloads::specs::RoaReading::as_id_at))]
fn as_id(cursor: &mut Cursor) -> Result<Asn, CcrFault>
    ensures { GivesNext (λ asn. asn.0) result cursor.new (as_id_at cursor.old) }
{
    let offset = cursor.offset();
    let has_version = cursor.peek_tag() == Some(EXPLICIT_0);
    let content = match cursor.integer() {
        Ok(content) => content,
        Err(der) if has_version && der.kind == DerFaultKind::WrongTag => {
            return Err(fault(GrammarFaultKind::VersionPresent, der.offset));
        }
        Err(der) => return Err(CcrFault::from(der)),
    };
    match unsigned(content) {
        Some(number) => Ok(Asn(number)),
        None => Err(fault(GrammarFaultKind::AsnRange, offset)),
    }
}

/// addressFamily OCTET STRING (SIZE(2)), after the family before it (4.3.1).
#[tactic(auto, unfolding(payloads::specs::RoaReading::address_family_at))]
fn address_family(cursor: &mut Cursor, before: Option<Family>) -> Result<Family, CcrFault>
    ensures { GivesNext of_roa result cursor.new (address_family_at (option_map of_roa before) cursor.old) }
{
    let offset = cursor.offset();
    let family = match cursor.octets()? {
        [0, 1] => Family::Ipv4,
        [0, 2] => Family::Ipv6,
        _ => return Err(fault(GrammarFaultKind::Family, offset)),
    };
    match (before, family) {
        (None, _) | (Some(Family::Ipv4), Family::Ipv6) => Ok(family),
        (Some(Family::Ipv6), Family::Ipv4) => Err(fault(GrammarFaultKind::Order, offset)),
        _ => Err(fault(GrammarFaultKind::Family, offset)),
    }
}

/// address BIT STRING (SIZE(0..ub)) (4.3.2).
#[tactic(auto, unfolding(payloads::specs::RoaReading::address_at))]
fn address(cursor: &mut Cursor, family: Family) -> Result<IpPrefix, CcrFault>
    ensures { GivesNext (λ prefix. prefix) result cursor.new (address_at (of_roa family) cursor.old) }
{
    let offset = cursor.offset();
    let bits = cursor.bits()?;
    let prefix = match family {
        Family::Ipv4 => prefix_of(bits).map(IpPrefix::V4),
        Family::Ipv6 => prefix_of(bits).map(IpPrefix::V6),
    };
    match prefix {
        Some(prefix) => Ok(prefix),
        None => Err(fault(GrammarFaultKind::PrefixTooLong, offset)),
    }
}

/// maxLength INTEGER (0..ub) OPTIONAL, over the length of the prefix, and the end of the ROAIPAddress (4.3.2).
#[tactic(auto, unfolding(payloads::specs::RoaReading::maximum_at, payloads::specs::RoaReading::max_length_at))]
fn maximum(members: Cursor, prefix: &IpPrefix) -> Result<Option<u8>, CcrFault>
    ensures exact { GivesAll (λ maximum. maximum) result (maximum_at prefix.now members.entry) }
    ensures right { IfOk result (λ maximum. is_bad_maximum (record { prefix = prefix.now; max_len = maximum }) ≡ false) }
{
    let mut members = members;
    let len = u32::from(prefix.len());
    if members.at_end() {
        return Ok(None);
    }
    let offset = members.offset();
    let width = match prefix {
        IpPrefix::V4(_) => 32,
        IpPrefix::V6(_) => 128,
    };
    let number = match unsigned(members.integer()?) {
        Some(number) if len <= number && number <= width => number,
        _ => return Err(fault(GrammarFaultKind::MaxLength, offset)),
    };
    if number == len {
        return Err(fault(GrammarFaultKind::MaxLengthSuperfluous, offset));
    }
    members.finish()?;
    Ok(Some(number as u8))
}

/// Whether an entry is not above the one before it in its family: by address, prefix length, maximum length.
fn is_not_above(entry: &RoaEntry, before: Option<&RoaEntry>) -> bool
    ensures { result ≡ is_not_above (option_copied before.entry) entry.now }
{
    match before {
        None => false,
        Some(before) => (entry.prefix, entry.greatest_length())
            <= (before.prefix, before.greatest_length()),
    }
}

/// ROAIPAddress, after the one before it in its family (4.3.2).
#[tactic(auto, unfolding(payloads::specs::RoaReading::entry_at))]
fn entry(
    cursor: &mut Cursor,
    family: Family,
    before: Option<&RoaEntry>,
) -> Result<RoaEntry, CcrFault>
    ensures exact { GivesNext (λ entry. entry) result cursor.new (entry_at (of_roa family) 0 (option_copied before.entry) cursor.old) }
    ensures right { IfOk result (λ entry. is_bad_maximum entry ≡ false) }
{
    let offset = cursor.offset();
    let mut members = cursor.sequence()?;
    let prefix = address(&mut members, family)?;
    let max_len = maximum(members, &prefix)?;
    let entry = RoaEntry { prefix, max_len };
    if is_not_above(&entry, before) {
        return Err(fault(GrammarFaultKind::Order, offset));
    }
    Ok(entry)
}

/// Adds what an entry validates for the AS.
fn add_vrp(vrps: &mut Vec<Vrp>, asn: Asn, entry: &RoaEntry) -> Result<(), AllocError>
    requires { is_bad_maximum entry.now ≡ false }
    ensures { OnOk result (vrps.new.items ≡ vrps.old.items ++ payload_of asn.0 entry.now ∷ []) }
{
    vrps.push(Vrp::new(entry.prefix, entry.greatest_length(), asn).unwrap())?;
    Ok(())
}

/// SEQUENCE OF ROAIPAddress of a family, to the end (4.3.1).
fn each_entry(
    members: Cursor,
    family: Family,
    asn: Asn,
    vrps: &mut Vec<Vrp>,
) -> Result<(), ReadCcrError>
    ensures { ListsPayloads (λ _ _. ⊤) (map (payload_of asn.0)) result vrps.old.items vrps.new.items (entries_at (of_roa family) members.entry) }
{
    let mut members = members;
    let mut before = None;
    while !members.at_end() {
        let entry = entry(&mut members, family, before.as_ref())?;
        add_vrp(vrps, asn, &entry)?;
        before = Some(entry);
    }
    Ok(())
}

/// addresses SEQUENCE (SIZE(1..MAX)) OF ROAIPAddress (4.3.1).
#[tactic(auto, unfolding(crate::specs::PayloadSetReading::addresses_at))]
fn addresses(
    cursor: &mut Cursor,
    family: Family,
    asn: Asn,
    vrps: &mut Vec<Vrp>,
) -> Result<(), ReadCcrError>
    ensures { ListsPayloads (λ _ read. read.1 ≡ cursor.new) (λ read. map (payload_of asn.0) read.0) result vrps.old.items vrps.new.items (addresses_at (of_roa family) cursor.old) }
{
    let offset = cursor.offset();
    let members = cursor.sequence()?;
    if members.at_end() {
        return Err(ReadCcrError::At(fault(GrammarFaultKind::Empty, offset)));
    }
    each_entry(members, family, asn, vrps)
}

/// ROAIPAddressFamily, after the family before it (4.3.1).
#[tactic(auto, unfolding(crate::specs::PayloadSetReading::ip_family_at))]
fn ip_family(
    cursor: &mut Cursor,
    before: Option<Family>,
    asn: Asn,
    vrps: &mut Vec<Vrp>,
) -> Result<Family, ReadCcrError>
    ensures { ListsPayloads (EndsAt (λ f. f.0) of_roa cursor.new) (λ read. payloads_from asn.0 read.0.1) result vrps.old.items vrps.new.items (ip_family_at (option_map of_roa before) cursor.old) }
{
    let mut members = cursor.sequence()?;
    let family = address_family(&mut members, before)?;
    addresses(&mut members, family, asn, vrps)?;
    members.finish()?;
    Ok(family)
}

/// A second ROAIPAddressFamily if bytes remain, and the end of ipAddrBlocks (4.3).
#[tactic(auto, unfolding(crate::specs::PayloadSetReading::second_at))]
fn second_family(
    members: Cursor,
    first: Family,
    asn: Asn,
    vrps: &mut Vec<Vrp>,
) -> Result<(), ReadCcrError>
    ensures { ListsPayloads (λ _ _. ⊤) (λ second. payloads_from asn.0 (entries_of second)) result vrps.old.items vrps.new.items (second_at (of_roa first) members.entry) }
{
    let mut members = members;
    if members.at_end() {
        return Ok(());
    }
    ip_family(&mut members, Some(first), asn, vrps)?;
    members.finish()?;
    Ok(())
}

/// ipAddrBlocks, a SEQUENCE (SIZE(1..2)) OF ROAIPAddressFamily (4.3).
#[tactic(auto, unfolding(crate::specs::PayloadSetReading::blocks_at))]
fn ip_addr_blocks(cursor: &mut Cursor, asn: Asn, vrps: &mut Vec<Vrp>) -> Result<(), ReadCcrError>
    ensures { ListsPayloads (λ _ read. read.1 ≡ cursor.new) (λ read. payloads_from asn.0 (all_entries read.0)) result vrps.old.items vrps.new.items (blocks_at cursor.old) }
{
    let offset = cursor.offset();
    let mut members = cursor.sequence()?;
    if members.at_end() {
        return Err(ReadCcrError::At(fault(GrammarFaultKind::Empty, offset)));
    }
    let first = ip_family(&mut members, None, asn, vrps)?;
    second_family(members, first, asn, vrps)
}

/// Whether the AS is not above the one before it.
fn is_as_not_above(before: Option<Asn>, asn: Asn) -> bool
    ensures { result ≡ is_as_not_above (number_of before) asn.0 }
{
    match before {
        None => false,
        Some(before) => asn.0 <= before.0,
    }
}

/// ROAPayloadSet, after that of another AS. Its VRPs go to `vrps`. The result is its AS.
#[tactic(auto, unfolding(crate::specs::PayloadSetReading::payload_set_at, crate::specs::PayloadSetReading::set_members_at))]
pub(crate) fn payload_set(
    cursor: &mut Cursor,
    before: Option<Asn>,
    vrps: &mut Vec<Vrp>,
) -> Result<Asn, ReadCcrError>
    ensures { ListsPayloads (EndsAt (λ s. s.asn) (λ a. a.0) cursor.new) (λ read. payloads_of read.0) result vrps.old.items vrps.new.items (payload_set_at (number_of before) cursor.old) }
{
    let offset = cursor.offset();
    let mut members = cursor.sequence()?;
    let asn = as_id(&mut members)?;
    ip_addr_blocks(&mut members, asn, vrps)?;
    members.finish()?;
    if is_as_not_above(before, asn) {
        return Err(ReadCcrError::At(CcrFaultKind::SetOrder.at(offset)));
    }
    Ok(asn)
}
