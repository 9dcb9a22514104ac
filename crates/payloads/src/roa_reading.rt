//! Reading the payload of a ROA, from top to bottom (RFC 9582 section 4).

ghost use Rattle.std.specs.Prelude.{◌≡◌, ◌==◌, ◌<◌, IfOk, IsTrue, Some, option_copied, ⊤};
ghost use Rattle.der_lite.specs.Der.{EXPLICIT_0, is_integer, tag_of};
ghost use Rattle.der_lite.specs.DerReading.{integer_at};
ghost use Rattle.der_lite.specs.Fields.{optional_at};
ghost use Rattle.payloads.specs.RoaReading.{with_version, as_id_at, address_family_at, address_at, max_length_at, maximum_at, entry_at, entries_at, addresses_at, ip_family_at, blocks_at, payload_at};
ghost use Rattle.payloads.specs.RoaValues.{entries_of, all_entries};
ghost use Rattle.payloads.specs.Gives.{GivesNext, GivesAll, ListsEntries};

use crate::roa_bits::prefix_of;
use crate::roa_entries::Entries;
use crate::roa_entry::LIMIT;
use crate::roa_family::AddressFamily;
use crate::{GrammarFault, GrammarFaultKind, RoaEntry};
use der_lite::{Bits, Cursor, DerFault, DerFaultKind, unsigned};
use prefixes::{Asn, IpPrefix, Prefix, V4, V6};

/// The tag of an explicitly tagged version.
const EXPLICIT_0: u8 = 0xa0;

/// The content of the INTEGER at the start of the outer SEQUENCE. A version (tag `a0`) in its place
/// is `VersionPresent` (4.1).
pub(crate) fn first_integer<'a>(cursor: &mut Cursor<'a>) -> Result<&'a [u8], GrammarFault>
    ensures exact { GivesNext (λ content. content.now) result cursor.new (with_version (tag_of cursor.old.rest == EXPLICIT_0) (integer_at cursor.old)) }
    ensures fewest { IfOk result (λ content. IsTrue (is_integer content.now)) }
{
    let has_version = cursor.peek_tag() == Some(EXPLICIT_0);
    match cursor.integer() {
        Ok(content) => Ok(content),
        Err(fault) if has_version && fault.kind == DerFaultKind::WrongTag => Err(
            GrammarFaultKind::VersionPresent.at(fault.offset),
        ),
        Err(fault) => Err(GrammarFault::from(fault)),
    }
}

/// asID INTEGER (0..4294967295) (4.2).
#[tactic(auto, unfolding(crate::specs::RoaReading::as_id_at))]
fn as_id(cursor: &mut Cursor) -> Result<Asn, GrammarFault>
    ensures { GivesNext (λ asn. asn.0) result cursor.new (as_id_at cursor.old) }
{
    let offset = cursor.offset();
    let content = first_integer(cursor)?;
    match unsigned(content) {
        Some(number) => Ok(Asn(number)),
        None => Err(GrammarFaultKind::AsnRange.at(offset)),
    }
}

/// addressFamily OCTET STRING (SIZE(2)), behind the family before it (4.3.1).
#[tactic(auto, unfolding(crate::specs::RoaReading::address_family_at))]
fn address_family(
    cursor: &mut Cursor,
    before: Option<AddressFamily>,
) -> Result<AddressFamily, GrammarFault>
    ensures { GivesNext (λ family. family) result cursor.new (address_family_at before cursor.old) }
{
    let offset = cursor.offset();
    let family = match cursor.octets()? {
        [0, 1] => AddressFamily::Ipv4,
        [0, 2] => AddressFamily::Ipv6,
        _ => return Err(GrammarFaultKind::Family.at(offset)),
    };
    match (before, family) {
        (None, _) | (Some(AddressFamily::Ipv4), AddressFamily::Ipv6) => Ok(family),
        (Some(AddressFamily::Ipv6), AddressFamily::Ipv4) => Err(GrammarFaultKind::Order.at(offset)),
        _ => Err(GrammarFaultKind::Family.at(offset)),
    }
}

/// address BIT STRING (SIZE(0..ub)) (4.3.2).
#[tactic(auto, unfolding(crate::specs::RoaReading::address_at))]
fn address(cursor: &mut Cursor, family: AddressFamily) -> Result<IpPrefix, GrammarFault>
    ensures { GivesNext (λ prefix. prefix) result cursor.new (address_at family cursor.old) }
{
    let offset = cursor.offset();
    let bits = cursor.bits()?;
    let prefix = match family {
        AddressFamily::Ipv4 => prefix_of(bits).map(IpPrefix::V4),
        AddressFamily::Ipv6 => prefix_of(bits).map(IpPrefix::V6),
    };
    match prefix {
        Some(prefix) => Ok(prefix),
        None => Err(GrammarFaultKind::PrefixTooLong.at(offset)),
    }
}

/// maxLength INTEGER (0..ub) OPTIONAL, over the length of the prefix, and the end of the
/// ROAIPAddress (4.3.2).
#[tactic(auto, unfolding(crate::specs::RoaReading::maximum_at, crate::specs::RoaReading::max_length_at))]
fn maximum(members: Cursor, prefix: &IpPrefix) -> Result<Option<u8>, GrammarFault>
    ensures { GivesAll (λ maximum. maximum) result (maximum_at prefix.now members.entry) }
{
    let mut members = members;
    if members.at_end() {
        return Ok(None);
    }
    let offset = members.offset();
    let width = match prefix {
        IpPrefix::V4(_) => 32,
        IpPrefix::V6(_) => 128,
    };
    let len = u32::from(prefix.len());
    let number = match unsigned(members.integer()?) {
        Some(number) if len <= number && number <= width => number,
        _ => return Err(GrammarFaultKind::MaxLength.at(offset)),
    };
    if number == len {
        return Err(GrammarFaultKind::MaxLengthSuperfluous.at(offset));
    }
    members.finish()?;
    Ok(Some(number as u8))
}

/// ROAIPAddress, behind this many entries of the payload, and behind the one before it in its
/// family (4.3.2).
#[tactic(auto, unfolding(crate::specs::RoaReading::entry_at))]
fn entry(
    cursor: &mut Cursor,
    family: AddressFamily,
    count: usize,
    before: Option<&RoaEntry>,
) -> Result<RoaEntry, GrammarFault>
    ensures exact { GivesNext (λ entry. entry) result cursor.new (entry_at family count (option_copied before.entry) cursor.old) }
    ensures few { IfOk result (λ _. count < 65536) }
{
    let offset = cursor.offset();
    let mut members = cursor.sequence()?;
    if count >= LIMIT {
        return Err(GrammarFaultKind::TooMany.at(offset));
    }
    let prefix = address(&mut members, family)?;
    let max_len = maximum(members, &prefix)?;
    let entry = RoaEntry { prefix, max_len };
    if entry.is_not_above(before) {
        return Err(GrammarFaultKind::Order.at(offset));
    }
    Ok(entry)
}

/// SEQUENCE OF ROAIPAddress of a family, to the end (4.3.1).
fn each_entry(
    members: Cursor,
    family: AddressFamily,
    entries: &mut Entries,
) -> Result<(), GrammarFault>
    ensures { ListsEntries (λ _ _. ⊤) (λ more. more) result entries.old entries.new (entries_at family entries.old.count members.entry) }
{
    let mut members = members;
    let mut before = None;
    while !members.at_end() {
        let entry = entry(&mut members, family, entries.count(), before.as_ref())?;
        entries.add(entry.prefix, entry.max_len);
        before = Some(entry);
    }
    Ok(())
}

/// addresses SEQUENCE (SIZE(1..MAX)) OF ROAIPAddress (4.3.1).
#[tactic(auto, unfolding(crate::specs::RoaReading::addresses_at))]
fn addresses(
    cursor: &mut Cursor,
    family: AddressFamily,
    entries: &mut Entries,
) -> Result<(), GrammarFault>
    ensures { ListsEntries (λ _ read. read.1 ≡ cursor.new) (λ read. read.0) result entries.old entries.new (addresses_at family entries.old.count cursor.old) }
{
    let offset = cursor.offset();
    let members = cursor.sequence()?;
    if members.at_end() {
        return Err(GrammarFaultKind::Empty.at(offset));
    }
    each_entry(members, family, entries)
}

/// ROAIPAddressFamily, behind the family before it (4.3.1).
#[tactic(auto, unfolding(crate::specs::RoaReading::ip_family_at))]
fn ip_family(
    cursor: &mut Cursor,
    before: Option<AddressFamily>,
    entries: &mut Entries,
) -> Result<AddressFamily, GrammarFault>
    ensures { ListsEntries (λ family read. (read.0.0 ≡ family) × (read.1 ≡ cursor.new)) (λ read. read.0.1) result entries.old entries.new (ip_family_at before entries.old.count cursor.old) }
{
    let mut members = cursor.sequence()?;
    let family = address_family(&mut members, before)?;
    addresses(&mut members, family, entries)?;
    members.finish()?;
    Ok(family)
}

/// A second ROAIPAddressFamily if bytes remain, and the end of ipAddrBlocks (4.3).
fn second_family(
    members: Cursor,
    first: AddressFamily,
    entries: &mut Entries,
) -> Result<(), GrammarFault>
    ensures { ListsEntries (λ _ _. ⊤) entries_of result entries.old entries.new (optional_at (ip_family_at (Some first) entries.old.count) members.entry) }
{
    let mut members = members;
    if members.at_end() {
        return Ok(());
    }
    ip_family(&mut members, Some(first), entries)?;
    members.finish()?;
    Ok(())
}

/// Reads ipAddrBlocks, a SEQUENCE (SIZE(1..2)) OF ROAIPAddressFamily (4.3). Its addresses go to `entries`.
#[tactic(auto, unfolding(crate::specs::RoaReading::blocks_at))]
fn ip_addr_blocks(cursor: &mut Cursor, entries: &mut Entries) -> Result<(), GrammarFault>
    requires { entries.old.count ≡ 0 }
    ensures { ListsEntries (λ _ read. read.1 ≡ cursor.new) (λ read. all_entries read.0) result entries.old entries.new (blocks_at cursor.old) }
{
    let offset = cursor.offset();
    let mut members = cursor.sequence()?;
    if members.at_end() {
        return Err(GrammarFaultKind::Empty.at(offset));
    }
    let first = ip_family(&mut members, None, entries)?;
    second_family(members, first, entries)
}

/// RouteOriginAttestation, and nothing behind it (4).
#[tactic(auto, unfolding(crate::specs::RoaReading::payload_at, crate::specs::RoaReading::attestation_at))]
pub(crate) fn route_origin_attestation(
    payload: &[u8],
    entries: &mut Entries,
) -> Result<Asn, GrammarFault>
    requires { entries.old.count ≡ 0 }
    ensures { ListsEntries (λ asn tree. tree.0 ≡ asn.0) (λ tree. all_entries tree.1) result entries.old entries.new (payload_at payload.now) }
{
    let mut whole = Cursor::new(payload);
    let mut members = whole.sequence()?;
    let asn = as_id(&mut members)?;
    ip_addr_blocks(&mut members, entries)?;
    members.finish()?;
    whole.finish()?;
    Ok(asn)
}
