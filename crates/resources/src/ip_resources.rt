//! IPAddrBlocks (RFC 3779 section 2.2.3, RFC 6487 section 4.8.10).

ghost use Rattle.std.specs.Prelude.{◌≡◌, option_map};
ghost use Rattle.der_lite.specs.Fields.{optional_at};
ghost use Rattle.resources.specs.Gives.{GivesNext, GivesOrMemory, GivesAllOrMemory, Reads};
ghost use Rattle.resources.specs.Resources.{ip_value, are_ascending as are_ascending_of, ip_of};
ghost use Rattle.resources.specs.Reading.{family_at, address_family_at, ip_addr_blocks_at, ip_all};

use crate::choice::choice;
use crate::{ResourceChoice, ResourceError, ResourceFault, ResourceFaultKind, ResourceKind};
use der_lite::Cursor;
use std::alloc::Global;

/// What a certificate says of IP addresses.
#[derive(Debug, Drop)]
pub struct IpResources {
    /// What it says of IPv4 addresses. `None`: nothing, so it has none.
    pub v4: Option<ResourceChoice>,
    /// What it says of IPv6 addresses. `None`: nothing, so it has none.
    pub v6: Option<ResourceChoice>,
}

/// addressFamily.
#[tactic(auto, unfolding(crate::specs::Reading::family_at, der_lite::specs::DerReading::content_at))]
fn family(cursor: &mut Cursor) -> Result<ResourceKind, ResourceFault>
    ensures { GivesNext (λ kind. kind) result cursor.new (family_at cursor.old) }
{
    let offset = cursor.offset();
    match cursor.octets()? {
        [0, 1] => Ok(ResourceKind::Ipv4),
        [0, 2] => Ok(ResourceKind::Ipv6),
        _ => Err(ResourceFaultKind::Family.at(offset)),
    }
}

/// IPAddressFamily.
#[derive(Drop)]
struct AddressFamily {
    kind: ResourceKind,
    choice: ResourceChoice,
}

/// IPAddressFamily.
#[tactic(auto, unfolding(crate::specs::Reading::address_family_at))]
fn address_family(alloc: Global, cursor: &mut Cursor) -> Result<AddressFamily, ResourceError>
    ensures { GivesOrMemory (λ f. (f.kind, f.choice)) result cursor.new (address_family_at cursor.old) }
{
    let mut members = cursor.sequence()?;
    let kind = family(&mut members)?;
    let choice = choice(alloc, &mut members, kind)?;
    members.finish()?;
    Ok(AddressFamily { kind, choice })
}

/// A further family, if bytes remain, and the end.
fn second_family(alloc: Global, members: Cursor) -> Result<Option<AddressFamily>, ResourceError>
    ensures { GivesAllOrMemory (λ o. option_map (λ f. (f.kind, f.choice)) o) result (optional_at address_family_at members.entry) }
{
    let mut members = members;
    if members.at_end() {
        return Ok(None);
    }
    let family = address_family(alloc, &mut members)?;
    members.finish()?;
    Ok(Some(family))
}

/// Whether the families ascend.
fn are_ascending(first: &AddressFamily, second: &Option<AddressFamily>) -> bool
    ensures { result ≡ are_ascending_of ((first.now.kind, first.now.choice), option_map (λ f. (f.kind, f.choice)) second.now) }
{
    match second {
        None => true,
        Some(other) => first.kind == ResourceKind::Ipv4 && other.kind == ResourceKind::Ipv6,
    }
}

/// What is said of each family.
fn resources_of(first: AddressFamily, second: Option<AddressFamily>) -> IpResources
    ensures { result ≡ ip_of ((first.kind, first.choice), option_map (λ f. (f.kind, f.choice)) second) }
{
    match first.kind {
        ResourceKind::Ipv6 => IpResources {
            v4: None,
            v6: Some(first.choice),
        },
        _ => IpResources {
            v4: Some(first.choice),
            v6: second.map(|family| family.choice),
        },
    }
}

/// IPAddrBlocks.
#[tactic(auto, unfolding(crate::specs::Reading::ip_addr_blocks_at))]
fn ip_addr_blocks(alloc: Global, cursor: &mut Cursor) -> Result<IpResources, ResourceError>
    ensures { GivesOrMemory (λ ip. ip) result cursor.new (ip_addr_blocks_at cursor.old) }
{
    let offset = cursor.offset();
    let mut members = cursor.sequence()?;
    let first = address_family(alloc, &mut members)?;
    let second = second_family(alloc, members)?;
    if !are_ascending(&first, &second) {
        return Err(ResourceError::At(ResourceFaultKind::FamilyOrder.at(offset)));
    }
    Ok(resources_of(first, second))
}

/// IPAddrBlocks, and the end.
#[tactic(auto, unfolding(crate::specs::Reading::ip_all))]
fn whole_ip(alloc: Global, value: &[u8]) -> Result<IpResources, ResourceError>
    ensures { GivesAllOrMemory (λ ip. ip) result (ip_all value.now) }
{
    let mut whole = Cursor::new(value);
    let ip = ip_addr_blocks(alloc, &mut whole)?;
    whole.finish()?;
    Ok(ip)
}

/// Reads the content of the extnValue of ipAddrBlocks (RFC 3779 section 2.2.3, RFC 6487 section 4.8.10). It has to be DER in canonical form. The
/// families are IPv4, or IPv6, or IPv4 and then IPv6, without a SAFI. Each has `inherit`, or a list that is not empty.
///
/// `At`: the first fault, with its offset in `value`. Bytes that follow are a fault. `Memory`: memory ran out.
pub fn read_ip_blocks(alloc: Global, value: &[u8]) -> Result<IpResources, ResourceError>
    ensures { Reads ip_value result value.now }
{
    whole_ip(alloc, value)
}
