//! What the subject of a certificate holds.

ghost use Rattle.std.specs.Prelude.{◌≡◌, Some, IfOk};
ghost use Rattle.resources.specs.declared.choice.ResourceChoice.TheVariants.{Listed};
ghost use Rattle.point_validation.specs.Held.{families as families_of, SameNumbers, TakesKind, TakesEach};

use crate::ResourceExtensions;
use resources::{IpResources, ResourceChoice, ResourceKind, ResourceRange, ResourceSet};
use std::alloc::{AllocError, Global};

/// The resources that the subject of a certificate holds.
#[derive(Debug, Drop)]
pub struct HeldResources {
    /// IPv4 addresses.
    pub v4: ResourceSet,
    /// IPv6 addresses.
    pub v6: ResourceSet,
    /// AS numbers.
    pub as_numbers: ResourceSet,
}

/// Why it is not known what is held.
#[derive(Clone, Copy)]
pub(crate) enum HoldError {
    /// The issuer does not hold all resources of this kind that are listed.
    Excess(ResourceKind),
    /// Out of memory.
    Memory,
}

impl From<AllocError> for HoldError {
    ghost use Rattle.point_validation.specs.declared.held.HoldError.TheVariants.{Memory};

    ghost from_gives = { λ _ error. error ≡ Memory };

    fn from(_error: AllocError) -> HoldError {
        HoldError::Memory
    }
}

/// A set of the same numbers.
fn copied(alloc: Global, set: &ResourceSet) -> Result<ResourceSet, AllocError>
    ensures { IfOk result (λ copy. SameNumbers copy set.now) }
{
    set.with(alloc, ResourceRange { low: 1, high: 0 })
}

/// A set that is listed, if the issuer holds it.
fn listed(
    kind: ResourceKind,
    set: ResourceSet,
    issuer: &ResourceSet,
) -> Result<ResourceSet, HoldError>
    ensures { TakesKind kind result (Some (Listed set)) issuer.now }
{
    if set.is_within(issuer) {
        Ok(set)
    } else {
        Err(HoldError::Excess(kind))
    }
}

/// What is held of one kind.
fn hold_kind(
    alloc: Global,
    kind: ResourceKind,
    choice: Option<ResourceChoice>,
    issuer: &ResourceSet,
) -> Result<ResourceSet, HoldError>
    ensures { TakesKind kind result choice issuer.now }
{
    match choice {
        None => Ok(ResourceSet::empty(alloc)),
        Some(ResourceChoice::Inherit) => Ok(copied(alloc, issuer)?),
        Some(ResourceChoice::Listed(set)) => listed(kind, set, issuer),
    }
}

/// What is said of each family.
fn families(ip: Option<IpResources>) -> IpResources
    ensures { result ≡ families_of ip }
{
    match ip {
        Some(ip) => ip,
        None => IpResources { v4: None, v6: None },
    }
}

/// What the subject of a certificate that says this holds, if its issuer holds these resources (RFC 6487 section 7.2).
pub(crate) fn hold(
    alloc: Global,
    said: ResourceExtensions,
    issuer: &HeldResources,
) -> Result<HeldResources, HoldError>
    ensures { TakesEach result said issuer.now }
{
    let ip = families(said.ip);
    let v4 = hold_kind(alloc, ResourceKind::Ipv4, ip.v4, &issuer.v4)?;
    let v6 = hold_kind(alloc, ResourceKind::Ipv6, ip.v6, &issuer.v6)?;
    let as_numbers = hold_kind(alloc, ResourceKind::As, said.as_ids, &issuer.as_numbers)?;
    Ok(HeldResources { v4, v6, as_numbers })
}
