//! What can be wrong with the resources of a certificate.

ghost use Rattle.std.specs.Prelude.{◌≡◌};
ghost use Rattle.resources.specs.Faults.{kind_number};

use der_lite::{DerFault, DerFaultKind};
use std::alloc::AllocError;
use thiserror::Error;

/// What is wrong with the resources of a certificate. Each kind has a fixed number, which ends its text.
#[derive(Clone, Copy, Debug, PartialEq, Eq, Error)]
pub enum ResourceFaultKind {
    /// 1 to 5: an element is not in DER.
    #[error("{0}")]
    Element(DerFaultKind),
    /// 6: an address has more bits than those of its family have (RFC 3779 section 2.1.1).
    #[error("an address has more bits than those of its family have (fault 6)")]
    AddressLength,
    /// 7: min of a range ends in a 0 bit, or max in a 1 bit (RFC 3779 section 2.2.3.9).
    #[error("min of a range ends in a 0 bit, or max in a 1 bit (fault 7)")]
    Bound,
    /// 8: max of a range is below min (RFC 3779 sections 2.2.3.9 and 3.2.3.9).
    #[error("max of a range is below min (fault 8)")]
    Order,
    /// 9: a range is one prefix, or one AS number (RFC 3779 sections 2.2.3.7 and 3.2.3.5).
    #[error("a range is one prefix, or one AS number (fault 9)")]
    Single,
    /// 10: a list has no blocks (RFC 6487 sections 4.8.10 and 4.8.11).
    #[error("the list has no blocks (fault 10)")]
    Empty,
    /// 11: the blocks of a list do not ascend, or overlap, or touch (RFC 3779 sections 2.2.3.6 and 3.2.3.4).
    #[error("the blocks do not ascend, or overlap, or touch (fault 11)")]
    Touching,
    /// 12: addressFamily is not IPv4 or IPv6 without a SAFI (RFC 3779 section 2.2.3.3, RFC 6487 section 4.8.10).
    #[error("addressFamily is not IPv4 or IPv6 without a SAFI (fault 12)")]
    Family,
    /// 13: the families do not ascend, or one comes twice (RFC 3779 section 2.2.3.3).
    #[error("the families do not ascend, or one comes twice (fault 13)")]
    FamilyOrder,
    /// 14: an AS number is negative, or 2^32 or above (RFC 6793).
    #[error("the AS number is not from 0 to 4294967295 (fault 14)")]
    AsNumber,
    /// 15: inherit, which is NULL, has a content (X.690 section 8.8).
    #[error("inherit has a content (fault 15)")]
    Inherit,
    /// 16: something follows asnum, such as rdi (RFC 6487 section 4.8.11).
    #[error("something follows asnum, such as rdi (fault 16)")]
    RoutingDomains,
}

impl ResourceFaultKind {
    /// The number of the kind, 1 to 16.
    pub fn number(self) -> u8
        ensures { result ≡ kind_number self }
    {
        match self {
            ResourceFaultKind::Element(kind) => kind.number(),
            ResourceFaultKind::AddressLength => 6,
            ResourceFaultKind::Bound => 7,
            ResourceFaultKind::Order => 8,
            ResourceFaultKind::Single => 9,
            ResourceFaultKind::Empty => 10,
            ResourceFaultKind::Touching => 11,
            ResourceFaultKind::Family => 12,
            ResourceFaultKind::FamilyOrder => 13,
            ResourceFaultKind::AsNumber => 14,
            ResourceFaultKind::Inherit => 15,
            ResourceFaultKind::RoutingDomains => 16,
        }
    }

    /// This, at an offset.
    pub(crate) fn at(self, offset: usize) -> ResourceFault
        ensures { result ≡ record { kind = self; offset = offset } }
    {
        ResourceFault { kind: self, offset }
    }
}

/// What is wrong with the resources of a certificate, and at which offset.
#[derive(Clone, Copy, Debug, PartialEq, Eq, Error)]
#[error("at byte {offset}: {kind}")]
pub struct ResourceFault {
    /// What is wrong.
    pub kind: ResourceFaultKind,
    /// The offset of the first byte of the element that is wrong, in bytes from the start of the extension's value. For surplus bytes it is the
    /// offset of the first of them.
    pub offset: usize,
}

impl From<DerFault> for ResourceFault {
    ghost use Rattle.resources.specs.declared.fault.ResourceFaultKind.TheVariants.{Element};

    ghost from_gives = { λ der fault. fault ≡ record { kind = Element der.kind; offset = der.offset } };

    fn from(fault: DerFault) -> ResourceFault {
        ResourceFault {
            kind: ResourceFaultKind::Element(fault.kind),
            offset: fault.offset,
        }
    }
}

/// Why resources cannot be read.
#[derive(Clone, Copy, Debug, PartialEq, Eq, Error)]
pub enum ResourceError {
    /// The octets are not resources in canonical form. This is the first fault.
    #[error(transparent)]
    At(ResourceFault),
    /// Out of memory.
    #[error("out of memory")]
    Memory,
}

impl From<ResourceFault> for ResourceError {
    ghost use Rattle.resources.specs.declared.fault.ResourceError.TheVariants.{At};

    ghost from_gives = { λ fault error. error ≡ At fault };

    fn from(fault: ResourceFault) -> ResourceError {
        ResourceError::At(fault)
    }
}

impl From<DerFault> for ResourceError {
    ghost use Rattle.resources.specs.declared.fault.ResourceFaultKind.TheVariants.{Element};
    ghost use Rattle.resources.specs.declared.fault.ResourceError.TheVariants.{At};

    ghost from_gives = { λ der error. error ≡ At (record { kind = Element der.kind; offset = der.offset }) };

    fn from(fault: DerFault) -> ResourceError {
        ResourceError::At(ResourceFault {
            kind: ResourceFaultKind::Element(fault.kind),
            offset: fault.offset,
        })
    }
}

impl From<AllocError> for ResourceError {
    ghost use Rattle.resources.specs.declared.fault.ResourceError.TheVariants.{Memory};

    ghost from_gives = { λ _ error. error ≡ Memory };

    fn from(_error: AllocError) -> ResourceError {
        ResourceError::Memory
    }
}
