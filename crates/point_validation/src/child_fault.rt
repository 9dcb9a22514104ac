//! Why an authority did not certify another one.

ghost use Rattle.std.specs.Prelude.{◌≡◌};

use crate::held::HoldError;
use crate::{ResourceCertificateError, ResourceCertificateFault};
use issuing::IssueFault;
use resources::ResourceKind;
use thiserror::Error;

/// Why a certificate does not make its subject an authority at a moment (RFC 6487 section 7.2).
#[derive(Clone, Copy, Debug, PartialEq, Eq, Error)]
pub enum ChildFault {
    /// It is not the certificate of an authority, or its resources are not canonical.
    #[error("{0}")]
    Certificate(ResourceCertificateFault),
    /// The authority did not issue it, or it does not count at the moment.
    #[error("{0}")]
    Issue(IssueFault),
    /// It lists resources of this kind that the authority does not hold. The first of IPv4 addresses, IPv6 addresses, and AS numbers is reported.
    #[error("it lists resources that the authority does not hold")]
    Excess(ResourceKind),
    /// Out of memory.
    #[error("out of memory")]
    Memory,
}

impl From<ResourceCertificateError> for ChildFault {
    ghost use Rattle.point_validation.specs.ChildFaults.{of_certificate};

    ghost from_gives = { λ error fault. fault ≡ of_certificate error };

    fn from(error: ResourceCertificateError) -> ChildFault {
        match error {
            ResourceCertificateError::At(fault) => ChildFault::Certificate(fault),
            ResourceCertificateError::Memory => ChildFault::Memory,
        }
    }
}

impl From<IssueFault> for ChildFault {
    ghost use Rattle.point_validation.specs.declared.child_fault.ChildFault.TheVariants.{Issue};

    ghost from_gives = { λ reason fault. fault ≡ Issue reason };

    fn from(reason: IssueFault) -> ChildFault {
        ChildFault::Issue(reason)
    }
}

impl From<HoldError> for ChildFault {
    ghost use Rattle.point_validation.specs.ChildFaults.{of_holding};

    ghost from_gives = { λ error fault. fault ≡ of_holding error };

    fn from(error: HoldError) -> ChildFault {
        match error {
            HoldError::Excess(kind) => ChildFault::Excess(kind),
            HoldError::Memory => ChildFault::Memory,
        }
    }
}
