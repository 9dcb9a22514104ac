//! What can be wrong with a certificate and its resources.

ghost use Rattle.std.specs.Prelude.{◌≡◌};

use resource_certificates::CertificateFault;
use resources::ResourceFault;
use std::alloc::AllocError;
use thiserror::Error;

/// What is wrong with a certificate or with its resources.
#[derive(Clone, Copy, Debug, PartialEq, Eq, Error)]
pub enum ResourceCertificateFault {
    /// It is no certificate in its role (RFC 6487 section 4).
    #[error("certificate: {0}")]
    Certificate(CertificateFault),
    /// The value of ipAddrBlocks is not canonical (RFC 3779 section 2).
    #[error("ipAddrBlocks: {0}")]
    Addresses(ResourceFault),
    /// The value of autonomousSysIds is not canonical (RFC 3779 section 3).
    #[error("autonomousSysIds: {0}")]
    AsNumbers(ResourceFault),
}

/// Why a certificate and its resources cannot be read.
#[derive(Clone, Copy, Debug, PartialEq, Eq, Error)]
pub enum ResourceCertificateError {
    /// This is the first fault.
    #[error(transparent)]
    At(ResourceCertificateFault),
    /// Out of memory.
    #[error("out of memory")]
    Memory,
}

impl From<CertificateFault> for ResourceCertificateError {
    ghost use Rattle.point_validation.specs.declared.resource_fault.ResourceCertificateError.TheVariants.{At};
    ghost use Rattle.point_validation.specs.declared.resource_fault.ResourceCertificateFault.TheVariants.{Certificate};

    ghost from_gives = { λ fault error. error ≡ At (Certificate fault) };

    fn from(fault: CertificateFault) -> ResourceCertificateError {
        ResourceCertificateError::At(ResourceCertificateFault::Certificate(fault))
    }
}

impl From<AllocError> for ResourceCertificateError {
    ghost use Rattle.point_validation.specs.declared.resource_fault.ResourceCertificateError.TheVariants.{Memory};

    ghost from_gives = { λ _ error. error ≡ Memory };

    fn from(_error: AllocError) -> ResourceCertificateError {
        ResourceCertificateError::Memory
    }
}
