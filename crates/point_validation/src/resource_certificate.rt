//! Certificates with what they say of resources.

ghost use Rattle.std.specs.Prelude.{◌≡◌, option_map};
ghost use Rattle.resources.specs.Resources.{ip_value, as_value};
ghost use Rattle.point_validation.specs.ResourceCertificates.{addresses_error as addresses_error_of, as_numbers_error as as_numbers_error_of, ReadsIfThere, ReadsExtensions, ReadsResourceCertificate};

use crate::{ResourceCertificateError, ResourceCertificateFault};
use resource_certificates::{Certificate, Role, read_certificate};
use resources::{IpResources, ResourceChoice, ResourceError, read_as_ids, read_ip_blocks};
use std::alloc::Global;

/// What a certificate says of its resources (RFC 6487 sections 4.8.10 and 4.8.11).
#[derive(Debug, Drop)]
pub struct ResourceExtensions {
    /// IP addresses. `None`: the certificate does not have the extension ipAddrBlocks.
    pub ip: Option<IpResources>,
    /// AS numbers. `None`: the certificate does not have the extension autonomousSysIds.
    pub as_ids: Option<ResourceChoice>,
}

/// A certificate of which the resource extensions were read too.
#[derive(Debug, Drop)]
pub struct ResourceCertificate<'a> {
    /// The certificate.
    pub certificate: Certificate<'a>,
    /// What it says of resources.
    pub extensions: ResourceExtensions,
}

/// The value of ipAddrBlocks, if it is there.
fn read_ip(alloc: Global, found: Option<&[u8]>) -> Result<Option<IpResources>, ResourceError>
    ensures { ReadsIfThere ip_value result (option_map (λ v. v.now) found.entry) }
{
    match found {
        Some(value) => Ok(Some(read_ip_blocks(alloc, value)?)),
        None => Ok(None),
    }
}

/// The value of autonomousSysIds, if it is there.
fn read_as(alloc: Global, found: Option<&[u8]>) -> Result<Option<ResourceChoice>, ResourceError>
    ensures { ReadsIfThere as_value result (option_map (λ v. v.now) found.entry) }
{
    match found {
        Some(value) => Ok(Some(read_as_ids(alloc, value)?)),
        None => Ok(None),
    }
}

/// What a certificate says of its resources.
fn read_extensions(
    alloc: Global,
    certificate: &Certificate,
) -> Result<ResourceExtensions, ResourceCertificateError>
    ensures { ReadsExtensions result certificate.now.tbs.found }
{
    let ip = match read_ip(alloc, certificate.ip_blocks()) {
        Ok(ip) => ip,
        Err(error) => return Err(addresses_error(error)),
    };
    match read_as(alloc, certificate.as_ids()) {
        Ok(as_ids) => Ok(ResourceExtensions { ip, as_ids }),
        Err(error) => Err(as_numbers_error(error)),
    }
}

/// Why ipAddrBlocks cannot be read.
fn addresses_error(error: ResourceError) -> ResourceCertificateError
    ensures { result ≡ addresses_error_of error }
{
    match error {
        ResourceError::At(fault) => {
            ResourceCertificateError::At(ResourceCertificateFault::Addresses(fault))
        }
        ResourceError::Memory => ResourceCertificateError::Memory,
    }
}

/// Why autonomousSysIds cannot be read.
fn as_numbers_error(error: ResourceError) -> ResourceCertificateError
    ensures { result ≡ as_numbers_error_of error }
{
    match error {
        ResourceError::At(fault) => {
            ResourceCertificateError::At(ResourceCertificateFault::AsNumbers(fault))
        }
        ResourceError::Memory => ResourceCertificateError::Memory,
    }
}

/// Reads a resource certificate in this role, with its resource extensions (RFC 6487 section 4, RFC 3779). Only the lists of ranges allocate memory.
///
/// `At`: the first fault. The certificate comes first, then ipAddrBlocks, then autonomousSysIds. `Memory`: memory ran out. Who issued the certificate,
/// its time, its signature, and whether its issuer holds its resources are not judged.
pub fn read_resource_certificate(
    alloc: Global,
    role: Role,
    bytes: &[u8],
) -> Result<ResourceCertificate<'_>, ResourceCertificateError>
    ensures { ReadsResourceCertificate role result bytes.now }
{
    let certificate = read_certificate(role, bytes)?;
    let extensions = read_extensions(alloc, &certificate)?;
    Ok(ResourceCertificate {
        certificate,
        extensions,
    })
}
