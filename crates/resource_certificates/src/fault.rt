//! What can be wrong with a certificate or a CRL.

ghost use Rattle.std.specs.Prelude.{◌≡◌};
ghost use Rattle.resource_certificates.specs.Faults.{kind_number};

use der_lite::{DerFault, DerFaultKind};
use std::alloc::AllocError;
use thiserror::Error;

/// What is wrong with a certificate or a CRL. Each kind has a fixed number, which ends its text.
#[derive(Clone, Copy, Debug, PartialEq, Eq, Error)]
pub enum CertificateFaultKind {
    /// 1 to 5: an element is not in DER.
    #[error("{0}")]
    Element(DerFaultKind),
    /// 6: the certificate is not of version 3 (RFC 6487 section 4.1).
    #[error("the version of the certificate is not 3 (fault 6)")]
    Version,
    /// 7: the serial number is negative, or longer than 20 octets (RFC 6487 section 4.2, RFC 5280 section 4.1.2.2).
    #[error("the serial number is negative, or longer than 20 octets (fault 7)")]
    Serial,
    /// 8: the signature's algorithm is not sha256WithRSAEncryption, or not the same inside and outside (RFC 7935 section 2).
    #[error("the algorithm of the signature is not sha256WithRSAEncryption, the same inside and outside (fault 8)")]
    SignatureAlgorithm,
    /// 9: a name is not one commonName and at most one serialNumber (RFC 6487 section 4.4).
    #[error("the name is not one commonName and at most one serialNumber (fault 9)")]
    Name,
    /// 10: a name does not have 1 to 64 characters of its string type (RFC 5280 appendix A.1).
    #[error("the name does not have 1 to 64 characters of its string type (fault 10)")]
    Characters,
    /// 11: a UTCTime is of the years 1950 to 1969 (RFC 5280 section 4.1.2.5.1).
    #[error("the time is of the years 1950 to 1969 (fault 11)")]
    Before1970,
    /// 12: notBefore is after notAfter (RFC 6487 section 4.6).
    #[error("notBefore is after notAfter (fault 12)")]
    Validity,
    /// 13: the key is not of rsaEncryption with NULL parameters (RFC 7935 section 3.1).
    #[error("the algorithm of the public key is not rsaEncryption with NULL parameters (fault 13)")]
    KeyAlgorithm,
    /// 14: the key is not an RSAPublicKey in DER with a modulus of 2,048 bits and the exponent 65537 (RFC 7935 section 3).
    #[error("the public key is not an RSAPublicKey of 2,048 bits with the exponent 65537 (fault 14)")]
    PublicKey,
    /// 15: no extensions follow the key of a certificate (RFC 6487 section 4.8).
    #[error("no extensions follow the key (fault 15)")]
    NoExtensions,
    /// 16: extKeyUsage is there (RFC 6487 section 4.8.5).
    #[error("the extension extKeyUsage is there (fault 16)")]
    ExtendedKeyUsage,
    /// 17: an extension comes twice (RFC 5280 section 4.2).
    #[error("an extension comes twice (fault 17)")]
    ExtensionTwice,
    /// 18: an extension that has to be critical is not, or one that may not be is (RFC 6487 section 4.8).
    #[error("an extension is critical and may not be, or is not and has to be (fault 18)")]
    Criticality,
    /// 19: the signature has unused bits (RFC 6487 section 4).
    #[error("the signature is not a string of whole bytes (fault 19)")]
    Signature,
    /// 20: basicConstraints is not cA TRUE alone, or is there in an end entity (RFC 6487 section 4.8.1).
    #[error("basicConstraints is not cA TRUE alone, or is there in an end entity (fault 20)")]
    BasicConstraints,
    /// 21: subjectKeyIdentifier is not the SHA-1 of the key (RFC 6487 section 4.8.2).
    #[error("subjectKeyIdentifier is not the SHA-1 of the key (fault 21)")]
    SubjectKey,
    /// 22: authorityKeyIdentifier is missing or not a keyIdentifier alone, or in a trust anchor of another key (RFC 6487 section 4.8.3).
    #[error("authorityKeyIdentifier is missing or not a keyIdentifier alone, or in a trust anchor of another key (fault 22)")]
    AuthorityKey,
    /// 23: keyUsage is not that of an authority or of an end entity (RFC 6487 section 4.8.4).
    #[error("keyUsage is not what the certificate is for (fault 23)")]
    KeyUsage,
    /// 24: cRLDistributionPoints is not one fullName with an rsync URI, or is there in a trust anchor (RFC 6487 section 4.8.6).
    #[error("cRLDistributionPoints is not one fullName with an rsync URI, or is there in a trust anchor (fault 24)")]
    DistributionPoints,
    /// 25: authorityInfoAccess has no rsync URI of caIssuers, or is there in a trust anchor (RFC 6487 section 4.8.7).
    #[error("authorityInfoAccess has no rsync URI of caIssuers, or is there in a trust anchor (fault 25)")]
    AuthorityInfo,
    /// 26: subjectInfoAccess does not have the rsync URIs of an authority or of an object, or another method, or the manifest is not in the
    /// repository (RFC 6487 section 4.8.8).
    #[error("subjectInfoAccess does not have the URIs that the certificate needs, or has others (fault 26)")]
    SubjectInfo,
    /// 27: certificatePolicies is not id-cp-ipAddr-asNumber with at most one qualifier, a CPS (RFC 6487 section 4.8.9, RFC 7318).
    #[error("certificatePolicies is not id-cp-ipAddr-asNumber with at most one qualifier, a CPS (fault 27)")]
    Policies,
    /// 28: the policy is id-cp-ipAddr-asNumber-v2, under which resources are reduced (RFC 8360 section 4.2.1).
    #[error("the policy is id-cp-ipAddr-asNumber-v2 (fault 28)")]
    ReducingPolicy,
    /// 29: neither IP addresses nor AS numbers (RFC 6487 sections 4.8.10 and 4.8.11).
    #[error("neither IP addresses nor AS numbers (fault 29)")]
    NoResources,
    /// 30: the CRL is not of version 2 (RFC 6487 section 5).
    #[error("the version of the CRL is not 2 (fault 30)")]
    CrlVersion,
    /// 31: no extensions end what is signed of a CRL (RFC 6487 section 5).
    #[error("no extensions end what is signed of the CRL (fault 31)")]
    NoCrlExtensions,
    /// 32: the extensions of a CRL are not authorityKeyIdentifier and cRLNumber, each once (RFC 6487 section 5).
    #[error("the extensions of the CRL are not authorityKeyIdentifier and cRLNumber, each once (fault 32)")]
    CrlExtensions,
    /// 33: cRLNumber is not an INTEGER from 0 to 2^159 - 1 (RFC 5280 section 5.2.3).
    #[error("cRLNumber is not an INTEGER from 0 to 2^159 - 1 (fault 33)")]
    CrlNumber,
}

impl CertificateFaultKind {
    /// The number of the kind, 1 to 33.
    pub fn number(self) -> u8
        ensures { result ≡ kind_number self }
    {
        match self {
            CertificateFaultKind::Element(kind) => kind.number(),
            CertificateFaultKind::Version => 6,
            CertificateFaultKind::Serial => 7,
            CertificateFaultKind::SignatureAlgorithm => 8,
            CertificateFaultKind::Name => 9,
            CertificateFaultKind::Characters => 10,
            CertificateFaultKind::Before1970 => 11,
            CertificateFaultKind::Validity => 12,
            CertificateFaultKind::KeyAlgorithm => 13,
            CertificateFaultKind::PublicKey => 14,
            CertificateFaultKind::NoExtensions => 15,
            CertificateFaultKind::ExtendedKeyUsage => 16,
            CertificateFaultKind::ExtensionTwice => 17,
            CertificateFaultKind::Criticality => 18,
            CertificateFaultKind::Signature => 19,
            CertificateFaultKind::BasicConstraints => 20,
            CertificateFaultKind::SubjectKey => 21,
            CertificateFaultKind::AuthorityKey => 22,
            CertificateFaultKind::KeyUsage => 23,
            CertificateFaultKind::DistributionPoints => 24,
            CertificateFaultKind::AuthorityInfo => 25,
            CertificateFaultKind::SubjectInfo => 26,
            CertificateFaultKind::Policies => 27,
            CertificateFaultKind::ReducingPolicy => 28,
            CertificateFaultKind::NoResources => 29,
            CertificateFaultKind::CrlVersion => 30,
            CertificateFaultKind::NoCrlExtensions => 31,
            CertificateFaultKind::CrlExtensions => 32,
            CertificateFaultKind::CrlNumber => 33,
        }
    }

    /// This, at an offset.
    pub(crate) fn at(self, offset: usize) -> CertificateFault
        ensures { result ≡ record { kind = self; offset = offset } }
    {
        CertificateFault { kind: self, offset }
    }
}

/// What is wrong with a certificate or a CRL, and at which offset.
#[derive(Clone, Copy, Debug, PartialEq, Eq, Error)]
#[error("at byte {offset}: {kind}")]
pub struct CertificateFault {
    /// What is wrong.
    pub kind: CertificateFaultKind,
    /// The offset of the first byte of the element that is wrong, in bytes from the start. For surplus bytes it is the offset of the first of
    /// them. For kinds 20 to 29 and 33, which are about what extensions say, it is 0.
    pub offset: usize,
}

impl From<DerFault> for CertificateFault {
    ghost use Rattle.resource_certificates.specs.declared.fault.CertificateFaultKind.TheVariants.{Element};

    ghost from_gives = { λ der fault. fault ≡ record { kind = Element der.kind; offset = der.offset } };

    fn from(fault: DerFault) -> CertificateFault {
        CertificateFault {
            kind: CertificateFaultKind::Element(fault.kind),
            offset: fault.offset,
        }
    }
}

/// Why bytes cannot be read as a CRL.
#[derive(Clone, Copy, Debug, PartialEq, Eq, Error)]
pub enum CrlFault {
    /// The bytes are not a CRL. This is the first fault.
    #[error(transparent)]
    At(CertificateFault),
    /// Out of memory.
    #[error("out of memory")]
    Memory,
}

impl From<CertificateFault> for CrlFault {
    ghost use Rattle.resource_certificates.specs.declared.fault.CrlFault.TheVariants.{At};

    ghost from_gives = { λ fault crl_fault. crl_fault ≡ At fault };

    fn from(fault: CertificateFault) -> CrlFault {
        CrlFault::At(fault)
    }
}

impl From<DerFault> for CrlFault {
    ghost use Rattle.resource_certificates.specs.declared.fault.CertificateFaultKind.TheVariants.{Element};
    ghost use Rattle.resource_certificates.specs.declared.fault.CrlFault.TheVariants.{At};

    ghost from_gives = { λ der crl_fault. crl_fault ≡ At (record { kind = Element der.kind; offset = der.offset }) };

    fn from(fault: DerFault) -> CrlFault {
        CrlFault::At(CertificateFault {
            kind: CertificateFaultKind::Element(fault.kind),
            offset: fault.offset,
        })
    }
}

impl From<AllocError> for CrlFault {
    ghost use Rattle.resource_certificates.specs.declared.fault.CrlFault.TheVariants.{Memory};

    ghost from_gives = { λ _ crl_fault. crl_fault ≡ Memory };

    fn from(_error: AllocError) -> CrlFault {
        CrlFault::Memory
    }
}
