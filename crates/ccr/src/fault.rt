//! What can be wrong with a canonical cache representation.

ghost use Rattle.std.specs.Prelude.{◌≡◌};
ghost use Rattle.ccr.specs.Faults.{kind_number};

use der_lite::{DerFault, DerFaultKind};
use payloads::GrammarFaultKind;
use std::alloc::AllocError;
use thiserror::Error;

/// What is wrong with a canonical cache representation. Each kind has a fixed number, which ends its text.
#[derive(Clone, Copy, Debug, PartialEq, Eq, Error)]
pub enum CcrFaultKind {
    /// 1 to 5: an element is not in DER.
    #[error("{0}")]
    Element(DerFaultKind),
    /// 6 to 12, or 20: what is wrong with a ROAPayloadSet, which is a RouteOriginAttestation (RFC 9582 section 4). The number is that of the
    /// `GrammarFaultKind`. A set may have more than 65,536 entries, so 19 is no fault of it.
    #[error("{0}")]
    PayloadSet(GrammarFaultKind),
    /// 21: the content type is not id-ct-rpkiCanonicalCacheRepresentation.
    #[error("the content type is not that of a canonical cache representation (fault 21)")]
    ContentType,
    /// 22: a version is there. Version 0, the only one, is left out.
    #[error("a version other than 0 (fault 22)")]
    Version,
    /// 23: hashAlg is not SHA-256 without parameters.
    #[error("the hash algorithm is not SHA-256 without parameters (fault 23)")]
    HashAlgorithm,
    /// 24: the hash beside a list is not the SHA-256 of the list.
    #[error("the hash is not the SHA-256 of the list before it (fault 24)")]
    Hash,
    /// 25: the AS of a ROAPayloadSet is not above that of the set before it.
    #[error("the AS of the payload set is not above the one before it (fault 25)")]
    SetOrder,
}

impl CcrFaultKind {
    /// The number of the kind, 1 to 25.
    pub fn number(self) -> u8
        ensures { result ≡ kind_number self }
    {
        match self {
            CcrFaultKind::Element(kind) => kind.number(),
            CcrFaultKind::PayloadSet(kind) => kind.number(),
            CcrFaultKind::ContentType => 21,
            CcrFaultKind::Version => 22,
            CcrFaultKind::HashAlgorithm => 23,
            CcrFaultKind::Hash => 24,
            CcrFaultKind::SetOrder => 25,
        }
    }

    /// This, at an offset.
    pub(crate) fn at(self, offset: usize) -> CcrFault
        ensures { result ≡ record { kind = self; offset = offset } }
    {
        CcrFault { kind: self, offset }
    }
}

/// What is wrong with a canonical cache representation, and at which offset.
#[derive(Clone, Copy, Debug, PartialEq, Eq, Error)]
#[error("at byte {offset}: {kind}")]
pub struct CcrFault {
    /// What is wrong.
    pub kind: CcrFaultKind,
    /// The offset of the first byte of the element that is wrong, in bytes from the start. For surplus bytes it is the offset of the first of
    /// them.
    pub offset: usize,
}

impl From<DerFault> for CcrFault {
    ghost use Rattle.ccr.specs.declared.fault.CcrFaultKind.TheVariants.{Element};

    ghost from_gives = { λ der fault. fault ≡ record { kind = Element der.kind; offset = der.offset } };

    fn from(fault: DerFault) -> CcrFault {
        CcrFault {
            kind: CcrFaultKind::Element(fault.kind),
            offset: fault.offset,
        }
    }
}

/// Why bytes cannot be read as a canonical cache representation.
#[derive(Clone, Copy, Debug, PartialEq, Eq, Error)]
pub enum ReadCcrError {
    /// The bytes are not one. This is the first fault.
    #[error(transparent)]
    At(CcrFault),
    /// Out of memory.
    #[error("out of memory")]
    Memory,
}

impl From<CcrFault> for ReadCcrError {
    ghost use Rattle.ccr.specs.declared.fault.ReadCcrError.TheVariants.{At};

    ghost from_gives = { λ fault error. error ≡ At fault };

    fn from(fault: CcrFault) -> ReadCcrError {
        ReadCcrError::At(fault)
    }
}

impl From<DerFault> for ReadCcrError {
    ghost use Rattle.ccr.specs.declared.fault.CcrFaultKind.TheVariants.{Element};
    ghost use Rattle.ccr.specs.declared.fault.ReadCcrError.TheVariants.{At};

    ghost from_gives = { λ der error. error ≡ At (record { kind = Element der.kind; offset = der.offset }) };

    fn from(fault: DerFault) -> ReadCcrError {
        ReadCcrError::At(CcrFault {
            kind: CcrFaultKind::Element(fault.kind),
            offset: fault.offset,
        })
    }
}

impl From<AllocError> for ReadCcrError {
    ghost use Rattle.ccr.specs.declared.fault.ReadCcrError.TheVariants.{Memory};

    ghost from_gives = { λ _ error. error ≡ Memory };

    fn from(_error: AllocError) -> ReadCcrError {
        ReadCcrError::Memory
    }
}
