//! What can be wrong with a payload.

ghost use Rattle.std.specs.Prelude.{◌≡◌};

use der_lite::{DerFault, DerFaultKind};
use std::alloc::AllocError;
use thiserror::Error;

/// What is wrong with a payload, or with a value that has no payload. Each kind has a fixed number, with which its error text ends.
#[derive(Clone, Copy, Debug, PartialEq, Eq, Error)]
pub enum GrammarFaultKind {
    /// 1 to 5: an element breaks the rules of DER. The number is that of the `DerFaultKind`.
    #[error("{0}")]
    Element(DerFaultKind),
    /// 6: the ROA has a version field, which must be left out (RFC 9582 section 4.1).
    #[error("a version is encoded, which may only be left out (fault 6)")]
    VersionPresent,
    /// 7: the AS number is negative or over 4294967295 (RFC 9582 section 4.2).
    #[error("the AS number is negative or greater than 4294967295 (fault 7)")]
    AsnRange,
    /// 8: the address family is neither IPv4 nor IPv6, or it came before (RFC 9582 section 4.3.1).
    #[error("the address family is neither IPv4 nor IPv6, or it stands twice (fault 8)")]
    Family,
    /// 9: there is no address family, or no address (RFC 9582 section 4.3).
    #[error("no address family, or a family without addresses (fault 9)")]
    Empty,
    /// 10: the prefix has more bits than an address of its family (RFC 9582 section 4.3.2).
    #[error("the prefix is longer than an address of its family (fault 10)")]
    PrefixTooLong,
    /// 11: the maximum length is below the prefix's, or over the width of its family (RFC 9582
    /// section 4.3.2).
    #[error("the maximum length is below the prefix length, or greater than the width of the address family (fault 11)")]
    MaxLength,
    /// 12: the address or entry is not above the one before it. The order is by family, address, prefix length and maximum length.
    #[error("not in strictly ascending order (fault 12)")]
    Order,
    /// 13: the manifest number is negative, or its content has more than 20 bytes (RFC 9286 section 4.2.1).
    /// In `Manifest::new` also: the bytes are not the content of a DER INTEGER.
    #[error("the manifest number is negative, longer than 20 bytes, or not the content of an INTEGER (fault 13)")]
    NumberRange,
    /// 14: nextUpdate is not later than thisUpdate (RFC 9286 section 4.2.1).
    #[error("nextUpdate is not later than thisUpdate (fault 14)")]
    TimesOrder,
    /// 15: the hash algorithm is not SHA-256 (RFC 9286 section 4.2.1).
    #[error("the hash algorithm is not SHA-256 (fault 15)")]
    HashAlg,
    /// 16: the file name breaks the rules of RFC 9286 section 4.2.2. It must have letters, digits, `-` or `_`, then one dot and three small
    /// letters. At most 255 bytes are accepted.
    #[error("not a file name of a manifest (fault 16)")]
    Name,
    /// 17: the hash does not have 256 bits (RFC 9286 section 4.2.1).
    #[error("the hash is not 256 bits long (fault 17)")]
    HashLength,
    /// 18: an earlier file of the manifest has the same name (RFC 9286 section 4.2.1).
    #[error("the file name stands twice (fault 18)")]
    NameTwice,
    /// 19: the entry or file is number 65,537. At most 65,536 are accepted.
    #[error("more than 65536 entries or files (fault 19)")]
    TooMany,
    /// 20: the maximum length equals the prefix length, which is the meaning of an absent one.
    /// RFC 9582 section 4.3.2.2 does not forbid it. Here it is refused, so that a set of VRPs has only one payload.
    #[error("the maximum length equals the prefix length, so it has to be left out (fault 20)")]
    MaxLengthSuperfluous,
}

impl GrammarFaultKind {
    ghost use Rattle.payloads.specs.Faults.{kind_number};

    /// The number of the kind, 1 to 20.
    pub fn number(self) -> u8
        ensures { result ≡ kind_number self }
    {
        match self {
            GrammarFaultKind::Element(kind) => kind.number(),
            GrammarFaultKind::VersionPresent => 6,
            GrammarFaultKind::AsnRange => 7,
            GrammarFaultKind::Family => 8,
            GrammarFaultKind::Empty => 9,
            GrammarFaultKind::PrefixTooLong => 10,
            GrammarFaultKind::MaxLength => 11,
            GrammarFaultKind::Order => 12,
            GrammarFaultKind::NumberRange => 13,
            GrammarFaultKind::TimesOrder => 14,
            GrammarFaultKind::HashAlg => 15,
            GrammarFaultKind::Name => 16,
            GrammarFaultKind::HashLength => 17,
            GrammarFaultKind::NameTwice => 18,
            GrammarFaultKind::TooMany => 19,
            GrammarFaultKind::MaxLengthSuperfluous => 20,
        }
    }

    /// This, at an offset.
    pub(crate) fn at(self, offset: usize) -> GrammarFault
        ensures { result ≡ record { kind = self; offset = offset } }
    {
        GrammarFault { kind: self, offset }
    }
}

/// What is wrong with a payload, and at which offset.
#[derive(Clone, Copy, Debug, PartialEq, Eq, Error)]
#[error("at byte {offset}: {kind}")]
pub struct GrammarFault {
    /// What is wrong.
    pub kind: GrammarFaultKind,
    /// The offset of the first byte of the wrong element, in bytes from the start of the payload.
    /// If bytes remain behind the payload, it is the offset of the first of them.
    pub offset: usize,
}

impl From<DerFault> for GrammarFault {
    ghost use Rattle.payloads.specs.declared.fault.GrammarFaultKind.TheVariants.{Element};

    ghost from_gives = { λ der fault. fault ≡ record { kind = Element der.kind; offset = der.offset } };

    fn from(fault: DerFault) -> GrammarFault {
        GrammarFault {
            kind: GrammarFaultKind::Element(fault.kind),
            offset: fault.offset,
        }
    }
}

/// Why bytes are not decoded as a payload.
#[derive(Clone, Copy, Debug, PartialEq, Eq, Error)]
pub enum PayloadFault {
    /// The bytes are not a valid payload. This is the first fault.
    #[error(transparent)]
    At(GrammarFault),
    /// Out of memory.
    #[error("out of memory")]
    Memory,
}

impl From<GrammarFault> for PayloadFault {
    ghost use Rattle.payloads.specs.declared.fault.PayloadFault.TheVariants.{At};

    ghost from_gives = { λ fault payload_fault. payload_fault ≡ At fault };

    fn from(fault: GrammarFault) -> PayloadFault {
        PayloadFault::At(fault)
    }
}

impl From<DerFault> for PayloadFault {
    ghost use Rattle.payloads.specs.declared.fault.PayloadFault.TheVariants.{At};
    ghost use Rattle.payloads.specs.declared.fault.GrammarFaultKind.TheVariants.{Element};

    ghost from_gives = { λ der payload_fault. payload_fault ≡ At (record { kind = Element der.kind; offset = der.offset }) };

    fn from(fault: DerFault) -> PayloadFault {
        PayloadFault::At(GrammarFault::from(fault))
    }
}

impl From<AllocError> for PayloadFault {
    ghost use Rattle.payloads.specs.declared.fault.PayloadFault.TheVariants.{Memory};

    ghost from_gives = { λ _ payload_fault. payload_fault ≡ Memory };

    fn from(_error: AllocError) -> PayloadFault {
        PayloadFault::Memory
    }
}

/// Why a value has no payload.
#[derive(Clone, Copy, Debug, PartialEq, Eq, Error)]
#[error("entry or file {index}: {kind}")]
pub struct ValueFault {
    /// What is wrong.
    pub kind: GrammarFaultKind,
    /// The index of the wrong entry or file, counted from 0. It is 0 if the fault is not about an entry or a file.
    pub index: usize,
}

/// Why [`Manifest::new`](crate::Manifest::new) makes no manifest.
#[derive(Clone, Copy, Debug, PartialEq, Eq, Error)]
pub enum ManifestFault {
    /// The values are not those of a valid manifest. This is the first fault.
    #[error(transparent)]
    Value(ValueFault),
    /// Out of memory.
    #[error("out of memory")]
    Memory,
}

impl From<ValueFault> for ManifestFault {
    ghost use Rattle.payloads.specs.declared.fault.ManifestFault.TheVariants.{Value};

    ghost from_gives = { λ fault manifest_fault. manifest_fault ≡ Value fault };

    fn from(fault: ValueFault) -> ManifestFault {
        ManifestFault::Value(fault)
    }
}

impl From<AllocError> for ManifestFault {
    ghost use Rattle.payloads.specs.declared.fault.ManifestFault.TheVariants.{Memory};

    ghost from_gives = { λ _ manifest_fault. manifest_fault ≡ Memory };

    fn from(_error: AllocError) -> ManifestFault {
        ManifestFault::Memory
    }
}
