//! What can be wrong with a signed object.

ghost use Rattle.std.specs.Prelude.{◌≡◌};

use der_lite::{DerFault, DerFaultKind};
use std::alloc::AllocError;
use thiserror::Error;

/// What is wrong with a signed object. Each kind has a fixed number, 1 to 43, which is at the end of its text.
#[derive(Clone, Copy, Debug, PartialEq, Eq, Error)]
pub enum CmsFaultKind {
    /// 1 to 5: an element is not DER. Kind 4 is also an OBJECT IDENTIFIER with wrong content (X.690 section 8.19).
    #[error("{0}")]
    Element(DerFaultKind),
    /// 6: the content type is not id-signedData (RFC 6488 section 2).
    #[error("the content type is not id-signedData (fault 6)")]
    NoSignedData,
    /// 7: the version of SignedData is not 3 (RFC 6488 section 2.1.1).
    #[error("the version of SignedData is not 3 (fault 7)")]
    Version,
    /// 8: digestAlgorithms does not have exactly one algorithm (RFC 6488 section 2.1.2).
    #[error("not exactly one digest algorithm (fault 8)")]
    DigestAlgorithms,
    /// 9: the digest algorithm is not SHA-256, or it has parameters other than NULL (RFC 7935 section 2).
    #[error("the digest algorithm is not SHA-256 with absent or NULL parameters (fault 9)")]
    DigestAlgorithm,
    /// 10: eContent is absent (RFC 6488 section 2.1.3.2).
    #[error("no content is encapsulated (fault 10)")]
    NoContent,
    /// 11: there is not exactly one certificate (RFC 6488 section 2.1.4).
    #[error("not exactly one certificate (fault 11)")]
    Certificates,
    /// 12: the certificate is not of version 3 (RFC 6487 section 4.1).
    #[error("the version of the certificate is not 3 (fault 12)")]
    CertificateVersion,
    /// 13: the certificate's key is not of rsaEncryption with NULL parameters (RFC 7935 section 3.1).
    #[error("the algorithm of the public key is not rsaEncryption with NULL parameters (fault 13)")]
    KeyAlgorithm,
    /// 14: the certificate's key is no RSAPublicKey in DER with the exponent 65537 (RFC 7935 section 3) and a modulus whose first bit is set.
    #[error("the public key is not an RSAPublicKey whose exponent is 65537 and whose modulus fills whole octets (fault 14)")]
    PublicKey,
    /// 15: the certificate has no extensions after its key (RFC 6487 section 4.8).
    #[error("the certificate has no extensions behind its key (fault 15)")]
    NoExtensions,
    /// 16: the certificate has two subjectKeyIdentifiers (RFC 5280 section 4.2).
    #[error("the subjectKeyIdentifier stands twice (fault 16)")]
    KeyIdentifierTwice,
    /// 17: the certificate has no subjectKeyIdentifier (RFC 6487 section 4.8.2).
    #[error("the certificate has no subjectKeyIdentifier (fault 17)")]
    NoKeyIdentifier,
    /// 18: CRLs are encoded (RFC 6488 section 2.1.5).
    #[error("CRLs are encoded, which have to be left out (fault 18)")]
    Crls,
    /// 19: signerInfos does not have exactly one signer (RFC 6488 section 2.1.6).
    #[error("not exactly one signer (fault 19)")]
    SignerInfos,
    /// 20: the version of SignerInfo is not 3 (RFC 6488 section 2.1.6.1).
    #[error("the version of SignerInfo is not 3 (fault 20)")]
    SignerVersion,
    /// 21: the signer is not named by a key identifier (RFC 6488 section 2.1.6.2).
    #[error("the signer is not named by a subjectKeyIdentifier (fault 21)")]
    SignerIdentifier,
    /// 22: signedAttrs is absent (RFC 6488 section 2.1.6.4).
    #[error("no signed attributes (fault 22)")]
    NoSignedAttributes,
    /// 23: an attribute is none of the four that are allowed (RFC 6488 section 2.1.6.4).
    #[error("an attribute other than content-type, message-digest, signing-time and binary-signing-time (fault 23)")]
    UnknownAttribute,
    /// 24: a signed attribute is there twice; this is the second (RFC 6488 section 2.1.6.4).
    #[error("the attribute stands twice (fault 24)")]
    AttributeTwice,
    /// 25: an attribute does not have exactly one value (RFC 6488 section 2.1.6.4).
    #[error("the attribute does not have exactly one value (fault 25)")]
    AttributeValues,
    /// 26: the signing time is neither a UTCTime nor a GeneralizedTime (RFC 5652 section 11.3).
    #[error("the signing time is neither a UTCTime nor a GeneralizedTime (fault 26)")]
    SigningTime,
    /// 27: there is no content-type attribute (RFC 6488 section 2.1.6.4.1).
    #[error("no content-type attribute (fault 27)")]
    NoContentType,
    /// 28: there is no message-digest attribute (RFC 6488 section 2.1.6.4.2).
    #[error("no message-digest attribute (fault 28)")]
    NoMessageDigest,
    /// 29: the signature's algorithm is neither rsaEncryption nor sha256WithRSAEncryption, or it has parameters other than NULL (RFC 7935
    /// section 2).
    #[error("the signature algorithm is neither rsaEncryption nor sha256WithRSAEncryption with absent or NULL parameters (fault 29)")]
    SignatureAlgorithm,
    /// 30: unsigned attributes are encoded (RFC 6488 section 2.1.6.7).
    #[error("unsigned attributes are encoded, which have to be left out (fault 30)")]
    UnsignedAttributes,
    /// 31: the signer's key identifier is not that of the certificate (RFC 6488 section 3, 1.c).
    #[error("the signer's key identifier is not that of the certificate (fault 31)")]
    OtherSigner,
    /// 32: the content-type attribute is not eContentType (RFC 6488 section 2.1.6.4.1).
    #[error("the content-type attribute is not the type of the content (fault 32)")]
    OtherContentType,
    /// 33: the message-digest attribute is not the SHA-256 digest of eContent (RFC 5652 section 5.4).
    #[error("the message-digest attribute is not the digest of the content (fault 33)")]
    OtherDigest,
    /// 34: the modulus of the certificate's key does not have 2,048 to 4,096 bits in whole octets, or it is even.
    #[error("the modulus does not have 2048 to 4096 bits in whole octets, or it is even (fault 34)")]
    Modulus,
    /// 35: the signature of the attributes does not hold under the certificate's key (RFC 5652 section 5.6).
    #[error("the signature does not hold under the key of the certificate (fault 35)")]
    Signature,
    /// 36: a tag has a number of 31 or more, which needs more than one octet (X.690 section 8.1.2.4).
    #[error("a tag of more than one octet (fault 36)")]
    LongTag,
    /// 37: the tag is that of end-of-contents octets, and none are here (X.690 section 8.1.5).
    #[error("end-of-contents octets where none belong (fault 37)")]
    EndOfContents,
    /// 38: an OCTET STRING in pieces has a piece that is not an OCTET STRING (X.690 section 8.7.3.2).
    #[error("a piece of an OCTET STRING is not an OCTET STRING (fault 38)")]
    Piece,
    /// 39: the first length octet is 255, or the length is 2^32 or more (X.690 section 8.1.3.5).
    #[error("a first length octet of 255, or a length of 2^32 or more (fault 39)")]
    LongLength,
    /// 40: a primitive element has an indefinite length (X.690 section 8.1.3.2).
    #[error("a primitive element has an indefinite length (fault 40)")]
    PrimitiveIndefinite,
    /// 41: a certificate or a signed attribute has an indefinite length (RFC 6488 section 3, 1.l).
    #[error("a certificate or a signed attribute has an indefinite length (fault 41)")]
    DerIndefinite,
    /// 42: the content of an element has 2^32 octets or more in DER.
    #[error("the content has 2^32 octets or more in DER (fault 42)")]
    LongContent,
    /// 43: the element is in more than 15 others.
    #[error("an element in more than 15 others (fault 43)")]
    TooDeep,
}

impl CmsFaultKind {
    ghost use Rattle.signed_objects.specs.Faults.{kind_number};

    /// The fixed number of the kind, 1 to 43.
    pub fn number(self) -> u8
        ensures { result ≡ kind_number self }
    {
        match self {
            CmsFaultKind::Element(kind) => kind.number(),
            CmsFaultKind::NoSignedData => 6,
            CmsFaultKind::Version => 7,
            CmsFaultKind::DigestAlgorithms => 8,
            CmsFaultKind::DigestAlgorithm => 9,
            CmsFaultKind::NoContent => 10,
            CmsFaultKind::Certificates => 11,
            CmsFaultKind::CertificateVersion => 12,
            CmsFaultKind::KeyAlgorithm => 13,
            CmsFaultKind::PublicKey => 14,
            CmsFaultKind::NoExtensions => 15,
            CmsFaultKind::KeyIdentifierTwice => 16,
            CmsFaultKind::NoKeyIdentifier => 17,
            CmsFaultKind::Crls => 18,
            CmsFaultKind::SignerInfos => 19,
            CmsFaultKind::SignerVersion => 20,
            CmsFaultKind::SignerIdentifier => 21,
            CmsFaultKind::NoSignedAttributes => 22,
            CmsFaultKind::UnknownAttribute => 23,
            CmsFaultKind::AttributeTwice => 24,
            CmsFaultKind::AttributeValues => 25,
            CmsFaultKind::SigningTime => 26,
            CmsFaultKind::NoContentType => 27,
            CmsFaultKind::NoMessageDigest => 28,
            CmsFaultKind::SignatureAlgorithm => 29,
            CmsFaultKind::UnsignedAttributes => 30,
            CmsFaultKind::OtherSigner => 31,
            CmsFaultKind::OtherContentType => 32,
            CmsFaultKind::OtherDigest => 33,
            CmsFaultKind::Modulus => 34,
            CmsFaultKind::Signature => 35,
            CmsFaultKind::LongTag => 36,
            CmsFaultKind::EndOfContents => 37,
            CmsFaultKind::Piece => 38,
            CmsFaultKind::LongLength => 39,
            CmsFaultKind::PrimitiveIndefinite => 40,
            CmsFaultKind::DerIndefinite => 41,
            CmsFaultKind::LongContent => 42,
            CmsFaultKind::TooDeep => 43,
        }
    }

    /// This, at an offset.
    pub(crate) fn at(self, offset: usize) -> CmsFault
        ensures { result ≡ record { kind = self; offset = offset } }
    {
        CmsFault { kind: self, offset }
    }
}

/// What is wrong with a signed object, and at which offset.
#[derive(Clone, Copy, Debug, PartialEq, Eq, Error)]
#[error("at byte {offset}: {kind}")]
pub struct CmsFault {
    /// What is wrong.
    pub kind: CmsFaultKind,
    /// The offset of the first byte of the wrong element, in bytes from the start of the object.
    /// For surplus bytes it is the offset of the first of them. For kinds 31 to 35, which are about the whole object, it is 0.
    pub offset: usize,
}

impl From<DerFault> for CmsFault {
    ghost use Rattle.signed_objects.specs.declared.fault.CmsFaultKind.TheVariants.{Element};

    ghost from_gives = { λ der fault. fault ≡ record { kind = Element der.kind; offset = der.offset } };

    fn from(fault: DerFault) -> CmsFault {
        CmsFault {
            kind: CmsFaultKind::Element(fault.kind),
            offset: fault.offset,
        }
    }
}

/// Why bytes cannot be read as a signed object.
#[derive(Clone, Copy, Debug, PartialEq, Eq, Error)]
pub enum ObjectFault {
    /// The bytes are not a signed object. This is the first fault.
    #[error(transparent)]
    At(CmsFault),
    /// Out of memory.
    #[error("out of memory")]
    Memory,
}

impl From<CmsFault> for ObjectFault {
    ghost use Rattle.signed_objects.specs.declared.fault.ObjectFault.TheVariants.{At};

    ghost from_gives = { λ fault object_fault. object_fault ≡ At fault };

    fn from(fault: CmsFault) -> ObjectFault {
        ObjectFault::At(fault)
    }
}

impl From<AllocError> for ObjectFault {
    ghost use Rattle.signed_objects.specs.declared.fault.ObjectFault.TheVariants.{Memory};

    ghost from_gives = { λ _ object_fault. object_fault ≡ Memory };

    fn from(_error: AllocError) -> ObjectFault {
        ObjectFault::Memory
    }
}
