//! Types of attributes.

ghost use Rattle.std.specs.Prelude.{◌≡◌};
ghost use Rattle.signed_objects.specs.Attributes.{type_in};

/// The type of a signed attribute of a signed object (RFC 6488 section 2.1.6.4).
#[derive(Clone, Copy, Debug, PartialEq, Eq)]
pub(crate) enum AttributeType {
    /// content-type (RFC 5652 section 11.1).
    ContentType,
    /// message-digest (RFC 5652 section 11.2).
    MessageDigest,
    /// signing-time (RFC 5652 section 11.3).
    SigningTime,
    /// binary-signing-time (RFC 6019 section 4).
    BinarySigningTime,
}

const CONTENT_TYPE: [u8; 9] = [0x2a, 0x86, 0x48, 0x86, 0xf7, 0x0d, 0x01, 0x09, 0x03];

const MESSAGE_DIGEST: [u8; 9] = [0x2a, 0x86, 0x48, 0x86, 0xf7, 0x0d, 0x01, 0x09, 0x04];

const SIGNING_TIME: [u8; 9] = [0x2a, 0x86, 0x48, 0x86, 0xf7, 0x0d, 0x01, 0x09, 0x05];

const BINARY_SIGNING_TIME: [u8; 11] = [
    0x2a, 0x86, 0x48, 0x86, 0xf7, 0x0d, 0x01, 0x09, 0x10, 0x02, 0x2e,
];

impl AttributeType {
    /// The type that this OBJECT IDENTIFIER names, if it is one of the four.
    #[tactic(auto, unfolding(crate::specs::Attributes::type_in))]
    pub(crate) fn of(oid: &[u8]) -> Option<AttributeType>
        ensures { result ≡ type_in oid.now }
    {
        if oid == CONTENT_TYPE.as_slice() {
            Some(AttributeType::ContentType)
        } else if oid == MESSAGE_DIGEST.as_slice() {
            Some(AttributeType::MessageDigest)
        } else if oid == SIGNING_TIME.as_slice() {
            Some(AttributeType::SigningTime)
        } else if oid == BINARY_SIGNING_TIME.as_slice() {
            Some(AttributeType::BinarySigningTime)
        } else {
            None
        }
    }
}
