//! What can be wrong with a trust anchor locator.

ghost use Rattle.std.specs.Prelude.{◌≡◌};

use std::alloc::AllocError;
use thiserror::Error;

/// What is wrong with a trust anchor locator (RFC 8630 section 2.2).
#[derive(Clone, Copy, Debug, PartialEq, Eq, Error)]
pub enum TalFaultKind {
    /// The file ends in a line before the empty one that follows the URIs. That line has no line break.
    #[error("the file ends before an empty line follows the URIs")]
    NoBreak,
    /// No URI comes before the empty line.
    #[error("no URI comes before the empty line")]
    NoUri,
    /// The line is not the URI of an object in rsync or https.
    #[error("the line is not the URI of an object in rsync or https")]
    Uri,
    /// What follows the empty line is not base64 (RFC 4648 section 4).
    #[error("the key is not in base64")]
    Base64,
    /// The key is not a subjectPublicKeyInfo of RSA with 2,048 bits and the exponent 65537 (RFC 7935 section 3).
    #[error("the key is not a subjectPublicKeyInfo of RSA with 2,048 bits and the exponent 65537")]
    Key,
}

impl TalFaultKind {
    /// This, at a line.
    pub(crate) fn at(self, line: usize) -> TalFault
        ensures { result ≡ TalFault.At self line }
    {
        TalFault::At(self, line)
    }
}

/// Why bytes cannot be read as a trust anchor locator.
#[derive(Clone, Copy, Debug, PartialEq, Eq, Error)]
pub enum TalFault {
    /// The bytes are not a trust anchor locator. This is the first fault, and its line, from 1. For the kinds `Base64` and `Key` it is the line at
    /// which the key begins.
    #[error("line {1}: {0}")]
    At(TalFaultKind, usize),
    /// Out of memory.
    #[error("out of memory")]
    Memory,
}

impl From<AllocError> for TalFault {
    ghost use Rattle.trust_anchors.specs.declared.fault.TalFault.TheVariants.{Memory};

    ghost from_gives = { λ _ fault. fault ≡ Memory };

    fn from(_error: AllocError) -> TalFault {
        TalFault::Memory
    }
}
