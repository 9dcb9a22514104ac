//! Published objects and their names.

ghost use Rattle.std.specs.Prelude.{◌≡◌, bytes_eq};
ghost use Rattle.sha2.specs.Sha256.{sha256};
ghost use Rattle.points.specs.Files.{is_roa_name as names_roa};

use sha2::{Digest, Sha256};

/// Whether the SHA-256 of the object is this one (RFC 9286 section 6.5).
pub(crate) fn has_hash(object: &[u8], hash: &[u8; 32]) -> bool
    ensures { result ≡ bytes_eq (sha256 object.now) hash.now }
{
    Sha256::digest(object) == *hash
}

/// Whether the name ends in `.roa`.
pub(crate) fn is_roa_name(name: &str) -> bool
    ensures { result ≡ names_roa name.now }
{
    name.as_bytes().ends_with(b".roa")
}
