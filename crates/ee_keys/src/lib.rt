//! The key that a signed object is verified with is that of its certificate. Nothing here runs.
//!
//! For example, where `rt` is the runtime that `main` is handed:
//!
//! ```rust
//! use ee_keys::same_key;
//!
//! same_key();
//! ```
#![tactic(auto)]

ghost use Rattle.ee_keys.specs.SameKey.{SameKey};

/// Law: let bytes be both a certificate as `signed_objects` reads it in a signed object, and one as `resource_certificates` reads it. Then both read
/// the same modulus, and the identifier of the first is the value of subjectKeyIdentifier of the second.
pub fn same_key()
    ensures { SameKey }
{}
