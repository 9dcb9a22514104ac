//! Whether an authority issued a certificate or a revocation list that counts at a moment (RFC 6487 section 7.2).
//!
//! [`judge_certificate`] and [`judge_crl`] ask whether the issuer is an authority, compare names and keys, the time and the revoked serial
//! numbers, and then verify the signature. What the certificate says of resources is not judged here. [`is_of_object`] says whether a certificate is
//! for the object at a URI. [`is_signed_by`] alone verifies a signature.
#![tactic(auto)]

mod fault;
mod judging;
mod objects;

pub use fault::IssueFault;
pub use judging::{is_signed_by, judge_certificate, judge_crl};
pub use objects::is_of_object;
