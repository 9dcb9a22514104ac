//! The walk of a relying party, from trust anchors down to VRPs (RFC 6487 section 7.2, RFC 9286).
//!
//! [`validate`] asks a [`Reader`] for the authorities of the trust anchors, and then for what the publication point of each authority holds: the
//! authorities that it issued, and VRPs. The VRPs that it returns are exactly those that an authority within depth 32 validates, in whatever order
//! the reader lists authorities. An authority to which several chains lead, or a circle, is visited once. A [`Validation`] does the same in steps of
//! bounded length.
//!
//! The walk knows nothing of certificates. The reader says what an authority issues and validates. So the reader also limits how many authorities and files
//! may be below an authority: what exceeds such a limit is not issued. The only limit of the walk is the depth.
#![tactic(auto)]

pub mod laws;
mod reader;
mod validation;
mod visited;
mod walk;

pub use reader::{Found, Reader};
pub use validation::{MAX_DEPTH, Validated, Validation, validate};
