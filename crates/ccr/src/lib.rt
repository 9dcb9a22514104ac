//! The canonical cache representation of the RPKI (draft-ietf-sidrops-rpki-ccr), which rpki-client writes as `rpki.ccr`.
//!
//! For example, where `rt` is the runtime that `main` is handed:
//!
//! ```rust
//! use ccr::{encode_vrps, vrps_digest};
//! use prefixes::{Asn, Vrp};
//! use vrps::VrpSet;
//!
//! let mut list = Vec::new(rt.alloc());
//! list.push(Vrp::new("192.0.2.0/24".parse()?, 24, Asn(64496))?)?;
//! let set = VrpSet::try_from(list)?;
//! assert!(rt; encode_vrps(rt.alloc(), &set)?.len() == 27);
//! assert!(rt; vrps_digest(rt.alloc(), &set)?[0] == 0x22);
//! ```
//!
//! [`read_ccr`] reads a canonical cache representation: its VRPs and the hashes of its lists. [`begins_as_ccr`] is false for each JSON text.
//! [`vrps_digest`] is the hash by which the VRPs of two caches are compared. [`encode_vrps`] writes what is hashed.
#![tactic(auto)]

mod attestation;
mod bits;
mod by_as;
mod ccr;
mod digest;
mod family;
mod fault;
pub mod laws;
mod payload_set;
mod reading;
mod vrp_lists;

pub use ccr::{Ccr, VrpState};
pub use digest::{encode_vrps, vrps_digest};
pub use fault::{CcrFault, CcrFaultKind, ReadCcrError};
pub use reading::{begins_as_ccr, read_ccr};
