//! Payloads of the RPKI: what the objects hold whose signatures a validator has verified.
//!
//! For example, where `rt` is the runtime that `main` is handed:
//!
//! ```rust
//! use payloads::{Roa, RoaEntry, decode_roa, encode_roa};
//! use prefixes::Asn;
//!
//! let mut entries = Vec::new(rt.alloc());
//! entries.push(RoaEntry {
//!     prefix: "192.0.2.0/24".parse()?,
//!     max_len: None,
//! })?;
//! let roa = Roa::new(Asn(64496), entries)?;
//! let payload = encode_roa(rt.alloc(), &roa)?;
//! assert!(rt; decode_roa(rt.alloc(), payload.as_slice())?.entries() == roa.entries());
//! ```
//!
//! [`decode_roa`] reads the payload of a ROA (RFC 9582 section 4) and [`encode_roa`] writes it.
//! [`decode_manifest`] and [`encode_manifest`] do so for manifests (RFC 9286 section 4).
#![tactic(auto)]

mod fault;
pub mod laws;
mod manifest;
mod manifest_files;
mod manifest_names;
mod manifest_reading;
mod manifest_writing;
mod roa;
mod roa_bits;
mod roa_entries;
mod roa_entry;
mod roa_family;
mod roa_reading;
mod roa_writing;

pub use fault::{GrammarFault, GrammarFaultKind, ManifestFault, PayloadFault, ValueFault};
pub use manifest::{ListedFile, Manifest};
pub use manifest_reading::decode_manifest;
pub use manifest_writing::encode_manifest;
pub use roa::{Roa, decode_roa};
pub use roa_entry::RoaEntry;
pub use roa_writing::encode_roa;
