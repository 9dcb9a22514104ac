//! The commands that read payloads and lists: [`roa`], [`manifest`], [`payloads`] and [`route`], and what they read and print.
//!
//! For example, where `rt` is the runtime that `main` is handed:
//!
//! ```rust
//! use payload_commands::print_roa;
//! use payloads::{Roa, RoaEntry};
//! use prefixes::Asn;
//!
//! let mut entries = Vec::new(rt.alloc());
//! entries.push(RoaEntry {
//!     prefix: "192.0.2.0/24".parse()?,
//!     max_len: None,
//! })?;
//! let mut out = Vec::new(rt.alloc());
//! print_roa(&Roa::new(Asn(64496), entries)?, &mut out)?;
//! assert!(rt; out.as_slice() == b"192.0.2.0/24 24 64496\n".as_slice());
//! ```
#![tactic(auto)]

mod commands;
mod directories;
mod manifests;
mod offering;
mod roas;
mod routing;

pub use commands::{manifest, payloads, roa, route};
pub use directories::{Directory, read_directories};
pub use manifests::print_manifest;
pub use offering::{offer_directory, tell_answer};
pub use roas::print_roa;
pub use routing::print_state;
