//! Trust anchors of the RPKI (RFC 8630).
//!
//! For example, where `rt` is the runtime that `main` is handed:
//!
//! ```rust
//! use trust_anchors::{TalFault, TalFaultKind, read_tal};
//!
//! match read_tal(rt.alloc(), b"# a trust anchor\n\nMIIB") {
//!     Err(TalFault::At(kind, line)) => assert!(rt; kind == TalFaultKind::NoUri && line == 2),
//!     _ => assert!(rt; false),
//! }
//! ```
//!
//! [`read_tal`] reads a trust anchor locator: the URIs at which the certificate of a trust anchor is found, and the key that the certificate has.
//! The first fault is reported, with its line. [`judge_anchor`] says whether a certificate is a trust anchor for that key at a moment.
#![tactic(auto)]

mod anchor;
mod anchor_fault;
mod fault;
mod key;
pub mod laws;
mod line;
mod tal;
mod uri;
mod validity;

pub use anchor::judge_anchor;
pub use anchor_fault::AnchorFault;
pub use fault::{TalFault, TalFaultKind};
pub use tal::{Tal, read_tal};
pub use validity::{AnchorValidity, choose};
