//! Resource certificates of the RPKI and their revocation lists (RFC 6487), read in place.
//!
//! For example, where `rt` is the runtime that `main` is handed:
//!
//! ```rust
//! use resource_certificates::{CertificateFaultKind, Role, read_certificate};
//!
//! match read_certificate(Role::Authority, b"\x30\x04\x30\x02\x05\x00") {
//!     Err(fault) => assert!(rt; fault.kind == CertificateFaultKind::Version && fault.offset == 4),
//!     Ok(_) => assert!(rt; false),
//! }
//! ```
//!
//! [`read_certificate`] reads a certificate in a [`Role`], and [`read_crl`] a CRL. Each judges every element in its order, and then what the
//! extensions say, and reports the first fault. Nothing here verifies a signature: the octets that are signed, the signature and the
//! key are there for it.
#![tactic(auto)]

mod certificate;
mod crl;
mod crl_extensions;
mod directory;
mod elements;
mod extension;
mod extensions;
mod fault;
mod issuing;
mod key;
pub mod laws;
mod name;
mod places;
mod policies;
mod profile;
mod role;
mod serials;
mod time;

pub use certificate::{Certificate, Tbs, read_elements};
pub use crl::{Crl, TbsCrl, read_crl};
pub use crl_extensions::CrlExtensions;
pub use extension::ExtensionKind;
pub use extensions::Extensions;
pub use fault::{CertificateFault, CertificateFaultKind, CrlFault};
pub use key::Key;
pub use name::Name;
pub use profile::read_certificate;
pub use role::Role;
pub use serials::{Revocations, Serials};
