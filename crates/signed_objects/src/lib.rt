//! Signed objects of the RPKI (RFC 6488) in DER. Each is CMS SignedData (RFC 5652), which encapsulates a content, such as that of a ROA or a
//! manifest. It also has the certificate of the key that signed it. [`read_der_object`] reads one, and verifies its digest and signature.
//! [`read_signed_object`] also reads lengths and OCTET STRINGs in BER, as other validators do.
//!
//! For example, where `rt` is the runtime that `main` is handed:
//!
//! ```rust
//! use signed_objects::{ObjectFault, read_der_object};
//!
//! match read_der_object(rt.alloc(), b"\x30\x03\x06\x01\x00") {
//!     Err(ObjectFault::At(fault)) => assert!(rt; fault.kind.number() == 6 && fault.offset == 2),
//!     _ => assert!(rt; false),
//! }
//! ```
#![tactic(auto)]

mod attribute;
mod attributes;
mod ber;
mod ber_cursor;
mod ber_head;
mod certificate;
mod elements;
mod fault;
mod form;
pub mod laws;
mod object;
mod oid;
mod signed_data;
mod signer;

pub use ber::to_der;
pub use fault::{CmsFault, CmsFaultKind, ObjectFault};
pub use object::{OwnedObject, SignedObject, read_der_object, read_signed_object};
