//! Which certificates of an authority make their subjects authorities at a moment (RFC 6487 section 7.2).
//!
//! [`judge_child`] judges such a certificate, and says which resources its subject holds. It verifies the signature, compares the times, and asks for
//! revocation and resources. It reports the first reason why the certificate does not count.
#![tactic(auto)]

mod child;
mod child_fault;
mod held;
mod issuer;
mod resource_certificate;
mod resource_fault;

pub use child::{Child, judge_child};
pub use child_fault::ChildFault;
pub use held::HeldResources;
pub use issuer::Issuer;
pub use resource_certificate::{
    ResourceCertificate, ResourceExtensions, read_resource_certificate,
};
pub use resource_fault::{ResourceCertificateError, ResourceCertificateFault};
