//! Authorities below an authority.

ghost use Rattle.point_validation.specs.Children.{JudgesChild};

use crate::held::hold;
use crate::{ChildFault, HeldResources, Issuer, read_resource_certificate};
use issuing::judge_certificate;
use resource_certificates::{Certificate, Role};
use std::alloc::Global;

/// An authority that another one certified.
#[derive(Debug, Drop)]
pub struct Child<'a> {
    /// Its certificate.
    pub certificate: Certificate<'a>,
    /// The resources that it holds.
    pub held: HeldResources,
}

/// Judges whether `bytes` are a certificate by which `by` makes its subject an authority (RFC 6487 section 7.2). The result has the certificate, and
/// the resources that the subject holds. `Err`: the first reason why not, in the order of [`ChildFault`], or memory ran out.
pub fn judge_child<'a>(alloc: Global, bytes: &'a [u8], by: &Issuer) -> Result<Child<'a>, ChildFault>
    ensures { JudgesChild by.now bytes.now result }
{
    let child = read_resource_certificate(alloc, Role::Authority, bytes)?;
    judge_certificate(&child.certificate, by.certificate, by.revoked, &by.moment)?;
    let held = hold(alloc, child.extensions, by.held)?;
    Ok(Child {
        certificate: child.certificate,
        held,
    })
}
