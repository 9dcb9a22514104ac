//! The authority that issued what is judged.

use crate::HeldResources;
use der_lite::Moment;
use resource_certificates::{Certificate, Revocations};
use std::marker::Model;

/// An authority at a moment. It was judged itself, or is a trust anchor.
#[derive(Debug, Drop)]
pub struct Issuer<'a> {
    /// Its certificate.
    pub certificate: &'a Certificate<'a>,
    /// The resources that it holds.
    pub held: &'a HeldResources,
    /// The serial numbers that its CRL revokes, if [`issuing::judge_crl`] accepted the CRL.
    pub revoked: &'a Revocations<'a>,
    /// The moment, in UTC.
    pub moment: Moment,
}

impl<'a> Model for Issuer<'a> {
    ghost use Rattle.point_validation.specs.Issuers.{Issuer as IssuerValue};

    ghost Value = { IssuerValue };

    ghost view = { λ i. record { certificate = i.certificate.now; held = i.held.now; revoked = i.revoked.now; moment = i.moment } };
}
