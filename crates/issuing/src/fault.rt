//! Why an authority did not issue a certificate or a CRL that counts.

use thiserror::Error;

/// Why an authority did not issue a certificate or a CRL that counts at a moment.
#[derive(Clone, Copy, Debug, PartialEq, Eq, Error)]
pub enum IssueFault {
    /// The extensions of the issuer's certificate do not let it issue (RFC 5280 section 6.1.4).
    #[error("the certificate of the issuer does not let it issue")]
    NoAuthority,
    /// It names another issuer, or another key of the issuer or none.
    #[error("it names another issuer, or another key of the issuer or none")]
    Issuer,
    /// notBefore or thisUpdate is not reached.
    #[error("its time has not begun")]
    NotYet,
    /// notAfter or nextUpdate has passed.
    #[error("its time has passed")]
    Expired,
    /// The authority has revoked the certificate.
    #[error("the authority has revoked it")]
    Revoked,
    /// The signature does not hold under the authority's key, or that is no RSA key.
    #[error("the signature does not hold under the authority's key")]
    Signature,
}
