//! Why a certificate is not a trust anchor.

use thiserror::Error;

/// Why a certificate is not a trust anchor for the key of a locator at a moment (RFC 8630 section 3).
#[derive(Clone, Copy, Debug, PartialEq, Eq, Error)]
pub enum AnchorFault {
    /// Its key is not that of the locator (RFC 8630 section 2.3).
    #[error("the key of the certificate is not that of the locator")]
    Key,
    /// It names an issuer other than its own subject, so it is not self-signed (RFC 5280 section 3.2).
    #[error("the certificate names an issuer other than its own subject")]
    Issuer,
    /// notBefore is not reached.
    #[error("its time has not begun")]
    NotYet,
    /// notAfter has passed.
    #[error("its time has passed")]
    Expired,
    /// It inherits addresses or AS numbers, though nobody has issued it (RFC 8630 section 2.3).
    #[error("the certificate inherits addresses or AS numbers, and a trust anchor has to list them")]
    Inherits,
    /// The signature does not hold under its own key, or that is not an RSA key that verifies.
    #[error("the signature does not hold under its own key")]
    Signature,
}
