//! Which object a certificate is for.

ghost use Rattle.std.specs.Prelude.{◌↔◌, IsTrue};
ghost use Rattle.issuing.specs.Objects.{IsOfObject};

use resource_certificates::Certificate;

/// Returns whether the certificate of an end entity names `uri` as the place of its object. `true`: the first rsync URI of signedObject has exactly
/// the bytes of `uri` (RFC 6487 section 4.8.8.2). `false`: it has others, or there is no such URI. `uri` is in ASCII, and case matters.
/// An object from another URI must be refused, since it could replace another one (RFC 9981 section 4).
pub fn is_of_object(certificate: &Certificate, uri: &[u8]) -> bool
    ensures { IsTrue result ↔ IsOfObject certificate.now uri.now }
{
    match certificate.object_uri() {
        Some(own) => own == uri,
        None => false,
    }
}
