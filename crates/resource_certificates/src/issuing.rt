//! Who issued a certificate or a CRL, by name and key (RFC 6487 section 7.2).

ghost use Rattle.std.specs.Prelude.{◌≡◌, ◌↔◌, IsTrue, option_map};
ghost use Rattle.resource_certificates.specs.Issuing.{IsIssuedBy, IsCrlOf};
ghost use Rattle.resource_certificates.specs.Profile.{is_value, authority_value};

use crate::certificate::Certificate;
use crate::crl::Crl;
use crate::name::Name;
use crate::profile::is_authority_value;

/// Whether the serial numbers of two names are the same, or both are missing.
fn same_serial(one: Option<&[u8]>, other: Option<&[u8]>) -> bool
    ensures { IsTrue result ↔ (option_map (λ s. s.now) one.entry ≡ option_map (λ s. s.now) other.entry) }
{
    match (one, other) {
        (None, None) => true,
        (Some(one), Some(other)) => one == other,
        _ => false,
    }
}

/// Whether two names have the same characters, attribute by attribute.
fn same_name(one: &Name, other: &Name) -> bool
    ensures { IsTrue result ↔ (one.now ≡ other.now) }
{
    one.common == other.common && same_serial(one.serial, other.serial)
}

/// Whether authorityKeyIdentifier is there, and is that of the key of these bits.
fn is_key_of(found: Option<&[u8]>, bits: &[u8]) -> bool
    ensures { result ≡ is_value (option_map (λ v. v.now) found.entry) (authority_value bits.now) }
{
    match found {
        Some(value) => is_authority_value(value, bits),
        None => false,
    }
}

impl<'a> Certificate<'a> {
    /// Returns whether this certificate is self-issued (RFC 5280 section 3.2): its issuer has the characters of its own subject, attribute by
    /// attribute. Neither keys nor the signature are compared.
    pub fn is_self_issued(&self) -> bool
        ensures { IsTrue result ↔ (self.now.tbs.issuer ≡ self.now.tbs.subject) }
    {
        same_name(&self.tbs.issuer, &self.tbs.subject)
    }

    /// Returns whether this certificate names `authority` as its issuer. The issuer's name must have the characters of the authority's subject, and
    /// authorityKeyIdentifier must be the SHA-1 of the authority's key. If authorityKeyIdentifier is missing, the result is `false`.
    /// The signature is not verified.
    pub fn is_issued_by(&self, authority: &Certificate) -> bool
        ensures { IsTrue result ↔ IsIssuedBy self.now.tbs authority.now.tbs }
    {
        same_name(&self.tbs.issuer, &authority.tbs.subject)
            && is_key_of(self.tbs.extensions.authority_key, authority.tbs.key.bits)
    }
}

impl<'a> Crl<'a> {
    /// Returns whether this CRL names `authority` as its issuer: by the same rules for name and authorityKeyIdentifier as
    /// [`Certificate::is_issued_by`]. The signature is not verified.
    pub fn is_issued_by(&self, authority: &Certificate) -> bool
        ensures { IsTrue result ↔ IsCrlOf self.now.tbs authority.now.tbs }
    {
        same_name(&self.tbs.issuer, &authority.tbs.subject)
            && is_authority_value(self.tbs.extensions.authority_key, authority.tbs.key.bits)
    }
}
