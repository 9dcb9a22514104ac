//! Certificates and revocation lists.
use crate::numbers::{show_as, show_ip};
use crate::sheet::Sheet;
use resource_certificates::{
    Certificate, CertificateFault, CrlFault, Role, read_certificate, read_crl, read_elements,
};
use rsa_sha256::PublicKey;
use std::alloc::Global;
use std::io::Write;

/// Prints a fault.
fn show_fault<W: Write>(fault: CertificateFault, sheet: &mut Sheet<W>) {
    sheet.text("fault ");
    sheet.number(u128::from(fault.kind.number()));
    sheet.text(" ");
    sheet.number(fault.offset as u128);
}

/// Prints the resources of a certificate.
fn show_resources<W: Write>(alloc: Global, certificate: &Certificate, sheet: &mut Sheet<W>) {
    if let Some(value) = certificate.ip_blocks() {
        sheet.text(" ");
        show_ip(alloc, value, sheet);
    }
    if let Some(value) = certificate.as_ids() {
        sheet.text(" ");
        show_as(alloc, value, sheet);
    }
}

/// The role of this name.
pub fn role_of(name: &str) -> Option<Role> {
    match name {
        "anchor" => Some(Role::Anchor),
        "authority" => Some(Role::Authority),
        "entity" => Some(Role::EndEntity),
        _ => None,
    }
}

/// Prints a certificate in a role.
pub fn show<W: Write>(alloc: Global, role: Role, der: &[u8], sheet: &mut Sheet<W>) {
    match read_certificate(role, der) {
        Ok(certificate) => {
            sheet.text("certificate");
            show_resources(alloc, &certificate, sheet);
        }
        Err(fault) => show_fault(fault, sheet),
    }
}

/// Prints a revocation list.
pub fn show_crl<W: Write>(alloc: Global, der: &[u8], sheet: &mut Sheet<W>) {
    match read_crl(alloc, der) {
        Ok(crl) => {
            sheet.text("crl ");
            sheet.number(crl.tbs.revoked.as_slice().len() as u128);
        }
        Err(CrlFault::At(fault)) => show_fault(fault, sheet),
        Err(CrlFault::Memory) => sheet.text("memory"),
    }
}

/// Whether the signature of a certificate holds under the key of another.
fn is_signed_by(certificate: &Certificate, issuer: &Certificate) -> bool {
    match PublicKey::new(issuer.tbs.key.modulus) {
        Ok(key) => key.verify(certificate.signed, certificate.signature),
        Err(_) => false,
    }
}

/// Whether a certificate names another as its issuer, and its signature holds.
pub fn is_issued(der: &[u8], issuer: &[u8]) -> Option<bool> {
    match (read_elements(der), read_elements(issuer)) {
        (Ok(certificate), Ok(issuer)) => {
            Some(certificate.is_issued_by(&issuer) && is_signed_by(&certificate, &issuer))
        }
        _ => None,
    }
}
