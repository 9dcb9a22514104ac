//! Which extensions a CRL has, and the octets of each (RFC 6487 section 5). `crl.rt` judges what they say.

ghost use Rattle.std.specs.Prelude.{◌≡◌, option_map};
ghost use Rattle.der_lite.specs.Fields.{optional_at};
ghost use Rattle.resource_certificates.specs.Gives.{GivesNext, GivesAll};
ghost use Rattle.resource_certificates.specs.Crls.{is_number_id as is_number_id_of, crl_pair as crl_pair_of};
ghost use Rattle.resource_certificates.specs.CrlReading.{crl_id_at, crl_extension_at, crl_extension_list_at, crl_extensions_at};

use crate::elements::{EXPLICIT_0, needed_element};
use crate::extensions::value_alone;
use crate::{CertificateFault, CertificateFaultKind};
use der_lite::Cursor;
use std::marker::Model;

/// id-ce-cRLNumber (RFC 5280 section 5.2.3).
const CRL_NUMBER: [u8; 3] = [0x55, 0x1d, 0x14];

/// id-ce-authorityKeyIdentifier (RFC 5280 section 5.2.1).
const AUTHORITY_KEY: [u8; 3] = [0x55, 0x1d, 0x23];

/// The octets of the values of both extensions.
#[derive(Debug, Drop)]
pub struct CrlExtensions<'a> {
    pub(crate) authority_key: &'a [u8],
    pub(crate) number: &'a [u8],
}

impl<'a> Model for CrlExtensions<'a> {
    ghost use Rattle.resource_certificates.specs.Crls.{CrlFound};

    ghost Value = { CrlFound };

    ghost view = { λ e. record { authority_key = e.authority_key.now; number = e.number.now } };
}

/// Whether the identifier is that of cRLNumber.
fn is_number_id(id: &[u8]) -> bool
    ensures { result ≡ is_number_id_of id.now }
{
    id == CRL_NUMBER.as_slice()
}

/// extnID: whether it is that of cRLNumber, not of authorityKeyIdentifier.
#[tactic(auto, unfolding(crate::specs::CrlReading::crl_id_at))]
fn crl_id(cursor: &mut Cursor) -> Result<bool, CertificateFault>
    ensures { GivesNext (λ b. b) result cursor.new (crl_id_at cursor.old) }
{
    let offset = cursor.offset();
    let id = cursor.oid()?;
    if !is_number_id(id) && id != AUTHORITY_KEY.as_slice() {
        return Err(CertificateFaultKind::CrlExtensions.at(offset));
    }
    Ok(is_number_id(id))
}

/// An extension: whether it is cRLNumber, and the octets of its value.
#[derive(Clone, Copy)]
struct CrlExtension<'a> {
    is_number: bool,
    value: &'a [u8],
}

/// Extension.
#[tactic(auto, unfolding(crate::specs::CrlReading::crl_extension_at))]
fn crl_extension<'a>(cursor: &mut Cursor<'a>) -> Result<CrlExtension<'a>, CertificateFault>
    ensures { GivesNext (λ e. (e.is_number, e.value.now)) result cursor.new (crl_extension_at cursor.old) }
{
    let mut members = cursor.sequence()?;
    let is_number = crl_id(&mut members)?;
    let value = value_alone(&mut members)?;
    members.finish()?;
    Ok(CrlExtension { is_number, value })
}

/// An extension if bytes remain, and the end.
fn last_extension<'a>(members: Cursor<'a>) -> Result<Option<CrlExtension<'a>>, CertificateFault>
    ensures { GivesAll (λ o. option_map (λ e. (e.is_number, e.value.now)) o) result (optional_at crl_extension_at members.entry) }
{
    let mut members = members;
    if members.at_end() {
        return Ok(None);
    }
    let second = crl_extension(&mut members)?;
    members.finish()?;
    Ok(Some(second))
}

/// Both extensions, in either order.
fn crl_pair<'a>(
    first: &CrlExtension<'a>,
    second: &Option<CrlExtension<'a>>,
) -> Option<CrlExtensions<'a>>
    ensures { result ≡ crl_pair_of ((first.now.is_number, first.now.value.now), option_map (λ e. (e.is_number, e.value.now)) second.now) }
{
    let Some(second) = second else {
        return None;
    };
    match (first.is_number, second.is_number) {
        (true, false) => Some(CrlExtensions {
            authority_key: second.value,
            number: first.value,
        }),
        (false, true) => Some(CrlExtensions {
            authority_key: first.value,
            number: second.value,
        }),
        _ => None,
    }
}

/// Extensions: both, each once.
#[tactic(auto, unfolding(crate::specs::CrlReading::crl_extension_list_at))]
fn crl_extension_list<'a>(cursor: &mut Cursor<'a>) -> Result<CrlExtensions<'a>, CertificateFault>
    ensures { GivesNext (λ e. e) result cursor.new (crl_extension_list_at cursor.old) }
{
    let offset = cursor.offset();
    let mut members = cursor.sequence()?;
    if members.remaining().is_empty() {
        return Err(CertificateFaultKind::CrlExtensions.at(offset));
    }
    let first = crl_extension(&mut members)?;
    let second = last_extension(members)?;
    match crl_pair(&first, &second) {
        Some(extensions) => Ok(extensions),
        None => Err(CertificateFaultKind::CrlExtensions.at(offset)),
    }
}

/// crlExtensions [0] EXPLICIT.
#[tactic(auto, unfolding(crate::specs::CrlReading::crl_extensions_at))]
pub(crate) fn crl_extensions<'a>(
    cursor: &mut Cursor<'a>,
) -> Result<CrlExtensions<'a>, CertificateFault>
    ensures { GivesNext (λ e. e) result cursor.new (crl_extensions_at cursor.old) }
{
    let mut members = needed_element(cursor, EXPLICIT_0, CertificateFaultKind::NoCrlExtensions)?;
    let extensions = crl_extension_list(&mut members)?;
    members.finish()?;
    Ok(extensions)
}
