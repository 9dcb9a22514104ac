//! Extensions of a resource certificate (RFC 6487 section 4.8).

ghost use Rattle.std.specs.Prelude.{◌≡◌, [], option_map};
ghost use Rattle.der_lite.specs.Decoding.{read_each};
ghost use Rattle.resource_certificates.specs.Gives.{GivesNext, GivesAll, GivesFound};
ghost use Rattle.resource_certificates.specs.Extensions.{must_be_critical as must_be_critical_of, is_extended_usage as is_extended_usage_of};
ghost use Rattle.resource_certificates.specs.Reading.{extension_id_at, critical_at, value_alone_at, value_members_at, extension_from, extension_at, extension_list_at, extensions_at};

use crate::elements::{element_unless, needed_element};
use crate::extension::ExtensionKind;
use crate::{CertificateFault, CertificateFaultKind};
use der_lite::Cursor;
use std::marker::Model;

/// The tag of a BOOLEAN (X.690 section 8.2).
const BOOLEAN: u8 = 0x01;

/// The tag of an OCTET STRING (X.690 section 8.7).
const OCTET_STRING: u8 = 0x04;

/// The tag of an explicitly tagged [3].
const EXPLICIT_3: u8 = 0xa3;

/// id-ce-extKeyUsage (RFC 5280 section 4.2.1.12).
const EXTENDED_KEY_USAGE: [u8; 3] = [0x55, 0x1d, 0x25];

/// TRUE (X.690 section 11.1).
const TRUE: [u8; 1] = [0xff];

/// The octets of each extension's value.
#[derive(Debug, Drop)]
pub struct Extensions<'a> {
    pub(crate) subject_key: Option<&'a [u8]>,
    pub(crate) authority_key: Option<&'a [u8]>,
    pub(crate) key_usage: Option<&'a [u8]>,
    pub(crate) basic_constraints: Option<&'a [u8]>,
    pub(crate) distribution_points: Option<&'a [u8]>,
    pub(crate) authority_info: Option<&'a [u8]>,
    pub(crate) subject_info: Option<&'a [u8]>,
    pub(crate) policies: Option<&'a [u8]>,
    pub(crate) ip_blocks: Option<&'a [u8]>,
    pub(crate) as_ids: Option<&'a [u8]>,
}

impl<'a> Model for Extensions<'a> {
    ghost use Rattle.std.specs.Prelude.{option_map};
    ghost use Rattle.resource_certificates.specs.Extensions.{Found};

    ghost Value = { Found };

    ghost view = { λ a. record {
      subject_key = option_map (λ v. v.now) a.subject_key;
      authority_key = option_map (λ v. v.now) a.authority_key;
      key_usage = option_map (λ v. v.now) a.key_usage;
      basic_constraints = option_map (λ v. v.now) a.basic_constraints;
      distribution_points = option_map (λ v. v.now) a.distribution_points;
      authority_info = option_map (λ v. v.now) a.authority_info;
      subject_info = option_map (λ v. v.now) a.subject_info;
      policies = option_map (λ v. v.now) a.policies;
      ip_blocks = option_map (λ v. v.now) a.ip_blocks;
      as_ids = option_map (λ v. v.now) a.as_ids;
    } };
}

impl<'a> Extensions<'a> {
    ghost use Rattle.resource_certificates.specs.Extensions.{found_in};
    ghost use Rattle.resource_certificates.specs.Reading.{found_of, put_in, put_known};

    /// No extensions.
    fn new() -> Extensions<'a>
        ensures { result ≡ found_in [] }
    {
        Extensions {
            subject_key: None,
            authority_key: None,
            key_usage: None,
            basic_constraints: None,
            distribution_points: None,
            authority_info: None,
            subject_info: None,
            policies: None,
            ip_blocks: None,
            as_ids: None,
        }
    }

    /// The value of the extension of this kind, if it came.
    fn get(&self, kind: ExtensionKind) -> Option<&'a [u8]>
        ensures { option_map (λ v. v.now) result ≡ found_of self.now kind }
    {
        match kind {
            ExtensionKind::SubjectKey => self.subject_key,
            ExtensionKind::AuthorityKey => self.authority_key,
            ExtensionKind::KeyUsage => self.key_usage,
            ExtensionKind::BasicConstraints => self.basic_constraints,
            ExtensionKind::DistributionPoints => self.distribution_points,
            ExtensionKind::AuthorityInfo => self.authority_info,
            ExtensionKind::SubjectInfo => self.subject_info,
            ExtensionKind::Policies => self.policies,
            ExtensionKind::IpBlocks => self.ip_blocks,
            ExtensionKind::AsIds => self.as_ids,
        }
    }

    /// One extension more, of a known kind.
    fn put_known(&mut self, kind: ExtensionKind, value: &'a [u8])
        ensures { self.new ≡ put_known self.old kind value.now }
    {
        match kind {
            ExtensionKind::SubjectKey => self.subject_key = Some(value),
            ExtensionKind::AuthorityKey => self.authority_key = Some(value),
            ExtensionKind::KeyUsage => self.key_usage = Some(value),
            ExtensionKind::BasicConstraints => self.basic_constraints = Some(value),
            ExtensionKind::DistributionPoints => self.distribution_points = Some(value),
            ExtensionKind::AuthorityInfo => self.authority_info = Some(value),
            ExtensionKind::SubjectInfo => self.subject_info = Some(value),
            ExtensionKind::Policies => self.policies = Some(value),
            ExtensionKind::IpBlocks => self.ip_blocks = Some(value),
            ExtensionKind::AsIds => self.as_ids = Some(value),
        }
    }

    /// One extension more. An unknown one changes nothing.
    fn put(&mut self, kind: Option<ExtensionKind>, value: &'a [u8])
        ensures { self.new ≡ put_in self.old kind value.now }
    {
        if let Some(kind) = kind {
            self.put_known(kind, value);
        }
    }
}

/// Whether the identifier is that of extKeyUsage.
fn is_extended_usage(id: &[u8]) -> bool
    ensures { result ≡ is_extended_usage_of id.now }
{
    id == EXTENDED_KEY_USAGE.as_slice()
}

/// extnID, after the extensions before it.
#[tactic(auto, unfolding(crate::specs::Reading::extension_id_at))]
fn extension_id(
    cursor: &mut Cursor,
    before: &Extensions,
) -> Result<Option<ExtensionKind>, CertificateFault>
    ensures { GivesNext (λ kind. kind) result cursor.new (extension_id_at before.now cursor.old) }
{
    let offset = cursor.offset();
    let id = cursor.oid()?;
    if is_extended_usage(id) {
        return Err(CertificateFaultKind::ExtendedKeyUsage.at(offset));
    }
    let kind = ExtensionKind::of(id);
    if let Some(known) = kind
        && before.get(known).is_some()
    {
        return Err(CertificateFaultKind::ExtensionTwice.at(offset));
    }
    Ok(kind)
}

/// critical BOOLEAN TRUE.
#[tactic(auto, unfolding(crate::specs::Reading::critical_at))]
fn critical(cursor: &mut Cursor) -> Result<(), CertificateFault>
    ensures { GivesNext (λ _. tt) result cursor.new (critical_at cursor.old) }
{
    let offset = cursor.offset();
    let value = needed_element(cursor, BOOLEAN, CertificateFaultKind::Criticality)?;
    if value.remaining() != TRUE.as_slice() {
        return Err(CertificateFaultKind::Criticality.at(offset));
    }
    Ok(())
}

/// extnValue of an extension that is not critical.
#[tactic(auto, unfolding(crate::specs::Reading::value_alone_at))]
pub(crate) fn value_alone<'a>(cursor: &mut Cursor<'a>) -> Result<&'a [u8], CertificateFault>
    ensures { GivesNext (λ value. value.now) result cursor.new (value_alone_at cursor.old) }
{
    let value = element_unless(
        cursor,
        BOOLEAN,
        OCTET_STRING,
        CertificateFaultKind::Criticality,
    )?;
    Ok(value.remaining())
}

/// critical and extnValue, and the end.
fn extension_value<'a>(members: Cursor<'a>, is_critical: bool) -> Result<&'a [u8], CertificateFault>
    ensures { GivesAll (λ value. value.now) result (value_members_at is_critical members.entry) }
{
    let mut members = members;
    if is_critical {
        critical(&mut members)?;
        let value = members.octets()?;
        members.finish()?;
        return Ok(value);
    }
    let value = value_alone(&mut members)?;
    members.finish()?;
    Ok(value)
}

/// Whether an extension has to be critical; an unknown one may not be.
fn must_be_critical(kind: Option<ExtensionKind>) -> bool
    ensures { result ≡ must_be_critical_of kind }
{
    match kind {
        Some(kind) => kind.is_critical(),
        None => false,
    }
}

/// Extension, after those before it.
#[tactic(auto, unfolding(crate::specs::Reading::extension_from))]
fn next_extension<'a>(
    cursor: &mut Cursor<'a>,
    before: &Extensions,
) -> Result<(Option<ExtensionKind>, &'a [u8]), CertificateFault>
    ensures { GivesNext (λ e. (e.0, e.1.now)) result cursor.new (extension_from before.now cursor.old) }
{
    let mut members = cursor.sequence()?;
    let kind = extension_id(&mut members, before)?;
    let value = extension_value(members, must_be_critical(kind))?;
    Ok((kind, value))
}

/// The extensions, to the end.
fn each_extension(members: Cursor<'_>) -> Result<Extensions<'_>, CertificateFault>
    ensures { GivesFound (λ found. found) result (read_each extension_at members.entry) }
{
    let mut members = members;
    let mut found = Extensions::new();
    while !members.at_end() {
        let (kind, value) = next_extension(&mut members, &found)?;
        found.put(kind, value);
    }
    Ok(found)
}

/// Extensions.
#[tactic(auto, unfolding(crate::specs::Reading::extension_list_at))]
fn extension_list<'a>(cursor: &mut Cursor<'a>) -> Result<Extensions<'a>, CertificateFault>
    ensures { GivesNext (λ found. found) result cursor.new (extension_list_at cursor.old) }
{
    let members = cursor.sequence()?;
    each_extension(members)
}

/// extensions [3] EXPLICIT.
#[tactic(auto, unfolding(crate::specs::Reading::extensions_at))]
pub(crate) fn read_extensions<'a>(
    cursor: &mut Cursor<'a>,
) -> Result<Extensions<'a>, CertificateFault>
    ensures { GivesNext (λ found. found) result cursor.new (extensions_at cursor.old) }
{
    let mut members = needed_element(cursor, EXPLICIT_3, CertificateFaultKind::NoExtensions)?;
    let found = extension_list(&mut members)?;
    members.finish()?;
    Ok(found)
}
