//! certificatePolicies (RFC 6487 section 4.8.9, RFC 7318).

ghost use Rattle.std.specs.Prelude.{◌≡◌, option_map};
ghost use Rattle.std.specs.Result.{is_ok};
ghost use Rattle.der_lite.specs.Fields.{optional_at};
ghost use Rattle.resource_certificates.specs.Gives.{GivesNext, GivesAll};
ghost use Rattle.resource_certificates.specs.Policies.{qualifier_at, qualifiers_at, policy_at, policies_at, policies_all};
ghost use Rattle.resource_certificates.specs.Profile.{are_policies as are_policies_of};

use crate::elements::{OBJECT_IDENTIFIER, fixed};
use crate::{CertificateFault, CertificateFaultKind};
use der_lite::Cursor;

/// id-cp-ipAddr-asNumber is this arc of id-cp (RFC 6484).
pub(crate) const IP_ADDR_AS_NUMBER: u8 = 2;

/// id-cp-ipAddr-asNumber-v2 is this arc of id-cp (RFC 8360 section 4.2.1).
pub(crate) const IP_ADDR_AS_NUMBER_V2: u8 = 3;

/// id-qt-cps (RFC 5280 section 4.2.1.4).
const CPS: [u8; 8] = [0x2b, 6, 1, 5, 5, 7, 2, 1];

/// PolicyQualifierInfo: the URI of a CPS.
#[tactic(auto, unfolding(crate::specs::Policies::qualifier_at))]
fn qualifier<'a>(cursor: &mut Cursor<'a>) -> Result<&'a str, CertificateFault>
    ensures { GivesNext (λ uri. uri.now) result cursor.new (qualifier_at cursor.old) }
{
    let mut members = cursor.sequence()?;
    fixed(
        &mut members,
        OBJECT_IDENTIFIER,
        CPS.as_slice(),
        CertificateFaultKind::Policies,
    )?;
    let uri = members.ia5()?;
    members.finish()?;
    Ok(uri)
}

/// policyQualifiers: one.
#[tactic(auto, unfolding(crate::specs::Policies::qualifiers_at))]
fn qualifiers<'a>(cursor: &mut Cursor<'a>) -> Result<&'a str, CertificateFault>
    ensures { GivesNext (λ uri. uri.now) result cursor.new (qualifiers_at cursor.old) }
{
    let mut members = cursor.sequence()?;
    let uri = qualifier(&mut members)?;
    members.finish()?;
    Ok(uri)
}

/// policyQualifiers if bytes remain, and the end.
fn last_qualifiers<'a>(members: Cursor<'a>) -> Result<Option<&'a str>, CertificateFault>
    ensures { GivesAll (λ o. option_map (λ uri. uri.now) o) result (optional_at qualifiers_at members.entry) }
{
    let mut members = members;
    if members.at_end() {
        return Ok(None);
    }
    let uri = qualifiers(&mut members)?;
    members.finish()?;
    Ok(Some(uri))
}

/// PolicyInformation, of this arc of id-cp.
#[tactic(auto, unfolding(crate::specs::Policies::policy_at))]
fn policy<'a>(cursor: &mut Cursor<'a>, arc: u8) -> Result<Option<&'a str>, CertificateFault>
    ensures { GivesNext (λ o. option_map (λ uri. uri.now) o) result cursor.new (policy_at arc cursor.old) }
{
    let mut members = cursor.sequence()?;
    fixed(
        &mut members,
        OBJECT_IDENTIFIER,
        &[0x2b, 6, 1, 5, 5, 7, 14, arc],
        CertificateFaultKind::Policies,
    )?;
    last_qualifiers(members)
}

/// certificatePolicies: one.
#[tactic(auto, unfolding(crate::specs::Policies::policies_at))]
fn policies<'a>(cursor: &mut Cursor<'a>, arc: u8) -> Result<Option<&'a str>, CertificateFault>
    ensures { GivesNext (λ o. option_map (λ uri. uri.now) o) result cursor.new (policies_at arc cursor.old) }
{
    let mut members = cursor.sequence()?;
    let uri = policy(&mut members, arc)?;
    members.finish()?;
    Ok(uri)
}

/// certificatePolicies, and the end.
#[tactic(auto, unfolding(crate::specs::Policies::policies_all))]
fn read_policies(value: &[u8], arc: u8) -> Result<Option<&str>, CertificateFault>
    ensures { GivesAll (λ o. option_map (λ uri. uri.now) o) result (policies_all arc value.now) }
{
    let mut whole = Cursor::new(value);
    let uri = policies(&mut whole, arc)?;
    whole.finish()?;
    Ok(uri)
}

/// Whether the octets are certificatePolicies of this arc of id-cp.
fn is_policies(value: &[u8], arc: u8) -> bool
    ensures { result ≡ is_ok (policies_all arc value.now) }
{
    match read_policies(value, arc) {
        Ok(_) => true,
        Err(_) => false,
    }
}

/// Whether the extension is there, and has the policy of this arc of id-cp alone, with at most one qualifier, a CPS.
pub(crate) fn are_policies(found: Option<&[u8]>, arc: u8) -> bool
    ensures { result ≡ are_policies_of arc (option_map (λ v. v.now) found.entry) }
{
    match found {
        Some(value) => is_policies(value, arc),
        None => false,
    }
}
