//! Certificate revocation lists (RFC 5280 section 5.1, RFC 6487 section 5).

ghost use Rattle.std.specs.Prelude.{◌≡◌, option_map};
ghost use Rattle.std.specs.Result.{is_ok};
ghost use Rattle.der_lite.specs.Decoding.{read_each};
ghost use Rattle.resource_certificates.specs.Gives.{GivesNext, GivesAll, GivesOrMemory, GivesAllOrMemory};
ghost use Rattle.resource_certificates.specs.Crls.{crl_number_all, CrlProfiled, ReadsCrl};
ghost use Rattle.resource_certificates.specs.CrlReading.{crl_version_at, revoked_at, revoked_list_at, crl_rest_at, crl_updates_at, tbs_crl_members_at};
ghost use Rattle.resource_certificates.specs.CrlReading.{tbs_crl_at, signed_crl_at, crl_members_at, crl_at, crl_all};

use crate::certificate::{LONGEST_SERIAL, read_serial};
use crate::crl_extensions::{CrlExtensions, crl_extensions};
use crate::elements::{INTEGER, SEQUENCE, begins, fixed};
use crate::key::{same_algorithm, signature_algorithm, signature_value};
use crate::name::read_name;
use crate::profile::is_key_value;
use crate::serials::Serials;
use crate::time::time;
use crate::{CertificateFault, CertificateFaultKind, CrlFault, Name};
use der_lite::{Cursor, Moment};
use std::alloc::Global;
use std::marker::Model;

/// Version 2, which is INTEGER 1 (RFC 5280 section 5.1.2.1).
const VERSION_2: [u8; 1] = [1];

/// version: version 2.
#[tactic(auto, unfolding(crate::specs::CrlReading::crl_version_at))]
fn crl_version(cursor: &mut Cursor) -> Result<(), CertificateFault>
    ensures { GivesNext (λ _. tt) result cursor.new (crl_version_at cursor.old) }
{
    fixed(
        cursor,
        INTEGER,
        VERSION_2.as_slice(),
        CertificateFaultKind::CrlVersion,
    )
}

/// An entry: its serial number.
#[tactic(auto, unfolding(crate::specs::CrlReading::revoked_at))]
fn revoked<'a>(cursor: &mut Cursor<'a>) -> Result<&'a [u8], CertificateFault>
    ensures { GivesNext (λ serial. serial.now) result cursor.new (revoked_at cursor.old) }
{
    let mut members = cursor.sequence()?;
    let serial = read_serial(&mut members)?;
    let _date = time(&mut members)?;
    members.finish()?;
    Ok(serial)
}

/// The entries, to the end.
fn each_revoked<'a>(alloc: Global, members: Cursor<'a>) -> Result<Serials<'a>, CrlFault>
    ensures { GivesAllOrMemory (λ serials. serials) result (read_each (λ _. revoked_at) members.entry) }
{
    let mut members = members;
    let mut serials = Serials::new(alloc);
    while !members.at_end() {
        let serial = revoked(&mut members)?;
        serials.push(serial)?;
    }
    Ok(serials)
}

/// revokedCertificates.
#[tactic(auto, unfolding(crate::specs::CrlReading::revoked_list_at))]
fn revoked_list<'a>(alloc: Global, cursor: &mut Cursor<'a>) -> Result<Serials<'a>, CrlFault>
    ensures { GivesOrMemory (λ serials. serials) result cursor.new (revoked_list_at cursor.old) }
{
    let members = cursor.sequence()?;
    each_revoked(alloc, members)
}

/// revokedCertificates, if they are there, and crlExtensions.
#[derive(Drop)]
struct CrlRest<'a> {
    revoked: Serials<'a>,
    extensions: CrlExtensions<'a>,
}

/// revokedCertificates, if they are there, crlExtensions, and the end.
#[tactic(auto, unfolding(crate::specs::CrlReading::crl_rest_at))]
fn crl_rest<'a>(alloc: Global, members: Cursor<'a>) -> Result<CrlRest<'a>, CrlFault>
    ensures { GivesAllOrMemory (λ r. (r.revoked, r.extensions)) result (crl_rest_at members.entry) }
{
    let mut members = members;
    if !begins(&members, SEQUENCE) {
        let extensions = crl_extensions(&mut members)?;
        members.finish()?;
        return Ok(CrlRest {
            revoked: Serials::new(alloc),
            extensions,
        });
    }
    let revoked = revoked_list(alloc, &mut members)?;
    let extensions = crl_extensions(&mut members)?;
    members.finish()?;
    Ok(CrlRest {
        revoked,
        extensions,
    })
}

/// thisUpdate and nextUpdate, and what follows them.
#[derive(Drop)]
struct CrlUpdates<'a> {
    this_update: Moment,
    next_update: Moment,
    rest: CrlRest<'a>,
}

/// thisUpdate and nextUpdate, and what follows them.
#[tactic(auto, unfolding(crate::specs::CrlReading::crl_updates_at))]
fn crl_updates<'a>(alloc: Global, members: Cursor<'a>) -> Result<CrlUpdates<'a>, CrlFault>
    ensures { GivesAllOrMemory (λ u. (u.this_update, (u.next_update, (u.rest.revoked, u.rest.extensions)))) result (crl_updates_at members.entry) }
{
    let mut members = members;
    let this_update = time(&mut members)?;
    let next_update = time(&mut members)?;
    let rest = crl_rest(alloc, members)?;
    Ok(CrlUpdates {
        this_update,
        next_update,
        rest,
    })
}

/// What is signed of a CRL.
#[derive(Debug, Drop)]
pub struct TbsCrl<'a> {
    /// The content of the signature's AlgorithmIdentifier.
    algorithm: &'a [u8],
    /// Who issued it.
    pub issuer: Name<'a>,
    /// When it was issued.
    pub this_update: Moment,
    /// When the next one comes at the latest.
    pub next_update: Moment,
    /// The serial numbers of the revoked certificates, in the file's order.
    pub revoked: Serials<'a>,
    /// The extensions.
    pub extensions: CrlExtensions<'a>,
}

impl<'a> Model for TbsCrl<'a> {
    ghost use Rattle.resource_certificates.specs.Crls.{TbsCrl as TbsCrlValue};

    ghost Value = { TbsCrlValue };

    ghost view = { λ t. record { algorithm = t.algorithm.now; issuer = t.issuer; this_update = t.this_update; next_update = t.next_update; revoked = t.revoked; found = t.extensions } };
}

/// version, signature and issuer, and what follows them.
#[tactic(auto, unfolding(crate::specs::CrlReading::tbs_crl_members_at))]
fn tbs_crl_members<'a>(alloc: Global, members: Cursor<'a>) -> Result<TbsCrl<'a>, CrlFault>
    ensures { GivesAllOrMemory (λ t. t) result (tbs_crl_members_at members.entry) }
{
    let mut members = members;
    crl_version(&mut members)?;
    let algorithm = signature_algorithm(&mut members)?;
    let issuer = read_name(&mut members)?;
    let updates = crl_updates(alloc, members)?;
    Ok(TbsCrl {
        algorithm,
        issuer,
        this_update: updates.this_update,
        next_update: updates.next_update,
        revoked: updates.rest.revoked,
        extensions: updates.rest.extensions,
    })
}

/// TBSCertList.
#[tactic(auto, unfolding(crate::specs::CrlReading::tbs_crl_at))]
fn tbs_crl<'a>(alloc: Global, cursor: &mut Cursor<'a>) -> Result<TbsCrl<'a>, CrlFault>
    ensures { GivesOrMemory (λ t. t) result cursor.new (tbs_crl_at cursor.old) }
{
    let members = cursor.sequence()?;
    tbs_crl_members(alloc, members)
}

/// TBSCertList, and the octets of its element.
#[derive(Drop)]
struct SignedCrl<'a> {
    octets: &'a [u8],
    tbs: TbsCrl<'a>,
}

/// TBSCertList, and the octets of its element.
#[tactic(auto, unfolding(crate::specs::CrlReading::signed_crl_at))]
fn signed_crl<'a>(alloc: Global, cursor: &mut Cursor<'a>) -> Result<SignedCrl<'a>, CrlFault>
    ensures { GivesOrMemory (λ s. (s.octets.now, s.tbs)) result cursor.new (signed_crl_at cursor.old) }
{
    let here = cursor.remaining();
    let tbs = tbs_crl(alloc, cursor)?;
    Ok(SignedCrl {
        octets: &here[..here.len() - cursor.remaining().len()],
        tbs,
    })
}

/// A CRL: the octets that are signed, what they say, and the signature.
#[derive(Debug, Drop)]
pub struct Crl<'a> {
    /// The octets that are signed.
    pub signed: &'a [u8],
    /// What they say.
    pub tbs: TbsCrl<'a>,
    /// The signature.
    pub signature: &'a [u8],
}

impl<'a> Model for Crl<'a> {
    ghost use Rattle.resource_certificates.specs.Crls.{Crl as CrlValue};

    ghost Value = { CrlValue };

    ghost view = { λ c. record { signed = c.signed.now; tbs = c.tbs; signature = c.signature.now } };
}

/// tbsCertList, signatureAlgorithm and signatureValue, and the end.
#[tactic(auto, unfolding(crate::specs::CrlReading::crl_members_at))]
fn crl_members<'a>(alloc: Global, members: Cursor<'a>) -> Result<Crl<'a>, CrlFault>
    ensures { GivesAllOrMemory (λ c. c) result (crl_members_at members.entry) }
{
    let mut members = members;
    let signed = signed_crl(alloc, &mut members)?;
    same_algorithm(&mut members, signed.tbs.algorithm)?;
    let signature = signature_value(&mut members)?;
    members.finish()?;
    Ok(Crl {
        signed: signed.octets,
        tbs: signed.tbs,
        signature,
    })
}

/// CertificateList.
#[tactic(auto, unfolding(crate::specs::CrlReading::crl_at))]
fn read_list<'a>(alloc: Global, cursor: &mut Cursor<'a>) -> Result<Crl<'a>, CrlFault>
    ensures { GivesOrMemory (λ c. c) result cursor.new (crl_at cursor.old) }
{
    let members = cursor.sequence()?;
    crl_members(alloc, members)
}

/// The CRL, and the end.
#[tactic(auto, unfolding(crate::specs::CrlReading::crl_all))]
fn file(alloc: Global, bytes: &[u8]) -> Result<Crl<'_>, CrlFault>
    ensures { GivesAllOrMemory (λ c. c) result (crl_all bytes.now) }
{
    let mut whole = Cursor::new(bytes);
    let list = read_list(alloc, &mut whole)?;
    whole.finish()?;
    Ok(list)
}

/// cRLNumber, and the end.
#[tactic(auto, unfolding(crate::specs::Crls::crl_number_all, der_lite::specs::DerReading::content_at))]
fn crl_number(value: &[u8]) -> Result<&[u8], CertificateFault>
    ensures { GivesAll (λ content. content.now) result (crl_number_all value.now) }
{
    let mut whole = Cursor::new(value);
    let content = whole.integer()?;
    if content[0] >= 128 || content.len() > LONGEST_SERIAL {
        return Err(CertificateFaultKind::CrlNumber.at(0));
    }
    whole.finish()?;
    Ok(content)
}

/// Whether the octets are a cRLNumber.
fn is_crl_number(value: &[u8]) -> bool
    ensures { result ≡ is_ok (crl_number_all value.now) }
{
    match crl_number(value) {
        Ok(_) => true,
        Err(_) => false,
    }
}

/// The first rule over the extensions that is broken.
fn broken(tbs: &TbsCrl) -> Option<CertificateFaultKind>
    ensures { CrlProfiled result tbs.now }
{
    let extensions = &tbs.extensions;
    if !is_key_value(extensions.authority_key) {
        Some(CertificateFaultKind::AuthorityKey)
    } else if !is_crl_number(extensions.number) {
        Some(CertificateFaultKind::CrlNumber)
    } else {
        None
    }
}

/// Reads a CRL (RFC 6487 section 5). The result borrows from `bytes`. Memory is allocated only for the list of serial numbers.
/// `Err(At)`: the first fault. The elements come first, in their order, then what the extensions say, with offset 0. Bytes after the CRL are a fault.
/// `Err(Memory)`: memory ran out. The signature, the time, and who issued the CRL are not judged.
pub fn read_crl(alloc: Global, bytes: &[u8]) -> Result<Crl<'_>, CrlFault>
    ensures { ReadsCrl (λ c. c) result bytes.now }
{
    let list = file(alloc, bytes)?;
    match broken(&list.tbs) {
        Some(kind) => Err(CrlFault::At(kind.at(0))),
        None => Ok(list),
    }
}
