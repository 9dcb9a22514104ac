//! URIs in extensions (RFC 6487 sections 4.8.6 to 4.8.8).

ghost use Rattle.std.specs.Prelude.{◌≡◌, option_map, [], ◌∷◌, ◌++◌, List, ℕ};
ghost use Rattle.std.specs.Option.{option_or};
ghost use Rattle.der_lite.specs.Der.{tag_of};
ghost use Rattle.der_lite.specs.Decoding.{read_each};
ghost use Rattle.resource_certificates.specs.Gives.{GivesNext, GivesAll};
ghost use Rattle.resource_certificates.specs.PlaceGives.{GivesFirst, GivesAccesses};
ghost use Rattle.resource_certificates.specs.Places.{is_uri as is_uri_of, rsync_uri as rsync_uri_of, is_method as is_method_of, own_place as own_place_of};
ghost use Rattle.resource_certificates.specs.Places.{any_at, full_name_at, distribution_name_at, distribution_point_at, distribution_points_at, points_all};
ghost use Rattle.resource_certificates.specs.Places.{access_at, access_list_at, accesses_all, uri_or, accesses_or, crl_uri_of as crl_uri_of_value, accesses_of as accesses_of_value};

use crate::CertificateFault;
use crate::elements::EXPLICIT_0;
use crate::name::is_ascii;
use der_lite::Cursor;
use std::marker::Model;

/// The tag of a uniformResourceIdentifier [6] (RFC 5280 section 4.2.1.6).
const URI: u8 = 0x86;

/// How a URI of rsync begins (RFC 5781).
const RSYNC: [u8; 8] = [0x72, 0x73, 0x79, 0x6e, 0x63, 0x3a, 0x2f, 0x2f];

/// How a URI of HTTPS begins.
const HTTPS: [u8; 8] = [0x68, 0x74, 0x74, 0x70, 0x73, 0x3a, 0x2f, 0x2f];

/// id-ad-caIssuers, an arc of id-ad (RFC 5280 section 4.2.2.1).
const ISSUERS: u8 = 2;

/// id-ad-caRepository (RFC 5280 section 4.2.2.2).
const REPOSITORY: u8 = 5;

/// id-ad-rpkiManifest (RFC 6487 section 4.8.8.1).
const MANIFEST: u8 = 10;

/// id-ad-signedObject (RFC 6487 section 4.8.8.2).
const OBJECT: u8 = 11;

/// id-ad-rpkiNotify (RFC 8182 section 3.2).
const NOTIFY: u8 = 13;

/// A name: its tag, and the octets of its content.
#[derive(Clone, Copy)]
struct GeneralName<'a> {
    tag: u8,
    content: &'a [u8],
}

/// The tag here; 0 at the end.
fn tag_here(cursor: &Cursor) -> u8
    ensures { result ≡ tag_of cursor.now.rest }
{
    cursor.peek_tag().unwrap_or(0)
}

/// The element here, whatever its tag.
#[tactic(auto, unfolding(crate::specs::Places::any_at, der_lite::specs::DerReading::content_at))]
fn any_element<'a>(cursor: &mut Cursor<'a>) -> Result<GeneralName<'a>, CertificateFault>
    ensures { GivesNext (λ n. (n.tag, n.content.now)) result cursor.new (any_at cursor.old) }
{
    let tag = tag_here(cursor);
    let content = cursor.tagged(tag)?.remaining();
    Ok(GeneralName { tag, content })
}

/// Whether a name is a URI that begins so.
#[tactic(auto, unfolding(crate::specs::Places::is_uri))]
fn is_uri(name: &GeneralName, scheme: &[u8; 8]) -> bool
    ensures { result ≡ is_uri_of scheme.now (name.now.tag, name.now.content.now) }
{
    name.tag == URI && is_ascii(name.content) && name.content.starts_with(scheme.as_slice())
}

/// The URI of rsync that a name is, if it is one.
fn rsync_uri<'a>(name: &GeneralName<'a>) -> Option<&'a [u8]>
    ensures { option_map (λ u. u.now) result ≡ rsync_uri_of (name.now.tag, name.now.content.now) }
{
    if is_uri(name, &RSYNC) {
        return Some(name.content);
    }
    None
}

/// The first of two that is there.
fn first_of<'a>(one: Option<&'a [u8]>, other: Option<&'a [u8]>) -> Option<&'a [u8]>
    ensures { option_map (λ u. u.now) result ≡ option_or (option_map (λ u. u.now) one.entry) (option_map (λ u. u.now) other.entry) }
{
    one.or(other)
}

/// The first rsync URI among names, to the end.
fn each_name<'a>(members: Cursor<'a>) -> Result<Option<&'a [u8]>, CertificateFault>
    ensures { GivesFirst (λ o. option_map (λ u. u.now) o) result (read_each (λ _. any_at) members.entry) }
{
    let mut members = members;
    let mut first = None;
    while !members.at_end() {
        let name = any_element(&mut members)?;
        first = first_of(first, rsync_uri(&name));
    }
    Ok(first)
}

/// fullName [0].
#[tactic(auto, unfolding(crate::specs::Places::full_name_at))]
fn full_name<'a>(cursor: &mut Cursor<'a>) -> Result<Option<&'a [u8]>, CertificateFault>
    ensures { GivesNext (λ o. option_map (λ u. u.now) o) result cursor.new (full_name_at cursor.old) }
{
    let members = cursor.tagged(EXPLICIT_0)?;
    each_name(members)
}

/// distributionPoint [0].
#[tactic(auto, unfolding(crate::specs::Places::distribution_name_at))]
fn distribution_name<'a>(cursor: &mut Cursor<'a>) -> Result<Option<&'a [u8]>, CertificateFault>
    ensures { GivesNext (λ o. option_map (λ u. u.now) o) result cursor.new (distribution_name_at cursor.old) }
{
    let mut members = cursor.tagged(EXPLICIT_0)?;
    let uri = full_name(&mut members)?;
    members.finish()?;
    Ok(uri)
}

/// DistributionPoint: its name alone.
#[tactic(auto, unfolding(crate::specs::Places::distribution_point_at))]
fn distribution_point<'a>(cursor: &mut Cursor<'a>) -> Result<Option<&'a [u8]>, CertificateFault>
    ensures { GivesNext (λ o. option_map (λ u. u.now) o) result cursor.new (distribution_point_at cursor.old) }
{
    let mut members = cursor.sequence()?;
    let uri = distribution_name(&mut members)?;
    members.finish()?;
    Ok(uri)
}

/// cRLDistributionPoints: one.
#[tactic(auto, unfolding(crate::specs::Places::distribution_points_at))]
fn distribution_points<'a>(cursor: &mut Cursor<'a>) -> Result<Option<&'a [u8]>, CertificateFault>
    ensures { GivesNext (λ o. option_map (λ u. u.now) o) result cursor.new (distribution_points_at cursor.old) }
{
    let mut members = cursor.sequence()?;
    let uri = distribution_point(&mut members)?;
    members.finish()?;
    Ok(uri)
}

/// cRLDistributionPoints, and the end.
#[tactic(auto, unfolding(crate::specs::Places::points_all))]
fn read_points(value: &[u8]) -> Result<Option<&[u8]>, CertificateFault>
    ensures { GivesAll (λ o. option_map (λ u. u.now) o) result (points_all value.now) }
{
    let mut whole = Cursor::new(value);
    let uri = distribution_points(&mut whole)?;
    whole.finish()?;
    Ok(uri)
}

/// The first rsync URI of the one DistributionPoint.
fn uri_in(value: &[u8]) -> Option<&[u8]>
    ensures { option_map (λ u. u.now) result ≡ uri_or (points_all value.now) }
{
    read_points(value).unwrap_or(None)
}

/// AccessDescription: the method and the location.
#[derive(Clone, Copy)]
struct Access<'a> {
    method: &'a [u8],
    location: GeneralName<'a>,
}

/// AccessDescription.
#[tactic(auto, unfolding(crate::specs::Places::access_at))]
fn read_access<'a>(cursor: &mut Cursor<'a>) -> Result<Access<'a>, CertificateFault>
    ensures { GivesNext (λ a. (a.method.now, (a.location.tag, a.location.content.now))) result cursor.new (access_at cursor.old) }
{
    let mut members = cursor.sequence()?;
    let method = members.oid()?;
    let location = any_element(&mut members)?;
    members.finish()?;
    Ok(Access { method, location })
}

/// Whether a description is of this method, an arc of id-ad.
fn is_method(access: &Access, arc: u8) -> bool
    ensures { result ≡ is_method_of arc (access.now.method.now, (access.now.location.tag, access.now.location.content.now)) }
{
    access.method == [0x2b, 6, 1, 5, 5, 7, 48, arc].as_slice()
}

/// The rsync URI of a description, if it is of this method.
fn own_place<'a>(access: &Access<'a>, arc: u8) -> Option<&'a [u8]>
    ensures { option_map (λ u. u.now) result ≡ own_place_of arc (access.now.method.now, (access.now.location.tag, access.now.location.content.now)) }
{
    if is_method(access, arc) {
        return rsync_uri(&access.location);
    }
    None
}

/// What authorityInfoAccess or subjectInfoAccess says: of each method the first rsync URI.
#[derive(Drop)]
pub(crate) struct Accesses<'a> {
    pub(crate) issuer: Option<&'a [u8]>,
    pub(crate) repository: Option<&'a [u8]>,
    pub(crate) manifest: Option<&'a [u8]>,
    pub(crate) object: Option<&'a [u8]>,
    pub(crate) other: bool,
    pub(crate) notify: bool,
    pub(crate) bad_notify: bool,
}

impl<'a> Model for Accesses<'a> {
    ghost use Rattle.std.specs.Prelude.{option_map};
    ghost use Rattle.resource_certificates.specs.Places.{Accesses as AccessesValue};

    ghost Value = { AccessesValue };

    ghost view = { λ a. record {
      issuer = option_map (λ u. u.now) a.issuer;
      repository = option_map (λ u. u.now) a.repository;
      manifest = option_map (λ u. u.now) a.manifest;
      object = option_map (λ u. u.now) a.object;
      other = a.other;
      notify = a.notify;
      bad_notify = a.bad_notify;
    } };
}

impl<'a> Accesses<'a> {
    ghost use Rattle.resource_certificates.specs.Places.{accesses_in};
    ghost use Rattle.resource_certificates.specs.PlaceGives.{put_access};

    /// No descriptions.
    fn new() -> Accesses<'a>
        ensures { result ≡ accesses_in [] }
    {
        Accesses {
            issuer: None,
            repository: None,
            manifest: None,
            object: None,
            other: false,
            notify: false,
            bad_notify: false,
        }
    }

    /// One description more.
    fn put(&self, access: &Access<'a>) -> Accesses<'a>
        ensures { result ≡ put_access self.now (access.now.method.now, (access.now.location.tag, access.now.location.content.now)) }
    {
        let is_notify = is_method(access, NOTIFY);
        Accesses {
            issuer: first_of(self.issuer, own_place(access, ISSUERS)),
            repository: first_of(self.repository, own_place(access, REPOSITORY)),
            manifest: first_of(self.manifest, own_place(access, MANIFEST)),
            object: first_of(self.object, own_place(access, OBJECT)),
            other: self.other || !(is_method(access, OBJECT) || is_notify),
            notify: self.notify || is_notify,
            bad_notify: self.bad_notify
                || is_notify && (!is_uri(&access.location, &HTTPS) || self.notify),
        }
    }
}

/// The descriptions, to the end.
fn each_access<'a>(members: Cursor<'a>) -> Result<Accesses<'a>, CertificateFault>
    ensures { GivesAccesses (λ a. a) result (read_each (λ _. access_at) members.entry) }
{
    let mut members = members;
    let mut found = Accesses::new();
    while !members.at_end() {
        let access = read_access(&mut members)?;
        found = found.put(&access);
    }
    Ok(found)
}

/// authorityInfoAccess or subjectInfoAccess.
#[tactic(auto, unfolding(crate::specs::Places::access_list_at))]
fn access_list<'a>(cursor: &mut Cursor<'a>) -> Result<Accesses<'a>, CertificateFault>
    ensures { GivesNext (λ a. a) result cursor.new (access_list_at cursor.old) }
{
    let members = cursor.sequence()?;
    each_access(members)
}

/// authorityInfoAccess or subjectInfoAccess, and the end.
#[tactic(auto, unfolding(crate::specs::Places::accesses_all))]
fn read_accesses(value: &[u8]) -> Result<Accesses<'_>, CertificateFault>
    ensures { GivesAll (λ a. a) result (accesses_all value.now) }
{
    let mut whole = Cursor::new(value);
    let found = access_list(&mut whole)?;
    whole.finish()?;
    Ok(found)
}

/// What these descriptions say: nothing, if they are something else.
fn accesses_in_value(value: &[u8]) -> Accesses<'_>
    ensures { result ≡ accesses_or (accesses_all value.now) }
{
    read_accesses(value).unwrap_or(Accesses::new())
}

/// The first rsync URI of cRLDistributionPoints, if it is one DistributionPoint with names alone.
pub(crate) fn crl_uri_of(found: Option<&[u8]>) -> Option<&[u8]>
    ensures { option_map (λ u. u.now) result ≡ crl_uri_of_value (option_map (λ v. v.now) found.entry) }
{
    match found {
        Some(value) => uri_in(value),
        None => None,
    }
}

/// What the extension says: nothing, if it is not there or is something else.
pub(crate) fn accesses_of(found: Option<&[u8]>) -> Accesses<'_>
    ensures { result ≡ accesses_of_value (option_map (λ v. v.now) found.entry) }
{
    match found {
        Some(value) => accesses_in_value(value),
        None => Accesses::new(),
    }
}
