//! Reading a canonical cache representation, from top to bottom.

ghost use Rattle.std.specs.Prelude.{◌≡◌, IfOk};
ghost use Rattle.der_lite.specs.Fields.{optional_at};
ghost use Rattle.der_lite.specs.DerReading.{content_at};
ghost use Rattle.der_forms.specs.CombinatorReading.{fixed_field, found_at};
ghost use Rattle.ccr.specs.Ccr.{begins_as_ccr, id_ccr};
ghost use Rattle.der_forms.specs.Combinators.{barred, begins as begins_with, no_rules};
ghost use Rattle.ccr.specs.CcrReading.{any_list_at, hash_at, plain_members_at, plain_state_at, manifest_members_at, manifest_state_at};
ghost use Rattle.ccr.specs.CcrReading.{vrp_members_at, vrp_state_at, hash_algorithm_at, last_states_at, aspa_states_at, vrp_states_at, states_at};
ghost use Rattle.ccr.specs.CcrReading.{representation_members_at, representation_at, content_at_0, info_members_at, content_info_at, ccr_all};
ghost use Rattle.ccr.specs.Laws.{HasDigest};
ghost use Rattle.ccr.specs.Faults.{kind_number, GivesNext, GivesAll, GivesOrMemory, GivesAllOrMemory, ReadsCcr};

use crate::ccr::{Ccr, VrpState};
use crate::vrp_lists::payload_list;
use crate::{CcrFault, CcrFaultKind, ReadCcrError};
use der_lite::Cursor;
use sha2::{Digest, Sha256};
use std::alloc::Global;

/// The tag of an explicitly tagged [0].
const EXPLICIT_0: u8 = 0xa0;

/// The tag of a SEQUENCE (X.690 section 8.9).
const SEQUENCE: u8 = 0x30;

/// The least first byte of a length of two bytes or more (X.690 section 8.1.3.5).
const LONG_LENGTH: u8 = 0x80;

/// The tag of manifests [1].
const MANIFESTS: u8 = 0xa1;

/// The tag of ROA payloads [2].
const VRPS: u8 = 0xa2;

/// The tag of ASPA payloads [3].
const ASPAS: u8 = 0xa3;

/// The tag of trust anchors [4].
const TRUST_ANCHORS: u8 = 0xa4;

/// The tag of router keys [5].
const ROUTER_KEYS: u8 = 0xa5;

/// id-ct-rpkiCanonicalCacheRepresentation, 1.2.840.113549.1.9.16.1.54.
const ID_CCR: [u8; 11] = [
    0x2a, 0x86, 0x48, 0x86, 0xf7, 0x0d, 0x01, 0x09, 0x10, 0x01, 0x36,
];

/// An AlgorithmIdentifier of id-sha256, 2.16.840.1.101.3.4.2.1: its members.
const SHA_256: [u8; 11] = [
    0x06, 0x09, 0x60, 0x86, 0x48, 0x01, 0x65, 0x03, 0x04, 0x02, 0x01,
];

/// Whether an element of this tag is here.
fn begins(cursor: &Cursor, tag: u8) -> bool
    ensures { result ≡ begins_with tag cursor.now.rest }
{
    cursor.peek_tag() == Some(tag)
}

/// A list that is not looked into: its octets, with tag and length.
#[tactic(auto, unfolding(crate::specs::CcrReading::any_list_at, der_lite::specs::DerReading::content_at))]
fn any_list<'a>(cursor: &mut Cursor<'a>) -> Result<&'a [u8], CcrFault>
    ensures { GivesNext (λ octets. octets.now) result cursor.new (any_list_at cursor.old) }
{
    let here = cursor.remaining();
    cursor.sequence()?;
    Ok(&here[..here.len() - cursor.remaining().len()])
}

/// The hash of a list of these octets.
#[tactic(auto, unfolding(crate::specs::CcrReading::hash_at, der_lite::specs::DerReading::content_at))]
fn hash(cursor: &mut Cursor, octets: &[u8]) -> Result<[u8; 32], CcrFault>
    ensures { GivesNext (λ hash. hash) result cursor.new (hash_at octets.now cursor.old) }
{
    let offset = cursor.offset();
    let digest = Sha256::digest(octets);
    if cursor.octets()? != digest.as_slice() {
        return Err(CcrFaultKind::Hash.at(offset));
    }
    Ok(digest)
}

/// A list that is not looked into, its hash, and the end: the hash.
#[tactic(auto, unfolding(crate::specs::CcrReading::plain_members_at))]
fn plain_members(members: Cursor) -> Result<[u8; 32], CcrFault>
    ensures { GivesAll (λ hash. hash) result (plain_members_at members.entry) }
{
    let mut members = members;
    let octets = any_list(&mut members)?;
    let digest = hash(&mut members, octets)?;
    members.finish()?;
    Ok(digest)
}

/// A state of this tag whose list is not looked into: its hash.
#[tactic(auto, unfolding(crate::specs::CcrReading::plain_state_at))]
fn plain_state(cursor: &mut Cursor, tag: u8) -> Result<[u8; 32], CcrFault>
    ensures { GivesNext (λ hash. hash) result cursor.new (plain_state_at tag cursor.old) }
{
    let mut outer = cursor.tagged(tag)?;
    let members = outer.sequence()?;
    let digest = plain_members(members)?;
    outer.finish()?;
    Ok(digest)
}

/// The list of manifests, mostRecentUpdate, the hash, and the end: the hash.
#[tactic(auto, unfolding(crate::specs::CcrReading::manifest_members_at))]
fn manifest_members(members: Cursor) -> Result<[u8; 32], CcrFault>
    ensures { GivesAll (λ hash. hash) result (manifest_members_at members.entry) }
{
    let mut members = members;
    let octets = any_list(&mut members)?;
    members.time()?;
    let digest = hash(&mut members, octets)?;
    members.finish()?;
    Ok(digest)
}

/// The state of manifests: its hash.
#[tactic(auto, unfolding(crate::specs::CcrReading::manifest_state_at))]
fn manifest_state(cursor: &mut Cursor) -> Result<[u8; 32], CcrFault>
    ensures { GivesNext (λ hash. hash) result cursor.new (manifest_state_at cursor.old) }
{
    let mut outer = cursor.tagged(MANIFESTS)?;
    let members = outer.sequence()?;
    let digest = manifest_members(members)?;
    outer.finish()?;
    Ok(digest)
}

/// The list of payload sets, its hash, and the end.
#[tactic(auto, unfolding(crate::specs::CcrReading::vrp_members_at))]
fn vrp_members(alloc: Global, members: Cursor) -> Result<VrpState, ReadCcrError>
    ensures { GivesAllOrMemory (λ s. s) result (vrp_members_at members.entry) }
{
    let mut members = members;
    let list = payload_list(alloc, &mut members)?;
    let hash = hash(&mut members, list.octets)?;
    members.finish()?;
    Ok(VrpState {
        vrps: list.vrps,
        hash,
    })
}

/// The state of ROA payloads.
#[tactic(auto, unfolding(crate::specs::CcrReading::vrp_state_at))]
fn vrp_state(alloc: Global, cursor: &mut Cursor) -> Result<VrpState, ReadCcrError>
    ensures { GivesOrMemory (λ s. s) result cursor.new (vrp_state_at cursor.old) }
{
    let mut outer = cursor.tagged(VRPS)?;
    let members = outer.sequence()?;
    let state = vrp_members(alloc, members)?;
    outer.finish()?;
    Ok(state)
}

/// The element of this tag here; if one of the other is, this is the fault.
fn element_unless<'a>(
    cursor: &mut Cursor<'a>,
    other: u8,
    tag: u8,
    there: CcrFaultKind,
) -> Result<Cursor<'a>, CcrFault>
    ensures { GivesNext (λ c. c) result cursor.new (found_at (barred (kind_number there) other) tag cursor.old) }
{
    if begins(cursor, other) {
        return Err(there.at(cursor.offset()));
    }
    Ok(cursor.tagged(tag)?)
}

/// hashAlg. A version in its place is `Version`.
#[tactic(auto, unfolding(crate::specs::CcrReading::hash_algorithm_at))]
fn hash_algorithm(cursor: &mut Cursor) -> Result<(), CcrFault>
    ensures { GivesNext (λ _. tt) result cursor.new (hash_algorithm_at cursor.old) }
{
    let offset = cursor.offset();
    let members = element_unless(cursor, EXPLICIT_0, SEQUENCE, CcrFaultKind::Version)?;
    if members.remaining() != SHA_256.as_slice() {
        return Err(CcrFaultKind::HashAlgorithm.at(offset));
    }
    Ok(())
}

/// The hashes of the lists of trust anchors and router keys.
#[derive(Clone, Copy)]
struct LastStates {
    trust_anchors: Option<[u8; 32]>,
    router_keys: Option<[u8; 32]>,
}

/// Router keys, if they are there, and the end.
fn from_router_keys(members: Cursor) -> Result<Option<[u8; 32]>, CcrFault>
    ensures { GivesAll (λ hash. hash) result (optional_at (plain_state_at 165) members.entry) }
{
    let mut members = members;
    if members.at_end() {
        return Ok(None);
    }
    let digest = plain_state(&mut members, ROUTER_KEYS)?;
    members.finish()?;
    Ok(Some(digest))
}

/// Trust anchors, if they are there, router keys, and the end.
#[tactic(auto, unfolding(crate::specs::CcrReading::last_states_at))]
fn from_anchors(members: Cursor) -> Result<LastStates, CcrFault>
    ensures { GivesAll (λ s. (s.trust_anchors, s.router_keys)) result (last_states_at members.entry) }
{
    let mut members = members;
    if !begins(&members, TRUST_ANCHORS) {
        let router_keys = from_router_keys(members)?;
        return Ok(LastStates {
            trust_anchors: None,
            router_keys,
        });
    }
    let trust_anchors = Some(plain_state(&mut members, TRUST_ANCHORS)?);
    let router_keys = from_router_keys(members)?;
    Ok(LastStates {
        trust_anchors,
        router_keys,
    })
}

/// The hashes of the lists of ASPA payloads, trust anchors and router keys.
#[derive(Clone, Copy)]
struct AspaStates {
    aspas: Option<[u8; 32]>,
    last: LastStates,
}

/// ASPA payloads, if they are there, and what follows.
#[tactic(auto, unfolding(crate::specs::CcrReading::aspa_states_at))]
fn from_aspas(members: Cursor) -> Result<AspaStates, CcrFault>
    ensures { GivesAll (λ s. (s.aspas, (s.last.trust_anchors, s.last.router_keys))) result (aspa_states_at members.entry) }
{
    let mut members = members;
    if !begins(&members, ASPAS) {
        let last = from_anchors(members)?;
        return Ok(AspaStates { aspas: None, last });
    }
    let aspas = Some(plain_state(&mut members, ASPAS)?);
    let last = from_anchors(members)?;
    Ok(AspaStates { aspas, last })
}

/// ROA payloads, and what follows them.
#[derive(Drop)]
struct VrpStates {
    vrps: Option<VrpState>,
    rest: AspaStates,
}

/// ROA payloads, if they are there, and what follows.
#[tactic(auto, unfolding(crate::specs::CcrReading::vrp_states_at))]
fn from_vrps(alloc: Global, members: Cursor) -> Result<VrpStates, ReadCcrError>
    ensures { GivesAllOrMemory (λ s. (s.vrps, (s.rest.aspas, (s.rest.last.trust_anchors, s.rest.last.router_keys)))) result (vrp_states_at members.entry) }
{
    let mut members = members;
    if !begins(&members, VRPS) {
        let rest = from_aspas(members)?;
        return Ok(VrpStates { vrps: None, rest });
    }
    let vrps = Some(vrp_state(alloc, &mut members)?);
    let rest = from_aspas(members)?;
    Ok(VrpStates { vrps, rest })
}

/// Manifests, and what follows them.
#[derive(Drop)]
struct States {
    manifests: Option<[u8; 32]>,
    rest: VrpStates,
}

/// Manifests, if they are there, and what follows.
#[tactic(auto, unfolding(crate::specs::CcrReading::states_at))]
fn all_states(alloc: Global, members: Cursor) -> Result<States, ReadCcrError>
    ensures { GivesAllOrMemory (λ s. (s.manifests, (s.rest.vrps, (s.rest.rest.aspas, (s.rest.rest.last.trust_anchors, s.rest.rest.last.router_keys))))) result (states_at members.entry) }
{
    let mut members = members;
    if !begins(&members, MANIFESTS) {
        let rest = from_vrps(alloc, members)?;
        return Ok(States {
            manifests: None,
            rest,
        });
    }
    let manifests = Some(manifest_state(&mut members)?);
    let rest = from_vrps(alloc, members)?;
    Ok(States { manifests, rest })
}

/// hashAlg, producedAt and the states.
#[tactic(auto, unfolding(crate::specs::CcrReading::representation_members_at))]
fn representation_members(alloc: Global, members: Cursor) -> Result<Ccr, ReadCcrError>
    ensures { GivesAllOrMemory (λ c. c) result (representation_members_at members.entry) }
{
    let mut members = members;
    hash_algorithm(&mut members)?;
    let produced_at = members.time()?;
    let states = all_states(alloc, members)?;
    Ok(Ccr {
        produced_at,
        manifests: states.manifests,
        vrps: states.rest.vrps,
        aspas: states.rest.rest.aspas,
        trust_anchors: states.rest.rest.last.trust_anchors,
        router_keys: states.rest.rest.last.router_keys,
    })
}

/// content [0] EXPLICIT.
#[tactic(auto, unfolding(crate::specs::CcrReading::content_at_0, crate::specs::CcrReading::representation_at))]
fn content(alloc: Global, cursor: &mut Cursor) -> Result<Ccr, ReadCcrError>
    ensures { GivesOrMemory (λ c. c) result cursor.new (content_at_0 cursor.old) }
{
    let mut outer = cursor.tagged(EXPLICIT_0)?;
    let members = outer.sequence()?;
    let ccr = representation_members(alloc, members)?;
    outer.finish()?;
    Ok(ccr)
}

/// contentType.
#[tactic(auto, unfolding(der_lite::specs::DerReading::content_at))]
fn content_type(cursor: &mut Cursor) -> Result<(), CcrFault>
    ensures { GivesNext (λ _. tt) result cursor.new (fixed_field (content_at 6 no_rules cursor.old) cursor.old.at 21 id_ccr) }
{
    let offset = cursor.offset();
    if cursor.oid()? != ID_CCR.as_slice() {
        return Err(CcrFaultKind::ContentType.at(offset));
    }
    Ok(())
}

/// ContentInfo, and nothing behind it.
#[tactic(auto, unfolding(crate::specs::CcrReading::ccr_all, crate::specs::CcrReading::content_info_at, crate::specs::CcrReading::info_members_at))]
fn whole(alloc: Global, bytes: &[u8]) -> Result<Ccr, ReadCcrError>
    ensures { GivesAllOrMemory (λ c. c) result (ccr_all bytes.now) }
{
    let mut whole = Cursor::new(bytes);
    let mut members = whole.sequence()?;
    content_type(&mut members)?;
    let ccr = content(alloc, &mut members)?;
    members.finish()?;
    whole.finish()?;
    Ok(ccr)
}

/// Returns whether bytes begin as a canonical cache representation with lists does: with the tag of a SEQUENCE and a length of two bytes or more
/// (X.690 section 8.1.3.5). No JSON text begins so.
pub fn begins_as_ccr(bytes: &[u8]) -> bool
    ensures { result ≡ begins_as_ccr bytes.now }
{
    match (bytes.first(), bytes.get(1)) {
        (Some(tag), Some(length)) => *tag == SEQUENCE && *length >= LONG_LENGTH,
        _ => false,
    }
}

/// Reads a canonical cache representation (draft-ietf-sidrops-rpki-ccr), as rpki-client writes it: ContentInfo in DER. The hash of each list that
/// is there is judged. Of ROA payloads the VRPs are read; the lists of manifests, ASPA payloads, trust anchors and router keys are not looked into.
/// `At`: the bytes are none, and this is the first fault. `Memory`: memory runs out.
pub fn read_ccr(alloc: Global, bytes: &[u8]) -> Result<Ccr, ReadCcrError>
    ensures exact { ReadsCcr (λ c. c) result bytes.now }
    ensures digest { IfOk result (λ c. HasDigest c.1.1.0) }
{
    whole(alloc, bytes)
}
