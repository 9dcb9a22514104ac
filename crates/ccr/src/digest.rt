//! The canonical form of a set of VRPs, and its hash.

ghost use Rattle.std.specs.Prelude.{◌≡◌, ◌*◌, ◌≤◌, length, IfOk};
ghost use Rattle.std.specs.List.Sorted.{IsNonDecreasingBy};
ghost use Rattle.sha2.specs.Sha256.{sha256};
ghost use Rattle.ccr.specs.Canonical.{canonical, payload_sets};

use crate::by_as::{by_as, first_run};
use crate::payload_set::add_payload_set;
use der_lite::DerWriter;
use prefixes::Vrp;
use sha2::{Digest, Sha256};
use std::alloc::{AllocError, Global};
use vrps::VrpSet;

/// Returns the canonical form of the VRPs of a set: the DER of a SEQUENCE OF ROAPayloadSet, as rpki-client writes it in a canonical cache
/// representation. There is one ROAPayloadSet for each AS, in ascending order. The entries of an AS ascend by family (IPv4 first), address,
/// prefix length and maximum length. An entry has no maximum length if it is the length of the prefix. `AllocError`: memory runs out.
pub fn encode_vrps(alloc: Global, set: &VrpSet) -> Result<Vec<u8>, AllocError>
    ensures { IfOk result (λ bytes. bytes.items ≡ canonical set.now) }
{
    let list = by_as(alloc, set)?;
    let sets = payload_sets(alloc, list.as_slice())?;
    let mut sequence = DerWriter::new(alloc);
    sequence.sequence(sets.as_slice())?;
    Ok(sequence.into_bytes())
}

/// Returns the SHA-256 of the canonical form of the VRPs of a set ([`encode_vrps`]). Two caches with the same VRPs have the same digest. It is the
/// hash beside the ROAPayloadSets of a canonical cache representation, and rpki-client prints it as `CCR ROA payloads hash`.
/// `AllocError`: memory runs out.
pub fn vrps_digest(alloc: Global, set: &VrpSet) -> Result<[u8; 32], AllocError>
    ensures { IfOk result (λ digest. digest ≡ sha256 (canonical set.now)) }
{
    let bytes = encode_vrps(alloc, set)?;
    Ok(Sha256::digest(bytes.as_slice()))
}

/// The ROAPayloadSets of VRPs whose AS numbers ascend.
fn payload_sets(alloc: Global, list: &[Vrp]) -> Result<DerWriter, AllocError>
    requires sorted { IsNonDecreasingBy (λ v. v.asn) list.now }
    requires few { length list.now ≤ 16777215 }
    ensures value { IfOk result (λ sets. sets ≡ payload_sets list.now) }
    ensures short { IfOk result (λ sets. length sets ≤ 200 * length list.now) }
{
    let mut sets = DerWriter::new(alloc);
    let mut rest = list;
    while !rest.is_empty() {
        let asn = rest[0].asn();
        let (group, behind) = rest.split_at(first_run(rest));
        add_payload_set(alloc, &mut sets, asn, group)?;
        rest = behind;
    }
    Ok(sets)
}
