//! The list of payload sets of a canonical cache representation.

ghost use Rattle.std.specs.Prelude.{◌≡◌};
ghost use Rattle.ccr.specs.CcrReading.{payloads_at, payload_list_at};
ghost use Rattle.ccr.specs.Faults.{GivesOrMemory, GivesAllOrMemory};

use crate::ReadCcrError;
use crate::attestation::payload_set;
use der_lite::Cursor;
use prefixes::Vrp;
use std::alloc::Global;

/// The octets of a list of payload sets, and its VRPs.
#[derive(Drop)]
pub(crate) struct PayloadList<'a> {
    /// The octets, with tag and length.
    pub(crate) octets: &'a [u8],
    /// The VRPs, in the order of the list.
    pub(crate) vrps: Vec<Vrp>,
}

/// The payload sets to the end: their VRPs.
fn payloads(alloc: Global, members: Cursor) -> Result<Vec<Vrp>, ReadCcrError>
    ensures { GivesAllOrMemory (λ vrps. vrps.items) result (payloads_at members.entry) }
{
    let mut members = members;
    let mut vrps = Vec::new(alloc);
    let mut before = None;
    while !members.at_end() {
        let asn = payload_set(&mut members, before, &mut vrps)?;
        before = Some(asn);
    }
    Ok(vrps)
}

/// The list of payload sets.
#[tactic(auto, unfolding(crate::specs::CcrReading::payload_list_at))]
pub(crate) fn payload_list<'a>(
    alloc: Global,
    cursor: &mut Cursor<'a>,
) -> Result<PayloadList<'a>, ReadCcrError>
    ensures { GivesOrMemory (λ l. (l.octets.now, l.vrps.items)) result cursor.new (payload_list_at cursor.old) }
{
    let here = cursor.remaining();
    let members = cursor.sequence()?;
    let vrps = payloads(alloc, members)?;
    Ok(PayloadList {
        octets: &here[..here.len() - cursor.remaining().len()],
        vrps,
    })
}
