//! ROAs.

ghost use Rattle.std.specs.Prelude.{◌≡◌, IfOk};
ghost use Rattle.std.specs.Cmp.{partial_equiv_from_equiv};
ghost use Rattle.payloads.specs.RoaValues.{payloads_of, roa_eq, roa_equiv};
ghost use Rattle.payloads.specs.Gives.{Decodes};
ghost use Rattle.payloads.specs.RoaRefusal.{roa_refusal, IsRoa, Makes, Finds};

use crate::roa_entries::Entries;
use crate::roa_reading::route_origin_attestation;
use crate::{GrammarFaultKind, PayloadFault, RoaEntry, ValueFault};
use prefixes::{Asn, Vrp};
use std::alloc::{AllocError, Global};
use std::marker::Model;

/// A ROA (RFC 9582 section 4): an AS number, and one or more entries with the prefixes that the AS may originate.
/// The entries ascend strictly by family, address, prefix length and maximum length.
#[derive(Clone, Debug, Drop)]
pub struct Roa {
    asn: Asn,
    entries: Vec<RoaEntry>,
}

impl Model for Roa {
    ghost use Rattle.payloads.specs.RoaValues.{RoaValue};
    ghost use Rattle.payloads.specs.RoaRefusal.{IsRoa};

    ghost Value = { RoaValue };

    ghost view = { λ r. record { asn = r.asn.0; entries = r.entries.items } };

    ghost invariant = { λ r. IsRoa r.entries.items };
}

impl PartialEq for Roa {
    ghost eq = { roa_eq };

    ghost laws = { partial_equiv_from_equiv roa_equiv };

    fn eq(&self, other: &Roa) -> bool {
        self.entries == other.entries && self.asn == other.asn
    }
}

impl Eq for Roa {
    ghost laws = { roa_equiv };
}

impl Roa {
    /// Makes a ROA of an AS number and its entries. The entries are checked, not sorted.
    ///
    /// `Err`: the first fault, with the index of its entry, from 0. `Empty` (index 0): there are no entries. Then entry by entry: `TooMany` (more
    /// than 65,536), `Order` (IPv4 after IPv6), `MaxLength`, `MaxLengthSuperfluous`, `Order` (not above the entry before it).
    pub fn new(asn: Asn, entries: Vec<RoaEntry>) -> Result<Roa, ValueFault>
        ensures { Makes result asn.0 entries.items }
    {
        match refusal(entries.as_slice()) {
            Some(fault) => Err(fault),
            None => Ok(Roa { asn, entries }),
        }
    }

    /// The AS number that may originate the prefixes. AS 0: no route matches the VRPs of the ROA (RFC 6483 section 4).
    pub fn asn(&self) -> Asn
        ensures { result.0 ≡ self.now.asn }
    {
        self.asn
    }

    /// The entries, in strictly ascending order. There is at least one.
    pub fn entries(&self) -> &[RoaEntry]
        ensures value { result.now ≡ self.now.entries }
        ensures right { IsRoa result.now }
    {
        &self.entries
    }

    /// Returns the VRPs of the ROA: one for each entry, in the same order.
    /// If an entry has no maximum length, its VRP has the length of the prefix. An error means that memory runs out.
    pub fn vrps(&self, alloc: Global) -> Result<Vec<Vrp>, AllocError>
        ensures { IfOk result (λ vrps. vrps.items ≡ payloads_of self.now) }
    {
        let mut vrps = Vec::with_capacity(alloc, self.entries.len())?;
        for entry in self.entries.iter() {
            vrps.push(entry.vrp(self.asn))?;
        }
        Ok(vrps)
    }
}

/// The first fault of the entries of a ROA.
#[tactic(auto, unfolding(crate::specs::RoaRefusal::roa_refusal))]
fn refusal(entries: &[RoaEntry]) -> Option<ValueFault>
    ensures { Finds result (roa_refusal entries.now) }
{
    if entries.is_empty() {
        return Some(ValueFault {
            kind: GrammarFaultKind::Empty,
            index: 0,
        });
    }
    let mut before = None;
    for (index, entry) in entries.iter().enumerate() {
        if let Some(kind) = entry.fault(index, before) {
            return Some(ValueFault { kind, index });
        }
        before = Some(entry);
    }
    None
}

/// Decodes a ROA payload (RFC 9582 section 4) whose entries ascend, without a maximum length that equals the prefix length. `At`: the bytes are
/// no such payload, and this is the first fault.
/// `Memory`: memory runs out. The whole payload is checked before memory is asked for.
pub fn decode_roa(alloc: Global, payload: &[u8]) -> Result<Roa, PayloadFault>
    ensures { Decodes result payload.now }
{
    let mut counted = Entries::counted(alloc);
    route_origin_attestation(payload, &mut counted)?;
    let mut listed = Entries::with_room(alloc, counted.count())?;
    let asn = route_origin_attestation(payload, &mut listed)?;
    Ok(Roa {
        asn,
        entries: listed.into_list(),
    })
}
