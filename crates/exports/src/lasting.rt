//! The set of what was gathered, and the last second of each of its members.
ghost use Rattle.std.specs.Prelude.{◌≡◌, ◌==◌, ◌<◌, ◌≤◌, slice_get, Some, true, Err, IfOk, IfErr, OnErr};
ghost use Rattle.std.specs.List.{list_all};
ghost use Rattle.std.specs.List.Sorted.{IsStrictlySortedBy};
ghost use Rattle.prefixes.specs.Payload.{vrp_cmp};
ghost use Rattle.vrps.specs.VrpSet.{has, listing, set_of, size};
ghost use Rattle.exports.specs.Gathering.{SetFails};
ghost use Rattle.exports.specs.Lasting.{AreLasts, last_at};
ghost use Rattle.exports.specs.Numbering.{AreNumbers, number_at};

use crate::anchors::NO_ANCHOR;
use crate::fault::ExportFault;
use prefixes::Vrp;
use std::alloc::{AllocError, Global};
use vrps::VrpSet;

/// The set of these records, if they are not too many.
fn set_from(records: Vec<Vrp>) -> Result<VrpSet, ExportFault>
    ensures ok { IfOk result (λ s. (s ≡ set_of records.items) × (size s ≤ 16777215)) }
    ensures fault { IfErr result (λ fault. SetFails records.items fault) }
    ensures too_many { OnErr result (result ≡ Err ExportFault.TooMany) }
{
    match VrpSet::from_list(records) {
        Ok(set) => {
            let _within_limit = set.len();
            Ok(set)
        }
        Err(_) => Err(ExportFault::TooMany),
    }
}

/// The set of a copy of these records, if they are not too many.
fn set_of_copy(alloc: Global, records: &[Vrp]) -> Result<VrpSet, ExportFault>
    ensures ok { IfOk result (λ s. (s ≡ set_of records.now) × (size s ≤ 16777215)) }
    ensures fault { IfErr result (λ fault. SetFails records.now fault) }
{
    set_from(records.to_vec(alloc)?)
}

/// The index of a member in a listing: the guessed one, or another.
fn place_of(members: &[Vrp], vrp: &Vrp, guess: usize) -> usize
    requires ascends { IsStrictlySortedBy vrp_cmp members.now }
    requires member { has (set_of members.now) vrp.now ≡ true }
    ensures { slice_get members.now result ≡ Some vrp.now }
{
    if guess < members.len() && members[guess] == *vrp {
        return guess;
    }
    match members.binary_search(vrp) {
        Ok(place) => place,
        Err(place) => place,
    }
}

/// The number at a place; past the end `u64::MAX`.
fn last_at(lasts: &[u64], index: usize) -> u64
    ensures { result ≡ last_at lasts.now index }
{
    match lasts.get(index) {
        Some(last) => *last,
        None => u64::MAX,
    }
}

/// The number of a trust anchor at a place; past the end none.
fn number_at(numbers: &[u8], index: usize) -> u8
    ensures { result ≡ number_at numbers.now index }
{
    match numbers.get(index) {
        Some(number) => *number,
        None => NO_ANCHOR,
    }
}

/// For each member of the set of these records the greatest of its last seconds, and the number of one of its trust anchors.
fn lasts_of(
    alloc: Global,
    members: &[Vrp],
    records: &[Vrp],
    lasts: &[u64],
    numbers: &[u8],
) -> Result<(Vec<u64>, Vec<u8>), AllocError>
    requires { members.now ≡ listing (set_of records.now) }
    ensures lasts { IfOk result (λ r. AreLasts records.now lasts.now (set_of records.now) r.0.items) }
    ensures numbers { IfOk result (λ r. AreNumbers records.now numbers.now (set_of records.now) r.1.items) }
{
    let mut found = vec![in alloc; 0u64; members.len()]?;
    let mut of_each = vec![in alloc; NO_ANCHOR; members.len()]?;
    let mut guess = 0usize;
    for (index, vrp) in records.iter().enumerate() {
        let place = place_of(members, vrp, guess);
        found[place] = found[place].max(last_at(lasts, index));
        of_each[place] = number_at(numbers, index);
        guess = place + 1;
    }
    Ok((found, of_each))
}

/// Whether all of these last seconds are the last there is.
fn ends_never(lasts: &[u64]) -> bool
    ensures { result ≡ list_all (λ last. last == 18446744073709551615) lasts.now }
{
    lasts.iter().all(|last| *last == u64::MAX)
}

/// Whether no record has a trust anchor.
fn has_no_anchor(numbers: &[u8]) -> bool
    ensures { result ≡ list_all (λ number. number == 255) numbers.now }
{
    numbers.iter().all(|number| *number == NO_ANCHOR)
}

/// A set, and for each of its members its last second and the number of its trust anchor.
#[derive(Debug, Drop)]
pub struct SetLasting {
    pub(crate) set: VrpSet,
    pub(crate) lasts: Vec<u64>,
    pub(crate) anchors: Vec<u8>,
}

/// The set of these records, and the last second and the trust anchor of each of its members.
pub(crate) fn set_lasting(
    alloc: Global,
    records: Vec<Vrp>,
    lasts: &[u64],
    numbers: &[u8],
) -> Result<SetLasting, ExportFault>
    ensures set { IfOk result (λ made. (made.set ≡ set_of records.items) × (size made.set ≤ 16777215)) }
    ensures lasts { IfOk result (λ made. AreLasts records.items lasts.now made.set made.lasts.items) }
    ensures anchors { IfOk result (λ made. AreNumbers records.items numbers.now made.set made.anchors.items) }
    ensures fault { IfErr result (λ fault. SetFails records.items fault) }
{
    if ends_never(lasts) && has_no_anchor(numbers) {
        let set = set_from(records)?;
        let lasts = vec![in alloc; u64::MAX; set.len()]?;
        let anchors = vec![in alloc; NO_ANCHOR; set.len()]?;
        return Ok(SetLasting {
            set,
            lasts,
            anchors,
        });
    }
    let set = set_of_copy(alloc, records.as_slice())?;
    let (lasts, anchors) = lasts_of(alloc, set.as_slice(), records.as_slice(), lasts, numbers)?;
    Ok(SetLasting {
        set,
        lasts,
        anchors,
    })
}
