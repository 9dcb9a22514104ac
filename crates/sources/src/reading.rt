//! Reading the content of a file: an export in JSON, or a canonical cache representation.
ghost use Rattle.std.specs.Prelude.{◌≡◌, IfErr, IfOk};
ghost use Rattle.sources.specs.Ccrs.{IsCcrRefused};
ghost use Rattle.sources.specs.Served.{IsLoaded, IsTakenCcr, IsUnread};

use crate::fault::{TakeCcrFault, TakeFault};
use crate::listed::Listed;
use ccr::{begins_as_ccr, read_ccr};
use exports::{Export, ExportCounted, ExportLasting, read_export_counted};
use std::alloc::Global;
use vrps::VrpSet;

/// Reads the content of a file at `now`, in seconds since 1970. The result is what is kept of it, and how many of its entries have expired.
pub(crate) fn read_listed(
    alloc: Global,
    max_age: Option<u64>,
    bytes: &[u8],
    now: u64,
) -> Result<(Listed, u64), TakeFault>
    ensures loaded { IfOk result (λ read. IsLoaded max_age bytes.now now read.1 read.0) }
    ensures unread { IfErr result (IsUnread max_age bytes.now now) }
{
    if begins_as_ccr(bytes) {
        return Ok(read_ccr_listed(alloc, max_age, bytes, now)?);
    }
    let read = read_export_counted(alloc, bytes, now)?;
    Ok(listed_of(read))
}

/// Reads a canonical cache representation at `now`.
#[tactic(auto, using(crate::proofs::Until::no_lasts))]
fn read_ccr_listed(
    alloc: Global,
    max_age: Option<u64>,
    bytes: &[u8],
    now: u64,
) -> Result<(Listed, u64), TakeCcrFault>
    ensures taken { IfOk result (λ read. IsTakenCcr max_age bytes.now now read.1 read.0) }
    ensures refused { IfErr result (IsCcrRefused max_age bytes.now) }
{
    let Some(age) = max_age else {
        return Err(TakeCcrFault::NoMaxAge);
    };
    let ccr = read_ccr(alloc, bytes)?;
    let built = ccr.produced_at.seconds();
    let Some(state) = ccr.vrps else {
        return Err(TakeCcrFault::NoVrps);
    };
    let set = VrpSet::from_list(state.vrps)?;
    let last = built.saturating_add(age);
    if last < now {
        let expired = set.len() as u64;
        return Ok((Listed::ended(alloc, built), expired));
    }
    Ok((Listed::ending(alloc, set, last, Some(built))?, 0))
}

/// What is kept of an export, and how many of its entries did not count.
fn listed_of(read: ExportCounted) -> (Listed, u64)
    ensures list { (result.0.set ≡ read.lasting.export.set) × (result.0.lasts ≡ read.lasting.lasts) × (result.0.built ≡ read.lasting.export.built) }
    ensures ignored { result.0.ignored ≡ read.ignored }
    ensures anchors { result.0.anchors ≡ read.anchors }
    ensures expired { result.1 ≡ read.lasting.export.expired }
{
    let ExportCounted {
        lasting,
        ignored,
        anchors,
    } = read;
    let ExportLasting {
        export,
        until: _,
        lasts,
    } = lasting;
    let Export {
        set,
        expired,
        built,
    } = export;
    let list = Listed {
        set,
        lasts,
        built,
        ignored,
        anchors,
    };
    (list, expired)
}
