//! How an offer is judged.

ghost use Rattle.std.specs.Prelude.{◌≡◌, List, ◌++◌, OnOk};
ghost use Rattle.std.specs.Option.{option_copied, option_to_list};
ghost use Rattle.der_lite.specs.Moments.{moment_before};
ghost use Rattle.points.specs.declared.file.FileIn.{FileIn as File};
ghost use Rattle.points.specs.Offers.{first_that_holds, manifest_tests};
ghost use Rattle.points.specs.Accepted.{IsPoint};
ghost use Rattle.points.specs.Finding.{AreFiles};
ghost use Rattle.points.specs.OfferSteps.{told_of, ReadsManifest, ReadsRoa, TakesFile, TakesFiles, TakesOffer};

use crate::accepted::{Accepted, know_accepted};
use crate::finding::FilesByName;
use crate::numbers::is_higher;
use crate::objects::{has_hash, is_roa_name};
use crate::{FileIn, PointFault};
use der_lite::Moment;
use payloads::{ListedFile, Manifest, PayloadFault, Roa, decode_manifest, decode_roa};
use std::alloc::{AllocError, Global};

/// What a point that accepted `before` accepts now, or `None` if that is what it accepted last.
pub(crate) fn judge(
    alloc: Global,
    before: Option<&Accepted>,
    bytes: &[u8],
    files: &[FileIn],
    now: &Moment,
) -> Result<Option<Accepted>, PointFault>
    ensures value { TakesOffer result (option_copied before.entry) bytes.now files.now now.now }
    ensures point { IsPoint (option_copied before.entry) }
{
    know_accepted(before);
    let manifest = read_manifest(alloc, bytes)?;
    if is_accepted(before, &manifest, bytes, now)? {
        return Ok(None);
    }
    let found = FilesByName::over(alloc, files)?;
    let roas = take_files(alloc, manifest.files(), &found)?;
    let bytes = Vec::from_slice(alloc, bytes)?;
    Ok(Some(Accepted {
        bytes,
        manifest,
        roas,
    }))
}

/// The manifest that the bytes spell, or their first fault.
fn read_manifest(alloc: Global, bytes: &[u8]) -> Result<Manifest, PointFault>
    ensures { ReadsManifest result bytes.now }
{
    match decode_manifest(alloc, bytes) {
        Ok(manifest) => Ok(manifest),
        Err(PayloadFault::At(fault)) => Err(PointFault::Manifest(fault)),
        Err(PayloadFault::Memory) => Err(PointFault::Memory),
    }
}

/// Whether the bytes of the manifest are those accepted last; or `NotYet`, `Stale`, `OldNumber` or
/// `OldTime`, in their order.
fn is_accepted(
    before: Option<&Accepted>,
    manifest: &Manifest,
    bytes: &[u8],
    now: &Moment,
) -> Result<bool, PointFault>
    ensures { told_of result ≡ first_that_holds (manifest_tests (option_copied before.entry) manifest.now bytes.now now.now) }
{
    if is_before(now, manifest.this_update()) {
        return Err(PointFault::NotYet);
    }
    if is_before(manifest.next_update(), now) {
        return Err(PointFault::Stale);
    }
    let Some(last) = before else {
        return Ok(false);
    };
    if last.bytes.as_slice() == bytes {
        return Ok(true);
    }
    if !is_higher(manifest.number(), last.manifest.number()) {
        return Err(PointFault::OldNumber);
    }
    if !is_before(last.manifest.this_update(), manifest.this_update()) {
        return Err(PointFault::OldTime);
    }
    Ok(false)
}

/// Whether the first moment is before the second.
#[tactic(auto, unfolding(der_lite::specs::Moments::moment_before))]
pub(crate) fn is_before(one: &Moment, other: &Moment) -> bool
    ensures { result ≡ moment_before one.now other.now }
{
    one < other
}

/// The ROAs of the listed files, or the first fault: of the least file `Missing`, `HashDiffers`,
/// `Roa`, in their order.
fn take_files(
    alloc: Global,
    listed: &[ListedFile],
    found: &FilesByName,
) -> Result<Vec<Roa>, PointFault>
    ensures { (files : List File) → AreFiles found.now.map files → TakesFiles (λ roas. roas.items) result listed.now files }
{
    let mut roas = Vec::new(alloc);
    for (index, file) in listed.iter().enumerate() {
        let roa = take_file(alloc, index, file, found)?;
        add(&mut roas, roa)?;
    }
    Ok(roas)
}

/// Adds a ROA if there is one.
fn add(roas: &mut Vec<Roa>, roa: Option<Roa>) -> Result<(), AllocError>
    ensures { OnOk result (roas.new.items ≡ roas.old.items ++ option_to_list roa) }
{
    if let Some(roa) = roa {
        roas.push(roa)?;
    }
    Ok(())
}

/// The ROA of the listed file of this index, if it is one; or `Missing`, `HashDiffers`, `Roa`, in
/// their order.
fn take_file(
    alloc: Global,
    index: usize,
    listed: &ListedFile,
    found: &FilesByName,
) -> Result<Option<Roa>, PointFault>
    ensures { (files : List File) → AreFiles found.now.map files → TakesFile result index listed.now files }
{
    let Some(file) = found.named(listed.name()) else {
        return Err(PointFault::Missing(index));
    };
    if !has_hash(file.object, listed.hash()) {
        return Err(PointFault::HashDiffers(index));
    }
    if !is_roa_name(listed.name()) {
        return Ok(None);
    }
    let roa = read_roa(alloc, index, file.content)?;
    Ok(Some(roa))
}

/// The ROA that the content spells, or its first fault at the listed file of this index.
fn read_roa(alloc: Global, index: usize, content: &[u8]) -> Result<Roa, PointFault>
    ensures { ReadsRoa result index content.now }
{
    match decode_roa(alloc, content) {
        Ok(roa) => Ok(roa),
        Err(PayloadFault::At(fault)) => Err(PointFault::Roa(index, fault)),
        Err(PayloadFault::Memory) => Err(PointFault::Memory),
    }
}
