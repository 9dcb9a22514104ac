//! Writing the payload of a manifest, each element from its members outwards (RFC 9286 section 4.2).

ghost use Rattle.std.specs.Prelude.{◌≡◌, ◌++◌, length, IfOk, IsTrue, OnOk, ◌≤◌};
ghost use Rattle.der_lite.specs.Moments.{is_moment};
ghost use Rattle.std.specs.List.{All};
ghost use Rattle.payloads.specs.Manifest.{ManifestSpells};
ghost use Rattle.payloads.specs.ManifestBytes.{file_bytes, files_bytes, front_bytes};
ghost use Rattle.payloads.specs.ManifestRefusal.{HasShortName, HasHash};

use crate::manifest_reading::SHA_256;
use crate::{ListedFile, Manifest};
use der_lite::{Bits, DerWriter};
use std::alloc::{AllocError, Global};

/// Encodes a manifest as its payload (RFC 9286 section 4). It has no other encoding. An error means that memory runs out.
pub fn encode_manifest(alloc: Global, manifest: &Manifest) -> Result<Vec<u8>, AllocError>
    ensures { IfOk result (λ bytes. ManifestSpells manifest.now bytes.items) }
{
    let files = files(alloc, manifest.files())?;
    let mut members = front(alloc, manifest)?;
    members.sequence(files.as_slice())?;
    let mut payload = DerWriter::new(alloc);
    payload.sequence(members.as_slice())?;
    Ok(payload.into_bytes())
}

/// The fields in front of the list of files (4.2.1).
#[tactic(auto, unfolding(crate::specs::ManifestBytes::front_bytes))]
fn front(alloc: Global, manifest: &Manifest) -> Result<DerWriter, AllocError>
    ensures bytes { IfOk result (λ front. front ≡ front_bytes manifest.now) }
    ensures real { IfOk result (λ _. IsTrue (is_moment manifest.now.this_update) × IsTrue (is_moment manifest.now.next_update)) }
{
    let mut front = DerWriter::new(alloc);
    front.integer(manifest.number())?;
    front.time(manifest.this_update())?;
    front.time(manifest.next_update())?;
    front.oid(SHA_256.as_slice())?;
    Ok(front)
}

/// The files, in their order (4.2.1).
fn files(alloc: Global, files: &[ListedFile]) -> Result<DerWriter, AllocError>
    requires { All HasShortName files.now }
    ensures { IfOk result (λ list. (list ≡ files_bytes files.now) × All HasHash files.now) }
{
    let mut list = DerWriter::new(alloc);
    for file in files {
        add_file(alloc, &mut list, file)?;
    }
    Ok(list)
}

/// Adds a file: its name and its hash (4.2.2). Without memory nothing is added.
#[tactic(auto, unfolding(crate::specs::ManifestBytes::file_bytes))]
fn add_file(alloc: Global, list: &mut DerWriter, file: &ListedFile) -> Result<(), AllocError>
    requires { length file.now.name ≤ 255 }
    ensures { OnOk result ((list.new ≡ list.old ++ file_bytes file.now) × HasHash file.now) }
{
    let mut members = DerWriter::new(alloc);
    members.ia5(file.name())?;
    members.bits(Bits {
        unused: 0,
        bytes: file.hash().as_slice(),
    })?;
    list.sequence(members.as_slice())
}
