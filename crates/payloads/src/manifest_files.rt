//! The files of a manifest while its payload is read.

ghost use Rattle.std.specs.Prelude.{◌≡◌, [], ◌∷◌, ◌++◌, length, OnOk};
ghost use Rattle.payloads.specs.Manifest.{is_listed};

use crate::ListedFile;
use crate::manifest_names::Names;
use std::alloc::{AllocError, Global};
use std::marker::Model;

/// The files that came so far, and their names, so that one is found among many.
#[derive(Drop)]
pub(crate) struct Files<'a> {
    names: Names<'a>,
    listed: Vec<ListedFile>,
}

impl<'a> Model for Files<'a> {
    ghost use Rattle.std.specs.Prelude.{List};
    ghost use Rattle.payloads.specs.Manifest.{ListedFile as Listed};
    ghost use Rattle.payloads.specs.ManifestNames.{AreNames};

    ghost Value = { List Listed };

    ghost view = { λ f. f.listed.items };

    ghost invariant = { λ f. AreNames f.names.set f.listed.items };
}

impl<'a> Files<'a> {
    /// No files.
    pub(crate) fn new(alloc: Global) -> Files<'a>
        ensures { result ≡ [] }
    {
        Files {
            names: Names::new(alloc),
            listed: Vec::new(alloc),
        }
    }

    /// How many files came.
    pub(crate) fn count(&self) -> usize
        ensures { result ≡ length self.now }
    {
        self.listed.len()
    }

    /// Whether a file of this name came.
    pub(crate) fn has(&self, name: &'a str) -> bool
        ensures { result ≡ is_listed name.now self.now }
    {
        self.names.has(name)
    }

    /// One file more.
    pub(crate) fn add(
        &mut self,
        alloc: Global,
        name: &'a str,
        hash: [u8; 32],
    ) -> Result<(), AllocError>
        ensures { OnOk result (self.new ≡ self.old ++ record { name = name.now; hash = hash } ∷ []) }
    {
        let file = ListedFile::new(String::from_str(alloc, name)?, hash);
        self.listed.reserve(1)?;
        self.names.add(name)?;
        self.listed.push(file).unwrap();
        Ok(())
    }

    /// The files, in their order.
    pub(crate) fn into_list(self) -> Vec<ListedFile>
        ensures { result.items ≡ self.entry }
    {
        self.listed
    }
}
