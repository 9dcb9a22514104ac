//! Files found by their names.

ghost use Rattle.std.specs.Prelude.{◌≡◌, false, List, [], ◌∷◌, ◌++◌, option_map, IfOk, IfSome};
ghost use Rattle.std.specs.Option.{option_copied};
ghost use Rattle.points.specs.declared.file.FileIn.{FileIn as File};
ghost use Rattle.points.specs.Files.{file_named, is_named};
ghost use Rattle.points.specs.Finding.{AreFiles, Indexes};

use crate::{FileIn, PointFault};
use std::alloc::{AllocError, Global};
use std::collections::BTreeMap;

/// Files that were supplied, by their names.
#[derive(Drop)]
pub(crate) struct FilesByName<'a> {
    map: BTreeMap<&'a str, &'a FileIn<'a>>,
}

impl<'a> FilesByName<'a> {
    /// No files.
    fn new(alloc: Global) -> FilesByName<'a>
        ensures { AreFiles result.map [] }
    {
        FilesByName {
            map: BTreeMap::new(alloc),
        }
    }

    /// These files, or `FileTwice` at the first that has the name of an earlier one.
    pub(crate) fn over(
        alloc: Global,
        files: &'a [FileIn<'a>],
    ) -> Result<FilesByName<'a>, PointFault>
        ensures { Indexes (λ found. found.map) result files.now }
    {
        let mut found = FilesByName::new(alloc);
        for (index, file) in files.iter().enumerate() {
            if found.add(file)? {
                return Err(PointFault::FileTwice(index));
            }
        }
        Ok(found)
    }

    /// Adds a file, and answers whether one of its name was there.
    fn add(&mut self, file: &'a FileIn<'a>) -> Result<bool, AllocError>
        ensures { (files : List File) → AreFiles self.old.map files → IfOk result (λ twice.
            (twice ≡ is_named file.now.name.now files) × (twice ≡ false → AreFiles self.new.map (files ++ file.now ∷ []))) }
    {
        let before = self.map.insert(file.name, file)?;
        Ok(before.is_some())
    }

    /// The file of this name.
    pub(crate) fn named(&self, name: &str) -> Option<&'a FileIn<'a>>
        ensures { (files : List File) → AreFiles self.now.map files → option_map (λ f. f.now) result ≡ file_named name.now files }
    {
        self.map.get(name).copied()
    }
}
