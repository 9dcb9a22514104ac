//! The names of files: what one is, and whether it came before.

ghost use Rattle.std.specs.Prelude.{◌≡◌, List, [], ◌∷◌, ◌++◌, OnOk, OnErr};
ghost use Rattle.std.specs.List.{list_all};
ghost use Rattle.payloads.specs.Manifest.{ListedFile, is_name as is_file_name, is_name_byte, is_small_letter, is_listed};
ghost use Rattle.payloads.specs.ManifestNames.{AreNames};

use std::alloc::{AllocError, Global};
use std::collections::BTreeSet;

/// The greatest length of a name in bytes.
const LONGEST: usize = 255;

/// Whether it is letters, digits, `-` or `_`, one or more of them, one dot and three small letters,
/// in all at most 255 bytes (RFC 9286 section 4.2.2).
#[tactic(auto, unfolding(crate::specs::Manifest::is_name))]
pub(crate) fn is_name(name: &str) -> bool
    ensures { result ≡ is_file_name name.now }
{
    let bytes = name.as_bytes();
    if bytes.len() < 5 || bytes.len() > LONGEST {
        return false;
    }
    let (stem, ending) = bytes.split_at(bytes.len() - 4);
    is_stem(stem) && ending[0] == b'.' && is_extension(&ending[1..])
}

/// Whether all are letters, digits, `-` or `_`.
fn is_stem(bytes: &[u8]) -> bool
    ensures { result ≡ list_all is_name_byte bytes.now }
{
    bytes.iter().all(|byte| byte.is_ascii_alphanumeric() || *byte == b'-' || *byte == b'_')
}

/// Whether all are small letters.
fn is_extension(bytes: &[u8]) -> bool
    ensures { result ≡ list_all is_small_letter bytes.now }
{
    bytes.iter().all(u8::is_ascii_lowercase)
}

/// The names of the files that came so far.
#[derive(Drop)]
pub(crate) struct Names<'a> {
    set: BTreeSet<&'a str>,
}

impl<'a> Names<'a> {
    /// No names.
    pub(crate) fn new(alloc: Global) -> Names<'a>
        ensures { AreNames result.set [] }
    {
        Names {
            set: BTreeSet::new(alloc),
        }
    }

    /// Whether a file of this name came.
    pub(crate) fn has(&self, name: &'a str) -> bool
        ensures { (files : List ListedFile) → AreNames self.now.set files → result ≡ is_listed name.now files }
    {
        self.set.contains(&name)
    }

    /// The name of one file more.
    pub(crate) fn add(&mut self, name: &'a str) -> Result<(), AllocError>
        ensures kept { (files : List ListedFile) → AreNames self.old.set files → OnErr result (AreNames self.new.set files) }
        ensures added { (files : List ListedFile) (file : ListedFile) → file.name ≡ name.now → AreNames self.old.set files → OnOk result (AreNames self.new.set (files ++ file ∷ [])) }
    {
        self.set.insert(name)?;
        Ok(())
    }
}
