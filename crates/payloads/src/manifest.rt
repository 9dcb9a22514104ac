//! Manifests.

ghost use Rattle.std.specs.Prelude.{◌≡◌, [], ◌∷◌, IfOk, List, length, option_map, nat_eq};
ghost use Rattle.std.proofs.Common.{rules};
ghost use Rattle.std.specs.Cmp.Lexicographic.{pointwise};
ghost use Rattle.std.specs.Cmp.Rules.{comparing};
ghost use Rattle.std.specs.Ordering.{on, eq_of_both};
ghost use Rattle.std.specs.String.{string_bytes};
ghost use Rattle.der_lite.specs.Place.{first_of};
ghost use Rattle.payloads.specs.Faults.{kind_number};
ghost use Rattle.payloads.specs.Manifest.{ListedFile as Listed};
ghost use Rattle.payloads.specs.ManifestNames.{AreNames};
ghost use Rattle.payloads.specs.RoaRefusal.{Finds};
ghost use Rattle.payloads.specs.ManifestRefusal.{value_rules, file_rules, files_refusal, manifest_refusal, IsManifest, MakesManifest};

use crate::manifest_names::{Names, is_name};
use crate::manifest_reading::{LONGEST_NUMBER, is_negative};
use crate::roa_entry::LIMIT;
use crate::{GrammarFaultKind, ManifestFault, ValueFault};
use der_lite::{Moment, is_integer};
use std::alloc::{AllocError, Global};
use std::marker::Model;

/// A file that a manifest lists: its name and hash (FileAndHash, RFC 9286 section 4.2.2).
#[derive(Clone, Debug, Drop)]
pub struct ListedFile {
    name: String,
    hash: [u8; 32],
}

impl Model for ListedFile {
    ghost use Rattle.std.specs.Prelude.{◌≡◌, length};
    ghost use Rattle.std.specs.String.{string_bytes};
    ghost use Rattle.payloads.specs.Manifest.{ListedFile as Listed};

    ghost Value = { Listed };

    ghost view = { λ file. record { name = string_bytes file.name; hash = file.hash } };

    ghost invariant = { λ file. length file.hash ≡ 32 };
}

impl ListedFile {
    /// Makes a listed file. `hash` is the SHA-256 of the published object. The name is not checked here, but in [`Manifest::new`].
    pub fn new(name: String, hash: [u8; 32]) -> ListedFile
        ensures { result ≡ record { name = string_bytes name; hash = hash } }
    {
        ListedFile { name, hash }
    }

    /// Returns the file name. Before the file is in a [`Manifest`], the name may be invalid: [`Manifest::new`] checks it (RFC 9286 section 4.2.2).
    pub fn name(&self) -> &str
        ensures { result.now ≡ self.now.name }
    {
        self.name.as_str()
    }

    /// The SHA-256 of the published object.
    pub fn hash(&self) -> &[u8; 32]
        ensures value { result.now ≡ self.now.hash }
        ensures long { length self.now.hash ≡ 32 }
    {
        &self.hash
    }
}

impl PartialEq for ListedFile {
    ghost eq = { eq_of_both (on (λ file. file.name) (pointwise nat_eq)) (on (λ file. file.hash) (pointwise nat_eq)) };

    ghost laws = { Prim.search (comparing, rules) };

    fn eq(&self, other: &ListedFile) -> bool {
        self.name() == other.name() && self.hash() == other.hash()
    }
}

impl Eq for ListedFile {
    ghost laws = { Prim.search (comparing, rules) };
}

/// A manifest (RFC 9286 section 4.2): its number, thisUpdate and nextUpdate, and the listed files. No two files have the same name.
#[derive(Clone, Debug, Drop)]
pub struct Manifest {
    pub(crate) number: Vec<u8>,
    pub(crate) this_update: Moment,
    pub(crate) next_update: Moment,
    pub(crate) files: Vec<ListedFile>,
}

impl Model for Manifest {
    ghost use Rattle.payloads.specs.Manifest.{ManifestValue};
    ghost use Rattle.payloads.specs.ManifestRefusal.{IsManifest};

    ghost Value = { ManifestValue };

    ghost view = { λ m. record { number = m.number.items; this_update = m.this_update; next_update = m.next_update; files = m.files.items } };

    ghost invariant = { λ m. IsManifest (record { number = m.number.items; this_update = m.this_update; next_update = m.next_update; files = m.files.items }) };
}

impl Manifest {
    /// Makes a manifest. `number` is the content of its DER INTEGER, most significant byte first.
    ///
    /// The first fault in this order is reported: `NumberRange`, `TimesOrder`, then file by file `TooMany`, `Name`, `NameTwice`.
    /// `Memory`: memory runs out, which may happen before the later files are checked.
    pub fn new(
        alloc: Global,
        number: Vec<u8>,
        this_update: Moment,
        next_update: Moment,
        files: Vec<ListedFile>,
    ) -> Result<Manifest, ManifestFault>
        ensures { MakesManifest result (record { number = number.items; this_update = this_update; next_update = next_update; files = files.items }) }
    {
        match fault(
            alloc,
            number.as_slice(),
            &this_update,
            &next_update,
            files.as_slice(),
        )? {
            Some(fault) => Err(ManifestFault::Value(fault)),
            None => Ok(Manifest {
                number,
                this_update,
                next_update,
                files,
            }),
        }
    }

    /// The manifest number (RFC 9286 section 4.2.1), as the content of its DER INTEGER: most significant byte first, at most 20 bytes.
    /// It is not negative and has the fewest bytes possible.
    pub fn number(&self) -> &[u8]
        ensures value { result.now ≡ self.now.number }
        ensures right { IsManifest self.now }
    {
        &self.number
    }

    /// Returns thisUpdate: the time in UTC at which the manifest was made (RFC 9286 section 4.2.1).
    pub fn this_update(&self) -> &Moment
        ensures { result.now ≡ self.now.this_update }
    {
        &self.this_update
    }

    /// Returns nextUpdate: the time in UTC by which the next manifest is issued (RFC 9286 section 4.2.1). It is later than thisUpdate.
    pub fn next_update(&self) -> &Moment
        ensures { result.now ≡ self.now.next_update }
    {
        &self.next_update
    }

    /// The listed files in the order of the manifest, at most 65,536. No two have the same name.
    pub fn files(&self) -> &[ListedFile]
        ensures value { result.now ≡ self.now.files }
        ensures right { IsManifest self.now }
    {
        &self.files
    }
}

impl PartialEq for Manifest {
    ghost use Rattle.der_lite.specs.Moments.{numbers_of};

    ghost eq = { eq_of_both (on (λ m. m.number) (pointwise nat_eq))
        (eq_of_both (on (λ m. numbers_of m.this_update) (pointwise nat_eq))
        (eq_of_both (on (λ m. numbers_of m.next_update) (pointwise nat_eq))
        (on (λ m. m.files) (pointwise (eq_of_both (on (λ file. file.name) (pointwise nat_eq)) (on (λ file. file.hash) (pointwise nat_eq))))))) };

    ghost laws = { Prim.search (comparing, rules) depth 9 };

    fn eq(&self, other: &Manifest) -> bool {
        self.number == other.number
            && self.this_update == other.this_update
            && self.next_update == other.next_update
            && self.files == other.files
    }
}

impl Eq for Manifest {
    ghost laws = { Prim.search (comparing, rules) depth 9 };
}

/// The first fault of the value of a manifest.
#[tactic(auto, unfolding(crate::specs::ManifestRefusal::manifest_refusal))]
fn fault(
    alloc: Global,
    number: &[u8],
    this_update: &Moment,
    next_update: &Moment,
    files: &[ListedFile],
) -> Result<Option<ValueFault>, AllocError>
    ensures { IfOk result (λ fault. Finds fault (manifest_refusal (record { number = number.now; this_update = this_update.now; next_update = next_update.now; files = files.now }))) }
{
    if let Some(kind) = value_fault(number, this_update, next_update) {
        return Ok(Some(ValueFault { kind, index: 0 }));
    }
    files_fault(alloc, files)
}

/// What is wrong with the number or the times.
#[tactic(auto, unfolding(der_lite::specs::Moments::moment_before))]
fn value_fault(
    number: &[u8],
    this_update: &Moment,
    next_update: &Moment,
) -> Option<GrammarFaultKind>
    ensures { (files : List Listed) → option_map kind_number result ≡ first_of (value_rules (record { number = number.now; this_update = this_update.now; next_update = next_update.now; files = files })) }
{
    if !is_integer(number) || is_negative(number) || number.len() > LONGEST_NUMBER {
        Some(GrammarFaultKind::NumberRange)
    } else if this_update < next_update {
        None
    } else {
        Some(GrammarFaultKind::TimesOrder)
    }
}

/// The first fault of the files of a manifest.
fn files_fault(alloc: Global, files: &[ListedFile]) -> Result<Option<ValueFault>, AllocError>
    ensures { IfOk result (λ fault. Finds fault (files_refusal [] files.now)) }
{
    let mut names = Names::new(alloc);
    for (index, file) in files.iter().enumerate() {
        if let Some(kind) = file_fault(index, file.name(), &names) {
            return Ok(Some(ValueFault { kind, index }));
        }
        names.add(file.name())?;
    }
    Ok(None)
}

/// What is wrong with a file of this name at this index behind those before it, the first of
/// `TooMany`, `Name`, `NameTwice`.
fn file_fault<'a>(index: usize, name: &'a str, before: &Names<'a>) -> Option<GrammarFaultKind>
    ensures { (files : List Listed) (file : Listed) → length files ≡ index → file.name ≡ name.now → AreNames before.now.set files → option_map kind_number result ≡ first_of (file_rules files file) }
{
    if index >= LIMIT {
        Some(GrammarFaultKind::TooMany)
    } else if !is_name(name) {
        Some(GrammarFaultKind::Name)
    } else if before.has(name) {
        Some(GrammarFaultKind::NameTwice)
    } else {
        None
    }
}
