//! Kinds of files that the program knows.
ghost use Rattle.std.specs.Prelude.{◌≡◌, option_copied};
ghost use Rattle.file_kinds.specs.Kinds.{HasExtension, HasName, IsKindWith};
ghost use Rattle.rpkiobject.specs.Kinds.{is_known as knows, known_of, Known, word_of};

use file_kinds::FileKind;
use file_kinds::laws::one_kind;

/// Whether the program knows the kind. Certificates and revocation lists are no signed objects, and lists of prefixes are not judged.
fn is_known(kind: &FileKind) -> bool
    ensures { result ≡ knows kind.now }
{
    match kind {
        FileKind::Roa
        | FileKind::Manifest
        | FileKind::Ghostbusters
        | FileKind::Checklist
        | FileKind::Aspa
        | FileKind::TrustAnchorKey => true,
        FileKind::Certificate | FileKind::RevocationList | FileKind::PrefixList => false,
    }
}

/// The kind, if the program knows it.
fn known(kind: Option<FileKind>) -> Option<FileKind>
    ensures { result ≡ known_of kind }
{
    let kind = kind?;
    if is_known(&kind) { Some(kind) } else { None }
}

/// The kind that files of this extension must hold, if the program knows one.
#[tactic(auto, using(crate::proofs::KindLaws::known_with_extension))]
pub(crate) fn kind_with_extension(extension: &str) -> Option<FileKind>
    ensures { IsKindWith (Known (HasExtension extension.now)) result }
{
    one_kind();
    known(FileKind::with_extension(extension))
}

/// The kind that a file of this name must hold, if the program knows one.
#[tactic(auto, using(crate::proofs::KindLaws::known_of_file))]
pub(crate) fn kind_of_file(name: &str) -> Option<FileKind>
    ensures { IsKindWith (Known (HasName name.now)) result }
{
    one_kind();
    known(FileKind::of_file(name))
}

/// The word for the kind of a content. Other kinds, and those of which there is no file, have one word.
pub(crate) fn word(kind: Option<&FileKind>) -> &'static str
    ensures { result.now ≡ word_of (option_copied kind.entry) }
{
    match kind {
        Some(FileKind::Roa) => "roa",
        Some(FileKind::Manifest) => "manifest",
        Some(FileKind::Ghostbusters) => "ghostbusters",
        Some(FileKind::Checklist) => "checklist",
        Some(FileKind::Aspa) => "aspa",
        Some(FileKind::TrustAnchorKey) => "trust-anchor-key",
        Some(FileKind::Certificate) => "other",
        Some(FileKind::RevocationList) => "other",
        Some(FileKind::PrefixList) => "other",
        None => "other",
    }
}
