//! The kinds of files, their extensions, and their eContentTypes.
ghost use Rattle.std.specs.Prelude.{◌≡◌, option_copied};
ghost use Rattle.file_kinds.specs.Kinds.{row, HasExtension, HasName, HasType, IsKindWith};

/// The kind of a file in a repository (RFC 6481 section 2).
#[derive(Clone, Copy, Debug, PartialEq, Eq)]
pub enum FileKind {
    /// A resource certificate (RFC 6487).
    Certificate,
    /// A certificate revocation list (RFC 6487 section 5).
    RevocationList,
    /// A route origin authorization (RFC 9582).
    Roa,
    /// A manifest (RFC 9286).
    Manifest,
    /// A Ghostbusters record (RFC 6493).
    Ghostbusters,
    /// A signed checklist (RFC 9323).
    Checklist,
    /// An autonomous system provider authorization.
    Aspa,
    /// A trust anchor key (RFC 9691).
    TrustAnchorKey,
    /// A signed list of the prefixes that an autonomous system may originate.
    PrefixList,
}

impl FileKind {
    /// The extension of the names of its files, without the dot: three small letters (RFC 6481 section 7).
    pub fn extension(self) -> &'static str
        ensures { result.now ≡ (row self).extension }
    {
        match self {
            FileKind::Certificate => "cer",
            FileKind::RevocationList => "crl",
            FileKind::Roa => "roa",
            FileKind::Manifest => "mft",
            FileKind::Ghostbusters => "gbr",
            FileKind::Checklist => "sig",
            FileKind::Aspa => "asa",
            FileKind::TrustAnchorKey => "tak",
            FileKind::PrefixList => "spl",
        }
    }

    /// The content of the OBJECT IDENTIFIER that is the eContentType of its signed objects (RFC 6488 section 2.1.3.1). `None`: its files are no
    /// signed objects.
    pub fn content_type(self) -> Option<&'static [u8]>
        ensures { option_copied result ≡ (row self).content_type }
    {
        match self {
            FileKind::Certificate => None,
            FileKind::RevocationList => None,
            FileKind::Roa => Some(ROA),
            FileKind::Manifest => Some(MANIFEST),
            FileKind::Ghostbusters => Some(GHOSTBUSTERS),
            FileKind::Checklist => Some(CHECKLIST),
            FileKind::Aspa => Some(ASPA),
            FileKind::TrustAnchorKey => Some(TRUST_ANCHOR_KEY),
            FileKind::PrefixList => Some(PREFIX_LIST),
        }
    }

    /// The kind whose files have this extension, without the dot. `None`: there is none.
    pub fn with_extension(extension: &str) -> Option<FileKind>
        ensures { IsKindWith (HasExtension extension.now) result }
    {
        if extension == "cer" {
            Some(FileKind::Certificate)
        } else if extension == "crl" {
            Some(FileKind::RevocationList)
        } else if extension == "roa" {
            Some(FileKind::Roa)
        } else if extension == "mft" {
            Some(FileKind::Manifest)
        } else if extension == "gbr" {
            Some(FileKind::Ghostbusters)
        } else if extension == "sig" {
            Some(FileKind::Checklist)
        } else if extension == "asa" {
            Some(FileKind::Aspa)
        } else if extension == "tak" {
            Some(FileKind::TrustAnchorKey)
        } else if extension == "spl" {
            Some(FileKind::PrefixList)
        } else {
            None
        }
    }

    /// The kind that a file of this name promises: its name ends in a dot and the extension of the kind. `None`: no kind.
    pub fn of_file(name: &str) -> Option<FileKind>
        ensures { IsKindWith (HasName name.now) result }
    {
        let bytes = name.as_bytes();
        if bytes.ends_with(b".cer") {
            Some(FileKind::Certificate)
        } else if bytes.ends_with(b".crl") {
            Some(FileKind::RevocationList)
        } else if bytes.ends_with(b".roa") {
            Some(FileKind::Roa)
        } else if bytes.ends_with(b".mft") {
            Some(FileKind::Manifest)
        } else if bytes.ends_with(b".gbr") {
            Some(FileKind::Ghostbusters)
        } else if bytes.ends_with(b".sig") {
            Some(FileKind::Checklist)
        } else if bytes.ends_with(b".asa") {
            Some(FileKind::Aspa)
        } else if bytes.ends_with(b".tak") {
            Some(FileKind::TrustAnchorKey)
        } else if bytes.ends_with(b".spl") {
            Some(FileKind::PrefixList)
        } else {
            None
        }
    }

    /// The kind of signed objects that have this content of the OBJECT IDENTIFIER eContentType. `None`: there is none.
    pub fn of_content_type(content_type: &[u8]) -> Option<FileKind>
        ensures { IsKindWith (HasType content_type.now) result }
    {
        if content_type == ROA {
            Some(FileKind::Roa)
        } else if content_type == MANIFEST {
            Some(FileKind::Manifest)
        } else if content_type == GHOSTBUSTERS {
            Some(FileKind::Ghostbusters)
        } else if content_type == CHECKLIST {
            Some(FileKind::Checklist)
        } else if content_type == ASPA {
            Some(FileKind::Aspa)
        } else if content_type == TRUST_ANCHOR_KEY {
            Some(FileKind::TrustAnchorKey)
        } else if content_type == PREFIX_LIST {
            Some(FileKind::PrefixList)
        } else {
            None
        }
    }
}

/// The eContentTypes: id-ct, 1.2.840.113549.1.9.16.1, and one number for each kind.
const ROA: &[u8] = b"\x2a\x86\x48\x86\xf7\x0d\x01\x09\x10\x01\x18";

const MANIFEST: &[u8] = b"\x2a\x86\x48\x86\xf7\x0d\x01\x09\x10\x01\x1a";

const GHOSTBUSTERS: &[u8] = b"\x2a\x86\x48\x86\xf7\x0d\x01\x09\x10\x01\x23";

const CHECKLIST: &[u8] = b"\x2a\x86\x48\x86\xf7\x0d\x01\x09\x10\x01\x30";

const ASPA: &[u8] = b"\x2a\x86\x48\x86\xf7\x0d\x01\x09\x10\x01\x31";

const TRUST_ANCHOR_KEY: &[u8] = b"\x2a\x86\x48\x86\xf7\x0d\x01\x09\x10\x01\x32";

const PREFIX_LIST: &[u8] = b"\x2a\x86\x48\x86\xf7\x0d\x01\x09\x10\x01\x33";
