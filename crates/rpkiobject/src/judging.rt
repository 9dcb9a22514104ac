//! What a file is found to be.
ghost use Rattle.std.specs.Prelude.{IfOk};
ghost use Rattle.rpkiobject.specs.Kinds.{Fits};

use crate::fault::ProgramFault;
use file_kinds::FileKind;
use payloads::{GrammarFault, Manifest, PayloadFault, Roa, decode_manifest, decode_roa};
use signed_objects::{
    CmsFault, ObjectFault, OwnedObject, read_der_object, read_signed_object, to_der,
};
use std::alloc::Global;

/// What a file is found to be.
#[derive(Debug, Drop)]
pub(crate) enum Report {
    /// It has too many bytes.
    TooLong,
    /// It is no signed object.
    Refused(ObjectRefusal),
    /// It is a signed object whose digest and signature hold.
    Object(JudgedObject),
}

/// Why a file is no signed object.
#[derive(Debug, Drop)]
pub(crate) struct ObjectRefusal {
    /// The first fault.
    pub(crate) fault: CmsFault,
    /// Whether its offset is one in the DER that was written of the file, and not in the file.
    pub(crate) is_in_der: bool,
}

/// A signed object whose digest and signature hold.
#[derive(Debug, Drop)]
pub(crate) struct JudgedObject {
    /// The object.
    pub(crate) object: OwnedObject,
    /// Its kind. `None`: signed objects of a repository have another eContentType.
    pub(crate) kind: Option<FileKind>,
    /// What its content says, or why it is refused.
    pub(crate) content: Result<Payload, ContentRefusal>,
}

/// What a content says.
#[derive(Debug, Drop)]
pub(crate) enum Payload {
    /// The payload of a ROA.
    Roa(Roa),
    /// The payload of a manifest.
    Manifest(Manifest),
    /// A content of another kind, which is not judged.
    Unread,
}

/// Why a content is refused.
#[derive(Debug, Drop)]
pub(crate) enum ContentRefusal {
    /// It is of another kind than this, which the file must hold.
    Kind(FileKind),
    /// It is none of its kind: the first fault.
    Fault(GrammarFault),
}

impl Report {
    /// The object, if it is accepted.
    pub(crate) fn accepted(&self) -> Option<&OwnedObject> {
        match self {
            Report::Object(
                JudgedObject {
                    object,
                    content: Ok(_),
                    ..
                },
            ) => Some(object),
            _ => None,
        }
    }
}

/// The refusal of a content that is none of its kind.
fn refusal(fault: PayloadFault) -> Result<ContentRefusal, ProgramFault> {
    match fault {
        PayloadFault::At(fault) => Ok(ContentRefusal::Fault(fault)),
        PayloadFault::Memory => Err(ProgramFault::Memory),
    }
}

/// The payload of a ROA, or why the content is none.
fn judge_roa(
    alloc: Global,
    content: &[u8],
) -> Result<Result<Payload, ContentRefusal>, ProgramFault> {
    match decode_roa(alloc, content) {
        Ok(roa) => Ok(Ok(Payload::Roa(roa))),
        Err(fault) => Ok(Err(refusal(fault)?)),
    }
}

/// The payload of a manifest, or why the content is none.
fn judge_manifest(
    alloc: Global,
    content: &[u8],
) -> Result<Result<Payload, ContentRefusal>, ProgramFault> {
    match decode_manifest(alloc, content) {
        Ok(manifest) => Ok(Ok(Payload::Manifest(manifest))),
        Err(fault) => Ok(Err(refusal(fault)?)),
    }
}

/// What a content of this kind says, if the file may hold it.
fn judge_content(
    alloc: Global,
    wanted: Option<FileKind>,
    kind: &Option<FileKind>,
    content: &[u8],
) -> Result<Result<Payload, ContentRefusal>, ProgramFault>
    ensures { IfOk result (λ judged. IfOk judged (λ payload. Fits wanted kind.now)) }
{
    if let Some(wanted) = wanted {
        if *kind != Some(wanted) {
            return Ok(Err(ContentRefusal::Kind(wanted)));
        }
    }
    match kind {
        Some(FileKind::Roa) => judge_roa(alloc, content),
        Some(FileKind::Manifest) => judge_manifest(alloc, content),
        _ => Ok(Ok(Payload::Unread)),
    }
}

/// What an object is found to be.
fn judge_object(
    alloc: Global,
    wanted: Option<FileKind>,
    object: OwnedObject,
) -> Result<Report, ProgramFault> {
    let kind = FileKind::of_content_type(&object.content_type);
    let content = judge_content(alloc, wanted, &kind, &object.content)?;
    Ok(Report::Object(JudgedObject {
        object,
        kind,
        content,
    }))
}

/// The object that the bytes are in DER, with parts of its own.
fn read_strictly(alloc: Global, bytes: &[u8]) -> Result<OwnedObject, ObjectFault> {
    let object = read_der_object(alloc, bytes)?;
    Ok(OwnedObject {
        content_type: object.content_type.to_vec(alloc)?,
        content: object.content.to_vec(alloc)?,
        certificate: object.certificate.to_vec(alloc)?,
        key_identifier: object.key_identifier.to_vec(alloc)?,
        is_der: true,
    })
}

/// Whether other bytes than those of the file were read as DER.
fn is_rewritten(alloc: Global, bytes: &[u8]) -> Result<bool, ProgramFault> {
    match to_der(alloc, bytes) {
        Ok(der) => Ok(der.as_slice() != bytes),
        Err(ObjectFault::At(_)) => Ok(false),
        Err(ObjectFault::Memory) => Err(ProgramFault::Memory),
    }
}

/// What the bytes of a file are found to be. It must hold this kind, if one is named, and be in DER, if this is strict.
pub(crate) fn judge(
    alloc: Global,
    wanted: Option<FileKind>,
    is_strict: bool,
    bytes: &[u8],
) -> Result<Report, ProgramFault> {
    let read = if is_strict {
        read_strictly(alloc, bytes)
    } else {
        read_signed_object(alloc, bytes)
    };
    match read {
        Ok(object) => judge_object(alloc, wanted, object),
        Err(ObjectFault::At(fault)) => Ok(Report::Refused(ObjectRefusal {
            fault,
            is_in_der: !is_strict && is_rewritten(alloc, bytes)?,
        })),
        Err(ObjectFault::Memory) => Err(ProgramFault::Memory),
    }
}
