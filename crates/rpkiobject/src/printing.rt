//! What the program prints of a file, in lines.
use crate::judging::{ContentRefusal, JudgedObject, ObjectRefusal, Payload, Report};
use crate::kinds::word;
use crate::names::write_escaped;
use command_parts::print_hex;
use file_kinds::FileKind;
use payload_commands::{print_manifest, print_roa};
use std::io::{self, Write};

/// What was checked, and what was not.
const SENTENCE: &str =
    "digest and signature are valid under the embedded certificate; its issuer was not checked";

/// Why a file that has too many bytes is refused.
pub(crate) const TOO_LONG: &str = "the file has more than 20000000 bytes";

/// Prints why a file is no signed object, and in which bytes the offset counts.
fn print_refusal<W: Write>(refusal: &ObjectRefusal, out: &mut W) -> io::Result<()> {
    let fault = refusal.fault;
    let place = if refusal.is_in_der { " of its DER" } else { "" };
    writeln!(
        out,
        "refused {} at {}{}: {}",
        fault.kind.number(),
        fault.offset,
        place,
        fault.kind
    )
}

/// Prints the kind of an object, and the identifier of its key.
fn print_front<W: Write>(object: &JudgedObject, out: &mut W) -> io::Result<()> {
    if !object.object.is_der {
        writeln!(out, "not DER: lengths or OCTET STRINGs are in BER")?;
    }
    write!(out, "type {} ", word(object.kind.as_ref()))?;
    print_hex(&object.object.content_type, out)?;
    write!(out, "\nkey ")?;
    print_hex(&object.object.key_identifier, out)?;
    writeln!(out)
}

/// Prints what a content says.
fn print_payload<W: Write>(payload: &Payload, out: &mut W) -> io::Result<()> {
    match payload {
        Payload::Roa(roa) => print_roa(roa, out)?,
        Payload::Manifest(manifest) => print_manifest(manifest, out)?,
        Payload::Unread => writeln!(out, "content not judged")?,
    }
    writeln!(out, "{SENTENCE}")
}

/// Prints why a content is refused, of which this is the kind.
fn print_content_refusal<W: Write>(
    kind: Option<&FileKind>,
    refusal: &ContentRefusal,
    out: &mut W,
) -> io::Result<()> {
    match refusal {
        ContentRefusal::Kind(wanted) => {
            let (kind, wanted) = (word(kind), word(Some(wanted)));
            writeln!(
                out,
                "refused: the content is of type {kind}, but {wanted} is required"
            )
        }
        ContentRefusal::Fault(fault) => {
            let number = fault.kind.number();
            writeln!(
                out,
                "content refused {} at {}: {}",
                number, fault.offset, fault.kind
            )
        }
    }
}

/// Prints an object.
fn print_object<W: Write>(object: &JudgedObject, out: &mut W) -> io::Result<()> {
    print_front(object, out)?;
    match &object.content {
        Ok(payload) => print_payload(payload, out),
        Err(refusal) => print_content_refusal(object.kind.as_ref(), refusal, out),
    }
}

/// Prints a file, of which this was found.
pub(crate) fn print_report<W: Write>(file: &str, report: &Report, out: &mut W) -> io::Result<()> {
    write!(out, "file ")?;
    write_escaped(out, file)?;
    writeln!(out)?;
    match report {
        Report::TooLong => writeln!(out, "refused: {TOO_LONG}"),
        Report::Refused(refusal) => print_refusal(refusal, out),
        Report::Object(object) => print_object(object, out),
    }
}
