//! What the program prints of a file, as a JSON object in a line.
use crate::judging::{ContentRefusal, JudgedObject, ObjectRefusal, Payload, Report};
use crate::kinds::word;
use crate::names::write_escaped;
use crate::printing::TOO_LONG;
use command_parts::print_hex;
use payloads::{Manifest, Roa};
use std::io::{self, Write};

/// Writes the members that each file has: its name, and the exit status that it gives alone.
fn write_front<W: Write>(file: &str, status: u8, out: &mut W) -> io::Result<()> {
    write!(out, "{{\"file\":\"")?;
    write_escaped(out, file)?;
    write!(out, "\",\"status\":{status}")
}

/// Writes a member of bytes in hexadecimal digits.
fn write_hex<W: Write>(name: &str, bytes: &[u8], out: &mut W) -> io::Result<()> {
    write!(out, ",\"{name}\":\"")?;
    print_hex(bytes, out)?;
    write!(out, "\"")
}

/// Writes why a file is no signed object, and in which bytes the offset counts.
fn write_refusal<W: Write>(refusal: &ObjectRefusal, out: &mut W) -> io::Result<()> {
    let fault = refusal.fault;
    let place = if refusal.is_in_der { "der" } else { "file" };
    write!(
        out,
        ",\"fault\":{},\"offset\":{},\"offsetIn\":\"{}\",\"reason\":\"{}\"",
        fault.kind.number(),
        fault.offset,
        place,
        fault.kind
    )
}

/// Writes the VRPs of a ROA, in the form of a list of payloads.
fn write_roa<W: Write>(roa: &Roa, out: &mut W) -> io::Result<()> {
    let mut before = ",\"vrps\":[";
    for entry in roa.entries() {
        write!(
            out,
            "{}{{\"asn\":{},\"maxLength\":{},\"prefix\":\"{}\"}}",
            before,
            roa.asn(),
            entry.greatest_length(),
            entry.prefix
        )?;
        before = ",";
    }
    write!(out, "]")
}

/// Writes the files of a manifest.
fn write_files<W: Write>(manifest: &Manifest, out: &mut W) -> io::Result<()> {
    let mut before = ",\"files\":[";
    for file in manifest.files() {
        write!(out, "{before}{{\"name\":\"")?;
        write_escaped(out, file.name())?;
        write!(out, "\"")?;
        write_hex("hash", file.hash().as_slice(), out)?;
        write!(out, "}}")?;
        before = ",";
    }
    if manifest.files().is_empty() {
        write!(out, ",\"files\":[")?;
    }
    write!(out, "]")
}

/// Writes what a manifest says.
fn write_manifest<W: Write>(manifest: &Manifest, out: &mut W) -> io::Result<()> {
    write_hex("number", manifest.number(), out)?;
    write!(
        out,
        ",\"thisUpdate\":\"{}\",\"nextUpdate\":\"{}\"",
        manifest.this_update(),
        manifest.next_update()
    )?;
    write_files(manifest, out)
}

/// Writes what a content says, or why it is refused.
fn write_content<W: Write>(object: &JudgedObject, out: &mut W) -> io::Result<()> {
    match &object.content {
        Ok(Payload::Roa(roa)) => write_roa(roa, out),
        Ok(Payload::Manifest(manifest)) => write_manifest(manifest, out),
        Ok(Payload::Unread) => Ok(()),
        Err(ContentRefusal::Kind(wanted)) => {
            let (kind, wanted) = (word(object.kind.as_ref()), word(Some(wanted)));
            write!(
                out,
                ",\"reason\":\"the content is of type {kind}, but {wanted} is required\""
            )
        }
        Err(ContentRefusal::Fault(fault)) => {
            let number = fault.kind.number();
            write!(
                out,
                ",\"contentFault\":{},\"offset\":{},\"reason\":\"{}\"",
                number, fault.offset, fault.kind
            )
        }
    }
}

/// Writes what an object is.
fn write_object<W: Write>(object: &JudgedObject, out: &mut W) -> io::Result<()> {
    write!(
        out,
        ",\"der\":{},\"type\":\"{}\"",
        object.object.is_der,
        word(object.kind.as_ref())
    )?;
    write_hex("contentType", &object.object.content_type, out)?;
    write_hex("key", &object.object.key_identifier, out)?;
    write_content(object, out)
}

/// Writes a file, of which this was found.
pub(crate) fn write_report<W: Write>(
    file: &str,
    status: u8,
    report: &Report,
    out: &mut W,
) -> io::Result<()> {
    write_front(file, status, out)?;
    match report {
        Report::TooLong => write!(out, ",\"reason\":\"{TOO_LONG}\"")?,
        Report::Refused(refusal) => write_refusal(refusal, out)?,
        Report::Object(object) => write_object(object, out)?,
    }
    writeln!(out, "}}")
}

/// Writes a file that could not be read.
pub(crate) fn write_unread<W: Write>(
    file: &str,
    status: u8,
    reason: &str,
    out: &mut W,
) -> io::Result<()> {
    write_front(file, status, out)?;
    writeln!(out, ",\"reason\":\"{reason}\"}}")
}
