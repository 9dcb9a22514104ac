//! The name that is repeated in an export, and its object.
ghost use Rattle.std.specs.Prelude.{◌<◌, length, IfOk, IfNone, IfSome};

use crate::names::{EntryNames, ExportNames, Names};
use crate::streaming::{NESTING, begins_array, begins_object, next_name, read_rest};
use crate::walk::skip_value;
use json::{Reader, Scratch};
use std::alloc::{AllocError, Global};

/// Reads the members of an entry. `Some(Some(name))`: this is the first of `asn`, `prefix`, `maxLength` and `expires` that is repeated.
/// `Some(None)`: none of them is. `None`: a member cannot be read. Other names may be repeated.
fn in_members<'a>(reader: &mut Reader<'a>) -> Option<Option<&'a str>>
    ensures { IfSome result (λ found. IfNone found (length reader.new < length reader.old)) }
{
    let mut names = EntryNames::NONE;
    loop {
        let Some(name) = next_name(reader)? else {
            return Some(None);
        };
        names = names.with(name);
        if names.repeat() {
            return Some(Some(name));
        }
        skip_value(reader)?;
    }
}

/// Reads an item of `roas`, and returns the same of its members. An item that is no object has none.
fn in_item<'a>(reader: &mut Reader<'a>) -> Option<Option<&'a str>>
    ensures { IfSome result (λ found. IfNone found (length reader.new < length reader.old)) }
{
    let token = reader.next()?;
    if begins_object(&token) {
        return in_members(reader);
    }
    let _passed = read_rest(reader, token, NESTING)?;
    Some(None)
}

/// The first name that is repeated in an entry of `roas`, which comes next, and the entry. `None`: the value cannot be read.
fn in_roas(alloc: Global, reader: &mut Reader<'_>) -> Result<Option<Option<String>>, AllocError>
    ensures { IfOk result (λ read. IfSome read (λ found. IfNone found (length reader.new < length reader.old))) }
{
    let Some(token) = reader.next() else {
        return Ok(None);
    };
    if !begins_array(&token) {
        return match read_rest(reader, token, NESTING) {
            Some(_passed) => Ok(Some(None)),
            None => Ok(None),
        };
    }
    let mut index = 0usize;
    while !reader.take_end_array() {
        let Some(found) = in_item(reader) else {
            return Ok(None);
        };
        if let Some(name) = found {
            let text = format!(in alloc; "{name} is repeated in entry {index} of roas")?;
            return Ok(Some(Some(text)));
        }
        index = index.saturating_add(1);
    }
    Ok(Some(None))
}

/// Reads the metadata. `Some(Some(name))`: this is the first of `generated` and `buildtime` that is repeated. `Some(None)`: neither is.
/// `None`: they cannot be read.
fn in_metadata<'a>(reader: &mut Reader<'a>) -> Option<Option<&'a str>>
    ensures { IfSome result (λ found. IfNone found (length reader.new < length reader.old)) }
{
    let token = reader.next()?;
    if !begins_object(&token) {
        let _passed = read_rest(reader, token, NESTING)?;
        return Some(None);
    }
    let mut names = Names::NONE;
    loop {
        let Some(name) = next_name(reader)? else {
            return Some(None);
        };
        names = names.with("generated", "buildtime", name);
        if names.repeat() {
            return Some(Some(name));
        }
        skip_value(reader)?;
    }
}

/// Which name is repeated in the value of a member of the export, which comes next, and its object. `None`: it cannot be read.
fn in_value(
    alloc: Global,
    reader: &mut Reader<'_>,
    member: &str,
) -> Result<Option<Option<String>>, AllocError>
    ensures { IfOk result (λ read. IfSome read (λ found. IfNone found (length reader.new < length reader.old))) }
{
    match member {
        "roas" => in_roas(alloc, reader),
        "metadata" => match in_metadata(reader) {
            Some(Some(name)) => {
                let text = format!(in alloc; "{name} is repeated in metadata")?;
                Ok(Some(Some(text)))
            }
            Some(None) => Ok(Some(None)),
            None => Ok(None),
        },
        _ => match skip_value(reader) {
            Some(()) => Ok(Some(None)),
            None => Ok(None),
        },
    }
}

/// Which name is repeated in an export whose members come next, and its object.
fn in_export(alloc: Global, reader: &mut Reader<'_>) -> Result<Option<String>, AllocError> {
    let mut names = ExportNames::NONE;
    while let Some(Some(name)) = next_name(reader) {
        names = names.with(name);
        if names.repeat() {
            return Ok(Some(format!(in alloc; "{name} is repeated in the file")?));
        }
        match in_value(alloc, reader, name)? {
            Some(None) => {}
            Some(found) => return Ok(found),
            None => return Ok(None),
        }
    }
    Ok(None)
}

/// Which name is repeated in one object of a text, and in which: the first one in the text.
pub(crate) fn repeated_text(alloc: Global, text: &str) -> Result<String, AllocError> {
    let mut scratch = Scratch::new(alloc);
    let mut reader = Reader::new(text, &mut scratch)?;
    let found = match reader.next() {
        Some(token) if begins_object(&token) => in_export(alloc, &mut reader)?,
        _ => None,
    };
    match found {
        Some(found) => Ok(found),
        None => String::from_str(alloc, "a name is repeated in an object"),
    }
}
