//! Exports of either form, read from a text.
ghost use Rattle.std.specs.Prelude.{◌≡◌, ℕ, false, MatchOption, IfOk, IfErr};
ghost use Rattle.serde_json.specs.Data.{Items, array};
ghost use Rattle.exports.specs.ListForm.{Records};
ghost use Rattle.exports.specs.PlainForm.{ReadsForm, ReadsListParts, ReadsNoItems, ReadsNone, ReadsParts, TellsParts, TextFails};

use crate::fault::ExportFault;
use crate::gathered::EntryRecords;
use crate::ignored::Elements;
use crate::lists::list_records;
use crate::streaming::{
    Entries, ExportMembers, NESTING, begins_array, begins_object, plain_parts, read_rest,
};
use json::{Reader, Scratch};
use json_texts::begins_with_zero;
use prefixes::Vrp;
use std::alloc::{AllocError, Global};

/// What was read of an array whose items have these payloads. `None`: not all of its items are entries of a payload list.
fn parts_of_list(alloc: Global, records: Option<Vec<Vrp>>) -> Result<ExportMembers, AllocError>
    ensures list { IfOk result (λ p. (now : ℕ) (ds : Items) → Records ds records → TellsParts now (array ds) p) }
    ensures names { IfOk result (λ p. p.repeats ≡ false) }
{
    let entries = match records {
        Some(records) => Some(Entries::Whole(EntryRecords::lasting(alloc, records)?)),
        None => None,
    };
    Ok(ExportMembers {
        entries,
        built: None,
        elements: Elements::NONE,
        repeats: false,
    })
}

/// Reads the items of an array, to its end, as a payload list.
fn list_parts(alloc: Global, reader: &mut Reader<'_>) -> Result<Option<ExportMembers>, AllocError>
    ensures { (now : ℕ) → IfOk result (λ found. MatchOption found (ReadsNoItems 126 reader.old) (λ p. ReadsListParts now reader.old reader.new p)) }
{
    let Some(records) = list_records(alloc, reader)? else {
        return Ok(None);
    };
    Ok(Some(parts_of_list(alloc, records)?))
}

/// Reads a value of either form.
fn value_parts(
    alloc: Global,
    reader: &mut Reader<'_>,
    now: u64,
) -> Result<Option<ExportMembers>, AllocError>
    ensures { IfOk result (λ found. MatchOption found (ReadsNone 127 reader.old) (λ p. ReadsForm now reader.old reader.new p)) }
{
    let Some(token) = reader.next() else {
        return Ok(None);
    };
    if begins_object(&token) {
        return plain_parts(alloc, reader, now);
    }
    if begins_array(&token) {
        return list_parts(alloc, reader);
    }
    let Some(_passed) = read_rest(reader, token, NESTING) else {
        return Ok(None);
    };
    Ok(Some(ExportMembers {
        entries: None,
        built: None,
        elements: Elements::NONE,
        repeats: false,
    }))
}

/// Reads a text of either form token by token. Only if it does not begin with a zero byte the reader's buffer is allocated, which is as long
/// as the text.
pub(crate) fn parts_of_text(
    alloc: Global,
    text: &str,
    now: u64,
) -> Result<ExportMembers, ExportFault>
    ensures ok { IfOk result (λ parts. ReadsParts now text.now parts) }
    ensures fault { IfErr result (λ fault. TextFails text.now fault) }
{
    if begins_with_zero(text.as_bytes()) {
        return Err(ExportFault::NotJson);
    }
    let mut scratch = Scratch::new(alloc);
    let mut reader = Reader::new(text, &mut scratch)?;
    let Some(parts) = value_parts(alloc, &mut reader, now)? else {
        return Err(ExportFault::NotJson);
    };
    if reader.next().is_some() {
        return Err(ExportFault::NotJson);
    }
    Ok(parts)
}
