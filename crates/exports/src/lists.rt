//! Payload lists read token by token, in whatever order and number the members of an entry come.
ghost use Rattle.std.specs.Prelude.{◌++◌, ◌∷◌, [], List, MatchOption, IfNone, IfOk, IfSome};
ghost use Rattle.serde_json.specs.Data.{Data, Members, no_items, object, put};
ghost use Rattle.prefixes.specs.Payload.{Payload};
ghost use Rattle.payload_lists.specs.PayloadList.{IsEntry};
ghost use Rattle.exports.specs.ListForm.{HoldsEntry, IsListed, ReadsListed, ReadsRecords, Records};
ghost use Rattle.exports.specs.PlainForm.{IsScalar, ReadsMembers, ReadsNoItems, ReadsNoMembers, ReadsNone, before};

use crate::streaming::{NESTING, Scalar, begins_object, next_name, read_rest, read_value};
use json::Reader;
use payload_lists::parts::payload;
use prefixes::Vrp;
use std::alloc::{AllocError, Global};

/// What was found in an entry of a payload list: the values of its three members, as far as they have the right type, and whether it has a
/// member of another name.
#[derive(Clone, Copy, Debug, Drop)]
pub struct ListEntry<'a> {
    asn: Option<u64>,
    max_len: Option<u64>,
    prefix: Option<&'a str>,
    has_others: bool,
}

/// What was found with one member more. It replaces an earlier member of its name.
fn with_list_member<'a>(found: ListEntry<'a>, name: &str, scalar: Scalar<'a>) -> ListEntry<'a>
    ensures { (ms : Members) (d : Data) → HoldsEntry ms found.entry → IsScalar d scalar.entry → HoldsEntry (put name.now d ms) result }
{
    match name {
        "asn" => ListEntry {
            asn: scalar.number,
            ..found
        },
        "maxLength" => ListEntry {
            max_len: scalar.number,
            ..found
        },
        "prefix" => ListEntry {
            prefix: scalar.text,
            ..found
        },
        _ => ListEntry {
            has_others: true,
            ..found
        },
    }
}

/// Reads the members of an entry, to its end.
fn list_members<'a>(reader: &mut Reader<'a>) -> Option<ListEntry<'a>>
    ensures { MatchOption result (ReadsNoMembers 125 reader.old) (λ found. ReadsMembers 125 (λ js ms. HoldsEntry ms found) reader.old reader.new) }
{
    let mut found = ListEntry {
        asn: None,
        max_len: None,
        prefix: None,
        has_others: false,
    };
    loop {
        let key = next_name(reader)?;
        let Some(name) = key else {
            return Some(found);
        };
        let value = read_value(reader, NESTING - 2)?;
        found = with_list_member(found, name, value);
    }
}

/// The payload of an entry. `None`: a member is missing or has another type, there is another member, or the values make no payload.
fn payload_of(found: &ListEntry<'_>) -> Option<Vrp>
    ensures some { IfSome result (λ v. (ms : Members) → HoldsEntry ms found.now → IsEntry (object ms) v) }
    ensures none { IfNone result ((ms : Members) → HoldsEntry ms found.now → (v : Payload) → ¬ (IsEntry (object ms) v)) }
{
    if found.has_others {
        return None;
    }
    let asn = found.asn?;
    let max_len = found.max_len?;
    let prefix = found.prefix?;
    payload(asn, max_len, prefix)
}

/// Reads an item of an array: its payload, if it is an entry of a payload list.
pub(crate) fn list_entry(reader: &mut Reader<'_>) -> Option<Option<Vrp>>
    ensures { MatchOption result (ReadsNone 126 reader.old) (λ found. ReadsListed reader.old reader.new found) }
{
    let token = reader.next()?;
    if !begins_object(&token) {
        let _passed = read_rest(reader, token, NESTING - 1)?;
        return Some(None);
    }
    let found = list_members(reader)?;
    Some(payload_of(&found))
}

/// The payloads of the items so far with those of one more. `None`: one of them is no entry.
fn with_record(
    records: Option<Vec<Vrp>>,
    entry: Option<Vrp>,
) -> Result<Option<Vec<Vrp>>, AllocError>
    ensures { IfOk result (λ after. (ds : List Data) (d : Data) → Records (before ds no_items) records → IsListed d entry → Records (before (ds ++ d ∷ []) no_items) after) }
{
    let Some(mut records) = records else {
        return Ok(None);
    };
    let Some(vrp) = entry else {
        return Ok(None);
    };
    records.push(vrp)?;
    Ok(Some(records))
}

/// Reads the items of an array, to its end: their payloads, if all of them are entries of a payload list.
pub(crate) fn list_records(
    alloc: Global,
    reader: &mut Reader<'_>,
) -> Result<Option<Option<Vec<Vrp>>>, AllocError>
    ensures { IfOk result (λ found. MatchOption found (ReadsNoItems 126 reader.old) (λ records. ReadsRecords reader.old reader.new records)) }
{
    let mut records = Some(Vec::new(alloc));
    while !reader.take_end_array() {
        let Some(entry) = list_entry(reader) else {
            return Ok(None);
        };
        records = with_record(records, entry)?;
    }
    Ok(Some(records))
}
