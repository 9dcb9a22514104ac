//! Payload lists in their plain form, token by token.
ghost use Rattle.std.specs.Prelude.{◌≡◌, List, Some, IfSome, IfOk, IsErrOf, OnSome};
ghost use Rattle.serde_json.specs.Data.{Items, Members, array, number, put, string, unsigned};
ghost use Rattle.serde_json.specs.Read.{number_of, read};
ghost use Rattle.prefixes.specs.Payload.{Payload};
ghost use Rattle.payload_lists.specs.PayloadList.{AreEntries};
ghost use Rattle.payload_lists.specs.PlainForm.{HoldsMembers, ReadsMember, ReadsObject, ReadsEntry, ReadsNoEntry, ReadsItems, RefusesItems};

use crate::listing::{ListFault, payload};
use fast_float::Numeral;
use json::{Reader, Scratch, Token};
use prefixes::Vrp;
use std::alloc::Global;

/// The integer from 0 to 2^64 - 1 that the text of a JSON number writes in digits alone. `None`: the number is larger or has another form.
pub fn plain_number(text: &str) -> Option<u64>
    ensures { IfSome result (λ n. number_of text.now ≡ Some (unsigned n)) }
{
    Numeral::scan(text.as_bytes()).to_u64()
}

/// The members of an entry, as far as they were read: each at most once, and no others.
#[derive(Clone, Copy, Debug, Drop)]
pub struct Plain<'a> {
    asn: Option<u64>,
    max_len: Option<u64>,
    prefix: Option<&'a str>,
}

/// Adds a member, if it is a number, has one of these names, and comes for the first time.
fn add_number(found: &mut Plain<'_>, name: &str, count: u64) -> Option<()>
    ensures { OnSome result ((ms : Members) → HoldsMembers ms found.old → HoldsMembers (put name.now (number (unsigned count)) ms) found.new) }
{
    match name {
        "asn" if found.asn.is_none() => found.asn = Some(count),
        "maxLength" if found.max_len.is_none() => found.max_len = Some(count),
        _ => return None,
    }
    Some(())
}

/// The same of a text.
fn add_text<'a>(found: &mut Plain<'a>, name: &str, text: &'a str) -> Option<()>
    ensures { OnSome result ((ms : Members) → HoldsMembers ms found.old → HoldsMembers (put name.now (string text.now) ms) found.new) }
{
    match name {
        "prefix" if found.prefix.is_none() => found.prefix = Some(text),
        _ => return None,
    }
    Some(())
}

/// Reads a member, if it is one of the three and comes for the first time.
fn plain_member<'a>(reader: &mut Reader<'a>, found: &mut Plain<'a>) -> Option<()>
    ensures { OnSome result (ReadsMember reader.old reader.new found.old found.new) }
{
    let Ok(Some(name)) = reader.next_key() else {
        return None;
    };
    match reader.next()? {
        Token::Number(text) => add_number(found, name, plain_number(text)?),
        Token::String(text) => add_text(found, name, text),
        _ => None,
    }
}

/// Reads an object of the three members.
fn plain_object<'a>(reader: &mut Reader<'a>) -> Option<(u64, u64, &'a str)>
    ensures { IfSome result (λ found. ReadsObject reader.old reader.new found.0 found.1 found.2) }
{
    match reader.next()? {
        Token::BeginObject => {}
        _ => return None,
    }
    let mut found: Plain<'a> = Plain {
        asn: None,
        max_len: None,
        prefix: None,
    };
    plain_member(reader, &mut found)?;
    plain_member(reader, &mut found)?;
    plain_member(reader, &mut found)?;
    match reader.next_key() {
        Ok(None) => Some((found.asn?, found.max_len?, found.prefix?)),
        _ => None,
    }
}

/// Reads an entry, if it has the plain form. `NoList`: it has, and it makes no payload.
fn plain_entry(reader: &mut Reader<'_>) -> Result<Option<Vrp>, ListFault>
    ensures ok { IfOk result (λ found. IfSome found (λ v. ReadsEntry reader.old reader.new v)) }
    ensures no_list { IsErrOf result ListFault.NoList → ReadsNoEntry reader.old reader.new }
{
    match plain_object(reader) {
        Some((asn, max_len, prefix)) => match payload(asn, max_len, prefix) {
            Some(vrp) => Ok(Some(vrp)),
            None => Err(ListFault::NoList),
        },
        None => Ok(None),
    }
}

/// Reads the entries of an array to its end, if all have the plain form. `NoList`: one has, and it makes no payload.
fn plain_records(alloc: Global, reader: &mut Reader<'_>) -> Result<Option<Vec<Vrp>>, ListFault>
    ensures ok { IfOk result (λ found. IfSome found (λ vs. ReadsItems reader.old reader.new vs.items)) }
    ensures no_list { IsErrOf result ListFault.NoList → RefusesItems reader.old }
{
    let mut records = Vec::new(alloc);
    while !reader.take_end_array() {
        let Some(vrp) = plain_entry(reader)? else {
            return Ok(None);
        };
        if records.push(vrp).is_err() {
            return Err(ListFault::Memory);
        }
    }
    Ok(Some(records))
}

/// The VRPs of a payload list in plain form, in their order, duplicates included. Plain form: an array of objects with each of the keys `asn`,
/// `prefix` and `maxLength` exactly once, and numbers below 2^64 of digits alone.
/// `Ok(None)`: the text has another form, or is not JSON. It may still be a payload list.
/// `NoList`: an entry in plain form makes no VRP, and all before it are in plain form. What follows is not read. `Memory`: out of memory.
pub fn plain_list(alloc: Global, text: &str) -> Result<Option<Vec<Vrp>>, ListFault>
    ensures ok { IfOk result (λ found. IfSome found (λ vs. (ds : Items) × (read text.now ≡ Some (array ds)) × AreEntries ds vs.items)) }
    ensures no_list { IsErrOf result ListFault.NoList → (ds : Items) → read text.now ≡ Some (array ds) → (vs : List Payload) → ¬ (AreEntries ds vs) }
{
    let mut scratch = Scratch::new(alloc);
    let mut reader = Reader::new(text, &mut scratch)?;
    match reader.next() {
        Some(Token::BeginArray) => {}
        _ => return Ok(None),
    }
    let Some(records) = plain_records(alloc, &mut reader)? else {
        return Ok(None);
    };
    if reader.next().is_some() {
        return Ok(None);
    }
    Ok(Some(records))
}
