//! Exports read token by token.
ghost use Rattle.std.specs.Prelude.{◌≡◌, ◌≢◌, ◌+◌, ◌++◌, ◌∷◌, [], length, codes, List, MatchBool, MatchOption, None, Some, IfOk, option_map};
ghost use Rattle.json.specs.Json.{member, read_key};
ghost use Rattle.json.specs.Reads.{token_of};
ghost use Rattle.json.specs.Token.{Token as SpecToken};
ghost use Rattle.serde_json.specs.Data.{Data, Members, put};
ghost use Rattle.exports.specs.Repeating.{entry_twice, export_twice, two_twice};
ghost use Rattle.exports.specs.PlainForm.{HasParts, IsRawEntry, IsReadEntry, IsMetadata, IsScalar, PassesItems, PassesMembers};
ghost use Rattle.exports.specs.PlainForm.{ReadsBuilt, ReadsEntries, ReadsEntry, ReadsMembers, ReadsNoItems, ReadsNoMembers, ReadsNone, ReadsPart, ReadsRoas, ReadsSome, TellsListed};

use crate::built::built;
use crate::counting::count_elements;
use crate::entry::{ExportEntry, RawEntry, judged};
use crate::fault::EntryFault;
use crate::gathered::EntryRecords;
use crate::ignored::Elements;
use crate::names::{EntryNames, ExportNames, Names};
use crate::numbers::scalar_number;
use json::{Reader, Token};
use std::alloc::{AllocError, Global};

/// How deep a text may nest.
pub(crate) const NESTING: usize = 127;

/// A value, as far as an export needs it: its whole number or its text, if it is one, and whether it is an array or an object.
#[derive(Clone, Copy, Debug, Drop)]
pub struct Scalar<'a> {
    pub(crate) number: Option<u64>,
    pub(crate) text: Option<&'a str>,
    pub(crate) array: bool,
    pub(crate) object: bool,
}

/// A value that is none of these.
const NEITHER: Scalar<'static> = Scalar {
    number: None,
    text: None,
    array: false,
    object: false,
};

/// An array.
const ARRAY: Scalar<'static> = Scalar {
    number: None,
    text: None,
    array: true,
    object: false,
};

/// An object.
const OBJECT: Scalar<'static> = Scalar {
    number: None,
    text: None,
    array: false,
    object: true,
};

/// The name of the next member, or none at the end of the object.
#[inline(always)]
pub(crate) fn next_name<'a>(reader: &mut Reader<'a>) -> Option<Option<&'a str>>
    ensures { MatchOption result (read_key reader.old ≡ None) (λ k. read_key reader.old ≡ Some (option_map (λ s. s.now) k, reader.new)) }
{
    match reader.next_key() {
        Ok(name) => Some(name),
        Err(_) => None,
    }
}

/// Reads a value, in which arrays and objects nest no deeper than this.
#[cycle(passing)]
#[inline(always)]
pub(crate) fn read_value<'a>(reader: &mut Reader<'a>, depth: usize) -> Option<Scalar<'a>>
    ensures { MatchOption result (ReadsNone depth reader.old) (λ s. ReadsSome depth (λ j d. IsScalar d s) reader.old reader.new) }
{
    let token = reader.next()?;
    read_rest(reader, token, depth)
}

/// Reads the rest of a value of which this is the first token.
#[cycle(passing)]
#[inline(always)]
pub(crate) fn read_rest<'a>(
    reader: &mut Reader<'a>,
    token: Token<'a>,
    depth: usize,
) -> Option<Scalar<'a>>
    ensures { MatchOption result (ReadsNone depth (token_of token.entry ∷ reader.old)) (λ s. ReadsSome depth (λ j d. IsScalar d s) (token_of token.entry ∷ reader.old) reader.new) }
{
    match token {
        Token::Number(text) => Some(Scalar {
            number: scalar_number(text)?,
            text: None,
            array: false,
            object: false,
        }),
        Token::String(text) => Some(Scalar {
            number: None,
            text: Some(text),
            array: false,
            object: false,
        }),
        Token::Bool(_bit) => Some(NEITHER),
        Token::Null => Some(NEITHER),
        Token::BeginArray => read_array(reader, depth),
        Token::BeginObject => read_object(reader, depth),
        Token::EndArray | Token::EndObject | Token::Key(_) | Token::Bad => None,
    }
}

/// Reads the rest of an array.
#[cycle(passing)]
#[inline(never)]
fn read_array<'a>(reader: &mut Reader<'a>, depth: usize) -> Option<Scalar<'a>>
    ensures { MatchOption result (ReadsNone depth (SpecToken.begin_array ∷ reader.old)) (λ s. ReadsSome depth (λ j d. IsScalar d s) (SpecToken.begin_array ∷ reader.old) reader.new) }
{
    if depth == 0 {
        return None;
    }
    if !pass_items(reader, depth - 1) {
        return None;
    }
    Some(ARRAY)
}

/// Reads the rest of an object.
#[cycle(passing)]
#[inline(never)]
fn read_object<'a>(reader: &mut Reader<'a>, depth: usize) -> Option<Scalar<'a>>
    ensures { MatchOption result (ReadsNone depth (SpecToken.begin_object ∷ reader.old)) (λ s. ReadsSome depth (λ j d. IsScalar d s) (SpecToken.begin_object ∷ reader.old) reader.new) }
{
    if depth == 0 {
        return None;
    }
    if !pass_members(reader, depth - 1) {
        return None;
    }
    Some(OBJECT)
}

/// Passes over the items of an array, to its end.
#[cycle(passing)]
fn pass_items(reader: &mut Reader<'_>, depth: usize) -> bool
    ensures { MatchBool result (PassesItems depth reader.old reader.new) (ReadsNoItems depth reader.old) }
{
    while !reader.take_end_array() {
        let Some(_passed) = read_value(reader, depth) else {
            return false;
        };
    }
    true
}

/// Passes over the members of an object, to its end.
#[cycle(passing)]
fn pass_members(reader: &mut Reader<'_>, depth: usize) -> bool
    ensures { MatchBool result (PassesMembers depth reader.old reader.new) (ReadsNoMembers depth reader.old) }
{
    loop {
        match next_name(reader) {
            Some(Some(_)) => {}
            Some(None) => return true,
            None => return false,
        }
        let Some(_passed) = read_value(reader, depth) else {
            return false;
        };
    }
}

/// The entry with one member more. It replaces an earlier member of its name.
fn with_member<'a>(found: RawEntry<'a>, name: &str, scalar: Scalar<'a>) -> RawEntry<'a>
    ensures { (ms : Members) (d : Data) → IsRawEntry ms found.entry → IsScalar d scalar.entry → IsRawEntry (put name.now d ms) result }
{
    match name {
        "asn" => RawEntry {
            asn_number: scalar.number,
            asn_text: scalar.text,
            ..found
        },
        "prefix" => RawEntry {
            prefix: scalar.text,
            ..found
        },
        "maxLength" => RawEntry {
            max_len: scalar.number,
            ..found
        },
        "expires" => RawEntry {
            expires: Some(scalar.number),
            ..found
        },
        "ta" => RawEntry {
            ta: scalar.text,
            ..found
        },
        _ => found,
    }
}

/// Reads the members of an entry, to its end: what was found, and whether a name that is read is repeated.
fn plain_members<'a>(reader: &mut Reader<'a>) -> Option<(RawEntry<'a>, bool)>
    ensures { MatchOption result (ReadsNoMembers 124 reader.old) (λ r. ReadsMembers 124 (λ js ms. IsRawEntry ms r.0 × (r.1 ≡ entry_twice js)) reader.old reader.new) }
{
    let mut found = RawEntry {
        asn_number: None,
        asn_text: None,
        prefix: None,
        max_len: None,
        expires: None,
        ta: None,
    };
    let mut names = EntryNames::NONE;
    loop {
        let key = next_name(reader)?;
        let Some(name) = key else {
            return Some((found, names.repeat()));
        };
        let value = read_value(reader, NESTING - 3)?;
        found = with_member(found, name, value);
        names = names.with(name);
    }
}

/// Whether a token begins an object.
pub(crate) fn begins_object(token: &Token<'_>) -> bool
    ensures { MatchBool result (token_of token.now ≡ SpecToken.begin_object) (token_of token.now ≢ SpecToken.begin_object) }
{
    matches!(token, Token::BeginObject)
}

/// What was read of an entry: what it lists, or what of it cannot be read, the name of its trust anchor, and whether a name that is read is
/// repeated.
#[derive(Clone, Copy, Debug)]
pub struct ReadEntry<'a> {
    listed: Result<ExportEntry, EntryFault>,
    ta: Option<&'a str>,
    repeat: bool,
}

/// Reads an entry.
fn plain_entry<'a>(reader: &mut Reader<'a>) -> Option<ReadEntry<'a>>
    ensures { MatchOption result (ReadsNone 125 reader.old) (λ r. ReadsEntry reader.old reader.new r) }
{
    let token = reader.next()?;
    if !begins_object(&token) {
        let _passed = read_rest(reader, token, NESTING - 2)?;
        return Some(ReadEntry {
            listed: Err(EntryFault::NoObject),
            ta: None,
            repeat: false,
        });
    }
    let (found, repeat) = plain_members(reader)?;
    Some(ReadEntry {
        listed: judged(&found),
        ta: found.ta,
        repeat,
    })
}

/// When an export says that it was made.
#[derive(Clone, Copy, Debug, Drop)]
pub struct Metadata<'a> {
    generated: Option<u64>,
    buildtime: Option<&'a str>,
}

/// The same with one member more.
fn with_detail<'a>(metadata: Metadata<'a>, name: &str, scalar: Scalar<'a>) -> Metadata<'a>
    ensures { (ms : Members) (d : Data) → IsMetadata ms metadata.entry → IsScalar d scalar.entry → IsMetadata (put name.now d ms) result }
{
    match name {
        "generated" => Metadata {
            generated: scalar.number,
            ..metadata
        },
        "buildtime" => Metadata {
            buildtime: scalar.text,
            ..metadata
        },
        _ => metadata,
    }
}

/// Reads the members of the metadata, to their end: what was found, and whether a name that is read is repeated.
fn plain_metadata<'a>(reader: &mut Reader<'a>) -> Option<(Metadata<'a>, bool)>
    ensures { MatchOption result (ReadsNoMembers 125 reader.old) (λ r. ReadsMembers 125 (λ js ms. IsMetadata ms r.0 × (r.1 ≡ two_twice (codes "generated") (codes "buildtime") js)) reader.old reader.new) }
{
    let mut metadata = Metadata {
        generated: None,
        buildtime: None,
    };
    let mut names = Names::NONE;
    loop {
        let key = next_name(reader)?;
        let Some(name) = key else {
            return Some((metadata, names.repeat()));
        };
        let value = read_value(reader, NESTING - 2)?;
        metadata = with_detail(metadata, name, value);
        names = names.with("generated", "buildtime", name);
    }
}

/// Reads the metadata: when the export was made, if they are an object and say so, and whether a name that is read is repeated.
fn plain_built(reader: &mut Reader<'_>) -> Option<(Option<u64>, bool)>
    ensures { MatchOption result (ReadsNone 126 reader.old) (λ r. ReadsBuilt reader.old reader.new r) }
{
    let token = reader.next()?;
    if !begins_object(&token) {
        let _passed = read_rest(reader, token, NESTING - 1)?;
        return Some((None, false));
    }
    let (metadata, repeat) = plain_metadata(reader)?;
    Some((built(metadata.generated, metadata.buildtime), repeat))
}

/// What was read of an array of entries: what was gathered of them, or which is the first that cannot be read, counted from 0, and what
/// of it cannot.
#[derive(Debug, Drop)]
pub enum Entries {
    Whole(EntryRecords),
    Broken(usize, EntryFault),
}

/// The same with one entry more, which has this index. `AllocError`: 2^64 entries do not count, which no memory holds.
fn with_entry(
    alloc: Global,
    entries: Entries,
    entry: &ReadEntry<'_>,
    index: usize,
    now: u64,
) -> Result<Entries, AllocError>
    ensures { IfOk result (λ after. (ds : List Data) (d : Data) → length ds ≡ index → TellsListed now ds entries → IsReadEntry d entry.now → TellsListed now (ds ++ d ∷ []) after) }
{
    let mut gathered = match entries {
        Entries::Whole(gathered) => gathered,
        Entries::Broken(first, what) => return Ok(Entries::Broken(first, what)),
    };
    let listed = match entry.listed {
        Ok(listed) => listed,
        Err(what) => return Ok(Entries::Broken(index, what)),
    };
    if gathered.is_full() {
        return Err(AllocError);
    }
    gathered.add(alloc, &listed, entry.ta, now)?;
    Ok(Entries::Whole(gathered))
}

/// Reads the entries of an array, to its end, and whether a name that is read is repeated in one of them.
fn gather_entries(
    alloc: Global,
    reader: &mut Reader<'_>,
    now: u64,
) -> Result<Option<(Entries, bool)>, AllocError>
    ensures { IfOk result (λ found. MatchOption found (ReadsNoItems 125 reader.old) (λ r. ReadsEntries now reader.old reader.new r)) }
{
    let mut entries = Entries::Whole(EntryRecords::new(alloc));
    let mut repeat = false;
    let mut index = 0usize;
    while !reader.take_end_array() {
        if index == usize::MAX {
            return Err(AllocError);
        }
        let Some(entry) = plain_entry(reader) else {
            return Ok(None);
        };
        entries = with_entry(alloc, entries, &entry, index, now)?;
        repeat |= entry.repeat;
        index += 1;
    }
    Ok(Some((entries, repeat)))
}

/// Whether a token begins an array.
pub(crate) fn begins_array(token: &Token<'_>) -> bool
    ensures { MatchBool result (token_of token.now ≡ SpecToken.begin_array) (token_of token.now ≢ SpecToken.begin_array) }
{
    matches!(token, Token::BeginArray)
}

/// Reads the value `roas`: its entries, if it is an array, and whether a name that is read is repeated in one of them.
fn plain_roas(
    alloc: Global,
    reader: &mut Reader<'_>,
    now: u64,
) -> Result<Option<(Option<Entries>, bool)>, AllocError>
    ensures { IfOk result (λ found. MatchOption found (ReadsNone 126 reader.old) (λ r. ReadsRoas now reader.old reader.new r)) }
{
    let Some(token) = reader.next() else {
        return Ok(None);
    };
    if !begins_array(&token) {
        let Some(_passed) = read_rest(reader, token, NESTING - 1) else {
            return Ok(None);
        };
        return Ok(Some((None, false)));
    }
    let Some((entries, repeat)) = gather_entries(alloc, reader, now)? else {
        return Ok(None);
    };
    Ok(Some((Some(entries), repeat)))
}

/// What was read of an export: its entries, if it has the form of one, when it was made, and how much of it is not served. Also whether a
/// name that is read is repeated in its object.
#[derive(Debug, Drop)]
pub struct ExportMembers {
    pub(crate) entries: Option<Entries>,
    pub(crate) built: Option<u64>,
    pub(crate) elements: Elements,
    pub(crate) repeats: bool,
}

/// Reads the value of a member. It replaces an earlier member of its name.
fn with_part(
    alloc: Global,
    reader: &mut Reader<'_>,
    now: u64,
    parts: ExportMembers,
    name: &str,
) -> Result<Option<ExportMembers>, AllocError>
    ensures { IfOk result (λ found. MatchOption found (ReadsNone 126 reader.old) (λ after. ReadsPart now name.now parts after reader.old reader.new)) }
{
    match name {
        "roas" => match plain_roas(alloc, reader, now)? {
            Some((entries, repeat)) => Ok(Some(ExportMembers {
                entries,
                built: parts.built,
                elements: parts.elements,
                repeats: parts.repeats | repeat,
            })),
            None => Ok(None),
        },
        "metadata" => match plain_built(reader) {
            Some((built, repeat)) => Ok(Some(ExportMembers {
                entries: parts.entries,
                built,
                elements: parts.elements,
                repeats: parts.repeats | repeat,
            })),
            None => Ok(None),
        },
        _ => match count_elements(reader)? {
            Some(count) => Ok(Some(ExportMembers {
                entries: parts.entries,
                built: parts.built,
                elements: parts.elements.with(name, count),
                repeats: parts.repeats,
            })),
            None => Ok(None),
        },
    }
}

/// Reads the members of an export, to its end.
pub(crate) fn plain_parts(
    alloc: Global,
    reader: &mut Reader<'_>,
    now: u64,
) -> Result<Option<ExportMembers>, AllocError>
    ensures { IfOk result (λ found. MatchOption found (ReadsNoMembers 126 reader.old) (λ parts. ReadsMembers 126 (λ js ms. HasParts now ms parts × (parts.repeats ≡ export_twice js)) reader.old reader.new)) }
{
    let mut parts = ExportMembers {
        entries: None,
        built: None,
        elements: Elements::NONE,
        repeats: false,
    };
    let mut names = ExportNames::NONE;
    loop {
        let Some(key) = next_name(reader) else {
            return Ok(None);
        };
        let Some(name) = key else {
            let repeats = names.repeat() | parts.repeats;
            return Ok(Some(ExportMembers { repeats, ..parts }));
        };
        let Some(more) = with_part(alloc, reader, now, parts, name)? else {
            return Ok(None);
        };
        parts = more;
        names = names.with(name);
    }
}
