//! Faults of exports in words, with the values in the file.
ghost use Rattle.std.specs.Prelude.{◌≡◌, ◌++◌, List, ℕ, IfOk, string_bytes};
ghost use Rattle.exports.specs.FaultText.{number_text, place};

use crate::fault::{EntryFault, ExportFault};
use crate::forms::form_text;
use crate::json_fault::json_fault_text;
use crate::repeated::repeated_text;
use crate::streaming::NESTING;
use crate::walk::{begins_array, begins_object, find_item, find_member};
use json::{Error, Reader, Scratch, Token, Value as Tree};
use json_texts::{
    NO_ASN, NO_MAX_LENGTH, NO_NUMBER, NO_PREFIX, Position, STRING_FOR_NUMBER, cut_text,
    encoding_reason, name_text, prefix_reason,
};
use prefix_texts::parse_prefix;
use std::alloc::{AllocError, Global};
use std::str;

/// The entry of `roas` that has a fault, counted from 0, or what else a message begins with.
fn place(alloc: Global, fault: ExportFault) -> Result<String, AllocError>
    ensures { IfOk result (λ text. string_bytes text ≡ place fault) }
{
    match fault {
        ExportFault::Entry(index, _) => format!(in alloc; "entry {index} of roas: "),
        ExportFault::NoRoas => String::from_str(
            alloc,
            "neither a payload list nor an object with an array roas: ",
        ),
        _ => Ok(String::new(alloc)),
    }
}

/// A value of which this is the first token, as a message shows it.
pub(crate) fn shown_token(alloc: Global, token: &Token<'_>) -> Result<String, AllocError> {
    match token {
        Token::String(text) => name_text(alloc, text),
        Token::Number(text) => cut_text(alloc, text),
        Token::Bool(true) => String::from_str(alloc, "true"),
        Token::Bool(false) => String::from_str(alloc, "false"),
        Token::BeginArray => String::from_str(alloc, "an array"),
        Token::BeginObject => String::from_str(alloc, "an object"),
        _ => String::from_str(alloc, "null"),
    }
}

/// A value, as a message shows it.
pub(crate) fn shown(alloc: Global, value: &Tree<'_>) -> Result<String, AllocError> {
    let token = match value {
        Tree::String(text) => Token::String(*text),
        Tree::Number(text) => Token::Number(*text),
        Tree::Bool(bit) => Token::Bool(*bit),
        Tree::Null => Token::Null,
        Tree::Array(_) => Token::BeginArray,
        Tree::Object(_) => Token::BeginObject,
    };
    shown_token(alloc, &token)
}

/// The name of the faulty member. `None` if the entry is not an object.
fn member_of(what: EntryFault) -> Option<&'static str> {
    match what {
        EntryFault::NoObject => None,
        EntryFault::Asn => Some("asn"),
        EntryFault::Prefix => Some("prefix"),
        EntryFault::MaxLength => Some("maxLength"),
        EntryFault::Expires => Some("expires"),
    }
}

/// The reason for a value that should be a number: that it is not one, or `wrong`.
pub(crate) fn number_reason(value: &Tree<'_>, wrong: &'static str) -> &'static str {
    match value {
        Tree::Number(_) => wrong,
        Tree::String(_) => STRING_FOR_NUMBER,
        _ => NO_NUMBER,
    }
}

/// The reason for a value that should be the text of a prefix.
fn prefix_wrong(value: &Tree<'_>) -> &'static str {
    let Some(text) = value.as_str() else {
        return NO_PREFIX;
    };
    match parse_prefix(text) {
        Ok(_) => NO_PREFIX,
        Err(fault) => prefix_reason(fault),
    }
}

/// The reason for the value of the faulty member.
fn reason(value: &Tree<'_>, what: EntryFault) -> &'static str {
    match what {
        EntryFault::NoObject => "is not an object",
        EntryFault::Asn => NO_ASN,
        EntryFault::Prefix => prefix_wrong(value),
        EntryFault::MaxLength => number_reason(value, NO_MAX_LENGTH),
        EntryFault::Expires => "is not a whole number of seconds",
    }
}

/// The message for a member that has this value: its name, the value and the reason.
pub(crate) fn member_text(
    alloc: Global,
    name: &str,
    value: &Tree<'_>,
    reason: &str,
) -> Result<String, AllocError> {
    let shown = shown(alloc, value)?;
    format!(in alloc; "{name} {shown} {reason}")
}

/// What is wrong with an entry.
fn entry_text(alloc: Global, entry: &Tree<'_>, what: EntryFault) -> Result<String, AllocError> {
    let Some(name) = member_of(what) else {
        let shown = shown(alloc, entry)?;
        return format!(in alloc; "{shown} is not an object");
    };
    match entry.get(name) {
        Some(value) => member_text(alloc, name, value, reason(value, what)),
        None => format!(in alloc; "{name} is missing"),
    }
}

/// Whether the entry of this index of `roas` comes next, in a text that was not read yet.
fn find_entry(reader: &mut Reader<'_>, index: usize) -> bool {
    begins_object(reader)
        && find_member(reader, "roas")
        && begins_array(reader)
        && find_item(reader, index)
}

/// What is wrong with the entry of this index of `roas`.
fn entry_why(
    alloc: Global,
    text: &str,
    index: usize,
    what: EntryFault,
) -> Result<String, AllocError> {
    let mut scratch = Scratch::new(alloc);
    let mut reader = Reader::new(text, &mut scratch)?;
    if !find_entry(&mut reader, index) {
        return format!(in alloc; "{what}");
    }
    match Tree::read(alloc, &mut reader, NESTING) {
        Ok(entry) => entry_text(alloc, &entry, what),
        Err(Error::OutOfMemory) => Err(AllocError),
        Err(_) => format!(in alloc; "{what}"),
    }
}

/// What is wrong with a text that has this fault.
fn text_why(alloc: Global, text: &str, fault: ExportFault) -> Result<String, AllocError> {
    match fault {
        ExportFault::NotJson => json_fault_text(alloc, text),
        ExportFault::NoRoas => form_text(alloc, text),
        ExportFault::Entry(index, what) => entry_why(alloc, text, index, what),
        ExportFault::TooMany => String::from_str(alloc, "more than 16777215 different payloads"),
        ExportFault::Memory => String::from_str(alloc, "out of memory"),
        ExportFault::Repeated => repeated_text(alloc, text),
    }
}

/// What is wrong with bytes that have this fault.
fn why(alloc: Global, bytes: &[u8], fault: ExportFault) -> Result<String, AllocError> {
    if let Some(reason) = encoding_reason(bytes) {
        return format!(in alloc; "not JSON: {reason}");
    }
    match str::from_utf8(bytes) {
        Ok(text) => text_why(alloc, text, fault),
        Err(error) => {
            let position = Position::at(bytes, error.valid_up_to());
            format!(in alloc; "not UTF-8 at {position}")
        }
    }
}

/// The place, what is wrong and the number.
fn joined(alloc: Global, place: &str, why: &str, fault: ExportFault) -> Result<String, AllocError>
    ensures { IfOk result (λ text. string_bytes text ≡ place.now ++ why.now ++ number_text fault) }
{
    format!(in alloc; "{place}{why} (fault {})", fault.number())
}

/// Returns the text of a fault that a read of `bytes` reported. The text names the entry, counted from 0, the member and its value, or the repeated
/// name. It ends in the fault number, such as `(fault 1)`.
/// For `NotJson` it has the line and column, or says that the bytes are compressed or begin with a byte order mark or a zero byte.
/// A value is shown as JSON, at most its first 80 bytes. `Err`: memory ran out.
///
/// The bytes are read again, token by token. At most one entry is built as a tree.
pub fn fault_text(alloc: Global, bytes: &[u8], fault: ExportFault) -> Result<String, AllocError>
    ensures { IfOk result (λ text. (why : List ℕ) × (string_bytes text ≡ place fault ++ why ++ number_text fault)) }
{
    let place = place(alloc, fault)?;
    let why = why(alloc, bytes, fault)?;
    joined(alloc, place.as_str(), why.as_str(), fault)
}
