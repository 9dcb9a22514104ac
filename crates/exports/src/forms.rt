//! Why a text is an export of neither form.
use crate::lists::list_entry;
use crate::streaming::NESTING;
use crate::walk::find_member;
use crate::words::{member_text, number_reason, shown, shown_token};
use json::{Error, Reader, Scratch, Token, Value as Tree};
use json_texts::{NO_ASN, NO_MAX_LENGTH, name_text, prefix_reason};
use prefixes::{Asn, IpPrefix, PrefixFault, Vrp};
use std::alloc::{AllocError, Global};

/// The members of an entry of a payload list.
const MEMBERS: &[&str] = &["asn", "prefix", "maxLength"];

/// The first member of an entry that a payload list does not have.
fn other_member<'a>(members: &[(&'a str, Tree<'a>)]) -> Option<&'a str> {
    for (name, _value) in members {
        if !MEMBERS.contains(name) {
            return Some(*name);
        }
    }
    None
}

/// The AS number of an entry.
fn asn_of(entry: &Tree<'_>) -> Option<u32> {
    let number = entry.get("asn")?.as_u64()?;
    u32::try_from(number).ok()
}

/// The text of the prefix of an entry.
fn prefix_text<'a>(entry: &Tree<'a>) -> Option<&'a str> {
    entry.get("prefix")?.as_str()
}

/// The prefix of an entry.
fn prefix_of(entry: &Tree<'_>) -> Result<IpPrefix, PrefixFault> {
    match prefix_text(entry) {
        Some(text) => IpPrefix::parse(text),
        None => Err(PrefixFault::BadText),
    }
}

/// The payload of an entry with this prefix.
fn payload_of(entry: &Tree<'_>, prefix: IpPrefix) -> Option<Vrp> {
    let number = entry.get("maxLength")?.as_u64()?;
    let max_len = u8::try_from(number).ok()?;
    Vrp::new(prefix, max_len, Asn(0)).ok()
}

/// The name of the member of an entry of a payload list that is missing or wrong, if one is, and the reason for its value.
fn wrong_member(entry: &Tree<'_>) -> Option<(&'static str, &'static str)> {
    if asn_of(entry).is_none() {
        return Some(("asn", reason_at(entry, "asn", NO_ASN)));
    }
    let prefix = match prefix_of(entry) {
        Ok(prefix) => prefix,
        Err(fault) => return Some(("prefix", prefix_reason(fault))),
    };
    if payload_of(entry, prefix).is_none() {
        return Some(("maxLength", reason_at(entry, "maxLength", NO_MAX_LENGTH)));
    }
    None
}

/// The reason for the member of this name, which should be a number.
fn reason_at(entry: &Tree<'_>, name: &str, wrong: &'static str) -> &'static str {
    match entry.get(name) {
        Some(value) => number_reason(value, wrong),
        None => wrong,
    }
}

/// What is wrong with the values of an entry of a payload list, if something is.
fn values_text(alloc: Global, entry: &Tree<'_>) -> Result<Option<String>, AllocError> {
    let Some((name, reason)) = wrong_member(entry) else {
        return Ok(None);
    };
    match entry.get(name) {
        Some(value) => Ok(Some(member_text(alloc, name, value, reason)?)),
        None => Ok(Some(format!(in alloc; "{name} is missing")?)),
    }
}

/// What is wrong with an item of a payload list, if something is.
fn item_text(alloc: Global, item: &Tree<'_>) -> Result<Option<String>, AllocError> {
    let Tree::Object(members) = item else {
        let shown = shown(alloc, item)?;
        return Ok(Some(format!(in alloc; "{shown} is not an object")?));
    };
    match other_member(members.as_slice()) {
        Some(name) => {
            let shown = name_text(alloc, name)?;
            Ok(Some(format!(in alloc; "unknown member {shown}")?))
        }
        None => values_text(alloc, item),
    }
}

/// What is wrong with the item that begins at this byte of a text, and is no entry.
fn item_at(alloc: Global, text: &str, start: usize) -> Result<String, AllocError> {
    let Some(rest) = text.get(start..) else {
        return String::from_str(alloc, "it cannot be read");
    };
    let mut scratch = Scratch::new(alloc);
    let mut reader = Reader::new(rest, &mut scratch)?;
    match Tree::read(alloc, &mut reader, NESTING) {
        Ok(item) => match item_text(alloc, &item)? {
            Some(why) => Ok(why),
            None => String::from_str(alloc, "a name is repeated"),
        },
        Err(Error::OutOfMemory) => Err(AllocError),
        Err(_) => String::from_str(alloc, "it cannot be read"),
    }
}

/// Which item of an array is no entry of a payload list, and why. The items come next in the text.
fn list_text(alloc: Global, text: &str, reader: &mut Reader<'_>) -> Result<String, AllocError> {
    let mut index = 0usize;
    while !reader.take_end_array() {
        let start = reader.offset();
        let Some(Some(_record)) = list_entry(reader) else {
            let why = item_at(alloc, text, start)?;
            return format!(in alloc; "entry {index}: {why}");
        };
        index = index.saturating_add(1);
    }
    String::from_str(alloc, "all its items are entries")
}

/// Why an object has no array `roas`. Its members come next.
fn object_text(alloc: Global, reader: &mut Reader<'_>) -> Result<String, AllocError> {
    if !find_member(reader, "roas") {
        return String::from_str(alloc, "roas is missing");
    }
    match reader.next() {
        Some(token) => {
            let shown = shown_token(alloc, &token)?;
            format!(in alloc; "roas is {shown}")
        }
        None => String::from_str(alloc, "roas cannot be read"),
    }
}

/// Why a text is an export of neither form.
pub(crate) fn form_text(alloc: Global, text: &str) -> Result<String, AllocError> {
    let mut scratch = Scratch::new(alloc);
    let mut reader = Reader::new(text, &mut scratch)?;
    match reader.next() {
        Some(Token::BeginArray) => list_text(alloc, text, &mut reader),
        Some(Token::BeginObject) => object_text(alloc, &mut reader),
        _ => String::from_str(alloc, "it is neither an array nor an object"),
    }
}
