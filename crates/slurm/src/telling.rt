//! Faults in words, with the values in the file.
ghost use Rattle.std.specs.Prelude.{◌≡◌, ◌++◌, List, ℕ, IfOk, string_bytes, codes};
ghost use Rattle.std.specs.Fmt.{decimal};
ghost use Rattle.slurm.specs.Telling.{number_text, place};

use crate::fault::{SlurmArray, SlurmEntryFault, SlurmFault, SlurmObject};
use crate::repeated::repeated_text;
use json_texts::{
    NO_ASN, NO_MAX_LENGTH, NO_NUMBER, NO_PREFIX, STRING_FOR_NUMBER, encoding_reason, name_text,
    prefix_reason, value_text,
};
use payload_lists::parts::whole;
use prefix_texts::parse_prefix;
use serde_json::Value;
use std::alloc::{AllocError, Global};

/// The members of a file, and of its two objects (RFC 8416 section 3.2).
const FILE: &[&str] = &[
    "slurmVersion",
    "validationOutputFilters",
    "locallyAddedAssertions",
];

const FILTERS: &[&str] = &["prefixFilters", "bgpsecFilters"];

const ASSERTIONS: &[&str] = &["prefixAssertions", "bgpsecAssertions"];

/// The members of the entries (RFC 8416 sections 3.3 and 3.4).
const PREFIX_FILTER: &[&str] = &["prefix", "asn", "comment"];

const BGPSEC_FILTER: &[&str] = &["SKI", "asn", "comment"];

const PREFIX_ASSERTION: &[&str] = &["asn", "prefix", "maxPrefixLength", "comment"];

const BGPSEC_ASSERTION: &[&str] = &["asn", "SKI", "routerPublicKey", "comment"];

/// The members of an object.
fn object_members(object: SlurmObject) -> &'static [&'static str] {
    match object {
        SlurmObject::File => FILE,
        SlurmObject::Filters => FILTERS,
        SlurmObject::Assertions => ASSERTIONS,
    }
}

/// The members of an entry.
fn entry_members(array: SlurmArray) -> &'static [&'static str] {
    match array {
        SlurmArray::PrefixFilters => PREFIX_FILTER,
        SlurmArray::BgpsecFilters => BGPSEC_FILTER,
        SlurmArray::PrefixAssertions => PREFIX_ASSERTION,
        SlurmArray::BgpsecAssertions => BGPSEC_ASSERTION,
    }
}

/// The object, array or entry that has a fault.
fn place(alloc: Global, fault: SlurmFault) -> Result<String, AllocError>
    ensures { IfOk result (λ text. string_bytes text ≡ place fault) }
{
    match fault {
        SlurmFault::Members(object) => format!(in alloc; "{} ", object.name()),
        SlurmFault::NoArray(array) => format!(in alloc; "{} ", array.key()),
        SlurmFault::Entry(array, index, _) => format!(in alloc; "{}[{index}]: ", array.key()),
        SlurmFault::Version => String::from_str(alloc, "slurmVersion "),
        _ => Ok(String::new(alloc)),
    }
}

/// Whether it is one of these names.
fn is_among(names: &[&str], name: &str) -> bool {
    for known in names {
        if *known == name {
            return true;
        }
    }
    false
}

/// The first member of an object that has none of these names.
fn unknown<'a>(value: &'a Value, names: &[&str]) -> Option<&'a str> {
    let members = value.as_object()?;
    for name in members.keys() {
        if !is_among(names, name.as_str()) {
            return Some(name.as_str());
        }
    }
    None
}

/// The first of these names of which there is no member.
fn missing<'a>(value: &Value, names: &[&'a str]) -> Option<&'a str> {
    for name in names {
        if value.get(*name).is_none() {
            return Some(*name);
        }
    }
    None
}

/// The member of an entry that is not known.
fn unknown_text(alloc: Global, entry: &Value, names: &[&str]) -> Result<String, AllocError> {
    match unknown(entry, names) {
        Some(name) => {
            let shown = name_text(alloc, name)?;
            format!(in alloc; "unknown member {shown}")
        }
        None => String::from_str(alloc, "unknown member"),
    }
}

/// What is wrong with the members of an object.
fn members_text(alloc: Global, value: &Value, names: &[&str]) -> Result<String, AllocError> {
    if value.as_object().is_none() {
        let shown = value_text(alloc, value)?;
        return format!(in alloc; "is {shown}, must be an object");
    }
    if let Some(name) = unknown(value, names) {
        let shown = name_text(alloc, name)?;
        return format!(in alloc; "has the unknown member {shown}");
    }
    match missing(value, names) {
        Some(name) => format!(in alloc; "has no member {name}"),
        None => String::from_str(alloc, "has all its members"),
    }
}

/// The name of the faulty member. `None` if the fault is of the whole entry.
fn member_of(why: SlurmEntryFault) -> Option<&'static str> {
    match why {
        SlurmEntryFault::Asn => Some("asn"),
        SlurmEntryFault::Comment => Some("comment"),
        SlurmEntryFault::Ski => Some("SKI"),
        SlurmEntryFault::RouterPublicKey => Some("routerPublicKey"),
        SlurmEntryFault::Prefix => Some("prefix"),
        SlurmEntryFault::MaxLength => Some("maxPrefixLength"),
        _ => None,
    }
}

/// The reason for a value that should be a number: that it is not one, or `wrong`.
fn number_reason(value: &Value, wrong: &'static str) -> &'static str {
    if value.is_string() {
        return STRING_FOR_NUMBER;
    }
    if value.is_number() { wrong } else { NO_NUMBER }
}

/// The reason for a value that should be the text of a prefix.
fn prefix_wrong(value: &Value) -> &'static str {
    let Some(text) = value.as_str() else {
        return NO_PREFIX;
    };
    match parse_prefix(text) {
        Ok(_) => NO_PREFIX,
        Err(fault) => prefix_reason(fault),
    }
}

/// The reason for the value of the faulty member.
fn reason(value: &Value, why: SlurmEntryFault) -> &'static str {
    match why {
        SlurmEntryFault::Asn => number_reason(value, NO_ASN),
        SlurmEntryFault::Prefix => prefix_wrong(value),
        SlurmEntryFault::MaxLength => number_reason(value, NO_MAX_LENGTH),
        _ => "is not a string",
    }
}

/// The message for a faulty member: its name, its value and the reason, or that it is missing.
fn member_text(
    alloc: Global,
    entry: &Value,
    name: &str,
    why: SlurmEntryFault,
) -> Result<String, AllocError> {
    match entry.get(name) {
        Some(value) => {
            let shown = value_text(alloc, value)?;
            let wrong = reason(value, why);
            format!(in alloc; "{name} {shown} {wrong}")
        }
        None => format!(in alloc; "{name} is missing"),
    }
}

/// What is wrong with an entry as a whole.
fn whole_text(
    alloc: Global,
    entry: &Value,
    array: SlurmArray,
    why: SlurmEntryFault,
) -> Result<String, AllocError> {
    match why {
        SlurmEntryFault::NoObject => {
            let shown = value_text(alloc, entry)?;
            format!(in alloc; "{shown} is not an object")
        }
        SlurmEntryFault::OtherKey => unknown_text(alloc, entry, entry_members(array)),
        SlurmEntryFault::NeitherSki => String::from_str(alloc, "neither SKI nor asn"),
        _ => String::from_str(alloc, "neither prefix nor asn"),
    }
}

/// What is wrong with an entry.
fn entry_text(
    alloc: Global,
    entry: &Value,
    array: SlurmArray,
    why: SlurmEntryFault,
) -> Result<String, AllocError> {
    match member_of(why) {
        Some(name) => member_text(alloc, entry, name, why),
        None => whole_text(alloc, entry, array, why),
    }
}

/// The value of an object of a file.
fn object_in(file: &Value, object: SlurmObject) -> Option<&Value> {
    match object {
        SlurmObject::File => Some(file),
        _ => file.get(object.name()),
    }
}

/// The value of an array of a file.
fn array_in(file: &Value, array: SlurmArray) -> Option<&Value> {
    let object = file.get(array.object().name())?;
    object.get(array.key())
}

/// The value of an entry of a file.
fn entry_in(file: &Value, array: SlurmArray, index: usize) -> Option<&Value> {
    let array = array_in(file, array)?;
    array.get(index)
}

/// What is wrong with a value, if it is there: it must be something else.
fn wrong_value(alloc: Global, value: Option<&Value>, must: &str) -> Result<String, AllocError> {
    match value {
        Some(value) => {
            let shown = value_text(alloc, value)?;
            format!(in alloc; "is {shown}, must be {must}")
        }
        None => String::from_str(alloc, "is missing"),
    }
}

/// The version that a file must have. Version 2 has assertions on ASPA besides (draft-ietf-sidrops-aspa-slurm).
fn version_wanted(file: &Value) -> &'static str {
    match whole(file, "slurmVersion") {
        Some(2) => "1: version 2 (ASPA) is not served",
        _ => "1",
    }
}

/// What is wrong with an entry of a file.
fn at_entry(
    alloc: Global,
    file: &Value,
    array: SlurmArray,
    index: usize,
    why: SlurmEntryFault,
) -> Result<String, AllocError> {
    match entry_in(file, array, index) {
        Some(entry) => entry_text(alloc, entry, array, why),
        None => format!(in alloc; "{why}"),
    }
}

/// What is wrong with a file, if no entry is.
fn at_file(alloc: Global, file: &Value, fault: SlurmFault) -> Result<String, AllocError> {
    match fault {
        SlurmFault::Members(object) => match object_in(file, object) {
            Some(value) => members_text(alloc, value, object_members(object)),
            None => String::from_str(alloc, "is missing"),
        },
        SlurmFault::Version => {
            wrong_value(alloc, file.get("slurmVersion"), version_wanted(file))
        }
        SlurmFault::NoArray(array) => wrong_value(alloc, array_in(file, array), "an array"),
        SlurmFault::TooMany => String::from_str(alloc, "more than 16777215 different assertions"),
        _ => String::from_str(alloc, "out of memory"),
    }
}

/// What is wrong with a JSON value, if it has this fault.
fn why_in(alloc: Global, file: &Value, fault: SlurmFault) -> Result<String, AllocError> {
    match fault {
        SlurmFault::Entry(array, index, why) => at_entry(alloc, file, array, index, why),
        _ => at_file(alloc, file, fault),
    }
}

/// What is wrong with bytes that have this fault, or the position at which they are not JSON.
fn json_why(alloc: Global, bytes: &[u8], fault: SlurmFault) -> Result<String, AllocError> {
    match Value::from_slice(alloc, bytes) {
        Ok(file) => why_in(alloc, &file, fault),
        Err(error) if error.is_memory() => Err(AllocError),
        Err(error) => {
            format!(in alloc;
                "not JSON at line {}, column {}",
                error.line(),
                error.column()
            )
        }
    }
}

/// What is wrong with bytes that have this fault.
fn why(alloc: Global, bytes: &[u8], fault: SlurmFault) -> Result<String, AllocError> {
    if let Some(reason) = encoding_reason(bytes) {
        return format!(in alloc; "not JSON: {reason}");
    }
    match fault {
        SlurmFault::Repeated => repeated_text(alloc, bytes),
        _ => json_why(alloc, bytes, fault),
    }
}

/// The place, what is wrong and the number.
fn joined(alloc: Global, place: &str, why: &str, fault: SlurmFault) -> Result<String, AllocError>
    ensures { IfOk result (λ text. string_bytes text ≡ place.now ++ why.now ++ number_text fault) }
{
    format!(in alloc; "{place}{why} (fault {})", fault.number())
}

/// Formats a fault of a SLURM file as a message. `bytes` is the file that [`read_slurm`](crate::read_slurm) refused with `fault`.
///
/// - The message names a member that is missing, unknown or repeated. A repeated name is named only if it is in the object of the file, in one
///   of its two objects, or in an entry.
/// - If a value is wrong, the message names its object, or its array with the index from 0 and the member, and shows the value.
/// - The value is shown as JSON. If that has over 80 bytes, only the first 80 are shown.
/// - If the bytes are not JSON, the message gives the line and the column. Or it says that they are compressed, or begin with a byte order mark
///   or a zero byte.
/// - The message ends in the fault number, such as `(fault 1)`.
///
/// `Err`: out of memory.
pub fn fault_text(alloc: Global, bytes: &[u8], fault: SlurmFault) -> Result<String, AllocError>
    ensures { IfOk result (λ text. (why : List ℕ) × (string_bytes text ≡ place fault ++ why ++ number_text fault)) }
{
    let place = place(alloc, fault)?;
    let why = why(alloc, bytes, fault)?;
    joined(alloc, place.as_str(), why.as_str(), fault)
}
