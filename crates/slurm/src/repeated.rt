//! Names that are repeated in an object, found.

use crate::fault::{SlurmArray, SlurmObject};
use json::{Scratch, Value as Tree};
use json_texts::name_text;
use std::alloc::{AllocError, Global};
use std::str;

/// The objects beside the file, and the arrays, in their order (RFC 8416 section 3.2).
const OBJECTS: &[SlurmObject] = &[SlurmObject::Filters, SlurmObject::Assertions];

const ARRAYS: &[SlurmArray] = &[
    SlurmArray::PrefixFilters,
    SlurmArray::BgpsecFilters,
    SlurmArray::PrefixAssertions,
    SlurmArray::BgpsecAssertions,
];

/// The least name that is repeated in an object.
fn repeated<'a>(alloc: Global, tree: &Tree<'a>) -> Result<Option<&'a str>, AllocError> {
    let Tree::Object(members) = tree else {
        return Ok(None);
    };
    let mut names: Vec<&'a str> = members.iter().map(|member| member.0).collect(alloc)?;
    names.sort()?;
    Ok(twice(names.as_slice()))
}

/// The first of these names that equals the next one.
fn twice<'a>(names: &[&'a str]) -> Option<&'a str> {
    for pair in names.windows(2) {
        if pair[0] == pair[1] {
            return Some(pair[0]);
        }
    }
    None
}

/// The first of the two objects in which a name is repeated.
fn in_object<'a>(
    alloc: Global,
    file: &Tree<'a>,
) -> Result<Option<(SlurmObject, &'a str)>, AllocError> {
    for object in OBJECTS {
        if let Some(part) = file.get(object.name()) {
            if let Some(name) = repeated(alloc, part)? {
                return Ok(Some((*object, name)));
            }
        }
    }
    Ok(None)
}

/// The first entry of an array in which a name is repeated.
fn in_entry<'a>(alloc: Global, array: &Tree<'a>) -> Result<Option<(usize, &'a str)>, AllocError> {
    let Tree::Array(items) = array else {
        return Ok(None);
    };
    for (index, item) in items.iter().enumerate() {
        if let Some(name) = repeated(alloc, item)? {
            return Ok(Some((index, name)));
        }
    }
    Ok(None)
}

/// An array of a file.
fn array_in<'t, 'a>(file: &'t Tree<'a>, array: SlurmArray) -> Option<&'t Tree<'a>> {
    let object = file.get(array.object().name())?;
    object.get(array.key())
}

/// The first array with such an entry, and that entry.
fn in_array<'a>(
    alloc: Global,
    file: &Tree<'a>,
) -> Result<Option<(SlurmArray, usize, &'a str)>, AllocError> {
    for array in ARRAYS {
        if let Some(found) = array_in(file, *array) {
            if let Some((index, name)) = in_entry(alloc, found)? {
                return Ok(Some((*array, index, name)));
            }
        }
    }
    Ok(None)
}

/// The name that is repeated, and its object.
fn found_text(alloc: Global, file: &Tree<'_>) -> Result<String, AllocError> {
    if let Some(name) = repeated(alloc, file)? {
        let shown = name_text(alloc, name)?;
        return format!(in alloc; "{shown} is repeated in the file");
    }
    if let Some((object, name)) = in_object(alloc, file)? {
        let shown = name_text(alloc, name)?;
        return format!(in alloc; "{shown} is repeated in {}", object.name());
    }
    match in_array(alloc, file)? {
        Some((array, index, name)) => {
            let shown = name_text(alloc, name)?;
            format!(in alloc; "{shown} is repeated in {}[{index}]", array.key())
        }
        None => String::from_str(alloc, "a name is repeated in an object"),
    }
}

/// The same of bytes.
pub(crate) fn repeated_text(alloc: Global, bytes: &[u8]) -> Result<String, AllocError> {
    let mut scratch = Scratch::new(alloc);
    let Ok(text) = str::from_utf8(bytes) else {
        return String::from_str(alloc, "not UTF-8");
    };
    match Tree::parse(alloc, text, &mut scratch) {
        Ok(file) => found_text(alloc, &file),
        Err(_) => String::from_str(alloc, "a name is repeated in an object"),
    }
}
