//! The elements of an array, counted while they are skipped.
ghost use Rattle.std.specs.Prelude.{◌≡◌, length, MatchOption, IfOk};
ghost use Rattle.exports.specs.PlainForm.{ReadsCounted, ReadsItems, ReadsNoItems, ReadsNone};

use crate::streaming::{NESTING, begins_array, read_rest, read_value};
use json::Reader;
use std::alloc::AllocError;

/// Skips the items of an array, to its end, and counts them. `AllocError`: there are 2^64, which no memory holds.
fn count_items(reader: &mut Reader<'_>) -> Result<Option<u64>, AllocError>
    ensures { IfOk result (λ found. MatchOption found (ReadsNoItems 125 reader.old) (λ n. ReadsItems 125 (λ js ds. length ds ≡ n) reader.old reader.new)) }
{
    let mut count = 0u64;
    while !reader.take_end_array() {
        if count == u64::MAX {
            return Err(AllocError);
        }
        let Some(_passed) = read_value(reader, NESTING - 2) else {
            return Ok(None);
        };
        count += 1;
    }
    Ok(Some(count))
}

/// Skips a value, and returns how many elements it has: 0 if it is not an array.
pub(crate) fn count_elements(reader: &mut Reader<'_>) -> Result<Option<u64>, AllocError>
    ensures { IfOk result (λ found. MatchOption found (ReadsNone 126 reader.old) (λ n. ReadsCounted reader.old reader.new n)) }
{
    let Some(token) = reader.next() else {
        return Ok(None);
    };
    if begins_array(&token) {
        return count_items(reader);
    }
    let Some(_passed) = read_rest(reader, token, NESTING - 1) else {
        return Ok(None);
    };
    Ok(Some(0))
}
