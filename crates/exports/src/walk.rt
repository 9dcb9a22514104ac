//! Steps through a JSON text, token by token.
ghost use Rattle.std.specs.Prelude.{◌<◌, length, IfSome};

use crate::streaming::NESTING;
use json::{Reader, Token};

/// Skips the value that comes next. `None`: it cannot be read.
#[inline(always)]
pub(crate) fn skip_value(reader: &mut Reader<'_>) -> Option<()>
    ensures { IfSome result (λ _. length reader.new < length reader.old) }
{
    match reader.skip_value(NESTING) {
        Ok(()) => Some(()),
        Err(_) => None,
    }
}

/// Goes to the value of the first member of this name, in an object whose members come next. Whether there is one.
pub(crate) fn find_member(reader: &mut Reader<'_>, name: &str) -> bool {
    while let Ok(Some(found)) = reader.next_key() {
        if found == name {
            return true;
        }
        if reader.skip_value(NESTING).is_err() {
            return false;
        }
    }
    false
}

/// Goes to the item of this index, in an array whose items come next. Whether there is one.
pub(crate) fn find_item(reader: &mut Reader<'_>, index: usize) -> bool {
    for _passed in 0..index {
        if reader.take_end_array() || reader.skip_value(NESTING).is_err() {
            return false;
        }
    }
    !reader.take_end_array()
}

/// Whether an array begins next.
pub(crate) fn begins_array(reader: &mut Reader<'_>) -> bool {
    matches!(reader.next(), Some(Token::BeginArray))
}

/// Whether an object begins next.
pub(crate) fn begins_object(reader: &mut Reader<'_>) -> bool {
    matches!(reader.next(), Some(Token::BeginObject))
}
