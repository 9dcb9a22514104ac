//! Entries of a file of constraints.

ghost use Rattle.std.specs.Prelude.{◌≡◌};
ghost use Rattle.constraints.specs.Words.{words};
ghost use Rattle.constraints.specs.Values.{ReadsValue};
ghost use Rattle.constraints.specs.Entries.{action_of as action_of_word, ReadsLine};

use crate::value::{Numbers, is_dash, read_one, read_range};
use crate::words::{next_word, without_comment};
use crate::{ConstraintAction, ConstraintFaultKind};

/// What a line says.
#[derive(Clone, Copy)]
pub(crate) struct Entry {
    pub(crate) action: ConstraintAction,
    pub(crate) numbers: Numbers,
}

/// What an entry does, by its first word.
fn action_of(word: &[u8]) -> Result<ConstraintAction, ConstraintFaultKind>
    ensures { result ≡ action_of_word word.now }
{
    if word == b"allow".as_slice() {
        return Ok(ConstraintAction::Allow);
    }
    if word == b"deny".as_slice() {
        return Ok(ConstraintAction::Deny);
    }
    Err(ConstraintFaultKind::Word)
}

/// The value that follows `allow` or `deny`.
fn read_value(text: &[u8]) -> Result<Numbers, ConstraintFaultKind>
    ensures { ReadsValue (words text.now) result }
{
    let Some(value) = next_word(text) else {
        return Err(ConstraintFaultKind::NoValue);
    };
    let Some(next) = next_word(value.rest) else {
        return read_one(value.text);
    };
    if !is_dash(next.text) {
        return Err(ConstraintFaultKind::SecondValue);
    }
    let Some(end) = next_word(next.rest) else {
        return Err(ConstraintFaultKind::NoValue);
    };
    match next_word(end.rest) {
        Some(_) => Err(ConstraintFaultKind::SecondValue),
        None => read_range(value.text, end.text),
    }
}

/// A line: an entry, or none, or a fault.
pub(crate) fn read_line(line: &[u8]) -> Result<Option<Entry>, ConstraintFaultKind>
    ensures { ReadsLine line.now result }
{
    let Some(word) = next_word(without_comment(line)) else {
        return Ok(None);
    };
    let action = action_of(word.text)?;
    let numbers = read_value(word.rest)?;
    Ok(Some(Entry { action, numbers }))
}
