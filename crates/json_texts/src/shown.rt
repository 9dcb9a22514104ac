//! Values and names in messages.
ghost use Rattle.std.specs.Prelude.{IfOk, string_bytes};
ghost use Rattle.serde_json.specs.View.{view};
ghost use Rattle.serde_json.specs.Data.{string};
ghost use Rattle.json_texts.specs.Shown.{IsCut, Shows};

use serde_json::Value;
use std::alloc::{AllocError, Global};

/// How many bytes of a text a message has at most.
const LIMIT: usize = 80;

/// Shortens a text for a message. A text of at most 80 bytes is returned as it is. Otherwise the result is at most its first 80 bytes, cut
/// between two characters, and `...`. `AllocError`: no memory for it.
pub fn cut_text(alloc: Global, text: &str) -> Result<String, AllocError>
    ensures { IfOk result (λ cut. IsCut text.now (string_bytes cut)) }
{
    if text.len() <= LIMIT {
        return String::from_str(alloc, text);
    }
    let end = text.floor_char_boundary(LIMIT);
    format!(in alloc; "{}...", &text[..end])
}

/// The compact JSON text of a value, shortened as by [`cut_text`]. `AllocError`: no memory for it.
pub fn value_text(alloc: Global, value: &Value) -> Result<String, AllocError>
    ensures { IfOk result (λ text. Shows (view value.now) (string_bytes text)) }
{
    let whole = value.to_string(alloc)?;
    cut_text(alloc, whole.as_str())
}

/// A name as a JSON string, in quotes and with escapes, shortened as by [`cut_text`]. `AllocError`: no memory for it.
pub fn name_text(alloc: Global, name: &str) -> Result<String, AllocError>
    ensures { IfOk result (λ text. Shows (string name.now) (string_bytes text)) }
{
    let value = Value::try_from_str(alloc, name)?;
    value_text(alloc, &value)
}
