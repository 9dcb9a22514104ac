//! The trust anchors that entries of an export name.
ghost use Rattle.std.specs.Prelude.{◌≡◌, ◌≤◌, length, map, option_map, string_bytes, IfOk, OnOk};
ghost use Rattle.exports.specs.Anchors.{number_in, place_from, short};
ghost use Rattle.exports.specs.Names.{with_name};

use std::alloc::{AllocError, Global};

/// The index in `ExportAnchors::of_each` of a record without a trust anchor. Its entry has no text `ta`, or the name is not kept.
pub const NO_ANCHOR: u8 = u8::MAX;

/// How many names are kept.
const MOST_NAMES: usize = 32;

/// How many bytes a name has at most.
const LONGEST_NAME: usize = 64;

/// The trust anchors of an export. An entry of `roas` may name its own in the member `ta`, as rpki-client and Routinator do.
/// Anchors of entries that do not count are left out. A payload list has none.
#[derive(Debug, Drop)]
pub struct ExportAnchors {
    /// The names of the trust anchors, each once, in the order of their first entries. At most 32 names of at most 64 bytes are kept.
    pub names: Vec<String>,
    /// For each record of the set, in the set's order, the index in `names` of the trust anchor of its entry.
    /// If several entries have this record, it is the index of one of them. [`NO_ANCHOR`]: this entry has no text `ta`, or the name is not
    /// kept.
    pub of_each: Vec<u8>,
}

/// Names of trust anchors, each once.
#[derive(Debug, Drop)]
pub struct AnchorNames {
    pub(crate) names: Vec<String>,
    ghost few: { length names.items ≤ 32 },
}

/// A name, if it is not too long.
fn short<'a>(name: Option<&'a str>) -> Option<&'a str>
    ensures { option_map (λ s. s.now) result ≡ short (option_map (λ s. s.now) name.entry) }
{
    let text = name?;
    if text.len() > LONGEST_NAME {
        return None;
    }
    Some(text)
}

/// The place of a name among these; [`NO_ANCHOR`] if it is not there.
fn place_of(names: &[String], name: &str) -> u8
    requires { length names.now ≤ 32 }
    ensures { result ≡ place_from 0 (map string_bytes names.now) name.now }
{
    for (index, known) in names.iter().enumerate() {
        if known.as_str() == name {
            return index as u8;
        }
    }
    NO_ANCHOR
}

impl AnchorNames {
    /// No names.
    pub(crate) fn new(alloc: Global) -> AnchorNames
        ensures { length result.names.items ≡ 0 }
    {
        AnchorNames {
            names: Vec::new(alloc),
        }
    }

    /// The number of a trust anchor of this name. A new name is added, if it is not too long and there is room.
    pub(crate) fn number(&mut self, alloc: Global, name: Option<&str>) -> Result<u8, AllocError>
        ensures names { OnOk result (map string_bytes self.new.names.items ≡ with_name (map string_bytes self.old.names.items) (short (option_map (λ s. s.now) name.entry))) }
        ensures number { IfOk result (λ k. k ≡ number_in (map string_bytes self.new.names.items) (short (option_map (λ s. s.now) name.entry))) }
    {
        let Some(text) = short(name) else {
            return Ok(NO_ANCHOR);
        };
        let place = place_of(self.names.as_slice(), text);
        if place != NO_ANCHOR || self.names.len() >= MOST_NAMES {
            return Ok(place);
        }
        let next = self.names.len() as u8;
        self.names.push(String::from_str(alloc, text)?)?;
        Ok(next)
    }
}
