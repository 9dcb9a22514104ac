//! Members of objects.
ghost use Rattle.std.specs.Prelude.{◌≡◌, ◌≤◌, is_some};
ghost use Rattle.serde_json.specs.Find.{get};
ghost use Rattle.serde_json.specs.View.{view};
ghost use Rattle.slurm.specs.Members.{is_of_members, one_for, total};

use serde_json::Value;

/// How many members an object has.
pub(crate) fn total(value: &Value) -> Option<usize>
    ensures { result ≡ total (view value.now) }
{
    match value.as_object() {
        Some(members) => Some(members.len()),
        None => None,
    }
}

/// Whether there is a member of this key.
pub(crate) fn has(value: &Value, key: &str) -> bool
    ensures { result ≡ is_some (get key.now (view value.now)) }
{
    value.get(key).is_some()
}

/// 1 for a key that is there.
pub(crate) fn one_for(value: &Value, key: &str) -> usize
    ensures value { result ≡ one_for key.now (view value.now) }
    ensures one { result ≤ 1 }
{
    if has(value, key) { 1 } else { 0 }
}

/// Whether it is an object of this number of members.
pub(crate) fn is_of_members(value: &Value, count: usize) -> bool
    ensures { result ≡ is_of_members count (total (view value.now)) }
{
    match total(value) {
        Some(members) => members == count,
        None => false,
    }
}
