//! The arrays of a file.
ghost use Rattle.std.specs.Prelude.{◌≡◌, ◌+◌, ◌≤◌, Option, option_map, codes};
ghost use Rattle.serde_json.specs.Find.{get};
ghost use Rattle.serde_json.specs.View.{items_view, view};
ghost use Rattle.slurm.specs.Members.{total};
ghost use Rattle.slurm.specs.SlurmFile.{array_at, arrays_of, is_file, is_pair, is_version_1, pair_of};
ghost use Rattle.slurm.specs.Steps.{arrays_view};
ghost use Rattle.slurm.specs.Chains.{seen};
ghost use Rattle.payload_lists.specs.PayloadList.{whole_at};

use crate::fault::{SlurmArray, SlurmFault, SlurmObject};
use crate::members::{is_of_members, one_for};
use payload_lists::parts::whole;
use serde_json::Value;

/// The four arrays of a file (RFC 8416 section 3.2).
#[derive(Clone, Copy, Debug)]
pub(crate) struct Arrays<'a> {
    pub(crate) prefix_filters: &'a [Value],
    pub(crate) bgpsec_filters: &'a [Value],
    pub(crate) prefix_assertions: &'a [Value],
    pub(crate) bgpsec_assertions: &'a [Value],
}

/// Whether it is an object of exactly these two members.
fn is_pair(value: &Value, one: &str, other: &str) -> bool
    ensures { result ≡ is_pair one.now other.now (view value.now) }
{
    is_of_members(value, 2) && one_for(value, one) + one_for(value, other) == 2
}

/// Whether it is an object of exactly the members of a file.
fn is_file(value: &Value) -> bool
    ensures { result ≡ is_file (view value.now) }
{
    is_of_members(value, 3)
        && one_for(value, "slurmVersion")
            + one_for(value, "validationOutputFilters")
            + one_for(value, "locallyAddedAssertions")
            == 3
}

/// The object under a key, which has exactly two members.
fn pair<'a>(
    file: &'a Value,
    key: &str,
    object: SlurmObject,
    one: &str,
    other: &str,
) -> Result<&'a Value, SlurmFault>
    ensures { seen (λ v. view v.now) result ≡ pair_of object one.now other.now (get key.now (view file.now)) }
{
    match file.get(key) {
        Some(value) if is_pair(value, one, other) => Ok(value),
        _ => Err(SlurmFault::Members(object)),
    }
}

/// The array under a key.
fn array<'a>(object: &'a Value, key: &str, array: SlurmArray) -> Result<&'a [Value], SlurmFault>
    ensures { seen (λ l. items_view l.now) result ≡ array_at array key.now (view object.now) }
{
    match object.get(key).and_then(Value::as_array) {
        Some(list) => Ok(list.as_slice()),
        None => Err(SlurmFault::NoArray(array)),
    }
}

/// Whether it says version 1.
fn is_version_1(file: &Value) -> bool
    ensures { result ≡ is_version_1 (whole_at (codes "slurmVersion") (view file.now)) }
{
    match whole(file, "slurmVersion") {
        Some(version) => version == 1,
        None => false,
    }
}

/// The arrays of a file.
pub(crate) fn arrays_of(file: &Value) -> Result<Arrays<'_>, SlurmFault>
    ensures { seen arrays_view result ≡ arrays_of (view file.now) }
{
    if !is_file(file) {
        return Err(SlurmFault::Members(SlurmObject::File));
    }
    if !is_version_1(file) {
        return Err(SlurmFault::Version);
    }
    let filters = pair(
        file,
        "validationOutputFilters",
        SlurmObject::Filters,
        "prefixFilters",
        "bgpsecFilters",
    )?;
    let assertions = pair(
        file,
        "locallyAddedAssertions",
        SlurmObject::Assertions,
        "prefixAssertions",
        "bgpsecAssertions",
    )?;
    let prefix_filters = array(filters, "prefixFilters", SlurmArray::PrefixFilters)?;
    let bgpsec_filters = array(filters, "bgpsecFilters", SlurmArray::BgpsecFilters)?;
    let prefix_assertions = array(assertions, "prefixAssertions", SlurmArray::PrefixAssertions)?;
    let bgpsec_assertions = array(assertions, "bgpsecAssertions", SlurmArray::BgpsecAssertions)?;
    Ok(Arrays {
        prefix_filters,
        bgpsec_filters,
        prefix_assertions,
        bgpsec_assertions,
    })
}
