//! SLURM files, read.
ghost use Rattle.std.specs.Prelude.{◌≡◌, ◌<◌, ◌≤◌, IfOk, IfErr, IsErrOf, OnErr, Ok, Err};
ghost use Rattle.std.specs.Bool.{MatchBool};
ghost use Rattle.std.specs.Str.{IsUtf8};
ghost use Rattle.serde_json.specs.Data.{Data};
ghost use Rattle.serde_json.specs.View.{view};
ghost use Rattle.slurm.specs.Scoped.{IsScopedFile, ReadsScoped, ReadsScopedArrays, ReadsScopedValue, Scoped, scoped_of};
ghost use Rattle.slurm.specs.SlurmFile.{NamesOnce, ReadsJson, ReadsSlurm, limited};
ghost use Rattle.slurm.specs.Chains.{UnlessMemory, seen};
ghost use Rattle.slurm.specs.Exceptions.{Exceptions, exceptions_of};
ghost use Rattle.slurm.specs.Relations.{IsSlurmFile};
ghost use Rattle.slurm.specs.Steps.{arrays_view};

use crate::arrays::{Arrays, arrays_of};
use crate::entries::entries;
use crate::fault::{SlurmArray, SlurmFault};
use crate::filter::{PrefixFilter, Slurm};
use crate::scoped::ScopedSlurm;
use json::{Error, Scratch, Value as Tree};
use json_texts::begins_with_zero;
use prefixes::{Asn, Vrp};
use serde_json::Value;
use std::alloc::Global;
use std::str;
use vrps::VrpSet;

/// The JSON value of a text.
fn value_of(alloc: Global, text: &str) -> Result<Value, SlurmFault>
    ensures { UnlessMemory (ReadsJson text.now) (seen view result) }
{
    match Value::from_str(alloc, text) {
        Ok(value) => Ok(value),
        Err(error) if error.is_memory() => Err(SlurmFault::Memory),
        Err(_) => Err(SlurmFault::NotJson),
    }
}

/// Whether no name is repeated in an object of a JSON text, at any depth. `Memory`: out of memory.
fn has_names_once(alloc: Global, text: &str) -> Result<bool, SlurmFault>
    ensures ok { IfOk result (λ once. MatchBool once (NamesOnce text.now) (¬ (NamesOnce text.now))) }
    ensures memory { OnErr result (result ≡ Err SlurmFault.Memory) }
{
    let mut scratch = Scratch::new(alloc);
    match Tree::parse_strict(alloc, text, &mut scratch) {
        Ok(_tree) => Ok(true),
        Err(Error::DuplicateKey | Error::Invalid) => Ok(false),
        Err(Error::OutOfMemory | Error::TooLong) => Err(SlurmFault::Memory),
    }
}

/// The exceptions of these filters and records, if the records are not too many.
fn exceptions_from(filters: Vec<PrefixFilter>, records: Vec<Vrp>) -> Result<Slurm, SlurmFault>
    ensures { seen exceptions_of result ≡ limited filters.items records.items }
{
    match VrpSet::from_list(records) {
        Ok(assertions) => {
            let _within_limit = assertions.len();
            Ok(Slurm {
                filters,
                assertions,
            })
        }
        Err(_) => Err(SlurmFault::TooMany),
    }
}

/// The file that the entries of the arrays say.
fn entries_said(alloc: Global, arrays: &Arrays<'_>) -> Result<ScopedSlurm, SlurmFault>
    ensures { UnlessMemory (ReadsScopedArrays (arrays_view arrays.now)) (seen scoped_of result) }
{
    let filters = entries::<PrefixFilter>(alloc, arrays.prefix_filters, SlurmArray::PrefixFilters)?;
    let bgpsec_filters = entries::<Option<Asn>>(
        alloc,
        arrays.bgpsec_filters,
        SlurmArray::BgpsecFilters,
    )?;
    let records = entries::<Vrp>(
        alloc,
        arrays.prefix_assertions,
        SlurmArray::PrefixAssertions,
    )?;
    let bgpsec_assertions = entries::<Asn>(
        alloc,
        arrays.bgpsec_assertions,
        SlurmArray::BgpsecAssertions,
    )?;
    let slurm = exceptions_from(filters, records)?;
    Ok(ScopedSlurm {
        slurm,
        bgpsec_filters,
        bgpsec_assertions,
    })
}

/// The file that a value says, or its first fault.
fn said(alloc: Global, value: &Value) -> Result<ScopedSlurm, SlurmFault>
    ensures { UnlessMemory (ReadsScopedValue (view value.now)) (seen scoped_of result) }
{
    let arrays = arrays_of(value)?;
    entries_said(alloc, &arrays)
}

/// The file that a text says, or its first fault.
fn read_text(alloc: Global, text: &str) -> Result<ScopedSlurm, SlurmFault>
    ensures { UnlessMemory (ReadsScoped text.now) (seen scoped_of result) }
{
    if begins_with_zero(text.as_bytes()) {
        return Err(SlurmFault::NotJson);
    }
    let names_once = has_names_once(alloc, text)?;
    let value = value_of(alloc, text)?;
    if !names_once {
        return Err(SlurmFault::Repeated);
    }
    said(alloc, &value)
}

/// The file that bytes say, or their first fault.
fn read(alloc: Global, bytes: &[u8]) -> Result<ScopedSlurm, SlurmFault>
    ensures { UnlessMemory (ReadsScoped bytes.now) (seen scoped_of result) }
{
    match str::from_utf8(bytes) {
        Ok(text) => read_text(alloc, text),
        Err(_error) => Err(SlurmFault::NotJson),
    }
}

/// Reads a SLURM file with its scope. It returns the exceptions that [`read_slurm`] returns, and the ASes of the BGPsec entries.
///
/// `Err`: the faults of [`read_slurm`], in the same order.
pub fn read_slurm_scoped(alloc: Global, bytes: &[u8]) -> Result<ScopedSlurm, SlurmFault>
    ensures reads { UnlessMemory (ReadsScoped bytes.now) (seen scoped_of result) }
    ensures file { IfOk result (λ s. IsScopedFile bytes.now (scoped_of s)) }
    ensures only { (s : Scoped) → IsScopedFile bytes.now s → UnlessMemory (λ r. r ≡ Ok s) (seen scoped_of result) }
{
    read(alloc, bytes)
}

/// Reads a SLURM file (RFC 8416). No name may repeat in an object, and each object has exactly the members that are listed here.
/// - The file: `slurmVersion` (1), `validationOutputFilters` and `locallyAddedAssertions` (section 3.2).
/// - The filters: the arrays `prefixFilters` and `bgpsecFilters` (section 3.3).
/// - The assertions: the arrays `prefixAssertions` and `bgpsecAssertions` (section 3.4).
///
/// An entry may have only the members of these sections. Its prefix is a text that `prefix_texts::parse_prefix` reads.
/// BGPsec entries have no effect. Their `SKI` and `routerPublicKey` are not checked to be Base64.
///
/// `Err` is the first fault, in this order:
/// - `NotJson`: the bytes are not a JSON text in UTF-8, nest over 127 deep, or have a number that is too large for a float.
/// - `Repeated`: an object repeats a name.
/// - `Members` of the file, then `Version`: the members are wrong, or `slurmVersion` is not 1.
/// - `Members` of the filters, then of the assertions.
/// - `NoArray`: one of the four arrays is not an array. They are checked in the order of the list above.
/// - `Entry`: the first entry that cannot be read, in the same order of the arrays. It has the array, the index from 0 and the entry's first
///   fault.
/// - `TooMany`: the file asserts over 16,777,215 different VRPs.
///
/// `Memory` (out of memory) can occur at any point.
pub fn read_slurm(alloc: Global, bytes: &[u8]) -> Result<Slurm, SlurmFault>
    ensures reads { UnlessMemory (ReadsSlurm bytes.now) (seen exceptions_of result) }
    ensures file { IfOk result (λ s. IsSlurmFile bytes.now (exceptions_of s)) }
    ensures only { (e : Exceptions) → IsSlurmFile bytes.now e → UnlessMemory (λ r. r ≡ Ok e) (seen exceptions_of result) }
{
    let scoped = read(alloc, bytes)?;
    Ok(scoped.into_exceptions())
}
