//! Payload lists, read from JSON and written.
ghost use Rattle.std.specs.Prelude.{◌≡◌, ◌==◌, ◌<◌, ◌≤◌, ◌++◌, ◌∷◌, [], if◌then◌else◌, ℕ, List, string_bytes, OnOk, OnErr, Err, IfOk, IfSome, IfNone, IsErrOf, option_map};
ghost use Rattle.serde_json.specs.View.{view, items_view};
ghost use Rattle.std.specs.List.Sorted.{IsStrictlySortedBy};
ghost use Rattle.prefixes.specs.Payload.{Payload, vrp_cmp};
ghost use Rattle.vrps.specs.VrpSet.{VrpSet as Vrps, set_of, size};
ghost use Rattle.payload_lists.specs.EntrySteps.{MakesPayload};
ghost use Rattle.payload_lists.specs.PayloadList.{AreEntries, IsEntry, IsPayloadList, ListsSet, entry_text, list_text, text_at, whole_at};

use crate::plain::plain_list;
use prefixes::laws::one_reading;
use prefixes::{Asn, IpPrefix, Vrp};
use serde_json::Value;
use std::alloc::{AllocError, Global};
use std::str;
use thiserror::Error;
use vrps::VrpSet;

/// Why a payload list is not read. The numbers of the faults are fixed.
#[derive(Clone, Copy, Debug, PartialEq, Eq, Error)]
pub enum ListFault {
    /// The bytes are not a payload list, or it has over 16,777,215 different VRPs.
    #[error("not a payload list (fault 1)")]
    NoList = 1,
    /// Out of memory.
    #[error("out of memory (fault 2)")]
    Memory = 2,
}

impl ListFault {
    ghost use Rattle.payload_lists.specs.ListFaults.{list_fault_number};

    /// The number of the fault, as `Display` writes it: 1 or 2.
    pub fn number(self) -> u8
        ensures { result ≡ list_fault_number self }
    {
        self as u8
    }
}

impl From<AllocError> for ListFault {
    ghost use Rattle.payload_lists.specs.declared.listing.ListFault.TheVariants.{Memory};

    ghost from_gives = { λ _ e. e ≡ Memory };

    fn from(_error: AllocError) -> ListFault {
        ListFault::Memory
    }
}

/// The integer from 0 to 2^64 - 1 under a key of a JSON object. `None`: `value` is not an object, the key is missing, or its value is something
/// else.
pub fn whole(value: &Value, key: &str) -> Option<u64>
    ensures { result ≡ whole_at key.now (view value.now) }
{
    value.get(key).and_then(Value::as_u64)
}

/// The string under a key of a JSON object. `None`: `value` is not an object, the key is missing, or its value is something else.
pub fn text<'a>(value: &'a Value, key: &str) -> Option<&'a str>
    ensures { option_map (λ s. s.now) result ≡ text_at key.now (view value.now) }
{
    value.get(key).and_then(Value::as_str)
}

/// Makes a VRP from the values of an entry. `max_len` is in bits.
/// `None`: `IpPrefix::parse` does not read `prefix`, `asn` is 2^32 or more, or `max_len` is below the prefix length or over 32 (IPv4) or 128
/// (IPv6).
pub fn payload(asn: u64, max_len: u64, prefix: &str) -> Option<Vrp>
    ensures some { IfSome result (λ v. MakesPayload asn max_len prefix.now v) }
    ensures one { IfSome result (λ v. (w : Payload) → MakesPayload asn max_len prefix.now w → w ≡ v) }
    ensures none { IfNone result ((v : Payload) → ¬ (MakesPayload asn max_len prefix.now v)) }
{
    let Ok(prefix) = IpPrefix::parse(prefix) else {
        return None;
    };
    let Ok(max_len) = u8::try_from(max_len) else {
        return None;
    };
    let Ok(asn) = u32::try_from(asn) else {
        return None;
    };
    match Vrp::new(prefix, max_len, Asn(asn)) {
        Ok(vrp) => Some(vrp),
        Err(_) => None,
    }
}

/// The payload of an entry.
fn entry(value: &Value) -> Option<Vrp>
    ensures some { IfSome result (λ v. IsEntry (view value.now) v) }
    ensures one { IfSome result (λ v. (w : Payload) → IsEntry (view value.now) w → w ≡ v) }
    ensures none { IfNone result ((v : Payload) → ¬ (IsEntry (view value.now) v)) }
{
    let members = value.as_object()?;
    if members.len() != 3 {
        return None;
    }
    let asn = whole(value, "asn")?;
    let max_len = whole(value, "maxLength")?;
    let prefix = text(value, "prefix")?;
    payload(asn, max_len, prefix)
}

/// The VRPs of the entries of a payload list, in their order, duplicates included. `list` is the items of the JSON array.
/// `NoList`: an item is not an entry of a payload list. `Memory`: out of memory.
pub fn records_of(alloc: Global, list: &[Value]) -> Result<Vec<Vrp>, ListFault>
    ensures ok { IfOk result (λ vs. AreEntries (items_view list.now) vs.items) }
    ensures one { IfOk result (λ vs. (ws : List Payload) → AreEntries (items_view list.now) ws → ws ≡ vs.items) }
    ensures no_list { IsErrOf result ListFault.NoList → (vs : List Payload) → ¬ (AreEntries (items_view list.now) vs) }
{
    let mut records = Vec::new(alloc);
    for item in list {
        let Some(vrp) = entry(item) else {
            return Err(ListFault::NoList);
        };
        if records.push(vrp).is_err() {
            return Err(ListFault::Memory);
        }
    }
    Ok(records)
}

/// The set of these records, if they are not too many.
fn set_from(records: Vec<Vrp>) -> Result<VrpSet, ListFault>
    ensures ok { IfOk result (λ s. (s ≡ set_of records.items) × (size s ≤ 16777215)) }
    ensures no_list { IsErrOf result ListFault.NoList → 16777215 < size (set_of records.items) }
    ensures only { OnErr result (result ≡ Err ListFault.NoList) }
{
    match VrpSet::from_list(records) {
        Ok(set) => {
            let _within_limit = set.len();
            Ok(set)
        }
        Err(_) => Err(ListFault::NoList),
    }
}

/// The set of an array of entries.
fn set_of_items(alloc: Global, list: &[Value]) -> Result<VrpSet, ListFault>
    ensures ok { IfOk result (λ s. ListsSet (items_view list.now) s) }
    ensures no_list { IsErrOf result ListFault.NoList → (s : Vrps) → ¬ (ListsSet (items_view list.now) s) }
{
    let records = records_of(alloc, list)?;
    set_from(records)
}

/// The set of a payload list in any form, read as a whole.
fn read_any(alloc: Global, bytes: &[u8]) -> Result<VrpSet, ListFault>
    ensures ok { IfOk result (λ s. IsPayloadList bytes.now s) }
    ensures no_list { IsErrOf result ListFault.NoList → (s : Vrps) → ¬ (IsPayloadList bytes.now s) }
{
    let value = match Value::from_slice(alloc, bytes) {
        Ok(value) => value,
        Err(error) if error.is_memory() => return Err(ListFault::Memory),
        Err(_) => return Err(ListFault::NoList),
    };
    match value.as_array() {
        Some(list) => set_of_items(alloc, list.as_slice()),
        None => Err(ListFault::NoList),
    }
}

/// Reads a payload list: a JSON array of objects with exactly the keys `asn`, `maxLength` and `prefix`. `asn` and `maxLength` are whole numbers,
/// and `prefix` is a string that `IpPrefix::parse` reads. If an object has a key twice, the last value counts.
/// `NoList`: the bytes are not such a list, or it has over 16,777,215 different VRPs. `Memory`: out of memory.
/// A list in plain form (each key once, numbers of digits alone) is read token by token, up to the first entry that makes no VRP. Other lists
/// are read as a whole.
pub fn read_list(alloc: Global, bytes: &[u8]) -> Result<VrpSet, ListFault>
    ensures ok { IfOk result (λ s. IsPayloadList bytes.now s) }
    ensures no_list { IsErrOf result ListFault.NoList → (s : Vrps) → ¬ (IsPayloadList bytes.now s) }
{
    one_reading();
    if let Ok(text) = str::from_utf8(bytes) {
        if let Some(records) = plain_list(alloc, text)? {
            return set_from(records);
        }
    }
    read_any(alloc, bytes)
}

/// Appends the text of an entry.
fn push_entry(text: &mut String, vrp: &Vrp) -> Result<(), AllocError>
    ensures { OnOk result (string_bytes text.new ≡ string_bytes text.old ++ entry_text vrp.now) }
{
    let (asn, max_len, prefix) = (vrp.asn(), vrp.max_len(), vrp.prefix());
    write!(
        text,
        "{{\"asn\":{asn},\"maxLength\":{max_len},\"prefix\":\"{prefix}\"}}"
    )
}

/// Appends a comma, but for the first entry.
fn push_comma(text: &mut String, index: usize) -> Result<(), AllocError>
    ensures { OnOk result (string_bytes text.new ≡ string_bytes text.old ++ (if index == 0 then [] else 44 ∷ [])) }
{
    if index == 0 {
        return Ok(());
    }
    text.push(',')
}

/// Writes a payload list of these VRPs as compact JSON, without spaces or newlines. The VRPs must be in strictly ascending order, like those of
/// a set. `AllocError`: no memory for the text.
pub fn write_list(alloc: Global, records: &[Vrp]) -> Result<String, AllocError>
    requires { IsStrictlySortedBy vrp_cmp records.now }
    ensures { IfOk result (λ text. string_bytes text ≡ list_text records.now) }
{
    let mut text = String::from_str(alloc, "[")?;
    for (index, vrp) in records.iter().enumerate() {
        push_comma(&mut text, index)?;
        push_entry(&mut text, vrp)?;
    }
    text.push(']')?;
    Ok(text)
}
