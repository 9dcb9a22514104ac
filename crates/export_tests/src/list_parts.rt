//! What other readers use of `payload_lists`.
use payload_lists::ListFault;
use payload_lists::parts::{plain_list, plain_number, records_of, text, whole};
use prefixes::Vrp;
use serde_json::Value;
use std::alloc::Global;
use std::test::Fail;
use test_values::sets::set_in;
use vrps::VrpSet;

/// Whether the members of a value are a number, a text, and a negative number.
fn are_members(value: &Value) -> bool {
    whole(value, "a") == Some(7)
        && whole(value, "b").is_none()
        && whole(value, "c").is_none()
        && text(value, "b") == Some("x")
        && text(value, "a").is_none()
        && text(value, "d").is_none()
}

#[test]
fn what_stands_under_a_key(rt: HostRuntime) -> Result<(), Fail> {
    let value = Value::from_str(rt.alloc(), "{\"a\":7,\"b\":\"x\",\"c\":-7}")?;
    assert!(rt; are_members(&value));
    Ok(())
}

/// Texts, and the numbers of those that have digits alone.
const NUMBERS: &[(&str, Option<u64>)] = &[
    ("64496", Some(64496)),
    ("18446744073709551615", Some(u64::MAX)),
    ("18446744073709551616", None),
    ("-1", None),
    ("1e2", None),
];

fn are_numbers(rows: &[(&str, Option<u64>)]) -> bool {
    for &(text, number) in rows {
        if plain_number(text) != number {
            return false;
        }
    }
    true
}

#[test]
fn numbers_of_digits_alone(rt: HostRuntime) {
    assert!(rt; are_numbers(NUMBERS));
}

/// Two payloads as a list.
const TWO: &str =
    "[{\"asn\":64496,\"prefix\":\"192.0.2.0/24\",\"maxLength\":24},{\"asn\":1,\"prefix\":\"10.0.0.0/8\",\"maxLength\":8}]";

/// Whether these are the two payloads.
fn are_two(alloc: Global, records: Vec<Vrp>) -> bool {
    let rows = [("10.0.0.0/8", 8, 1), ("192.0.2.0/24", 24, 64496)];
    match (VrpSet::from_list(records), set_in(alloc, &rows)) {
        (Ok(set), Some(two)) => set.is_same(&two),
        _ => false,
    }
}

/// Whether the text is a plain list of the two.
fn is_plain(alloc: Global) -> bool {
    match plain_list(alloc, TWO) {
        Ok(Some(records)) => are_two(alloc, records),
        _ => false,
    }
}

/// The payloads of a text that is an array, or why it has none.
fn records_in(alloc: Global, list: &str) -> Option<Result<Vec<Vrp>, ListFault>> {
    let value = Value::from_str(alloc, list).ok()?;
    let items = value.as_array()?;
    Some(records_of(alloc, items.as_slice()))
}

/// Whether the text is an array of the two.
fn has_two(alloc: Global) -> bool {
    match records_in(alloc, TWO) {
        Some(Ok(records)) => are_two(alloc, records),
        _ => false,
    }
}

#[test]
fn the_payloads_of_a_list(rt: HostRuntime) {
    assert!(rt; is_plain(rt.alloc()));
    assert!(rt; has_two(rt.alloc()));
    assert!(rt; matches!(plain_list(rt.alloc(), "{}"), Ok(None)));
}

#[test]
fn no_payloads_of_other_entries(rt: HostRuntime) {
    let list = "[{\"asn\":1,\"prefix\":\"10.0.0.0/8\",\"maxLength\":7}]";
    assert!(rt; matches!(records_in(rt.alloc(), list), Some(Err(ListFault::NoList))));
}
