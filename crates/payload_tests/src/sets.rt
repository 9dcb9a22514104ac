//! Sets of records, and changes between them.
use prefixes::Vrp;
use std::alloc::Global;
use test_values::scripts::Words;
use test_values::sets::{Row, Rows, record, set_in};
use vrps::{
    Change, Gathered, PathFault, Segment, SegmentKind, Serial, SetFault, VrpSet, origin_of_path,
};

/// The record of this name.
fn named(name: &str) -> Option<Vrp> {
    match name {
        "V" => record("192.0.2.0/24", 24, 64496),
        "W" => record("198.51.100.0/24", 24, 64497),
        "X" => record("192.0.2.0/24", 25, 64496),
        "Y" => record("2001:db8::/32", 48, 64496),
        "Z" => record("10.0.0.0/8", 8, 1),
        _ => None,
    }
}

/// The set of the records of these names.
pub(crate) fn set_named(alloc: Global, names: &str) -> Option<VrpSet> {
    let mut list = Vec::new(alloc);
    for name in names.split_whitespace() {
        if list.push(named(name)?).is_err() {
            return None;
        }
    }
    VrpSet::from_list(list).ok()
}

/// Whether a set has the records of these names and no others.
pub(crate) fn is_set(alloc: Global, set: &VrpSet, names: &str) -> bool {
    match set_named(alloc, names) {
        Some(other) => set.as_slice() == other.as_slice(),
        None => false,
    }
}

/// Whether a change withdraws these records and announces those.
pub(crate) fn is_change(alloc: Global, change: &Change, withdraw: &str, announce: &str) -> bool {
    is_set(alloc, &change.withdraw, withdraw) && is_set(alloc, &change.announce, announce)
}

/// Whether a set has these records in this order.
fn ascends(set: &VrpSet, rows: &[Row]) -> bool {
    for (vrp, &(text, max_len, asn)) in set.iter().zip(rows) {
        if record(text, max_len, asn) != Some(*vrp) || !set.contains(vrp) {
            return false;
        }
    }
    match record("10.0.0.0/8", 9, 1) {
        Some(other) => set.len() == rows.len() && !set.is_empty() && !set.contains(&other),
        None => false,
    }
}

/// Whether a `for` over a set yields the members in their order.
fn is_walked(set: &VrpSet) -> bool {
    let mut count = 0;
    for vrp in set {
        if set.as_slice().get(count) != Some(vrp) {
            return false;
        }
        count += 1;
    }
    count == set.len()
}

/// Whether a set is the same if it is duplicated, and as a list.
fn is_duplicated(set: &VrpSet) -> bool {
    let (Ok(first), Ok(second)) = (set.duplicate(), set.duplicate()) else {
        return false;
    };
    let is_same = first.as_slice() == set.as_slice();
    let list = first.into_list();
    if !is_same || list.as_slice() != set.as_slice() {
        return false;
    }
    match VrpSet::try_from(second.into_list()) {
        Ok(again) => again.is_same(set),
        Err(_) => false,
    }
}

/// Records as they come, and the set of them.
const COME: Rows = &[
    ("2001:db8::/32", 48, 1),
    ("10.0.0.0/8", 8, 2),
    ("192.0.2.0/24", 24, 1),
    ("10.0.0.0/8", 8, 1),
    ("10.0.0.0/8", 8, 2),
    ("10.0.0.0/9", 9, 1),
    ("2001:db8::/32", 48, 1),
];

const ASCENDING: Rows = &[
    ("10.0.0.0/8", 8, 1),
    ("10.0.0.0/8", 8, 2),
    ("10.0.0.0/9", 9, 1),
    ("192.0.2.0/24", 24, 1),
    ("2001:db8::/32", 48, 1),
];

/// Whether rows make the set of these.
fn are_sorted(alloc: Global, rows: &[Row], ascending: &[Row]) -> bool {
    match set_in(alloc, rows) {
        Some(set) => ascends(&set, ascending) && is_walked(&set) && is_duplicated(&set),
        None => false,
    }
}

#[test]
fn sets_ascend(rt: HostRuntime) {
    assert!(rt; are_sorted(rt.alloc(), COME, ASCENDING));
    assert!(rt; VrpSet::empty(rt.alloc()).is_empty());
}

/// Whether a line has four parts, with semicolons between them.
fn has_four(line: &str) -> bool {
    line.split(';').count() == 4
}

/// The names of records in a part of a line, or nothing.
fn part(line: &str, place: usize) -> &str {
    match line.split(';').nth(place) {
        Some(names) => names,
        None => "",
    }
}

/// A set, another one, and what is withdrawn and announced between them.
const BETWEEN: &str = ";;;
    ; V W;; V W
    V W;; V W;
    V W; V W;;
    V; V W;; W
    V W; W; V;
    V Y; Z X W; V Y; Z X W
    Z V W Y; V X Y; Z W; X
    X; V Y; X; V Y";

/// The change between the sets of these records.
fn between(alloc: Global, old: &str, new: &str) -> Option<Change> {
    match (set_named(alloc, old), set_named(alloc, new)) {
        (Some(old), Some(new)) => Change::between(alloc, &old, &new).ok(),
        _ => None,
    }
}

/// Whether a change leads from the set of these records to that of those.
fn leads(alloc: Global, change: &Change, old: &str, new: &str) -> bool {
    let Some(old) = set_named(alloc, old) else {
        return false;
    };
    match change.apply(alloc, &old) {
        Ok(set) => is_set(alloc, &set, new),
        Err(_) => false,
    }
}

/// Whether the change between two sets is this, and leads from the one to the other.
fn is_between(alloc: Global, line: &str) -> bool {
    let old = part(line, 0);
    let new = part(line, 1);
    let Some(change) = between(alloc, old, new) else {
        return false;
    };
    has_four(line)
        && is_change(alloc, &change, part(line, 2), part(line, 3))
        && leads(alloc, &change, old, new)
}

fn are_between(alloc: Global, lines: &str) -> bool {
    for line in lines.lines() {
        if !is_between(alloc, line) {
            return false;
        }
    }
    true
}

#[test]
fn changes_lead_from_set_to_set(rt: HostRuntime) {
    assert!(rt; are_between(rt.alloc(), BETWEEN));
}

/// A set, what is withdrawn and announced, and the set to which that leads.
const APPLIED: &str = "; V; W; W
    V W; X; Y; V W Y
    W;; W; W
    V; V; V; V
    Z V X W; Z X; X Y; V X W Y
    V W; V W Y; Z; Z";

/// Whether a change of these sets leads from this set to that.
fn applies(alloc: Global, line: &str) -> bool {
    let Some(withdraw) = set_named(alloc, part(line, 1)) else {
        return false;
    };
    let Some(announce) = set_named(alloc, part(line, 2)) else {
        return false;
    };
    let change = Change { withdraw, announce };
    has_four(line) && leads(alloc, &change, part(line, 0), part(line, 3))
}

fn all_apply(alloc: Global, lines: &str) -> bool {
    for line in lines.lines() {
        if !applies(alloc, line) {
            return false;
        }
    }
    true
}

#[test]
fn changes_apply_to_any_set(rt: HostRuntime) {
    assert!(rt; all_apply(rt.alloc(), APPLIED));
}

#[test]
fn faults_are_numbered(rt: HostRuntime) {
    assert!(rt; SetFault::Memory.number() == 2 && PathFault::EmptySequence.number() == 1);
}

#[test]
fn serials_go_round(rt: HostRuntime) {
    assert!(rt; Serial(5).is_before(Serial(2147483652)));
    assert!(rt; !Serial(5).is_before(Serial(2147483653)));
    assert!(rt; !Serial(5).is_before(Serial(5)));
    assert!(rt; Serial(4294967295).is_before(Serial(0)));
}

/// The segments of paths, and the origin that each has at a router of AS 64500.
const PATHS: &str = "= 64500
    sequence 1 2 3 = 3
    sequence 1; set 2 3 = none
    set 2; sequence = fault
    sequence; confederation-set 7 = 64500
    sequence 1; confederation-sequence 65001 65002 = 64500
    confederation-sequence 65001; sequence 1 2 = 2
    set 2 = none
    set = none
    sequence 0 = 0";

fn kind_of(word: &str) -> Option<SegmentKind> {
    match word {
        "sequence" => Some(SegmentKind::Sequence),
        "set" => Some(SegmentKind::Set),
        "confederation-sequence" => Some(SegmentKind::ConfedSequence),
        "confederation-set" => Some(SegmentKind::ConfedSet),
        _ => None,
    }
}

/// A segment.
fn segment_of(alloc: Global, text: &str) -> Option<Segment> {
    let mut words = Words { rest: text.trim() };
    let kind = kind_of(words.next())?;
    let mut numbers = Vec::new(alloc);
    for word in words.rest.split_whitespace() {
        if numbers.push(word.parse::<u32>().ok()?).is_err() {
            return None;
        }
    }
    Some(Segment { kind, numbers })
}

/// The segments of a path.
fn segments_of(alloc: Global, path: &str) -> Option<Vec<Segment>> {
    let mut segments = Vec::new(alloc);
    if path.trim().is_empty() {
        return Some(segments);
    }
    for text in path.split(';') {
        if segments.push(segment_of(alloc, text)?).is_err() {
            return None;
        }
    }
    Some(segments)
}

/// An origin, none, or the fault of a path.
fn origin_in(text: &str) -> Result<Option<u32>, PathFault> {
    match text {
        "fault" => Err(PathFault::EmptySequence),
        "none" => Ok(None),
        number => Ok(number.parse::<u32>().ok()),
    }
}

/// Whether a path has its origin.
fn is_origin(alloc: Global, line: &str) -> bool {
    let Some((path, want)) = line.split_once('=') else {
        return false;
    };
    match segments_of(alloc, path) {
        Some(segments) => origin_of_path(segments.as_slice(), 64500) == origin_in(want.trim()),
        None => false,
    }
}

fn are_origins(alloc: Global, paths: &str) -> bool {
    for line in paths.lines() {
        if !is_origin(alloc, line) {
            return false;
        }
    }
    true
}

#[test]
fn the_final_segment_tells_the_origin(rt: HostRuntime) {
    assert!(rt; are_origins(rt.alloc(), PATHS));
}

/// Whether both lists make the same set.
fn is_same(alloc: Global, names: &str, others: &str) -> Option<bool> {
    match (set_named(alloc, names), set_named(alloc, others)) {
        (Some(set), Some(other)) => Some(set.is_same(&other)),
        _ => None,
    }
}

/// Whether no records make the empty set.
fn is_empty_set(alloc: Global) -> bool {
    match set_named(alloc, "") {
        Some(set) => VrpSet::empty(alloc).is_same(&set),
        None => false,
    }
}

#[test]
fn equal_sets_are_same(rt: HostRuntime) {
    assert!(rt; is_same(rt.alloc(), "V W", "W V W") == Some(true));
    assert!(rt; is_same(rt.alloc(), "V W", "V") == Some(false));
    assert!(rt; is_same(rt.alloc(), "V W", "V X") == Some(false));
    assert!(rt; is_empty_set(rt.alloc()));
}

/// Records as they come, in ascending order, and out of order from some place on. One that has come before is in brackets.
const GATHERED: &str = "
    V [V] X Y [X]
    Y Z [Y] [Z] W
    V X Z [V] [Z] Y";

/// Whether a record is new if it is said so, and is found from then on.
fn inserts(gathered: &mut Gathered, vrp: Vrp, is_new: bool) -> bool {
    let was_there = gathered.contains(&vrp);
    match gathered.insert(vrp) {
        Ok(is_inserted) => {
            was_there != is_new && is_inserted == is_new && gathered.contains(&vrp)
        }
        Err(_) => false,
    }
}

/// Whether both hold of records that come one by one, and a record that did not come is not found.
fn all_come(gathered: &mut Gathered, list: &mut Vec<Vrp>, names: &str) -> bool {
    for name in names.split_whitespace() {
        let Some(vrp) = named(name.trim_matches(['[', ']'])) else {
            return false;
        };
        if !inserts(gathered, vrp, !name.starts_with('[')) || list.push(vrp).is_err() {
            return false;
        }
    }
    match record("172.16.0.0/12", 12, 1) {
        Some(other) => !gathered.contains(&other),
        None => false,
    }
}

/// Whether they are the same set as a list of them at the end.
fn is_same_set(alloc: Global, gathered: Gathered, list: Vec<Vrp>) -> bool {
    let len = gathered.len();
    match (gathered.into_set(alloc), VrpSet::from_list(list)) {
        (Ok(set), Ok(listed)) => len == set.len() && set.is_same(&listed),
        _ => false,
    }
}

/// Whether both hold of these records.
fn gathers(alloc: Global, names: &str) -> bool {
    let mut gathered = Gathered::new(alloc);
    let mut list = Vec::new(alloc);
    all_come(&mut gathered, &mut list, names) && is_same_set(alloc, gathered, list)
}

fn all_gather(alloc: Global, lines: &str) -> bool {
    for line in lines.lines() {
        if !gathers(alloc, line) {
            return false;
        }
    }
    true
}

#[test]
fn gathered_records_make_a_set(rt: HostRuntime) {
    assert!(rt; all_gather(rt.alloc(), GATHERED));
}
