use crate::telling::{
    Row, V, W, begin, each_twice, is_told, no_memory, payload, set_of, tell, tell_payloads,
};
use prefixes::Vrp;
use std::rc::Rc;
use vrps::{Change, Gathered, Published, Serial, Since, VersionLog, VersionStore, VrpSet};

/// Copies a set and prints the copy, or that memory ran out.
fn is_copied(rt: &HostRuntime, set: &VrpSet) -> bool {
    match set.duplicate() {
        Ok(copy) => tell_payloads(rt, copy.as_slice()),
        Err(_) => return no_memory(rt),
    }
    true
}

#[test]
fn duplicate_a_set(rt: HostRuntime) {
    if let Some(set) = set_of(rt.alloc(), &[V]) {
        begin(rt.alloc());
        let _done = is_copied(&rt, &set) || is_copied(&rt, &set);
    }
}

/// Inserts a record, or prints that memory ran out.
fn is_inserted(rt: &HostRuntime, gathered: &mut Gathered, vrp: &Vrp) -> bool {
    if gathered.insert(*vrp).is_err() {
        return no_memory(rt);
    }
    tell(rt, "new");
    true
}

/// Inserts the payload of a row, once more if memory ran out.
fn insert(rt: &HostRuntime, gathered: &mut Gathered, row: &Row) {
    if let Some(vrp) = payload(row) {
        let _done = is_inserted(rt, gathered, &vrp) || is_inserted(rt, gathered, &vrp);
    }
}

#[test]
fn gather_out_of_order(rt: HostRuntime) {
    let mut gathered = Gathered::new(rt.alloc());
    begin(rt.alloc());
    insert(&rt, &mut gathered, &W);
    insert(&rt, &mut gathered, &V);
    is_told(&rt, gathered.into_set(rt.alloc()));
}

/// Applies a change to a set, once more if memory ran out, and prints the result.
fn tell_change_applied(rt: &HostRuntime, change: &Change, from: &VrpSet) {
    let alloc = rt.alloc();
    begin(alloc);
    let _done = is_told(rt, change.apply(alloc, from)) || is_told(rt, change.apply(alloc, from));
}

/// The same of the change between two sets, to the first.
fn tell_applied(rt: &HostRuntime, from: &[Row], to: &[Row]) {
    let alloc = rt.alloc();
    if let (Some(from), Some(to)) = (set_of(alloc, from), set_of(alloc, to)) {
        if let Ok(change) = Change::between(alloc, &from, &to) {
            tell_change_applied(rt, &change, &from);
        }
    }
}

#[test]
fn apply_to_one(rt: HostRuntime) {
    tell_applied(&rt, &[V], &[W]);
}

#[test]
fn apply_to_none(rt: HostRuntime) {
    tell_applied(&rt, &[], &[V, W]);
}

#[test]
fn apply_the_second_announcement(rt: HostRuntime) {
    tell_applied(&rt, &[], &[W]);
}

#[test]
fn apply_what_came_and_went(rt: HostRuntime) {
    tell_applied(&rt, &[V], &[V]);
}

#[test]
fn apply_what_comes_again(rt: HostRuntime) {
    tell_applied(&rt, &[], &[V]);
}

/// Publishes a set and prints its serial, or that memory ran out.
fn is_published(rt: &HostRuntime, log: &mut VersionLog, set: VrpSet) -> bool {
    let Ok(shared) = Rc::new(rt.alloc(), set) else {
        return no_memory(rt);
    };
    match log.publish(shared) {
        Ok(Published::New(serial)) => {
            let _printed = println!(rt; "{}", serial.0);
        }
        Ok(Published::Unchanged) => tell(rt, "unchanged"),
        Err(_) => return no_memory(rt),
    }
    true
}

/// Publishes sets, each of them once more if memory ran out.
fn publish(rt: &HostRuntime, log: &mut VersionLog, sets: Vec<(VrpSet, VrpSet)>) {
    for (set, again) in sets {
        if !is_published(rt, log, set) {
            is_published(rt, log, again);
        }
    }
}

/// Prints a change.
fn tell_change(rt: &HostRuntime, change: &Change) {
    tell(rt, "withdrawn:");
    tell_payloads(rt, change.withdraw.as_slice());
    tell(rt, "announced:");
    tell_payloads(rt, change.announce.as_slice());
}

/// Prints what changed since a serial, or that memory ran out.
fn is_since(rt: &HostRuntime, log: &VersionLog, serial: u32) -> bool {
    match log.since(Serial(serial)) {
        Ok(Since::Change(change)) => tell_change(rt, &change),
        Ok(Since::Unknown) => tell(rt, "unknown"),
        Ok(Since::NoData) => tell(rt, "no data"),
        Err(_) => return no_memory(rt),
    }
    true
}

/// Prints what changed since serials, for each of which memory may run out once.
fn tell_since(rt: &HostRuntime, log: &VersionLog, serials: &[u32]) {
    for &serial in serials {
        let _done = is_since(rt, log, serial) || is_since(rt, log, serial);
    }
}

/// Publishes the sets of these rows from serial 10 on, and prints what changed since these serials.
fn tell_log(rt: &HostRuntime, lists: &[&[Row]], serials: &[u32]) {
    let alloc = rt.alloc();
    if let (Some(sets), Ok(mut log)) = (
        each_twice(alloc, lists),
        VersionLog::new(alloc, 4660, 10, 8),
    ) {
        begin(alloc);
        publish(rt, &mut log, sets);
        tell_since(rt, &log, serials);
    }
}

#[test]
fn publish_and_withdraw(rt: HostRuntime) {
    tell_log(&rt, &[&[], &[V], &[V, W], &[W]], &[10, 11, 13, 14]);
}

#[test]
fn publish_what_comes_again(rt: HostRuntime) {
    tell_log(&rt, &[&[V], &[], &[V]], &[10, 11, 13]);
}
