//! Logs of versions.
use crate::sets::{is_change, set_named};
use std::alloc::Global;
use std::process::Abort;
use std::rc::Rc;
use test_values::scripts::Words;
use vrps::{Published, Serial, Since, VersionLog, VersionStore, VrpSet, WholeLog};

/// What is withdrawn and announced since a version, or nothing if that is not known.
type Answer<'a> = Option<(&'a str, &'a str)>;

const NO_CHANGE: Answer<'static> = Some(("", ""));

/// The first serial, and how many versions are kept before the current one. Then what happens, a step in a line:
///
/// - `as SERIAL RECORDS`, `same RECORDS`: a set of V and W is published, as a version of this serial, or it is the current one.
/// - `since SERIAL WITHDRAWN | ANNOUNCED`, `unknown SERIAL`: what changed since a version, or that this is not known.
type Story = (u32, u32, &'static str);

/// What comes and goes is in neither list. Serials go round.
const STORIES: &[Story] = &[
    (
        4,
        2,
        "as 4
        as 5 V
        same V
        as 6 V W
        as 7 V
        since 5 |
        since 6 W |
        since 7 |
        unknown 4
        unknown 8
        unknown 0
        unknown 2147483655",
    ),
    (
        10,
        8,
        "as 10
        as 11 V
        as 12 V W
        as 13 W
        since 10 | W
        since 11 V | W",
    ),
    (
        10,
        8,
        "as 10 V
        as 11
        as 12 V
        since 10 |
        since 11 | V
        unknown 13",
    ),
    (
        4294967295,
        2,
        "as 4294967295 V
        as 0 V W
        since 4294967295 | W",
    ),
];

/// What is answered to the set of the records of these names, if there is memory.
fn publish<S: VersionStore>(store: &mut S, alloc: Global, names: &str) -> Option<Published> {
    let Ok(set) = Rc::new(alloc, set_named(alloc, names)?) else {
        return None;
    };
    match store.publish(set) {
        Ok(published) => Some(published),
        Err(_) => None,
    }
}

/// Whether this is answered for a serial.
fn answers<S: VersionStore>(log: &S, alloc: Global, serial: u32, want: &Answer<'_>) -> bool {
    match (log.since(Serial(serial)), want) {
        (Ok(Since::Unknown), None) => true,
        (Ok(Since::Change(change)), Some((withdraw, announce))) => {
            is_change(alloc, &change, withdraw, announce)
        }
        _ => false,
    }
}

/// Whether a log of session 0x1234 has no version.
fn is_new<S: VersionStore>(log: &S) -> bool {
    log.session() == 0x1234
        && log.current().is_none()
        && matches!(log.since(Serial(4)), Ok(Since::NoData))
}

/// Whether the current version has this serial and the set of the records of these names.
fn is_current<S: VersionStore>(log: &S, alloc: Global, serial: u32, names: &str) -> bool {
    match (log.current(), set_named(alloc, names)) {
        (Some((found, set)), Some(want)) => found == Serial(serial) && set.as_ref().is_same(&want),
        _ => false,
    }
}

/// Whether a set is published as a new version of this serial.
fn is_version<S: VersionStore>(log: &mut S, alloc: Global, serial: u32, names: &str) -> bool {
    publish(log, alloc, names) == Some(Published::New(Serial(serial)))
        && is_current(log, alloc, serial, names)
}

/// Whether a step with a serial goes as it has to.
fn goes_at<S: VersionStore>(log: &mut S, alloc: Global, word: &str, words: &mut Words<'_>) -> bool {
    let Ok(serial) = words.next().parse::<u32>() else {
        return false;
    };
    match (word, words.rest.split_once('|')) {
        ("as", None) => is_version(log, alloc, serial, words.rest),
        ("since", Some((withdrawn, announced))) => {
            let change = Some((withdrawn, announced));
            answers(log, alloc, serial, &change)
        }
        ("unknown", None) => answers(log, alloc, serial, &None),
        _ => false,
    }
}

/// Whether a step goes as it has to.
fn steps<S: VersionStore>(log: &mut S, alloc: Global, line: &str) -> bool {
    let mut words = Words { rest: line };
    match words.next() {
        "same" => publish(log, alloc, words.rest) == Some(Published::Unchanged),
        word => goes_at(log, alloc, word, &mut words),
    }
}

/// Whether a new log goes by a story, whichever way it keeps versions.
fn goes<S: VersionStore>(log: &mut S, alloc: Global, story: &str) -> bool {
    if !is_new(log) {
        return false;
    }
    for line in story.lines() {
        if !steps(log, alloc, line.trim()) {
            return false;
        }
    }
    true
}

/// Whether both logs go by a story.
fn both_go(alloc: Global, &(start, keep, story): &Story) -> bool {
    if keep < 1 || keep > 65536 {
        return false;
    }
    match (
        VersionLog::new(alloc, 0x1234, start, keep),
        WholeLog::new(alloc, 0x1234, start, keep),
    ) {
        (Ok(mut steps), Ok(mut whole)) => {
            goes(&mut steps, alloc, story) && goes(&mut whole, alloc, story)
        }
        _ => false,
    }
}

fn expect_both<R: Abort>(rt: &R, alloc: Global, stories: &[Story]) {
    for story in stories {
        assert!(rt; both_go(alloc, story));
    }
}

#[test]
fn logs_know_what_changed_since_a_version(rt: HostRuntime) {
    expect_both(&rt, rt.alloc(), STORIES);
}

/// Publishes a set and none in turn, from position 0 of serial 0 up to position 65536.
fn is_filled<S: VersionStore>(log: &mut S, set: &Rc<VrpSet>, none: &Rc<VrpSet>) -> bool {
    for position in 0..=65536u32 {
        let now = if position % 2 == 0 { set } else { none };
        let Ok(now) = Rc::clone(now) else {
            return false;
        };
        if !matches!(log.publish(now), Ok(Published::New(Serial(serial))) if serial == position) {
            return false;
        }
    }
    true
}

/// Whether a log that is filled so, and gets one version more, knows as many as it keeps.
fn keeps_most<S: VersionStore>(
    log: &mut S,
    alloc: Global,
    set: &Rc<VrpSet>,
    none: &Rc<VrpSet>,
) -> bool {
    is_filled(log, set, none)
        && answers(log, alloc, 0, &NO_CHANGE)
        && publish(log, alloc, "").is_some()
        && answers(log, alloc, 0, &None)
        && answers(log, alloc, 1, &NO_CHANGE)
}

/// The set of one record, and that of none.
fn one_and_none(alloc: Global) -> Option<(Rc<VrpSet>, Rc<VrpSet>)> {
    let set = set_named(alloc, "V")?;
    match (Rc::new(alloc, set), Rc::new(alloc, VrpSet::empty(alloc))) {
        (Ok(set), Ok(none)) => Some((set, none)),
        _ => None,
    }
}

/// Whether both logs do so.
fn both_keep_most(alloc: Global, set: &Rc<VrpSet>, none: &Rc<VrpSet>) -> bool {
    match (
        VersionLog::new(alloc, 1, 0, 65536),
        WholeLog::new(alloc, 1, 0, 65536),
    ) {
        (Ok(mut steps), Ok(mut whole)) => {
            keeps_most(&mut steps, alloc, set, none) && keeps_most(&mut whole, alloc, set, none)
        }
        _ => false,
    }
}

#[test]
fn a_log_keeps_65536_versions(rt: HostRuntime) {
    match one_and_none(rt.alloc()) {
        Some((set, none)) => assert!(rt; both_keep_most(rt.alloc(), &set, &none)),
        None => assert!(rt; false),
    }
}

/// Whether a step is kept, and is this change.
fn is_step(alloc: Global, step: Option<&vrps::Change>, want: &Answer<'_>) -> bool {
    match (step, want) {
        (None, None) => true,
        (Some(kept), Some((withdraw, announce))) => is_change(alloc, kept, withdraw, announce),
        _ => false,
    }
}

/// Whether a log that keeps two steps of these four sets lends them.
fn lends_steps(log: &mut VersionLog, alloc: Global) -> bool {
    let is_empty = log.kept(0).is_none() && log.newest_step().is_none();
    for names in ["", "V", "V W", "W"] {
        if publish(log, alloc, names).is_none() {
            return false;
        }
    }
    is_empty
        && is_step(alloc, log.kept(0), &Some(("", "W")))
        && is_step(alloc, log.kept(1), &Some(("V", "")))
        && is_step(alloc, log.kept(2), &None)
        && is_step(alloc, log.newest_step(), &Some(("V", "")))
}

#[test]
fn kept_steps_are_lent(rt: HostRuntime) {
    match VersionLog::new(rt.alloc(), 1, 10, 2) {
        Ok(mut log) => assert!(rt; lends_steps(&mut log, rt.alloc())),
        Err(_) => assert!(rt; false),
    }
}
