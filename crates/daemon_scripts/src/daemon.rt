//! Steps at a daemon over files and sockets in memory, and one function that plays them. The first line is `files TEXT`, the list at the start,
//! or `files OTHER | LIST` with another file beside it. Each further line is a step: a word, and what belongs to it.
//!
//! - `writes TEXT`: the list has this text from now on, which has a name or is spelled. `COUNT` is a list of this many records, and
//!   `COUNT EXPIRING SECONDS` is one in which the first `EXPIRING` of them expire these seconds after the start.
//! - `other TEXT`: the same for the other file.
//! - `restless yes`, `restless no`: the list is or is not rewritten with the same text at each poll from now on.
//! - `shows TABLE`: the system's table of connections from now on, which has a name. Without one it cannot be read.
//! - `accepts well`, `accepts no-room`, `accepts fails`: the result of each accept from now on.
//! - `comes ROUTER`: a router connects. Routers are named by their places in the order of arrival.
//! - `turns COUNT`: the daemon makes this many turns.
//! - `back SECONDS`, `ahead SECONDS`: the wall clock is set back, or ahead.
//! - `passes MILLISECONDS`: this time passes before the next step.
//! - `reads-for MILLISECONDS`: each read of the list lasts so long from now on.
//! - `serves COUNT`: this many clients are connected.
//! - `has ROUTER PDUS`: a router received these PDUs, and no others. Each has a name (`test_values::scripts`) or is spelled.
//!
//! The settings of a script are words, each with its numbers:
//!
//! - `checks MILLISECONDS`: how often files are polled. `timing REFRESH RETRY EXPIRE`: the intervals of routers, in seconds.
//! - `max-age SECONDS`: an export is old after this time. `answers MILLISECONDS`: how long an answer may last.
//! - `per-address COUNT`: how many clients an address may have. `length-0 COUNT`: no records of length 0 are served, if this is 0.
//! - `shrink PERCENT SECONDS`: how large a part of an export may be gone, and for how long a shorter one is refused.
use crate::Played;
use crate::stage::{Accepting, Stage};
use crate::wires::{Router, Wire};
use rtr_daemon::{CacheSettings, Daemon, Plan, ShrinkGuard};
use rtr_ends::Timing;
use session_names::SessionIds;
use std::alloc::Global;
use std::mem;
use test_values::scripts::{Words, units_in};
use vrps::VersionLog;

/// The evening of 2026-11-25, 18:40 UTC.
const EVENING: u64 = 1_795_632_000;

const PLAN: Plan = Plan {
    check: 60_000,
    stall: 30_000,
    slow: 90_000,
    clients_per_address: None,
    leaves_out_length_0: false,
    max_age: None,
    stops_when_old: false,
    shrink: None,
    max_size: 1_073_741_824,
    once: false,
    listeners: 1,
};

const NAMES: SessionIds = SessionIds {
    session: 4660,
    session0: 4660,
    serial: 5,
};

/// What a daemon and its cache are made with.
#[derive(Clone, Copy)]
struct Settings {
    plan: Plan,
    cache: CacheSettings,
}

/// Whether the guard against short exports is that of a line from now on.
fn guards(plan: &mut Plan, percent: u64, words: &mut Words<'_>) -> bool {
    match (u8::try_from(percent), words.number()) {
        (Ok(percent), Some(hold)) => {
            plan.shrink = Some(ShrinkGuard { percent, hold });
            true
        }
        _ => false,
    }
}

/// A number of a line, if it is one of 32 bits.
fn short(number: Option<u64>) -> Option<u32> {
    u32::try_from(number?).ok()
}

/// The intervals that begin with this number, if a line has the others.
fn timing_of(refresh: u64, words: &mut Words<'_>) -> Option<Timing> {
    let refresh = short(Some(refresh))?;
    let retry = short(words.number())?;
    Timing::new(refresh, retry, short(words.number())?).ok()
}

/// Whether the intervals are those of a line from now on.
fn times(cache: &mut CacheSettings, refresh: u64, words: &mut Words<'_>) -> bool {
    match timing_of(refresh, words) {
        Some(timing) => {
            cache.timing = timing;
            true
        }
        None => false,
    }
}

/// Whether a setting is changed as its word and its numbers say.
fn sets(settings: &mut Settings, word: &str, words: &mut Words<'_>) -> bool {
    let Some(number) = words.number() else {
        return false;
    };
    match word {
        "checks" => settings.plan.check = number,
        "answers" => settings.plan.slow = number,
        "max-age" => settings.plan.max_age = Some(number),
        "per-address" => settings.plan.clients_per_address = Some(number),
        "length-0" => settings.plan.leaves_out_length_0 = number == 0,
        "shrink" => return guards(&mut settings.plan, number, words),
        "timing" => return times(&mut settings.cache, number, words),
        _ => return false,
    }
    true
}

/// The settings of these words, if they are some.
fn settings_of(words: &mut Words<'_>) -> Option<Settings> {
    let mut settings = Settings {
        plan: PLAN,
        cache: CacheSettings {
            keep: 4,
            timing: Timing::default(),
            clients: 2,
        },
    };
    for _setting in 0..words.rest.len() {
        let word = words.next();
        if word.is_empty() {
            break;
        }
        if !sets(&mut settings, word, words) {
            return None;
        }
    }
    Some(settings)
}

/// The text of a list that has this name, or that is spelled.
pub(crate) fn list_of(name: &str) -> &str {
    match name {
        "ONE" => "[{\"asn\":64496,\"prefix\":\"192.0.2.0/24\",\"maxLength\":24}]",
        "TWO" => "[{\"asn\":64496,\"prefix\":\"192.0.2.0/24\",\"maxLength\":25}]",
        _ => name,
    }
}

/// The system's table of connections, in which a notify to the router is sent again.
const SENT_AGAIN: &str =
    "  sl  local_address rem_address   st tx_queue rx_queue tr tm->when retrnsmt   \
    uid  timeout inode\n   0: 0100007F:0CFB 00000000:0000 0A 00000000:00000000 00:00000000 00000000     0        0 \
    1 1 0 100 0 0 10 0\n   1: 0100007F:0CFB 010200C0:00B3 \
    01 0000000C:00000000 01:00000040 00000005     0        0 2 3 0 100 0 0 10 -1\n";

/// The same while the window of the router is closed.
const CLOSED_WINDOW: &str =
    "   1: 0100007F:0CFB 010200C0:00B3 01 0000000C:00000000 04:00000040 00000000     0        0 2 3 0 100 0 0 10 -1\n";

/// The table of this name, or none that can be read.
fn table_of(name: &str) -> Option<&'static str> {
    match name {
        "SENT-AGAIN" => Some(SENT_AGAIN),
        "CLOSED-WINDOW" => Some(CLOSED_WINDOW),
        _ => None,
    }
}

/// A router by its name.
pub(crate) fn router_of(name: &str) -> Option<Router> {
    match name {
        "asks" => Some(Router::Asks),
        "asks-twice" => Some(Router::AsksTwice),
        "is-silent" => Some(Router::IsSilent),
        "sends-a-header" => Some(Router::SendsHeader),
        "reads-nothing" => Some(Router::TakesNothing),
        "reads-bytes" => Some(Router::TakesBytes),
        "reads-slowly" => Some(Router::TakesSlowly),
        _ => None,
    }
}

/// The result of accepts by its name.
fn accepting_of(name: &str) -> Option<Accepting> {
    match name {
        "well" => Some(Accepting::Well),
        "no-room" => Some(Accepting::NoRoom),
        "fails" => Some(Accepting::Fails),
        _ => None,
    }
}

/// A daemon that polls the files.
fn opened(
    alloc: Global,
    settings: &Settings,
    stage: &mut Stage<'_>,
) -> Option<Daemon<VersionLog, Wire>> {
    let paths = stage.paths().ok()?;
    Daemon::open(alloc, settings.plan, settings.cache, NAMES, paths, stage).ok()
}

/// Whether this many turns succeed.
fn turns(daemon: &mut Daemon<VersionLog, Wire>, stage: &mut Stage<'_>, count: u64) -> bool {
    for _turn in 0..count {
        if daemon.turn(stage).is_err() {
            return false;
        }
    }
    true
}

/// Whether a router connects that has this name.
fn comes(stage: &mut Stage<'_>, name: &str) -> bool {
    match router_of(name) {
        Some(router) => stage.connect(router).is_ok(),
        None => false,
    }
}

/// Whether accepts have the result of this name from now on.
fn accepts(stage: &mut Stage<'_>, name: &str) -> bool {
    match accepting_of(name) {
        Some(accepting) => {
            stage.set_accepting(accepting);
            true
        }
        None => false,
    }
}

/// Whether a router received what a line says.
fn has(stage: &Stage<'_>, words: &mut Words<'_>) -> bool {
    match words.next().parse::<usize>() {
        Ok(router) => stage.has_got(router, units_in(1, words.rest).as_slice()),
        Err(_) => false,
    }
}

/// Whether a step of a number succeeds.
fn counts(
    daemon: &mut Daemon<VersionLog, Wire>,
    stage: &mut Stage<'_>,
    word: &str,
    number: Option<u64>,
) -> bool {
    let Some(number) = number else {
        return false;
    };
    match word {
        "turns" => return turns(daemon, stage, number),
        "serves" => return daemon.server().clients() as u64 == number,
        "back" => stage.set_back(number),
        "ahead" => stage.set_ahead(number),
        "passes" => stage.pass(number),
        "reads-for" => stage.set_reading(number),
        _ => return false,
    }
    true
}

/// Whether a step succeeds.
fn goes<'a>(daemon: &mut Daemon<VersionLog, Wire>, stage: &mut Stage<'a>, line: &'a str) -> bool {
    let mut words = Words { rest: line };
    match words.next() {
        "writes" => stage.write(list_of(words.rest)),
        "other" => stage.write_other(words.rest),
        "restless" => stage.set_restless(words.rest == "yes"),
        "shows" => stage.set_table(table_of(words.rest)),
        "accepts" => return accepts(stage, words.rest),
        "comes" => return comes(stage, words.rest),
        "has" => return has(stage, &mut words),
        word => return counts(daemon, stage, word, words.number()),
    }
    true
}

/// The first step that does not go as it says, or an empty text.
fn wrong_step<'a>(
    daemon: &mut Daemon<VersionLog, Wire>,
    stage: &mut Stage<'a>,
    steps: &'a str,
) -> &'a str {
    for line in steps.lines() {
        if !goes(daemon, stage, line) {
            return line;
        }
    }
    ""
}

/// The environment of a line's files.
fn stage_of<'a>(alloc: Global, line: &'a str) -> Option<Stage<'a>> {
    let files = line.strip_prefix("files ")?;
    match files.split_once(" | ") {
        None => Some(Stage::new(alloc, EVENING, list_of(files))),
        Some((other, list)) => {
            let mut stage = Stage::new(alloc, EVENING, list_of(list));
            stage.write_other(other);
            Some(stage)
        }
    }
}

/// The first step that does not go as it says at a new daemon, or an empty text.
fn first_wrong<'a>(
    alloc: Global,
    settings: &Settings,
    stage: &mut Stage<'a>,
    steps: &'a str,
) -> &'a str {
    match opened(alloc, settings, stage) {
        Some(mut daemon) => wrong_step(&mut daemon, stage, steps),
        None => "the daemon does not open",
    }
}

/// The result of the steps of a script at a daemon with these settings.
pub(crate) fn result_of<'a>(alloc: Global, words: &mut Words<'_>, script: &'a str) -> Played<'a> {
    let (files, steps) = match script.split_once('\n') {
        Some(parts) => parts,
        None => (script, ""),
    };
    match (settings_of(words), stage_of(alloc, files)) {
        (Some(settings), Some(mut stage)) => {
            let wrong = first_wrong(alloc, &settings, &mut stage, steps);
            let log = mem::replace(&mut stage.log, Vec::new(alloc));
            Played { wrong, log }
        }
        _ => Played {
            wrong: "its settings or its files are unknown",
            log: Vec::new(alloc),
        },
    }
}
