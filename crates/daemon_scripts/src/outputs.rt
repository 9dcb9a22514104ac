//! Steps at a log whose sink has room, blocks or fails, and one function that plays them. Each line is a step: a word, and what belongs to it.
//!
//! - `sink MANNER`: what the sink does from now on. It is `full`, `narrow`, `takes` or `space` with a number, or its writes fail: `blocked`,
//!   `interrupted`, `broken`.
//! - `at SECONDS MILLIS`: the time from now on, after 2026-11-25T18:40:00Z, and of the clock that is never set.
//! - `adds COUNT EVENT`: an event is added this number of times.
//! - `ticks`, `writes`: a tick, and a call that writes to the sink. `tries COUNT`: both, this number of times.
//! - `bytes COUNT`, `lines COUNT`: what the sink has. `calls COUNT`: how many writes there were.
//! - `dropped COUNT`, `suppressed COUNT`, `failures COUNT`: what the log has counted. `wait MILLIS`: how long a wait may be.
//! - `empty yes`, `written yes`, and the same with `no`: whether the log is empty, and whether what it has is written.
//! - `ends LINES`: the sink has these lines at its end. Bars part them, and the first is the end of one.
//!
//! A line of `ready` has 27 bytes. 2,600 of them are 70,200 bytes, and 2,427 fit into 65,536 bytes. Of 5,000 lines about clients 1,000 are let
//! through.
use crate::sinks::{Manner, Memory, manner_of};
use event_log::{LogEvent, LogFormat, LogLevel};
use log_output::Log;
use std::alloc::Global;
use std::net::{IpAddr, Ipv4Addr, SocketAddr};
use test_values::scripts::Words;

/// 2026-11-25T18:40:00Z.
const MOMENT: u64 = 1_795_632_000;

/// An event of each level.
fn event_of(name: &str) -> Option<LogEvent<'static>> {
    match name {
        "no-descriptor" => Some(LogEvent::NoDescriptor),
        "clock" => Some(LogEvent::Clock { behind: 1 }),
        "ready" => Some(LogEvent::Ready),
        "client-came" => Some(LogEvent::ClientCame {
            address: SocketAddr::new(IpAddr::V4(Ipv4Addr::new(192, 0, 2, 1)), 40_000),
        }),
        _ => None,
    }
}

/// A log, its sink, and the time.
#[derive(Drop)]
struct Trial {
    log: Log,
    sink: Memory,
    seconds: u64,
    millis: u64,
}

/// Adds an event this number of times.
fn add_many(trial: &mut Trial, count: u64, event: &LogEvent<'_>) {
    for _ in 0..count {
        trial.log.add(trial.seconds, trial.millis, event);
    }
}

/// Whether an event is added as a line says.
fn adds(trial: &mut Trial, words: &mut Words<'_>) -> bool {
    let Some(count) = words.number() else {
        return false;
    };
    match event_of(words.rest) {
        Some(event) => {
            add_many(trial, count, &event);
            true
        }
        None => false,
    }
}

/// Whether the sink has the manner of a line from now on.
fn turns(trial: &mut Trial, words: &mut Words<'_>) -> bool {
    match manner_of(words) {
        Some(manner) => {
            trial.sink.manner = manner;
            true
        }
        None => false,
    }
}

/// Whether the time is that of a line from now on.
fn passes(trial: &mut Trial, words: &mut Words<'_>) -> bool {
    match (words.number(), words.number()) {
        (Some(seconds), Some(millis)) => {
            trial.seconds = MOMENT.saturating_add(seconds);
            trial.millis = millis;
            true
        }
        _ => false,
    }
}

/// Ticks and writes as often as a line says.
fn tries(trial: &mut Trial, words: &mut Words<'_>) -> bool {
    let Some(count) = words.number() else {
        return false;
    };
    for _ in 0..count {
        trial.log.tick(trial.seconds, trial.millis);
        trial.log.write_to(&mut trial.sink);
    }
    true
}

/// The count of this name.
fn count_of(trial: &Trial, name: &str) -> Option<u64> {
    match name {
        "bytes" => Some(trial.sink.taken.len() as u64),
        "lines" => Some(trial.sink.lines()),
        "calls" => Some(trial.sink.writes),
        "dropped" => Some(trial.log.dropped_lines()),
        "suppressed" => Some(trial.log.suppressed_lines()),
        "failures" => Some(trial.log.memory_failures()),
        "wait" => Some(trial.log.wait_limit()),
        _ => None,
    }
}

/// Whether the count of this name is the number of a line.
fn counts(trial: &Trial, name: &str, words: &mut Words<'_>) -> bool {
    let count = count_of(trial, name);
    count.is_some() && count == words.number()
}

/// Whether a step goes as it has to.
fn goes(trial: &mut Trial, line: &str) -> bool {
    let mut words = Words { rest: line };
    match words.next() {
        "sink" => turns(trial, &mut words),
        "at" => passes(trial, &mut words),
        "adds" => adds(trial, &mut words),
        "tries" => tries(trial, &mut words),
        "ticks" => {
            trial.log.tick(trial.seconds, trial.millis);
            true
        }
        "writes" => {
            trial.log.write_to(&mut trial.sink);
            true
        }
        "empty" => trial.log.is_empty() == (words.rest == "yes"),
        "written" => trial.log.is_written() == (words.rest == "yes"),
        "ends" => trial.sink.ends_with(words.rest),
        name => counts(trial, name, &mut words),
    }
}

/// A log of this level, as text, and a sink of 10,000 bytes a call.
fn trial_of(alloc: Global, level: &str) -> Option<Trial> {
    let level = LogLevel::parse(level)?;
    Some(Trial {
        log: Log::new(alloc, LogFormat::Text, level).ok()?,
        sink: Memory::new(alloc, Manner::Takes(10_000)),
        seconds: MOMENT,
        millis: 0,
    })
}

/// The first step that does not go as it says, or an empty text.
fn first_wrong<'a>(trial: &mut Trial, steps: &'a str) -> &'a str {
    for line in steps.lines() {
        if !goes(trial, line) {
            return line;
        }
    }
    ""
}

/// The first step that does not go as it says at a new log of this level, or an empty text.
pub(crate) fn wrong_step<'a>(alloc: Global, level: &str, steps: &'a str) -> &'a str {
    match trial_of(alloc, level) {
        Some(mut trial) => first_wrong(&mut trial, steps),
        None => steps,
    }
}
