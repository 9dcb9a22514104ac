//! Runs of a daemon from its command line over a list in memory: it checks its files, starts, and serves. One function plays steps, of which
//! each is a line:
//!
//! - `checks STATUS TEXT`: a check of a list of this text ends with this exit status, or it is `refused`. `ONE` is a list of one record.
//! - `starts yes TEXT`, `starts no TEXT`: a daemon over a list of this text starts, and is not ready yet, or it is refused.
//! - `serves STATUS ROUTER WORDS`: a daemon with these words, to which this router connects, ends with this exit status.
use crate::daemon::{list_of, router_of};
use crate::stage::Stage;
use crate::wires::{Router, Wire};
use rpkirtrd_cli::{Command, Settings, read_words};
use rpkirtrd_start::{check, serve, start};
use rtr_daemon::{AfterTurn, Daemon};
use session_names::HostFacts;
use std::alloc::{AllocError, Global};
use std::io;
use test_values::scripts::Words;
use vrps::VersionLog;

/// A second of the year 2025.
const BEGUN: u64 = 1_764_096_000;

/// A program that does nothing after a turn.
#[derive(Clone, Copy)]
struct Idle;

impl AfterTurn<VersionLog, Wire, Stage<'_>> for Idle {
    fn after_turn(&mut self, _daemon: &Daemon<VersionLog, Wire>, _env: &mut Stage<'_>) {}
}

/// A host without a machine id and a name.
#[derive(Clone, Copy)]
struct Nameless {
    alloc: Global,
}

impl HostFacts for Nameless {
    fn machine_id(&mut self) -> io::Result<Vec<u8>> {
        Ok(Vec::new(self.alloc))
    }

    fn name(&mut self) -> io::Result<Vec<u8>> {
        Ok(Vec::new(self.alloc))
    }

    fn random_session(&mut self) -> io::Result<u16> {
        Ok(7)
    }
}

/// The words of a line, which blanks part.
fn words_of(alloc: Global, line: &str) -> Result<Vec<String>, AllocError> {
    let mut list = Vec::new(alloc);
    for word in line.split(' ') {
        list.push(String::from_str(alloc, word)?)?;
    }
    Ok(list)
}

/// The settings of the words of a line.
fn settings_of(alloc: Global, line: &str) -> Option<Settings> {
    let words = words_of(alloc, line).ok()?;
    match read_words(alloc, words.as_slice()) {
        Ok(Command::Serve(settings)) => Some(settings),
        _ => None,
    }
}

/// The settings of a daemon over the list.
fn over_list(alloc: Global) -> Option<Settings> {
    settings_of(alloc, "--vrps list.json")
}

/// The exit status of a check of a list of this text, or none if it is refused.
fn checked(alloc: Global, text: &str) -> Option<u8> {
    let settings = over_list(alloc)?;
    let mut stage = Stage::new(alloc, BEGUN, list_of(text));
    let mut host = Nameless { alloc };
    check::<Wire, Nameless, Stage<'_>>(alloc, settings, 1024, 0, &mut host, &mut stage).ok()
}

/// Whether a check of the list of a line ends as it says.
fn checks(alloc: Global, words: &mut Words<'_>) -> bool {
    let status = words.next();
    match checked(alloc, words.rest) {
        Some(known) => status.parse::<u8>().ok() == Some(known),
        None => status == "refused",
    }
}

/// Whether a daemon over a list of this text starts, and is not ready yet.
fn is_started(alloc: Global, text: &str) -> Option<bool> {
    let settings = over_list(alloc)?;
    let mut stage = Stage::new(alloc, BEGUN, list_of(text));
    let mut host = Nameless { alloc };
    match start::<Wire, Nameless, Stage<'_>>(alloc, settings, 1024, 0, &mut host, &mut stage) {
        Ok(daemon) => Some(!daemon.is_ready()),
        Err(_) => Some(false),
    }
}

/// Whether a daemon over the list of a line starts as it says.
fn starts(alloc: Global, words: &mut Words<'_>) -> bool {
    let starts = words.next() == "yes";
    is_started(alloc, words.rest) == Some(starts)
}

/// The exit status of a daemon with the words of a line, to which this router connects.
fn served(alloc: Global, router: Router, line: &str) -> Option<u8> {
    let mut stage = Stage::new(alloc, BEGUN, list_of("ONE"));
    stage.connect(router).ok()?;
    let settings = settings_of(alloc, line)?;
    let mut host = Nameless { alloc };
    serve(alloc, settings, 1024, 0, &mut host, &mut Idle, &mut stage).ok()
}

/// Whether a daemon with the words of a line ends as it says.
fn serves(alloc: Global, words: &mut Words<'_>) -> bool {
    let status = words.next().parse::<u8>().ok();
    match router_of(words.next()) {
        Some(router) => status.is_some() && served(alloc, router, words.rest) == status,
        None => false,
    }
}

/// Whether a step goes as it says.
fn goes(alloc: Global, line: &str) -> bool {
    let mut words = Words { rest: line };
    match words.next() {
        "checks" => checks(alloc, &mut words),
        "starts" => starts(alloc, &mut words),
        "serves" => serves(alloc, &mut words),
        _ => false,
    }
}

/// The first step that does not go as it says, or an empty text.
pub(crate) fn wrong_step<'a>(alloc: Global, steps: &'a str) -> &'a str {
    for line in steps.lines() {
        if !goes(alloc, line) {
            return line;
        }
    }
    ""
}
