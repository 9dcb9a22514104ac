//! The reasons why the daemon is not well, as they were logged last.
ghost use Rattle.std.specs.Prelude.{◌≡◌};

use crate::daemon::Daemon;
use crate::environment::{EventLog, Time};
use event_log::LogEvent;
use rtr_server::Stream;
use status_pages::{FileStatus, REASONS, Status, holds_for_all, is_blamed};
use std::alloc::{AllocError, Global};
use vrps::VersionStore;

/// For each reason, in their order, whether it holds.
type Held = [bool; 10];

/// No reason holds.
const NONE: Held = [false; 10];

/// Which reasons held at the last round: of the daemon as a whole, and then of each source.
#[derive(Debug, Drop)]
pub(crate) struct UnwellReasons {
    held: Vec<Held>,
}

impl UnwellReasons {
    /// Nothing was judged yet.
    pub(crate) fn new(alloc: Global) -> UnwellReasons {
        UnwellReasons {
            held: Vec::new(alloc),
        }
    }

    /// What held at a place before.
    fn at(&self, place: usize) -> Held {
        match self.held.get(place) {
            Some(held) => *held,
            None => NONE,
        }
    }

    /// Notes what holds at the next place, and logs what has begun or ended there.
    fn note<W: EventLog>(
        &self,
        after: &mut Vec<Held>,
        held: Held,
        file: Option<&str>,
        now: u64,
        env: &mut W,
    ) -> Result<(), AllocError> {
        let before = self.at(after.len());
        after.push(held)?;
        log_changes(before, held, file, now, env);
        Ok(())
    }

    /// The reasons that hold now, of which those are logged that have begun or ended.
    fn judged<W: EventLog>(
        &self,
        alloc: Global,
        status: &Status,
        env: &mut W,
    ) -> Result<UnwellReasons, AllocError> {
        let mut held = Vec::with_capacity(alloc, status.files.len().saturating_add(1))?;
        self.note(&mut held, held_by_all(status), None, status.now, env)?;
        for file in &status.files {
            let path = Some(file.path.as_str());
            self.note(&mut held, held_by_file(status, file), path, status.now, env)?;
        }
        Ok(UnwellReasons { held })
    }
}

/// The reasons of the daemon as a whole.
fn held_by_all(status: &Status) -> Held {
    REASONS.map(|reason| holds_for_all(status, reason))
}

/// The reasons of a source.
fn held_by_file(status: &Status, file: &FileStatus) -> Held {
    REASONS.map(|reason| is_blamed(status.now, status.max_age, reason, file))
}

/// Logs which reasons have begun, and which have ended.
fn log_changes<W: EventLog>(before: Held, after: Held, file: Option<&str>, now: u64, env: &mut W) {
    for (index, reason) in REASONS.iter().enumerate() {
        if before[index] != after[index] {
            env.log(now, &change_of(reason.word(), after[index], file));
        }
    }
}

/// The event of a reason that has begun, or has ended.
fn change_of<'a>(reason: &'a str, holds: bool, file: Option<&'a str>) -> LogEvent<'a> {
    match (holds, file) {
        (true, None) => LogEvent::Unwell { reason },
        (true, Some(file)) => LogEvent::FileUnwell { reason, file },
        (false, None) => LogEvent::Well { reason },
        (false, Some(file)) => LogEvent::FileWell { reason, file },
    }
}

impl<S: VersionStore + Drop, T: Stream + Drop> Daemon<S, T> {
    /// Judges why the daemon is not well, and logs each reason that has begun or ended since the last round. Nothing is judged before the first
    /// publication was tried.
    pub(crate) fn judge_state<W: Time + EventLog>(&mut self, env: &mut W)
        ensures { self.new ≡ record self.old { unwell = self.new.unwell } }
    {
        if !self.is_ready && self.statistics.failure.is_none() {
            return;
        }
        let now = env.seconds();
        let judged = match self.source_status(now) {
            Ok(status) => self.unwell.judged(self.alloc, &status, env),
            Err(error) => Err(error),
        };
        match judged {
            Ok(unwell) => self.unwell = unwell,
            Err(_) => env.log(now, &LogEvent::Memory { what: "the state" }),
        }
    }
}
