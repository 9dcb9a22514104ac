//! The guard against exports that are far shorter than before.
ghost use Rattle.std.specs.Prelude.{◌≡◌};
ghost use Rattle.rtr_daemon.specs.Shrinking.{percent_at};

use crate::environment::EventLog;
use crate::watched_file::WatchedExport;
use event_log::LogEvent;
use sources::{Sources, is_too_short};
use std::alloc::Global;

/// A guard against exports that are far shorter than before. It applies if the last load of an export has 1,000 or more records.
#[derive(Clone, Copy, Debug, PartialEq, Eq)]
pub struct ShrinkGuard {
    /// The largest part of the records of the last load that may be gone, in percent. If more is gone, the export is refused.
    pub percent: u8,
    /// The time for which an export that is too short is refused, in seconds. After it, the export is loaded.
    pub hold: u64,
}

/// How large a part of an export may be gone at a time of the monotonic clock, in percent. Its contents have been refused as too short since
/// another time, if they are. `None`: there is no limit.
pub(crate) fn percent_at(guard: Option<ShrinkGuard>, since: Option<u64>, millis: u64) -> Option<u8>
    ensures { result ≡ percent_at guard since millis }
{
    let guard = guard?;
    match since {
        Some(since) if guard.hold <= millis.saturating_sub(since) / 1000 => None,
        _ => Some(guard.percent),
    }
}

/// What an export had when its guard no longer held.
#[derive(Clone, Copy, Debug)]
pub(crate) struct Unguarded {
    guard: ShrinkGuard,
    had: u64,
}

impl Unguarded {
    /// What an export has, if there is a guard, but no limit at this time.
    pub(crate) fn of(
        guard: Option<ShrinkGuard>,
        percent: Option<u8>,
        export: &WatchedExport,
        sources: &Sources,
        now: u64,
    ) -> Option<Unguarded> {
        match (guard, percent) {
            (Some(guard), None) => Some(Unguarded {
                guard,
                had: sources.left(export.number, now),
            }),
            _ => None,
        }
    }

    /// Warns if the export was loaded, although it is too short.
    pub(crate) fn log_loaded<W: EventLog>(
        self,
        export: &WatchedExport,
        sources: &Sources,
        alloc: Global,
        now: u64,
        env: &mut W,
    ) {
        let Unguarded { guard, had } = self;
        let has = sources.left(export.number, now);
        if is_too_short(guard.percent, had, has) {
            let path = export.path();
            let hold = guard.hold;
            log_warning(
                format!(in alloc;
                    "{path}: it has {has} VRPs, the last load had {had}: loaded, as it was refused for {hold} seconds (--shrink-hold)"
                ).ok(),
                now,
                env,
            );
        }
    }
}

/// Logs a warning. If there was no memory for its text, it says so.
pub(crate) fn log_warning<W: EventLog>(text: Option<String>, now: u64, env: &mut W) {
    match text {
        Some(text) => {
            let reason = text.as_str();
            env.log(now, &LogEvent::Warning { reason });
        }
        None => env.log(
            now,
            &LogEvent::Memory {
                what: "the text of a warning",
            },
        ),
    }
}
