//! What time does to the sources: records expire, exports become old, and the clock may be set back.
ghost use Rattle.std.specs.Prelude.{◌≡◌, ◌||◌, map};
ghost use Rattle.std.specs.List.{list_any};
ghost use Rattle.rtr_daemon.specs.Ages.{aged, data_time, made_at, with_expired};
ghost use Rattle.rtr_daemon.specs.Due.{JudgesAges, JudgesExpiry, second_of_pace};
ghost use Rattle.rtr_daemon.specs.Serving.{Continues, IsFresh};

use crate::daemon::Daemon;
use crate::environment::{EventLog, Time};
use crate::polling::log_expired;
use crate::watched_file::WatchedExport;
use event_log::LogEvent;
use rtr_server::Stream;
use sources::Sources;
use vrps::VersionStore;

/// How many seconds ahead of the clock the time of an export may be.
const AHEAD: u64 = 3600;

impl<S: VersionStore + Drop, T: Stream + Drop> Daemon<S, T> {
    /// The second by which versions are paced: the second of the start, plus the seconds of the monotonic clock since. So a wall clock that is
    /// set back delays no version. If it is never set back, no serial is ahead of it.
    pub(crate) fn paced(&self, millis: u64) -> u64
        ensures { result ≡ second_of_pace self.now.started self.now.opened millis }
    {
        self.started
            .saturating_add(millis.saturating_sub(self.opened) / 1000)
    }

    /// Reports that the clock was set back, if it is further back than before.
    pub(crate) fn judge_clock<W: Time + EventLog>(&mut self, millis: u64, env: &mut W)
        ensures { self.new ≡ record self.old { clock_behind = self.new.clock_behind } }
    {
        let now = env.seconds();
        let behind = self.paced(millis).saturating_sub(now);
        let is_news = behind > self.clock_behind.saturating_add(1);
        if is_news {
            env.log(now, &LogEvent::Clock { behind });
        }
        if is_news || behind < self.clock_behind {
            self.clock_behind = behind;
        }
    }

    /// Judges which records have expired by now, and reports the files with more of them. Then a version is pending, or the newest one is the set
    /// of the sources at this second.
    pub(crate) fn judge_expiry<W: Time + EventLog>(&mut self, env: &mut W)
        ensures goes { Continues S.holds T.remaining T.contents self.old.service self.new.service }
        ensures fresh { IsFresh W.can_be self.new.service }
        ensures rest { JudgesExpiry self.old self.new }
    {
        let now = env.seconds();
        if self.service.judge_expiry(now) {
            note_all_expired(&mut self.exports, self.service.sources(), now, env);
        }
    }

    /// Reports which exports have become older than the maximum age, and which are no longer.
    pub(crate) fn judge_ages<W: Time + EventLog>(&mut self, env: &mut W)
        ensures { JudgesAges W.can_be self.old self.new }
    {
        let Some(most) = self.plan.max_age else {
            return;
        };
        let now = env.seconds();
        judge_each_age(&mut self.exports, self.service.sources(), most, now, env);
        self.is_old = is_old_after(self.is_old, self.exports.as_slice());
    }
}

/// Notes how many records of each file have expired since it was loaded.
fn note_all_expired<W: EventLog>(
    exports: &mut Vec<WatchedExport>,
    sources: &Sources,
    now: u64,
    env: &mut W,
)
    ensures { exports.new.items ≡ map (with_expired now sources.now) exports.old.items }
{
    for export in exports.iter_mut() {
        note_expired(export, sources, now, env);
    }
}

/// Notes how many records of a file have expired since it was loaded, and reports it if there are more than before. Expired records are not
/// served, even if the file is refused.
fn note_expired<W: EventLog>(export: &mut WatchedExport, sources: &Sources, now: u64, env: &mut W)
    ensures { export.new ≡ with_expired now sources.now export.old }
{
    let expired = sources.expired(export.number, now);
    let before = export.expired_since;
    export.expired_since = expired;
    if expired > before {
        log_expired(export.path(), export.all_expired(), now, env);
    }
}

/// Whether an export is old, as was found last.
fn is_any_old(exports: &[WatchedExport]) -> bool
    ensures { result ≡ list_any (λ e. e.is_old) exports.now }
{
    exports.iter().any(|export| export.is_old)
}

/// Whether an export is or was old.
fn is_old_after(was_old: bool, exports: &[WatchedExport]) -> bool
    ensures { result ≡ (was_old || list_any (λ e. e.is_old) exports.now) }
{
    was_old || is_any_old(exports)
}

/// Finds for each export whether it is older than this many seconds. Each change is reported.
fn judge_each_age<W: EventLog>(
    exports: &mut Vec<WatchedExport>,
    sources: &Sources,
    most: u64,
    now: u64,
    env: &mut W,
)
    ensures { exports.new.items ≡ map (aged most now sources.now) exports.old.items }
{
    for export in exports.iter_mut() {
        judge_age(export, sources, most, now, env);
    }
}

/// Finds whether an export is older than this many seconds. A change is reported.
fn judge_age<W: EventLog>(
    export: &mut WatchedExport,
    sources: &Sources,
    most: u64,
    now: u64,
    env: &mut W,
)
    ensures { export.new ≡ aged most now sources.now export.old }
{
    let Some(built) = built_of(export, sources, now) else {
        return;
    };
    let age = now.saturating_sub(built);
    if export.set_old(age > most) {
        log_age(export.path(), age, most, now, env);
    }
}

/// When the data of an export were made. If the export gives no time, or one too far ahead, the file's modification time counts, or the time of
/// its load if that is no time of the past.
pub(crate) fn built_of(export: &WatchedExport, sources: &Sources, now: u64) -> Option<u64>
    ensures { result ≡ data_time now sources.now export.now }
{
    made_at(now, sources.built(export.number), export.file.made_at())
}

/// The own time of data, unless there is none or it is too far ahead: then the time that the file shows.
fn made_at(now: u64, built: Option<u64>, file: Option<u64>) -> Option<u64>
    ensures { result ≡ made_at now built file }
{
    match built {
        Some(built) if built.saturating_sub(AHEAD) <= now => Some(built),
        _ => file,
    }
}

/// Reports that an export has become older than the maximum age, or is no longer.
fn log_age<W: EventLog>(file: &str, age: u64, most: u64, now: u64, env: &mut W) {
    if age > most {
        env.log(now, &LogEvent::Old { file, age });
    } else {
        env.log(now, &LogEvent::Fresh { file, age });
    }
}
