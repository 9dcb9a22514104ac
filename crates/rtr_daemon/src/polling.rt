//! Polling the exports, and loading those that have changed.
ghost use Rattle.std.specs.Prelude.{◌≡◌, ◌↔◌, IsTrue};
ghost use Rattle.rtr_daemon.specs.Files.{Follows, FollowsEach, FollowsOne, RefusedAfter, loaded_after, loaded_at_after, mark_of, marks_of, names_of};
ghost use Rattle.rtr_daemon.specs.Due.{OnlyFiles};
ghost use Rattle.rtr_daemon.specs.Serving.{Continues, LoadsExport, OnlySources, TakesSo};

use crate::daemon::{Daemon, Plan};
use crate::environment::{Disk, EventLog, Stamp, Time};
use crate::refusal::Refusal;
use crate::service::Service;
use crate::shrink_guard::{Unguarded, log_warning, percent_at};
use crate::statistics::Statistics;
use crate::watched_file::{Look, WatchedExport, WatchedFile};
use event_log::LogEvent;
use exports::Ignored;
use rtr_server::Stream;
use sources::{Sources, TakeFault};
use std::alloc::Global;
use vrps::VersionStore;

/// What is reported after a poll of a file.
pub(crate) enum PollResult {
    /// Nothing.
    Unchanged,
    /// Why it was refused.
    Refused,
    /// It is again as it was loaded, and a refusal was reported before.
    Restored,
    /// It was loaded: whether a refusal was reported before, and how many of its entries had expired.
    Loaded { again: bool, expired: u64 },
}

/// Loads the content of an export at the start, and returns how many of its entries had expired. If it is refused, it returns why.
pub(crate) fn take<S: VersionStore, T: Stream + Drop>(
    service: &mut Service<S, T>,
    number: usize,
    bytes: &[u8],
    alloc: Global,
    now: u64,
) -> Result<u64, Refusal>
    ensures goes { Continues S.holds T.remaining T.contents service.old service.new }
    ensures takes { TakesSo result service.old service.new }
    ensures loads { LoadsExport number bytes.now now result service.old.sources service.new.sources }
    ensures rest { OnlySources service.old service.new }
{
    match service.take_export_within(None, number, bytes, now) {
        Ok(expired) => Ok(expired),
        Err(fault) => Err(Refusal::of_export(alloc, bytes, fault)),
    }
}

/// Notes whether a file was loaded or refused, and returns what is reported.
fn note(
    export: &mut WatchedExport,
    stamp: Stamp,
    bytes: &[u8],
    taken: Result<u64, TakeFault>,
    alloc: Global,
    now: u64,
) -> PollResult
    ensures path { export.new.file.path ≡ export.old.file.path }
    ensures number { export.new.number ≡ export.old.number }
    ensures short { export.new.short_since ≡ export.old.short_since }
    ensures loaded { export.new.file.loaded ≡ loaded_after taken stamp export.old.file.loaded }
    ensures refused { RefusedAfter taken stamp export.new.file.refusals.last }
    ensures at { export.new.file.loaded_at ≡ loaded_at_after taken now export.old.file.loaded_at }
{
    match taken {
        Ok(expired) => PollResult::Loaded {
            again: export.set_loaded(stamp, now, expired),
            expired,
        },
        Err(fault) => {
            let refusal = Refusal::of_export(alloc, bytes, fault);
            refused_if(export.file.refusals.add(Some(stamp), refusal, now))
        }
    }
}

fn refused_if(is_news: bool) -> PollResult {
    if is_news {
        PollResult::Refused
    } else {
        PollResult::Unchanged
    }
}

fn restored_if(was_reported: bool) -> PollResult {
    if was_reported {
        PollResult::Restored
    } else {
        PollResult::Unchanged
    }
}

/// A time, by both clocks.
#[derive(Clone, Copy, Debug)]
struct PollTime {
    /// In seconds since 1970.
    seconds: u64,
    /// In milliseconds of the monotonic clock.
    millis: u64,
}

/// Polls an export, and loads it if it has changed and no more than this percentage of its records is gone.
fn follow<S: VersionStore, T: Stream + Drop, W: Disk>(
    export: &mut WatchedExport,
    service: &mut Service<S, T>,
    percent: Option<u8>,
    alloc: Global,
    at: PollTime,
    env: &mut W,
) -> PollResult
    ensures goes { Continues S.holds T.remaining T.contents service.old service.new }
    ensures rest { OnlySources service.old service.new }
    ensures follows { Follows W.answers percent export.old at.seconds at.millis (mark_of export.new) service.old.sources service.new.sources }
    ensures path { export.new.file.path ≡ export.old.file.path }
    ensures number { export.new.number ≡ export.old.number }
{
    let now = at.seconds;
    let anew = export.file.is_loaded_after(now);
    match export.file.look(env, anew) {
        Look::Unchanged => restored_if(export.set_unchanged()),
        Look::Unstable => refused_if(export.file.refusals.add(None, Refusal::Changing, now)),
        Look::RefusedBefore => refused_if(export.file.refusals.mark_reported(now)),
        Look::Failed(error) => {
            refused_if(export.file.refusals.add(None, Refusal::Device(error), now))
        }
        Look::Read(stamp, bytes) => {
            let bytes = bytes.as_slice();
            let taken = service.take_export_within(percent, export.number, bytes, now);
            export.note_short(&taken, at.millis);
            note(export, stamp, bytes, taken, alloc, now)
        }
    }
}

impl<S: VersionStore, T: Stream + Drop> Daemon<S, T> {
    /// Polls all exports.
    pub(crate) fn follow_all<W: Disk + Time + EventLog>(&mut self, env: &mut W)
        ensures goes { Continues S.holds T.remaining T.contents self.old.service self.new.service }
        ensures rest { OnlyFiles self.old self.new }
        ensures follows { FollowsEach W.answers W.can_be W.can_tick self.old.plan.shrink self.old.exports.items (marks_of self.new.exports.items) self.old.service.sources self.new.service.sources }
        ensures names { names_of self.new.exports.items ≡ names_of self.old.exports.items }
        ensures kept { (self.new.slurms ≡ self.old.slurms) × (self.new.points ≡ self.old.points) }
    {
        follow_each(
            &mut self.exports,
            &mut self.service,
            &mut self.statistics,
            self.plan,
            self.alloc,
            env,
        );
    }
}

/// Polls each export, loads it if it has changed, and reports the result.
fn follow_each<S: VersionStore, T: Stream + Drop, W: Disk + Time + EventLog>(
    exports: &mut Vec<WatchedExport>,
    service: &mut Service<S, T>,
    statistics: &mut Statistics,
    plan: Plan,
    alloc: Global,
    env: &mut W,
)
    ensures goes { Continues S.holds T.remaining T.contents service.old service.new }
    ensures rest { OnlySources service.old service.new }
    ensures follows { FollowsEach W.answers W.can_be W.can_tick plan.shrink exports.old.items (marks_of exports.new.items) service.old.sources service.new.sources }
    ensures names { names_of exports.new.items ≡ names_of exports.old.items }
{
    for export in exports.iter_mut() {
        follow_one(export, service, statistics, plan, alloc, env);
    }
}

/// Polls an export, loads it if it has changed, and reports the result.
fn follow_one<S: VersionStore, T: Stream + Drop, W: Disk + Time + EventLog>(
    export: &mut WatchedExport,
    service: &mut Service<S, T>,
    statistics: &mut Statistics,
    plan: Plan,
    alloc: Global,
    env: &mut W,
)
    ensures goes { Continues S.holds T.remaining T.contents service.old service.new }
    ensures rest { OnlySources service.old service.new }
    ensures follows { FollowsOne W.answers W.can_be W.can_tick plan.shrink export.old (mark_of export.new) service.old.sources service.new.sources }
    ensures path { export.new.file.path ≡ export.old.file.path }
    ensures number { export.new.number ≡ export.old.number }
{
    let now = env.seconds();
    let millis = env.millis();
    let percent = percent_at(plan.shrink, export.short_since, millis);
    let before = service.sources().ignored(export.number);
    let unguarded = Unguarded::of(plan.shrink, percent, export, service.sources(), now);
    let was_near = export.file.near_limit(plan.max_size).is_some();
    let at = PollTime {
        seconds: now,
        millis,
    };
    let polled = follow(export, service, percent, alloc, at, env);
    export.file.note_slow(env.slowest(), now);
    count_poll(statistics, &polled, env.millis().saturating_sub(millis));
    note_anchors(export, &polled, service.sources(), alloc, now, env);
    log_poll(alloc, export, polled, now, env);
    if let Some(unguarded) = unguarded {
        unguarded.log_loaded(export, service.sources(), alloc, now, env);
    }
    log_near_limit(&export.file, was_near, plan.max_size, alloc, now, env);
    let after = service.sources().ignored(export.number);
    log_not_served(export.path(), before, after, now, env);
}

/// Notes how many VRPs the trust anchors of an export have, if it was loaded.
fn note_anchors<W: EventLog>(
    export: &mut WatchedExport,
    polled: &PollResult,
    sources: &Sources,
    alloc: Global,
    now: u64,
    env: &mut W,
)
    ensures { export.new ≡ record export.old { anchors = export.new.anchors } }
{
    if let PollResult::Loaded { .. } = polled {
        export
            .anchors
            .note_load(alloc, sources, export.number, now, env);
    }
}

/// Warns if a file is near the limit of its size, and was not before.
pub(crate) fn log_near_limit<W: EventLog>(
    file: &WatchedFile,
    was_near: bool,
    limit: u64,
    alloc: Global,
    now: u64,
    env: &mut W,
) {
    if was_near {
        return;
    }
    if let Some(size) = file.near_limit(limit) {
        let path = file.path.as_str();
        let text = format!(in alloc;
            "{path}: it has {size} bytes, over three quarters of {limit} (--max-size)"
        );
        log_warning(text.ok(), now, env);
    }
}

/// Whether another number of elements is not served than before.
fn has_changed(before: Ignored, after: Ignored) -> bool
    ensures { IsTrue result ↔ (¬ (before ≡ after)) }
{
    before.aspas != after.aspas || before.router_keys != after.router_keys
}

/// Reports how much of an export is not served, if that is another number than before.
pub(crate) fn log_not_served<W: EventLog>(
    file: &str,
    before: Ignored,
    after: Ignored,
    now: u64,
    env: &mut W,
) {
    if has_changed(before, after) {
        let Ignored { aspas, router_keys } = after;
        let event = LogEvent::NotServed {
            file,
            aspas,
            router_keys,
        };
        env.log(now, &event);
    }
}

/// Counts the result of a poll, which took this many milliseconds.
fn count_poll(statistics: &mut Statistics, polled: &PollResult, milliseconds: u64) {
    match polled {
        PollResult::Unchanged | PollResult::Restored => {}
        PollResult::Refused => statistics.count_refusal(),
        PollResult::Loaded { .. } => statistics.count_load(milliseconds),
    }
}

/// Reports the result of a poll.
fn log_poll<W: EventLog>(
    alloc: Global,
    export: &WatchedExport,
    polled: PollResult,
    now: u64,
    env: &mut W,
) {
    let path = export.path();
    match polled {
        PollResult::Unchanged => {}
        PollResult::Refused => log_refused_file(alloc, &export.file, now, env),
        PollResult::Restored => env.log(now, &LogEvent::Taken { file: path }),
        PollResult::Loaded { again, expired } => {
            if again {
                env.log(now, &LogEvent::Taken { file: path });
            }
            log_expired(path, expired, now, env);
        }
    }
}

/// Reports how many entries of a source have expired, if there are any.
pub(crate) fn log_expired<W: EventLog>(file: &str, entries: u64, now: u64, env: &mut W) {
    if entries > 0 {
        env.log(now, &LogEvent::Expired { file, entries });
    }
}

/// Reports why a file was refused last.
pub(crate) fn log_refused_file<W: EventLog>(
    alloc: Global,
    file: &WatchedFile,
    now: u64,
    env: &mut W,
) {
    if let Some(refusal) = file.refusals.last() {
        log_refusal(alloc, file.path.as_str(), refusal, now, env);
    }
}

/// Reports why something is refused.
pub(crate) fn log_refusal<W: EventLog>(
    alloc: Global,
    file: &str,
    refusal: &Refusal,
    now: u64,
    env: &mut W,
) {
    match refusal.to_string(alloc) {
        Ok(reason) => env.log(
            now,
            &LogEvent::Refused {
                file,
                reason: reason.as_str(),
            },
        ),
        Err(_) => env.log(
            now,
            &LogEvent::Refused {
                file,
                reason: "out of memory",
            },
        ),
    }
}
