//! Polling the files of local exceptions, which are loaded together (RFC 8416 section 4.2).
ghost use Rattle.std.specs.Prelude.{◌≡◌, All, IfErr, IfOk, None, Ok, Some, false, length, map, slice_get};
ghost use Rattle.rtr_daemon.specs.declared.refusal.Refusal.{Refusal};
ghost use Rattle.rtr_daemon.specs.Files.{FollowsSlurms, HasContents, IsKnown, ReadsSlurms, SameLoad, SameLoads, loads_of, paths_of, stamp_or, texts_of};
ghost use Rattle.sources.specs.Served.{AreRefused, SlurmsTaken};
ghost use Rattle.rtr_daemon.specs.Due.{OnlyFiles};
ghost use Rattle.rtr_daemon.specs.SlurmRefusals.{EachNotesSo, IsNotOfBytes, IsNotedAt, IsOfContents, IsOfPaths, NotesSo, SlurmRefusalsFollow};
ghost use Rattle.rtr_daemon.specs.Serving.{Continues, LoadsSlurms, OnlySources, TakesSo};

use crate::daemon::Daemon;
use crate::environment::{Disk, EventLog, Stamp, Time};
use crate::polling::{log_near_limit, log_refused_file};
use crate::refusal::{Refusal, StartFault};
use crate::service::Service;
use crate::slurm_contents::{Contents, LongestCall, SlurmRefusal, contents_of, settled_contents};
use crate::statistics::Statistics;
use crate::watched_file::{FileState, WatchedFile};
use event_log::LogEvent;
use rtr_server::Stream;
use slurm::{Ignored, UniteFault};
use sources::{SlurmSetFault, Sources};
use std::alloc::Global;
use vrps::VersionStore;

/// Loads the content of all files. If it is refused, nothing changes.
fn take<S: VersionStore, T: Stream + Drop>(
    service: &mut Service<S, T>,
    slurms: &[WatchedFile],
    contents: &Contents,
    alloc: Global,
) -> Result<(), SlurmRefusal>
    ensures goes { Continues S.holds T.remaining T.contents service.old service.new }
    ensures takes { TakesSo result service.old service.new }
    ensures loads { LoadsSlurms (texts_of contents.now) result service.old.sources service.new.sources }
    ensures refused { IfErr result (λ refusal. IsOfContents contents.now refusal) }
    ensures rest { OnlySources service.old service.new }
{
    match service.take_slurms(contents.bytes.as_slice()) {
        Ok(()) => Ok(()),
        Err(fault) => Err(refusal_of(slurms, contents, alloc, fault)),
    }
}

/// The refusal for a fault: that of the file that does not read, or that of the later one of two that overlap.
fn refusal_of(
    slurms: &[WatchedFile],
    contents: &Contents,
    alloc: Global,
    fault: SlurmSetFault,
) -> SlurmRefusal
    ensures { AreRefused (texts_of contents.now) fault → IsOfContents contents.now result }
{
    match fault {
        SlurmSetFault::File { index, fault } => {
            let why = match contents.bytes.get(index) {
                Some(bytes) => Refusal::of_slurm(alloc, bytes, fault),
                None => Refusal::memory(),
            };
            contents.refused(index, why)
        }
        SlurmSetFault::Unite(fault) => match fault {
            UniteFault::Overlap { first, second, .. } => {
                let other = slurms.get(first).map(|file| file.path.as_str());
                contents.refused(second, Refusal::of_union(alloc, fault, other))
            }
            _ => contents.refused(0, Refusal::of_union(alloc, fault, None)),
        },
    }
}

/// Reads and loads all files at the start.
pub(crate) fn read_slurms<S: VersionStore, T: Stream + Drop, W: Disk + EventLog>(
    slurms: &mut [WatchedFile],
    service: &mut Service<S, T>,
    max_size: u64,
    alloc: Global,
    now: u64,
    env: &mut W,
) -> Result<(), StartFault>
    ensures goes { Continues S.holds T.remaining T.contents service.old service.new }
    ensures reads { IfOk result (λ _. ReadsSlurms W.answers slurms.old (loads_of slurms.new) service.old.sources service.new.sources) }
    ensures paths { paths_of slurms.new ≡ paths_of slurms.old }
    ensures refusals { EachNotesSo (λ k. IsNotOfBytes) slurms.old slurms.new }
{
    let mut longest = LongestCall::none();
    let contents = match settled_contents(slurms, &mut longest, alloc, env) {
        Ok(contents) => contents,
        Err(refusal) => return Err(start_fault(slurms, alloc, refusal)),
    };
    match take(service, slurms, &contents, alloc) {
        Ok(()) => {
            longest.note_at(slurms, now);
            report_loaded(slurms, &contents, max_size, alloc, now, env);
            report_not_applied(slurms, service.sources(), now, env);
            Ok(())
        }
        Err(refusal) => Err(start_fault(slurms, alloc, refusal)),
    }
}

/// Why the daemon cannot start with these files.
fn start_fault(slurms: &[WatchedFile], alloc: Global, refusal: SlurmRefusal) -> StartFault {
    let SlurmRefusal { index, why, .. } = refusal;
    match slurms.get(index) {
        Some(file) => StartFault::of(file.path.as_str(), alloc, why),
        None => StartFault {
            path: None,
            refusal: why,
        },
    }
}

impl<S: VersionStore, T: Stream + Drop> Daemon<S, T> {
    /// Polls the files of local exceptions, and loads all if one has changed.
    pub(crate) fn follow_slurms<W: Disk + Time + EventLog>(&mut self, env: &mut W)
        ensures goes { Continues S.holds T.remaining T.contents self.old.service self.new.service }
        ensures rest { OnlyFiles self.old self.new }
        ensures kept { (self.new.exports ≡ self.old.exports) × (self.new.points ≡ self.old.points) }
        ensures follows { FollowsSlurms W.answers self.old.slurms.items (loads_of self.new.slurms.items) self.old.service.sources self.new.service.sources }
        ensures paths { paths_of self.new.slurms.items ≡ paths_of self.old.slurms.items }
        ensures refusals { SlurmRefusalsFollow W.answers self.old.slurms.items self.new.slurms.items }
    {
        follow(
            &mut self.slurms,
            &mut self.service,
            &mut self.statistics,
            self.plan.max_size,
            self.alloc,
            env,
        );
    }
}

/// Polls the files, loads all if one has changed, and reports the result.
fn follow<S: VersionStore, T: Stream + Drop, W: Disk + Time + EventLog>(
    slurms: &mut [WatchedFile],
    service: &mut Service<S, T>,
    statistics: &mut Statistics,
    max_size: u64,
    alloc: Global,
    env: &mut W,
)
    ensures goes { Continues S.holds T.remaining T.contents service.old service.new }
    ensures rest { OnlySources service.old service.new }
    ensures follows { FollowsSlurms W.answers slurms.old (loads_of slurms.new) service.old.sources service.new.sources }
    ensures paths { paths_of slurms.new ≡ paths_of slurms.old }
    ensures refusals { SlurmRefusalsFollow W.answers slurms.old slurms.new }
{
    let now = env.seconds();
    let mut longest = LongestCall::none();
    if !is_any_new(slurms, &mut longest, env) {
        longest.note_at(slurms, now);
        return report_known(slurms, statistics, alloc, now, env);
    }
    let began = env.millis();
    let loaded = load(slurms, service, &mut longest, alloc, env);
    longest.note_at(slurms, now);
    match loaded {
        Ok(contents) => {
            statistics.count_load(env.millis().saturating_sub(began));
            report_loaded(slurms, &contents, max_size, alloc, now, env);
            report_not_applied(slurms, service.sources(), now, env);
        }
        Err(refusal) => report_refused(slurms, refusal, statistics, alloc, now, env),
    }
}

/// Whether some file has changed, or cannot be read.
fn is_any_new<W: Disk>(slurms: &[WatchedFile], longest: &mut LongestCall, env: &mut W) -> bool
    ensures { result ≡ false → All (IsKnown W.answers) slurms.now }
{
    for file in slurms {
        let is_new = file.is_new(env);
        longest.note(env.slowest());
        if is_new {
            return true;
        }
    }
    false
}

/// Reads and loads all files, and returns what was read.
fn load<S: VersionStore, T: Stream + Drop, W: Disk>(
    slurms: &[WatchedFile],
    service: &mut Service<S, T>,
    longest: &mut LongestCall,
    alloc: Global,
    env: &mut W,
) -> Result<Contents, SlurmRefusal>
    ensures goes { Continues S.holds T.remaining T.contents service.old service.new }
    ensures rest { OnlySources service.old service.new }
    ensures read { IfOk result (λ contents. HasContents W.answers slurms.now contents) }
    ensures loads { IfOk result (λ contents. SlurmsTaken (texts_of contents) (Ok tt) service.old.sources service.new.sources) }
    ensures refuses { IfErr result (λ _. FollowsSlurms W.answers slurms.now (loads_of slurms.now) service.old.sources service.new.sources) }
    ensures refused { IfErr result (λ refusal. IsOfPaths W.answers (paths_of slurms.now) refusal) }
{
    let contents = contents_of(slurms, longest, alloc, env)?;
    take(service, slurms, &contents, alloc)?;
    Ok(contents)
}

/// Reports the files that were refused at the poll before, and those that are again as they were loaded.
fn report_known<W: Disk + EventLog>(
    slurms: &mut [WatchedFile],
    statistics: &mut Statistics,
    alloc: Global,
    now: u64,
    env: &mut W,
)
    ensures loads { SameLoads slurms.old slurms.new }
    ensures refusals { EachNotesSo (λ k. IsNotOfBytes) slurms.old slurms.new }
{
    for file in slurms.iter_mut() {
        report_if_known(file, statistics, alloc, now, env);
    }
}

/// Reports a file, if it was refused at the poll before and that was not reported. If it is again as it was loaded, its refusal ends.
fn report_if_known<W: Disk + EventLog>(
    file: &mut WatchedFile,
    statistics: &mut Statistics,
    alloc: Global,
    now: u64,
    env: &mut W,
)
    ensures loads { SameLoad file.old file.new }
    ensures refusals { NotesSo IsNotOfBytes file.old file.new }
{
    match file.state(env) {
        FileState::RefusedBefore => {
            if file.refusals.mark_reported(now) {
                statistics.count_refusal();
                log_refused_file(alloc, file, now, env);
            }
        }
        FileState::Unchanged => end_refusal(file, now, env),
        FileState::New => {}
    }
}

/// Notes that all files were loaded, and reports those that were refused before.
fn report_loaded<W: EventLog>(
    slurms: &mut [WatchedFile],
    contents: &Contents,
    max_size: u64,
    alloc: Global,
    now: u64,
    env: &mut W,
)
    ensures paths { paths_of slurms.new ≡ paths_of slurms.old }
    ensures loaded { length contents.now.stamps.items ≡ length slurms.old → loads_of slurms.new ≡ map Some contents.now.stamps.items }
    ensures refusals { EachNotesSo (λ k. IsNotOfBytes) slurms.old slurms.new }
{
    for (at, file) in slurms.iter_mut().enumerate() {
        let was_near = file.near_limit(max_size).is_some();
        report_one_loaded(contents, at, file, now, env);
        log_near_limit(file, was_near, max_size, alloc, now, env);
    }
}

/// Notes that the file of an index was loaded, and reports it if it was refused before.
fn report_one_loaded<W: EventLog>(
    contents: &Contents,
    index: usize,
    file: &mut WatchedFile,
    now: u64,
    env: &mut W,
)
    ensures path { file.new.path ≡ file.old.path }
    ensures loaded { file.new.loaded ≡ stamp_or (slice_get contents.now.stamps.items index) file.old.loaded }
    ensures refusals { NotesSo IsNotOfBytes file.old file.new }
{
    if contents.note_loaded(index, file, now) {
        log_taken(file, now, env);
    }
}

/// Reports the files of which another number of entries is not applied than before.
fn report_not_applied<W: EventLog>(
    slurms: &mut [WatchedFile],
    sources: &Sources,
    now: u64,
    env: &mut W,
)
    ensures loads { SameLoads slurms.old slurms.new }
    ensures refusals { EachNotesSo (λ k. IsNotOfBytes) slurms.old slurms.new }
{
    for (at, file) in slurms.iter_mut().enumerate() {
        report_one_not_applied(file, sources.ignored_exceptions(at), now, env);
    }
}

/// Reports how many entries of a file are not applied, if that is another number than before.
fn report_one_not_applied<W: EventLog>(
    file: &mut WatchedFile,
    count: Ignored,
    now: u64,
    env: &mut W,
)
    ensures loads { SameLoad file.old file.new }
    ensures refusals { NotesSo IsNotOfBytes file.old file.new }
{
    if file.set_not_applied(count) {
        let Ignored {
            bgpsec_filters,
            bgpsec_assertions,
        } = count;
        let event = LogEvent::SlurmNotServed {
            file: file.path.as_str(),
            bgpsec_filters,
            bgpsec_assertions,
        };
        env.log(now, &event);
    }
}

/// Reports that a file is accepted again.
fn log_taken<W: EventLog>(file: &WatchedFile, now: u64, env: &mut W) {
    let file = file.path.as_str();
    env.log(now, &LogEvent::Taken { file });
}

/// Notes the refusal at its file, and at each other file that has changed, and reports those that are due.
fn report_refused<W: Disk + EventLog>(
    slurms: &mut [WatchedFile],
    refusal: SlurmRefusal,
    statistics: &mut Statistics,
    alloc: Global,
    now: u64,
    env: &mut W,
)
    ensures loads { SameLoads slurms.old slurms.new }
    ensures refusals { EachNotesSo (IsNotedAt refusal.index refusal.stamp refusal.why) slurms.old slurms.new }
{
    let SlurmRefusal { index, stamp, why } = refusal;
    let mut why = Some(why);
    for (at, file) in slurms.iter_mut().enumerate() {
        let own = if at == index { why.take() } else { None };
        report_one_refused(file, stamp, own, statistics, alloc, now, env);
    }
}

/// Notes the refusal of a file, or that it is not loaded because of another one. It is reported if that is due.
fn report_one_refused<W: Disk + EventLog>(
    file: &mut WatchedFile,
    stamp: Option<Stamp>,
    own: Option<Refusal>,
    statistics: &mut Statistics,
    alloc: Global,
    now: u64,
    env: &mut W,
)
    ensures loads { SameLoad file.old file.new }
    ensures other { own ≡ None → NotesSo IsNotOfBytes file.old file.new }
    ensures own { (why : Refusal) → own ≡ Some why → file.new.refusals.last ≡ Some (record { stamp = stamp; why = why }) }
{
    let is_due = match own {
        Some(why) => file.refusals.add(stamp, why, now),
        None => is_due_for_other(file, now, env),
    };
    if is_due {
        statistics.count_refusal();
        log_refused_file(alloc, file, now, env);
    }
}

/// Notes that a file is not loaded because of another one, if it has changed. If it is again as it was loaded, its refusal ends. Returns
/// whether a refusal is reported now.
fn is_due_for_other<W: Disk + EventLog>(file: &mut WatchedFile, now: u64, env: &mut W) -> bool
    ensures loads { SameLoad file.old file.new }
    ensures refusals { NotesSo IsNotOfBytes file.old file.new }
{
    match env.stamp(file.path.as_str()) {
        Err(_) => false,
        Ok(stamp) if !file.was_loaded(stamp) => {
            file.refusals.add(Some(stamp), Refusal::OtherSlurm, now)
        }
        Ok(_) => {
            end_refusal(file, now, env);
            false
        }
    }
}

/// A file is again as it was loaded: its refusal ends, and that is reported if the refusal was.
fn end_refusal<W: EventLog>(file: &mut WatchedFile, now: u64, env: &mut W)
    ensures loads { SameLoad file.old file.new }
    ensures refusals { file.new.refusals.last ≡ None }
{
    if file.refusals.clear() {
        log_taken(file, now, env);
    }
}
