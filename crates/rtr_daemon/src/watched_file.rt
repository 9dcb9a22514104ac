//! Watched files.
ghost use Rattle.std.specs.Prelude.{◌≡◌, ◌⊎◌, ◌↔◌, None, Some, true, false, IfErr, IfOk, IsTrue};
ghost use Rattle.rtr_daemon.specs.Ages.{file_time, modified_by};
ghost use Rattle.rtr_daemon.specs.Calls.{near_limit, slow_after};
ghost use Rattle.rtr_daemon.specs.Shrinking.{since_after};
ghost use Rattle.rtr_daemon.specs.DiskAnswers.{FileFails, ReadsWhole};
ghost use Rattle.rtr_daemon.specs.Statuses.{all_expired};
ghost use Rattle.rtr_daemon.specs.Files.{ChangesWhileRead, IsKnown, IsNotAhead, IsStateNow, IsStateOf, Looks, ReadsAfter, WasLoaded, path_of};

use crate::anchor_peaks::AnchorPeaks;
use crate::environment::{Disk, Stamp};
use crate::refusal::Refusal;
use crate::refusals::Refusals;
use slurm::Ignored;
use sources::TakeFault;
use status_pages::SlowCall;
use std::alloc::Global;
use std::io;

/// A call of the system that lasts longer than this is slow, in milliseconds.
const SLOW: u64 = 5000;

/// A file, and what was last read of it.
#[derive(Debug, Drop)]
pub(crate) struct WatchedFile {
    pub(crate) path: String,
    /// Its stamp when it was last loaded.
    loaded: Option<Stamp>,
    /// When it was last loaded, in seconds since 1970.
    pub(crate) loaded_at: Option<u64>,
    pub(crate) refusals: Refusals,
    /// How many of its entries are not applied, as was reported last, if it has local exceptions.
    not_applied: Ignored,
    /// The last call of the system on it that was slow.
    pub(crate) slow: Option<SlowCall>,
}

/// The state of a file, by its stamp.
#[derive(Clone, Copy, Debug, PartialEq, Eq)]
pub(crate) enum FileState {
    /// It has not changed since it was loaded.
    Unchanged,
    /// Its stamp is that of the last refusal.
    RefusedBefore,
    /// It has changed, or it cannot be read.
    New,
}

/// The result of a look at a file.
#[derive(Debug, Drop)]
pub(crate) enum Look {
    /// It has not changed.
    Unchanged,
    /// It changed while it was read.
    Unstable,
    /// Its stamp is that of the last refusal.
    RefusedBefore,
    /// It has this stamp and this content.
    Read(Stamp, Vec<u8>),
    /// It cannot be read.
    Failed(io::Error),
}

impl WatchedFile {
    pub(crate) fn new(path: String) -> WatchedFile
        ensures path { result.path ≡ path }
        ensures refusals { result.refusals.last ≡ None }
    {
        WatchedFile {
            path,
            loaded: None,
            loaded_at: None,
            refusals: Refusals::none(),
            not_applied: Ignored {
                bgpsec_filters: 0,
                bgpsec_assertions: 0,
            },
            slow: None,
        }
    }

    /// Notes the duration of the longest call of the system on it, in milliseconds, if that is slow.
    pub(crate) fn note_slow(&mut self, millis: u64, now: u64)
        ensures { self.new ≡ record self.old { slow = slow_after millis now self.old.slow } }
    {
        self.slow = slow_after(millis, now, self.slow);
    }

    /// Its size in bytes when it was loaded last, if that is more than three quarters of this limit.
    pub(crate) fn near_limit(&self, limit: u64) -> Option<u64>
        ensures { result ≡ near_limit limit self.now.loaded }
    {
        let stamp = self.loaded?;
        if stamp.len > limit.saturating_sub(limit / 4) {
            Some(stamp.len)
        } else {
            None
        }
    }

    /// Notes how many of its entries are not applied, and returns whether that is another number than before.
    pub(crate) fn set_not_applied(&mut self, count: Ignored) -> bool
        ensures noted { self.new ≡ record self.old { not_applied = count } }
        ensures news { IsTrue result ↔ (¬ (self.old.not_applied ≡ count)) }
    {
        let before = self.not_applied;
        let is_news = before.bgpsec_filters != count.bgpsec_filters
            || before.bgpsec_assertions != count.bgpsec_assertions;
        self.not_applied = count;
        is_news
    }

    /// Reads the file if its stamp has changed. With `anew` it is read even if its stamp is unchanged. A file that changes while it is read is
    /// tried again at the next poll.
    pub(crate) fn look<W: Disk>(&self, env: &mut W, anew: bool) -> Look
        ensures { Looks W.answers self.now anew result }
    {
        let before = match env.stamp(self.path.as_str()) {
            Ok(stamp) => stamp,
            Err(error) => return Look::Failed(error),
        };
        match self.state_of(before) {
            FileState::Unchanged if !anew => Look::Unchanged,
            FileState::RefusedBefore => Look::RefusedBefore,
            _ => self.read(env, before),
        }
    }

    /// Reads the file, whose stamp was this one just now.
    fn read<W: Disk>(&self, env: &mut W, before: Stamp) -> Look
        ensures { ReadsAfter W.answers env.old before (path_of self.now) result }
    {
        let bytes = match env.read(self.path.as_str()) {
            Ok(bytes) => bytes,
            Err(error) => return Look::Failed(error),
        };
        match env.stamp(self.path.as_str()) {
            Ok(after) if after.is(&before) => Look::Read(before, bytes),
            Ok(_) => Look::Unstable,
            Err(error) => Look::Failed(error),
        }
    }

    /// Reads the file, even if it has not changed.
    pub(crate) fn content<W: Disk>(&self, env: &mut W) -> Result<(Stamp, Vec<u8>), Refusal>
        ensures reads { IfOk result (λ read. ReadsWhole W.answers (path_of self.now) read.0 read.1.items) }
        ensures fails { IfErr result (λ _. ChangesWhileRead W.answers (path_of self.now) ⊎ FileFails W.answers (path_of self.now)) }
    {
        let before = match env.stamp(self.path.as_str()) {
            Ok(stamp) => stamp,
            Err(error) => return Err(Refusal::Device(error)),
        };
        match self.read(env, before) {
            Look::Read(stamp, bytes) => Ok((stamp, bytes)),
            Look::Failed(error) => Err(Refusal::Device(error)),
            _ => Err(Refusal::Changing),
        }
    }

    /// The state of the file now.
    pub(crate) fn state<W: Disk>(&self, env: &mut W) -> FileState
        ensures { IsStateNow W.answers self.now result }
    {
        match env.stamp(self.path.as_str()) {
            Ok(stamp) => self.state_of(stamp),
            Err(_) => FileState::New,
        }
    }

    /// Whether the file has changed since it was loaded or refused last, or cannot be read.
    pub(crate) fn is_new<W: Disk>(&self, env: &mut W) -> bool
        ensures { result ≡ false → IsKnown W.answers self.now }
    {
        match self.state(env) {
            FileState::New => true,
            FileState::Unchanged => false,
            FileState::RefusedBefore => false,
        }
    }

    /// The state of the file, if it has this stamp.
    fn state_of(&self, stamp: Stamp) -> FileState
        ensures { IsStateOf self.now stamp result }
    {
        if self.was_loaded(stamp) {
            FileState::Unchanged
        } else if self.refusals.is_known(stamp) {
            FileState::RefusedBefore
        } else {
            FileState::New
        }
    }

    /// Whether it was last loaded with this stamp.
    pub(crate) fn was_loaded(&self, stamp: Stamp) -> bool
        ensures { result ≡ true → WasLoaded self.now stamp }
    {
        match &self.loaded {
            Some(loaded) => loaded.is(&stamp),
            None => false,
        }
    }

    /// It was loaded with this stamp. Returns whether a refusal was reported before.
    pub(crate) fn set_loaded(&mut self, stamp: Stamp, now: u64) -> bool
        ensures loaded { WasLoaded self.new stamp }
        ensures at { self.new.loaded_at ≡ Some now }
        ensures refused { self.new.refusals.last ≡ None }
        ensures path { self.new.path ≡ self.old.path }
    {
        self.loaded = Some(stamp);
        self.loaded_at = Some(now);
        self.refusals.clear()
    }

    /// When its content was made, in seconds since 1970, as far as the file shows: its modification time when it was last loaded. If that is before
    /// 1970, or ahead of the clock of the load, the load counts.
    pub(crate) fn made_at(&self) -> Option<u64>
        ensures { result ≡ file_time self.now.loaded self.now.loaded_at }
    {
        let loaded_at = self.loaded_at?;
        match self.loaded {
            Some(stamp) => Some(modified_by(stamp.modified.0, loaded_at)),
            None => Some(loaded_at),
        }
    }

    /// Whether it was loaded after this second since 1970: the clock was set back since.
    pub(crate) fn is_loaded_after(&self, now: u64) -> bool
        ensures { result ≡ false → IsNotAhead self.now.loaded_at now }
    {
        match self.loaded_at {
            Some(at) => now < at,
            None => false,
        }
    }
}

/// The last slow call, after one of this many milliseconds.
pub(crate) fn slow_after(millis: u64, now: u64, before: Option<SlowCall>) -> Option<SlowCall>
    ensures { result ≡ slow_after millis now before }
{
    if millis > SLOW {
        return Some(SlowCall {
            milliseconds: millis,
            at: now,
        });
    }
    before
}

/// A modification time, in seconds since 1970, or the time of the load if it is not between 1970 and that.
fn modified_by(modified: i64, loaded_at: u64) -> u64
    ensures { result ≡ modified_by modified loaded_at }
{
    match u64::try_from(modified) {
        Ok(modified) => modified.min(loaded_at),
        Err(_) => loaded_at,
    }
}

/// The file of an export.
#[derive(Debug, Drop)]
pub(crate) struct WatchedExport {
    pub(crate) file: WatchedFile,
    /// Its index among the exports.
    pub(crate) number: usize,
    /// How many of its entries had expired when it was loaded.
    expired: u64,
    /// How many of its records have expired since, as of the last poll.
    pub(crate) expired_since: u64,
    /// Whether its data are old.
    pub(crate) is_old: bool,
    /// Since when its contents are refused as too short, in milliseconds of the monotonic clock, if they are.
    pub(crate) short_since: Option<u64>,
    /// How many VRPs its trust anchors had.
    pub(crate) anchors: AnchorPeaks,
}

impl WatchedExport {
    pub(crate) fn new(alloc: Global, path: String, number: usize) -> WatchedExport
        ensures number { result.number ≡ number }
        ensures path { result.file.path ≡ path }
    {
        WatchedExport {
            file: WatchedFile::new(path),
            number,
            expired: 0,
            expired_since: 0,
            is_old: false,
            short_since: None,
            anchors: AnchorPeaks::new(alloc),
        }
    }

    /// Its path.
    pub(crate) fn path(&self) -> &str {
        self.file.path.as_str()
    }

    /// It was loaded with this stamp, and this many of its entries had expired. Returns whether a refusal was reported before.
    pub(crate) fn set_loaded(&mut self, stamp: Stamp, now: u64, expired: u64) -> bool
        ensures loaded { WasLoaded self.new.file stamp }
        ensures at { self.new.file.loaded_at ≡ Some now }
        ensures expired { (self.new.expired ≡ expired) × (self.new.expired_since ≡ 0) }
        ensures refused { self.new.file.refusals.last ≡ None }
        ensures path { self.new.file.path ≡ self.old.file.path }
        ensures number { self.new.number ≡ self.old.number }
        ensures short { self.new.short_since ≡ self.old.short_since }
    {
        self.expired = expired;
        self.expired_since = 0;
        self.file.set_loaded(stamp, now)
    }

    /// Notes since when its contents are refused as too short, after a load at this time of the monotonic clock.
    pub(crate) fn note_short(&mut self, taken: &Result<u64, TakeFault>, millis: u64)
        ensures { self.new ≡ record self.old { short_since = since_after taken.now self.old.short_since millis } }
    {
        self.short_since = match taken {
            Ok(_) => None,
            Err(TakeFault::Shrank { .. }) => self.short_since.or(Some(millis)),
            Err(_) => self.short_since,
        };
    }

    /// It is as it was loaded. Returns whether a refusal was reported before.
    pub(crate) fn set_unchanged(&mut self) -> bool
        ensures loaded { self.new.file.loaded ≡ self.old.file.loaded }
        ensures at { self.new.file.loaded_at ≡ self.old.file.loaded_at }
        ensures refused { self.new.file.refusals.last ≡ None }
        ensures path { self.new.file.path ≡ self.old.file.path }
        ensures number { self.new.number ≡ self.old.number }
        ensures short { self.new.short_since ≡ None }
    {
        self.short_since = None;
        self.file.refusals.clear()
    }

    /// How many of its entries have expired, before it was loaded or since.
    pub(crate) fn all_expired(&self) -> u64
        ensures { result ≡ all_expired self.now }
    {
        self.expired.saturating_add(self.expired_since)
    }

    /// Notes whether its data are old, and returns whether that has changed.
    pub(crate) fn set_old(&mut self, is_old: bool) -> bool
        ensures { self.new ≡ record self.old { is_old = is_old } }
    {
        let is_news = self.is_old != is_old;
        self.is_old = is_old;
        is_news
    }
}
