//! The refusals of a source, and when they are reported.
ghost use Rattle.std.specs.Prelude.{◌≡◌, None, true, Some, is_some};
ghost use Rattle.rtr_daemon.specs.Files.{RefusesBytes};
ghost use Rattle.rtr_daemon.specs.Statuses.{is_reported};

use crate::environment::Stamp;
use crate::refusal::{Refusal, RefusalKind};

/// How many polls in a row may refuse a source that changes each time before that is reported.
const UNREPORTED: u8 = 2;

/// The last refusal: the source's stamp, if there was one, and the reason.
#[derive(Debug, Drop)]
struct Refused {
    stamp: Option<Stamp>,
    why: Refusal,
}

impl Refused {
    /// Whether the source had this stamp.
    fn has(&self, stamp: Stamp) -> bool
        ensures { result ≡ true → self.now.stamp ≡ Some stamp }
    {
        match &self.stamp {
            Some(refused) => refused.is(&stamp),
            None => false,
        }
    }
}

/// The refusals of a source since it was last loaded.
#[derive(Debug, Drop)]
pub(crate) struct Refusals {
    last: Option<Refused>,
    /// How many polls in a row refused it. The count saturates.
    looks: u8,
    /// The kind of the refusal that was reported last.
    reported: Option<RefusalKind>,
    /// When the first refusal was reported, in seconds since 1970.
    reported_at: Option<u64>,
}

impl Refusals {
    /// No refusal yet.
    pub(crate) fn none() -> Refusals
        ensures { result.last ≡ None }
    {
        Refusals {
            last: None,
            looks: 0,
            reported: None,
            reported_at: None,
        }
    }

    /// The source was loaded. It returns whether a refusal was reported before.
    pub(crate) fn clear(&mut self) -> bool
        ensures { self.new.last ≡ None }
    {
        let was_reported = self.reported_at.is_some();
        self.last = None;
        self.looks = 0;
        self.reported = None;
        self.reported_at = None;
        was_reported
    }

    /// The source is refused, with this stamp. It returns whether that is reported: if the last refusal had the same stamp, or too many polls in
    /// a row refused it. Until the source is loaded, the next refusal is reported only if its reason is of another kind.
    pub(crate) fn add(&mut self, stamp: Option<Stamp>, why: Refusal, now: u64) -> bool
        ensures { self.new.last ≡ Some (record { stamp = stamp; why = why }) }
    {
        let is_same = self.is_of(stamp);
        let is_due = is_same || self.looks >= UNREPORTED;
        self.last = Some(Refused { stamp, why });
        self.looks = self.looks.saturating_add(1);
        is_due && self.mark_reported(now)
    }

    /// Marks the last refusal as reported. It returns false if the refusal that was reported before is of the same kind.
    pub(crate) fn mark_reported(&mut self, now: u64) -> bool
        ensures { self.new.last ≡ self.old.last }
    {
        let kind = self.last().map(|refusal| refusal.kind());
        if self.reported_at.is_some() && self.reported == kind {
            return false;
        }
        self.reported = kind;
        self.reported_at = self.reported_at.or(Some(now));
        true
    }

    /// Whether the last refusal had this stamp.
    fn is_of(&self, stamp: Option<Stamp>) -> bool {
        match &self.last {
            Some(refused) => refused.stamp == stamp,
            None => false,
        }
    }

    /// Whether the file need not be read: its own bytes were refused with this stamp. If it was refused because of another file, or because memory
    /// ran out, it is read again.
    pub(crate) fn is_known(&self, stamp: Stamp) -> bool
        ensures { result ≡ true → RefusesBytes self.now.last stamp }
    {
        match &self.last {
            Some(refused) => refused.has(stamp) && refused.why.is_of_bytes(),
            None => false,
        }
    }

    /// Why the source was refused last.
    pub(crate) fn last(&self) -> Option<&Refusal>
        ensures { is_some result ≡ is_some self.now.last }
    {
        match &self.last {
            Some(refused) => Some(&refused.why),
            None => None,
        }
    }

    /// Why the source was refused last, if a refusal was reported since the source was last loaded.
    pub(crate) fn reported(&self) -> Option<&Refusal>
        ensures { is_some result ≡ is_reported self.now }
    {
        if self.reported_at.is_some() {
            return self.last();
        }
        None
    }

    /// When the refusal that lasts was reported, in seconds since 1970.
    pub(crate) fn reported_at(&self) -> Option<u64>
        ensures { result ≡ self.now.reported_at }
    {
        self.reported_at
    }
}
