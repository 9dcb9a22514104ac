//! When something is due at an upstream (RFC 8210 sections 5.1, 6 and 8).
ghost use Rattle.std.specs.Prelude.{◌≡◌, List, option_map};
ghost use Rattle.rtr_ends.specs.Router as model;
ghost use Rattle.rtr_ends.specs.Transcript.{kept};
ghost use Rattle.rtr_server.specs.Clients.{Begun};
ghost use Rattle.upstreams.specs.Notes.{asked_at};
ghost use Rattle.upstreams.specs.Upstreams.{LedTo, answer_due, attempt_at, attempt_due, early_due, end_due, expiry_of, is_overdue, is_past};
ghost use Rattle.upstreams.specs.Upstreams.{is_stalled, lost_at, next_due, question_due, refresh_due, second_after, soonest};

use crate::connection::DisconnectReason;
use crate::notes::{has_ended, is_asking, is_closed, is_idle};
use crate::upstream::Upstream;
use rtr_server::Stream;

impl<T: Stream + Drop> Upstream<T> {
    /// When something is due next, in seconds of the caller's clock: call `tick` then, and connect if there is still no connection. `None`: nothing is
    /// due until another call. It is the first of these:
    ///
    /// - Without a connection, when to connect: 0 (at once) if none was made yet, or if the cache's session changed on the latest one (RFC 8210
    ///   section 5.1). Otherwise after the retry interval, or before the data expire.
    /// - On an idle link, when to send a query: after the refresh or retry interval, or when half of the expire interval has passed since the commit. So
    ///   data are asked for before they expire (section 6).
    /// - With a query outstanding, when the connection is dropped: `stall` seconds after the last byte, or after the query if none came, and at the
    ///   limit of an answer.
    /// - If the link has ended, 0 (at once).
    /// - When the data expire.
    pub fn next_due(&self) -> Option<u64>
        ensures { LedTo T.remaining T.contents self.now (λ calls. result ≡ next_due self.now.stall self.now.answer_limit calls) }
    {
        let waits = soonest(self.answer_due(), self.question_due());
        let ends = soonest(self.attempt_due(), self.end_due());
        soonest(waits, soonest(ends, self.expires_at()))
    }

    /// When the connection is dropped if the query has no answer.
    fn answer_due(&self) -> Option<u64>
        ensures { LedTo T.remaining T.contents self.now (λ calls. result ≡ answer_due self.now.stall self.now.answer_limit calls) }
    {
        if !is_asking(&self.router) {
            return None;
        }
        let notes = self.notes();
        let silence = notes.heard_at.saturating_add(self.stall);
        Some(silence.min(notes.asked_at.saturating_add(self.answer_limit)))
    }

    /// When an idle link sends a query.
    pub(crate) fn question_due(&self) -> Option<u64>
        ensures { LedTo T.remaining T.contents self.now (λ calls. result ≡ question_due calls) }
    {
        if is_idle(&self.router) {
            return self.refresh_due();
        }
        None
    }

    /// When to connect.
    fn attempt_due(&self) -> Option<u64>
        ensures { LedTo T.remaining T.contents self.now (λ calls. result ≡ attempt_due calls) }
    {
        if is_closed(&self.router) {
            return Some(self.attempt_at());
        }
        None
    }

    /// When to connect if there is no connection.
    fn attempt_at(&self) -> u64
        ensures { LedTo T.remaining T.contents self.now (λ calls. result ≡ attempt_at calls) }
    {
        if self.notes().flushed {
            return 0;
        }
        if self.asks_for_version_0() {
            return 0;
        }
        self.refresh_due().unwrap_or(0)
    }

    /// When a link that has ended is closed.
    fn end_due(&self) -> Option<u64>
        ensures { LedTo T.remaining T.contents self.now (λ calls. result ≡ end_due calls) }
    {
        if has_ended(&self.router) {
            return Some(0);
        }
        None
    }

    /// When the cache is asked again.
    fn refresh_due(&self) -> Option<u64>
        ensures { LedTo T.remaining T.contents self.now (λ calls. result ≡ refresh_due calls) }
    {
        soonest(self.router.due(), self.early_due())
    }

    /// When the cache is asked again because the data will expire.
    fn early_due(&self) -> Option<u64>
        ensures { LedTo T.remaining T.contents self.now (λ calls. result ≡ early_due (kept (model.played calls).items).version (asked_at calls)) }
    {
        match self.router.committed_version() {
            None => None,
            Some(version) => {
                let half = version.moment.saturating_add(u64::from(version.expire) / 2);
                if self.notes().asked_at < half {
                    return Some(half);
                }
                None
            }
        }
    }

    /// Returns whether the second of `next_due` has come at second `now`. `false`: it is later, or `next_due` is `None`. Both are of the caller's
    /// clock.
    pub fn is_due(&self, now: u64) -> bool
        ensures { LedTo T.remaining T.contents self.now (λ calls. result ≡ is_past (next_due self.now.stall self.now.answer_limit calls) now) }
    {
        is_past(self.next_due(), now)
    }

    /// Returns whether, at second `now` of the caller's clock, a query is outstanding and no byte came for `stall` seconds. If so, a `tick` at that
    /// second drops the connection. This call drops nothing.
    pub fn is_stalled(&self, now: u64) -> bool
        ensures { LedTo T.remaining T.contents self.now (λ calls. result ≡ is_stalled self.now.stall now calls) }
    {
        is_asking(&self.router)
            && is_past(Some(self.notes().heard_at.saturating_add(self.stall)), now)
    }

    /// Returns whether, at second `now` of the caller's clock, a query is outstanding since the limit of an answer. If so, a `tick` at that second
    /// drops the connection. This call drops nothing.
    pub fn is_overdue(&self, now: u64) -> bool
        ensures { LedTo T.remaining T.contents self.now (λ calls. result ≡ is_overdue self.now.answer_limit now calls) }
    {
        is_asking(&self.router)
            && is_past(
                Some(self.notes().asked_at.saturating_add(self.answer_limit)),
                now,
            )
    }

    /// Why the connection is lost at this time, if it is.
    pub(crate) fn lost_at(&self, now: u64) -> Option<DisconnectReason>
        ensures { LedTo T.remaining T.contents self.now (λ calls. result ≡ lost_at self.now.stall self.now.answer_limit now calls) }
    {
        if self.is_stalled(now) {
            return Some(DisconnectReason::Stalled);
        }
        if self.is_overdue(now) {
            return Some(DisconnectReason::TimedOut);
        }
        None
    }

    /// When the committed data expires unless new data is committed, in seconds of the caller's clock (RFC 8210 section 6). It is the first second at which
    /// more than the expire interval has passed since the commit. A `tick` at that second drops the data. `None`: nothing is committed, or the clock
    /// never comes so far.
    pub fn expires_at(&self) -> Option<u64>
        ensures { LedTo T.remaining T.contents self.now (λ calls. result ≡ expiry_of (kept (model.played calls).items).version) }
    {
        match self.router.committed_version() {
            None => None,
            Some(version) => second_after(version.moment.saturating_add(u64::from(version.expire))),
        }
    }
}

/// The first of two times, if there is any.
fn soonest(one: Option<u64>, other: Option<u64>) -> Option<u64>
    ensures { result ≡ soonest one other }
{
    match one {
        None => other,
        Some(first) => match other {
            None => Some(first),
            Some(second) => Some(first.min(second)),
        },
    }
}

/// The second after this one, if the clock has it.
fn second_after(last: u64) -> Option<u64>
    ensures { result ≡ second_after last }
{
    if last < u64::MAX {
        return Some(last + 1);
    }
    None
}

/// Whether it is this time or later.
pub(crate) fn is_past(due: Option<u64>, now: u64) -> bool
    ensures { result ≡ is_past due now }
{
    match due {
        Some(at) => at <= now,
        None => false,
    }
}
