//! The versions of a service: how they are published, and dropped.
ghost use Rattle.std.specs.Prelude.{◌≡◌, ◌⊎◌, false, true, IfErr, IfOk, IfSome, IsNone, OnErr, OnOk, ℕ};
ghost use Rattle.session_names.specs.Runs.{may_publish};
ghost use Rattle.rtr_server.specs.Clients.{Begun, Past, ShowsServer};
ghost use Rattle.rtr_daemon.specs.Serving.{Continues, Drops, EndsEmpty, GoesOn, IsOfSecond, IsReason, Issues, PacesSo, StaysFresh, new_past};

use crate::cache_settings::CacheSettings;
use crate::families::Families;
use crate::refusal::Refusal;
use crate::service::Service;
use crate::set_changes::{ChangeCounts, StepStore};
use rtr_ends::Cache;
use rtr_server::{Server, Stream};
use session_names::SessionIds;
use sources::ServedSet;
use std::alloc::{AllocError, Global};
use vrps::{Published, SetFault};

/// A server over a new cache without versions, of these sessions. Its first version has the serial of `ids`.
pub(crate) fn server_of<S: StepStore, T: Stream + Drop>(
    alloc: Global,
    settings: CacheSettings,
    ids: SessionIds,
) -> Result<Server<S, T>, AllocError>
    ensures { IfOk result (λ server. (begun : ℕ → Begun) → ShowsServer S.holds T.remaining T.contents (new_past settings ids.session ids.session0 ids.serial begun) server) }
{
    let store = S::empty(alloc, ids.session, ids.serial, settings.keep)?;
    let cache = Cache::new_both(alloc, store, ids.session0, settings.timing);
    Ok(Server::new(alloc, cache, settings.clients))
}

impl<S: StepStore, T: Stream + Drop> Service<S, T> {
    /// Publishes the set of the sources at `now`, in seconds since 1970. `Ok`: its counts, and no version is pending.
    /// `Err`: too many records, out of memory, or `now` is not within the years 1970 to 9999. Then the pending state and the served set stay.
    pub fn publish(&mut self, now: u64) -> Result<PublishReport, Refusal>
        ensures issues { IfOk result (λ report. Issues S.holds T.remaining T.contents now report.published self.old self.new) }
        ensures done { IfOk result (λ _. self.new.is_pending ≡ false) }
        ensures undone { IfErr result (λ _. self.new.is_pending ≡ self.old.is_pending) }
        ensures kept { IfErr result (λ _. (p : Past) → ShowsServer S.holds T.remaining T.contents p self.old.server → ShowsServer S.holds T.remaining T.contents p self.new.server) }
        ensures fails { IfErr result (λ _. Continues S.holds T.remaining T.contents self.old self.new) }
        ensures sources { self.new.sources ≡ self.old.sources }
        ensures pace { self.new.pace ≡ self.old.pace }
        ensures at { IfOk result (λ _. self.new.current_at ≡ now) }
        ensures points { self.new.has_points ≡ self.old.has_points }
        ensures settings { (self.new.settings ≡ self.old.settings) × (self.new.session0 ≡ self.old.session0) }
        ensures reason { IfErr result (λ refusal. IsReason now self.old.sources refusal) }
        ensures current { IfErr result (λ _. self.new.current_at ≡ self.old.current_at) }
    {
        let ServedSet {
            set,
            given,
            left_out,
        } = self.served(now)?;
        let records = set.len() as u64;
        let families = Families::of(&set);
        match self.server.publish(set) {
            Err(_) => Err(Refusal::Set(SetFault::Memory)),
            Ok(published) => {
                self.is_pending = false;
                self.families = families;
                self.current_at = now;
                let ChangeCounts {
                    announced,
                    withdrawn,
                } = self.counts_of(&published, records);
                Ok(PublishReport {
                    published,
                    announced,
                    withdrawn,
                    records,
                    given,
                    left_out,
                })
            }
        }
    }

    /// What a version that was published just now announces and withdraws.
    fn counts_of(&self, published: &Published, records: u64) -> ChangeCounts {
        match published {
            Published::Unchanged => ChangeCounts::none(),
            Published::New(_) => {
                ChangeCounts::of_version(self.server.version_store().newest_step(), records)
            }
        }
    }

    /// Publishes as [`Service::publish`] does, in this second of the pace. `None`: the last version is not of an earlier second, and nothing changes.
    pub(crate) fn publish_paced(
        &mut self,
        now: u64,
        second: u64,
    ) -> Option<Result<PublishReport, Refusal>>
        ensures goes { GoesOn (λ at. at ≡ now) S.holds T.remaining T.contents self.old self.new }
        ensures waits { IsNone result → may_publish self.old.pace second ≡ false }
        ensures same { IsNone result → self.new ≡ self.old }
        ensures kept { IfSome result (λ tried. IfErr tried (λ _. Continues S.holds T.remaining T.contents self.old self.new)) }
        ensures done { IfSome result (λ tried. IfOk tried (λ _. self.new.is_pending ≡ false)) }
        ensures fails { IfSome result (λ tried. IfErr tried (λ refusal. IsReason now self.old.sources refusal)) }
        ensures sources { self.new.sources ≡ self.old.sources }
        ensures settings { self.new.settings ≡ self.old.settings }
        ensures fresh { StaysFresh now self.old self.new }
        ensures pace { PacesSo result second self.old.pace self.new.pace }
    {
        if !self.pace.may_publish(second) {
            return None;
        }
        match self.publish(now) {
            Err(refusal) => Some(Err(refusal)),
            Ok(report) => {
                self.note_second(&report.published, second);
                Some(Ok(report))
            }
        }
    }

    /// A new version is of this second of the pace.
    fn note_second(&mut self, published: &Published, second: u64)
        ensures pace { IsOfSecond published.now second self.old.pace self.new.pace }
        ensures rest { self.new ≡ record self.old { pace = self.new.pace } }
    {
        if let Published::New(_serial) = published {
            self.pace.published(second);
        }
    }
}

impl<S: StepStore + Drop, T: Stream + Drop> Service<S, T> {
    /// Drops all versions and all clients, if there is a version: a cache without versions begins under the same sessions. It answers No Data
    /// Available until the next version is published, which has the serial after the last one. Without memory for it nothing changes.
    pub(crate) fn begin_anew(&mut self, alloc: Global) -> Result<(), AllocError>
        ensures drops { Continues S.holds T.remaining T.contents self.old self.new ⊎ Drops S.holds T.remaining T.contents self.old self.new }
        ensures emptied { OnOk result (EndsEmpty S.holds T.remaining T.contents self.old self.new) }
        ensures same { OnErr result (self.new ≡ self.old) }
        ensures pending { self.old.is_pending ≡ true → self.new.is_pending ≡ true }
        ensures rest { self.new ≡ record self.old { server = self.new.server; families = self.new.families; is_pending = self.new.is_pending } }
    {
        let Some((serial, _set)) = self.server.current() else {
            return Ok(());
        };
        let ids = SessionIds {
            session: self.server.version_store().session(),
            session0: self.session0,
            serial: serial.0.wrapping_add(1),
        };
        self.server = server_of(alloc, self.settings, ids)?;
        self.families = Families::none();
        self.is_pending = true;
        Ok(())
    }
}

/// The result and the counts of [`Service::publish`].
#[derive(Clone, Copy, Debug, PartialEq, Eq)]
pub struct PublishReport {
    /// `New` with the serial of the new version, or `Unchanged` if the set equals the current version.
    pub published: Published,
    /// The number of records that are new since the version before, or of all records of a first version. It is 0 if the set is unchanged.
    pub announced: u64,
    /// The number of records that are gone since the version before. It is 0 if the set is unchanged.
    pub withdrawn: u64,
    /// The number of records of the published set.
    pub records: u64,
    /// The number of VRPs of all sources together, before local exceptions are applied.
    pub given: u64,
    /// The number of records of prefix length 0 that are left out of the set.
    pub left_out: u64,
}
