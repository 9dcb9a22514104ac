//! Dropping versions that could not be replaced in time.
ghost use Rattle.std.specs.Prelude.{◌≡◌, ◌⊎◌};
ghost use Rattle.rtr_daemon.specs.Due.{DropsIfLate, OnlyClients, OnlyServed, drop_time};
ghost use Rattle.rtr_daemon.specs.Known.{NoClients};
ghost use Rattle.rtr_daemon.specs.Serving.{Continues, Drops};

use crate::daemon::Daemon;
use crate::environment::{EventLog, Time};
use crate::set_changes::StepStore;
use event_log::LogEvent;
use rtr_server::Stream;

/// What the log says of versions that are dropped.
const DROPPED: &str =
    "it has failed for --expire: the versions are dropped, and routers get No Data Available";

impl<S: StepStore + Drop, T: Stream + Drop> Daemon<S, T> {
    /// Drops all versions, if publication has failed for the Expire Interval (RFC 8210 section 6): a router that asks would otherwise begin that
    /// interval again with data that have expired. All clients are closed. Until a version is published, routers get No Data Available.
    pub(crate) fn drop_if_failing<W: Time + EventLog>(&mut self, env: &mut W)
        ensures { DropsIfLate W.can_tick S.holds T.remaining T.contents self.old self.new }
    {
        let Some(since) = self.failing else {
            return;
        };
        let now = env.millis();
        if now.saturating_sub(since) < self.service.settings.expire_millis() {
            return;
        }
        if let Some(_served) = self.service.server().current() {
            self.drop_versions(env);
        }
    }

    /// When versions are dropped at the latest if publication has failed since a time, in milliseconds of the monotonic clock.
    pub(crate) fn drop_time(&self, since: u64) -> u64
        ensures { result ≡ drop_time since self.now }
    {
        let end = since.saturating_add(self.service.settings.expire_millis());
        end.max(self.next_round)
    }

    /// Closes all clients, and drops all versions. Without memory for a new cache the versions stay.
    fn drop_versions<W: Time + EventLog>(&mut self, env: &mut W)
        ensures goes { Continues S.holds T.remaining T.contents self.old.service self.new.service ⊎ Drops S.holds T.remaining T.contents self.old.service self.new.service }
        ensures clients { NoClients self.new.clients }
        ensures rest { OnlyServed self.old self.new }
    {
        self.close_all(env);
        let now = env.seconds();
        match self.service.begin_anew(self.alloc) {
            Ok(()) => self.note_dropped(now, env),
            Err(_) => env.log(
                now,
                &LogEvent::Memory {
                    what: "an empty cache",
                },
            ),
        }
    }

    /// Closes all clients.
    fn close_all<W: Time + EventLog>(&mut self, env: &mut W)
        ensures goes { Continues S.holds T.remaining T.contents self.old.service self.new.service }
        ensures clients { NoClients self.new.clients }
        ensures only { OnlyClients self.old self.new }
        ensures failure { self.new.statistics.failure ≡ self.old.statistics.failure }
        ensures queue { self.new.clients.queue ≡ self.old.clients.queue }
    {
        let mut at = self.clients.first();
        while let Some(token) = at {
            self.drop_connection(token, "no-data", env);
            at = self.clients.first_after(token);
        }
    }

    /// Reports that the versions were dropped, and counts none from then on.
    fn note_dropped<W: EventLog>(&mut self, now: u64, env: &mut W)
        ensures rest { self.new ≡ record self.old { statistics = self.new.statistics } }
        ensures failure { self.new.statistics.failure ≡ self.old.statistics.failure }
    {
        if self.statistics.drop_versions(now).is_err() {
            let what = "the sizes of the last versions";
            env.log(now, &LogEvent::Memory { what });
        }
        let what = "publication";
        env.log(
            now,
            &LogEvent::Failed {
                what,
                reason: DROPPED,
            },
        );
    }
}
