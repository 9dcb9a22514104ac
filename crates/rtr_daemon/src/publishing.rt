//! Publishing a pending version, and what is noted of it.
ghost use Rattle.std.specs.Prelude.{◌≡◌, IfErr, IfOk, None};
ghost use Rattle.rtr_daemon.specs.Due.{FailureNoted, HasNoFailure, IsReadyAfter, KeepsFiles, NextAfter, NextPoll, OnlyNotes, PublishesIfDue, WakesIfPublished};
ghost use Rattle.rtr_daemon.specs.Known.{SameClients};
ghost use Rattle.rtr_daemon.specs.Queue.{QueuesBehind, WakesIfNew};
ghost use Rattle.rtr_daemon.specs.Serving.{GoesOn, IsFresh};

use crate::daemon::Daemon;
use crate::environment::{EventLog, Time};
use crate::refusal::Refusal;
use crate::set_changes::StepStore;
use crate::versions::PublishReport;
use event_log::{LogEvent, Publication};
use rtr_server::Stream;
use std::alloc::Global;
use vrps::{Published, Serial};

impl<S: StepStore + Drop, T: Stream + Drop> Daemon<S, T> {
    /// Publishes a pending version, if the last version is of an earlier second. Then it logs why the daemon is not well, as far as that has changed.
    pub(crate) fn publish_and_judge<W: Time + EventLog>(&mut self, env: &mut W)
        ensures goes { GoesOn W.can_be S.holds T.remaining T.contents self.old.service self.new.service }
        ensures wakes { WakesIfPublished self.old self.new }
        ensures due { PublishesIfDue W.can_be W.can_tick self.old.held_until self.old self.new }
        ensures fresh { IsFresh W.can_be self.old.service → IsFresh W.can_be self.new.service }
        ensures round { self.new.next_round ≡ self.old.next_round }
        ensures kept { KeepsFiles self.old self.new }
        ensures next { NextPoll W.can_tick self.old.next_check self.old self.new }
        ensures clients { SameClients self.old.clients self.new.clients }
        ensures readings { self.new.readings ≡ self.old.readings }
        ensures queue { QueuesBehind self.old.clients.queue.items self.new.clients }
    {
        self.publish_pending(env);
        self.judge_state(env);
    }

    /// Publishes a pending version, if the last version is of an earlier second.
    fn publish_pending<W: Time + EventLog>(&mut self, env: &mut W)
        ensures goes { GoesOn W.can_be S.holds T.remaining T.contents self.old.service self.new.service }
        ensures wakes { WakesIfPublished self.old self.new }
        ensures due { PublishesIfDue W.can_be W.can_tick self.old.held_until self.old self.new }
        ensures fresh { IsFresh W.can_be self.old.service → IsFresh W.can_be self.new.service }
        ensures round { self.new.next_round ≡ self.old.next_round }
        ensures kept { KeepsFiles self.old self.new }
        ensures next { NextPoll W.can_tick self.old.next_check self.old self.new }
        ensures clients { SameClients self.old.clients self.new.clients }
        ensures readings { self.new.readings ≡ self.old.readings }
        ensures queue { QueuesBehind self.old.clients.queue.items self.new.clients }
    {
        let now = env.seconds();
        if !self.service.is_pending() {
            self.end_failure();
            return;
        }
        let began = env.millis();
        if began < self.held_until {
            return;
        }
        let second = self.paced(began);
        match self.service.publish_paced(now, second) {
            None => {}
            Some(tried) => self.note_tried(tried, now, began, env),
        }
    }

    /// Publication does not fail any longer.
    fn end_failure(&mut self)
        ensures { self.new ≡ record self.old { failing = None; statistics = record self.old.statistics { failure = None } } }
    {
        self.failing = None;
        self.statistics.end_failure();
    }

    /// Notes that a publication succeeded or failed.
    fn note_tried<W: Time + EventLog>(
        &mut self,
        tried: Result<PublishReport, Refusal>,
        now: u64,
        began: u64,
        env: &mut W,
    )
        ensures rest { OnlyNotes self.old self.new }
        ensures failed { IfErr tried (λ refusal. FailureNoted refusal began self.old self.new) }
        ensures published { IfOk tried (λ _. HasNoFailure self.new) }
        ensures later { IfOk tried (λ report. NextAfter W.can_tick began report.published self.old self.new) }
        ensures same { IfErr tried (λ _. self.new.next_check ≡ self.old.next_check) }
        ensures ready { IfOk tried (λ report. IsReadyAfter report.published self.old.is_ready self.new.is_ready) }
        ensures unready { IfErr tried (λ _. self.new.is_ready ≡ self.old.is_ready) }
        ensures wakes { IfOk tried (λ report. WakesIfNew report.published self.old.clients self.new.clients) }
        ensures clients { SameClients self.old.clients self.new.clients }
        ensures queue { QueuesBehind self.old.clients.queue.items self.new.clients }
    {
        match tried {
            Ok(report) => self.note_published(report, now, began, env),
            Err(refusal) => self.note_failure(refusal, now, began, env),
        }
    }

    /// Notes what was published. If it is a new version, all routers are notified, and the next poll of the files is one interval later. So two
    /// notifies are at least that far apart (RFC 8210 section 8.2).
    fn note_published<W: Time + EventLog>(
        &mut self,
        report: PublishReport,
        now: u64,
        began: u64,
        env: &mut W,
    )
        ensures rest { OnlyNotes self.old self.new }
        ensures done { HasNoFailure self.new }
        ensures ready { IsReadyAfter report.published self.old.is_ready self.new.is_ready }
        ensures later { NextAfter W.can_tick began report.published self.old self.new }
        ensures wakes { WakesIfNew report.published self.old.clients self.new.clients }
        ensures clients { SameClients self.old.clients self.new.clients }
        ensures queue { QueuesBehind self.old.clients.queue.items self.new.clients }
    {
        self.end_failure();
        self.statistics.given = report.given;
        self.note_left_out(report.left_out, now, env);
        let Published::New(serial) = report.published else {
            return;
        };
        self.note_version(serial, report, now, env);
        self.clients.wake_all();
        let ended = env.millis().max(began);
        self.next_check = ended.saturating_add(self.plan.check);
        let milliseconds = ended.saturating_sub(began);
        env.log(
            now,
            &LogEvent::Published(Publication {
                session: self.session_ids.session,
                serial: serial.0,
                announced: report.announced,
                withdrawn: report.withdrawn,
                records: report.records,
                milliseconds,
            }),
        );
        if !self.is_ready {
            self.is_ready = true;
            env.log(now, &LogEvent::Ready);
        }
    }

    /// Reports how many records are left out, if the number has changed.
    fn note_left_out<W: EventLog>(&mut self, records: u64, now: u64, env: &mut W)
        ensures { self.new ≡ record self.old { statistics = record self.old.statistics { left_out = records } } }
    {
        if self.statistics.set_left_out(records) {
            env.log(now, &LogEvent::LeftOut { records });
        }
    }

    /// Adds a version to the statistics.
    fn note_version<W: EventLog>(
        &mut self,
        serial: Serial,
        report: PublishReport,
        now: u64,
        env: &mut W,
    )
        ensures rest { self.new ≡ record self.old { statistics = self.new.statistics } }
        ensures failure { self.new.statistics.failure ≡ self.old.statistics.failure }
    {
        if self.statistics.add_version(serial.0, now, report).is_err() {
            let what = "the sizes of the last versions";
            env.log(now, &LogEvent::Memory { what });
        }
    }

    /// Reports that publication failed. It is tried again at the next poll of the files.
    fn note_failure<W: EventLog>(&mut self, refusal: Refusal, now: u64, began: u64, env: &mut W)
        ensures rest { OnlyNotes self.old self.new }
        ensures noted { FailureNoted refusal began self.old self.new }
        ensures same { self.new.next_check ≡ self.old.next_check }
        ensures ready { self.new.is_ready ≡ self.old.is_ready }
        ensures clients { self.new.clients ≡ self.old.clients }
    {
        self.held_until = self.next_check;
        self.failing = Some(self.failing.unwrap_or(began));
        log_failure(self.alloc, &refusal, now, env);
        self.statistics.note_failure(refusal, now);
    }
}

/// Reports why no version could be published.
fn log_failure<W: EventLog>(alloc: Global, refusal: &Refusal, now: u64, env: &mut W) {
    let what = "publication";
    match refusal.to_string(alloc) {
        Ok(reason) => env.log(
            now,
            &LogEvent::Failed {
                what,
                reason: reason.as_str(),
            },
        ),
        Err(_) => env.log(now, &LogEvent::Memory { what }),
    }
}
