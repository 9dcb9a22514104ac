//! The daemon: a loop that serves what is ready, and does what is due by the clock.
ghost use Rattle.std.specs.Prelude.{◌≡◌, ◌≤◌, ◌<◌, ℕ, IfErr, IfOk, Some, true, unwrap_or};
ghost use Rattle.rtr_daemon.specs.declared.daemon.StopReason.TheVariants.{Checked};
ghost use Rattle.rtr_daemon.specs.Accepting.{AreTriedBy};
ghost use Rattle.rtr_daemon.specs.Due.{DoesWhatIsDue, IsChecked, KeepsFiles, NextPoll, OnlyPolled, PollsAll, PublishesIfDue, SamePaths, TakesTurn, WakesIfPublished};
ghost use Rattle.rtr_daemon.specs.Due.{IsInTime, IsWait, drop_time, end_of};
ghost use Rattle.rtr_daemon.specs.Times.{later_by};
ghost use Rattle.rtr_daemon.specs.Queue.{QueuesBehind};
ghost use Rattle.rtr_daemon.specs.SocketCalls.{WaitFails};
ghost use Rattle.rtr_daemon.specs.Origins.{SourcesComeFrom};
ghost use Rattle.rtr_daemon.specs.Checking.{IsCheckReport, source_count};
ghost use Rattle.rtr_daemon.specs.Serving.{Advances, Continues, GoesOn, IsFresh, IsReason};
ghost use Rattle.rtr_daemon.specs.Closing.{ClosesClients, TriesBlocked, WakesFor};
ghost use Rattle.rtr_daemon.specs.Known.{known_at};
ghost use Rattle.rtr_daemon.specs.declared.client_entry.ClientEntry.{ClientEntry};

use crate::accepting::Listeners;
use crate::client_table::ClientTable;
use crate::environment::{Disk, EventLog, Sockets, Time};
use crate::families::Families;
use crate::losing::Readings;
use crate::point_polling::WatchedPoint;
use crate::refusal::Refusal;
use crate::service::Service;
use crate::set_changes::StepStore;
use crate::shrink_guard::ShrinkGuard;
use crate::statistics::Statistics;
use crate::unwell::UnwellReasons;
use crate::watched_file::{WatchedExport, WatchedFile};
use rtr_server::{Server, Stream};
use session_names::SessionIds;
use sources::ServedSet;
use std::alloc::Global;
use std::io;

/// The longest wait of a turn if something is due soon, in milliseconds.
const SOON: u64 = 1000;

/// The paths of the sources of a daemon.
#[derive(Debug, Drop)]
pub struct Paths {
    /// The paths of the validator exports. Each export is loaded from one file.
    pub files: Vec<String>,
    /// The paths of the files of local exceptions (SLURM). They are applied together (RFC 8416 section 4.2).
    pub slurms: Vec<String>,
    /// The paths of the directories that are publication points.
    pub points: Vec<String>,
}

/// The settings of a daemon.
#[derive(Clone, Copy, Debug, PartialEq, Eq)]
pub struct Plan {
    /// The interval between two polls of the sources, in milliseconds.
    pub check: u64,
    /// The write timeout, in milliseconds: a client is closed if bytes are due to it for this long and none could be written.
    pub stall: u64,
    /// The answer timeout, in milliseconds: a client is closed if an answer to it is not written whole within this time.
    pub slow: u64,
    /// The largest number of clients of one address at once. `None`: only the limit for all clients applies.
    pub clients_per_address: Option<u64>,
    /// Whether records of length 0, for 0.0.0.0/0 or ::/0, are left out.
    pub leaves_out_length_0: bool,
    /// The maximum age of an export, in seconds. An export is old if its age is greater. `None`: no export is old.
    pub max_age: Option<u64>,
    /// Whether the daemon stops if an export is older than `max_age`.
    pub stops_when_old: bool,
    /// The guard against exports that are far shorter than before. `None`: an export of any length is loaded.
    pub shrink: Option<ShrinkGuard>,
    /// The limit of a file's size, in bytes. The implementation of [`Disk`] enforces it. The daemon only warns of files near it.
    pub max_size: u64,
    /// Whether the daemon stops after one router: if a client is closed that had agreed on a protocol version.
    pub once: bool,
    /// The number of listeners for routers.
    pub listeners: usize,
}

/// The counts of what a daemon would publish. See [`Daemon::check_report`].
#[derive(Clone, Copy, Debug, PartialEq, Eq)]
pub struct CheckReport {
    /// The number of watched files (exports and local exceptions) and publication points.
    pub files: u64,
    /// The number of IPv4 records (VRPs) that would be served.
    pub ipv4: u64,
    /// The number of IPv6 records (VRPs) that would be served.
    pub ipv6: u64,
    /// The number of records of prefix length 0 that would be left out. It is 0 unless `Plan::leaves_out_length_0` is set.
    pub left_out: u64,
}

/// Why a daemon stops.
#[derive(Clone, Copy, Debug, PartialEq, Eq)]
pub enum StopReason {
    /// `Plan::once` is set, and a client that had agreed on a protocol version is closed.
    Once,
    /// `Plan::stops_when_old` is set, and an export is older than `Plan::max_age`.
    Old,
    /// The run only checks the configuration, and it is valid.
    Checked,
}

/// A running cache: its clients, its watched files, and its timers. Create it with [`Daemon::open`], then call [`Daemon::turn`] repeatedly.
#[derive(Debug, Drop)]
pub struct Daemon<S, T> {
    pub(crate) alloc: Global,
    pub(crate) plan: Plan,
    pub(crate) session_ids: SessionIds,
    pub(crate) service: Service<S, T>,
    pub(crate) clients: ClientTable,
    pub(crate) listeners: Listeners,
    pub(crate) readings: Readings,
    pub(crate) exports: Vec<WatchedExport>,
    pub(crate) slurms: Vec<WatchedFile>,
    pub(crate) points: Vec<WatchedPoint>,
    pub(crate) statistics: Statistics,
    /// When it was opened, in seconds since 1970.
    pub(crate) started: u64,
    /// When it was opened, in milliseconds of the monotonic clock.
    pub(crate) opened: u64,
    /// Whether a version was published.
    pub(crate) is_ready: bool,
    /// Whether a client was closed that had agreed on a version.
    pub(crate) has_parted: bool,
    /// Whether a client was closed since the listeners were asked last.
    pub(crate) has_closed: bool,
    /// Whether an export is older than the maximum age.
    pub(crate) is_old: bool,
    /// The reasons why it is not well, as they were logged last.
    pub(crate) unwell: UnwellReasons,
    /// How many seconds the clock was set back since the start, as was reported last.
    pub(crate) clock_behind: u64,
    /// When files are polled next, in milliseconds of the monotonic clock.
    pub(crate) next_check: u64,
    /// When blocked clients are checked next, and a pending version is published.
    pub(crate) next_round: u64,
    /// The earliest time of the next publication, after one failed.
    pub(crate) held_until: u64,
    /// Since when publication fails without a success in between, if it does.
    pub(crate) failing: Option<u64>,
}

impl<S: StepStore + Drop, T: Stream + Drop> Daemon<S, T> {
    /// Runs one turn: waits until something is ready or due, and handles it.
    /// If publication has failed for the Expire Interval, all versions are dropped before any client is served (RFC 8210 section 6).
    ///
    /// `Ok(None)`: call it again. `Ok(Some)`: the reason why the daemon stops. `Err`: the wait failed, and the daemon has not changed.
    pub fn turn<W: Sockets<T> + Disk + Time + EventLog>(
        &mut self,
        env: &mut W,
    ) -> io::Result<Option<StopReason>>
        ensures goes { Advances W.can_be S.holds T.remaining T.contents self.old.service self.new.service }
        ensures turn { IfOk result (λ _. TakesTurn W.answers W.calls W.reads W.can_be W.can_tick S.holds T.remaining T.contents T.answers env.old self.old self.new) }
        ensures comes { SourcesComeFrom W.answers W.can_be self.old → SourcesComeFrom W.answers W.can_be self.new }
        ensures ends { IfOk result (λ end. end ≡ end_of self.new) }
        ensures fails { IfErr result (λ _. WaitFails W.calls × (self.new ≡ self.old)) }
    {
        let wait = self.longest_wait(env.millis());
        env.wait(wait)?;
        self.take_ready(env);
        self.drop_if_failing(env);
        self.accept_pending(env);
        self.serve_all(env);
        self.do_what_is_due(env);
        Ok(self.end())
    }

    /// The longest wait of the next turn, in milliseconds: 0 if a client is queued, otherwise until something is due.
    fn longest_wait(&self, millis: u64) -> u64
        ensures { IsWait self.now millis result }
    {
        if !self.clients.is_idle() {
            return 0;
        }
        self.next_moment(millis).saturating_sub(millis)
    }

    /// When something is due next, in milliseconds of the monotonic clock.
    fn next_moment(&self, millis: u64) -> u64
        ensures { IsInTime self.now millis result }
    {
        self.next_check
            .min(self.next_of_clients())
            .min(self.next_of_pending(millis))
            .min(self.next_of_failure())
            .min(self.next_of_listeners())
    }

    /// When a pending version is published next, if one is pending and not held back: in the next round. Otherwise the end of time.
    fn next_of_pending(&self, millis: u64) -> u64
        ensures { self.now.service.is_pending ≡ true → self.now.held_until ≤ millis → result ≤ self.now.next_round }
    {
        if self.service.is_pending() && self.held_until <= millis {
            self.next_round
        } else {
            u64::MAX
        }
    }

    /// When versions are dropped, if publication fails. Otherwise the end of time.
    fn next_of_failure(&self) -> u64
        ensures { (since : ℕ) → self.now.failing ≡ Some since → result ≤ drop_time since self.now }
    {
        match self.failing {
            Some(since) => self.drop_time(since),
            None => u64::MAX,
        }
    }

    /// When a listener with a pending connection can be tried, if there is one. Otherwise the end of time.
    fn next_of_listeners(&self) -> u64
        ensures { self.now.is_ready ≡ true → AreTriedBy (Some result) self.now.listeners.listeners.items }
    {
        self.next_accept().unwrap_or(u64::MAX)
    }

    /// When something is due next for a client, in milliseconds of the monotonic clock: in a round.
    fn next_of_clients(&self) -> u64
        ensures { (token : ℕ) (entry : ClientEntry) → known_at self.now.clients token ≡ Some entry → WakesFor self.now.next_round self.now.readings result entry }
    {
        let waiting = self.clients.waiting();
        if waiting.blocked {
            return self.next_round;
        }
        let silent = waiting.silent_at.unwrap_or(u64::MAX);
        let next = self.next_reading(waiting.notified).min(silent);
        next.max(self.next_round)
    }

    /// When the system's tables of connections are read next, in milliseconds of the monotonic clock, if a client was notified.
    fn next_reading(&self, is_notified: bool) -> u64
        ensures { is_notified ≡ true → result ≡ self.now.readings.next }
    {
        if is_notified {
            self.readings.next
        } else {
            u64::MAX
        }
    }

    /// Does what is due by the clock.
    fn do_what_is_due<W: Sockets<T> + Disk + Time + EventLog>(&mut self, env: &mut W)
        ensures goes { GoesOn W.can_be S.holds T.remaining T.contents self.old.service self.new.service }
        ensures due { DoesWhatIsDue W.answers W.calls W.can_be W.can_tick self.old self.new }
    {
        let now = env.millis();
        self.check(now, env);
        self.go_round(now, env);
    }

    /// Polls the files, if they are due. Then a version is pending, or the newest one is the set of the sources at a second of this poll.
    fn check<W: Disk + Time + EventLog>(&mut self, now: u64, env: &mut W)
        ensures goes { Continues S.holds T.remaining T.contents self.old.service self.new.service }
        ensures fresh { self.old.next_check ≤ now → IsFresh W.can_be self.new.service }
        ensures polls { self.old.next_check ≤ now → PollsAll W.answers W.can_be W.can_tick self.old self.new }
        ensures paths { SamePaths self.old self.new }
        ensures times { IsChecked now self.old self.new }
    {
        if now < self.next_check {
            return;
        }
        self.next_check = now.saturating_add(self.plan.check);
        self.next_round = now;
        self.held_until = now;
        self.poll_all(now, env);
        self.judge_expiry(env);
    }

    /// Polls all files and publication points, and judges the clock and the ages of the exports.
    fn poll_all<W: Disk + Time + EventLog>(&mut self, now: u64, env: &mut W)
        ensures goes { Continues S.holds T.remaining T.contents self.old.service self.new.service }
        ensures polls { PollsAll W.answers W.can_be W.can_tick self.old self.new }
        ensures paths { SamePaths self.old self.new }
        ensures rest { OnlyPolled self.old self.new }
    {
        self.judge_clock(now, env);
        self.follow_all(env);
        self.follow_slurms(env);
        self.offer_all(env);
        self.judge_ages(env);
    }

    /// Closes overdue and lost clients, tries blocked ones, and publishes a pending version, once a second at most. After a new version the files are
    /// polled one interval later.
    fn go_round<W: Sockets<T> + Time + EventLog>(&mut self, now: u64, env: &mut W)
        ensures goes { GoesOn W.can_be S.holds T.remaining T.contents self.old.service self.new.service }
        ensures wakes { WakesIfPublished self.old self.new }
        ensures fresh { IsFresh W.can_be self.old.service → IsFresh W.can_be self.new.service }
        ensures due { self.old.next_round ≤ now → PublishesIfDue W.can_be W.can_tick self.old.held_until self.old self.new }
        ensures round { self.old.next_round ≤ now → self.new.next_round ≡ later_by 1000 now }
        ensures idle { now < self.old.next_round → self.new ≡ self.old }
        ensures kept { KeepsFiles self.old self.new }
        ensures next { NextPoll W.can_tick self.old.next_check self.old self.new }
        ensures closes { self.old.next_round ≤ now → ClosesClients W.calls W.can_tick now self.old self.new }
        ensures tries { self.old.next_round ≤ now → TriesBlocked self.new.clients }
        ensures queue { QueuesBehind self.old.clients.queue.items self.new.clients }
    {
        if now < self.next_round {
            return;
        }
        self.next_round = now.saturating_add(SOON);
        self.drop_overdue(env);
        self.drop_lost(now, env);
        self.clients.wake_blocked();
        self.publish_and_judge(env);
    }

    /// Returns the counts of what would be published at `now`, in seconds since 1970. Nothing is published. `Err`: why nothing would be
    /// published. It is `Clock` if `now` is not within the years 1970 to 9999, and otherwise `Set`: too many records, or out of memory.
    pub fn check_report(&self, now: u64) -> Result<CheckReport, Refusal>
        ensures report { IfOk result (λ report. IsCheckReport now self.now report) }
        ensures refused { IfErr result (λ refusal. IsReason now self.now.service.sources refusal) }
    {
        let ServedSet { set, left_out, .. } = self.service.served(now)?;
        let Families { ipv4, ipv6 } = Families::of(&set);
        Ok(CheckReport {
            files: self.source_count(),
            ipv4,
            ipv6,
            left_out,
        })
    }

    /// How many files and publication points are watched.
    fn source_count(&self) -> u64
        ensures { result ≡ source_count self.now }
    {
        let files = self.exports.len().saturating_add(self.slurms.len());
        files.saturating_add(self.points.len()) as u64
    }

    /// Returns how a run ends that only checks its configuration: `Old` if the daemon would stop for an old export, otherwise `Checked`.
    pub fn end_of_check(&self) -> StopReason
        ensures { result ≡ unwrap_or (end_of self.now) Checked }
    {
        self.end().unwrap_or(StopReason::Checked)
    }

    /// Why the daemon stops, if it does.
    fn end(&self) -> Option<StopReason>
        ensures { result ≡ end_of self.now }
    {
        if self.plan.once && self.has_parted {
            return Some(StopReason::Once);
        }
        if self.plan.stops_when_old && self.is_old {
            return Some(StopReason::Old);
        }
        None
    }

    /// Whether a version was published since the start. Routers are admitted only from then on.
    pub fn is_ready(&self) -> bool
        ensures { result ≡ self.now.is_ready }
    {
        self.is_ready
    }

    /// The RTR server: its cache and its clients.
    pub fn server(&self) -> &Server<S, T> {
        self.service.server()
    }
}
