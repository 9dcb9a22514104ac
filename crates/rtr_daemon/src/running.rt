//! The run of the daemon's program, from the wait for the clock to its exit status.
ghost use Rattle.std.specs.Prelude.{◌≡◌, ℕ, IfOk, OnErr, OnOk, Ok, Some, min};
ghost use Rattle.rtr_daemon.specs.Due.{end_of};
ghost use Rattle.rtr_daemon.specs.Origins.{SourcesComeFrom};
ghost use Rattle.rtr_daemon.specs.Running.{GoesThrough, IsClockSet, IsClockUnset, IsRun, clients_within, exit_status, exit_words, failure_status};
ghost use Rattle.rtr_daemon.specs.declared.daemon.StopReason.{StopReason};

use crate::daemon::{CheckReport, Daemon, StopReason};
use crate::environment::{Disk, EventLog, Sockets, Time};
use crate::refusal::StartFault;
use crate::set_changes::StepStore;
use event_log::LogEvent;
use rtr_server::Stream;
use std::io::{self, ErrorKind};

/// The first second of the year 2020. A clock before it was not set yet.
const YEAR_2020: u64 = 1_577_836_800;

/// How many descriptors the program keeps for itself.
const OWN_DESCRIPTORS: usize = 16;

/// How long the clock is waited for each time, in milliseconds.
const CLOCK_WAIT: u64 = 1000;

/// What the program does between the turns of its daemon, such as serving status pages. [`run`] calls it.
pub trait AfterTurn<S, T, W> {
    ghost use Rattle.rtr_daemon.specs.declared.daemon.Daemon.{Daemon};

    /// The ways in which [`AfterTurn::after_turn`] may return: from a state, with a daemon, to the next state. For use in contracts. An
    /// implementation chooses them. The default allows all.
    ghost sees: { Self → Daemon S T → Self → Type 0 } = { λ before daemon after. Unit {0} };

    /// Called after each turn, unless the daemon stops. `daemon` is the daemon after the turn.
    fn after_turn(&mut self, daemon: &Daemon<S, T>, env: &mut W)
        ensures { sees self.old daemon.now self.new };
}

/// The longest waits that the other parts of the program allow, in milliseconds.
#[derive(Clone, Copy, Debug, PartialEq, Eq)]
pub struct WaitLimits {
    /// The longest wait that the status pages allow.
    pub pages: u64,
    /// The longest wait that the log allows while lines are buffered.
    pub log: u64,
    /// The longest wait that the watchdog of the service manager allows.
    pub watchdog: u64,
}

impl WaitLimits {
    /// Returns the smallest of `asked` and the three limits, in milliseconds.
    pub fn least(self, asked: u64) -> u64
        ensures { result ≡ min asked (min self.pages (min self.log self.watchdog)) }
    {
        asked.min(self.pages.min(self.log.min(self.watchdog)))
    }
}

/// Waits until the wall clock is in the year 2020 or later. If it must wait, it logs one warning.
/// Serials and sessions come from the time of the start: with a wrong clock they would be earlier than those of the run before.
/// `Err`: a wait failed.
pub fn wait_for_clock<L, W: Time + EventLog + Sockets<L>>(env: &mut W) -> io::Result<()>
    ensures set { OnOk result (IsClockSet W.can_be) }
    ensures unset { OnErr result (IsClockUnset W.can_be) }
{
    let mut is_logged = false;
    for _second in 0..u64::MAX {
        let now = env.seconds();
        if now >= YEAR_2020 {
            return Ok(());
        }
        if !is_logged {
            let reason = "the clock is before the year 2020: nothing is served until it is set";
            env.log(now, &LogEvent::Warning { reason });
            is_logged = true;
        }
        env.wait(CLOCK_WAIT)?;
    }
    Err(io::Error::from(ErrorKind::TimedOut))
}

/// Returns the largest number of clients at once: `asked`, or fewer if there are not enough file descriptors.
/// `descriptors` is the limit of open descriptors. 16 of them are for the program, and `http_connections` are for HTTP.
/// If no descriptor is left, one client is still allowed. It is 0 only if `asked` is 0.
pub fn clients_within(asked: usize, descriptors: usize, http_connections: usize) -> usize
    ensures { result ≡ clients_within asked descriptors http_connections }
{
    let allowed = descriptors
        .saturating_sub(OWN_DESCRIPTORS)
        .saturating_sub(http_connections)
        .max(1);
    asked.min(allowed)
}

/// Logs the limit `clients` if it is less than `asked`. Otherwise it logs nothing. `now` is in seconds since 1970.
pub fn report_limit<J: EventLog>(asked: usize, clients: usize, now: u64, events: &mut J) {
    if clients < asked {
        let clients = clients as u64;
        events.log(now, &LogEvent::Limited { clients });
    }
}

/// Runs the turns of a daemon until it stops, and calls `after` between them. `Ok`: why the daemon stops. `Err`: a wait failed, or `u64::MAX` turns are
/// over.
pub fn run<
    S: StepStore + Drop,
    T: Stream + Drop,
    W: Sockets<T> + Disk + Time + EventLog,
    A: AfterTurn<S, T, W>,
>(daemon: &mut Daemon<S, T>, after: &mut A, env: &mut W) -> io::Result<StopReason>
    ensures goes { (turns : ℕ) × GoesThrough W.can_be S.holds T.remaining T.contents turns daemon.old.service daemon.new.service }
    ensures turns { IsRun W.answers W.calls W.reads W.can_be W.can_tick S.holds T.remaining T.contents T.answers A.sees result daemon.old after.old daemon.new after.new }
    ensures comes { SourcesComeFrom W.answers W.can_be daemon.old → SourcesComeFrom W.answers W.can_be daemon.new }
    ensures ends { IfOk result (λ reason. end_of daemon.new ≡ Some reason) }
{
    for _turn in 0..u64::MAX {
        if let Some(reason) = daemon.turn(env)? {
            return Ok(reason);
        }
        after.after_turn(daemon, env);
    }
    Err(io::Error::from(ErrorKind::TimedOut))
}

/// Ends a run that only checks its configuration. It logs the counts of what would be served, and why the run ends.
/// `Ok`: the exit status, 1 if the daemon would stop for an old export, otherwise 0.
/// `Err`: why nothing would be served. Then nothing is logged.
pub fn report_check<S: StepStore + Drop, T: Stream + Drop, W: Time + EventLog>(
    daemon: &Daemon<S, T>,
    env: &mut W,
) -> Result<u8, StartFault>
    ensures { IfOk result (λ status. (reason : StopReason) × (status ≡ exit_status (Ok reason))) }
{
    let now = env.seconds();
    match daemon.check_report(now) {
        Err(refusal) => Err(StartFault {
            path: None,
            refusal,
        }),
        Ok(report) => {
            log_check(report, now, env);
            Ok(report_end(&Ok(daemon.end_of_check()), env))
        }
    }
}

/// Reports what would be served.
fn log_check<J: EventLog>(report: CheckReport, now: u64, events: &mut J) {
    let CheckReport {
        files,
        ipv4,
        ipv6,
        left_out,
    } = report;
    let event = LogEvent::Checked {
        files,
        ipv4,
        ipv6,
        left_out,
    };
    events.log(now, &event);
}

/// Logs why a run ends, and returns the exit status. `Ok(Once)` and `Ok(Checked)`: 0. `Ok(Old)`: 1.
/// `Err`, a wait failed: 4 if memory ran out, otherwise 3.
pub fn report_end<W: Time + EventLog>(end: &io::Result<StopReason>, env: &mut W) -> u8
    ensures { result ≡ exit_status end.now }
{
    let reason = words_of(end);
    let now = env.seconds();
    env.log(now, &LogEvent::Stopped { reason });
    status_of(end)
}

/// The words for the end of a run.
fn words_of(end: &io::Result<StopReason>) -> &'static str
    ensures { result.now ≡ exit_words end.now }
{
    match end {
        Ok(StopReason::Once) => "the client has gone",
        Ok(StopReason::Checked) =>
            "the configuration is valid, and with --check-config nothing is served",
        Ok(StopReason::Old) => "an export is older than --max-age",
        Err(_) => "poll failed",
    }
}

/// The exit status for the end of a run.
fn status_of(end: &io::Result<StopReason>) -> u8
    ensures { result ≡ exit_status end.now }
{
    match end {
        Ok(StopReason::Once | StopReason::Checked) => 0,
        Ok(StopReason::Old) => 1,
        Err(error) => failure_status(error.kind()),
    }
}

/// The exit status if the system failed with an error of this kind.
pub(crate) fn failure_status(kind: ErrorKind) -> u8
    ensures { result ≡ failure_status kind }
{
    match kind {
        ErrorKind::OutOfMemory => 4,
        _ => 3,
    }
}
