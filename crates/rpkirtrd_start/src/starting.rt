//! From settings to a daemon, and to the exit status of its run.
ghost use Rattle.std.specs.Prelude.{◌≡◌, IfOk, Ok, flat_map};
ghost use Rattle.rpkirtrd_cli.specs.Derived.{address_line, sources_text};
ghost use Rattle.session_names.specs.Choices.{IsChosen};
ghost use Rattle.rtr_daemon.specs.Running.{clients_within, exit_status};
ghost use Rattle.rtr_daemon.specs.declared.daemon.StopReason.{StopReason};
ghost use Rattle.rpkirtrd_start.specs.Plans.{HasBegun, IsMadeAs, Serves, cache_of, given_of, plan_of, shrink_of};

use crate::paths::paths_of;
use event_log::LogEvent;
use rpkirtrd_cli::{Settings, session_warning};
use rtr_daemon::{
    AfterTurn, CacheSettings, Daemon, Disk, EventLog, Plan, ShrinkGuard, Sockets, StartFault, Time,
    clients_within, report_check, report_end, report_limit, run, wait_for_clock,
};
use rtr_server::Stream;
use session_names::{GivenIds, HostFacts, SessionChoice, SessionIds, choose_session};
use std::alloc::Global;
use std::io;
use vrps::VersionLog;

/// The addresses at which the program listens, as log events.
pub trait Addresses {
    /// Writes the addresses to the log. `seconds` is the time, in seconds since 1970. It is called once, after the files are loaded.
    fn log_addresses(&mut self, seconds: u64);
}

/// Loads all files and returns the daemon for these settings, ready to run. `Err`: why it does not start. `descriptors` is the process's
/// descriptor limit. `http` is how many of them the status pages may need. If the start fails, its reason is not logged: the caller reports it.
/// The log may have events of paths that are given twice, and of files that were loaded before.
pub fn start<T: Stream + Drop, H: HostFacts, W: Disk + Time + EventLog + Addresses>(
    alloc: Global,
    settings: Settings,
    descriptors: usize,
    http: usize,
    host: &mut H,
    env: &mut W,
) -> Result<Daemon<VersionLog, T>, StartFault>
    ensures begun { IfOk result (λ daemon. HasBegun W.answers H.answers W.can_be W.can_tick T.remaining T.contents settings (clients_within settings.clients descriptors http) daemon) }
    ensures cache { IfOk result (λ daemon. IsMadeAs daemon.service.settings (cache_of settings (clients_within settings.clients descriptors http))) }
{
    let begun = env.seconds();
    let SessionChoice { ids, is_random } = match choice(alloc, &settings, begun, host) {
        Ok(choice) => choice,
        Err(error) => return Err(StartFault::of_random(alloc, error)),
    };
    let asked = settings.clients;
    let notify_warning = settings.notify_warning();
    let clients = clients_within(asked, descriptors, http);
    let plan = plan_of(&settings);
    let cache = cache_of(&settings, clients);
    let paths = paths_of(alloc, settings, begun, env)?;
    let daemon = Daemon::open(alloc, plan, cache, ids, paths, env)?;
    env.log_addresses(begun);
    report_limit(asked, clients, begun, env);
    env.log(begun, &LogEvent::Started(ids));
    warn(session_warning(is_random), begun, env);
    warn(notify_warning, begun, env);
    Ok(daemon)
}

/// The sessions and the first serial of a run that starts this many seconds after 1970.
fn choice<H: HostFacts>(
    alloc: Global,
    settings: &Settings,
    begun: u64,
    host: &mut H,
) -> io::Result<SessionChoice>
    ensures { IfOk result (λ choice. IsChosen H.answers (given_of settings.now) (flat_map address_line settings.now.listen.items) (sources_text settings.now) begun choice) }
{
    let given = GivenIds {
        session: settings.session,
        session0: settings.session0,
        serial: settings.start,
    };
    let listen = settings.listen_text(alloc)?;
    let sources = settings.sources_text(alloc)?;
    choose_session(&given, listen.as_str(), sources.as_str(), begun, host)
}

/// Reports a warning, if there is one.
fn warn<J: EventLog>(warning: Option<&'static str>, now: u64, events: &mut J) {
    if let Some(reason) = warning {
        events.log(now, &LogEvent::Warning { reason });
    }
}

/// What the cache of these settings is made with, for at most this many clients.
fn cache_of(settings: &Settings, clients: usize) -> CacheSettings
    ensures { result ≡ cache_of settings.now clients }
{
    CacheSettings {
        keep: settings.keep,
        timing: settings.timing,
        clients,
    }
}

/// The guard of these settings against exports that shrink, if there is one.
fn shrink_of(settings: &Settings) -> Option<ShrinkGuard>
    ensures { result ≡ shrink_of settings.now }
{
    let percent = settings.max_shrink?;
    let hold = u64::from(settings.shrink_hold);
    Some(ShrinkGuard { percent, hold })
}

/// The plan of these settings.
fn plan_of(settings: &Settings) -> Plan
    ensures { result ≡ plan_of settings.now }
{
    Plan {
        check: settings.check_millis(),
        stall: settings.stall_millis(),
        slow: settings.slow_millis(),
        clients_per_address: settings.clients_per_address,
        leaves_out_length_0: settings.leave_out_length_0,
        max_age: settings.max_age,
        stops_when_old: settings.stop_when_old,
        shrink: shrink_of(settings),
        max_size: settings.max_size,
        once: settings.once,
        listeners: settings.listen.len(),
    }
}

/// Checks the configuration: loads all files as `start` does, and logs what would be served. Nothing is served.
/// `descriptors` is the process's descriptor limit. `http` is how many of them the status pages may need.
/// `Ok`: the exit status, 1 if the daemon would stop because an export is too old, otherwise 0. `Err`: why it would not start.
pub fn check<T: Stream + Drop, H: HostFacts, W: Disk + Time + EventLog + Addresses>(
    alloc: Global,
    settings: Settings,
    descriptors: usize,
    http: usize,
    host: &mut H,
    env: &mut W,
) -> Result<u8, StartFault>
    ensures { IfOk result (λ status. (reason : StopReason) × (status ≡ exit_status (Ok reason))) }
{
    let daemon: Daemon<VersionLog, T> = start(alloc, settings, descriptors, http, host, env)?;
    report_check(&daemon, env)
}

/// Waits until the clock is set (2020 or later), loads all files, and serves until the daemon stops or a wait for events fails. `env` listens
/// already. `descriptors` is the process's descriptor limit. `http` is how many of them the status pages may need. `host` has the facts from
/// which session IDs are chosen. `after` runs after each turn of the loop.
///
/// `Ok`: the exit status; the reason is logged. 0: with `once`, the client has gone. 1: with `stop_when_old`, an export is too old. 3: a wait
/// failed. 4: memory ran out at a wait. `Err`: why the daemon does not start; the caller logs it.
pub fn serve<
    T: Stream + Drop,
    H: HostFacts,
    W: Sockets<T> + Disk + Time + EventLog + Addresses,
    A: AfterTurn<VersionLog, T, W>,
>(
    alloc: Global,
    settings: Settings,
    descriptors: usize,
    http: usize,
    host: &mut H,
    after: &mut A,
    env: &mut W,
) -> Result<u8, StartFault>
    ensures { IfOk result (Serves W.answers W.calls H.answers W.reads W.can_be W.can_tick T.remaining T.contents T.answers A.sees settings descriptors http after.old after.new) }
{
    if let Err(error) = wait_for_clock::<T, W>(env) {
        return Ok(report_end(&Err(error), env));
    }
    let mut daemon: Daemon<VersionLog, T> = start(alloc, settings, descriptors, http, host, env)?;
    let end = run(&mut daemon, after, env);
    Ok(report_end(&end, env))
}
