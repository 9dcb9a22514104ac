//! The system: what is open, the clocks, the log, and the service manager.
use crate::service_manager::ManagerSocket;
use crate::standard_error::StandardError;
use event_log::{LogEvent, LogFormat};
use log_output::Log;
use mio::net::TcpListener;
use mio::{Events, Interest, Poll, Token};
use rpkirtrd_cli::Settings;
use rpkirtrd_start::Addresses;
use rtr_daemon::{
    EventLog, FIRST_CONNECTION, FIRST_STATUS_CONNECTION, Ready, STATUS_TOKEN, SocketFault,
    StartFault, Time, UnstableInodes,
};
use sd_notify::{Notifier, service_manager};
use status_pages::LostLines;
use status_server::HttpReady;
use std::alloc::Global;
use std::collections::VecDeque;
use std::env::Env;
use std::fmt::{self, Debug};
use std::io::{self, Write};
use std::net::{Net, SocketAddr};
use std::rt::Files;
use std::time::{Clock, Instant, SystemTime, UNIX_EPOCH};

/// The largest number of events of one wait.
const EVENTS: usize = 1024;

/// How often log lines are tried again before the program exits, and how long standard error is waited for each time, in milliseconds.
const LAST_TRIES: u32 = 10;

const LAST_WAIT: i32 = 100;

/// The daemon's environment: its sockets, clocks, log and service manager.
#[derive(Drop)]
pub struct System<'a, R, E> {
    pub(crate) rt: &'a R,
    err: &'a mut E,
    format: LogFormat,
    log: Log,
    standard_error: StandardError,
    /// What is reported of the start when the files are read: the addresses, and what went wrong beside.
    opened: VecDeque<LogEvent<'static>>,
    manager: Option<Notifier<ManagerSocket>>,
    pub(crate) max_size: u64,
    /// The longest call of the system on files since this was asked last, in milliseconds.
    pub(crate) slowest_call: u64,
    /// The files whose inode numbers are not stable.
    pub(crate) inodes: UnstableInodes,
    pub(crate) poll: Poll,
    pub(crate) events: Events,
    pub(crate) ready: VecDeque<Ready>,
    pub(crate) http_ready: VecDeque<HttpReady>,
    pub(crate) listeners: Vec<TcpListener>,
    /// The listener of the status pages, if there is one.
    pub(crate) http_listener: Option<TcpListener>,
    /// Whether a failure to accept there was reported since a connection was accepted last.
    pub(crate) is_http_failure_reported: bool,
    pub(crate) next_token: usize,
    pub(crate) next_http_token: usize,
    /// The longest next wait that the status pages allow, in milliseconds.
    pub(crate) wait_limit: u64,
    began: Instant,
    seconds: u64,
    millis: u64,
}

/// How many listeners there are, and how much is ready.
impl<R, E> Debug for System<'_, R, E> {
    fn fmt<W: fmt::Write>(&self, f: &mut fmt::Formatter<W>) -> fmt::Result {
        let (listeners, ready) = (self.listeners.len(), self.ready.len());
        write!(f, "System({listeners} listeners, {ready} ready)")
    }
}

impl<'a, R: Files + Net + Clock + AllocGlobal, E: Write> System<'a, R, E> {
    /// Opens the poll, the log and standard error, and starts the monotonic clock. No listener is open yet.
    /// `Err`: the poll or the clock failed, or memory ran out. The fault has no address.
    pub fn open(
        rt: &'a R,
        err: &'a mut E,
        settings: &Settings,
    ) -> Result<System<'a, R, E>, SocketFault> {
        let poll = Poll::new(rt)?;
        Ok(System {
            rt,
            err,
            format: settings.log,
            log: Log::new(rt.alloc(), settings.log, settings.log_level)?,
            standard_error: StandardError::open(),
            opened: VecDeque::new(rt.alloc()),
            manager: None,
            max_size: settings.max_size,
            slowest_call: 0,
            inodes: UnstableInodes::new(rt.alloc()),
            poll,
            events: Events::with_capacity(rt.alloc(), EVENTS)?,
            ready: VecDeque::with_capacity(rt.alloc(), EVENTS)?,
            http_ready: VecDeque::with_capacity(rt.alloc(), EVENTS)?,
            listeners: Vec::new(rt.alloc()),
            http_listener: None,
            is_http_failure_reported: false,
            next_token: FIRST_CONNECTION,
            next_http_token: FIRST_STATUS_CONNECTION,
            wait_limit: u64::MAX,
            began: Instant::now(rt)?,
            seconds: 0,
            millis: 0,
        })
    }

    /// Opens a listener for routers at each of these addresses. The log reports them when the files are loaded.
    /// `Err`: the first address that failed, and why. The listeners before it stay open.
    pub fn listen(&mut self, addresses: &[SocketAddr]) -> Result<(), SocketFault> {
        for address in addresses {
            if let Err(error) = self.listen_at(*address) {
                let address = Some(*address);
                return Err(SocketFault { address, error });
            }
        }
        Ok(())
    }

    /// Opens a listener for routers. Its address is reported when the files are read.
    fn listen_at(&mut self, address: SocketAddr) -> io::Result<()> {
        let (listener, address) = self.bind(address, Token(self.listeners.len()))?;
        self.listeners.push(listener)?;
        self.opened.push_back(LogEvent::Listening { address })?;
        Ok(())
    }

    /// Opens the listener of the status pages. The log reports its address when the files are loaded. `Err`: the listener could not be opened,
    /// or memory ran out.
    pub fn listen_for_http(&mut self, address: SocketAddr) -> io::Result<()> {
        let (listener, address) = self.bind(address, Token(STATUS_TOKEN))?;
        self.http_listener = Some(listener);
        self.opened.push_back(LogEvent::Status { address })?;
        Ok(())
    }

    /// A listener at an address, registered under a poll token, and its local address.
    fn bind(&self, address: SocketAddr, token: Token) -> io::Result<(TcpListener, SocketAddr)> {
        let mut listener = TcpListener::bind(self.rt, address)?;
        let registry = self.poll.registry();
        registry.register(&mut listener, token, Interest::READABLE)?;
        let address = listener.local_addr()?;
        Ok((listener, address))
    }
}

impl<'a, R: Clock + AllocGlobal, E: Write> Time for System<'a, R, E> {
    /// The last time that was read, if the clock cannot be read.
    fn seconds(&mut self) -> u64 {
        if let Ok(now) = SystemTime::now(self.rt) {
            self.seconds = now.duration_since(UNIX_EPOCH).unwrap_or_default().as_secs();
        }
        self.seconds
    }

    fn millis(&mut self) -> u64 {
        if let Ok(now) = Instant::now(self.rt) {
            let millis = now.duration_since(self.began).as_millis();
            self.millis = u64::try_from(millis).unwrap_or(u64::MAX);
        }
        self.millis
    }
}

impl<'a, R: Clock + AllocGlobal, E: Write> EventLog for System<'a, R, E> {
    fn log(&mut self, seconds: u64, event: &LogEvent<'_>) {
        let millis = self.millis();
        self.log.add(seconds, millis, event);
        self.write_log();
    }
}

impl<'a, R: Clock + AllocGlobal, E: Write> Addresses for System<'a, R, E> {
    fn log_addresses(&mut self, seconds: u64) {
        for _event in 0..self.opened.len() {
            if let Some(event) = self.opened.pop_front() {
                self.log(seconds, &event);
            }
        }
    }
}

impl<'a, R: Clock + AllocGlobal, E: Write> System<'a, R, E> {
    /// Ends a run because a socket could not be opened: reports the fault, flushes the log, and returns the exit status.
    pub fn end_without_socket(&mut self, fault: &SocketFault) -> u8 {
        if self.format == LogFormat::Text {
            let _ = writeln!(self.err, "rpkirtrd: {fault}");
        } else {
            let now = self.seconds();
            log_socket_fault(self.rt.alloc(), fault, now, self);
        }
        self.end(Ok(fault.status()))
    }

    /// Ends a run: notifies the service manager, flushes the log, and returns the exit status. It waits at most a second for standard error.
    /// `ended` is the exit status of a run, or why the daemon did not start, which is reported.
    pub fn end(&mut self, ended: Result<u8, StartFault>) -> u8 {
        let status = match ended {
            Ok(status) => status,
            Err(fault) => self.refuse(&fault),
        };
        if let Some(manager) = &mut self.manager {
            manager.report_stop();
        }
        self.end_log();
        status
    }

    /// Reports why the daemon does not start, and answers the exit status. In the form `Text` that is a line for people, after the log's.
    fn refuse(&mut self, fault: &StartFault) -> u8 {
        if self.format == LogFormat::Text {
            self.end_log();
            let _ = writeln!(self.err, "rpkirtrd: {fault}");
        } else {
            let now = self.seconds();
            fault.log_to(self.rt.alloc(), now, self);
        }
        fault.refusal.status()
    }

    /// Writes the buffered log lines for which standard error has room.
    fn write_log(&mut self) {
        self.log.write_to(&mut self.standard_error);
    }

    /// Writes the buffered log lines before the program exits, and waits a second at most for standard error.
    fn end_log(&mut self) {
        for _try in 0..LAST_TRIES {
            self.write_log();
            if self.log.is_written() {
                return;
            }
            let _ = self.standard_error.is_ready(LAST_WAIT);
        }
    }

    /// Reports what the log lacks, if that is due, and answers how long the next wait may be, in milliseconds.
    pub(crate) fn log_wait(&mut self, millis: u64) -> u64 {
        let seconds = self.seconds();
        self.log.tick(seconds, millis);
        self.write_log();
        self.log.wait_limit()
    }

    /// The numbers of log lines since the start that were dropped and that were suppressed.
    pub fn lost_lines(&self) -> LostLines {
        LostLines {
            dropped: self.log.dropped_lines(),
            suppressed: self.log.suppressed_lines(),
        }
    }

    /// Connects to the service manager that started the daemon, if there is one.
    /// If it cannot be notified, the log reports that when the files are loaded.
    pub fn find_manager(&mut self)
    where
        R: Env,
    {
        let millis = self.millis();
        let own = u64::from(libc::getpid().unsigned_abs());
        match service_manager(self.rt, own, millis) {
            Ok(manager) => self.manager = manager,
            Err(_) => {
                let reason = "the service manager that NOTIFY_SOCKET names cannot be notified";
                let _ = self.opened.push_back(LogEvent::Warning { reason });
            }
        }
    }

    /// Signals the watchdog, if that is due, and answers how long the next wait may be, in milliseconds.
    pub(crate) fn manager_wait(&mut self, millis: u64) -> u64 {
        let Some(manager) = &mut self.manager else {
            return u64::MAX;
        };
        manager.signal(millis);
        manager.wait_limit(millis)
    }

    /// Notifies the service manager that the daemon is ready, at the first call only. A failure is logged. Without a service manager it does
    /// nothing.
    pub fn report_ready(&mut self) {
        let Some(manager) = &mut self.manager else {
            return;
        };
        if manager.fails_to_report_ready() {
            let reason = "the service manager could not be notified that the daemon is ready";
            let now = self.seconds();
            self.log(now, &LogEvent::Warning { reason });
        }
    }
}

/// Logs that a socket could not be opened. `now` is the time in seconds since 1970.
/// If memory runs out for the reason, the log reports that instead.
pub fn log_socket_fault<J: EventLog>(alloc: Global, fault: &SocketFault, now: u64, events: &mut J) {
    let Ok(reason) = fault.to_string(alloc) else {
        return events.log(now, &LogEvent::Memory { what: "the start" });
    };
    let (what, reason) = ("listen", reason.as_str());
    events.log(now, &LogEvent::Failed { what, reason })
}
