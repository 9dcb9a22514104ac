//! How a run starts and ends: its clock, its limits, its session, its files, its sockets, and its service manager.
use event_log::LogEvent;
use rpkirtrd_cli::{Command, Settings, read_words, session_warning};
use rtr_daemon::{
    AcceptResult, EventLog, FileForm, PollToken, Ready, SocketFault, Sockets, StopReason, Time,
    Unreadable, WaitLimits, clients_within, report_end, report_limit, wait_for_clock,
};
use sd_notify::{Notifier, NotifySocket, enabled_watchdog};
use session_names::{GivenIds, HostFacts, choose_session};
use std::alloc::Global;
use std::io::{self, ErrorKind};
use std::test::Fail;

/// A clock that waits advance, and how many lines were logged.
#[derive(Clone, Copy)]
struct Clock {
    alloc: Global,
    millis: u64,
    lines: u64,
}

impl Clock {
    /// A clock at a time in seconds since 1970.
    fn at(alloc: Global, seconds: u32) -> Clock {
        Clock {
            alloc,
            millis: u64::from(seconds) * 1000,
            lines: 0,
        }
    }
}

impl Time for Clock {
    fn seconds(&mut self) -> u64 {
        self.millis / 1000
    }

    fn millis(&mut self) -> u64 {
        self.millis
    }
}

impl EventLog for Clock {
    fn log(&mut self, _seconds: u64, _event: &LogEvent<'_>) {
        self.lines = self.lines.saturating_add(1);
    }
}

impl Sockets<u8> for Clock {
    fn wait(&mut self, millis: u64) -> io::Result<()> {
        self.millis = self.millis.saturating_add(millis);
        Ok(())
    }

    fn next(&mut self) -> Option<Ready> {
        None
    }

    fn accept(&mut self, _listener: usize) -> AcceptResult<u8> {
        AcceptResult::WouldBlock
    }

    fn connections(&mut self) -> io::Result<Vec<u8>> {
        Ok(Vec::new(self.alloc))
    }
}

#[test]
fn the_clock_is_waited_for(rt: HostRuntime) -> Result<(), Fail> {
    let mut clock = Clock::at(rt.alloc(), 1_577_836_798);
    wait_for_clock::<u8, Clock>(&mut clock)?;
    assert!(rt; clock.seconds() == 1_577_836_800);
    assert!(rt; clock.lines == 1);
    Ok(())
}

#[test]
fn descriptors_limit_clients(rt: HostRuntime) {
    assert!(rt; clients_within(256, 1024, 64) == 256);
    assert!(rt; clients_within(256, 100, 64) == 20);
    assert!(rt; clients_within(256, 10, 0) == 1);
}

#[test]
fn fewer_clients_are_reported(rt: HostRuntime) {
    let mut clock = Clock::at(rt.alloc(), 0);
    report_limit(256, 256, 0, &mut clock);
    assert!(rt; clock.lines == 0);
    report_limit(256, 20, 0, &mut clock);
    assert!(rt; clock.lines == 1);
}

#[test]
fn ends_have_a_status(rt: HostRuntime) {
    let mut clock = Clock::at(rt.alloc(), 0);
    assert!(rt; report_end(&Ok(StopReason::Once), &mut clock) == 0);
    assert!(rt; report_end(&Ok(StopReason::Checked), &mut clock) == 0);
    assert!(rt; report_end(&Ok(StopReason::Old), &mut clock) == 1);
    let failed = io::Error::from(ErrorKind::TimedOut);
    assert!(rt; report_end(&Err(failed), &mut clock) == 3);
    let fault = SocketFault::from(io::Error::from(ErrorKind::OutOfMemory));
    assert!(rt; fault.status() == 4);
}

#[test]
fn tokens_files_and_waits_are_judged(rt: HostRuntime) {
    assert!(rt; PollToken::of(3) == PollToken::Listener(3));
    assert!(rt; PollToken::of(65_535) == PollToken::StatusListener);
    assert!(rt; PollToken::of(65_536) == PollToken::Connection(65_536));
    let file = FileForm {
        is_regular: true,
        size: 10,
    };
    assert!(rt; file.judge(10) == Ok(()));
    assert!(rt; file.judge(9) == Err(Unreadable::TooLarge));
    let limits = WaitLimits {
        pages: 1000,
        log: 500,
        watchdog: u64::MAX,
    };
    assert!(rt; limits.least(2000) == 500);
    let refused: AcceptResult<u8> = AcceptResult::refused(io::Error::from_raw_os_error(24));
    assert!(rt; matches!(&refused, AcceptResult::NoRoom));
}

/// A host in memory.
#[derive(Drop)]
struct Known {
    alloc: Global,
    machine_id: &'static str,
}

impl HostFacts for Known {
    fn machine_id(&mut self) -> io::Result<Vec<u8>> {
        Ok(Vec::from_slice(self.alloc, self.machine_id.as_bytes())?)
    }

    fn name(&mut self) -> io::Result<Vec<u8>> {
        Ok(Vec::from_slice(self.alloc, b"cache1\n")?)
    }

    fn random_session(&mut self) -> io::Result<u16> {
        Ok(7)
    }
}

/// The listening addresses and the sources of a run.
const LISTEN: &str = "127.0.0.1:3323\n";

const SOURCES: &str = "--vrps /var/lib/rpki-client/json\n";

#[test]
fn a_session_is_chosen(rt: HostRuntime) -> Result<(), Fail> {
    let given = GivenIds {
        session: None,
        session0: Some(9),
        serial: None,
    };
    let mut host = Known {
        alloc: rt.alloc(),
        machine_id: "0123456789abcdef0123456789abcdef\n",
    };
    let choice = choose_session(&given, LISTEN, SOURCES, 1_764_096_000, &mut host)?;
    assert!(rt; choice.ids.session == 0xd886 && !choice.is_random);
    assert!(rt; choice.ids.session0 == 9 && choice.ids.serial == 1_764_096_000);
    host.machine_id = "";
    let random = choose_session(&given, LISTEN, SOURCES, 1_764_096_000, &mut host)?;
    assert!(rt; random.ids.session == 7 && random.is_random);
    Ok(())
}

/// A socket that counts its messages.
#[derive(Clone, Copy)]
struct Counted {
    messages: u64,
}

impl NotifySocket for Counted {
    ghost use Rattle.std.specs.Prelude.{Option};

    ghost sent = { λ socket. Option.None };

    fn send(&mut self, _message: &[u8]) -> bool {
        self.messages = self.messages.saturating_add(1);
        self.messages < 3
    }
}

#[test]
fn a_service_manager_is_notified(rt: HostRuntime) {
    assert!(rt; enabled_watchdog(Some(8), Some(2_000_000), 7, 0).is_none());
    let watchdog = enabled_watchdog(Some(7), Some(2_000_000), 7, 0);
    let mut notifier = Notifier::new(Counted { messages: 0 }, watchdog);
    assert!(rt; !notifier.fails_to_report_ready());
    assert!(rt; notifier.wait_limit(400) == 600);
    notifier.signal(1000);
    notifier.report_stop();
    assert!(rt; !notifier.fails_to_report_ready());
}

/// Whether settings of one list that is polled each 5 seconds say what follows from them.
fn say(alloc: Global, settings: &Settings) -> bool {
    let (Ok(listen), Ok(sources)) = (settings.listen_text(alloc), settings.sources_text(alloc))
    else {
        return false;
    };
    settings.check_millis() == 5000
        && settings.stall_millis() == 120_000
        && settings.notify_warning().is_some()
        && listen.as_str() == LISTEN
        && sources.as_str() == "--vrps a.json\n"
}

#[test]
fn settings_say_what_follows(rt: HostRuntime) -> Result<(), Fail> {
    let mut words = Vec::new(rt.alloc());
    for word in ["--vrps", "a.json", "--check", "5"] {
        words.push(String::from_str(rt.alloc(), word)?)?;
    }
    match read_words(rt.alloc(), words.as_slice())? {
        Command::Serve(settings) => assert!(rt; say(rt.alloc(), &settings)),
        _ => assert!(rt; false),
    }
    assert!(rt; session_warning(false).is_none());
    Ok(())
}
