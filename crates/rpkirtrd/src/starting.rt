//! The start of the daemon, and its exit status.
use crate::connection::Connection;
use crate::host::SystemHost;
use crate::pages::Pages;
use crate::system::{System, log_socket_fault};
use event_log::{LogEvent, LogFormat, write_event};
use rpkirtrd_cli::{Command, OptionFault, Settings, read_words};
use rpkirtrd_start::{check, serve};
use rtr_daemon::{EventLog, SocketFault};
use status_server::MAX_CONNECTIONS;
use std::env::Env;
use std::io::Write;
use std::net::Net;
use std::random::RandomSource;
use std::rt::Files;
use std::time::{Clock, SystemTime, UNIX_EPOCH};

/// Writes to standard error that memory ran out, and returns exit status 4. A failed write is ignored.
pub fn out_of_memory<E: Write>(err: &mut E) -> u8 {
    let _ = writeln!(err, "rpkirtrd: out of memory");
    4
}

/// Runs the daemon for these command-line arguments, without the program name, and returns its exit status. 0: done. 1: an input is refused, or
/// the daemon stopped because an export is too old. 2: the arguments do not parse. 3: a file, a socket or an output failed. 4: memory ran out.
pub fn run_words<
    R: Files + Env + Net + Clock + RandomSource + AllocGlobal + Clone + Drop,
    O: Write,
    E: Write,
>(rt: &R, words: &[String], out: &mut O, err: &mut E) -> u8 {
    match read_words(rt.alloc(), words) {
        Ok(Command::Help(text)) | Ok(Command::Version(text)) => print(text.as_str(), out),
        Ok(Command::Serve(settings)) if settings.check_config => check_config(rt, settings, err),
        Ok(Command::Serve(settings)) => serve_routers(rt, settings, err),
        Err(OptionFault::Memory) => out_of_memory(err),
        Err(fault) => {
            let _ = writeln!(err, "rpkirtrd: {fault}\nTry rpkirtrd --help.");
            2
        }
    }
}

/// Prints a text with a newline at its end, and answers the exit status.
fn print<O: Write>(text: &str, out: &mut O) -> u8 {
    let newline = if text.ends_with('\n') { "" } else { "\n" };
    match write!(out, "{text}{newline}") {
        Ok(()) => 0,
        Err(_) => 3,
    }
}

/// Standard error, as a log without a buffer.
#[derive(Drop)]
struct FirstLog<'a, E> {
    err: &'a mut E,
    form: LogFormat,
}

impl<E: Write> EventLog for FirstLog<'_, E> {
    fn log(&mut self, seconds: u64, event: &LogEvent<'_>) {
        let _ = write_event(self.err, self.form, seconds, event);
    }
}

/// Reports in the form of the log why there is no system, and answers the exit status.
fn refuse_system<R: Clock + AllocGlobal, E: Write>(
    rt: &R,
    form: LogFormat,
    fault: &SocketFault,
    err: &mut E,
) -> u8 {
    if form == LogFormat::Text {
        let _ = writeln!(err, "rpkirtrd: {fault}");
        return fault.status();
    }
    let now = match SystemTime::now(rt) {
        Ok(now) => now.duration_since(UNIX_EPOCH).unwrap_or_default().as_secs(),
        Err(_) => 0,
    };
    log_socket_fault(rt.alloc(), fault, now, &mut FirstLog { err, form });
    fault.status()
}

/// Reads the files as at a start, reports what would be served, and answers the exit status that the start would have. No socket is opened.
fn check_config<R: Files + Net + Clock + RandomSource + AllocGlobal + Clone + Drop, E: Write>(
    rt: &R,
    settings: Settings,
    err: &mut E,
) -> u8 {
    let mut system = match System::open(rt, err, &settings) {
        Ok(system) => system,
        Err(fault) => return refuse_system(rt, settings.log, &fault, err),
    };
    let (mut host, http) = (SystemHost { rt }, http_connections(&settings));
    let checked = check::<Connection, SystemHost<'_, R>, System<'_, R, E>>(
        rt.alloc(),
        settings,
        descriptors(),
        http,
        &mut host,
        &mut system,
    );
    system.end(checked)
}

/// Opens the sockets, reads the files, and serves.
fn serve_routers<
    R: Files + Env + Net + Clock + RandomSource + AllocGlobal + Clone + Drop,
    E: Write,
>(rt: &R, settings: Settings, err: &mut E) -> u8 {
    let mut system = match System::open(rt, err, &settings) {
        Ok(system) => system,
        Err(fault) => return refuse_system(rt, settings.log, &fault, err),
    };
    if let Err(fault) = system.listen(settings.listen.as_slice()) {
        return system.end_without_socket(&fault);
    }
    system.find_manager();
    let mut pages = match Pages::open(rt, &settings, &mut system) {
        Ok(pages) => pages,
        Err(fault) => return system.end_without_socket(&fault),
    };
    let (mut host, http) = (SystemHost { rt }, http_connections(&settings));
    let served = serve::<Connection, SystemHost<'_, R>, System<'_, R, E>, Pages>(
        rt.alloc(),
        settings,
        descriptors(),
        http,
        &mut host,
        &mut pages,
        &mut system,
    );
    system.end(served)
}

/// How many HTTP connections there may be.
fn http_connections(settings: &Settings) -> usize {
    match settings.status {
        Some(_) => MAX_CONNECTIONS,
        None => 0,
    }
}

/// The limit of descriptors of this process.
fn descriptors() -> usize {
    let mut limit = libc::types::rlimit {
        rlim_cur: 1024,
        rlim_max: 1024,
    };
    if libc::getrlimit(libc::RLIMIT_NOFILE, &mut limit) != 0 {
        return 1024;
    }
    usize::try_from(limit.rlim_cur).unwrap_or(usize::MAX)
}
