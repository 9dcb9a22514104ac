//! The daemon: it reads its command line, opens its sockets, and serves turn by turn.
#![tactic(auto)]

mod connection;
mod disk;
mod host;
mod pages;
mod service_manager;
mod sockets;
mod standard_error;
mod starting;
mod system;

use starting::{out_of_memory, run_words};
use std::io::Write;
use std::process::ExitCode;
use std::{env, fs, io};

/// What is opened in the place of a standard stream that is closed at the start, so that no socket gets its descriptor.
const NULL: &str = "/dev/null";

/// Reads the command line, runs it with the standard streams, and exits with the status.
fn main(rt: HostRuntime) -> ExitCode {
    let _first = fs::open(&rt, NULL);
    let _second = fs::open(&rt, NULL);
    let _third = fs::open(&rt, NULL);
    let mut out = rt.stdout();
    let mut err = rt.stderr();
    let status = match own_words(&rt) {
        Ok(words) => run_words(&rt, words.as_slice(), &mut out, &mut err),
        Err(e) if e.kind() == io::ErrorKind::OutOfMemory => out_of_memory(&mut err),
        Err(_) => {
            let _ = writeln!(
                err,
                "rpkirtrd: an argument is not valid UTF-8\nTry rpkirtrd --help."
            );
            2
        }
    };
    ExitCode::from(status)
}

fn own_words(rt: &HostRuntime) -> io::Result<Vec<String>> {
    let words = env::args(rt)?.skip(1).collect(rt.alloc())?;
    Ok(words)
}
