//! The program: `runner::run_words` runs it for a command line.
#![tactic(auto)]

pub mod runner;

use std::process::ExitCode;
use std::{env, io};

/// Reads the words, runs them with the standard streams, and exits with the status.
fn main(rt: HostRuntime) -> ExitCode {
    let mut out = rt.stdout();
    let mut err = rt.stderr();
    let status = match own_words(&rt) {
        Ok(all) => runner::run_words(&rt, all.as_slice(), &mut out, &mut err),
        Err(e) if e.kind() == io::ErrorKind::OutOfMemory => runner::out_of_memory(&mut err),
        Err(_) => runner::bad_words(&mut err),
    };
    ExitCode::from(status)
}

fn own_words(rt: &HostRuntime) -> io::Result<Vec<String>> {
    let all = env::args(rt)?.skip(1).collect(rt.alloc())?;
    Ok(all)
}
