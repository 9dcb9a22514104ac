//! The command line of the daemon.

use anyhow::Result;
use rpkirtrd_cli::{Command, OptionFault, Settings, read_words};
use std::alloc::Global;
use std::io::{self, Write};

/// Prints the settings of a command line, the text that it asks for, or why it is refused.
pub(crate) fn print<W: Write>(alloc: Global, words: &[String], out: &mut W) -> Result<()> {
    match read_words(alloc, words) {
        Ok(Command::Serve(settings)) => Ok(show(&settings, out)?),
        Ok(Command::Help(text)) | Ok(Command::Version(text)) => {
            Ok(out.write_all(text.as_bytes())?)
        }
        Err(fault) => Ok(tell(&fault, out)?),
    }
}

fn show<W: Write>(settings: &Settings, out: &mut W) -> io::Result<()> {
    writeln!(out, "{settings:?}")
}

fn tell<W: Write>(fault: &OptionFault, out: &mut W) -> io::Result<()> {
    writeln!(out, "{fault}")
}
