//! The help and the version.
use crate::options::{OptionSpec, groups};
use std::alloc::{AllocError, Global};

const HEAD: &str = "\
rpkirtrd serves validated RPKI payloads to routers over the RTR protocol (RFC
8210, and version 0, RFC 6810), from the files that a validator writes. It polls
these files: if one changes, it is read again, and routers are notified.

Usage: rpkirtrd (--vrps FILE | --points DIR).. [OPTION]..
";

const TAIL: &str = "
At least one of --vrps and --points is required. If a file is refused at the
start, the daemon exits. Later the refusal is reported, and the last good data
are served.

The daemon keeps nothing on disk. SIGTERM, SIGINT and SIGHUP end it. No signal
reloads, as the files are polled.

The exit status is 0 if the run ended well, 1 if a file was refused or is too
old, 2 if the command line is wrong, 3 if a file or a socket failed, and 4 if
memory ran out.

A cache for the routers of a network, on the host of rpki-client:

  rpkirtrd --vrps /var/lib/rpki-client/json --listen [::]:3323 --max-age 86400
";

/// The program's version.
pub const VERSION: &str = "1.1.0";

/// The kit that the program is proved with, as `rt version` prints it.
const KIT: &str = "rattle-kit-13f logic dac8208d650f15bf";

/// What `--version` prints: the name of the program and its version, and the kit that it is proved with.
pub(crate) fn version(alloc: Global) -> Result<String, AllocError> {
    let mut text = String::from_str(alloc, "rpkirtrd ")?;
    text.push_str(VERSION)?;
    text.push_str("\nproved with ")?;
    text.push_str(KIT)?;
    Ok(text)
}

fn push_lines(text: &mut String, lines: &[&str]) -> Result<(), AllocError> {
    for line in lines {
        write!(text, "      {line}\n")?;
    }
    Ok(())
}

fn push_option(text: &mut String, option: &OptionSpec) -> Result<(), AllocError> {
    text.push_str("  ")?;
    if let Some(letter) = option.letter {
        write!(text, "-{letter}, ")?;
    }
    write!(text, "--{}", option.name)?;
    if !option.value.is_empty() {
        write!(text, " {}", option.value)?;
    }
    text.push_str("\n")?;
    push_lines(text, option.help)
}

fn push_options(text: &mut String, options: &[OptionSpec]) -> Result<(), AllocError> {
    for option in options {
        push_option(text, option)?;
    }
    Ok(())
}

/// The text of `--help`.
pub(crate) fn help(alloc: Global) -> Result<String, AllocError> {
    let mut text = String::from_str(alloc, HEAD)?;
    for group in groups() {
        write!(&mut text, "\n{}\n", group.title)?;
        push_options(&mut text, group.options)?;
    }
    text.push_str(TAIL)?;
    Ok(text)
}
