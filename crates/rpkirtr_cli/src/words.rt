//! The parsed command line.
use clap::error::ErrorKind;
use clap::{Arg, ArgAction, ArgMatches, Command as ClapCommand, Error};
use command_parts::{CacheName, ProgramFault, decimal};
use rtr_pdu::Version;
use std::alloc::{AllocError, Global};
use thiserror::Error;

/// Why a command line is not accepted.
#[derive(Debug, Drop, Error)]
pub enum CommandFault {
    /// The command line does not parse.
    #[error("the words do not parse")]
    Invalid,
    /// Out of memory.
    #[error("out of memory")]
    Memory,
}

impl From<AllocError> for CommandFault {
    fn from(_error: AllocError) -> CommandFault {
        CommandFault::Memory
    }
}

impl From<CommandFault> for ProgramFault {
    fn from(fault: CommandFault) -> ProgramFault {
        match fault {
            CommandFault::Invalid => ProgramFault::Words,
            CommandFault::Memory => ProgramFault::Memory,
        }
    }
}

/// The syntax of a command: its name, its options, which have a value each, its optional options, its words, and words that occur once or more.
struct CommandSpec {
    name: &'static str,
    options: &'static [&'static str],
    extras: &'static [&'static str],
    words: &'static [&'static str],
    lists: &'static [&'static str],
}

static COMMANDS: [CommandSpec; 10] = [
    CommandSpec {
        name: "roa",
        options: &[],
        extras: &[],
        words: &["FILE"],
        lists: &[],
    },
    CommandSpec {
        name: "manifest",
        options: &[],
        extras: &[],
        words: &["FILE"],
        lists: &[],
    },
    CommandSpec {
        name: "payloads",
        options: &["now"],
        extras: &[],
        words: &[],
        lists: &["DIR"],
    },
    CommandSpec {
        name: "units",
        options: &[],
        extras: &[],
        words: &["FILE"],
        lists: &[],
    },
    CommandSpec {
        name: "answer",
        options: &["session", "serial", "vrps"],
        extras: &["session0"],
        words: &["HEX"],
        lists: &[],
    },
    CommandSpec {
        name: "route",
        options: &["vrps"],
        extras: &[],
        words: &["PREFIX", "ORIGIN"],
        lists: &[],
    },
    CommandSpec {
        name: "serve",
        options: &["port", "session", "start", "vrps", "connections"],
        extras: &["session0"],
        words: &[],
        lists: &[],
    },
    CommandSpec {
        name: "fetch",
        options: &["port"],
        extras: &["rtr-version"],
        words: &[],
        lists: &[],
    },
    CommandSpec {
        name: "loop",
        options: &["session", "start", "vrps"],
        extras: &[],
        words: &["PREFIX", "ORIGIN"],
        lists: &[],
    },
    CommandSpec {
        name: "world",
        options: &[],
        extras: &[],
        words: &["FILE"],
        lists: &[],
    },
];

fn word<'a>(alloc: Global, name: &'static str) -> Arg<'a> {
    Arg::new(alloc, name).required(true).action(ArgAction::Set)
}

fn subcommand<'a>(alloc: Global, spec: &CommandSpec) -> Result<ClapCommand<'a>, AllocError> {
    let mut command = ClapCommand::new(alloc, spec.name);
    for name in spec.options {
        command = command.arg(word(alloc, name).long(name))?;
    }
    for name in spec.extras {
        command = command.arg(word(alloc, name).long(name).required(false))?;
    }
    for name in spec.words {
        command = command.arg(word(alloc, name))?;
    }
    for name in spec.lists {
        let words = word(alloc, name).num_args(1..).action(ArgAction::Append);
        command = command.arg(words)?;
    }
    Ok(command)
}

/// The command line of the program, for the parser: one level of commands, without help or version.
fn command_line<'a>(alloc: Global) -> Result<ClapCommand<'a>, AllocError> {
    let mut all = ClapCommand::new(alloc, "rpkirtr")
        .no_binary_name(true)
        .disable_help_flag(true)
        .disable_help_subcommand(true)
        .disable_version_flag(true)
        .subcommand_required(true);
    for spec in &COMMANDS {
        all = all.subcommand(subcommand(alloc, spec)?)?;
    }
    Ok(all)
}

/// The parsed command line.
#[derive(Debug, Drop)]
pub enum Command<'a> {
    /// `roa`: prints the ROA payload in `file`.
    Roa {
        file: &'a str,
    },
    /// `manifest`: prints the manifest payload in `file`.
    Manifest {
        file: &'a str,
    },
    /// `payloads`: offers the directories to their publication points, and prints the payloads valid at the time `now`.
    Payloads {
        now: &'a str,
        directories: Vec<&'a str>,
    },
    /// `units`: prints the PDUs at the beginning of `file`.
    Units {
        file: &'a str,
    },
    /// `answer`: prints a cache's replies to the bytes that `hex` gives in hexadecimal. It has published the list in the file `vrps` under
    /// `name`.
    Answer {
        name: CacheName,
        vrps: &'a str,
        hex: &'a str,
    },
    /// `route`: prints the state of the route of `prefix` and `origin` over the list in the file `vrps`.
    Route {
        vrps: &'a str,
        prefix: &'a str,
        origin: &'a str,
    },
    /// `serve`: serves `connections` connections on `port` of 127.0.0.1, one after the other. The cache publishes the list in the file `vrps`
    /// under `name`.
    Serve {
        port: u16,
        name: CacheName,
        vrps: &'a str,
        connections: u32,
    },
    /// `fetch`: fetches from a cache on `port` of 127.0.0.1 in this protocol version, and prints the set.
    Fetch {
        port: u16,
        version: Version,
    },
    /// `loop`: fetches from a cache over a local connection, and prints the state of the route of `prefix` and `origin`.
    /// The cache has published the list in the file `vrps` under `name`.
    Loop {
        name: CacheName,
        vrps: &'a str,
        prefix: &'a str,
        origin: &'a str,
    },
    /// `world`: runs the script in `file` on a world of one cache and its routers.
    World {
        file: &'a str,
    },
}

fn fault_of(error: Error) -> CommandFault {
    if error.kind() == ErrorKind::OutOfMemory {
        CommandFault::Memory
    } else {
        CommandFault::Invalid
    }
}

/// The value of an option or a word.
fn value<'a>(found: &ArgMatches<'a>, name: &str) -> Result<&'a str, CommandFault> {
    found.get_str(name).ok_or(CommandFault::Invalid)
}

/// The number of 16 bits of this name.
fn number_16(found: &ArgMatches<'_>, name: &str) -> Result<u16, CommandFault> {
    let number = decimal(value(found, name)?).ok_or(CommandFault::Invalid)?;
    u16::try_from(number).map_err(|_| CommandFault::Invalid)
}

/// The number of 16 bits of this name, or `number` if the option is missing.
fn number_16_or(found: &ArgMatches<'_>, name: &str, number: u16) -> Result<u16, CommandFault> {
    match found.get_str(name) {
        None => Ok(number),
        Some(_) => number_16(found, name),
    }
}

/// The protocol version of this name, or 1 if the option is missing.
fn version(found: &ArgMatches<'_>, name: &str) -> Result<Version, CommandFault> {
    match number_16_or(found, name, 1)? {
        0 => Ok(Version::V0),
        1 => Ok(Version::V1),
        _ => Err(CommandFault::Invalid),
    }
}

/// The number of 32 bits of this name.
fn number_32(found: &ArgMatches<'_>, name: &str) -> Result<u32, CommandFault> {
    let number = decimal(value(found, name)?).ok_or(CommandFault::Invalid)?;
    u32::try_from(number).map_err(|_| CommandFault::Invalid)
}

/// The name of a cache: its session, its session in version 0 if given, and the number under `serial`.
fn cache_name(found: &ArgMatches<'_>, serial: &str) -> Result<CacheName, CommandFault> {
    let session = number_16(found, "session")?;
    Ok(CacheName {
        session,
        session0: number_16_or(found, "session0", session)?,
        serial: number_32(found, serial)?,
    })
}

fn roa_command<'a>(found: &ArgMatches<'a>) -> Result<Command<'a>, CommandFault> {
    Ok(Command::Roa {
        file: value(found, "FILE")?,
    })
}

fn manifest_command<'a>(found: &ArgMatches<'a>) -> Result<Command<'a>, CommandFault> {
    Ok(Command::Manifest {
        file: value(found, "FILE")?,
    })
}

fn payloads_command<'a>(
    alloc: Global,
    found: &ArgMatches<'a>,
) -> Result<Command<'a>, CommandFault> {
    let mut directories = Vec::new(alloc);
    for &directory in found.get_strs("DIR").ok_or(CommandFault::Invalid)? {
        if directories.push(directory).is_err() {
            return Err(CommandFault::Memory);
        }
    }
    Ok(Command::Payloads {
        now: value(found, "now")?,
        directories,
    })
}

fn units_command<'a>(found: &ArgMatches<'a>) -> Result<Command<'a>, CommandFault> {
    Ok(Command::Units {
        file: value(found, "FILE")?,
    })
}

fn answer_command<'a>(found: &ArgMatches<'a>) -> Result<Command<'a>, CommandFault> {
    Ok(Command::Answer {
        name: cache_name(found, "serial")?,
        vrps: value(found, "vrps")?,
        hex: value(found, "HEX")?,
    })
}

fn route_command<'a>(found: &ArgMatches<'a>) -> Result<Command<'a>, CommandFault> {
    Ok(Command::Route {
        vrps: value(found, "vrps")?,
        prefix: value(found, "PREFIX")?,
        origin: value(found, "ORIGIN")?,
    })
}

fn serve_command<'a>(found: &ArgMatches<'a>) -> Result<Command<'a>, CommandFault> {
    Ok(Command::Serve {
        port: number_16(found, "port")?,
        name: cache_name(found, "start")?,
        vrps: value(found, "vrps")?,
        connections: number_32(found, "connections")?,
    })
}

fn fetch_command<'a>(found: &ArgMatches<'a>) -> Result<Command<'a>, CommandFault> {
    Ok(Command::Fetch {
        port: number_16(found, "port")?,
        version: version(found, "rtr-version")?,
    })
}

fn loop_command<'a>(found: &ArgMatches<'a>) -> Result<Command<'a>, CommandFault> {
    let session = number_16(found, "session")?;
    Ok(Command::Loop {
        name: CacheName {
            session,
            session0: session,
            serial: number_32(found, "start")?,
        },
        vrps: value(found, "vrps")?,
        prefix: value(found, "PREFIX")?,
        origin: value(found, "ORIGIN")?,
    })
}

fn world_command<'a>(found: &ArgMatches<'a>) -> Result<Command<'a>, CommandFault> {
    Ok(Command::World {
        file: value(found, "FILE")?,
    })
}

/// Parses the command line, without the program name. `Err(Invalid)`: it does not parse. `Err(Memory)`: memory ran out.
pub fn read_words(alloc: Global, words: &[String]) -> Result<Command<'_>, CommandFault> {
    let command = command_line(alloc)?;
    let matches = command.try_get_matches_from(words).map_err(fault_of)?;
    match matches.subcommand() {
        Some(("roa", found)) => roa_command(found),
        Some(("manifest", found)) => manifest_command(found),
        Some(("payloads", found)) => payloads_command(alloc, found),
        Some(("units", found)) => units_command(found),
        Some(("answer", found)) => answer_command(found),
        Some(("route", found)) => route_command(found),
        Some(("serve", found)) => serve_command(found),
        Some(("fetch", found)) => fetch_command(found),
        Some(("loop", found)) => loop_command(found),
        Some(("world", found)) => world_command(found),
        _ => Err(CommandFault::Invalid),
    }
}
