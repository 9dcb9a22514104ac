//! The parsed command line.
ghost use Rattle.std.specs.Prelude.{◌≡◌, ◌≤◌, ◌+◌, true, IfOk, IsSome, vec_len};
ghost use Rattle.rpkirtrd_cli.specs.Bounds.{is_within};

use crate::fault::OptionFault;
use crate::help::{help, version};
use crate::options::command_line;
use crate::settings::Settings;
use crate::values::{
    address, addresses, host_name, log_format, log_level, max_shrink, number, number_16, number_32,
    number_or, paths, shrink_hold,
};
use clap::error::ErrorKind;
use clap::{ArgMatches, Error};
use rtr_ends::Timing;
use std::alloc::Global;
use std::net::{IpAddr, Ipv4Addr, SocketAddr};

/// The parsed command line.
#[derive(Debug, Drop)]
pub enum Command {
    /// A run with these settings.
    Serve(Settings),
    /// The help text, to print.
    Help(String),
    /// The program's name and version as text, to print.
    Version(String),
}

/// The default port: rpki-rtr is 323 (RFC 8210 section 9), and this one needs no privilege.
const PORT: u16 = 3323;

/// The default of the largest file size, in bytes.
const MAX_SIZE: u64 = 1_073_741_824;

/// The message of the parser, up to its usage.
fn before_usage(text: &str) -> &str {
    match text.split_once("\n\nUsage") {
        Some((before, _)) => before,
        None => text,
    }
}

/// The message without its first word.
fn without_word(text: &str) -> &str {
    match text.strip_prefix("error: ") {
        Some(rest) => rest,
        None => text,
    }
}

/// Why the words do not parse, in the first lines of the parser's message.
fn unclear(alloc: Global, error: &Error) -> Result<String, OptionFault> {
    let all = format!(in alloc; "{error}")?;
    let message = without_word(before_usage(all.as_str()));
    Ok(String::from_str(alloc, message.trim_end())?)
}

fn fault_of(alloc: Global, error: &Error) -> OptionFault {
    if error.kind() == ErrorKind::OutOfMemory {
        return OptionFault::Memory;
    }
    match unclear(alloc, error) {
        Ok(message) => OptionFault::Unclear(message),
        Err(fault) => fault,
    }
}

/// The intervals that are sent to routers (RFC 8210 section 6).
fn timing(alloc: Global, found: &ArgMatches<'_>) -> Result<Timing, OptionFault> {
    let refresh = number_or(alloc, found, "refresh", 1, 86_400, 3600)?;
    let retry = number_or(alloc, found, "retry", 1, 7200, 600)?;
    let expire = number_or(alloc, found, "expire", 600, 172_800, 7200)?;
    match Timing::new(refresh, retry, expire) {
        Ok(timing) => Ok(timing),
        Err(_) => Err(OptionFault::Expire {
            expire,
            refresh,
            retry,
        }),
    }
}

/// The listening addresses for routers.
fn listen(alloc: Global, found: &ArgMatches<'_>) -> Result<Vec<SocketAddr>, OptionFault>
    ensures { IfOk result (λ all. 1 ≤ vec_len all) }
{
    let mut all = addresses(alloc, found, "listen")?;
    if all.is_empty() {
        let default = SocketAddr::new(IpAddr::V4(Ipv4Addr::LOCALHOST), PORT);
        if all.push(default).is_err() {
            return Err(OptionFault::Memory);
        }
    }
    Ok(all)
}

/// The paths of the sources, at least one.
#[derive(Drop)]
struct SourcePaths {
    vrps: Vec<String>,
    points: Vec<String>,
    ghost has_source: { 1 ≤ vec_len vrps + vec_len points },
}

fn to_serve(alloc: Global, found: &ArgMatches<'_>) -> Result<SourcePaths, OptionFault> {
    let vrps = paths(alloc, found, "vrps")?;
    let points = paths(alloc, found, "points")?;
    if vrps.is_empty() && points.is_empty() {
        return Err(OptionFault::NoSource);
    }
    Ok(SourcePaths { vrps, points })
}

/// The maximum age of an export, and whether the daemon stops if one is older.
#[derive(Clone, Copy)]
struct MaxAge {
    max_age: Option<u64>,
    stop_when_old: bool,
    ghost ages: { stop_when_old ≡ true → IsSome max_age },
    ghost ages_within: { is_within 1 4294967295 max_age ≡ true },
}

fn age(alloc: Global, found: &ArgMatches<'_>) -> Result<MaxAge, OptionFault> {
    let max_age = number(alloc, found, "max-age", 1, 4_294_967_295)?;
    let stop_when_old = found.get_flag("stop-when-old");
    if stop_when_old && max_age.is_none() {
        return Err(OptionFault::NoAge);
    }
    Ok(MaxAge {
        max_age,
        stop_when_old,
    })
}

/// The address of the status pages, and their name.
#[derive(Drop)]
struct StatusAddress {
    address: Option<SocketAddr>,
    name: Option<String>,
    ghost names: { IsSome name → IsSome address },
}

fn status(alloc: Global, found: &ArgMatches<'_>) -> Result<StatusAddress, OptionFault> {
    let address = address(alloc, found, "status")?;
    let name = host_name(alloc, found, "status-name")?;
    if name.is_some() && address.is_none() {
        return Err(OptionFault::NoStatus);
    }
    Ok(StatusAddress { address, name })
}

/// The largest file size in bytes.
fn max_size(alloc: Global, found: &ArgMatches<'_>) -> Result<u64, OptionFault>
    ensures { IfOk result (λ size. (1 ≤ size) × (size ≤ 1099511627776)) }
{
    match number(alloc, found, "max-size", 1, 1_099_511_627_776)? {
        Some(size) => Ok(size),
        None => Ok(MAX_SIZE),
    }
}

/// The guard against an export that shrinks.
#[derive(Clone, Copy)]
struct Shrinking {
    percent: Option<u8>,
    hold: u32,
    ghost percent_within: { is_within 1 99 percent ≡ true },
    ghost hold_from: { 60 ≤ hold },
    ghost hold_to: { hold ≤ 31536000 },
}

/// The guard of two options, each of which may be absent.
fn shrink(
    alloc: Global,
    percent: Option<&str>,
    hold: Option<&str>,
) -> Result<Shrinking, OptionFault>
    ensures { IfOk result (λ guard. IsSome hold.entry → IsSome guard.percent) }
{
    let is_held = hold.is_some();
    let percent = max_shrink(alloc, percent)?;
    if is_held && percent.is_none() {
        return Err(OptionFault::NoShrink);
    }
    let hold = shrink_hold(alloc, hold)?;
    Ok(Shrinking { percent, hold })
}

/// The settings of a run.
fn settings(alloc: Global, found: &ArgMatches<'_>) -> Result<Settings, OptionFault> {
    let SourcePaths { vrps, points } = to_serve(alloc, found)?;
    let MaxAge {
        max_age,
        stop_when_old,
    } = age(alloc, found)?;
    let StatusAddress { address, name } = status(alloc, found)?;
    let (percent, hold) = (found.get_str("max-shrink"), found.get_str("shrink-hold"));
    let Shrinking { percent, hold } = shrink(alloc, percent, hold)?;
    Ok(Settings {
        vrps,
        points,
        slurm: paths(alloc, found, "slurm")?,
        listen: listen(alloc, found)?,
        session: number_16(alloc, found, "session")?,
        session0: number_16(alloc, found, "session0")?,
        start: number_32(alloc, found, "start")?,
        keep: number_or(alloc, found, "keep", 1, 65_536, 16)?,
        timing: timing(alloc, found)?,
        check: number_or(alloc, found, "check", 1, 4_294_967_295, 60)?,
        max_age,
        stop_when_old,
        max_size: max_size(alloc, found)?,
        max_shrink: percent,
        shrink_hold: hold,
        leave_out_length_0: found.get_flag("leave-out-length-0"),
        clients: number_or(alloc, found, "clients", 1, 4_294_967_295, 256)? as usize,
        clients_per_address: number(alloc, found, "clients-per-address", 1, 4_294_967_295)?,
        stall: number_or(alloc, found, "stall", 1, 4_294_967_295, 120)?,
        slow: number_or(alloc, found, "slow", 60, 86_400, 3600)?,
        status: address,
        status_name: name,
        log: log_format(alloc, found, "log")?,
        log_level: log_level(alloc, found, "log-level")?,
        once: found.get_flag("once"),
        check_config: found.get_flag("check-config"),
    })
}

/// Parses the command line, without the program name. `--help` and then `--version` win over other options that parse.
/// `Err`: the command line does not parse, its settings contradict each other, or memory ran out.
pub fn read_words(alloc: Global, words: &[String]) -> Result<Command, OptionFault> {
    let command = command_line(alloc)?;
    let found = match command.try_get_matches_from(words) {
        Ok(found) => found,
        Err(error) => return Err(fault_of(alloc, &error)),
    };
    if found.get_flag("help") {
        return Ok(Command::Help(help(alloc)?));
    }
    if found.get_flag("version") {
        return Ok(Command::Version(version(alloc)?));
    }
    Ok(Command::Serve(settings(alloc, &found)?))
}
