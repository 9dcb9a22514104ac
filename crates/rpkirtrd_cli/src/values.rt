//! The values of options.
ghost use Rattle.std.specs.Prelude.{◌≡◌, ◌≤◌, false, true, IfOk, IfSome, option_copied, string_bytes};
ghost use Rattle.rpkirtrd_cli.specs.Decimals.{ReadsBetween, ReadsNumber};
ghost use Rattle.rpkirtrd_cli.specs.Bounds.{is_within};
ghost use Rattle.rpkirtrd_cli.specs.Shrinks.{ReadsMaxShrink, ReadsPercentage, ReadsShrinkHold};
ghost use Rattle.rpkirtrd_cli.specs.Urls.{is_url};

use crate::fault::{OptionFault, Wanted};
use clap::ArgMatches;
use event_log::{LogFormat, LogLevel};
use std::alloc::Global;
use std::net::SocketAddr;

/// The default of `--max-shrink`, in percent.
const MAX_SHRINK: u8 = 90;

/// The default of `--shrink-hold`, in seconds.
const SHRINK_HOLD: u32 = 86_400;

/// The fault of a value that does not have the required form.
fn wrong(alloc: Global, option: &'static str, value: &str, wanted: Wanted) -> OptionFault {
    match String::from_str(alloc, value) {
        Ok(value) => OptionFault::Value {
            option,
            value,
            wanted,
        },
        Err(_) => OptionFault::Memory,
    }
}

/// The number of a text in decimal digits, without a sign or a leading zero.
fn decimal(text: &str) -> Option<u64>
    ensures { ReadsNumber text.now result }
{
    let bytes = text.as_bytes();
    if bytes.is_empty() || bytes[0] == b'+' {
        return None;
    }
    if bytes[0] == b'0' && bytes.len() > 1 {
        return None;
    }
    match text.parse::<u64>() {
        Ok(number) => Some(number),
        Err(_) => None,
    }
}

/// The number of an option's text, from `least` to `most`.
fn number_in(
    alloc: Global,
    option: &'static str,
    text: &str,
    least: u64,
    most: u64,
) -> Result<u64, OptionFault>
    ensures { ReadsBetween least most text.now result }
{
    match decimal(text) {
        Some(number) if least <= number && number <= most => Ok(number),
        _ => Err(wrong(alloc, option, text, Wanted::Number { least, most })),
    }
}

/// The number of an option, from `least` to `most`, or `None` if there is no such option.
pub(crate) fn number(
    alloc: Global,
    found: &ArgMatches<'_>,
    option: &'static str,
    least: u64,
    most: u64,
) -> Result<Option<u64>, OptionFault>
    ensures each { IfOk result (λ found. IfSome found (λ n. (least ≤ n) × (n ≤ most))) }
    ensures within { IfOk result (λ found. is_within least most found ≡ true) }
{
    match found.get_str(option) {
        Some(text) => Ok(Some(number_in(alloc, option, text, least, most)?)),
        None => Ok(None),
    }
}

/// The number of an option, from `least` to `most`, or `default` if there is no such option.
pub(crate) fn number_or(
    alloc: Global,
    found: &ArgMatches<'_>,
    option: &'static str,
    least: u32,
    most: u32,
    default: u32,
) -> Result<u32, OptionFault>
    requires { (least ≤ default) × (default ≤ most) }
    ensures { IfOk result (λ n. (least ≤ n) × (n ≤ most)) }
{
    let found = number(alloc, found, option, u64::from(least), u64::from(most))?;
    let Some(number) = found else {
        return Ok(default);
    };
    Ok(number as u32)
}

/// The percentage of a text, or `None` for the word `none`.
fn percentage_in(alloc: Global, option: &'static str, text: &str) -> Result<Option<u8>, OptionFault>
    ensures { ReadsPercentage text.now result }
{
    if text == "none" {
        return Ok(None);
    }
    match decimal(text) {
        Some(number) if 1 <= number && number <= 99 => Ok(Some(number as u8)),
        _ => Err(wrong(alloc, option, text, Wanted::Percentage)),
    }
}

/// How large a part of an export's records may be gone at a change, in percent, or `None` for all of them.
pub(crate) fn max_shrink(alloc: Global, text: Option<&str>) -> Result<Option<u8>, OptionFault>
    ensures { ReadsMaxShrink (option_copied text.entry) result }
{
    match text {
        Some(text) => percentage_in(alloc, "max-shrink", text),
        None => Ok(Some(MAX_SHRINK)),
    }
}

/// For how many seconds an export is refused of which more is gone.
pub(crate) fn shrink_hold(alloc: Global, text: Option<&str>) -> Result<u32, OptionFault>
    ensures { ReadsShrinkHold (option_copied text.entry) result }
{
    let Some(text) = text else {
        return Ok(SHRINK_HOLD);
    };
    let seconds = number_in(alloc, "shrink-hold", text, 60, 31_536_000)?;
    Ok(seconds as u32)
}

/// The number of 32 bits of an option, or `None` if there is no such option.
pub(crate) fn number_32(
    alloc: Global,
    found: &ArgMatches<'_>,
    option: &'static str,
) -> Result<Option<u32>, OptionFault> {
    let found = number(alloc, found, option, 0, 4_294_967_295)?;
    let Some(number) = found else {
        return Ok(None);
    };
    Ok(Some(number as u32))
}

/// The number of 16 bits of an option, or `None` if there is no such option.
pub(crate) fn number_16(
    alloc: Global,
    found: &ArgMatches<'_>,
    option: &'static str,
) -> Result<Option<u16>, OptionFault> {
    let found = number(alloc, found, option, 0, 65_535)?;
    let Some(number) = found else {
        return Ok(None);
    };
    Ok(Some(number as u16))
}

/// Whether a text is a URL of HTTPS or HTTP.
fn is_url(text: &str) -> bool
    ensures { result ≡ is_url text.now }
{
    text.as_bytes().starts_with(b"https://") || text.as_bytes().starts_with(b"http://")
}

/// The path of an option's text.
fn path_in(alloc: Global, option: &'static str, text: &str) -> Result<String, OptionFault>
    ensures same { IfOk result (λ path. string_bytes path ≡ text.now) }
    ensures not_url { IfOk result (λ path. is_url text.now ≡ false) }
{
    if is_url(text) {
        return Err(wrong(alloc, option, text, Wanted::PathNotUrl));
    }
    if text.is_empty() {
        return Err(wrong(alloc, option, text, Wanted::Path));
    }
    Ok(String::from_str(alloc, text)?)
}

/// The paths of an option, in order.
pub(crate) fn paths(
    alloc: Global,
    found: &ArgMatches<'_>,
    option: &'static str,
) -> Result<Vec<String>, OptionFault> {
    let mut all = Vec::new(alloc);
    for text in found.get_strs(option).unwrap_or_default() {
        if all.push(path_in(alloc, option, text)?).is_err() {
            return Err(OptionFault::Memory);
        }
    }
    Ok(all)
}

/// The address of a text, with a port in decimal digits without a leading zero.
fn socket_address(text: &str) -> Option<SocketAddr> {
    let (_, port) = text.rsplit_once(':')?;
    if decimal(port).is_none() {
        return None;
    }
    text.parse::<SocketAddr>().ok()
}

/// The address of an option's text.
fn address_in(alloc: Global, option: &'static str, text: &str) -> Result<SocketAddr, OptionFault> {
    match socket_address(text) {
        Some(address) => Ok(address),
        None => Err(wrong(alloc, option, text, Wanted::Address)),
    }
}

/// The address of an option, if there is one.
pub(crate) fn address(
    alloc: Global,
    found: &ArgMatches<'_>,
    option: &'static str,
) -> Result<Option<SocketAddr>, OptionFault> {
    match found.get_str(option) {
        Some(text) => Ok(Some(address_in(alloc, option, text)?)),
        None => Ok(None),
    }
}

/// The addresses of an option, in order.
pub(crate) fn addresses(
    alloc: Global,
    found: &ArgMatches<'_>,
    option: &'static str,
) -> Result<Vec<SocketAddr>, OptionFault> {
    let mut all = Vec::new(alloc);
    for text in found.get_strs(option).unwrap_or_default() {
        if all.push(address_in(alloc, option, text)?).is_err() {
            return Err(OptionFault::Memory);
        }
    }
    Ok(all)
}

/// The log format that an option gives. If the option is absent, it is text.
pub(crate) fn log_format(
    alloc: Global,
    found: &ArgMatches<'_>,
    option: &'static str,
) -> Result<LogFormat, OptionFault> {
    match found.get_str(option) {
        None => Ok(LogFormat::Text),
        Some("text") => Ok(LogFormat::Text),
        Some("json") => Ok(LogFormat::Json),
        Some("systemd") => Ok(LogFormat::Systemd),
        Some(text) => Err(wrong(alloc, option, text, Wanted::LogFormat)),
    }
}

/// The log level that an option gives. If the option is absent, it is the least severe one.
pub(crate) fn log_level(
    alloc: Global,
    found: &ArgMatches<'_>,
    option: &'static str,
) -> Result<LogLevel, OptionFault> {
    let Some(text) = found.get_str(option) else {
        return Ok(LogLevel::Info);
    };
    match LogLevel::parse(text) {
        Some(level) => Ok(level),
        None => Err(wrong(alloc, option, text, Wanted::LogLevel)),
    }
}

/// Whether a text is a host name: labels with dots between them, of at most 253 bytes.
fn is_host_name(text: &str) -> bool {
    text.len() <= 253 && text.split('.').all(is_label)
}

/// Whether a text is a label of a host name: letters, digits, hyphens and underscores.
fn is_label(text: &str) -> bool {
    !text.is_empty() && text.bytes().all(is_label_byte)
}

fn is_label_byte(byte: u8) -> bool {
    byte.is_ascii_alphanumeric() || byte == b'-' || byte == b'_'
}

/// The host name of an option, if there is one.
pub(crate) fn host_name(
    alloc: Global,
    found: &ArgMatches<'_>,
    option: &'static str,
) -> Result<Option<String>, OptionFault> {
    match found.get_str(option) {
        None => Ok(None),
        Some(text) if is_host_name(text) => Ok(Some(String::from_str(alloc, text)?)),
        Some(text) => Err(wrong(alloc, option, text, Wanted::HostName)),
    }
}
