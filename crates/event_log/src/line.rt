//! The lines of the event log, as text, as JSON and for systemd.
ghost use Rattle.std.specs.Prelude.{◌≡◌, ◌<◌, ◌/◌, ◌%◌, ◌∷◌, ◌++◌, [], true, codes, map, OnOk};
ghost use Rattle.std.specs.Char.{digit_char, is_control};
ghost use Rattle.std.specs.Io.KnownBytes.{Appends};
ghost use Rattle.std.specs.List.{flat_map, list_all};
ghost use Rattle.std.specs.Str.{chars};
ghost use Rattle.event_log.specs.Entries.{Text, daemon_entries, entries_of, file_entries, log_pair, log_value, word_of};
ghost use Rattle.event_log.specs.Lines.{LogsEvent, end_text, entry_text, escaped, head_text, log_char, is_plain, is_plain_byte};
ghost use Rattle.event_log.specs.Lines.{json_entry, json_value, line_text, plain_entry, plain_head, plain_value, quoted};
ghost use Rattle.event_log.specs.Levels.{level_of};

use crate::clock::{civil_at, time_text};
use crate::entries::{
    Pair, Value, address, checked_pairs, client_closed_pairs, not_served_pairs, number,
    publication_pairs, refused_version_pairs, report_pairs, session_pairs, slurm_not_served_pairs,
    status_full_pairs, text, word_of,
};
use crate::event::LogEvent;
use crate::level::LogLevel;
use std::io::{self, Write};

/// The format of the log.
#[derive(Clone, Copy, Debug, PartialEq, Eq)]
pub enum LogFormat {
    /// The time, the event's word, and `key=value` for each value, separated by blanks.
    Text,
    /// A JSON object with `time`, `level`, `event` and the values.
    Json,
    /// A line as in `Text`, with its severity before it as `<N>` (sd-daemon(3)). The journal of systemd reads the priority of the line from
    /// it.
    Systemd,
}

/// The hexadecimal digit of a number below 16.
fn hex_digit(number: u32) -> u8
    requires { number < 16 }
    ensures { result ≡ digit_char number }
{
    if number < 10 {
        b'0' + number as u8
    } else {
        b'a' + (number - 10) as u8
    }
}

/// Writes a control character as an escape of its number.
fn write_control<W: Write>(out: &mut W, character: char) -> io::Result<()>
    requires { is_control character ≡ true }
    ensures { OnOk result (Appends (W.contents out.old) (W.contents out.new)
        (codes "\\u00" ++ digit_char (character / 16) ∷ digit_char (character % 16) ∷ [])) }
{
    let code = character as u32;
    let digits = [hex_digit(code / 16), hex_digit(code % 16)];
    out.write_all(b"\\u00")?;
    out.write_all(&digits)
}

/// Writes a character that needs no backslash. A control character is escaped.
fn write_log_char<W: Write>(out: &mut W, character: char) -> io::Result<()>
    ensures { OnOk result (Appends (W.contents out.old) (W.contents out.new) (log_char character)) }
{
    if character.is_control() {
        return write_control(out, character);
    }
    write!(out, "{character}")
}

/// Writes a character of a quoted text. Quotes, backslashes and control characters are escaped (RFC 8259 section 7).
fn write_char<W: Write>(out: &mut W, character: char) -> io::Result<()>
    ensures { OnOk result (Appends (W.contents out.old) (W.contents out.new) (escaped character)) }
{
    if character == '"' {
        return out.write_all(b"\\\"");
    }
    if character == '\\' {
        return out.write_all(b"\\\\");
    }
    write_log_char(out, character)
}

/// Writes the escaped characters of a text.
fn write_escaped<W: Write>(out: &mut W, text: &str) -> io::Result<()>
    ensures { OnOk result (Appends (W.contents out.old) (W.contents out.new) (flat_map escaped (chars text.now))) }
{
    for character in text.chars() {
        write_char(out, character)?;
    }
    Ok(())
}

/// Writes a quoted text.
#[tactic(auto, unfolding(crate::specs::Lines::quoted))]
fn write_quoted<W: Write>(out: &mut W, text: &str) -> io::Result<()>
    ensures { OnOk result (Appends (W.contents out.old) (W.contents out.new) (quoted text.now)) }
{
    out.write_all(b"\"")?;
    write_escaped(out, text)?;
    out.write_all(b"\"")
}

/// Whether a byte may occur in an unquoted value.
fn is_plain_byte(byte: u8) -> bool
    ensures { result ≡ is_plain_byte byte }
{
    33 <= byte && byte <= 126 && !(byte == b'"' || byte == b'=' || byte == b'\\')
}

/// Whether each byte may occur in an unquoted value.
fn are_plain(bytes: &[u8]) -> bool
    ensures { result ≡ list_all is_plain_byte bytes.now }
{
    bytes.iter().all(|&byte| is_plain_byte(byte))
}

/// Whether a text needs no quotes in a line of `key=value`.
fn is_plain(text: &str) -> bool
    ensures { result ≡ is_plain text.now }
{
    !text.is_empty() && are_plain(text.as_bytes())
}

/// Writes a text, quoted if it has to be.
fn write_plain_text<W: Write>(out: &mut W, text: &str) -> io::Result<()>
    ensures { OnOk result (Appends (W.contents out.old) (W.contents out.new) (plain_value (Text text.now))) }
{
    if is_plain(text) {
        return out.write_all(text.as_bytes());
    }
    write_quoted(out, text)
}

fn write_plain_value<W: Write>(out: &mut W, value: &Value<'_>) -> io::Result<()>
    ensures { OnOk result (Appends (W.contents out.old) (W.contents out.new) (plain_value (log_value value.now))) }
{
    match value {
        Value::Nothing => out.write_all(b"none"),
        Value::Number(number) => write!(out, "{number}"),
        Value::Address(address) => write!(out, "{address}"),
        Value::Text(text) => write_plain_text(out, text),
    }
}

fn write_json_value<W: Write>(out: &mut W, value: &Value<'_>) -> io::Result<()>
    ensures { OnOk result (Appends (W.contents out.old) (W.contents out.new) (json_value (log_value value.now))) }
{
    match value {
        Value::Nothing => out.write_all(b"null"),
        Value::Number(number) => write!(out, "{number}"),
        Value::Address(address) => write!(out, "\"{address}\""),
        Value::Text(text) => write_quoted(out, text),
    }
}

fn write_plain_pair<W: Write>(out: &mut W, pair: &Pair<'_>) -> io::Result<()>
    ensures { OnOk result (Appends (W.contents out.old) (W.contents out.new) (plain_entry (log_pair pair.now))) }
{
    write!(out, " {}=", pair.key)?;
    write_plain_value(out, &pair.value)
}

fn write_json_pair<W: Write>(out: &mut W, pair: &Pair<'_>) -> io::Result<()>
    ensures { OnOk result (Appends (W.contents out.old) (W.contents out.new) (json_entry (log_pair pair.now))) }
{
    write!(out, ",\"{}\":", pair.key)?;
    write_json_value(out, &pair.value)
}

/// Writes a value under its key.
fn write_pair<W: Write>(out: &mut W, form: LogFormat, pair: &Pair<'_>) -> io::Result<()>
    ensures { OnOk result (Appends (W.contents out.old) (W.contents out.new) (entry_text form (log_pair pair.now))) }
{
    match form {
        LogFormat::Text | LogFormat::Systemd => write_plain_pair(out, pair),
        LogFormat::Json => write_json_pair(out, pair),
    }
}

fn write_pairs<W: Write>(out: &mut W, form: LogFormat, pairs: &[Pair<'_>]) -> io::Result<()>
    ensures { OnOk result (Appends (W.contents out.old) (W.contents out.new) (flat_map (entry_text form) (map log_pair pairs.now))) }
{
    for pair in pairs {
        write_pair(out, form, pair)?;
    }
    Ok(())
}

fn write_plain_head<W: Write>(out: &mut W, time: &[u8], word: &str) -> io::Result<()>
    ensures { OnOk result (Appends (W.contents out.old) (W.contents out.new) (plain_head time.now word.now)) }
{
    out.write_all(time)?;
    write!(out, " {word}")
}

fn write_json_head<W: Write>(
    out: &mut W,
    time: &[u8],
    level: LogLevel,
    word: &str,
) -> io::Result<()>
    ensures { OnOk result (Appends (W.contents out.old) (W.contents out.new) (head_text LogFormat.Json time.now level word.now)) }
{
    out.write_all(b"{\"time\":\"")?;
    out.write_all(time)?;
    write!(out, "\",\"level\":\"{level}")?;
    write!(out, "\",\"event\":\"{word}\"")
}

/// Writes the severity, and then the start of a line of text.
fn write_systemd_head<W: Write>(
    out: &mut W,
    time: &[u8],
    level: LogLevel,
    word: &str,
) -> io::Result<()>
    ensures { OnOk result (Appends (W.contents out.old) (W.contents out.new) (head_text LogFormat.Systemd time.now level word.now)) }
{
    write!(out, "<{}>", level.severity())?;
    write_plain_head(out, time, word)
}

/// Writes the start of a line.
fn write_head<W: Write>(
    out: &mut W,
    form: LogFormat,
    time: &[u8],
    level: LogLevel,
    word: &str,
) -> io::Result<()>
    ensures { OnOk result (Appends (W.contents out.old) (W.contents out.new) (head_text form time.now level word.now)) }
{
    match form {
        LogFormat::Text => write_plain_head(out, time, word),
        LogFormat::Json => write_json_head(out, time, level, word),
        LogFormat::Systemd => write_systemd_head(out, time, level, word),
    }
}

/// Writes the end of a line.
fn write_end<W: Write>(out: &mut W, form: LogFormat) -> io::Result<()>
    ensures { OnOk result (Appends (W.contents out.old) (W.contents out.new) (end_text form)) }
{
    match form {
        LogFormat::Text | LogFormat::Systemd => out.write_all(b"\n"),
        LogFormat::Json => out.write_all(b"}\n"),
    }
}

/// Writes the values of an event under their keys. First come the events about clients.
fn write_values<W: Write>(out: &mut W, form: LogFormat, event: &LogEvent<'_>) -> io::Result<()>
    ensures { OnOk result (Appends (W.contents out.old) (W.contents out.new) (flat_map (entry_text form) (entries_of event.now))) }
{
    match event {
        LogEvent::ClientCame { address: at } | LogEvent::Stalled { address: at } => {
            write_pairs(out, form, &[address(at)])
        }
        LogEvent::ClientGone(closed) => write_pairs(out, form, &client_closed_pairs(closed)),
        LogEvent::ErrorReport(report) => write_pairs(out, form, &report_pairs(report)),
        LogEvent::VersionRefused { address, asked } => {
            write_pairs(out, form, &refused_version_pairs(address, *asked))
        }
        LogEvent::StatusFull {
            address: at,
            clients,
        } => { write_pairs(out, form, &status_full_pairs(at, *clients)) }
        LogEvent::Full {
            address: at,
            clients,
        }
        | LogEvent::AddressFull {
            address: at,
            clients,
        } => { write_pairs(out, form, &[address(at), number("clients", *clients)]) }
        LogEvent::Suppressed { lines, seconds } => {
            let pairs = [number("lines", *lines), number("seconds", *seconds)];
            write_pairs(out, form, &pairs)
        }
        _ => write_file_values(out, form, event),
    }
}

/// Writes the values of an event that is not about clients. First come the events about files.
fn write_file_values<W: Write>(out: &mut W, form: LogFormat, event: &LogEvent<'_>) -> io::Result<()>
    ensures { OnOk result (Appends (W.contents out.old) (W.contents out.new) (flat_map (entry_text form) (file_entries event.now))) }
{
    match event {
        LogEvent::Taken { file } => write_pairs(out, form, &[text("file", file)]),
        LogEvent::Refused { file, reason } => {
            write_pairs(out, form, &[text("file", file), text("reason", reason)])
        }
        LogEvent::FileUnwell { reason, file } | LogEvent::FileWell { reason, file } => {
            write_pairs(out, form, &[text("reason", reason), text("file", file)])
        }
        LogEvent::Old { file, age } | LogEvent::Fresh { file, age } => {
            write_pairs(out, form, &[text("file", file), number("age", *age)])
        }
        LogEvent::Expired {
            file,
            entries: count,
        } => { write_pairs(out, form, &[text("file", file), number("entries", *count)]) }
        LogEvent::NotServed {
            file,
            aspas,
            router_keys,
        } => { write_pairs(out, form, &not_served_pairs(file, *aspas, *router_keys)) }
        LogEvent::SlurmNotServed {
            file,
            bgpsec_filters,
            bgpsec_assertions,
        } => {
            let pairs = slurm_not_served_pairs(file, *bgpsec_filters, *bgpsec_assertions);
            write_pairs(out, form, &pairs)
        }
        LogEvent::Checked {
            files,
            ipv4,
            ipv6,
            left_out,
        } => { write_pairs(out, form, &checked_pairs(*files, *ipv4, *ipv6, *left_out)) }
        _ => write_daemon_values(out, form, event),
    }
}

/// Writes the values of an event about the daemon. Another event has none here.
fn write_daemon_values<W: Write>(
    out: &mut W,
    form: LogFormat,
    event: &LogEvent<'_>,
) -> io::Result<()>
    ensures { OnOk result (Appends (W.contents out.old) (W.contents out.new) (flat_map (entry_text form) (daemon_entries event.now))) }
{
    match event {
        LogEvent::Started(names) => write_pairs(out, form, &session_pairs(names)),
        LogEvent::Published(publication) => write_pairs(out, form, &publication_pairs(publication)),
        LogEvent::Listening { address: at } | LogEvent::Status { address: at } => {
            write_pairs(out, form, &[address(at)])
        }
        LogEvent::Limited { clients } => write_pairs(out, form, &[number("clients", *clients)]),
        LogEvent::LeftOut { records } => write_pairs(out, form, &[number("records", *records)]),
        LogEvent::Dropped { lines } => write_pairs(out, form, &[number("lines", *lines)]),
        LogEvent::Clock { behind } => write_pairs(out, form, &[number("behind", *behind)]),
        LogEvent::Memory { what } => write_pairs(out, form, &[text("what", what)]),
        LogEvent::Failed { what, reason } => {
            write_pairs(out, form, &[text("what", what), text("reason", reason)])
        }
        LogEvent::Warning { reason }
        | LogEvent::Stopped { reason }
        | LogEvent::Unwell { reason }
        | LogEvent::Well { reason } => write_pairs(out, form, &[text("reason", reason)]),
        _ => Ok(()),
    }
}

/// Writes the line of an event at this time.
fn write_event_at<W: Write>(
    out: &mut W,
    form: LogFormat,
    time: &[u8],
    event: &LogEvent<'_>,
) -> io::Result<()>
    ensures { OnOk result (Appends (W.contents out.old) (W.contents out.new) (line_text form time.now (level_of event.now) (word_of event.now) (entries_of event.now))) }
{
    write_head(out, form, time, event.level(), word_of(event))?;
    write_values(out, form, event)?;
    write_end(out, form)
}

/// Appends the line of an event to `out`, in the format `form`, with a newline at its end. `seconds` is the time of the event, in seconds since 1970.
/// `Err`: a write to `out` failed. A part of the line may be written then. No memory is allocated.
/// If `out` has no buffer, it is called for each piece of the line.
pub fn write_event<W: Write>(
    out: &mut W,
    form: LogFormat,
    seconds: u64,
    event: &LogEvent<'_>,
) -> io::Result<()>
    ensures { OnOk result (LogsEvent (W.contents out.old) (W.contents out.new) form seconds event.now) }
{
    let time = time_text(&civil_at(seconds));
    write_event_at(out, form, &time, event)
}
