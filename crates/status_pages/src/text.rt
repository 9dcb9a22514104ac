//! Escaped texts, numbers and times.
ghost use Rattle.std.specs.Prelude.{◌≡◌, ◌<◌, OnOk, if◌then◌else◌, nat_lt, encode_utf8};
ghost use Rattle.std.specs.Char.{digit_char};
ghost use Rattle.std.specs.Io.KnownBytes.{Appends};
ghost use Rattle.std.specs.List.{flat_map};
ghost use Rattle.std.specs.Str.{chars};
ghost use Rattle.status_pages.specs.Escapes.{control_escape, html_char, json_char, label_char};

use event_log::time_at;
use std::io::{self, Write};

/// Writes a character in HTML. `&`, `<`, `>` and quotes are written as character references.
#[tactic(auto, unfolding(crate::specs::Escapes::html_char))]
fn write_html_char<W: Write>(out: &mut W, character: char) -> io::Result<()>
    ensures { OnOk result (Appends (W.contents out.old) (W.contents out.new) (html_char character)) }
{
    match character {
        '&' => out.write_all(b"&amp;"),
        '<' => out.write_all(b"&lt;"),
        '>' => out.write_all(b"&gt;"),
        '"' => out.write_all(b"&quot;"),
        '\'' => out.write_all(b"&#39;"),
        _ => write!(out, "{character}"),
    }
}

/// Writes a text in HTML, for an element or a quoted attribute.
pub(crate) fn write_html<W: Write>(out: &mut W, text: &str) -> io::Result<()>
    ensures { OnOk result (Appends (W.contents out.old) (W.contents out.new) (flat_map html_char (chars text.now))) }
{
    for character in text.chars() {
        write_html_char(out, character)?;
    }
    Ok(())
}

/// Writes a character of a Prometheus label value.
#[tactic(auto, unfolding(crate::specs::Escapes::label_char))]
fn write_label_char<W: Write>(out: &mut W, character: char) -> io::Result<()>
    ensures { OnOk result (Appends (W.contents out.old) (W.contents out.new) (label_char character)) }
{
    match character {
        '\\' => out.write_all(b"\\\\"),
        '"' => out.write_all(b"\\\""),
        '\n' => out.write_all(b"\\n"),
        _ => write!(out, "{character}"),
    }
}

/// Writes a text as a Prometheus label value, without its quotes.
pub(crate) fn write_label<W: Write>(out: &mut W, text: &str) -> io::Result<()>
    ensures { OnOk result (Appends (W.contents out.old) (W.contents out.new) (flat_map label_char (chars text.now))) }
{
    for character in text.chars() {
        write_label_char(out, character)?;
    }
    Ok(())
}

/// The hexadecimal digit of a number below 16.
fn hex_digit(number: u32) -> u8
    requires { number < 16 }
    ensures { result ≡ digit_char number }
{
    if number < 10 {
        b'0' + number as u8
    } else {
        b'a' + (number - 10) as u8
    }
}

/// Writes a control character of a JSON text as an escape of its number.
fn write_control<W: Write>(out: &mut W, code: u32) -> io::Result<()>
    requires { code < 32 }
    ensures { OnOk result (Appends (W.contents out.old) (W.contents out.new) (control_escape code)) }
{
    let digits = [hex_digit(code / 16), hex_digit(code % 16)];
    out.write_all(b"\\u00")?;
    out.write_all(&digits)
}

/// Writes a character of a JSON text that is neither a quote nor a backslash.
fn write_unquoted<W: Write>(out: &mut W, character: char) -> io::Result<()>
    ensures { OnOk result (Appends (W.contents out.old) (W.contents out.new) (if nat_lt character 32 then control_escape character else encode_utf8 character)) }
{
    let code = character as u32;
    if code < 32 {
        return write_control(out, code);
    }
    write!(out, "{character}")
}

/// Writes a character of a JSON text.
#[tactic(auto, unfolding(crate::specs::Escapes::json_char))]
fn write_json_char<W: Write>(out: &mut W, character: char) -> io::Result<()>
    ensures { OnOk result (Appends (W.contents out.old) (W.contents out.new) (json_char character)) }
{
    match character {
        '"' | '\\' => write!(out, "\\{character}"),
        _ => write_unquoted(out, character),
    }
}

/// Writes a text as a JSON string, without its quotes.
pub(crate) fn write_json<W: Write>(out: &mut W, text: &str) -> io::Result<()>
    ensures { OnOk result (Appends (W.contents out.old) (W.contents out.new) (flat_map json_char (chars text.now))) }
{
    for character in text.chars() {
        write_json_char(out, character)?;
    }
    Ok(())
}

/// Writes texts one after the other.
pub(crate) fn write_texts<W: Write>(out: &mut W, texts: &[&str]) -> io::Result<()> {
    for text in texts {
        out.write_all(text.as_bytes())?;
    }
    Ok(())
}

/// Writes a number in decimal digits.
pub(crate) fn write_decimal<W: Write>(out: &mut W, number: u64) -> io::Result<()> {
    write!(out, "{number}")
}

/// The powers of 1,000 below 2^64, the greatest first.
const THOUSANDS: [u64; 7] = [
    1_000_000_000_000_000_000,
    1_000_000_000_000_000,
    1_000_000_000_000,
    1_000_000_000,
    1_000_000,
    1000,
    1,
];

/// Writes a number in groups of three digits with narrow spaces between them.
pub(crate) fn write_grouped<W: Write>(out: &mut W, number: u64) -> io::Result<()> {
    let mut has_begun = false;
    for power in THOUSANDS {
        let group = number.checked_div(power).unwrap_or_default() % 1000;
        if has_begun {
            write_group(out, group)?;
        } else if group > 0 || power == 1 {
            write_decimal(out, group)?;
            has_begun = true;
        }
    }
    Ok(())
}

/// Writes a further group: a narrow space and three digits.
fn write_group<W: Write>(out: &mut W, group: u64) -> io::Result<()> {
    write!(out, "\u{202f}{group:03}")
}

/// Writes a number of seconds in full seconds, minutes, hours or days.
pub(crate) fn write_span<W: Write>(out: &mut W, seconds: u64) -> io::Result<()> {
    let (number, unit) = match seconds {
        0..=119 => (seconds, "s"),
        120..=7199 => (seconds / 60, "min"),
        7200..=172_799 => (seconds / 3600, "h"),
        _ => (seconds / 86_400, "d"),
    };
    write_grouped(out, number)?;
    write_texts(out, &["\u{202f}", unit])
}

/// Writes a part of a time in UTC for people, and the time in the element's attribute for machines.
fn write_time_part<W: Write>(out: &mut W, time: &[u8; 20], part: &[u8]) -> io::Result<()> {
    out.write_all(b"<time datetime=\"")?;
    out.write_all(time)?;
    out.write_all(b"\">")?;
    out.write_all(part)?;
    out.write_all(b"</time>")
}

/// Writes a time in UTC.
pub(crate) fn write_time<W: Write>(out: &mut W, moment: u64) -> io::Result<()> {
    let time = time_at(moment);
    let mut part = [b' '; 19];
    part[..10].copy_from_slice(&time[..10]);
    part[11..].copy_from_slice(&time[11..19]);
    write_time_part(out, &time, &part)
}

/// Writes a time in UTC that is one of a span of this many seconds: its time of day, or its date if the span is longer than two days.
pub(crate) fn write_clock_time<W: Write>(out: &mut W, span: u64, moment: u64) -> io::Result<()> {
    let time = time_at(moment);
    if span > 172_800 {
        return write_time_part(out, &time, &time[..10]);
    }
    write_time_part(out, &time, &time[11..19])
}

/// Writes how long ago a time was, with the time as a hint.
pub(crate) fn write_since<W: Write>(out: &mut W, now: u64, moment: u64) -> io::Result<()> {
    let time = time_at(moment);
    out.write_all(b"<time datetime=\"")?;
    out.write_all(&time)?;
    out.write_all(b"\" title=\"")?;
    out.write_all(&time)?;
    out.write_all(b"\">")?;
    write_span(out, now.saturating_sub(moment))?;
    out.write_all(b" ago</time>")
}
