//! The lines of the log.

use anyhow::{Result, bail};
use event_log::{ClientClosed, LogEvent, LogFormat, PeerReport, Publication, write_event};
use session_names::SessionIds;
use std::io::{self, Write};
use std::net::{IpAddr, Ipv4Addr, Ipv6Addr, SocketAddr};

/// 2026-11-25T18:40:00Z.
const MOMENT: u64 = 1_795_632_000;

fn address() -> SocketAddr {
    SocketAddr::new(IpAddr::V4(Ipv4Addr::new(192, 0, 2, 1)), 40_000)
}

/// The events of the daemon and of its sources.
fn daemon_events() -> [LogEvent<'static>; 12] {
    [
        LogEvent::Unwell { reason: "no_vrps" },
        LogEvent::Well { reason: "shrank" },
        LogEvent::Clock { behind: 3600 },
        LogEvent::Warning {
            reason: "the clock is before the year 2020",
        },
        LogEvent::Started(SessionIds {
            session: 4660,
            session0: 65_535,
            serial: 4_294_967_295,
        }),
        LogEvent::Limited { clients: 100 },
        LogEvent::Ready,
        LogEvent::NoDescriptor,
        LogEvent::Published(Publication {
            session: 4660,
            serial: 5,
            announced: 3,
            withdrawn: 1,
            records: 7,
            milliseconds: 12,
        }),
        LogEvent::Memory { what: "publish" },
        LogEvent::Failed {
            what: "accept",
            reason: "",
        },
        LogEvent::Stopped {
            reason: "the first router has gone",
        },
    ]
}

/// The events of files, with names that must not break a line.
fn file_events() -> [LogEvent<'static>; 11] {
    [
        LogEvent::LeftOut { records: 2 },
        LogEvent::Refused {
            file: "/var/db/vrps.json",
            reason: "not JSON (fault 1)",
        },
        LogEvent::Refused {
            file: "a\nb",
            reason: "\"\\",
        },
        LogEvent::Taken {
            file: "Gr\u{fc}n\u{85}",
        },
        LogEvent::Old {
            file: "a=b",
            age: 86_401,
        },
        LogEvent::Fresh { file: "a", age: 0 },
        LogEvent::FileUnwell {
            reason: "refused_long",
            file: "a b",
        },
        LogEvent::FileWell {
            reason: "old",
            file: "a",
        },
        LogEvent::Expired {
            file: "a",
            entries: 18_446_744_073_709_551_615,
        },
        LogEvent::NotServed {
            file: "a b",
            aspas: 18_446_744_073_709_551_615,
            router_keys: 0,
        },
        LogEvent::SlurmNotServed {
            file: "a",
            bgpsec_filters: 2,
            bgpsec_assertions: 1,
        },
    ]
}

/// The events of clients.
fn client_events() -> [LogEvent<'static>; 12] {
    let at = address();
    let v6 = SocketAddr::new(IpAddr::V6(Ipv6Addr::LOCALHOST), 3323);
    [
        LogEvent::Listening { address: v6 },
        LogEvent::Status { address: v6 },
        LogEvent::ClientCame { address: at },
        LogEvent::ClientGone(ClientClosed {
            address: at,
            why: "peer closed",
            version: Some(1),
            read: 8,
            written: 60,
            seconds: 3600,
        }),
        LogEvent::ClientGone(ClientClosed {
            address: at,
            why: "truncated",
            version: None,
            read: 0,
            written: 0,
            seconds: 0,
        }),
        LogEvent::ErrorReport(PeerReport {
            address: at,
            is_received: true,
            code: 7,
            text: "a=\u{1b}[2J",
        }),
        LogEvent::ErrorReport(PeerReport {
            address: v6,
            is_received: false,
            code: 300,
            text: "",
        }),
        LogEvent::Stalled { address: at },
        LogEvent::Full {
            address: at,
            clients: 256,
        },
        LogEvent::AddressFull {
            address: at,
            clients: 8,
        },
        LogEvent::VersionRefused {
            address: at,
            asked: 255,
        },
        LogEvent::StatusFull {
            address: v6,
            clients: 64,
        },
    ]
}

/// The events of the log itself, and of a checked configuration.
fn log_events() -> [LogEvent<'static>; 3] {
    [
        LogEvent::Suppressed {
            lines: 800,
            seconds: 10,
        },
        LogEvent::Dropped {
            lines: 18_446_744_073_709_551_615,
        },
        LogEvent::Checked {
            files: 3,
            ipv4: 2,
            ipv6: 1,
            left_out: 0,
        },
    ]
}

/// Seconds since 1970: the ends of February, and of the years that a line can have.
const TIMES: &[u64] = &[
    0,
    951_782_399,
    951_782_400,
    1_709_251_199,
    1_709_251_200,
    4_107_542_399,
    4_107_542_400,
    253_402_300_799,
    18_446_744_073_709_551_615,
];

/// Prints a line for each event, or at each time.
pub(crate) fn print<W: Write>(form: &str, words: &[String], out: &mut W) -> Result<()> {
    if form == "times" {
        return Ok(print_times(out)?);
    }
    match words {
        [word] if word.as_str() == "text" => Ok(print_all(LogFormat::Text, out)?),
        [word] if word.as_str() == "json" => Ok(print_all(LogFormat::Json, out)?),
        [word] if word.as_str() == "systemd" => Ok(print_all(LogFormat::Systemd, out)?),
        _ => bail!("text, json or systemd is required"),
    }
}

fn print_all<W: Write>(form: LogFormat, out: &mut W) -> io::Result<()> {
    print_each(form, &daemon_events(), out)?;
    print_each(form, &file_events(), out)?;
    print_each(form, &client_events(), out)?;
    print_each(form, &log_events(), out)
}

fn print_each<W: Write>(
    form: LogFormat,
    events: &[LogEvent<'static>],
    out: &mut W,
) -> io::Result<()> {
    for event in events {
        write_event(out, form, MOMENT, event)?;
    }
    Ok(())
}

fn print_times<W: Write>(out: &mut W) -> io::Result<()> {
    for &seconds in TIMES {
        write_event(out, LogFormat::Text, seconds, &LogEvent::Ready)?;
    }
    Ok(())
}
