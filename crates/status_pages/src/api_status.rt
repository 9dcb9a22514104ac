//! The status of a cache as JSON.
ghost use Rattle.std.specs.Prelude.{◌≡◌, OnOk};
ghost use Rattle.std.specs.Io.KnownBytes.{Appends};
ghost use Rattle.status_pages.specs.ApiStatus.{IsApiText, IsBeginning, IsDone, IsRest, api_ending, beginning, done_member, duration_member, duration_text};
ghost use Rattle.status_pages.specs.ApiStatus.{later, newest, rtr_member, tals_member};
ghost use Rattle.status_pages.specs.Health.{AppendsSome};

use crate::status::{FileStatus, Status};
use crate::tals::write_tals;
use crate::text::write_json;
use event_log::time_at;
use std::io::{self, Write};

/// Writes the program, the serial, and the time as a text.
#[tactic(auto, unfolding(crate::specs::ApiStatus::beginning))]
fn write_beginning_at<W: Write>(
    out: &mut W,
    version: &str,
    serial: u32,
    time: &[u8],
) -> io::Result<()>
    ensures { OnOk result (Appends (W.contents out.old) (W.contents out.new) (beginning version.now serial time.now)) }
{
    out.write_all(b"{\"version\":\"rpkirtrd/")?;
    write_json(out, version)?;
    write!(out, "\",\"serial\":{serial},\"now\":\"")?;
    out.write_all(time)?;
    out.write_all(b"\"")
}

/// Writes the program, the serial, and the time.
fn write_beginning<W: Write>(out: &mut W, version: &str, serial: u32, now: u64) -> io::Result<()>
    ensures { OnOk result (AppendsSome (W.contents out.old) (W.contents out.new) (IsBeginning version.now serial now)) }
{
    let time = time_at(now);
    write_beginning_at(out, version, serial, &time)
}

/// The later of two times.
fn later(one: Option<u64>, other: Option<u64>) -> Option<u64>
    ensures { result ≡ later one other }
{
    match (one, other) {
        (None, other) => other,
        (Some(one), None) => Some(one),
        (Some(one), Some(other)) => Some(one.max(other)),
    }
}

/// When a file was loaded last, or `None` if none was loaded.
fn newest_load(files: &[FileStatus]) -> Option<u64>
    ensures { result ≡ newest files.now }
{
    let mut found = None;
    for file in files {
        found = later(found, file.taken);
    }
    found
}

/// Writes when a file was loaded last, with that time as a text.
#[tactic(auto, unfolding(crate::specs::ApiStatus::done_member))]
fn write_done_at<W: Write>(out: &mut W, time: &[u8]) -> io::Result<()>
    ensures { OnOk result (Appends (W.contents out.old) (W.contents out.new) (done_member time.now)) }
{
    out.write_all(b",\"lastUpdateDone\":\"")?;
    out.write_all(time)?;
    out.write_all(b"\"")
}

/// Writes when a file was loaded last, if one was.
fn write_done<W: Write>(out: &mut W, done: Option<u64>) -> io::Result<()>
    ensures { OnOk result (AppendsSome (W.contents out.old) (W.contents out.new) (IsDone done)) }
{
    match done {
        None => Ok(()),
        Some(done) => {
            let time = time_at(done);
            write_done_at(out, &time)
        }
    }
}

/// Writes the duration of the last load, in seconds.
#[tactic(auto, unfolding(crate::specs::ApiStatus::duration_text))]
fn write_seconds<W: Write>(out: &mut W, milliseconds: u64) -> io::Result<()>
    ensures { OnOk result (Appends (W.contents out.old) (W.contents out.new) (duration_text milliseconds)) }
{
    let (seconds, tenths) = (milliseconds / 1000, milliseconds / 100 % 10);
    let (hundredths, thousandths) = (milliseconds / 10 % 10, milliseconds % 10);
    write!(
        out,
        ",\"lastUpdateDuration\":{seconds}.{tenths}{hundredths}{thousandths}"
    )
}

/// Writes the duration of the last load, if there was one.
fn write_duration<W: Write>(out: &mut W, milliseconds: Option<u64>) -> io::Result<()>
    ensures { OnOk result (Appends (W.contents out.old) (W.contents out.new) (duration_member milliseconds)) }
{
    match milliseconds {
        None => Ok(()),
        Some(milliseconds) => write_seconds(out, milliseconds),
    }
}

/// Writes the trust anchors.
#[tactic(auto, unfolding(crate::specs::ApiStatus::tals_member))]
fn write_anchors<W: Write>(out: &mut W, files: &[FileStatus]) -> io::Result<()>
    ensures { OnOk result (Appends (W.contents out.old) (W.contents out.new) (tals_member files.now)) }
{
    out.write_all(b",\"tals\":{")?;
    write_tals(out, files)?;
    out.write_all(b"}")
}

/// Writes how many routers are connected, and the bytes from and to all routers since the start.
#[tactic(auto, unfolding(crate::specs::ApiStatus::rtr_member))]
fn write_rtr<W: Write>(out: &mut W, connections: usize, read: u64, written: u64) -> io::Result<()>
    ensures { OnOk result (Appends (W.contents out.old) (W.contents out.new) (rtr_member connections read written)) }
{
    write!(
        out,
        ",\"rtr\":{{\"currentConnections\":{connections},\"bytesRead\":{read},\"bytesWritten\":{written}}}}}"
    )
}

/// Writes what follows the time of the last load.
fn write_ending<W: Write>(out: &mut W, status: &Status) -> io::Result<()>
    ensures { OnOk result (Appends (W.contents out.old) (W.contents out.new) (api_ending status.entry.now)) }
{
    write_duration(out, status.reload_milliseconds)?;
    write_anchors(out, &status.files)?;
    write_rtr(
        out,
        status.clients.len(),
        status.received.bytes,
        status.sent.bytes,
    )
}

/// Writes what follows the program, the serial and the time.
fn write_rest<W: Write>(out: &mut W, status: &Status) -> io::Result<()>
    ensures { OnOk result (AppendsSome (W.contents out.old) (W.contents out.new) (IsRest status.entry.now)) }
{
    write_done(out, newest_load(&status.files))?;
    write_ending(out, status)
}

/// Writes the status as JSON, with the member names of Routinator's `/api/v1/status`. `serial` is that of the served version. The JSON is
/// compact and has no newline. `Err`: the writer failed.
pub fn write_api_status<W: Write>(out: &mut W, status: &Status, serial: u32) -> io::Result<()>
    ensures { OnOk result (AppendsSome (W.contents out.old) (W.contents out.new) (IsApiText status.entry.now serial)) }
{
    write_beginning(out, status.version, serial, status.now)?;
    write_rest(out, status)
}
