//! The texts of a status.

use crate::caches::{
    empty, put_crowded, put_failing, put_first, put_huge, put_named, put_old, put_router,
    put_small, put_well,
};
use crate::changes::put_changes;
use anyhow::{Result, bail};
use status_pages::{
    REASONS, Status, has_reason, is_healthy, is_ready, is_well, write_api_status, write_health,
    write_metrics, write_page,
};
use std::alloc::Global;
use std::io::{self, Write};

/// Makes a cache without a version into the one that these words name.
fn put(alloc: Global, words: &[String], status: &mut Status) -> Result<()> {
    if let [first, changes @ ..] = words {
        if first.as_str() == "with" {
            put_well(alloc, status)?;
            return put_changes(alloc, changes, status);
        }
    }
    match words {
        [name] => put_named_one(alloc, name.as_str(), status),
        [max_age, now] => {
            put_small(alloc, status)?;
            status.max_age = max_age.parse().ok();
            status.now = now.parse()?;
            Ok(())
        }
        [connected, ago, lacks] => {
            let (connected, ago) = (connected.parse()?, ago.parse()?);
            Ok(put_router(alloc, status, connected, ago, lacks.parse().ok())?)
        }
        _ => bail!("there is no such cache"),
    }
}

fn put_named_one(alloc: Global, name: &str, status: &mut Status) -> Result<()> {
    match name {
        "empty" => {}
        "first" => put_first(status),
        "huge" => put_huge(status)?,
        "small" => put_small(alloc, status)?,
        "named" => put_named(alloc, status)?,
        "well" => put_well(alloc, status)?,
        "failing" => put_failing(alloc, status)?,
        "crowded" => put_crowded(alloc, status)?,
        "old" => put_old(alloc, status)?,
        "silent" => {
            put_old(alloc, status)?;
            status.serial = None;
        }
        _ => bail!("there is no such cache"),
    }
    Ok(())
}

/// Prints the text of a status.
pub(crate) fn print<W: Write>(
    alloc: Global,
    form: &str,
    words: &[String],
    out: &mut W,
) -> Result<()> {
    let mut status = empty(alloc);
    put(alloc, words, &mut status)?;
    Ok(write(form, &status, out)?)
}

fn write<W: Write>(form: &str, status: &Status, out: &mut W) -> io::Result<()> {
    match form {
        "page" => write_page(out, status),
        "metrics" => write_metrics(out, status),
        "reasons" => write_reasons(status, out),
        "api-status" => write_api_status(out, status, status.serial.unwrap_or_default()),
        _ => write_judged(status, out),
    }
}

/// Writes whether a cache is healthy, and the text of its health.
fn write_judged<W: Write>(status: &Status, out: &mut W) -> io::Result<()> {
    let judged = if is_healthy(status) {
        "healthy\n"
    } else {
        "ill\n"
    };
    out.write_all(judged.as_bytes())?;
    write_health(out, status)
}

/// Writes the words of the reasons that hold, and then whether the cache is well, healthy and ready.
fn write_reasons<W: Write>(status: &Status, out: &mut W) -> io::Result<()> {
    for reason in REASONS {
        if has_reason(status, reason) {
            write!(out, "{} ", reason.word())?;
        }
    }
    let well = if is_well(status) { "well" } else { "unwell" };
    let healthy = if is_healthy(status) { "healthy" } else { "ill" };
    let ready = if is_ready(status) { "ready" } else { "unready" };
    writeln!(out, "{well} {healthy} {ready}")
}
