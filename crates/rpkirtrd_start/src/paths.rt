//! The paths of the sources, each of which is read once.
ghost use Rattle.std.specs.Prelude.{◌≡◌, IfOk, bytes_eq};
ghost use Rattle.std.specs.List.{list_any};
ghost use Rattle.std.specs.String.{string_bytes};
ghost use Rattle.rtr_daemon.specs.Starting.{texts};
ghost use Rattle.rpkirtrd_start.specs.Plans.{AreSources, each_once};

use event_log::LogEvent;
use rpkirtrd_cli::Settings;
use rtr_daemon::{EventLog, Paths};
use std::alloc::{AllocError, Global};

/// The paths of the sources. Of a path that is given twice the second one is left out, with a warning.
pub(crate) fn paths_of<J: EventLog>(
    alloc: Global,
    settings: Settings,
    now: u64,
    events: &mut J,
) -> Result<Paths, AllocError>
    ensures { IfOk result (AreSources settings) }
{
    let Settings {
        vrps,
        points,
        slurm,
        ..
    } = settings;
    Ok(Paths {
        files: each_once(alloc, "--vrps", vrps, now, events)?,
        slurms: each_once(alloc, "--slurm", slurm, now, events)?,
        points: each_once(alloc, "--points", points, now, events)?,
    })
}

/// The paths of an option, without those that occurred before.
fn each_once<J: EventLog>(
    alloc: Global,
    option: &str,
    paths: Vec<String>,
    now: u64,
    events: &mut J,
) -> Result<Vec<String>, AllocError>
    ensures { IfOk result (λ kept. texts kept.items ≡ each_once (texts paths.items)) }
{
    let mut kept = Vec::new(alloc);
    for path in paths {
        if has_path(kept.as_slice(), path.as_str()) {
            warn_of_second(alloc, option, path.as_str(), now, events)?;
        } else {
            kept.push(path)?;
        }
    }
    Ok(kept)
}

/// Whether a path is among others.
fn has_path(paths: &[String], path: &str) -> bool
    ensures { result ≡ list_any (λ other. bytes_eq (string_bytes other) path.now) paths.now }
{
    paths.iter().any(|other| other.as_str() == path)
}

/// Reports that a path is given twice.
fn warn_of_second<J: EventLog>(
    alloc: Global,
    option: &str,
    path: &str,
    now: u64,
    events: &mut J,
) -> Result<(), AllocError> {
    let text = format!(in alloc; "{option} {path} is given twice: it is read once")?;
    let reason = text.as_str();
    events.log(now, &LogEvent::Warning { reason });
    Ok(())
}
