//! Prints a text of the daemon for made-up values, so that `tests/page_texts.py` compares it with a stored one. The words say which:
//!
//! - `page CACHE`, `metrics CACHE`, `health CACHE`: the status page of a cache, its metrics, and its health. `caches.rt` has the caches.
//! - `reasons CACHE`: the reasons why a cache is not well, and whether it is well, healthy and ready.
//!   A CACHE is also `with WHAT VALUE..`: a cache that is well, with the changes of `changes.rt`.
//! - `route PREFIX AS`, `route-page PREFIX AS`: the validity of a route, as JSON and as a page.
//! - `csv [small]`, `routinator-csv [small]`, `roas [small]`: no record, or those of a small list, as CSV and as Routinator writes them.
//! - `export`, `routinator-export`: the start of an export.
//! - `http CACHE PIECE [NAME]`: the response to the request on standard input, in pieces of at most PIECE bytes.
//! - `log text`, `log json`, `log systemd`: a line for each event of the log.
//! - `times`: a line of the log at each of some times.
//! - `settings WORD..`: the parsed command line of the daemon, or why it is refused.
//! - `faults`, `values`: what is printed of each fault with its number, and of each other value that is printed.
#![tactic(auto)]

mod caches;
mod changes;
mod events;
mod faults;
mod responses;
mod routes;
mod settings;
mod statuses;
mod values;

use anyhow::{Result, bail};
use std::alloc::Global;
use std::env;
use std::io::Write;

/// The first words.
const FORMS: &str = "\
page\nmetrics\nhealth\nreasons\napi-status\nroute\nroute-page\ncsv\nroutinator-csv\nroas\nexport\nroutinator-export\n\
http\nlog\ntimes\nsettings\nfaults\nvalues\n";

fn main(rt: HostRuntime) -> Result<()> {
    let words: Vec<String> = env::args(&rt)?.skip(1).collect(rt.alloc())?;
    match words.as_slice() {
        [] => Ok(rt.stdout().write_all(FORMS.as_bytes())?),
        [form, rest @ ..] if form.as_str() == "http" => responses::answer(&rt, rest),
        [form, rest @ ..] => print(rt.alloc(), form.as_str(), rest, &mut rt.stdout()),
    }
}

/// Prints what these words say.
fn print<W: Write>(alloc: Global, form: &str, words: &[String], out: &mut W) -> Result<()> {
    match form {
        "page" | "metrics" | "health" | "reasons" | "api-status" => statuses::print(
            alloc, form, words, out,
        ),
        "route"
        | "route-page"
        | "csv"
        | "routinator-csv"
        | "roas"
        | "export"
        | "routinator-export" => routes::print(alloc, form, words, out),
        "log" | "times" => events::print(form, words, out),
        "settings" => settings::print(alloc, words, out),
        "faults" => faults::print(out),
        "values" => values::print(out),
        _ => bail!("there is no such text"),
    }
}
