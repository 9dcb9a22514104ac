//! The texts of routes and of records.

use crate::caches::NOW;
use anyhow::{Result, bail};
use prefixes::{Asn, IpPrefix, Route, Vrp};
use status_pages::{
    Validity, write_csv, write_export_head, write_roas, write_routinator_csv,
    write_routinator_head, write_validity, write_validity_page,
};
use std::alloc::Global;
use std::io::{self, Write};
use vrps::{OriginIndex, VrpSet};

/// The records of one prefix, of which three cover it.
const COVERING: &[(&str, u8, u32)] = &[
    ("192.0.2.0/24", 24, 0),
    ("192.0.2.0/24", 25, 64496),
    ("192.0.2.0/25", 25, 64497),
];

/// The records of a small list.
const LISTED: &[(&str, u8, u32)] = &[
    ("192.0.2.0/24", 25, 64496),
    ("2001:db8::/32", 48, 4_294_967_295),
];

fn records(alloc: Global, rows: &[(&str, u8, u32)]) -> Result<Vec<Vrp>> {
    let mut list = Vec::new(alloc);
    for &(prefix, max_len, asn) in rows {
        list.push(Vrp::new(IpPrefix::parse(prefix)?, max_len, Asn(asn))?)?;
    }
    Ok(list)
}

fn route(words: &[String]) -> Result<Route> {
    match words {
        [prefix, asn] => Ok(Route {
            prefix: IpPrefix::parse(prefix.as_str())?,
            origin: Some(asn.parse()?),
        }),
        _ => bail!("a prefix and an AS number are required"),
    }
}

fn validity(alloc: Global, route: &Route) -> Result<Validity> {
    let index = OriginIndex::over(alloc, &VrpSet::from_list(records(alloc, COVERING)?)?)?;
    Ok(Validity::of_route(alloc, &index, route)?)
}

/// Prints the text of a route, or of records.
pub(crate) fn print<W: Write>(
    alloc: Global,
    form: &str,
    words: &[String],
    out: &mut W,
) -> Result<()> {
    match form {
        "csv" | "routinator-csv" | "roas" => print_list(alloc, form, words, out),
        "export" => Ok(write_export_head(out, NOW, 523_456)?),
        "routinator-export" => Ok(write_routinator_head(out, NOW)?),
        _ => {
            let route = route(words)?;
            let validity = validity(alloc, &route)?;
            Ok(write(form, &route, &validity, out)?)
        }
    }
}

/// Prints the records of the small list in a form, or none if no word follows.
fn print_list<W: Write>(alloc: Global, form: &str, words: &[String], out: &mut W) -> Result<()> {
    if words.is_empty() {
        return Ok(write_list(form, &[], out)?);
    }
    let list = records(alloc, LISTED)?;
    Ok(write_list(form, list.as_slice(), out)?)
}

fn write_list<W: Write>(form: &str, list: &[Vrp], out: &mut W) -> io::Result<()> {
    match form {
        "csv" => write_csv(out, list),
        "routinator-csv" => write_routinator_csv(out, list),
        _ => write_roas(out, list),
    }
}

fn write<W: Write>(form: &str, route: &Route, validity: &Validity, out: &mut W) -> io::Result<()> {
    match form {
        "route" => write_validity(out, route, validity, NOW),
        _ => write_validity_page(out, route, validity, NOW),
    }
}
