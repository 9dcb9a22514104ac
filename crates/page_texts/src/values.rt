//! What is printed of values.

use anyhow::Result;
use prefixes::{Asn, IpPrefix, Route, Vrp};
use rtr_ends::End;
use rtr_pdu::Version;
use std::fmt::Display;
use std::io::{self, Write};
use vrps::{OriginState, Serial};

/// Prints each of these values, one a line.
fn print_each<T: Display, W: Write>(values: &[T], out: &mut W) -> io::Result<()> {
    for value in values {
        writeln!(out, "{value}")?;
    }
    Ok(())
}

fn vrp(prefix: &str, max_len: u8, asn: u32) -> Result<Vrp> {
    Ok(Vrp::new(prefix.parse()?, max_len, Asn(asn))?)
}

fn route(prefix: &str, origin: Option<u32>) -> Result<Route> {
    let prefix = IpPrefix::parse(prefix)?;
    Ok(Route { prefix, origin })
}

/// Prints values of each kind.
pub(crate) fn print<W: Write>(out: &mut W) -> Result<()> {
    let payloads = [
        vrp("192.0.2.0/24", 26, 64496)?,
        vrp("2001:db8::/32", 48, 0)?,
    ];
    print_each(&payloads, out)?;
    let routes = [route("192.0.2.0/24", Some(64496))?, route("::/0", None)?];
    print_each(&routes, out)?;
    Ok(print_names(out)?)
}

fn print_names<W: Write>(out: &mut W) -> io::Result<()> {
    print_each(&[Serial(0), Serial(4_294_967_295)], out)?;
    print_each(
        &[
            OriginState::Valid,
            OriginState::Invalid,
            OriginState::NotFound,
        ],
        out,
    )?;
    print_each(&[Version::V0, Version::V1], out)?;
    print_each(&ENDS, out)
}

/// The ends of a router's link.
const ENDS: [End; 6] = [
    End::Reported(3),
    End::Told(2),
    End::Malformed,
    End::Memory,
    End::Expired,
    End::TooMany,
];
