//! The metrics of each router.

use crate::metrics::{write_head, write_one};
use crate::page_routers::lacking_since;
use crate::pieces::{Piece, write_pieces};
use crate::status::{ClientStatus, Status};
use std::io::{self, Write};

/// For how many routers there are metrics. A router that reconnects has another port, and so other time series.
const ROUTERS: usize = 256;

/// The metrics of a router.
#[derive(Clone, Copy, PartialEq, Eq)]
enum RouterMetric {
    Serial,
    Behind,
}

/// The value of a metric of a router, if it has one.
fn router_metric(status: &Status, client: &ClientStatus, what: RouterMetric) -> Option<u64> {
    match what {
        RouterMetric::Serial => client.serial.map(u64::from),
        RouterMetric::Behind => {
            let behind = lacking_since(status, client).map(|since| status
                .now
                .saturating_sub(since));
            Some(behind.unwrap_or_default())
        }
    }
}

/// Writes the value of a metric for a router: its address and its protocol version, which is empty before its first PDU.
fn write_of_router<'a, W: Write>(
    out: &mut W,
    name: &'a str,
    client: &'a ClientStatus,
    value: u64,
) -> io::Result<()> {
    let version = match client.version {
        Some(version) => Piece::Decimal(u64::from(version)),
        None => Piece::Raw(""),
    };
    let pieces = [
        Piece::Raw(name),
        Piece::Raw("{router=\""),
        Piece::Address(&client.address),
        Piece::Raw("\",version=\""),
        version,
        Piece::Raw("\"} "),
        Piece::Decimal(value),
        Piece::Raw("\n"),
    ];
    write_pieces(out, &pieces)
}

/// Writes a metric with a value for each router that has one, up to the limit.
fn write_of_routers<W: Write>(
    out: &mut W,
    status: &Status,
    name: &str,
    help: &str,
    what: RouterMetric,
) -> io::Result<()> {
    write_head(out, name, "gauge", help)?;
    for client in status.clients.iter().take(ROUTERS) {
        if let Some(value) = router_metric(status, client, what) {
            write_of_router(out, name, client, value)?;
        }
    }
    Ok(())
}

/// Writes the metrics of the first 256 routers, and how many there are beyond them.
pub(crate) fn write_router_metrics<W: Write>(out: &mut W, status: &Status) -> io::Result<()> {
    write_of_routers(
        out,
        status,
        "rpkirtrd_router_serial",
        "Serial of the last End of Data sent to a router.",
        RouterMetric::Serial,
    )?;
    write_of_routers(
        out,
        status,
        "rpkirtrd_router_behind_seconds",
        "Seconds for which a router has been behind; 0 if it has the served version.",
        RouterMetric::Behind,
    )?;
    write_one(
        out,
        "rpkirtrd_routers_without_metrics",
        "gauge",
        "Connected routers without metrics of their own: those beyond 256.",
        (status.clients.len() as u64).saturating_sub(ROUTERS as u64),
    )
}
