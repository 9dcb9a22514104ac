//! The routers of the page: the state of each, and their table.

use crate::page_tables::{write_heads, write_optional, write_table_end};
use crate::pieces::{Piece, write_pieces};
use crate::status::{ChangeStatus, ClientStatus, ClientTraffic, Status};
use std::io::{self, Write};

/// For how long a router may lack a version before it counts as behind, in seconds.
const LATE: u64 = 60;

/// How a router is to the served version. Those to look at are first.
#[derive(Clone, Copy, Debug, PartialEq, Eq)]
enum RouterState {
    /// It lacks this many versions, the first of them since this time.
    Behind(u32, u64),
    /// It has been connected since this time, and no version was sent to it.
    Empty(u64),
    /// It lacks this many versions, the first of them for less than a minute.
    Updating(u32),
    /// It was connected less than a minute ago, and no version was sent to it.
    New,
    /// It has the served version.
    Current,
}

/// The ranks of the states, in the order of the table.
const RANKS: [u8; 3] = [0, 1, 2];

/// The place of a state in the order of the table.
fn rank_of(state: RouterState) -> u8 {
    match state {
        RouterState::Behind(_, _) | RouterState::Empty(_) => 0,
        RouterState::Updating(_) | RouterState::New => 1,
        RouterState::Current => 2,
    }
}

/// When the first of this many last versions was published. If it is older than those of the list, the oldest of the list counts.
fn published_at(changes: &[ChangeStatus], versions: u32) -> Option<u64> {
    let first = changes.len().saturating_sub(versions as usize);
    changes.get(first).map(|change| change.at)
}

/// The state of a router. Serials increase by one with each version (RFC 8210 section 5.1).
fn state_of(status: &Status, client: &ClientStatus) -> RouterState {
    let (Some(served), Some(sent)) = (status.serial, client.serial) else {
        return if status.now.saturating_sub(client.since) < LATE {
            RouterState::New
        } else {
            RouterState::Empty(client.since)
        };
    };
    let versions = served.wrapping_sub(sent);
    if versions == 0 {
        return RouterState::Current;
    }
    match published_at(&status.changes, versions) {
        Some(at) if status.now.saturating_sub(at) >= LATE => RouterState::Behind(versions, at),
        _ => RouterState::Updating(versions),
    }
}

/// Since when a router lacks a version: since the first one that it lacks was published, or since it connected if none was sent to it. `None` if
/// it has the served version.
pub(crate) fn lacking_since(status: &Status, client: &ClientStatus) -> Option<u64> {
    let (Some(served), Some(sent)) = (status.serial, client.serial) else {
        return Some(client.since);
    };
    match served.wrapping_sub(sent) {
        0 => None,
        versions => published_at(&status.changes, versions),
    }
}

/// How many routers have been without the served version for a minute or longer.
pub(crate) fn behind_count(status: &Status) -> u64 {
    let behind = status
        .clients
        .iter()
        .filter(|client| rank_of(state_of(status, client)) == 0);
    behind.count() as u64
}

/// The word `version` after a count.
fn versions_word(versions: u32) -> &'static str {
    if versions == 1 {
        " version"
    } else {
        " versions"
    }
}

/// Writes the state of a router, with the start of its cell.
fn write_state<W: Write>(out: &mut W, now: u64, state: RouterState) -> io::Result<()> {
    match state {
        RouterState::Behind(versions, at) => write_pieces(
            out,
            &[
                Piece::Raw("<td class=\"warn\">"),
                Piece::Grouped(u64::from(versions)),
                Piece::Raw(versions_word(versions)),
                Piece::Raw(" behind for "),
                Piece::Span(now.saturating_sub(at)),
            ],
        ),
        RouterState::Empty(since) => write_pieces(
            out,
            &[
                Piece::Raw("<td class=\"warn\">nothing sent for "),
                Piece::Span(now.saturating_sub(since)),
            ],
        ),
        RouterState::Updating(versions) => write_pieces(
            out,
            &[
                Piece::Raw("<td>"),
                Piece::Grouped(u64::from(versions)),
                Piece::Raw(versions_word(versions)),
                Piece::Raw(" to send"),
            ],
        ),
        RouterState::New => out.write_all(b"<td class=\"dim\">nothing sent yet"),
        RouterState::Current => out.write_all(b"<td class=\"ok\">current"),
    }
}

/// Writes the cells with the traffic of a router: received and sent.
fn write_traffic<W: Write>(
    out: &mut W,
    received: &ClientTraffic,
    sent: &ClientTraffic,
) -> io::Result<()> {
    let pieces = [
        Piece::Raw("<td class=\"n wide\">"),
        Piece::Grouped(received.pdus),
        Piece::Raw(" / "),
        Piece::Grouped(sent.pdus),
        Piece::Raw("</td><td class=\"n wide\">"),
        Piece::Grouped(received.bytes),
        Piece::Raw(" / "),
        Piece::Grouped(sent.bytes),
        Piece::Raw("</td></tr>\n"),
    ];
    write_pieces(out, &pieces)
}

/// Writes the row of a router.
fn write_router<W: Write>(
    out: &mut W,
    now: u64,
    client: &ClientStatus,
    state: RouterState,
) -> io::Result<()> {
    let address = [
        Piece::Raw("<tr><th scope=\"row\">"),
        Piece::Address(&client.address),
        Piece::Raw("</th>"),
    ];
    write_pieces(out, &address)?;
    write_state(out, now, state)?;
    let pieces = [
        Piece::Raw("</td><td>"),
        Piece::Since(now, client.since),
        Piece::Raw("</td>"),
    ];
    write_pieces(out, &pieces)?;
    write_optional(out, client.version.map(u32::from))?;
    write_optional(out, client.serial)?;
    write_traffic(out, &client.received, &client.sent)
}

/// Writes the rows of the routers whose state has this rank.
fn write_ranked<W: Write>(out: &mut W, status: &Status, rank: u8) -> io::Result<()> {
    for client in &status.clients {
        let state = state_of(status, client);
        if rank_of(state) == rank {
            write_router(out, status.now, client, state)?;
        }
    }
    Ok(())
}

/// Writes the table of the routers, those that are behind first.
pub(crate) fn write_routers<W: Write>(out: &mut W, status: &Status) -> io::Result<()> {
    if status.clients.is_empty() {
        return out.write_all(b"<p>No router is connected.</p>\n");
    }
    let heads = [
        "Address",
        "State",
        "Connected",
        "#RTR version",
        "#Serial",
        "#PDUs in / out",
        "#Bytes in / out",
    ];
    write_heads(out, "Routers", &heads)?;
    for rank in RANKS {
        write_ranked(out, status, rank)?;
    }
    write_table_end(out)
}
