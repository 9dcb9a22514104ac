//! The lines of a table whose bytes are sent again.
ghost use Rattle.std.specs.Prelude.{◌≡◌, ◌++◌, IfOk, OnOk};
ghost use Rattle.tcp_table.specs.Tables.{bytes_of, kept, unanswered};

use crate::endpoint::Endpoint;
use crate::line::TcpLine;
use std::alloc::{AllocError, Global};

/// The connections of a table whose bytes are retransmitted, in its order. `table` is the content of `/proc/net/tcp`, of `/proc/net/tcp6`, or of
/// both. Lines that show no connection are skipped. `Err`: memory ran out.
pub fn unanswered(alloc: Global, table: &[u8]) -> Result<Vec<TcpLine>, AllocError>
    ensures { IfOk result (λ lines. lines.items ≡ unanswered table.now) }
{
    let mut line = Vec::new(alloc);
    let mut found = Vec::new(alloc);
    for byte in table {
        if *byte == b'\n' {
            keep(&mut found, line.as_slice())?;
            line.clear();
        } else {
            line.push(*byte)?;
        }
    }
    keep(&mut found, line.as_slice())?;
    Ok(found)
}

/// Adds the connection of a line, if bytes of it are sent again.
fn keep(found: &mut Vec<TcpLine>, line: &[u8]) -> Result<(), AllocError>
    ensures { OnOk result (found.new.items ≡ found.old.items ++ kept line.now) }
{
    if let Some(connection) = TcpLine::parse(line) {
        if connection.is_unanswered() {
            found.push(connection)?;
        }
    }
    Ok(())
}

/// How many bytes of the connection between these ends are retransmitted, by its first line. `None`: no line is of this connection.
pub fn bytes_of(lines: &[TcpLine], local: &Endpoint, remote: &Endpoint) -> Option<u32>
    ensures { result ≡ bytes_of local.now remote.now lines.now }
{
    for line in lines {
        if line.local.is(local) && line.remote.is(remote) {
            return Some(line.unacknowledged);
        }
    }
    None
}
