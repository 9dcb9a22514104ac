//! A line of a table.
ghost use Rattle.std.specs.Prelude.{◌≡◌, Option, option_map};
ghost use Rattle.tcp_table.specs.Columns.{after_blank, after_number, byte_at, is_unanswered, line4, line6, line_in};

use crate::endpoint::{Endpoint, endpoint4, endpoint6, word_at};
use hex::FromHex;

/// The timer of a retransmission, as the column `tr` has it. While a window is closed the timer is another one, 4.
const RETRANSMISSION: u8 = 1;

/// A connection, as a line of a table shows it.
#[derive(Clone, Copy, Debug, PartialEq, Eq)]
pub struct TcpLine {
    /// Its end at this host.
    pub local: Endpoint,
    /// Its other end.
    pub remote: Endpoint,
    /// How many bytes were written to it and are not acknowledged.
    pub unacknowledged: u32,
    /// The kind of its timer.
    pub timer: u8,
}

impl TcpLine {
    /// Parses a line of `/proc/net/tcp` or `/proc/net/tcp6` (proc(5)). `None`: it shows no connection, as the heading of a table does not.
    pub fn parse(line: &[u8]) -> Option<TcpLine>
        ensures { result ≡ line_in line.now }
    {
        let text = after_number(line)?;
        match text.get(8) {
            Some(b':') => line4(text),
            _ => line6(text),
        }
    }

    /// Whether the system retransmits bytes of the connection, as they are not acknowledged. It is false while the peer's window is closed.
    pub fn is_unanswered(&self) -> bool
        ensures { result ≡ is_unanswered self.now }
    {
        self.timer == RETRANSMISSION && self.unacknowledged > 0
    }
}

/// What follows the first colon and its blank.
fn after_number(line: &[u8]) -> Option<&[u8]>
    ensures { option_map (λ text. text.now) result ≡ after_number line.now }
{
    let mut rest = line;
    while let Some((first, more)) = rest.split_first() {
        if *first == b':' {
            return after_blank(more);
        }
        rest = more;
    }
    None
}

/// What follows a blank at the start.
fn after_blank(text: &[u8]) -> Option<&[u8]>
    ensures { option_map (λ text. text.now) result ≡ after_blank text.now }
{
    match text.split_first() {
        Some((b' ', rest)) => Some(rest),
        _ => None,
    }
}

/// The number that two hexadecimal digits write at a column.
fn byte_at(text: &[u8], column: usize) -> Option<u8>
    ensures { result ≡ byte_at column text.now }
{
    let digits = text.get(column..)?.get(..2)?;
    let [byte] = <[u8; 1] as FromHex>::from_hex(digits).ok()?;
    Some(byte)
}

/// The columns of a line of `/proc/net/tcp`.
fn line4(text: &[u8]) -> Option<TcpLine>
    ensures { result ≡ line4 text.now }
{
    let local = endpoint4(text, 0)?;
    let remote = endpoint4(text, 14)?;
    let unacknowledged = word_at(text, 31)?;
    let timer = byte_at(text, 49)?;
    Some(TcpLine {
        local,
        remote,
        unacknowledged,
        timer,
    })
}

/// The columns of a line of `/proc/net/tcp6`.
fn line6(text: &[u8]) -> Option<TcpLine>
    ensures { result ≡ line6 text.now }
{
    let local = endpoint6(text, 0)?;
    let remote = endpoint6(text, 38)?;
    let unacknowledged = word_at(text, 79)?;
    let timer = byte_at(text, 97)?;
    Some(TcpLine {
        local,
        remote,
        unacknowledged,
        timer,
    })
}
