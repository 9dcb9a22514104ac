//! An end of a connection.
ghost use Rattle.std.specs.Prelude.{◌≡◌, ◌≤◌};
ghost use Rattle.tcp_table.specs.Columns.{endpoint4_at, endpoint6_at, endpoint_of, host_word, is_same, port_at, word_at};

use hex::FromHex;
use std::net::{IpAddr, SocketAddr};

/// The third word of an IPv4-mapped IPv6 address (RFC 4291 section 2.5.5.2), as a little-endian host reads it.
const MAPPED: u32 = 0xffff_0000;

/// An address with its port: the address as four words in the byte order of a little-endian host. An IPv4 address is that of its IPv4-mapped IPv6
/// address.
#[derive(Clone, Copy, Debug, PartialEq, Eq)]
pub struct Endpoint {
    words: [u32; 4],
    port: u16,
}

/// A word of four octets, as a little-endian host reads it.
fn host_word(a: u8, b: u8, c: u8, d: u8) -> u32
    ensures { result ≡ host_word a b c d }
{
    u32::from(a) + u32::from(b) * 256 + u32::from(c) * 65_536 + u32::from(d) * 16_777_216
}

impl Endpoint {
    /// The end of a connection at this address. An IPv4 address is that of its IPv4-mapped IPv6 address. The scope of an IPv6 address does not
    /// count.
    pub fn of(address: SocketAddr) -> Endpoint
        ensures { result ≡ endpoint_of address }
    {
        let port = address.port();
        match address.ip() {
            IpAddr::V4(ip) => {
                let [a, b, c, d] = ip.octets();
                Endpoint {
                    words: [0, 0, MAPPED, host_word(a, b, c, d)],
                    port,
                }
            }
            IpAddr::V6(ip) => {
                let o = ip.octets();
                Endpoint {
                    words: [
                        host_word(o[0], o[1], o[2], o[3]),
                        host_word(o[4], o[5], o[6], o[7]),
                        host_word(o[8], o[9], o[10], o[11]),
                        host_word(o[12], o[13], o[14], o[15]),
                    ],
                    port,
                }
            }
        }
    }

    /// Whether address and port are the same as those of `other`.
    pub fn is(&self, other: &Endpoint) -> bool
        ensures { result ≡ is_same self.now other.now }
    {
        self.words[0] == other.words[0]
            && self.words[1] == other.words[1]
            && self.words[2] == other.words[2]
            && self.words[3] == other.words[3]
            && self.port == other.port
    }
}

/// The number that eight hexadecimal digits write at a column.
pub(crate) fn word_at(text: &[u8], column: usize) -> Option<u32>
    ensures { result ≡ word_at column text.now }
{
    let digits = text.get(column..)?.get(..8)?;
    let bytes = <[u8; 4] as FromHex>::from_hex(digits).ok()?;
    Some(u32::from_be_bytes(bytes))
}

/// The number that four hexadecimal digits write at a column.
fn port_at(text: &[u8], column: usize) -> Option<u16>
    ensures { result ≡ port_at column text.now }
{
    let digits = text.get(column..)?.get(..4)?;
    let bytes = <[u8; 2] as FromHex>::from_hex(digits).ok()?;
    Some(u16::from_be_bytes(bytes))
}

/// The end of a connection at a column of `/proc/net/tcp`.
pub(crate) fn endpoint4(text: &[u8], column: usize) -> Option<Endpoint>
    requires { column ≤ 1000 }
    ensures { result ≡ endpoint4_at column text.now }
{
    let word = word_at(text, column)?;
    let port = port_at(text, column + 9)?;
    Some(Endpoint {
        words: [0, 0, MAPPED, word],
        port,
    })
}

/// The end of a connection at a column of `/proc/net/tcp6`.
pub(crate) fn endpoint6(text: &[u8], column: usize) -> Option<Endpoint>
    requires { column ≤ 1000 }
    ensures { result ≡ endpoint6_at column text.now }
{
    let first = word_at(text, column)?;
    let second = word_at(text, column + 8)?;
    let third = word_at(text, column + 16)?;
    let fourth = word_at(text, column + 24)?;
    let port = port_at(text, column + 33)?;
    Some(Endpoint {
        words: [first, second, third, fourth],
        port,
    })
}
