//! The sessions and the first serial of a daemon over restarts.
ghost use Rattle.std.specs.Prelude.{◌≡◌, ℕ, List, ◌++◌};
ghost use Rattle.sha2.specs.Hashers.{Holds256};
ghost use Rattle.session_names.specs.Names.{first_serial, is_machine_id, part_bytes, session0_of, session_of};

use sha2::{Digest, Sha256};

/// The session ids and the first serial of a daemon that runs (RFC 8210 section 5.1).
#[derive(Clone, Copy, Debug, PartialEq, Eq)]
pub struct SessionIds {
    /// The session id in protocol version 1.
    pub session: u16,
    /// The session id in protocol version 0.
    pub session0: u16,
    /// The serial of the first version that the daemon publishes.
    pub serial: u32,
}

/// Returns the first serial of a daemon that starts at `seconds`, counted since 1970: `seconds` modulo 2^32.
/// If at most one version is published in a second ([`Pace`](crate::Pace)), no serial is ahead of the clock. So the serials of the next run
/// are later.
pub fn first_serial(seconds: u64) -> u32
    ensures { result ≡ first_serial seconds }
{
    (seconds % (1 << 32)) as u32
}

/// Returns the protocol version 0 session id of a daemon that starts at `seconds`, counted since 1970: `seconds` modulo 65,536.
/// Two starts have the same id only if a multiple of 65,536 seconds (about 18 hours) is between them.
pub fn session0_of(seconds: u64) -> u16
    ensures { result ≡ session0_of seconds }
{
    (seconds % 65_536) as u16
}

/// Adds a part, after its length.
fn add_part(hasher: &mut Sha256, part: &[u8])
    ensures { (m : List ℕ) → Holds256 hasher.old m → Holds256 hasher.new (m ++ part_bytes part.now) }
{
    let length = (part.len() as u64).to_be_bytes();
    hasher.update(length.as_slice());
    hasher.update(part);
}

/// Returns whether the content of `/etc/machine-id` names a machine (machine-id(5)). It does not if, without one newline at its end, it is empty
/// or `uninitialized`. Any other content does: its digits are not checked.
pub fn is_machine_id(content: &[u8]) -> bool
    ensures { result ≡ is_machine_id content.now }
{
    !(content == b"".as_slice()
        || content == b"\n".as_slice()
        || content == b"uninitialized".as_slice()
        || content == b"uninitialized\n".as_slice())
}

/// Returns the protocol version 1 session id of a daemon: the first 16 bits of a SHA-256.
/// The hash is over the machine id, the host name, the listening addresses and the source options, each after its length in eight bytes.
/// So the id is the same after a restart, and unlikely to be that of another daemon.
pub fn session_of(machine_id: &[u8], host: &[u8], listen: &str, sources: &str) -> u16
    ensures { result ≡ session_of machine_id.now host.now listen.now sources.now }
{
    let mut hasher = Sha256::new();
    add_part(&mut hasher, machine_id);
    add_part(&mut hasher, host);
    add_part(&mut hasher, listen.as_bytes());
    add_part(&mut hasher, sources.as_bytes());
    let digest = hasher.finalize();
    u16::from(digest[0]) * 256 + u16::from(digest[1])
}
