//! The session numbers of a cache.
ghost use Rattle.std.specs.Prelude.{◌≡◌};
ghost use Rattle.rtr_ends.specs.Sender.{session_by};

use rtr_pdu::Version;

/// The session IDs of a cache: `v0` and `v1` for versions 0 and 1 of the protocol (RFC 8210 section 5.1).
#[derive(Clone, Copy, Debug, PartialEq, Eq)]
pub struct Sessions {
    pub v0: u16,
    pub v1: u16,
}

impl Sessions {
    /// The session ID for this version of the protocol.
    pub fn of(self, version: Version) -> u16
        ensures { result ≡ session_by version self }
    {
        match version {
            Version::V0 => self.v0,
            Version::V1 => self.v1,
        }
    }
}
