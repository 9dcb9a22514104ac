//! What a router asks for, what it has committed, and when that expires.
ghost use Rattle.std.specs.Prelude.{◌≡◌, ◌<◌, ◌^◌, ℕ, Option, Some, None};
ghost use Rattle.vrps.specs.Serial.{is_before};
ghost use Rattle.rtr_ends.specs.Transcript.{is_over, is_same, is_serial, within};
ghost use Rattle.rtr_ends.specs.Wake.{is_reached};

use rtr_pdu::Version;
use vrps::Serial;

/// A question: for all, or for what changed since a version (RFC 8210 sections 5.3 and 5.4).
#[derive(Clone, Copy, Debug, PartialEq, Eq)]
pub enum Question {
    /// For all.
    Reset,
    /// For what changed since this version.
    Serial { session: u16, serial: u32 },
}

impl Question {
    ghost use Rattle.rtr_ends.specs.Seen.{seen_question};

    /// Returns whether it is a Serial Query. `false`: it is a Reset Query.
    pub fn is_serial(self) -> bool
        ensures { result ≡ is_serial (Some (seen_question self)) }
    {
        match self {
            Question::Reset => false,
            Question::Serial { .. } => true,
        }
    }
}

/// A version that a router has committed (RFC 8210 sections 5.8 and 6).
#[derive(Clone, Copy, Debug, PartialEq, Eq)]
pub struct CommittedVersion {
    /// The version of the protocol in which it was committed.
    pub version: Version,
    /// The session ID of the cache.
    pub session: u16,
    /// The serial number, from the End of Data.
    pub serial: Serial,
    /// The time of the commit, in seconds of the caller's clock.
    pub moment: u64,
    /// The refresh interval: the router sends its next query this many seconds after the commit.
    pub refresh: u32,
    /// The retry interval: the router tries again this many seconds after a failed query.
    pub retry: u32,
    /// The expire interval: the records are dropped once more than this many seconds pass without another commit.
    pub expire: u32,
}

impl CommittedVersion {
    ghost use Rattle.rtr_ends.specs.Seen.{seen_version, seen_versions};

    /// Whether it was committed in this version of the protocol.
    pub(crate) fn is_of(&self, version: Version) -> bool
        ensures { result ≡ is_same version self.now.version }
    {
        match version {
            Version::V0 => match self.version {
                Version::V0 => true,
                Version::V1 => false,
            },
            Version::V1 => match self.version {
                Version::V0 => false,
                Version::V1 => true,
            },
        }
    }

    /// Whether more than expire has passed since the commit.
    pub(crate) fn is_over(&self, now: u64) -> bool
        ensures { result ≡ is_over (Some (seen_version self.now)) now }
    {
        u64::from(self.expire) < now.saturating_sub(self.moment)
    }

    /// The first moment at which more than expire has passed since the commit, if there is one.
    pub(crate) fn over_at(&self) -> Option<u64>
        ensures { (now : ℕ) → now < 2 ^ 64 → is_over (Some (seen_version self.now)) now ≡ is_reached result now }
    {
        match self.moment.checked_add(u64::from(self.expire)) {
            Some(last) => last.checked_add(1),
            None => None,
        }
    }

    /// Whether this serial is one of a later version (RFC 1982).
    pub(crate) fn is_before(&self, serial: u32) -> bool
        ensures { result ≡ is_before self.now.serial.0 serial }
    {
        self.serial.is_before(Serial(serial))
    }
}

/// Returns `seconds` if it is from `low` to `high`, otherwise the nearer bound. `low` must not be above `high`.
pub fn within(low: u32, high: u32, seconds: u32) -> u32
    ensures { result ≡ within low high seconds }
{
    if seconds < low {
        low
    } else if high < seconds {
        high
    } else {
        seconds
    }
}
