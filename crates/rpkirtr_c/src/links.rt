//! Links, committed versions and versions of the protocol as C has them.
ghost use Rattle.std.specs.Prelude.{◌≡◌};
ghost use Rattle.rpkirtr_c.specs.Links.{code_of, committed_of, link_of, version_of};
ghost use Rattle.rtr_ends.specs.Seen.{seen_versions};

use rtr_ends::{CommittedVersion, End, Link};
use rtr_pdu::Version;

/// The time, in seconds of the caller's clock, that means an event that never happens.
pub const NEVER: u64 = u64::MAX;

/// A link: 0 closed, 1 idle, 2 asked, 3 answering, 4 ended. If it ended, `end` is the number of its end (`End::number`), otherwise 0. `code` is
/// the code of the Error Report of that end, or 0 if there is none.
#[repr(C)]
#[derive(Clone, Copy, Debug)]
pub struct CLink {
    pub state: u8,
    pub end: u8,
    pub code: u16,
}

/// A committed version, if `is_committed` is 1.
#[repr(C)]
#[derive(Clone, Copy, Debug)]
pub struct CCommitted {
    pub moment: u64,
    pub serial: u32,
    pub refresh: u32,
    pub retry: u32,
    pub expire: u32,
    pub zero_: u32,
    pub session: u16,
    pub version: u8,
    pub is_committed: u8,
}

/// The code of an end's Error Report: 0 if it has none.
fn code_of(end: End) -> u16
    ensures { result ≡ code_of end }
{
    match end {
        End::Reported(code) => code,
        End::Told(code) => code,
        _ => 0,
    }
}

/// Converts a link to the C interface. `end` and `code` are 0 unless the link has ended. `code` is also 0 if the end has no Error Report code.
pub fn link_of(link: Link) -> CLink
    ensures { result ≡ link_of link }
{
    let (state, end, code) = match link {
        Link::Closed => (0, 0, 0),
        Link::Idle => (1, 0, 0),
        Link::Asked => (2, 0, 0),
        Link::Answering => (3, 0, 0),
        Link::Ended(end) => (4, end.number(), code_of(end)),
    };
    CLink { state, end, code }
}

/// Converts a committed version to the C interface. `Some`: `is_committed` is 1, `moment` is the time of the commit in seconds of the caller's clock,
/// and intervals are in seconds. `None`: all fields are 0, `is_committed` too.
pub fn committed_of(version: Option<CommittedVersion>) -> CCommitted
    ensures { result ≡ committed_of (seen_versions version) }
{
    match version {
        None => CCommitted {
            moment: 0,
            serial: 0,
            refresh: 0,
            retry: 0,
            expire: 0,
            zero_: 0,
            session: 0,
            version: 0,
            is_committed: 0,
        },
        Some(version) => CCommitted {
            moment: version.moment,
            serial: version.serial.0,
            refresh: version.refresh,
            retry: version.retry,
            expire: version.expire,
            zero_: 0,
            session: version.session,
            version: version.version.number(),
            is_committed: 1,
        },
    }
}

/// The protocol version of this number, 0 or 1. `None` for any other number.
pub fn version_of(number: u8) -> Option<Version>
    ensures { result ≡ version_of number }
{
    match number {
        0 => Some(Version::V0),
        1 => Some(Version::V1),
        _ => None,
    }
}
