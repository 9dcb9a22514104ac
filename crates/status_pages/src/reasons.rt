//! Why a cache is not well. One list decides what its page, its health, its metrics and its log say.
ghost use Rattle.std.specs.Prelude.{◌≡◌};
ghost use Rattle.std.specs.List.{list_any};
ghost use Rattle.status_pages.specs.Reasons.{gives_none, has_all_expired, has_any, has_reason, has_shrunk, holds_for_all, is_blamed, is_healthy};
ghost use Rattle.status_pages.specs.Reasons.{is_long_refused, is_ready, is_recent, is_shrunk, is_slow, is_under_half, is_well};
ghost use Rattle.status_pages.specs.Reasons.{reason_word, refusal_limit, served_vrps};

use crate::status::{AnchorStatus, FileStatus, SlowCall, Status, TurnedAway, VrpPeak};

/// The longest time for which a source may be refused, in seconds.
const REFUSAL_SECONDS: u64 = 3600;

/// From how many VRPs on a table or a trust anchor that shrank is reported.
const LEAST_PEAK: u64 = 1000;

/// For how long it is reported that routers were turned away, in seconds.
const RECENT: u64 = 600;

/// A call on a file is slow if it lasts longer than this many milliseconds.
const SLOW_MILLISECONDS: u64 = 5000;

/// For how long it is reported that a call on a file was slow, in seconds.
const SLOW_RECENT: u64 = 3600;

/// A reason why a cache is not well. The status page, the health, the metrics and the log all use this list.
#[derive(Clone, Copy, Debug, PartialEq, Eq)]
pub enum Reason {
    /// The sources give no VRP, apart from local exceptions, or no VRP is served. This is no reason before the first version is published.
    NoVrps,
    /// A pending version could not be published.
    Publication,
    /// The data of a source are older than the maximum age. Or a source has expired entries and gives no VRP.
    Old,
    /// A source has been refused for longer than an hour. If the maximum age is less than an hour, that is the limit.
    RefusedLong,
    /// No version has been published yet.
    NoVersion,
    /// A source is refused at present.
    Refused,
    /// The VRPs have shrunk within the last 24 hours, from at least 1,000. Either fewer than four fifths of the most are served. Or a trust
    /// anchor of a source has fewer than half of its most.
    Shrank,
    /// Routers were turned away within the last ten minutes.
    TurnedAway,
    /// A single stat, open or read of a file lasted longer than five seconds, within the last hour.
    SlowPoll,
    /// The system clock was set back since the start.
    Clock,
}

/// All reasons, in the order in which they are listed to operators.
pub const REASONS: [Reason; 10] = [
    Reason::NoVrps,
    Reason::Publication,
    Reason::Old,
    Reason::RefusedLong,
    Reason::NoVersion,
    Reason::Refused,
    Reason::Shrank,
    Reason::TurnedAway,
    Reason::SlowPoll,
    Reason::Clock,
];

/// The reasons at which an operator is woken.
const GRAVE: [Reason; 5] = [
    Reason::NoVrps,
    Reason::Publication,
    Reason::Old,
    Reason::RefusedLong,
    Reason::NoVersion,
];

/// The reasons at which routers are better sent to another cache.
const UNREADY: [Reason; 3] = [Reason::NoVrps, Reason::Publication, Reason::NoVersion];

impl Reason {
    /// The name of the reason in metrics and in the log, such as `no_vrps`.
    pub fn word(self) -> &'static str
        ensures { result.now ≡ reason_word self }
    {
        match self {
            Reason::NoVrps => "no_vrps",
            Reason::Publication => "publication",
            Reason::Old => "old",
            Reason::RefusedLong => "refused_long",
            Reason::NoVersion => "no_version",
            Reason::Refused => "refused",
            Reason::Shrank => "shrank",
            Reason::TurnedAway => "turned_away",
            Reason::SlowPoll => "slow_poll",
            Reason::Clock => "clock",
        }
    }
}

/// Whether a source is known to give no VRP.
fn gives_none(vrps: Option<u64>) -> bool
    ensures { result ≡ gives_none vrps }
{
    match vrps {
        None => false,
        Some(vrps) => vrps == 0,
    }
}

/// Whether entries of a source have expired, and it gives no VRP.
pub(crate) fn has_all_expired(file: &FileStatus) -> bool
    ensures { result ≡ has_all_expired file.now }
{
    0 < file.expired && gives_none(file.vrps)
}

/// Whether a source has been refused for longer than this many seconds.
fn is_long_refused(now: u64, limit: u64, since: Option<u64>) -> bool
    ensures { result ≡ is_long_refused now limit since }
{
    match since {
        None => false,
        Some(since) => limit < now.saturating_sub(since),
    }
}

/// For how many seconds a source may be refused: an hour, or the maximum age if that is less.
fn refusal_limit(max_age: Option<u64>) -> u64
    ensures { result ≡ refusal_limit max_age }
{
    match max_age {
        None => REFUSAL_SECONDS,
        Some(age) => age.min(REFUSAL_SECONDS),
    }
}

/// Whether a single call on a file lasted longer than five seconds, within the last hour.
fn is_slow(now: u64, call: Option<SlowCall>) -> bool
    ensures { result ≡ is_slow now call }
{
    match call {
        None => false,
        Some(call) => {
            SLOW_MILLISECONDS < call.milliseconds && now.saturating_sub(call.at) <= SLOW_RECENT
        }
    }
}

/// Whether a number of VRPs of a trust anchor is less than half of the most within the last 24 hours, which were at least 1,000.
fn is_under_half(vrps: u64, peak: Option<VrpPeak>) -> bool
    ensures { result ≡ is_under_half vrps peak }
{
    match peak {
        None => false,
        Some(peak) => LEAST_PEAK <= peak.vrps && 2 * u128::from(vrps) < u128::from(peak.vrps),
    }
}

/// Whether a trust anchor of a source has fewer than half of the most VRPs that it had within the last 24 hours, which were at least 1,000.
pub(crate) fn has_shrunk(anchor: &AnchorStatus) -> bool
    ensures { result ≡ has_shrunk anchor.now }
{
    is_under_half(anchor.vrps, anchor.peak)
}

/// Whether one of some trust anchors has shrunk.
fn have_shrunk(anchors: &[AnchorStatus]) -> bool
    ensures { result ≡ list_any has_shrunk anchors.now }
{
    anchors.iter().any(|anchor| has_shrunk(anchor))
}

/// Returns whether a reason holds for a source. `now` is in seconds since 1970. `max_age` is the maximum age in seconds, and `None` for no
/// limit.
///
/// It can be true only for `Old`, `RefusedLong`, `Refused`, `Shrank` (of a trust anchor) and `SlowPoll`.
pub fn is_blamed(now: u64, max_age: Option<u64>, reason: Reason, file: &FileStatus) -> bool
    ensures { result ≡ is_blamed now max_age reason file.now }
{
    match reason {
        Reason::Old => file.is_old || has_all_expired(file),
        Reason::RefusedLong => is_long_refused(now, refusal_limit(max_age), file.refused_at),
        Reason::Refused => file.refusal.is_some(),
        Reason::Shrank => have_shrunk(&file.anchors),
        Reason::SlowPoll => is_slow(now, file.slow),
        _ => false,
    }
}

/// Whether a source is a reason.
fn blames_any(now: u64, max_age: Option<u64>, reason: Reason, files: &[FileStatus]) -> bool
    ensures { result ≡ list_any (is_blamed now max_age reason) files.now }
{
    files
        .iter()
        .any(|file| is_blamed(now, max_age, reason, file))
}

/// Whether fewer VRPs are served than four fifths of the most within the last 24 hours.
fn is_shrunk(vrps: u64, peak: Option<VrpPeak>) -> bool
    ensures { result ≡ is_shrunk vrps peak }
{
    match peak {
        None => false,
        Some(peak) => LEAST_PEAK <= peak.vrps && vrps < peak.vrps - peak.vrps / 5,
    }
}

/// Whether a router was turned away within the last ten minutes.
fn is_recent(now: u64, away: Option<TurnedAway>) -> bool
    ensures { result ≡ is_recent now away }
{
    match away {
        None => false,
        Some(away) => now.saturating_sub(away.last) <= RECENT,
    }
}

/// The number of VRPs that are served. It saturates at `u64::MAX`.
pub fn served_vrps(status: &Status) -> u64
    ensures { result ≡ served_vrps status.entry.now }
{
    status.ipv4.saturating_add(status.ipv6)
}

/// Whether no VRP is served, or the sources give none.
fn serves_none(status: &Status) -> bool
    ensures { result ≡ holds_for_all status.entry.now Reason.NoVrps }
{
    status.serial.is_some() && (status.given == 0 || served_vrps(status) == 0)
}

/// Returns whether a reason holds for the cache as a whole, without a look at `status.files`. It can be true only for `NoVrps`, `Publication`,
/// `NoVersion`, `Shrank`, `TurnedAway` and `Clock`. `Shrank` says here that the served table shrank: for a trust anchor that shrank, see
/// [`is_blamed`].
pub fn holds_for_all(status: &Status, reason: Reason) -> bool
    ensures { result ≡ holds_for_all status.entry.now reason }
{
    match reason {
        Reason::NoVrps => serves_none(status),
        Reason::Publication => status.publication_failure.is_some(),
        Reason::NoVersion => status.serial.is_none(),
        Reason::Shrank => is_shrunk(served_vrps(status), status.peak),
        Reason::TurnedAway => is_recent(status.now, status.turned_away),
        Reason::Clock => 0 < status.clock_behind,
        Reason::Old | Reason::RefusedLong | Reason::Refused | Reason::SlowPoll => false,
    }
}

/// Returns whether a reason holds, for the cache as a whole or for a source.
pub fn has_reason(status: &Status, reason: Reason) -> bool
    ensures { result ≡ has_reason status.entry.now reason }
{
    holds_for_all(status, reason) || blames_any(status.now, status.max_age, reason, &status.files)
}

/// Whether one of some reasons holds.
fn has_any(status: &Status, reasons: &[Reason]) -> bool
    ensures { result ≡ has_any status.entry.now reasons.now }
{
    reasons.iter().any(|reason| has_reason(status, *reason))
}

/// Returns whether none of [`REASONS`] holds, for the cache as a whole or for a source.
pub fn is_well(status: &Status) -> bool
    ensures { result ≡ is_well status.entry.now }
{
    !has_any(status, &REASONS)
}

/// Returns whether none of the reasons holds that should wake an operator: `NoVrps`, `Publication`, `Old`, `RefusedLong` and `NoVersion`.
pub fn is_healthy(status: &Status) -> bool
    ensures { result ≡ is_healthy status.entry.now }
{
    !has_any(status, &GRAVE)
}

/// Returns whether routers can be sent to the cache: `NoVrps`, `Publication` and `NoVersion` do not hold. A cache with old but good data is
/// ready.
pub fn is_ready(status: &Status) -> bool
    ensures { result ≡ is_ready status.entry.now }
{
    !has_any(status, &UNREADY)
}
