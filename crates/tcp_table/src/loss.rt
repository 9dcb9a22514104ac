//! When a connection is lost.
ghost use Rattle.std.specs.Prelude.{◌≡◌};
ghost use Rattle.tcp_table.specs.Loss.{is_lost, unanswered_after};

/// Bytes of a connection that are retransmitted: how many at the last reading, and since which reading they have not become fewer. Times are in
/// milliseconds of a monotonic clock.
#[derive(Clone, Copy, Debug, PartialEq, Eq)]
pub struct Unanswered {
    /// How many bytes.
    pub bytes: u32,
    /// Since when.
    pub since: u64,
}

/// What is known of a connection after a reading at `now`, in milliseconds of a monotonic clock. The reading showed how many bytes are
/// retransmitted, or `None` if none are. Then the result is `None` too. If they are fewer than before, some were acknowledged, and the time
/// begins anew.
pub fn unanswered_after(
    before: Option<Unanswered>,
    bytes: Option<u32>,
    now: u64,
) -> Option<Unanswered>
    ensures { result ≡ unanswered_after before bytes now }
{
    let bytes = bytes?;
    match before {
        Some(last) if last.bytes <= bytes => Some(Unanswered {
            bytes,
            since: last.since,
        }),
        _ => Some(Unanswered { bytes, since: now }),
    }
}

/// Whether a connection is lost at `now`: for `stall` milliseconds each reading showed bytes of it that are retransmitted, and never fewer than
/// the reading before. It is `false` if `known` is `None`. Times are in milliseconds of a monotonic clock.
pub fn is_lost(known: Option<Unanswered>, now: u64, stall: u64) -> bool
    ensures { result ≡ is_lost known now stall }
{
    match known {
        Some(last) => now.saturating_sub(last.since) >= stall,
        None => false,
    }
}
