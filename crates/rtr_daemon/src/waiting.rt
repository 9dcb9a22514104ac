//! What waits among the clients, so that a turn waits no longer than they may.
ghost use Rattle.std.specs.Prelude.{◌≡◌, false, None};
ghost use Rattle.rtr_daemon.specs.Waiting.{and_silent, first_of, waiting_and};

use crate::client_entry::{ClientEntry, FIRST_QUERY};

/// What waits among the clients. It is found anew each second. Until then it may name more than there is, but not less.
#[derive(Clone, Copy, Debug)]
pub(crate) struct Waiting {
    /// Whether a client is blocked on writing.
    pub(crate) blocked: bool,
    /// Whether a client was notified, and has sent nothing since.
    pub(crate) notified: bool,
    /// When the first client is silent that has sent no query, in milliseconds of the monotonic clock.
    pub(crate) silent_at: Option<u64>,
}

impl Waiting {
    /// Nothing waits.
    pub(crate) fn none() -> Waiting
        ensures { result ≡ record { blocked = false; notified = false; silent_at = None } }
    {
        Waiting {
            blocked: false,
            notified: false,
            silent_at: None,
        }
    }

    /// With a client more.
    pub(crate) fn and(self, entry: &ClientEntry) -> Waiting
        ensures { result ≡ waiting_and self entry.now }
    {
        Waiting {
            blocked: self.blocked || entry.blocked.is_some(),
            notified: self.notified || entry.is_notified,
            silent_at: and_silent(self.silent_at, entry),
        }
    }
}

/// When the first client is silent, with a client more.
fn and_silent(at: Option<u64>, entry: &ClientEntry) -> Option<u64>
    ensures { result ≡ and_silent entry.now at }
{
    if entry.has_asked {
        return at;
    }
    Some(first_of(at, entry.came.saturating_add(FIRST_QUERY)))
}

/// The earlier of two times, if there are two.
fn first_of(at: Option<u64>, time: u64) -> u64
    ensures { result ≡ first_of at time }
{
    match at {
        Some(at) => at.min(time),
        None => time,
    }
}
