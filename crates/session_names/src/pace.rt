//! The pace of versions: at most one a second.
ghost use Rattle.std.specs.Prelude.{◌≡◌, None, Some};
ghost use Rattle.session_names.specs.Runs.{may_publish};

use std::marker::Model;

/// The pace of versions: at most one a second. It keeps the second of the last version, counted since 1970.
/// A serial increases by one with each version, so at this pace it is never ahead of the clock.
#[derive(Clone, Copy, Debug, PartialEq, Eq)]
pub struct Pace {
    last: Option<u64>,
}

impl Model for Pace {
    ghost use Rattle.std.specs.Prelude.{ℕ, Option};

    ghost Value = { Option ℕ };

    ghost view = { λ p. p.last };

    ghost inverse = { λ last. record { last = last } };
}

impl Pace {
    /// Returns a pace without a published version: the first version may be published at once.
    pub fn new() -> Pace
        ensures { result ≡ None }
    {
        Pace { last: None }
    }

    /// Returns a pace that counts a version as published at `start`, in seconds since 1970. So the first version waits for a later second.
    /// This is for a restart: the run before may have published in the second `start`.
    pub fn after(start: u64) -> Pace
        ensures { result ≡ Some start }
    {
        Pace { last: Some(start) }
    }

    /// Returns whether a version may be published at `now`, in seconds since 1970: `now` is later than the second of the last version, or
    /// there is none.
    pub fn may_publish(&self, now: u64) -> bool
        ensures { result ≡ may_publish self.now now }
    {
        match self.last {
            None => true,
            Some(last) => last < now,
        }
    }

    /// Notes that a version was published at `now`, in seconds since 1970. It does not check that `may_publish` was true.
    pub fn published(&mut self, now: u64)
        ensures { self.new ≡ Some now }
    {
        self.last = Some(now);
    }
}
