//! The watchdog of the service manager.
ghost use Rattle.std.specs.Prelude.{◌≡◌, ◌≤◌, ◌-◌};
ghost use Rattle.sd_notify.specs.Watchdogs.{half_of, signalled};

use std::marker::Model;

/// The watchdog: the service manager restarts the service if it gets no signal for the watchdog's time. A signal is due at half of that time.
/// Times are in milliseconds of a monotonic clock.
#[derive(Clone, Copy, Debug, PartialEq, Eq)]
pub struct Watchdog {
    half: u64,
    last: u64,
}

impl Model for Watchdog {
    ghost use Rattle.sd_notify.specs.Watchdogs.{WatchdogState};

    ghost Value = { WatchdogState };

    ghost view = { λ w. (w.half, w.last) };

    ghost inverse = { λ s. record { half = s.0; last = s.1 } };
}

impl Watchdog {
    /// A watchdog whose timeout is `microseconds` (`WATCHDOG_USEC`). The last signal was sent at `now`. A signal is due after half of the timeout,
    /// in whole milliseconds rounded down, and at least 1.
    pub fn new(microseconds: u64, now: u64) -> Watchdog
        ensures { result ≡ (half_of microseconds, now) }
    {
        Watchdog {
            half: (microseconds / 2000).max(1),
            last: now,
        }
    }

    /// How many milliseconds after `now` the next signal is due: 0 if it is due already.
    pub fn wait_limit(&self, now: u64) -> u64
        ensures { result ≡ self.now.0 - (now - self.now.1) }
    {
        self.half.saturating_sub(now.saturating_sub(self.last))
    }

    /// Returns whether a signal is due at `now`. If it is, it counts as sent.
    pub fn take_signal(&mut self, now: u64) -> bool
        ensures { (result, self.new) ≡ signalled now self.old }
    {
        if now.saturating_sub(self.last) < self.half {
            return false;
        }
        self.last = now;
        true
    }
}
