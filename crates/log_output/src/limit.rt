//! The limit of lines about clients.
ghost use Rattle.std.specs.Prelude.{◌≡◌, ◌≤◌, None};
ghost use Rattle.log_output.specs.Limits.{after_client_line, after_take, is_let_through, is_open, lines_to_report, limited};

use std::marker::Model;

/// The most lines about clients that one window lets through.
pub const LIMIT_LINES: u64 = 1000;

/// The length of a window in milliseconds.
pub const LIMIT_MILLIS: u64 = 10_000;

/// A rate limit for lines about clients: at most [`LIMIT_LINES`] in a window of [`LIMIT_MILLIS`]. A window begins at the first line about a
/// client after the last window ended.
///
/// Times are in milliseconds of a monotonic clock.
#[derive(Debug, Drop)]
pub struct ClientLineLimit {
    began: Option<u64>,
    passed: u64,
    suppressed: u64,
}

impl Model for ClientLineLimit {
    ghost use Rattle.log_output.specs.Limits.{Limited, limited};

    ghost Value = { Limited };

    ghost view = { λ l. limited l.began l.passed l.suppressed };
}

impl ClientLineLimit {
    /// Creates a limit with no line counted.
    pub fn new() -> ClientLineLimit
        ensures { result ≡ limited None 0 0 }
    {
        ClientLineLimit {
            began: None,
            passed: 0,
            suppressed: 0,
        }
    }

    /// Returns whether a window is open at `millis`, in milliseconds of the monotonic clock: it began less than [`LIMIT_MILLIS`] before. A time
    /// before its beginning counts as in the window. `false`: it began earlier, or no line was counted yet.
    pub fn is_open(&self, millis: u64) -> bool
        ensures { result ≡ is_open self.now millis }
    {
        match self.began {
            None => false,
            Some(began) => millis.saturating_sub(began) < LIMIT_MILLIS,
        }
    }

    /// Counts a line about a client at `millis`, in milliseconds of the monotonic clock. Returns whether the line is let through. If no window is
    /// open, the line begins one and is let through. In an open window, a line is let through if fewer than [`LIMIT_LINES`] were. Otherwise it is
    /// suppressed, and counted as such.
    pub fn admit(&mut self, millis: u64) -> bool
        ensures passes { result ≡ is_let_through self.old millis }
        ensures counts { self.new ≡ after_client_line self.old millis }
    {
        if !self.is_open(millis) {
            self.began = Some(millis);
            self.passed = 1;
            return true;
        }
        if self.passed < LIMIT_LINES {
            self.passed += 1;
            return true;
        }
        self.suppressed = self.suppressed.saturating_add(1);
        false
    }

    /// Returns how many lines about clients were suppressed since [`ClientLineLimit::take_suppressed`] last set this count to 0, or since the
    /// start. Those of an open window count too. It saturates at `u64::MAX`.
    pub fn suppressed(&self) -> u64
        ensures { result ≡ self.now.suppressed }
    {
        self.suppressed
    }

    /// Returns how many lines about clients were suppressed since the last report, and sets that count to 0. `millis` is the time now, in
    /// milliseconds of the monotonic clock. It returns 0 and changes nothing while a window is open, which is for [`LIMIT_MILLIS`] after its
    /// first line.
    pub fn take_suppressed(&mut self, millis: u64) -> u64
        ensures lines { result ≡ lines_to_report self.old millis }
        ensures takes { self.new ≡ after_take self.old millis }
    {
        if self.is_open(millis) {
            return 0;
        }
        let lines = self.suppressed;
        self.suppressed = 0;
        lines
    }
}
