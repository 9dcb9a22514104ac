//! What a router does as time passes, and as a connection is made or closed: queries, retries and expiry (RFC 8210 sections 6 and 8).
ghost use Rattle.std.specs.Prelude.{◌≡◌, ◌<◌, ◌^◌, ◌||◌, ℕ, [], Option};
ghost use Rattle.rtr_ends.specs.LinkRules as rules;
ghost use Rattle.rtr_ends.specs.Router as model;
ghost use Rattle.rtr_ends.specs.RouterLink as linked;
ghost use Rattle.rtr_ends.specs.Seen.{seen_versions};
ghost use Rattle.rtr_ends.specs.Transcript.{is_over, retry_of, sum_of};
ghost use Rattle.rtr_ends.specs.Wake.{WakesAt, is_reached};

use crate::link::End;
use crate::machine::{Machine, State};
use crate::staging::Staging;

/// The first of two moments.
fn first(one: Option<u64>, other: Option<u64>) -> Option<u64>
    ensures { (now : ℕ) → is_reached result now ≡ (is_reached one now || is_reached other now) }
{
    match one {
        None => other,
        Some(one) => match other {
            None => Some(one),
            Some(other) => Some(one.min(other)),
        },
    }
}

impl Machine {
    ghost use Rattle.rtr_ends.specs.Seen.{Does, ShowsRouter, seen_link};
    ghost use Rattle.rtr_ends.specs.declared.machine.State.TheVariants as states;
    ghost use Rattle.rtr_ends.specs.declared.link.End.TheVariants as ends;

    /// Advances the clock to `now`, in seconds; an earlier time changes nothing. If more than the expire interval has passed since the commit,
    /// drops what is committed.
    /// If a Serial Query is outstanding then, the link ends with `End::Expired`, and pending bytes are dropped.
    pub fn advance_clock(&mut self, now: u64)
        ensures { Does (model.clocked now) self.old self.new }
    {
        self.clock = self.clock.max(now);
        if self.is_over() {
            self.expire();
        }
    }

    /// Whether more than expire has passed since the commit.
    fn is_over(&self) -> bool
        ensures { result ≡ is_over (seen_versions self.now.version) self.now.clock }
    {
        match &self.version {
            Some(version) => version.is_over(self.clock),
            None => false,
        }
    }

    /// What is committed has expired.
    fn expire(&mut self)
        ensures { Does (λ r. model.expired r.link r) self.old self.new }
    {
        self.empty();
        match self.state {
            State::Asked(question) => {
                if question.is_serial() {
                    self.state = State::Ended(End::Expired);
                    self.out.clear();
                }
            }
            State::Answering {
                question,
                session: _,
            } => {
                if question.is_serial() {
                    self.state = State::Ended(End::Expired);
                    self.out.clear();
                }
            }
            _ => {}
        }
    }

    /// Advances the clock to `now`, in seconds, as `advance_clock` does. Closes an older connection, and makes one of the version that was set last.
    /// Puts its first query into `out`. The state becomes `Asked`.
    pub fn connect(&mut self, now: u64)
        ensures { Does (λ r. (model.connects_at now r).router) self.old self.new }
    {
        self.advance_clock(now);
        self.close();
        self.spoken = self.speaks;
        self.query();
    }

    /// Advances the clock to `now`, in seconds, as `advance_clock` does. If there is a connection, closes it: pending bytes and staged records are
    /// dropped, and a query is due after the retry interval. If there is none, nothing else changes.
    pub fn closed(&mut self, now: u64)
        ensures { Does (λ r. (model.closed_at now r).router) self.old self.new }
    {
        self.advance_clock(now);
        self.close();
    }

    /// Closes the connection, if there is one. What was not pulled is dropped, and what is staged.
    fn close(&mut self)
        ensures { Does model.close self.old self.new }
    {
        if self.state == State::Closed {
            return;
        }
        self.staging = Staging::over(self.alloc, 0);
        self.state = State::Closed;
        self.agreed = false;
        self.session = None;
        self.out.clear();
        self.due = Some(self.retry_moment());
    }

    /// Returns when to try again after a failure, in seconds: the clock plus the retry interval of the committed version. If nothing is committed, it
    /// is the configured retry interval. The sum is at most `u64::MAX`.
    pub fn retry_moment(&self) -> u64
        ensures { result ≡ sum_of self.now.clock (retry_of self.now.config (seen_versions self.now.version)) }
    {
        let retry = match &self.version {
            Some(version) => version.retry,
            None => self.config.intervals.retry(),
        };
        self.clock.saturating_add(u64::from(retry))
    }

    /// Advances the clock to `now`, in seconds, as `advance_clock` does. If the link is idle and a query is due, puts the query into `out`.
    pub fn tick(&mut self, now: u64)
        ensures { Does (λ r. (model.ticks_at now r).router) self.old self.new }
    {
        self.advance_clock(now);
        if self.is_due() {
            self.query();
        }
    }

    /// Whether an idle link is due to ask.
    fn is_due(&self) -> bool
        ensures { result ≡ linked.is_due (seen_link self.now.state [] []) self.now.due self.now.clock }
    {
        match self.state {
            State::Idle => match self.due {
                Some(due) => due <= self.clock,
                None => false,
            },
            _ => false,
        }
    }

    /// When what is committed expires, if ever.
    fn expires_at(&self) -> Option<u64>
        ensures { (now : ℕ) → now < 2 ^ 64 → is_over (seen_versions self.now.version) now ≡ is_reached result now }
    {
        match &self.version {
            Some(version) => version.over_at(),
            None => None,
        }
    }

    /// When an idle link is due to ask, if ever.
    fn asks_at(&self) -> Option<u64>
        ensures { (now : ℕ) → linked.is_due (seen_link self.now.state [] []) self.now.due now ≡ is_reached result now }
    {
        match self.state {
            State::Idle => self.due,
            _ => None,
        }
    }

    /// Returns the first time, in seconds, at which `tick` drops expired data or sends a query. The time may be past. `None`: there is no such time.
    pub fn wake_at(&self) -> Option<u64>
        ensures { (r : rules.Router) → ShowsRouter r self.now → WakesAt result r }
    {
        let _clock = self.clock;
        first(self.expires_at(), self.asks_at())
    }

    /// If the link is idle, puts a query into the output as [`query`](Machine::query) does, and returns `true`. Otherwise it returns `false`, and
    /// nothing changes. The clock is not advanced.
    pub fn ask_idle(&mut self) -> bool
        ensures asks { Does (λ r. (model.asks r).router) self.old self.new }
        ensures idle { result ≡ linked.is_idle (seen_link self.old.state [] []) }
    {
        match self.state {
            State::Idle => {
                self.query();
                true
            }
            State::Closed => false,
            State::Asked(_) => false,
            State::Answering { .. } => false,
            State::Ended(_) => false,
        }
    }
}
