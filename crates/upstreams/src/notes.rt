//! What an upstream notes of the calls on its router.
ghost use Rattle.std.specs.Prelude.{◌≡◌, is_some};
ghost use Rattle.rtr_ends.specs.FetchStream.{is_asking};
ghost use Rattle.rtr_ends.specs.LinkRules as rules;
ghost use Rattle.rtr_ends.specs.RouterLink.{is_closed, is_idle};
ghost use Rattle.rtr_ends.specs.RouterShown.{IsShown};
ghost use Rattle.upstreams.specs.Versions.{is_refusal};
ghost use Rattle.upstreams.specs.Notes.{asked_again, has_asked_for_version_0, has_ended, has_put, is_corrupt, noted_at_connection, received_notes, ticked_notes};

use crate::opening::Opening;
use rtr_ends::{End, Link, Router};
use rtr_pdu::Version;
use rtr_pdu::error_code::{CORRUPT_DATA, UNSUPPORTED_VERSION};

/// Times and events of the latest connection. All times are in seconds of the caller's clock.
#[derive(Clone, Copy, Debug, PartialEq, Eq)]
pub(crate) struct Notes {
    /// Since when nothing was heard of the cache.
    pub(crate) heard_at: u64,
    /// When the latest query was put.
    pub(crate) asked_at: u64,
    /// Whether the router dropped its data for what the cache sent (RFC 8210 section 5.1).
    pub(crate) flushed: bool,
    /// The version in which the cache opened it.
    pub(crate) opening: Opening,
    /// Whether the cache sent Error Report 4, Unsupported Protocol Version.
    pub(crate) refused: bool,
    /// The version of its queries.
    pub(crate) spoken: Version,
}

impl Notes {
    /// Notes of a connection of this version that was made at this time.
    pub(crate) fn new(now: u64, spoken: Version) -> Notes
        ensures { result ≡ noted_at_connection now spoken }
    {
        Notes {
            heard_at: now,
            asked_at: now,
            flushed: false,
            opening: Opening::new(),
            refused: false,
            spoken,
        }
    }

    /// Notes that the router received bytes at this time. `held`: it had data before.
    pub(crate) fn receive(&mut self, held: bool, router: &Router, now: u64)
        ensures { (r : rules.Router) → IsShown r router.now → self.new ≡ received_notes now held r self.old }
    {
        self.heard_at = now;
        if has_put(router) {
            self.asked_at = now;
        }
        if held && !holds(router) && is_corrupt(router) {
            self.flushed = true;
        }
        if is_refusal(router) {
            self.refused = true;
        }
    }

    /// Whether the cache asks for version 0 (RFC 8210 section 7).
    pub(crate) fn asks_for_version_0(&self) -> bool
        ensures { result ≡ has_asked_for_version_0 self.now }
    {
        matches!(self.spoken, Version::V1)
            && (matches!(self.opening.version, Some(0)) || self.refused)
    }

    /// Notes that the router's clock was advanced. `was_idle`: no query was outstanding before.
    pub(crate) fn tick(&mut self, was_idle: bool, router: &Router, now: u64)
        ensures { (r : rules.Router) → IsShown r router.now → self.new ≡ ticked_notes now was_idle r self.old }
    {
        if !was_idle {
            return;
        }
        self.heard_at = now;
        if is_asking(router) {
            self.asked_at = now;
        }
    }

    /// Notes that a query was put at this time.
    pub(crate) fn ask(&mut self, now: u64)
        ensures { self.new ≡ asked_again now self.old }
    {
        self.asked_at = now;
    }
}

/// Whether data is committed.
pub(crate) fn holds(router: &Router) -> bool
    ensures { (r : rules.Router) → IsShown r router.now → result ≡ is_some r.version }
{
    match router.committed_version() {
        Some(_version) => true,
        None => false,
    }
}

/// Whether a query is outstanding.
pub(crate) fn is_asking(router: &Router) -> bool
    ensures { (r : rules.Router) → IsShown r router.now → result ≡ is_asking r.link }
{
    matches!(router.link(), Link::Asked | Link::Answering)
}

/// Whether a connection is open, and no query is outstanding.
pub(crate) fn is_idle(router: &Router) -> bool
    ensures { (r : rules.Router) → IsShown r router.now → result ≡ is_idle r.link }
{
    matches!(router.link(), Link::Idle)
}

/// Whether there is no connection.
pub(crate) fn is_closed(router: &Router) -> bool
    ensures { (r : rules.Router) → IsShown r router.now → result ≡ is_closed r.link }
{
    matches!(router.link(), Link::Closed)
}

/// Whether the link has ended.
pub(crate) fn has_ended(router: &Router) -> bool
    ensures { (r : rules.Router) → IsShown r router.now → result ≡ has_ended r.link }
{
    matches!(router.link(), Link::Ended(_))
}

/// Whether a query is outstanding that is still to be sent.
fn has_put(router: &Router) -> bool
    ensures { (r : rules.Router) → IsShown r router.now → result ≡ has_put r }
{
    is_asking(router) && router.has_bytes()
}

/// Whether the link ended with code 0, Corrupt Data, sent or received.
fn is_corrupt(router: &Router) -> bool
    ensures { (r : rules.Router) → IsShown r router.now → result ≡ is_corrupt r.link }
{
    match router.link() {
        Link::Ended(End::Reported(code)) => code == CORRUPT_DATA,
        Link::Ended(End::Told(code)) => code == CORRUPT_DATA,
        _ => false,
    }
}

/// Whether the cache sent Error Report 4, Unsupported Protocol Version.
fn is_refusal(router: &Router) -> bool
    ensures { (r : rules.Router) → IsShown r router.now → result ≡ is_refusal r.link }
{
    match router.link() {
        Link::Ended(End::Told(code)) => code == UNSUPPORTED_VERSION,
        _ => false,
    }
}
