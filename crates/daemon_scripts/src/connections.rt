//! Steps at the HTTP connections of an endpoint over streams in memory, by their own functions, and one function that plays them. Each line is
//! a step: a word, and what belongs to it. A stream reads and writes one byte a call.
//!
//! - `admits TOKEN MILLIS REQUEST`: a connection is admitted under this token at this time. Its client sends a request that has this name.
//! - `full TOKEN MILLIS`: none is admitted, as too many are open.
//! - `admits-each COUNT`: this many connections are admitted under the tokens from 0 on, each a millisecond after the one before it.
//! - `wakes TOKEN`: a connection is reported as ready.
//! - `serves BUDGET`: the connections have a turn of this many calls.
//! - `expires MILLIS COUNT`: those that have timed out at this time are closed, and this number of connections is open then.
//! - `busy yes`, `busy no`: whether one is open, and calls of one are left to be made.
//! - `open TOKEN yes`, `open TOKEN no`: whether a connection is open.
//! - `has TEXT`: the client that was admitted last has this text and no other.
use crate::endpoint::{place, request};
use crate::status_source::Source;
use crate::visitors::{Shared, Wire, is_list, put, shared};
use status_server::{HttpAdmitFault, HttpConnections};
use std::alloc::{AllocError, Global};
use std::hash::RandomState;
use test_values::scripts::Words;

/// The connections, and all that belongs to them.
#[derive(Drop)]
struct Desk {
    alloc: Global,
    connections: HttpConnections<Wire>,
    source: Source,
    /// What the client that was admitted last has received.
    received: Shared,
}

impl Desk {
    fn new(alloc: Global, keys: RandomState) -> Result<Desk, AllocError> {
        Ok(Desk {
            alloc,
            connections: HttpConnections::new(alloc, keys),
            source: Source::new(alloc),
            received: shared(alloc)?,
        })
    }

    /// The stream of a client that sends these bytes.
    fn stream(&mut self, bytes: &[u8]) -> Result<Wire, AllocError> {
        let input = shared(self.alloc)?;
        if !put(&input, bytes) {
            return Err(AllocError);
        }
        self.received = shared(self.alloc)?;
        Wire::of(&input, &self.received, 1)
    }

    /// Admits a connection under this token at this time.
    fn admit(&mut self, token: usize, now: u64, bytes: &[u8]) -> Result<(), HttpAdmitFault> {
        match self.stream(bytes) {
            Ok(stream) => self.connections.admit(token, stream, now),
            Err(_) => Err(HttpAdmitFault::Memory),
        }
    }

    /// The result of admitting the connection of a line.
    fn admitted(&mut self, words: &mut Words<'_>) -> Option<Result<(), HttpAdmitFault>> {
        match (place(words), words.number()) {
            (Some(token), Some(now)) => Some(self.admit(token, now, request(words.rest))),
            _ => None,
        }
    }

    /// Whether this many connections are admitted.
    fn admits_each(&mut self, count: u64) -> bool {
        for token in 0..count {
            if self.admit(token as usize, token, b"").is_err() {
                return false;
            }
        }
        true
    }

    fn serves(&mut self, budget: u64) -> bool {
        let Ok(budget) = u32::try_from(budget) else {
            return false;
        };
        self.connections.serve(0, &mut self.source, None, budget);
        true
    }

    fn expires(&mut self, now: u64, words: &mut Words<'_>) -> bool {
        self.connections.expire(now);
        words.number() == Some(self.connections.len() as u64)
    }

    fn is_open(&self, words: &mut Words<'_>) -> bool {
        match place(words) {
            Some(token) => self.connections.has(token) == (words.rest == "yes"),
            None => false,
        }
    }

    fn is_busy(&self) -> bool {
        !self.connections.is_empty() && self.connections.has_busy()
    }

    /// Whether a step of a number goes as it says.
    fn counts(&mut self, word: &str, number: Option<u64>, words: &mut Words<'_>) -> bool {
        let Some(number) = number else {
            return false;
        };
        match word {
            "admits-each" => self.admits_each(number),
            "serves" => self.serves(number),
            "expires" => self.expires(number, words),
            "wakes" => {
                self.connections.wake(number as usize);
                true
            }
            _ => false,
        }
    }

    /// Whether a step goes as it says.
    fn goes(&mut self, line: &str) -> bool {
        let mut words = Words { rest: line };
        match words.next() {
            "admits" => self.admitted(&mut words) == Some(Ok(())),
            "full" => self.admitted(&mut words) == Some(Err(HttpAdmitFault::TooManyConnections)),
            "busy" => self.is_busy() == (words.rest == "yes"),
            "open" => self.is_open(&mut words),
            "has" => is_list(&self.received, words.rest.as_bytes()),
            word => self.counts(word, words.number(), &mut words),
        }
    }
}

/// The first step that does not go as it says, or an empty text.
fn first_wrong<'a>(desk: &mut Desk, steps: &'a str) -> &'a str {
    for line in steps.lines() {
        if !desk.goes(line) {
            return line;
        }
    }
    ""
}

/// The first step that does not go as it says at new connections, or an empty text.
pub(crate) fn wrong_step<'a>(alloc: Global, keys: RandomState, steps: &'a str) -> &'a str {
    match Desk::new(alloc, keys) {
        Ok(mut desk) => first_wrong(&mut desk, steps),
        Err(_) => steps,
    }
}
