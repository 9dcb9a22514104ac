//! Steps at an endpoint over a listener and streams in memory, and one function that plays them. A visitor has 30 seconds for each request, and
//! ten minutes in all. Each line is a step: a word, and what belongs to it. A stream is named by its place in the order of arrival, which is its
//! poll token.
//!
//! - `comes PIECE`: a stream comes, which reads and writes at most this number of bytes a call.
//! - `fails`, `aborts`: the next accept fails, or the next connection is aborted.
//! - `sends STREAM TEXT`: a client sends a request that has this name, or this text.
//! - `wakes STREAM`: a stream is reported as ready.
//! - `turns MILLIS`: the endpoint has a turn this number of milliseconds after the last one.
//! - `open STREAM yes`, `open STREAM no`: whether a connection is open.
//! - `holds COUNT`: this number of connections is open.
//! - `waits MILLIS`: this number of milliseconds may pass before the next turn.
//! - `has STREAM TEXT`: a client has this text and no other.
//! - `answered STREAM REQUEST`: what a client has begins and ends as the response to the request of this name.
//! - `responses STREAM LEAST MOST`: a client has at least and at most this number of responses.
//! - `asked MOST`: the status was asked for this number of times at most.
//! - `repeat COUNT STEP; STEP..`: the steps are made this number of times.
use crate::status_source::Source;
use crate::visitors::{Shared, Wire, has_ends, is_list, put, responses, shared};
use status_server::{HttpAccept, HttpEndpoint, HttpReady, HttpSockets};
use std::alloc::{AllocError, Global};
use std::collections::VecDeque;
use std::hash::RandomState;
use test_values::scripts::Words;

const LIST: &[u8] = b"GET /list.json HTTP/1.1\r\nHost: 192.0.2.1\r\n\r\n";

const ELSEWHERE: &[u8] = b"GET /status HTTP/1.1\r\nHost: 192.0.2.1\r\n\r\n";

/// A request of 35 bytes.
const GET: &[u8] = b"GET / HTTP/1.1\r\nHost: 192.0.2.1\r\n\r\n";

/// A request of 36 bytes.
const HEAD: &[u8] = b"HEAD / HTTP/1.1\r\nHost: 192.0.2.1\r\n\r\n";

/// The request of this name, or of this text.
pub(crate) fn request(name: &str) -> &[u8] {
    match name {
        "LIST" => LIST,
        "ELSEWHERE" => ELSEWHERE,
        "GET" => GET,
        "HEAD" => HEAD,
        _ => name.as_bytes(),
    }
}

/// The start and the end of the response to the request of this name.
fn response(name: &str) -> (&'static [u8], &'static [u8]) {
    match name {
        "LIST" => (b"HTTP/1.1 200 OK\r\n", b"\r\n\r\n[]"),
        _ => (b"HTTP/1.1 404 Not Found\r\n", b"/PREFIX\n"),
    }
}

/// What becomes ready, and what the accepts answer. Then none is pending.
#[derive(Drop)]
struct Pending {
    ready: VecDeque<HttpReady>,
    accepts: VecDeque<HttpAccept<Wire>>,
}

impl HttpSockets<Wire> for Pending {
    fn next(&mut self) -> Option<HttpReady> {
        self.ready.pop_front()
    }

    fn turn_away(&mut self, _stream: Wire, _connections: u64) {}

    fn accept(&mut self) -> HttpAccept<Wire> {
        match self.accepts.pop_front() {
            Some(accepted) => accepted,
            None => HttpAccept::WouldBlock,
        }
    }
}

/// What each client sends, and what it receives.
#[derive(Drop)]
struct Clients {
    alloc: Global,
    sent: Vec<Shared>,
    received: Vec<Shared>,
}

impl Clients {
    /// The stream of one client more.
    fn add(&mut self, piece: usize) -> Result<Wire, AllocError> {
        let (input, output) = (shared(self.alloc)?, shared(self.alloc)?);
        let wire = Wire::of(&input, &output, piece)?;
        self.sent.push(input)?;
        self.received.push(output)?;
        Ok(wire)
    }

    /// Whether a client sends what a line says.
    fn send(&self, words: &mut Words<'_>) -> bool {
        match place(words) {
            Some(client) => match self.sent.get(client) {
                Some(list) => put(list, request(words.rest)),
                None => false,
            },
            None => false,
        }
    }

    /// What the client of a line has received.
    fn received(&self, words: &mut Words<'_>) -> Option<&Shared> {
        self.received.get(place(words)?)
    }

    fn has(&self, words: &mut Words<'_>) -> bool {
        match self.received(words) {
            Some(list) => is_list(list, words.rest.as_bytes()),
            None => false,
        }
    }

    fn is_answered(&self, words: &mut Words<'_>) -> bool {
        let Some(list) = self.received(words) else {
            return false;
        };
        let (begin, end) = response(words.rest);
        has_ends(list, begin, end)
    }

    fn has_responses(&self, words: &mut Words<'_>) -> bool {
        let Some(list) = self.received(words) else {
            return false;
        };
        match (place(words), place(words)) {
            (Some(least), Some(most)) => {
                let count = responses(list);
                least <= count && count <= most
            }
            _ => false,
        }
    }
}

/// The next word as a number.
pub(crate) fn place(words: &mut Words<'_>) -> Option<usize> {
    words.next().parse::<usize>().ok()
}

/// An endpoint, and all that it is connected to.
#[derive(Drop)]
struct Stage {
    now: u64,
    pending: Pending,
    clients: Clients,
    source: Source,
    endpoint: HttpEndpoint<Wire>,
}

impl Stage {
    fn new(alloc: Global, keys: RandomState) -> Stage {
        Stage {
            now: 0,
            pending: Pending {
                ready: VecDeque::new(alloc),
                accepts: VecDeque::new(alloc),
            },
            clients: Clients {
                alloc,
                sent: Vec::new(alloc),
                received: Vec::new(alloc),
            },
            source: Source::new(alloc),
            endpoint: HttpEndpoint::new(alloc, keys),
        }
    }

    /// A connection is pending, under the next token.
    fn add(&mut self, piece: usize) -> bool {
        let token = self.clients.sent.len();
        let Ok(stream) = self.clients.add(piece) else {
            return false;
        };
        let accepted = HttpAccept::Connection { stream, token };
        self.pending.accepts.push_back(accepted).is_ok()
            && self.pending.ready.push_back(HttpReady::Listener).is_ok()
    }

    fn comes(&mut self, words: &mut Words<'_>) -> bool {
        match place(words) {
            Some(piece) => self.add(piece),
            None => false,
        }
    }

    fn wakes(&mut self, words: &mut Words<'_>) -> bool {
        match place(words) {
            Some(token) => self
                .pending
                .ready
                .push_back(HttpReady::Connection(token))
                .is_ok(),
            None => false,
        }
    }

    fn turns(&mut self, words: &mut Words<'_>) -> bool {
        let Some(after) = words.number() else {
            return false;
        };
        self.now = self.now.saturating_add(after);
        self.endpoint
            .turn(self.now, &mut self.pending, &mut self.source, None);
        true
    }

    /// Whether a step goes as it has to.
    fn goes(&mut self, line: &str) -> bool {
        let mut words = Words { rest: line };
        match words.next() {
            "comes" => self.comes(&mut words),
            "fails" => self.pending.accepts.push_back(HttpAccept::Failed).is_ok(),
            "aborts" => self.pending.accepts.push_back(HttpAccept::Again).is_ok(),
            "sends" => self.clients.send(&mut words),
            "wakes" => self.wakes(&mut words),
            "turns" => self.turns(&mut words),
            word => self.holds(word, &mut words),
        }
    }

    /// Whether a connection is or is not open, as a line says.
    fn is_open(&self, words: &mut Words<'_>) -> bool {
        match place(words) {
            Some(token) => self.endpoint.connections().has(token) == (words.rest == "yes"),
            None => false,
        }
    }

    /// Whether the status was asked for as seldom as a line says.
    fn is_asked(&self, words: &mut Words<'_>) -> bool {
        match words.number() {
            Some(most) => u64::from(self.source.asked) <= most,
            None => false,
        }
    }

    /// Whether a check holds.
    fn holds(&self, word: &str, words: &mut Words<'_>) -> bool {
        match word {
            "open" => self.is_open(words),
            "holds" => Some(self.endpoint.connections().len()) == place(words),
            "waits" => Some(self.endpoint.wait_limit()) == words.number(),
            "asked" => self.is_asked(words),
            "has" => self.clients.has(words),
            "answered" => self.clients.is_answered(words),
            "responses" => self.clients.has_responses(words),
            _ => false,
        }
    }
}

/// Whether steps that semicolons part go as they have to.
fn each_goes(stage: &mut Stage, steps: &str) -> bool {
    for step in steps.split(';') {
        if !stage.goes(step.trim()) {
            return false;
        }
    }
    true
}

/// Whether the steps of a line go as they have to, this number of times.
fn repeats(stage: &mut Stage, times: &str) -> bool {
    let mut words = Words { rest: times };
    let Some(count) = words.number() else {
        return false;
    };
    for _round in 0..count {
        if !each_goes(stage, words.rest) {
            return false;
        }
    }
    true
}

/// Whether a line goes as it has to.
fn goes(stage: &mut Stage, line: &str) -> bool {
    match line.strip_prefix("repeat ") {
        Some(times) => repeats(stage, times),
        None => stage.goes(line),
    }
}

/// The first step that does not go as it says at a new endpoint, or an empty text.
pub(crate) fn wrong_step<'a>(alloc: Global, keys: RandomState, steps: &'a str) -> &'a str {
    let mut stage = Stage::new(alloc, keys);
    for line in steps.lines() {
        if !goes(&mut stage, line) {
            return line;
        }
    }
    ""
}
