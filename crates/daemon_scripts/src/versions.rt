//! Steps at what is made of a version of one record, and at the endpoint of a cache with that version, and one function that plays them. Each
//! line is a step. What is shown goes to the log.
//!
//! - `lists FORM`: the text of the version in this form is shown, which is `payloads`, `roas`, `csv` or `routinator-csv`.
//! - `drops FORM`: all texts are dropped, and there is none in this form without a version.
//! - `judges PREFIX AS`: the state of a route under the version is shown.
//! - `visits TARGET`: the first line and the body are shown of the response to a request for this target.
use crate::Played;
use crate::status_source::status;
use crate::visitors::{Shared, Wire, put, shared};
use prefixes::{IpPrefix, Route};
use status_pages::{LostLines, Status};
use status_server::{
    CachePlace, CacheView, HttpAccept, HttpReady, HttpSockets, ListForm, StatusEndpoint,
    VersionCache,
};
use std::alloc::{AllocError, Global};
use std::hash::RandomState;
use std::{mem, str};
use test_values::scripts::Words;
use test_values::sets::set_in;
use vrps::{OriginState, Serial, VrpSet};

/// The set of one record.
fn one(alloc: Global) -> Option<VrpSet> {
    set_in(alloc, &[("192.0.2.0/24", 24, 64496)])
}

/// The form of this name.
fn form_of(name: &str) -> Option<ListForm> {
    match name {
        "payloads" => Some(ListForm::Payloads),
        "roas" => Some(ListForm::Roas),
        "csv" => Some(ListForm::Csv),
        "routinator-csv" => Some(ListForm::RoutinatorCsv),
        _ => None,
    }
}

/// Adds a line, or lines, to a log. The answer is whether there is memory for them.
fn shows(log: &mut Vec<u8>, text: &[u8]) -> bool {
    let text = text.strip_suffix(b"\n".as_slice()).unwrap_or(text);
    log.extend_from_slice(text).is_ok() && log.push(b'\n').is_ok()
}

/// The texts of a version, and what is shown of it.
#[derive(Drop)]
struct Desk {
    alloc: Global,
    keys: RandomState,
    texts: VersionCache,
    set: VrpSet,
    log: Vec<u8>,
}

impl Desk {
    /// Shows the version in a form.
    fn lists(&mut self, form: ListForm) -> bool {
        match self.texts.list(Some((Serial(5), &self.set)), form) {
            Ok(Some(text)) => shows(&mut self.log, text.as_slice()),
            _ => false,
        }
    }

    /// Drops the texts. The answer is whether there is none in this form without a version.
    fn drops(&mut self, form: ListForm) -> bool {
        self.texts.drop_old(None);
        matches!(self.texts.list(None, form), Ok(None))
    }

    /// The state of a route under the version.
    fn state(&mut self, route: &Route) -> Option<OriginState> {
        match self.texts.validity(Some((Serial(5), &self.set)), route) {
            Ok(Some(validity)) => Some(validity.state),
            _ => None,
        }
    }

    /// Shows the state of the route of a line.
    fn judges(&mut self, words: &mut Words<'_>) -> bool {
        let Some(route) = route_of(words) else {
            return false;
        };
        match self.state(&route) {
            Some(OriginState::Valid) => shows(&mut self.log, b"valid"),
            Some(OriginState::Invalid) => shows(&mut self.log, b"invalid"),
            Some(OriginState::NotFound) => shows(&mut self.log, b"not-found"),
            None => false,
        }
    }

    /// Shows what a visitor receives who asks for this target.
    fn visits(&mut self, target: &str) -> bool {
        match answered(self.alloc, self.keys, target) {
            Some(output) => self.shows_response(&output),
            None => false,
        }
    }

    /// Shows the first line and the body of a response.
    fn shows_response(&mut self, output: &Shared) -> bool {
        let Ok(bytes) = output.try_borrow() else {
            return false;
        };
        let Ok(text) = str::from_utf8(bytes.as_slice()) else {
            return false;
        };
        match (text.split_once("\r\n"), text.split_once("\r\n\r\n")) {
            (Some((line, _)), Some((_, body))) => shows(&mut self.log, line.as_bytes())
                && shows(&mut self.log, body.as_bytes()),
            _ => false,
        }
    }

    /// Whether a step goes as it says.
    fn goes(&mut self, line: &str) -> bool {
        let mut words = Words { rest: line };
        match words.next() {
            "judges" => self.judges(&mut words),
            "visits" => self.visits(words.rest),
            word => match form_of(words.rest) {
                Some(form) => self.is_in(word, form),
                None => false,
            },
        }
    }

    /// Whether a step about a form goes as it says.
    fn is_in(&mut self, word: &str, form: ListForm) -> bool {
        match word {
            "lists" => self.lists(form),
            "drops" => self.drops(form),
            _ => false,
        }
    }
}

/// The route of a line.
fn route_of(words: &mut Words<'_>) -> Option<Route> {
    let prefix = IpPrefix::parse(words.next()).ok()?;
    let origin = words.next().parse::<u32>().ok()?;
    Some(Route {
        prefix,
        origin: Some(origin),
    })
}

/// A cache whose current version is this set.
#[derive(Drop)]
struct View {
    alloc: Global,
    set: VrpSet,
}

impl CacheView for View {
    fn status(&self, _now: u64, _millis: u64) -> Result<Status, AllocError> {
        Ok(status(self.alloc))
    }

    fn current(&self) -> Option<(Serial, &VrpSet)> {
        Some((Serial(5), &self.set))
    }
}

/// The sockets of one visitor.
#[derive(Drop)]
struct LoneVisitor {
    is_told: bool,
    stream: Option<Wire>,
}

impl HttpSockets<Wire> for LoneVisitor {
    fn next(&mut self) -> Option<HttpReady> {
        if self.is_told {
            return None;
        }
        self.is_told = true;
        Some(HttpReady::Listener)
    }

    fn turn_away(&mut self, _stream: Wire, _connections: u64) {}

    fn accept(&mut self) -> HttpAccept<Wire> {
        match self.stream.take() {
            Some(stream) => HttpAccept::Connection { stream, token: 0 },
            None => HttpAccept::WouldBlock,
        }
    }
}

/// Makes a turn of an endpoint with one visitor.
fn turn(alloc: Global, keys: RandomState, set: VrpSet, stream: Wire) {
    let mut sockets = LoneVisitor {
        is_told: false,
        stream: Some(stream),
    };
    let place = CachePlace {
        host: None,
        addresses: Vec::new(alloc),
    };
    let lost = LostLines {
        dropped: 0,
        suppressed: 0,
    };
    let view = View { alloc, set };
    let mut endpoint = StatusEndpoint::new(alloc, keys, place, None);
    endpoint.turn(1_795_653_420, 0, lost, &view, &mut sockets);
}

/// What a visitor receives who asks for this target.
fn answered(alloc: Global, keys: RandomState, target: &str) -> Option<Shared> {
    let (Ok(input), Ok(output)) = (shared(alloc), shared(alloc)) else {
        return None;
    };
    let stream = Wire::of(&input, &output, 4096).ok()?;
    let is_put = put(&input, b"GET ")
        && put(&input, target.as_bytes())
        && put(&input, b" HTTP/1.1\r\nHost: 192.0.2.1\r\n\r\n");
    if !is_put {
        return None;
    }
    turn(alloc, keys, one(alloc)?, stream);
    Some(output)
}

/// The first step that does not go as it says, or an empty text.
fn first_wrong<'a>(desk: &mut Desk, steps: &'a str) -> &'a str {
    for line in steps.lines() {
        if !desk.goes(line) {
            return line;
        }
    }
    ""
}

/// The result of steps at a new version.
pub(crate) fn result_of<'a>(alloc: Global, keys: RandomState, steps: &'a str) -> Played<'a> {
    let log = Vec::new(alloc);
    let Some(set) = one(alloc) else {
        return Played { wrong: steps, log };
    };
    let texts = VersionCache::new(alloc);
    let mut desk = Desk {
        alloc,
        keys,
        texts,
        set,
        log,
    };
    let wrong = first_wrong(&mut desk, steps);
    Played {
        wrong,
        log: mem::replace(&mut desk.log, Vec::new(alloc)),
    }
}
