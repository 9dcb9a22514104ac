//! Parses the lines of a script of a world. Words are separated by exactly one space.
ghost use Rattle.std.specs.Prelude.{◌≤◌, IfSome};

use command_parts::{ProgramFault, decimal, read_route};
use prefixes::{Asn, IpPrefix, Route, Vrp};
use rtr_pdu::Version;
use rtr_world::{Event, SideEvent};
use std::alloc::Global;
use vrps::{SetFault, VrpSet};

/// The parameters of a script's world, from its first line.
#[derive(Clone, Copy, Debug, PartialEq, Eq)]
pub struct Beginning {
    /// The number of routers.
    pub routers: u16,
    /// The cache's session in protocol version 1.
    pub session: u16,
    /// The cache's session in protocol version 0.
    pub session0: u16,
    /// The serial of the cache's first version.
    pub start: u32,
    /// How many versions before the current one the cache keeps, 1 to 65,536.
    pub keep: u32,
}

/// A parsed line of a script after the first. Routers are numbered from 0.
#[derive(Debug, Drop)]
pub enum Line {
    /// Runs an event of the world.
    Event(Event),
    /// Brings a router up to date with the cache.
    CatchUp { router: u16 },
    /// Prints what a router has committed.
    Show { router: u16 },
    /// Prints the state of a route at a router.
    Route { router: u16, route: Route },
}

/// The words of a line that are still to be read; none behind its end.
#[derive(Drop)]
struct Words<'a> {
    rest: Option<&'a str>,
}

impl<'a> Words<'a> {
    fn of(line: &'a str) -> Words<'a> {
        Words { rest: Some(line) }
    }

    fn next(&mut self) -> Option<&'a str> {
        let rest = self.rest?;
        match rest.split_once(' ') {
            Some((word, behind)) => {
                self.rest = Some(behind);
                Some(word)
            }
            None => {
                self.rest = None;
                Some(rest)
            }
        }
    }

    fn number(&mut self) -> Option<u64> {
        decimal(self.next()?)
    }

    fn number_16(&mut self) -> Option<u16> {
        u16::try_from(self.number()?).ok()
    }

    fn number_32(&mut self) -> Option<u32> {
        u32::try_from(self.number()?).ok()
    }

    /// A number of 16 bits, or this one if the line is over.
    fn number_16_or(&mut self, number: u16) -> Option<u16> {
        if self.is_over() {
            Some(number)
        } else {
            self.number_16()
        }
    }

    /// A version of the protocol.
    fn version(&mut self) -> Option<Version> {
        match self.number()? {
            0 => Some(Version::V0),
            1 => Some(Version::V1),
            _ => None,
        }
    }

    fn route(&mut self) -> Option<Route> {
        let prefix = self.next()?;
        let origin = self.next()?;
        read_route(prefix, origin)
    }

    fn is_over(&self) -> bool {
        self.rest.is_none()
    }
}

/// Parses the first line of a script: `world ROUTERS SESSION START KEEP [SESSION0]`. Without SESSION0 it is SESSION.
/// `None`: the line does not parse, or KEEP is not 1 to 65,536.
pub fn read_beginning(line: &str) -> Option<Beginning>
    ensures some { IfSome result (λ beginning. 1 ≤ beginning.keep) }
    ensures limit { IfSome result (λ beginning. beginning.keep ≤ 65536) }
{
    let mut words = Words::of(line);
    if words.next()? != "world" {
        return None;
    }
    let routers = words.number_16()?;
    let session = words.number_16()?;
    let start = words.number_32()?;
    let keep = words.number_32()?;
    let session0 = words.number_16_or(session)?;
    if keep < 1 || keep > 65536 || !words.is_over() {
        return None;
    }
    Some(Beginning {
        routers,
        session,
        session0,
        start,
        keep,
    })
}

/// Parses a line of a script after the first. `Ok(None)`: it does not parse, or publishes too many records. `Err`: memory ran out.
pub fn read_line(alloc: Global, line: &str) -> Result<Option<Line>, ProgramFault> {
    let mut words = Words::of(line);
    let Some(name) = words.next() else {
        return Ok(None);
    };
    if name == "publish" {
        return read_publish(alloc, words.rest);
    }
    let said = read_other(name, &mut words);
    Ok(if words.is_over() { said } else { None })
}

/// The items of `publish ITEM ..`, if there are any.
fn read_publish(alloc: Global, items: Option<&str>) -> Result<Option<Line>, ProgramFault> {
    let mut records = Vec::new(alloc);
    if let Some(items) = items {
        for item in items.split(' ') {
            let Some(vrp) = read_item(item) else {
                return Ok(None);
            };
            if records.push(vrp).is_err() {
                return Err(ProgramFault::Memory);
            }
        }
    }
    match VrpSet::from_list(records) {
        Ok(set) => Ok(Some(Line::Event(Event::Publish(set)))),
        Err(SetFault::TooMany) => Ok(None),
        Err(SetFault::Memory) => Err(ProgramFault::Memory),
    }
}

/// `PREFIX,MAX,AS`
fn read_item(item: &str) -> Option<Vrp> {
    let (prefix, rest) = item.split_once(',')?;
    let (max, asn) = rest.split_once(',')?;
    let prefix = IpPrefix::parse(prefix).ok()?;
    let max_len = u8::try_from(decimal(max)?).ok()?;
    let asn = Asn::parse(asn).ok()?;
    Vrp::new(prefix, max_len, asn).ok()
}

/// A line of a fixed number of words.
fn read_other(name: &str, words: &mut Words<'_>) -> Option<Line> {
    if name == "restart" {
        let session = words.number_16()?;
        let start = words.number_32()?;
        let session0 = words.number_16_or(session)?;
        return Some(Line::Event(Event::Restart {
            session,
            session0,
            start,
        }));
    }
    let router = words.number_16()?;
    match name {
        "catch-up" => Some(Line::CatchUp { router }),
        "show" => Some(Line::Show { router }),
        "route" => Some(Line::Route {
            router,
            route: words.route()?,
        }),
        _ => Some(Line::Event(Event::On {
            router,
            event: read_side_event(name, words)?,
        })),
    }
}

/// What happens at a router.
fn read_side_event(name: &str, words: &mut Words<'_>) -> Option<SideEvent> {
    match name {
        "router-restart" => Some(SideEvent::RouterRestart),
        "speak" => Some(SideEvent::Speak(words.version()?)),
        "connect" => Some(SideEvent::Connect),
        "router-sends" => Some(SideEvent::RouterSends(words.number()?)),
        "cache-gets" => Some(SideEvent::CacheGets(words.number()?)),
        "cache-sends" => Some(SideEvent::CacheSends(words.number()?)),
        "router-gets" => Some(SideEvent::RouterGets(words.number()?)),
        "cut" => Some(SideEvent::Cut(words.number()?)),
        "notify" => Some(SideEvent::NotifyRouter),
        "ask" => Some(SideEvent::Ask),
        "tick" => Some(SideEvent::Tick(words.number()?)),
        _ => None,
    }
}
