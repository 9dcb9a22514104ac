//! Worlds as values. What happens in them is in rows of the command `world`.
use prefixes::{IpPrefix, Route};
use rtr_pdu::Version;
use rtr_world::{CatchFault, Event, SideEvent, World, WorldFault};
use std::alloc::Global;
use test_values::sets::{Row, V, set_in};
use vrps::{OriginState, Serial};

/// A route of 192.0.2.0/24 from AS 64496.
fn route() -> Option<Route> {
    let prefix = IpPrefix::parse("192.0.2.0/24").ok()?;
    Some(Route {
        prefix,
        origin: Some(64496),
    })
}

/// Whether the one router has this many records, under this session and serial of this version.
fn holds(world: &World, records: usize, version: Version, session: u16, serial: u32) -> bool {
    match world.table(0) {
        None => false,
        Some(table) => {
            table.len() == records && world.committed(0) == Some((version, session, Serial(serial)))
        }
    }
}

fn is_valid(world: &World) -> bool {
    match route() {
        None => false,
        Some(route) => world.route_state(0, &route) == Some(OriginState::Valid),
    }
}

/// A router asks, and its answer is cut before the last byte.
const CUT: &[SideEvent] = &[
    SideEvent::Connect,
    SideEvent::RouterSends(8),
    SideEvent::CacheGets(8),
    SideEvent::CacheSends(52),
    SideEvent::RouterGets(51),
    SideEvent::Cut(0),
];

/// A set is published, and then all this happens.
fn events_of(alloc: Global, rows: &[Row], side_events: &[SideEvent]) -> Option<Vec<Event>> {
    let set = set_in(alloc, rows)?;
    let mut events = Vec::new(alloc);
    if events.push(Event::Publish(set)).is_err() {
        return None;
    }
    for &event in side_events {
        if events.push(Event::On { router: 0, event }).is_err() {
            return None;
        }
    }
    Some(events)
}

/// Whether a router holds nothing after these events, and then catches up.
fn recovers(world: &mut World, events: &[Event]) -> bool {
    world.run(events) == 0
        && world.committed(0) == None
        && world.catch_up(0) == Ok(())
        && holds(world, 1, Version::V1, 4660, 5)
        && is_valid(world)
}

#[test]
fn an_answer_is_cut_and_the_router_catches_up(rt: HostRuntime) {
    match (
        events_of(rt.alloc(), &[V], CUT),
        World::new(rt.alloc(), 1, 4660, 4660, 5, 2),
    ) {
        (Some(events), Ok(mut world)) => assert!(rt; recovers(&mut world, events.as_slice())),
        _ => assert!(rt; false),
    }
}

/// Whether a world without a version refuses to catch up, and what names a router that there is not, or a session that was used.
fn refuses(world: &mut World) -> bool {
    let asks = Event::On {
        router: 1,
        event: SideEvent::Ask,
    };
    let restart = Event::Restart {
        session: 4660,
        session0: 1,
        start: 1,
    };
    world.catch_up(0) == Err(CatchFault::NoData)
        && world.catch_up(1) == Err(CatchFault::NoSuchRouter)
        && world.table(1).is_none()
        && world.step(&asks) == Err(WorldFault::NoSuchRouter)
        && world.step(&restart) == Err(WorldFault::SessionUsed)
}

#[test]
fn events_are_refused(rt: HostRuntime) {
    match World::new(rt.alloc(), 1, 4660, 1911, 5, 2) {
        Ok(mut world) => assert!(rt; refuses(&mut world)),
        Err(_) => assert!(rt; false),
    }
}

/// The numbers of all refusals are printed by `page_texts`.
#[test]
fn refusals_have_numbers(rt: HostRuntime) {
    assert!(rt; WorldFault::Memory.number() == 4 && CatchFault::NoSuchRouter.number() == 3);
}
