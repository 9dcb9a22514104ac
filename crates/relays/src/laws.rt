//! Laws of chains of relays. The functions do nothing: each states a law, which is proved. A world is one cache, its routers and their connections.
//! A relay is a router of one world and the cache of the next. What it makes of a set, such as by local exceptions, is a function of that set.
ghost use Rattle.relays.specs.Chains.{ChainInOrder, EachFromFirst, EachIsCurrent, EachIsPublished, EachKeepsRelaying, RelaysInOrder};

/// Law, for each world after any events, and each of its routers: if the router holds a version, its table is a set that the cache of its world
/// published. Otherwise its table is empty.
pub fn held_is_published()
    ensures { EachIsPublished }
{}

/// Law: let a relay publish only what it makes of sets that its router held. Then it keeps its promise.
/// The promise: each set that the relay ever published is made of a set that its router held at some time.
/// The promise still holds after any further event in the relay's world, and after any further events in the world before it.
pub fn keeps_relaying()
    ensures { EachKeepsRelaying }
{}

/// Law: in a chain of relays of any length, data comes from the first cache, whatever was lost, cut or refused.
/// A router of the last world has an empty table if it holds no session.
/// Otherwise its table is what its own cache published under the protocol version, session and serial that it committed last.
/// This table is also what the relays made, one after the other, of a set that the first cache published.
pub fn chain()
    ensures { EachFromFirst }
{}

/// Law: if each relay is up to date, the newest version of the last cache is that of the first, as the relays make it.
/// Up to date: the relay's router holds the newest version of the cache before it, and the relay's newest version is made of that.
/// A router that has caught up with the last cache holds this set.
pub fn caught_up()
    ensures { EachIsCurrent }
{}

/// Law: a relay's router never goes back. The version that it holds later was not published before the version that it held earlier.
/// This also holds if the cache or the router restarted in between.
pub fn in_order()
    ensures { RelaysInOrder }
{}

/// Law: along a chain whose relays publish in order, no router of the last world goes back.
/// Order: if a relay published one set after another, its router held the sources of both in that order.
/// What a router held earlier, and what it holds later, are made of sets that the first cache published in that order.
pub fn chain_in_order()
    ensures { ChainInOrder }
{}
