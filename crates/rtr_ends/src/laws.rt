//! Laws of the two ends of the protocol. These functions do nothing when called: what their `ensures` lines state is proved.
ghost use Rattle.rtr_ends.specs.Cache.{ConnStops, ConnTakes, ServesHistory};
ghost use Rattle.rtr_ends.specs.CacheState.{AllHaveRoom, CacheIsServed, CacheState, EachIsServed, ShowsCache};
ghost use Rattle.rtr_ends.specs.Commit.{ChangeCommits, OneCommit};
ghost use Rattle.rtr_ends.specs.Connection.{HistorySplits, PulledAreReplies};
ghost use Rattle.rtr_ends.specs.Consumed.{RouterSplits};
ghost use Rattle.rtr_ends.specs.Peer.{HasBufferRoom};
ghost use Rattle.rtr_ends.specs.RouterLaws.{RouterAsks, RouterKeeps, RouterSays, RouterSpeaks, RouterStops, RouterTakes};
ghost use Rattle.rtr_ends.specs.RouterShown.{held_by_router};
ghost use Rattle.rtr_ends.specs.Transcript.{ActsExactly};

use crate::cache::Cache;
use crate::router::Router;
use vrps::VersionStore;

/// Law, for any two sets of VRPs: an answer with the withdrawals and announcements of the change between them leads from the first set to the second.
pub fn change_commits()
    ensures { ChangeCommits }
{}

/// Law: the withdrawals and announcements of an answer lead from a base set to at most one set.
pub fn one_commit()
    ensures { OneCommit }
{}

/// Law, for each history of a connection of a cache: the pulled bytes, followed by the due bytes, are exactly its replies. Pulled bytes were given to
/// the caller for sending. Due bytes wait to be pulled.
pub fn pulled_are_replies()
    ensures { PulledAreReplies }
{}

/// Law, for each history of a connection of a cache: the received bytes split into exactly the PDUs of the history and a rest. If the rest shows a
/// fault, the split has that fault. The split is by the protocol version of the first header.
pub fn history_splits()
    ensures { HistorySplits }
{}

/// Law: a connection of a cache consumes bytes of a piece only until bytes become due or the connection ends. If neither happens, it consumes all.
/// If bytes are due or the connection has ended, it consumes nothing (clause `taken`).
/// The connection stops consuming only at the end of a PDU or at a fault (clause `stops`).
pub fn connection_takes()
    ensures taken { ConnTakes }
    ensures stops { ConnStops }
{}

/// Law: a router consumes bytes of a piece only until bytes become pending or the link ends. If neither happens, it consumes all.
/// If bytes are pending or no link is open, it consumes nothing (clause `taken`).
/// The router stops consuming only at the end of a PDU or at a fault (clause `stops`).
pub fn router_takes()
    ensures taken { RouterTakes }
    ensures stops { RouterStops }
{}

/// Law, for any base set and any whole answer: the test by which a router judges the answer passes if and only if the answer commits.
/// An answer commits if each withdrawn record is in the base, each announced record is not, and no record is withdrawn or announced twice.
pub fn acts_exactly()
    ensures { ActsExactly }
{}

/// Law: any calls on one connection of a cache, with any splitting of the bytes, make a history of it. The bytes of the history are those consumed.
/// The bytes that were pulled are the beginning of its replies. The bytes that are due are the rest of them.
pub fn serves_history()
    ensures { ServesHistory }
{}

/// Law, for any calls and any splitting of the bytes: the bytes that a router consumed on its latest connection split as its transcript lists them.
/// The transcript has all PDUs of them in order, and a fault if they show one. If the link is open and has no fault, the router still holds the bytes
/// after the last PDU. If the link is closed, the router holds no bytes.
pub fn router_splits()
    ensures { RouterSplits }
{}

/// Law, after any calls: a router holds the table, the version and the configuration that its transcript gives. Its next query is due when the
/// transcript says. Its clock is the greatest time that a call gave it, in seconds. Its link is as the transcript says.
/// If the link has ended, the law says of it only that there is a connection.
pub fn router_keeps()
    ensures { RouterKeeps }
{}

/// Law, after any calls: each query that a router has sent is the one that its transcript calls for, and so is the one that it would send now.
///
/// It is a Reset Query in three cases. The last answer was a Cache Reset. Or nothing is committed in the connection's version of the protocol.
/// Or, since the last commit, a record was announced that was there, or withdrawn that was not (RFC 8210 section 12, codes 7 and 6).
/// Otherwise it is a Serial Query with the committed session and serial.
pub fn router_asks()
    ensures { RouterAsks }
{}

/// Law: after any calls, the next connection of a router speaks the version of the protocol that `Router::speak` set last, or version 1 if none
/// was set. The latest connection speaks the version that was set when it was made.
pub fn router_speaks()
    ensures { RouterSpeaks }
{}

/// Law, after any calls: the bytes pulled and pending on a router's latest connection are its queries in order, then at most one Error Report.
/// If the link has ended, the report has the code with which it ended. If the link is closed, the code is not stated.
/// If the link closes, or the version expires during a Serial Query, pending bytes are lost. Nothing is sent after them on that connection.
pub fn router_says()
    ensures { RouterSays }
{}

/// Law, for any calls on a cache with any number of connections: each connection is as its own calls since it was opened leave it.
/// Those calls make its history, as in `serves_history`.
pub fn each_is_served()
    ensures { EachIsServed }
{}

/// Law: `each_is_served` holds for the `Cache` value to which such calls lead. Under each number, the value holds the connection that its own calls
/// made, or none. The bytes that were pulled are the beginning of its replies. The bytes that are due are the rest of them.
pub fn cache_is_served<S: VersionStore>(cache: &Cache<S>)
    ensures { CacheIsServed S.holds cache.now }
{}

/// Law: after every call on a cache, each connection holds at most 4,096 received bytes of an incomplete PDU. Each also holds at most 4,096 bytes
/// that are ready to be pulled. The law does not say how many connections there are.
pub fn each_has_room<S: VersionStore>(cache: &Cache<S>)
    ensures { (m : CacheState) → ShowsCache S.holds m cache.now → AllHaveRoom cache.now }
{}

/// Law: after every call, a router holds at most 4,096 bytes of an incomplete PDU, and at most 4,096 pending bytes.
pub fn router_has_room(router: &Router)
    ensures { HasBufferRoom (held_by_router router.now) }
{
    router.room();
}
