//! Laws of worlds. These functions do nothing: their contracts are the laws. A world is one cache, its routers and their connections.
//! An event is refused if it cannot happen now, or if memory runs out for it. After each event a clean-up closes links that have ended.
ghost use Rattle.rtr_world.specs.CaughtUp.{RefusedCuts};
ghost use Rattle.rtr_world.specs.CatchUp.{EachCatchesUp, IdleIsCurrent, RoundsAreSteps, RoundsEnd};
ghost use Rattle.rtr_world.specs.Claims.{ActExactlyOnce, AnswersNow, ConnsRun, EachLeads, EachSpeaks, EndsKept, EndsNoted, Headline, LawfulEnds, MovesNoMore, NoWayBack, NoneByMemory, OneAnswerAlways, OneWorld, OthersStay, PlacesNoted, RefusesRightly, RouteStates, RoutersRun, Settles, Tables};

/// Law, in seven clauses. `one`: events with their outcomes lead to at most one world. `each`: every list of events has possible outcomes.
/// `settles`: after each event and its clean-up, another clean-up changes nothing.
/// `refuses`: if an event must be refused, that is its only outcome. Publishing the current set is never refused.
/// `cuts`: if memory runs out for an event at a router, the connection of this router is cut, and nothing more arrives over it.
/// `others`: an event at one router leaves the others unchanged.
/// `moves`: an event moves at most the number of bytes that it names, and no more than it would with enough memory.
pub fn steps()
    ensures one { OneWorld }
    ensures each { EachLeads }
    ensures settles { Settles }
    ensures refuses { RefusesRightly }
    ensures cuts { RefusedCuts }
    ensures others { OthersStay }
    ensures moves { MovesNoMore }
{}

/// Law, after every list of events, for each router: it holds the table and the version that its transcript implies. Its next query is due at the
/// second that the transcript gives. Its clock is the greatest second that an event gave it. Its link is as the transcript says.
pub fn tables()
    ensures { Tables }
{}

/// Law, after every list of events, for each router. `run`: the router is in a state that calls of its functions can produce. Its transcript since
/// its last restart is that of these calls, without refused events. So what is proved of routers under any calls holds in a world.
/// `speak`: the router speaks the version of its last successful `Speak` since its last restart. If there was none, it speaks version 1.
pub fn routers_run()
    ensures run { RoutersRun }
    ensures speak { EachSpeaks }
{}

/// Law, after every list of events, for each open connection: calls since its opening can produce its state, at a cache that is now the present
/// instance. If its router knows of a connection, that one was opened at the instance as it was then.
/// So what is proved of connections under any calls holds in a world. An example is that the bytes pulled are a beginning of the replies.
pub fn conns_run()
    ensures { ConnsRun }
{}

/// Law, after every list of events, for each router. `table`: if the router holds no session, its table is empty. Otherwise the table is exactly the
/// set published under the protocol version, session and serial of the End of Data that the router committed last.
/// `once`: in each committed answer, each announcement and each withdrawal acted exactly once.
/// `routes`: the origin validation state of every route is that of RFC 6811 over this set, or over the empty set.
pub fn headline()
    ensures table { Headline }
    ensures once { ActExactlyOnce }
    ensures routes { RouteStates }
{}

/// Law, after every list of events. `lawful`: a link ends only if memory runs out at the router, if the router's data expires, or by an Error Report.
/// The report has code 1 (memory ran out at the cache), or code 0. Code 0 is the reply to a Serial Query of another session than the cache's.
/// `noted`: each link that an event ends is recorded with its reason, even if the event is refused after some bytes.
/// `kept`: records stay, and an event adds at most one to each router.
/// `memory`: if memory never ran out while a router received bytes, no link ended for that reason.
pub fn lawful_ends()
    ensures lawful { LawfulEnds }
    ensures noted { EndsNoted }
    ensures kept { EndsKept }
    ensures memory { NoneByMemory }
{}

/// Law, after every list of events, for each router. `order`: no committed version was published before one that the router committed earlier.
/// This holds within one instance of the cache and across instances.
/// `noted`: one place (instance and position) is recorded for each commit of the transcript. If the router holds a version, the last place is its
/// own.
pub fn no_way_back()
    ensures order { NoWayBack }
    ensures noted { PlacesNoted }
{}

/// Law, after every list of events, for each router. `one`: on a live link at most one answer is in transit to the router, less what a cut removed.
/// It answers the router's query as the cache was when it read the query. Serial Notifies may come between its PDUs.
/// Its records lead from the router's data to the set published under its End of Data. No link is in the state "ended".
/// On a closed link nothing is received in part, pending or on the wire to the router.
/// `now`: when the cache reads a query, its answer is for the version current then. If memory runs out, it may be Error Report 1 instead.
pub fn one_answer()
    ensures one { OneAnswerAlways }
    ensures now { AnswersNow }
{}

/// Law: suppose that a router connects. Each event after it moves bytes of this router, cuts its connection or connects it again. Memory may run out.
/// If the link is then idle, it has the protocol version that the router is set to speak. The router holds the newest set of the present instance of
/// the cache. If nothing is published, the router instead holds no session of that protocol version. If it then holds no session at all, its table is
/// empty. If the link is closed, the law says nothing.
pub fn idle_is_current()
    ensures { IdleIsCurrent }
{}

/// Law: suppose that a router connects, and rounds follow. A round is four events that move all bytes to the cache and back.
/// `ends`: after the first round, the link is idle with nothing in transit, or closed, or the router sends a Reset Query after a Cache Reset.
/// In the last case the link is idle or closed after the second round. This holds wherever memory runs out.
/// `steps`: connecting and each round are events of the world.
pub fn rounds_end()
    ensures ends { RoundsEnd }
    ensures steps { RoundsAreSteps }
{}

/// Law: suppose that a router connects, all bytes move in rounds as in `rounds_end`, and memory does not run out. Then one of three cases holds.
/// After one round, the link is idle. Or the cache answers with Cache Reset, and the link is idle after the second round.
/// Or the router held a session and had to drop it. Then the link is closed after the first round, and idle after one round on a new connection.
pub fn catches_up()
    ensures { EachCatchesUp }
{}
