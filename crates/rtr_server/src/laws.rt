//! Laws of the definitions and of servers. These functions do nothing when called: what their `ensures` lines state is proved.
ghost use Rattle.rtr_server.specs.Clients.{EachClientIsServed};
ghost use Rattle.rtr_server.specs.Counting.{CountsQueries, CountsReports, CountsSplits, CountsUnits};
ghost use Rattle.rtr_server.specs.Turns.{MemoryEnds};

use crate::server::Server;
use crate::stream::Stream;
use vrps::VersionStore;

/// Law, for each client of a server: the bytes read from its stream are those of its connection's history. The bytes written are a beginning of the
/// replies to them. A notify is pending if and only if two things hold. A new version was published after the router asked, and no notify was put
/// into its connection since.
/// A client holds at most 4,096 bytes read and not consumed, and at most 32,768 bytes pulled and not written.
pub fn each_client_is_served<S: VersionStore, T: Stream>(server: &Server<S, T>)
    ensures { EachClientIsServed S.holds T.remaining T.contents server.now }
{}

/// Law: if memory runs out at a PDU that a client sent, its connection ends. Exactly an Error Report of code 1 is then due on it (RFC 8210 section
/// 12).
pub fn memory_ends_its_client()
    ensures { MemoryEnds }
{}

/// Law, for the bytes of any whole PDUs and the beginning of one more: a `Tally` of them has the number of whole PDUs of each type, at most
/// `u64::MAX`. Its serial is that of the last End of Data, or `None`. Its report is the last Error Report, or `None`.
pub fn counts_units()
    ensures { CountsUnits }
{}

/// Law: if a stream splits into PDUs without a fault, a `Tally` of it has the number of PDUs of each type, at most `u64::MAX`. This holds at a cache
/// and at a router. A router reads a Serial Notify of any version before it agrees on one with the cache (RFC 8210 section 7).
pub fn counts_splits()
    ensures { CountsSplits }
{}

/// Law: if the last PDU of the counted bytes is a whole Error Report, a `Tally` keeps its code and at most the first 200 bytes of its text.
/// This holds even if the report has a fault. If the lengths inside the report do not add up to its total length, the text is empty.
pub fn counts_reports()
    ensures { CountsReports }
{}

/// Law, for the bytes of any whole PDUs and the beginning of one more. `PdusByKind::has_query` of their count is true if and only if one of the whole
/// PDUs is a Serial Query or a Reset Query. A query of which only a part has come does not count.
pub fn counts_queries()
    ensures { CountsQueries }
{}
