//! Who is notified: clients that have asked, and no others (RFC 8210 section 7).
use crate::lines::{
    Memory, PLAIN, Shared, client_of, empty_cache, is_list, len_of, line_between, more, publishes,
    server_of, shared, waits,
};
use rtr_server::{Client, Server, Turn};
use std::alloc::Global;
use test_values::hex::bytes;
use test_values::sets::{Rows, V, W};
use test_values::units::{
    ANSWER, ANSWER_0, CACHE_RESET, END_6, RESET_QUERY, RESPONSE, V as V_UNIT, W as W_UNIT, all_of,
};

/// Serial Notifies of session 4660 (RFC 8210 section 5.2).
const NOTIFY_5: &str = "01 00 1234 0000000c 00000005";

const NOTIFY_6: &str = "01 00 1234 0000000c 00000006";

const NOTIFY_7: &str = "01 00 1234 0000000c 00000007";

/// The same in version 0 (RFC 6810 section 5.2).
const NOTIFY_6_0: &str = "00 00 1234 0000000c 00000006";

const NOTIFY_7_0: &str = "00 00 1234 0000000c 00000007";

/// A Reset Query in version 0.
const QUERY_0: &str = "00 02 0000 00000008";

/// The header of a Serial Query, whose serial has not come.
const HEADER: &str = "01 01 1234 0000000c";

/// No Data Available, an Error Report of code 2, which leaves the connection open (RFC 8210 section 12).
const NO_DATA: &str = "01 0a 0002 00000018 00000008 0102000000000008 00000000";

/// What happens to a client, which is served then until it waits.
enum Step {
    /// These bytes come from it.
    Sends(&'static str),
    /// A set is published.
    Publishes(Rows),
}

/// What happens to a client whose cache has v as serial 5, whether it has asked then, and what was written to it.
struct Story {
    steps: &'static [Step],
    has_asked: bool,
    written: &'static [&'static str],
}

/// No whole query came, so nothing is written.
const SILENT: &[Story] = &[
    Story {
        steps: &[Step::Publishes(&[V, W]), Step::Publishes(&[W])],
        has_asked: false,
        written: &[],
    },
    Story {
        steps: &[Step::Sends("01 02"), Step::Publishes(&[V, W])],
        has_asked: false,
        written: &[],
    },
    Story {
        steps: &[Step::Sends("01 02 0000 000000"), Step::Publishes(&[V, W])],
        has_asked: false,
        written: &[],
    },
    Story {
        steps: &[Step::Sends(HEADER), Step::Publishes(&[V, W])],
        has_asked: false,
        written: &[],
    },
    Story {
        steps: &[
            Step::Sends(HEADER),
            Step::Sends("000000"),
            Step::Publishes(&[V, W]),
        ],
        has_asked: false,
        written: &[],
    },
];

/// A query came in two parts, and a version was published in between: it is answered from that, without a notify.
const HALVES: &[Story] = &[
    Story {
        steps: &[
            Step::Sends("01 02 00"),
            Step::Publishes(&[V, W]),
            Step::Sends("00 00000008"),
        ],
        has_asked: true,
        written: &[RESPONSE, V_UNIT, W_UNIT, END_6],
    },
    Story {
        steps: &[
            Step::Sends(HEADER),
            Step::Publishes(&[V, W]),
            Step::Sends("00000005"),
        ],
        has_asked: true,
        written: &[RESPONSE, W_UNIT, END_6],
    },
    Story {
        steps: &[
            Step::Sends("00"),
            Step::Publishes(&[W]),
            Step::Publishes(&[V]),
            Step::Sends("02 0000 00000008"),
        ],
        has_asked: true,
        written: &[
            "00 03 1234 00000008",
            "00 04 0000 00000014 01 18 18 00 c0000200 0000fbf0",
            "00 07 1234 0000000c 00000007",
        ],
    },
];

/// A whole query came, and each version after it is notified.
const ASKED: &[Story] = &[
    Story {
        steps: &[Step::Sends(RESET_QUERY), Step::Publishes(&[V, W])],
        has_asked: true,
        written: &[ANSWER, NOTIFY_6],
    },
    Story {
        steps: &[
            Step::Sends(RESET_QUERY),
            Step::Publishes(&[V]),
            Step::Publishes(&[W]),
            Step::Publishes(&[V, W]),
        ],
        has_asked: true,
        written: &[ANSWER, NOTIFY_6, NOTIFY_7],
    },
    Story {
        steps: &[Step::Sends(QUERY_0), Step::Publishes(&[V, W])],
        has_asked: true,
        written: &[ANSWER_0, NOTIFY_6_0],
    },
    Story {
        steps: &[
            Step::Publishes(&[W]),
            Step::Sends(QUERY_0),
            Step::Publishes(&[V]),
        ],
        has_asked: true,
        written: &[
            "00 03 1234 00000008",
            "00 04 0000 00000014 01 18 18 00 c6336400 0000fbf1",
            "00 07 1234 0000000c 00000006",
            NOTIFY_7_0,
        ],
    },
    Story {
        steps: &[
            Step::Sends("01 01 1234 0000000c 00000004"),
            Step::Publishes(&[V, W]),
        ],
        has_asked: true,
        written: &[CACHE_RESET, NOTIFY_6],
    },
];

fn happens(server: &mut Memory, alloc: Global, comes: &Shared, step: &Step) -> bool {
    match step {
        Step::Sends(text) => more(comes, bytes(text).as_slice()),
        Step::Publishes(rows) => publishes(server, alloc, rows),
    }
}

/// Whether all steps can be made, and the client waits after each.
fn all_happen(
    server: &mut Memory,
    alloc: Global,
    client: Client,
    comes: &Shared,
    steps: &[Step],
) -> bool {
    for step in steps {
        if !happens(server, alloc, comes, step) || !waits(server, client, 99) {
            return false;
        }
    }
    true
}

/// A client on these lists.
fn admitted(server: &mut Memory, comes: &Shared, out: &Shared) -> Option<Client> {
    match line_between(comes, PLAIN, out) {
        Some(line) => server.admit(line).ok(),
        None => None,
    }
}

/// Whether a story goes as it is written, with what comes and what is written in these lists.
fn is_written(
    server: &mut Memory,
    alloc: Global,
    (comes, out): (&Shared, &Shared),
    story: &Story,
) -> bool {
    match admitted(server, comes, out) {
        Some(client) => {
            all_happen(server, alloc, client, comes, story.steps)
                && server.has_asked(client) == story.has_asked
                && is_list(out, all_of(story.written).as_slice())
        }
        None => false,
    }
}

/// Whether a story goes as it is written, at a server whose cache has v.
fn goes_so(alloc: Global, comes: &Shared, out: &Shared, story: &Story) -> bool {
    match server_of(alloc, &[V], 1) {
        Some(mut server) => is_written(&mut server, alloc, (comes, out), story),
        None => false,
    }
}

/// Whether all of them do.
fn all_go_so(alloc: Global, stories: &[Story]) -> bool {
    for story in stories {
        let (Some(comes), Some(out)) = (shared(alloc, &[]), shared(alloc, &[])) else {
            return false;
        };
        if !goes_so(alloc, &comes, &out, story) {
            return false;
        }
    }
    true
}

#[test]
fn a_client_that_has_not_asked_is_not_notified(rt: HostRuntime) {
    assert!(rt; all_go_so(rt.alloc(), SILENT));
}

#[test]
fn a_query_in_two_parts_is_answered_from_what_came_in_between(rt: HostRuntime) {
    assert!(rt; all_go_so(rt.alloc(), HALVES));
}

#[test]
fn a_client_that_has_asked_is_notified(rt: HostRuntime) {
    assert!(rt; all_go_so(rt.alloc(), ASKED));
}

/// A server of two clients, to whose cache nothing was published.
fn server_of_none(alloc: Global) -> Option<Memory> {
    match empty_cache(alloc) {
        Some(cache) => Some(Server::new(alloc, cache, 2)),
        None => None,
    }
}

/// Whether both clients wait, of which the first alone has asked.
fn first_has_asked(server: &mut Memory, first: Client, second: Client) -> bool {
    waits(server, first, 99)
        && waits(server, second, 99)
        && server.has_asked(first)
        && !server.has_asked(second)
}

/// Whether this is so, also when the first version is published, until the first client goes.
fn first_asks(server: &mut Memory, alloc: Global, first: Client, second: Client) -> bool {
    let is_so = first_has_asked(server, first, second)
        && publishes(server, alloc, &[V])
        && first_has_asked(server, first, second);
    server.drop_client(first);
    is_so && !server.has_asked(first)
}

/// Whether two clients come, the first asks, the first version is published, and then the first goes and another has its number.
fn ask_first(server: &mut Memory, alloc: Global, asked: &Shared, other: &Shared) -> Option<bool> {
    let first = client_of(server, alloc, bytes(RESET_QUERY).as_slice(), PLAIN, asked)?;
    let second = client_of(server, alloc, &[], PLAIN, other)?;
    let is_so = first_asks(server, alloc, first, second);
    let third = client_of(server, alloc, &[], PLAIN, other)?;
    let is_notified = publishes(server, alloc, &[W]) && waits(server, third, 99);
    Some(is_so && is_notified && !server.has_asked(third))
}

/// Whether only the client that asked was answered and notified.
fn one_is_told(alloc: Global, asked: &Shared, other: &Shared) -> bool {
    match server_of_none(alloc) {
        Some(mut server) => {
            ask_first(&mut server, alloc, asked, other) == Some(true)
                && is_list(asked, all_of(&[NO_DATA, NOTIFY_5]).as_slice())
                && len_of(other) == 0
        }
        None => false,
    }
}

#[test]
fn a_query_without_data_is_one_of_its_client_alone(rt: HostRuntime) {
    match (shared(rt.alloc(), &[]), shared(rt.alloc(), &[])) {
        (Some(asked), Some(other)) => assert!(rt; one_is_told(rt.alloc(), &asked, &other)),
        _ => assert!(rt; false),
    }
}

/// Whether a client of which one call has read the query has not asked yet, and is answered from what is published then.
fn is_answered_from_later(server: &mut Memory, alloc: Global, client: Client) -> bool {
    server.serve(client, 1) == Some(Turn::Busy)
        && !server.has_asked(client)
        && publishes(server, alloc, &[V, W])
        && waits(server, client, 99)
        && server.has_asked(client)
}

/// Whether a query that is not passed to the cache yet is answered so.
fn waits_for_its_turn(server: &mut Memory, alloc: Global) -> Option<bool> {
    let out = shared(alloc, &[])?;
    let client = client_of(server, alloc, bytes(RESET_QUERY).as_slice(), PLAIN, &out)?;
    let is_so = is_answered_from_later(server, alloc, client);
    let answer = all_of(&[RESPONSE, V_UNIT, W_UNIT, END_6]);
    Some(is_so && is_list(&out, answer.as_slice()))
}

#[test]
fn a_query_that_is_not_handed_in_is_answered_from_what_comes(rt: HostRuntime) {
    match server_of(rt.alloc(), &[V], 1) {
        Some(mut server) => assert!(rt; waits_for_its_turn(&mut server, rt.alloc()) == Some(true)),
        None => assert!(rt; false),
    }
}
