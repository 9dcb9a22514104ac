//! Answers that have not left: each query has its own time.
ghost use Rattle.std.specs.Prelude.{◌≡◌};
ghost use Rattle.rtr_daemon.specs.Overdue.{answers_in, outstanding_after, queries_in};

use rtr_pdu::Kind;
use rtr_server::PdusByKind;

/// An answer that has not left: the number of its query, from 1, and when that was noted first, in milliseconds of the monotonic clock.
#[derive(Clone, Copy, Debug, PartialEq, Eq)]
pub(crate) struct Outstanding {
    pub(crate) query: u64,
    pub(crate) since: u64,
}

/// How many queries are among these PDUs: Serial Queries and Reset Queries (RFC 8210 sections 5.3 and 5.4).
pub(crate) fn queries_in(received: PdusByKind) -> u64
    ensures { result ≡ queries_in received }
{
    let serial = received.of(Kind::SerialQuery);
    serial.saturating_add(received.of(Kind::ResetQuery))
}

/// How many answers end among these PDUs: by End of Data, Cache Reset or Error Report (RFC 8210 section 8).
pub(crate) fn answers_in(sent: PdusByKind) -> u64
    ensures { result ≡ answers_in sent }
{
    let ended = sent.of(Kind::EndOfData);
    let refused = sent
        .of(Kind::CacheReset)
        .saturating_add(sent.of(Kind::ErrorReport));
    ended.saturating_add(refused)
}

/// The answer that has not left after a turn, if there is one. It keeps its time if it was outstanding before.
pub(crate) fn outstanding_after(
    before: Option<Outstanding>,
    queries: u64,
    answers: u64,
    now: u64,
) -> Option<Outstanding>
    ensures { result ≡ outstanding_after before queries answers now }
{
    if answers >= queries {
        return None;
    }
    match before {
        Some(answer) if answer.query == queries => Some(answer),
        _ => Some(Outstanding {
            query: queries,
            since: now,
        }),
    }
}
