//! Serving clients, and closing those that are stalled, slow or silent.
ghost use Rattle.std.specs.Prelude.{◌≡◌, [], ◌∷◌, ◌||◌, IfSome, None, Some, is_some, option_map, ℕ};
ghost use Rattle.rtr_daemon.specs.Accepting.{noted};
ghost use Rattle.rtr_daemon.specs.Due.{OnlyAdmitted, OnlyClients};
ghost use Rattle.rtr_server.specs.Clients.{slot_at};
ghost use Rattle.rtr_daemon.specs.Parting.{agreed_version, has_agreed, is_served, refused_version};
ghost use Rattle.rtr_daemon.specs.Known.{OtherClients, known_at};
ghost use Rattle.rtr_daemon.specs.Queue.{IsNotedAfter, IsQueued, QueuesBehind, ServesEach, ServesNext, TurnOf};
ghost use Rattle.rtr_server.specs.declared.turn.Turn.TheVariants.{Busy};
ghost use Rattle.rtr_daemon.specs.Serving.{Continues};
ghost use Rattle.rtr_daemon.specs.Closing.{ClosesOverdue};
ghost use Rattle.rtr_daemon.specs.Overdue.{outcome_of, unless_overdue};
ghost use Rattle.rtr_daemon.specs.Readiness.{QueuesReady, TakesReady};

use crate::client_entry::TurnOutcome;
use crate::daemon::Daemon;
use crate::environment::{EventLog, Ready, Sockets, Time};
use crate::outstanding::{answers_in, queries_in};
use crate::status::with_counters;
use event_log::{ClientClosed, LogEvent, PeerReport};
use rtr_pdu::error_code::UNSUPPORTED_VERSION;
use rtr_pdu::{Kind, Version};
use rtr_server::{ByteCounts, Client, CloseReason, Parted, PdusByKind, Report, Stream, Turn};
use std::net::SocketAddr;
use std::str;
use vrps::VersionStore;

/// How many calls of its stream a client has in one turn.
const BUDGET: u32 = 8;

/// How many readiness events are read in one turn.
const READY: usize = 65_536;

/// The counters of a client: bytes and PDUs in each direction, and its protocol version.
#[derive(Clone, Copy)]
pub(crate) struct ClientCounters {
    pub(crate) carried: Option<ByteCounts>,
    pub(crate) received: Option<PdusByKind>,
    pub(crate) sent: Option<PdusByKind>,
    pub(crate) version: Option<Version>,
}

impl<S: VersionStore, T: Stream + Drop> Daemon<S, T> {
    /// Asks the sockets what is ready. Clients that are ready are queued.
    pub(crate) fn take_ready<W: Sockets<T>>(&mut self, env: &mut W)
        ensures service { self.new.service ≡ self.old.service }
        ensures rest { OnlyAdmitted self.old self.new }
        ensures ready { TakesReady W.calls env.old self.old.clients self.old.listeners.listeners.items self.new.clients self.new.listeners.listeners.items env.new }
    {
        for _ready in 0..READY {
            let Some(ready) = env.next() else {
                return;
            };
            self.note_ready(ready);
        }
    }

    /// Notes that a listener or a connection is ready.
    fn note_ready(&mut self, ready: Ready)
        ensures service { self.new.service ≡ self.old.service }
        ensures rest { OnlyAdmitted self.old self.new }
        ensures queues { QueuesReady (ready ∷ []) self.old.clients self.new.clients }
        ensures heard { self.new.listeners.listeners.items ≡ noted ready self.old.listeners.listeners.items }
    {
        match ready {
            Ready::Listener(listener) => self.listeners.note(listener, true),
            Ready::Connection(token) => self.clients.wake(token),
        }
    }

    /// Serves each queued client once.
    pub(crate) fn serve_all<W: Time + EventLog>(&mut self, env: &mut W)
        ensures turns { ServesEach W.can_tick S.holds T.remaining T.contents T.answers self.old.clients.queue.items self.old self.new }
        ensures goes { Continues S.holds T.remaining T.contents self.old.service self.new.service }
        ensures rest { OnlyClients self.old self.new }
    {
        for _client in 0..self.clients.queue_len() {
            self.serve_next(env);
        }
    }

    /// Serves the next client of the queue.
    fn serve_next<W: Time + EventLog>(&mut self, env: &mut W)
        ensures turn { ServesNext W.can_tick S.holds T.remaining T.contents T.answers self.old.clients.queue.items self.old self.new }
        ensures goes { Continues S.holds T.remaining T.contents self.old.service self.new.service }
        ensures rest { OnlyClients self.old self.new }
    {
        if let Some((token, client)) = self.clients.next() {
            self.serve(token, client, env);
        }
    }

    /// The counters of a client.
    pub(crate) fn counters(&self, client: Client) -> ClientCounters {
        let server = self.service.server();
        ClientCounters {
            carried: server.carried(client),
            received: server.received(client),
            sent: server.sent(client),
            version: server.version(client),
        }
    }

    /// The counters of the client that was closed last.
    fn last_counters(&self) -> ClientCounters
        ensures { is_some result.version ≡ has_agreed self.now.service.server.parted }
    {
        match self.service.server().parted() {
            None => ClientCounters {
                carried: None,
                received: None,
                sent: None,
                version: None,
            },
            Some(parted) => ClientCounters {
                carried: Some(parted.carried),
                received: Some(parted.received),
                sent: Some(parted.sent),
                version: agreed_version(&parted),
            },
        }
    }

    /// One turn of a client.
    fn serve<W: Time + EventLog>(&mut self, token: usize, client: Client, env: &mut W)
        ensures goes { Continues S.holds T.remaining T.contents self.old.service self.new.service }
        ensures rest { OnlyClients self.old self.new }
        ensures others { OtherClients token self.old.clients self.new.clients }
        ensures queue { QueuesBehind self.old.clients.queue.items self.new.clients }
        ensures turn { TurnOf W.can_tick S.holds T.remaining T.contents T.answers (Some client) token self.old self.new }
    {
        match self.service.serve(client, BUDGET) {
            None => {}
            Some(Turn::Gone(how)) => self.part(token, why(how), env),
            Some(Turn::Busy) => self.note_turn(token, client, Turn::Busy, env),
            Some(Turn::WaitsToRead) => self.note_turn(token, client, Turn::WaitsToRead, env),
            Some(Turn::WaitsToWrite) => self.note_turn(token, client, Turn::WaitsToWrite, env),
        }
    }

    /// Notes a turn of a client that stays. It is queued again if it made all calls that it may.
    fn note_turn<W: Time>(&mut self, token: usize, client: Client, turn: Turn, env: &mut W)
        ensures noted { IsNotedAfter W.can_tick turn (slot_at self.old.service.server.slots.items client.0.0) (known_at self.old.clients token) (known_at self.new.clients token) }
        ensures busy { turn ≡ Busy → IsQueued self.new.clients token }
        ensures parted { self.new.has_parted ≡ self.old.has_parted }
        ensures service { self.new.service ≡ self.old.service }
        ensures rest { OnlyClients self.old self.new }
        ensures others { OtherClients token self.old.clients self.new.clients }
        ensures queue { QueuesBehind self.old.clients.queue.items self.new.clients }
    {
        if let Some(outcome) = self.outcome(client, turn) {
            self.clients.note(token, outcome, env.millis());
        }
        if turn == Turn::Busy {
            self.clients.wake(token);
        }
    }

    /// What a turn of a client came to, if there is such a client.
    fn outcome(&self, client: Client, turn: Turn) -> Option<TurnOutcome>
        ensures { result ≡ option_map (outcome_of turn) (slot_at self.now.service.server.slots.items client.0.0) }
    {
        let server = self.service.server();
        Some(TurnOutcome {
            turn,
            carried: server.carried(client)?,
            queries: queries_in(server.received(client)?),
            answers: answers_in(server.sent(client)?),
            notifies: server.sent(client)?.of(Kind::SerialNotify),
            has_asked: server.has_asked(client),
        })
    }

    /// Removes and reports the client that was closed last.
    fn part<W: Time + EventLog>(&mut self, token: usize, why: &str, env: &mut W)
        ensures others { OtherClients token self.old.clients self.new.clients }
        ensures gone { known_at self.new.clients token ≡ None }
        ensures queue { self.new.clients.queue ≡ self.old.clients.queue }
        ensures service { self.new.service ≡ self.old.service }
        ensures failure { self.new.statistics.failure ≡ self.old.statistics.failure }
        ensures once { IfSome (known_at self.old.clients token) (λ _. self.new.has_parted ≡ (self.old.has_parted || has_agreed self.old.service.server.parted)) }
        ensures rest { OnlyClients self.old self.new }
    {
        let Some(entry) = self.clients.remove(token) else {
            return;
        };
        let counters = self.last_counters();
        let carried = counters.carried.unwrap_or(entry.carried);
        self.has_closed = true;
        self.has_parted = self.has_parted || counters.version.is_some();
        self.statistics
            .count_reports(self.service.server().parted());
        self.statistics.gone = with_counters(self.statistics.gone, &counters);
        let stayed = env.millis().saturating_sub(entry.came) / 1000;
        let now = env.seconds();
        self.log_error_reports(entry.address, now, env);
        env.log(
            now,
            &LogEvent::ClientGone(ClientClosed {
                address: entry.address,
                why,
                version: counters.version.map(number_of),
                read: carried.read,
                written: carried.written,
                seconds: stayed,
            }),
        );
    }

    /// Reports the last Error Report that the closed client sent, and the last that was sent to it.
    fn log_error_reports<W: EventLog>(&self, address: SocketAddr, now: u64, env: &mut W) {
        let Some(parted) = self.service.server().parted() else {
            return;
        };
        if let Some(report) = &parted.received_report {
            let report = PeerReport {
                address,
                is_received: true,
                code: report.code(),
                text: text_of(report),
            };
            env.log(now, &LogEvent::ErrorReport(report));
        }
        match (refused_version(&parted), parted.sent_report) {
            (Some(asked), _) => env.log(now, &LogEvent::VersionRefused { address, asked }),
            (None, Some(code)) => {
                let report = PeerReport {
                    address,
                    is_received: false,
                    code,
                    text: "",
                };
                env.log(now, &LogEvent::ErrorReport(report));
            }
            (None, None) => {}
        }
    }

    /// Closes the clients that have been blocked on writing for too long, those whose answer has lasted too long, and those that sent no whole query
    /// in time.
    pub(crate) fn drop_overdue<W: Time + EventLog>(&mut self, env: &mut W)
        ensures goes { Continues S.holds T.remaining T.contents self.old.service self.new.service }
        ensures rest { OnlyClients self.old self.new }
        ensures closed { (now : ℕ) × W.can_tick now × ClosesOverdue now self.old.plan self.old.clients self.new.clients }
        ensures queue { self.new.clients.queue ≡ self.old.clients.queue }
    {
        let now = env.millis();
        let mut at = self.clients.first();
        while let Some(token) = at {
            self.drop_if_overdue(token, now, env);
            at = self.clients.first_after(token);
        }
    }

    /// Closes the client of a poll token if it is overdue: blocked on writing for too long, with an answer that has lasted too long, or without a
    /// whole query.
    fn drop_if_overdue<W: Time + EventLog>(&mut self, token: usize, now: u64, env: &mut W)
        ensures goes { Continues S.holds T.remaining T.contents self.old.service self.new.service }
        ensures rest { OnlyClients self.old self.new }
        ensures others { OtherClients token self.old.clients self.new.clients }
        ensures closed { known_at self.new.clients token ≡ unless_overdue now self.old.plan (known_at self.old.clients token) }
        ensures queue { self.new.clients.queue ≡ self.old.clients.queue }
    {
        if self.clients.is_stalled(token, now, self.plan.stall) {
            self.drop_stalled_client(token, env);
        } else if self.clients.is_slow(token, now, self.plan.slow) {
            self.drop_connection(token, "slow", env);
        } else if self.clients.is_silent(token, now) {
            self.drop_connection(token, "no-query", env);
        }
    }

    fn drop_stalled_client<W: Time + EventLog>(&mut self, token: usize, env: &mut W)
        ensures goes { Continues S.holds T.remaining T.contents self.old.service self.new.service }
        ensures rest { OnlyClients self.old self.new }
        ensures others { OtherClients token self.old.clients self.new.clients }
        ensures gone { known_at self.new.clients token ≡ None }
        ensures queue { self.new.clients.queue ≡ self.old.clients.queue }
    {
        if let Some((_client, address)) = self.clients.at(token) {
            let now = env.seconds();
            env.log(now, &LogEvent::Stalled { address });
            self.statistics.count_stalled_client();
        }
        self.drop_connection(token, "stalled", env);
    }

    /// Closes the client of a poll token, for this reason.
    pub(crate) fn drop_connection<W: Time + EventLog>(
        &mut self,
        token: usize,
        why: &str,
        env: &mut W,
    )
        ensures goes { Continues S.holds T.remaining T.contents self.old.service self.new.service }
        ensures rest { OnlyClients self.old self.new }
        ensures others { OtherClients token self.old.clients self.new.clients }
        ensures gone { known_at self.new.clients token ≡ None }
        ensures queue { self.new.clients.queue ≡ self.old.clients.queue }
        ensures failure { self.new.statistics.failure ≡ self.old.statistics.failure }
    {
        let Some((client, _address)) = self.clients.at(token) else {
            return;
        };
        self.service.drop_client(client);
        self.part(token, why, env);
    }
}

/// Whether a version is served: 0 or 1 (RFC 6810, RFC 8210).
fn is_served(version: Option<u8>) -> bool
    ensures { result ≡ is_served version }
{
    match version {
        None => false,
        Some(version) => version <= 1,
    }
}

/// The version on which a closed client had agreed. If it asked in one that is not served, it agreed on none (RFC 8210 section 7).
fn agreed_version(parted: &Parted) -> Option<Version>
    ensures { result ≡ agreed_version parted.now }
{
    if is_served(parted.asked) {
        parted.version
    } else {
        None
    }
}

/// The version in which a closed client asked, if it was closed because that is not served.
fn refused_version(parted: &Parted) -> Option<u8>
    ensures { result ≡ refused_version parted.now }
{
    let code = parted.sent_report?;
    if code == UNSUPPORTED_VERSION && !is_served(parted.asked) {
        parted.asked
    } else {
        None
    }
}

/// The text of a report, up to its first byte that is not UTF-8.
fn text_of(report: &Report) -> &str {
    match str::from_utf8(report.text()) {
        Ok(text) => text,
        Err(error) => str::from_utf8(&report.text()[..error.valid_up_to()]).unwrap_or(""),
    }
}

/// The log's word for the reason.
fn why(how: CloseReason) -> &'static str {
    match how {
        CloseReason::PeerClosed => "closed",
        CloseReason::Truncated => "truncated",
        CloseReason::CacheEnded => "ended",
        CloseReason::ReadFailed => "read-failed",
        CloseReason::WriteFailed => "write-failed",
    }
}

pub(crate) fn number_of(version: Version) -> u8 {
    match version {
        Version::V0 => 0,
        Version::V1 => 1,
    }
}
