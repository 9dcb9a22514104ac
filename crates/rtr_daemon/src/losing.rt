//! Clients whose hosts have vanished: the bytes of a notify are sent to them again and again.
ghost use Rattle.std.specs.Prelude.{◌≡◌, Some, true};
ghost use Rattle.rtr_daemon.specs.Due.{OnlyClients};
ghost use Rattle.rtr_daemon.specs.Losing.{ClosesLost, unless_lost};
ghost use Rattle.rtr_daemon.specs.Closing.{ClosesBy, LooksIfDue};
ghost use Rattle.rtr_daemon.specs.Known.{OtherClients, known_at};
ghost use Rattle.rtr_daemon.specs.Serving.{Continues};

use crate::daemon::Daemon;
use crate::environment::{EventLog, Sockets, Time};
use event_log::LogEvent;
use rtr_server::Stream;
use tcp_table::{TcpLine, unanswered};
use vrps::VersionStore;

/// The least time between two readings of the system's tables, in milliseconds.
const PAUSE: u64 = 10_000;

/// The readings of the system's tables of connections.
#[derive(Debug, Drop)]
pub(crate) struct Readings {
    /// The earliest time of the next one.
    pub(crate) next: u64,
    /// Whether it was reported that they cannot be read.
    is_reported: bool,
}

impl Readings {
    /// None was made yet.
    pub(crate) fn new() -> Readings {
        Readings {
            next: 0,
            is_reported: false,
        }
    }

    /// Marks as reported that the tables cannot be read. Returns true if that was not reported before.
    fn mark_reported(&mut self) -> bool
        ensures { self.new ≡ record self.old { is_reported = true } }
    {
        let is_news = !self.is_reported;
        self.is_reported = true;
        is_news
    }
}

impl<S: VersionStore, T: Stream + Drop> Daemon<S, T> {
    /// Closes the clients that are lost by the system's tables of connections, if a reading is due. That is at most every ten seconds, and only while some
    /// client was notified and has sent nothing since.
    pub(crate) fn drop_lost<W: Sockets<T> + Time + EventLog>(&mut self, now: u64, env: &mut W)
        ensures goes { Continues S.holds T.remaining T.contents self.old.service self.new.service }
        ensures rest { OnlyClients (record self.old { readings = self.new.readings }) self.new }
        ensures queue { self.new.clients.queue ≡ self.old.clients.queue }
        ensures looks { LooksIfDue W.calls now self.old.plan.stall self.old.readings self.old.clients self.new.readings self.new.clients }
    {
        if now < self.readings.next || !self.clients.waiting().notified {
            return;
        }
        self.readings.next = now.saturating_add(PAUSE);
        match env.connections() {
            Ok(tables) => self.drop_lost_in(tables.as_slice(), now, env),
            Err(_) => self.report_unreadable(env),
        }
    }

    /// Closes the clients that are lost by the system's tables.
    fn drop_lost_in<W: Sockets<T> + Time + EventLog>(
        &mut self,
        tables: &[u8],
        now: u64,
        env: &mut W,
    )
        ensures goes { Continues S.holds T.remaining T.contents self.old.service self.new.service }
        ensures rest { OnlyClients (record self.old { readings = self.new.readings }) self.new }
        ensures queue { self.new.clients.queue ≡ self.old.clients.queue }
        ensures readings { self.new.readings.next ≡ self.old.readings.next }
        ensures closed { ClosesBy (Some tables.now) now self.old.plan.stall self.old.clients self.new.clients }
    {
        match unanswered(self.alloc, tables) {
            Ok(lines) => self.drop_lost_by(lines.as_slice(), now, env),
            Err(_) => self.report_unreadable(env),
        }
    }

    /// Reports that the system's tables of connections cannot be read, if that was not reported before.
    fn report_unreadable<W: Time + EventLog>(&mut self, env: &mut W)
        ensures rest { self.new ≡ record self.old { readings = self.new.readings } }
        ensures next { self.new.readings.next ≡ self.old.readings.next }
    {
        if self.readings.mark_reported() {
            let reason =
                "/proc/self/net/tcp cannot be read: a router whose host has vanished may stay for a quarter of an hour";
            let now = env.seconds();
            env.log(now, &LogEvent::Warning { reason });
        }
    }

    /// Closes the clients that are lost by these lines.
    fn drop_lost_by<W: Time + EventLog>(&mut self, lines: &[TcpLine], now: u64, env: &mut W)
        ensures goes { Continues S.holds T.remaining T.contents self.old.service self.new.service }
        ensures rest { OnlyClients self.old self.new }
        ensures queue { self.new.clients.queue ≡ self.old.clients.queue }
        ensures closed { ClosesLost lines.now now self.old.plan.stall self.old.clients self.new.clients }
    {
        let mut at = self.clients.first();
        while let Some(token) = at {
            self.drop_if_lost(token, lines, now, env);
            at = self.clients.first_after(token);
        }
    }

    /// Notes what these lines show of the client of a poll token, and closes it if it is lost.
    fn drop_if_lost<W: Time + EventLog>(
        &mut self,
        token: usize,
        lines: &[TcpLine],
        now: u64,
        env: &mut W,
    )
        ensures goes { Continues S.holds T.remaining T.contents self.old.service self.new.service }
        ensures rest { OnlyClients self.old self.new }
        ensures others { OtherClients token self.old.clients self.new.clients }
        ensures queue { self.new.clients.queue ≡ self.old.clients.queue }
        ensures closed { known_at self.new.clients token ≡ unless_lost lines.now now self.old.plan.stall (known_at self.old.clients token) }
    {
        self.clients.note_lines(token, lines, now);
        if self.clients.is_lost(token, now, self.plan.stall) {
            self.drop_connection(token, "lost", env);
        }
    }
}
