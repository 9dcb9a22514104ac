//! What a service reports to its service manager, and when.
ghost use Rattle.std.specs.Prelude.{◌≡◌, false, true, codes, None};
ghost use Rattle.sd_notify.specs.Notifying.{after_signal, and_sent, enabled, notifier_wait, signal_sent};

use crate::watchdog::Watchdog;

/// The socket of a service manager.
pub trait NotifySocket {
    ghost use Rattle.std.specs.Prelude.{ℕ, List, Option};

    /// The messages that were sent, if that is known. The last one is at the end.
    ghost sent: { Self → Option (List (List ℕ)) };

    /// Sends a message without blocking. Returns whether it was sent.
    fn send(&mut self, message: &[u8]) -> bool
        ensures { sent self.new ≡ and_sent message.now (sent self.old) };
}

/// The service manager of a service, by its socket. Times are in milliseconds of a monotonic clock.
#[derive(Clone, Copy, Debug)]
pub struct Notifier<C> {
    socket: C,
    /// The watchdog, if it is on.
    watchdog: Option<Watchdog>,
    /// Whether readiness was reported.
    is_ready: bool,
}

/// The watchdog that the environment turns on for the process of the number `own` (sd_watchdog_enabled(3)). `process` and `microseconds` are the
/// numbers in `WATCHDOG_PID` and `WATCHDOG_USEC`, if they are set. The last signal counts as sent at `now`, in milliseconds of a monotonic
/// clock. `None`: `microseconds` is `None` or 0, or `process` is another number than `own`.
pub fn enabled_watchdog(
    process: Option<u64>,
    microseconds: Option<u64>,
    own: u64,
    now: u64,
) -> Option<Watchdog>
    ensures { result ≡ enabled process microseconds own now }
{
    if let Some(process) = process {
        if process != own {
            return None;
        }
    }
    match microseconds {
        Some(microseconds) if microseconds != 0 => Some(Watchdog::new(microseconds, now)),
        _ => None,
    }
}

impl<C: NotifySocket> Notifier<C> {
    /// The service manager at `socket`. `watchdog` is `None` if it is not on. Readiness is not yet reported.
    pub fn new(socket: C, watchdog: Option<Watchdog>) -> Notifier<C>
        ensures { result ≡ record { socket = socket; watchdog = watchdog; is_ready = false } }
    {
        Notifier {
            socket,
            watchdog,
            is_ready: false,
        }
    }

    /// Reports that the service is ready, at the first call only. Returns whether the report failed. Later calls send nothing and return
    /// `false`, even if the first report failed.
    pub fn fails_to_report_ready(&mut self) -> bool
        ensures later { self.old.is_ready ≡ true → result ≡ false }
        ensures once { self.old.is_ready ≡ true → self.new ≡ self.old }
        ensures sends { self.old.is_ready ≡ false → C.sent self.new.socket ≡ and_sent (codes "READY=1") (C.sent self.old.socket) }
        ensures ready { self.new.is_ready ≡ true }
        ensures watchdog { self.new.watchdog ≡ self.old.watchdog }
    {
        if self.is_ready {
            return false;
        }
        self.is_ready = true;
        !self.socket.send(b"READY=1")
    }

    /// Reports that the service ends. A report that fails is ignored.
    pub fn report_stop(&mut self)
        ensures { C.sent self.new.socket ≡ and_sent (codes "STOPPING=1") (C.sent self.old.socket) }
    {
        let _ = self.socket.send(b"STOPPING=1");
    }

    /// Signals the watchdog if a signal is due at `now`. A signal that fails counts as sent. Without a watchdog it does nothing.
    pub fn signal(&mut self, now: u64)
        ensures sends { C.sent self.new.socket ≡ signal_sent self.old.watchdog now (C.sent self.old.socket) }
        ensures watchdog { self.new.watchdog ≡ after_signal self.old.watchdog now }
        ensures ready { self.new.is_ready ≡ self.old.is_ready }
    {
        let Some(watchdog) = &mut self.watchdog else {
            return;
        };
        if watchdog.take_signal(now) {
            let _ = self.socket.send(b"WATCHDOG=1");
        }
    }

    /// How many milliseconds after `now` the next signal is due: 0 if it is due already. Without a watchdog it is `u64::MAX`.
    pub fn wait_limit(&self, now: u64) -> u64
        ensures { result ≡ notifier_wait self.now.watchdog now }
    {
        match &self.watchdog {
            Some(watchdog) => watchdog.wait_limit(now),
            None => u64::MAX,
        }
    }
}
