//! The choice of the sessions and of the first serial of a run.
ghost use Rattle.std.specs.Prelude.{IfOk};
ghost use Rattle.session_names.specs.Choices.{HostAnswers, IsChosen, IsSession, any_host};

use crate::names::{SessionIds, first_serial, is_machine_id, session_of, session0_of};
use std::io;

/// The session ids and the first serial, as far as the settings give them. `None`: the setting is not given.
#[derive(Clone, Copy, Debug, PartialEq, Eq)]
pub struct GivenIds {
    /// The session id in protocol version 1.
    pub session: Option<u16>,
    /// The session id in protocol version 0.
    pub session0: Option<u16>,
    /// The serial of the first version that the daemon publishes.
    pub serial: Option<u32>,
}

/// The session ids and the first serial that a daemon uses.
#[derive(Clone, Copy, Debug, PartialEq, Eq)]
pub struct SessionChoice {
    /// The session ids and the first serial.
    pub ids: SessionIds,
    /// Whether the session id in protocol version 1 is random.
    pub is_random: bool,
}

/// The host of a daemon: its machine id, its name, and its source of random numbers.
pub trait HostFacts {
    /// What it may answer. Contracts that cite it hold for all such relations, so they speak of what the host answered.
    ghost answers: { HostAnswers } = { any_host };

    /// Returns the content of `/etc/machine-id` (machine-id(5)), or an empty vector if it cannot be read. An error means that memory runs
    /// out.
    fn machine_id(&mut self) -> io::Result<Vec<u8>>
        ensures { IfOk result (λ id. answers.machine_ids id.items) };

    /// Returns the host name of the system, or an empty vector if it cannot be read. An error means that memory runs out.
    fn name(&mut self) -> io::Result<Vec<u8>>
        ensures { IfOk result (λ name. answers.names name.items) };

    /// Returns a random session id. An error means that the source of random numbers failed.
    fn random_session(&mut self) -> io::Result<u16>
        ensures { IfOk result answers.randoms };
}

/// The session in protocol version 1, and whether it is random.
#[derive(Clone, Copy, Debug)]
struct Session {
    number: u16,
    is_random: bool,
}

/// Returns the session ids and the first serial of a daemon that starts at `start`, in seconds since 1970.
///
/// A value in `given` is used as it is. Otherwise the first serial is [`first_serial`](crate::first_serial) of `start`,
/// and the version 0 session id is [`session0_of`](crate::session0_of) it.
/// The version 1 session id is [`session_of`](crate::session_of) the host, `listen` (listening addresses) and `sources` (source options).
/// If the host has no machine id, it is random. An error is one of a call of `host`.
pub fn choose_session<H: HostFacts>(
    given: &GivenIds,
    listen: &str,
    sources: &str,
    start: u64,
    host: &mut H,
) -> io::Result<SessionChoice>
    ensures { IfOk result (IsChosen H.answers given.now listen.now sources.now start) }
{
    let session = session_for(given.session, listen, sources, host)?;
    Ok(SessionChoice {
        ids: SessionIds {
            session: session.number,
            session0: given.session0.unwrap_or(session0_of(start)),
            serial: given.serial.unwrap_or(first_serial(start)),
        },
        is_random: session.is_random,
    })
}

/// The session that is given. If none is, it is the one of the host.
fn session_for<H: HostFacts>(
    given: Option<u16>,
    listen: &str,
    sources: &str,
    host: &mut H,
) -> io::Result<Session>
    ensures { IfOk result (λ s. IsSession H.answers listen.now sources.now given s.number s.is_random) }
{
    match given {
        Some(number) => Ok(Session {
            number,
            is_random: false,
        }),
        None => own_session(listen, sources, host),
    }
}

/// The session of this host, these addresses and these sources, or a random one.
fn own_session<H: HostFacts>(listen: &str, sources: &str, host: &mut H) -> io::Result<Session>
    ensures { IfOk result (λ s. IsSession H.answers listen.now sources.now None s.number s.is_random) }
{
    let machine_id = host.machine_id()?;
    if !is_machine_id(machine_id.as_slice()) {
        return Ok(Session {
            number: host.random_session()?,
            is_random: true,
        });
    }
    let name = host.name()?;
    Ok(Session {
        number: session_of(machine_id.as_slice(), name.as_slice(), listen, sources),
        is_random: false,
    })
}
