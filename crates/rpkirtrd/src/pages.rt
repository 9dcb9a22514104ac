//! The status pages of the daemon.
use crate::connection::Connection;
use crate::host::host_name;
use crate::system::System;
use mio::net::TcpStream;
use rpkirtrd_cli::{Settings, VERSION};
use rtr_daemon::{AfterTurn, Daemon, SocketFault, Time};
use status_pages::Status;
use status_server::{CachePlace, CacheView, StatusEndpoint};
use std::alloc::AllocError;
use std::hash::RandomState;
use std::io::Write;
use std::net::Net;
use std::random::RandomSource;
use std::rt::Files;
use std::time::Clock;
use vrps::{Serial, VersionLog, VrpSet};

/// The status pages of the daemon. Without a configured address they do nothing.
#[derive(Debug, Drop)]
pub struct Pages {
    endpoint: Option<StatusEndpoint<TcpStream>>,
}

impl Pages {
    /// Opens the listener of the status pages in `system`. If the settings have no address for it, nothing is opened.
    /// `Err` with an address: the listener there could not be opened, or memory ran out. `Err` without one: the random source failed, or memory ran
    /// out before a listener was opened.
    pub fn open<R: Files + Net + Clock + RandomSource + AllocGlobal, E: Write>(
        rt: &R,
        settings: &Settings,
        system: &mut System<'_, R, E>,
    ) -> Result<Pages, SocketFault> {
        let Some(at) = settings.status else {
            return Ok(Pages { endpoint: None });
        };
        let place = CachePlace {
            host: host_name(rt)?,
            addresses: settings.listen.as_slice().to_vec(rt.alloc())?,
        };
        let name = match &settings.status_name {
            Some(name) => Some(String::from_str(rt.alloc(), name.as_str())?),
            None => None,
        };
        let keys = RandomState::new(rt)?;
        if let Err(error) = system.listen_for_http(at) {
            let address = Some(at);
            return Err(SocketFault { address, error });
        }
        let endpoint = StatusEndpoint::new(rt.alloc(), keys, place, name);
        Ok(Pages {
            endpoint: Some(endpoint),
        })
    }
}

/// The daemon, as its pages show it.
#[derive(Debug, Drop)]
struct DaemonView<'a> {
    daemon: &'a Daemon<VersionLog, Connection>,
}

impl CacheView for DaemonView<'_> {
    fn status(&self, now: u64, millis: u64) -> Result<Status, AllocError> {
        self.daemon.status(VERSION, now, millis)
    }

    fn current(&self) -> Option<(Serial, &VrpSet)> {
        self.daemon.server().current()
    }
}

/// Readiness is reported, and the pages have a turn.
impl<'a, R: Clock + AllocGlobal, E: Write> AfterTurn<VersionLog, Connection, System<'a, R, E>>
    for Pages {
    fn after_turn(
        &mut self,
        daemon: &Daemon<VersionLog, Connection>,
        system: &mut System<'a, R, E>,
    ) {
        if daemon.is_ready() {
            system.report_ready();
        }
        let Some(endpoint) = &mut self.endpoint else {
            return;
        };
        let (now, millis) = (system.seconds(), system.millis());
        let lost = system.lost_lines();
        endpoint.turn(now, millis, lost, &DaemonView { daemon }, system);
        system.wait_at_most(endpoint.wait_limit());
    }
}
