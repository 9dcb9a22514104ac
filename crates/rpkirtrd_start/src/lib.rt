//! The start of the daemon's program: from its settings to a daemon, and to the exit status of its run. Sockets, files, clocks, log and host are
//! the traits of `rtr_daemon` and `session_names`.
#![tactic(auto)]

mod paths;
mod starting;

pub use starting::{Addresses, check, serve, start};
