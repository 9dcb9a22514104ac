//! The sessions and the first serial of a daemon, by which a restart empties no router (RFC 8210 section 5.1): [`session_of`],
//! [`session0_of`] and [`first_serial`]. [`Pace`] is the pace of its versions, and [`laws::restart_is_later`] the law of restarts.
//!
//! For example, where `rt` is the runtime that `main` is handed:
//!
//! ```rust
//! use session_names::{Pace, first_serial};
//!
//! let now = 1_795_632_000;
//! assert!(rt; first_serial(now) == 1_795_632_000);
//! let mut pace = Pace::new();
//! pace.published(now);
//! assert!(rt; !pace.may_publish(now));
//! assert!(rt; pace.may_publish(now + 1));
//! ```
#![tactic(auto)]

mod choice;
pub mod laws;
mod names;
mod pace;

pub use choice::{GivenIds, HostFacts, SessionChoice, choose_session};
pub use names::{SessionIds, first_serial, is_machine_id, session_of, session0_of};
pub use pace::Pace;
