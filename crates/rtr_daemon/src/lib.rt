//! A running RTR cache. It loads files, serves their VRPs to routers, and publishes a new version if the files change.
//! [`Daemon`] runs in turns. Its sockets, files, clocks and log are the traits [`Sockets`], [`Disk`], [`Time`] and [`EventLog`].
//!
//! For example, where `rt` is the runtime that `main` is handed:
//!
//! ```rust
//! use rtr_daemon::{CacheSettings, Service};
//! use rtr_ends::Timing;
//! use rtr_server::Duplex;
//! use session_names::SessionIds;
//! use sources::Sources;
//! use vrps::VersionLog;
//!
//! let settings = CacheSettings {
//!     keep: 16,
//!     timing: Timing::default(),
//!     clients: 256,
//! };
//! let ids = SessionIds {
//!     session: 4660,
//!     session0: 4660,
//!     serial: 5,
//! };
//! let sources = Sources::new(rt.alloc(), 1)?;
//! let mut service: Service<VersionLog, Duplex<&[u8], Vec<u8>>> = Service::new(
//!     rt.alloc(),
//!     settings,
//!     ids,
//!     sources,
//! )?;
//! let text = br#"[{"asn":64496,"prefix":"192.0.2.0/24","maxLength":24}]"#;
//! service.take_export(0, text, 1_700_000_000)?;
//! assert!(rt; service.is_pending());
//! let report = service.publish(1_700_000_000)?;
//! assert!(rt; report.records == 1);
//! assert!(rt; !service.is_pending());
//! ```
#![tactic(auto)]

mod accept_errors;
mod accepting;
mod ages;
mod anchor_peaks;
mod cache_settings;
mod client_entry;
mod client_table;
mod clients;
mod daemon;
mod dropping;
mod environment;
mod families;
pub mod laws;
mod losing;
mod outstanding;
mod peaks;
mod point_polling;
mod poll_token;
mod polling;
mod publishing;
mod readable;
mod refusal;
mod refusals;
mod running;
mod service;
mod set_changes;
mod shrink_guard;
mod slurm_contents;
mod slurm_polling;
mod stamps;
mod start_faults;
mod starting;
mod statistics;
mod status;
mod unwell;
mod versions;
mod waiting;
mod watched_file;

pub use cache_settings::CacheSettings;
pub use daemon::{CheckReport, Daemon, Paths, Plan, StopReason};
pub use environment::{AcceptResult, Disk, EventLog, Ready, Sockets, Stamp, Time};
pub use poll_token::{FIRST_CONNECTION, FIRST_STATUS_CONNECTION, PollToken, STATUS_TOKEN};
pub use readable::{FileForm, Unreadable};
pub use refusal::{FileFault, Refusal, StartFault};
pub use running::{
    AfterTurn, WaitLimits, clients_within, report_check, report_end, report_limit, run,
    wait_for_clock,
};
pub use service::Service;
pub use set_changes::StepStore;
pub use shrink_guard::ShrinkGuard;
pub use stamps::{StableStamp, UnstableInodes};
pub use start_faults::SocketFault;
pub use versions::PublishReport;
