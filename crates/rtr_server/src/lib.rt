//! One cache (RFC 6810, RFC 8210) and many routers, over non-blocking streams.
//!
//! For example, where `rt` is the runtime that `main` is handed:
//!
//! ```rust
//! use rtr_ends::{Cache, Timing};
//! use rtr_server::{CloseReason, Duplex, Server, Turn};
//! use vrps::{VersionLog, VrpSet};
//!
//! let store = VersionLog::new(rt.alloc(), 4660, 5, 16)?;
//! let mut cache = Cache::new(rt.alloc(), store, Timing::default());
//! cache.publish(VrpSet::empty(rt.alloc()))?;
//! let mut server = Server::new(rt.alloc(), cache, 256);
//! let query: &[u8] = &[1, 2, 0, 0, 0, 0, 0, 8];
//! let output = Vec::new(rt.alloc());
//! let client = server.admit(Duplex {
//!     input: query,
//!     output,
//! })?;
//! assert!(rt; server.serve(client, 64) == Some(Turn::Gone(CloseReason::PeerClosed)));
//! assert!(rt; server.clients() == 0);
//! ```
#![tactic(auto)]

pub mod laws;
mod pieces;
mod report;
mod server;
mod stream;
mod tally;
mod turn;

pub use report::{REPORT_TEXT_LEN, Report};
pub use server::{AdmitFault, Client, ClientId, Server};
pub use stream::{Call, Duplex, Progress, Stream};
pub use tally::{PdusByKind, Tally};
pub use turn::{ByteCounts, CloseReason, Parted, Traffic, Turn};
