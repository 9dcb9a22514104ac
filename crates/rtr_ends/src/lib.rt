//! The two ends of the RPKI-to-Router protocol (RFC 6810, RFC 8210).
//!
//! For example, where `rt` is the runtime that `main` is handed:
//!
//! ```rust
//! use rtr_ends::{Cache, Router, Timing};
//! use rtr_pdu::Version;
//! use vrps::{Serial, VersionLog, VrpSet};
//!
//! let store = VersionLog::new(rt.alloc(), 4660, 5, 16)?;
//! let mut cache = Cache::new(rt.alloc(), store, Timing::default());
//! cache.publish(VrpSet::empty(rt.alloc()))?;
//! let conn = cache.open()?;
//! let mut router = Router::new(rt.alloc());
//! router.connect(0);
//! let mut bytes = [0; 64];
//! let asked = router.pull(&mut bytes);
//! cache.receive(conn, &bytes[..asked]);
//! let sent = cache.pull(conn, &mut bytes);
//! router.receive(&bytes[..sent], 0);
//! assert!(rt; router.committed() == Some((Version::V1, 4660, Serial(5))));
//! let change = router.last_change()?.ok_or("nothing is committed")?;
//! assert!(rt; change.announce.is_empty() && change.withdraw.is_empty());
//! ```
#![tactic(auto)]

mod cache;
mod configuration;
mod fetching;
pub mod laws;
mod link;
mod machine;
mod machine_clock;
mod machine_units;
mod numbers;
mod outbox;
mod peer;
mod question;
mod reports;
mod router;
mod sender;
mod serving;
mod sessions;
mod staging;
mod streams;
mod table;
mod timing;

pub use cache::{Cache, Conn};
pub use configuration::RouterConfig;
pub use fetching::{Fetched, fetch_stream};
pub use link::{AskFault, End, Link};
pub use question::CommittedVersion;
pub use router::Router;
pub use serving::{Served, serve_stream};
pub use sessions::Sessions;
pub use streams::StreamFault;
pub use timing::{Timing, TimingFault};
