//! Sets of validated ROA payloads, changes between them, serials, and the states of routes.
//!
//! For example, where `rt` is the runtime that `main` is handed:
//!
//! ```rust
//! use prefixes::{Asn, Route, Vrp};
//! use vrps::{OriginIndex, OriginState, VrpSet};
//!
//! let mut list = Vec::new(rt.alloc());
//! list.push(Vrp::new("192.0.2.0/24".parse()?, 24, Asn(64496))?)?;
//! let index = OriginIndex::over(rt.alloc(), &VrpSet::try_from(list)?)?;
//! let route = Route {
//!     prefix: "192.0.2.0/24".parse()?,
//!     origin: Some(64497),
//! };
//! assert!(rt; index.state(&route) == OriginState::Invalid);
//! assert!(rt; index.state(&route).to_string(rt.alloc())?.as_str() == "invalid");
//! ```
#![tactic(auto)]

mod change;
mod gathered;
mod grouping;
mod groups;
mod key;
pub mod laws;
mod log;
mod merge;
mod origin;
mod path;
mod search;
mod serial;
mod set;
mod store;
mod whole;

pub use change::Change;
pub use gathered::Gathered;
pub use log::VersionLog;
pub use origin::{OriginIndex, OriginState};
pub use path::{PathFault, Segment, SegmentKind, origin_of_path};
pub use serial::Serial;
pub use set::{SetFault, VrpSet};
pub use store::{Published, Since, VersionStore};
pub use whole::WholeLog;
