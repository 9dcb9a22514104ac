//! A router, a cache, origin validation and payloads of signed objects for C: `include/rpkirtr.h` declares what is here. The caller owns sockets and clocks.
//!
//! Each export except `rpkirtr_abi_version` returns the number of a `CallStatus`. `Done` is 0. `Empty`: there is nothing in the handle `h`.
//! `Live`: a handle in which something is made is not empty. An export writes its outputs whatever it returns, except a structure of a wrong
//! size.
#![tactic(auto)]

mod authorization;
mod cache;
mod call_status;
mod changes;
mod configuration;
mod conns;
mod contents;
mod index;
mod judge;
mod links;
mod lists;
mod loose;
mod manifest;
mod names;
mod objects;
mod octets;
mod records;
mod roa;
mod router;
mod served_cache;
mod session;
mod share;
mod texts;
mod traffic;
mod values;

pub use crate::cache::CacheHandle;
pub use crate::configuration::CConfig;
pub use crate::index::IndexHandle;
pub use crate::links::{CCommitted, CLink};
pub use crate::lists::CList;
pub use crate::manifest::ManifestHandle;
pub use crate::objects::CFault;
pub use crate::octets::CDigest;
pub use crate::roa::RoaHandle;
pub use crate::router::RouterHandle;
pub use crate::texts::CText;
pub use crate::traffic::{CCarried, CTraffic};
pub use crate::values::{CRecord, CRoute};
