//! Computes the state of a route from manifests and ROAs: through publication points, an RTR cache and a router.
//!
//! For example, where `rt` is the runtime that `main` is handed:
//!
//! ```rust
//! use feed::route_from_payloads;
//! use prefixes::Route;
//! use vrps::OriginState;
//!
//! let route = Route {
//!     prefix: "192.0.2.0/24".parse()?,
//!     origin: Some(64496),
//! };
//! let fed = route_from_payloads(rt.alloc(), &[], "20250101000000Z".parse()?, &route)?;
//! assert!(rt; fed.state == OriginState::NotFound);
//! ```
#![tactic(auto)]

mod fault;
mod loopback;
mod offers;
mod route;

pub use fault::FeedFault;
pub use offers::Offer;
pub use route::{Fed, route_from_payloads};
