//! Publication points of the RPKI: an offer of an operator's validator is accepted as a whole or not at all.
//!
//! For example, where `rt` is the runtime that `main` is handed:
//!
//! ```rust
//! use der_lite::Moment;
//! use payloads::{Manifest, encode_manifest};
//! use points::{Offered, Point};
//!
//! let from: Moment = "20250101000000Z".parse()?;
//! let to: Moment = "20250102000000Z".parse()?;
//! let mut number = Vec::new(rt.alloc());
//! number.push(1)?;
//! let manifest = Manifest::new(rt.alloc(), number, from, to, Vec::new(rt.alloc()))?;
//! let payload = encode_manifest(rt.alloc(), &manifest)?;
//! let mut point = Point::new(rt.alloc());
//! assert!(rt; point.offer(payload.as_slice(), &[], from) == Ok(Offered::New));
//! assert!(rt; point.offer(payload.as_slice(), &[], to) == Ok(Offered::Same));
//! ```
//!
//! A [`Point`] accepts a manifest with the files that it lists (RFC 9286 section 6). A [`Repository`] has a point for each name, and lists
//! the payloads that are in use.
#![tactic(auto)]

mod accepted;
mod fault;
mod file;
mod finding;
mod judging;
pub mod laws;
mod numbers;
mod objects;
mod point;
mod repository;

pub use fault::{Offered, PointFault};
pub use file::FileIn;
pub use point::Point;
pub use repository::Repository;
