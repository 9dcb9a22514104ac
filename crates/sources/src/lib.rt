//! The sources of what a cache serves: lists of validators, sets of other caches, publication points, and local exceptions. [`Sources`]
//! keeps the last good content of each, and makes one set of them.
//!
//! For example, where `rt` is the runtime that `main` is handed:
//!
//! ```rust
//! use der_lite::Moment;
//! use sources::{Sources, TakeFault};
//!
//! let mut sources = Sources::new(rt.alloc(), 1)?;
//! let text = br#"[{"asn":64496,"prefix":"192.0.2.0/24","maxLength":24}]"#;
//! sources.take_export(0, text, 1_700_000_000)?;
//! assert!(rt; sources.take_export(1, text, 1_700_000_000) == Err(TakeFault::NoSuchFile));
//! let now = Moment::parse("20231114221320Z").ok_or("no moment")?;
//! let served = sources.served(now)?;
//! assert!(rt; served.set.len() == 1);
//! ```
#![tactic(auto)]

mod fault;
pub mod laws;
mod listed;
mod reading;
mod shrinking;
mod slurms;
mod sources;

pub use fault::{SlurmSetFault, TakeCcrFault, TakeFault, TakeSetFault};
pub use listed::Listed;
pub use shrinking::is_too_short;
pub use sources::{ServedSet, Sources};
