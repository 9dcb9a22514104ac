//! Texts of prefixes and AS numbers as validators write them. An IPv6 address may be in mixed notation, as rpki-client and FORT write
//! `::ffff:192.0.2.0/120`. An AS number may have `AS` before it.
//!
//! For example, where `rt` is the runtime that `main` is handed:
//!
//! ```rust
//! use prefix_texts::parse_prefix;
//! use prefixes::PrefixFault;
//!
//! let mixed = parse_prefix("::ffff:192.0.2.0/120")?;
//! assert!(rt; mixed == parse_prefix("::ffff:c000:200/120")?);
//! assert!(rt; parse_prefix("::ffff:192.0.2.1/120") == Err(PrefixFault::HostBits));
//! ```
#![tactic(auto)]

mod asn;
pub mod laws;
mod reading;

pub use asn::parse_asn;
pub use reading::parse_prefix;
