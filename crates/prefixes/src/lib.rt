//! IP prefixes, AS numbers, validated ROA payloads and routes, for IPv4 and IPv6.
//!
//! For example, where `rt` is the runtime that `main` is handed:
//!
//! ```rust
//! use prefixes::{Asn, IpPrefix, PrefixFault, Vrp};
//!
//! let prefix: IpPrefix = "192.0.2.0/24".parse()?;
//! let vrp = Vrp::new(prefix, 25, Asn(64496))?;
//! assert!(rt; vrp.to_string(rt.alloc())?.as_str() == "192.0.2.0/24 25 64496");
//! assert!(rt; vrp.prefix().covers(&"192.0.2.128/25".parse()?));
//! assert!(rt; Vrp::new(prefix, 23, Asn(64496)) == Err(PrefixFault::MaxLength));
//! ```
#![tactic(auto)]

mod address;
mod asn;
mod family;
mod fault;
pub mod laws;
mod prefix;
mod route;
mod text;
mod vrp;

pub use asn::Asn;
pub use family::{Family, V4, V6};
pub use fault::PrefixFault;
pub use prefix::{IpPrefix, Prefix};
pub use route::Route;
pub use vrp::Vrp;
