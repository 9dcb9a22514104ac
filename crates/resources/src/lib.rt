//! IP addresses and AS numbers of resource certificates (RFC 3779), in canonical form, and which holder has which.
//!
//! For example, where `rt` is the runtime that `main` is handed:
//!
//! ```rust
//! use resources::{ResourceChoice, read_ip_blocks};
//!
//! // 192.0.2.0/24
//! let value = b"\x30\x0e\x30\x0c\x04\x02\x00\x01\x30\x06\x03\x04\x00\xc0\x00\x02";
//! let ip = read_ip_blocks(rt.alloc(), value)?;
//! if let Some(ResourceChoice::Listed(ranges)) = &ip.v4 {
//!     for range in ranges.as_slice() {
//!         assert!(rt; range.low == 0xc0000200 && range.high == 0xc00002ff);
//!     }
//! }
//! ```
//!
//! [`read_ip_blocks`] and [`read_as_ids`] read the values of the two extensions. Each judges every element in its order, and reports the first
//! fault. [`ResourceChoice::held`] says what the subject of a certificate holds, if its issuer holds these ranges.
#![tactic(auto)]

mod address;
mod as_ids;
mod bits;
mod block;
mod choice;
mod elements;
mod fault;
mod ip_resources;
mod kind;
pub mod laws;
mod range;
mod set;

pub use as_ids::read_as_ids;
pub use choice::ResourceChoice;
pub use fault::{ResourceError, ResourceFault, ResourceFaultKind};
pub use ip_resources::{IpResources, read_ip_blocks};
pub use kind::ResourceKind;
pub use range::ResourceRange;
pub use set::ResourceSet;
