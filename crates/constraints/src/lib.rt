//! Constraints of a trust anchor: which addresses and AS numbers may be below it (rpki-client(8)).
//!
//! For example, where `rt` is the runtime that `main` is handed:
//!
//! ```rust
//! use constraints::{ConstraintRefusal, read_constraints};
//! use resources::{ResourceRange, ResourceSet};
//!
//! let constraints = read_constraints(rt.alloc(), b"allow 2001:db8::/32 # IPv6 alone\n")?;
//! let none = ResourceSet::empty(rt.alloc());
//! // 192.0.2.0/24
//! let range = ResourceRange {
//!     low: 0xc0000200,
//!     high: 0xc00002ff,
//! };
//! let v4 = none.with(rt.alloc(), range)?;
//! assert!(rt; constraints.judge(&v4, &none) == Err(ConstraintRefusal::NotAllowed));
//! ```
//!
//! [`read_constraints`] reads a file of constraints. An entry is `allow` or `deny`, and a prefix, a range of addresses, an AS number or a range of AS
//! numbers. [`Constraints::judge`] judges the addresses of the EE certificate of a ROA by the entries.
#![tactic(auto)]

mod action;
mod constraint;
mod entry;
mod fault;
mod file;
mod gathered;
mod judging;
pub mod laws;
mod refusal;
mod value;
mod words;

pub use action::ConstraintAction;
pub use constraint::Constraint;
pub use fault::{ConstraintFaultKind, ConstraintsError};
pub use file::{Constraints, read_constraints};
pub use refusal::ConstraintRefusal;
