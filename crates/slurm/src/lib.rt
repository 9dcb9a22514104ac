//! Local exceptions to a set of validated ROA payloads (SLURM, RFC 8416): records that are filtered out, and records that are added.
//! [`read_slurm`] reads a file of them, [`fault_text`] says why it is none, and [`apply`] applies them to a set. [`unite`] makes one of several
//! files that [`read_slurm_scoped`] read, if no two overlap (RFC 8416 section 4.2).
//!
//! For example, where `rt` is the runtime that `main` is handed:
//!
//! ```rust
//! use slurm::{apply, read_slurm};
//! use vrps::VrpSet;
//!
//! let text = br#"{"slurmVersion":1,
//!     "validationOutputFilters":{"prefixFilters":[{"asn":64497}],"bgpsecFilters":[]},
//!     "locallyAddedAssertions":{"prefixAssertions":[{"asn":64496,"prefix":"198.51.100.0/24"}],"bgpsecAssertions":[]}}"#;
//! let slurm = read_slurm(rt.alloc(), text)?;
//! let set = apply(&slurm, rt.alloc(), &VrpSet::empty(rt.alloc()))?;
//! assert!(rt; set.len() == 1);
//! ```
#![tactic(auto)]

mod applying;
mod arrays;
mod claims;
mod entries;
mod fault;
mod filter;
mod index;
pub mod laws;
mod members;
mod reading;
mod repeated;
mod scoped;
mod telling;
mod unite_fault;
mod uniting;

pub use applying::apply;
pub use fault::{SlurmArray, SlurmEntryFault, SlurmFault, SlurmObject};
pub use filter::{PrefixFilter, Slurm};
pub use reading::{read_slurm, read_slurm_scoped};
pub use scoped::{Ignored, ScopedSlurm};
pub use telling::fault_text;
pub use unite_fault::{Overlap, UniteFault};
pub use uniting::unite;
