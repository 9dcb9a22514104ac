//! Exports: the JSON in which validators write what they validated. [`read_export`] reads a payload list, or an object with an array
//! `roas`, as rpki-client, Routinator, FORT, StayRTR and rtrdump write it.
//!
//! For example, where `rt` is the runtime that `main` is handed:
//!
//! ```rust
//! use exports::read_export;
//!
//! let text = br#"{"metadata":{"generated":1700000000},"roas":[
//!     {"asn":"AS64496","prefix":"192.0.2.0/24","maxLength":24,"ta":"ripe","expires":1700003600},
//!     {"asn":64497,"prefix":"2001:db8::/32","maxLength":48,"ta":"arin","expires":1700000000}]}"#;
//! let export = read_export(rt.alloc(), text, 1_700_000_060)?;
//! assert!(rt; export.set.len() == 1);
//! assert!(rt; export.expired == 1);
//! assert!(rt; export.built == Some(1_700_000_000));
//! ```
//!
//! [`read_export_until`] also returns the second until which the export stays the same. [`read_export_lasting`] also returns the last second at
//! which each record counts. [`read_export_counted`] adds the number of ASPAs and router keys, which are not served, and the trust anchor of
//! each record.
#![tactic(auto)]

mod anchors;
mod built;
mod counting;
mod entry;
mod export;
mod fault;
mod forms;
mod gathered;
mod ignored;
mod json_fault;
mod lasting;
pub mod laws;
mod lists;
mod names;
mod numbers;
mod repeated;
mod streaming;
mod text;
mod walk;
mod words;

pub use anchors::{ExportAnchors, NO_ANCHOR};
pub use export::{
    Export, ExportCounted, ExportLasting, TimedExport, read_export, read_export_counted,
    read_export_lasting, read_export_until,
};
pub use fault::{EntryFault, ExportFault};
pub use ignored::Ignored;
pub use words::fault_text;
