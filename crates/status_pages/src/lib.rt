//! The status of a cache for its operators: a page, metrics, and the validity of routes.
//!
//! For example, where `rt` is the runtime that `main` is handed:
//!
//! ```rust
//! use prefixes::{Asn, IpPrefix, Vrp};
//! use status_pages::{Validity, read_query};
//! use vrps::{OriginIndex, OriginState, VrpSet};
//!
//! let mut list = Vec::new(rt.alloc());
//! list.push(Vrp::new(IpPrefix::parse("192.0.2.0/24")?, 24, Asn(64496))?)?;
//! let index = OriginIndex::over(rt.alloc(), &VrpSet::from_list(list)?)?;
//! let route = read_query(rt.alloc(), "asn=AS64496&prefix=192.0.2.0/25")?;
//! let validity = Validity::of_route(rt.alloc(), &index, &route)?;
//! assert!(rt; validity.state == OriginState::Invalid);
//! assert!(rt; validity.matched.is_empty());
//! assert!(rt; validity.unmatched_length.len() == 1);
//! ```
#![tactic(auto)]

mod anchor_metrics;
mod api_status;
mod csv;
mod export;
mod file_metrics;
mod form;
mod health;
mod ignored;
pub mod laws;
mod made;
mod meant;
mod metrics;
mod page;
mod page_figures;
mod page_routers;
mod page_state;
mod page_style;
mod page_tables;
mod picture;
mod pieces;
mod query;
mod query_fault;
mod reasons;
mod report_metrics;
mod roas;
mod router_metrics;
mod status;
mod tals;
mod text;
mod validity;
mod validity_page;
mod validity_text;

pub use api_status::write_api_status;
pub use csv::{write_csv, write_routinator_csv};
pub use export::{write_export_head, write_routinator_head};
pub use form::write_form_page;
pub use health::write_health;
pub use made::oldest_built;
pub use metrics::write_metrics;
pub use page::write_page;
pub use query::{read_path, read_query};
pub use query_fault::QueryFault;
pub use reasons::{
    REASONS, Reason, has_reason, holds_for_all, is_blamed, is_healthy, is_ready, is_well,
    served_vrps,
};
pub use roas::write_roas;
pub use status::{
    AnchorStatus, ChangeStatus, ClientLimit, ClientStatus, ClientTraffic, ErrorReports, FileStatus,
    IgnoredEntries, LostLines, PdusByType, PublicationFailure, ReportsByCode, SlowCall, Status,
    TotalTraffic, TurnedAway, VrpPeak,
};
pub use validity::Validity;
pub use validity_page::write_validity_page;
pub use validity_text::write_validity;
