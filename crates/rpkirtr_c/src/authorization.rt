//! The value of a ROA's handle.

use prefixes::{Asn, Vrp};

/// The AS of a ROA, and what it validates.
#[derive(Debug, Drop)]
pub struct Authorization {
    pub(crate) asn: Asn,
    pub(crate) vrps: Vec<Vrp>,
}
