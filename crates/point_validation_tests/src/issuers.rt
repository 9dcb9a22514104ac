//! The trust anchor of the tests, with what it holds and revokes.
use crate::vectors::ANCHOR;
use point_validation::{HeldResources, ResourceExtensions};
use resources::{IpResources, ResourceChoice, ResourceSet};
use std::alloc::Global;

/// The bytes of files.
#[derive(Debug, Drop)]
pub struct Bytes {
    pub anchor: Vec<u8>,
    pub crl: Vec<u8>,
    pub file: Vec<u8>,
}

/// The bytes of the trust anchor and of two files.
pub fn decoded(alloc: Global, crl: &str, file: &str) -> Option<Bytes> {
    match (
        hex::decode(alloc, ANCHOR),
        hex::decode(alloc, crl),
        hex::decode(alloc, file),
    ) {
        (Ok(anchor), Ok(crl), Ok(file)) => Some(Bytes { anchor, crl, file }),
        _ => None,
    }
}

/// The set that is listed. `None`: it is inherited, or not there.
fn listed(choice: Option<ResourceChoice>) -> Option<ResourceSet> {
    match choice {
        Some(ResourceChoice::Listed(set)) => Some(set),
        _ => None,
    }
}

/// What a certificate lists of each kind.
pub fn listed_resources(extensions: ResourceExtensions) -> Option<HeldResources> {
    let ResourceExtensions { ip, as_ids } = extensions;
    let Some(IpResources { v4, v6 }) = ip else {
        return None;
    };
    match (listed(v4), listed(v6), listed(as_ids)) {
        (Some(v4), Some(v6), Some(as_numbers)) => Some(HeldResources { v4, v6, as_numbers }),
        _ => None,
    }
}

/// The last number of a set, if it has one.
pub fn last(set: &ResourceSet) -> Option<u128> {
    match set.as_slice() {
        [.., range] => Some(range.high),
        [] => None,
    }
}
