//! Resources.
use crate::sheet::Sheet;
use resources::{
    IpResources, ResourceChoice, ResourceError, ResourceSet, read_as_ids, read_ip_blocks,
};
use std::alloc::Global;
use std::io::Write;

/// Prints a fault.
fn show_fault<W: Write>(fault: ResourceError, sheet: &mut Sheet<W>) {
    match fault {
        ResourceError::At(fault) => {
            sheet.text(" fault ");
            sheet.number(u128::from(fault.kind.number()));
            sheet.text(" ");
            sheet.number(fault.offset as u128);
        }
        ResourceError::Memory => sheet.text(" memory"),
    }
}

/// Prints ranges.
fn show_set<W: Write>(set: &ResourceSet, sheet: &mut Sheet<W>) {
    for range in set.as_slice() {
        sheet.text(" ");
        sheet.number(range.low);
        sheet.text("-");
        sheet.number(range.high);
    }
}

/// Prints what is said of resources of one kind.
fn show_choice<W: Write>(choice: &ResourceChoice, sheet: &mut Sheet<W>) {
    match choice {
        ResourceChoice::Inherit => sheet.text(" inherit"),
        ResourceChoice::Listed(set) => show_set(set, sheet),
    }
}

/// Prints what is said of a family.
fn show_family<W: Write>(name: &str, choice: &Option<ResourceChoice>, sheet: &mut Sheet<W>) {
    if let Some(choice) = choice {
        sheet.text(name);
        show_choice(choice, sheet);
    }
}

/// Prints what is said of addresses.
fn show_addresses<W: Write>(ip: &IpResources, sheet: &mut Sheet<W>) {
    show_family(" v4", &ip.v4, sheet);
    show_family(" v6", &ip.v6, sheet);
}

/// Prints a value of ipAddrBlocks.
pub fn show_ip<W: Write>(alloc: Global, value: &[u8], sheet: &mut Sheet<W>) {
    sheet.text("ip");
    match read_ip_blocks(alloc, value) {
        Ok(ip) => show_addresses(&ip, sheet),
        Err(fault) => show_fault(fault, sheet),
    }
}

/// Prints a value of autonomousSysIds.
pub fn show_as<W: Write>(alloc: Global, value: &[u8], sheet: &mut Sheet<W>) {
    sheet.text("as");
    match read_as_ids(alloc, value) {
        Ok(choice) => show_choice(&choice, sheet),
        Err(fault) => show_fault(fault, sheet),
    }
}

/// Whether the holder of what is listed first holds it under an issuer that has what is listed second. `None`: the issuer lists nothing.
fn is_held(choice: &ResourceChoice, issuer: &ResourceChoice) -> Option<bool> {
    match issuer {
        ResourceChoice::Listed(issuer) => Some(choice.held(issuer).is_some()),
        ResourceChoice::Inherit => None,
    }
}

/// Whether the AS numbers of a value are among those of another.
pub fn is_within(alloc: Global, inner: &[u8], outer: &[u8]) -> Option<bool> {
    match (read_as_ids(alloc, inner), read_as_ids(alloc, outer)) {
        (Ok(inner), Ok(outer)) => is_held(&inner, &outer),
        _ => None,
    }
}

/// Whether the IPv6 addresses of the first are among those of the second.
fn is_covered(inner: &IpResources, outer: &IpResources) -> Option<bool> {
    match (&inner.v6, &outer.v6) {
        (Some(inner), Some(outer)) => is_held(inner, outer),
        _ => None,
    }
}

/// Whether the IPv6 addresses of a value are among those of another.
pub fn covers(alloc: Global, inner: &[u8], outer: &[u8]) -> Option<bool> {
    match (read_ip_blocks(alloc, inner), read_ip_blocks(alloc, outer)) {
        (Ok(inner), Ok(outer)) => is_covered(&inner, &outer),
        _ => None,
    }
}
