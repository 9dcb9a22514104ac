//! Values that are parsed, compared and copied.

use der_lite::{Moment, MomentFault};
use payloads::{ListedFile, Manifest, Roa, RoaEntry};
use prefixes::{Asn, IpPrefix, PrefixFault};
use std::alloc::{AllocError, Global};
use std::test::Fail;

/// Whether the copy of a value is the same.
fn is_copied<T: Clone + PartialEq>(value: &T) -> bool {
    match value.clone() {
        Ok(copy) => copy == *value,
        Err(_) => false,
    }
}

/// Whether this is what is printed of a prefix for debugging.
fn shows(alloc: Global, prefix: &IpPrefix, text: &str) -> bool {
    match format!(in alloc; "{prefix:?}") {
        Ok(it) => it.as_str() == text,
        Err(_) => false,
    }
}

#[test]
fn texts_are_parsed(rt: HostRuntime) -> Result<(), Fail> {
    let prefix: IpPrefix = "2001:db8::/32".parse()?;
    assert!(rt; shows(rt.alloc(), &prefix, "2001:db8::/32"));
    assert!(rt; "2001:db8::".parse::<IpPrefix>() == Err(PrefixFault::BadText));
    assert!(rt; "64496".parse::<Asn>() == Ok(Asn(64496)));
    assert!(rt; "AS64496".parse::<Asn>() == Err(PrefixFault::BadText));
    assert!(rt; "20250101120000Z".parse::<Moment>().ok() == Moment::parse("20250101120000Z"));
    assert!(rt; "20250229120000Z".parse::<Moment>() == Err(MomentFault));
    Ok(())
}

/// The list of one file of this hash.
fn listed(alloc: Global, hash: u8) -> Result<Vec<ListedFile>, AllocError> {
    let name = String::from_str(alloc, "a.roa")?;
    let mut files = Vec::new(alloc);
    files.push(ListedFile::new(name, [hash; 32]))?;
    Ok(files)
}

/// A manifest of this number that lists one file of this hash.
fn manifest(alloc: Global, number: u8, hash: u8) -> Option<Manifest> {
    let from = Moment::parse("20250101000000Z")?;
    let to = Moment::parse("20250102000000Z")?;
    let content = Vec::from_slice(alloc, &[number]).ok()?;
    let files = listed(alloc, hash).ok()?;
    Manifest::new(alloc, content, from, to, files).ok()
}

/// Whether a manifest of this number and this hash is that one, if it can be made.
fn is_manifest(alloc: Global, one: &Manifest, number: u8, hash: u8) -> Option<bool> {
    let made = manifest(alloc, number, hash)?;
    Some(made == *one)
}

#[test]
fn manifests_are_compared(rt: HostRuntime) -> Result<(), Fail> {
    let one = manifest(rt.alloc(), 1, 7).ok_or("no manifest")?;
    assert!(rt; is_copied(&one));
    assert!(rt; is_manifest(rt.alloc(), &one, 1, 7) == Some(true));
    assert!(rt; is_manifest(rt.alloc(), &one, 2, 7) == Some(false));
    assert!(rt; is_manifest(rt.alloc(), &one, 1, 8) == Some(false));
    Ok(())
}

/// A ROA of this AS for one prefix, with this maximum length.
fn roa(alloc: Global, asn: u32, prefix: &str, max_len: Option<u8>) -> Option<Roa> {
    let prefix = IpPrefix::parse(prefix).ok()?;
    let entries = Vec::from_slice(alloc, &[RoaEntry { prefix, max_len }]).ok()?;
    Roa::new(Asn(asn), entries).ok()
}

/// Whether a ROA of this AS, this prefix and this maximum length is that one, if it can be made.
fn is_roa(alloc: Global, one: &Roa, asn: u32, prefix: &str, max_len: Option<u8>) -> Option<bool> {
    let made = roa(alloc, asn, prefix, max_len)?;
    Some(made == *one)
}

#[test]
fn roas_are_compared(rt: HostRuntime) -> Result<(), Fail> {
    let one = roa(rt.alloc(), 64496, "192.0.2.0/24", Some(25)).ok_or("no ROA")?;
    assert!(rt; is_copied(&one));
    assert!(rt; is_roa(rt.alloc(), &one, 64496, "192.0.2.0/24", Some(25)) == Some(true));
    assert!(rt; is_roa(rt.alloc(), &one, 64497, "192.0.2.0/24", Some(25)) == Some(false));
    assert!(rt; is_roa(rt.alloc(), &one, 64496, "198.51.100.0/24", Some(25)) == Some(false));
    assert!(rt; is_roa(rt.alloc(), &one, 64496, "192.0.2.0/24", None) == Some(false));
    Ok(())
}
