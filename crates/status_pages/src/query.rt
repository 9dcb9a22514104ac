//! Reads which route a request asks about.
ghost use Rattle.std.specs.Prelude.{◌≡◌, ◌∷◌, [], ℕ, List, IfOk, IfSome, IfNone, length};
ghost use Rattle.std.specs.List.{before_first, after_first, position_or_len};
ghost use Rattle.std.specs.Cow.{cow_str_bytes};
ghost use Rattle.form_urlencoded.specs.Form.{raw_pairs};
ghost use Rattle.status_pages.specs.Query.{Finds, FindsIn, FindsInPath, FindsRoute, is_slash, text_of};

use crate::query_fault::QueryFault;
use form_urlencoded::{decode, raw_pairs};
use prefix_texts::parse_asn;
use prefixes::{IpPrefix, Route};
use std::alloc::{AllocError, Global};
use std::borrow::CowStr;

/// A name and its value, as in the query.
#[derive(Clone, Copy)]
struct RawPair<'a> {
    name: &'a [u8],
    value: &'a [u8],
}

/// A name and its value, decoded.
#[derive(Drop)]
struct DecodedPair<'a> {
    name: CowStr<'a>,
    value: CowStr<'a>,
}

/// The two pairs of a query, if there are exactly two.
fn two_pairs(query: &str) -> Option<(RawPair<'_>, RawPair<'_>)>
    ensures some { IfSome result (λ p. raw_pairs query.now ≡ (p.0.name.now, p.0.value.now) ∷ (p.1.name.now, p.1.value.now) ∷ []) }
    ensures none { IfNone result ((a b : List ℕ × List ℕ) → ¬ (raw_pairs query.now ≡ a ∷ b ∷ [])) }
{
    let mut pairs = raw_pairs(query.as_bytes());
    let (name, value) = pairs.next()?;
    let one = RawPair { name, value };
    let (name, value) = pairs.next()?;
    let other = RawPair { name, value };
    match pairs.next() {
        None => Some((one, other)),
        Some(_) => None,
    }
}

/// A pair, decoded.
fn decoded<'a>(alloc: Global, pair: &RawPair<'a>) -> Result<DecodedPair<'a>, AllocError>
    ensures name { IfOk result (λ p. cow_str_bytes p.name ≡ text_of pair.now.name.now) }
    ensures value { IfOk result (λ p. cow_str_bytes p.value ≡ text_of pair.now.value.now) }
{
    let name = decode(alloc, pair.name)?;
    let value = decode(alloc, pair.value)?;
    Ok(DecodedPair { name, value })
}

/// The route of these two texts.
fn route_of(asn: &str, prefix: &str) -> Result<Route, QueryFault>
    ensures { FindsRoute asn.now prefix.now result }
{
    let Some(asn) = parse_asn(asn) else {
        return Err(QueryFault::Asn);
    };
    match IpPrefix::parse(prefix) {
        Ok(prefix) => Ok(Route {
            prefix,
            origin: Some(asn.0),
        }),
        Err(fault) => Err(QueryFault::Prefix(fault)),
    }
}

/// The route of two pairs.
fn route_of_pairs(one: &DecodedPair<'_>, other: &DecodedPair<'_>) -> Result<Route, QueryFault>
    ensures { FindsIn ((cow_str_bytes one.now.name, cow_str_bytes one.now.value) ∷ (cow_str_bytes other.now.name, cow_str_bytes other.now.value) ∷ []) result }
{
    match (one.name.as_str(), other.name.as_str()) {
        ("asn", "prefix") => route_of(one.value.as_str(), other.value.as_str()),
        ("prefix", "asn") => route_of(other.value.as_str(), one.value.as_str()),
        _ => Err(QueryFault::Keys),
    }
}

/// Reads the route from the query of a URL: `asn=NUMBER&prefix=PREFIX`. Each key must occur once, in either order, and no other key may occur.
/// - The AS number is decimal, with or without `AS` before it.
/// - Keys and values are decoded as those of web forms (the URL Standard, section 5.1). So `%2F` is `/`, and `%3A` is `:`.
///
/// `Err` is the first fault, in this order: `Keys` for wrong keys, `Asn` for a bad AS number, `Prefix` for a bad prefix. `Memory`: out of
/// memory.
pub fn read_query(alloc: Global, query: &str) -> Result<Route, QueryFault>
    ensures { Finds query.now result }
{
    let Some((one, other)) = two_pairs(query) else {
        return Err(QueryFault::Keys);
    };
    let one = decoded(alloc, &one)?;
    let other = decoded(alloc, &other)?;
    route_of_pairs(&one, &other)
}

/// The two parts of a path: before its first slash, and after it.
fn path_parts(path: &str) -> Option<RawPair<'_>>
    ensures asn { IfSome result (λ p. p.name.now ≡ before_first is_slash path.now) }
    ensures prefix { IfSome result (λ p. p.value.now ≡ after_first is_slash path.now) }
    ensures none { IfNone result (position_or_len is_slash path.now ≡ length path.now) }
{
    let (asn, prefix) = path.split_once('/')?;
    Some(RawPair {
        name: asn.as_bytes(),
        value: prefix.as_bytes(),
    })
}

/// Reads the route from the end of a path: `NUMBER/PREFIX`. The AS number is decimal, with or without `AS` before it. Both parts are decoded as
/// in [`read_query`], so the slash in the prefix may be `%2F`.
///
/// `Err` is the first fault, in this order: `Path` if there is no slash, `Asn` for a bad AS number, `Prefix` for a bad prefix. `Memory`: out of
/// memory.
pub fn read_path(alloc: Global, path: &str) -> Result<Route, QueryFault>
    ensures { FindsInPath path.now result }
{
    let Some(parts) = path_parts(path) else {
        return Err(QueryFault::Path);
    };
    let texts = decoded(alloc, &parts)?;
    route_of(texts.name.as_str(), texts.value.as_str())
}
