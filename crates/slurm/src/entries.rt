//! The entries of the arrays.
ghost use Rattle.std.specs.Prelude.{◌≡◌, ◌+◌, ℕ, ◌≤◌, ◌<◌, Option, Result, IfOk, IfErr, IfSome, IfNone, is_some, ⊤};
ghost use Rattle.serde_json.specs.Data.{Data};
ghost use Rattle.serde_json.specs.Find.{get};
ghost use Rattle.serde_json.specs.View.{items_view, view};
ghost use Rattle.prefixes.specs.Payload.{block_of};
ghost use Rattle.slurm.specs.Members.{total};
ghost use Rattle.slurm.specs.Chains.{UnlessMemory, seen};
ghost use Rattle.slurm.specs.Entries.{IsMaximum, ReadsEntries, ReadsPrefix, SpellsPrefix, asn_if_any, asn_of, assertion_asn, comment_of, filter_asn, key_assertion, key_filter, max_len_of, members_known, text_if_any, text_of};

use crate::fault::{SlurmArray, SlurmEntryFault, SlurmFault};
use crate::filter::PrefixFilter;
use crate::members::{has, one_for, total};
use payload_lists::parts::{text, whole};
use prefix_texts::parse_prefix;
use prefixes::{Asn, IpPrefix, Vrp};
use serde_json::Value;
use std::alloc::Global;

/// The items of an array.
pub(crate) trait Entry: Copy {
    ghost use Rattle.slurm.specs.declared.fault.SlurmEntryFault.{SlurmEntryFault};

    /// What is read of a JSON value.
    ghost reads: { Data → Result Self SlurmEntryFault → Type 0 };

    /// Reads an entry.
    fn read(value: &Value) -> Result<Self, SlurmEntryFault>
        ensures { reads (view value.now) result };
}

/// The entries of an array, or the first that cannot be read.
pub(crate) fn entries<E: Entry>(
    alloc: Global,
    list: &[Value],
    array: SlurmArray,
) -> Result<Vec<E>, SlurmFault>
    ensures { UnlessMemory (ReadsEntries E.reads array (items_view list.now)) (seen (λ xs. xs.items) result) }
{
    let mut values = Vec::new(alloc);
    for (index, item) in list.iter().enumerate() {
        match E::read(item) {
            Ok(value) => {
                if values.push(value).is_err() {
                    return Err(SlurmFault::Memory);
                }
            }
            Err(why) => return Err(SlurmFault::Entry(array, index, why)),
        }
    }
    Ok(values)
}

/// Judges whether an entry is an object of this number of members.
fn know_members(value: &Value, known: usize) -> Result<(), SlurmEntryFault>
    ensures { result ≡ members_known known (total (view value.now)) }
{
    match total(value) {
        None => Err(SlurmEntryFault::NoObject),
        Some(members) if members == known => Ok(()),
        Some(_) => Err(SlurmEntryFault::OtherKey),
    }
}

/// The AS of an entry.
fn asn(value: &Value) -> Result<Asn, SlurmEntryFault>
    ensures { result ≡ asn_of (view value.now) }
{
    let Some(number) = whole(value, "asn") else {
        return Err(SlurmEntryFault::Asn);
    };
    match u32::try_from(number) {
        Ok(number) => Ok(Asn(number)),
        Err(_) => Err(SlurmEntryFault::Asn),
    }
}

/// The AS of an entry, if it has one.
fn asn_if_any(value: &Value) -> Result<Option<Asn>, SlurmEntryFault>
    ensures { result ≡ asn_if_any (view value.now) }
{
    if !has(value, "asn") {
        return Ok(None);
    }
    let asn = asn(value)?;
    Ok(Some(asn))
}

/// Judges whether the value of a key of an entry is a text.
fn know_text(value: &Value, key: &str, fault: SlurmEntryFault) -> Result<(), SlurmEntryFault>
    ensures { result ≡ text_of fault key.now (view value.now) }
{
    if text(value, key).is_some() {
        return Ok(());
    }
    Err(fault)
}

/// Judges the value of a key of an entry, if there is one.
fn know_text_if_any(value: &Value, key: &str, fault: SlurmEntryFault) -> Result<(), SlurmEntryFault>
    ensures { result ≡ text_if_any fault key.now (view value.now) }
{
    if !has(value, key) || text(value, key).is_some() {
        return Ok(());
    }
    Err(fault)
}

/// Judges the comment of an entry.
fn know_comment(value: &Value) -> Result<(), SlurmEntryFault>
    ensures { result ≡ comment_of (view value.now) }
{
    know_text_if_any(value, "comment", SlurmEntryFault::Comment)
}

/// The prefix that an entry spells.
fn prefix(value: &Value) -> Option<IpPrefix>
    ensures some { IfSome result (SpellsPrefix (view value.now)) }
    ensures one { IfSome result (λ p. (q : IpPrefix) → SpellsPrefix (view value.now) q → q ≡ p) }
    ensures none { IfNone result ((p : IpPrefix) → ¬ (SpellsPrefix (view value.now) p)) }
{
    let text = text(value, "prefix")?;
    match parse_prefix(text) {
        Ok(prefix) => Some(prefix),
        Err(_) => None,
    }
}

/// The prefix of an entry, if it has one.
fn prefix_if_any(value: &Value) -> Result<Option<IpPrefix>, SlurmEntryFault>
    ensures { ReadsPrefix (view value.now) result }
{
    if !has(value, "prefix") {
        return Ok(None);
    }
    match prefix(value) {
        Some(prefix) => Ok(Some(prefix)),
        None => Err(SlurmEntryFault::Prefix),
    }
}

/// What a filter has before its prefix.
fn filter_asn(value: &Value) -> Result<Option<Asn>, SlurmEntryFault>
    ensures { result ≡ filter_asn (view value.now) }
{
    let known = one_for(value, "prefix") + one_for(value, "asn") + one_for(value, "comment");
    know_members(value, known)?;
    if !has(value, "prefix") && !has(value, "asn") {
        return Err(SlurmEntryFault::NeitherKey);
    }
    let asn = asn_if_any(value)?;
    know_comment(value)?;
    Ok(asn)
}

/// A prefix filter (RFC 8416 section 3.3.1).
impl Entry for PrefixFilter {
    ghost use Rattle.slurm.specs.Entries.{ReadsFilter};

    ghost reads = { ReadsFilter };

    fn read(value: &Value) -> Result<PrefixFilter, SlurmEntryFault> {
        let asn = filter_asn(value)?;
        let prefix = prefix_if_any(value)?;
        Ok(PrefixFilter { prefix, asn })
    }
}

/// What an assertion has before its prefix.
fn assertion_asn(value: &Value) -> Result<Asn, SlurmEntryFault>
    ensures { result ≡ assertion_asn (view value.now) }
{
    let known = one_for(value, "asn")
        + one_for(value, "prefix")
        + one_for(value, "maxPrefixLength")
        + one_for(value, "comment");
    know_members(value, known)?;
    let asn = asn(value)?;
    know_comment(value)?;
    Ok(asn)
}

/// The maximum length of a prefix of this length: an absent one is the length.
fn max_len(value: &Value, len: u8) -> Option<u64>
    ensures { result ≡ max_len_of (view value.now) len }
{
    if !has(value, "maxPrefixLength") {
        return Some(u64::from(len));
    }
    whole(value, "maxPrefixLength")
}

/// The payload of this prefix and AS, up to the maximum length of the entry.
fn asserted(value: &Value, prefix: IpPrefix, asn: Asn) -> Option<Vrp>
    ensures some { IfSome result (λ v. (v.prefix ≡ prefix) × (v.asn ≡ asn.0) × IsMaximum (view value.now) prefix v.max_len) }
    ensures none { IfNone result ((m : ℕ) → ¬ (IsMaximum (view value.now) prefix m)) }
{
    let max_len = max_len(value, prefix.len())?;
    let Ok(max_len) = u8::try_from(max_len) else {
        return None;
    };
    match Vrp::new(prefix, max_len, asn) {
        Ok(vrp) => Some(vrp),
        Err(_) => None,
    }
}

/// A prefix assertion, as the payload that it says (RFC 8416 section 3.4.1).
impl Entry for Vrp {
    ghost use Rattle.slurm.specs.Entries.{ReadsAssertion};

    ghost reads = { ReadsAssertion };

    fn read(value: &Value) -> Result<Vrp, SlurmEntryFault> {
        let asn = assertion_asn(value)?;
        let Some(prefix) = prefix(value) else {
            return Err(SlurmEntryFault::Prefix);
        };
        match asserted(value, prefix, asn) {
            Some(vrp) => Ok(vrp),
            None => Err(SlurmEntryFault::MaxLength),
        }
    }
}

/// The AS of a filter on BGPsec, if it has one.
fn key_filter(value: &Value) -> Result<Option<Asn>, SlurmEntryFault>
    ensures { result ≡ key_filter (view value.now) }
{
    let known = one_for(value, "SKI") + one_for(value, "asn") + one_for(value, "comment");
    know_members(value, known)?;
    if !has(value, "SKI") && !has(value, "asn") {
        return Err(SlurmEntryFault::NeitherSki);
    }
    let asn = asn_if_any(value)?;
    know_comment(value)?;
    know_text_if_any(value, "SKI", SlurmEntryFault::Ski)?;
    Ok(asn)
}

/// A filter on BGPsec, which has no effect (RFC 8416 section 3.3.2), as its AS.
impl Entry for Option<Asn> {
    ghost use Rattle.slurm.specs.Entries.{ReadsKeyFilter};

    ghost reads = { ReadsKeyFilter };

    fn read(value: &Value) -> Result<Option<Asn>, SlurmEntryFault> {
        key_filter(value)
    }
}

/// The AS of an assertion on BGPsec.
fn key_assertion(value: &Value) -> Result<Asn, SlurmEntryFault>
    ensures { result ≡ key_assertion (view value.now) }
{
    let known = one_for(value, "asn")
        + one_for(value, "SKI")
        + one_for(value, "routerPublicKey")
        + one_for(value, "comment");
    know_members(value, known)?;
    let asn = asn(value)?;
    know_comment(value)?;
    know_text(value, "SKI", SlurmEntryFault::Ski)?;
    know_text(value, "routerPublicKey", SlurmEntryFault::RouterPublicKey)?;
    Ok(asn)
}

/// An assertion on BGPsec, which has no effect (RFC 8416 section 3.4.2), as its AS.
impl Entry for Asn {
    ghost use Rattle.slurm.specs.Entries.{ReadsKeyAssertion};

    ghost reads = { ReadsKeyAssertion };

    fn read(value: &Value) -> Result<Asn, SlurmEntryFault> {
        key_assertion(value)
    }
}
