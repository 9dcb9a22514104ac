//! The entries of an export.
ghost use Rattle.std.specs.Prelude.{◌≡◌, ℕ, ◌≤◌, Some, IfSome, IfNone, IfOk, IfErr};
ghost use Rattle.prefixes.specs.Payload.{block_of, width_of};
ghost use Rattle.prefixes.specs.declared.prefix.IpPrefix.{IpPrefix as Prefix};
ghost use Rattle.exports.specs.Entry.{SaysAsn, SaysEntry, SaysFault, SaysPrefix};
ghost use Rattle.exports.specs.Gathering.{said_by};

use crate::fault::EntryFault;
use prefix_texts::{parse_asn, parse_prefix};
use prefixes::{Asn, IpPrefix, Vrp};

/// What an entry lists: a payload, and its expiry in seconds since 1970, if it has one.
#[derive(Clone, Copy, Debug)]
pub struct ExportEntry {
    pub(crate) payload: Vrp,
    pub(crate) expires: Option<u64>,
}

/// What was found in an entry: under each key its whole number or its text, if it has one. The value of `expires` may
/// be no whole number. The text `ta` names a trust anchor.
#[derive(Clone, Copy, Debug)]
pub struct RawEntry<'a> {
    pub(crate) asn_number: Option<u64>,
    pub(crate) asn_text: Option<&'a str>,
    pub(crate) prefix: Option<&'a str>,
    pub(crate) max_len: Option<u64>,
    pub(crate) expires: Option<Option<u64>>,
    pub(crate) ta: Option<&'a str>,
}

/// The AS number of an entry.
fn asn(found: &RawEntry<'_>) -> Option<u32>
    ensures some { IfSome result (λ n. SaysAsn (said_by found.now) n) }
    ensures none { IfNone result ((n : ℕ) → ¬ (SaysAsn (said_by found.now) n)) }
{
    if let Some(count) = found.asn_number {
        return match u32::try_from(count) {
            Ok(asn) => Some(asn),
            Err(_) => None,
        };
    }
    match parse_asn(found.asn_text?) {
        Some(asn) => Some(asn.0),
        None => None,
    }
}

/// The prefix of an entry.
fn prefix(found: &RawEntry<'_>) -> Option<IpPrefix>
    ensures some { IfSome result (λ p. SaysPrefix (said_by found.now) p) }
    ensures none { IfNone result ((p : Prefix) → ¬ (SaysPrefix (said_by found.now) p)) }
{
    match parse_prefix(found.prefix?) {
        Ok(prefix) => Some(prefix),
        Err(_) => None,
    }
}

/// The payload of these, if the maximum is a number that suits the prefix.
fn payload(prefix: IpPrefix, max_len: Option<u64>, asn: u32) -> Option<Vrp>
    ensures some { IfSome result (λ v. (v.prefix ≡ prefix) × (v.asn ≡ asn) × (max_len ≡ Some v.max_len) × ((block_of prefix).len ≤ v.max_len) × (v.max_len ≤ width_of prefix)) }
    ensures none { IfNone result ((m : ℕ) → max_len ≡ Some m → (block_of prefix).len ≤ m → m ≤ width_of prefix → ⊥) }
{
    let Ok(max_len) = u8::try_from(max_len?) else {
        return None;
    };
    match Vrp::new(prefix, max_len, Asn(asn)) {
        Ok(vrp) => Some(vrp),
        Err(_) => None,
    }
}

/// What an entry lists, or what is wrong first with what was found in it.
pub(crate) fn judged(found: &RawEntry<'_>) -> Result<ExportEntry, EntryFault>
    ensures ok { IfOk result (λ e. SaysEntry (said_by found.now) e) }
    ensures fault { IfErr result (λ w. SaysFault (said_by found.now) w) }
{
    let Some(asn) = asn(found) else {
        return Err(EntryFault::Asn);
    };
    let Some(prefix) = prefix(found) else {
        return Err(EntryFault::Prefix);
    };
    let Some(payload) = payload(prefix, found.max_len, asn) else {
        return Err(EntryFault::MaxLength);
    };
    match found.expires {
        None => Ok(ExportEntry {
            payload,
            expires: None,
        }),
        Some(Some(second)) => Ok(ExportEntry {
            payload,
            expires: Some(second),
        }),
        Some(None) => Err(EntryFault::Expires),
    }
}
