//! The validity of a route, as JSON.
ghost use Rattle.std.specs.Prelude.{◌≡◌, OnOk};
ghost use Rattle.std.specs.Io.KnownBytes.{Appends};
ghost use Rattle.std.specs.List.{flat_map};
ghost use Rattle.status_pages.specs.Kinds.{has_origin};
ghost use Rattle.status_pages.specs.ValidityText.{TellsValidity, after_comma, beginning, description, ending, joined_vrps, judged_text, last_list, listed, lists_text};
ghost use Rattle.status_pages.specs.ValidityText.{middle, origin_text, prefix_text, reason_text, route_text, state_text, state_word, validity_text, vrp_text, vrps_text};

use crate::validity::{Validity, is_origin};
use event_log::time_at;
use prefixes::{IpPrefix, Route, Vrp};
use std::io::{self, Write};
use vrps::OriginState;

/// Writes a record.
#[tactic(auto, unfolding(crate::specs::ValidityText::vrp_text))]
fn write_vrp<W: Write>(out: &mut W, vrp: &Vrp) -> io::Result<()>
    ensures { OnOk result (Appends (W.contents out.old) (W.contents out.new) (vrp_text vrp.now)) }
{
    let (asn, prefix, max_len) = (vrp.asn(), vrp.prefix(), vrp.max_len());
    write!(
        out,
        "{{\"asn\":\"AS{asn}\",\"prefix\":\"{prefix}\",\"max_length\":\"{max_len}\"}}"
    )
}

/// Writes a comma and a record.
fn write_after_comma<W: Write>(out: &mut W, vrp: &Vrp) -> io::Result<()>
    ensures { OnOk result (Appends (W.contents out.old) (W.contents out.new) (after_comma vrp.now)) }
{
    out.write_all(b",")?;
    write_vrp(out, vrp)
}

/// Writes records, each after a comma.
fn write_more<W: Write>(out: &mut W, records: &[Vrp]) -> io::Result<()>
    ensures { OnOk result (Appends (W.contents out.old) (W.contents out.new) (flat_map after_comma records.now)) }
{
    for vrp in records {
        write_after_comma(out, vrp)?;
    }
    Ok(())
}

/// Writes records, separated by commas.
fn write_joined<W: Write>(out: &mut W, records: &[Vrp]) -> io::Result<()>
    ensures { OnOk result (Appends (W.contents out.old) (W.contents out.new) (joined_vrps records.now)) }
{
    let Some((first, others)) = records.split_first() else {
        return Ok(());
    };
    write_vrp(out, first)?;
    write_more(out, others)
}

/// Writes records as an array.
#[tactic(auto, unfolding(crate::specs::ValidityText::vrps_text))]
fn write_vrps<W: Write>(out: &mut W, records: &[Vrp]) -> io::Result<()>
    ensures { OnOk result (Appends (W.contents out.old) (W.contents out.new) (vrps_text records.now)) }
{
    out.write_all(b"[")?;
    write_joined(out, records)?;
    out.write_all(b"]")
}

/// Writes the origin of a route.
#[tactic(auto, unfolding(crate::specs::ValidityText::origin_text))]
fn write_origin<W: Write>(out: &mut W, origin: Option<u32>) -> io::Result<()>
    ensures { OnOk result (Appends (W.contents out.old) (W.contents out.new) (origin_text origin)) }
{
    match origin {
        None => out.write_all(b"NONE"),
        Some(asn) => write!(out, "AS{asn}"),
    }
}

/// Writes the prefix of a route.
#[tactic(auto, unfolding(crate::specs::ValidityText::prefix_text))]
fn write_prefix<W: Write>(out: &mut W, prefix: &IpPrefix) -> io::Result<()>
    ensures { OnOk result (Appends (W.contents out.old) (W.contents out.new) (prefix_text prefix.now)) }
{
    write!(out, "\",\"prefix\":\"{prefix}\"}}")
}

/// Writes a route.
#[tactic(auto, unfolding(crate::specs::ValidityText::route_text))]
fn write_route<W: Write>(out: &mut W, route: &Route) -> io::Result<()>
    ensures { OnOk result (Appends (W.contents out.old) (W.contents out.new) (route_text route.now)) }
{
    out.write_all(b"{\"origin_asn\":\"")?;
    write_origin(out, route.origin)?;
    write_prefix(out, &route.prefix)
}

/// The word for a state.
fn word_of(state: OriginState) -> &'static str
    ensures { result.now ≡ state_word state }
{
    match state {
        OriginState::Valid => "valid",
        OriginState::Invalid => "invalid",
        OriginState::NotFound => "not-found",
    }
}

/// The reason of an invalid route, as a member of the object.
fn reason_of(state: OriginState, is_too_long: bool) -> &'static str
    ensures { result.now ≡ reason_text state is_too_long }
{
    match state {
        OriginState::Valid | OriginState::NotFound => "",
        OriginState::Invalid => if is_too_long {
            "\"reason\":\"length\","
        } else {
            "\"reason\":\"as\","
        },
    }
}

/// The description of a state.
fn description_of(state: OriginState, is_too_long: bool) -> &'static str
    ensures { result.now ≡ description state is_too_long }
{
    match state {
        OriginState::Valid => "At least one VRP Matches the Route Prefix",
        OriginState::NotFound => "No VRP Covers the Route Prefix",
        OriginState::Invalid => if is_too_long {
            "At least one VRP Covers the Route Prefix, but the Route Prefix length is greater than the maximum length allowed by VRP(s) matching this route origin ASN"
        } else {
            "At least one VRP Covers the Route Prefix, but no VRP ASN matches the route origin ASN"
        },
    }
}

/// Writes a state, with its reason and its description.
#[tactic(auto, unfolding(crate::specs::ValidityText::state_text))]
fn write_state<W: Write>(out: &mut W, state: OriginState, is_too_long: bool) -> io::Result<()>
    ensures { OnOk result (Appends (W.contents out.old) (W.contents out.new) (state_text state is_too_long)) }
{
    let word = word_of(state);
    let reason = reason_of(state, is_too_long);
    let description = description_of(state, is_too_long);
    write!(
        out,
        "{{\"state\":\"{word}\",{reason}\"description\":\"{description}\""
    )
}

/// Writes records under a key.
#[tactic(auto, unfolding(crate::specs::ValidityText::listed))]
fn write_listed<W: Write>(out: &mut W, key: &str, records: &[Vrp]) -> io::Result<()>
    ensures { OnOk result (Appends (W.contents out.old) (W.contents out.new) (listed key.now records.now)) }
{
    out.write_all(key.as_bytes())?;
    write_vrps(out, records)
}

/// Writes the last of the three lists.
#[tactic(auto, unfolding(crate::specs::ValidityText::last_list))]
fn write_last_list<W: Write>(out: &mut W, too_short: &[Vrp]) -> io::Result<()>
    ensures { OnOk result (Appends (W.contents out.old) (W.contents out.new) (last_list too_short.now)) }
{
    write_listed(out, ",\"unmatched_length\":", too_short)?;
    out.write_all(b"}}")
}

/// Writes the three lists.
#[tactic(auto, unfolding(crate::specs::ValidityText::lists_text))]
fn write_lists<W: Write>(
    out: &mut W,
    matched: &[Vrp],
    other_as: &[Vrp],
    too_short: &[Vrp],
) -> io::Result<()>
    ensures { OnOk result (Appends (W.contents out.old) (W.contents out.new) (lists_text matched.now other_as.now too_short.now)) }
{
    write_listed(out, ",\"VRPs\":{\"matched\":", matched)?;
    write_listed(out, ",\"unmatched_as\":", other_as)?;
    write_last_list(out, too_short)
}

/// Whether one of these records is of the route's origin.
fn has_origin(route: &Route, records: &[Vrp]) -> bool
    ensures { result ≡ has_origin route.now records.now }
{
    records.iter().any(|vrp| is_origin(route.origin, vrp.asn()))
}

/// Writes the validity.
#[tactic(auto, unfolding(crate::specs::ValidityText::judged_text))]
fn write_judged<W: Write>(
    out: &mut W,
    route: &Route,
    state: OriginState,
    matched: &[Vrp],
    other_as: &[Vrp],
    too_short: &[Vrp],
) -> io::Result<()>
    ensures { OnOk result (Appends (W.contents out.old) (W.contents out.new) (judged_text route.now state matched.now other_as.now too_short.now)) }
{
    write_state(out, state, has_origin(route, too_short))?;
    write_lists(out, matched, other_as, too_short)
}

/// Writes the start: the route.
#[tactic(auto, unfolding(crate::specs::ValidityText::beginning))]
fn write_beginning<W: Write>(out: &mut W, route: &Route) -> io::Result<()>
    ensures { OnOk result (Appends (W.contents out.old) (W.contents out.new) (beginning route.now)) }
{
    out.write_all(b"{\"validated_route\":{\"route\":")?;
    write_route(out, route)?;
    out.write_all(b",\"validity\":")
}

/// Writes the middle: the validity of the route.
#[tactic(auto, unfolding(crate::specs::ValidityText::middle))]
fn write_middle<W: Write>(out: &mut W, route: &Route, validity: &Validity) -> io::Result<()>
    ensures { OnOk result (Appends (W.contents out.old) (W.contents out.new) (middle route.now validity.now)) }
{
    write_judged(
        out,
        route,
        validity.state,
        &validity.matched,
        &validity.unmatched_as,
        &validity.unmatched_length,
    )
}

/// Writes the end: the time.
#[tactic(auto, unfolding(crate::specs::ValidityText::ending))]
fn write_ending<W: Write>(out: &mut W, time: &[u8]) -> io::Result<()>
    ensures { OnOk result (Appends (W.contents out.old) (W.contents out.new) (ending time.now)) }
{
    out.write_all(b"},\"generatedTime\":\"")?;
    out.write_all(time)?;
    out.write_all(b"\"}")
}

/// Writes the whole object, at a time.
#[tactic(auto, unfolding(crate::specs::ValidityText::validity_text))]
fn write_validity_at<W: Write>(
    out: &mut W,
    route: &Route,
    validity: &Validity,
    time: &[u8],
) -> io::Result<()>
    ensures { OnOk result (Appends (W.contents out.old) (W.contents out.new) (validity_text route.now validity.now time.now)) }
{
    write_beginning(out, route)?;
    write_middle(out, route, validity)?;
    write_ending(out, time)
}

/// Writes the validity of a route as JSON in the format of Routinator's `/api/v1/validity`, compact and without a newline. `now` is the time
/// that the JSON states, in seconds since 1970. `Err`: the writer failed.
pub fn write_validity<W: Write>(
    out: &mut W,
    route: &Route,
    validity: &Validity,
    now: u64,
) -> io::Result<()>
    ensures { OnOk result (TellsValidity (W.contents out.old) (W.contents out.new) route.now validity.now now) }
{
    let time = time_at(now);
    write_validity_at(out, route, validity, &time)
}
