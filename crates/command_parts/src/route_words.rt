//! Routes on the command line, and their states as text.
ghost use Rattle.std.specs.Prelude.{◌≡◌, ℕ, IfNone, IfSome, Option};
ghost use Rattle.prefixes.specs.declared.route.Route.{Route};
ghost use Rattle.command_parts.specs.RouteWords.{OriginText, RouteText, state_word};

use prefixes::{Asn, IpPrefix, Route};
use vrps::OriginState;

/// Parses a route: a prefix such as `192.0.2.0/24`, and an origin, which is an AS number without `AS` or `none`.
/// `None`: one of them does not parse.
pub fn read_route(prefix: &str, origin: &str) -> Option<Route>
    ensures some { IfSome result (λ route. RouteText route prefix.now origin.now) }
    ensures none { IfNone result ((route : Route) → ¬ (RouteText route prefix.now origin.now)) }
{
    let Ok(prefix) = IpPrefix::parse(prefix) else {
        return None;
    };
    let origin = read_origin(origin)?;
    Some(Route { prefix, origin })
}

/// The origin of a word.
fn read_origin(word: &str) -> Option<Option<u32>>
    ensures some { IfSome result (λ origin. OriginText origin word.now) }
    ensures none { IfNone result ((origin : Option ℕ) → ¬ (OriginText origin word.now)) }
{
    if word == "none" {
        return Some(None);
    }
    match Asn::parse(word) {
        Ok(asn) => Some(Some(asn.0)),
        Err(_) => None,
    }
}

/// The origin validation state as text: `valid`, `invalid` or `not-found` (RFC 6811 section 2).
pub fn word_of(state: OriginState) -> &'static str
    ensures { result.now ≡ state_word state }
{
    match state {
        OriginState::Valid => "valid",
        OriginState::Invalid => "invalid",
        OriginState::NotFound => "not-found",
    }
}
