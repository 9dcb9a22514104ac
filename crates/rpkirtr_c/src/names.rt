//! Names of states, links, ends and faults, as texts for C.
ghost use Rattle.std.specs.Prelude.{◌≡◌, ◌<◌, length, codes, IfSome, IfNone};
ghost use Rattle.payloads.specs.Faults.{kind_number};
ghost use Rattle.payloads.specs.declared.fault.GrammarFaultKind.{GrammarFaultKind as Kinds};
ghost use Rattle.rpkirtr_c.specs.Answers.{number};
ghost use Rattle.rpkirtr_c.specs.Names.{IsNamed, element_name, end_name, fault_name, link_name, link_number};
ghost use Rattle.rpkirtr_c.specs.Spelled.{state_number};
ghost use Rattle.rpkirtr_c.specs.declared.call_status.CallStatus.TheVariants.{Done};
ghost use Rattle.rtr_ends.specs.RouterLink.{end_number};
ghost use Rattle.rtr_ends.specs.declared.link.End.{End as Ends};
ghost use Rattle.rtr_ends.specs.declared.link.Link.{Link as Links};
ghost use Rattle.vrps.specs.Origin.{state_text};
ghost use Rattle.vrps.specs.declared.origin.OriginState.{OriginState as States};

use crate::call_status::CallStatus;
use crate::texts::{CText, in_room};
use der_lite::DerFaultKind;
use payloads::GrammarFaultKind;
use rtr_ends::{End, Link};
use vrps::OriginState;

/// The state of this number, if there is one.
fn state_of(code: i32) -> Option<OriginState>
    ensures some { IfSome result (λ s. state_number s ≡ code) }
    ensures none { IfNone result ((s : States) → ¬ (state_number s ≡ code)) }
{
    match code {
        0 => Some(OriginState::NotFound),
        1 => Some(OriginState::Valid),
        2 => Some(OriginState::Invalid),
        _ => None,
    }
}

/// The name of a state.
fn state_name(state: OriginState) -> &'static [u8]
    ensures text { result.now ≡ state_text state }
    ensures short { length result.now < 64 }
{
    match state {
        OriginState::NotFound => b"not-found",
        OriginState::Valid => b"valid",
        OriginState::Invalid => b"invalid",
    }
}

/// A link of this number, if there is one.
fn link_of(code: u8) -> Option<Link>
    ensures some { IfSome result (λ l. link_number l ≡ code) }
    ensures none { IfNone result ((l : Links) → ¬ (link_number l ≡ code)) }
{
    match code {
        0 => Some(Link::Closed),
        1 => Some(Link::Idle),
        2 => Some(Link::Asked),
        3 => Some(Link::Answering),
        4 => Some(Link::Ended(End::Memory)),
        _ => None,
    }
}

/// The name of a link.
fn link_name(link: Link) -> &'static [u8]
    ensures text { result.now ≡ link_name link }
    ensures short { length result.now < 64 }
{
    match link {
        Link::Closed => b"closed",
        Link::Idle => b"idle",
        Link::Asked => b"asked",
        Link::Answering => b"answering",
        Link::Ended(_) => b"ended",
    }
}

/// An end of this number, if there is one.
fn end_of(code: u8) -> Option<End>
    ensures some { IfSome result (λ e. end_number e ≡ code) }
    ensures none { IfNone result ((e : Ends) → ¬ (end_number e ≡ code)) }
{
    match code {
        1 => Some(End::Reported(0)),
        2 => Some(End::Told(0)),
        3 => Some(End::Malformed),
        4 => Some(End::Memory),
        5 => Some(End::Expired),
        6 => Some(End::TooMany),
        _ => None,
    }
}

/// The name of an end.
fn end_name(end: End) -> &'static [u8]
    ensures text { result.now ≡ end_name end }
    ensures short { length result.now < 64 }
{
    match end {
        End::Reported(_) => b"the cache was sent an Error Report",
        End::Told(_) => b"the cache sent an Error Report",
        End::Malformed => b"the cache sent a malformed Error Report",
        End::Memory => b"out of memory",
        End::Expired => b"the committed version expired",
        End::TooMany => b"the answer has more than 16777215 records",
    }
}

/// The kind of fault of this number, if there is one.
fn kind_of(code: u32) -> Option<GrammarFaultKind>
    ensures some { IfSome result (λ k. kind_number k ≡ code) }
    ensures none { IfNone result ((k : Kinds) → ¬ (kind_number k ≡ code)) }
{
    match code {
        1 => Some(GrammarFaultKind::Element(DerFaultKind::Truncated)),
        2 => Some(GrammarFaultKind::Element(DerFaultKind::WrongTag)),
        3 => Some(GrammarFaultKind::Element(DerFaultKind::BadLength)),
        4 => Some(GrammarFaultKind::Element(DerFaultKind::BadContent)),
        5 => Some(GrammarFaultKind::Element(DerFaultKind::Trailing)),
        6 => Some(GrammarFaultKind::VersionPresent),
        7 => Some(GrammarFaultKind::AsnRange),
        8 => Some(GrammarFaultKind::Family),
        9 => Some(GrammarFaultKind::Empty),
        10 => Some(GrammarFaultKind::PrefixTooLong),
        11 => Some(GrammarFaultKind::MaxLength),
        12 => Some(GrammarFaultKind::Order),
        13 => Some(GrammarFaultKind::NumberRange),
        14 => Some(GrammarFaultKind::TimesOrder),
        15 => Some(GrammarFaultKind::HashAlg),
        16 => Some(GrammarFaultKind::Name),
        17 => Some(GrammarFaultKind::HashLength),
        18 => Some(GrammarFaultKind::NameTwice),
        19 => Some(GrammarFaultKind::TooMany),
        20 => Some(GrammarFaultKind::MaxLengthSuperfluous),
        _ => None,
    }
}

/// The name of what is wrong with an element.
fn element_name(kind: DerFaultKind) -> &'static [u8]
    ensures text { result.now ≡ element_name kind }
    ensures short { length result.now < 64 }
{
    match kind {
        DerFaultKind::Truncated => b"an element is longer than what holds it",
        DerFaultKind::WrongTag => b"another element was expected",
        DerFaultKind::BadLength => b"a length is indefinite, or not in its shortest form",
        DerFaultKind::BadContent => b"the content of an element is not valid",
        DerFaultKind::Trailing => b"bytes remain",
    }
}

/// The name of a kind of fault.
fn fault_name(kind: GrammarFaultKind) -> &'static [u8]
    ensures text { result.now ≡ fault_name kind }
    ensures short { length result.now < 64 }
{
    match kind {
        GrammarFaultKind::Element(kind) => element_name(kind),
        GrammarFaultKind::VersionPresent => b"a version is encoded, which may only be left out",
        GrammarFaultKind::AsnRange => b"the AS number is negative or greater than 4294967295",
        GrammarFaultKind::Family => {
            b"the address family is neither IPv4 nor IPv6, or it occurs twice"
        }
        GrammarFaultKind::Empty => b"no address family, or a family without addresses",
        GrammarFaultKind::PrefixTooLong => b"the prefix is longer than an address of its family",
        GrammarFaultKind::MaxLength => b"the maximum length is out of its range",
        GrammarFaultKind::Order => b"the entries are not in strictly ascending order",
        GrammarFaultKind::NumberRange => {
            b"the manifest number is negative, or longer than 20 octets"
        }
        GrammarFaultKind::TimesOrder => b"nextUpdate is not later than thisUpdate",
        GrammarFaultKind::HashAlg => b"the hash algorithm is not SHA-256",
        GrammarFaultKind::Name => b"not a file name of a manifest",
        GrammarFaultKind::HashLength => b"a hash is not 256 bits long",
        GrammarFaultKind::NameTwice => b"a file name occurs twice",
        GrammarFaultKind::TooMany => b"more than 65536 entries or files",
        GrammarFaultKind::MaxLengthSuperfluous => b"the maximum length equals the prefix length",
    }
}

/// Writes the name of the state of a route: `not-found` for 0, `valid` for 1, `invalid` for 2. Any other number gives `no such state`. Returns
/// the number of `CallStatus::Done`.
#[unsafe(no_mangle)]
pub extern "C" fn rpkirtr_state_name(state: i32, text: &mut CText) -> i32
    ensures text { IsNamed state_number state_text (codes "no such state") state text.new }
    ensures answer { result ≡ number Done }
{
    *text = match state_of(state) {
        None => in_room(b"no such state"),
        Some(found) => in_room(state_name(found)),
    };
    CallStatus::Done.number()
}

/// Writes the name of the state of a link: `closed` for 0, `idle` for 1, `asked` for 2, `answering` for 3, `ended` for 4. Any other number gives
/// `no such link`. Returns the number of `CallStatus::Done`.
#[unsafe(no_mangle)]
pub extern "C" fn rpkirtr_link_name(link: u8, text: &mut CText) -> i32
    ensures text { IsNamed link_number link_name (codes "no such link") link text.new }
    ensures answer { result ≡ number Done }
{
    *text = match link_of(link) {
        None => in_room(b"no such link"),
        Some(found) => in_room(link_name(found)),
    };
    CallStatus::Done.number()
}

/// Writes in English how a link ended, by the number of the end, 1 to 6. The code of its Error Report is not in the text. Any other number gives
/// `no such end`. Returns the number of `CallStatus::Done`.
#[unsafe(no_mangle)]
pub extern "C" fn rpkirtr_end_name(end: u8, text: &mut CText) -> i32
    ensures text { IsNamed end_number end_name (codes "no such end") end text.new }
    ensures answer { result ≡ number Done }
{
    *text = match end_of(end) {
        None => in_room(b"no such end"),
        Some(found) => in_room(end_name(found)),
    };
    CallStatus::Done.number()
}

/// Writes in English what is at fault in a payload, by the number of the fault, 1 to 20. Any other number gives `no such fault`. Returns the
/// number of `CallStatus::Done`.
#[unsafe(no_mangle)]
pub extern "C" fn rpkirtr_fault_name(fault: u32, text: &mut CText) -> i32
    ensures text { IsNamed kind_number fault_name (codes "no such fault") fault text.new }
    ensures answer { result ≡ number Done }
{
    *text = match kind_of(fault) {
        None => in_room(b"no such fault"),
        Some(found) => in_room(fault_name(found)),
    };
    CallStatus::Done.number()
}
