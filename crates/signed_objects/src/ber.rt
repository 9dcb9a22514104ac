//! Elements in BER, written anew in DER (X.690 sections 8.1 and 10.1).

ghost use Rattle.std.specs.Prelude.{◌≤◌, suc};
ghost use Rattle.der_lite.specs.Place.{Place};
ghost use Rattle.signed_objects.specs.PartReading.{end_of, up_to};
ghost use Rattle.signed_objects.specs.BerReading.{GivesOctets, contents_at, written_at, element_in};
ghost use Rattle.signed_objects.specs.BerObjects.{ReadsBer};

use crate::ber_cursor::BerCursor;
use crate::ber_head::{Head, read_head};
use crate::form::{Form, der_tag};
use crate::{CmsFaultKind, ObjectFault};
use der_lite::{DerFaultKind, DerWriter};
use std::alloc::Global;

/// The elements up to an end, written one after the other.
#[cycle(ber)]
#[tactic(auto, using(crate::proofs::Going::going_begin, crate::proofs::Going::going_on, crate::proofs::Going::going_out, crate::proofs::Going::members_wrong, crate::proofs::Going::element_shorter))]
fn members(
    alloc: Global,
    levels: u8,
    form: Form,
    is_closed: bool,
    cursor: &mut BerCursor,
) -> Result<Vec<u8>, ObjectFault>
    requires { levels ≤ 16 }
    ensures { GivesOctets (λ v. v.items) result cursor.new (up_to (end_of is_closed) (element_in levels form) cursor.old) }
{
    let mut out = Vec::new(alloc);
    while !cursor.ends(is_closed) {
        let written = element(alloc, levels, form, cursor)?;
        out.extend_from_slice(&written)?;
    }
    Ok(out)
}

/// The contents of an element: as they are, or its elements written.
#[cycle(ber)]
#[tactic(auto, using(crate::proofs::BerSteps::closed_read, crate::proofs::BerSteps::closed_wrong, crate::proofs::BerSteps::unclosed, crate::proofs::BerSteps::cut_short, crate::proofs::BerSteps::taken_read, crate::proofs::BerSteps::filled_read, crate::proofs::BerSteps::filled_wrong))]
fn contents(
    alloc: Global,
    levels: u8,
    form: Form,
    is_taken: bool,
    length: Option<usize>,
    at: usize,
    cursor: &mut BerCursor,
) -> Result<Vec<u8>, ObjectFault>
    requires { levels ≤ 16 }
    ensures { GivesOctets (λ v. v.items) result cursor.new (contents_at is_taken length (element_in levels form) at cursor.old) }
{
    let Some(count) = length else {
        let content = members(alloc, levels, form, true, cursor)?;
        let _end = cursor.octets(at, 2)?;
        return Ok(content);
    };
    let mut inner = cursor.enclosed(at, count)?;
    if is_taken {
        return Ok(inner.remaining().to_vec(alloc)?);
    }
    members(alloc, levels, form, false, &mut inner)
}

/// What is written of an element with this head and content.
fn written(
    alloc: Global,
    form: Form,
    head: &Head,
    at: usize,
    content: Vec<u8>,
) -> Result<Vec<u8>, ObjectFault>
    ensures { (p : Place) → GivesOctets (λ v. v.items) result p (written_at form head.now.own.now head.now.tag content.items at p) }
{
    match form {
        Form::Piece => Ok(content),
        Form::Der => {
            let mut out = head.own.to_vec(alloc)?;
            out.extend_from_slice(&content)?;
            Ok(out)
        }
        Form::Member => {
            if content.len() >= 4294967296 {
                return Err(ObjectFault::At(CmsFaultKind::LongContent.at(at)));
            }
            let mut out = DerWriter::new(alloc);
            out.tagged(der_tag(head.tag), &content)?;
            Ok(out.into_bytes())
        }
    }
}

/// The element here, written. This many levels are allowed inside it.
#[cycle(ber)]
#[tactic(auto, unfolding(crate::specs::BerReading::element_in, crate::specs::BerReading::body_at))]
fn level(
    alloc: Global,
    levels: u8,
    form: Form,
    cursor: &mut BerCursor,
) -> Result<Vec<u8>, ObjectFault>
    requires { levels ≤ 15 }
    ensures { GivesOctets (λ v. v.items) result cursor.new (element_in (suc levels) form cursor.old) }
{
    let at = cursor.offset();
    let head = read_head(cursor, form, at)?;
    let inside = form.inside(15 - levels, head.tag);
    let taken = form.takes(head.tag);
    let content = contents(alloc, levels, inside, taken, head.length, at, cursor)?;
    written(alloc, form, &head, at, content)
}

/// The element here, written. This many levels are allowed, itself among them.
#[cycle(ber)]
#[tactic(auto, using(crate::proofs::Going::of_level), unfolding(crate::specs::BerReading::element_in))]
fn element(
    alloc: Global,
    levels: u8,
    form: Form,
    cursor: &mut BerCursor,
) -> Result<Vec<u8>, ObjectFault>
    requires { levels ≤ 16 }
    ensures { GivesOctets (λ v. v.items) result cursor.new (element_in levels form cursor.old) }
{
    if levels == 0 {
        return Err(ObjectFault::At(CmsFaultKind::TooDeep.at(cursor.offset())));
    }
    level(alloc, levels - 1, form, cursor)
}

/// Rewrites one element from BER to DER lengths: definite, and as short as possible. OCTET STRINGs in pieces become primitive.
/// Nothing else is changed: the order stays, and the certificates and the signed attributes of SignedData are copied.
/// `Err(At)`: the first fault. Bytes after the element are a fault, and so is an element inside more than 15 others. `Err(Memory)`: memory ran
/// out.
pub fn to_der(alloc: Global, bytes: &[u8]) -> Result<Vec<u8>, ObjectFault>
    ensures { ReadsBer (λ v. v.items) result bytes.now }
{
    let mut cursor = BerCursor::new(bytes);
    let der = element(alloc, 16, Form::Member, &mut cursor)?;
    if !cursor.ends(false) {
        let kind = CmsFaultKind::Element(DerFaultKind::Trailing);
        return Err(ObjectFault::At(kind.at(cursor.offset())));
    }
    Ok(der)
}
