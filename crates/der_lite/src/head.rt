//! The tag and the length of an element.

ghost use Rattle.der_lite.specs.Cursors.{Split};

use crate::DerFaultKind;
use crate::length::{announced, is_length, told};

/// Where an element's length ends and where its content does, in bytes from the element's first.
#[derive(Clone, Copy)]
pub(crate) struct Head {
    pub(crate) length_end: usize,
    pub(crate) content_end: usize,
}

/// The head of the element of this tag with which the bytes begin, or what is wrong with it.
#[tactic(auto, unfolding(crate::specs::Der::head_rules, crate::specs::Der::is_truncated, crate::specs::Der::has_der_length, crate::specs::Der::length_end, crate::specs::Der::content_end))]
pub(crate) fn read_head(tag: u8, bytes: &[u8]) -> Result<Head, DerFaultKind>
    ensures { Split result tag bytes.now }
{
    let [found, first, behind @ ..] = bytes else {
        return Err(DerFaultKind::Truncated);
    };
    let count = announced(*first);
    if behind.len() < count {
        return Err(DerFaultKind::Truncated);
    }
    let more = &behind[..count];
    let is_spelled = is_length(*first, more);
    let length_end = 2 + count;
    let content_end = length_end + told(*first, more);
    if is_spelled && bytes.len() < content_end {
        return Err(DerFaultKind::Truncated);
    }
    if *found != tag {
        return Err(DerFaultKind::WrongTag);
    }
    if !is_spelled {
        return Err(DerFaultKind::BadLength);
    }
    Ok(Head {
        length_end,
        content_end,
    })
}
