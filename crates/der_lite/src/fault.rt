//! What can be wrong with an element.

ghost use Rattle.std.specs.Prelude.{◌≡◌};
ghost use Rattle.der_lite.specs.Cursors.{der_kind_number};

use thiserror::Error;

/// What is wrong with an element. Each kind has a fixed number, with which its error text ends.
#[derive(Clone, Copy, Debug, PartialEq, Eq, Error)]
pub enum DerFaultKind {
    /// 1: the tag, the length or the content does not end before the end of the enclosing element.
    #[error("truncated: the element does not end before the enclosing one (fault 1)")]
    Truncated,
    /// 2: the element has another tag than the expected one (X.690 section 8.1.2).
    #[error("an element of another tag stands here (fault 2)")]
    WrongTag,
    /// 3: the length is indefinite, has more than four bytes, or is not in the fewest bytes
    /// (X.690 sections 8.1.3 and 10.1).
    #[error("the length is indefinite, has more than four bytes, or is not in the fewest bytes (fault 3)")]
    BadLength,
    /// 4: the content breaks the rules of the element's type.
    #[error("the content is not one of this type (fault 4)")]
    BadContent,
    /// 5: bytes remain at the place at which the enclosing element should end.
    #[error("trailing bytes where the enclosing element should end (fault 5)")]
    Trailing,
}

impl DerFaultKind {
    /// The number of the kind, 1 to 5.
    pub fn number(self) -> u8
        ensures { result ≡ der_kind_number self }
    {
        match self {
            DerFaultKind::Truncated => 1,
            DerFaultKind::WrongTag => 2,
            DerFaultKind::BadLength => 3,
            DerFaultKind::BadContent => 4,
            DerFaultKind::Trailing => 5,
        }
    }
}

/// What is wrong with an element, and the offset of the element.
#[derive(Clone, Copy, Debug, PartialEq, Eq, Error)]
#[error("at byte {offset}: {kind}")]
pub struct DerFault {
    /// What is wrong.
    pub kind: DerFaultKind,
    /// The offset of the element's first byte, in bytes from the start of the whole payload.
    /// For `Trailing` it is the offset of the first byte that remains.
    pub offset: usize,
}

impl DerFault {
    /// The number of the fault's kind, 1 to 5.
    pub fn number(&self) -> u8
        ensures { result ≡ der_kind_number self.now.kind }
    {
        self.kind.number()
    }
}

/// Error: a text is not a date and time of the years 1970 to 9999 in the form `YYYYMMDDHHMMSSZ`.
#[derive(Clone, Copy, Debug, PartialEq, Eq, Error)]
#[error("not a date and time of the years 1970 to 9999 in UTC, written YYYYMMDDHHMMSSZ")]
pub struct MomentFault;
