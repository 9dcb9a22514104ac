//! The reason why a text is not JSON, and its position.
use crate::numbers::scalar_number;
use crate::streaming::NESTING;
use json::{Reader, Scratch, Token};
use json_texts::{Position, cut_text};
use std::alloc::{AllocError, Global};

/// The arrays and objects that are open at a place of a text, and what may follow there.
#[derive(Debug, Drop)]
struct Open {
    /// Whether each of them is an object, the innermost one last.
    objects: Vec<bool>,
    /// A name was read, and its value comes next.
    is_named: bool,
    /// The value of the whole text was read.
    is_over: bool,
}

impl Open {
    /// Nothing was read.
    fn new(alloc: Global) -> Open {
        Open {
            objects: Vec::new(alloc),
            is_named: false,
            is_over: false,
        }
    }

    /// Whether the innermost one is an object, if one is open.
    fn innermost(&self) -> Option<bool> {
        self.objects.last().copied()
    }

    /// Notes that a value begins, and returns whether that was allowed there.
    fn begin_value(&mut self) -> bool {
        let may = match self.innermost() {
            Some(true) => self.is_named,
            Some(false) => true,
            None => !self.is_over,
        };
        self.is_named = false;
        self.is_over = self.objects.is_empty();
        may
    }

    /// Notes that an array or an object begins, and returns whether that was allowed there.
    fn open(&mut self, is_object: bool) -> Result<bool, AllocError> {
        let may = self.begin_value() && self.objects.len() < NESTING;
        self.objects.push(is_object)?;
        Ok(may)
    }

    /// Notes that an array or an object ends, and returns whether that was allowed there.
    fn close(&mut self, is_object: bool) -> bool {
        !self.is_named && self.objects.pop() == Some(is_object)
    }

    /// Notes a name, and returns whether one was allowed there.
    fn name(&mut self) -> bool {
        let may = self.innermost() == Some(true) && !self.is_named;
        self.is_named = true;
        may
    }

    /// Notes a token, and returns whether it was allowed there.
    fn note(&mut self, token: &Token<'_>) -> Result<bool, AllocError> {
        match token {
            Token::BeginArray => self.open(false),
            Token::BeginObject => self.open(true),
            Token::EndArray => Ok(self.close(false)),
            Token::EndObject => Ok(self.close(true)),
            Token::Key(_) => Ok(self.name()),
            Token::Bad => Ok(false),
            Token::String(_) | Token::Number(_) | Token::Bool(_) | Token::Null => {
                Ok(self.begin_value())
            }
        }
    }
}

/// Whether a number cannot be too large for a float: it has no exponent, and fewer than 309 digits.
fn is_small(text: &str) -> bool {
    text.len() < 309
        && !text
            .as_bytes()
            .iter()
            .any(|byte| *byte == b'e' || *byte == b'E')
}

/// The text of a token, if it is a number that is too large for a float.
fn large_number<'a>(token: &Token<'a>) -> Option<&'a str> {
    match token {
        Token::Number(text) if !is_small(text) && scalar_number(text).is_none() => Some(*text),
        _ => None,
    }
}

/// The reason why a text is not JSON. `at` is the position of the first byte that is not.
fn reason(alloc: Global, at: Position, number: Option<&str>) -> Result<String, AllocError> {
    match number {
        Some(number) => {
            let shown = cut_text(alloc, number)?;
            format!(in alloc; "not JSON at {at}: the number {shown} is too large")
        }
        None => format!(in alloc; "not JSON at {at}"),
    }
}

/// Why a text is not JSON: the line and the column at which it is not, or the number in it that is too large.
pub(crate) fn json_fault_text(alloc: Global, text: &str) -> Result<String, AllocError> {
    let mut scratch = Scratch::new(alloc);
    let mut reader = Reader::new(text, &mut scratch)?;
    let mut open = Open::new(alloc);
    let mut offset = reader.offset();
    while let Some(token) = reader.next() {
        let number = large_number(&token);
        if number.is_some() || !open.note(&token)? {
            return reason(alloc, Position::at(text.as_bytes(), offset), number);
        }
        offset = reader.offset();
    }
    reason(alloc, Position::at(text.as_bytes(), offset), None)
}
