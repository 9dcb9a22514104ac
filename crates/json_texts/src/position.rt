//! The line and the column of a byte in a text.
ghost use Rattle.std.specs.Prelude.{◌≡◌, take};
ghost use Rattle.json_texts.specs.Position.{StandsAt};

use std::fmt;

/// A position in a text: line and column, both counted from 1. The column counts bytes, not characters. A line feed ends a line.
#[derive(Clone, Copy, Debug, PartialEq, Eq)]
pub struct Position {
    /// The line number, from 1.
    pub line: usize,
    /// The column in bytes, from 1.
    pub column: usize,
}

impl Position {
    /// The position of the byte at `offset`, counted from 0. If `offset` is beyond the end of the text, it is the position of the end.
    pub fn at(text: &[u8], offset: usize) -> Position
        ensures { StandsAt (take offset text.now) result.line result.column }
    {
        let mut line = 1usize;
        let mut column = 1usize;
        for byte in &text[..offset.min(text.len())] {
            if *byte == b'\n' {
                line += 1;
                column = 1;
            } else {
                column += 1;
            }
        }
        Position { line, column }
    }
}

impl fmt::Display for Position {
    ghost use Rattle.std.specs.Prelude.{Some};
    ghost use Rattle.json_texts.specs.Position.{position_text};

    ghost output = { λ p. Some (position_text p.line p.column) };

    fn fmt<W: fmt::Write>(&self, f: &mut fmt::Formatter<W>) -> fmt::Result {
        write!(f, "line {}, column {}", self.line, self.column)
    }
}
