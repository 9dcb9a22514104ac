//! What is printed. A failure is kept until the end, so that no caller has to look.
use std::io::Write;

/// Prints texts and numbers.
#[derive(Debug, Drop)]
pub struct Sheet<W: Write> {
    out: W,
    failed: bool,
}

impl<W: Write> Sheet<W> {
    /// Prints to this.
    pub fn new(out: W) -> Sheet<W> {
        Sheet { out, failed: false }
    }

    /// Prints a text.
    pub fn text(&mut self, text: &str) {
        if self.out.write_all(text.as_bytes()).is_err() {
            self.failed = true;
        }
    }

    /// Prints a number.
    pub fn number(&mut self, number: u128) {
        if write!(self.out, "{}", number).is_err() {
            self.failed = true;
        }
    }

    /// Whether something could not be printed.
    pub fn has_failed(&self) -> bool {
        self.failed
    }
}
