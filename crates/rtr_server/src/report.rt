//! What an Error Report says.
ghost use Rattle.std.specs.Prelude.{◌≡◌, ◌≤◌, length};

use std::marker::Model;

/// The most bytes that a `Report` keeps of the text of an Error Report.
pub const REPORT_TEXT_LEN: usize = 200;

/// The content of an Error Report (RFC 6810 section 5.10, RFC 8210 section 5.11): its error code, and the first 200 bytes of its text.
#[derive(Clone, Copy, Debug, PartialEq, Eq)]
pub struct Report {
    code: u16,
    len: u8,
    /// The text, and zeros behind it.
    bytes: [u8; REPORT_TEXT_LEN],
}

impl Model for Report {
    ghost use Rattle.std.specs.Prelude.{◌≡◌, ◌≤◌, length, take};
    ghost use Rattle.std.proofs.Common.{sym};
    ghost use Rattle.rtr_server.specs.Reports.{Said, padded};
    ghost use Rattle.rtr_server.specs.Padding.{len_again};

    ghost Value = { Said };

    ghost view = { λ r. record { code = r.code; text = take r.len r.bytes } };

    ghost invariant = { λ r. (r.len ≤ 200) × (r.bytes ≡ padded (take r.len r.bytes)) };

    ghost inverse = { λ s. record { code = s.code; len = length s.text; bytes = padded s.text } };

    ghost inverse_ok = { λ r h i. record { code = r.code; len = len_again r.bytes r.len h.0 h.1 i; bytes = sym h.1 i } };
}

impl Report {
    /// A report of this code and this text.
    pub(crate) fn new(code: u16, text: &[u8]) -> Report
        requires { length text.now ≤ 200 }
        ensures { result ≡ record { code = code; text = text.now } }
    {
        let mut bytes = [0; REPORT_TEXT_LEN];
        bytes[..text.len()].copy_from_slice(text);
        Report {
            code,
            len: text.len() as u8,
            bytes,
        }
    }

    /// The error code of the Error Report (RFC 6810 section 10, RFC 8210 section 12).
    pub fn code(&self) -> u16
        ensures { result ≡ self.now.code }
    {
        self.code
    }

    /// The first 200 bytes of the text of the Error Report, or all of it if it is shorter. It should be UTF-8, but that is not checked. The last
    /// character may be cut off. Empty if the lengths inside the report do not add up to its total length.
    pub fn text(&self) -> &[u8]
        ensures value { result.now ≡ self.now.text }
        ensures most { length self.now.text ≤ 200 }
    {
        &self.bytes[..usize::from(self.len)]
    }
}
