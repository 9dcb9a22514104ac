//! The beginning of a file that is not JSON in UTF-8.
ghost use Rattle.std.specs.Prelude.{◌≡◌, ◌==◌, option_copied};
ghost use Rattle.std.specs.List.{starts_with};
ghost use Rattle.json_texts.specs.Encoding.{begins_with_zero, encoding_reason};

/// The first bytes of a file that is compressed by gzip (RFC 1952 section 2.3.1).
const GZIP: &[u8] = &[0x1f, 0x8b];

/// The byte order mark in UTF-8.
const UTF8_MARK: &[u8] = &[0xef, 0xbb, 0xbf];

/// The byte order marks in UTF-16, of either order.
const UTF16_MARK: &[u8] = &[0xfe, 0xff];

const UTF16_LITTLE_MARK: &[u8] = &[0xff, 0xfe];

/// A byte with which no JSON text begins. A sparse file has nothing else.
const ZERO: &[u8] = &[0];

/// Whether bytes begin with these.
fn begins(bytes: &[u8], mark: &[u8]) -> bool
    ensures { result ≡ starts_with (λ a b. a == b) bytes.now mark.now }
{
    bytes.starts_with(mark)
}

/// Returns whether the first byte is zero, as in a sparse file. If so, the bytes are not JSON (`laws::zero_is_no_json`), and the caller need not
/// start a reader. A reader would allocate as much memory as the input has bytes. `false` for empty input.
pub fn begins_with_zero(bytes: &[u8]) -> bool
    ensures { result ≡ begins_with_zero bytes.now }
{
    begins(bytes, ZERO)
}

/// A message if the first bytes show that the input is not JSON in UTF-8. It names the cause, and the remedy unless it is a zero byte.
/// Causes: gzip, a byte order mark of UTF-8 or UTF-16 (RFC 8259 section 8.1), or a first byte of zero. `None`: none of these.
pub fn encoding_reason(bytes: &[u8]) -> Option<&'static str>
    ensures { option_copied result ≡ encoding_reason bytes.now }
{
    if begins(bytes, GZIP) {
        return Some("it is compressed by gzip, decompress it first");
    }
    if begins(bytes, UTF8_MARK) {
        return Some("it begins with a byte order mark, save it without one");
    }
    if begins(bytes, UTF16_MARK) || begins(bytes, UTF16_LITTLE_MARK) {
        return Some("it is UTF-16, save it as UTF-8 without a byte order mark");
    }
    if begins_with_zero(bytes) {
        return Some("it begins with a zero byte");
    }
    None
}
