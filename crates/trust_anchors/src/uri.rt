//! URIs of trust anchors, and comments (RFC 8630 section 2.2).

ghost use Rattle.std.specs.Prelude.{◌≡◌, ◌≢◌, ◌-◌, ◌↔◌, IsTrue, length, slice_index};
ghost use Rattle.std.specs.List.{All};
ghost use Rattle.trust_anchors.specs.Locators.{has_scheme as has_scheme_of, IsVisible, IsTaUri, IsComment};

/// How a URI of rsync begins (RFC 5781).
const RSYNC: [u8; 8] = [0x72, 0x73, 0x79, 0x6e, 0x63, 0x3a, 0x2f, 0x2f];

/// How a URI of HTTPS begins.
const HTTPS: [u8; 8] = [0x68, 0x74, 0x74, 0x70, 0x73, 0x3a, 0x2f, 0x2f];

/// Whether a line is a comment.
pub(crate) fn is_comment(line: &[u8]) -> bool
    ensures { IsTrue result ↔ IsComment line.now }
{
    !line.is_empty() && line[0] == b'#'
}

/// Whether a URI is of rsync or https.
fn has_scheme(uri: &[u8]) -> bool
    ensures { result ≡ has_scheme_of uri.now }
{
    uri.starts_with(RSYNC.as_slice()) || uri.starts_with(HTTPS.as_slice())
}

/// Whether all bytes are visible characters of ASCII.
fn is_visible(bytes: &[u8]) -> bool
    ensures { IsTrue result ↔ All IsVisible bytes.now }
{
    for byte in bytes {
        if *byte < 33 || *byte > 126 {
            return false;
        }
    }
    true
}

/// Whether the last byte is '/'.
fn ends_in_slash(uri: &[u8]) -> bool
    ensures { IsTrue result ↔ (slice_index uri.now (length uri.now - 1) ≡ 0x2f) }
{
    !uri.is_empty() && uri[uri.len() - 1] == b'/'
}

/// Whether a line is the URI of an object in rsync or https.
pub(crate) fn is_ta_uri(line: &[u8]) -> bool
    ensures { IsTrue result ↔ IsTaUri line.now }
{
    has_scheme(line) && is_visible(line) && !ends_in_slash(line)
}
