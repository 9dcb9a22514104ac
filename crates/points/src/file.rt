//! Files that are supplied.

/// A file that the caller fetched and verified.
#[derive(Clone, Copy, Debug, PartialEq, Eq)]
pub struct FileIn<'a> {
    /// The name, as a manifest lists it.
    pub name: &'a str,
    /// The bytes of the published object. Their SHA-256 is compared with the hash in the manifest.
    pub object: &'a [u8],
    /// The payload that the caller's verifier extracted from the object. It is read only if the name ends in `.roa`.
    pub content: &'a [u8],
}
