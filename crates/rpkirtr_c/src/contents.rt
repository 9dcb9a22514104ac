//! The value of a manifest's handle.

use payloads::Manifest;

/// A decoded manifest.
#[derive(Debug, Drop)]
pub struct Contents {
    pub(crate) manifest: Manifest,
}
