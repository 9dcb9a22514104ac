//! Octets and digests as C has them.
ghost use Rattle.std.specs.Prelude.{◌≡◌, length};
ghost use Rattle.rpkirtr_c.specs.Octets.{IsFilled, no_digest};

/// A SHA-256 digest.
#[repr(C)]
#[derive(Clone, Copy, Debug)]
pub struct CDigest {
    pub octets: [u8; 32],
}

/// The digest of nothing.
pub(crate) fn no_digest() -> CDigest
    ensures { result ≡ no_digest }
{
    CDigest { octets: [0; 32] }
}

/// Copies octets into the room, as many as fit, and returns how many there are.
pub(crate) fn copy_octets(octets: &[u8], room: &mut [u8]) -> usize
    ensures room { IsFilled octets.now room.old room.new }
    ensures count { result ≡ length octets.now }
{
    let count = octets.len().min(room.len());
    room[..count].copy_from_slice(&octets[..count]);
    octets.len()
}
