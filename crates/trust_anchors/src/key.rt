//! The key of a locator.

ghost use Rattle.std.specs.Prelude.{◌≡◌, ◌↔◌, ℕ, List, IsTrue, MatchOption};
ghost use Rattle.trust_anchors.specs.Keys.{key_head, key_tail, IsKeyInfo, ReadsKey, Decodes};

use crate::{TalFault, TalFaultKind};
use base64::DecodeAllocError;
use base64::engine::general_purpose::STANDARD;
use std::alloc::Global;

/// SubjectPublicKeyInfo in front of a modulus of 256 bytes (RFC 7935 section 3): rsaEncryption with NULL, and RSAPublicKey in a bit string.
const HEAD: [u8; 33] = [
    0x30, 0x82, 0x01, 0x22, 0x30, 0x0d, 0x06, 0x09, 0x2a, 0x86, 0x48, 0x86, 0xf7, 0x0d, 0x01, 0x01,
    0x01, 0x05, 0x00, 0x03, 0x82, 0x01, 0x0f, 0x00, 0x30, 0x82, 0x01, 0x0a, 0x02, 0x82, 0x01, 0x01,
    0x00,
];

/// What follows the modulus: the exponent 65537.
const TAIL: [u8; 5] = [0x02, 0x03, 0x01, 0x00, 0x01];

/// The offset of the modulus.
const MODULUS_START: usize = 33;

/// The offset of what follows it.
const MODULUS_END: usize = 289;

/// The bytes of a subjectPublicKeyInfo.
const KEY_LENGTH: usize = 294;

/// Whether these are what comes before a modulus and what follows it.
fn is_frame(head: &[u8], tail: &[u8]) -> bool
    ensures { IsTrue result ↔ ((head.now ≡ key_head) × (tail.now ≡ key_tail)) }
{
    head == HEAD.as_slice() && tail == TAIL.as_slice()
}

/// The modulus of the subjectPublicKeyInfo that the bytes are.
fn modulus_in(octets: &[u8]) -> Option<&[u8]>
    ensures { MatchOption result ((modulus : List ℕ) → ¬ (IsKeyInfo modulus octets.now)) (λ modulus. IsKeyInfo modulus.now octets.now) }
{
    if octets.len() != KEY_LENGTH {
        return None;
    }
    let head = &octets[..MODULUS_START];
    let modulus = &octets[MODULUS_START..MODULUS_END];
    let tail = &octets[MODULUS_END..];
    if !is_frame(head, tail) || modulus[0] < 128 {
        return None;
    }
    Some(modulus)
}

/// The bytes that base64 says, or the fault at this line.
fn decode(alloc: Global, text: &[u8], line: usize) -> Result<Vec<u8>, TalFault>
    ensures { Decodes (λ octets. octets.items) line text.now result }
{
    match STANDARD.decode(alloc, text) {
        Ok(octets) => Ok(octets),
        Err(DecodeAllocError::OutOfMemory) => Err(TalFault::Memory),
        Err(DecodeAllocError::DecodeError(_)) => Err(TalFaultKind::Base64.at(line)),
    }
}

/// The modulus of the key that base64 says, or the fault at this line.
pub(crate) fn read_key(alloc: Global, text: &[u8], line: usize) -> Result<Vec<u8>, TalFault>
    ensures { ReadsKey (λ modulus. modulus.items) line text.now result }
{
    let octets = decode(alloc, text, line)?;
    match modulus_in(octets.as_slice()) {
        Some(modulus) => Ok(Vec::from_slice(alloc, modulus)?),
        None => Err(TalFaultKind::Key.at(line)),
    }
}
