//! Signatures that are valid, and signatures that are not.
use crate::signature_vectors::{
    A_PADDING_OCTET, BLOCK_TYPE_2, N_EXPONENT_3, N2048, N2056, N3072, N4096, NO_NULL, NO_ZERO,
    OTHER_HASH, S_EXPONENT_3, S_LEADING_ZERO, S_SMALL, S_SMALL_AND_N, S2048, S2056, S3072, S4096,
    SHA_512, SHORT_PADDING,
};
use rsa_sha256::PublicKey;
use std::alloc::Global;
use std::process::Abort;

/// Whether the signature is valid for the message under the key with this modulus, if that makes a key. Both are in hexadecimal digits.
fn is_valid(alloc: Global, modulus: &str, message: &str, signature: &str) -> Option<bool> {
    match (hex::decode(alloc, modulus), hex::decode(alloc, signature)) {
        (Ok(modulus), Ok(signature)) => match PublicKey::new(modulus.as_slice()) {
            Ok(key) => Some(key.verify(message.as_bytes(), signature.as_slice())),
            Err(_) => None,
        },
        _ => None,
    }
}

fn expect_judged<R: Abort>(rt: &R, alloc: Global, rows: &[(&str, &str, &str)], want: bool) {
    for (modulus, message, signature) in rows {
        assert!(rt; is_valid(alloc, modulus, message, signature) == Some(want));
    }
}

/// A modulus, a message and a signature.
const VALID: &[(&str, &str, &str)] = &[
    (N2048, "rpki", S2048),
    (N2056, "rpki", S2056),
    (N3072, "rpki", S3072),
    (N4096, "rpki", S4096),
    (N2048, "zero 77", S_LEADING_ZERO),
    (N2048, "rpki 1", S_SMALL),
];

#[test]
fn signatures_are_valid(rt: HostRuntime) {
    expect_judged(&rt, rt.alloc(), VALID, true);
}

/// The same, with something wrong: the message, the key, the signature as a number, its exponent, or the encoded message.
const INVALID: &[(&str, &str, &str)] = &[
    (N2048, "rpk", S2048),
    (N2056, "rpki", S2048),
    (N3072, "rpki", S2048),
    (N2048, "rpki 1", S_SMALL_AND_N),
    (N_EXPONENT_3, "rpki", S_EXPONENT_3),
    (N2048, "rpki", A_PADDING_OCTET),
    (N2048, "rpki", NO_ZERO),
    (N2048, "rpki", OTHER_HASH),
    (N2048, "rpki", NO_NULL),
    (N2048, "rpki", SHORT_PADDING),
    (N2048, "rpki", BLOCK_TYPE_2),
    (N2048, "rpki", SHA_512),
];

#[test]
fn signatures_are_invalid(rt: HostRuntime) {
    expect_judged(&rt, rt.alloc(), INVALID, false);
}

/// Whether a key refuses a valid signature, as a number, in 255 and in 257 octets, and that of no octets.
fn refuses_lengths(alloc: Global, key: &PublicKey, valid: &[u8]) -> bool {
    let Ok(mut longer) = Vec::from_slice(alloc, &[0u8]) else {
        return false;
    };
    longer.extend_from_slice(valid).is_ok()
        && key.verify(b"zero 77", valid)
        && !key.verify(b"zero 77", valid.get(1..).unwrap_or(valid))
        && !key.verify(b"zero 77", longer.as_slice())
        && !key.verify(b"zero 77", b"")
}

/// Whether a key refuses 0, 1, and the modulus itself.
fn refuses_numbers(key: &PublicKey, modulus: &[u8]) -> bool {
    let mut number = [0u8; 256];
    let refuses_none = !key.verify(b"rpki", &number);
    number[255] = 1;
    refuses_none && !key.verify(b"rpki", &number) && !key.verify(b"rpki", modulus)
}

/// Whether the key of this modulus refuses both.
fn refuses(alloc: Global, modulus: &[u8], valid: &[u8]) -> bool {
    match PublicKey::new(modulus) {
        Ok(key) => refuses_lengths(alloc, &key, valid) && refuses_numbers(&key, modulus),
        Err(_) => false,
    }
}

#[test]
fn numbers_and_lengths_are_invalid(rt: HostRuntime) {
    match (
        hex::decode(rt.alloc(), N2048),
        hex::decode(rt.alloc(), S_LEADING_ZERO),
    ) {
        (Ok(modulus), Ok(valid)) => {
            assert!(rt; refuses(rt.alloc(), modulus.as_slice(), valid.as_slice()));
        }
        _ => assert!(rt; false),
    }
}
