//! RSA signatures of the RPKI: RSASSA-PKCS1-v1_5 with SHA-256 and the public exponent 65537 (RFC 8017 section 8.2.2, RFC 7935). A
//! [`PublicKey`] is made of a modulus of 2,048 to 4,096 bits, and [`PublicKey::verify`] returns whether a signature is valid.
//!
//! For example, where `rt` is the runtime that `main` is handed:
//!
//! ```rust
//! use rsa_sha256::{ModulusFault, PublicKey};
//!
//! let mut modulus = [0xff; 256];
//! let key = PublicKey::new(&modulus)?;
//! assert!(rt; !key.verify(b"message", &[0; 256]));
//! modulus[0] = 0x7f;
//! assert!(rt; matches!(PublicKey::new(&modulus), Err(ModulusFault::TopBit)));
//! ```
#![tactic(auto)]

mod encoding;
mod fault;
mod key;
mod limbs;
mod montgomery;

pub use fault::ModulusFault;
pub use key::PublicKey;
