//! Values that the crates of examples share: bytes from hexadecimal text, payloads of ROAs, PDUs, sets of payloads, and a
//! canonical cache representation.
#![tactic(auto)]

pub mod answers;
pub mod ccrs;
pub mod hex;
pub mod payloads;
pub mod scripts;
pub mod sets;
pub mod units;
