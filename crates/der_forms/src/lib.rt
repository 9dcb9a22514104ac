//! Forms of DER elements that CMS and X.509 share, over those of `der_lite`. Nothing here runs: the crate has definitions and lemmas alone.
//!
//! An element may follow a test of the next tag, be one of two, be left out in front of others, keep its octets, or have a fixed content. Each
//! form has its grammar, its reading over a cursor, and the lemma that this reading is exact.
#![tactic(auto)]
