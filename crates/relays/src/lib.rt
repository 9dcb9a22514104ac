//! The theorem of chains of relays. A relay is a router of one world and the cache of the next (RFC 8210 section 10).
//! What the routers of the last world hold is made by the relays of what the first cache published. A world is one cache, its routers and their
//! connections.
//!
//! For example, where `rt` is the runtime that `main` is handed:
//!
//! ```rust
//! use relays::laws;
//!
//! laws::chain();
//! ```
#![tactic(auto)]

pub mod laws;
