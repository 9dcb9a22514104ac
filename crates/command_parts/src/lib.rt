//! What the commands of the program share.
//!
//! For example, where `rt` is the runtime that `main` is handed:
//!
//! ```rust
//! use command_parts::{decimal, read_route, word_of};
//! use vrps::OriginState;
//!
//! assert!(rt; decimal("4660") == Some(4660));
//! assert!(rt; read_route("192.0.2.0/24", "none").is_some());
//! assert!(rt; word_of(OriginState::NotFound) == "not-found");
//! ```
//!
//! Faults: [`ProgramFault`]. Files: [`read_file`], [`read_set`]. Refusals: [`refuse`]. Hexadecimal: [`print_hex`], [`push_hex`].
//! Routes and their states: [`read_route`], [`word_of`]. Numbers: [`decimal`]. The name of a version: [`CacheName`].
#![tactic(auto)]

mod fault;
mod files;
mod hexadecimal;
mod route_words;
mod words;

pub use fault::{ProgramFault, refuse};
pub use files::{read_file, read_set};
pub use hexadecimal::{print_hex, push_hex};
pub use route_words::{read_route, word_of};
pub use words::{CacheName, decimal};
