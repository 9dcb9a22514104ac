//! Scripts of a world of one cache and its routers. [`read_beginning`] and [`read_line`] parse their lines. [`play`] runs a script,
//! and [`world`] is the command that runs one.
//!
//! For example, where `rt` is the runtime that `main` is handed:
//!
//! ```rust
//! use world_scripts::play;
//!
//! let mut out = Vec::new(rt.alloc());
//! assert!(rt; play(rt.alloc(), b"world 1 4660 5 2\nshow 0\n", &mut out)? == 0);
//! assert!(rt; out.as_slice() == b"0 empty\n".as_slice());
//! ```
#![tactic(auto)]

mod commands;
mod playing;
mod scripts;

pub use commands::world;
pub use playing::play;
pub use scripts::{Beginning, Line, read_beginning, read_line};
