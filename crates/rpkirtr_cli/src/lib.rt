//! The command line of the program `rpkirtr`. [`read_words`] parses it to a [`Command`].
//!
//! For example, where `rt` is the runtime that `main` is handed:
//!
//! ```rust
//! use rpkirtr_cli::{Command, read_words};
//!
//! let mut words = Vec::new(rt.alloc());
//! for word in ["roa", "a.roa"] {
//!     words.push(String::from_str(rt.alloc(), word)?)?;
//! }
//! match read_words(rt.alloc(), words.as_slice())? {
//!     Command::Roa { file } => assert!(rt; file == "a.roa"),
//!     _ => assert!(rt; false),
//! }
//! ```
#![tactic(auto)]

mod words;

pub use words::{Command, CommandFault, read_words};
