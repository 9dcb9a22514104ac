//! The command line of the daemon `rpkirtrd`. [`read_words`] parses it to a [`Command`]: a run with its [`Settings`], or a text to print.
//! If it does not parse, it returns an [`OptionFault`].
//!
//! For example, where `rt` is the runtime that `main` is handed:
//!
//! ```rust
//! use rpkirtrd_cli::{Command, read_words};
//!
//! let mut words = Vec::new(rt.alloc());
//! for word in ["--vrps", "vrps.json", "--keep", "8"] {
//!     words.push(String::from_str(rt.alloc(), word)?)?;
//! }
//! match read_words(rt.alloc(), words.as_slice())? {
//!     Command::Serve(settings) => assert!(rt; settings.keep == 8),
//!     _ => assert!(rt; false),
//! }
//! ```
#![tactic(auto)]

mod derived;
mod fault;
mod help;
mod options;
mod settings;
mod values;
mod words;

pub use derived::session_warning;
pub use fault::{OptionFault, Wanted};
pub use help::VERSION;
pub use settings::Settings;
pub use words::{Command, read_words};
