//! The commands that speak RTR: [`units`], [`answer`], [`serve`], [`fetch`] and [`both_ends`], and what they print and exchange.
//!
//! For example, where `rt` is the runtime that `main` is handed:
//!
//! ```rust
//! use rtr_commands::answer_lines;
//! use vrps::VrpSet;
//!
//! let empty = VrpSet::empty(rt.alloc());
//! let answered = answer_lines(rt.alloc(), 4660, 4660, 5, empty, "0102000000000008")?;
//! assert!(rt; answered.lines.as_str().starts_with("0103123400000008\n"));
//! ```
#![tactic(auto)]

mod answering;
mod commands;
mod streaming;
mod unit_lines;

pub use answering::{AnswerFault, Answered, answer_lines};
pub use commands::{answer, both_ends, fetch, serve, units};
pub use streaming::{
    connected, dial, fetch_all, fetch_in_turns, listen, serve_all, tell_committed, tell_fetched,
};
pub use unit_lines::{UnitsEnd, print_unit, print_units};
