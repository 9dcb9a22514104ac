//! Payload lists: the JSON form in which validators export a set of VRPs. [`read_list`] reads a list and [`write_list`] writes it.
//!
//! For example, where `rt` is the runtime that `main` is handed:
//!
//! ```rust
//! use payload_lists::{read_list, write_list};
//!
//! let text = br#"[{"prefix":"192.0.2.0/24","maxLength":24,"asn":64496}]"#;
//! let set = read_list(rt.alloc(), text)?;
//! assert!(rt; set.len() == 1);
//! let written = write_list(rt.alloc(), set.as_slice())?;
//! assert!(rt; read_list(rt.alloc(), written.as_bytes())?.is_same(&set));
//! ```
#![tactic(auto)]

mod listing;
mod plain;

pub use listing::{ListFault, read_list, write_list};

/// Parts of the reader, for readers of other list formats. They read the value under a key, the VRP of an entry's values, the VRPs of a payload
/// list, and numbers of digits alone.
pub mod parts {
    pub use crate::listing::{payload, records_of, text, whole};
    pub use crate::plain::{plain_list, plain_number};
}
