//! Parts of a JSON text, as messages show them: a value or a name in at most 80 bytes, and the line and column of a byte. Also the reasons why
//! a value or a file is refused.
//!
//! For example, where `rt` is the runtime that `main` is handed:
//!
//! ```rust
//! use json_texts::{Position, value_text};
//! use serde_json::Value;
//!
//! let value = Value::from_slice(rt.alloc(), br#"["AS\u0007", 7]"#)?;
//! assert!(rt; value_text(rt.alloc(), &value)?.as_str() == r#"["AS\u0007",7]"#);
//! assert!(rt; Position::at(b"{\n  x}", 4) == Position { line: 2, column: 3 });
//! ```
#![tactic(auto)]

mod encoding;
pub mod laws;
mod position;
mod reasons;
mod shown;

pub use encoding::{begins_with_zero, encoding_reason};
pub use position::Position;
pub use reasons::{NO_ASN, NO_MAX_LENGTH, NO_NUMBER, NO_PREFIX, STRING_FOR_NUMBER, prefix_reason};
pub use shown::{cut_text, name_text, value_text};
