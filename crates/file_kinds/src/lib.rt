//! Kinds of the files in a repository of the RPKI (RFC 6481): the extension of each, and the type of the content of its signed objects.
//!
//! For example, where `rt` is the runtime that `main` is handed:
//!
//! ```rust
//! use file_kinds::FileKind;
//!
//! let kind = FileKind::of_file("a.roa").ok_or("no kind")?;
//! assert!(rt; kind.extension() == "roa");
//! assert!(rt; FileKind::with_extension("roa") == Some(FileKind::Roa));
//! // id-ct-routeOriginAuthz (RFC 9582 section 3)
//! let content_type = b"\x2a\x86\x48\x86\xf7\x0d\x01\x09\x10\x01\x18".as_slice();
//! assert!(rt; FileKind::Roa.content_type() == Some(content_type));
//! assert!(rt; FileKind::of_content_type(content_type) == Some(FileKind::Roa));
//! ```
//!
//! [`FileKind::of_file`] and [`FileKind::with_extension`] say which kind of file a name promises, [`FileKind::of_content_type`] which kind a
//! signed object is. [`FileKind::extension`] and [`FileKind::content_type`] are the other directions.
#![tactic(auto)]

mod kind;
pub mod laws;

pub use kind::FileKind;
