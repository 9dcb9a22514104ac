//! Elements of the distinguished encoding rules of ASN.1 (ITU-T X.690), read in place and written.
//!
//! For example, where `rt` is the runtime that `main` is handed:
//!
//! ```rust
//! use der_lite::{Cursor, DerWriter, Moment};
//!
//! let moment: Moment = "20250101120000Z".parse()?;
//! let mut writer = DerWriter::new(rt.alloc());
//! writer.time(&moment)?;
//! let mut cursor = Cursor::new(writer.as_slice());
//! assert!(rt; cursor.time()? == moment);
//! cursor.finish()?;
//! ```
//!
//! A [`Cursor`] reads the elements of an enclosing one, in order, and copies nothing. A
//! [`DerWriter`] writes each element in its one spelling. A [`Moment`] is the date and time that a
//! GeneralizedTime says.
#![tactic(auto)]

mod content;
mod cursor;
mod fault;
mod head;
pub mod laws;
mod length;
mod moment;
mod seconds;
mod tag;
mod writer;

pub use content::{Bits, is_integer, unsigned};
pub use cursor::Cursor;
pub use fault::{DerFault, DerFaultKind, MomentFault};
pub use moment::Moment;
pub use seconds::{days_of_month, days_of_year};
pub use writer::DerWriter;
