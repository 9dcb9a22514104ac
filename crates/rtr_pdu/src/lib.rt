//! The PDUs of the RPKI-to-Router protocol, version 0 (RFC 6810 section 5) and version 1 (RFC 8210 section 5).
//!
//! For example, where `rt` is the runtime that `main` is handed:
//!
//! ```rust
//! use rtr_pdu::{Next, Unit, UnitBuffer, UnitReader, encode};
//!
//! let mut buffer = UnitBuffer::new();
//! encode(&Unit::ResetQuery, &mut buffer);
//! let mut piece = buffer.as_slice();
//! match UnitReader::for_cache().next(&mut piece) {
//!     Next::Unit(unit) => assert!(rt; unit == Unit::ResetQuery),
//!     Next::NeedMore | Next::Fault(_) => assert!(rt; false),
//! }
//! ```
#![tactic(auto)]

mod counted;
mod device;
pub mod error_code;
mod kind;
pub mod laws;
mod reader;
mod reading;
mod stream;
mod unit;
mod version;
mod writing;

pub use counted::Counted;
pub use device::{ReadFault, WriteFailed, read_unit, read_unit_of, write_unit};
pub use kind::Kind;
pub use reader::UnitReader;
pub use stream::read_all;
pub use unit::{
    ErrorReport, KEY_ROOM, MAX_UNIT_LEN, Next, REPORT_ROOM, RouterKey, Unit, UnitFault,
};
pub use version::Version;
pub use writing::{MAX_PREFIX_LEN, UnitBuffer, encode, encode_as, encode_prefix, encode_prefix_at};
