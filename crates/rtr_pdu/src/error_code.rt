//! The error codes of Error Reports (RFC 8210 section 12).

/// Corrupt Data: the received PDU is corrupt in a way that no other code describes.
pub const CORRUPT_DATA: u16 = 0;

/// Internal Error: the sender of the report cannot continue, for example because it is out of memory.
pub const INTERNAL_ERROR: u16 = 1;

/// No Data Available: the cache has no data yet, or no longer.
pub const NO_DATA_AVAILABLE: u16 = 2;

/// Invalid Request: the cache considers the request invalid.
pub const INVALID_REQUEST: u16 = 3;

/// Unsupported Protocol Version: the sender of the report does not speak the version of the received PDU.
pub const UNSUPPORTED_VERSION: u16 = 4;

/// Unsupported PDU Type: the protocol version has no PDU of the received type.
pub const UNSUPPORTED_TYPE: u16 = 5;

/// Withdrawal of Unknown Record: a received PDU withdraws a record that was not announced.
pub const UNKNOWN_WITHDRAWAL: u16 = 6;

/// Duplicate Announcement Received: a received PDU announces a record that is already announced.
pub const DUPLICATE_ANNOUNCEMENT: u16 = 7;

/// Unexpected Protocol Version: the version of the received PDU is not the agreed one.
pub const UNEXPECTED_VERSION: u16 = 8;
