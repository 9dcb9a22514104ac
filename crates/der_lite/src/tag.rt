//! The tags of elements (X.690 section 8.1.2).

pub(crate) const INTEGER: u8 = 2;

pub(crate) const BIT_STRING: u8 = 3;

pub(crate) const OCTET_STRING: u8 = 4;

pub(crate) const OBJECT_IDENTIFIER: u8 = 6;

pub(crate) const IA5_STRING: u8 = 22;

pub(crate) const GENERALIZED_TIME: u8 = 24;

pub(crate) const SEQUENCE: u8 = 48;
