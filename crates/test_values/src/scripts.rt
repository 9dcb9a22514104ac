//! Lines of scripts: their words, and PDUs by their names. A PDU is a name or hexadecimal digits, and bars part PDUs.
use crate::hex::Bytes;
use crate::units::{
    ANSWER, CACHE_RESET, END_0, END_5, END_6, END_7, RESET_QUERY, RESPONSE, SERIAL_QUERY,
    UNCHANGED, V, V_0, V_WITHDRAWN, W, Y, bytes_in,
};

/// The words of a line that are still to be read. One blank parts them.
#[derive(Debug, Drop)]
pub struct Words<'a> {
    /// What follows the words that were read.
    pub rest: &'a str,
}

impl<'a> Words<'a> {
    /// The next word, which is empty after the last.
    pub fn next(&mut self) -> &'a str {
        let rest = self.rest;
        match rest.split_once(' ') {
            Some((word, behind)) => {
                self.rest = behind;
                word
            }
            None => {
                self.rest = "";
                rest
            }
        }
    }

    /// The next word as a number, if it is one.
    pub fn number(&mut self) -> Option<u64> {
        self.next().parse::<u64>().ok()
    }
}

/// The digits of the query or the answer that has this name, or that is spelled.
fn spelled(name: &str) -> &str {
    match name {
        "RESET_QUERY" => RESET_QUERY,
        "SERIAL_QUERY" => SERIAL_QUERY,
        "CACHE_RESET" => CACHE_RESET,
        "ANSWER" => ANSWER,
        "UNCHANGED" => UNCHANGED,
        "RESPONSE" => RESPONSE,
        "END_0" => END_0,
        "END_5" => END_5,
        "END_6" => END_6,
        "END_7" => END_7,
        "NOTIFY_5" => "01 00 1234 0000000c 00000005",
        "NOTIFY_6" => "01 00 1234 0000000c 00000006",
        "NO_DATA" => "01 0a 0002 00000010 00000000 00000000",
        "NO_DATA_0" => "00 0a 0002 00000010 00000000 00000000",
        _ => spelled_record(name),
    }
}

/// The same of a record. X is 203.0.113.0/24 up to 24 of AS 64498.
fn spelled_record(name: &str) -> &str {
    match name {
        "V" => V,
        "V_0" => V_0,
        "V_WITHDRAWN" => V_WITHDRAWN,
        "W" => W,
        "W_WITHDRAWN" => "01 04 0000 00000014 00 18 18 00 c6336400 0000fbf1",
        "X" => "01 04 0000 00000014 01 18 18 00 cb007100 0000fbf2",
        "X_WITHDRAWN" => "01 04 0000 00000014 00 18 18 00 cb007100 0000fbf2",
        "Y" => Y,
        "Y_WITHDRAWN" =>
            "01 06 0000 00000020 00 20 30 00 20010db8000000000000000000000000 0000fbf3",
        _ => name,
    }
}

/// A PDU as it is in the version of this number, if it is spelled in version 1.
pub fn unit_in(version: u8, name: &str) -> Bytes {
    bytes_in(version, spelled(name.trim()))
}

/// PDUs as they are in the version of this number, one after the other.
pub fn units_in(version: u8, units: &str) -> Bytes {
    let mut all = Bytes::new();
    for name in units.split('|') {
        let _fits = all.try_extend_from_slice(unit_in(version, name).as_slice());
    }
    all
}
