//! Answers of many records.
use crate::hex::{Bytes, bytes};
use crate::units::{END_5, RESPONSE};
use std::alloc::Global;

/// The PDU that announces the address of 32 bits with this number, of the AS with this number.
fn announcement(number: u32) -> Bytes {
    let mut unit = bytes("01 04 0000 00000014 01 20 20 00");
    let _fits = unit.try_extend_from_slice(&number.to_be_bytes());
    let _fits = unit.try_extend_from_slice(&number.to_be_bytes());
    unit
}

/// An answer of session 4660, serial 5, with this many records: 0.0.0.0 and the next addresses, of AS 0 and the next.
pub fn answer_of(alloc: Global, records: u32) -> Option<Vec<u8>> {
    let Ok(mut answer) = bytes(RESPONSE).as_slice().to_vec(alloc) else {
        return None;
    };
    for number in 0..records {
        if answer
            .extend_from_slice(announcement(number).as_slice())
            .is_err()
        {
            return None;
        }
    }
    match answer.extend_from_slice(bytes(END_5).as_slice()) {
        Ok(()) => Some(answer),
        Err(_) => None,
    }
}
