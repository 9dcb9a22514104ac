//! Bytes in hexadecimal.
use arrayvec::ArrayVec;

/// The bytes of a short payload or of a few PDUs.
pub type Bytes = ArrayVec<u8, 256>;

/// The bytes that hexadecimal digits spell. Anything else is skipped.
pub fn bytes(text: &str) -> Bytes {
    let mut bytes = Bytes::new();
    let mut first = None;
    for digit in text.chars().filter_map(|c| c.to_digit(16)) {
        match first.take() {
            None => first = Some(digit),
            Some(high) => {
                let _fits = bytes.try_push((((high << 4) | digit) % 256) as u8);
            }
        }
    }
    bytes
}
