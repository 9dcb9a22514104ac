//! Values that several commands read from the command line.

/// The name of a published version: the cache's session in both protocol versions, and the serial.
#[derive(Clone, Copy, Debug, PartialEq, Eq)]
pub struct CacheName {
    /// The session in protocol version 1.
    pub session: u16,
    /// The session in protocol version 0.
    pub session0: u16,
    /// The serial.
    pub serial: u32,
}

/// Parses a number in decimal digits, such as `0` or `4660`. `None`: the text is empty, or has a character that is not a digit, such as a sign.
/// Or it has a leading zero before another digit, or the number is over `u64::MAX`.
pub fn decimal(text: &str) -> Option<u64> {
    match text.as_bytes() {
        [b'+', ..] => None,
        [b'0', _, ..] => None,
        _ => text.parse::<u64>().ok(),
    }
}
