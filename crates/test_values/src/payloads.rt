//! Payloads of ROAs in hexadecimal. Blanks part the elements: the head of one that has members, or one without members whole.

/// AS64496 and 192.0.2.0/24.
pub const ONE_PREFIX: &str = "3017 020300fbf0 3010 300e 04020001 3008 3006 030400c00002";

/// AS64496 and 0.0.0.0/0.
pub const NO_BITS: &str = "3014 020300fbf0 300d 300b 04020001 3005 3003 030100";

/// AS64496 and 2001:db8::/32 with the maximum 48.
pub const WITH_MAXIMUM: &str = "301b 020300fbf0 3014 3012 04020002 300c 300a 03050020010db8 020130";

/// AS64496 and 192.0.2.0/24 with the maximum 24, which is its length.
pub const SUPERFLUOUS: &str = "301a 020300fbf0 3013 3011 04020001 300b 3009 030400c00002 020118";

/// AS64496, and 192.0.2.0/24, 192.0.2.0/25 with the maximum 32, and 2001:db8::/32 with the maximum 48.
pub const BOTH_FAMILIES: &str =
    "3037 020300fbf0 3030 301a 04020001 3014 3006 030400c00002 300a 030507c0000200 020120 3012 04020002 300c 300a 03050020010db8 020130";
