//! The types of PDUs.
ghost use Rattle.std.specs.Prelude.{◌≡◌, true, false, IfSome, IfNone};
ghost use Rattle.rtr_pdu.specs.Kind.{type_number, has_kind, end_of_data_len, fixed_len, may_have, is_type};

use crate::version::Version;

/// The type of a PDU (RFC 6810 section 5, RFC 8210 section 5).
#[derive(Clone, Copy, Debug, PartialEq, Eq)]
pub enum Kind {
    /// A Serial Notify (RFC 8210 section 5.2).
    SerialNotify = 0,
    /// A Serial Query (RFC 8210 section 5.3).
    SerialQuery = 1,
    /// A Reset Query (RFC 8210 section 5.4).
    ResetQuery = 2,
    /// A Cache Response (RFC 8210 section 5.5).
    CacheResponse = 3,
    /// An IPv4 Prefix (RFC 8210 section 5.6).
    Ipv4Prefix = 4,
    /// An IPv6 Prefix (RFC 8210 section 5.7).
    Ipv6Prefix = 6,
    /// An End of Data (RFC 8210 section 5.8).
    EndOfData = 7,
    /// A Cache Reset (RFC 8210 section 5.9).
    CacheReset = 8,
    /// A Router Key (RFC 8210 section 5.10). Version 0 has none.
    RouterKey = 9,
    /// An Error Report (RFC 8210 section 5.11).
    ErrorReport = 10,
}

impl Kind {
    /// The PDU type with this number in a header of this version. `None`: the version has no such type.
    pub fn from_number(version: Version, number: u8) -> Option<Kind>
        ensures some { IfSome result (λ kind. (type_number kind ≡ number) × (has_kind version kind ≡ true)) }
        ensures none { IfNone result (is_type version number ≡ false) }
    {
        match number {
            0 => Some(Kind::SerialNotify),
            1 => Some(Kind::SerialQuery),
            2 => Some(Kind::ResetQuery),
            3 => Some(Kind::CacheResponse),
            4 => Some(Kind::Ipv4Prefix),
            6 => Some(Kind::Ipv6Prefix),
            7 => Some(Kind::EndOfData),
            8 => Some(Kind::CacheReset),
            9 => match version {
                Version::V0 => None,
                Version::V1 => Some(Kind::RouterKey),
            },
            10 => Some(Kind::ErrorReport),
            _ => None,
        }
    }

    /// The type number, as in the header of a PDU.
    pub fn number(self) -> u8
        ensures { result ≡ type_number self }
    {
        self as u8
    }

    /// The length in bytes of a PDU of this type, header included. Only an End of Data depends on the version: it has 12 bytes in version 0, and
    /// 24 in version 1.
    /// For a Router Key it excludes the key, for an Error Report the copy and the text: it is the minimum length. A Router Key has 32 in version
    /// 0, too, although version 0 has no such PDU.
    pub fn fixed_len(self, version: Version) -> u32
        ensures { result ≡ fixed_len version self }
    {
        match self {
            Kind::SerialNotify | Kind::SerialQuery => 12,
            Kind::ResetQuery | Kind::CacheResponse | Kind::CacheReset => 8,
            Kind::Ipv4Prefix => 20,
            Kind::Ipv6Prefix => 32,
            Kind::EndOfData => end_of_data_len(version),
            Kind::RouterKey => 32,
            Kind::ErrorReport => 16,
        }
    }

    /// Returns whether a PDU of this type may have this length in bytes, header included. A Router Key and an Error Report may be longer than
    /// `fixed_len`. Neither the limit `MAX_UNIT_LEN` nor whether the version has this type is checked.
    pub fn may_have(self, version: Version, len: u32) -> bool
        ensures { result ≡ may_have version self len }
    {
        match self {
            Kind::RouterKey | Kind::ErrorReport => len >= self.fixed_len(version),
            _ => len == self.fixed_len(version),
        }
    }
}

/// How many bytes an End of Data has: without intervals in version 0 (RFC 6810 section 5.8), with them in version 1
/// (RFC 8210 section 5.8).
fn end_of_data_len(version: Version) -> u32
    ensures { result ≡ end_of_data_len version }
{
    match version {
        Version::V0 => 12,
        Version::V1 => 24,
    }
}
