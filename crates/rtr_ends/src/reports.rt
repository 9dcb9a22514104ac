//! Error Reports that are sent (RFC 8210 sections 5.11 and 12).
ghost use Rattle.std.specs.Prelude.{◌≡◌, true, IfSome};
ghost use Rattle.rtr_pdu.specs.declared.version.Version.{Version as Protocol};
ghost use Rattle.rtr_pdu.specs.Stream.{type_of};
ghost use Rattle.rtr_pdu.specs.Unit.{fits};
ghost use Rattle.rtr_ends.specs.Answer.{report, sent};
ghost use Rattle.rtr_ends.specs.Connection.{agreed_version, fault_code, fault_report};
ghost use Rattle.rtr_ends.specs.Peer.{maybe};

use arrayvec::ArrayVec;
use rtr_pdu::{ErrorReport, Kind, REPORT_ROOM, Unit, UnitFault, Version, encode_as, error_code};

/// The type byte of a PDU: its second byte. It is 0 if there are fewer than 2 bytes.
pub fn type_byte(bytes: &[u8]) -> u8
    ensures { result ≡ type_of bytes.now }
{
    if bytes.len() > 1 { bytes[1] } else { 0 }
}

/// Returns `version` if the connection has agreed on it, otherwise `None`.
pub fn agreed_version(agreed: bool, version: Version) -> Option<Version>
    ensures { result ≡ agreed_version agreed version }
{
    if agreed { Some(version) } else { None }
}

/// The error code for a fault (RFC 8210 section 12). `Version` has code 8 if the connection agreed on version 1. Otherwise it has code 4, also
/// after agreement on version 0, as RFC 6810 has no code 8.
/// `Type` has code 5. All other faults have code 0.
pub fn code_of(agreed: Option<Version>, fault: UnitFault) -> u16
    ensures { result ≡ fault_code agreed fault }
{
    match fault {
        UnitFault::Version => match agreed {
            Some(Version::V1) => error_code::UNEXPECTED_VERSION,
            _ => error_code::UNSUPPORTED_VERSION,
        },
        UnitFault::Type => error_code::UNSUPPORTED_TYPE,
        _ => error_code::CORRUPT_DATA,
    }
}

/// Makes an Error Report of this code, without text. It encloses `copy`, cut to its first 4,080 bytes if it is longer.
pub fn report(code: u16, copy: &[u8]) -> Unit
    ensures { result ≡ report code copy.now }
{
    let room = copy.len().min(REPORT_ROOM);
    Unit::ErrorReport(ErrorReport::new(code, &copy[..room], ""))
}

/// Makes an Error Report of this code (RFC 8210 section 5.11) that encloses `unit` as it is encoded in `version`, cut to its first 4,080 bytes
/// if it is longer. The report has no text. `unit` must fit the version.
pub fn report_on(version: Version, code: u16, unit: &Unit) -> Unit
    requires { fits version unit.now ≡ true }
    ensures { result ≡ report code (sent version unit.now) }
{
    let mut buffer = ArrayVec::new();
    encode_as(version, unit, &mut buffer);
    report(code, buffer.as_slice())
}

/// The Error Report on a fault that `bytes` show, with the code by `code_of` and a copy of the bytes. `agreed` is the version that the
/// connection agreed on, if any.
/// `None`: the type byte is that of an Error Report (RFC 8210 section 5.11), or the fault is `Truncated`.
pub fn fault_unit(agreed: Option<Version>, fault: UnitFault, bytes: &[u8]) -> Option<Unit>
    ensures value { maybe result ≡ fault_report agreed fault bytes.now }
    ensures fits { IfSome result (λ unit. (version : Protocol) → fits version unit ≡ true) }
{
    if type_byte(bytes) == Kind::ErrorReport.number() {
        return None;
    }
    match fault {
        UnitFault::Truncated => None,
        _ => Some(report(code_of(agreed, fault), bytes)),
    }
}
