//! The names of the codes of Error Reports.
ghost use Rattle.std.specs.Prelude.{◌≡◌};
ghost use Rattle.event_log.specs.ReportNames.{report_name};

/// The code by which a protocol version is refused (RFC 8210 sections 7 and 12).
pub(crate) const UNSUPPORTED_VERSION: u16 = 4;

/// Returns the name of the error code of an Error Report (RFC 8210 section 12), such as `Corrupt Data` for 0. Any other number gives `unknown`.
pub fn report_name(code: u16) -> &'static str
    ensures { result.now ≡ report_name code }
{
    match code {
        0 => "Corrupt Data",
        1 => "Internal Error",
        2 => "No Data Available",
        3 => "Invalid Request",
        4 => "Unsupported Protocol Version",
        5 => "Unsupported PDU Type",
        6 => "Withdrawal of Unknown Record",
        7 => "Duplicate Announcement Received",
        8 => "Unexpected Protocol Version",
        _ => "unknown",
    }
}
