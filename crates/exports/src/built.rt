//! When an export was made.
ghost use Rattle.std.specs.Prelude.{option_map, Some};
ghost use Rattle.exports.specs.Built.{IsBuilt, IsTimeOf};

use der_lite::Moment;

/// The seconds from the beginning of 1970 to the moment that a text says: `YYYY-MM-DDTHH:MM:SSZ` (RFC 3339 section 5.6), of the years
/// 1970 to 9999.
fn time_in(text: &str) -> Option<u64>
    ensures { IsTimeOf (Some text.now) result }
{
    let bytes = text.as_bytes();
    if bytes.len() != 20 {
        return None;
    }
    if bytes[4] != b'-' || bytes[7] != b'-' || bytes[10] != b'T' {
        return None;
    }
    if bytes[13] != b':' || bytes[16] != b':' || bytes[19] != b'Z' {
        return None;
    }
    let plain = [
        bytes[0], bytes[1], bytes[2], bytes[3], bytes[5], bytes[6], bytes[8], bytes[9], bytes[11],
        bytes[12], bytes[14], bytes[15], bytes[17], bytes[18], b'Z',
    ];
    match Moment::from_text(&plain) {
        Some(moment) => Some(moment.seconds()),
        None => None,
    }
}

/// The number `generated`, or else what the text `buildtime` says.
pub(crate) fn built(generated: Option<u64>, buildtime: Option<&str>) -> Option<u64>
    ensures { IsBuilt generated (option_map (λ s. s.now) buildtime.entry) result }
{
    if generated.is_some() {
        return generated;
    }
    time_in(buildtime?)
}
