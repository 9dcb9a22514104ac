//! The calendar: the date and time of a second since 1970, and the time of a log line.
ghost use Rattle.std.specs.Prelude.{◌≡◌, ◌<◌, ◌≤◌, ◌+◌, ◌-◌};
ghost use Rattle.der_lite.specs.Moments.{days_of_month, decimals, moment_text, told_moment};
ghost use Rattle.der_lite.specs.Seconds.{days_of_months, days_of_year, days_of_years};
ghost use Rattle.event_log.specs.Clock.{IsAt, IsMomentAt, IsTimeOf, time_text};

use der_lite::{Moment, days_of_month, days_of_year};

/// The last second of the year 9999.
const LAST: u64 = 253_402_300_799;

/// The days from the start of 1970 to the end of 9999.
const DAYS: u64 = 2_932_897;

/// A date and time of day in UTC.
#[derive(Clone, Copy)]
pub(crate) struct Civil {
    pub(crate) year: u16,
    pub(crate) month: u16,
    pub(crate) day: u16,
    pub(crate) hour: u16,
    pub(crate) minute: u16,
    pub(crate) second: u16,
}

/// The year of a day, which is counted from 1970-01-01, and how many days of that year are before it.
fn year_of(days: u64) -> (u16, u64)
    requires { days < DAYS }
    ensures year { (1970 ≤ result.0) × (result.0 ≤ 9999) }
    ensures days { days ≡ days_of_years (result.0 - 1970) + result.1 }
    ensures within { result.1 < days_of_year result.0 }
{
    let mut rest = days;
    for count in 0..8029 {
        let length = days_of_year(1970 + count);
        if rest < length {
            return (1970 + count, rest);
        }
        rest -= length;
    }
    (9999, rest)
}

/// The month of a day of a year, which is counted from the year's first, and how many days of that month are before it.
fn month_of(year: u16, days: u64) -> (u16, u64)
    requires { days < days_of_year year }
    ensures month { (1 ≤ result.0) × (result.0 ≤ 12) }
    ensures days { days ≡ days_of_months year (result.0 - 1) + result.1 }
    ensures within { result.1 < days_of_month year result.0 }
{
    let mut rest = days;
    for count in 0..11 {
        let length = days_of_month(year, count + 1);
        if rest < length {
            return (count + 1, rest);
        }
        rest -= length;
    }
    (12, rest)
}

/// The date and time of this many seconds since 1970, or the last second of the year 9999 after it.
pub(crate) fn civil_at(seconds: u64) -> Civil
    ensures { IsAt (told_moment result.year result.month result.day result.hour result.minute result.second) seconds }
{
    let shown = seconds.min(LAST);
    let (year, days) = year_of(shown / 86_400);
    let (month, before) = month_of(year, days);
    Civil {
        year,
        month,
        day: before as u16 + 1,
        hour: (shown / 3600 % 24) as u16,
        minute: (shown / 60 % 60) as u16,
        second: (shown % 60) as u16,
    }
}

/// The last two decimal digits of a number.
fn decimals(number: u16) -> [u8; 2]
    ensures { result ≡ decimals 2 number }
{
    [b'0' + (number / 10 % 10) as u8, b'0' + (number % 10) as u8]
}

/// The text of a time, `YYYY-MM-DDTHH:MM:SSZ` (RFC 3339 section 5.6).
pub(crate) fn time_text(civil: &Civil) -> [u8; 20]
    ensures { result ≡ time_text (told_moment civil.now.year civil.now.month civil.now.day civil.now.hour civil.now.minute civil.now.second) }
{
    let [y1, y2] = decimals(civil.year / 100);
    let [y3, y4] = decimals(civil.year % 100);
    let [m1, m2] = decimals(civil.month);
    let [d1, d2] = decimals(civil.day);
    let [h1, h2] = decimals(civil.hour);
    let [n1, n2] = decimals(civil.minute);
    let [s1, s2] = decimals(civil.second);
    [
        y1, y2, y3, y4, b'-', m1, m2, b'-', d1, d2, b'T', h1, h2, b':', n1, n2, b':', s1, s2, b'Z',
    ]
}

/// The text of a time without separators, `YYYYMMDDHHMMSSZ` (X.690 section 11.7).
fn short_text(civil: &Civil) -> [u8; 15]
    ensures { result ≡ moment_text (told_moment civil.now.year civil.now.month civil.now.day civil.now.hour civil.now.minute civil.now.second) }
{
    let [
        y1,
        y2,
        y3,
        y4,
        _,
        m1,
        m2,
        _,
        d1,
        d2,
        _,
        h1,
        h2,
        _,
        n1,
        n2,
        _,
        s1,
        s2,
        z,
    ] = time_text(civil);
    [y1, y2, y3, y4, m1, m2, d1, d2, h1, h2, n1, n2, s1, s2, z]
}

/// Returns the UTC date and time of `seconds`, counted since 1970 with days of 86,400 seconds.
/// `None`: `seconds` is over 253,402,300,799, the last second of the year 9999.
pub fn moment_at(seconds: u64) -> Option<Moment>
    ensures { IsMomentAt seconds result }
{
    if seconds > LAST {
        return None;
    }
    Moment::from_text(&short_text(&civil_at(seconds)))
}

/// Returns the text of `seconds`, counted since 1970, as ASCII bytes `YYYY-MM-DDTHH:MM:SSZ` (RFC 3339 section 5.6).
/// After the year 9999 it is the text of that year's last second.
pub fn time_at(seconds: u64) -> [u8; 20]
    ensures { IsTimeOf seconds result }
{
    time_text(&civil_at(seconds))
}
