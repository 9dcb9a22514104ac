//! How many seconds after the beginning of 1970 a moment is.

ghost use Rattle.std.specs.Prelude.{◌≡◌, ◌<◌, ◌≤◌, ◌-◌, ◌*◌};
ghost use Rattle.der_lite.specs.Moments.{days_of_month, is_leap};
ghost use Rattle.der_lite.specs.Seconds.{days_of_months, days_of_year, days_of_years};

use crate::moment::FIRST_YEAR;

/// Whether a year has a 29 February: every fourth has, but of the centuries only every fourth.
fn is_leap(year: u16) -> bool
    ensures { result ≡ is_leap year }
{
    year % 4 == 0 && (year % 100 != 0 || year % 400 == 0)
}

/// Returns the number of days of a year: 365, or 366 in a leap year of the Gregorian calendar.
pub fn days_of_year(year: u16) -> u64
    ensures value { result ≡ days_of_year year }
    ensures small { result ≤ 366 }
{
    if is_leap(year) { 366 } else { 365 }
}

/// Returns the number of days of a month in the Gregorian calendar, 28 to 31. `month` is a number from 1 to 12. For any other number the result
/// is 31.
pub fn days_of_month(year: u16, month: u16) -> u64
    ensures value { result ≡ days_of_month year month }
    ensures small { result ≤ 31 }
{
    match month {
        2 => { if is_leap(year) { 29 } else { 28 } }
        4 | 6 | 9 | 11 => 30,
        _ => 31,
    }
}

/// How many days there are from the beginning of 1970 to that of a year.
pub(crate) fn days_before_year(year: u16) -> u64
    requires { 1970 ≤ year }
    ensures value { result ≡ days_of_years (year - 1970) }
    ensures small { result ≤ 366 * (year - 1970) }
{
    let mut days = 0;
    for count in 0..year - FIRST_YEAR {
        days += days_of_year(FIRST_YEAR + count);
    }
    days
}

/// How many days of a year there are before one of its months.
pub(crate) fn days_before_month(year: u16, month: u16) -> u64
    requires { 1 ≤ month }
    ensures value { result ≡ days_of_months year (month - 1) }
    ensures small { result ≤ 31 * (month - 1) }
{
    let mut days = 0;
    for count in 0..month - 1 {
        days += days_of_month(year, count + 1);
    }
    days
}
