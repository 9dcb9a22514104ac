//! Moments: a civil date with a time of day in UTC, and its text.

ghost use Rattle.std.specs.Prelude.{◌≡◌, ◌<◌, ◌≤◌, ◌+◌, ◌==◌, IfSome, IsTrue, length, take, slice_range, Some};
ghost use Rattle.std.proofs.Common.{rules};
ghost use Rattle.std.specs.Char.{is_ascii_digit};
ghost use Rattle.std.specs.List.{list_all};
ghost use Rattle.std.specs.Cmp.{partial_order_from_own_ties};
ghost use Rattle.std.specs.Cmp.Rules.{comparing};
ghost use Rattle.std.specs.Ordering.{on, nat_cmp, as_partial_cmp};
ghost use Rattle.std.specs.Cmp.Lexicographic.{slice_cmp, pointwise};
ghost use Rattle.der_lite.specs.Moments.{is_moment, decimals, decimal_number, moment_text, if_real, moment_in, moment_cmp, numbers_of, told_moment, IsMomentOf};
ghost use Rattle.der_lite.specs.Seconds.{seconds_of};

use crate::fault::MomentFault;
use crate::seconds::{days_before_month, days_before_year};
use jiff::civil::DateTime;
use std::cmp::Ordering;
use std::fmt::{self, Display};
use std::marker::Model;
use std::str::{self, FromStr};

/// The first year of moments.
pub(crate) const FIRST_YEAR: u16 = 1970;

/// How many digits a text has before its `Z`.
const DIGITS: usize = 14;

/// A date with a time of day in UTC, in whole seconds, of the years 1970 to 9999. It is never a leap second.
///
/// Values compare by time: the earlier one is less.
#[derive(Clone, Copy, Debug)]
pub struct Moment {
    civil: DateTime,
}

impl Model for Moment {
    ghost use Rattle.der_lite.specs.Moments.{CivilMoment};
    ghost use Rattle.der_lite.specs.Civils.{civil_moment, civil_of, civil_again, HasWholeSecond};

    ghost Value = { CivilMoment };

    ghost view = { λ m. civil_moment m.civil };

    ghost invariant = { λ m. HasWholeSecond m.civil };

    ghost inverse = { λ m. record { civil = civil_of m } };

    ghost inverse_ok = { λ m h i. record { civil = civil_again m.civil h i } };
}

impl Moment {
    /// Reads a date and time in the form `YYYYMMDDHHMMSSZ`, in UTC (X.690 section 11.7; RFC 5280 section 4.1.2.5.2).
    /// `None`: the text has another form, or is not a real date and time of the years 1970 to 9999. A second of 60 is refused, too.
    pub fn parse(text: &str) -> Option<Moment>
        ensures { IsMomentOf text.now result }
    {
        Moment::from_text(text.as_bytes())
    }

    /// Reads a date and time from the bytes of its text, by the rules of [`parse`](Moment::parse). `None`: `parse` would refuse these bytes.
    pub fn from_text(text: &[u8]) -> Option<Moment>
        ensures says { IsMomentOf text.now result }
        ensures value { result ≡ moment_in text.now }
        ensures real { IfSome result (λ moment. IsTrue (is_moment moment)) }
    {
        let digits = text.strip_suffix(b"Z")?;
        if digits.len() != DIGITS || !are_digits(digits) {
            return None;
        }
        Moment::new(
            four_digits(digits),
            two_digits(digits, 4),
            two_digits(digits, 6),
            two_digits(digits, 8),
            two_digits(digits, 10),
            two_digits(digits, 12),
        )
    }

    /// The moment of these numbers, if they are one.
    fn new(year: u16, month: u8, day: u8, hour: u8, minute: u8, second: u8) -> Option<Moment>
        requires year { year < 10000 }
        requires month { month < 100 }
        requires day { day < 100 }
        requires hour { hour < 100 }
        requires minute { minute < 100 }
        requires second { second < 100 }
        ensures { result ≡ if_real (told_moment year month day hour minute second) }
    {
        if year < FIRST_YEAR {
            return None;
        }
        let civil = DateTime::new(
            year as i16,
            month as i8,
            day as i8,
            hour as i8,
            minute as i8,
            second as i8,
            0,
        );
        match civil {
            Ok(civil) => Some(Moment { civil }),
            Err(_) => None,
        }
    }

    /// The six numbers, the year first.
    fn numbers(&self) -> [u16; 6]
        ensures value { result ≡ numbers_of self.now }
        ensures real { IsTrue (is_moment self.now) }
    {
        let civil = self.civil;
        [
            civil.year() as u16,
            civil.month() as u16,
            civil.day() as u16,
            civil.hour() as u16,
            civil.minute() as u16,
            civil.second() as u16,
        ]
    }

    /// Returns the number of seconds from the beginning of 1970 in UTC to this date and time. Each day has 86,400 seconds: leap seconds are not
    /// counted.
    pub fn seconds(&self) -> u64
        ensures { result ≡ seconds_of self.now }
    {
        let [year, month, day, hour, minute, second] = self.numbers();
        let days = days_before_year(year) + days_before_month(year, month) + u64::from(day - 1);
        let hours = days * 24 + u64::from(hour);
        let minutes = hours * 60 + u64::from(minute);
        minutes * 60 + u64::from(second)
    }

    /// Returns the date and time in UTC as 15 bytes of ASCII text, `YYYYMMDDHHMMSSZ`. [`from_text`](Moment::from_text) reads the same date and time
    /// from it.
    pub fn text(&self) -> [u8; 15]
        ensures value { result ≡ moment_text self.now }
        ensures real { IsTrue (is_moment self.now) }
    {
        let [year, month, day, hour, minute, second] = self.numbers();
        let [y1, y2] = decimals(year / 100);
        let [y3, y4] = decimals(year % 100);
        let [m1, m2] = decimals(month);
        let [d1, d2] = decimals(day);
        let [h1, h2] = decimals(hour);
        let [n1, n2] = decimals(minute);
        let [s1, s2] = decimals(second);
        [y1, y2, y3, y4, m1, m2, d1, d2, h1, h2, n1, n2, s1, s2, b'Z']
    }
}

/// Reads a text by the rules of [`parse`](Moment::parse). `MomentFault`: `parse` returns `None`.
impl FromStr for Moment {
    type Err = MomentFault;

    ghost use Rattle.std.specs.Prelude.{None, Some, IfOk, OnErr};
    ghost use Rattle.der_lite.specs.Moments.{IsMomentOf};

    ghost from_str_gives = { λ text result. IfOk result (λ moment. IsMomentOf text (Some moment)) × OnErr result (IsMomentOf text None) };

    fn from_str(text: &str) -> Result<Moment, MomentFault> {
        match Moment::parse(text) {
            Some(moment) => Ok(moment),
            None => Err(MomentFault),
        }
    }
}

/// Whether each byte is a decimal digit.
fn are_digits(text: &[u8]) -> bool
    ensures { result ≡ list_all is_ascii_digit text.now }
{
    text.iter().all(u8::is_ascii_digit)
}

/// The number that the two decimal digits at this place spell.
fn two_digits(digits: &[u8], at: usize) -> u8
    requires within { at + 1 < length digits.now }
    requires digits { IsTrue (list_all is_ascii_digit digits.now) }
    ensures value { result ≡ decimal_number (slice_range digits.now at (at + 2)) }
    ensures small { result < 100 }
{
    (digits[at] - b'0') * 10 + (digits[at + 1] - b'0')
}

/// The number that the first four decimal digits spell.
fn four_digits(digits: &[u8]) -> u16
    requires within { 4 ≤ length digits.now }
    requires digits { IsTrue (list_all is_ascii_digit digits.now) }
    ensures value { result ≡ decimal_number (take 4 digits.now) }
    ensures small { result < 10000 }
{
    u16::from(two_digits(digits, 0)) * 100 + u16::from(two_digits(digits, 2))
}

/// The last two decimal digits of a number.
fn decimals(number: u16) -> [u8; 2]
    ensures { result ≡ decimals 2 number }
{
    [b'0' + (number / 10 % 10) as u8, b'0' + (number % 10) as u8]
}

impl PartialEq for Moment {
    ghost eq = { on numbers_of (pointwise ◌==◌) };

    ghost laws = { Prim.search (comparing, rules) };

    fn eq(&self, other: &Moment) -> bool {
        self.numbers() == other.numbers()
    }
}

impl Eq for Moment {
    ghost laws = { Prim.search (comparing, rules) };
}

impl Ord for Moment {
    ghost cmp = { moment_cmp };

    ghost total = { Prim.search (comparing, rules) };

    ghost matches_partial_cmp = { Prim.search (comparing, rules) };

    ghost matches_eq = { Prim.search (comparing, rules) };

    fn cmp(&self, other: &Moment) -> Ordering {
        self.numbers().cmp(&other.numbers())
    }
}

impl PartialOrd for Moment {
    ghost partial_cmp = { as_partial_cmp moment_cmp };

    ghost laws = { partial_order_from_own_ties (Prim.search (comparing, rules))
        (Prim.search (comparing, rules)) };

    fn partial_cmp(&self, other: &Moment) -> Option<Ordering> {
        Some(self.cmp(other))
    }
}

/// The text, `YYYYMMDDHHMMSSZ` (X.690 section 11.7; RFC 5280 section 4.1.2.5.2).
impl Display for Moment {
    ghost output = { λ m. Some (moment_text m) };

    fn fmt<W: fmt::Write>(&self, f: &mut fmt::Formatter<W>) -> fmt::Result {
        match str::from_utf8(&self.text()) {
            Ok(text) => f.write_str(text),
            Err(_) => Err(fmt::Error),
        }
    }
}
