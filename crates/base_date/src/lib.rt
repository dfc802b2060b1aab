//! Dates of the civil calendar, of the years 1 to 9999.
#![tactic(auto)]

ghost use Rattle.std.specs.Prelude.{◌≡◌, ◌/◌, ◌%◌, ◌≤◌, ◌<◌, ◌^◌, IsTrue, IfSome, length};
ghost use Rattle.std.specs.Option.{ok_or};
ghost use Rattle.base_date.specs.Date.{is_date, date_of, day_of, number_of};

mod laws;
mod moved;

use jiff::civil::Date;
pub use laws::cases;
pub use moved::{Interval, IntervalUnit};
use std::marker::Model;

/// Why a date is refused.
#[derive(Clone, Copy, Debug, PartialEq, Eq, PartialOrd, Ord, Hash)]
pub enum DateFault {
    /// The text is no date of the years 1 to 9999.
    BadDate,
    /// A moved date leaves the years 1 to 9999.
    DateRange,
}

/// A day of the calendar, seen as the number 10000 * year + 100 * month + day.
#[derive(Clone, Copy, Debug, PartialEq, Eq, PartialOrd, Ord, Hash)]
pub struct CivilDate {
    number: u32,
}

impl Model for CivilDate {
    ghost use Rattle.std.specs.Prelude.{ℕ, IsTrue};
    ghost use Rattle.base_date.specs.Date.{is_date};

    ghost Value = { ℕ };

    ghost view = { λ d. d.number };

    ghost invariant = { λ d. IsTrue (is_date d.number) };

    ghost inverse = { λ n. record { number = n } };
}

impl CivilDate {
    /// The date that a text spells: four digits, a hyphen, two digits, a hyphen and two digits, and
    /// a day that the calendar has.
    pub fn read(text: &[u8]) -> Result<CivilDate, DateFault>
        ensures { result ≡ ok_or (date_of text.now) DateFault.BadDate }
    {
        if text.len() != 10 || text[4] != b'-' || text[7] != b'-' {
            return Err(DateFault::BadDate);
        }
        let year = number_of(&text[..4]);
        let month = number_of(&text[5..7]);
        let day = number_of(&text[8..]);
        day_of(year, month, day).ok_or(DateFault::BadDate)
    }

    /// The date as one number: 10000 * year + 100 * month + day.
    pub fn number(&self) -> u32
        ensures value { result ≡ self.now }
        ensures valid { IsTrue (is_date self.now) }
    {
        self.number
    }

    /// The year, from 1 to 9999.
    pub fn year(&self) -> u32
        ensures value { result ≡ self.now / 10000 }
        ensures valid { IsTrue (is_date self.now) }
    {
        self.number / 10_000
    }

    /// The month, from 1 to 12.
    pub fn month(&self) -> u32
        ensures value { result ≡ self.now / 100 % 100 }
        ensures valid { IsTrue (is_date self.now) }
    {
        self.number / 100 % 100
    }

    /// The day of the month, from 1.
    pub fn day(&self) -> u32
        ensures value { result ≡ self.now % 100 }
        ensures valid { IsTrue (is_date self.now) }
    {
        self.number % 100
    }
}

// The number that up to four digits spell.
fn number_of(digits: &[u8]) -> Option<u16>
    requires { length digits.now ≤ 4 }
    ensures value { result ≡ number_of digits.now }
    ensures bound { IfSome result (λ n. n < 10 ^ length digits.now) }
{
    let mut number: u16 = 0;
    for digit in digits {
        if !digit.is_ascii_digit() {
            return None;
        }
        number = 10 * number + (*digit - b'0') as u16;
    }
    Some(number)
}

// The day of that year, month and day, if the calendar has it.
fn day_of(year: Option<u16>, month: Option<u16>, day: Option<u16>) -> Option<CivilDate>
    requires year { IfSome year (λ n. n < 10 ^ 4) }
    requires month { IfSome month (λ n. n < 10 ^ 2) }
    requires day { IfSome day (λ n. n < 10 ^ 2) }
    ensures { result ≡ day_of year month day }
{
    let (year, month, day) = (year?, month?, day?);
    if year == 0 || Date::new(year as i16, month as i8, day as i8).is_err() {
        return None;
    }
    let number = 10_000 * u32::from(year) + 100 * u32::from(month) + u32::from(day);
    Some(CivilDate { number })
}
