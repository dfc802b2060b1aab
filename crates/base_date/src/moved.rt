//! Dates moved by intervals.
ghost use Rattle.std.specs.Prelude.{◌≡◌, ℕ, ◌+◌, ◌-◌, ◌*◌, ◌/◌, ◌%◌, ◌≤◌, ◌<◌, ◌^◌, ℤ, pos, ◌+ℤ◌};
ghost use Rattle.std.specs.Prelude.{◌*ℤ◌, ◌≤ℤ◌, IsTrue, IfOk, unsigned_abs, neg_ℤ, MatchOption, Ok};
ghost use Rattle.std.specs.Prelude.{IsOk, ◌↔◌, ◌<ℤ◌};
ghost use Rattle.jiff.specs.Words.{IsYmd, IsBetween, IsEpochDay, epoch_day};
ghost use Rattle.base_date.specs.Date.{is_date, is_day, date_number};
ghost use Rattle.base_date.specs.Move.{day_of_date, days_moved, in_years, month_number};
ghost use Rattle.base_date.specs.Move.{months_moved, moved, month_days, day_in_month};
ghost use Rattle.base_date.specs.Move.{IsMonthOutside};

use crate::{CivilDate, DateFault};
use jiff::ToSpan;
use jiff::civil::{Date, date};

/// The unit of an interval.
#[derive(Clone, Copy, Debug, PartialEq, Eq, PartialOrd, Ord, Hash)]
pub enum IntervalUnit {
    /// Days of the calendar.
    Day,
    /// Months of the calendar, of 28 to 31 days.
    Month,
    /// Twelve months.
    Year,
}

/// A count of days, months or years, backward where it is negative.
#[derive(Clone, Copy, Debug, PartialEq, Eq, PartialOrd, Ord, Hash)]
pub struct Interval {
    /// How many, backward where it is negative.
    pub count: i32,
    /// Of what.
    pub unit: IntervalUnit,
}

// No two days of the library's calendar are further apart.
const MOST_DAYS: u32 = 7_304_484;

impl CivilDate {
    /// The date moved by the interval. A month or year later or earlier is the same day of the
    /// month, or the month's last day where it has fewer. DateRange where that leaves the years 1
    /// to 9999.
    pub fn plus(&self, by: Interval) -> Result<CivilDate, DateFault>
        ensures { result ≡ moved self.now by.count by.unit }
    {
        match by.unit {
            IntervalUnit::Day => self.plus_days(by.count),
            IntervalUnit::Month => self.plus_months(by.count as i64),
            IntervalUnit::Year => self.plus_years(by.count as i64),
        }
    }

    fn plus_years(&self, count: i64) -> Result<CivilDate, DateFault>
        requires { IsBetween (neg_ℤ (pos (2 ^ 32))) (pos (2 ^ 32)) count }
        ensures { result ≡ months_moved (day_of_date self.now)
            (pos (month_number (day_of_date self.now)) +ℤ count *ℤ pos 12) }
    {
        self.plus_months(12 * count)
    }

    #[tactic(auto, using(crate::proofs::Months::months_outside, crate::proofs::Months::months_inside))]
    fn plus_months(&self, count: i64) -> Result<CivilDate, DateFault>
        requires { IsBetween (neg_ℤ (pos (2 ^ 36))) (pos (2 ^ 36)) count }
        ensures { result ≡ months_moved (day_of_date self.now)
            (pos (month_number (day_of_date self.now)) +ℤ count) }
    {
        let number = 12 * self.year() + (self.month() - 1);
        match month_moved(number, count) {
            Some(number) => Ok(date_in_month(number, self.day())),
            None => Err(DateFault::DateRange),
        }
    }

    #[tactic(auto, using(crate::proofs::Library::too_far, crate::proofs::Library::no_such_day, crate::proofs::Library::too_early, crate::proofs::Library::day_reached))]
    fn plus_days(&self, count: i32) -> Result<CivilDate, DateFault>
        ensures { result ≡ in_years (days_moved (day_of_date self.now) count) }
    {
        let from = self.to_jiff();
        if count.unsigned_abs() > MOST_DAYS {
            return Err(DateFault::DateRange);
        }
        match days_after(from, count) {
            Err(_) => Err(DateFault::DateRange),
            Ok(to) => of_years(to),
        }
    }

    // The same day as the library has it.
    fn to_jiff(&self) -> Date
        ensures day { IsYmd (pos (self.now / 10000)) (pos (self.now / 100 % 100))
            (pos (self.now % 100)) result }
        ensures valid { IsTrue (is_date self.now) }
    {
        date(self.year() as i16, self.month() as i8, self.day() as i8)
    }
}

// The library's day `count` days after another, or before it.
fn days_after(from: Date, count: i32) -> Result<Date, jiff::Error>
    requires { unsigned_abs count ≤ 7304484 }
    ensures succeeds { IsOk result ↔ IsEpochDay (epoch_day from +ℤ count) }
    ensures value { IfOk result (λ day. epoch_day day ≡ epoch_day from +ℤ count) }
{
    from.checked_add((count as i64).days())
}

// The library's day, where it is of the years from 1 on.
fn of_years(day: Date) -> Result<CivilDate, DateFault>
    ensures early { day.year <ℤ pos 1 → result ≡ Err DateFault.DateRange }
    ensures other { pos 1 ≤ℤ day.year
        → result ≡ Ok (date_number (unsigned_abs day.year) day.month day.day) }
{
    if day.year() < 1 {
        return Err(DateFault::DateRange);
    }
    Ok(date_of_day(day.year() as u32, day.month() as u32, day.day() as u32))
}

// The number of a month `count` months later or earlier, where it is of the years 1 to 9999.
fn month_moved(number: u32, count: i64) -> Option<u32>
    requires number { number < 2 ^ 20 }
    requires count { IsBetween (neg_ℤ (pos (2 ^ 36))) (pos (2 ^ 36)) count }
    ensures { MatchOption result (IsMonthOutside (pos number +ℤ count))
        (λ n. (pos n ≡ pos number +ℤ count) × (12 ≤ n) × (n < 120000)) }
{
    let moved = i64::from(number) + count;
    if moved < 12 || moved >= 120_000 {
        None
    } else {
        Some(moved as u32)
    }
}

// The day of the month with that number, or the month's last day.
#[tactic(auto, using(crate::proofs::Months::day_in_month_is))]
fn date_in_month(number: u32, day: u32) -> CivilDate
    requires low { 12 ≤ number }
    requires high { number < 120000 }
    requires day { 1 ≤ day }
    ensures { Ok result ≡ in_years (day_in_month number day) }
{
    let year = number / 12;
    let month = number % 12 + 1;
    let day = day.min(month_length(year, month));
    date_of_day(year, month, day)
}

// The date of a day that the calendar has.
fn date_of_day(year: u32, month: u32, day: u32) -> CivilDate
    requires { IsTrue (is_day year month day) }
    ensures { result ≡ date_number year month day }
{
    CivilDate {
        number: 10_000 * year + 100 * month + day,
    }
}

// How many days the month has.
fn month_length(year: u32, month: u32) -> u32
    requires year { (1 ≤ year) × (year ≤ 9999) }
    requires month { (1 ≤ month) × (month ≤ 12) }
    ensures { result ≡ month_days year month }
{
    date(year as i16, month as i8, 1).days_in_month() as u32
}
