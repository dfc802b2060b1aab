//! Dates counted from the first day of the data.
ghost use Rattle.std.specs.Prelude.{◌≡◌, ◌≤◌, ◌++◌, pos, OnOk};
ghost use Rattle.base_date.specs.Move.{day_at, day_of_date, days_moved, in_years};
ghost use Rattle.app_sample_data.specs.Fields.{date_text, day_text, field};

use crate::fields::push_bar;
use base_date::{CivilDate, DateFault, Interval, IntervalUnit};
use base_decimal::push_last_digits;
use std::alloc::AllocError;

/// 1992-01-01.
fn first_day() -> CivilDate
    ensures { result ≡ 19920101 }
{
    match CivilDate::read(b"1992-01-01") {
        Ok(day) => day,
        Err(_) => unreachable!(),
    }
}

/// The count of an interval.
fn signed(days: u64) -> i32
    requires { days ≤ 4000 }
    ensures { result ≡ pos days }
{
    days as i32
}

/// The day `days` days after the first one, where the calendar has it.
fn moved_by(days: u64) -> Result<CivilDate, DateFault>
    requires { days ≤ 4000 }
    ensures { result ≡ in_years (days_moved (day_at 1992 1 1) (pos days)) }
{
    let by = Interval {
        count: signed(days),
        unit: IntervalUnit::Day,
    };
    first_day().plus(by)
}

/// The day `days` days after the first one. None of these days leaves the calendar.
fn day_after_first(days: u64) -> CivilDate
    requires { days ≤ 4000 }
    ensures { day_of_date result ≡ days_moved (day_at 1992 1 1) (pos days) }
{
    match moved_by(days) {
        Ok(day) => day,
        Err(_) => unreachable!(),
    }
}

/// Appends a field of a date as YYYY-MM-DD.
#[tactic(auto, unfolding(crate::specs::Fields::field, crate::specs::Fields::day_text))]
fn push_day(text: &mut Vec<u8>, day: CivilDate) -> Result<(), AllocError>
    ensures { OnOk result (text.new.items ≡ text.old.items ++ field (day_text (day_of_date day))) }
{
    push_last_digits(text, day.year() as u64, 4)?;
    text.push(b'-')?;
    push_last_digits(text, day.month() as u64, 2)?;
    text.push(b'-')?;
    push_last_digits(text, day.day() as u64, 2)?;
    push_bar(text)?;
    Ok(())
}

/// Appends a field of the date `days` days after the first one.
#[tactic(auto, unfolding(crate::specs::Fields::date_text))]
pub fn push_date(text: &mut Vec<u8>, days: u64) -> Result<(), AllocError>
    requires { days ≤ 4000 }
    ensures { OnOk result (text.new.items ≡ text.old.items ++ field (date_text days)) }
{
    push_day(text, day_after_first(days))?;
    Ok(())
}
