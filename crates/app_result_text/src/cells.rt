//! The values of an answer's rows.
ghost use Rattle.std.specs.Prelude.{◌≡◌, ◌<◌, ◌++◌, OnOk, IsTrue, length, map, pos};
ghost use Rattle.std.specs.Prelude.{slice_index_or};
ghost use Rattle.base_null_marks.specs.Marks.{marked};
ghost use Rattle.base_value.specs.declared.value.Value.TheVariants.{Null, Number};
ghost use Rattle.base_value.specs.declared.value.Value.TheVariants.{Date as DateOf};
ghost use Rattle.app_result_text.specs.Answer.{date_written, is_no_fault, value_written};

use crate::decimal::{digit, push_small_decimal};
use crate::escaped::push_escaped;
use base_columns::Column;
use base_date::CivilDate;
use base_decimal::{Scale, push_decimal};
use base_null_marks::Marks;
use base_value::Value;
use std::alloc::AllocError;

/// Appends a date as YYYY-MM-DD.
#[tactic(auto, using(crate::proofs::RowCells::dates))]
fn push_date(text: &mut Vec<u8>, date: CivilDate) -> Result<(), AllocError>
    ensures { OnOk result (text.new.items ≡ text.old.items ++ date_written date) }
{
    let year = date.year() as u64;
    let month = date.month() as u64;
    let day = date.day() as u64;
    text.extend_from_slice(&[
        digit(year / 1000),
        digit(year / 100),
        digit(year / 10),
        digit(year),
        b'-',
        digit(month / 10),
        digit(month),
        b'-',
        digit(day / 10),
        digit(day),
    ])
}

/// Appends a null.
fn push_null(text: &mut Vec<u8>) -> Result<(), AllocError>
    ensures { OnOk result (text.new.items ≡ text.old.items ++ value_written Null) }
{
    text.extend_from_slice(b"\\N")
}

/// Appends a value, which is no fault.
pub(crate) fn push_value(text: &mut Vec<u8>, value: &Value) -> Result<(), AllocError>
    requires { IsTrue (is_no_fault value.now) }
    ensures { OnOk result (text.new.items ≡ text.old.items ++ value_written value.now) }
{
    match value {
        Value::Fault(_) => Ok(()),
        Value::Number(scale, coefficient) => push_decimal(text, *coefficient, *scale),
        Value::Text(plain) => push_escaped(text, plain.bytes()),
        Value::Date(date) => push_date(text, *date),
        Value::Null => push_null(text),
    }
}

/// The number at a place.
fn number_at(numbers: &[i64], i: usize) -> i64
    requires { i < length numbers.now }
    ensures { result ≡ slice_index_or numbers.now i (pos 0) }
{
    numbers[i]
}

/// Appends the number at a place, or null where it is marked.
#[tactic(auto, using(crate::proofs::RowCells::places))]
fn push_number_at(
    text: &mut Vec<u8>,
    scale: Scale,
    numbers: &[i64],
    marks: &Marks,
    i: usize,
) -> Result<(), AllocError>
    requires { i < length numbers.now }
    ensures { OnOk result (text.new.items ≡ text.old.items ++ value_written
        (slice_index_or (marked Null marks.now (map (Number scale) numbers.now)) i Null)) }
{
    if marks.has(i) {
        return push_null(text);
    }
    push_small_decimal(text, number_at(numbers, i), scale)
}

/// Appends the date at a place, or null where it is marked.
#[tactic(auto, using(crate::proofs::RowCells::places))]
fn push_date_at(
    text: &mut Vec<u8>,
    dates: &[CivilDate],
    marks: &Marks,
    i: usize,
) -> Result<(), AllocError>
    requires { i < length dates.now }
    ensures { OnOk result (text.new.items ≡ text.old.items ++ value_written
        (slice_index_or (marked Null marks.now (map DateOf dates.now)) i Null)) }
{
    if marks.has(i) {
        return push_null(text);
    }
    push_date(text, dates[i])
}

/// Appends the value at a place of a column, which is no fault. Of a number, a date or a text that
/// lies as such nothing is copied before.
pub(crate) fn push_cell(text: &mut Vec<u8>, column: &Column, i: usize) -> Result<(), AllocError>
    requires inside { i < length column.now }
    requires no_fault { IsTrue (is_no_fault (slice_index_or column.now i Null)) }
    ensures { OnOk result (text.new.items
        ≡ text.old.items ++ value_written (slice_index_or column.now i Null)) }
{
    if let Some(numbers) = column.marked_numbers() {
        return push_number_at(text, numbers.0, numbers.1, numbers.2, i);
    }
    if let Some(dates) = column.marked_dates() {
        return push_date_at(text, dates.0, dates.1, i);
    }
    if let Some(plain) = column.text(i) {
        return push_escaped(text, plain);
    }
    let alloc = *text.allocator();
    let value = column.at(alloc, i)?;
    push_value(text, &value)
}
