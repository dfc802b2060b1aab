//! Values as the fields of lines.
ghost use Rattle.std.specs.Prelude.{◌≡◌, ◌<◌, ◌+◌, ◌%◌, ◌++◌, OnOk, length, map, pos};
ghost use Rattle.std.specs.Prelude.{slice_index_or};
ghost use Rattle.std.specs.Fmt.{decimal};
ghost use Rattle.base_null_marks.specs.Marks.{marked};
ghost use Rattle.base_decimal.specs.Written.{decimal_written, size_written};
ghost use Rattle.base_value.specs.declared.value.Value.TheVariants.{Null, Number};
ghost use Rattle.base_value.specs.declared.value.Value.TheVariants.{Date as DateOf};
ghost use Rattle.store_refresh_text.specs.Text.{date_written, field_written};

use base_columns::Column;
use base_date::CivilDate;
use base_decimal::{Scale, push_decimal};
use base_null_marks::Marks;
use base_value::Value;
use itoa::Buffer;
use std::alloc::{AllocError, Global};

/// The digit of a number's last place.
fn digit(number: u64) -> u8
    ensures { result ≡ 48 + number % 10 }
{
    b'0' + (number % 10) as u8
}

/// Appends a date as YYYY-MM-DD.
#[tactic(auto, using(crate::proofs::Cells::dates))]
fn push_date(text: &mut Vec<u8>, date: CivilDate) -> Result<(), AllocError>
    ensures { OnOk result (text.new.items ≡ text.old.items ++ date_written date) }
{
    let year = date.year() as u64;
    let month = date.month() as u64;
    let day = date.day() as u64;
    text.extend_from_slice(&[
        digit(year / 1000),
        digit(year / 100),
        digit(year / 10),
        digit(year),
        b'-',
        digit(month / 10),
        digit(month),
        b'-',
        digit(day / 10),
        digit(day),
    ])
}

/// Appends a number's digits.
fn push_whole(text: &mut Vec<u8>, size: u64) -> Result<(), AllocError>
    ensures { OnOk result (text.new.items ≡ text.old.items ++ decimal size) }
{
    let mut buffer = Buffer::new();
    text.extend_from_slice(buffer.format(size).as_bytes())
}

/// Appends a number of hundredths, with both places after a point.
#[tactic(auto, using(crate::proofs::Cells::cents))]
fn push_cents(text: &mut Vec<u8>, size: u64) -> Result<(), AllocError>
    ensures { OnOk result (text.new.items ≡ text.old.items ++ size_written size 2) }
{
    push_whole(text, size / 100)?;
    text.extend_from_slice(&[b'.', digit(size / 10), digit(size)])
}

/// Appends a number of 64 bits, with all the places of its scale.
pub(crate) fn push_number(text: &mut Vec<u8>, number: i64, scale: Scale) -> Result<(), AllocError>
    ensures { OnOk result (text.new.items ≡ text.old.items ++ decimal_written number scale) }
{
    if number < 0 {
        return push_decimal(text, i128::from(number), scale);
    }
    let size = number.unsigned_abs();
    match scale.places() {
        0 => push_whole(text, size),
        2 => push_cents(text, size),
        _ => push_decimal(text, i128::from(number), scale),
    }
}

/// Appends a null's field.
fn push_null(text: &mut Vec<u8>) -> Result<(), AllocError>
    ensures { OnOk result (text.new.items ≡ text.old.items ++ field_written Null) }
{
    text.extend_from_slice(b"\\N")
}

/// Appends a value as a field has it.
fn push_value(text: &mut Vec<u8>, value: &Value) -> Result<(), AllocError>
    ensures { OnOk result (text.new.items ≡ text.old.items ++ field_written value.now) }
{
    match value {
        Value::Fault(_) => Ok(()),
        Value::Number(scale, coefficient) => push_decimal(text, *coefficient, *scale),
        Value::Text(plain) => text.extend_from_slice(plain.bytes()),
        Value::Date(date) => push_date(text, *date),
        Value::Null => push_null(text),
    }
}

/// The number at a place.
fn number_at(numbers: &[i64], i: usize) -> i64
    requires { i < length numbers.now }
    ensures { result ≡ slice_index_or numbers.now i (pos 0) }
{
    numbers[i]
}

/// Appends the number at a place as a field has it, or null where it is marked.
#[tactic(auto, using(crate::proofs::Cells::places))]
fn push_number_at(
    text: &mut Vec<u8>,
    scale: Scale,
    numbers: &[i64],
    marks: &Marks,
    i: usize,
) -> Result<(), AllocError>
    requires { i < length numbers.now }
    ensures { OnOk result (text.new.items ≡ text.old.items ++ field_written
        (slice_index_or (marked Null marks.now (map (Number scale) numbers.now)) i Null)) }
{
    if marks.has(i) {
        return push_null(text);
    }
    push_number(text, number_at(numbers, i), scale)
}

/// Appends the date at a place as a field has it, or null where it is marked.
#[tactic(auto, using(crate::proofs::Cells::places))]
fn push_date_at(
    text: &mut Vec<u8>,
    dates: &[CivilDate],
    marks: &Marks,
    i: usize,
) -> Result<(), AllocError>
    requires { i < length dates.now }
    ensures { OnOk result (text.new.items ≡ text.old.items ++ field_written
        (slice_index_or (marked Null marks.now (map DateOf dates.now)) i Null)) }
{
    if marks.has(i) {
        return push_null(text);
    }
    push_date(text, dates[i])
}

/// Appends the value at a place of a column as a field has it. Of a number, a date or a text that
/// lies as such nothing is copied before.
pub(crate) fn push_field(text: &mut Vec<u8>, column: &Column, i: usize) -> Result<(), AllocError>
    requires { i < length column.now }
    ensures { OnOk result (text.new.items
        ≡ text.old.items ++ field_written (slice_index_or column.now i Null)) }
{
    if let Some(numbers) = column.marked_numbers() {
        return push_number_at(text, numbers.0, numbers.1, numbers.2, i);
    }
    if let Some(dates) = column.marked_dates() {
        return push_date_at(text, dates.0, dates.1, i);
    }
    if let Some(plain) = column.text(i) {
        return text.extend_from_slice(plain);
    }
    let alloc = *text.allocator();
    let value = column.at(alloc, i)?;
    push_value(text, &value)
}
