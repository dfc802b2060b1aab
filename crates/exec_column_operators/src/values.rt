//! Operators that make a column of one or more, row by row.
ghost use Rattle.std.specs.Prelude.{◌≡◌, IfOk, length, map};
ghost use Rattle.base_value.specs.declared.value.Value.TheVariants.{Number, Date as DateOf};
ghost use Rattle.expr_operators.specs.Operators.{negative, extracted, part_of, at_scale};
ghost use Rattle.exec_column_operators.specs.Choices.{choice};
ghost use Rattle.exec_column_operators.specs.Zips.{zip_three};

use base_columns::{Column, ColumnBuilder, ColumnForm};
use base_date::CivilDate;
use base_decimal::Scale;
use base_value::{Standing, Truth, Value};
use expr_operators::{DatePart, at_scale, extracted, negative, part_of};
use std::alloc::{AllocError, Global};
use std::borrow::Cow;

/// Minus, row by row.
pub fn negative_column(alloc: Global, a: &Column) -> Result<Column, AllocError>
    ensures { IfOk result (λ c. c ≡ map negative a.now) }
{
    let mut column = ColumnBuilder::like(alloc, a, a.len())?;
    for i in 0..a.len() {
        let x = a.at(alloc, i)?;
        column.push(alloc, &negative(&x))?;
    }
    Ok(column.finish())
}

/// A part of dates, row by row.
pub fn extracted_column(alloc: Global, part: DatePart, a: &Column) -> Result<Column, AllocError>
    ensures { IfOk result (λ c. c ≡ map (extracted part) a.now) }
{
    match a.marked_dates() {
        Some((dates, marks)) => {
            let numbers = date_parts(alloc, part, dates)?;
            let marks = marks.first(alloc, dates.len())?;
            Ok(Column::from_marked_numbers(Scale::WHOLE, numbers, marks))
        }
        None => extracted_values(alloc, part, a),
    }
}

// The same, value by value.
fn extracted_values(alloc: Global, part: DatePart, a: &Column) -> Result<Column, AllocError>
    ensures { IfOk result (λ c. c ≡ map (extracted part) a.now) }
{
    let mut values = Vec::with_capacity(alloc, a.len())?;
    for i in 0..a.len() {
        let x = a.at(alloc, i)?;
        values.push(extracted(part, &x))?;
    }
    Ok(Column::from_values(values))
}

// The same of dates.
fn date_parts(alloc: Global, part: DatePart, dates: &[CivilDate]) -> Result<Vec<i64>, AllocError>
    ensures { IfOk result (λ v. map (Number 0) v.items
        ≡ map (extracted part) (map DateOf dates.now)) }
{
    let mut numbers = Vec::with_capacity(alloc, dates.len())?;
    for date in dates {
        let number = match part {
            DatePart::Year => date.year(),
            DatePart::Month => date.month(),
            DatePart::Day => date.day(),
        };
        numbers.push(i64::from(number))?;
    }
    Ok(numbers)
}

/// The bytes of places `from` to `from + count - 1` of texts, row by row.
pub fn part_column(alloc: Global, a: &Column, from: u32, count: u32) -> Result<Column, AllocError>
    ensures { IfOk result (λ c. c ≡ map (part_of from count) a.now) }
{
    let mut values = Vec::with_capacity(alloc, a.len())?;
    for i in 0..a.len() {
        let x = a.at(alloc, i)?;
        let part = part_of(&x, from, count)?;
        values.push(part)?;
    }
    Ok(Column::from_values(values))
}

// A value as CASE gives it.
fn scaled(scale: Scale, x: Value) -> Result<Value, AllocError>
    ensures { IfOk result (λ v. v ≡ at_scale scale x) }
{
    at_scale(scale, Cow::Owned(x)).into_owned()
}

/// Values as CASE gives them, row by row.
pub fn scaled_column(alloc: Global, scale: Scale, a: &Column) -> Result<Column, AllocError>
    ensures { IfOk result (λ c. c ≡ map (at_scale scale) a.now) }
{
    let mut column = ColumnBuilder::new(alloc, ColumnForm::Numbers(scale))?;
    for i in 0..a.len() {
        let x = a.at(alloc, i)?;
        let y = scaled(scale, x)?;
        column.push(alloc, &y)?;
    }
    Ok(column.finish())
}

// What a branch of a CASE gives at that truth, or else what the rest of the CASE does.
fn choice(truth: Truth, gives: Value, rest: Value) -> Value
    ensures { result ≡ choice truth gives rest }
{
    match truth {
        Truth::Stands(Standing::AtTrue) => gives,
        Truth::Stands(Standing::AtFault(fault)) => Value::Fault(fault),
        Truth::False | Truth::Unknown => rest,
    }
}

/// A branch of a CASE, row by row: its value where its condition is True, a fault where that is
/// one, else the rest.
pub fn chosen_column(
    alloc: Global,
    truths: &[Truth],
    gives: &Column,
    rest: &Column,
) -> Result<Column, AllocError>
    requires gives { length gives.now ≡ length truths.now }
    requires rest { length rest.now ≡ length truths.now }
    ensures { IfOk result (λ c. c ≡ zip_three choice truths.now gives.now rest.now) }
{
    let mut column = ColumnBuilder::like(alloc, gives, truths.len())?;
    for i in 0..truths.len() {
        let given = gives.at(alloc, i)?;
        let other = rest.at(alloc, i)?;
        column.push(alloc, &choice(truths[i], given, other))?;
    }
    Ok(column.finish())
}
