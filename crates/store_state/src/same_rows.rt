//! Whether rows are found to be the same, as they are stored.
ghost use Rattle.std.specs.Prelude.{◌≡◌, ◌↔◌, ℕ, ◌<◌, IsTrue, length, slice_index_or};
ghost use Rattle.base_value.specs.declared.value.Value.TheVariants.{Null};
ghost use Rattle.base_columns.specs.Batches.{column_at};

use base_columns::{Batch, Column, Rows, Segment};
use base_date::CivilDate;

/// Whether two lists of numbers are the same.
pub(crate) fn are_same_numbers(numbers: &[i64], others: &[i64]) -> bool
    ensures { IsTrue result ↔ (numbers.now ≡ others.now) }
{
    numbers == others
}

/// Whether two columns are found to be the same numbers of one scale, and null at the same places.
fn have_same_numbers(first: &Column, second: &Column) -> bool
    ensures { IsTrue result → first.now ≡ second.now }
{
    match (first.marked_numbers(), second.marked_numbers()) {
        (Some((scale, numbers, nulls)), Some((other, others, marks))) => {
            scale == other && are_same_numbers(numbers, others) && nulls.is_same(marks)
        }
        _ => false,
    }
}

/// Whether two lists of dates are the same.
fn are_same_dates(dates: &[CivilDate], others: &[CivilDate]) -> bool
    ensures { IsTrue result → dates.now ≡ others.now }
{
    dates == others
}

/// Whether two columns are found to be the same dates, and null at the same places.
fn have_same_dates(first: &Column, second: &Column) -> bool
    ensures { IsTrue result → first.now ≡ second.now }
{
    match (first.marked_dates(), second.marked_dates()) {
        (Some((dates, nulls)), Some((others, marks))) => {
            are_same_dates(dates, others) && nulls.is_same(marks)
        }
        _ => false,
    }
}

/// Whether two columns are found to have the same text at a place, or null.
#[tactic(auto, using(crate::proofs::SameRows::nulls))]
fn is_same_text(first: &Column, second: &Column, i: usize) -> bool
    requires first { i < length first.now }
    requires second { i < length second.now }
    ensures { IsTrue result
        → slice_index_or first.now i Null ≡ slice_index_or second.now i Null }
{
    match (first.text(i), second.text(i)) {
        (Some(text), Some(other)) => text == other,
        (None, None) => first.is_null(i) && second.is_null(i),
        _ => false,
    }
}

/// Whether two columns are found to be the same texts and nulls.
fn have_same_texts(first: &Column, second: &Column) -> bool
    ensures { IsTrue result → first.now ≡ second.now }
{
    if first.len() != second.len() {
        return false;
    }
    for i in 0..first.len() {
        if !is_same_text(first, second, i) {
            return false;
        }
    }
    true
}

/// Whether two columns are found to have the same values.
fn have_same_values(first: &Column, second: &Column) -> bool
    ensures { IsTrue result → first.now ≡ second.now }
{
    have_same_numbers(first, second)
        || have_same_dates(first, second)
        || have_same_texts(first, second)
}

/// Whether the columns of two batches, which are as many, are found to have the same values.
fn have_same_columns(first: &Batch, second: &Batch) -> bool
    requires { first.now.width ≡ second.now.width }
    ensures { IsTrue result → (j : ℕ) → j < first.now.width
        → column_at first.now.rows j ≡ column_at second.now.rows j }
{
    for j in 0..first.width() {
        if !have_same_values(first.column(j), second.column(j)) {
            return false;
        }
    }
    true
}

/// Whether two segments are found to have the same rows.
fn is_same_segment(first: &Segment, second: &Segment) -> bool
    ensures { IsTrue result → first.now ≡ second.now }
{
    let (batch, other) = (first.batch(), second.batch());
    if batch.width() != other.width() {
        return false;
    }
    if first.len() != second.len() {
        return false;
    }
    have_same_columns(batch, other)
}

/// Whether two lists of segments are as long, and each two segments are found to have the same
/// rows.
fn are_same_segments(first: &[Segment], second: &[Segment]) -> bool
    ensures { IsTrue result → first.now ≡ second.now }
{
    if first.len() != second.len() {
        return false;
    }
    for k in 0..first.len() {
        if !is_same_segment(&first[k], &second[k]) {
            return false;
        }
    }
    true
}

/// Whether rows are found to be the same, as they lie in segments.
pub(crate) fn are_same_rows(first: &Rows, second: &Rows) -> bool
    ensures { IsTrue result → first.now ≡ second.now }
{
    are_same_segments(first.segments(), second.segments())
}
