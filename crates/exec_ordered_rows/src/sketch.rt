//! Numbers that keep the order of the first column that decides.
ghost use Rattle.std.specs.Prelude.{◌≡◌, ◌<◌, ◌^◌, slice_index_or};
ghost use Rattle.base_columns.specs.declared.column_builder.ColumnForm.TheVariants.{Numbers, Dates, Texts};
ghost use Rattle.exec_ordered_rows.specs.Cells.{cell_value};
ghost use Rattle.exec_ordered_rows.specs.Sketches.{bytes_after, clamped, first_sketch, key_sketch};
ghost use Rattle.exec_ordered_rows.specs.Sketches.{row_sketch, sketch};

use crate::cell::Cell;
use crate::order::RowOrder;
use crate::row_cells::RowCells;
use base_columns::ColumnForm;
use base_decimal::Scale;
use base_order_limit::OrderKey;

// A coefficient, or the nearest number of 64 bits.
fn clamped(coefficient: i128) -> i64
    ensures { result ≡ clamped coefficient }
{
    if coefficient < i64::MIN as i128 {
        return i64::MIN;
    }
    if coefficient > i64::MAX as i128 {
        return i64::MAX;
    }
    coefficient as i64
}

// A byte of a text, 0 past its end.
fn byte_at(text: &[u8], k: usize) -> u8
    ensures { result ≡ slice_index_or text.now k 0 }
{
    if k >= text.len() {
        return 0;
    }
    text[k]
}

// The first seven bytes of a text as a number.
fn start_of(text: &[u8]) -> u64
    ensures value { result ≡ bytes_after 7 0 text.now }
    ensures small { result < 2 ^ 56 }
{
    let mut number = 0u64;
    for k in 0..7usize {
        number = number * 256 + byte_at(text, k) as u64;
    }
    number
}

// The number of a value beside numbers of a scale.
fn number_sketch(scale: Scale, cell: &Cell<'_>) -> i64
    ensures { result ≡ sketch (Numbers scale) (cell_value cell.now) }
{
    match cell {
        Cell::Fault(_) => i64::MIN,
        Cell::Number(other, coefficient) => {
            if *other < scale {
                return i64::MIN;
            }
            if scale < *other {
                return i64::MAX;
            }
            clamped(*coefficient)
        }
        Cell::Text(_) => i64::MAX,
        Cell::Date(_) => i64::MAX,
        Cell::Null => i64::MAX,
    }
}

// The number of a value beside dates.
fn date_sketch(cell: &Cell<'_>) -> i64
    ensures { result ≡ sketch Dates (cell_value cell.now) }
{
    match cell {
        Cell::Fault(_) => i64::MIN,
        Cell::Number(_, _) => i64::MIN,
        Cell::Text(_) => i64::MIN,
        Cell::Date(date) => date.number() as i64,
        Cell::Null => i64::MAX,
    }
}

// The number of a value beside texts.
fn text_sketch(cell: &Cell<'_>) -> i64
    ensures { result ≡ sketch Texts (cell_value cell.now) }
{
    match cell {
        Cell::Fault(_) => i64::MIN,
        Cell::Number(_, _) => i64::MIN,
        Cell::Text(text) => start_of(text) as i64,
        Cell::Date(_) => i64::MAX,
        Cell::Null => i64::MAX,
    }
}

// The number of a value beside values of a form.
fn sketch(form: ColumnForm, cell: &Cell<'_>) -> i64
    ensures { result ≡ sketch form (cell_value cell.now) }
{
    match form {
        ColumnForm::Numbers(scale) => number_sketch(scale, cell),
        ColumnForm::Dates => date_sketch(cell),
        ColumnForm::Texts => text_sketch(cell),
        ColumnForm::Values => 0,
    }
}

// That of a row by a key.
fn key_sketch(form: ColumnForm, key: &OrderKey, row: &RowCells<'_, '_>) -> i64
    ensures { result ≡ key_sketch form key.now row.now }
{
    let number = sketch(form, &row.at(key.column as usize));
    if key.is_descending {
        -1 - number
    } else {
        number
    }
}

// That of a row by its first column.
fn first_sketch(form: ColumnForm, row: &RowCells<'_, '_>) -> i64
    ensures { result ≡ first_sketch form row.now }
{
    if row.len() == 0 {
        return i64::MIN;
    }
    sketch(form, &row.at(0))
}

/// The number of a row in an order.
pub(crate) fn row_sketch(order: &RowOrder<'_>, row: &RowCells<'_, '_>) -> i64
    ensures { result ≡ row_sketch order.now.keys.now order.now.form row.now }
{
    match order.keys {
        [] => first_sketch(order.form, row),
        [key, ..] => key_sketch(order.form, key, row),
    }
}
