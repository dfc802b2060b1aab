//! The values of a column, read one by one without copies.
ghost use Rattle.std.specs.Prelude.{◌≡◌, ◌<◌, IfOk, IsTrue, false, slice_index_or, map};
ghost use Rattle.base_value.specs.declared.value.Value.TheVariants.{Date as DateOf, Null, Number};
ghost use Rattle.base_null_marks.specs.Marks.{marked};
ghost use Rattle.exec_ordered_rows.specs.Cells.{AreTexts, HaveNoFault, cell_value};

use crate::cell::Cell;
use base_columns::{Column, ColumnForm};
use base_date::CivilDate;
use base_decimal::Scale;
use base_null_marks::Marks;
use base_value::Value;
use std::alloc::{AllocError, Global};
use std::marker::Model;

// Values where they lie, or copies of them.
enum Kept<'a> {
    Numbers(Scale, &'a [i64], &'a Marks),
    Dates(&'a [CivilDate], &'a Marks),
    // Each a text or null.
    Texts(&'a Column),
    Values(Vec<Value>),
}

impl<'a> Drop for Kept<'a> {
    #[inline]
    fn drop(self) {
        match self {
            Kept::Numbers(_, _, _) => {}
            Kept::Dates(_, _) => {}
            Kept::Texts(_) => {}
            Kept::Values(kept) => drop(kept),
        }
    }
}

/// A column's values, seen as their list.
pub(crate) struct ColumnCells<'a> {
    kept: Kept<'a>,
}

impl<'a> Drop for ColumnCells<'a> {
    #[inline]
    fn drop(self) {
        let ColumnCells { kept } = self;
        drop(kept);
    }
}

impl<'a> Model for ColumnCells<'a> {
    ghost use Rattle.std.specs.Prelude.{List};
    ghost use Rattle.base_value.specs.declared.value.Value.{Value as Datum};
    ghost use Rattle.exec_ordered_rows.specs.Cells.{KeepsTexts, kept_cells};

    ghost Value = { List Datum };

    ghost view = { λ c. kept_cells c.kept };

    ghost invariant = { λ c. KeepsTexts c.kept };
}

// Whether each value of a column is a text or null.
#[tactic(auto, using(crate::proofs::CellReads::texts))]
fn are_texts(alloc: Global, column: &Column) -> Result<bool, AllocError>
    ensures { IfOk result (λ r. IsTrue r → AreTexts column.now) }
{
    for i in 0..column.len() {
        if column.text(i).is_none() {
            let value = column.at(alloc, i)?;
            if !matches!(&value, Value::Null) {
                return Ok(false);
            }
        }
    }
    Ok(true)
}

// The values of a column.
fn values_of(alloc: Global, column: &Column) -> Result<Vec<Value>, AllocError>
    ensures { IfOk result (λ v. v.items ≡ column.now) }
{
    let mut values = Vec::with_capacity(alloc, column.len())?;
    for i in 0..column.len() {
        let value = column.at(alloc, i)?;
        values.push(value)?;
    }
    Ok(values)
}

// A number of 64 bits.
fn number_cell<'a>(scale: Scale, number: i64) -> Cell<'a>
    ensures { cell_value result ≡ Number scale number }
{
    Cell::Number(scale, i128::from(number))
}

// The number at a place, or null.
#[tactic(auto, using(crate::proofs::CellReads::reads))]
fn number_at<'a>(scale: Scale, numbers: &[i64], marks: &Marks, i: usize) -> Cell<'a>
    ensures { cell_value result
        ≡ slice_index_or (marked Null marks.now (map (Number scale) numbers.now)) i Null }
{
    if i >= numbers.len() {
        return Cell::Null;
    }
    if marks.has(i) {
        return Cell::Null;
    }
    number_cell(scale, numbers[i])
}

// The date at a place, or null.
#[tactic(auto, using(crate::proofs::CellReads::reads))]
fn date_at<'a>(dates: &[CivilDate], marks: &Marks, i: usize) -> Cell<'a>
    ensures { cell_value result
        ≡ slice_index_or (marked Null marks.now (map DateOf dates.now)) i Null }
{
    if i >= dates.len() {
        return Cell::Null;
    }
    if marks.has(i) {
        return Cell::Null;
    }
    Cell::Date(dates[i])
}

// The text at a place, or null.
fn text_at(column: &Column, i: usize) -> Cell<'_>
    requires { AreTexts column.now }
    ensures { cell_value result ≡ slice_index_or column.now i Null }
{
    if i >= column.len() {
        return Cell::Null;
    }
    match column.text(i) {
        Some(text) => Cell::Text(text),
        None => Cell::Null,
    }
}

// The value at a place, or null.
fn value_at(values: &[Value], i: usize) -> Cell<'_>
    ensures { cell_value result ≡ slice_index_or values.now i Null }
{
    if i >= values.len() {
        return Cell::Null;
    }
    Cell::of(&values[i])
}

#[tactic(auto, using(crate::proofs::CellReads::kinds))]
impl<'a> ColumnCells<'a> {
    // Texts or nulls where they lie, or copies of any values.
    fn of_texts(alloc: Global, column: &'a Column) -> Result<ColumnCells<'a>, AllocError>
        ensures { IfOk result (λ c. c ≡ column.now) }
    {
        let are_texts = matches!(column.typed(), ColumnForm::Texts) || are_texts(alloc, column)?;
        if are_texts {
            return Ok(ColumnCells {
                kept: Kept::Texts(column),
            });
        }
        let values = values_of(alloc, column)?;
        Ok(ColumnCells {
            kept: Kept::Values(values),
        })
    }

    /// The values of a column.
    pub(crate) fn new(alloc: Global, column: &'a Column) -> Result<ColumnCells<'a>, AllocError>
        ensures { IfOk result (λ c. c ≡ column.now) }
    {
        if let Some((scale, numbers, marks)) = column.marked_numbers() {
            return Ok(ColumnCells {
                kept: Kept::Numbers(scale, numbers, marks),
            });
        }
        if let Some((dates, marks)) = column.marked_dates() {
            return Ok(ColumnCells {
                kept: Kept::Dates(dates, marks),
            });
        }
        ColumnCells::of_texts(alloc, column)
    }

    /// The value at a place, null past the end.
    pub(crate) fn at(&self, i: usize) -> Cell<'_>
        ensures { cell_value result ≡ slice_index_or self.now i Null }
    {
        match &self.kept {
            Kept::Numbers(scale, numbers, marks) => number_at(*scale, numbers, marks, i),
            Kept::Dates(dates, marks) => date_at(dates, marks, i),
            Kept::Texts(column) => text_at(column, i),
            Kept::Values(values) => value_at(values.as_slice(), i),
        }
    }

    /// Whether no value can be a fault.
    pub(crate) fn has_no_fault(&self) -> bool
        ensures { IsTrue result → HaveNoFault self.now }
    {
        match &self.kept {
            Kept::Numbers(_, _, _) => true,
            Kept::Dates(_, _) => true,
            Kept::Texts(_) => true,
            Kept::Values(_) => false,
        }
    }
}
