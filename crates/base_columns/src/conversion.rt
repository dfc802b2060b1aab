//! Rows of a table from rows that lie each by itself.
ghost use Rattle.std.specs.Prelude.{◌≡◌, ◌++◌, ◌∷◌, [], IfOk, OnOk, length};
ghost use Rattle.base_columns.specs.Tables.{IsOpen, plain_rows};

use crate::batch_builder::BatchBuilder;
use crate::column_builder::ColumnForm;
use crate::rows::Rows;
use crate::segment::{SEGMENT_ROWS, Segment};
use base_value::{Row, Standing, Value};
use std::alloc::{AllocError, Global};

/// The rows, in their order. Each segment takes as many as have one width.
#[tactic(auto, using(crate::proofs::TableLists::tables))]
pub fn stored_rows(alloc: Global, rows: &[Row]) -> Result<Rows, AllocError>
    ensures { IfOk result (λ r. r ≡ rows.now) }
{
    let mut stored = Rows::new(alloc);
    let mut rest = BatchBuilder::new(alloc, &[])?;
    for row in rows {
        put_row(alloc, &mut stored, &mut rest, row.values())?;
    }
    put_rest(alloc, &mut stored, &rest)?;
    Ok(stored)
}

// One row more after those that are not stored yet, which are stored first if it doesn't go with
// them.
#[tactic(auto, using(crate::proofs::TableLists::tables))]
fn put_row(
    alloc: Global,
    stored: &mut Rows,
    rest: &mut BatchBuilder,
    row: &[Value],
) -> Result<(), AllocError>
    requires { IsOpen rest.old }
    ensures rest { OnOk result (IsOpen rest.new) }
    ensures rows { OnOk result
        (stored.new ++ plain_rows rest.new.rows
        ≡ (stored.old ++ plain_rows rest.old.rows) ++ row.now ∷ []) }
{
    if rest.len() < SEGMENT_ROWS && rest.width() == row.len() {
        rest.push_row(alloc, row, Standing::AtTrue)?;
        return Ok(());
    }
    put_rest(alloc, stored, rest)?;
    let mut next = BatchBuilder::new(alloc, forms(alloc, row)?.as_slice())?;
    next.push_row(alloc, row, Standing::AtTrue)?;
    *rest = next;
    Ok(())
}

// Stores the rows that are not stored yet.
#[tactic(auto, using(crate::proofs::TableLists::tables))]
fn put_rest(alloc: Global, stored: &mut Rows, rest: &BatchBuilder) -> Result<(), AllocError>
    requires { IsOpen rest.now }
    ensures { OnOk result (stored.new ≡ stored.old ++ plain_rows rest.now.rows) }
{
    if rest.len() == 0 {
        return Ok(());
    }
    let last = Segment::new(alloc, rest.finish(alloc)?)?;
    stored.push(last)
}

// The forms of columns whose first values these are.
fn forms(alloc: Global, row: &[Value]) -> Result<Vec<ColumnForm>, AllocError>
    ensures { IfOk result (λ v. length v.items ≡ length row.now) }
{
    let mut forms = Vec::with_capacity(alloc, row.len())?;
    for value in row {
        forms.push(form_of(value))?;
    }
    Ok(forms)
}

// The form that keeps a value in the least room. That of nulls gives way to the first other value.
fn form_of(value: &Value) -> ColumnForm {
    match value {
        Value::Number(scale, _) => ColumnForm::Numbers(*scale),
        Value::Date(_) => ColumnForm::Dates,
        Value::Text(_) | Value::Null => ColumnForm::Texts,
        Value::Fault(_) => ColumnForm::Values,
    }
}
