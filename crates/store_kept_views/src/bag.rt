//! Rows that are put together into a bag.
ghost use Rattle.std.specs.Prelude.{◌≡◌, [], length, IfOk};

use base_columns::{Bag, BatchBuilder, ColumnForm};
use base_value::Value;
use std::alloc::{AllocError, Global};

/// What a column whose first value is this one is expected to hold.
pub(crate) fn form_of(value: &Value) -> ColumnForm {
    match value {
        Value::Number(scale, _) => ColumnForm::Numbers(*scale),
        Value::Text(_) => ColumnForm::Texts,
        Value::Date(_) => ColumnForm::Dates,
        Value::Null | Value::Fault(_) => ColumnForm::Values,
    }
}

// What the columns whose first values are these are expected to hold.
fn forms_of(alloc: Global, values: &[Value]) -> Result<Vec<ColumnForm>, AllocError>
    ensures { IfOk result (λ forms. length forms.items ≡ length values.now) }
{
    let mut forms = Vec::with_capacity(alloc, values.len())?;
    for value in values {
        forms.push(form_of(value))?;
    }
    Ok(forms)
}

/// No rows yet, in columns that are expected to hold what they do in this row.
pub(crate) fn builder_like(alloc: Global, values: &[Value]) -> Result<BatchBuilder, AllocError>
    ensures width { IfOk result (λ b. b.width ≡ length values.now) }
    ensures rows { IfOk result (λ b. b.rows ≡ []) }
{
    let forms = forms_of(alloc, values)?;
    let builder = BatchBuilder::new(alloc, forms.as_slice())?;
    Ok(builder)
}

/// The rows that are put together as a bag.
pub(crate) fn bag_of(alloc: Global, builder: &BatchBuilder) -> Result<Bag, AllocError>
    ensures rows { IfOk result (λ bag. bag.rows ≡ builder.now.rows) }
    ensures width { IfOk result (λ bag. bag.width ≡ builder.now.width) }
{
    let batch = builder.finish(alloc)?;
    let mut bag = Bag::new(alloc, builder.width());
    bag.push(batch)?;
    Ok(bag)
}
