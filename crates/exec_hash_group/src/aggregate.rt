//! One aggregate of each group.
ghost use Rattle.std.specs.Prelude.{◌≡◌, ◌<◌, ◌^◌, length, IfOk};
ghost use Rattle.expr_aggregates.specs.Values.{aggregate_of};
ghost use Rattle.base_columns.specs.Lists.{AreBelow};
ghost use Rattle.exec_hash_group.specs.ByNumber.{values_by_number};

use crate::groups::{states_by_number, values_of};
use crate::values::ValueList;
use base_columns::{Column, ColumnBuilder, ColumnForm};
use base_decimal::Scale;
use base_value::Value;
use exec_accumulators::{Accumulator, Average, Count, CountDistinct, Greatest, Least, Sum};
use expr_aggregates::AggregateFunction;
use std::alloc::{AllocError, Global};

/// For each of `count` numbers the accumulator's aggregate of the values of the rows with that
/// number.
pub fn accumulated_by_number<A: Accumulator, L: ValueList>(
    alloc: Global,
    scale: Scale,
    numbers: &[u32],
    count: usize,
    values: &L,
) -> Result<Vec<Value>, AllocError>
    requires rows { length numbers.now ≡ length (L.shown values.now) }
    requires small { length numbers.now < 2 ^ 32 }
    requires numbers { AreBelow count numbers.now }
    ensures { IfOk result (λ v. v.items
        ≡ values_by_number (A.aggregate scale) numbers.now (L.shown values.now) 0 count) }
{
    let states = states_by_number::<A, L>(alloc, scale, numbers, count, values)?;
    let values = values_of(alloc, states.as_slice())?;
    Ok(values)
}

/// For each of `count` numbers the aggregate of the values of the rows with that number, numbers
/// being of this scale.
pub fn aggregated_by_number<L: ValueList>(
    alloc: Global,
    function: AggregateFunction,
    scale: Scale,
    numbers: &[u32],
    count: usize,
    values: &L,
) -> Result<Vec<Value>, AllocError>
    requires rows { length numbers.now ≡ length (L.shown values.now) }
    requires small { length numbers.now < 2 ^ 32 }
    requires numbers { AreBelow count numbers.now }
    ensures { IfOk result (λ v. v.items
        ≡ values_by_number (aggregate_of function scale) numbers.now (L.shown values.now) 0 count) }
{
    match function {
        AggregateFunction::Count => {
            accumulated_by_number::<Count, L>(alloc, scale, numbers, count, values)
        }
        AggregateFunction::CountDistinct => {
            accumulated_by_number::<CountDistinct, L>(alloc, scale, numbers, count, values)
        }
        AggregateFunction::Sum => {
            accumulated_by_number::<Sum, L>(alloc, scale, numbers, count, values)
        }
        AggregateFunction::Avg => {
            accumulated_by_number::<Average, L>(alloc, scale, numbers, count, values)
        }
        AggregateFunction::Min => {
            accumulated_by_number::<Least, L>(alloc, scale, numbers, count, values)
        }
        AggregateFunction::Max => {
            accumulated_by_number::<Greatest, L>(alloc, scale, numbers, count, values)
        }
    }
}

// The form that keeps values like the first one that isn't null in the least room.
fn form_of(values: &[Value]) -> ColumnForm {
    for value in values {
        match value {
            Value::Number(scale, _) => return ColumnForm::Numbers(*scale),
            Value::Date(_) => return ColumnForm::Dates,
            Value::Text(_) => return ColumnForm::Texts,
            Value::Fault(_) => return ColumnForm::Values,
            Value::Null => {}
        }
    }
    ColumnForm::Values
}

/// The values as a column, in little room where they are alike.
pub fn column_of(alloc: Global, values: &[Value]) -> Result<Column, AllocError>
    ensures { IfOk result (λ c. c ≡ values.now) }
{
    let mut builder = ColumnBuilder::new(alloc, form_of(values))?;
    for value in values {
        builder.push(alloc, value)?;
    }
    Ok(builder.finish())
}
