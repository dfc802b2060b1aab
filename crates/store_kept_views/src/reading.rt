//! What a plan reads of the rows of a batch, column by column.
ghost use Rattle.std.specs.Prelude.{◌≡◌, ◌<◌, ◌^◌, IfOk, OnOk, length, map, slice_index_or};
ghost use Rattle.std.specs.List.{All};
ghost use Rattle.base_row_laws.specs.Operators.{select};
ghost use Rattle.base_value.specs.Truth.{standing_rank};
ghost use Rattle.base_value.specs.declared.value.Value.TheVariants.{Null};
ghost use Rattle.base_columns.specs.Batches.{cells, row_at};
ghost use Rattle.plan_algebra.specs.KeptPlans.{holds_for, item_of, key_of};
ghost use Rattle.store_kept_views.specs.Readings.{argument_columns, key_columns};
ghost use Rattle.store_kept_views.specs.Standing.{arguments_in};

use base_columns::{Batch, Column};
use base_value::{Standing, Value};
use exec_column_expr::{truths_of, values_of};
use expr_scalar::Expr;
use plan_algebra::{KeptAggregate, KeptPlan};
use std::alloc::{AllocError, Global};
use std::marker::Model;

/// Rows that WHERE of a plan keeps, with their keys and the arguments of the aggregates column by
/// column. It is seen as the plan and the rows.
#[derive(Drop)]
pub(crate) struct Reading<'a> {
    plan: &'a KeptPlan,
    rows: Batch,
    keys: Vec<Column>,
    arguments: Vec<Column>,
}

impl<'a> Model for Reading<'a> {
    ghost use Rattle.std.specs.Prelude.{◌≡◌};
    ghost use Rattle.std.specs.Coded.{codes};
    ghost use Rattle.expr_scalar.specs.contracts.expr.Expr as expr;
    ghost use Rattle.store_kept_views.specs.Readings.{PlanRows, argument_columns, key_columns};
    ghost use Rattle.store_kept_views.specs.Readings.{plan_rows};

    ghost Value = { PlanRows };

    ghost coded = { Prim.hlevel (codes, expr.the_row.coded) };

    ghost view = { λ r. plan_rows r.plan.now r.rows.rows };

    ghost invariant = { λ r. (r.keys.items ≡ key_columns r.plan.now.by r.rows.rows)
        × (r.arguments.items ≡ argument_columns r.plan.now.aggregates r.rows.rows) };
}

// The columns at these places of the rows of a batch.
#[tactic(auto, using(crate::proofs::ReadingLists::column_values))]
fn keys_of(alloc: Global, places: &[u32], rows: &Batch) -> Result<Vec<Column>, AllocError>
    ensures { IfOk result (λ v. v.items ≡ key_columns places.now rows.now.rows) }
{
    let mut columns = Vec::with_capacity(alloc, places.len())?;
    for place in places {
        let column = values_of(alloc, &Expr::Column(*place), rows)?;
        columns.push(column)?;
    }
    Ok(columns)
}

// The arguments of an aggregate in the rows of a batch.
#[tactic(auto, using(crate::proofs::ReadingLists::nulls))]
fn argument_of(alloc: Global, aggregate: &KeptAggregate, rows: &Batch) -> Result<Column, AllocError>
    ensures { IfOk result (λ c. c
        ≡ map (λ y. (item_of aggregate.now).0 y.values) rows.now.rows) }
{
    match aggregate {
        KeptAggregate::CountRows => Column::repeated(alloc, &Value::Null, rows.len()),
        KeptAggregate::Count(e) | KeptAggregate::Sum(_, e) => values_of(alloc, e.get(), rows),
    }
}

// The arguments of aggregates in the rows of a batch.
fn arguments_of(
    alloc: Global,
    aggregates: &[KeptAggregate],
    rows: &Batch,
) -> Result<Vec<Column>, AllocError>
    ensures { IfOk result (λ v. v.items ≡ argument_columns aggregates.now rows.now.rows) }
{
    let mut columns = Vec::with_capacity(alloc, aggregates.len())?;
    for aggregate in aggregates {
        let column = argument_of(alloc, aggregate, rows)?;
        columns.push(column)?;
    }
    Ok(columns)
}

// The value at a place of a column. Most are numbers, which are taken from their list.
fn value_in(alloc: Global, column: &Column, i: usize) -> Result<Value, AllocError>
    requires { i < length column.now }
    ensures { IfOk result (λ v. v ≡ slice_index_or column.now i Null) }
{
    match column.as_numbers() {
        Some((scale, numbers)) => Ok(Value::Number(scale, i128::from(numbers[i]))),
        None => column.at(alloc, i),
    }
}

// The values at a place, one of each column.
fn cells_of(
    alloc: Global,
    columns: &[Column],
    i: usize,
    values: &mut Vec<Value>,
) -> Result<(), AllocError>
    requires { All (λ c. i < length c) columns.now }
    ensures { OnOk result (values.new.items ≡ cells columns.now i) }
{
    values.clear();
    for column in columns {
        values.push(value_in(alloc, column, i)?)?;
    }
    Ok(())
}

impl<'a> Reading<'a> {
    /// What a plan reads of a batch.
    pub(crate) fn new(
        alloc: Global,
        plan: &'a KeptPlan,
        batch: Batch,
    ) -> Result<Reading<'a>, AllocError>
        requires { length batch.rows < 2 ^ 32 }
        ensures plan { IfOk result (λ r. r.plan ≡ plan.now) }
        ensures rows { IfOk result (λ r. r.rows ≡ select (holds_for plan.now) batch.rows) }
    {
        let truths = truths_of(alloc, plan.condition.get(), &batch)?;
        let rows = batch.keep(alloc, truths.as_slice())?;
        let keys = keys_of(alloc, plan.by.as_slice(), &rows)?;
        let arguments = arguments_of(alloc, plan.aggregates.as_slice(), &rows)?;
        Ok(Reading {
            plan,
            rows,
            keys,
            arguments,
        })
    }

    /// How many rows there are.
    pub(crate) fn len(&self) -> usize
        ensures { result ≡ length self.now.rows }
    {
        self.rows.len()
    }

    /// How a row stands.
    pub(crate) fn standing(&self, i: usize) -> Standing
        requires { i < length self.now.rows }
        ensures { standing_rank result ≡ (row_at self.now.rows i).standing }
    {
        self.rows.standing(i)
    }

    /// The key of a row, in the place of other values.
    pub(crate) fn put_key(
        &self,
        alloc: Global,
        i: usize,
        key: &mut Vec<Value>,
    ) -> Result<(), AllocError>
        requires { i < length self.now.rows }
        ensures { OnOk result (key.new.items
            ≡ key_of self.now.plan (row_at self.now.rows i).values) }
    {
        cells_of(alloc, self.keys.as_slice(), i, key)?;
        Ok(())
    }

    /// The arguments of the aggregates in a row, in the place of other values.
    pub(crate) fn put_arguments(
        &self,
        alloc: Global,
        i: usize,
        arguments: &mut Vec<Value>,
    ) -> Result<(), AllocError>
        requires { i < length self.now.rows }
        ensures { OnOk result (arguments.new.items
            ≡ arguments_in self.now.plan.aggregates (row_at self.now.rows i).values) }
    {
        cells_of(alloc, self.arguments.as_slice(), i, arguments)?;
        Ok(())
    }
}
