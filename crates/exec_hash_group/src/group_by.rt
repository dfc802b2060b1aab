//! GROUP BY, and aggregates without it.
ghost use Rattle.std.specs.Prelude.{◌≡◌, ◌+◌, ◌<◌, ◌^◌, ◌++◌, [], map, length, IfOk, OnOk};
ghost use Rattle.expr_scalar.specs.Meaning.{value};
ghost use Rattle.base_columns.specs.Lists.{AreBelow};
ghost use Rattle.plan_algebra.specs.Plans.{groups};
ghost use Rattle.expr_aggregates.specs.Values.{aggregate_of};
ghost use Rattle.exec_hash_group.specs.ByNumber.{values_by_number};
ghost use Rattle.exec_hash_group.specs.Grouping.{AreGroups, aggregate_column};

use crate::aggregate::{accumulated_by_number, aggregated_by_number, column_of};
use crate::grouping::{at_places, group_numbers, key_columns, one_batch};
use crate::number_sums::sum_column;
use crate::standings::{least_standings, row_standings};
use crate::values::{ColumnValues, Nulls};
use crate::workers::{OneThread, Workers};
use base_columns::{Bag, Batch, Column, ColumnBuilder, ColumnForm};
use base_decimal::Scale;
use base_value::Value;
use exec_accumulators::CountRows;
use exec_column_expr::values_of;
use expr_aggregates::AggregateFunction;
use expr_scalar::Expr;
use plan_algebra::Aggregate;
use std::alloc::{AllocError, Global};

/// The groups of rows: columns of their keys, the number of each row's group, and how many groups
/// there are.
#[derive(Drop)]
pub(crate) struct Groups {
    pub(crate) keys: Vec<Column>,
    pub(crate) numbers: Vec<u32>,
    pub(crate) count: usize,
}

// All rows as one group.
fn one_group(alloc: Global, rows: &Bag) -> Result<Groups, AllocError>
    ensures { IfOk result (λ g. AreGroups [] rows.now.rows g.keys.items g.numbers.items g.count) }
{
    let numbers = vec![in alloc; 0u32; rows.len()]?;
    let keys = Vec::new(alloc);
    Ok(Groups {
        keys,
        numbers,
        count: 1,
    })
}

// The groups by these columns.
fn groups_by<W: Workers>(
    workers: &W,
    alloc: Global,
    rows: &Bag,
    by: &[u32],
) -> Result<Groups, AllocError>
    requires ready { W.ready workers.now }
    requires some { 0 < length by.now }
    ensures { IfOk result (λ g.
        AreGroups by.now rows.now.rows g.keys.items g.numbers.items g.count) }
{
    let columns = key_columns(alloc, rows, by)?;
    let numbered = group_numbers(workers, alloc, rows, by, columns.as_slice())?;
    let keys = at_places(alloc, columns.as_slice(), numbered.firsts.as_slice())?;
    Ok(Groups {
        keys,
        numbers: numbered.numbers,
        count: numbered.firsts.len(),
    })
}

/// The groups by these columns, or one group where there are none.
pub(crate) fn groups_of<W: Workers>(
    workers: &W,
    alloc: Global,
    rows: &Bag,
    by: &[u32],
) -> Result<Groups, AllocError>
    requires { W.ready workers.now }
    ensures { IfOk result (λ g.
        AreGroups by.now rows.now.rows g.keys.items g.numbers.items g.count) }
{
    if by.len() == 0 {
        let groups = one_group(alloc, rows)?;
        return Ok(groups);
    }
    let groups = groups_by(workers, alloc, rows, by)?;
    Ok(groups)
}

/// The values of an expression over the rows of a bag, whose numbers have this scale.
pub(crate) fn argument_column(
    alloc: Global,
    rows: &Bag,
    e: &Expr,
    scale: Scale,
) -> Result<Column, AllocError>
    ensures { IfOk result (λ c. c ≡ map (λ r. value e.now r.values) rows.now.rows) }
{
    let mut column = ColumnBuilder::new(alloc, ColumnForm::Numbers(scale))?;
    let batches = rows.batches();
    for batch in batches {
        let values = values_of(alloc, e, batch)?;
        column.append(alloc, &values)?;
    }
    Ok(column.finish())
}

// For each of `count` numbers the aggregate of a column's values in the rows with that number.
fn argument_aggregates(
    alloc: Global,
    function: AggregateFunction,
    scale: Scale,
    numbers: &[u32],
    count: usize,
    arguments: &Column,
) -> Result<Column, AllocError>
    requires rows { length numbers.now ≡ length arguments.now }
    requires small { length numbers.now < 2 ^ 32 }
    requires numbers { AreBelow count numbers.now }
    ensures { IfOk result (λ c. c
        ≡ values_by_number (aggregate_of function scale) numbers.now arguments.now 0 count) }
{
    if let (AggregateFunction::Sum, Some((own, coefficients, marks))) = (
        function,
        arguments.marked_numbers(),
    ) {
        let sums = sum_column(alloc, scale, own, numbers, count, coefficients, marks)?;
        return Ok(sums);
    }
    let values = ColumnValues::new(alloc, arguments);
    let aggregates = aggregated_by_number(alloc, function, scale, numbers, count, &values)?;
    let column = column_of(alloc, aggregates.as_slice())?;
    Ok(column)
}

/// An aggregate of each group.
pub(crate) fn aggregate_column(
    alloc: Global,
    rows: &Bag,
    numbers: &[u32],
    count: usize,
    aggregate: &Aggregate,
) -> Result<Column, AllocError>
    requires rows { length numbers.now ≡ length rows.now.rows }
    requires small { length numbers.now < 2 ^ 32 }
    requires numbers { AreBelow count numbers.now }
    ensures { IfOk result (λ c. c
        ≡ aggregate_column rows.now.rows numbers.now count aggregate.now) }
{
    match aggregate {
        Aggregate::CountRows => {
            let nulls = Nulls::new(numbers.len());
            let counts = accumulated_by_number::<CountRows, Nulls>(
                alloc,
                Scale::WHOLE,
                numbers,
                count,
                &nulls,
            )?;
            let column = column_of(alloc, counts.as_slice())?;
            Ok(column)
        }
        Aggregate::Of(function, scale, e) => {
            let arguments = argument_column(alloc, rows, e.get(), *scale)?;
            let column = argument_aggregates(alloc, *function, *scale, numbers, count, &arguments)?;
            Ok(column)
        }
    }
}

/// The aggregates of each group, as further columns.
pub(crate) fn put_aggregates(
    alloc: Global,
    columns: &mut Vec<Column>,
    rows: &Bag,
    numbers: &[u32],
    count: usize,
    aggregates: &[Aggregate],
) -> Result<(), AllocError>
    requires rows { length numbers.now ≡ length rows.now.rows }
    requires small { length numbers.now < 2 ^ 32 }
    requires numbers { AreBelow count numbers.now }
    ensures { OnOk result (columns.new.items
        ≡ columns.old.items ++ map (aggregate_column rows.now.rows numbers.now count)
        aggregates.now) }
{
    for aggregate in aggregates {
        let column = aggregate_column(alloc, rows, numbers, count, aggregate)?;
        columns.push(column)?;
    }
    Ok(())
}

/// GROUP BY, made by these workers.
pub(crate) fn grouped<W: Workers>(
    workers: &W,
    alloc: Global,
    rows: &Bag,
    by: &[u32],
    aggregates: &[Aggregate],
) -> Result<Bag, AllocError>
    requires { W.ready workers.now }
    ensures width { IfOk result (λ b. b.width ≡ length by.now + length aggregates.now) }
    ensures rows { IfOk result (λ b. b.rows ≡ groups by.now aggregates.now rows.now.rows) }
{
    if rows.len() > u32::MAX as usize {
        return Err(AllocError);
    }
    let Groups {
        keys,
        numbers,
        count,
    } = groups_of(workers, alloc, rows, by)?;
    let standings = row_standings(alloc, rows)?;
    let least = least_standings(alloc, standings.as_slice(), numbers.as_slice(), count)?;
    let mut columns = keys;
    workers.put_aggregates(
        alloc,
        &mut columns,
        rows,
        numbers.as_slice(),
        count,
        aggregates,
    )?;
    let bag = one_batch(alloc, Batch::of(columns, least))?;
    Ok(bag)
}

/// GROUP BY: for each group of rows that are identical in these columns its key and its aggregates,
/// at the least of the rows' standings, in the order in which the keys first come. With no column
/// all rows are one group, also where there are none. A column that isn't there is null.
pub fn group(
    alloc: Global,
    rows: &Bag,
    by: &[u32],
    aggregates: &[Aggregate],
) -> Result<Bag, AllocError>
    ensures width { IfOk result (λ b. b.width ≡ length by.now + length aggregates.now) }
    ensures rows { IfOk result (λ b. b.rows ≡ groups by.now aggregates.now rows.now.rows) }
{
    let bag = grouped(&OneThread, alloc, rows, by, aggregates)?;
    Ok(bag)
}
