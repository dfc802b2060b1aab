//! Groups by the values of expressions, by several threads.
ghost use Rattle.std.specs.Prelude.{◌≡◌, ◌+◌, ◌++◌, map, length, IfOk, OnOk};
ghost use Rattle.base_row_laws.specs.Rows.{scanned};
ghost use Rattle.base_row_laws.specs.Operators.{select};
ghost use Rattle.base_columns.specs.Lists.{one_list};
ghost use Rattle.expr_conditions.specs.Ranks.{rank_of};
ghost use Rattle.exec_parallel_scan.specs.ExpressionGroups.{expression_groups, argument_of};
ghost use Rattle.exec_parallel_scan.specs.ExpressionGroups.{at_place};
ghost use Rattle.exec_parallel_scan.specs.ExpressionGroups.{place_aggregates};

use crate::groups::bag_groups;
use crate::scan::scan_rows;
use base_columns::Bag;
use base_value::Value;
use exec_hash_group::places_below;
use expr_scalar::Expr;
use plan_algebra::{Aggregate, Piece, copy_expr, copy_exprs};
use sqlite_items::{Boxed, Items};
use std::alloc::{AllocError, Global};
use std::thread::Threads;

// An aggregate's argument once more.
fn argument_of(alloc: Global, aggregate: &Aggregate) -> Result<Expr, AllocError>
    ensures { IfOk result (λ e. e ≡ argument_of aggregate.now) }
{
    match aggregate {
        Aggregate::CountRows => Ok(Expr::Literal(Value::Null)),
        Aggregate::Of(_, _, e) => {
            let copied = copy_expr(alloc, e.get())?;
            Ok(copied.into_inner())
        }
    }
}

// The aggregate of what stands at a place.
fn at_place(alloc: Global, place: u32, aggregate: &Aggregate) -> Result<Aggregate, AllocError>
    ensures { IfOk result (λ a. a ≡ at_place place aggregate.now) }
{
    match aggregate {
        Aggregate::CountRows => Ok(Aggregate::CountRows),
        Aggregate::Of(function, scale, _) => {
            let column = Boxed::new(alloc, Expr::Column(place))?;
            Ok(Aggregate::Of(*function, *scale, column))
        }
    }
}

// A number of columns as a place. `AllocError` at 2^32: places are `u32`.
fn place_of(count: usize) -> Result<u32, AllocError>
    ensures { IfOk result (λ place. place ≡ count) }
{
    match u32::try_from(count) {
        Ok(place) => Ok(place),
        Err(_) => Err(AllocError),
    }
}

// The arguments of aggregates after other expressions.
fn put_arguments(
    alloc: Global,
    items: &mut Items<Expr>,
    aggregates: &[Aggregate],
) -> Result<(), AllocError>
    ensures { OnOk result (items.new ≡ items.old ++ map argument_of aggregates.now) }
{
    for aggregate in aggregates {
        let argument = argument_of(alloc, aggregate)?;
        items.push(argument)?;
    }
    Ok(())
}

// The aggregates of what stands at the places from this one on.
fn place_aggregates(
    alloc: Global,
    first: usize,
    aggregates: &[Aggregate],
) -> Result<Vec<Aggregate>, AllocError>
    ensures { IfOk result (λ v. v.items ≡ place_aggregates first aggregates.now) }
{
    let mut moved = Vec::with_capacity(alloc, aggregates.len())?;
    let mut count = first;
    for aggregate in aggregates {
        let place = place_of(count)?;
        let aggregate = at_place(alloc, place, aggregate)?;
        moved.push(aggregate)?;
        count = place as usize + 1;
    }
    Ok(moved)
}

/// The groups of a table's rows that a condition keeps, by the values of these columns: for each
/// group its key and its aggregates, as one thread has them, for every number of pieces. Without
/// columns all rows are one group, also where there are none.
pub fn scan_groups<R: Threads + Sync>(
    rt: &R,
    alloc: Global,
    pieces: &[Piece],
    condition: &Expr,
    columns: &[Expr],
    aggregates: &[Aggregate],
) -> Result<Bag, AllocError>
    ensures width { IfOk result (λ b. b.width ≡ length columns.now + length aggregates.now) }
    ensures rows { IfOk result (λ b. b.rows ≡ expression_groups columns.now aggregates.now
        (select (rank_of condition.now) (scanned (one_list pieces.now)))) }
{
    let width = place_of(columns.len())?;
    let by = places_below(alloc, width)?;
    let moved = place_aggregates(alloc, columns.len(), aggregates)?;
    let mut items = copy_exprs(alloc, columns)?;
    put_arguments(alloc, &mut items, aggregates)?;
    let rows = scan_rows(rt, alloc, pieces, condition, items.as_slice())?;
    let bag = bag_groups(rt, alloc, &rows, by.as_slice(), moved.as_slice())?;
    Ok(bag)
}
