//! The kept plan of a bound query, where it has one.
ghost use Rattle.std.specs.Prelude.{◌≡◌, Some, map, is_some, IsTrue};
ghost use Rattle.std.specs.List.{list_all};
ghost use Rattle.plan_kept_queries.specs.Forms.{AreItems, AreShown, IsFound, IsItem, IsOver};
ghost use Rattle.plan_kept_queries.specs.Forms.{IsKeptPlan, IsShown, IsTrueAlways, holds_always};
ghost use Rattle.sql_bound_query.specs.declared.query.BoundAggregate.TheOpen as node;
ghost use Rattle.sql_bound_query.specs.declared.query.BoundAggregate.TheVariants as aggregate;
ghost use Rattle.plan_kept_queries.specs.Forms.{is_kept, is_kept_aggregate, is_kept_at};
ghost use Rattle.plan_kept_queries.specs.Forms.{is_kept_block};
ghost use Rattle.plan_kept_queries.specs.Forms.{is_over_row, own_place, shown_place};

use base_decimal::Scale;
use expr_aggregates::AggregateFunction;
use expr_scalar::{Expr, rename};
use plan_algebra::{KeptAggregate, KeptPlan};
use sql_bound_query::{BoundAggregate, BoundBlock, BoundExpr, BoundQuery, BoundSource, Input};
use sqlite_items::{Boxed, Items};
use std::alloc::{AllocError, Global};

/// Why a query has no kept plan.
#[derive(Clone, Copy, Debug, PartialEq, Eq)]
pub enum KeptPlanError {
    /// The query is none whose groups are kept.
    NotKept,
    /// Memory ran out.
    OutOfMemory,
}

impl From<AllocError> for KeptPlanError {
    ghost use Rattle.std.specs.Prelude.{◌≡◌};
    ghost use Rattle.plan_kept_queries.specs.declared.form.KeptPlanError.TheVariants.{OutOfMemory};

    ghost from_gives = { λ a r. r ≡ OutOfMemory };

    fn from(_: AllocError) -> KeptPlanError {
        KeptPlanError::OutOfMemory
    }
}

// The place of an input that is a column of the row itself.
fn own_place(input: &Input) -> Result<u32, KeptPlanError>
    ensures { IsFound (is_some (own_place input.now))
        (λ place. own_place input.now ≡ Some place) result }
{
    let Input::Column(level, place) = input else {
        return Err(KeptPlanError::NotKept);
    };
    if *level != 0 {
        return Err(KeptPlanError::NotKept);
    }
    Ok(*place)
}

// The places of inputs that are columns of the row itself.
fn own_places(alloc: Global, inputs: &[Input]) -> Result<Items<u32>, KeptPlanError>
    ensures { IsFound (list_all (λ i. is_some (own_place i)) inputs.now)
        (λ places. map own_place inputs.now ≡ map Some places) result }
{
    let mut places = Items::new(alloc);
    for input in inputs {
        let place = own_place(input)?;
        places.push(place)?;
    }
    Ok(places)
}

// An expression over the row itself.
fn over_row(alloc: Global, e: &BoundExpr) -> Result<Boxed<Expr>, KeptPlanError>
    ensures { IsFound (is_over_row e.now) (IsOver e.now) result }
{
    let places = own_places(alloc, e.inputs.as_slice())?;
    let new = rename(alloc, e.expr.get(), places.as_slice())?;
    let boxed = Boxed::new(alloc, new)?;
    Ok(boxed)
}

// A function of an expression over the row itself, where it is kept.
fn kept_function(
    alloc: Global,
    function: AggregateFunction,
    scale: Scale,
    e: &BoundExpr,
) -> Result<KeptAggregate, KeptPlanError>
    ensures { IsFound (is_kept_at (node.Of function scale e.now))
        (IsItem (aggregate.Of function scale e.now)) result }
{
    match function {
        AggregateFunction::Count => {
            let e = over_row(alloc, e)?;
            Ok(KeptAggregate::Count(e))
        }
        AggregateFunction::Sum => {
            let e = over_row(alloc, e)?;
            Ok(KeptAggregate::Sum(scale, e))
        }
        AggregateFunction::CountDistinct
        | AggregateFunction::Avg
        | AggregateFunction::Min
        | AggregateFunction::Max => Err(KeptPlanError::NotKept),
    }
}

// An aggregate that is kept.
fn kept_aggregate(alloc: Global, a: &BoundAggregate) -> Result<KeptAggregate, KeptPlanError>
    ensures { IsFound (is_kept_aggregate a.now) (IsItem a.now) result }
{
    match a {
        BoundAggregate::CountRows => Ok(KeptAggregate::CountRows),
        BoundAggregate::Of(function, scale, e) => kept_function(alloc, *function, *scale, e),
    }
}

// Aggregates that are kept.
fn kept_aggregates(
    alloc: Global,
    all: &[BoundAggregate],
) -> Result<Items<KeptAggregate>, KeptPlanError>
    ensures { IsFound (list_all is_kept_aggregate all.now) (AreItems all.now) result }
{
    let mut kept = Items::new(alloc);
    for a in all {
        let a = kept_aggregate(alloc, a)?;
        kept.push(a)?;
    }
    Ok(kept)
}

// The place of the column that an item of the select list is.
fn shown_place(e: &BoundExpr) -> Result<u32, KeptPlanError>
    ensures { IsFound (is_some (shown_place e.now)) (IsShown e.now) result }
{
    let Expr::Column(k) = e.expr.get() else {
        return Err(KeptPlanError::NotKept);
    };
    match e.inputs.get(*k as usize) {
        Some(input) => own_place(input),
        None => Err(KeptPlanError::NotKept),
    }
}

// The places of the columns that the items of the select list are.
fn shown_places(alloc: Global, list: &[BoundExpr]) -> Result<Items<u32>, KeptPlanError>
    ensures { IsFound (list_all (λ e. is_some (shown_place e)) list.now)
        (AreShown list.now) result }
{
    let mut places = Items::new(alloc);
    for e in list {
        let place = shown_place(e)?;
        places.push(place)?;
    }
    Ok(places)
}

// Whether a condition is that of no conditions, which always holds.
fn holds_always(e: &BoundExpr) -> bool
    ensures test { result ≡ holds_always e.now }
    ensures always { IsTrue result → IsTrueAlways e.now }
{
    match e.expr.get() {
        Expr::All(conditions) => conditions.len() == 0,
        _ => false,
    }
}

/// The plan of a query without ORDER BY and limit.
pub fn plan_of_block(alloc: Global, q: &BoundBlock) -> Result<KeptPlan, KeptPlanError>
    ensures { IsFound (is_kept_block q.now) (IsKeptPlan q.now) result }
{
    let BoundBlock::Grouped(from, condition, by, aggregates, having, list) = q else {
        return Err(KeptPlanError::NotKept);
    };
    let BoundSource::Table(table) = from.get() else {
        return Err(KeptPlanError::NotKept);
    };
    if !holds_always(having) {
        return Err(KeptPlanError::NotKept);
    }
    let condition = over_row(alloc, condition)?;
    let aggregates = kept_aggregates(alloc, aggregates.as_slice())?;
    let list = shown_places(alloc, list.as_slice())?;
    let by = Items::from_slice(alloc, by.as_slice())?;
    Ok(KeptPlan {
        table: *table,
        condition,
        by,
        aggregates,
        list,
    })
}

/// The plan of a query, which is NotKept exactly where the query is none of one table whose items
/// are GROUP BY columns, `count(*)`, `count(e)` and `sum(e)`, or where it has DISTINCT, a subquery,
/// HAVING, ORDER BY or a limit. The plan's rows are the query's.
pub fn plan_of(alloc: Global, q: &BoundQuery) -> Result<KeptPlan, KeptPlanError>
    ensures { IsFound (is_kept q.now) (IsKeptPlan q.now.block) result }
{
    if q.order.len() > 0 {
        return Err(KeptPlanError::NotKept);
    }
    if q.limit.is_some() {
        return Err(KeptPlanError::NotKept);
    }
    plan_of_block(alloc, q.block.get())
}
