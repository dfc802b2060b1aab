//! Grouped queries of one table whose rows are kept, as plain data.
ghost use Rattle.std.specs.Prelude.{◌≡◌, IfOk, IsTrue, map};
ghost use Rattle.expr_scalar.specs.declared.expr.Expr.TheVariants.{Column};
ghost use Rattle.plan_algebra.specs.KeptPlans.{plain_aggregate};

use crate::aggregate::Aggregate;
use crate::copy::copy_expr;
use base_decimal::Scale;
use base_schema::TableName;
use expr_aggregates::AggregateFunction;
use expr_conditions::is_same;
use expr_scalar::Expr;
use sqlite_items::{Boxed, Items};
use std::alloc::{AllocError, Global};

/// An aggregate that is kept.
pub enum KeptAggregate {
    /// `count(*)`.
    CountRows,
    /// `count(e)`.
    Count(Boxed<Expr>),
    /// `sum(e)`, and the scale of the numbers of e.
    Sum(Scale, Boxed<Expr>),
}

impl Drop for KeptAggregate {
    #[inline]
    fn drop(self) {
        match self {
            KeptAggregate::CountRows => {}
            KeptAggregate::Count(kept) => drop(kept),
            KeptAggregate::Sum(_, kept) => drop(kept),
        }
    }
}

/// A query of one table: WHERE, the GROUP BY columns, the aggregates, and which columns of a
/// group's row, which are the GROUP BY columns and then the aggregates, it shows.
pub struct KeptPlan {
    /// The table.
    pub table: TableName,
    /// WHERE, over a row of the table.
    pub condition: Boxed<Expr>,
    /// The places of the GROUP BY columns in a row of the table.
    pub by: Items<u32>,
    /// The aggregates, over a row of the table.
    pub aggregates: Items<KeptAggregate>,
    /// The places of the columns shown in a group's row.
    pub list: Items<u32>,
}

impl Drop for KeptPlan {
    #[inline]
    fn drop(self) {
        let KeptPlan {
            table: _,
            condition,
            by,
            aggregates,
            list,
        } = self;
        drop(condition);
        drop(by);
        drop(aggregates);
        drop(list);
    }
}

fn copied_aggregate(alloc: Global, aggregate: &KeptAggregate) -> Result<KeptAggregate, AllocError>
    ensures { IfOk result (λ new. new ≡ aggregate.now) }
{
    match aggregate {
        KeptAggregate::CountRows => Ok(KeptAggregate::CountRows),
        KeptAggregate::Count(e) => {
            let e = copy_expr(alloc, e.get())?;
            Ok(KeptAggregate::Count(e))
        }
        KeptAggregate::Sum(scale, e) => {
            let e = copy_expr(alloc, e.get())?;
            Ok(KeptAggregate::Sum(*scale, e))
        }
    }
}

fn copied_aggregates(
    alloc: Global,
    aggregates: &[KeptAggregate],
) -> Result<Items<KeptAggregate>, AllocError>
    ensures { IfOk result (λ new. new ≡ aggregates.now) }
{
    let mut all = Items::new(alloc);
    for aggregate in aggregates {
        let new = copied_aggregate(alloc, aggregate)?;
        all.push(new)?;
    }
    Ok(all)
}

/// A kept plan once more.
pub fn copy_kept_plan(alloc: Global, plan: &KeptPlan) -> Result<Boxed<KeptPlan>, AllocError>
    ensures { IfOk result (λ new. new ≡ plan.now) }
{
    let condition = copy_expr(alloc, plan.condition.get())?;
    let by = Items::from_slice(alloc, plan.by.as_slice())?;
    let aggregates = copied_aggregates(alloc, plan.aggregates.as_slice())?;
    let list = Items::from_slice(alloc, plan.list.as_slice())?;
    let new = KeptPlan {
        table: plan.table,
        condition,
        by,
        aggregates,
        list,
    };
    let new = Boxed::new(alloc, new)?;
    Ok(new)
}

fn are_same_places(some: &[u32], others: &[u32]) -> bool
    ensures { IsTrue result → some.now ≡ others.now }
{
    if some.len() != others.len() {
        return false;
    }
    for (i, place) in some.iter().enumerate() {
        if *place != others[i] {
            return false;
        }
    }
    true
}

fn is_same_aggregate(a: &KeptAggregate, b: &KeptAggregate) -> bool
    ensures { IsTrue result → a.now ≡ b.now }
{
    match (a, b) {
        (KeptAggregate::CountRows, KeptAggregate::CountRows) => true,
        (KeptAggregate::Count(x), KeptAggregate::Count(u)) => is_same(x.get(), u.get()),
        (KeptAggregate::Sum(s, x), KeptAggregate::Sum(t, u)) => {
            *s == *t && is_same(x.get(), u.get())
        }
        _ => false,
    }
}

fn are_same_aggregates(some: &[KeptAggregate], others: &[KeptAggregate]) -> bool
    ensures { IsTrue result → some.now ≡ others.now }
{
    if some.len() != others.len() {
        return false;
    }
    for (i, aggregate) in some.iter().enumerate() {
        if !is_same_aggregate(aggregate, &others[i]) {
            return false;
        }
    }
    true
}

/// Whether two kept plans are the same, part for part. Where it says so, they are equal.
pub fn is_same_plan(a: &KeptPlan, b: &KeptPlan) -> bool
    ensures { IsTrue result → a.now ≡ b.now }
{
    a.table == b.table
        && is_same(a.condition.get(), b.condition.get())
        && are_same_places(a.by.as_slice(), b.by.as_slice())
        && are_same_aggregates(a.aggregates.as_slice(), b.aggregates.as_slice())
        && are_same_places(a.list.as_slice(), b.list.as_slice())
}

// A kept aggregate as one of a plan's.
fn plain(alloc: Global, aggregate: &KeptAggregate) -> Result<Aggregate, AllocError>
    ensures { IfOk result (λ new. new ≡ plain_aggregate aggregate.now) }
{
    match aggregate {
        KeptAggregate::CountRows => Ok(Aggregate::CountRows),
        KeptAggregate::Count(e) => {
            let e = copy_expr(alloc, e.get())?;
            Ok(Aggregate::Of(AggregateFunction::Count, Scale::WHOLE, e))
        }
        KeptAggregate::Sum(scale, e) => {
            let e = copy_expr(alloc, e.get())?;
            Ok(Aggregate::Of(AggregateFunction::Sum, *scale, e))
        }
    }
}

/// Kept aggregates as those of a plan's group.
pub fn plain_aggregates(
    alloc: Global,
    aggregates: &[KeptAggregate],
) -> Result<Items<Aggregate>, AllocError>
    ensures { IfOk result (λ all. all ≡ map plain_aggregate aggregates.now) }
{
    let mut all = Items::new(alloc);
    for aggregate in aggregates {
        let new = plain(alloc, aggregate)?;
        all.push(new)?;
    }
    Ok(all)
}

/// The select list of columns at these places.
pub fn shown_columns(alloc: Global, places: &[u32]) -> Result<Items<Expr>, AllocError>
    ensures { IfOk result (λ all. all ≡ map Column places.now) }
{
    let mut all = Items::new(alloc);
    for place in places {
        all.push(Expr::Column(*place))?;
    }
    Ok(all)
}
