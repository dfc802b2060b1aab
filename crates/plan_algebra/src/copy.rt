//! Copies of expressions and aggregates, for what is made from a tree that stays.
ghost use Rattle.std.specs.Prelude.{◌≡◌, IfOk};

use crate::aggregate::Aggregate;
use expr_conditions::copy_of;
use expr_scalar::Expr;
use sqlite_items::{Boxed, Items};
use std::alloc::{AllocError, Global};

/// An expression once more.
pub fn copy_expr(alloc: Global, e: &Expr) -> Result<Boxed<Expr>, AllocError>
    ensures { IfOk result (λ new. new ≡ e.now) }
{
    let new = copy_of(alloc, e)?;
    let new = Boxed::new(alloc, new)?;
    Ok(new)
}

/// Expressions once more.
pub fn copy_exprs(alloc: Global, es: &[Expr]) -> Result<Items<Expr>, AllocError>
    ensures { IfOk result (λ new. new ≡ es.now) }
{
    let mut all = Items::new(alloc);
    for e in es {
        let new = copy_of(alloc, e)?;
        all.push(new)?;
    }
    Ok(all)
}

fn copied_aggregate(alloc: Global, aggregate: &Aggregate) -> Result<Aggregate, AllocError>
    ensures { IfOk result (λ new. new ≡ aggregate.now) }
{
    match aggregate {
        Aggregate::CountRows => Ok(Aggregate::CountRows),
        Aggregate::Of(function, scale, e) => {
            let e = copy_expr(alloc, e.get())?;
            Ok(Aggregate::Of(*function, *scale, e))
        }
    }
}

/// Aggregates once more.
pub fn copy_aggregates(
    alloc: Global,
    aggregates: &[Aggregate],
) -> Result<Items<Aggregate>, AllocError>
    ensures { IfOk result (λ new. new ≡ aggregates.now) }
{
    let mut all = Items::new(alloc);
    for aggregate in aggregates {
        let new = copied_aggregate(alloc, aggregate)?;
        all.push(new)?;
    }
    Ok(all)
}
