//! Copies of bound queries.
ghost use Rattle.std.specs.Prelude.{◌≡◌, IfOk};

use crate::query::{BoundAggregate, BoundBlock, BoundExpr, BoundSource, Input, SetColumn};
use expr_conditions::copy_of;
use sqlite_items::{Boxed, Items};
use std::alloc::{AllocError, Global};

/// A copy of a query, as of a view at each use of it.
pub fn copy_block(alloc: Global, q: &BoundBlock) -> Result<BoundBlock, AllocError>
    ensures { IfOk result (λ new. new ≡ q.now) }
{
    let new = block(alloc, q)?;
    Ok(new)
}

// Copies of the columns of a set operation.
fn set_columns(alloc: Global, all: &[SetColumn]) -> Result<Items<SetColumn>, AllocError>
    ensures { IfOk result (λ new. new ≡ all.now) }
{
    let mut new = Items::new(alloc);
    for column in all {
        let left = copy_of(alloc, &column.left)?;
        let right = copy_of(alloc, &column.right)?;
        new.push(SetColumn { left, right })?;
    }
    Ok(new)
}

#[cycle(copy)]
fn input(alloc: Global, i: &Input) -> Result<Input, AllocError>
    ensures { IfOk result (λ new. new ≡ i.now) }
{
    match i {
        Input::Column(level, place) => Ok(Input::Column(*level, *place)),
        Input::Exists(q) => Ok(Input::Exists(boxed_block(alloc, q)?)),
        Input::Any(comparison, e, q) => {
            let left = boxed_expr(alloc, e)?;
            let q = boxed_block(alloc, q)?;
            Ok(Input::Any(*comparison, left, q))
        }
        Input::Scalar(q) => Ok(Input::Scalar(boxed_block(alloc, q)?)),
    }
}

#[cycle(copy)]
fn inputs(alloc: Global, all: &[Input]) -> Result<Items<Input>, AllocError>
    ensures { IfOk result (λ new. new ≡ all.now) }
{
    let mut new = Items::new(alloc);
    for i in all {
        let i = input(alloc, i)?;
        new.push(i)?;
    }
    Ok(new)
}

#[cycle(copy)]
fn expr(alloc: Global, e: &BoundExpr) -> Result<BoundExpr, AllocError>
    ensures { IfOk result (λ new. new ≡ e.now) }
{
    let inputs = inputs(alloc, e.inputs.as_slice())?;
    let expr = copy_of(alloc, e.expr.get())?;
    let expr = Boxed::new(alloc, expr)?;
    Ok(BoundExpr { inputs, expr })
}

#[cycle(copy)]
fn boxed_expr(alloc: Global, e: &Boxed<BoundExpr>) -> Result<Boxed<BoundExpr>, AllocError>
    ensures { IfOk result (λ new. new ≡ e.now) }
{
    let new = expr(alloc, e.get())?;
    let new = Boxed::new(alloc, new)?;
    Ok(new)
}

#[cycle(copy)]
fn exprs(alloc: Global, all: &[BoundExpr]) -> Result<Items<BoundExpr>, AllocError>
    ensures { IfOk result (λ new. new ≡ all.now) }
{
    let mut new = Items::new(alloc);
    for e in all {
        let e = expr(alloc, e)?;
        new.push(e)?;
    }
    Ok(new)
}

#[cycle(copy)]
fn aggregates(alloc: Global, all: &[BoundAggregate]) -> Result<Items<BoundAggregate>, AllocError>
    ensures { IfOk result (λ new. new ≡ all.now) }
{
    let mut new = Items::new(alloc);
    for a in all {
        let a = aggregate(alloc, a)?;
        new.push(a)?;
    }
    Ok(new)
}

#[cycle(copy)]
fn aggregate(alloc: Global, a: &BoundAggregate) -> Result<BoundAggregate, AllocError>
    ensures { IfOk result (λ new. new ≡ a.now) }
{
    match a {
        BoundAggregate::CountRows => Ok(BoundAggregate::CountRows),
        BoundAggregate::Of(function, scale, argument) => {
            let argument = expr(alloc, argument)?;
            Ok(BoundAggregate::Of(*function, *scale, argument))
        }
    }
}

#[cycle(copy)]
fn source(alloc: Global, s: &BoundSource) -> Result<BoundSource, AllocError>
    ensures { IfOk result (λ new. new ≡ s.now) }
{
    match s {
        BoundSource::Table(table) => Ok(BoundSource::Table(*table)),
        BoundSource::Derived(kept, q) => {
            let q = boxed_block(alloc, q)?;
            Ok(BoundSource::Derived(*kept, q))
        }
        BoundSource::Lateral(q) => Ok(BoundSource::Lateral(boxed_block(alloc, q)?)),
        BoundSource::Cross(a, b) => {
            let left = boxed_source(alloc, a)?;
            let right = boxed_source(alloc, b)?;
            Ok(BoundSource::Cross(left, right))
        }
        BoundSource::Inner(a, b, on) => {
            let left = boxed_source(alloc, a)?;
            let right = boxed_source(alloc, b)?;
            let on = expr(alloc, on)?;
            Ok(BoundSource::Inner(left, right, on))
        }
        BoundSource::Outer(a, b, width, on) => {
            let left = boxed_source(alloc, a)?;
            let right = boxed_source(alloc, b)?;
            let on = expr(alloc, on)?;
            Ok(BoundSource::Outer(left, right, *width, on))
        }
    }
}

#[cycle(copy)]
fn boxed_source(alloc: Global, s: &Boxed<BoundSource>) -> Result<Boxed<BoundSource>, AllocError>
    ensures { IfOk result (λ new. new ≡ s.now) }
{
    let new = source(alloc, s.get())?;
    let new = Boxed::new(alloc, new)?;
    Ok(new)
}

#[cycle(copy)]
fn block(alloc: Global, q: &BoundBlock) -> Result<BoundBlock, AllocError>
    ensures { IfOk result (λ new. new ≡ q.now) }
{
    match q {
        BoundBlock::Plain(from, condition, list) => {
            let from = boxed_source(alloc, from)?;
            let condition = expr(alloc, condition)?;
            let list = exprs(alloc, list.as_slice())?;
            Ok(BoundBlock::Plain(from, condition, list))
        }
        BoundBlock::Grouped(from, condition, keys, all, having, list) => {
            let from = boxed_source(alloc, from)?;
            let condition = expr(alloc, condition)?;
            let keys = Items::from_slice(alloc, keys.as_slice())?;
            let all = aggregates(alloc, all.as_slice())?;
            let having = expr(alloc, having)?;
            let list = exprs(alloc, list.as_slice())?;
            Ok(BoundBlock::Grouped(from, condition, keys, all, having, list))
        }
        BoundBlock::Distinct(q) => Ok(BoundBlock::Distinct(boxed_block(alloc, q)?)),
        BoundBlock::Set(a, b, columns, operation) => {
            let left = boxed_block(alloc, a)?;
            let right = boxed_block(alloc, b)?;
            let columns = set_columns(alloc, columns.as_slice())?;
            Ok(BoundBlock::Set(left, right, columns, *operation))
        }
    }
}

#[cycle(copy)]
fn boxed_block(alloc: Global, q: &Boxed<BoundBlock>) -> Result<Boxed<BoundBlock>, AllocError>
    ensures { IfOk result (λ new. new ≡ q.now) }
{
    let new = block(alloc, q.get())?;
    let new = Boxed::new(alloc, new)?;
    Ok(new)
}
