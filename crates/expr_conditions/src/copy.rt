//! Copies of expressions.
ghost use Rattle.std.specs.Prelude.{◌≡◌, IfOk};

use expr_scalar::{Branch, Expr, Operation};
use sqlite_items::{Boxed, Items};
use std::alloc::{AllocError, Global};

/// A copy of an expression.
pub fn copy(alloc: Global, e: &Expr) -> Result<Expr, AllocError>
    ensures { IfOk result (λ new. new ≡ e.now) }
{
    let new = copied(alloc, e)?;
    Ok(new)
}

#[cycle(copy)]
fn copied(alloc: Global, e: &Expr) -> Result<Expr, AllocError>
    ensures { IfOk result (λ new. new ≡ e.now) }
{
    match e {
        Expr::Column(place) => Ok(Expr::Column(*place)),
        Expr::Literal(v) => Ok(Expr::Literal(v.clone()?)),
        Expr::Negative(e) => Ok(Expr::Negative(boxed(alloc, e)?)),
        Expr::Arithmetic(first, operations) => Ok(Expr::Arithmetic(
            boxed(alloc, first)?,
            copied_operations(alloc, operations.as_slice())?,
        )),
        Expr::Case(scale, branches, other) => Ok(Expr::Case(
            *scale,
            copied_branches(alloc, branches.as_slice())?,
            boxed(alloc, other)?,
        )),
        Expr::Extract(part, e) => Ok(Expr::Extract(*part, boxed(alloc, e)?)),
        Expr::Substring(e, from, count) => Ok(Expr::Substring(boxed(alloc, e)?, *from, *count)),
        Expr::Compare(comparison, a, b) => Ok(Expr::Compare(
            *comparison,
            boxed(alloc, a)?,
            boxed(alloc, b)?,
        )),
        Expr::Between(e, low, high) => Ok(Expr::Between(
            boxed(alloc, e)?,
            boxed(alloc, low)?,
            boxed(alloc, high)?,
        )),
        Expr::Like(e, pattern) => Ok(Expr::Like(boxed(alloc, e)?, pattern.clone()?)),
        Expr::InList(e, es) => Ok(Expr::InList(
            boxed(alloc, e)?,
            copied_all(alloc, es.as_slice())?,
        )),
        Expr::IsNull(e) => Ok(Expr::IsNull(boxed(alloc, e)?)),
        Expr::Not(e) => Ok(Expr::Not(boxed(alloc, e)?)),
        Expr::All(es) => Ok(Expr::All(copied_all(alloc, es.as_slice())?)),
        Expr::Any(es) => Ok(Expr::Any(copied_all(alloc, es.as_slice())?)),
        Expr::IsMarked(e) => Ok(Expr::IsMarked(boxed(alloc, e)?)),
    }
}

#[cycle(copy)]
fn boxed(alloc: Global, e: &Boxed<Expr>) -> Result<Boxed<Expr>, AllocError>
    ensures { IfOk result (λ new. new ≡ e.now) }
{
    let new = copied(alloc, e.get())?;
    let new = Boxed::new(alloc, new)?;
    Ok(new)
}

#[cycle(copy)]
fn copied_all(alloc: Global, es: &[Expr]) -> Result<Items<Expr>, AllocError>
    ensures { IfOk result (λ new. new ≡ es.now) }
{
    let mut all = Items::new(alloc);
    for e in es {
        let new = copied(alloc, e)?;
        all.push(new)?;
    }
    Ok(all)
}

#[cycle(copy)]
fn copied_branches(alloc: Global, branches: &[Branch]) -> Result<Items<Branch>, AllocError>
    ensures { IfOk result (λ new. new ≡ branches.now) }
{
    let mut all = Items::new(alloc);
    for branch in branches {
        let when = copied(alloc, &branch.when)?;
        let gives = copied(alloc, &branch.gives)?;
        all.push(Branch { when, gives })?;
    }
    Ok(all)
}

#[cycle(copy)]
fn copied_operations(
    alloc: Global,
    operations: &[Operation],
) -> Result<Items<Operation>, AllocError>
    ensures { IfOk result (λ new. new ≡ operations.now) }
{
    let mut all = Items::new(alloc);
    for operation in operations {
        let operator = operation.operator;
        let operand = copied(alloc, &operation.operand)?;
        all.push(Operation { operator, operand })?;
    }
    Ok(all)
}
