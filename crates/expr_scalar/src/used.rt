//! The columns that an expression uses.
ghost use Rattle.std.specs.Prelude.{◌≡◌, ◌++◌, IfOk, OnOk};
ghost use Rattle.expr_scalar.specs.Used.{used, all_used, branches_used, operations_used};
ghost use Rattle.expr_scalar.specs.Used.{UsedColumnsDecide};

use crate::expr::{Branch, Expr, Operation};
use std::alloc::{AllocError, Global};

/// The columns that an expression uses, from left to right, once for each use.
pub fn used_columns(alloc: Global, e: &Expr) -> Result<Vec<u32>, AllocError>
    ensures { IfOk result (λ columns. columns.items ≡ used e.now) }
{
    let mut columns = Vec::new(alloc);
    put_used(e, &mut columns)?;
    Ok(columns)
}

#[cycle(used)]
#[tactic(auto, using(crate::proofs::Uses::used_opened))]
fn put_used(e: &Expr, columns: &mut Vec<u32>) -> Result<(), AllocError>
    ensures { OnOk result (columns.new.items ≡ columns.old.items ++ used e.now) }
{
    match e {
        Expr::Column(place) => {
            columns.push(*place)?;
            Ok(())
        }
        Expr::Literal(_) => Ok(()),
        Expr::Negative(e)
        | Expr::Extract(_, e)
        | Expr::Substring(e, _, _)
        | Expr::Like(e, _)
        | Expr::IsNull(e)
        | Expr::Not(e)
        | Expr::IsMarked(e) => put_used(e.get(), columns),
        Expr::Arithmetic(first, operations) => {
            put_used(first.get(), columns)?;
            put_operations_used(operations.as_slice(), columns)
        }
        Expr::Compare(_, a, b) => {
            put_used(a.get(), columns)?;
            put_used(b.get(), columns)
        }
        Expr::Between(e, low, high) => {
            put_used(e.get(), columns)?;
            put_used(low.get(), columns)?;
            put_used(high.get(), columns)
        }
        Expr::Case(_, branches, other) => {
            put_branches_used(branches.as_slice(), columns)?;
            put_used(other.get(), columns)
        }
        Expr::InList(e, es) => {
            put_used(e.get(), columns)?;
            put_all_used(es.as_slice(), columns)
        }
        Expr::All(es) | Expr::Any(es) => put_all_used(es.as_slice(), columns),
    }
}

#[cycle(used)]
fn put_all_used(es: &[Expr], columns: &mut Vec<u32>) -> Result<(), AllocError>
    ensures { OnOk result (columns.new.items ≡ columns.old.items ++ all_used es.now) }
{
    for e in es {
        put_used(e, columns)?;
    }
    Ok(())
}

#[cycle(used)]
fn put_branches_used(branches: &[Branch], columns: &mut Vec<u32>) -> Result<(), AllocError>
    ensures { OnOk result (columns.new.items ≡ columns.old.items ++ branches_used branches.now) }
{
    for branch in branches {
        put_used(&branch.when, columns)?;
        put_used(&branch.gives, columns)?;
    }
    Ok(())
}

#[cycle(used)]
fn put_operations_used(operations: &[Operation], columns: &mut Vec<u32>) -> Result<(), AllocError>
    ensures { OnOk result
        (columns.new.items ≡ columns.old.items ++ operations_used operations.now) }
{
    for operation in operations {
        put_used(&operation.operand, columns)?;
    }
    Ok(())
}

/// A law: over rows with the same values at the columns that an expression uses, it has the same
/// value and truth.
pub fn used_columns_decide()
    ensures { UsedColumnsDecide }
{}
