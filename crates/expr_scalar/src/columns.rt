//! Expressions over other columns.
ghost use Rattle.std.specs.Prelude.{◌≡◌, map, slice_get, IfOk};
ghost use Rattle.std.specs.List.{filter_map};
ghost use Rattle.expr_scalar.specs.Rename.{renamed, renamed_branch, renamed_operation, IsRenamed};
ghost use Rattle.expr_scalar.specs.Rename.{KeepsKinds};
ghost use Rattle.expr_scalar.specs.Used.{used};
ghost use Rattle.expr_scalar.specs.declared.expr.Expr.TheVariants.{Column};

use crate::expr::{Branch, Expr, Operation};
use base_value::Value;
use sqlite_items::{Boxed, Items, at};
use std::alloc::{AllocError, Global};

/// The expression that reads the column `columns[i]` where `e` reads the column i, and null where
/// `base_columns` has no such place: over any row it means what `e` means over the row of these columns,
/// is typed as `e` is over that row, and uses of `base_columns` what `e` names.
pub fn rename(alloc: Global, e: &Expr, columns: &[u32]) -> Result<Expr, AllocError>
    ensures tree { IfOk result (λ new. new ≡ renamed columns.now e.now) }
    ensures meaning { IfOk result (IsRenamed columns.now e.now) }
    ensures kinds { IfOk result (KeepsKinds columns.now e.now) }
    ensures used { IfOk result (λ new.
        used new ≡ filter_map (slice_get columns.now) (used e.now)) }
{
    let new = renamed(alloc, e, columns)?;
    Ok(new)
}

#[cycle(rename)]
#[tactic(auto, using(crate::proofs::Renamed::renamed_opened))]
fn renamed(alloc: Global, e: &Expr, columns: &[u32]) -> Result<Expr, AllocError>
    ensures { IfOk result (λ new. new ≡ renamed columns.now e.now) }
{
    match e {
        Expr::Column(place) => Ok(renamed_column(*place, columns)),
        Expr::Literal(v) => Ok(Expr::Literal(v.clone()?)),
        Expr::Negative(e) => Ok(Expr::Negative(boxed(alloc, e, columns)?)),
        Expr::Arithmetic(first, operations) => Ok(Expr::Arithmetic(
            boxed(alloc, first, columns)?,
            renamed_operations(alloc, operations.as_slice(), columns)?,
        )),
        Expr::Case(scale, branches, other) => Ok(Expr::Case(
            *scale,
            renamed_branches(alloc, branches.as_slice(), columns)?,
            boxed(alloc, other, columns)?,
        )),
        Expr::Extract(part, e) => Ok(Expr::Extract(*part, boxed(alloc, e, columns)?)),
        Expr::Substring(e, from, count) => {
            Ok(Expr::Substring(boxed(alloc, e, columns)?, *from, *count))
        }
        Expr::Compare(comparison, a, b) => Ok(Expr::Compare(
            *comparison,
            boxed(alloc, a, columns)?,
            boxed(alloc, b, columns)?,
        )),
        Expr::Between(e, low, high) => Ok(Expr::Between(
            boxed(alloc, e, columns)?,
            boxed(alloc, low, columns)?,
            boxed(alloc, high, columns)?,
        )),
        Expr::Like(e, pattern) => Ok(Expr::Like(boxed(alloc, e, columns)?, pattern.clone()?)),
        Expr::InList(e, es) => Ok(Expr::InList(
            boxed(alloc, e, columns)?,
            renamed_all(alloc, es.as_slice(), columns)?,
        )),
        Expr::IsNull(e) => Ok(Expr::IsNull(boxed(alloc, e, columns)?)),
        Expr::Not(e) => Ok(Expr::Not(boxed(alloc, e, columns)?)),
        Expr::All(es) => Ok(Expr::All(renamed_all(alloc, es.as_slice(), columns)?)),
        Expr::Any(es) => Ok(Expr::Any(renamed_all(alloc, es.as_slice(), columns)?)),
        Expr::IsMarked(e) => Ok(Expr::IsMarked(boxed(alloc, e, columns)?)),
    }
}

#[tactic(auto, using(crate::proofs::Renamed::renamed_opened))]
fn renamed_column(place: u32, columns: &[u32]) -> Expr
    ensures { result ≡ renamed columns.now (Column place) }
{
    match at(columns, place as usize) {
        Some(place) => Expr::Column(*place),
        None => Expr::Literal(Value::Null),
    }
}

#[cycle(rename)]
fn boxed(alloc: Global, e: &Boxed<Expr>, columns: &[u32]) -> Result<Boxed<Expr>, AllocError>
    ensures { IfOk result (λ new. new ≡ renamed columns.now e.now) }
{
    let new = renamed(alloc, e.get(), columns)?;
    let new = Boxed::new(alloc, new)?;
    Ok(new)
}

#[cycle(rename)]
fn renamed_all(alloc: Global, es: &[Expr], columns: &[u32]) -> Result<Items<Expr>, AllocError>
    ensures { IfOk result (λ new. new ≡ map (renamed columns.now) es.now) }
{
    let mut all = Items::new(alloc);
    for e in es {
        let new = renamed(alloc, e, columns)?;
        all.push(new)?;
    }
    Ok(all)
}

#[cycle(rename)]
#[tactic(auto, using(crate::proofs::Renamed::renamed_branch_is))]
fn renamed_branches(
    alloc: Global,
    branches: &[Branch],
    columns: &[u32],
) -> Result<Items<Branch>, AllocError>
    ensures { IfOk result (λ new. new ≡ map (renamed_branch columns.now) branches.now) }
{
    let mut all = Items::new(alloc);
    for branch in branches {
        let when = renamed(alloc, &branch.when, columns)?;
        let gives = renamed(alloc, &branch.gives, columns)?;
        all.push(Branch { when, gives })?;
    }
    Ok(all)
}

#[cycle(rename)]
#[tactic(auto, using(crate::proofs::Renamed::renamed_operation_is))]
fn renamed_operations(
    alloc: Global,
    operations: &[Operation],
    columns: &[u32],
) -> Result<Items<Operation>, AllocError>
    ensures { IfOk result (λ new. new ≡ map (renamed_operation columns.now) operations.now) }
{
    let mut all = Items::new(alloc);
    for operation in operations {
        let operator = operation.operator;
        let operand = renamed(alloc, &operation.operand, columns)?;
        all.push(Operation { operator, operand })?;
    }
    Ok(all)
}
