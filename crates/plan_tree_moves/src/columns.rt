//! Lists of columns: those that are left of a tree's rows, and those that are read of them.
ghost use Rattle.std.specs.Prelude.{◌≡◌, ◌++◌, ◌∷◌, [], IfOk};
ghost use Rattle.expr_conditions.specs.Ranks.{columns_from};

use crate::narrow::put_read;
use crate::regroup::put_aggregated;
use expr_conditions::put_run;
use expr_scalar::{Expr, used_columns};
use plan_algebra::{Aggregate, Side};
use std::alloc::{AllocError, Global};

/// The columns that are left, and after them a column more.
pub(crate) fn with_one(kept: Vec<u32>, column: u32) -> Result<Vec<u32>, AllocError>
    ensures { IfOk result (λ v. v.items ≡ kept.items ++ column ∷ []) }
{
    let mut kept = kept;
    kept.push(column)?;
    Ok(kept)
}

/// The columns that are left, and after them a run of others.
pub(crate) fn with_run(kept: Vec<u32>, from: u32, count: u32) -> Result<Vec<u32>, AllocError>
    ensures { IfOk result (λ v. v.items ≡ kept.items ++ columns_from from count) }
{
    let mut kept = kept;
    put_run(&mut kept, from, count)?;
    Ok(kept)
}

/// Some columns, and those that a condition reads.
pub(crate) fn with_used(alloc: Global, read: &[u32], c: &Expr) -> Result<Vec<u32>, AllocError> {
    let mut all = Vec::from_slice(alloc, read)?;
    let mut used = used_columns(alloc, c)?;
    all.append(&mut used)?;
    Ok(all)
}

/// Some columns, and those that a right side reads.
pub(crate) fn with_side(alloc: Global, read: &[u32], side: &Side) -> Result<Vec<u32>, AllocError> {
    let mut all = Vec::from_slice(alloc, read)?;
    if let Side::Dependent(columns) = side {
        all.extend_from_slice(columns.as_slice())?;
    }
    Ok(all)
}

/// The columns that groups read.
pub(crate) fn read_by_groups(
    alloc: Global,
    by: &[u32],
    aggregates: &[Aggregate],
) -> Result<Vec<u32>, AllocError> {
    let mut read = Vec::from_slice(alloc, by)?;
    put_aggregated(alloc, aggregates, &mut read)?;
    Ok(read)
}

/// The columns that a select list reads.
pub(crate) fn read_by_list(alloc: Global, es: &[Expr]) -> Result<Vec<u32>, AllocError> {
    let mut read = Vec::new(alloc);
    put_read(alloc, es, &mut read)?;
    Ok(read)
}
