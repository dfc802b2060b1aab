//! The trees of set operations.
ghost use Rattle.std.specs.Prelude.{◌≡◌, IfOk};
ghost use Rattle.sql_bound_query.specs.Meaning.{left_columns, right_columns};
ghost use Rattle.plan_dependent_tree.specs.SetGrowth.{IsSetTree, ReadsOf};

use base_set_rows::SetOperation;
use expr_scalar::{Expr, rename};
use plan_algebra::DepTree;
use plan_dependent_nodes::{Rows, with_left_row};
use sql_bound_query::SetColumn;
use sqlite_items::{Boxed, Items};
use std::alloc::{AllocError, Global};

// The columns of a set operation over the flat row of the left side.
fn left_list(
    alloc: Global,
    columns: &[SetColumn],
    places: &[u32],
) -> Result<Items<Expr>, AllocError>
    ensures { IfOk result (ReadsOf places.now (left_columns columns.now)) }
{
    let mut exprs = Items::new(alloc);
    for column in columns {
        let expr = rename(alloc, &column.left, places)?;
        exprs.push(expr)?;
    }
    Ok(exprs)
}

// The columns of a set operation over the flat row of the right side.
fn right_list(
    alloc: Global,
    columns: &[SetColumn],
    places: &[u32],
) -> Result<Items<Expr>, AllocError>
    ensures { IfOk result (ReadsOf places.now (right_columns columns.now)) }
{
    let mut exprs = Items::new(alloc);
    for column in columns {
        let expr = rename(alloc, &column.right, places)?;
        exprs.push(expr)?;
    }
    Ok(exprs)
}

/// A set operation of the rows that its columns are of those of two trees, behind a domain row of
/// `start` columns.
pub fn combined(
    alloc: Global,
    left: Rows,
    right: Rows,
    columns: &[SetColumn],
    operation: SetOperation,
    start: u32,
) -> Result<Rows, AllocError>
    ensures { IfOk result (λ r. IsSetTree left.tree left.width right.tree right.width columns.now
        operation start r.tree r.width) }
{
    let width = u32::try_from(columns.len()).map_err(|_| AllocError)?;
    let places = with_left_row(Items::new(alloc), start, left.width)?;
    let exprs = left_list(alloc, columns, places.as_slice())?;
    let left = Boxed::new(alloc, DepTree::Project(left.tree, exprs))?;
    let places = with_left_row(Items::new(alloc), start, right.width)?;
    let exprs = right_list(alloc, columns, places.as_slice())?;
    let right = Boxed::new(alloc, DepTree::Project(right.tree, exprs))?;
    let tree = Boxed::new(alloc, DepTree::Set(left, right, operation))?;
    Ok(Rows { tree, width })
}
