//! Lists of columns and pairs that nodes hold.
ghost use Rattle.std.specs.Prelude.{◌≡◌, map, ◌++◌, IfOk};
ghost use Rattle.std.specs.List.{range_with_len};
ghost use Rattle.base_row_laws.specs.Matched.{numbered, side_matched};
ghost use Rattle.expr_scalar.specs.declared.expr.Expr.TheVariants.{Column as column_of};
ghost use Rattle.plan_algebra.specs.Trees.{side_of};
ghost use Rattle.plan_unnested_nodes.specs.OwnColumns.{with_own};

use expr_scalar::Expr;
use plan_algebra::{Side, copy_exprs};
use sqlite_items::Items;
use std::alloc::{AllocError, Global};

// The first columns.
pub(crate) fn first_columns(alloc: Global, width: u32) -> Result<Items<u32>, AllocError>
    ensures { IfOk result (λ all. all ≡ range_with_len 0 width) }
{
    let mut all = Items::new(alloc);
    for i in 0..width {
        all.push(i)?;
    }
    Ok(all)
}

// The first columns, and after them these.
pub(crate) fn with_first_columns(
    alloc: Global,
    width: u32,
    columns: &[u32],
) -> Result<Items<u32>, AllocError>
    ensures { IfOk result (λ all. all ≡ range_with_len 0 width ++ columns.now) }
{
    let mut all = first_columns(alloc, width)?;
    let more = Items::from_slice(alloc, columns)?;
    all.append(more)?;
    Ok(all)
}

// A select list of the first columns, and after them these expressions.
pub(crate) fn select_list(alloc: Global, width: u32, es: &[Expr]) -> Result<Items<Expr>, AllocError>
    ensures { IfOk result (λ all. all ≡ map column_of (range_with_len 0 width) ++ es.now) }
{
    let mut all = Items::new(alloc);
    for i in 0..width {
        all.push(Expr::Column(i))?;
    }
    let more = copy_exprs(alloc, es)?;
    all.append(more)?;
    Ok(all)
}

// These columns of rows of this width, and after them all of their columns.
pub(crate) fn own_and_all(alloc: Global, own: &[u32], width: u32) -> Result<Items<u32>, AllocError>
    ensures { IfOk result (λ all. all ≡ with_own own.now width) }
{
    let mut all = Items::from_slice(alloc, own)?;
    let more = first_columns(alloc, width)?;
    all.append(more)?;
    Ok(all)
}

// A select list of these columns.
pub(crate) fn column_list(alloc: Global, columns: &[u32]) -> Result<Items<Expr>, AllocError>
    ensures { IfOk result (λ all. all ≡ map column_of columns.now) }
{
    let mut all = Items::new(alloc);
    for column in columns {
        all.push(Expr::Column(*column))?;
    }
    Ok(all)
}

// The pairs of these columns with the right side's first ones.
fn numbered_pairs(alloc: Global, columns: &[u32]) -> Result<Items<(u32, u32)>, AllocError>
    ensures { IfOk result (λ pairs. pairs ≡ numbered columns.now) }
{
    let mut pairs = Items::new(alloc);
    for (i, column) in columns.iter().enumerate() {
        let i = u32::try_from(i).map_err(|_| AllocError)?;
        pairs.push((*column, i))?;
    }
    Ok(pairs)
}

// The pairs by which a right side is matched: its domain's columns are its first ones.
pub(crate) fn matched_columns(
    alloc: Global,
    side: &Side,
    width: u32,
) -> Result<Items<(u32, u32)>, AllocError>
    ensures { IfOk result (λ pairs. pairs ≡ side_matched (side_of side.now) width) }
{
    match side {
        Side::Closed => Ok(Items::new(alloc)),
        Side::Shared => {
            let columns = first_columns(alloc, width)?;
            let pairs = numbered_pairs(alloc, columns.as_slice())?;
            Ok(pairs)
        }
        Side::Dependent(columns) => {
            let pairs = numbered_pairs(alloc, columns.as_slice())?;
            Ok(pairs)
        }
    }
}
